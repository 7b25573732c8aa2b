//! The plain program with an overlay's contract: two whole maps, the second copied when a staging begins.
ghost use Rattle.std.specs.Prelude.{◌≡◌, ◌+◌, ◌<◌, ◌≤◌, None, Some, IsSome, IfOk, OnOk, OnErr, OnSome, is_some, nat_eq, option_copied};
ghost use Rattle.std.specs.FinMap as finmap;
ghost use Rattle.indexmap.specs.IndexMap.{spare as room_of, Updates};
ghost use Rattle.staging.specs.Maps.{top_of, map_of};

use graphs::Level;
use indexmap::IndexMap;
use outside::NoMemory;
use std::alloc::Global;
use std::marker::Model;
use std::mem::swap;

/// A base map and a staged one, which counts where something is staged alone.
#[derive(Drop)]
pub struct WholeMaps {
    base: IndexMap<u64, u64>,
    top: IndexMap<u64, u64>,
    staged: bool,
    spare: usize,
}

impl Model for WholeMaps {
    ghost use Rattle.std.specs.Prelude.{◌≡◌, ◌≤◌, ℕ, true};
    ghost use Rattle.std.specs.Coded.{coded_ℕ};
    ghost use Rattle.indexmap.specs.IndexMap.{spare as room_of};
    ghost use Rattle.staging.specs.Maps.{Maps, maps_code};
    ghost use Rattle.staging.specs.WholeMaps.{whole_maps};

    ghost Value = { Maps ℕ };

    ghost coded = { maps_code coded_ℕ };

    ghost view = { λ o. whole_maps o.base.entries o.top.entries o.staged o.spare };

    ghost invariant = { λ o. (o.spare ≤ room_of o.base) × (o.staged ≡ true → o.spare ≤ room_of o.top) };
}

fn insert(map: &mut IndexMap<u64, u64>, key: u64, value: u64)
    requires { 0 < room_of map.old }
    ensures updates { Updates nat_eq map.old map.new key (Some value) }
    ensures room { room_of map.old ≤ room_of map.new + 1 }
{
    match map.insert(key, value) {
        Ok(_) => {}
        Err(_) => unreachable!(),
    }
}

// A copy of a map, with room for more entries.
fn copied(map: &IndexMap<u64, u64>, room: usize) -> Result<IndexMap<u64, u64>, NoMemory>
    ensures { IfOk result (λ copy. (copy.entries ≡ map.now.entries) × (room ≤ room_of copy)) }
{
    let mut copy = map.clone()?;
    copy.reserve(room)?;
    Ok(copy)
}

impl WholeMaps {
    pub fn new(alloc: Global) -> Self
        ensures { result ≡ record { base = finmap.empty; top = None; spare = 0 } }
    {
        WholeMaps {
            base: IndexMap::new(alloc),
            top: IndexMap::new(alloc),
            staged: false,
            spare: 0,
        }
    }

    pub fn staged(&self) -> bool
        ensures { result ≡ is_some self.now.top }
    {
        self.staged
    }

    #[tactic(auto, using(staging::proofs::ChangeLemmas::base_gets))]
    pub fn get(&self, level: Level, key: u64) -> Option<&u64>
        ensures { option_copied result ≡ finmap.get (map_of level self.now) key }
    {
        match level {
            Level::Main => self.base.get(&key),
            Level::Top => {
                if self.staged {
                    self.top.get(&key)
                } else {
                    self.base.get(&key)
                }
            }
        }
    }

    pub fn reserve(&mut self, n: usize) -> Result<(), NoMemory>
        ensures room { OnOk result (n ≤ self.new.spare) }
        ensures kept { self.old.spare ≤ self.new.spare }
        ensures base { self.new.base ≡ self.old.base }
        ensures top { self.new.top ≡ self.old.top }
    {
        if n <= self.spare {
            return Ok(());
        }
        self.base.reserve(n)?;
        self.top.reserve(n)?;
        self.spare = n;
        Ok(())
    }

    pub fn put(&mut self, key: u64, value: u64)
        requires { 1 ≤ self.old.spare }
        ensures top { top_of self.new ≡ finmap.insert (top_of self.old) key value }
        ensures staged { is_some self.new.top ≡ is_some self.old.top }
        ensures base { OnSome self.old.top (self.new.base ≡ self.old.base) }
        ensures spare { self.old.spare ≤ self.new.spare + 1 }
    {
        self.spare -= 1;
        if self.staged {
            insert(&mut self.top, key, value);
        } else {
            insert(&mut self.base, key, value);
        }
    }

    pub fn remove(&mut self, key: u64)
        requires { 1 ≤ self.old.spare }
        ensures top { top_of self.new ≡ finmap.remove (top_of self.old) key }
        ensures staged { is_some self.new.top ≡ is_some self.old.top }
        ensures base { OnSome self.old.top (self.new.base ≡ self.old.base) }
        ensures spare { self.old.spare ≤ self.new.spare + 1 }
    {
        if self.staged {
            self.top.swap_remove(&key);
        } else {
            self.base.swap_remove(&key);
        }
    }

    pub fn begin(&mut self) -> Result<(), NoMemory>
        requires { self.old.top ≡ None }
        ensures base { self.new.base ≡ self.old.base }
        ensures top { OnOk result (self.new.top ≡ Some self.old.base) }
        ensures spare { self.new.spare ≡ self.old.spare }
        ensures err { OnErr result (self.new ≡ self.old) }
    {
        self.top = copied(&self.base, self.spare)?;
        self.staged = true;
        Ok(())
    }

    pub fn commit(&mut self)
        requires { IsSome self.old.top }
        ensures base { Some self.new.base ≡ self.old.top }
        ensures top { self.new.top ≡ None }
        ensures spare { self.new.spare ≡ self.old.spare }
    {
        swap(&mut self.base, &mut self.top);
        self.staged = false;
    }

    pub fn abort(&mut self)
        requires { IsSome self.old.top }
        ensures base { self.new.base ≡ self.old.base }
        ensures top { self.new.top ≡ None }
        ensures spare { self.new.spare ≡ self.old.spare }
    {
        self.staged = false;
    }
}
