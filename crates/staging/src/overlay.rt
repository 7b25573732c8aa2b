ghost use Rattle.std.specs.Prelude.{◌≡◌, ◌+◌, ◌-◌, ◌<◌, ◌≤◌, None, Some, IsOk, IsSome, IsTrue, OnOk, OnSome, is_some, nat_eq, option_copied, slice_get};
ghost use Rattle.std.specs.FinMap as finmap;
ghost use Rattle.indexmap.specs.IndexMap.{get as map_get, index_map_len, spare as room_of, Updates};
ghost use Rattle.staging.specs.Maps.{top_of, map_of};
ghost use Rattle.staging.specs.Changes.{changed, applied, map_of_entries};
ghost use Rattle.staging.specs.declared.overlay.TheConstants.{LOOKED_UP};

use graphs::Level;
use indexmap::IndexMap;
use outside::NoMemory;
use std::alloc::Global;
use std::marker::Model;

// How many changed keys are looked up before the first of them is written. A look-up waits for memory, and look-ups that follow one
// another wait at the same time.
const LOOKED_UP: usize = 16;

/// A base map and, while something is staged, a second map that started as a copy of it.
///
/// `get` takes one or two look-ups, `put` and `remove` one. `commit` and `abort` cost the keys that were changed since
/// `begin`, and `begin` costs nothing. `reserve` alone takes memory.
#[derive(Drop)]
pub struct Overlay<V> {
    base: IndexMap<u64, V>,
    // What the staged map has at each key that was changed: a value, or nothing.
    changes: IndexMap<u64, Option<V>>,
    staged: bool,
    // How many keys can be put or removed with the room that was taken.
    spare: usize,
}

impl<V> Model for Overlay<V> {
    ghost use Rattle.indexmap.specs.IndexMap.{spare as room_of};
    ghost use Rattle.staging.specs.Maps.{Maps, maps_code};
    ghost use Rattle.staging.specs.Changes.{maps_of, IsOverlay};

    ghost Value = { Maps V };

    ghost coded = { maps_code V.code };

    ghost view = { λ o. maps_of o.base.entries o.changes.entries o.staged o.spare };

    ghost invariant = { λ o. IsOverlay o.changes.entries o.staged (room_of o.base) (room_of o.changes) o.spare };
}

// The value at a key of a map, which mostly has no entries.
fn find<W>(map: &IndexMap<u64, W>, key: u64) -> Option<&W>
    ensures { option_copied result ≡ map_get nat_eq map.now key }
{
    if map.is_empty() {
        return None;
    }
    map.get(&key)
}

// Gives a key of a map a value. Takes no memory.
fn put_reserved<W: Drop>(map: &mut IndexMap<u64, W>, key: u64, value: W)
    requires { 0 < room_of map.old }
    ensures updates { Updates nat_eq map.old map.new key (Some value) }
    ensures room { room_of map.old ≤ room_of map.new + 1 }
    ensures len { index_map_len map.new ≤ index_map_len map.old + 1 }
{
    match map.insert(key, value) {
        Ok(_) => {}
        Err(_) => unreachable!(),
    }
}

// Gives a key of a map a value, or none. Takes no memory.
fn change_reserved<W: Drop>(map: &mut IndexMap<u64, W>, key: u64, value: Option<W>)
    requires { 0 < room_of map.old }
    ensures updates { Updates nat_eq map.old map.new key value }
    ensures room { room_of map.old ≤ room_of map.new + 1 }
{
    match value {
        Some(value) => put_reserved(map, key, value),
        None => {
            map.swap_remove(&key);
        }
    }
}

// Whether a key stands at an index.
fn stands_at<W>(map: &IndexMap<u64, W>, index: usize, key: u64) -> bool
    ensures { IsTrue result → (value : W) × (slice_get map.now.entries index ≡ Some (key, value)) }
{
    match map.get_index(index) {
        Some((found, _)) => *found == key,
        None => false,
    }
}

// Gives the key that stands at an index a value. It isn't looked up.
fn write_at<W: Drop>(map: &mut IndexMap<u64, W>, index: usize, key: u64, value: W)
    requires { (value : W) × (slice_get map.old.entries index ≡ Some (key, value)) }
    ensures updates { Updates nat_eq map.old map.new key (Some value) }
    ensures room { room_of map.old ≤ room_of map.new }
{
    if let Some(old) = map.get_index_mut(index) {
        *old = value;
    }
}

// Gives a key of a map a value. Where it stands at the place that was remembered it isn't looked up again. Takes no memory.
fn put_at<W: Drop>(map: &mut IndexMap<u64, W>, place: Option<usize>, key: u64, value: W)
    requires { 0 < room_of map.old }
    ensures updates { Updates nat_eq map.old map.new key (Some value) }
    ensures room { room_of map.old ≤ room_of map.new + 1 }
{
    match place {
        Some(index) if stands_at(map, index, key) => write_at(map, index, key, value),
        _ => put_reserved(map, key, value),
    }
}

// Gives a key of a map a value, or none, as `change_reserved` does.
fn change_at<W: Drop>(map: &mut IndexMap<u64, W>, place: Option<usize>, key: u64, value: Option<W>)
    requires { 0 < room_of map.old }
    ensures updates { Updates nat_eq map.old map.new key value }
    ensures room { room_of map.old ≤ room_of map.new + 1 }
{
    match value {
        Some(value) => put_at(map, place, key, value),
        None => change_reserved(map, key, None),
    }
}

// Where the last changed keys stand in the base, from the last one on.
fn look_up<V>(
    base: &IndexMap<u64, V>,
    changes: &IndexMap<u64, Option<V>>,
) -> [Option<usize>; LOOKED_UP] {
    let mut places = [None; LOOKED_UP];
    let n = changes.len();
    for i in 0..n.min(LOOKED_UP) {
        if let Some((key, _)) = changes.get_index(n - 1 - i) {
            places[i] = base.get_index_of(key);
        }
    }
    places
}

// Brings the last changed keys into the base, as many as are looked up at once.
fn commit_few<V: Drop>(base: &mut IndexMap<u64, V>, changes: &mut IndexMap<u64, Option<V>>)
    requires { index_map_len changes.old ≤ room_of base.old }
    ensures applied { applied (map_of_entries base.new.entries) changes.new.entries
        ≡ applied (map_of_entries base.old.entries) changes.old.entries }
    ensures len { index_map_len changes.new ≡ index_map_len changes.old - LOOKED_UP }
    ensures base_room { room_of base.old + index_map_len changes.new ≤ room_of base.new + index_map_len changes.old }
    ensures change_room { room_of changes.old ≤ room_of changes.new }
{
    // A key may have left its place by the time that it is written: to remove another moves the last key of the base.
    let places = look_up(base, changes);
    let few = changes.len().min(LOOKED_UP);
    for place in &places[..few] {
        let Some((key, value)) = changes.pop() else {
            unreachable!()
        };
        change_at(base, *place, key, value);
    }
}

impl<V: Drop> Overlay<V> {
    /// An empty base map, with nothing staged. Takes no memory.
    pub fn new(alloc: Global) -> Self
        ensures { result ≡ record { base = finmap.empty; top = None; spare = 0 } }
    {
        Overlay {
            base: IndexMap::new(alloc),
            changes: IndexMap::new(alloc),
            staged: false,
            spare: 0,
        }
    }

    /// Whether something is staged.
    pub fn staged(&self) -> bool
        ensures { result ≡ is_some self.now.top }
    {
        self.staged
    }

    /// The value at a key in the map of a level, or `None` where it has none there. The top level is the staged map where
    /// something is staged, else the base.
    #[tactic(auto, using(crate::proofs::ChangeLemmas::base_gets))]
    pub fn get(&self, level: Level, key: u64) -> Option<&V>
        ensures { option_copied result ≡ finmap.get (map_of level self.now) key }
    {
        match level {
            Level::Main => self.base.get(&key),
            Level::Top => self.get_top(key),
        }
    }

    fn get_top(&self, key: u64) -> Option<&V>
        ensures { option_copied result ≡ finmap.get (top_of self.now) key }
    {
        match find(&self.changes, key) {
            Some(change) => change.as_ref(),
            None => self.base.get(&key),
        }
    }

    /// Makes room, so that as many calls of `put` and `remove` as `n` can't fail, nor a `commit` after them.
    ///
    /// # Errors
    /// Where there is no memory for them. Both maps are as they were, and the room is no less.
    pub fn reserve(&mut self, n: usize) -> Result<(), NoMemory>
        ensures room { OnOk result (n ≤ self.new.spare) }
        ensures kept { self.old.spare ≤ self.new.spare }
        ensures base { self.new.base ≡ self.old.base }
        ensures top { self.new.top ≡ self.old.top }
    {
        if n <= self.spare {
            return Ok(());
        }
        let all = self.changes.len().checked_add(n).ok_or(NoMemory)?;
        self.base.reserve(all)?;
        self.changes.reserve(n)?;
        self.spare = n;
        Ok(())
    }

    /// Gives a key of the top level this value. Where something is staged the base stays as it is. Takes no memory, and at most
    /// one of the room that `reserve` made.
    pub fn put(&mut self, key: u64, value: V)
        requires { 1 ≤ self.old.spare }
        ensures top { top_of self.new ≡ finmap.insert (top_of self.old) key value }
        ensures staged { is_some self.new.top ≡ is_some self.old.top }
        ensures base { OnSome self.old.top (self.new.base ≡ self.old.base) }
        ensures spare { self.old.spare ≤ self.new.spare + 1 }
    {
        self.change(key, Some(value));
    }

    /// Takes a key out of the top level, where it may have no value. Where something is staged the base stays as it is. Takes no
    /// memory, and at most one of the room that `reserve` made.
    pub fn remove(&mut self, key: u64)
        requires { 1 ≤ self.old.spare }
        ensures top { top_of self.new ≡ finmap.remove (top_of self.old) key }
        ensures staged { is_some self.new.top ≡ is_some self.old.top }
        ensures base { OnSome self.old.top (self.new.base ≡ self.old.base) }
        ensures spare { self.old.spare ≤ self.new.spare + 1 }
    {
        self.change(key, None);
    }

    // Gives a key of the top level a value, or none.
    fn change(&mut self, key: u64, value: Option<V>)
        requires { 1 ≤ self.old.spare }
        ensures top { top_of self.new ≡ changed (top_of self.old) key value }
        ensures staged { is_some self.new.top ≡ is_some self.old.top }
        ensures base { OnSome self.old.top (self.new.base ≡ self.old.base) }
        ensures spare { self.old.spare ≤ self.new.spare + 1 }
    {
        if self.staged {
            put_reserved(&mut self.changes, key, value);
        } else {
            change_reserved(&mut self.base, key, value);
        }
        self.spare -= 1;
    }

    /// Stages a copy of the base where nothing is staged, and answers `Ok`. Takes no memory, and the room stays.
    pub fn begin(&mut self) -> Result<(), NoMemory>
        requires { self.old.top ≡ None }
        ensures done { IsOk result }
        ensures base { self.new.base ≡ self.old.base }
        ensures top { self.new.top ≡ Some self.old.base }
        ensures spare { self.new.spare ≡ self.old.spare }
    {
        self.staged = true;
        Ok(())
    }

    /// Makes the staged map the base, where there is one. Takes no memory, and the room stays.
    pub fn commit(&mut self)
        requires { IsSome self.old.top }
        ensures base { Some self.new.base ≡ self.old.top }
        ensures top { self.new.top ≡ None }
        ensures spare { self.new.spare ≡ self.old.spare }
    {
        while !self.changes.is_empty() {
            commit_few(&mut self.base, &mut self.changes);
        }
        self.staged = false;
    }

    /// Drops the staged map, where there is one, and the base stays as it is. Takes no memory, and the room stays.
    pub fn abort(&mut self)
        requires { IsSome self.old.top }
        ensures base { self.new.base ≡ self.old.base }
        ensures top { self.new.top ≡ None }
        ensures spare { self.new.spare ≡ self.old.spare }
    {
        // One by one: to clear a table costs all its room, also where few keys were changed.
        while self.changes.pop().is_some() {}
        self.staged = false;
    }
}
