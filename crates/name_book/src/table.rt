//! The table that a book of names is kept in.
ghost use Rattle.std.specs.Prelude.{◌≡◌, ◌≢◌, ◌+◌, ◌-◌, ◌<◌, ◌≤◌, ◌^◌, ℕ, false, Contains, IsOk, OnOk, MatchOption};
ghost use Rattle.std.specs.FinMap as finmap;
ghost use Rattle.std.specs.FinSet as set;
ghost use Rattle.lists.specs.Distinct.{AreDistinct};
ghost use Rattle.name_book.specs.Books.{has, IsNamed, AreRung};
ghost use Rattle.name_book.specs.Changes.{KeepsRing, GainsAlone, Loses, CutsOut, Gathers, MakesRing};

use crate::keys::{cut_key, find_key, move_names, name_after};
use graphs::TxId;
use indexmap::IndexMap;
use node_pool::{Key, Pool, PoolFault};
use outside::NoMemory;
use std::alloc::Global;
use std::marker::Model;

/// Live names, with two partitions of them into rings. A ring is told by its number, 0 or 1, and a name in it.
#[derive(Drop)]
pub struct RingTable {
    // The key of each live name's node.
    names: IndexMap<TxId, Key>,
    // The names, with their rings.
    nodes: Pool<TxId, 2>,
    // How many names can be inserted with the room that was taken.
    spare: usize,
}

impl Model for RingTable {
    ghost use Rattle.indexmap.specs.IndexMap.{spare as index_spare};
    ghost use Rattle.name_book.specs.Books.{Table, table_code};
    ghost use Rattle.name_book.specs.Tables.{table_of, IsTable};

    ghost Value = { Table };

    ghost coded = { table_code };

    ghost view = { λ b. table_of b.nodes b.names.entries b.spare };

    ghost invariant = { λ b. IsTable b.nodes b.names.entries (index_spare b.names) b.spare };
}

impl RingTable {
    /// A table of no names. Takes no memory.
    pub fn new(alloc: Global) -> Self
        ensures { result ≡ record { names = set.empty; ring_0 = finmap.empty; ring_1 = finmap.empty; spare = 0; issued = 0 } }
    {
        RingTable {
            names: IndexMap::new(alloc),
            nodes: Pool::new(alloc),
            spare: 0,
        }
    }

    /// Makes room for `n` more names, so that as many calls of `insert` can't fail.
    ///
    /// # Errors
    /// Where there is no memory for them, and the room isn't there already. Names and rings are as they were, and the room is no
    /// less.
    pub fn reserve(&mut self, n: usize) -> Result<(), NoMemory>
        requires few { set.len self.old.names + n ≤ 2 ^ 32 - 1 }
        ensures room { OnOk result (n ≤ self.new.spare) }
        ensures ready { n ≤ self.old.spare → IsOk result }
        ensures kept { self.old.spare ≤ self.new.spare }
        ensures same { (self.new.names ≡ self.old.names) × (self.new.issued ≡ self.old.issued) }
        ensures rings { (r : ℕ) → r < 2 → KeepsRing self.old self.new r }
    {
        if n <= self.spare {
            return Ok(());
        }
        self.names.reserve(n)?;
        match self.nodes.reserve(n) {
            Ok(()) => {}
            Err(PoolFault::Memory) => return Err(NoMemory),
            Err(PoolFault::Full) => unreachable!(),
        }
        self.spare = n;
        Ok(())
    }

    /// How many names are live.
    pub fn len(&self) -> usize
        ensures { result ≡ set.len self.now.names }
    {
        self.names.len()
    }

    /// Whether a name is live.
    pub fn has(&self, id: TxId) -> bool
        ensures { result ≡ has self.now id }
    {
        self.names.contains_key(&id)
    }

    /// Adds a name that isn't live, alone in both rings. Takes no memory.
    pub fn insert(&mut self, id: TxId)
        requires absent { has self.old id ≡ false }
        requires spare { 1 ≤ self.old.spare }
        requires issued { self.old.issued < 2 ^ 64 - 1 }
        ensures names { self.new.names ≡ set.insert self.old.names id }
        ensures rings { (r : ℕ) → r < 2 → GainsAlone self.old self.new r id }
        ensures counts { (self.new.spare + 1 ≡ self.old.spare) × (self.new.issued ≡ self.old.issued + 1) }
    {
        let key = self.nodes.insert(id);
        match self.names.insert(id, key) {
            Ok(_) => self.spare -= 1,
            Err(_) => unreachable!(),
        }
    }

    /// Drops a live name. In both rings the others of its ring stay together. Takes no memory.
    pub fn remove(&mut self, id: TxId)
        requires live { IsNamed self.old id }
        ensures names { self.new.names ≡ set.remove self.old.names id }
        ensures rings { (r : ℕ) → r < 2 → Loses self.old self.new r id }
        ensures counts { (self.new.spare ≡ self.old.spare) × (self.new.issued ≡ self.old.issued) }
    {
        if let Some(key) = self.names.swap_remove(&id) {
            self.nodes.take(key);
        }
    }

    /// Cuts a live name out of its ring `r`: it is alone then, and the others stay together. The rings of the other number stay. Takes no
    /// memory.
    pub fn cut(&mut self, r: usize, a: TxId)
        requires r_in_range { r < 2 }
        requires live { IsNamed self.old a }
        ensures cut { CutsOut self.old self.new r a }
        ensures others { (q : ℕ) → q < 2 → q ≢ r → KeepsRing self.old self.new q }
        ensures same { (self.new.names ≡ self.old.names) × (self.new.spare ≡ self.old.spare) × (self.new.issued ≡ self.old.issued) }
    {
        let key = find_key(&self.names, a);
        cut_key(&mut self.nodes, r, key);
    }

    /// Names leave their rings `r` and make one of their own. The others of each ring stay together. The rings of the other number stay.
    /// Takes no memory, and looks each name up once.
    pub fn make_ring(&mut self, r: usize, names: &[TxId])
        requires r_in_range { r < 2 }
        requires live { (x : ℕ) → Contains names.now x → IsNamed self.old x }
        requires once { AreDistinct names.now }
        ensures made { MakesRing self.old self.new r names.now }
        ensures others { (q : ℕ) → q < 2 → q ≢ r → KeepsRing self.old self.new q }
        ensures same { (self.new.names ≡ self.old.names) × (self.new.spare ≡ self.old.spare) × (self.new.issued ≡ self.old.issued) }
    {
        if let Some((&first, rest)) = names.split_first() {
            let to = find_key(&self.names, first);
            cut_key(&mut self.nodes, r, to);
            move_names(&mut self.nodes, &self.names, r, to, rest);
        }
    }

    /// Names leave their rings `r` and join that of `to`, which is none of them. The rings of the other number stay. Takes no memory, and
    /// looks each name up once.
    pub fn gather(&mut self, r: usize, to: TxId, names: &[TxId])
        requires r_in_range { r < 2 }
        requires live { IsNamed self.old to × ((x : ℕ) → Contains names.now x → IsNamed self.old x) }
        requires apart { Contains names.now to → ⊥ }
        ensures gathered { Gathers self.old self.new r to names.now }
        ensures others { (q : ℕ) → q < 2 → q ≢ r → KeepsRing self.old self.new q }
        ensures same { (self.new.names ≡ self.old.names) × (self.new.spare ≡ self.old.spare) × (self.new.issued ≡ self.old.issued) }
    {
        let key = find_key(&self.names, to);
        move_names(&mut self.nodes, &self.names, r, key, names);
    }

    /// Another name of the ring `r` of a live name, or `None` where it is alone.
    pub fn other(&self, r: usize, a: TxId) -> Option<TxId>
        requires r_in_range { r < 2 }
        requires live { IsNamed self.now a }
        ensures { MatchOption result ((x : ℕ) → AreRung self.now r a x → x ≡ a) (λ b. AreRung self.now r a b × b ≢ a) }
    {
        let key = find_key(&self.names, a);
        name_after(&self.nodes, r, key)
    }
}
