//! The pool.
ghost use Rattle.std.specs.Prelude.{◌≡◌, ◌≢◌, ◌+◌, ◌-◌, ◌<◌, ◌≤◌, ◌^◌, ◌↔◌, ℕ, [], Some, None, Err, IsOk, IsTrue, OnOk, OnSome, IfNone, option_copied};
ghost use Rattle.std.specs.Option.{option_copied_mut};
ghost use Rattle.std.specs.Borrow.{sem};
ghost use Rattle.node_pool.specs.Nodes.{Nodes, value_at, IsLive, IsSpent, KeepsSpent, IsNext, live_count, SameRing, SameValues, SameCounts, SameRings, Updates, PartsFrom, UnitesRings, SameOrder, ExchangesNext, PassesOver, HasNode, key_in, next_slot, next_key};

use crate::ring::Ring;
use crate::rings::Rings;
use crate::store::Store;
use std::alloc::{AllocError, Global};
use std::marker::Model;
use thiserror::Error;

/// The name of a node: its slot, and the number of its insertion, which no other key has.
#[derive(Clone, Copy, Debug, PartialEq, Eq, PartialOrd, Ord, Hash)]
pub struct Key {
    slot: u32,
    number: u64,
}

/// Why a pool has no room.
#[derive(Clone, Copy, Debug, PartialEq, Eq, Error)]
pub enum PoolFault {
    /// There are slots for 2^32 − 1 nodes.
    #[error("the pool is full")]
    Full,
    /// There was no memory.
    #[error("out of memory")]
    Memory,
}

impl From<AllocError> for PoolFault {
    ghost use Rattle.node_pool.specs.declared.pool.PoolFault.TheVariants.{Memory};

    ghost from_gives = { λ _ fault. fault ≡ Memory };

    fn from(_error: AllocError) -> PoolFault {
        PoolFault::Memory
    }
}

/// A value with the number of its insertion.
#[derive(Drop)]
struct Node<T> {
    number: u64,
    value: T,
}

/// Values under keys of their own, in nodes that never move, with `R` partitions of the keys into rings.
#[derive(Drop)]
pub struct Pool<T, const R: usize> {
    nodes: Store<Node<T>>,
    rings: Rings,
    issued: u64,
}

impl<T, const R: usize> Model for Pool<T, R> {
    ghost use Rattle.node_pool.specs.Nodes.{Nodes, nodes_code};

    ghost Value = { Nodes T };

    ghost coded = { nodes_code T.code };

    ghost use Rattle.node_pool.specs.Pool.{nodes_of, IsPool};

    ghost view = { λ p. nodes_of p.nodes p.rings p.issued };

    ghost invariant = { λ p. IsPool R p.nodes p.rings p.issued };
}

impl<T, const R: usize> Pool<T, R> {
    ghost use Rattle.node_pool.specs.PoolLends.{lends_value, lends_get};
    ghost use Rattle.node_pool.specs.Laws.{RingsGoRound};

    /// A pool with no nodes, which takes no memory.
    pub fn new(alloc: Global) -> Self
        ensures { result ≡ record { slots = []; next = []; partitions = R; spare = 0; issued = 0 } }
    {
        Pool {
            nodes: Store::new(alloc),
            rings: Rings::new(alloc, R),
            issued: 0,
        }
    }

    /// Makes room for `n` more nodes, so that as many calls of `insert` can't fail.
    ///
    /// # Errors
    /// `Full` where there would be more than 2^32 − 1 nodes, and `Memory` where there is no memory for them; neither where
    /// the room is there already.
    pub fn reserve(&mut self, n: usize) -> Result<(), PoolFault>
        ensures room { OnOk result (n ≤ self.new.spare) }
        ensures ready { n ≤ self.old.spare → IsOk result }
        ensures full { (result ≡ Err PoolFault.Full) ↔ (2 ^ 32 - 1 < live_count self.old + n) }
        ensures values { SameValues self.old self.new }
        ensures counts { (live_count self.new ≡ live_count self.old) × (self.old.spare ≤ self.new.spare)
            × (self.new.issued ≡ self.old.issued) }
        ensures spent { KeepsSpent self.old self.new }
        ensures rings { (r : ℕ) → r < R → SameRings self.old self.new r }
        ensures order { (r : ℕ) → r < R → SameOrder self.old self.new r }
        ensures round { RingsGoRound R self.new }
    {
        if n <= self.spare() {
            return Ok(());
        }
        if n > 0xffff_ffff - self.nodes.len() {
            return Err(PoolFault::Full);
        }
        while self.spare() < n {
            self.grow()?;
        }
        Ok(())
    }

    // How many nodes can be inserted with no growth.
    fn spare(&self) -> usize
        ensures { result ≡ self.now.spare }
    {
        self.nodes.room() - self.nodes.len()
    }

    // Adds room to a pool that isn't at its largest.
    fn grow(&mut self) -> Result<(), AllocError>
        requires { live_count self.old + self.old.spare < 2 ^ 32 - 1 }
        ensures values { self.new.slots ≡ self.old.slots }
        ensures issued { self.new.issued ≡ self.old.issued }
        ensures spare { OnOk result (self.old.spare < self.new.spare) }
        ensures kept { self.old.spare ≤ self.new.spare }
        ensures rings { (r : ℕ) → r < R → SameRings self.old self.new r }
        ensures order { (r : ℕ) → r < R → SameOrder self.old self.new r }
        ensures round { RingsGoRound R self.new }
    {
        if self.rings.slots() == self.nodes.room() {
            self.rings.grow()?;
        }
        self.nodes.grow()
    }

    /// Adds a node with this value, alone in each of its rings. The others follow one another as they did.
    pub fn insert(&mut self, value: T) -> Key
        requires spare { 1 ≤ self.old.spare }
        requires issued { self.old.issued < 2 ^ 64 - 1 }
        ensures next { IsNext self.old result }
        ensures fresh { value_at self.old result ≡ None }
        ensures updates { Updates self.old self.new result (Some value) }
        ensures counts { (live_count self.new ≡ live_count self.old + 1) × (self.new.spare + 1 ≡ self.old.spare)
            × (self.new.issued ≡ self.old.issued + 1) }
        ensures spent { KeepsSpent self.old self.new }
        ensures rings { (r : ℕ) → r < R → PartsFrom self.old self.new r result }
        ensures order { (r : ℕ) → r < R → SameOrder self.old self.new r × (next_key self.new r result ≡ result) }
        ensures round { RingsGoRound R self.new }
    {
        let number = self.issued;
        self.issued += 1;
        let slot = self.nodes.insert(Node { number, value }) as u32;
        Key { slot, number }
    }

    /// The value at the key.
    pub fn get(&self, key: Key) -> Option<&T>
        ensures { option_copied result ≡ value_at self.now key }
    {
        match self.nodes.get(key.slot as usize) {
            Some(node) if node.number == key.number => Some(&node.value),
            _ => None,
        }
    }

    // Whether the key has a node.
    fn is_live(&self, key: Key) -> bool
        ensures { IsTrue result ↔ IsLive self.now key }
    {
        self.get(key).is_some()
    }

    /// The value at the key, to write to.
    pub fn get_mut(&mut self, key: Key) -> Option<&mut T>
        ensures* writes_back { sem 𝓛 (lends_get T.row R.row self.entry key result) }
        ensures value { option_copied_mut result ≡ value_at self.old key }
    {
        if self.is_live(key) {
            Some(self.value_mut(key))
        } else {
            None
        }
    }

    fn value_mut(&mut self, key: Key) -> &mut T
        requires { IsLive self.old key }
        ensures* writes_back { sem 𝓛 (lends_value T.row R.row self.entry key result) }
        ensures value { value_at self.old key ≡ Some result.now }
    {
        let node = self.nodes.node_mut(key.slot as usize);
        &mut node.value
    }

    /// Takes the node out of the pool and of its rings, and answers its value. The others of a ring stay together, in their
    /// order.
    pub fn take(&mut self, key: Key) -> Option<T>
        ensures value { result ≡ value_at self.old key }
        ensures updates { Updates self.old self.new key None }
        ensures gone { OnSome result (IsSpent self.new key) }
        ensures spent { KeepsSpent self.old self.new }
        ensures counts { OnSome result (live_count self.new + 1 ≡ live_count self.old) }
        ensures spare { self.old.spare ≤ self.new.spare }
        ensures issued { self.new.issued ≡ self.old.issued }
        ensures rings { (r : ℕ) → r < R → PartsFrom self.old self.new r key }
        ensures order { OnSome result ((r : ℕ) → r < R → PassesOver self.old self.new r key) }
        ensures absent { IfNone result (self.new ≡ self.old) }
        ensures round { RingsGoRound R self.new }
    {
        if !self.is_live(key) {
            return None;
        }
        for r in 0..R {
            self.rings.cut(r, key.slot);
        }
        let Node { number: _, value } = self.nodes.remove(key.slot as usize);
        Some(value)
    }

    /// Unites the rings of `a` and `b` in the `r`-th partition: what came after `b` now comes after `a`, and what came after
    /// `a` after `b`. The other partitions stay, in their order.
    pub fn join_rings(&mut self, r: usize, a: Key, b: Key)
        requires r_in_range { r < R }
        requires a { IsLive self.old a }
        requires b { IsLive self.old b }
        requires apart { SameRing self.old r a b → ⊥ }
        ensures values { SameValues self.old self.new }
        ensures counts { SameCounts self.old self.new }
        ensures spent { KeepsSpent self.old self.new }
        ensures united { UnitesRings self.old self.new r a b }
        ensures exchanged { ExchangesNext self.old self.new r a b }
        ensures others { (q : ℕ) → q < R → q ≢ r → SameRings self.old self.new q }
        ensures order { (q : ℕ) → q < R → q ≢ r → SameOrder self.old self.new q }
        ensures round { RingsGoRound R self.new }
    {
        self.rings.join(r, a.slot, b.slot);
    }

    /// Parts `a` from the others of its ring in the `r`-th partition, which stay together, in their order. The other partitions
    /// stay as they are.
    pub fn cut(&mut self, r: usize, a: Key)
        requires r_in_range { r < R }
        requires live { IsLive self.old a }
        ensures values { SameValues self.old self.new }
        ensures counts { SameCounts self.old self.new }
        ensures spent { KeepsSpent self.old self.new }
        ensures parted { PartsFrom self.old self.new r a }
        ensures passed { PassesOver self.old self.new r a × (next_key self.new r a ≡ a) }
        ensures others { (q : ℕ) → q < R → q ≢ r → SameRings self.old self.new q }
        ensures order { (q : ℕ) → q < R → q ≢ r → SameOrder self.old self.new q }
        ensures round { RingsGoRound R self.old × RingsGoRound R self.new }
    {
        self.rings.cut(r, a.slot);
    }

    // The key of the node in the slot, and the slot after it in a partition.
    pub(crate) fn step(&self, r: usize, slot: u32) -> (Key, u32)
        requires r_in_range { r < R }
        requires held { HasNode self.now slot }
        ensures key { result.0 ≡ key_in self.now slot }
        ensures next { result.1 ≡ next_slot self.now r slot }
        ensures held { HasNode self.now result.1 }
    {
        let next = self.rings.neighbours(r, slot).next;
        match self.nodes.get(slot as usize) {
            Some(node) => {
                let key = Key {
                    slot,
                    number: node.number,
                };
                (key, next)
            }
            None => unreachable!(),
        }
    }
}

impl<T, const R: usize> Pool<T, R> {
    ghost use Rattle.node_pool.specs.RingKeys.{ring_keys, IsRing};
    ghost use Rattle.node_pool.specs.Laws.{RingsGoRound};

    /// The keys of the ring of `a` in the `r`-th partition, each once, `a` first, each before the key after it.
    pub fn ring(&self, r: usize, a: Key) -> Ring<'_, T, R>
        requires r_in_range { r < R }
        requires live { IsLive self.now a }
        ensures { IsRing self.now r a (ring_keys result) }
    {
        Ring {
            pool: self,
            r,
            first: a.slot,
            slot: a.slot,
            left: self.rings.slots(),
        }
    }

    /// A law: in each partition steps from a live key go over the keys of its ring, each once, and come back to it.
    #[inline]
    pub fn rings_go_round(&self)
        ensures { RingsGoRound R self.now }
    {
        let _issued = self.issued;
    }
}
