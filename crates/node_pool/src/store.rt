//! Nodes in numbered slots. A slot that a node has left is given to a later node. The list of vacant slots is that of
//! the kit's `slab`.
ghost use Rattle.std.specs.Prelude.{◌≡◌, ◌+◌, ◌*◌, ◌-◌, ◌<◌, ◌≤◌, ◌^◌, [], map, length, IsSome, OnOk, OnErr, Some, None, option_copied};
ghost use Rattle.std.specs.Borrow.{Lends, sem};
ghost use Rattle.node_pool.specs.Row.{grown};
ghost use Rattle.node_pool.specs.Slots.{Slots, node_in, IsHeld, held_count, Updates};
ghost use Rattle.node_pool.specs.Entry.{node_of};

use crate::places::Places;
use std::alloc::{AllocError, Global};
use std::marker::Model;
use std::mem;

/// Nodes in numbered slots.
#[derive(Drop)]
pub(crate) struct Store<N> {
    entries: Places<Entry<N>>,
    // How many entries there are.
    end: usize,
    // How many entries hold a node.
    len: usize,
    // The first of the vacant entries, or `end` where none is vacant.
    next: usize,
}

/// A slot's contents. A vacant one names the next vacant slot.
#[derive(Drop)]
enum Entry<N> {
    Vacant(usize),
    Held(N),
}

impl<N> Model for Store<N> {
    ghost use Rattle.std.specs.Prelude.{map, length, ◌≡◌, ◌≤◌, ◌<◌, ◌^◌};
    ghost use Rattle.node_pool.specs.Slots.{Slots, slots_code};

    ghost Value = { Slots N };

    ghost coded = { slots_code N.code };

    ghost use Rattle.node_pool.specs.Entry.{node_of, IsSound};

    ghost view = { λ s. record { slots = map node_of s.entries.items; room = s.entries.room } };

    ghost invariant = { λ s. IsSound s.entries.items s.len s.next × (s.entries.width ≡ 1) × (s.end ≡ length s.entries.items)
        × (s.end ≤ s.entries.room) × (s.entries.room < 2 ^ 32) };
}

impl<N> Entry<N> {
    ghost use Rattle.node_pool.specs.contracts.store.Entry.{the_row};

    fn node_mut(&mut self) -> &mut N
        requires { IsSome (node_of self.old) }
        ensures* lends { sem 𝓛 (Lends (the_row N.row) N.row self.entry result Entry.Held) }
        ensures value { node_of self.old ≡ Some result.now }
    {
        match self {
            Entry::Held(node) => node,
            Entry::Vacant(_) => unreachable!(),
        }
    }
}

impl<N> Store<N> {
    ghost use Rattle.node_pool.specs.SlotsLends.{lends_node};

    /// A store with no nodes and no room, which takes no memory.
    pub(crate) fn new(alloc: Global) -> Self
        ensures slots { result.slots ≡ [] }
        ensures room { result.room ≡ 0 }
    {
        Store {
            entries: Places::new(alloc, 1),
            end: 0,
            len: 0,
            next: 0,
        }
    }

    /// The number of nodes.
    pub(crate) fn len(&self) -> usize
        ensures { result ≡ held_count self.now }
    {
        self.len
    }

    /// How many nodes there is room for in all.
    pub(crate) fn room(&self) -> usize
        ensures { result ≡ self.now.room }
    {
        self.entries.room()
    }

    /// Makes more room, about twice as much.
    pub(crate) fn grow(&mut self) -> Result<(), AllocError>
        requires { self.old.room < 2 ^ 32 - 1 }
        ensures slots { self.new.slots ≡ self.old.slots }
        ensures ok { OnOk result (self.new.room ≡ grown self.old.room) }
        ensures err { OnErr result (self.new ≡ self.old) }
    {
        self.entries.grow()
    }

    /// The node in the slot, if there is one.
    pub(crate) fn get(&self, slot: usize) -> Option<&N>
        ensures { option_copied result ≡ node_in self.now slot }
    {
        if slot >= self.end {
            return None;
        }
        match self.entries.at(slot) {
            Entry::Held(node) => Some(node),
            Entry::Vacant(_) => None,
        }
    }

    /// The node in the slot, to write to.
    pub(crate) fn node_mut(&mut self, slot: usize) -> &mut N
        requires { IsHeld self.old slot }
        ensures* writes_back { sem 𝓛 (lends_node N.row self.entry slot result) }
        ensures value { node_in self.old slot ≡ Some result.now }
    {
        self.entries.at_mut(slot).node_mut()
    }

    /// Puts the node into a vacant slot, and answers which.
    pub(crate) fn insert(&mut self, node: N) -> usize
        requires { held_count self.old < self.old.room }
        ensures was_vacant { node_in self.old result ≡ None }
        ensures updates { Updates self.old self.new result (Some node) }
        ensures len { held_count self.new ≡ held_count self.old + 1 }
        ensures in_range { result < self.new.room }
    {
        let slot = self.next;
        self.len += 1;
        if slot == self.end {
            self.entries.push(Entry::Held(node));
            self.end += 1;
            self.next = slot + 1;
            return slot;
        }
        match mem::replace(self.entries.at_mut(slot), Entry::Held(node)) {
            Entry::Vacant(next) => self.next = next,
            Entry::Held(_) => unreachable!(),
        }
        slot
    }

    /// Takes the node out of its slot.
    pub(crate) fn remove(&mut self, slot: usize) -> N
        requires { IsHeld self.old slot }
        ensures value { node_in self.old slot ≡ Some result }
        ensures updates { Updates self.old self.new slot None }
        ensures len { held_count self.new + 1 ≡ held_count self.old }
    {
        let vacant = Entry::Vacant(self.next);
        match mem::replace(self.entries.at_mut(slot), vacant) {
            Entry::Held(node) => {
                self.len -= 1;
                self.next = slot;
                node
            }
            Entry::Vacant(_) => unreachable!(),
        }
    }
}
