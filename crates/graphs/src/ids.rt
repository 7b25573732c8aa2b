ghost use Rattle.std.specs.Prelude.{◌≡◌, ◌+◌, ◌-◌, ◌<◌, [], ◌∷◌, ◌++◌, length, IfOk};

use crate::TxId;
use crate::owned::Owned;
use outside::NoMemory;
use std::alloc::Global;
use std::marker::Model;

/// A list of names.
pub type IdList = Owned<TxId>;

/// A list of names with room that was taken when it was made.
#[derive(Debug, Drop)]
pub struct IdBuf {
    ids: Vec<TxId>,
    most: usize,
}

impl Model for IdBuf {
    ghost use Rattle.std.specs.Prelude.{◌-◌, ◌≤◌, length, vec_capacity};
    ghost use Rattle.graphs.specs.Rooms.{Room};

    ghost Value = { Room };

    ghost view = { λ a. record { ids = a.ids.items; room = a.most - length a.ids.items } };

    ghost invariant = { λ a. (length a.ids.items ≤ a.most) × (a.most ≤ vec_capacity a.ids) };
}

impl IdBuf {
    ghost use Rattle.std.specs.List.Sorted.{IsPermutation, IsNonDecreasing};
    ghost use Rattle.graphs.specs.Rooms.{Room};

    /// An empty list with room for this many names.
    pub fn new(alloc: Global, room: usize) -> Result<IdBuf, NoMemory>
        ensures { IfOk result (λ buf. buf ≡ record { ids = []; room = room }) }
    {
        let ids = Vec::with_capacity(alloc, room)?;
        Ok(IdBuf { ids, most: room })
    }

    /// Drops the names; their room is free again.
    pub fn clear(&mut self)
        ensures { self.new ≡ record { ids = []; room = self.old.room + length self.old.ids } }
    {
        self.ids.clear();
    }

    /// Adds a name at the end.
    pub fn push(&mut self, id: TxId)
        requires { 0 < self.old.room }
        ensures { self.new ≡ record { ids = self.old.ids ++ id ∷ []; room = self.old.room - 1 } }
    {
        match self.ids.push(id) {
            Ok(()) => {}
            Err(_) => unreachable!(),
        }
    }

    /// The names in order.
    pub fn ids(&self) -> &[TxId]
        ensures { result.now ≡ self.now.ids }
    {
        self.ids.as_slice()
    }

    /// How many names there is room for, those that are held among them.
    pub fn capacity(&self) -> usize
        ensures { result ≡ length self.now.ids + self.now.room }
    {
        self.most
    }

    /// Puts the names into rising order. Takes no memory.
    pub fn sort(&mut self)
        ensures room { self.new.room ≡ self.old.room }
        ensures permutation { IsPermutation self.old.ids self.new.ids }
        ensures sorted { IsNonDecreasing self.new.ids }
    {
        self.ids.sort_unstable();
    }
}
