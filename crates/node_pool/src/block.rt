//! A block of raw memory that never moves, with items in its first places.
ghost use Rattle.std.specs.Prelude.{◌≡◌, ◌+◌, ◌<◌, ◌≤◌, ◌++◌, ◌∷◌, [], ◌^◌, length, slice_get, IfOk, Some, IsTrue, ◌↔◌};
ghost use Rattle.std.specs.Borrow.{sem};
ghost use Rattle.node_pool.specs.Chunk.{chunk};

use crate::cells::{Base, Cells, Deed, allocate, deallocate};
use std::alloc::{AllocError, Global};
use std::marker::Model;
use std_alloc::room::may_hold;

/// Items side by side in memory of their own.
pub(crate) struct Block<S> {
    base: Base<S>,
    cells: Cells<S>,
    deed: Deed<S, Global>,
    alloc: Global,
    capacity: usize,
    len: usize,
}

impl<S> Model for Block<S> {
    ghost use Rattle.node_pool.specs.Chunk.{Chunk, chunk, chunk_code};

    ghost Value = { Chunk S };

    ghost coded = { chunk_code S.code };

    ghost use Rattle.node_pool.specs.CellPlaces.{somes};
    ghost use Rattle.node_pool.specs.Block.{IsBlock};

    ghost view = { λ b. chunk (somes b.cells.slots) b.capacity };

    ghost invariant = { λ b. IsBlock b };
}

impl<S> Block<S> {
    ghost use Rattle.node_pool.specs.BlockLends.{lends_chunk};

    /// A block with room for so many items.
    pub(crate) fn with_capacity(alloc: Global, capacity: usize) -> Result<Self, AllocError>
        ensures made { IfOk result (λ b. b ≡ chunk [] capacity) }
        ensures small { IfOk result (λ _. capacity < 2 ^ 63) }
    {
        if !may_hold::<S>(capacity) {
            return Err(AllocError);
        }
        let (base, cells, deed) = allocate(&alloc, capacity)?;
        Ok(Block {
            base,
            cells,
            deed,
            alloc,
            capacity,
            len: 0,
        })
    }

    /// The number of items.
    pub(crate) fn len(&self) -> usize
        ensures len { result ≡ length self.now.items }
        ensures within { result ≤ self.now.capacity }
    {
        self.len
    }

    /// Whether there is no room for one more item.
    pub(crate) fn is_full(&self) -> bool
        ensures { IsTrue result ↔ (length self.now.items ≡ self.now.capacity) }
    {
        self.len == self.capacity
    }

    /// Puts an item into the first empty place.
    pub(crate) fn push(&mut self, item: S)
        requires { length self.old.items < self.old.capacity }
        ensures { self.new ≡ chunk (self.old.items ++ item ∷ []) self.old.capacity }
    {
        self.cells.write(self.base, self.len, item);
        self.len += 1;
    }

    /// Takes the last item out of its place.
    fn pop(&mut self) -> S
        requires { 0 < length self.old.items }
        ensures items { self.old.items ≡ self.new.items ++ result ∷ [] }
        ensures capacity { self.new.capacity ≡ self.old.capacity }
    {
        self.len -= 1;
        self.cells.read(self.base, self.len)
    }

    /// The item at the index.
    pub(crate) fn get(&self, index: usize) -> &S
        requires { index < length self.now.items }
        ensures { slice_get self.now.items index ≡ Some result.now }
    {
        self.cells.get(self.base, index)
    }

    /// The item at the index, to write to.
    pub(crate) fn get_mut(&mut self, index: usize) -> &mut S
        requires { index < length self.old.items }
        ensures* writes_back { sem 𝓛 (lends_chunk S.row self.entry index result) }
        ensures value { slice_get self.old.items index ≡ Some result.now }
    {
        let base = self.base;
        self.cells.get_mut(base, index)
    }

    // Gives the memory of an empty block back.
    fn free(self)
        requires { self.items ≡ [] }
    {
        let Block {
            base,
            cells,
            deed,
            alloc,
            capacity,
            len: _,
        } = self;
        deallocate(&alloc, base, capacity, cells, deed);
    }
}

impl<S: Drop> Drop for Block<S> {
    fn drop(mut self) {
        while self.len() > 0 {
            drop(self.pop());
        }
        self.free();
    }
}
