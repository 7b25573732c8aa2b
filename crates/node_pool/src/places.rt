//! A row of items in blocks of raw memory, each with twice the room of the one before. No item ever moves.
ghost use Rattle.std.specs.Prelude.{◌≡◌, ◌+◌, ◌-◌, ◌*◌, ◌<◌, ◌++◌, ◌∷◌, [], length, slice_get, OnOk, OnErr, ◌^◌, Some};
ghost use Rattle.std.specs.Borrow.{sem};
ghost use Rattle.node_pool.specs.Row.{Row, row, with_item, grown};
ghost use Rattle.node_pool.specs.Laid.{next_open};

use crate::block::Block;
use std::alloc::{AllocError, Global};
use std::marker::Model;

/// Items side by side, `width` of them for each slot, and room for more.
#[derive(Drop)]
pub(crate) struct Places<S> {
    // Block k has room for 2^k slots.
    blocks: Vec<Block<S>>,
    // How many blocks are full for certain: the next item goes into the block behind them, or behind that where it
    // is full too.
    full: usize,
    room: usize,
    width: usize,
    alloc: Global,
}

impl<S> Model for Places<S> {
    ghost use Rattle.node_pool.specs.Row.{Row, row, row_code};

    ghost Value = { Row S };

    ghost coded = { row_code S.code };

    ghost use Rattle.node_pool.specs.Laid.{flat};
    ghost use Rattle.node_pool.specs.Places.{ArePlaces};

    ghost view = { λ p. row (flat p.blocks.items) p.room p.width };

    ghost invariant = { λ p. ArePlaces p };
}

// The block of a slot, and its place there.
fn locate(slot: usize) -> (usize, usize)
    requires { slot < 2 ^ 32 }
    ensures place { slot + 1 ≡ 2 ^ result.0 + result.1 }
    ensures within { result.1 < 2 ^ result.0 }
{
    let number = slot + 1;
    let block = number.ilog2() as usize;
    (block, number - (1 << block))
}

// The block that takes the next item: the one behind the full ones, or the next where it is full too.
fn next_block<S>(blocks: &[Block<S>], full: usize) -> usize
    requires { full < length blocks.now }
    ensures { result ≡ next_open blocks.now full }
{
    if blocks[full].is_full() {
        return full + 1;
    }
    full
}

impl<S> Places<S> {
    ghost use Rattle.node_pool.specs.RowLends.{lends_item};

    /// No items and no room, for which no memory is taken.
    pub(crate) fn new(alloc: Global, width: usize) -> Self
        ensures { result ≡ row [] 0 width }
    {
        Places {
            blocks: Vec::new(alloc),
            full: 0,
            room: 0,
            width,
            alloc,
        }
    }

    /// How many slots there is room for in all.
    pub(crate) fn room(&self) -> usize
        ensures room { result ≡ self.now.room }
        ensures within { result < 2 ^ 32 }
    {
        self.room
    }

    /// Makes room for about twice as many slots.
    pub(crate) fn grow(&mut self) -> Result<(), AllocError>
        requires { self.old.room < 2 ^ 32 - 1 }
        ensures kept { self.new ≡ row self.old.items self.new.room self.old.width }
        ensures ok { OnOk result (self.new.room ≡ grown self.old.room) }
        ensures err { OnErr result (self.new ≡ self.old) }
    {
        let slots = self.room + 1;
        let Some(capacity) = slots.checked_mul(self.width) else {
            return Err(AllocError);
        };
        self.blocks.reserve(1)?;
        let block = Block::with_capacity(self.alloc, capacity)?;
        self.blocks.push_reserved(block);
        self.room += slots;
        Ok(())
    }

    /// Adds an item behind the others.
    pub(crate) fn push(&mut self, item: S)
        requires { length self.old.items < self.old.room * self.old.width }
        ensures { self.new ≡ row (self.old.items ++ item ∷ []) self.old.room self.old.width }
    {
        self.full = next_block(self.blocks.as_slice(), self.full);
        self.blocks[self.full].push(item);
    }

    /// The item of the slot, where each has one.
    pub(crate) fn at(&self, slot: usize) -> &S
        requires width { self.now.width ≡ 1 }
        requires within { slot < length self.now.items }
        ensures { slice_get self.now.items slot ≡ Some result.now }
    {
        prove!(slot < self.room);
        let (block, place) = locate(slot);
        self.blocks[block].get(place)
    }

    /// The item of the slot, where each has one, to write to.
    pub(crate) fn at_mut(&mut self, slot: usize) -> &mut S
        requires width { self.old.width ≡ 1 }
        requires within { slot < length self.old.items }
        ensures* writes_back { sem 𝓛 (lends_item S.row self.entry slot result) }
        ensures value { slice_get self.old.items slot ≡ Some result.now }
    {
        prove!(slot < self.room);
        let (block, place) = locate(slot);
        self.blocks[block].get_mut(place)
    }
}

impl<S: Copy> Places<S> {
    /// The item of the slot in a column.
    pub(crate) fn get(&self, slot: usize, column: usize) -> S
        requires column { column < self.now.width }
        requires within { slot * self.now.width + column < length self.now.items }
        ensures { slice_get self.now.items (slot * self.now.width + column) ≡ Some result }
    {
        prove!(slot < self.room);
        let (block, place) = locate(slot);
        *self.blocks[block].get(place * self.width + column)
    }

    /// Replaces the item of the slot in a column.
    pub(crate) fn set(&mut self, slot: usize, column: usize, item: S)
        requires column { column < self.old.width }
        requires within { slot * self.old.width + column < length self.old.items }
        ensures { self.new ≡ with_item self.old (slot * self.old.width + column) item }
    {
        prove!(slot < self.room);
        let (block, place) = locate(slot);
        *self.blocks[block].get_mut(place * self.width + column) = item;
    }
}
