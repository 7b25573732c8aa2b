ghost use Rattle.std.specs.Prelude.{◌≡◌, ◌*◌, ◌≤◌, IfOk};

use closure_flow::Scratch;
use linearize::{Guess, Linear, OldPart, PlaceFlow};
use outside::NoMemory;
use std::alloc::Global;
use std::marker::Model;

/// The memory in which the orders of clusters of at most 64·W names are made. One value serves all clusters.
#[derive(Drop)]
pub struct Work<const W: usize> {
    // the order before a change
    pub(crate) guess: Guess,
    pub(crate) room: Room<W>,
}

// Clauses see how many names there is room for.
impl<const W: usize> Model for Work<W> {
    ghost use Rattle.std.specs.Prelude.{ℕ, ◌*◌, ◌≤◌};

    ghost Value = { ℕ };

    ghost view = { λ w. 64 * W };

    ghost invariant = { λ w. (1 ≤ W) × (W ≤ 64) };
}

impl<const W: usize> Work<W> {
    /// Room for clusters of 64·W names. All its memory is taken here.
    pub fn new(alloc: Global) -> Result<Self, NoMemory>
        requires wide { 1 ≤ W }
        requires narrow { W ≤ 64 }
        ensures { IfOk result (λ w. w ≡ 64 * W) }
    {
        let places = 64 * W;
        let room = Room::new(alloc)?;
        let guess = Guess::new(alloc, places, places * places / 4)?;
        Ok(Work { guess, room })
    }
}

/// The solver's room, and that in which what it has made is read.
#[derive(Drop)]
pub(crate) struct Room<const W: usize> {
    // which of the parts in `linear` are old ones
    pub(crate) froms: Vec<Option<OldPart>>,
    // where each place stands in the solver's order
    pub(crate) positions: Vec<usize>,
    // the flows of a part, by these positions
    pub(crate) flows: Vec<PlaceFlow>,
    pub(crate) linear: Linear<W>,
    // last, since its size goes by W
    pub(crate) scratch: Scratch<W>,
}

// Clauses see how many names there is room for.
impl<const W: usize> Model for Room<W> {
    ghost use Rattle.std.specs.Prelude.{ℕ, ◌*◌, ◌≤◌, vec_len};

    ghost Value = { ℕ };

    ghost view = { λ w. 64 * W };

    ghost invariant = { λ w. (64 * W ≤ vec_len w.positions) × (1 ≤ W) × (W ≤ 64) };
}

impl<const W: usize> Room<W> {
    /// Room for clusters of 64·W names. All its memory is taken here.
    pub(crate) fn new(alloc: Global) -> Result<Self, NoMemory>
        requires wide { 1 ≤ W }
        requires narrow { W ≤ 64 }
        ensures { IfOk result (λ w. w ≡ 64 * W) }
    {
        let places = 64 * W;
        let positions = vec![in alloc; 0; places]?;
        let flows = Vec::with_capacity(alloc, places * places / 4)?;
        let scratch = Scratch::new(alloc)?;
        Ok(Room {
            scratch,
            linear: Linear::new(alloc)?,
            froms: Vec::with_capacity(alloc, places)?,
            positions,
            flows,
        })
    }
}
