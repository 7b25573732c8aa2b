ghost use Rattle.std.specs.Prelude.{IfOk, ◌≡◌, []};

use fee_rate::FeeRate;
use graphs::Flow;
use outside::NoMemory;
use std::alloc::Global;

/// A part of the order that stood before a change: where the places of its members stand in one list, and its flows in another.
///
/// A part is `known` where its members have the fees, the sizes and the relation among themselves that they had. Then `rate` is
/// its total fee in satoshis and its total size in virtual bytes, and its flows certify it. Of any other part rate and flows say
/// nothing. The flows are the caller's own: the solver doesn't look at them.
#[derive(Clone, Copy, Debug)]
pub struct OldPart {
    pub rate: FeeRate,
    pub start: usize,
    pub end: usize,
    pub flow_start: usize,
    pub flow_end: usize,
    pub known: bool,
}

/// The order before a change: its parts, and the places and the flows that they lie in. Flows are told by the names that they
/// had.
#[derive(Drop)]
pub struct Guess {
    pub parts: Vec<OldPart>,
    pub places: Vec<usize>,
    pub flows: Vec<Flow>,
}

impl Guess {
    /// Makes an empty guess, with room for so many parts and places, and for so many flows. Fails where there is no memory.
    pub fn new(alloc: Global, places: usize, flows: usize) -> Result<Self, NoMemory>
        ensures { IfOk result (λ guess. guess.parts.items ≡ []) }
    {
        Ok(Guess {
            parts: Vec::with_capacity(alloc, places)?,
            places: Vec::with_capacity(alloc, places)?,
            flows: Vec::with_capacity(alloc, flows)?,
        })
    }

    /// Forgets what was put here.
    pub fn clear(&mut self)
        ensures { self.new.parts.items ≡ [] }
    {
        self.parts.clear();
        self.places.clear();
        self.flows.clear();
    }
}
