ghost use Rattle.std.specs.Prelude.{◌≡◌, ◌+◌, ◌*◌, ◌/◌, ◌<◌, ◌≤◌, ◌^◌, [], ◌∷◌, ◌++◌, length, map, IfOk, IfSome};
ghost use Rattle.linearize.specs.Graphs.{sum_from};
ghost use Rattle.linearize.specs.Drafts.{AreShown, Written, all_flows, all_placed, named, with_flows};

use fee_rate::FeeRate;
use outside::NoMemory;
use std::alloc::Global;
use std::marker::Model;

/// A part of an order: its total fee in satoshis and its total size in virtual bytes, and where its places and its flows end.
///
/// Its places stand in the list of places before position `end`, its flows in the list of flows before `flow_end`. Both begin where
/// those of the part before end.
#[derive(Clone, Copy, Debug, PartialEq, Eq)]
pub struct LinearPart {
    pub rate: FeeRate,
    pub end: usize,
    pub flow_end: usize,
}

/// An amount that goes from a place to a covering parent in the same part. Amounts are satoshis times virtual bytes.
#[derive(Clone, Copy, Debug, PartialEq, Eq)]
pub struct PlaceFlow {
    pub child: usize,
    pub parent: usize,
    pub amount: u128,
}

/// An order that is being written: parts that are closed, and the places and flows of the part that is open.
///
/// It has room for 64·W places, as many parts and 1,024·W² flows.
#[derive(Drop)]
pub(crate) struct Draft<const W: usize> {
    order: Vec<usize>,
    parts: Vec<LinearPart>,
    flows: Vec<PlaceFlow>,
}

// Clauses see the parts, and what was written since the last one.
impl<const W: usize> Model for Draft<W> {
    ghost use Rattle.std.specs.Prelude.{◌*◌, ◌/◌, ◌≤◌, vec_capacity};
    ghost use Rattle.linearize.specs.Drafts.{IsKept, Written, written_of};

    ghost Value = { Written };

    ghost view = { λ d. written_of d.parts.items d.order.items d.flows.items };

    ghost invariant = { λ d.
        IsKept d.parts.items d.order.items d.flows.items
        × (64 * W ≤ vec_capacity d.order)
        × (64 * W ≤ vec_capacity d.parts)
        × (64 * W * (64 * W) / 4 ≤ vec_capacity d.flows) };
}

impl<const W: usize> Draft<W> {
    /// An empty draft. All its memory is taken here.
    pub(crate) fn new(alloc: Global) -> Result<Self, NoMemory>
        ensures empty { IfOk result (λ d. d ≡ record { parts = []; ids = []; flows = [] }) }
        ensures narrow { IfOk result (λ _. 64 * W < 2 ^ 32) }
    {
        let (places, flows) = sizes::<W>().ok_or(NoMemory)?;
        Ok(Draft {
            order: Vec::with_capacity(alloc, places)?,
            parts: Vec::with_capacity(alloc, places)?,
            flows: Vec::with_capacity(alloc, flows)?,
        })
    }

    /// Forgets all that was written.
    pub(crate) fn clear(&mut self)
        ensures { self.new ≡ record { parts = []; ids = []; flows = [] } }
    {
        self.order.clear();
        self.parts.clear();
        self.flows.clear();
    }

    /// Puts a place behind those of the open part.
    pub(crate) fn put(&mut self, place: usize)
        requires { length (all_placed self.old) < 64 * W }
        ensures { self.new ≡ record {
          parts = self.old.parts;
          ids = self.old.ids ++ place ∷ [];
          flows = self.old.flows;
        } }
    {
        let pushed = self.order.push(place);
        prove!(pushed.is_ok());
    }

    /// Puts places behind those of the open part.
    pub(crate) fn put_all(&mut self, places: &[usize])
        requires { length (all_placed self.old) + length places.now ≤ 64 * W }
        ensures { self.new ≡ record {
          parts = self.old.parts;
          ids = self.old.ids ++ places.now;
          flows = self.old.flows;
        } }
    {
        let put = self.order.extend_from_slice(places);
        prove!(put.is_ok());
    }

    /// Puts a flow behind those of the open part.
    pub(crate) fn send(&mut self, flow: PlaceFlow)
        requires { 4 * length (all_flows self.old) + 4 ≤ 64 * W * (64 * W) }
        ensures { self.new ≡ with_flows self.old (named flow ∷ []) }
    {
        let pushed = self.flows.push(flow);
        prove!(pushed.is_ok());
    }

    /// Closes the open part, whose fee and size are given. The next one is open and empty.
    pub(crate) fn close(&mut self, rate: FeeRate)
        requires { length self.old.parts < 64 * W }
        ensures { self.new ≡ record {
          parts = self.old.parts ++ record { rate = sum_from rate; ids = self.old.ids; flows = self.old.flows } ∷ [];
          ids = [];
          flows = [];
        } }
    {
        let end = self.order.len();
        let flow_end = self.flows.len();
        let pushed = self.parts.push(LinearPart {
            rate,
            end,
            flow_end,
        });
        prove!(pushed.is_ok());
    }

    /// The places of all parts.
    pub(crate) fn order(&self) -> &[usize]
        ensures { result.now ≡ all_placed self.now }
    {
        self.order.as_slice()
    }

    /// The parts that are closed.
    pub(crate) fn parts(&self) -> &[LinearPart]
        ensures { AreShown result.now self.now.parts }
    {
        self.parts.as_slice()
    }

    /// The flows of all parts.
    pub(crate) fn flows(&self) -> &[PlaceFlow]
        ensures { map named result.now ≡ all_flows self.now }
    {
        self.flows.as_slice()
    }
}

// How many places and how many flows there may be, where a `usize` holds them.
fn sizes<const W: usize>() -> Option<(usize, usize)>
    ensures places { IfSome result (λ r. r.0 ≡ 64 * W) }
    ensures flows { IfSome result (λ r. r.1 ≡ 64 * W * (64 * W) / 4) }
    ensures narrow { IfSome result (λ _. 64 * W < 2 ^ 32) }
{
    let places = W.checked_mul(64)?;
    let pairs = places.checked_mul(places)?;
    Some((places, pairs / 4))
}
