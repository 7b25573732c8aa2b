ghost use Rattle.std.specs.Prelude.{◌≡◌, ◌+◌, ◌*◌, ◌^◌, ◌<◌, ◌≤◌, [], length, map, IfOk};
ghost use Rattle.std.specs.FinSet as set;
ghost use Rattle.graphs.specs.Closing.{IsClosureOf};
ghost use Rattle.graphs.specs.Closures.{members_of, HoldsMembers, IsCover};
ghost use Rattle.graphs.specs.Graphs as model;
ghost use Rattle.graphs.specs.Certificates.{IsCertificate};
ghost use Rattle.graphs.specs.Linearizations.{IsOptimal};
ghost use Rattle.linearize.specs.Graphs.{HasRates, IsComponent, most_members, sum_at};
ghost use Rattle.linearize.specs.Drafts.{AreShown, flows_in, named, placed};
ghost use Rattle.graphs.specs.Minimal.{AreMinimal};
ghost use Rattle.linearize.specs.Orders.{AreCovers};
ghost use Rattle.linearize.specs.Steps.{AreOfSolves};

use crate::draft::{Draft, LinearPart, PlaceFlow};
use crate::guess::Group;
use crate::split::split;
use bitset::Bits;
use closure_flow::Scratch;
use dep_graph::DepGraph;
use outside::NoMemory;
use std::alloc::Global;
use std::marker::Model;
use step_count::{Ledger, Steps};

/// An order of the members of a dependency graph, cut into parts (chunks), with the flows that certify each part.
///
/// [`new`](Linear::new) takes all its memory: room for 64·W places, as many parts and 1,024·W² flows.
#[derive(Drop)]
pub struct Linear<const W: usize> {
    pub(crate) draft: Draft<W>,
    // the covering parents of each place, and its weight in the set that was solved last
    pub(crate) parents: Vec<Bits<W>>,
    pub(crate) weights: Vec<i128>,
    // what may be the parts
    pub(crate) groups: Vec<Group<W>>,
}

// Clauses see the parts, each with its fee and size, its places and its flows.
impl<const W: usize> Model for Linear<W> {
    ghost use Rattle.std.specs.Prelude.{◌≡◌, ◌*◌, ◌^◌, ◌<◌, ◌≤◌, List, [], vec_capacity, vec_len};
    ghost use Rattle.graphs.specs.Certificates.{Part};

    ghost Value = { List Part };

    ghost view = { λ l. l.draft.parts };

    ghost invariant = { λ l.
        (l.draft.ids ≡ [])
        × (l.draft.flows ≡ [])
        × (64 * W ≤ vec_len l.parents)
        × (64 * W ≤ vec_len l.weights)
        × (64 * W < 2 ^ 32)
        × (64 * W ≤ vec_capacity l.groups) };
}

impl<const W: usize> Linear<W> {
    /// Makes an order without parts. Fails where there is no memory, or where a `usize` doesn't hold the room.
    pub fn new(alloc: Global) -> Result<Self, NoMemory>
        ensures { IfOk result (λ l. l ≡ []) }
    {
        let draft = Draft::new(alloc)?;
        let places = W.checked_mul(64).ok_or(NoMemory)?;
        Ok(Linear {
            draft,
            parents: vec![in alloc; Bits::empty(); places]?,
            weights: vec![in alloc; 0; places]?,
            groups: Vec::with_capacity(alloc, places)?,
        })
    }

    /// The places of all parts, in the order of the parts.
    pub fn order(&self) -> &[usize]
        ensures { result.now ≡ placed self.now }
    {
        self.draft.order()
    }

    /// The parts.
    pub fn parts(&self) -> &[LinearPart]
        ensures { AreShown result.now self.now }
    {
        self.draft.parts()
    }

    /// The flows of all parts, in the order of the parts.
    pub fn flows(&self) -> &[PlaceFlow]
        ensures { map named result.now ≡ flows_in self.now }
    {
        self.draft.flows()
    }
}

/// Leaves in `out` an optimal order of the members, in parts of falling feerate, with the flows that certify each part. No part can
/// be cut further: no smaller set that is closed within a part has the part's feerate.
///
/// The members are one component of 1 to 4,096 transactions, with fees in satoshis and sizes in virtual bytes as transactions may
/// have them. So 64 bits hold the fee of each part.
///
/// Takes no memory. Counts as a step each place that a solve begins with or a search takes: for n members at least n steps, and
/// at most 2·(n+2)^5.
///
/// The order is the linearization that Bitcoin Core's `cluster_linearize.h` searches for. The certificate is a flow as in the
/// maximum closure problem, solved for each part at the part's own feerate.
pub fn optimal<L: Ledger, const W: usize>(
    scratch: &mut Scratch<W>,
    dep: &DepGraph<W>,
    out: &mut Linear<W>,
    steps: &mut Steps<L>,
)
    requires some { 0 < set.len (members_of dep.now) }
    requires few { set.len (members_of dep.now) ≤ most_members }
    requires rates { HasRates dep.now }
    requires component { IsComponent dep.now }

    // There is a plain graph that the members stand for. The parts certify each one over its covering pairs, and are
    // optimal.
    ensures stands { (graph : model.Graph) × IsClosureOf dep.now graph }
    ensures certificate { (graph : model.Graph) → IsClosureOf dep.now graph
        → IsCertificate (sum_at dep.now) graph (model.IsCover graph.pairs) out.new }
    ensures optimal { (graph : model.Graph) → IsClosureOf dep.now graph
        → IsOptimal (sum_at dep.now) graph (map (λ part. part.ids) out.new) }

    // No part can be cut further: none has a smaller set of its rate, closed within it.
    ensures minimal { (graph : model.Graph) → IsClosureOf dep.now graph
        → AreMinimal (sum_at dep.now) graph.pairs out.new }

    // The steps are those of its solves, and no other: each place that a solve began with, and each that the queue gave.
    // Of n members they are n at least, and at most 2 · (n + 2)^5 − 4 · (n + 2)^4.
    ensures solves { AreOfSolves (set.len (members_of dep.now)) out.new scratch.old scratch.new steps.old steps.new }
    ensures steps_least { steps.old + set.len (members_of dep.now) ≤ steps.new }
    ensures steps_most { steps.new + 4 * (set.len (members_of dep.now) + 2) ^ 4
        ≤ steps.old + 2 * (set.len (members_of dep.now) + 2) ^ 5 }
{
    let members = dep.members();
    let parents = out.parents.as_mut_slice();
    let weights = out.weights.as_mut_slice();
    out.draft.clear();
    link(dep, &members, parents);
    split(
        scratch,
        dep,
        parents,
        weights,
        &members,
        &mut out.draft,
        steps,
    );
}

/// Keeps the covering parents of some members.
pub(crate) fn link<const W: usize>(dep: &DepGraph<W>, members: &Bits<W>, parents: &mut [Bits<W>])
    requires narrow { 64 * W < 2 ^ 32 }
    requires members { HoldsMembers dep.now members.now }
    requires room { 64 * W ≤ length parents.old }
    ensures { AreCovers dep.now members.now parents.new }
{
    for place in members.iter() {
        parents[place] = dep.covers(place);
    }
}
