ghost use Rattle.std.specs.Prelude.{◌≡◌, ℕ, ◌+◌, ◌*◌, ◌^◌, ◌<◌, ◌≤◌, true, [], length, map, IfSome};
ghost use Rattle.std.specs.FinSet as set;
ghost use Rattle.graphs.specs.Closing.{IsClosureOf};
ghost use Rattle.graphs.specs.Closures.{HoldsMembers, members_of};
ghost use Rattle.graphs.specs.Graphs as model;
ghost use Rattle.graphs.specs.Linearizations.{IsOptimal};
ghost use Rattle.linearize.specs.Graphs.{HasRates, IsComponent, most_members, sum_at};
ghost use Rattle.graphs.specs.Rates.{Falls};
ghost use Rattle.linearize.specs.Graphs.{sum_from};
ghost use Rattle.linearize.specs.Known.{AreAllMinimal, AreCertified, AreTaken, HaveFlows};
ghost use Rattle.linearize.specs.Near.{AreHeld, ComesNext, Extends, IsBegun, IsSolvedNext, MayBePut, most_tried};
ghost use Rattle.linearize.specs.Steps.{AreAtLeast};

use crate::draft::{Draft, LinearPart};
use crate::guess::{Group, arrange};
use crate::known::{fill_up, known_part, put_known};
use crate::linear::{Linear, link, optimal};
use crate::old::{Guess, OldPart};
use crate::split::split_once;
use bitset::Bits;
use closure_flow::Scratch;
use dep_graph::DepGraph;
use fee_rate::is_lower;
use step_count::{Ledger, Steps};

/// As [`optimal`], where the order before a change is at hand.
///
/// The guess may be any order: it has no say in what is answered, only in how soon. But a part that the guess calls known must
/// still certify itself with its flows, and have no smaller set of its feerate, closed within it (clause `known`). Such a part
/// isn't solved again where the guess fits. For n members the call takes at most 2·(n+2)^5 steps, with those of a guess that
/// didn't fit.
///
/// A part that is an old one is written without its flows, and `froms` tells which one it is, at the part's position. So flows
/// that the caller keeps are neither read nor written here. With them the parts certify the order.
pub fn optimal_near<L: Ledger, const W: usize>(
    scratch: &mut Scratch<W>,
    dep: &DepGraph<W>,
    guess: &Guess,
    out: &mut Linear<W>,
    froms: &mut Vec<Option<OldPart>>,
    steps: &mut Steps<L>,
)
    requires some { 0 < set.len (members_of dep.now) }
    requires few { set.len (members_of dep.now) ≤ most_members }
    requires rates { HasRates dep.now }
    requires component { IsComponent dep.now }
    requires known { HaveFlows dep.now guess.now.parts.items guess.now.places.items }

    // There is a plain graph that the members stand for. The parts, each with its flows, certify each one over its covering
    // pairs, and are optimal. No part can be cut further: none has a smaller set of its rate, closed within it.
    ensures stands { (graph : model.Graph) × IsClosureOf dep.now graph }
    ensures certificate { AreCertified dep.now guess.now.parts.items guess.now.places.items froms.new.items out.new }
    ensures optimal { (graph : model.Graph) → IsClosureOf dep.now graph
        → IsOptimal (sum_at dep.now) graph (map (λ part. part.ids) out.new) }
    ensures minimal { AreAllMinimal dep.now guess.now.parts.items guess.now.places.items froms.new.items out.new }

    // Which of the parts are old ones.
    ensures taken { AreTaken guess.now.parts.items guess.now.places.items froms.new.items out.new }

    // Each place that the queue gave is a step. Of n members the steps are at most 2 · (n + 2)^5, with those of a guess that
    // wasn't right.
    ensures steps_counted { AreAtLeast 0 scratch.old scratch.new steps.old steps.new }
    ensures steps_most { steps.new ≤ steps.old + 2 * (set.len (members_of dep.now) + 2) ^ 5 }
{
    let members = dep.members();
    let parents = out.parents.as_mut_slice();
    let weights = out.weights.as_mut_slice();
    out.draft.clear();
    froms.clear();
    arrange(dep, &members, guess, &mut out.groups);
    let groups = out.groups.as_slice();
    if !are_parts(
        scratch,
        dep,
        parents,
        weights,
        &members,
        guess,
        groups,
        &mut out.draft,
        froms,
        steps,
    ) {
        froms.clear();
        optimal(scratch, dep, out, steps);
    }
}

// Writes groups as the parts of the members, one after the other, and tells whether they are: a part each, or two that it can be
// cut into, and all together an order.
fn are_parts<L: Ledger, const W: usize>(
    scratch: &mut Scratch<W>,
    dep: &DepGraph<W>,
    parents: &mut [Bits<W>],
    weights: &mut [i128],
    members: &Bits<W>,
    guess: &Guess,
    groups: &[Group<W>],
    draft: &mut Draft<W>,
    froms: &mut Vec<Option<OldPart>>,
    steps: &mut Steps<L>,
) -> bool
    requires narrow { 64 * W < 2 ^ 32 }
    requires members { MayBePut (64 * W) dep.now members.now }
    requires known { HaveFlows dep.now guess.now.parts.items guess.now.places.items }
    requires empty { (draft.old ≡ record { parts = []; ids = []; flows = [] }) × (froms.old.items ≡ []) }
    requires room { (64 * W ≤ length parents.old) × (64 * W ≤ length weights.old) }
    ensures open { (draft.new.ids ≡ []) × (draft.new.flows ≡ []) }
    ensures parts { result ≡ true → AreHeld (64 * W) dep.now guess.now.parts.items guess.now.places.items members.now
        froms.new.items draft.new.parts }
    ensures counted { AreAtLeast 0 scratch.old scratch.new steps.old steps.new }
    ensures most { steps.new ≤ steps.old + most_tried (set.len members.now) * set.len members.now }
{
    let mut done = Bits::empty();
    for group in groups {
        match put_next(
            scratch, dep, parents, weights, members, &done, guess, group, draft, froms, steps,
        ) {
            Some(all) => done = all,
            None => return false,
        }
    }
    members.is_subset(&done) && fall(draft.parts())
}

// Writes a group behind what is done, without a solve where it is a part that is known. Gives the places of both.
fn put_next<L: Ledger, const W: usize>(
    scratch: &mut Scratch<W>,
    dep: &DepGraph<W>,
    parents: &mut [Bits<W>],
    weights: &mut [i128],
    members: &Bits<W>,
    done: &Bits<W>,
    guess: &Guess,
    group: &Group<W>,
    draft: &mut Draft<W>,
    froms: &mut Vec<Option<OldPart>>,
    steps: &mut Steps<L>,
) -> Option<Bits<W>>
    requires narrow { 64 * W < 2 ^ 32 }
    requires begun { IsBegun (64 * W) dep.now members.now done.now draft.old }
    requires known { HaveFlows dep.now guess.now.parts.items guess.now.places.items }
    requires open { (draft.old.ids ≡ []) × (draft.old.flows ≡ []) }
    requires even { length froms.old.items ≡ length draft.old.parts }
    requires room { (64 * W ≤ length parents.old) × (64 * W ≤ length weights.old) }
    ensures extends { IfSome result (Extends (64 * W) dep.now guess.now.parts.items guess.now.places.items members.now done.now
        draft.old draft.new froms.old.items froms.new.items) }
    ensures open { (draft.new.ids ≡ []) × (draft.new.flows ≡ []) }
    ensures counted { AreAtLeast 0 scratch.old scratch.new steps.old steps.new }
    ensures some { IfSome result (λ all. steps.new + most_tried (set.len members.now) * set.len done.now
        ≤ steps.old + most_tried (set.len members.now) * set.len all) }
    ensures none { steps.new + most_tried (set.len members.now) * set.len done.now
        ≤ steps.old + most_tried (set.len members.now) * set.len members.now }
{
    if let Some(part) = known_part(guess.parts.as_slice(), guess.places.as_slice(), group.part) {
        return put_known(dep, members, done, guess, part, draft, froms);
    }
    let all = put_tried(
        scratch,
        dep,
        parents,
        weights,
        members,
        done,
        &group.places,
        draft,
        steps,
    )?;
    if !fill_up(draft.parts().len(), froms) {
        return None;
    }
    Some(all)
}

// Solves some members and writes them behind what is done, as one part or as two. Gives the places of both.
fn put_tried<L: Ledger, const W: usize>(
    scratch: &mut Scratch<W>,
    dep: &DepGraph<W>,
    parents: &mut [Bits<W>],
    weights: &mut [i128],
    members: &Bits<W>,
    done: &Bits<W>,
    group: &Bits<W>,
    draft: &mut Draft<W>,
    steps: &mut Steps<L>,
) -> Option<Bits<W>>
    requires narrow { 64 * W < 2 ^ 32 }
    requires begun { IsBegun (64 * W) dep.now members.now done.now draft.old }
    requires open { (draft.old.ids ≡ []) × (draft.old.flows ≡ []) }
    requires room { (64 * W ≤ length parents.old) × (64 * W ≤ length weights.old) }
    ensures solved { IfSome result (IsSolvedNext (64 * W) dep.now members.now done.now group.now draft.old draft.new) }
    ensures open { (draft.new.ids ≡ []) × (draft.new.flows ≡ []) }
    ensures counted { AreAtLeast 0 scratch.old scratch.new steps.old steps.new }
    ensures some { IfSome result (λ all. steps.new + most_tried (set.len members.now) * set.len done.now
        ≤ steps.old + most_tried (set.len members.now) * set.len all) }
    ensures none { steps.new + most_tried (set.len members.now) * set.len done.now
        ≤ steps.old + most_tried (set.len members.now) * set.len members.now }
{
    if !comes_next(dep, group, done, members) {
        return None;
    }
    link(dep, group, parents);
    if !split_once(scratch, dep, parents, weights, group, draft, steps) {
        return None;
    }
    Some(done.union(group))
}

// Whether some members may come behind others in an order: they are at least one, none of the others, and their parents are
// among them and the others.
fn comes_next<const W: usize>(
    dep: &DepGraph<W>,
    group: &Bits<W>,
    done: &Bits<W>,
    members: &Bits<W>,
) -> bool
    requires narrow { 64 * W < 2 ^ 32 }
    requires members { HoldsMembers dep.now members.now }
    ensures { result ≡ true → ComesNext dep.now members.now done.now group.now }
{
    if group.least().is_none() || !group.is_subset(&members.minus(done)) {
        return false;
    }
    let known = done.union(group);
    let mut left = *group;
    while let Some(place) = left.least() {
        left.remove(place);
        if !dep.ancestors(place).is_subset(&known) {
            return false;
        }
    }
    true
}

// Whether no part has a higher rate than the one before it.
fn fall(parts: &[LinearPart]) -> bool
    ensures { result ≡ true → Falls (map (λ part. sum_from part.rate) parts.now) }
{
    let mut at = 1;
    while at < parts.len() {
        if is_lower(parts[at - 1].rate, parts[at].rate) {
            return false;
        }
        at += 1;
    }
    true
}
