ghost use Rattle.std.specs.Prelude.{◌≡◌, ℕ, ◌+◌, ◌*◌, ◌<◌, ◌≤◌, ◌^◌, [], length, true, pos, ◌*ℤ◌, unsigned_abs};
ghost use Rattle.std.specs.Prelude.{IfSome, List, MatchOption};
ghost use Rattle.std.specs.Ordering.{nat_cmp};
ghost use Rattle.std.specs.FinSet as set;
ghost use Rattle.graphs.specs.Closures.{HoldsMembers, IsClosed};
ghost use Rattle.closure_flow.specs.Closures.{weight_at};
ghost use Rattle.closure_flow.specs.Scratches.{TakesSteps, flow_of};
ghost use Rattle.fee_rate.specs.Limits.{IsRate};
ghost use Rattle.fee_rate.specs.declared.limits.TheConstants.{MAX_SIZE};
ghost use Rattle.graphs.specs.Certificates.{weight_in};
ghost use Rattle.linearize.specs.Graphs.{HasRates, most_members, sum_at, sum_from};
ghost use Rattle.linearize.specs.Near.{most_tried};
ghost use Rattle.linearize.specs.Orders.{AreCovers, sums_in};
ghost use Rattle.linearize.specs.Splits.{Adds, AddsOne, HasRoom, IsCut, IsReady, IsSolved};
ghost use Rattle.linearize.specs.Steps.{AddsBySolves, AreAtLeast, AreOfOne};

use crate::draft::Draft;
use crate::part::emit;
use bitset::Bits;
use closure_flow::{Outcome, Scratch, smallest_tight, solve};
use dep_graph::DepGraph;
use fee_rate::{FeeRate, product};
use step_count::{Ledger, Steps};

/// Linearizes a set of members: as one part where it can't be cut, else what it is cut on and then the others.
pub(crate) fn split<L: Ledger, const W: usize>(
    scratch: &mut Scratch<W>,
    dep: &DepGraph<W>,
    parents: &[Bits<W>],
    weights: &mut [i128],
    within: &Bits<W>,
    draft: &mut Draft<W>,
    steps: &mut Steps<L>,
)
    requires narrow { 64 * W < 2 ^ 32 }
    requires ready { IsReady (64 * W) dep.now parents.now within.now draft.old }
    requires weights { 64 * W ≤ length weights.old }
    ensures adds { Adds (64 * W) dep.now within.now draft.old draft.new }
    ensures solves { AddsBySolves (set.len within.now) draft.old.parts draft.new.parts
        scratch.old scratch.new steps.old steps.new }
{
    if let Some(first) = best(scratch, dep, parents, weights, within, draft, steps) {
        let rest = within.minus(&first);
        split(scratch, dep, parents, weights, &first, draft, steps);
        split(scratch, dep, parents, weights, &rest, draft, steps);
    }
}

/// Writes a set as one part where it can't be cut. Else it answers what to cut it on.
pub(crate) fn best<L: Ledger, const W: usize>(
    scratch: &mut Scratch<W>,
    dep: &DepGraph<W>,
    parents: &[Bits<W>],
    weights: &mut [i128],
    within: &Bits<W>,
    draft: &mut Draft<W>,
    steps: &mut Steps<L>,
) -> Option<Bits<W>>
    requires narrow { 64 * W < 2 ^ 32 }
    requires ready { IsReady (64 * W) dep.now parents.now within.now draft.old }
    requires weights { 64 * W ≤ length weights.old }
    ensures cut { IfSome result (IsCut (64 * W) dep.now within.now) }
    ensures draft { MatchOption result
        (Adds (64 * W) dep.now within.now draft.old draft.new)
        (λ _. draft.new ≡ draft.old) }
    ensures one { MatchOption result (AddsOne (set.len within.now) draft.old draft.new) (λ _. Unit {0}) }
    ensures solve { AreOfOne (set.len within.now) scratch.old scratch.new steps.old steps.new }
{
    if within.count() == 1 {
        alone(dep, within, draft, steps);
        return None;
    }
    let whole = sum(dep, within);
    weigh(dep, within, whole, weights);
    match solve(scratch, weights, parents, *within, steps) {
        Outcome::Better(first) => Some(first),
        Outcome::Balanced => finish(scratch, dep, parents, within, whole, draft, steps),
    }
}

/// Writes a set as one part where it can't be cut, or as two where neither what it is cut on nor what that leaves can be cut, and
/// tells whether it did. Where it did not, some of this may be written.
pub(crate) fn split_once<L: Ledger, const W: usize>(
    scratch: &mut Scratch<W>,
    dep: &DepGraph<W>,
    parents: &[Bits<W>],
    weights: &mut [i128],
    within: &Bits<W>,
    draft: &mut Draft<W>,
    steps: &mut Steps<L>,
) -> bool
    requires narrow { 64 * W < 2 ^ 32 }
    requires ready { IsReady (64 * W) dep.now parents.now within.now draft.old }
    requires weights { 64 * W ≤ length weights.old }
    ensures adds { result ≡ true → Adds (64 * W) dep.now within.now draft.old draft.new }
    ensures open { (draft.new.ids ≡ []) × (draft.new.flows ≡ []) }
    ensures least { AreAtLeast (set.len within.now) scratch.old scratch.new steps.old steps.new }
    ensures most { steps.new ≤ steps.old + most_tried (set.len within.now) * set.len within.now }
{
    let Some(first) = best(scratch, dep, parents, weights, within, draft, steps) else {
        return true;
    };
    let rest = within.minus(&first);
    let one = best(scratch, dep, parents, weights, &first, draft, steps).is_none();
    one && best(scratch, dep, parents, weights, &rest, draft, steps).is_none()
}

// Writes a set of one place as one part. Its solve is the one step that begins with the place, since nothing is left to
// be sent.
fn alone<L: Ledger, const W: usize>(
    dep: &DepGraph<W>,
    within: &Bits<W>,
    draft: &mut Draft<W>,
    steps: &mut Steps<L>,
)
    requires narrow { 64 * W < 2 ^ 32 }
    requires closed { IsClosed (64 * W) dep.now }
    requires members { HoldsMembers dep.now within.now }
    requires covers { (parents : List (set.FinSet nat_cmp)) × AreCovers dep.now within.now parents }
    requires room { HasRoom (64 * W) within.now draft.old }
    requires one { set.len within.now ≡ 1 }
    ensures adds { Adds (64 * W) dep.now within.now draft.old draft.new }
    ensures one { AddsOne 1 draft.old draft.new }
    ensures step { steps.new ≡ steps.old + 1 }
{
    steps.tick();
    if let Some(place) = within.least() {
        draft.put(place);
        draft.close(dep.rate(place));
    }
}

// Writes a balanced set as one part where no smaller set is closed within it and has its rate. Else it answers the
// smallest one.
fn finish<L: Ledger, const W: usize>(
    scratch: &mut Scratch<W>,
    dep: &DepGraph<W>,
    parents: &[Bits<W>],
    within: &Bits<W>,
    whole: FeeRate,
    draft: &mut Draft<W>,
    steps: &mut Steps<L>,
) -> Option<Bits<W>>
    requires narrow { 64 * W < 2 ^ 32 }
    requires ready { IsReady (64 * W) dep.now parents.now within.now draft.old }
    requires whole { sum_from whole ≡ sums_in (64 * W) dep.now within.now }
    requires solved { IsSolved (64 * W) dep.now parents.now within.now (flow_of scratch.old) }
    ensures cut { IfSome result (IsCut (64 * W) dep.now within.now) }
    ensures draft { MatchOption result
        (Adds (64 * W) dep.now within.now draft.old draft.new)
        (λ _. draft.new ≡ draft.old) }
    ensures one { MatchOption result (AddsOne (set.len within.now) draft.old draft.new) (λ _. Unit {0}) }
    ensures steps { TakesSteps 0 (set.len within.now * set.len within.now) scratch.old scratch.new steps.old steps.new }
{
    let first = smallest_tight(scratch, parents, *within, steps);
    if first.count() < within.count() {
        return Some(first);
    }
    emit(scratch, dep, parents, within, whole, draft);
    None
}

// The fee and the size of some members together.
fn sum<const W: usize>(dep: &DepGraph<W>, within: &Bits<W>) -> FeeRate
    requires narrow { 64 * W < 2 ^ 32 }
    requires members { HoldsMembers dep.now within.now }
    requires few { set.len within.now ≤ most_members }
    requires rates { HasRates dep.now }
    ensures is { sum_from result ≡ sums_in (64 * W) dep.now within.now }
    ensures size { result.size ≤ MAX_SIZE * most_members }
{
    let mut fee = 0;
    let mut size = 0;
    for place in within.iter() {
        let rate = dep.rate(place);
        fee += rate.fee;
        size += rate.size;
    }
    FeeRate { fee, size }
}

// Keeps the weight of each of some members in a set whose fee and size are given.
fn weigh<const W: usize>(dep: &DepGraph<W>, within: &Bits<W>, whole: FeeRate, weights: &mut [i128])
    requires narrow { 64 * W < 2 ^ 32 }
    requires members { HoldsMembers dep.now within.now }
    requires rates { HasRates dep.now }
    requires room { 64 * W ≤ length weights.old }
    requires size { whole.size ≤ MAX_SIZE * most_members }
    ensures are { (t : ℕ) → set.contains within.now t ≡ true
        → weight_at weights.new t ≡ weight_in (sum_from whole) (sum_at dep.now t) }
    ensures small { (t : ℕ) → set.contains within.now t ≡ true → unsigned_abs (weight_at weights.new t) < 2 ^ 99 }
{
    for place in within.iter() {
        weights[place] = weight(whole, dep.rate(place));
    }
}

// How far a rate is above that of a whole, times both sizes.
fn weight(whole: FeeRate, own: FeeRate) -> i128
    requires own { IsRate own }
    requires size { whole.size ≤ MAX_SIZE * most_members }
    ensures is { result ≡ weight_in (sum_from whole) (sum_from own) }
    ensures small { unsigned_abs result < 2 ^ 99 }
{
    product(i128::from(own.fee), whole.size) - product(i128::from(whole.fee), own.size)
}
