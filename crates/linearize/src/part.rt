ghost use Rattle.std.specs.Prelude.{◌≡◌, ℕ, ◌+◌, ◌*◌, ◌^◌, ◌<◌, ◌≤◌, [], length, true};
ghost use Rattle.std.specs.FinSet as set;
ghost use Rattle.graphs.specs.Closures.{HoldsMembers, IsClosed, is_ancestor};
ghost use Rattle.bitset.specs.Places.{places};
ghost use Rattle.closure_flow.specs.Scratches.{flow_of};
ghost use Rattle.linearize.specs.Graphs.{sum_from};
ghost use Rattle.linearize.specs.Drafts.{Takes, placed, with_flows};
ghost use Rattle.linearize.specs.Orders.{AreCovers, Balances, IsOrderOf, flows_from, flows_in_set, sums_in};
ghost use Rattle.linearize.specs.Splits.{Adds, AddsOne, HasRoom, IsUncut};

use crate::draft::{Draft, PlaceFlow};
use bitset::Bits;
use closure_flow::Scratch;
use dep_graph::DepGraph;
use fee_rate::FeeRate;

/// Writes a balanced set that can't be cut as one part: its places, parents first, and the flow that the solver left.
pub(crate) fn emit<const W: usize>(
    scratch: &Scratch<W>,
    dep: &DepGraph<W>,
    parents: &[Bits<W>],
    within: &Bits<W>,
    whole: FeeRate,
    draft: &mut Draft<W>,
)
    requires narrow { 64 * W < 2 ^ 32 }
    requires closed { IsClosed (64 * W) dep.now }
    requires members { HoldsMembers dep.now within.now }
    requires some { 0 < set.len within.now }
    requires covers { AreCovers dep.now within.now parents.now }
    requires whole { sum_from whole ≡ sums_in (64 * W) dep.now within.now }
    requires balanced { Balances (64 * W) dep.now parents.now within.now (flow_of scratch.now) }
    requires uncut { IsUncut (64 * W) dep.now within.now }
    requires room { HasRoom (64 * W) within.now draft.old }
    ensures adds { Adds (64 * W) dep.now within.now draft.old draft.new }
    ensures one { AddsOne (set.len within.now) draft.old draft.new }
{
    put_places(dep, within, draft);
    send_all(scratch, parents, within, draft);
    draft.close(whole);
}

// Puts the places of a set, parents first.
fn put_places<const W: usize>(dep: &DepGraph<W>, within: &Bits<W>, draft: &mut Draft<W>)
    requires narrow { 64 * W < 2 ^ 32 }
    requires closed { IsClosed (64 * W) dep.now }
    requires members { HoldsMembers dep.now within.now }
    requires none { draft.old.ids ≡ [] }
    requires room { length (placed draft.old.parts) + set.len within.now ≤ 64 * W }
    ensures order { IsOrderOf dep.now within.now draft.new.ids }
    ensures count { length draft.new.ids ≡ set.len within.now }
    ensures parts { draft.new.parts ≡ draft.old.parts }
    ensures flows { draft.new.flows ≡ draft.old.flows }
{
    let mut left = *within;
    while let Some(first) = left.least() {
        let place = top(dep, &left, first);
        left.remove(place);
        draft.put(place);
    }
}

/// A place of a set that has no other ancestor in it, from one of its places upward.
pub(crate) fn top<const W: usize>(dep: &DepGraph<W>, left: &Bits<W>, from: usize) -> usize
    requires narrow { 64 * W < 2 ^ 32 }
    requires closed { IsClosed (64 * W) dep.now }
    requires members { HoldsMembers dep.now left.now }
    requires from { set.contains left.now from ≡ true }
    ensures there { set.contains left.now result ≡ true }
    ensures top { (p : ℕ) → is_ancestor dep.now p result ≡ true → set.contains left.now p ≡ true → p ≡ result }
{
    let mut place = from;
    loop {
        let mut above = dep.ancestors(place).meet(left);
        above.remove(place);
        match above.least() {
            Some(next) => place = next,
            None => return place,
        }
    }
}

// Writes what each place of a set sends to its covering parents in the set.
fn send_all<const W: usize>(
    scratch: &Scratch<W>,
    parents: &[Bits<W>],
    within: &Bits<W>,
    draft: &mut Draft<W>,
)
    requires narrow { 64 * W < 2 ^ 32 }
    requires there { (t : ℕ) → set.contains within.now t ≡ true → t < length parents.now }
    requires room { Takes (64 * W) draft.old (flows_in_set (64 * W) parents.now within.now (flow_of scratch.now)) }
    ensures { draft.new
        ≡ with_flows draft.old (flows_in_set (64 * W) parents.now within.now (flow_of scratch.now)) }
{
    for child in within.iter() {
        let to = parents[child].meet(within);
        send_from(scratch, child, &to, draft);
    }
}

// Writes what a place sends to some others.
fn send_from<const W: usize>(scratch: &Scratch<W>, child: usize, to: &Bits<W>, draft: &mut Draft<W>)
    requires narrow { 64 * W < 2 ^ 32 }
    requires room { Takes (64 * W) draft.old (flows_from (flow_of scratch.now) child (places (64 * W) to.now)) }
    ensures { draft.new
        ≡ with_flows draft.old (flows_from (flow_of scratch.now) child (places (64 * W) to.now)) }
{
    for parent in to.iter() {
        let amount = scratch.flow(child, parent);
        if amount > 0 {
            draft.send(PlaceFlow {
                child,
                parent,
                amount,
            });
        }
    }
}
