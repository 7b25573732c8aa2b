ghost use Rattle.std.specs.Prelude.{◌≡◌, ℕ, ◌+◌, ◌*◌, ◌^◌, ◌<◌, ◌≤◌, ◌⊎◌, true, List, ℤ};
ghost use Rattle.std.specs.FinSet as set;
ghost use Rattle.bitset.specs.Places.{IsWithin};
ghost use Rattle.closure_flow.specs.Closures.{HasEach, IsBalanced};
ghost use Rattle.closure_flow.specs.Networks.{IsAllowed};
ghost use Rattle.closure_flow.specs.Queues.{IsBeyond};
ghost use Rattle.closure_flow.specs.Scratches.{TakesSteps, flow_of};
ghost use Rattle.closure_flow.specs.Tight.{AreApart, IsBalancing, IsDrawn, IsDrawnBy, IsFewestDrawn};
ghost use Rattle.closure_flow.specs.Tight.{IsLeastTight, IsSmallestTight};
ghost use Rattle.closure_flow.specs.Views.{shown_in};

use crate::network::Network;
use crate::search::put_all;
use crate::{Queue, Scratch};
use bitset::Bits;
use step_count::{Ledger, Steps};

/// The least set that is closed within `within`, holds `place` and has weight 0.
///
/// The last call of [`solve`](crate::solve) on this scratch had these parents and this set, and answered
/// [`Balanced`](crate::Outcome::Balanced). The weights are those of that call, and the flow that it left stays. Takes no memory,
/// and counts as a step each place of the set that is answered.
pub fn tight<L: Ledger, const W: usize>(
    scratch: &mut Scratch<W>,
    parents: &[Bits<W>],
    within: Bits<W>,
    place: usize,
    steps: &mut Steps<L>,
) -> Bits<W>
    requires parents { HasEach within parents.now }
    requires balanced { IsBalancing (64 * W) parents.now within (flow_of scratch.old) }
    requires place { set.contains within place ≡ true }
    ensures least { (weights : List ℤ) → IsBalanced (64 * W) weights parents.now within.entry (flow_of scratch.old)
        → IsLeastTight (64 * W) weights parents.now within.entry place result }
    ensures flow { scratch.new.flow ≡ scratch.old.flow }
    ensures steps { steps.new ≡ steps.old + set.len result }
    ensures counted { TakesSteps 0 (set.len within.entry) scratch.old scratch.new steps.old steps.new }
{
    // It tells that the places are below 64·W.
    let _places = within.count();
    draw(
        &scratch.network,
        &mut scratch.queue,
        parents,
        &within,
        &Bits::empty(),
        place,
        steps,
    )
}

/// The smallest set that is closed within `within`, has at least one place and has weight 0.
///
/// The same holds before and after the call as of [`tight`], but for the steps: of n places the call takes at most n². Each place
/// that the queue gives is a step, and no other.
pub fn smallest_tight<L: Ledger, const W: usize>(
    scratch: &mut Scratch<W>,
    parents: &[Bits<W>],
    within: Bits<W>,
    steps: &mut Steps<L>,
) -> Bits<W>
    requires some { 0 < set.len within }
    requires parents { HasEach within parents.now }
    requires balanced { IsBalancing (64 * W) parents.now within (flow_of scratch.old) }
    ensures smallest { (weights : List ℤ) → IsBalanced (64 * W) weights parents.now within.entry (flow_of scratch.old)
        → IsSmallestTight (64 * W) weights parents.now within.entry result }
    ensures flow { scratch.new.flow ≡ scratch.old.flow }
    ensures steps { TakesSteps 0 (set.len within.entry * set.len within.entry) scratch.old scratch.new steps.old steps.new }
{
    if within.count() == 1 {
        return within;
    }
    fewest(
        &scratch.network,
        &mut scratch.queue,
        parents,
        &within,
        steps,
    )
}

// The smallest drawn set with at least one place. No second look is had at a place whose set holds one that was looked
// at: that set isn't smaller.
fn fewest<L: Ledger, const W: usize>(
    network: &Network<W>,
    queue: &mut Queue<W>,
    parents: &[Bits<W>],
    within: &Bits<W>,
    steps: &mut Steps<L>,
) -> Bits<W>
    requires some { 0 < set.len within.now }
    requires below { IsWithin (64 * W) within.now }
    requires parents { HasEach within.now parents.now }
    requires allowed { IsAllowed (64 * W) parents.now within.now (shown_in network.now) }
    ensures fewest { IsFewestDrawn (64 * W) parents.now within.now (shown_in network.now) result }
    ensures steps { steps.old ≤ steps.new }
    ensures counted { steps.new + queue.old.given ≡ steps.old + queue.new.given }
    ensures steps_most { steps.new ≤ steps.old + set.len within.now * set.len within.now }
{
    let mut best = *within;
    let mut left = *within;
    while let Some(place) = left.least() {
        if best.count() == 1 {
            return best;
        }
        let past = within.minus(&left);
        let found = draw(network, queue, parents, within, &past, place, steps);
        left.remove(place);
        best = smaller(best, found, &past);
    }
    best
}

// The smaller one of two sets, and the first where the second holds one of some places.
fn smaller<const W: usize>(best: Bits<W>, found: Bits<W>, past: &Bits<W>) -> Bits<W>
    requires { set.len best < 2 ^ 64 }
    ensures one { (result ≡ best.entry) ⊎ ((result ≡ found.entry) × AreApart found.entry past.now) }
    ensures first { set.len result ≤ set.len best.entry }
    ensures second { (set.len result ≤ set.len found.entry)
        ⊎ ((t : ℕ) × (set.contains found.entry t ≡ true) × (set.contains past.now t ≡ true)) }
{
    if found.meet(past).least().is_none() && found.count() < best.count() {
        found
    } else {
        best
    }
}

// Searches from a place, going to parents and to the children that send flow, until all is found or one of some places
// is: the least drawn set that holds the place, or some of it.
fn draw<L: Ledger, const W: usize>(
    network: &Network<W>,
    queue: &mut Queue<W>,
    parents: &[Bits<W>],
    within: &Bits<W>,
    past: &Bits<W>,
    place: usize,
    steps: &mut Steps<L>,
) -> Bits<W>
    requires below { IsWithin (64 * W) within.now }
    requires parents { HasEach within.now parents.now }
    requires place { set.contains within.now place ≡ true }
    requires allowed { IsAllowed (64 * W) parents.now within.now (shown_in network.now) }
    ensures drawn { AreApart result past.now → IsDrawn (64 * W) parents.now within.now (shown_in network.now) result }
    ensures all_taken { AreApart result past.now → steps.new ≡ steps.old + set.len result }
    ensures holds { set.contains result place ≡ true }
    ensures least { IsDrawnBy (64 * W) parents.now within.now (shown_in network.now) place result }
    ensures steps { steps.old ≤ steps.new }
    ensures counted { steps.new + queue.old.given ≡ steps.old + queue.new.given }
    ensures steps_most { steps.new ≤ steps.old + set.len within.now }
{
    queue.clear();
    let mut start = Bits::empty();
    start.insert(place);
    let mut seen = put_all(queue, &Bits::empty(), &start, None);
    while let Some(at) = queue.take(steps) {
        let next = toward(network, parents, within, &seen, at);
        if next.meet(past).least().is_some() {
            return seen.union(&next);
        }
        seen = put_all(queue, &seen, &next, None);
    }
    seen
}

// The places that a place draws in and that were not seen.
fn toward<const W: usize>(
    network: &Network<W>,
    parents: &[Bits<W>],
    within: &Bits<W>,
    seen: &Bits<W>,
    place: usize,
) -> Bits<W>
    requires below { IsWithin (64 * W) within.now }
    requires parents { HasEach within.now parents.now }
    requires inside { set.contains within.now place ≡ true }
    requires allowed { IsAllowed (64 * W) parents.now within.now (shown_in network.now) }
    ensures { IsBeyond (64 * W) parents.now within.now (shown_in network.now) seen.now place result }
{
    parents[place]
        .meet(within)
        .union(&network.senders(place))
        .minus(seen)
}
