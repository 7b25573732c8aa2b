ghost use Rattle.std.specs.Prelude.{◌≡◌, ℕ, ◌+◌, ◌*◌, ◌≤◌, ◌⊎◌, true, false, length, pos, MatchOption, Option};
ghost use Rattle.std.specs.FinSet as set;
ghost use Rattle.bitset.specs.Places.{IsWithin};
ghost use Rattle.closure_flow.specs.Closures.{HasEach};
ghost use Rattle.closure_flow.specs.Networks.{IsShort};
ghost use Rattle.closure_flow.specs.Queues.{Grows, Lists, place_at};
ghost use Rattle.closure_flow.specs.Views.{IsAllowedIn, IsBeyondIn, IsSealedIn, IsSearchIn, IsShortestIn, rest_in};

use crate::network::Network;
use crate::{Entry, Queue};
use bitset::Bits;
use step_count::{Ledger, Steps};

/// Puts the places of a set behind the entries of a queue, as found from one entry, and tells all places listed.
pub(crate) fn put_all<const W: usize>(
    queue: &mut Queue<W>,
    first: &Bits<W>,
    next: &Bits<W>,
    from: Option<usize>,
) -> Bits<W>
    requires lists { Lists queue.old.entries first.now }
    requires within { IsWithin (64 * W) first.now }
    requires apart { (t : ℕ) → set.contains next.now t ≡ true → set.contains first.now t ≡ false }
    ensures lists { Lists queue.new.entries result }
    ensures within { IsWithin (64 * W) result }
    ensures grows { Grows queue.old.entries queue.new.entries next.now from }
    ensures old { (t : ℕ) → set.contains first.now t ≡ true → set.contains result t ≡ true }
    ensures new { (t : ℕ) → set.contains next.now t ≡ true → set.contains result t ≡ true }
    ensures only { (t : ℕ) → set.contains result t ≡ true
        → (set.contains first.now t ≡ true) ⊎ (set.contains next.now t ≡ true) }
    ensures taken { queue.new.taken ≡ queue.old.taken }
    ensures given { queue.new.given ≡ queue.old.given }
{
    let mut seen = *first;
    let mut left = *next;
    while let Some(place) = left.least() {
        left.remove(place);
        seen.insert(place);
        queue.push(Entry { place, from });
    }
    seen
}

/// What a search reached.
#[derive(Drop)]
pub(crate) struct Reach<const W: usize> {
    /// The position in the queue of a place that lacks something, the first that was taken, if there is one.
    pub(crate) end: Option<usize>,
    /// The places that were found.
    pub(crate) seen: Bits<W>,
}

/// Searches by breadth, from the places where something is left to be sent, for one that lacks something.
pub(crate) fn search<L: Ledger, const W: usize>(
    network: &Network<W>,
    queue: &mut Queue<W>,
    parents: &[Bits<W>],
    steps: &mut Steps<L>,
) -> Reach<W>
    requires parents { HasEach network.now.within parents.now }
    requires allowed { IsAllowedIn parents.now network.now }
    ensures end { MatchOption result.end (IsSealedIn parents.now network.now result.seen)
        (λ at. IsShort (rest_in network.now (place_at queue.new.entries at))) }
    ensures position { MatchOption result.end (queue.new.taken ≡ length queue.new.entries)
        (λ at. queue.new.taken ≡ at + 1) }
    ensures within { queue.new.taken ≤ length queue.new.entries }
    ensures few { length queue.new.entries ≤ set.len network.now.within }
    ensures search { IsSearchIn parents.now network.now queue.new.entries }
    ensures shortest { MatchOption result.end (Unit {0}) (IsShortestIn parents.now network.now queue.new.entries) }
    ensures given { queue.new.given ≡ queue.old.given + queue.new.taken }
    ensures steps { steps.new ≡ steps.old + queue.new.taken }
{
    queue.clear();
    let mut seen = put_all(queue, &Bits::empty(), &network.over, None);
    while let Some(place) = queue.take(steps) {
        let at = queue.taken() - 1;
        if network.short.has(place) {
            return Reach {
                end: Some(at),
                seen,
            };
        }
        let next = beyond(network, parents, &seen, place);
        seen = put_all(queue, &seen, &next, Some(at));
    }
    Reach { end: None, seen }
}

/// The places that a place reaches in one step and that were not seen.
fn beyond<const W: usize>(
    network: &Network<W>,
    parents: &[Bits<W>],
    seen: &Bits<W>,
    place: usize,
) -> Bits<W>
    requires parents { HasEach network.now.within parents.now }
    requires inside { set.contains network.now.within place ≡ true }
    requires allowed { IsAllowedIn parents.now network.now }
    ensures { IsBeyondIn parents.now network.now seen.now place result }
{
    parents[place]
        .meet(&network.within)
        .union(&network.into[place])
        .minus(seen)
}
