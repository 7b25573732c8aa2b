ghost use Rattle.std.specs.Prelude.{◌≡◌, ℕ, ◌+◌, ◌*◌, ◌^◌, ◌<◌, ◌≤◌, true, length, pos, ◌<ℤ◌, unsigned_abs, sum_by};
ghost use Rattle.std.specs.FinSet as set;
ghost use Rattle.bitset.specs.Places.{places};
ghost use Rattle.closure_flow.specs.Bounds.{most_searched, most_steps};
ghost use Rattle.closure_flow.specs.Closures.{HasEach, IsBalanced, IsClosed, IsNoneHeavier};
ghost use Rattle.closure_flow.specs.Closures.{negatives, weight_at, weight_of};
ghost use Rattle.closure_flow.specs.Flows.{surplus};
ghost use Rattle.closure_flow.specs.Labels.{Climbs};
ghost use Rattle.closure_flow.specs.Networks.{IsShort};
ghost use Rattle.closure_flow.specs.Outcomes.{IfBetter, OnBalanced};
ghost use Rattle.closure_flow.specs.Queues.{place_at};
ghost use Rattle.closure_flow.specs.Scratches.{TakesSteps, flow_of};
ghost use Rattle.closure_flow.specs.Views.{ImprovesTo, IsLabellingIn, IsSealedIn, IsSearchIn, IsSteadyIn, SpendsTo};
ghost use Rattle.closure_flow.specs.Views.{flow_in, rest_in};

use crate::first::first_flow;
use crate::network::Network;
use crate::path::{narrowest, send};
use crate::search::search;
use crate::{Queue, Scratch};
use bitset::Bits;
use step_count::{Ledger, Steps};

/// What a solver answers.
#[derive(Debug, Drop)]
pub enum Outcome<const W: usize> {
    /// Some closed set has positive weight. This is one of the greatest weight.
    Better(Bits<W>),
    /// No closed set has positive weight. A balanced flow shows it.
    Balanced,
}

/// Finds a closed set of greatest weight among the places of `within`, or a balanced flow that shows that no closed set has
/// positive weight.
///
/// Weights and parents are given by place. The weights of the set sum to 0, and their absolute values to less than 2^126: for
/// transactions they are satoshis times virtual bytes.
///
/// Takes no memory: the call works in `scratch`, and leaves a balanced flow there. Counts as a step each place that the solve
/// begins with, and each that it takes from its queue: for n places at least n steps, and at most (n+2)^4 + (n+2), whatever the
/// weights are.
///
/// This is the maximum closure problem. A closed set of greatest weight is the source's side of a minimum cut, and the solver
/// augments along shortest paths, as Edmonds and Karp do.
pub fn solve<L: Ledger, const W: usize>(
    scratch: &mut Scratch<W>,
    weights: &[i128],
    parents: &[Bits<W>],
    within: Bits<W>,
    steps: &mut Steps<L>,
) -> Outcome<W>
    requires weights { HasEach within weights.now }
    requires parents { HasEach within parents.now }
    requires sum { weight_of (64 * W) weights.now within ≡ pos 0 }
    requires small { sum_by (λ t. unsigned_abs (weight_at weights.now t)) (places (64 * W) within) < 2 ^ 126 }

    // A closed set of positive weight is answered exactly where there is one, and none is heavier.
    ensures closed { IfBetter result (IsClosed parents.now within.entry) }
    ensures positive { IfBetter result (λ s. pos 0 <ℤ weight_of (64 * W) weights.now s) }
    ensures greatest { IfBetter result
        (λ s. IsNoneHeavier (64 * W) weights.now parents.now within.entry (weight_of (64 * W) weights.now s)) }
    ensures none { OnBalanced result (IsNoneHeavier (64 * W) weights.now parents.now within.entry (pos 0)) }
    ensures flow { OnBalanced result (IsBalanced (64 * W) weights.now parents.now within.entry (flow_of scratch.new)) }

    // A step is one of the places that it begins with, or one that its queue gave, and no other. Each place is begun
    // with, so each of negative weight is. However large the weights are, n places take at most (n + 2)^4 + (n + 2)
    // steps in all.
    ensures steps { TakesSteps (set.len within.entry) (most_steps (set.len within.entry))
        scratch.old scratch.new steps.old steps.new }
    ensures steps_better { IfBetter result (λ _. steps.old < steps.new) }
    ensures steps_balanced { OnBalanced result (steps.old + negatives (64 * W) weights.now within.entry ≤ steps.new) }
    ensures steps_least { steps.old + set.len within.entry ≤ steps.new }
{
    load(&mut scratch.network, weights, &within, steps);
    first_flow(&mut scratch.network, parents);
    let reached = complete(&mut scratch.network, &mut scratch.queue, parents, steps);
    if reached.least().is_none() {
        return Outcome::Balanced;
    }
    Outcome::Better(reached)
}

/// Begins each place of a set anew, and counts a step for it.
fn load<L: Ledger, const W: usize>(
    network: &mut Network<W>,
    weights: &[i128],
    within: &Bits<W>,
    steps: &mut Steps<L>,
)
    requires weights { HasEach within.now weights.now }
    ensures within { network.new.within ≡ within.now }
    ensures rest { (t : ℕ) → set.contains within.now t ≡ true → rest_in network.new t ≡ weight_at weights.now t }
    ensures none { (c p : ℕ) → set.contains within.now p ≡ true → flow_in network.new c p ≡ 0 }
    ensures steps { steps.new ≡ steps.old + set.len within.now }
{
    network.clear();
    let mut left = *within;
    while let Some(place) = left.least() {
        left.remove(place);
        steps.tick();
        network.begin(place, weights[place]);
    }
}

/// Searches and augments until no place that lacks something can be reached, and tells the places reached then.
fn complete<L: Ledger, const W: usize>(
    network: &mut Network<W>,
    queue: &mut Queue<W>,
    parents: &[Bits<W>],
    steps: &mut Steps<L>,
) -> Bits<W>
    requires parents { HasEach network.old.within parents.now }
    requires steady { IsSteadyIn parents.now network.old }
    ensures improves { ImprovesTo parents.now network.old network.new }
    ensures sealed { IsSealedIn parents.now network.new result }
    ensures steps { steps.old ≤ steps.new }
    ensures counted { steps.new + queue.old.given ≡ steps.old + queue.new.given }
    ensures most { steps.new ≤ steps.old + most_searched (set.len network.old.within) }
    ensures within { network.new.within ≡ network.old.within }
{
    loop {
        let reach = search(network, queue, parents, steps);
        let Some(at) = reach.end else {
            return reach.seen;
        };
        augment(network, queue, parents, at);
    }
}

/// Sends what the path to an entry, whose place lacks something, lets through.
fn augment<const W: usize>(
    network: &mut Network<W>,
    queue: &Queue<W>,
    parents: &[Bits<W>],
    at: usize,
)
    requires at { at < length queue.now.entries }
    requires lacks { IsShort (rest_in network.old (place_at queue.now.entries at)) }
    requires parents { HasEach network.old.within parents.now }
    requires search { IsSearchIn parents.now network.old queue.now.entries }
    requires steady { IsSteadyIn parents.now network.old }
    ensures improves { ImprovesTo parents.now network.old network.new }
    ensures falls { surplus (rest_in network.new) (places (64 * W) network.old.within)
        < surplus (rest_in network.old) (places (64 * W) network.old.within) }
    ensures spends { (label : ℕ → ℕ) (end : ℕ) → IsLabellingIn parents.now network.old label end
        → Climbs queue.now.entries at label → SpendsTo parents.now network.old network.new label end }
    ensures within { network.new.within ≡ network.old.within }
{
    let end = queue.entry(at).place;
    let lack = network.rest[end].unsigned_abs();
    let amount = narrowest(network, queue, parents, at, lack);
    let start = send(network, queue, parents, at, amount);
    network.shift(start, end, amount);
}
