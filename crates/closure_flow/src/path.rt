ghost use Rattle.std.specs.Prelude.{◌≡◌, ℕ, ◌+◌, ◌*◌, ◌^◌, ◌<◌, ◌≤◌, ◌⊎◌, true, false, length, pos, ◌+ℤ◌, ◌-ℤ◌, ◌≤ℤ◌};
ghost use Rattle.std.specs.FinSet as set;
ghost use Rattle.bitset.specs.Places.{places};
ghost use Rattle.closure_flow.specs.Closures.{HasEach, parents_at};
ghost use Rattle.closure_flow.specs.Flows.{net, only_at};
ghost use Rattle.closure_flow.specs.Labels.{IsStart, IsStep};
ghost use Rattle.closure_flow.specs.Queues.{place_at};
ghost use Rattle.closure_flow.specs.Views.{FitsIn, IsAllowedIn, IsNarrowestIn, IsSearchIn, LetsThroughIn, PushesTo};
ghost use Rattle.closure_flow.specs.Views.{flow_in, rest_in};

use crate::Queue;
use crate::network::Network;
use bitset::Bits;

/// Sends an amount back along the path to an entry, from its end to its start, and tells the place where it starts.
pub(crate) fn send<const W: usize>(
    network: &mut Network<W>,
    queue: &Queue<W>,
    parents: &[Bits<W>],
    at: usize,
    amount: u128,
) -> usize
    requires at { at < length queue.now.entries }
    requires parents { HasEach network.old.within parents.now }
    requires search { IsSearchIn parents.now network.old queue.now.entries }
    requires allowed { IsAllowedIn parents.now network.old }
    requires fits { FitsIn parents.now network.old queue.now.entries at amount }
    requires room { (c p : ℕ) → set.contains network.old.within c ≡ true → set.contains network.old.within p ≡ true
        → flow_in network.old c p + amount < 2 ^ 128 }
    ensures start { set.contains network.old.within result ≡ true }
    ensures begins { (i : ℕ) × IsStart queue.now.entries at i × (result ≡ place_at queue.now.entries i) }
    ensures enough { pos amount ≤ℤ rest_in network.old result }
    ensures moved { (t : ℕ) → set.contains network.old.within t ≡ true
        → let before = net (places (64 * W) network.old.within) (flow_in network.old) t in
        let after = net (places (64 * W) network.old.within) (flow_in network.new) t in
        after ≡ (before +ℤ only_at result (pos amount) t) -ℤ only_at (place_at queue.now.entries at) (pos amount) t }
    ensures more { (c p : ℕ) → set.contains network.old.within c ≡ true → set.contains network.old.within p ≡ true
        → flow_in network.new c p ≤ flow_in network.old c p + amount }
    ensures grown { (c p : ℕ) → set.contains network.old.within c ≡ true → set.contains network.old.within p ≡ true
        → flow_in network.old c p < flow_in network.new c p → IsStep queue.now.entries at c p }
    ensures taken { (u v : ℕ) → IsStep queue.now.entries at u v → set.contains (parents_at parents.now u) v ≡ false
        → flow_in network.new v u + amount ≡ flow_in network.old v u }
    ensures allowed { IsAllowedIn parents.now network.new }
    ensures rest { network.new.rest.items ≡ network.old.rest.items }
    ensures within { network.new.within ≡ network.old.within }
{
    let mut here = at;
    while let Some(before) = queue.entry(here).from {
        let from = queue.entry(before).place;
        let to = queue.entry(here).place;
        push(network, parents, from, to, amount);
        here = before;
    }
    queue.entry(here).place
}

/// Sends an amount from one place to another: along their pair, or else by taking back what runs against it.
fn push<const W: usize>(
    network: &mut Network<W>,
    parents: &[Bits<W>],
    from: usize,
    to: usize,
    amount: u128,
)
    requires parents { HasEach network.old.within parents.now }
    requires allowed { IsAllowedIn parents.now network.old }
    requires from { set.contains network.old.within from ≡ true }
    requires to { set.contains network.old.within to ≡ true }
    requires apart { from ≡ to → ⊥ }
    requires lets { LetsThroughIn parents.now network.old amount from to }
    requires room { flow_in network.old from to + amount < 2 ^ 128 }
    ensures pushes { PushesTo parents.now network.old network.new from to amount }
    ensures grown { (c p : ℕ) → c < 64 * W → p < 64 * W → flow_in network.old c p < flow_in network.new c p
        → (c ≡ from) × (p ≡ to) }
    ensures taken { set.contains (parents_at parents.now from) to ≡ false
        → flow_in network.new to from + amount ≡ flow_in network.old to from }
    ensures rest { network.new.rest.items ≡ network.old.rest.items }
    ensures within { network.new.within ≡ network.old.within }
{
    if parents[from].has(to) {
        let flow = network.sent(from, to);
        network.set_sent(from, to, flow + amount);
    } else {
        let flow = network.sent(to, from);
        network.set_sent(to, from, flow - amount);
    }
}

/// The most that the path to an entry lets through: what its start has left, the flows taken back, and a limit.
pub(crate) fn narrowest<const W: usize>(
    network: &Network<W>,
    queue: &Queue<W>,
    parents: &[Bits<W>],
    at: usize,
    limit: u128,
) -> u128
    requires at { at < length queue.now.entries }
    requires some { 0 < limit }
    requires parents { HasEach network.now.within parents.now }
    requires search { IsSearchIn parents.now network.now queue.now.entries }
    ensures some { 0 < result }
    ensures most { result ≤ limit }
    ensures fits { FitsIn parents.now network.now queue.now.entries at result }
    ensures narrowest { IsNarrowestIn parents.now network.now queue.now.entries at limit result }
{
    let mut amount = limit;
    let mut here = at;
    while let Some(before) = queue.entry(here).from {
        let from = queue.entry(before).place;
        let to = queue.entry(here).place;
        amount = step_limit(network, parents, from, to, amount);
        here = before;
    }
    let start = queue.entry(here).place;
    amount.min(network.rest[start].unsigned_abs())
}

// What a step of a path lets through of an amount.
fn step_limit<const W: usize>(
    network: &Network<W>,
    parents: &[Bits<W>],
    from: usize,
    to: usize,
    amount: u128,
) -> u128
    requires parents { from < length parents.now }
    requires from { from < 64 * W }
    requires to { to < 64 * W }
    requires some { 0 < amount }
    requires step { (set.contains (parents_at parents.now from) to ≡ true) ⊎ (0 < flow_in network.now to from) }
    ensures some { 0 < result }
    ensures most { result ≤ amount }
    ensures lets { LetsThroughIn parents.now network.now result from to }
    ensures narrowest { (result ≡ amount)
        ⊎ ((set.contains (parents_at parents.now from) to ≡ false) × (flow_in network.now to from ≡ result)) }
{
    if parents[from].has(to) {
        amount
    } else {
        amount.min(network.sent(to, from))
    }
}
