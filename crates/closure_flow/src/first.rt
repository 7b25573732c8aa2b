ghost use Rattle.std.specs.Prelude.{◌≡◌, ℕ, ◌+◌, ◌*◌, ◌^◌, ◌<◌, true, false, pos, ◌+ℤ◌, ◌≤ℤ◌, ◌<ℤ◌, IfSome};
ghost use Rattle.std.specs.FinSet as set;
ghost use Rattle.bitset.specs.Places.{places};
ghost use Rattle.closure_flow.specs.Closures.{HasEach, parents_at};
ghost use Rattle.closure_flow.specs.Flows.{surplus};
ghost use Rattle.closure_flow.specs.Networks.{IsOver};
ghost use Rattle.closure_flow.specs.Views.{ArrangesTo, GivesTo, HandsTo, ImprovesTo, IsFirstIn, flow_in, rest_in};
ghost use borrow.Author.Differences.{up};

use crate::network::Network;
use bitset::Bits;

/// A first flow, without a search: places that have something left, the last one first and each once, give it to parents
/// that lack something, and hand on what is left then.
///
/// Where parents stand before their children, what one place hands on is given by another later.
pub(crate) fn first_flow<const W: usize>(network: &mut Network<W>, parents: &[Bits<W>])
    requires parents { HasEach network.old.within parents.now }
    requires none { (c p : ℕ) → set.contains network.old.within p ≡ true → flow_in network.old c p ≡ 0 }
    requires small { surplus (rest_in network.old) (places (64 * W) network.old.within) < 2 ^ 126 }
    ensures improves { ImprovesTo parents.now network.old network.new }
    ensures within { network.new.within ≡ network.old.within }
{
    let mut to_come = network.within;
    while let Some(place) = to_come.meet(&network.over).greatest() {
        to_come.remove(place);
        settle(network, parents, &to_come, place);
    }
}

/// Gives what a place has left to parents that lack something, and hands on what is left then.
fn settle<const W: usize>(
    network: &mut Network<W>,
    parents: &[Bits<W>],
    to_come: &Bits<W>,
    place: usize,
)
    requires parents { HasEach network.old.within parents.now }
    requires place { set.contains network.old.within place ≡ true }
    requires past { set.contains to_come.now place ≡ false }
    requires left { IsOver (rest_in network.old place) }
    requires first { IsFirstIn parents.now to_come.now network.old }
    ensures arranges { ArrangesTo parents.now to_come.now network.old network.new }
    ensures within { network.new.within ≡ network.old.within }
{
    let mut to = parents[place].meet(&network.short);
    while let Some(parent) = to.least() {
        to.remove(parent);
        give(network, place, parent);
    }
    hand_on(network, parents, to_come, place);
}

/// Gives what a place has left to another, as far as that lacks something.
fn give<const W: usize>(network: &mut Network<W>, from: usize, to: usize)
    requires from { set.contains network.old.within from ≡ true }
    requires to { set.contains network.old.within to ≡ true }
    requires held { flow_in network.old from to + up (rest_in network.old from) < 2 ^ 126 }
    ensures gives { GivesTo network.old network.new from to }
    ensures within { network.new.within ≡ network.old.within }
{
    let left = network.rest[from];
    let lacks = network.rest[to];
    if left > 0 && lacks < 0 {
        let amount = left.unsigned_abs().min(lacks.unsigned_abs());
        hand(network, from, to, amount);
    }
}

/// Hands on what a place has left to a parent that is still to come and has parents itself, if there is one.
fn hand_on<const W: usize>(
    network: &mut Network<W>,
    parents: &[Bits<W>],
    to_come: &Bits<W>,
    place: usize,
)
    requires parents { HasEach network.old.within parents.now }
    requires place { set.contains network.old.within place ≡ true }
    requires past { set.contains to_come.now place ≡ false }
    requires first { IsFirstIn parents.now to_come.now network.old }
    ensures arranges { ArrangesTo parents.now to_come.now network.old network.new }
    ensures within { network.new.within ≡ network.old.within }
{
    let left = network.rest[place];
    if left <= 0 {
        return;
    }
    if let Some(parent) = heir(network, parents, to_come, place) {
        hand(network, place, parent, left.unsigned_abs());
    }
}

/// The greatest parent of a place that is still to come and has parents itself.
fn heir<const W: usize>(
    network: &Network<W>,
    parents: &[Bits<W>],
    to_come: &Bits<W>,
    place: usize,
) -> Option<usize>
    requires parents { HasEach network.now.within parents.now }
    requires place { set.contains network.now.within place ≡ true }
    requires inside { (t : ℕ) → set.contains to_come.now t ≡ true → set.contains network.now.within t ≡ true }
    ensures parent { IfSome result (λ p. set.contains (parents_at parents.now place) p ≡ true) }
    ensures to_come { IfSome result (λ p. set.contains to_come.now p ≡ true) }
{
    let mut found = None;
    let mut left = parents[place].meet(to_come);
    while let Some(parent) = left.least() {
        left.remove(parent);
        if parents[parent].meet(&network.within).least().is_some() {
            found = Some(parent);
        }
    }
    found
}

/// Hands an amount from a place to a parent of it: it flows along their pair.
fn hand<const W: usize>(network: &mut Network<W>, from: usize, to: usize, amount: u128)
    requires from { set.contains network.old.within from ≡ true }
    requires to { set.contains network.old.within to ≡ true }
    requires apart { from ≡ to → ⊥ }
    requires enough { pos amount ≤ℤ rest_in network.old from }
    requires room { (rest_in network.old to +ℤ pos amount) <ℤ pos (2 ^ 127) }
    requires held { flow_in network.old from to + amount < 2 ^ 128 }
    ensures hands { HandsTo network.old network.new from to amount }
    ensures within { network.new.within ≡ network.old.within }
{
    let flow = network.sent(from, to);
    network.set_sent(from, to, flow + amount);
    network.shift(from, to, amount);
}
