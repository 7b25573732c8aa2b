ghost use Rattle.std.specs.Prelude.{◌≡◌, ℕ, ◌*◌, ◌<◌, ◌^◌, true, false, pos, ◌<ℤ◌, length, IfSome};
ghost use Rattle.std.specs.FinSet as set;
ghost use Rattle.bitset.specs.Places.{IsWithin};
ghost use Rattle.closure_flow.specs.Networks.{AreMarked, IsLean, IsOver, IsShort, IsSized};

use bitset::Bits;
use outside::NoMemory;
use std::alloc::Global;

/// Flow along pairs of a child and a parent, and what is left at each place, above 0 to be sent, below 0 to come.
#[derive(Drop)]
pub(crate) struct Network<const W: usize> {
    /// By parent, the children that send it flow.
    pub(crate) into: Vec<Bits<W>>,
    /// By parent and child, the amount. It is read only where the child is in the parent's set.
    pub(crate) amounts: Vec<u128>,
    /// By place, what is left.
    pub(crate) rest: Vec<i128>,
    /// The places between which something may flow.
    pub(crate) within: Bits<W>,
    /// Those of them where something is left to be sent.
    pub(crate) over: Bits<W>,
    /// Those of them that lack something.
    pub(crate) short: Bits<W>,
    ghost sized: { IsSized (64 * W) into.items amounts.items rest.items },
    ghost lean: { IsLean (64 * W) into.items amounts.items },
    ghost inside: { IsWithin (64 * W) within },
    ghost over_is: { AreMarked within over rest.items IsOver },
    ghost short_is: { AreMarked within short rest.items IsShort },
}

impl<const W: usize> Network<W> {
    ghost use Rattle.std.specs.Prelude.{◌≡◌, ◌↔◌, ℕ, ◌+◌, ◌*◌, ◌<◌, ◌^◌, true, pos, ◌+ℤ◌, ◌-ℤ◌, ◌≤ℤ◌, ◌<ℤ◌};
    ghost use Rattle.std.specs.Prelude.{length, slice_set, IfOk};
    ghost use Rattle.std.specs.FinSet as set;
    ghost use Rattle.closure_flow.specs.Flows.{only_at};
    ghost use Rattle.closure_flow.specs.Views.{flow_in, rest_in, shown_in};

    /// A network of no places.
    pub(crate) fn new(alloc: Global) -> Result<Self, NoMemory>
        ensures { IfOk result (λ n. n.within ≡ set.empty) }
    {
        let (places, pairs) = sizes::<W>().ok_or(NoMemory)?;
        Ok(Network {
            within: Bits::empty(),
            over: Bits::empty(),
            short: Bits::empty(),
            into: vec![in alloc; Bits::empty(); places]?,
            amounts: vec![in alloc; 0; pairs]?,
            rest: vec![in alloc; 0; places]?,
        })
    }

    /// Leaves no places.
    pub(crate) fn clear(&mut self)
        ensures { self.new.within ≡ set.empty }
    {
        self.within = Bits::empty();
        self.over = Bits::empty();
        self.short = Bits::empty();
    }

    /// Begins a place anew: its weight is left there, and nothing flows to it.
    pub(crate) fn begin(&mut self, place: usize, weight: i128)
        requires { place < 64 * W }
        ensures within { self.new.within ≡ set.insert self.old.within place }
        ensures rest { self.new.rest.items ≡ slice_set self.old.rest.items place weight }
        ensures into { self.new.into.items ≡ slice_set self.old.into.items place set.empty }
        ensures amounts { self.new.amounts.items ≡ self.old.amounts.items }
    {
        let over = marked_over(self.over, place, weight);
        let short = marked_short(self.short, place, weight);
        self.within.insert(place);
        self.over = over;
        self.short = short;
        self.rest[place] = weight;
        self.into[place] = Bits::empty();
    }

    /// What a child sends to a parent.
    pub(crate) fn sent(&self, child: usize, parent: usize) -> u128
        requires child { child < 64 * W }
        requires parent { parent < 64 * W }
        ensures { result ≡ flow_in self.now child parent }
    {
        if self.into[parent].has(child) {
            self.amounts[self.place_of(child, parent)]
        } else {
            0
        }
    }

    /// The children that send a parent flow, none where the network is not for the parent.
    pub(crate) fn senders(&self, parent: usize) -> Bits<W>
        requires { parent < 64 * W }
        ensures { (c : ℕ) → (set.contains result c ≡ true) ↔ (0 < shown_in self.now c parent) }
    {
        if self.within.has(parent) {
            self.into[parent]
        } else {
            Bits::empty()
        }
    }

    /// Sets what a child sends to a parent.
    pub(crate) fn set_sent(&mut self, child: usize, parent: usize, amount: u128)
        requires child { child < 64 * W }
        requires parent { parent < 64 * W }
        ensures here { flow_in self.new child parent ≡ amount }
        ensures others { (c p : ℕ) → c < 64 * W → p < 64 * W → ((c ≡ child) × (p ≡ parent) → ⊥)
            → flow_in self.new c p ≡ flow_in self.old c p }
        ensures rest { self.new.rest.items ≡ self.old.rest.items }
        ensures within { self.new.within ≡ self.old.within }
    {
        let senders = marked(self.into[parent], child, amount);
        let at = self.place_of(child, parent);
        self.into[parent] = senders;
        self.amounts[at] = amount;
    }

    /// Moves some of what is left at one place to another.
    pub(crate) fn shift(&mut self, from: usize, to: usize, amount: u128)
        requires from { set.contains self.old.within from ≡ true }
        requires to { set.contains self.old.within to ≡ true }
        requires apart { from ≡ to → ⊥ }
        requires enough { pos amount ≤ℤ rest_in self.old from }
        requires room { (rest_in self.old to +ℤ pos amount) <ℤ pos (2 ^ 127) }
        ensures rest { (t : ℕ) → t < 64 * W
            → rest_in self.new t ≡ (rest_in self.old t -ℤ only_at from (pos amount) t) +ℤ only_at to (pos amount) t }
        ensures into { self.new.into.items ≡ self.old.into.items }
        ensures amounts { self.new.amounts.items ≡ self.old.amounts.items }
        ensures within { self.new.within ≡ self.old.within }
    {
        let left = self.rest[from] - amount as i128;
        let held = self.rest[to] + amount as i128;
        let over = marked_over(self.over, from, left);
        let short = marked_short(self.short, from, left);
        self.over = marked_over(over, to, held);
        self.short = marked_short(short, to, held);
        self.rest[from] = left;
        self.rest[to] = held;
    }

    // Where the amount of a pair lies.
    fn place_of(&self, child: usize, parent: usize) -> usize
        requires child { child < 64 * W }
        requires parent { parent < 64 * W }
        ensures at { result ≡ parent * (64 * W) + child }
        ensures within { result < length self.now.amounts.items }
    {
        parent * self.rest.len() + child
    }
}

// How many places and how many pairs there are, where a `usize` holds the number of pairs.
fn sizes<const W: usize>() -> Option<(usize, usize)>
    ensures places { IfSome result (λ r. r.0 ≡ 64 * W) }
    ensures pairs { IfSome result (λ r. r.1 ≡ 64 * W * (64 * W)) }
    ensures fits { IfSome result (λ r. r.1 < 2 ^ 64) }
{
    let places = W.checked_mul(64)?;
    let pairs = places.checked_mul(places)?;
    Some((places, pairs))
}

// A parent's senders once a child sends an amount: the child is one where that is not 0.
fn marked<const W: usize>(mut senders: Bits<W>, child: usize, amount: u128) -> Bits<W>
    requires { child < 64 * W }
    ensures other { (c : ℕ) → (c ≡ child → ⊥) → set.contains result c ≡ set.contains senders.entry c }
    ensures none { amount ≡ 0 → set.contains result child ≡ false }
    ensures some { 0 < amount → set.contains result child ≡ true }
{
    senders.set(child, amount != 0);
    senders
}

// The places over 0 once this is left at a place.
fn marked_over<const W: usize>(mut over: Bits<W>, place: usize, left: i128) -> Bits<W>
    requires { place < 64 * W }
    ensures other { (t : ℕ) → (t ≡ place → ⊥) → set.contains result t ≡ set.contains over.entry t }
    ensures sound { set.contains result place ≡ true → IsOver left }
    ensures complete { IsOver left → set.contains result place ≡ true }
{
    over.set(place, left > 0);
    over
}

// The places below 0 once this is left at a place.
fn marked_short<const W: usize>(mut short: Bits<W>, place: usize, left: i128) -> Bits<W>
    requires { place < 64 * W }
    ensures other { (t : ℕ) → (t ≡ place → ⊥) → set.contains result t ≡ set.contains short.entry t }
    ensures sound { set.contains result place ≡ true → IsShort left }
    ensures complete { IsShort left → set.contains result place ≡ true }
{
    short.set(place, left < 0);
    short
}
