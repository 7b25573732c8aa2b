//! The order that stood before a change, by the places that its names have now. Most parts stay as they were and aren't solved again.
//!
//! A part is known where its names keep their fees, their sizes and the relation among themselves. Its flows stay as they are, by
//! names. Of a part that has changed the solver takes the names one by one, and a name that isn't found is left out. The guess has no
//! say in the answer, which is optimal whatever the solver tried, only in how soon the answer comes. So clauses speak of parts that are
//! known, and of no others.

ghost use Rattle.std.specs.Prelude.{◌≡◌, ◌⊎◌, ℕ, ◌*◌, ◌<◌, ◌≤◌, ◌∷◌, ◌++◌, [], true, false, length, slice_index, Contains};
ghost use Rattle.std.specs.FinSet as set;
ghost use Rattle.lists.specs.Distinct.{AreDistinct};
ghost use Rattle.linearize.specs.Graphs.{sum_from};
ghost use Rattle.cluster.specs.Guesses.{AreImages, PutsPlaces, PutsFlows, PutsPart};

use crate::cluster::{Cluster, PartRef};
use bitset::Bits;
use fee_rate::{FeeRate, is_lower};
use graphs::{Flow, TxId};
use linearize::{Guess, OldPart};

/// How many slots there are for places. Where names are numbers that follow one another, so many of them have slots of their own.
const SLOTS: u64 = 512;

/// Guesses the order of a cluster whose names keep their places, where a name has another fee: parts without it are known.
pub(crate) fn guess_fee<const W: usize>(
    old: &Cluster<W>,
    names: &[TxId],
    changed: TxId,
    guess: &mut Guess,
)
    ensures { AreImages names.now (λ part. Contains old.now.parts part × (Contains part.ids changed → ⊥))
        guess.new.parts.items guess.new.places.items guess.new.flows.items }
{
    guess.clear();
    let slots = Slots::new(names);
    for at in 0..old.part_count() {
        let part = old.part(at);
        let known = is_without(part.ids, changed);
        put_part(part, known, names, &slots, guess);
    }
}

/// Guesses the order of a cluster whose names keep their places, where what is above a new pair comes to be above what is below
/// it: parts without a name above or without one below are known. The part at `moved` is to be tried anyway.
pub(crate) fn guess_linked<const W: usize>(
    old: &Cluster<W>,
    names: &[TxId],
    above: &Bits<W>,
    below: &Bits<W>,
    moved: usize,
    guess: &mut Guess,
)
    requires narrow { length names.now ≤ 64 * W }
    requires once { AreDistinct names.now }
    ensures { AreImages names.now (λ part. Contains old.now.parts part × ((p q : ℕ) → p < length names.now → q < length names.now
        → Contains part.ids (slice_index names.now p) → Contains part.ids (slice_index names.now q)
        → set.contains above.now p ≡ true → set.contains below.now q ≡ true → ⊥))
        guess.new.parts.items guess.new.places.items guess.new.flows.items }
{
    guess.clear();
    let slots = Slots::new(names);
    for at in 0..old.part_count() {
        let part = old.part(at);
        let known = is_apart(at == moved, part.ids, names, &slots, above, below);
        put_part(part, known, names, &slots, guess);
    }
}

/// The part that a new pair in a cluster moves: the child's, where it stands before the parent's. Else there is none at the position.
pub(crate) fn moved_part<const W: usize>(old: &Cluster<W>, parent: TxId, child: TxId) -> usize {
    let at = find_part(old, child);
    if at < find_part(old, parent) {
        at
    } else {
        usize::MAX
    }
}

/// Guesses the order of a cluster that has some of the names of another. Of that each part is known that has all its names still.
pub(crate) fn guess_part<const W: usize>(old: &Cluster<W>, names: &[TxId], guess: &mut Guess)
    ensures { AreImages names.now (λ part. Contains old.now.parts part)
        guess.new.parts.items guess.new.places.items guess.new.flows.items }
{
    guess.clear();
    let slots = Slots::new(names);
    for at in 0..old.part_count() {
        put_part(old.part(at), true, names, &slots, guess);
    }
}

/// Guesses the order of two clusters together, where `child` of the one comes to depend on `parent` of the other: the parts of
/// both by rate, the higher first, but the child's part behind the parent's. The names are those of both, each at its place. All
/// parts are known. But the child's is tried name by name where it had to wait.
pub(crate) fn guess_joined<const W: usize>(
    first: &Cluster<W>,
    second: &Cluster<W>,
    parent: TxId,
    child: TxId,
    names: &[TxId],
    guess: &mut Guess,
)
    ensures { AreImages names.now (λ part. Contains first.now.parts part ⊎ Contains second.now.parts part)
        guess.new.parts.items guess.new.places.items guess.new.flows.items }
{
    guess.clear();
    let slots = Slots::new(names);
    let is_first = slots.find(names, parent) < first.names().len();
    let mut one = Side::new(first, parent, child, is_first);
    let mut other = Side::new(second, parent, child, !is_first);
    let waits = is_lower_of(
        rate_of_either(first, one.parent, second, other.parent),
        rate_of_either(first, one.child, second, other.child),
    );
    // each part has a name, so that there are no more parts than names
    for _ in 0..names.len() {
        if one.rate.is_none() && other.rate.is_none() {
            break;
        }
        put_either(
            first, &mut one, second, &mut other, waits, names, &slots, guess,
        );
    }
}

// Puts the part that comes next of two clusters, where there is one.
fn put_either<const W: usize>(
    first: &Cluster<W>,
    one: &mut Side,
    second: &Cluster<W>,
    other: &mut Side,
    waits: bool,
    names: &[TxId],
    slots: &Slots,
    guess: &mut Guess,
)
    ensures { PutsPart names.now (λ part. Contains first.now.parts part ⊎ Contains second.now.parts part)
        guess.old.places.items guess.old.flows.items guess.old.parts.items
        guess.new.places.items guess.new.flows.items guess.new.parts.items }
{
    if one.is_before(other) {
        one.put_next(first, waits, names, slots, guess);
        return;
    }
    other.put_next(second, waits, names, slots, guess);
}

/// How far the parts of one of two clusters are merged with those of the other.
#[derive(Clone, Copy)]
struct Side {
    // the part that comes next, and its rate, if there is one
    next: usize,
    rate: Option<FeeRate>,
    // the parts that have the parent and the child; the number of parts, where none has
    parent: usize,
    child: usize,
}

impl Side {
    // Before the first part of the cluster that has the parent, or else the child.
    fn new<const W: usize>(cluster: &Cluster<W>, parent: TxId, child: TxId, above: bool) -> Self {
        let count = cluster.part_count();
        Side {
            next: 0,
            rate: rate_at(cluster, 0),
            parent: if above {
                find_part(cluster, parent)
            } else {
                count
            },
            child: if above {
                count
            } else {
                find_part(cluster, child)
            },
        }
    }

    // Whether the next part of this side comes before that of the other.
    fn is_before(&self, other: &Self) -> bool {
        match (self.rate, other.rate) {
            (Some(rate), Some(other_rate)) => {
                !self.waits_for(other) && (other.waits_for(self) || !is_lower(rate, other_rate))
            }
            (Some(_), None) => true,
            (None, _) => false,
        }
    }

    // Whether the next part is the child's, while the other side has yet to come to the parent's.
    fn waits_for(&self, other: &Self) -> bool {
        self.next == self.child && other.next <= other.parent
    }

    // Puts the next part, where there is one.
    fn put_next<const W: usize>(
        &mut self,
        cluster: &Cluster<W>,
        waits: bool,
        names: &[TxId],
        slots: &Slots,
        guess: &mut Guess,
    )
        ensures { PutsPart names.now (λ part. Contains cluster.now.parts part)
            guess.old.places.items guess.old.flows.items guess.old.parts.items
            guess.new.places.items guess.new.flows.items guess.new.parts.items }
    {
        if self.next >= cluster.part_count() {
            return;
        }
        let part = cluster.part(self.next);
        let known = !waits || self.next != self.child;
        self.next += 1;
        self.rate = rate_at(cluster, self.next);
        put_part(part, known, names, slots, guess);
    }
}

// The rate of a part, if there is one at the position.
fn rate_at<const W: usize>(cluster: &Cluster<W>, at: usize) -> Option<FeeRate> {
    if at < cluster.part_count() {
        Some(cluster.part_rate(at))
    } else {
        None
    }
}

// The part that has a name, or the number of parts where none has.
fn find_part<const W: usize>(cluster: &Cluster<W>, id: TxId) -> usize {
    let position = position_of(cluster.order(), id);
    let parts = cluster.order.parts.as_slice();
    for at in 0..parts.len() {
        if position < parts[at].end {
            return at;
        }
    }
    parts.len()
}

// Where a name stands among others, or how many these are where it isn't there.
fn position_of(names: &[TxId], id: TxId) -> usize
    ensures { result < length names.now → slice_index names.now result ≡ id }
{
    for at in 0..names.len() {
        if names[at] == id {
            return at;
        }
    }
    names.len()
}

// The rate of a part of the one cluster, or else of one of the other.
fn rate_of_either<const W: usize>(
    first: &Cluster<W>,
    at: usize,
    second: &Cluster<W>,
    other_at: usize,
) -> Option<FeeRate> {
    match rate_at(first, at) {
        Some(rate) => Some(rate),
        None => rate_at(second, other_at),
    }
}

// Whether there are both rates, and the first is the lower one.
fn is_lower_of(a: Option<FeeRate>, b: Option<FeeRate>) -> bool {
    match (a, b) {
        (Some(first), Some(second)) => is_lower(first, second),
        _ => false,
    }
}

// Whether a name is not one of some.
fn is_without(ids: &[TxId], id: TxId) -> bool
    ensures { result ≡ true → Contains ids.now id → ⊥ }
{
    !ids.contains(&id)
}

// Whether a part has no name above or none below, and is not to be tried anyway.
fn is_apart<const W: usize>(
    tried: bool,
    ids: &[TxId],
    names: &[TxId],
    slots: &Slots,
    above: &Bits<W>,
    below: &Bits<W>,
) -> bool
    requires narrow { length names.now ≤ 64 * W }
    requires once { AreDistinct names.now }
    ensures { result ≡ true → (p q : ℕ) → p < length names.now → q < length names.now
        → Contains ids.now (slice_index names.now p) → Contains ids.now (slice_index names.now q)
        → set.contains above.now p ≡ true → set.contains below.now q ≡ true → ⊥ }
{
    if tried {
        return false;
    }
    if !has_some(ids, names, slots, above) {
        return true;
    }
    !has_some(ids, names, slots, below)
}

// Whether a name of a part may be at a place of a set.
fn has_some<const W: usize>(ids: &[TxId], names: &[TxId], slots: &Slots, chosen: &Bits<W>) -> bool
    requires narrow { length names.now ≤ 64 * W }
    requires once { AreDistinct names.now }
    ensures { result ≡ false → (p : ℕ) → p < length names.now → Contains ids.now (slice_index names.now p)
        → set.contains chosen.now p ≡ true → ⊥ }
{
    for at in 0..ids.len() {
        let place = slots.find(names, ids[at]);
        if place >= names.len() || chosen.has(place) {
            return true;
        }
    }
    false
}

// Puts a part behind the others, with its places. Where it is known and all its names are found, it has its flows as well.
fn put_part(part: PartRef<'_>, known: bool, names: &[TxId], slots: &Slots, guess: &mut Guess)
    ensures { PutsPart names.now
        (λ old. (known ≡ true) × (old ≡ record { rate = sum_from part.entry.rate; ids = part.entry.ids.now; flows = part.entry.flows.now }))
        guess.old.places.items guess.old.flows.items guess.old.parts.items
        guess.new.places.items guess.new.flows.items guess.new.parts.items }
{
    let start = guess.places.len();
    let flow_start = guess.flows.len();
    let whole = put_places(part.ids, names, slots, &mut guess.places);
    let sure = put_flows_if(known, whole, part.flows, &mut guess.flows);
    let old = OldPart {
        rate: part.rate,
        start,
        end: guess.places.len(),
        flow_start,
        flow_end: guess.flows.len(),
        known: sure,
    };
    let _pushed = push_part(old, &mut guess.parts);
}

// Puts a part behind others, where there is memory for it.
fn push_part(old: OldPart, parts: &mut Vec<OldPart>) -> bool
    ensures put { result ≡ true → parts.new.items ≡ parts.old.items ++ old ∷ [] }
    ensures none { result ≡ false → parts.new.items ≡ parts.old.items }
{
    match parts.push(old) {
        Ok(()) => true,
        Err(_) => false,
    }
}

// Puts the places of names behind others, and tells whether all names were found.
fn put_places(ids: &[TxId], names: &[TxId], slots: &Slots, places: &mut Vec<usize>) -> bool
    ensures { PutsPlaces names.now ids.now places.old.items places.new.items result }
{
    let mut all = true;
    for at in 0..ids.len() {
        if !put_place(ids[at], names, slots, places) {
            all = false;
        }
    }
    all
}

// Puts the place of a name behind others, where it is found.
fn put_place(id: TxId, names: &[TxId], slots: &Slots, places: &mut Vec<usize>) -> bool
    ensures { PutsPlaces names.now (id ∷ []) places.old.items places.new.items result }
{
    let place = slots.find(names, id);
    if place >= names.len() {
        return false;
    }
    match places.push(place) {
        Ok(()) => true,
        Err(_) => false,
    }
}

// Puts flows behind others where it is asked for, and tells whether all of them were put.
fn put_flows_if(known: bool, whole: bool, flows: &[Flow], out: &mut Vec<Flow>) -> bool
    ensures puts { PutsFlows flows.now out.old.items out.new.items result }
    ensures asked { result ≡ true → (known ≡ true) × (whole ≡ true) }
{
    if !known || !whole {
        return false;
    }
    put_flows(flows, out)
}

// Puts flows behind others, where there is memory for them.
fn put_flows(flows: &[Flow], out: &mut Vec<Flow>) -> bool
    ensures { PutsFlows flows.now out.old.items out.new.items result }
{
    // a part of one name has none
    if flows.is_empty() {
        return true;
    }
    match out.extend_from_slice(flows) {
        Ok(()) => true,
        Err(_) => false,
    }
}

/// Where names may stand, so that few of them are looked for. Each name has a slot, by its last digits. A slot has the place of
/// the last name that came to it and one more, as far as these fit, and 0 if none came.
#[derive(Drop)]
struct Slots {
    places: [u8; SLOTS as usize],
}

impl Slots {
    // The places of these names.
    fn new(names: &[TxId]) -> Self {
        let mut places = [0; SLOTS as usize];
        for place in 0..names.len() {
            places[(names[place] % SLOTS) as usize] = (place % 255) as u8 + 1;
        }
        Slots { places }
    }

    // Where one of the names stands, or how many they are where it isn't there.
    fn find(&self, names: &[TxId], id: TxId) -> usize
        ensures { result < length names.now → slice_index names.now result ≡ id }
    {
        let place = usize::from(self.places[(id % SLOTS) as usize]);
        if place == 0 {
            return names.len();
        }
        if place <= names.len() && names[place - 1] == id {
            return place - 1;
        }
        position_of(names, id)
    }
}
