//! Groups of members that may be the parts of an optimal order, made of an order that may be near to one.
//!
//! Nothing is promised of them but where they are kept: whether they are the parts is tested behind this.

ghost use Rattle.std.specs.Prelude.{◌≡◌, ℕ, ◌*◌, ◌^◌, ◌<◌, ◌≤◌, true, length, vec_capacity, vec_len};
ghost use Rattle.std.specs.FinSet as set;
ghost use Rattle.graphs.specs.Closures.{HoldsMembers, IsClosed, is_member};

use crate::old::{Guess, OldPart};
use crate::part::top;
use bitset::Bits;
use dep_graph::DepGraph;
use fee_rate::{FeeRate, is_lower};

/// Some members, what stands above any of them, and their fee and size together, as far as 64 bits hold these. Where they are one
/// part of the old order, its position in that.
#[derive(Clone, Copy)]
pub(crate) struct Group<const W: usize> {
    pub(crate) places: Bits<W>,
    above: Bits<W>,
    rate: FeeRate,
    pub(crate) part: usize,
}

// no part of the old order
const NO_PART: usize = usize::MAX;

/// Puts all members into groups, by an old order that may be any: each part that is known as one, and the places of the others one
/// by one. What isn't there comes last, as one set.
pub(crate) fn arrange<const W: usize>(
    dep: &DepGraph<W>,
    members: &Bits<W>,
    guess: &Guess,
    groups: &mut Vec<Group<W>>,
)
    requires narrow { 64 * W < 2 ^ 32 }
    requires closed { IsClosed (64 * W) dep.now }
    requires members { HoldsMembers dep.now members.now }
    requires room { 64 * W ≤ vec_capacity groups.old }
    ensures room { 64 * W ≤ vec_capacity groups.new }
{
    groups.clear();
    let mut left = *members;
    for at in 0..guess.parts.len() {
        let part = guess.parts[at];
        let places = places_of(part, guess.places.as_slice());
        if !come_whole(dep, part, places, at, &mut left, groups) {
            come_left(dep, part.known, places, &mut left, groups);
        }
    }
    let rest = left;
    come(dep, &rest, &mut left, groups);
}

// The places of an old part, none where it ends before it begins or past the end.
fn places_of(part: OldPart, places: &[usize]) -> &[usize] {
    if part.start <= part.end && part.end <= places.len() {
        &places[part.start..part.end]
    } else {
        &places[..0]
    }
}

// Takes an old part that is known out of what is left, and puts it into the groups behind what is left of its ancestors. It does
// nothing where not all of the part is left.
fn come_whole<const W: usize>(
    dep: &DepGraph<W>,
    part: OldPart,
    places: &[usize],
    at: usize,
    left: &mut Bits<W>,
    groups: &mut Vec<Group<W>>,
) -> bool
    requires narrow { 64 * W < 2 ^ 32 }
    requires closed { IsClosed (64 * W) dep.now }
    requires members { HoldsMembers dep.now left.old }
    requires room { 64 * W ≤ vec_capacity groups.old }
    ensures members { HoldsMembers dep.now left.new }
    ensures room { 64 * W ≤ vec_capacity groups.new }
{
    let mut group = Group {
        places: Bits::empty(),
        above: Bits::empty(),
        rate: part.rate,
        part: at,
    };
    if !part.known || !gather(dep, places, left, &mut group) {
        return false;
    }
    *left = left.minus(&group.places);
    come_behind(dep, &group, left, groups);
    true
}

// Adds places to a group, where all of them are left, and tells whether they are.
fn gather<const W: usize>(
    dep: &DepGraph<W>,
    places: &[usize],
    left: &Bits<W>,
    group: &mut Group<W>,
) -> bool
    requires narrow { 64 * W < 2 ^ 32 }
    requires members { HoldsMembers dep.now left.now }
{
    for at in 0..places.len() {
        let place = places[at];
        if place >= 64 * W || !left.has(place) {
            return false;
        }
        group.places.insert(place);
        group.above = group.above.union(&dep.ancestors(place));
    }
    true
}

// Takes places out of what is left, together or one by one.
fn come_left<const W: usize>(
    dep: &DepGraph<W>,
    together: bool,
    places: &[usize],
    left: &mut Bits<W>,
    groups: &mut Vec<Group<W>>,
)
    requires narrow { 64 * W < 2 ^ 32 }
    requires closed { IsClosed (64 * W) dep.now }
    requires members { HoldsMembers dep.now left.old }
    requires room { 64 * W ≤ vec_capacity groups.old }
    ensures members { HoldsMembers dep.now left.new }
    ensures room { 64 * W ≤ vec_capacity groups.new }
{
    if together {
        come(dep, &set_of(places), left, groups);
        return;
    }
    come_apart(dep, places, left, groups);
}

// The places as a set, but for what is no place.
fn set_of<const W: usize>(places: &[usize]) -> Bits<W>
    requires narrow { 64 * W < 2 ^ 32 }
{
    let mut set = Bits::empty();
    for at in 0..places.len() {
        let place = places[at];
        if place < 64 * W {
            set.insert(place);
        }
    }
    set
}

// Takes places out of what is left, one by one.
fn come_apart<const W: usize>(
    dep: &DepGraph<W>,
    places: &[usize],
    left: &mut Bits<W>,
    groups: &mut Vec<Group<W>>,
)
    requires narrow { 64 * W < 2 ^ 32 }
    requires closed { IsClosed (64 * W) dep.now }
    requires members { HoldsMembers dep.now left.old }
    requires room { 64 * W ≤ vec_capacity groups.old }
    ensures members { HoldsMembers dep.now left.new }
    ensures room { 64 * W ≤ vec_capacity groups.new }
{
    for at in 0..places.len() {
        come(dep, &set_of(&places[at..at + 1]), left, groups);
    }
}

// Takes a set out of what is left, and puts what was there of it into the groups as one, behind what is left of its ancestors.
fn come<const W: usize>(
    dep: &DepGraph<W>,
    set: &Bits<W>,
    left: &mut Bits<W>,
    groups: &mut Vec<Group<W>>,
)
    requires narrow { 64 * W < 2 ^ 32 }
    requires closed { IsClosed (64 * W) dep.now }
    requires members { HoldsMembers dep.now left.old }
    requires room { 64 * W ≤ vec_capacity groups.old }
    ensures members { HoldsMembers dep.now left.new }
    ensures room { 64 * W ≤ vec_capacity groups.new }
{
    let places = set.meet(left);
    if places.least().is_none() {
        return;
    }
    let group = group_of(dep, &places);
    *left = left.minus(&places);
    come_behind(dep, &group, left, groups);
}

// Takes what is left of a group's ancestors out of that, and puts these into the groups, and then the group.
fn come_behind<const W: usize>(
    dep: &DepGraph<W>,
    group: &Group<W>,
    left: &mut Bits<W>,
    groups: &mut Vec<Group<W>>,
)
    requires narrow { 64 * W < 2 ^ 32 }
    requires closed { IsClosed (64 * W) dep.now }
    requires members { HoldsMembers dep.now left.old }
    requires room { 64 * W ≤ vec_capacity groups.old }
    ensures members { HoldsMembers dep.now left.new }
    ensures room { 64 * W ≤ vec_capacity groups.new }
{
    let mut above = group.above.meet(left);
    while let Some(first) = above.least() {
        let next = top(dep, &above, first);
        above.remove(next);
        left.remove(next);
        settle(&alone(dep, next), groups);
    }
    settle(group, groups);
}

// The group of some members.
fn group_of<const W: usize>(dep: &DepGraph<W>, places: &Bits<W>) -> Group<W>
    requires narrow { 64 * W < 2 ^ 32 }
    requires closed { IsClosed (64 * W) dep.now }
    requires members { HoldsMembers dep.now places.now }
{
    let mut above = Bits::empty();
    let mut fee: i64 = 0;
    let mut size: u64 = 0;
    let mut left = *places;
    while let Some(place) = left.least() {
        left.remove(place);
        let rate = dep.rate(place);
        above = above.union(&dep.ancestors(place));
        fee = fee.saturating_add(rate.fee);
        size = size.saturating_add(rate.size);
    }
    Group {
        places: *places,
        above,
        rate: FeeRate { fee, size },
        part: NO_PART,
    }
}

// The group of one member.
fn alone<const W: usize>(dep: &DepGraph<W>, place: usize) -> Group<W>
    requires narrow { 64 * W < 2 ^ 32 }
    requires place { place < 64 * W }
    requires member { is_member dep.now place ≡ true }
{
    let mut places = Bits::empty();
    places.insert(place);
    Group {
        places,
        above: dep.ancestors(place),
        rate: dep.rate(place),
        part: NO_PART,
    }
}

// Puts a group behind those of no lower rate. Mostly these are all.
fn settle<const W: usize>(group: &Group<W>, groups: &mut Vec<Group<W>>)
    requires room { 64 * W ≤ vec_capacity groups.old }
    ensures room { 64 * W ≤ vec_capacity groups.new }
{
    if groups.len() > 0 && is_lower(groups[groups.len() - 1].rate, group.rate) {
        settle_among(*group, groups);
        return;
    }
    if groups.len() < 64 * W {
        let pushed = groups.push(*group);
        prove!(pushed.is_ok());
    }
}

// Puts a group behind those of no lower rate. Of the lower ones those that it depends on are taken into it on the way.
fn settle_among<const W: usize>(mut group: Group<W>, groups: &mut Vec<Group<W>>)
    requires room { 64 * W ≤ vec_capacity groups.old }
    ensures room { 64 * W ≤ vec_capacity groups.new }
{
    let mut at = groups.len();
    while at > 0 && is_lower(groups[at - 1].rate, group.rate) {
        at -= 1;
        if groups[at].places.meet(&group.above).least().is_some() {
            group = together(&groups.remove(at), &group);
        }
    }
    if groups.len() < 64 * W {
        let inserted = groups.insert(at, group);
        prove!(inserted.is_ok());
    }
}

// Two groups as one.
fn together<const W: usize>(a: &Group<W>, b: &Group<W>) -> Group<W> {
    Group {
        places: a.places.union(&b.places),
        above: a.above.union(&b.above),
        rate: FeeRate {
            fee: a.rate.fee.saturating_add(b.rate.fee),
            size: a.rate.size.saturating_add(b.rate.size),
        },
        part: NO_PART,
    }
}
