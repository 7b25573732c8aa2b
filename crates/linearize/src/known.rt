//! Parts of an old order that are known to be parts still, written without a solve.

ghost use Rattle.std.specs.Prelude.{◌≡◌, ◌*◌, ◌<◌, ◌≤◌, ◌^◌, [], length, true, Contains, IfSome};
ghost use Rattle.std.specs.FinSet as set;
ghost use Rattle.graphs.specs.Closures.{HoldsMembers};
ghost use Rattle.linearize.specs.Known.{FillsUp, HaveFlows};
ghost use Rattle.linearize.specs.Near.{Extends, Follow, IsBegun};

use crate::draft::Draft;
use crate::old::{Guess, OldPart};
use bitset::Bits;
use dep_graph::DepGraph;

/// The old part at a position, where it is known and lies within the list of places.
pub(crate) fn known_part(parts: &[OldPart], places: &[usize], at: usize) -> Option<OldPart>
    ensures there { IfSome result (λ part. Contains parts.now part) }
    ensures known { IfSome result (λ part. part.known ≡ true) }
    ensures places { IfSome result (λ part. (part.start ≤ part.end) × (part.end ≤ length places.now)) }
{
    if at >= parts.len() {
        return None;
    }
    let part = parts[at];
    if !part.known || part.start > part.end || part.end > places.len() {
        return None;
    }
    Some(part)
}

/// Writes a part that is known behind what is done, but not its flows, where its places may come next. Gives the places of both.
pub(crate) fn put_known<const W: usize>(
    dep: &DepGraph<W>,
    members: &Bits<W>,
    done: &Bits<W>,
    guess: &Guess,
    part: OldPart,
    draft: &mut Draft<W>,
    froms: &mut Vec<Option<OldPart>>,
) -> Option<Bits<W>>
    requires narrow { 64 * W < 2 ^ 32 }
    requires begun { IsBegun (64 * W) dep.now members.now done.now draft.old }
    requires known { HaveFlows dep.now guess.now.parts.items guess.now.places.items }
    requires part { Contains guess.now.parts.items part × (part.known ≡ true) }
    requires places { (part.start ≤ part.end) × (part.end ≤ length guess.now.places.items) }
    requires open { (draft.old.ids ≡ []) × (draft.old.flows ≡ []) }
    ensures extends { IfSome result (Extends (64 * W) dep.now guess.now.parts.items guess.now.places.items members.now done.now
        draft.old draft.new froms.old.items froms.new.items) }
    ensures open { (draft.new.ids ≡ []) × (draft.new.flows ≡ []) }
    ensures more { IfSome result (λ all. set.len done.now ≤ set.len all) }
{
    let all_places = guess.places.as_slice();
    let places = &all_places[part.start..part.end];
    let all = followed(dep, members, done, places)?;
    if froms.push(Some(part)).is_err() {
        return None;
    }
    draft.put_all(places);
    draft.close(part.rate);
    Some(all)
}

/// Tells of so many parts that those behind the first ones are none of the old parts. Fails where there is no memory.
pub(crate) fn fill_up(count: usize, froms: &mut Vec<Option<OldPart>>) -> bool
    requires { length froms.old.items ≤ count }
    ensures { result ≡ true → FillsUp count froms.old.items froms.new.items }
{
    while froms.len() < count {
        if froms.push(None).is_err() {
            return false;
        }
    }
    true
}

// The places of what is done and of a list, where these are members that may follow one after the other, at least one.
fn followed<const W: usize>(
    dep: &DepGraph<W>,
    members: &Bits<W>,
    done: &Bits<W>,
    places: &[usize],
) -> Option<Bits<W>>
    requires narrow { 64 * W < 2 ^ 32 }
    requires members { HoldsMembers dep.now members.now }
    ensures some { IfSome result (λ _. 0 < length places.now) }
    ensures follow { IfSome result (Follow dep.now members.now done.now places.now) }
{
    if places.is_empty() {
        return None;
    }
    let mut all = *done;
    for at in 0..places.len() {
        let place = places[at];
        if place >= 64 * W || !members.has(place) || all.has(place) {
            return None;
        }
        all.insert(place);
        if !dep.ancestors(place).is_subset(&all) {
            return None;
        }
    }
    Some(all)
}
