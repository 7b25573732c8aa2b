ghost use Rattle.std.specs.Prelude.{◌≡◌, ◌<◌, ◌≤◌, ◌+◌, ℕ, [], ◌∷◌, length, Contains, IfOk, OnOk};
ghost use Rattle.graph_model.specs.declared.limits.TheConstants.{MAX_COUNT};
ghost use Rattle.graph_model.specs.Limits.{AreOver, bounds_of};
ghost use Rattle.trimming.specs.Nets.{IsNet, size_at};
ghost use Rattle.trimming.specs.Teams.{AreGathered};
ghost use Rattle.trimming.specs.Turns.{IsTrim};

use crate::counts::{Counts, first_counts, release};
use crate::net::Net;
use crate::room::{Room, room_for};
use crate::teams::{Teams, are_within, gather, join, no_teams};
use graph_model::Limits;
use outside::NoMemory;
use std::alloc::Global;

/// A trimming that is under way.
#[derive(Drop)]
pub(crate) struct Trim {
    pub(crate) teams: Teams,
    pub(crate) counts: Counts,
    pub(crate) room: Room,
    /// The places that were looked at, in that order, each with the mark whether it is kept.
    pub(crate) marked: Vec<(usize, bool)>,
}

/// Looks at one candidate after the other, until there is none.
pub(crate) fn all_turns(alloc: Global, limits: &Limits, net: &Net) -> Result<Trim, NoMemory>
    requires net { IsNet net.now }
    requires limits { limits.now.count ≤ MAX_COUNT }
    ensures { IfOk result (IsTrim (bounds_of limits.now) net.now []) }
{
    let mut trim = no_turns(alloc, limits, net)?;
    while let Some(place) = trim.counts.ready.pop_first() {
        turn(alloc, limits, net, &mut trim, place)?;
    }
    Ok(trim)
}

/// No candidate was looked at yet.
fn no_turns(alloc: Global, limits: &Limits, net: &Net) -> Result<Trim, NoMemory>
    requires net { IsNet net.now }
    ensures { IfOk result (λ trim. IsTrim (bounds_of limits.now) net.now trim.counts.ready.keys trim) }
{
    Ok(Trim {
        teams: no_teams(alloc, net.txs.len())?,
        counts: first_counts(alloc, net)?,
        room: room_for(alloc, net.txs.len())?,
        marked: Vec::new(alloc),
    })
}

/// Looks at a candidate, which was taken from the others.
fn turn(
    alloc: Global,
    limits: &Limits,
    net: &Net,
    trim: &mut Trim,
    place: usize,
) -> Result<(), NoMemory>
    requires net { IsNet net.now }
    requires limits { limits.now.count ≤ MAX_COUNT }
    requires trim { IsTrim (bounds_of limits.now) net.now (place ∷ trim.old.counts.ready.keys) trim.old }
    requires first { (x : ℕ) → Contains trim.old.counts.ready.keys x → place < x }
    ensures trim { OnOk result (IsTrim (bounds_of limits.now) net.now trim.new.counts.ready.keys trim.new) }
    ensures longer { OnOk result (length trim.new.marked.items ≡ length trim.old.marked.items + 1) }
{
    gather(
        net,
        &trim.teams,
        &mut trim.room,
        place,
        limits.count as usize,
    );
    if are_within(net, limits, trim.room.found.as_slice()) {
        keep(alloc, limits, net, trim, place)
    } else {
        leave(limits, net, trim, place)
    }
}

/// Keeps a candidate whose component is within the limits. Its children may become candidates. The limits are for the contract alone.
fn keep(
    alloc: Global,
    _limits: &Limits,
    net: &Net,
    trim: &mut Trim,
    place: usize,
) -> Result<(), NoMemory>
    requires net { IsNet net.now }
    requires trim { IsTrim (bounds_of _limits.now) net.now (place ∷ trim.old.counts.ready.keys) trim.old }
    requires first { (x : ℕ) → Contains trim.old.counts.ready.keys x → place < x }
    requires found { AreGathered net.now trim.old.teams place _limits.now.count trim.old.room.found.items }
    requires within { AreOver (bounds_of _limits.now) (size_at net.now.txs.items) trim.old.room.found.items → ⊥ }
    ensures trim { OnOk result (IsTrim (bounds_of _limits.now) net.now trim.new.counts.ready.keys trim.new) }
    ensures longer { OnOk result (length trim.new.marked.items ≡ length trim.old.marked.items + 1) }
{
    join(alloc, &mut trim.teams, place, trim.room.found.as_slice())?;
    release(net, trim.teams.kept.as_slice(), &mut trim.counts, place)?;
    trim.marked.push((place, true))?;
    Ok(())
}

/// Drops a candidate whose component is over the limits. No other place becomes a candidate. The limits and the net are for the
/// contract alone.
fn leave(_limits: &Limits, _net: &Net, trim: &mut Trim, place: usize) -> Result<(), NoMemory>
    requires net { IsNet _net.now }
    requires trim { IsTrim (bounds_of _limits.now) _net.now (place ∷ trim.old.counts.ready.keys) trim.old }
    requires first { (x : ℕ) → Contains trim.old.counts.ready.keys x → place < x }
    requires found { AreGathered _net.now trim.old.teams place _limits.now.count trim.old.room.found.items }
    requires over { AreOver (bounds_of _limits.now) (size_at _net.now.txs.items) trim.old.room.found.items }
    ensures trim { OnOk result (IsTrim (bounds_of _limits.now) _net.now trim.new.counts.ready.keys trim.new) }
    ensures longer { OnOk result (length trim.new.marked.items ≡ length trim.old.marked.items + 1) }
{
    trim.marked.push((place, false))?;
    Ok(())
}
