ghost use Rattle.std.specs.Prelude.{◌≡◌, ◌<◌, ◌≤◌, ℕ, length, sum_by, Contains, MatchBool, IfOk, OnOk};
ghost use Rattle.links.specs.Walkers.{Finds};
ghost use Rattle.graph_model.specs.declared.limits.TheConstants.{MAX_COUNT};
ghost use Rattle.graph_model.specs.Limits.{AreOver, bounds_of};
ghost use Rattle.trimming.specs.Nets.{IsNet, IsParent, size_at};
ghost use Rattle.trimming.specs.Ties.{AreTied};
ghost use Rattle.trimming.specs.Rooms.{IsReady, IsFinding};
ghost use Rattle.trimming.specs.Teams.{AreSized, AreTeams, AreGathered, AreWhole, HasJoined, IsKept};

use crate::buckets::empty_lists;
use crate::net::Net;
use crate::room::{Room, reach, reach_all, unmark};
use graph_model::Limits;
use outside::NoMemory;
use std::alloc::Global;

/// The places that are kept, in teams: one for each component among them.
#[derive(Drop)]
pub(crate) struct Teams {
    /// For each place whether it is kept.
    pub(crate) kept: Vec<bool>,
    /// For each place that is kept one of its team, the same one for the whole team.
    pub(crate) leader: Vec<usize>,
    /// For each leader the places of its team.
    pub(crate) lists: Vec<Vec<usize>>,
}

/// No place is kept yet, of this many.
pub(crate) fn no_teams(alloc: Global, count: usize) -> Result<Teams, NoMemory>
    ensures sized { IfOk result (AreSized count) }
    ensures none { IfOk result (λ teams. (place : ℕ) → IsKept teams place → ⊥) }
{
    Ok(Teams {
        kept: vec![in alloc; false; count]?,
        leader: vec![in alloc; 0; count]?,
        lists: empty_lists(alloc, count)?,
    })
}

/// Finds a place and the teams of its parents, all of which are kept. It stops where more than `most` places were found. Takes no memory.
pub(crate) fn gather(net: &Net, teams: &Teams, room: &mut Room, place: usize, most: usize)
    requires net { IsNet net.now }
    requires teams { AreTeams net.now teams.now }
    requires room { IsReady (length net.now.txs.items) room.old }
    requires place { (place < length net.now.txs.items) × (IsKept teams.now place → ⊥) }
    requires parents { (a : ℕ) → IsParent net.now a place → IsKept teams.now a }
    ensures room { IsReady (length net.now.txs.items) room.new }
    ensures found { AreGathered net.now teams.now place most room.new.found.items }
{
    room.found.clear();
    reach(room, place);
    for parent in net.parents[place].as_slice() {
        reach_team(net, teams, room, *parent, most);
    }
    unmark(room);
}

/// Finds the team of a place, where the place wasn't found yet, and no more than `most` were. Takes no memory.
fn reach_team(net: &Net, teams: &Teams, room: &mut Room, place: usize, most: usize)
    requires net { IsNet net.now }
    requires teams { AreTeams net.now teams.now }
    requires place { IsKept teams.now place }
    requires finding { IsFinding (length net.now.txs.items) room.old }
    requires whole { AreWhole net.now teams.now room.old.found.items }
    ensures finding { IsFinding (length net.now.txs.items) room.new }
    ensures whole { AreWhole net.now teams.now room.new.found.items }
    ensures finds { Finds (AreTied (IsParent net.now) (IsKept teams.now) place) room.old.found.items room.new.found.items }
    ensures found { length room.new.found.items ≤ most → Contains room.new.found.items place }
{
    if room.found.len() > most {
        return;
    }
    if room.marks[place] {
        return;
    }
    let leader = teams.leader[place];
    reach_all(room, teams.lists[leader].as_slice());
}

/// Whether places are within the limits, by their number and by their size in virtual bytes.
pub(crate) fn are_within(net: &Net, limits: &Limits, places: &[usize]) -> bool
    requires net { IsNet net.now }
    requires places { (place : ℕ) → Contains places.now place → place < length net.now.txs.items }
    requires count { limits.now.count ≤ MAX_COUNT }
    ensures { MatchBool result (AreOver (bounds_of limits.now) (size_at net.now.txs.items) places.now → ⊥)
        (AreOver (bounds_of limits.now) (size_at net.now.txs.items) places.now) }
{
    places.len() as u64 <= limits.count && size_of(net, places) <= limits.size
}

/// The total size of places, in virtual bytes.
fn size_of(net: &Net, places: &[usize]) -> u64
    requires net { IsNet net.now }
    requires places { (place : ℕ) → Contains places.now place → place < length net.now.txs.items }
    requires count { length places.now ≤ MAX_COUNT }
    ensures { result ≡ sum_by (size_at net.now.txs.items) places.now }
{
    let mut size = 0;
    for place in places {
        size += net.txs[*place].2;
    }
    size
}

/// Keeps a place: with these places, of which it is one, it forms a team. The lists of the teams that they were in are given back.
pub(crate) fn join(
    alloc: Global,
    teams: &mut Teams,
    place: usize,
    places: &[usize],
) -> Result<(), NoMemory>
    requires teams { AreSized (length teams.old.kept.items) teams.old }
    requires place { Contains places.now place }
    requires places { (x : ℕ) → Contains places.now x → x < length teams.old.kept.items }
    ensures { OnOk result (HasJoined place places.now teams.old teams.new) }
{
    let team = Vec::from_slice(alloc, places)?;
    for member in places {
        teams.leader[*member] = place;
        teams.lists[*member] = Vec::new(alloc);
    }
    teams.lists[place] = team;
    teams.kept[place] = true;
    Ok(())
}
