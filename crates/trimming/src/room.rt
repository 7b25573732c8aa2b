ghost use Rattle.std.specs.Prelude.{◌≡◌, ◌<◌, ◌≤◌, ℕ, length, Contains, IfOk};
ghost use Rattle.links.specs.Walkers.{Finds};
ghost use Rattle.trimming.specs.Rooms.{IsReady, IsFinding};

use outside::NoMemory;
use std::alloc::Global;

/// Room in which the places of one component are gathered.
#[derive(Drop)]
pub(crate) struct Room {
    /// For each place whether it was found. No place has a mark between two turns.
    pub(crate) marks: Vec<bool>,
    /// The places that were found, each once.
    pub(crate) found: Vec<usize>,
}

/// Room for this many places.
pub(crate) fn room_for(alloc: Global, count: usize) -> Result<Room, NoMemory>
    ensures { IfOk result (IsReady count) }
{
    Ok(Room {
        marks: vec![in alloc; false; count]?,
        found: Vec::with_capacity(alloc, count)?,
    })
}

/// Finds a place, where it wasn't found yet. Takes no memory.
pub(crate) fn reach(room: &mut Room, place: usize)
    requires place { place < length room.old.marks.items }
    requires finding { IsFinding (length room.old.marks.items) room.old }
    ensures finding { IsFinding (length room.old.marks.items) room.new }
    ensures finds { Finds (λ other. other ≡ place) room.old.found.items room.new.found.items }
    ensures found { Contains room.new.found.items place }
{
    if room.marks[place] {
        return;
    }
    room.marks[place] = true;
    room.found.push_reserved(place);
}

/// Finds places, each where it wasn't found yet. Takes no memory.
pub(crate) fn reach_all(room: &mut Room, places: &[usize])
    requires places { (place : ℕ) → Contains places.now place → place < length room.old.marks.items }
    requires finding { IsFinding (length room.old.marks.items) room.old }
    ensures finding { IsFinding (length room.old.marks.items) room.new }
    ensures finds { Finds (Contains places.now) room.old.found.items room.new.found.items }
    ensures found { (place : ℕ) → Contains places.now place → Contains room.new.found.items place }
{
    for place in places {
        reach(room, *place);
    }
}

/// Takes the marks from the places that were found, which stay in the list.
pub(crate) fn unmark(room: &mut Room)
    requires { IsFinding (length room.old.marks.items) room.old }
    ensures ready { IsReady (length room.old.marks.items) room.new }
    ensures found { room.new.found.items ≡ room.old.found.items }
{
    for at in 0..room.found.len() {
        let place = room.found[at];
        room.marks[place] = false;
    }
}
