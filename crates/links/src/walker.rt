ghost use Rattle.std.specs.Prelude.{◌≡◌, ◌<◌, ◌≤◌, ℕ, length, nat_eq, Contains, Some, IfOk};
ghost use Rattle.std.specs.HashMap as hash;
ghost use Rattle.links.specs.Kept.{ways_to};
ghost use Rattle.links.specs.Places.{IsPlaceOf};
ghost use Rattle.places.specs.Places as look_up;
ghost use Rattle.links.specs.Ways.{AreWays};
ghost use Rattle.links.specs.Walkers.{IsReady, IsWalking, Finds, FindsAll, FindsFrom};

use crate::maps::Maps;
use crate::ways::Ways;
use graphs::{Kin, TxId};
use outside::NoMemory;
use places::place_of;
use std::alloc::Global;

/// Room for walks: a mark for each place, and the places that a walk has found.
#[derive(Drop)]
pub(crate) struct Walker {
    /// For each place whether the walk that is under way has found it. No walk is under way between two calls.
    pub(crate) marks: Vec<bool>,
    /// The places that the last walk found, in the order in which it came to them.
    pub(crate) found: Vec<usize>,
}

impl Walker {
    /// Room for walks over this many places.
    pub(crate) fn new(alloc: Global, count: usize) -> Result<Walker, NoMemory>
        ensures { IfOk result (IsReady count) }
    {
        Ok(Walker {
            marks: vec![in alloc; false; count]?,
            found: Vec::with_capacity(alloc, count)?,
        })
    }
}

/// Finds a place, and all places that steps lead to from it, each once. Takes no memory.
pub(crate) fn walk(walker: &mut Walker, ways: &Ways, from: usize)
    requires from { from < length walker.old.marks.items }
    requires ways { AreWays (length walker.old.marks.items) ways.now }
    requires ready { IsReady (length walker.old.marks.items) walker.old }
    ensures ready { IsReady (length walker.old.marks.items) walker.new }
    ensures found { FindsAll ways.now.steps.items from walker.new.found.items }
{
    walker.found.clear();
    reach(walker, from);
    spread(walker, ways);
    unmark(walker);
}

/// Finds the places of names and of their ancestors, or of their descendants, each once. A name may be listed twice. Takes no memory.
pub(crate) fn walk_all(walker: &mut Walker, maps: &Maps, ids: &[TxId], kin: Kin)
    requires ids { (id : ℕ) → Contains ids.now id → look_up.Finds (hash.get nat_eq maps.now.places) id }
    requires places { (id place : ℕ) → hash.get nat_eq maps.now.places id ≡ Some place → place < length walker.old.marks.items }
    requires ways { AreWays (length walker.old.marks.items) (ways_to kin maps.now) }
    requires ready { IsReady (length walker.old.marks.items) walker.old }
    ensures ready { IsReady (length walker.old.marks.items) walker.new }
    ensures within { (place : ℕ) → Contains walker.new.found.items place → place < length walker.old.marks.items }
    ensures found { FindsFrom (ways_to kin maps.now).steps.items (IsPlaceOf (hash.get nat_eq maps.now.places) ids.now) walker.new.found.items }
{
    walker.found.clear();
    for id in ids {
        reach(walker, place_of(&maps.places, *id));
    }
    spread(walker, maps.ways_to(kin));
    unmark(walker);
}

/// Finds all places that steps lead to from those that were found, each once. Takes no memory.
fn spread(walker: &mut Walker, ways: &Ways)
    requires ways { AreWays (length walker.old.marks.items) ways.now }
    requires walking { IsWalking (length walker.old.marks.items) walker.old }
    ensures walking { IsWalking (length walker.old.marks.items) walker.new }
    ensures found { FindsFrom ways.now.steps.items (Contains walker.old.found.items) walker.new.found.items }
{
    let mut done = 0;
    while done < walker.found.len() {
        let place = walker.found[done];
        look_around(walker, ways, place);
        done += 1;
    }
}

/// Finds the places that steps from a place lead to. Takes no memory.
fn look_around(walker: &mut Walker, ways: &Ways, from: usize)
    requires from { from < length walker.old.marks.items }
    requires ways { AreWays (length walker.old.marks.items) ways.now }
    requires walking { IsWalking (length walker.old.marks.items) walker.old }
    ensures walking { IsWalking (length walker.old.marks.items) walker.new }
    ensures finds { Finds (λ to. Contains ways.now.steps.items (to, from)) walker.old.found.items
        walker.new.found.items }
    ensures all { (to : ℕ) → Contains ways.now.steps.items (to, from) → Contains walker.new.found.items to }
{
    let mut left = ways.chains.last[from];
    while left > 0 {
        reach(walker, ways.steps[left - 1].0);
        left = ways.chains.before[left - 1];
    }
}

/// Finds a place, where it wasn't found yet. Takes no memory.
fn reach(walker: &mut Walker, place: usize)
    requires place { place < length walker.old.marks.items }
    requires walking { IsWalking (length walker.old.marks.items) walker.old }
    ensures walking { IsWalking (length walker.old.marks.items) walker.new }
    ensures finds { Finds (λ other. other ≡ place) walker.old.found.items walker.new.found.items }
    ensures found { Contains walker.new.found.items place }
{
    if walker.marks[place] {
        return;
    }
    walker.marks[place] = true;
    walker.found.push_reserved(place);
}

/// Takes the marks from the places that were found.
fn unmark(walker: &mut Walker)
    requires { IsWalking (length walker.old.marks.items) walker.old }
    ensures ready { IsReady (length walker.old.marks.items) walker.new }
    ensures found { walker.new.found.items ≡ walker.old.found.items }
{
    for at in 0..walker.found.len() {
        let place = walker.found[at];
        walker.marks[place] = false;
    }
}
