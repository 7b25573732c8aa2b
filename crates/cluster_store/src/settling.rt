//! What becomes of clusters and of the index of their parts where a staging is closed.
ghost use Rattle.std.specs.Prelude.{◌≡◌, ℕ};
ghost use Rattle.slab.specs.Slab.{get};
ghost use Rattle.cluster_store.specs.Changes.{settled, settled_to};
ghost use Rattle.cluster_store.specs.Kept.{IsShown};
ghost use Rattle.cluster_store.specs.Slots.{Done, MovesFirsts, MovesIn, Writes, other_tag};
ghost use Rattle.cluster_store.specs.Unordered.{ListsUnordered, settled_unordered};
ghost use Rattle.chunk_index.specs.Settling.{alone};

use crate::stored::Stored;
use crate::unordered::{is_unordered, tidy};
use chunk_index::{ChunkIndex, IndexWalk, Tag};
use graphs::Level;
use indexmap::IndexSet;
use slab::Slab;

/// The clusters of the level that stays stand in both levels from now on, and the others go out.
pub fn settle<const W: usize>(
    slots: &mut Slab<Stored<W>>,
    index: &mut ChunkIndex,
    over: &mut IndexSet<usize>,
    stays: Level,
)
    requires shown { IsShown slots.old.slots index.old }
    requires unordered { ListsUnordered over.old slots.old.slots }
    ensures unordered { ListsUnordered over.new slots.new.slots }
    ensures settled { (number : ℕ) → get slots.new number ≡ settled stays (get slots.old number) }
    ensures shown { IsShown slots.new.slots index.new }
{
    let (own, other) = tags_apart(stays);
    move_firsts(slots, index.walk_only(own), Some(Tag::Both));
    move_firsts(slots, index.walk_only(other), None);
    index.settle(stays);
    settle_unordered(slots, over.as_slice(), stays);
    tidy(slots, over);
}

// The tag of what stands in that level alone, and of what stands in the other one alone.
fn tags_apart(level: Level) -> (Tag, Tag)
    ensures own { result.0 ≡ alone level }
    ensures other { result.1 ≡ other_tag level }
{
    match level {
        Level::Main => (Tag::MainOnly, Tag::TopOnly),
        Level::Top => (Tag::TopOnly, Tag::MainOnly),
    }
}

// Each cluster whose first part is in a walk goes out, or gets other levels.
fn move_firsts<const W: usize>(slots: &mut Slab<Stored<W>>, entries: IndexWalk<'_>, to: Option<Tag>)
    ensures { MovesFirsts to entries.entry slots.old.slots slots.new.slots }
{
    for entry in entries {
        // Each cluster has one part there, so it is come to once.
        if entry.position == 0 {
            move_slot(slots, entry.number, to);
        }
    }
}

// The cluster of a number, if it has one, goes out, or gets other levels. The index of its parts stays as it is.
fn move_slot<const W: usize>(slots: &mut Slab<Stored<W>>, number: usize, to: Option<Tag>)
    ensures { MovesIn slots.old.slots slots.new.slots number to }
{
    match to {
        Some(tag) => {
            if let Some(stored) = slots.get_mut(number) {
                stored.set_tag(tag);
            }
        }
        None => drop(slots.try_remove(number)),
    }
}

// The clusters without an order of some numbers go out, or stand in both levels.
fn settle_unordered<const W: usize>(slots: &mut Slab<Stored<W>>, numbers: &[usize], stays: Level)
    ensures { Done (λ n. n) (λ n. settled_unordered stays) numbers.now slots.old.slots slots.new.slots }
{
    for at in 0..numbers.len() {
        settle_one(slots, numbers[at], stays);
    }
}

// The cluster of a number, if it has one without an order, goes out, or stands in both levels.
fn settle_one<const W: usize>(slots: &mut Slab<Stored<W>>, number: usize, stays: Level)
    ensures { Writes slots.old.slots slots.new.slots number (settled_unordered stays (get slots.old number)) }
{
    if !is_unordered(slots, number) {
        return;
    }
    if let Some(stored) = slots.get(number) {
        let to = tag_left(stays, stored.tag());
        move_slot(slots, number, to);
    }
}

// The levels of what had a tag, where a staging is closed and a level stays.
fn tag_left(stays: Level, tag: Tag) -> Option<Tag>
    ensures { result ≡ settled_to stays tag }
{
    match (stays, tag) {
        (_, Tag::Both) | (Level::Main, Tag::MainOnly) | (Level::Top, Tag::TopOnly) => Some(
            Tag::Both,
        ),
        (Level::Main, Tag::TopOnly) | (Level::Top, Tag::MainOnly) => None,
    }
}
