ghost use Rattle.std.specs.Prelude.{◌≡◌, ◌<◌, length, map};
ghost use Rattle.cluster_store.specs.Held.{MayWalk, held_at_entry, held_part};
ghost use Rattle.cluster_store.specs.Stores.{Stored as Kept};
ghost use Rattle.cluster_store.specs.Walks.{parts_at};

use crate::stored::Stored;
use chunk_index::{Entry, IndexWalk};
use cluster::PartRef;
use component::Component;
use slab::Slab;
use std::marker::Model;

/// A walk over parts of the clusters of a store, in their order. Contracts see the parts that are still to come, each with its
/// cluster.
#[derive(Drop)]
pub struct HeldWalk<'a, const W: usize> {
    slots: &'a Slab<Stored<W>>,
    entries: IndexWalk<'a>,
}

impl<'a, const W: usize> Model for HeldWalk<'a, W> {
    ghost use Rattle.std.specs.Prelude.{List, map};
    ghost use Rattle.std.specs.Coded.{coded_list};
    ghost use Rattle.cluster_store.specs.Held.{Held, MayWalk, held_code, held_at_entry};

    ghost Value = { List Held };

    ghost coded = { coded_list held_code };

    ghost view = { λ a. map (held_at_entry a.slots.now.slots) a.entries };

    ghost invariant = { λ a. MayWalk W a.slots.now.slots a.entries };
}

impl<'a, const W: usize> HeldWalk<'a, W> {
    /// Over the parts that some entries stand for.
    pub(crate) fn new(slots: &'a Slab<Stored<W>>, entries: IndexWalk<'a>) -> Self
        requires { MayWalk W slots.now.slots entries }
        ensures { result ≡ map (held_at_entry slots.now.slots) entries.entry }
    {
        HeldWalk { slots, entries }
    }
}

/// The part that an entry stands for, with its cluster.
fn held<'a, const W: usize>(
    slots: &'a Slab<Stored<W>>,
    entry: Entry,
) -> (PartRef<'a>, &'a Component<W>)
    requires { entry.position < length (parts_at (λ (s : Kept). s.cluster.parts) slots.now.slots entry) }
    ensures { held_part result ≡ held_at_entry slots.now.slots entry }
{
    let number = entry.serial as usize;
    match slots.get(number) {
        Some(stored) => match stored.cluster().component() {
            Some(cluster) => (cluster.part(entry.position), cluster),
            None => unreachable!(),
        },
        None => unreachable!(),
    }
}

impl<'a, const W: usize> Iterator for HeldWalk<'a, W> {
    type Item = (PartRef<'a>, &'a Component<W>);

    ghost use Rattle.std.specs.Iterator.{YieldsFirstBy, item_count};

    ghost next_gives = { YieldsFirstBy held_part (λ rest. rest) };

    ghost remaining = { item_count (λ rest. rest) };

    fn next(&mut self) -> Option<(PartRef<'a>, &'a Component<W>)> {
        let entry = self.entries.next()?;
        Some(held(self.slots, entry))
    }

    // The least that can be said: nothing counts what is to come.
    fn size_hint(&self) -> (usize, Option<usize>) {
        (0, None)
    }
}
