ghost use Rattle.std.specs.Prelude.{◌≡◌, ◌<◌, [], ◌∷◌, ◌++◌, Some, MatchOption, length, map, slice_get};
ghost use Rattle.cluster_store.specs.Lent.{lent};
ghost use Rattle.cluster_store.specs.Walks.{HasParts, parts_at, shown_of, shown_part};

use chunk_index::{Entry, IndexWalk};
use cluster::PartRef;
use slab::Slab;
use std::marker::Model;

/// What has parts that can be lent.
pub trait Parts {
    ghost use Rattle.std.specs.Prelude.{List};
    ghost use Rattle.graphs.specs.Certificates.{Part};

    /// Its parts, in their order.
    ghost parts: { Self → List Part };

    /// The part at a position.
    fn part(&self, at: usize) -> PartRef<'_>
        requires { at < length (parts self.now) }
        ensures { slice_get (parts self.now) at ≡ Some (lent result) };
}

/// A part of a level, lent, and the number of its cluster.
#[derive(Clone, Copy)]
pub struct ShownPart<'a> {
    /// The number of the cluster.
    pub number: usize,
    /// The part.
    pub part: PartRef<'a>,
}

/// A walk over parts of the clusters of a store, in their order, from either end. Contracts see the parts that are still
/// to come, each with the number of its cluster.
#[derive(Drop)]
pub struct PartWalk<'a, T: Parts> {
    slots: &'a Slab<T>,
    entries: IndexWalk<'a>,
}

impl<'a, T: Parts> Model for PartWalk<'a, T> {
    ghost use Rattle.std.specs.Prelude.{List, map};
    ghost use Rattle.std.specs.Coded.{coded_list};
    ghost use Rattle.cluster_store.specs.Stores.{Shown, shown_code};
    ghost use Rattle.cluster_store.specs.Walks.{shown_of, HasParts};

    ghost Value = { List Shown };

    ghost coded = { coded_list shown_code };

    ghost view = { λ a. map (shown_of T.parts a.slots.now.slots) a.entries };

    ghost invariant = { λ a. HasParts T.parts a.slots.now.slots a.entries };
}

impl<'a, T: Parts> PartWalk<'a, T> {
    /// Over the parts that some entries stand for.
    pub(crate) fn new(slots: &'a Slab<T>, entries: IndexWalk<'a>) -> Self
        requires { HasParts T.parts slots.now.slots entries }
        ensures { result ≡ map (shown_of T.parts slots.now.slots) entries.entry }
    {
        PartWalk { slots, entries }
    }
}

/// The part that an entry stands for, with the number of its cluster.
fn shown<'a, T: Parts>(slots: &'a Slab<T>, entry: Entry) -> ShownPart<'a>
    requires { entry.position < length (parts_at T.parts slots.now.slots entry) }
    ensures { shown_part result ≡ shown_of T.parts slots.now.slots entry }
{
    let number = entry.serial as usize;
    match slots.get(number) {
        Some(kept) => ShownPart {
            number,
            part: kept.part(entry.position),
        },
        None => unreachable!(),
    }
}

impl<'a, T: Parts> Iterator for PartWalk<'a, T> {
    type Item = ShownPart<'a>;

    ghost use Rattle.std.specs.Iterator.{YieldsFirstBy, item_count};

    ghost next_gives = { YieldsFirstBy shown_part (λ rest. rest) };

    ghost remaining = { item_count (λ rest. rest) };

    fn next(&mut self) -> Option<ShownPart<'a>> {
        let entry = self.entries.next()?;
        Some(shown(self.slots, entry))
    }
}

impl<'a, T: Parts> DoubleEndedIterator for PartWalk<'a, T> {
    ghost use Rattle.std.specs.Iterator.{YieldsLastBy};

    ghost next_back_gives = { YieldsLastBy shown_part (λ rest. rest) };

    fn next_back(&mut self) -> Option<ShownPart<'a>> {
        let entry = self.entries.next_back()?;
        Some(shown(self.slots, entry))
    }
}
