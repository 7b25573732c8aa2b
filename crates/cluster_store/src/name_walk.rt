ghost use Rattle.std.specs.Prelude.{◌≡◌, ◌++◌, [], flat_map};
ghost use Rattle.cluster_store.specs.Names.{names_in};

use crate::stored::Stored;
use crate::unordered::is_in;
use graphs::{Level, TxId};
use slab::Iter;
use std::marker::Model;

/// What may have names in a level.
pub trait HasNames {
    ghost use Rattle.std.specs.Prelude.{ℕ, List};
    ghost use Rattle.graphs.specs.declared.names.Level as levels;

    /// Its names, where it stands in a level, and else none.
    ghost names: { levels.Level → Self → List ℕ };

    /// Its names, where it stands in a level, and else none.
    fn names_in(&self, level: Level) -> &[TxId]
        ensures { result.now ≡ names level self.now };
}

impl<const W: usize> HasNames for Stored<W> {
    ghost use Rattle.cluster_store.specs.Names.{names_in};

    ghost names = { names_in };

    fn names_in(&self, level: Level) -> &[TxId] {
        if is_in(level, self.tag()) {
            self.cluster().names()
        } else {
            &[]
        }
    }
}

/// A walk over the names of a level, one cluster after the other. Contracts see the names that are still to come.
#[derive(Drop)]
pub struct NameWalk<'a, T: HasNames> {
    // what is left of the names of one cluster
    names: &'a [TxId],
    // the other clusters
    others: Iter<'a, T>,
    level: Level,
}

impl<'a, T: HasNames> Model for NameWalk<'a, T> {
    ghost use Rattle.std.specs.Prelude.{ℕ, List, ◌++◌, flat_map};
    ghost use Rattle.std.specs.Coded.{coded_list, coded_ℕ};

    ghost Value = { List ℕ };

    ghost coded = { coded_list coded_ℕ };

    ghost view = { λ a. a.names.now ++ flat_map (λ e. T.names a.level e.1) a.others };
}

impl<'a, T: HasNames> NameWalk<'a, T> {
    /// Over the names that some clusters have in a level.
    pub(crate) fn new(clusters: Iter<'a, T>, level: Level) -> Self
        ensures { result ≡ flat_map (λ e. T.names level e.1) clusters.entry }
    {
        NameWalk {
            names: &[],
            others: clusters,
            level,
        }
    }
}

/// The names of the next cluster that has some in a level, or none where no cluster has.
fn next_names<'a, T: HasNames + 'a>(clusters: &mut Iter<'a, T>, level: Level) -> &'a [TxId]
    ensures first { flat_map (λ e. T.names level e.1) clusters.old ≡ result.now ++ flat_map (λ e. T.names level e.1) clusters.new }
    ensures none { result.now ≡ [] → flat_map (λ e. T.names level e.1) clusters.new ≡ [] }
{
    while let Some((_, cluster)) = clusters.next() {
        let names = cluster.names_in(level);
        if !names.is_empty() {
            return names;
        }
    }
    &[]
}

impl<'a, T: HasNames + 'a> Iterator for NameWalk<'a, T> {
    type Item = TxId;

    ghost use Rattle.std.specs.Iterator.{YieldsFirst, item_count};

    ghost next_gives = { YieldsFirst (λ rest. rest) };

    ghost remaining = { item_count (λ rest. rest) };

    fn next(&mut self) -> Option<TxId> {
        if self.names.is_empty() {
            self.names = next_names(&mut self.others, self.level);
        }
        let (id, rest) = self.names.split_first()?;
        self.names = rest;
        Some(*id)
    }

    // The least that can be said: nothing counts what is to come.
    fn size_hint(&self) -> (usize, Option<usize>) {
        (0, None)
    }
}
