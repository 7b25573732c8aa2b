ghost use Rattle.std.specs.Prelude.{◌≡◌, flat_map};
ghost use Rattle.cluster_store.specs.Names.{clusters_in};

use crate::stored::Stored;
use crate::unordered::is_in;
use graphs::Level;
use record::Record;
use slab::Iter;
use std::marker::Model;

/// A walk over the clusters of a level, those with an order and those without. Contracts see the clusters that are still to come.
#[derive(Drop)]
pub struct RecordWalk<'a, const W: usize> {
    clusters: Iter<'a, Stored<W>>,
    level: Level,
}

impl<'a, const W: usize> Model for RecordWalk<'a, W> {
    ghost use Rattle.std.specs.Prelude.{List, flat_map};
    ghost use Rattle.std.specs.Coded.{coded_list};
    ghost use Rattle.cluster.specs.Clusters.{Cluster, cluster_code};
    ghost use Rattle.cluster_store.specs.Names.{clusters_in};

    ghost Value = { List Cluster };

    ghost coded = { coded_list cluster_code };

    ghost view = { λ a. flat_map (λ e. clusters_in a.level e.1) a.clusters };
}

impl<'a, const W: usize> RecordWalk<'a, W> {
    /// Over those of some clusters that stand in a level.
    pub(crate) fn new(clusters: Iter<'a, Stored<W>>, level: Level) -> Self
        ensures { result ≡ flat_map (λ e. clusters_in level e.1) clusters.entry }
    {
        RecordWalk { clusters, level }
    }
}

impl<'a, const W: usize> Iterator for RecordWalk<'a, W> {
    type Item = &'a Record<W>;

    ghost use Rattle.std.specs.Iterator.{YieldsFirstRef, item_count};

    ghost next_gives = { YieldsFirstRef (λ rest. rest) };

    ghost remaining = { item_count (λ rest. rest) };

    fn next(&mut self) -> Option<&'a Record<W>> {
        while let Some((_, stored)) = self.clusters.next() {
            if is_in(self.level, stored.tag()) {
                return Some(stored.cluster());
            }
        }
        None
    }

    // The least that can be said: nothing counts what is to come.
    fn size_hint(&self) -> (usize, Option<usize>) {
        (0, None)
    }
}
