ghost use Rattle.std.specs.Prelude.{◌≡◌, ◌^◌, ◌<◌, length};
ghost use Rattle.std.specs.Vec.Iter.{into_iter_items, into_iter_len, into_iter_steps};
ghost use Rattle.std.specs.Iterator.Runs.{EveryRun, ItemsAre};

use crate::Cluster;
use std::alloc::Global;
use std::marker::Model;
use std::vec;

/// A list of clusters.
#[derive(Drop)]
pub struct ClusterList<const W: usize> {
    pub(crate) clusters: Vec<Cluster<W>>,
}

impl<const W: usize> Model for ClusterList<W> {
    ghost use Rattle.std.specs.Prelude.{List};
    ghost use Rattle.std.specs.Coded.{coded_list};
    ghost use Rattle.cluster.specs.Clusters.{Cluster, cluster_code};

    ghost Value = { List Cluster };

    ghost coded = { coded_list cluster_code };

    ghost view = { λ l. l.clusters.items };
}

impl<const W: usize> ClusterList<W> {
    /// How many clusters there are.
    pub fn len(&self) -> usize
        ensures { result ≡ length self.now }
    {
        self.clusters.len()
    }

    /// The clusters in order.
    pub fn as_slice(&self) -> &[Cluster<W>]
        ensures { result.now ≡ self.now }
    {
        self.clusters.as_slice()
    }

    /// Gives the vector of the clusters, in order. Takes no memory.
    pub fn into_vec(self) -> Vec<Cluster<W>>
        ensures { result.items ≡ self.entry }
    {
        let ClusterList { clusters } = self;
        clusters
    }
}

impl<const W: usize> IntoIterator for ClusterList<W> {
    ghost use Rattle.std.specs.declared.alloc.Global.{Global};
    ghost use Rattle.cluster.specs.Clusters.{Cluster};

    type Item = Cluster<W>;

    type IntoIter = vec::IntoIter<Cluster<W>, Global>;

    ghost into_iter_gives = { λ l r. (into_iter_items r ≡ l) × (into_iter_len r ≡ length l) × (into_iter_len r < 2 ^ 64)
        × EveryRun (into_iter_steps {X = Cluster} {Z = Global}) (λ p. ItemsAre p (into_iter_items p.from)) };

    fn into_iter(self) -> vec::IntoIter<Cluster<W>, Global> {
        self.into_vec().into_iter()
    }
}
