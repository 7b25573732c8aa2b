ghost use Rattle.std.specs.Prelude.{◌≡◌, ◌-◌, ◌+◌, ◌≤◌, None, Some, ℕ, List, [], length, drop, sum_by, is_some, IfSome, OnSome};
ghost use Rattle.std.specs.FinMap as finmap;
ghost use Rattle.std.specs.List.{AllPairs};
ghost use Rattle.staging.specs.Maps.{top_of, map_of};
ghost use Rattle.cluster.specs.Clusters.{AreApart};
ghost use Rattle.cluster.specs.Clusters as records;
ghost use Rattle.levels.specs.Changes.{AreAt, Loses, Points, PointsOne};
ghost use Rattle.levels.specs.Shelves.{stored_at};
ghost use Rattle.levels.specs.Tops.{fresh_from};

use crate::stored::at;
use cluster_store::ClusterStore;
use graph_model::{Level, TxId};
use staging::Overlay;

/// The number of a name's cluster in a level.
pub(crate) fn number_of(numbers: &Overlay<usize>, level: Level, id: TxId) -> Option<usize>
    ensures { result ≡ finmap.get (map_of level numbers.now) id }
{
    numbers.get(level, id).copied()
}

/// Gives names the number of their cluster in the top level.
pub(crate) fn point(numbers: &mut Overlay<usize>, names: &[TxId], number: usize)
    requires room { length names.now ≤ numbers.old.spare }
    ensures points { PointsOne number names.now (top_of numbers.old) (top_of numbers.new) }
    ensures staged { is_some numbers.new.top ≡ is_some numbers.old.top }
    ensures base { OnSome numbers.old.top (numbers.new.base ≡ numbers.old.base) }
    ensures room { numbers.old.spare ≤ numbers.new.spare + length names.now }
{
    for id in names {
        numbers.put(*id, number);
    }
}

/// Gives the names of the clusters of some numbers these numbers in the top level.
pub(crate) fn point_all<const W: usize>(
    numbers: &mut Overlay<usize>,
    store: &ClusterStore<W>,
    list: &[usize],
)
    requires narrow { W ≤ 2 }
    requires clusters { (clusters : List records.Cluster) × AreAt (stored_at store.now.clusters) list.now clusters
        × AllPairs AreApart clusters × (sum_by (λ c. length c.names) clusters ≤ numbers.old.spare) }
    ensures points { (clusters : List records.Cluster) → AreAt (stored_at store.now.clusters) list.now clusters
        → Points list.now clusters [] (top_of numbers.old) (top_of numbers.new) }
    ensures staged { is_some numbers.new.top ≡ is_some numbers.old.top }
    ensures base { OnSome numbers.old.top (numbers.new.base ≡ numbers.old.base) }
    ensures room { (clusters : List records.Cluster) → AreAt (stored_at store.now.clusters) list.now clusters
        → numbers.old.spare ≤ numbers.new.spare + sum_by (λ c. length c.names) clusters }
{
    for i in 0..list.len() {
        point(numbers, at(store, list[i]).names(), list[i]);
    }
}

/// Takes names out of the top level.
pub(crate) fn unpoint(numbers: &mut Overlay<usize>, gone: &[TxId])
    requires room { length gone.now ≤ numbers.old.spare }
    ensures lost { Loses gone.now (top_of numbers.old) (top_of numbers.new) }
    ensures staged { is_some numbers.new.top ≡ is_some numbers.old.top }
    ensures base { OnSome numbers.old.top (numbers.new.base ≡ numbers.old.base) }
    ensures room { numbers.old.spare ≤ numbers.new.spare + length gone.now }
{
    for id in gone {
        numbers.remove(*id);
    }
}

/// Gives the names of the last cluster that came in its number. Where that is the number of the first that went out, the first names of
/// the cluster have it already.
pub(crate) fn point_last<const W: usize>(
    numbers: &mut Overlay<usize>,
    store: &ClusterStore<W>,
    outs: &[usize],
    last: Option<usize>,
    kept: usize,
)
    requires narrow { W ≤ 2 }
    requires there { IfSome last (λ number. (c : records.Cluster) × (stored_at store.now.clusters number ≡ Some c)
        × (kept ≤ length c.names) × (length c.names ≤ numbers.old.spare)) }
    ensures points { (number : ℕ) (c : records.Cluster) → last ≡ Some number → stored_at store.now.clusters number ≡ Some c
        → PointsOne number (drop (fresh_from kept outs.now number) c.names) (top_of numbers.old) (top_of numbers.new) }
    ensures none { last ≡ None → top_of numbers.new ≡ top_of numbers.old }
    ensures staged { is_some numbers.new.top ≡ is_some numbers.old.top }
    ensures base { OnSome numbers.old.top (numbers.new.base ≡ numbers.old.base) }
{
    if let Some(number) = last {
        let from = if outs.first() == Some(&number) {
            kept
        } else {
            0
        };
        point(numbers, at(store, number).names().split_at(from).1, number);
    }
}
