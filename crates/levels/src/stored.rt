ghost use Rattle.std.specs.Prelude.{◌≡◌, Some, IsSome};
ghost use Rattle.levels.specs.Shelves.{stored_at, tag_at};

use chunk_index::Tag;
use cluster_store::ClusterStore;
use record::Record;

/// The cluster of a number that has one.
pub(crate) fn at<const W: usize>(store: &ClusterStore<W>, number: usize) -> &Record<W>
    requires { IsSome (stored_at store.now.clusters number) }
    ensures { stored_at store.now.clusters number ≡ Some result.now }
{
    match store.get(number) {
        Some(cluster) => cluster,
        None => unreachable!(),
    }
}

/// The levels that the cluster of a number stands in.
pub(crate) fn tag_of<const W: usize>(store: &ClusterStore<W>, number: usize) -> Tag
    requires { IsSome (stored_at store.now.clusters number) }
    ensures { tag_at store.now.clusters number ≡ Some result }
{
    match store.tag(number) {
        Some(tag) => tag,
        None => unreachable!(),
    }
}
