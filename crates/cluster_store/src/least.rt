//! A bound on sizes that only falls.
ghost use Rattle.std.specs.Prelude.{◌≡◌, ◌≤◌, ◌++◌, ◌*◌, ◌^◌, ◌-◌, map, min, Contains, Some, option_to_list};
ghost use Rattle.graphs.specs.Closures.{rate_of};
ghost use Rattle.cluster.specs.Clusters.{Cluster};
ghost use Rattle.record.specs.Records.{IsRecord};
ghost use Rattle.cluster_store.specs.Stores.{Exchange as Kept};
ghost use Rattle.cluster_store.specs.Changes.{lowest, lowest_in};

use crate::stored::Exchange;
use record::Record;

/// The least of a number and the sizes of the names of a cluster.
pub fn lowest_of<const W: usize>(cluster: &Record<W>, least: u64) -> u64
    ensures least { result ≡ lowest (λ id. (rate_of cluster.now.graph id).size) cluster.now.names least }
    ensures whole { IsRecord (64 * W) cluster.now }
{
    let names = cluster.names();
    let mut lowest = least;
    for at in 0..names.len() {
        lowest = lowest.min(cluster.rate_at(at).size);
    }
    lowest
}

/// The least of a number and the sizes of the names of clusters that are to be exchanged.
pub fn lowest_exchanged<const W: usize>(least: u64, exchanged: &[Exchange<W>]) -> u64
    ensures least { result ≡ lowest_in (map (λ x. x.cluster) exchanged.now) least }
    ensures whole { (x : Kept) → Contains exchanged.now x → IsRecord (64 * W) x.cluster }
{
    let mut lowest = least;
    for at in 0..exchanged.len() {
        lowest = lowest_of(exchanged[at].cluster(), lowest);
    }
    lowest
}

/// The least of a number and the sizes of the names of clusters.
pub fn lowest_of_all<const W: usize>(least: u64, clusters: &[Record<W>]) -> u64
    ensures least { result ≡ lowest_in clusters.now least }
    ensures whole { (c : Cluster) → Contains clusters.now c → IsRecord (64 * W) c }
{
    let mut lowest = least;
    for at in 0..clusters.len() {
        lowest = lowest_of(&clusters[at], lowest);
    }
    lowest
}

/// The least of a number and the sizes of the names of a cluster, where there is one.
pub fn lowest_of_last<const W: usize>(least: u64, last: &Option<Record<W>>) -> u64
    ensures least { result ≡ lowest_in (option_to_list last.now) least }
    ensures whole { (c : Cluster) → last.now ≡ Some c → IsRecord (64 * W) c }
{
    match last {
        Some(cluster) => lowest_of(cluster, least),
        None => least,
    }
}
