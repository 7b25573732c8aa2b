//! How staging stands to main: the verdict of their fee-rate diagrams, by the parts of the clusters of both.
//!
//! Fees are in satoshis and sizes in virtual bytes. Nothing here takes memory.
#![tactic(auto)]

ghost use Rattle.std.specs.Prelude.{◌≡◌, ◌↔◌, ◌^◌, ◌<◌, ◌≤◌, IsTrue};
ghost use Rattle.graphs.specs.Rates.{sum_of};
ghost use Rattle.graphs.specs.declared.names.Level as levels;
ghost use Rattle.graphs.specs.declared.names.Level.TheVariants.{Main, Top};
ghost use Rattle.cluster_store.specs.Stores.{IsOrdered, parts_of_level};
ghost use Rattle.diagram.specs.Parts.{sums_of};
ghost use Rattle.replacement.specs.Changes.{EndsNonNegative};
ghost use Rattle.replacement.specs.Merging.{FitTogether};
ghost use Rattle.comparison.specs.Comparisons.{ComparesParts};

use chunk_index::Tag;
use cluster_store::{ClusterStore, RateWalk};
use graphs::{Level, Verdict};
use replacement::{compare_changed, compare_with_tail};

/// How staging stands to main: the verdict of the fee-rate diagram of its parts over that of main's. `Better` where it
/// is at or above main's at every size and not everywhere equal, `Worse` the other way round, `Equal` where both are
/// everywhere the same, and `Incomparable` where each is above the other somewhere. Takes no memory.
///
/// The caller knows that the parts of each level fit together, as they do where its names are no more than are added
/// up. Where the last part of each level that has one has a fee of at least 0, only the parts that stand in one level
/// alone are looked at, and the last ones; else some of the worst ones in both too.
pub fn compare<const W: usize>(store: &ClusterStore<W>) -> Verdict
    requires narrow { W ≤ 2 }
    requires fits { (level : levels.Level) → FitTogether (sums_of (parts_of_level level store.now)) }
    ensures { ComparesParts (parts_of_level Main store.now) (parts_of_level Top store.now) result }
{
    if ends_well(store, Level::Main) && ends_well(store, Level::Top) {
        let main_only = store.rates_only(Tag::MainOnly);
        let top_only = store.rates_only(Tag::TopOnly);
        return compare_changed(main_only, top_only);
    }
    compare_signed(store)
}

// Whether the last part of a level, where it has one, has a fee of at least 0.
fn ends_well<const W: usize>(store: &ClusterStore<W>, level: Level) -> bool
    requires { W ≤ 2 }
    ensures last { IsTrue result ↔ EndsNonNegative (sums_of (parts_of_level level store.now)) }
    ensures order { IsOrdered store.now.clusters store.now.order }
{
    match store.walk(level).next_back() {
        Some(shown) => shown.part.rate.fee >= 0,
        None => true,
    }
}

// The same whatever the signs of fees: of the parts in both levels so many of the worst ones with fees below 0 are looked at as
// cover the difference of the sizes of what stands in one alone.
fn compare_signed<const W: usize>(store: &ClusterStore<W>) -> Verdict
    requires narrow { W ≤ 2 }
    requires order { IsOrdered store.now.clusters store.now.order }
    requires fits { (level : levels.Level) → FitTogether (sums_of (parts_of_level level store.now)) }
    ensures { ComparesParts (parts_of_level Main store.now) (parts_of_level Top store.now) result }
{
    let main_size = total_size(store.rates_only(Tag::MainOnly));
    let top_size = total_size(store.rates_only(Tag::TopOnly));
    let (main_tail, top_tail) = store.last_shared(main_size.abs_diff(top_size));
    let main_only = store.rates_only(Tag::MainOnly);
    let top_only = store.rates_only(Tag::TopOnly);
    compare_with_tail(main_only, top_only, main_tail, top_tail)
}

// The size of some parts together, in virtual bytes.
fn total_size(mut rates: RateWalk<'_>) -> u64
    requires { (sum_of rates).size < 2 ^ 64 }
    ensures { result ≡ (sum_of rates.entry).size }
{
    let mut size = 0;
    while let Some(rate) = rates.next() {
        size += rate.size;
    }
    size
}
