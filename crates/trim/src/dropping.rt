//! What is dropped.
ghost use Rattle.std.specs.Prelude.{◌≡◌, ◌≤◌, ℕ, true, List, length, Contains, IfOk};
ghost use Rattle.fee_rate.specs.declared.limits.TheConstants.{MAX_TOTAL};
ghost use Rattle.fee_rate.specs.Limits.{IsRate};
ghost use Rattle.graphs.specs.Closures.{is_member, rate_of};
ghost use Rattle.graphs.specs.declared.names.Level.TheVariants.{Top};
ghost use Rattle.graphs.specs.Rates.{sums};
ghost use Rattle.graph_model.specs.declared.limits.TheConstants.{MAX_COUNT};
ghost use Rattle.graph_model.specs.Limits.{bounds_of};
ghost use Rattle.levels.specs.Levels.{level_at};
ghost use Rattle.levels.specs.Overs.{AreOvers};
ghost use Rattle.links.specs.Links.{Links};
ghost use Rattle.fee_rate.specs.Rates.{sum_from};
ghost use Rattle.tx_graph.specs.Dropped.{MayGo};
ghost use Rattle.trim.specs.Trimmed.{AreTrimmed, IsDropped, TrimDrops};

use fee_rate::{Sum, add};
use graph_model::{IdList, Level, Picked, TxId};
use outside::NoMemory;
use std::alloc::Global;
use trimming::trimmed;
use tx_graph::TxGraph;

/// What trimming drops of each component of the top level over the limits, one after another.
fn gathered<const W: usize>(alloc: Global, graph: &TxGraph<W>) -> Result<Vec<TxId>, NoMemory>
    requires count { graph.now.levels.limits.count ≤ MAX_COUNT }
    ensures { IfOk result (λ ids. (overs : List Links)
        × AreOvers graph.now.levels.limits (level_at graph.now.levels Top).graph overs
        × AreTrimmed (bounds_of graph.now.levels.limits) overs ids.items) }
{
    let limits = graph.limits();
    let mut ids = Vec::new(alloc);
    for links in graph.over(Level::Top) {
        // that these are links is a clause of this call
        let _txs = links.txs();
        let some = trimmed(alloc, &limits, links)?;
        ids.extend_from_slice(some.as_slice())?;
    }
    Ok(ids)
}

/// The names that trimming drops from the top level, in rising order.
fn dropped<const W: usize>(alloc: Global, graph: &TxGraph<W>) -> Result<Vec<TxId>, NoMemory>
    requires count { graph.now.levels.limits.count ≤ MAX_COUNT }
    ensures { IfOk result (λ ids. TrimDrops graph.now ids.items) }
{
    let mut ids = gathered(alloc, graph)?;
    ids.sort_unstable();
    Ok(ids)
}

/// Fee and size of transactions of the top level together.
fn summed<const W: usize>(graph: &TxGraph<W>, ids: &[TxId]) -> Sum
    requires live { (id : ℕ) → Contains ids.now id → is_member (level_at graph.now.levels Top).graph id ≡ true }
    requires rates { (id : ℕ) → Contains ids.now id → IsRate (rate_of (level_at graph.now.levels Top).graph id) }
    requires few { length ids.now ≤ MAX_TOTAL }
    ensures { result ≡ sums (λ id. sum_from (rate_of (level_at graph.now.levels Top).graph id)) ids.now }
{
    let mut sum = Sum { fee: 0, size: 0 };
    for id in ids {
        sum = add(sum, Sum::from(graph.rate(Level::Top, *id)));
    }
    sum
}

/// The names that trimming drops from the top level, in rising order, with their fee and size.
pub fn picked<const W: usize>(alloc: Global, graph: &TxGraph<W>) -> Result<Picked, NoMemory>
    ensures dropped { IfOk result (λ picked. IsDropped graph.now picked) }
    ensures may_go { IfOk result (λ picked. MayGo (level_at graph.now.levels Top).graph picked.ids) }
    ensures one { IfOk result (λ picked. (ids : List ℕ) → TrimDrops graph.now ids → picked.ids ≡ ids) }
{
    // the graph stands for some state, whose limits are in range
    let _additions = graph.additions();
    let ids = dropped(alloc, graph)?;
    let sum = summed(graph, ids.as_slice());
    Ok(Picked {
        fee: sum.fee,
        size: sum.size,
        ids: IdList::from_vec(ids),
    })
}
