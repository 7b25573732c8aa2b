//! Eviction: where a mempool is full, the last part of main's order goes first.
//!
//! Fees are in satoshis and sizes in virtual bytes.
#![tactic(auto)]

ghost use Rattle.std.specs.Prelude.{◌≡◌, ◌≢◌, [], IfErr, MatchOption};
ghost use Rattle.graphs.specs.Certificates.{Part};
ghost use Rattle.graphs.specs.declared.names.Level.TheVariants.{Main};
ghost use Rattle.graph_model.specs.declared.names.Refusal.TheVariants.{Memory};
ghost use Rattle.graph_model.specs.Changes.{IsLast};
ghost use Rattle.graph_model.specs.Commands.{Evict};
ghost use Rattle.graph_model.specs.Replies.{evicted_reply};
ghost use Rattle.cluster_store.specs.Lent.{lent};
ghost use Rattle.levels.specs.Lefts.{DropsWithin};
ghost use Rattle.levels.specs.Levels.{IsWithin};
ghost use Rattle.levels.specs.Stays.{AllStay};
ghost use Rattle.tx_graph.specs.Kept.{MakesStep};

use cluster::PartRef;
use graph_model::{Level, Picked, Refusal};
use step_count::{Ledger, Steps};
use tx_graph::TxGraph;

/// The last part of main's order, which [`evict`] would drop: the last one that a block builder offers if each is included. `None` exactly
/// where main is empty. Main isn't oversized. Takes no memory.
pub fn worst<const W: usize>(graph: &TxGraph<W>) -> Option<PartRef<'_>>
    requires within { IsWithin graph.now.levels Main }
    ensures { MatchOption result (graph.now.levels.main.parts ≡ [])
        (λ part. IsLast graph.now.levels.main.parts (lent part)) }
{
    graph.order(Level::Main).next_back()
}

/// Drops the last part of main's order, and tells its transactions with their fee and size. No set of transactions that has all its
/// descendants has a lower feerate.
///
/// The solver takes at most the sum of 2·(n+2)^5 steps over the clusters of n transactions that are left of the part's cluster. It
/// takes none where the call is refused for another reason than memory.
///
/// # Errors
///
/// Answers the first of these that holds, and leaves the graph as it was:
///
/// - [`Refusal::Staging`]: a staging is open.
/// - [`Refusal::Empty`]: main has no transaction.
/// - [`Refusal::Oversized`]: main is oversized.
/// - [`Refusal::Memory`]: there is no memory.
pub fn evict<L: Ledger, const W: usize>(
    graph: &mut TxGraph<W>,
    steps: &mut Steps<L>,
) -> Result<Picked, Refusal>
    ensures step { MakesStep graph.old graph.new Evict (evicted_reply result) }
    ensures stays { AllStay graph.old.levels graph.new.levels }
    ensures additions { graph.new.levels.issued ≡ graph.old.levels.issued }
    ensures refused { IfErr result (λ why. why ≢ Memory → steps.new ≡ steps.old) }
    ensures steps { (part : Part) → IsLast graph.old.levels.main.parts part
        → DropsWithin graph.old.levels.limits part.ids graph.old.levels.main.graph steps.old steps.new }
{
    graph.drop_last(steps)
}
