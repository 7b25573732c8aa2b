//! Trimming: an oversized top level is cut back to its limits.
//!
//! # How it works
//!
//! Trimming goes by components ([`trim_goes_by_components`]). So [`trim`] asks the graph for the components of the top level that are over the
//! limits, and `trimming` for the names that go of each. These together, in rising order, are what trimming drops of the whole level, and the
//! graph drops them in one call. Nothing is looked at of the components within the limits.
//!
//! Fees are in satoshis and sizes in virtual bytes.
#![tactic(auto)]

mod dropping;
mod laws;

ghost use Rattle.std.specs.Prelude.{◌≡◌, ℕ, List, IfErr};
ghost use Rattle.graphs.specs.declared.names.Level.TheVariants.{Top};
ghost use Rattle.graph_model.specs.declared.names.Refusal.TheVariants.{Memory};
ghost use Rattle.graph_model.specs.Commands.{Trim};
ghost use Rattle.graph_model.specs.Replies.{trimmed_reply};
ghost use Rattle.levels.specs.Lefts.{DropsWithin};
ghost use Rattle.levels.specs.Levels.{level_at};
ghost use Rattle.levels.specs.Stays.{AllStay};
ghost use Rattle.tx_graph.specs.Kept.{MakesStep};
ghost use Rattle.trim.specs.Trimmed.{TrimDrops};

use crate::dropping::picked;
use graph_model::{Picked, Refusal};
pub use laws::trim_goes_by_components;
use std::alloc::Global;
use step_count::{Ledger, Steps};
use tx_graph::TxGraph;

/// Cuts the top level back to its limits, and tells the transactions that it drops, in rising order, with their fee and size. A level
/// that isn't over the limits loses none. While a staging is open, main stays as it was.
///
/// Only components over the limits are looked at. In each of them transactions are taken one by one: of those whose parents are all
/// kept, the one of the greatest feerate, and among equal ones the one of the least name. It is kept where its component among those
/// that are kept is within the limits. All that aren't kept are dropped, and each has all its descendants with it.
///
/// The solver takes at most the sum of 2·(n+2)^5 steps over the clusters of n transactions that are left of the components over
/// the limits, each cluster once.
///
/// # Errors
///
/// Answers [`Refusal::Memory`], and leaves the graph as it was, where there is no memory.
pub fn trim<const W: usize, L: Ledger>(
    alloc: Global,
    graph: &mut TxGraph<W>,
    steps: &mut Steps<L>,
) -> Result<Picked, Refusal>
    ensures step { MakesStep graph.old graph.new Trim (trimmed_reply result) }
    ensures err { IfErr result (λ why. (why ≡ Memory) × (graph.new ≡ graph.old)) }
    ensures stays { AllStay graph.old.levels graph.new.levels }
    ensures additions { graph.new.levels.issued ≡ graph.old.levels.issued }
    ensures steps { (ids : List ℕ) → TrimDrops graph.old ids
        → DropsWithin graph.old.levels.limits ids (level_at graph.old.levels Top).graph steps.old steps.new }
{
    let Ok(picked) = picked(alloc, graph) else {
        return Err(Refusal::Memory);
    };
    if graph.drop_set(picked.ids.as_slice(), steps).is_err() {
        return Err(Refusal::Memory);
    }
    Ok(picked)
}
