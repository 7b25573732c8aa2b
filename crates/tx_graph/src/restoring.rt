//! Transactions that come back into main.
ghost use Rattle.std.specs.Prelude.{◌≡◌, ◌≢◌, ◌↔◌, ℕ, ◌+◌, ◌^◌, ◌<◌, None, Option, Contains, length, if◌then◌else◌, IfErr, IfOk, IsTrue, MatchResult};
ghost use Rattle.graph_model.specs.declared.names.Refusal.{Refusal as refusals};
ghost use Rattle.graph_model.specs.declared.names.Refusal.TheVariants.{Memory};
ghost use Rattle.graph_model.specs.Changes.{ids_of};
ghost use Rattle.graph_model.specs.States.{State};
ghost use Rattle.levels.specs.Levels.{IsLive};
ghost use Rattle.levels.specs.Mining.{FindsFirst};
ghost use Rattle.levels.specs.Restores.{RestoresWithin};
ghost use Rattle.levels.specs.Stays.{AllStay};
ghost use Rattle.tx_graph.specs.Additions.{CountsLive};
ghost use Rattle.tx_graph.specs.Kept.{Leads, StandsFor};
ghost use Rattle.tx_graph.specs.Restored.{IsAnsweredBy, MayRestore, RestoreRefusalIs, RestoresSet};

use crate::graph::{TxGraph, is_live};
use graph_model::{Refusal, TxId};
use levels::Levels;
use step_count::{Ledger, Steps};

impl<const W: usize> TxGraph<W> {
    /// Puts transactions that are in no level into main, each with its fee in satoshis and its size in virtual bytes, and with them those of
    /// the dependencies (parent, child) whose child is one of them or in main. The others are passed over. The list isn't empty and names
    /// no transaction twice; each parent is one of the names, and the dependencies have no cycle. The names may stand in any order.
    ///
    /// Each cluster that is made is made once, at once with the others. The work is near linear in the names, the dependencies, and the
    /// clusters of main that get a new parent. The solver takes at most the sum of 2·(n+2)^5 steps over the clusters of n transactions
    /// that are made and are within the limits. It takes none where the call is refused for another reason than memory.
    ///
    /// # Errors
    ///
    /// Answers the first of these that holds, and leaves the graph as it was:
    ///
    /// - [`Refusal::Staging`]: a staging is open.
    /// - [`Refusal::Back`], with the first listed transaction that is in main.
    /// - [`Refusal::Full`]: the live transactions and these together are more than may be.
    /// - [`Refusal::Count`], [`Refusal::ClusterSize`]: no dependency may pass the limits, and main would have a cluster over them. It tells
    ///   the cluster of the first listed transaction of which that is so: the number of its transactions, where that is over the limit,
    ///   and else its size.
    /// - [`Refusal::Memory`]: there is no memory. It may be answered in place of the two before, but nothing before them takes any.
    pub fn restore<L: Ledger>(
        &mut self,
        names: &[(TxId, i64, u64)],
        pairs: &[(TxId, TxId)],
        steps: &mut Steps<L>,
    ) -> Result<(), Refusal>
        requires { MayRestore self.old names.now pairs.now }
        ensures restores { IfOk result (λ _. Leads self.old self.new (RestoresSet names.now pairs.now)
            × (self.new.levels.issued ≡ self.old.levels.issued + length names.now)) }
        ensures row { (state : State) → StandsFor self.old state → MatchResult result
            (λ _. RestoreRefusalIs state.plain names.now pairs.now None)
            (λ why. (found : Option refusals) × RestoreRefusalIs state.plain names.now pairs.now found × IsAnsweredBy found why) }
        ensures refused { IfErr result (λ why. (self.new ≡ self.old) × (why ≢ Memory → steps.new ≡ steps.old)) }
        ensures stays { AllStay self.old.levels self.new.levels }
        ensures steps { RestoresWithin self.old.levels.limits self.old.levels.main.graph names.now pairs.now steps.old steps.new }
    {
        if self.levels.is_staged() {
            return Err(Refusal::Staging);
        }
        if let Some(id) = first_live(&self.levels, names) {
            return Err(Refusal::Back(id));
        }
        if is_past(&self.levels, names.len()) {
            return Err(Refusal::Full);
        }
        self.levels.restore(names, pairs, steps)?;
        self.begun = true;
        Ok(())
    }
}

/// The first of some transactions that is in main or in staging.
fn first_live<const W: usize>(levels: &Levels<W>, txs: &[(TxId, i64, u64)]) -> Option<TxId>
    ensures first { FindsFirst (IsLive levels.now) (ids_of txs.now) result }
    ensures small { result ≡ None → (id : ℕ) → Contains (ids_of txs.now) id → id < 2 ^ 64 }
{
    for tx in txs {
        if is_live(levels, tx.0) {
            return Some(tx.0);
        }
    }
    None
}

/// Whether the live transactions, and as many more, are more than may be.
fn is_past<const W: usize>(levels: &Levels<W>, more: usize) -> bool
    ensures { (live : ℕ) → CountsLive levels.now live → IsTrue result ↔ (levels.now.limits.total < live + more) }
{
    let limits = levels.limits();
    (levels.live() as u64).saturating_add(more as u64) > limits.total
}
