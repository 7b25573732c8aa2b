//! Transactions that leave a level several at once: a mined set and the last chunk leave main, and a set with all its descendants leaves the
//! top level.
ghost use Rattle.std.specs.Prelude.{◌≡◌, ◌≢◌, [], None, Some, IfErr, IfOk, MatchResult};
ghost use Rattle.graphs.specs.Certificates.{Part};
ghost use Rattle.graphs.specs.declared.names.Level.TheVariants.{Top};
ghost use Rattle.graph_model.specs.declared.names.Refusal.TheVariants.{Memory};
ghost use Rattle.graph_model.specs.Changes.{IsLast};
ghost use Rattle.graph_model.specs.Commands.{Mine, Evict};
ghost use Rattle.graph_model.specs.Replies.{change_reply, evicted_reply};
ghost use Rattle.levels.specs.Lefts.{DropsWithin};
ghost use Rattle.levels.specs.Levels.{level_at};
ghost use Rattle.levels.specs.Stays.{AllStay};
ghost use Rattle.tx_graph.specs.Dropped.{DropsSet, IsLastOf, LastFails, MayGo};
ghost use Rattle.tx_graph.specs.Kept.{Leads, MakesStep};
ghost use Rattle.tx_graph.specs.Restored.{Meets};

use crate::graph::TxGraph;
use fee_rate::Sum;
use graph_model::{IdList, Level, Picked, Refusal, TxId};
use levels::Levels;
use std::alloc::Global;
use step_count::{Ledger, Steps};

impl<const W: usize> TxGraph<W> {
    /// Asks whether [`mine`](TxGraph::mine) would be refused for another reason than want of memory. The list isn't empty. The graph stays as
    /// it was. Takes no memory, and solves nothing.
    ///
    /// # Errors
    ///
    /// Answers the first of these that holds:
    ///
    /// - [`Refusal::Staging`]: a staging is open.
    /// - [`Refusal::Twice`], with the first listed transaction that stands earlier in the list too.
    /// - [`Refusal::Unknown`], with the first listed transaction that main hasn't.
    /// - [`Refusal::Parent`], with the first listed transaction that has an ancestor in main which isn't listed.
    pub fn minable(&mut self, ids: &[TxId]) -> Result<(), Refusal>
        requires { ids.now ≢ [] }
        ensures row { MatchResult result (λ _. Meets self.old (Mine ids.now) None) (λ why. Meets self.old (Mine ids.now) (Some why)) }
        ensures same { self.new ≡ self.old }
    {
        if self.levels.is_staged() {
            return Err(Refusal::Staging);
        }
        match self.levels.refused_mine(ids) {
            Some(why) => Err(why),
            None => Ok(()),
        }
    }

    /// Takes transactions that were mined out of main, in any order, with their dependencies. The others keep the ancestors that they
    /// have among them. The list isn't empty.
    ///
    /// The solver takes at most the sum of 2·(n+2)^5 steps over the clusters of n transactions that are left of the listed
    /// transactions' clusters and are within the limits, each cluster once. It takes none where the call is refused for another
    /// reason than memory.
    ///
    /// # Errors
    ///
    /// Answers the first of these that holds, and leaves the graph as it was:
    ///
    /// - [`Refusal::Staging`]: a staging is open.
    /// - [`Refusal::Twice`], with the first listed transaction that stands earlier in the list too.
    /// - [`Refusal::Unknown`], with the first listed transaction that main hasn't.
    /// - [`Refusal::Parent`], with the first listed transaction that has an ancestor in main which isn't listed.
    /// - [`Refusal::Memory`]: there is no memory. Nothing before takes any.
    pub fn mine<L: Ledger>(&mut self, ids: &[TxId], steps: &mut Steps<L>) -> Result<(), Refusal>
        requires { ids.now ≢ [] }
        ensures step { MakesStep self.old self.new (Mine ids.now) (change_reply result) }
        ensures stays { AllStay self.old.levels self.new.levels }
        ensures additions { self.new.levels.issued ≡ self.old.levels.issued }
        ensures refused { IfErr result (λ why. why ≢ Memory → steps.new ≡ steps.old) }
        ensures steps { DropsWithin self.old.levels.limits ids.now self.old.levels.main.graph steps.old steps.new }
    {
        if self.levels.is_staged() {
            return Err(Refusal::Staging);
        }
        if let Some(why) = self.levels.refused_mine(ids) {
            return Err(why);
        }
        if self.levels.drop_names(ids, steps).is_err() {
            return Err(Refusal::Memory);
        }
        self.begun = true;
        Ok(())
    }

    /// Drops the last chunk of main's order, which is the first to go where a mempool is full, and tells its transactions with their
    /// fee and size. No set of transactions that has all its descendants has a lower feerate.
    ///
    /// The solver takes at most the sum of 2·(n+2)^5 steps over the clusters of n transactions that are left of the chunk's
    /// cluster. It takes none where the call is refused for another reason than memory.
    ///
    /// # Errors
    ///
    /// Answers the first of these that holds, and leaves the graph as it was:
    ///
    /// - [`Refusal::Staging`]: a staging is open.
    /// - [`Refusal::Empty`]: main has no transaction.
    /// - [`Refusal::Oversized`]: main is oversized.
    /// - [`Refusal::Memory`]: there is no memory.
    pub fn drop_last<L: Ledger>(&mut self, steps: &mut Steps<L>) -> Result<Picked, Refusal>
        ensures step { MakesStep self.old self.new Evict (evicted_reply result) }
        ensures stays { AllStay self.old.levels self.new.levels }
        ensures additions { self.new.levels.issued ≡ self.old.levels.issued }
        ensures refused { IfErr result (λ why. why ≢ Memory → steps.new ≡ steps.old) }
        ensures steps { (part : Part) → IsLast self.old.levels.main.parts part
            → DropsWithin self.old.levels.limits part.ids self.old.levels.main.graph steps.old steps.new }
    {
        if self.levels.is_staged() {
            return Err(Refusal::Staging);
        }
        let picked = last_part(self.alloc, &self.levels)?;
        if self
            .levels
            .drop_names(picked.ids.as_slice(), steps)
            .is_err()
        {
            return Err(Refusal::Memory);
        }
        self.begun = true;
        Ok(picked)
    }

    /// Drops a set of transactions from the top level, in any order, with their dependencies. Each is in the top level, stands once in the
    /// list, and has all its descendants there in the list. The others keep the ancestors that they have among them. While a staging is
    /// open, main stays as it was. An empty list changes no level, but the limits can't be set after it, as after any change.
    ///
    /// The solver takes at most the sum of 2·(n+2)^5 steps over the clusters of n transactions that are left of the listed
    /// transactions' clusters and are within the limits, each cluster once.
    ///
    /// # Errors
    ///
    /// Answers [`Refusal::Memory`], and leaves the graph as it was, where there is no memory.
    pub fn drop_set<L: Ledger>(&mut self, ids: &[TxId], steps: &mut Steps<L>) -> Result<(), Refusal>
        requires { MayGo (level_at self.old.levels Top).graph ids.now }
        ensures drops { IfOk result (λ _. Leads self.old self.new (DropsSet ids.now)) }
        ensures err { IfErr result (λ why. (why ≡ Memory) × (self.new ≡ self.old)) }
        ensures stays { AllStay self.old.levels self.new.levels }
        ensures additions { self.new.levels.issued ≡ self.old.levels.issued }
        ensures steps { DropsWithin self.old.levels.limits ids.now (level_at self.old.levels Top).graph steps.old steps.new }
    {
        // a level that loses nothing keeps its pick
        if ids.is_empty() {
            self.begun = true;
            return Ok(());
        }
        if self.levels.drop_names(ids, steps).is_err() {
            return Err(Refusal::Memory);
        }
        self.begun = true;
        Ok(())
    }
}

/// The last part of main's order, with its names in a list of their own. Refuses where main is oversized, and so isn't empty, and
/// where it is empty.
fn last_part<const W: usize>(alloc: Global, levels: &Levels<W>) -> Result<Picked, Refusal>
    ensures { MatchResult result
        (λ picked. (part : Part) × IsLastOf levels.now part picked)
        (λ why. LastFails levels.now why) }
{
    if levels.oversized(Level::Main) {
        return Err(Refusal::Oversized);
    }
    let Some(shown) = levels.parts(Level::Main).next_back() else {
        return Err(Refusal::Empty);
    };
    match Vec::from_slice(alloc, shown.part.ids) {
        Ok(ids) => {
            let sum = Sum::from(shown.part.rate);
            Ok(Picked {
                fee: sum.fee,
                size: sum.size,
                ids: IdList::from_vec(ids),
            })
        }
        Err(_) => Err(Refusal::Memory),
    }
}
