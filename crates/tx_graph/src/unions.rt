//! What transactions have together: their ancestors, their descendants, and the components that they lie in.
ghost use Rattle.std.specs.Prelude.{◌≡◌, ◌+◌, ◌<◌, length, IfErr, IfOk};
ghost use Rattle.std.specs.List.Sorted.{IsPermutation};
ghost use Rattle.graphs.specs.Graphs.{Lists};
ghost use Rattle.graphs.specs.declared.names.Kin.TheVariants.{Ancestors, Descendants};
ghost use Rattle.graph_model.specs.States.{State, level_of};
ghost use Rattle.tx_graph.specs.Kept.{StandsFor};
ghost use Rattle.tx_graph.specs.Unions.{HaveComponentsOf, IsKinIn, LieInComponents};

use crate::graph::TxGraph;
use graph_model::{IdBuf, Level, TxId};
use graphs::Kin;

impl<const W: usize> TxGraph<W> {
    /// Leaves in `out` the ancestors of these transactions, each once, in rising order; the transactions are among them. One that isn't in
    /// the level is passed over, and one may be listed twice, as with `GetAncestorsUnion` of Bitcoin Core's `txgraph.h`.
    ///
    /// Takes no memory, and puts `ids` into another order. The work is that of sorting `ids` and what comes out, with a few look-ups for each
    /// of `ids`: each cluster is looked at once. The level may be oversized.
    ///
    /// # Errors
    ///
    /// Where `out` may not have room for the answer it stays as it was. The error is how many transactions the components of these have, and
    /// with room for as many the call succeeds.
    pub fn ancestors_union(
        &mut self,
        level: Level,
        ids: &mut [TxId],
        out: &mut IdBuf,
    ) -> Result<(), usize>
        ensures ids { IsPermutation ids.old ids.new }
        ensures lists { IfOk result (λ _. (state : State) → StandsFor self.old state
            → Lists (IsKinIn Ancestors (level_of state.plain level) ids.old) out.new.ids) }
        ensures room { length out.new.ids + out.new.room ≡ length out.old.ids + out.old.room }
        ensures err { IfErr result (λ needs. (out.new ≡ out.old) × (length out.old.ids + out.old.room < needs)) }
        ensures needs { IfErr result (λ needs. (state : State) → StandsFor self.old state
            → HaveComponentsOf (level_of state.plain level) ids.old needs) }
        ensures same { self.new ≡ self.old }
    {
        self.levels.kin(level, ids, Kin::Ancestors, out)
    }

    /// Leaves in `out` the descendants of these transactions, each once, in rising order; the transactions are among them. One that isn't in
    /// the level is passed over, and one may be listed twice, as with `GetDescendantsUnion` of Bitcoin Core's `txgraph.h`.
    ///
    /// Takes no memory, and puts `ids` into another order. The work is that of sorting `ids` and what comes out, with a few look-ups for each
    /// of `ids`: each cluster is looked at once. The level may be oversized.
    ///
    /// # Errors
    ///
    /// Where `out` may not have room for the answer it stays as it was. The error is how many transactions the components of these have, and
    /// with room for as many the call succeeds.
    pub fn descendants_union(
        &mut self,
        level: Level,
        ids: &mut [TxId],
        out: &mut IdBuf,
    ) -> Result<(), usize>
        ensures ids { IsPermutation ids.old ids.new }
        ensures lists { IfOk result (λ _. (state : State) → StandsFor self.old state
            → Lists (IsKinIn Descendants (level_of state.plain level) ids.old) out.new.ids) }
        ensures room { length out.new.ids + out.new.room ≡ length out.old.ids + out.old.room }
        ensures err { IfErr result (λ needs. (out.new ≡ out.old) × (length out.old.ids + out.old.room < needs)) }
        ensures needs { IfErr result (λ needs. (state : State) → StandsFor self.old state
            → HaveComponentsOf (level_of state.plain level) ids.old needs) }
        ensures same { self.new ≡ self.old }
    {
        self.levels.kin(level, ids, Kin::Descendants, out)
    }

    /// How many components of a level these transactions lie in. One that isn't in the level is passed over, and one may be listed twice, as
    /// with `CountDistinctClusters` of Bitcoin Core's `txgraph.h`. Takes no memory, and puts `ids` into another order. The work is that of
    /// sorting `ids`, with a few look-ups for each. The level may be oversized.
    pub fn count_distinct_clusters(&self, level: Level, ids: &mut [TxId]) -> usize
        ensures ids { IsPermutation ids.old ids.new }
        ensures count { (state : State) → StandsFor self.now state → LieInComponents (level_of state.plain level) ids.old result }
    {
        self.levels.count_clusters(level, ids)
    }
}
