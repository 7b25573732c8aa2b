//! What Bitcoin Core's `txgraph.h` asks of main's order beside one chunk and two transactions.
ghost use Rattle.std.specs.Prelude.{◌≡◌, List, MatchResult};
ghost use Rattle.std.specs.List.Sorted.{IsPermutation};
ghost use Rattle.std.specs.Ordering.{nat_cmp};
ghost use Rattle.graphs.specs.Certificates.{Part};
ghost use Rattle.graphs.specs.declared.names.Level.TheVariants.{Main, Top};
ghost use Rattle.graph_model.specs.Answers.{order_of};
ghost use Rattle.graph_model.specs.Commands.{Chunk};
ghost use Rattle.graph_model.specs.Replies.{OnePart, Refused};
ghost use Rattle.graph_model.specs.States.{State, pick_of};
ghost use Rattle.levels.specs.Levels.{IsWithin};
ghost use Rattle.levels.specs.Orders.{AreApart, sums_of};
ghost use Rattle.tx_graph.specs.Kept.{MakesStep, StandsFor};
ghost use Rattle.tx_graph.specs.MainOrder.{place_in, StandInOrder};
ghost use Rattle.tx_graph.specs.Readings.{CompareRefusalIs};

use crate::graph::{TxGraph, needs_orders};
use crate::order::Rates;
use fee_rate::FeeRate;
use graph_model::{Level, Place, Refusal, TxId};
use std::cmp::Ordering;

impl<const W: usize> TxGraph<W> {
    /// The fee, in satoshis, and the size, in virtual bytes, of the chunk of main's order that has a transaction, as with
    /// `GetMainChunkFeerate` of Bitcoin Core's `txgraph.h`. Takes no memory.
    ///
    /// # Errors
    ///
    /// Answers the first of these that holds:
    ///
    /// - [`Refusal::Unknown`]: the transaction isn't in main.
    /// - [`Refusal::Oversized`]: main is oversized.
    pub fn main_chunk_rate(&self, id: TxId) -> Result<FeeRate, Refusal>
        ensures { MatchResult result
            (λ rate. (part : Part) × MakesStep self.now self.now (Chunk id) (OnePart part) × (part.rate ≡ record { fee = rate.fee; size = rate.size }))
            (λ why. MakesStep self.now self.now (Chunk id) (Refused why)) }
    {
        let part = self.chunk(id)?;
        Ok(part.rate)
    }

    /// Puts transactions into main's order; those that aren't in main come last. So does `CompareMainOrder` of Bitcoin Core's `txgraph.h`
    /// for two of them. A transaction may be listed twice. Main isn't oversized. Takes no memory.
    pub fn sort_by_main_order(&self, ids: &mut [TxId])
        requires within { IsWithin self.now.levels Main }
        ensures ids { IsPermutation ids.old ids.new }
        ensures sorted { (state : State) → StandsFor self.now state
            → (pick : List Part) × (pick_of state.picks Main ≡ Some pick) × StandInOrder (order_of pick) ids.new }
    {
        let _levels = &self.levels;
        ids.sort_unstable_by(
            |a: &TxId, b: &TxId| -> Ordering
                requires { IsWithin self.now.levels Main }
                ensures places { result ≡ nat_cmp (place_in (order_of self.entry.now.levels.main.parts) a.now)
                    (place_in (order_of self.entry.now.levels.main.parts) b.now) }
                ensures same { self.exit ≡ self.entry }
            { self.compare_in_main(*a, *b) },
        );
    }

    // Which of two transactions stands first in main's order. One that isn't in main stands behind those that are.
    fn compare_in_main(&self, a: TxId, b: TxId) -> Ordering
        requires { IsWithin self.now.levels Main }
        ensures { result ≡ nat_cmp (place_in (order_of self.now.levels.main.parts) a) (place_in (order_of self.now.levels.main.parts) b) }
    {
        let first = self.levels.has(Level::Main, a);
        let second = self.levels.has(Level::Main, b);
        if !second {
            if first {
                return Ordering::Less;
            }
            return Ordering::Equal;
        }
        if !first {
            return Ordering::Greater;
        }
        match self.levels.place(a, b) {
            Place::Before => Ordering::Less,
            Place::Same => Ordering::Equal,
            Place::After => Ordering::Greater,
        }
    }

    /// The fees, in satoshis, and sizes, in virtual bytes, of the chunks of the clusters that main alone has, and of those that staging alone
    /// has, each in its level's order: the two sides of a replacement, as with `GetMainStagingDiagrams` of Bitcoin Core's `txgraph.h`. All
    /// other chunks are the same in both levels. Takes no memory, and costs nothing but the chunks that are told.
    ///
    /// # Errors
    ///
    /// Answers the first of these that holds:
    ///
    /// - [`Refusal::NoStaging`]: no staging is open.
    /// - [`Refusal::Oversized`]: main or staging is oversized.
    pub fn main_staging_diagrams(&self) -> Result<(Rates<'_>, Rates<'_>), Refusal>
        ensures { MatchResult result
            (λ walks. (state : State) → StandsFor self.now state → (main top main_alone top_alone : List Part)
            × (pick_of state.picks Main ≡ Some main) × (pick_of state.picks Top ≡ Some top) × AreApart main top main_alone top_alone
            × (walks.0 ≡ sums_of main_alone) × (walks.1 ≡ sums_of top_alone))
            (λ why. CompareRefusalIs self.now.levels (Some why)) }
    {
        needs_orders(&self.levels)?;
        Ok(self.levels.alone())
    }
}
