//! A graph beside the mined blocks of its main that can be taken back. Each call is the graph's, and leaves the blocks, but for those that mine
//! a block and take one back.
ghost use Rattle.std.specs.Prelude.{◌≡◌, ◌≢◌, [], ◌+◌, ◌-◌, ◌*◌, ◌^◌, ◌<◌, ◌≤◌, length, None, Some, IfOk, MatchResult};
ghost use Rattle.graph_model.specs.Commands.{Before, Block, Compare, Count, Evict, Mine, Settle, Trim, Unmine};
ghost use Rattle.graph_model.specs.Refusals.{latest_ids};
ghost use Rattle.graph_model.specs.Replies.{Number, built_reply, change_reply, evicted_reply, names_reply, trimmed_reply};
ghost use Rattle.graph_model.specs.States.{State};
ghost use Rattle.tx_graph.specs.Kept as graphs;
ghost use Rattle.tx_graph.specs.Readings.{compare_reply, place_reply, settle_reply};
ghost use Rattle.reorg.specs.Blocks.{unmined_reply};
ghost use Rattle.reorg.specs.Kept.{MakesStep};
ghost use Rattle.graph_model.specs.Commands as commands;
ghost use Rattle.desk.specs.Facts.{Meets};
ghost use Rattle.desk.specs.Finds.{Finds, ShowsIds};
ghost use Rattle.desk.specs.Gatherings.{GathersCorners, GathersOrder, GathersText};
ghost use Rattle.desk.specs.Pools.{IsNew};
ghost use Rattle.desk.specs.Requests.{change_command, search_command};
ghost use Rattle.desk.specs.Unions.{AreInClusters, AreKinOf};
ghost use Rattle.graph_model.specs.Limits.{AreInRange, bounds_of};

use crate::copying::hand_out;
use crate::gathering::{gather_corners, gather_order};
use crate::listing::Listing;
use crate::request::{Change, Search};
use crate::telling::Total;
use crate::uniting::{count_clusters, kin_of};
use block_builder::Builder;
use dump::DumpText;
use eviction::evict;
use graph_model::{IdBuf, IdList, Level, Limits, Picked, Place, Refusal, TxId, Verdict};
use graphs::{Kin, Owned};
use outside::NoMemory;
use reorg::Reorg;
use std::alloc::Global;
use std::marker::Model;
use step_count::{Ledger, Steps};
use trim::trim;
use tx_graph::TxGraph;

/// How many transactions a cluster may have at most.
const MOST_NAMES: usize = 128;

/// A graph, the mined blocks of its main that can be taken back, and room for the transactions of a cluster.
#[derive(Drop)]
pub struct Pool {
    alloc: Global,
    graph: TxGraph<2>,
    reorg: Reorg,
    found: IdBuf,
}

// Clauses see what the graph keeps, and the blocks. There is a state that a pool stands for.
impl Model for Pool {
    ghost use Rattle.reorg.specs.Kept.{Kept, kept_code};
    ghost use Rattle.desk.specs.Pools.{IsPool};

    ghost Value = { Kept };

    ghost coded = { kept_code };

    ghost view = { λ p. record { graph = p.graph; blocks = p.reorg } };

    ghost invariant = { λ p. IsPool (record { graph = p.graph; blocks = p.reorg }) p.found };
}

impl Pool {
    /// A pool without transactions, under these limits.
    pub fn new(alloc: Global, limits: Limits) -> Result<Pool, NoMemory>
        requires { AreInRange 128 (bounds_of limits) }
        ensures { IfOk result (IsNew limits) }
    {
        let graph = TxGraph::new(alloc, limits)?;
        Pool::of_graph(alloc, graph)
    }

    /// A pool of a graph, without mined blocks.
    pub fn of_graph(alloc: Global, graph: TxGraph<2>) -> Result<Pool, NoMemory>
        requires { (state : State) × graphs.StandsFor graph state × (state.plain.blocks ≡ []) }
        ensures { IfOk result (λ pool. pool ≡ record { graph = graph; blocks = [] }) }
    {
        let found = IdBuf::new(alloc, MOST_NAMES)?;
        let reorg = Reorg::new(alloc);
        Ok(Pool {
            alloc,
            graph,
            reorg,
            found,
        })
    }

    /// The graph, to be read.
    pub fn graph(&self) -> &TxGraph<2>
        ensures { result.now ≡ self.now.graph }
    {
        let _alloc = &self.alloc;
        &self.graph
    }

    /// How many additions were made.
    pub fn additions(&self) -> u64
        ensures { result ≡ self.now.graph.levels.issued }
    {
        self.graph.additions()
    }

    /// How many mined blocks can be taken back.
    pub fn blocks(&self) -> usize
        ensures { result ≡ length self.now.blocks }
    {
        self.reorg.count()
    }

    /// How many transactions the latest block has.
    pub fn latest_count(&self) -> usize
        ensures { result ≡ length (latest_ids self.now.blocks) }
    {
        self.reorg.latest_count()
    }

    /// Makes a change of the graph.
    pub fn change<L: Ledger>(&mut self, change: Change, steps: &mut Steps<L>) -> Result<(), Refusal>
        requires { self.old.graph.levels.issued < 2 ^ 64 - 1 }
        ensures { MakesStep self.old self.new (change_command change) (change_reply result) }
    {
        change.make(&mut self.graph, steps)
    }

    /// Takes the transactions of a mined block out of main.
    pub fn mine<L: Ledger>(&mut self, ids: &[TxId], steps: &mut Steps<L>) -> Result<(), Refusal>
        requires { ids.now ≢ [] }
        ensures { MakesStep self.old self.new (Mine ids.now) (change_reply result) }
    {
        self.reorg.mine(&mut self.graph, ids, steps)
    }

    /// What mining these transactions would be refused for, other than want of memory.
    pub fn minable(&mut self, ids: &[TxId]) -> Result<(), Refusal>
        requires { ids.now ≢ [] }
        ensures row { MatchResult result (λ _. Meets self.old (Mine ids.now) None) (λ why. Meets self.old (Mine ids.now) (Some why)) }
        ensures same { self.new ≡ self.old }
    {
        self.graph.minable(ids)
    }

    /// Puts the transactions of the latest block back into main, and tells them.
    pub fn unmine<L: Ledger>(&mut self, steps: &mut Steps<L>) -> Result<IdList, Refusal>
        requires { self.old.graph.levels.issued + length (latest_ids self.old.blocks) ≤ 2 ^ 64 - 1 }
        ensures { MakesStep self.old self.new Unmine (unmined_reply result) }
    {
        self.reorg.unmine(&mut self.graph, steps)
    }

    /// Drops the last part of main's order, and tells it.
    pub fn evict<L: Ledger>(&mut self, steps: &mut Steps<L>) -> Result<Picked, Refusal>
        ensures { MakesStep self.old self.new Evict (evicted_reply result) }
    {
        evict(&mut self.graph, steps)
    }

    /// Cuts the top level back to its limits, and tells what is dropped.
    pub fn trim<L: Ledger>(&mut self, steps: &mut Steps<L>) -> Result<Picked, Refusal>
        ensures { MakesStep self.old self.new Trim (trimmed_reply result) }
    {
        trim(self.alloc, &mut self.graph, steps)
    }

    /// Closes the staging, and tells how it stood to main.
    pub fn settle(&mut self) -> Result<Verdict, Refusal>
        ensures { MakesStep self.old self.new Settle (settle_reply result) }
    {
        self.graph.settle()
    }

    /// How staging stands to main.
    pub fn compare(&self) -> Result<Verdict, Refusal>
        ensures { MakesStep self.now self.now Compare (compare_reply result) }
    {
        self.graph.compare()
    }

    /// Looks for transactions, and copies those that it finds to an array, as many as it has room for. Tells how many there are. Where it
    /// refuses, both stay as they were.
    pub fn find(
        &mut self,
        search: Search,
        out: &mut [TxId],
        count: &mut usize,
    ) -> Result<(), Refusal>
        ensures finds { Finds self.old (search_command search) result out.old out.new count.old count.new }
        ensures same { self.new ≡ self.old }
    {
        let outcome = search.find(&self.graph, &mut self.found);
        show_found(outcome, self.found.ids(), out, count)
    }

    /// The ancestors of these transactions together, or their descendants.
    pub fn kin(&mut self, kin: Kin, level: Level, ids: &[TxId]) -> Result<IdBuf, NoMemory>
        ensures kin { IfOk result (λ found. AreKinOf self.old kin level ids.now found.ids) }
        ensures same { self.new ≡ self.old }
    {
        kin_of(self.alloc, &mut self.graph, kin, level, ids)
    }

    /// How many clusters of a level these transactions lie in.
    pub fn count_clusters(&self, level: Level, ids: &[TxId]) -> Result<usize, NoMemory>
        ensures { IfOk result (λ count. AreInClusters self.now level ids.now count) }
    {
        count_clusters(self.alloc, &self.graph, level, ids)
    }

    /// How many transactions a level has.
    pub fn count(&self, level: Level) -> usize
        ensures { MakesStep self.now self.now (Count level) (Number result) }
    {
        self.graph.count(level)
    }

    /// Where one transaction stands to another in main's order.
    pub fn before(&self, a: TxId, b: TxId) -> Result<Place, Refusal>
        ensures { MakesStep self.now self.now (Before a b) (place_reply result) }
    {
        let place = self.graph.before(a, b);
        place
    }

    /// The block of main of at most so many virtual bytes. Refuses where main is oversized.
    pub fn block(&self, size: u64) -> Result<Picked, Refusal>
        ensures { MakesStep self.now self.now (Block size) (built_reply result) }
    {
        fill_block(self.alloc, &self.graph, size)
    }

    /// The chunks of a level, with their transactions and flows. Refuses where the level is oversized, or where there is no memory.
    pub fn gather_order(&self, level: Level) -> Result<Listing, Refusal>
        ensures { GathersOrder (MakesStep self.now self.now (commands.Order level)) result }
    {
        gather_order(self.alloc, &self.graph, level)
    }

    /// The corners of a level's diagram. Refuses where the level is oversized, or where there is no memory.
    pub fn gather_corners(&self, level: Level) -> Result<Owned<Total>, Refusal>
        ensures { GathersCorners (MakesStep self.now self.now (commands.Diagram level)) result }
    {
        gather_corners(self.alloc, &self.graph, level)
    }

    /// The text of main. Refuses where main is oversized, or where there is no memory.
    pub fn gather_text(&self) -> Result<DumpText, Refusal>
        ensures { GathersText (MakesStep self.now self.now commands.Dump) result }
    {
        gather_text(self.alloc, &self.graph)
    }
}

/// Copies what was found to an array, and tells how many there are, where the search wasn't refused.
fn show_found(
    outcome: Result<(), Refusal>,
    ids: &[TxId],
    out: &mut [TxId],
    count: &mut usize,
) -> Result<(), Refusal>
    ensures same { result ≡ outcome }
    ensures shows { ShowsIds out.old out.new count.old count.new (names_reply outcome ids.now) }
{
    match outcome {
        Ok(()) => {
            hand_out(ids, out);
            *count = ids.len();
            Ok(())
        }
        Err(why) => Err(why),
    }
}

/// The text of a graph's main. Refuses where main is oversized, or where there is no memory.
fn gather_text(alloc: Global, graph: &TxGraph<2>) -> Result<DumpText, Refusal>
    ensures { GathersText (graphs.MakesStep graph.now graph.now commands.Dump) result }
{
    dump::text(alloc, graph)
}

/// The block of main of at most so many virtual bytes. Refuses where main is oversized.
fn fill_block(alloc: Global, graph: &TxGraph<2>, size: u64) -> Result<Picked, Refusal>
    ensures { graphs.MakesStep graph.now graph.now (Block size) (built_reply result) }
{
    if graph.oversized(Level::Main) {
        return Err(Refusal::Oversized);
    }
    match Builder::new(alloc, graph).fill(size) {
        Ok(picked) => Ok(picked),
        Err(_) => Err(Refusal::Memory),
    }
}
