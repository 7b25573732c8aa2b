//! A graph beside the mined blocks of its main. Each call is the graph's, and leaves the blocks, but for those that mine a block and take
//! one back.
ghost use Rattle.std.specs.Prelude.{◌≡◌, ◌≢◌, [], ◌+◌, ◌-◌, ◌*◌, ◌^◌, ◌<◌, ◌≤◌, length, IfOk};
ghost use Rattle.graphs.specs.declared.names.Level.TheVariants.{Main};
ghost use Rattle.graph_model.specs.Commands.{Before, Block, Compare, Count, Evict, Mine, Settle, Trim, Unmine};
ghost use Rattle.graph_model.specs.Replies.{Number, built_reply, change_reply, evicted_reply, names_reply, trimmed_reply};
ghost use Rattle.graph_model.specs.States.{State, start};
ghost use Rattle.tx_graph.specs.Kept as graphs;
ghost use Rattle.tx_graph.specs.Readings.{compare_reply, place_reply, settle_reply};
ghost use Rattle.reorg.specs.Blocks.{unmined_reply};
ghost use Rattle.reorg.specs.Kept.{MakesStep, StandsFor};
ghost use Rattle.mempool.specs.Pools.{most_raised};
ghost use Rattle.mempool.specs.Requests.{change_command, search_command};

use crate::request::{Change, Search};
use block_builder::Builder;
use eviction::evict;
use graph_model::{DEFAULT_LIMITS, IdBuf, IdList, Level, Picked, Place, Refusal, TxId, Verdict};
use outside::NoMemory;
use reorg::Reorg;
use std::alloc::Global;
use std::marker::Model;
use step_count::{Ledger, Steps};
use trim::trim;
use tx_graph::TxGraph;

/// A transaction graph, and the mined blocks of its main that can be taken back: at most 100, each of at most 32,766 transactions.
///
/// A call that is refused leaves both as they were. The solver counts its steps in the caller's ledger, at most as many as the graph's call
/// of the same name promises.
#[derive(Drop)]
pub struct Mempool<const W: usize> {
    alloc: Global,
    graph: TxGraph<W>,
    reorg: Reorg,
}

// Clauses see what the graph keeps, and the blocks. A block has no more names than a line may list, and there is a state that a pool
// stands for.
impl<const W: usize> Model for Mempool<W> {
    ghost use Rattle.reorg.specs.Kept.{Kept, kept_code};
    ghost use Rattle.mempool.specs.Pools.{IsPool};

    ghost Value = { Kept };

    ghost coded = { kept_code };

    ghost view = { λ p. record { graph = p.graph; blocks = p.reorg } };

    ghost invariant = { λ p. IsPool (record { graph = p.graph; blocks = p.reorg }) };
}

impl<const W: usize> Mempool<W> {
    /// No transactions and no blocks, under the limits at the start. Fails where there is no memory.
    pub fn new(alloc: Global) -> Result<Mempool<W>, NoMemory>
        requires wide { 1 ≤ W }
        requires narrow { W ≤ 2 }
        ensures start { IfOk result (λ pool. StandsFor pool (start (64 * W))) }
        ensures additions { IfOk result (λ pool. pool.graph.levels.issued ≡ 0) }
    {
        let graph = TxGraph::new(alloc, DEFAULT_LIMITS)?;
        let reorg = Reorg::new(alloc);
        Ok(Mempool {
            alloc,
            graph,
            reorg,
        })
    }

    /// A graph without blocks. Takes no memory.
    pub fn of(alloc: Global, graph: TxGraph<W>) -> Mempool<W>
        requires stands { (state : State) × graphs.StandsFor graph state × (state.plain.blocks ≡ []) }
        ensures { result ≡ record { graph = graph.entry; blocks = [] } }
    {
        let reorg = Reorg::new(alloc);
        Mempool {
            alloc,
            graph,
            reorg,
        }
    }

    /// The graph, to be read.
    pub fn graph(&self) -> &TxGraph<W>
        ensures graph { result.now ≡ self.now.graph }
        ensures stands { (state : State) × StandsFor self.now state }
    {
        &self.graph
    }

    /// What memory comes from.
    pub fn alloc(&self) -> Global {
        let _graph = &self.graph;
        self.alloc
    }

    /// Makes a change of the graph. At least one addition can still be counted.
    ///
    /// # Errors
    ///
    /// The refusals of the graph's call that makes the change.
    pub fn change<L: Ledger>(&mut self, change: Change, steps: &mut Steps<L>) -> Result<(), Refusal>
        requires few { self.old.graph.levels.issued < 2 ^ 64 - 1 }
        ensures step { MakesStep self.old self.new (change_command change) (change_reply result) }
        ensures additions { self.new.graph.levels.issued ≤ self.old.graph.levels.issued + 1 }
    {
        change.make(&mut self.graph, steps)
    }

    /// Takes the transactions of a mined block out of main, in any order, and keeps them as the latest block. The list isn't empty.
    ///
    /// # Errors
    ///
    /// The refusals of [`Reorg::mine`].
    pub fn mine<L: Ledger>(&mut self, ids: &[TxId], steps: &mut Steps<L>) -> Result<(), Refusal>
        requires some { ids.now ≢ [] }
        requires few { length ids.now ≤ most_raised }
        ensures step { MakesStep self.old self.new (Mine ids.now) (change_reply result) }
        ensures additions { self.new.graph.levels.issued ≡ self.old.graph.levels.issued }
    {
        self.reorg.mine(&mut self.graph, ids, steps)
    }

    /// Puts the transactions of the latest block back into main, and tells them as they were listed. As many additions as a block may have
    /// transactions can still be counted.
    ///
    /// # Errors
    ///
    /// The refusals of [`Reorg::unmine`].
    pub fn unmine<L: Ledger>(&mut self, steps: &mut Steps<L>) -> Result<IdList, Refusal>
        requires few { self.old.graph.levels.issued + most_raised ≤ 2 ^ 64 - 1 }
        ensures step { MakesStep self.old self.new Unmine (unmined_reply result) }
        ensures additions { self.new.graph.levels.issued ≤ self.old.graph.levels.issued + most_raised }
    {
        self.reorg.unmine(&mut self.graph, steps)
    }

    /// Drops the last chunk of main's order, and tells it: its fee, size and transactions.
    ///
    /// # Errors
    ///
    /// The refusals of [`evict`].
    pub fn evict<L: Ledger>(&mut self, steps: &mut Steps<L>) -> Result<Picked, Refusal>
        ensures step { MakesStep self.old self.new Evict (evicted_reply result) }
        ensures additions { self.new.graph.levels.issued ≡ self.old.graph.levels.issued }
    {
        evict(&mut self.graph, steps)
    }

    /// Cuts the top level back to its limits, and tells what is dropped: the sums, and the transactions in rising order.
    ///
    /// # Errors
    ///
    /// The refusals of [`trim`].
    pub fn trim<L: Ledger>(
        &mut self,
        alloc: Global,
        steps: &mut Steps<L>,
    ) -> Result<Picked, Refusal>
        ensures step { MakesStep self.old self.new Trim (trimmed_reply result) }
        ensures additions { self.new.graph.levels.issued ≡ self.old.graph.levels.issued }
    {
        trim(alloc, &mut self.graph, steps)
    }

    /// Closes the staging, and tells how it stood to main: it is committed where it was better, and else dropped. Takes no memory.
    ///
    /// # Errors
    ///
    /// The refusals of [`TxGraph::settle`].
    pub fn settle(&mut self) -> Result<Verdict, Refusal>
        ensures step { MakesStep self.old self.new Settle (settle_reply result) }
        ensures additions { self.new.graph.levels.issued ≡ self.old.graph.levels.issued }
    {
        self.graph.settle()
    }

    /// How staging stands to main. Takes no memory.
    ///
    /// # Errors
    ///
    /// The refusals of [`TxGraph::compare`].
    pub fn compare(&self) -> Result<Verdict, Refusal>
        ensures step { MakesStep self.now self.now Compare (compare_reply result) }
    {
        self.graph.compare()
    }

    /// Leaves the transactions that are looked for in `ids`, in rising order, where there is room for those of a cluster. Takes no memory.
    ///
    /// # Errors
    ///
    /// The refusals of the graph's call.
    pub fn find(&self, search: Search, ids: &mut IdBuf) -> Result<(), Refusal>
        requires room { 64 * W ≤ length ids.old.ids + ids.old.room }
        ensures step { MakesStep self.now self.now (search_command search) (names_reply result ids.new.ids) }
        ensures room { length ids.new.ids + ids.new.room ≡ length ids.old.ids + ids.old.room }
    {
        search.find(&self.graph, ids)
    }

    /// How many transactions a level has.
    pub fn count(&self, level: Level) -> u64
        ensures step { MakesStep self.now self.now (Count level) (Number result) }
    {
        self.graph.count(level) as u64
    }

    /// Where one transaction stands to another in main's order. Takes no memory.
    ///
    /// # Errors
    ///
    /// The refusals of [`TxGraph::before`].
    pub fn before(&self, a: TxId, b: TxId) -> Result<Place, Refusal>
        ensures step { MakesStep self.now self.now (Before a b) (place_reply result) }
    {
        let place = self.graph.before(a, b);
        place
    }

    /// The block of main of at most so many virtual bytes: what [`Builder::fill`] takes.
    ///
    /// # Errors
    ///
    /// [`Refusal::Oversized`] where main is oversized, and else [`Refusal::Memory`] where there is no memory.
    pub fn block(&self, alloc: Global, size: u64) -> Result<Picked, Refusal>
        ensures step { MakesStep self.now self.now (Block size) (built_reply result) }
    {
        fill_block(alloc, &self.graph, size)
    }
}

/// The block of main of at most so many virtual bytes. Refuses where main is oversized.
fn fill_block<const W: usize>(
    alloc: Global,
    graph: &TxGraph<W>,
    size: u64,
) -> Result<Picked, Refusal>
    ensures step { graphs.MakesStep graph.now graph.now (Block size) (built_reply result) }
{
    if graph.oversized(Level::Main) {
        return Err(Refusal::Oversized);
    }
    match Builder::new(alloc, graph).fill(size) {
        Ok(picked) => Ok(picked),
        Err(_) => Err(Refusal::Memory),
    }
}
