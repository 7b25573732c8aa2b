ghost use Rattle.std.specs.Prelude.{◌≡◌, ◌≢◌, ℕ, ◌+◌, ◌-◌, ◌^◌, ◌<◌, ◌≤◌, [], ◌∷◌, length, take, is_ok, if◌then◌else◌, IfErr, OnOk, MatchResult};
ghost use Rattle.std.specs.VecDeque.{deque_capacity, deque_len};
ghost use Rattle.graph_model.specs.declared.limits.TheConstants.{MAX_BLOCKS};
ghost use Rattle.graph_model.specs.declared.names.Refusal.TheVariants.{Memory};
ghost use Rattle.graph_model.specs.Commands.{Mine, Unmine};
ghost use Rattle.graph_model.specs.Refusals.{latest_ids, latest_of};
ghost use Rattle.graph_model.specs.Replies.{Refused, change_reply};
ghost use Rattle.levels.specs.Lefts.{DropsWithin};
ghost use Rattle.levels.specs.Restores.{RestoresWithin};
ghost use Rattle.levels.specs.Stays.{AllStay};
ghost use Rattle.reorg.specs.Blocks.{AreKept, CanMine, HaveAtMost, RefusesMine, unmined_reply};
ghost use Rattle.reorg.specs.Kept.{MakesStep};

use crate::block::Block;
use crate::making::block_of;
use graph_model::{IdList, MAX_BLOCKS, Refusal, TxId};
use std::alloc::Global;
use std::collections::VecDeque;
use std::marker::Model;
use step_count::{Ledger, Steps};
use tx_graph::TxGraph;

/// The mined blocks of a graph's main that can be taken back: at most 100, the latest first.
///
/// A block is what [`mine`](Reorg::mine) takes out of main: its transactions with their fees and sizes, and of each the other descendants
/// that it has then, so that it gets back those that are there when it comes back. What else happens to the graph leaves the blocks as
/// they are. Fees are in satoshis, sizes in virtual bytes.
#[derive(Drop)]
pub struct Reorg {
    alloc: Global,
    blocks: VecDeque<Block>,
}

// Clauses see the blocks.
impl Model for Reorg {
    ghost use Rattle.std.specs.Prelude.{List};
    ghost use Rattle.std.specs.Coded.{coded_list};
    ghost use Rattle.graph_model.specs.States.{MinedBlock};
    ghost use Rattle.reorg.specs.Blocks.{AreKept};
    ghost use Rattle.reorg.specs.Kept.{block_code};

    ghost Value = { List MinedBlock };

    ghost coded = { coded_list block_code };

    ghost view = { λ a. a.blocks.items };

    ghost invariant = { λ a. AreKept a.blocks.items };
}

impl Reorg {
    /// No block. Takes no memory.
    pub fn new(alloc: Global) -> Reorg
        ensures { result ≡ [] }
    {
        Reorg {
            alloc,
            blocks: VecDeque::new(alloc),
        }
    }

    /// How many blocks can be taken back.
    pub fn count(&self) -> usize
        ensures { result ≡ length self.now }
    {
        self.blocks.len()
    }

    /// How many transactions the latest block has; 0 where there is no block.
    pub fn latest_count(&self) -> usize
        ensures { result ≡ length (latest_ids self.now) }
    {
        match self.blocks.front() {
            Some(block) => block.txs().len(),
            None => 0,
        }
    }

    /// Takes transactions that were mined out of a graph's main, in any order, with their dependencies, and keeps them as the latest block.
    /// The others keep the ancestors that they have among them. Where 100 blocks are kept, the oldest goes. The list isn't empty.
    ///
    /// The block costs what the clusters of the listed transactions do, or all of main where main is oversized. The solver takes at most
    /// the sum of 2·(n+2)^5 steps over the clusters of n transactions that are left of the listed transactions' clusters and are within
    /// the limits, each cluster once. It takes none where the call is refused for another reason than memory.
    ///
    /// # Errors
    ///
    /// Answers the first of these that holds, and leaves the graph and the blocks as they were:
    ///
    /// - [`Refusal::Staging`]: a staging is open.
    /// - [`Refusal::Twice`], with the first listed transaction that stands earlier in the list too.
    /// - [`Refusal::Unknown`], with the first listed transaction that main hasn't.
    /// - [`Refusal::Parent`], with the first listed transaction that has an ancestor in main which isn't listed.
    /// - [`Refusal::Memory`]: there is no memory. Nothing before takes any.
    pub fn mine<L: Ledger, const W: usize>(
        &mut self,
        graph: &mut TxGraph<W>,
        ids: &[TxId],
        steps: &mut Steps<L>,
    ) -> Result<(), Refusal>
        requires { ids.now ≢ [] }
        ensures step { MakesStep (record { graph = graph.old; blocks = self.old })
            (record { graph = graph.new; blocks = self.new }) (Mine ids.now) (change_reply result) }
        ensures sizes { (most : ℕ) → length ids.now ≤ most → HaveAtMost self.old most → HaveAtMost self.new most }
        ensures stays { AllStay graph.old.levels graph.new.levels }
        ensures additions { graph.new.levels.issued ≡ graph.old.levels.issued }
        ensures refused { IfErr result (λ why. why ≢ Memory → steps.new ≡ steps.old) }
        ensures steps { DropsWithin graph.old.levels.limits ids.now graph.old.levels.main.graph steps.old steps.new }
    {
        match prepared(self.alloc, &mut self.blocks, graph, ids) {
            Ok(block) => mine_block(&mut self.blocks, graph, ids, block, steps),
            Err(why) => Err(why),
        }
    }

    /// Puts the transactions of the latest block back into a graph's main, with the fees and sizes that they had, and those of its pairs
    /// whose child is then in main. The block goes. Answers the transactions in the order in which they were listed.
    ///
    /// As many additions can be counted as the block has transactions ([`latest_count`](Reorg::latest_count)). The solver takes at most
    /// the sum of 2·(n+2)^5 steps over the clusters of n transactions that are made and are within the limits. It takes none where the
    /// call is refused for another reason than memory.
    ///
    /// # Errors
    ///
    /// Answers the first of these that holds, and leaves the graph and the blocks as they were:
    ///
    /// - [`Refusal::Staging`]: a staging is open.
    /// - [`Refusal::NoBlock`]: no block is left to take back.
    /// - [`Refusal::Back`], with the first transaction of the block that is in main.
    /// - [`Refusal::Full`]: the live transactions and these together are more than may be.
    /// - [`Refusal::Count`], [`Refusal::ClusterSize`]: no dependency may pass the limits, and main would have a cluster over them. It tells
    ///   the cluster of the first transaction of the block of which that is so: the number of its transactions, where that is over the
    ///   limit, and else its size.
    /// - [`Refusal::Memory`]: there is no memory. It may be answered in place of the two before, but nothing before them takes any.
    pub fn unmine<L: Ledger, const W: usize>(
        &mut self,
        graph: &mut TxGraph<W>,
        steps: &mut Steps<L>,
    ) -> Result<IdList, Refusal>
        requires { graph.old.levels.issued + length (latest_ids self.old) ≤ 2 ^ 64 - 1 }
        ensures step { MakesStep (record { graph = graph.old; blocks = self.old })
            (record { graph = graph.new; blocks = self.new }) Unmine (unmined_reply result) }
        ensures sizes { (most : ℕ) → HaveAtMost self.old most → HaveAtMost self.new most }
        ensures stays { AllStay graph.old.levels graph.new.levels }
        ensures additions { graph.new.levels.issued
            ≡ graph.old.levels.issued + (if is_ok result then length (latest_ids self.old) else 0) }
        ensures refused { IfErr result (λ why. why ≢ Memory → steps.new ≡ steps.old) }
        ensures steps { RestoresWithin graph.old.levels.limits graph.old.levels.main.graph (latest_of self.old).txs
            (latest_of self.old).pairs steps.old steps.new }
    {
        let Some(block) = self.blocks.front() else {
            return Err(refused_without(graph));
        };
        match graph.restore(block.txs(), block.pairs(), steps) {
            Ok(()) => Ok(take_latest(&mut self.blocks)),
            Err(why) => Err(why),
        }
    }
}

/// The block of transactions that can be mined, and room for one block more. Nothing changes. Refuses what can't be mined, and else where there is
/// no memory.
fn prepared<const W: usize>(
    alloc: Global,
    blocks: &mut VecDeque<Block>,
    graph: &mut TxGraph<W>,
    ids: &[TxId],
) -> Result<Block, Refusal>
    requires { ids.now ≢ [] }
    ensures block { MatchResult result (CanMine graph.old ids.now) (RefusesMine graph.old ids.now) }
    ensures same { graph.new ≡ graph.old }
    ensures blocks { blocks.new.items ≡ blocks.old.items }
    ensures room { OnOk result (deque_len blocks.new < deque_capacity blocks.new) }
{
    let _stands = graph.additions();
    if let Err(why) = graph.minable(ids) {
        return Err(why);
    }
    if blocks.reserve(1).is_err() {
        return Err(Refusal::Memory);
    }
    match block_of(alloc, graph, ids) {
        Ok(block) => Ok(block),
        Err(_) => Err(Refusal::Memory),
    }
}

/// Mines the transactions of a block, and puts the block in front, where there is room for it.
fn mine_block<L: Ledger, const W: usize>(
    blocks: &mut VecDeque<Block>,
    graph: &mut TxGraph<W>,
    ids: &[TxId],
    block: Block,
    steps: &mut Steps<L>,
) -> Result<(), Refusal>
    requires some { ids.now ≢ [] }
    requires block { CanMine graph.old ids.now block }
    requires kept { AreKept blocks.old.items }
    requires room { deque_len blocks.old < deque_capacity blocks.old }
    ensures step { MakesStep (record { graph = graph.old; blocks = blocks.old.items })
        (record { graph = graph.new; blocks = blocks.new.items }) (Mine ids.now) (change_reply result) }
    ensures kept { AreKept blocks.new.items }
    ensures sizes { (most : ℕ) → length ids.now ≤ most → HaveAtMost blocks.old.items most → HaveAtMost blocks.new.items most }
    ensures stays { AllStay graph.old.levels graph.new.levels }
    ensures additions { graph.new.levels.issued ≡ graph.old.levels.issued }
    ensures refused { IfErr result (λ why. why ≢ Memory → steps.new ≡ steps.old) }
    ensures steps { DropsWithin graph.old.levels.limits ids.now graph.old.levels.main.graph steps.old steps.new }
{
    let _stands = graph.additions();
    match graph.mine(ids, steps) {
        Ok(()) => {
            put(blocks, block);
            Ok(())
        }
        Err(why) => Err(why),
    }
}

/// Puts a block in front, where there is room for it. Of the others as many stay as are kept.
fn put(blocks: &mut VecDeque<Block>, block: Block)
    requires { deque_len blocks.old < deque_capacity blocks.old }
    ensures { blocks.new.items ≡ take MAX_BLOCKS (block ∷ blocks.old.items) }
{
    blocks.truncate(MAX_BLOCKS - 1);
    blocks.push_front_reserved(block);
}

/// Takes the first block off, and tells its transactions.
fn take_latest(blocks: &mut VecDeque<Block>) -> IdList
    requires { 0 < deque_len blocks.old }
    ensures told { result ≡ latest_ids blocks.old.items }
    ensures left { blocks.old.items ≡ latest_of blocks.old.items ∷ blocks.new.items }
{
    match blocks.pop_front() {
        Some(block) => block.into_ids(),
        None => unreachable!(),
    }
}

/// Why no block can be taken back where there is none.
fn refused_without<const W: usize>(graph: &TxGraph<W>) -> Refusal
    ensures { MakesStep (record { graph = graph.now; blocks = [] }) (record { graph = graph.now; blocks = [] }) Unmine (Refused result) }
{
    if graph.staged() {
        return Refusal::Staging;
    }
    Refusal::NoBlock
}
