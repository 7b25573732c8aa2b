ghost use Rattle.std.specs.Prelude.{◌≡◌, ◌<◌, ◌≤◌};
ghost use Rattle.graphs.specs.declared.names.Level.TheVariants.{Main};
ghost use Rattle.levels.specs.Levels.{IsWithin};

use block_builder::Builder;
use eviction::evict;
use graph_model::{DEFAULT_LIMITS, Level, Picked, Refusal, TxId, Verdict};
use outside::NoMemory;
use std::alloc::Global;
use std::sync::ledger;
use std::sync::ledger::Blank;
use step_count::{Counted, Ledger, Steps};
use tx_graph::TxGraph;

/// What the calls of a day answered.
#[derive(Drop)]
pub struct Day {
    /// how the replacement's diagram stands to the one before it
    pub verdict: Verdict,
    /// the transactions of a block that is filled chunk by chunk
    pub by_hand: Vec<TxId>,
    /// the block that one call fills
    pub block: Picked,
    /// the worst chunk, which went
    pub evicted: Picked,
    /// how many transactions are left
    pub left: usize,
}

/// A day of a mempool whose clusters have at most 64 transactions, and how many steps the solver took.
pub fn live_through<K: ledger::Ledger>(alloc: Global, blank: Blank) -> (Result<Day, Refusal>, u64)
    requires name { blank.name ≡ K.name }
    requires parts { blank.parts ≡ K.parts }
    requires some { 0 < blank.parts }
{
    let mut steps = Steps::new(Counted::<K>::new(blank));
    let day = match TxGraph::<1>::new(alloc, DEFAULT_LIMITS) {
        Ok(graph) => spend(alloc, graph, &mut steps),
        Err(_) => Err(Refusal::Memory),
    };
    (day, steps.ledger().shown())
}

/// A day of a graph, which is let go at its end.
fn spend<L: Ledger>(
    alloc: Global,
    mut graph: TxGraph<1>,
    steps: &mut Steps<L>,
) -> Result<Day, Refusal>
    requires { graph.levels.issued ≡ 0 }
{
    let day = live(alloc, &mut graph, steps);
    drop(graph);
    day
}

fn live<L: Ledger>(
    alloc: Global,
    graph: &mut TxGraph<1>,
    steps: &mut Steps<L>,
) -> Result<Day, Refusal>
    requires { graph.old.levels.issued ≡ 0 }
{
    receive(graph, steps)?;
    let verdict = replace(graph, steps)?;
    // What reads main's order asks that main isn't oversized. With the limits at the start it never is.
    if graph.oversized(Level::Main) {
        return Err(Refusal::Oversized);
    }
    let (by_hand, block) = match fill(alloc, graph) {
        Ok(blocks) => blocks,
        Err(_) => return Err(Refusal::Memory),
    };
    let evicted = evict(graph, steps)?;
    Ok(Day {
        verdict,
        by_hand,
        block,
        evicted,
        left: graph.count(Level::Main),
    })
}

/// A package comes in: a parent that pays little, and a child that pays for it. Two others depend on nothing.
fn receive<L: Ledger>(graph: &mut TxGraph<1>, steps: &mut Steps<L>) -> Result<(), Refusal>
    requires { graph.old.levels.issued ≡ 0 }
    ensures { graph.new.levels.issued ≤ 4 }
{
    graph.add(1, 100, 200, steps)?;
    graph.add(2, 900, 200, steps)?;
    graph.dep(1, 2, steps)?;
    graph.add(3, 500, 500, steps)?;
    graph.add(4, 150, 300, steps)
}

/// Transaction 3 is replaced by one that pays more, where the whole diagram is better then.
fn replace<L: Ledger>(graph: &mut TxGraph<1>, steps: &mut Steps<L>) -> Result<Verdict, Refusal>
    requires { graph.old.levels.issued ≤ 4 }
{
    graph.stage()?;
    graph.remove(3, steps)?;
    graph.add(5, 1_500, 500, steps)?;
    graph.settle()
}

/// A block that is filled chunk by chunk, and the same by one call.
fn fill(alloc: Global, graph: &TxGraph<1>) -> Result<(Vec<TxId>, Picked), NoMemory>
    requires { IsWithin graph.now.levels Main }
{
    let by_hand = fill_by_hand(alloc, graph)?;
    let block = Builder::new(alloc, graph).fill(1_000)?;
    Ok((by_hand, block))
}

/// A block as a miner fills it who looks at each chunk: what fits into 1,000 virtual bytes is included.
fn fill_by_hand(alloc: Global, graph: &TxGraph<1>) -> Result<Vec<TxId>, NoMemory>
    requires { IsWithin graph.now.levels Main }
{
    let mut ids = Vec::new(alloc);
    let mut left = 1_000;
    let mut builder = Builder::new(alloc, graph);
    while let Some(chunk) = builder.current() {
        if chunk.rate.size > left {
            builder.skip()?;
            continue;
        }
        ids.extend_from_slice(chunk.ids)?;
        left -= chunk.rate.size;
        builder.include();
    }
    Ok(ids)
}
