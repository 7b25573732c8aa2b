//! The graphs of the tests: four chains of six, in which the parent of `id` is `id - 4`.

use graph_model::{DEFAULT_LIMITS, Level, Limits, TxId};
use std::alloc::Global;
use std::process::Abort;
use std::test::Fail;
use step_count::{Ledger, Steps};
use tx_graph::TxGraph;

pub(crate) const LAST: TxId = 24;

// Limits that a chain of six passes: the graph is oversized.
pub(crate) const NARROW: Limits = Limits {
    count: 4,
    size: 404_000,
    total: 100,
    defer: true,
};

pub(crate) const ROOMY: Limits = DEFAULT_LIMITS;

fn add<L: Ledger>(rt: &impl Abort, graph: &mut TxGraph<1>, id: TxId, steps: &mut Steps<L>) {
    assert!(rt; graph.additions() < 1_000);
    let done = graph.add(id, (id.wrapping_mul(37) % 101) as i64, 100 + id % 3, steps);
    assert!(rt; done.is_ok());
}

fn link<L: Ledger>(rt: &impl Abort, graph: &mut TxGraph<1>, id: TxId, steps: &mut Steps<L>) {
    let done = graph.dep(id.wrapping_sub(4), id, steps);
    assert!(rt; done.is_ok());
}

// Four chains of six under these limits.
pub(crate) fn chains<L: Ledger>(
    rt: &impl Abort,
    alloc: Global,
    limits: Limits,
    steps: &mut Steps<L>,
) -> Result<TxGraph<1>, Fail> {
    let mut graph = begun(alloc)?;
    let set = graph.set_limits(limits);
    assert!(rt; set.is_ok());
    for id in 1..=LAST {
        add(rt, &mut graph, id, steps);
    }
    for id in 5..=LAST {
        link(rt, &mut graph, id, steps);
    }
    Ok(graph)
}

fn begun(alloc: Global) -> Result<TxGraph<1>, Fail> {
    Ok(TxGraph::<1>::new(alloc, ROOMY)?)
}

// Opens a staging in which the chain of 4 is cut below 12: it loses 16.
pub(crate) fn cut<L: Ledger>(rt: &impl Abort, graph: &mut TxGraph<1>, steps: &mut Steps<L>) {
    let staged = graph.stage();
    assert!(rt; staged.is_ok());
    let gone = graph.remove(16, steps);
    assert!(rt; gone.is_ok());
    assert!(rt; graph.exists(Level::Main, 16));
}

// Lets a graph go: over any width it is proved once.
pub(crate) fn done<const W: usize>(_graph: TxGraph<W>) {}
