//! The calls of a graph, which the tests of graphs make.

use fee_rate::FeeRate;
use graph_model::{IdBuf, Level, Limits, Refusal, TxId, Verdict};
use std::alloc::Global;
use std::process::Abort;
use std::test::Fail;
use step_count::{Ledger, Steps};
use tx_graph::TxGraph;

const ROOMY: Limits = Limits {
    count: 64,
    size: 404_000,
    total: 100_000,
    defer: false,
};

// A call of the graph. `Cluster`, `Ancestors` and `Descendants` are of main, `Top` is the cluster of the top level.
#[derive(Clone, Copy, Debug)]
pub(crate) enum Call {
    Limits(u64, u64, u64),
    Add(TxId, i64, u64),
    Dep(TxId, TxId),
    Fee(TxId, i64),
    Remove(TxId),
    Mine(&'static [TxId]),
    Evict,
    Cluster(TxId),
    Ancestors(TxId),
    Descendants(TxId),
    Top(TxId),
    Stage,
    Commit,
    Abort,
}

// A graph of either width. The functions here know which: a function over a width that it doesn't know costs ten times
// as much to prove.
#[derive(Drop)]
pub(crate) enum Graph {
    One(TxGraph<1>),
    Two(TxGraph<2>),
}

// The graph's own calls stand in functions without clauses. No test needs more of their contracts, which would cost
// each of them its proof.

fn begun_one(alloc: Global) -> Result<Graph, Fail> {
    Ok(Graph::One(TxGraph::<1>::new(alloc, ROOMY)?))
}

fn begun_two(alloc: Global) -> Result<Graph, Fail> {
    Ok(Graph::Two(TxGraph::<2>::new(alloc, ROOMY)?))
}

pub(crate) fn begun(alloc: Global, is_wide: bool) -> Result<Graph, Fail> {
    match is_wide {
        true => begun_two(alloc),
        false => begun_one(alloc),
    }
}

// Lets a graph go. Its owners hand it here: what lets one go pays for it in its proof. Over any width it is proved once.
fn done_with<const W: usize>(_graph: TxGraph<W>) {}

pub(crate) fn done(graph: Graph) {
    match graph {
        Graph::One(graph) => done_with(graph),
        Graph::Two(graph) => done_with(graph),
    }
}

// The graph of a test that has no wide one.
pub(crate) fn narrow<'a>(rt: &impl Abort, graph: &'a Graph) -> &'a TxGraph<1> {
    match graph {
        Graph::One(graph) => graph,
        Graph::Two(_) => panic!(rt; "a wide graph"),
    }
}

pub(crate) fn narrow_mut<'a>(rt: &impl Abort, graph: &'a mut Graph) -> &'a mut TxGraph<1> {
    match graph {
        Graph::One(graph) => graph,
        Graph::Two(_) => panic!(rt; "a wide graph"),
    }
}

fn limit(graph: &mut TxGraph<1>, limits: Limits) -> Result<(), Refusal> {
    graph.set_limits(limits)
}

fn add_one<L: Ledger>(
    rt: &impl Abort,
    graph: &mut TxGraph<1>,
    id: TxId,
    fee: i64,
    size: u64,
    steps: &mut Steps<L>,
) -> Result<(), Refusal> {
    assert!(rt; graph.additions() < 1_000);
    graph.add(id, fee, size, steps)
}

fn add_two<L: Ledger>(
    rt: &impl Abort,
    graph: &mut TxGraph<2>,
    id: TxId,
    fee: i64,
    size: u64,
    steps: &mut Steps<L>,
) -> Result<(), Refusal> {
    assert!(rt; graph.additions() < 1_000);
    graph.add(id, fee, size, steps)
}

fn add<L: Ledger>(
    rt: &impl Abort,
    graph: &mut Graph,
    id: TxId,
    fee: i64,
    size: u64,
    steps: &mut Steps<L>,
) -> Result<(), Refusal> {
    match graph {
        Graph::One(graph) => add_one(rt, graph, id, fee, size, steps),
        Graph::Two(graph) => add_two(rt, graph, id, fee, size, steps),
    }
}

fn dep<L: Ledger>(
    graph: &mut Graph,
    parent: TxId,
    child: TxId,
    steps: &mut Steps<L>,
) -> Result<(), Refusal> {
    match graph {
        Graph::One(graph) => graph.dep(parent, child, steps),
        Graph::Two(graph) => graph.dep(parent, child, steps),
    }
}

fn fee<L: Ledger>(
    graph: &mut Graph,
    id: TxId,
    fee: i64,
    steps: &mut Steps<L>,
) -> Result<(), Refusal> {
    match graph {
        Graph::One(graph) => graph.fee(id, fee, steps),
        Graph::Two(graph) => graph.fee(id, fee, steps),
    }
}

fn remove<L: Ledger>(graph: &mut Graph, id: TxId, steps: &mut Steps<L>) -> Result<(), Refusal> {
    match graph {
        Graph::One(graph) => graph.remove(id, steps),
        Graph::Two(graph) => graph.remove(id, steps),
    }
}

fn mine<L: Ledger>(
    rt: &impl Abort,
    graph: &mut TxGraph<1>,
    ids: &[TxId],
    steps: &mut Steps<L>,
) -> Result<(), Refusal> {
    assert!(rt; ids.len() > 0);
    graph.mine(ids, steps)
}

// Lists the names that were dropped.
fn evict<L: Ledger>(
    rt: &impl Abort,
    graph: &mut TxGraph<1>,
    out: &mut IdBuf,
    steps: &mut Steps<L>,
) -> Result<(), Refusal> {
    let picked = graph.drop_last(steps)?;
    for id in picked.ids.as_slice() {
        assert!(rt; out.ids().len() < out.capacity());
        out.push(*id);
    }
    Ok(())
}

fn cluster(
    rt: &impl Abort,
    graph: &Graph,
    level: Level,
    id: TxId,
    out: &mut IdBuf,
) -> Result<(), Refusal> {
    assert!(rt; out.capacity() >= 128);
    match graph {
        Graph::One(graph) => graph.cluster(level, id, out),
        Graph::Two(graph) => graph.cluster(level, id, out),
    }
}

fn ancestors(rt: &impl Abort, graph: &Graph, id: TxId, out: &mut IdBuf) -> Result<(), Refusal> {
    assert!(rt; out.capacity() >= 128);
    match graph {
        Graph::One(graph) => graph.ancestors(Level::Main, id, out),
        Graph::Two(graph) => graph.ancestors(Level::Main, id, out),
    }
}

fn descendants(rt: &impl Abort, graph: &Graph, id: TxId, out: &mut IdBuf) -> Result<(), Refusal> {
    assert!(rt; out.capacity() >= 128);
    match graph {
        Graph::One(graph) => graph.descendants(Level::Main, id, out),
        Graph::Two(graph) => graph.descendants(Level::Main, id, out),
    }
}

fn stage(graph: &mut TxGraph<1>) -> Result<(), Refusal> {
    graph.stage()
}

fn commit(graph: &mut TxGraph<1>) -> Result<(), Refusal> {
    graph.commit()
}

fn abort(graph: &mut TxGraph<1>) -> Result<(), Refusal> {
    graph.abort()
}

pub(crate) fn verdict(graph: &TxGraph<1>) -> Result<Verdict, Refusal> {
    graph.compare()
}

pub(crate) fn settle(graph: &mut TxGraph<1>) -> Result<Verdict, Refusal> {
    graph.settle()
}

pub(crate) fn is_staged(graph: &TxGraph<1>) -> bool {
    graph.staged()
}

pub(crate) fn sums(graph: &Graph, id: TxId) -> Option<FeeRate> {
    match graph {
        Graph::One(graph) => graph.sums(id),
        Graph::Two(graph) => graph.sums(id),
    }
}

pub(crate) fn is_in_main(graph: &Graph, id: TxId) -> bool {
    match graph {
        Graph::One(graph) => graph.exists(Level::Main, id),
        Graph::Two(graph) => graph.exists(Level::Main, id),
    }
}

pub(crate) fn count(graph: &Graph) -> usize {
    match graph {
        Graph::One(graph) => graph.count(Level::Main),
        Graph::Two(graph) => graph.count(Level::Main),
    }
}

// Whether main's diagram has these corners.
pub(crate) fn has_corners(graph: &TxGraph<1>, points: &[(u64, i128)]) -> bool {
    !graph.oversized(Level::Main) && graph.diagram(Level::Main).eq(points.iter().copied())
}

// Whether main's order begins with a part of these names.
pub(crate) fn begins_with(graph: &TxGraph<1>, ids: &[TxId]) -> bool {
    if graph.oversized(Level::Main) {
        return false;
    }
    match graph.order(Level::Main).next() {
        Some(part) => part.ids == ids,
        None => false,
    }
}

// Makes a call, which leaves the names that it lists in `out`, and none where it lists none.
pub(crate) fn make<L: Ledger>(
    rt: &impl Abort,
    graph: &mut Graph,
    call: Call,
    out: &mut IdBuf,
    steps: &mut Steps<L>,
) -> Result<(), Refusal> {
    out.clear();
    match call {
        Call::Limits(count, size, total) => limit(
            narrow_mut(rt, graph),
            Limits {
                count,
                size,
                total,
                defer: false,
            },
        ),
        Call::Add(id, fee, size) => add(rt, graph, id, fee, size, steps),
        Call::Dep(parent, child) => dep(graph, parent, child, steps),
        Call::Fee(id, paid) => fee(graph, id, paid, steps),
        Call::Remove(id) => remove(graph, id, steps),
        Call::Mine(ids) => mine(rt, narrow_mut(rt, graph), ids, steps),
        Call::Evict => evict(rt, narrow_mut(rt, graph), out, steps),
        Call::Cluster(id) => cluster(rt, graph, Level::Main, id, out),
        Call::Ancestors(id) => ancestors(rt, graph, id, out),
        Call::Descendants(id) => descendants(rt, graph, id, out),
        Call::Top(id) => cluster(rt, graph, Level::Top, id, out),
        Call::Stage => stage(narrow_mut(rt, graph)),
        Call::Commit => commit(narrow_mut(rt, graph)),
        Call::Abort => abort(narrow_mut(rt, graph)),
    }
}
