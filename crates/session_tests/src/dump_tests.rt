ghost use Rattle.std.specs.Prelude.{◌≡◌, ◌<◌};

use dump::{DumpText, LoadFault, load, text};
use graph_model::{DEFAULT_LIMITS, Level, Limits, TxId};
use std::alloc::Global;
use std::marker::Brand;
use std::process::Abort;
use std::sync::ledger;
use std::sync::ledger::Blank;
use std::test::Fail;
use step_count::{Ledger, NoLedger, Steps};
use tx_graph::TxGraph;

/// Texts, whether a dependency may pass the limits under which they are loaded, and what comes of it: of a cluster two transactions, a size
/// of 20, and of a graph three transactions.
const LOADS: [(&str, bool, Option<LoadFault>); 12] = [
    ("end\n", false, None),
    ("tx 1 5 20\nend\n", false, None),
    ("tx 1 5 21\nend\n", false, Some(LoadFault::Limits)),
    ("tx 1 5 21\nend\n", true, Some(LoadFault::Limits)),
    (
        "tx 1 5 10\ntx 2 5 11\nedge 1 2\nend\n",
        false,
        Some(LoadFault::Limits),
    ),
    ("tx 1 5 10\ntx 2 5 11\nedge 1 2\nend\n", true, None),
    (
        "tx 1 5 1\ntx 2 5 1\ntx 3 5 1\nedge 1 2\nedge 2 3\nend\n",
        false,
        Some(LoadFault::Limits),
    ),
    (
        "tx 1 5 1\ntx 2 5 1\ntx 3 5 1\ntx 4 5 1\nend\n",
        true,
        Some(LoadFault::Limits),
    ),
    (
        "tx 1 5 1\ntx 2 5 1\nedge 1 2\nedge 2 1\nend\n",
        false,
        Some(LoadFault::Graph),
    ),
    ("tx 1 5 1\nedge 1 9\nend\n", false, Some(LoadFault::Graph)),
    ("tx 1 5 1\r\nend\n", false, Some(LoadFault::Syntax)),
    ("tx 1 5 1\nend\n\n", false, Some(LoadFault::Syntax)),
];

/// The next of some numbers that follow from each other.
fn next(seed: u64) -> u64 {
    seed.wrapping_mul(6_364_136_223_846_793_005)
        .wrapping_add(1_442_695_040_888_963_407)
}

/// Adds a transaction, and dependencies of it on others, as far as they are accepted.
fn grow<L: Ledger>(rt: &impl Abort, graph: &mut TxGraph<2>, drawn: u64, steps: &mut Steps<L>) {
    assert!(rt; graph.additions() < 1_000);
    let id = (drawn >> 20) % 97;
    let fee = ((drawn >> 30) % 2_000) as i64 - 300;
    let _added = graph.add(id, fee, 1 + (drawn >> 40) % 500, steps);
    let _one = graph.dep((drawn >> 13) % 97, id, steps);
    let _other = graph.dep((drawn >> 5) % 97, id, steps);
}

/// Grows a graph by numbers that follow from a seed.
fn draw<L: Ledger>(rt: &impl Abort, graph: &mut TxGraph<2>, seed: u64, steps: &mut Steps<L>) {
    let mut drawn = seed;
    for _ in 0..120u64 {
        drawn = next(drawn);
        grow(rt, graph, drawn, steps);
    }
}

/// The text of main.
fn dumped(rt: &impl Abort, alloc: Global, graph: &TxGraph<2>) -> DumpText {
    match text(alloc, graph) {
        Ok(text) => text,
        Err(why) => panic!(rt; "refused: {why:?}"),
    }
}

/// Loads a text, and compares what the graph is dumped to. Tells how many transactions the graph has.
fn again<L: Ledger>(rt: &impl Abort, alloc: Global, bytes: &[u8], steps: &mut Steps<L>) -> usize {
    match loaded(alloc, bytes, steps) {
        Ok(graph) => count_again(rt, alloc, bytes, graph),
        Err(fault) => panic!(rt; "not loaded: {fault:?}"),
    }
}

/// Loads a text.
fn loaded<L: Ledger>(
    alloc: Global,
    bytes: &[u8],
    steps: &mut Steps<L>,
) -> Result<TxGraph<2>, LoadFault> {
    load(alloc, bytes, DEFAULT_LIMITS, steps)
}

/// Compares what a graph is dumped to with its text, and tells how many transactions it has.
fn count_again(rt: &impl Abort, alloc: Global, bytes: &[u8], graph: TxGraph<2>) -> usize {
    let text = dumped(rt, alloc, &graph);
    assert!(rt; text.as_slice() == bytes);
    let count = graph.count(Level::Main);
    assert!(rt; graph.additions() == count as u64);
    count
}

/// Dumps a drawn graph, loads the text, and dumps it again.
fn goes_round<L: Ledger>(
    rt: &impl Abort,
    alloc: Global,
    graph: &mut TxGraph<2>,
    seed: u64,
    steps: &mut Steps<L>,
) {
    draw(rt, graph, seed, steps);
    let text = dumped(rt, alloc, graph);
    let count = again(rt, alloc, text.as_slice(), steps);
    assert!(rt; count > 30 && count == graph.count(Level::Main));
}

fn graphs<K: ledger::Ledger>(rt: &impl Abort, alloc: Global, blank: Blank) -> Result<(), Fail>
    requires name { blank.name ≡ K.name }
    requires parts { blank.parts ≡ K.parts }
    requires some { 0 < blank.parts }
{
    let mut steps = Steps::new(NoLedger::<K>::new(blank));
    let mut graph = TxGraph::<2>::new(alloc, DEFAULT_LIMITS)?;
    goes_round(rt, alloc, &mut graph, 1, &mut steps);
    goes_round(rt, alloc, &mut graph, 20, &mut steps);
    Ok(())
}

#[test]
fn a_dumped_graph_loads(rt: HostRuntime) -> Result<(), Fail> {
    graphs::<Brand>(&rt, rt.alloc(), Blank::new(1))
}

/// Loads a text under narrow limits.
fn small<L: Ledger>(
    alloc: Global,
    bytes: &[u8],
    defer: bool,
    steps: &mut Steps<L>,
) -> Result<TxGraph<2>, LoadFault> {
    let limits = Limits {
        count: 2,
        size: 20,
        total: 3,
        defer,
    };
    load(alloc, bytes, limits, steps)
}

/// What comes of loading a text: a fault, or none.
fn fault_of<L: Ledger>(
    alloc: Global,
    bytes: &[u8],
    defer: bool,
    steps: &mut Steps<L>,
) -> Option<LoadFault> {
    match small(alloc, bytes, defer, steps) {
        Ok(_) => None,
        Err(fault) => Some(fault),
    }
}

fn texts<K: ledger::Ledger>(rt: &impl Abort, alloc: Global, blank: Blank)
    requires name { blank.name ≡ K.name }
    requires parts { blank.parts ≡ K.parts }
    requires some { 0 < blank.parts }
{
    let mut steps = Steps::new(NoLedger::<K>::new(blank));
    for (text, defer, wanted) in &LOADS {
        let fault = fault_of(alloc, text.as_bytes(), *defer, &mut steps);
        assert!(rt; fault == *wanted);
    }
}

#[test]
fn a_text_loads_or_is_refused(rt: HostRuntime) -> Result<(), Fail> {
    texts::<Brand>(&rt, rt.alloc(), Blank::new(1));
    Ok(())
}
