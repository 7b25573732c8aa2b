use graph_model::{Level, Limits, Refusal, TxId};
use outside::NoMemory;
use plain_graph::Plain;
use std::alloc::Global;
use std::process::Abort;
use std::test::Fail;

const MOST: i64 = 2_100_000_000_000_000;

/// A call of the graph. The last three list names.
#[derive(Clone, Copy, Debug)]
enum Call {
    Limits(u64, u64, u64),
    /// Limits that dependencies may pass.
    Deferred(u64, u64, u64),
    Add(TxId, i64, u64),
    Dep(TxId, TxId),
    Fee(TxId, i64),
    Remove(TxId),
    Ancestors(TxId, Level),
    Descendants(TxId, Level),
    Cluster(TxId, Level),
}

/// A row of a test.
#[derive(Clone, Copy)]
enum Row {
    /// A call is accepted.
    Does(Call),
    /// A call is refused.
    Refuses(Call, Refusal),
    /// A call lists these names.
    Lists(Call, &'static [TxId]),
    /// The last list has so many names.
    Found(usize),
    /// The names from 1 to below another are added, of one fee and size 1.
    AddAll(TxId, i64),
    /// The names 1 to 64 are made a chain.
    Chain,
    /// A level has so many names.
    Count(Level, usize),
    /// Whether a level is oversized.
    Oversized(Level, bool),
    /// So many additions were accepted.
    Additions(u64),
}

// One function owns the graph of most tests: each that does pays in its proof for letting it go.
//
// The graph's own calls stand in functions without clauses. No test needs more of their contracts, which would cost
// each of them its proof.

fn limit(graph: &mut Plain, limits: Limits) -> Result<(), Refusal> {
    graph.set_limits(limits)
}

/// Adds to a graph that has counted few additions.
fn add(rt: &impl Abort, graph: &mut Plain, id: TxId, fee: i64, size: u64) -> Result<(), Refusal> {
    assert!(rt; graph.additions() < 1_000);
    graph.add(id, fee, size)
}

fn dep(graph: &mut Plain, parent: TxId, child: TxId) -> Result<(), Refusal> {
    graph.dep(parent, child)
}

fn pay(graph: &mut Plain, id: TxId, fee: i64) -> Result<(), Refusal> {
    graph.fee(id, fee)
}

fn remove(graph: &mut Plain, id: TxId) -> Result<(), Refusal> {
    graph.remove(id)
}

fn ancestors(graph: &mut Plain, id: TxId, level: Level) -> Result<(), Refusal> {
    graph.ancestors(id, level)
}

fn descendants(graph: &mut Plain, id: TxId, level: Level) -> Result<(), Refusal> {
    graph.descendants(id, level)
}

fn cluster(graph: &mut Plain, id: TxId, level: Level) -> Result<(), Refusal> {
    graph.cluster(id, level)
}

fn count(graph: &Plain, level: Level) -> usize {
    graph.count(level)
}

fn oversized(graph: &Plain, level: Level) -> bool {
    graph.oversized(level)
}

fn found(graph: &Plain) -> &[TxId] {
    graph.found()
}

fn additions_of(graph: &Plain) -> u64 {
    graph.additions()
}

fn begun(alloc: Global) -> Result<Plain, NoMemory> {
    Plain::new(alloc)
}

fn copied(graph: &Plain) -> Result<Plain, NoMemory> {
    graph.copied()
}

fn limits(count: u64, size: u64, total: u64, defer: bool) -> Limits {
    Limits {
        count,
        size,
        total,
        defer,
    }
}

/// Makes a call.
fn make(rt: &impl Abort, graph: &mut Plain, call: Call) -> Result<(), Refusal> {
    match call {
        Call::Limits(count, size, total) => limit(graph, limits(count, size, total, false)),
        Call::Deferred(count, size, total) => limit(graph, limits(count, size, total, true)),
        Call::Add(id, fee, size) => add(rt, graph, id, fee, size),
        Call::Dep(parent, child) => dep(graph, parent, child),
        Call::Fee(id, fee) => pay(graph, id, fee),
        Call::Remove(id) => remove(graph, id),
        Call::Ancestors(id, level) => ancestors(graph, id, level),
        Call::Descendants(id, level) => descendants(graph, id, level),
        Call::Cluster(id, level) => cluster(graph, id, level),
    }
}

/// Makes a call, and compares its answer.
fn expect(rt: &impl Abort, graph: &mut Plain, call: Call, answer: Result<(), Refusal>) {
    assert_eq!(rt; make(rt, graph, call), answer, "{call:?}");
}

/// Makes a call that lists names, and compares these.
fn lists(rt: &impl Abort, graph: &mut Plain, call: Call, ids: &[TxId]) {
    expect(rt, graph, call, Ok(()));
    assert_eq!(rt; found(graph), ids, "{call:?}");
}

fn add_all(rt: &impl Abort, graph: &mut Plain, end: TxId, fee: i64) {
    for id in 1..end {
        expect(rt, graph, Call::Add(id, fee, 1), Ok(()));
    }
}

fn chain(rt: &impl Abort, graph: &mut Plain) {
    for id in 1..64u64 {
        expect(rt, graph, Call::Dep(id, id + 1), Ok(()));
    }
}

/// Runs a row.
fn run(rt: &impl Abort, graph: &mut Plain, row: Row) {
    match row {
        Row::Does(call) => expect(rt, graph, call, Ok(())),
        Row::Refuses(call, why) => expect(rt, graph, call, Err(why)),
        Row::Lists(call, ids) => lists(rt, graph, call, ids),
        Row::Found(names) => assert!(rt; found(graph).len() == names),
        Row::AddAll(end, fee) => add_all(rt, graph, end, fee),
        Row::Chain => chain(rt, graph),
        Row::Count(level, names) => assert!(rt; count(graph, level) == names),
        Row::Oversized(level, over) => assert!(rt; oversized(graph, level) == over),
        Row::Additions(additions) => assert!(rt; additions_of(graph) == additions),
    }
}

/// Runs rows on a graph, one after another.
fn play_on(rt: &impl Abort, graph: &mut Plain, rows: &[Row]) {
    for row in rows {
        run(rt, graph, *row);
    }
}

/// The same on a graph without names.
fn play(rt: &impl Abort, alloc: Global, rows: &[Row]) -> Result<(), Fail> {
    let mut graph = begun(alloc)?;
    play_on(rt, &mut graph, rows);
    Ok(())
}

const ADDITIONS: [Row; 13] = [
    Row::Does(Call::Add(1, MOST, 1)),
    Row::Does(Call::Add(2, -MOST, 404_000)),
    Row::Refuses(Call::Add(1, MOST + 1, 0), Refusal::Fee),
    Row::Refuses(Call::Add(3, -MOST - 1, 1), Refusal::Fee),
    Row::Refuses(Call::Add(1, 0, 0), Refusal::Size),
    Row::Refuses(Call::Add(1, 0, 4_000_001), Refusal::Size),
    Row::Refuses(Call::Add(1, 0, 4_000_000), Refusal::Taken),
    Row::Refuses(Call::Add(3, 0, 404_001), Refusal::ClusterSize(404_001)),
    Row::Refuses(Call::Add(3, 0, 4_000_000), Refusal::ClusterSize(4_000_000)),
    Row::Does(Call::Add(u64::MAX, 0, 1)),
    Row::Count(Level::Main, 3),
    Row::Count(Level::Top, 3),
    Row::Additions(3),
];

#[test]
fn additions(rt: HostRuntime) -> Result<(), Fail> {
    play(&rt, rt.alloc(), &ADDITIONS)
}

const PAIRS: [Row; 14] = [
    Row::AddAll(4, 1),
    Row::Does(Call::Dep(1, 2)),
    Row::Refuses(Call::Dep(2, 1), Refusal::Cycle),
    Row::Refuses(Call::Dep(1, 1), Refusal::Cycle),
    Row::Refuses(Call::Dep(9, 8), Refusal::Unknown(9)),
    Row::Refuses(Call::Dep(1, 8), Refusal::Unknown(8)),
    Row::Does(Call::Dep(1, 3)),
    Row::Does(Call::Dep(2, 3)),
    Row::Refuses(Call::Dep(3, 1), Refusal::Cycle),
    Row::Does(Call::Dep(1, 3)),
    Row::Lists(Call::Descendants(1, Level::Main), &[1, 2, 3]),
    Row::Lists(Call::Ancestors(2, Level::Top), &[1, 2]),
    Row::Refuses(Call::Ancestors(9, Level::Top), Refusal::Unknown(9)),
    Row::Refuses(Call::Descendants(9, Level::Top), Refusal::Unknown(9)),
];

#[test]
fn pairs(rt: HostRuntime) -> Result<(), Fail> {
    play(&rt, rt.alloc(), &PAIRS)
}

const SIZES: [Row; 6] = [
    Row::Does(Call::Add(2, 1, 403_999)),
    Row::Does(Call::Add(3, 1, 1)),
    Row::Does(Call::Add(4, 1, 1)),
    Row::Does(Call::Dep(2, 3)),
    Row::Refuses(Call::Dep(3, 4), Refusal::ClusterSize(404_001)),
    Row::Does(Call::Dep(2, 3)),
];

#[test]
fn sizes_of_a_pair(rt: HostRuntime) -> Result<(), Fail> {
    play(&rt, rt.alloc(), &SIZES)
}

const NAMES: [Row; 5] = [
    Row::AddAll(66, 0),
    Row::Chain,
    Row::Refuses(Call::Dep(64, 65), Refusal::Count(65)),
    Row::Does(Call::Ancestors(64, Level::Main)),
    Row::Found(64),
];

#[test]
fn names_of_a_pair(rt: HostRuntime) -> Result<(), Fail> {
    play(&rt, rt.alloc(), &NAMES)
}

const LIMITS: [Row; 9] = [
    Row::Refuses(Call::Limits(0, 1, 1), Refusal::Range),
    Row::Refuses(Call::Limits(129, 1, 1), Refusal::Range),
    Row::Refuses(Call::Limits(1, 0, 1), Refusal::Range),
    Row::Refuses(Call::Limits(1, 512_000_001, 1), Refusal::Range),
    Row::Refuses(Call::Limits(1, 1, 0), Refusal::Range),
    Row::Refuses(Call::Limits(1, 1, 1_048_577), Refusal::Range),
    Row::Does(Call::Limits(128, 512_000_000, 1_048_576)),
    Row::Refuses(Call::Limits(1, 1, 1), Refusal::Late),
    Row::Refuses(Call::Limits(129, 1, 1), Refusal::Late),
];

#[test]
fn limits_are_set_before_a_change(rt: HostRuntime) -> Result<(), Fail> {
    play(&rt, rt.alloc(), &LIMITS)
}

const FEES: [Row; 6] = [
    Row::Does(Call::Add(1, 1, 1)),
    Row::Does(Call::Fee(1, MOST)),
    Row::Does(Call::Fee(1, -MOST)),
    Row::Refuses(Call::Fee(1, MOST + 1), Refusal::Fee),
    Row::Refuses(Call::Fee(9, -MOST - 1), Refusal::Fee),
    Row::Refuses(Call::Fee(9, 0), Refusal::Unknown(9)),
];

#[test]
fn fees(rt: HostRuntime) -> Result<(), Fail> {
    play(&rt, rt.alloc(), &FEES)
}

const REMOVALS: [Row; 16] = [
    Row::AddAll(6, 1),
    Row::Does(Call::Dep(1, 3)),
    Row::Does(Call::Dep(2, 3)),
    Row::Does(Call::Dep(3, 4)),
    Row::Does(Call::Dep(3, 5)),
    Row::Does(Call::Dep(1, 5)),
    Row::Does(Call::Remove(3)),
    Row::Refuses(Call::Remove(3), Refusal::Unknown(3)),
    Row::Count(Level::Main, 4),
    Row::Lists(Call::Ancestors(5, Level::Main), &[1, 2, 5]),
    Row::Lists(Call::Descendants(1, Level::Main), &[1, 4, 5]),
    Row::Lists(Call::Cluster(4, Level::Top), &[1, 2, 4, 5]),
    Row::Refuses(Call::Cluster(3, Level::Top), Refusal::Unknown(3)),
    Row::Does(Call::Add(3, 1, 1)),
    Row::Lists(Call::Cluster(3, Level::Top), &[3]),
    Row::Refuses(Call::Dep(4, 1), Refusal::Cycle),
];

#[test]
fn removals_keep_the_ancestors_of_the_others(rt: HostRuntime) -> Result<(), Fail> {
    play(&rt, rt.alloc(), &REMOVALS)
}

const OVER: [Row; 17] = [
    Row::Does(Call::Deferred(2, 1_000, 10)),
    Row::Does(Call::Add(1, 3, 1)),
    Row::Does(Call::Add(2, 2, 1)),
    Row::Does(Call::Add(3, 1, 1)),
    Row::Does(Call::Dep(1, 2)),
    Row::Oversized(Level::Main, false),
    Row::Does(Call::Dep(2, 3)),
    Row::Does(Call::Dep(1, 3)),
    Row::Oversized(Level::Top, true),
    Row::Count(Level::Main, 3),
    Row::Refuses(Call::Ancestors(3, Level::Main), Refusal::Oversized),
    Row::Refuses(Call::Cluster(9, Level::Top), Refusal::Unknown(9)),
    Row::Refuses(Call::Add(4, 1, 1_001), Refusal::ClusterSize(1_001)),
    Row::Does(Call::Remove(3)),
    Row::Oversized(Level::Main, false),
    Row::Lists(Call::Ancestors(2, Level::Main), &[1, 2]),
    Row::Lists(Call::Cluster(1, Level::Top), &[1, 2]),
];

#[test]
fn dependencies_pass_deferred_limits(rt: HostRuntime) -> Result<(), Fail> {
    play(&rt, rt.alloc(), &OVER)
}

/// Changes a copy, and compares what both list.
fn part(rt: &impl Abort, graph: &mut Plain, copy: &mut Plain) {
    expect(rt, copy, Call::Remove(1), Ok(()));
    lists(rt, copy, Call::Ancestors(2, Level::Main), &[2]);
    lists(rt, graph, Call::Ancestors(2, Level::Main), &[1, 2]);
    assert_eq!(rt; additions_of(graph), additions_of(copy));
}

/// Copies a graph of a pair.
fn copy_and_part(rt: &impl Abort, graph: &mut Plain) -> Result<(), Fail> {
    add_all(rt, graph, 3, 1);
    expect(rt, graph, Call::Dep(1, 2), Ok(()));
    let mut copy = copied(graph)?;
    part(rt, graph, &mut copy);
    Ok(())
}

#[test]
fn a_copy_changes_by_itself(rt: HostRuntime) -> Result<(), Fail> {
    let mut graph = begun(rt.alloc())?;
    copy_and_part(&rt, &mut graph)
}
