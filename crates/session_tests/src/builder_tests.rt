//! What a block builder offers and takes, and what is evicted, by rows that were worked out by hand.
ghost use Rattle.std.specs.Prelude.{◌≡◌, ◌<◌};

use crate::tx_calls::{Call, Graph, begun, count, done, make, narrow, narrow_mut};
use block_builder::Builder;
use eviction::{evict, worst};
use graph_model::{IdBuf, Level, Picked, Refusal, TxId};
use outside::NoMemory;
use std::alloc::Global;
use std::marker::Brand;
use std::process::Abort;
use std::sync::ledger;
use std::sync::ledger::Blank;
use std::test::Fail;
use step_count::{Counted, Ledger, Steps};
use tx_graph::TxGraph;

// A row of a test.
#[derive(Clone, Copy)]
enum Row {
    // A call is accepted.
    Does(Call),
    // A block of at most this size has this fee and size, and these names.
    Fills(u64, i128, u64, &'static [TxId]),
    // A builder offers parts of these names and no further one. Each is included or skipped.
    Offers(&'static [(&'static [TxId], bool)]),
    // The worst part has these names, or there is none.
    Worst(Option<&'static [TxId]>),
    // What is evicted has this fee and size, and these names.
    Evicts(i128, u64, &'static [TxId]),
    // Nothing is evicted.
    Refuses(Refusal),
    // Main has so many names.
    Count(usize),
}

fn has(picked: &Picked, fee: i128, size: u64, ids: &[TxId]) -> bool {
    picked.fee == fee && picked.size == size && picked.ids.as_slice() == ids
}

fn filled(
    rt: &impl Abort,
    alloc: Global,
    graph: &TxGraph<1>,
    limit: u64,
) -> Result<Picked, NoMemory> {
    assert!(rt; !graph.oversized(Level::Main));
    Builder::new(alloc, graph).fill(limit)
}

// Includes or skips the part that is offered, which has these names.
fn goes_past(
    rt: &impl Abort,
    builder: &mut Builder<'_, 1>,
    ids: &[TxId],
    included: bool,
) -> Result<(), NoMemory> {
    let Some(part) = builder.current() else {
        panic!(rt; "no part is offered");
    };
    assert!(rt; part.ids == ids);
    if !included {
        return builder.skip();
    }
    builder.include();
    Ok(())
}

fn offers(
    rt: &impl Abort,
    alloc: Global,
    graph: &TxGraph<1>,
    parts: &[(&'static [TxId], bool)],
) -> Result<(), NoMemory> {
    assert!(rt; !graph.oversized(Level::Main));
    let mut builder = Builder::new(alloc, graph);
    for (ids, included) in parts {
        goes_past(rt, &mut builder, ids, *included)?;
    }
    assert!(rt; builder.current().is_none());
    Ok(())
}

fn has_worst(rt: &impl Abort, graph: &TxGraph<1>, ids: Option<&'static [TxId]>) -> bool {
    assert!(rt; !graph.oversized(Level::Main));
    match (worst(graph), ids) {
        (Some(part), Some(ids)) => part.ids == ids,
        (None, None) => true,
        _ => false,
    }
}

fn evicted<L: Ledger>(graph: &mut TxGraph<1>, steps: &mut Steps<L>) -> Result<Picked, Refusal> {
    evict(graph, steps)
}

fn evicts<L: Ledger>(
    rt: &impl Abort,
    graph: &mut TxGraph<1>,
    fee: i128,
    size: u64,
    ids: &[TxId],
    steps: &mut Steps<L>,
) {
    match evicted(graph, steps) {
        Ok(picked) => assert!(rt; has(&picked, fee, size, ids)),
        Err(_) => panic!(rt; "nothing is evicted"),
    }
}

fn refuses<L: Ledger>(
    rt: &impl Abort,
    graph: &mut TxGraph<1>,
    wanted: Refusal,
    steps: &mut Steps<L>,
) {
    match evicted(graph, steps) {
        Ok(_) => panic!(rt; "a part is evicted"),
        Err(why) => assert!(rt; why == wanted),
    }
}

// Runs a row.
fn run<L: Ledger>(
    rt: &impl Abort,
    alloc: Global,
    graph: &mut Graph,
    row: Row,
    out: &mut IdBuf,
    steps: &mut Steps<L>,
) -> Result<(), NoMemory> {
    match row {
        Row::Does(call) => assert!(rt; make(rt, graph, call, out, steps).is_ok()),
        Row::Fills(limit, fee, size, ids) => {
            let picked = filled(rt, alloc, narrow(rt, graph), limit)?;
            assert!(rt; has(&picked, fee, size, ids));
        }
        Row::Offers(parts) => offers(rt, alloc, narrow(rt, graph), parts)?,
        Row::Worst(ids) => assert!(rt; has_worst(rt, narrow(rt, graph), ids)),
        Row::Evicts(fee, size, ids) => evicts(rt, narrow_mut(rt, graph), fee, size, ids, steps),
        Row::Refuses(why) => refuses(rt, narrow_mut(rt, graph), why, steps),
        Row::Count(names) => assert!(rt; count(graph) == names),
    }
    Ok(())
}

// Runs rows on a graph, one after another.
fn play_on<L: Ledger>(
    rt: &impl Abort,
    alloc: Global,
    graph: &mut Graph,
    rows: &[Row],
    out: &mut IdBuf,
    steps: &mut Steps<L>,
) -> Result<(), NoMemory> {
    for row in rows {
        run(rt, alloc, graph, *row, out, steps)?;
    }
    Ok(())
}

// The same on a graph without names.
fn play<L: Ledger>(
    rt: &impl Abort,
    alloc: Global,
    rows: &[Row],
    out: &mut IdBuf,
    steps: &mut Steps<L>,
) -> Result<(), Fail> {
    let mut graph = begun(alloc, false)?;
    let played = play_on(rt, alloc, &mut graph, rows, out, steps);
    done(graph);
    Ok(played?)
}

// A part that doesn't fit is left out, and a later one that fits exactly is taken.
const FILLED: [Row; 5] = [
    Row::Does(Call::Add(1, 100, 100)),
    Row::Does(Call::Add(2, 90, 50)),
    Row::Does(Call::Add(3, 30, 60)),
    Row::Fills(110, 120, 110, &[2, 3]),
    Row::Fills(0, 0, 0, &[]),
];

// A part whose parent was left out isn't taken, though it would fit.
const LEFT_OUT: [Row; 4] = [
    Row::Does(Call::Add(1, 100, 100)),
    Row::Does(Call::Add(2, 1, 10)),
    Row::Does(Call::Dep(1, 2)),
    Row::Fills(50, 0, 0, &[]),
];

// The last part goes first.
const EVICTED: [Row; 10] = [
    Row::Worst(None),
    Row::Refuses(Refusal::Empty),
    Row::Does(Call::Add(1, 10, 1)),
    Row::Does(Call::Add(2, 1, 1)),
    Row::Worst(Some(&[2])),
    Row::Evicts(1, 1, &[2]),
    Row::Count(1),
    Row::Evicts(10, 1, &[1]),
    Row::Count(0),
    Row::Refuses(Refusal::Empty),
];

// Of a skipped cluster no further part is offered. Where all are included, the last one is the worst.
const OFFERED: [Row; 7] = [
    Row::Does(Call::Add(1, 100, 10)),
    Row::Does(Call::Add(2, 10, 10)),
    Row::Does(Call::Dep(1, 2)),
    Row::Does(Call::Add(3, 5, 10)),
    Row::Offers(&[(&[1], false), (&[3], true)]),
    Row::Offers(&[(&[1], true), (&[2], true), (&[3], true)]),
    Row::Worst(Some(&[3])),
];

fn each_table<L: Ledger>(
    rt: &impl Abort,
    alloc: Global,
    out: &mut IdBuf,
    steps: &mut Steps<L>,
) -> Result<(), Fail> {
    play(rt, alloc, &FILLED, out, steps)?;
    play(rt, alloc, &LEFT_OUT, out, steps)?;
    play(rt, alloc, &EVICTED, out, steps)?;
    play(rt, alloc, &OFFERED, out, steps)
}

fn tables<K: ledger::Ledger>(rt: &impl Abort, alloc: Global, blank: Blank) -> Result<(), Fail>
    requires name { blank.name ≡ K.name }
    requires parts { blank.parts ≡ K.parts }
    requires some { 0 < blank.parts }
{
    let mut steps = Steps::new(Counted::<K>::new(blank));
    let mut out = IdBuf::new(alloc, 128)?;
    each_table(rt, alloc, &mut out, &mut steps)
}

#[test]
fn blocks_have_their_parts(rt: HostRuntime) -> Result<(), Fail> {
    tables::<Brand>(&rt, rt.alloc(), Blank::new(1))
}
