ghost use Rattle.std.specs.Prelude.{◌≡◌, ◌<◌, ◌≤◌};

use crate::samples::graph_of;
use closure_flow::Scratch;
use dep_graph::DepGraph;
use linearize::{Linear, PlaceFlow, has_rates, is_component, optimal};
use std::alloc::Global;
use std::marker::Brand;
use std::process::Abort;
use std::sync::ledger;
use std::sync::ledger::Blank;
use std::test::Fail;
use step_count::{Counted, Ledger, Steps};

/// The room of the solver and of the order.
#[derive(Drop)]
pub(crate) struct Room<const W: usize> {
    pub(crate) alloc: Global,
    pub(crate) out: Linear<W>,
    pub(crate) scratch: Scratch<W>,
}

// Leaves an optimal order of a graph. This and the next function have no clause, since callers would pay for it in their
// proofs.
pub(crate) fn ordered<L: Ledger, const W: usize>(
    rt: &impl Abort,
    room: &mut Room<W>,
    steps: &mut Steps<L>,
    graph: &DepGraph<W>,
)
    requires { W ≤ 2 }
{
    assert!(rt; graph.members().count() > 0);
    assert!(rt; graph.members().count() <= 4096);
    assert!(rt; is_component(graph));
    assert!(rt; has_rates(graph));
    optimal(&mut room.scratch, graph, &mut room.out, steps);
}

// Compares the fees and sizes of the parts.
fn parts_are<const W: usize>(rt: &impl Abort, out: &Linear<W>, parts: &[(i64, u64)]) {
    assert!(rt; out.parts().len() == parts.len());
    for (found, wanted) in out.parts().iter().zip(parts) {
        assert!(rt; found.rate.fee == wanted.0);
        assert!(rt; found.rate.size == wanted.1);
    }
}

// Leaves an optimal order of a graph, and compares the fees and sizes of its parts.
fn case<L: Ledger, const W: usize>(
    rt: &impl Abort,
    room: &mut Room<W>,
    steps: &mut Steps<L>,
    rates: &[(i64, u64)],
    pairs: &[(usize, usize)],
    parts: &[(i64, u64)],
) -> Result<(), Fail>
    requires { W ≤ 2 }
{
    let graph = graph_of(rt, room.alloc, rates, pairs)?;
    ordered(rt, room, steps, &graph);
    parts_are(rt, &room.out, parts);
    Ok(())
}

fn order_is<const W: usize>(rt: &impl Abort, out: &Linear<W>, wanted: &[usize]) {
    assert!(rt; out.order() == wanted);
}

fn flows_are<const W: usize>(rt: &impl Abort, out: &Linear<W>, wanted: &[PlaceFlow]) {
    assert!(rt; out.flows() == wanted);
}

// Members by fee and size, pairs of a parent and a child, and the fees and sizes of the parts of the order.
struct Row {
    rates: &'static [(i64, u64)],
    pairs: &'static [(usize, usize)],
    parts: &'static [(i64, u64)],
}

const MOST: i64 = 2_100_000_000_000_000;

static ROWS: [Row; 6] = [
    // A part without a smaller one of its rate stays whole.
    Row {
        rates: &[(900, 200), (100, 200)],
        pairs: &[(0, 1)],
        parts: &[(900, 200), (100, 200)],
    },
    Row {
        rates: &[(0, 10), (6, 5), (6, 5)],
        pairs: &[(0, 1), (0, 2)],
        parts: &[(12, 20)],
    },
    Row {
        rates: &[(-MOST, 1), (MOST, 1)],
        pairs: &[(0, 1)],
        parts: &[(0, 2)],
    },
    Row {
        rates: &[(1, 1)],
        pairs: &[],
        parts: &[(1, 1)],
    },
    Row {
        rates: &[(2, 2)],
        pairs: &[],
        parts: &[(2, 2)],
    },
    // One with smaller parts of its rate falls into them.
    Row {
        rates: &[(1, 1), (1, 1)],
        pairs: &[(0, 1)],
        parts: &[(1, 1), (1, 1)],
    },
];

fn each_row<L: Ledger, const W: usize>(
    rt: &impl Abort,
    room: &mut Room<W>,
    steps: &mut Steps<L>,
    rows: &[Row],
) -> Result<(), Fail>
    requires { W ≤ 2 }
{
    for row in rows {
        case(rt, room, steps, row.rates, row.pairs, row.parts)?;
    }
    Ok(())
}

// A child that pays more than its parent goes with it, by what it sends.
fn child_pays<L: Ledger>(
    rt: &impl Abort,
    room: &mut Room<2>,
    steps: &mut Steps<L>,
) -> Result<(), Fail> {
    let rates = [(100, 200), (900, 200)];
    case(rt, room, steps, &rates, &[(0, 1)], &[(1000, 400)])?;
    order_is(rt, &room.out, &[0, 1]);
    let flow = PlaceFlow {
        child: 1,
        parent: 0,
        amount: 160_000,
    };
    flows_are(rt, &room.out, &[flow]);
    Ok(())
}

// A zigzag falls into two parts of one rate.
fn zigzag<L: Ledger>(
    rt: &impl Abort,
    room: &mut Room<2>,
    steps: &mut Steps<L>,
) -> Result<(), Fail> {
    let rates = [(0, 1), (2, 1), (0, 1), (2, 1)];
    let pairs = [(0, 1), (0, 3), (2, 3)];
    case(rt, room, steps, &rates, &pairs, &[(2, 2), (2, 2)])?;
    order_is(rt, &room.out, &[0, 1, 2, 3]);
    Ok(())
}

// A chain of 64 members of one rate falls into 64 parts.
fn chain<L: Ledger, const W: usize>(
    rt: &impl Abort,
    room: &mut Room<W>,
    steps: &mut Steps<L>,
) -> Result<(), Fail>
    requires { W ≤ 2 }
{
    let mut pairs = [(0, 1); 63];
    for child in 1..64 {
        pairs[child - 1] = (child - 1, child);
    }
    let rates = [(7, 3); 64];
    case(rt, room, steps, &rates, &pairs, &rates)
}

// The rows and the chain, in as many words.
fn small<L: Ledger, const W: usize>(
    rt: &impl Abort,
    room: &mut Room<W>,
    steps: &mut Steps<L>,
    rows: &[Row],
) -> Result<(), Fail>
    requires { W ≤ 2 }
{
    each_row(rt, room, steps, rows)?;
    chain(rt, room, steps)
}

fn in_two_words<L: Ledger>(
    rt: &impl Abort,
    room: &mut Room<2>,
    steps: &mut Steps<L>,
    rows: &[Row],
) -> Result<(), Fail> {
    child_pays(rt, room, steps)?;
    zigzag(rt, room, steps)?;
    small(rt, room, steps, rows)
}

// Two members that nothing joins.
fn is_apart(rt: &impl Abort, alloc: Global) -> Result<(), Fail> {
    let apart = graph_of::<1>(rt, alloc, &[(1, 1), (2, 1)], &[])?;
    assert!(rt; !is_component(&apart));
    Ok(())
}

// One that pays too much.
fn is_high(rt: &impl Abort, alloc: Global) -> Result<(), Fail> {
    let high = graph_of::<2>(rt, alloc, &[(2_100_000_000_000_001, 200)], &[])?;
    assert!(rt; !has_rates(&high));
    Ok(())
}

fn refused(rt: &impl Abort, alloc: Global) -> Result<(), Fail> {
    is_apart(rt, alloc)?;
    is_high(rt, alloc)
}

fn narrow<L: Ledger>(
    rt: &impl Abort,
    alloc: Global,
    steps: &mut Steps<L>,
    rows: &[Row],
) -> Result<(), Fail> {
    let mut room = Room::<1> {
        alloc,
        scratch: Scratch::new(alloc)?,
        out: Linear::new(alloc)?,
    };
    let done = small(rt, &mut room, steps, rows);
    drop(room);
    done
}

fn wide<L: Ledger>(
    rt: &impl Abort,
    alloc: Global,
    steps: &mut Steps<L>,
    rows: &[Row],
) -> Result<(), Fail> {
    let mut room = Room::<2> {
        alloc,
        scratch: Scratch::new(alloc)?,
        out: Linear::new(alloc)?,
    };
    let done = in_two_words(rt, &mut room, steps, rows);
    drop(room);
    done
}

fn both<L: Ledger>(
    rt: &impl Abort,
    alloc: Global,
    steps: &mut Steps<L>,
    rows: &[Row],
) -> Result<(), Fail> {
    narrow(rt, alloc, steps, rows)?;
    wide(rt, alloc, steps, rows)
}

// It hands the table on and does nothing else, so that it alone pays for the literals.
fn table<L: Ledger>(rt: &impl Abort, alloc: Global, steps: &mut Steps<L>) -> Result<(), Fail> {
    both(rt, alloc, steps, &ROWS)
}

fn rows<K: ledger::Ledger>(rt: &impl Abort, alloc: Global, blank: Blank) -> Result<(), Fail>
    requires name { blank.name ≡ K.name }
    requires parts { blank.parts ≡ K.parts }
    requires some { 0 < blank.parts }
{
    let mut steps = Steps::new(Counted::<K>::new(blank));
    table(rt, alloc, &mut steps)?;
    assert!(rt; steps.ledger().shown() > 0);
    Ok(())
}

#[test]
fn worked_graphs_fall_into_their_parts(rt: HostRuntime) -> Result<(), Fail> {
    refused(&rt, rt.alloc())?;
    rows::<Brand>(&rt, rt.alloc(), Blank::new(1))
}
