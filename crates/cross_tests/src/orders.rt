//! Each order that `optimal` leaves is a certificate that `check` accepts.

ghost use Rattle.std.specs.Prelude.{◌≡◌, ◌≢◌, ◌*◌, ◌^◌, ◌<◌, ◌≤◌, [], All, IfOk};
ghost use Rattle.graphs.specs.Closures.{is_member};
ghost use Rattle.certificate.specs.Accounts.{amount_of};
ghost use Rattle.certificate.specs.Answers.{AreClaims};

use certificate::{EdgeList, FlowList, Part, TxList, Written, check};
use closure_flow::Scratch;
use dep_graph::DepGraph;
use fee_rate::Sum;
use graph_model::{Flow, IdList};
use linearize::{Linear, LinearPart, PlaceFlow, has_rates, is_component, optimal};
use std::alloc::Global;
use std::marker::Brand;
use std::process::Abort;
use std::sync::ledger;
use std::sync::ledger::Blank;
use std::test::Fail;
use step_count::{Counted, Ledger, Steps};

/// Far above what flows between a few hundred transactions.
const MUCH: u128 = 1_000_000_000_000_000_000_000_000_000_000;

/// The room of the solver and of the order.
#[derive(Drop)]
struct Room<const W: usize> {
    alloc: Global,
    scratch: Scratch<W>,
    out: Linear<W>,
}

/// Fee and size of each place, and the pairs of a parent and a child.
#[derive(Drop)]
struct Rows {
    rates: Vec<(i64, u64)>,
    pairs: Vec<(usize, usize)>,
}

/// Whether a place is a member.
fn is_in<const W: usize>(graph: &DepGraph<W>, place: usize) -> bool
    requires { place < 64 * W }
    ensures { result ≡ is_member graph.now place }
{
    graph.members().has(place)
}

fn link<const W: usize>(rt: &impl Abort, graph: &mut DepGraph<W>, parent: usize, child: usize)
    requires { W ≤ 2 }
{
    assert!(rt; parent < 64 * W);
    assert!(rt; child < 64 * W);
    assert!(rt; is_in(graph, parent));
    assert!(rt; is_in(graph, child));
    assert!(rt; !graph.would_cycle(parent, child));
    graph.add_dep(parent, child);
}

/// A dependency graph by the fee and the size of each place and the pairs of a parent and a child.
fn graph_of<const W: usize>(
    rt: &impl Abort,
    alloc: Global,
    rates: &[(i64, u64)],
    pairs: &[(usize, usize)],
) -> Result<DepGraph<W>, Fail>
    requires { W ≤ 2 }
{
    let mut graph = DepGraph::new(alloc);
    for (fee, size) in rates {
        assert!(rt; graph.members().count() < 64 * W);
        graph.add(*fee, *size)?;
    }
    for (parent, child) in pairs {
        link(rt, &mut graph, *parent, *child);
    }
    Ok(graph)
}

/// The graph as it is written, with the places as names.
fn written(alloc: Global, rates: &[(i64, u64)], pairs: &[(usize, usize)]) -> Result<Written, Fail> {
    let mut txs = Vec::new(alloc);
    for (fee, size) in rates {
        txs.push((txs.len() as u64, *fee, *size))?;
    }
    let mut edges = Vec::new(alloc);
    for (parent, child) in pairs {
        edges.push((*parent as u64, *child as u64))?;
    }
    Ok(Written {
        txs: TxList::from_vec(txs),
        edges: EdgeList::from_vec(edges),
    })
}

/// Flows by name. Their amounts are asserted to be at least 1 and not too large.
fn flows_of(rt: &impl Abort, alloc: Global, flows: &[PlaceFlow]) -> Result<Vec<Flow>, Fail>
    ensures some { IfOk result (λ flows. All (λ flow. 1 ≤ flow.amount) flows.items) }
    ensures small { IfOk result (λ flows. amount_of flows.items ≤ 4096 * 2 ^ 100) }
{
    assert!(rt; flows.len() <= 4096);
    let mut named = Vec::new(alloc);
    for flow in flows {
        assert!(rt; flow.amount >= 1);
        assert!(rt; flow.amount <= MUCH);
        named.push(Flow {
            child: flow.child as u64,
            parent: flow.parent as u64,
            amount: flow.amount,
        })?;
    }
    Ok(named)
}

/// A part by name.
fn part_of(
    rt: &impl Abort,
    alloc: Global,
    rate: Sum,
    places: &[usize],
    flows: &[PlaceFlow],
) -> Result<Part, Fail>
    ensures filled { IfOk result (λ part. part.ids ≢ []) }
    ensures some { IfOk result (λ part. All (λ flow. 1 ≤ flow.amount) part.flows) }
    ensures small { IfOk result (λ part. amount_of part.flows ≤ 4096 * 2 ^ 100) }
{
    let mut ids = Vec::new(alloc);
    for place in places {
        ids.push(*place as u64)?;
    }
    assert!(rt; ids.len() > 0);
    let named = flows_of(rt, alloc, flows)?;
    Ok(Part {
        rate,
        ids: IdList::from_vec(ids),
        flows: FlowList::from_vec(named),
    })
}

/// The parts of an order, by name.
fn claims_of(
    rt: &impl Abort,
    alloc: Global,
    parts: &[LinearPart],
    order: &[usize],
    flows: &[PlaceFlow],
) -> Result<Vec<Part>, Fail>
    ensures { IfOk result (λ claims. AreClaims claims.items) }
{
    assert!(rt; parts.len() <= 128);
    let mut claims = Vec::new(alloc);
    let mut places_from = 0;
    let mut flows_from = 0;
    for part in parts {
        assert!(rt; places_from <= part.end);
        assert!(rt; part.end <= order.len());
        assert!(rt; flows_from <= part.flow_end);
        assert!(rt; part.flow_end <= flows.len());
        let places = &order[places_from..part.end];
        let own_flows = &flows[flows_from..part.flow_end];
        let claim = part_of(rt, alloc, Sum::from(part.rate), places, own_flows)?;
        claims.push(claim)?;
        places_from = part.end;
        flows_from = part.flow_end;
    }
    Ok(claims)
}

/// Leaves an optimal order of a graph.
fn solved<L: Ledger, const W: usize>(
    rt: &impl Abort,
    room: &mut Room<W>,
    steps: &mut Steps<L>,
    graph: &DepGraph<W>,
)
    requires { W ≤ 2 }
{
    assert!(rt; graph.members().count() > 0);
    assert!(rt; graph.members().count() <= 4096);
    assert!(rt; is_component(graph));
    assert!(rt; has_rates(graph));
    optimal(&mut room.scratch, graph, &mut room.out, steps);
}

/// Whether the checker accepts the order that was left.
fn is_accepted<const W: usize>(
    rt: &impl Abort,
    room: &Room<W>,
    graph: &Written,
) -> Result<bool, Fail> {
    let parts = room.out.parts();
    let claims = claims_of(rt, room.alloc, parts, room.out.order(), room.out.flows())?;
    Ok(check(room.alloc, graph, claims.as_slice()).is_ok())
}

/// Leaves an optimal order of a graph, and has it checked.
fn certified<L: Ledger, const W: usize>(
    rt: &impl Abort,
    room: &mut Room<W>,
    steps: &mut Steps<L>,
    rates: &[(i64, u64)],
    pairs: &[(usize, usize)],
) -> Result<(), Fail>
    requires { W ≤ 2 }
{
    let graph = graph_of(rt, room.alloc, rates, pairs)?;
    solved(rt, room, steps, &graph);
    let graph_written = written(room.alloc, rates, pairs)?;
    let accepted = is_accepted(rt, room, &graph_written)?;
    assert!(rt; accepted);
    Ok(())
}

/// The same, and compares the fees and sizes of the parts.
fn case<L: Ledger, const W: usize>(
    rt: &impl Abort,
    room: &mut Room<W>,
    steps: &mut Steps<L>,
    rates: &[(i64, u64)],
    pairs: &[(usize, usize)],
    parts: &[(i64, u64)],
) -> Result<(), Fail>
    requires { W ≤ 2 }
{
    certified(rt, room, steps, rates, pairs)?;
    assert_eq!(rt; room.out.parts().len(), parts.len());
    for (found, wanted) in room.out.parts().iter().zip(parts) {
        assert_eq!(rt; found.rate.fee, wanted.0);
        assert_eq!(rt; found.rate.size, wanted.1);
    }
    Ok(())
}

/// The fee and the size of each place, the pairs of a parent and a child, and the fee and the size of each part.
type Case = (
    &'static [(i64, u64)],
    &'static [(usize, usize)],
    &'static [(i64, u64)],
);

/// Few places: pairs, stars, a diamond, and a comb.
const SMALL: [Case; 8] = [
    (&[(100, 200), (900, 200)], &[(0, 1)], &[(1000, 400)]),
    (
        &[(900, 200), (100, 200)],
        &[(0, 1)],
        &[(900, 200), (100, 200)],
    ),
    (&[(5, 10)], &[], &[(5, 10)]),
    (&[(0, 10), (6, 5), (6, 5)], &[(0, 1), (0, 2)], &[(12, 20)]),
    (
        &[(0, 1), (4, 1), (1, 1), (9, 1)],
        &[(0, 1), (0, 2), (0, 3)],
        &[(9, 2), (4, 1), (1, 1)],
    ),
    (
        &[(1, 1), (3, 1), (2, 1), (0, 1)],
        &[(0, 3), (1, 3), (2, 3)],
        &[(3, 1), (2, 1), (1, 1), (0, 1)],
    ),
    (
        &[(1, 1), (5, 1), (1, 1), (9, 1)],
        &[(0, 1), (0, 2), (1, 3), (2, 3), (0, 3)],
        &[(16, 4)],
    ),
    // of all places with their ancestors place 3 has the best rate, 5 for 10; the best closed set has 12 for 20
    (
        &[(0, 10), (6, 5), (6, 5), (5, 10), (0, 10)],
        &[(0, 1), (0, 2), (2, 4), (3, 4)],
        &[(12, 20), (5, 10), (0, 10)],
    ),
];

/// The greatest fee.
const MOST: i64 = 2_100_000_000_000_000;

/// Equal rates, negative fees, and the greatest fees and sizes.
const EXTREMES: [Case; 6] = [
    (
        &[(2, 1), (4, 2), (2, 1)],
        &[(0, 1), (1, 2)],
        &[(2, 1), (4, 2), (2, 1)],
    ),
    (&[(-1, 1), (-5, 1)], &[(0, 1)], &[(-1, 1), (-5, 1)]),
    (&[(-5, 1), (3, 1)], &[(0, 1)], &[(-2, 2)]),
    (
        &[(MOST, 1), (-MOST, 4_000_000)],
        &[(0, 1)],
        &[(MOST, 1), (-MOST, 4_000_000)],
    ),
    (
        &[(-MOST, 4_000_000), (MOST, 1)],
        &[(0, 1)],
        &[(0, 4_000_001)],
    ),
    (
        &[(MOST, 4_000_000), (MOST, 4_000_000)],
        &[(0, 1)],
        &[(MOST, 4_000_000), (MOST, 4_000_000)],
    ),
];

fn small<L: Ledger, const W: usize>(
    rt: &impl Abort,
    room: &mut Room<W>,
    steps: &mut Steps<L>,
) -> Result<(), Fail>
    requires { W ≤ 2 }
{
    for (rates, pairs, parts) in &SMALL {
        case(rt, room, steps, rates, pairs, parts)?;
    }
    Ok(())
}

fn extremes<L: Ledger, const W: usize>(
    rt: &impl Abort,
    room: &mut Room<W>,
    steps: &mut Steps<L>,
) -> Result<(), Fail>
    requires { W ≤ 2 }
{
    for (rates, pairs, parts) in &EXTREMES {
        case(rt, room, steps, rates, pairs, parts)?;
    }
    Ok(())
}

/// How places depend on one another.
#[derive(Clone, Copy, Debug)]
enum Shape {
    Chain,
    FromOne,
    ToOne,
    Comb,
    Scattered,
}

const SHAPES: [Shape; 5] = [
    Shape::Chain,
    Shape::FromOne,
    Shape::ToOne,
    Shape::Comb,
    Shape::Scattered,
];

/// A pair of a shape of `count` places, which are at least 2.
fn pair_of(rt: &impl Abort, shape: Shape, count: usize, place: usize) -> (usize, usize) {
    assert!(rt; 1 <= place);
    assert!(rt; place < count);
    assert!(rt; count <= 1000);
    match shape {
        Shape::Chain => (place - 1, place),
        Shape::FromOne => (0, place),
        Shape::ToOne => (place - 1, count - 1),
        Shape::Comb if place % 2 == 0 => (place - 2, place),
        Shape::Comb => (place - 1, place),
        Shape::Scattered => ((place * place + 11) / 3 % place, place),
    }
}

/// As many places as there is room for, with fees about 0 in no order.
fn shaped<const W: usize>(rt: &impl Abort, alloc: Global, shape: Shape) -> Result<Rows, Fail>
    requires { W ≤ 2 }
{
    let count = 64 * W;
    let mut rates = Vec::new(alloc);
    let mut pairs = Vec::new(alloc);
    for place in 0..count {
        let fee = (place * 7919 + 13) % 1000;
        let size = (place * 104_729) % 901;
        rates.push((fee as i64 - 300, size as u64 + 100))?;
        if place > 0 {
            pairs.push(pair_of(rt, shape, count, place))?;
        }
    }
    Ok(Rows { rates, pairs })
}

/// A chain of as many places as there is room for, each paying by a step more than its parent.
fn slope<const W: usize>(alloc: Global, first: i64, step: i64) -> Result<Rows, Fail>
    requires { W ≤ 2 }
{
    let mut rates = Vec::new(alloc);
    let mut pairs = Vec::new(alloc);
    let mut fee = first;
    for place in 0..64 * W {
        rates.push((fee, 1))?;
        if place > 0 {
            pairs.push((place - 1, place))?;
        }
        fee = fee.saturating_add(step);
    }
    Ok(Rows { rates, pairs })
}

/// A chain in which the fee rises is one part.
fn rising<L: Ledger, const W: usize>(
    rt: &impl Abort,
    room: &mut Room<W>,
    steps: &mut Steps<L>,
) -> Result<(), Fail>
    requires { W ≤ 2 }
{
    let whole = if W == 1 { (2016, 64) } else { (8128, 128) };
    let rows = slope::<W>(room.alloc, 0, 1)?;
    let rates = rows.rates.as_slice();
    case(rt, room, steps, rates, rows.pairs.as_slice(), &[whole])
}

/// Where it stays, each member is one part.
fn level<L: Ledger, const W: usize>(
    rt: &impl Abort,
    room: &mut Room<W>,
    steps: &mut Steps<L>,
) -> Result<(), Fail>
    requires { W ≤ 2 }
{
    let rows = slope::<W>(room.alloc, MOST, 0)?;
    let rates = rows.rates.as_slice();
    case(rt, room, steps, rates, rows.pairs.as_slice(), rates)
}

/// So it is where the fee falls.
fn falling<L: Ledger, const W: usize>(
    rt: &impl Abort,
    room: &mut Room<W>,
    steps: &mut Steps<L>,
) -> Result<(), Fail>
    requires { W ≤ 2 }
{
    let rows = slope::<W>(room.alloc, 64, -1)?;
    let rates = rows.rates.as_slice();
    case(rt, room, steps, rates, rows.pairs.as_slice(), rates)
}

/// As many places as there is room for, in each shape.
fn full<L: Ledger, const W: usize>(
    rt: &impl Abort,
    room: &mut Room<W>,
    steps: &mut Steps<L>,
) -> Result<(), Fail>
    requires { W ≤ 2 }
{
    for shape in &SHAPES {
        let rows = shaped::<W>(rt, room.alloc, *shape)?;
        certified(
            rt,
            room,
            steps,
            rows.rates.as_slice(),
            rows.pairs.as_slice(),
        )?;
    }
    Ok(())
}

fn shown<L: Ledger, const W: usize>(
    rt: &impl Abort,
    room: &mut Room<W>,
    steps: &mut Steps<L>,
) -> Result<(), Fail>
    requires { W ≤ 2 }
{
    small(rt, room, steps)?;
    extremes(rt, room, steps)?;
    rising(rt, room, steps)?;
    level(rt, room, steps)?;
    falling(rt, room, steps)?;
    full(rt, room, steps)
}

fn each<L: Ledger, const W: usize>(
    rt: &impl Abort,
    alloc: Global,
    steps: &mut Steps<L>,
) -> Result<(), Fail>
    requires { W ≤ 2 }
{
    let scratch = Scratch::new(alloc)?;
    let out = Linear::<W>::new(alloc)?;
    let mut room = Room {
        alloc,
        scratch,
        out,
    };
    shown(rt, &mut room, steps)
}

fn all<K: ledger::Ledger>(rt: &impl Abort, alloc: Global, blank: Blank) -> Result<(), Fail>
    requires name { blank.name ≡ K.name }
    requires parts { blank.parts ≡ K.parts }
    requires some { 0 < blank.parts }
{
    let mut steps = Steps::new(Counted::<K>::new(blank));
    each::<Counted<K>, 1>(rt, alloc, &mut steps)?;
    each::<Counted<K>, 2>(rt, alloc, &mut steps)?;
    assert!(rt; steps.ledger().shown() > 0);
    Ok(())
}

#[test]
fn orders_are_certified(rt: HostRuntime) -> Result<(), Fail> {
    all::<Brand>(&rt, rt.alloc(), Blank::new(1))
}
