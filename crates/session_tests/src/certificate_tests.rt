ghost use Rattle.std.specs.Prelude.{◌*◌, ◌^◌, ◌≢◌, ◌≤◌, [], All, IfOk};
ghost use Rattle.certificate.specs.Accounts.{amount_of};
ghost use Rattle.certificate.specs.Answers.{AreClaims};

use certificate::{CheckFault, EdgeList, FlowList, Part, TxList, Written, check};
use fee_rate::Sum;
use graphs::{Flow, IdList};
use std::alloc::Global;
use std::process::Abort;
use std::test::Fail;

/// A part as a row has it: fee and size, names, and flows as (child, parent, amount).
type Claim = ((i128, u64), &'static [u64], &'static [(u64, u64, u128)]);

/// A row: transactions as (name, fee, size), edges as (parent, child), and parts.
#[derive(Clone, Copy)]
struct Row {
    txs: &'static [(u64, i64, u64)],
    edges: &'static [(u64, u64)],
    claims: &'static [Claim],
}

/// Flows whose amounts are asserted to be at least 1 and far below the limit.
fn flows_of(rt: &impl Abort, alloc: Global, rows: &[(u64, u64, u128)]) -> Result<Vec<Flow>, Fail>
    ensures some { IfOk result (λ flows. All (λ flow. 1 ≤ flow.amount) flows.items) }
    ensures small { IfOk result (λ flows. amount_of flows.items ≤ 100 * 2 ^ 64) }
{
    assert!(rt; rows.len() <= 100);
    let mut flows = Vec::new(alloc);
    for (child, parent, amount) in rows {
        assert!(rt; *amount >= 1);
        assert!(rt; *amount <= 0xffff_ffff_ffff_ffff);
        flows.push(Flow {
            child: *child,
            parent: *parent,
            amount: *amount,
        })?;
    }
    Ok(flows)
}

/// A part that has a name.
fn part_of(rt: &impl Abort, alloc: Global, claim: &Claim) -> Result<Part, Fail>
    ensures filled { IfOk result (λ part. part.ids ≢ []) }
    ensures some { IfOk result (λ part. All (λ flow. 1 ≤ flow.amount) part.flows) }
    ensures small { IfOk result (λ part. amount_of part.flows ≤ 100 * 2 ^ 64) }
{
    assert!(rt; claim.1.len() > 0);
    let ids = claim.1.to_vec(alloc)?;
    let flows = flows_of(rt, alloc, claim.2)?;
    Ok(Part {
        rate: Sum {
            fee: claim.0.0,
            size: claim.0.1,
        },
        ids: IdList::from_vec(ids),
        flows: FlowList::from_vec(flows),
    })
}

/// The parts of a row.
fn parts_of(rt: &impl Abort, alloc: Global, claims: &[Claim]) -> Result<Vec<Part>, Fail>
    ensures { IfOk result (λ parts. AreClaims parts.items) }
{
    assert!(rt; claims.len() <= 100);
    let mut parts = Vec::new(alloc);
    for claim in claims {
        parts.push(part_of(rt, alloc, claim)?)?;
    }
    Ok(parts)
}

/// A graph as it is written.
fn written(alloc: Global, txs: &[(u64, i64, u64)], edges: &[(u64, u64)]) -> Result<Written, Fail> {
    Ok(Written {
        txs: TxList::from_vec(txs.to_vec(alloc)?),
        edges: EdgeList::from_vec(edges.to_vec(alloc)?),
    })
}

/// What `check` answers. No test needs more of its contract, which would cost each of them its proof.
fn answer(alloc: Global, graph: &Written, parts: &[Part]) -> Result<(), CheckFault>
    requires { AreClaims parts.now }
{
    check(alloc, graph, parts)
}

/// Compares what `check` answers on a graph and the parts of a row.
fn compare_parts(
    rt: &impl Abort,
    alloc: Global,
    graph: &Written,
    claims: &[Claim],
    wanted: Result<(), CheckFault>,
) -> Result<(), Fail> {
    let parts = parts_of(rt, alloc, claims)?;
    assert_eq!(rt; answer(alloc, graph, parts.as_slice()), wanted);
    Ok(())
}

/// Compares what `check` answers on a row.
fn compare(
    rt: &impl Abort,
    alloc: Global,
    row: &Row,
    wanted: Result<(), CheckFault>,
) -> Result<(), Fail> {
    let graph = written(alloc, row.txs, row.edges)?;
    compare_parts(rt, alloc, &graph, row.claims, wanted)
}

/// Compares what `check` answers on each row.
fn play(
    rt: &impl Abort,
    alloc: Global,
    rows: &[Row],
    wanted: Result<(), CheckFault>,
) -> Result<(), Fail> {
    for row in rows {
        compare(rt, alloc, row, wanted)?;
    }
    Ok(())
}

const ACCEPTED: [Row; 3] = [
    Row {
        txs: &[],
        edges: &[],
        claims: &[],
    },
    Row {
        txs: &[(1, 100, 200), (2, 900, 200)],
        edges: &[(1, 2)],
        claims: &[((1000, 400), &[1, 2], &[(2, 1, 160_000)])],
    },
    Row {
        txs: &[(1, 0, 1), (2, 0, 1), (3, 3, 1)],
        edges: &[(1, 2), (2, 3), (1, 3)],
        claims: &[((3, 3), &[1, 2, 3], &[(3, 1, 3), (3, 2, 3)])],
    },
];

#[test]
fn a_certificate_is_accepted(rt: HostRuntime) -> Result<(), Fail> {
    play(&rt, rt.alloc(), &ACCEPTED, Ok(()))
}

const NO_GRAPH: [Row; 4] = [
    Row {
        txs: &[(1, 100, 200), (2, 900, 200)],
        edges: &[(1, 2), (2, 1)],
        claims: &[((1000, 400), &[1, 2], &[(2, 1, 160_000)])],
    },
    Row {
        txs: &[(1, 1, 1), (2, 1, 1)],
        edges: &[(1, 2), (2, 1)],
        claims: &[((2, 2), &[1, 2], &[])],
    },
    Row {
        txs: &[(1, 1, 1)],
        edges: &[(1, 1)],
        claims: &[((1, 1), &[1], &[])],
    },
    Row {
        txs: &[(1, 2_100_000_000_000_001, 1)],
        edges: &[],
        claims: &[((2_100_000_000_000_001, 1), &[1], &[])],
    },
];

#[test]
fn what_is_no_graph_is_refused_first(rt: HostRuntime) -> Result<(), Fail> {
    play(&rt, rt.alloc(), &NO_GRAPH, Err(CheckFault::Graph))
}

const NO_ORDER: [Row; 4] = [
    Row {
        txs: &[(1, 100, 200), (2, 900, 200)],
        edges: &[(1, 2)],
        claims: &[((1000, 400), &[2, 1], &[(2, 1, 160_000)])],
    },
    Row {
        txs: &[(1, 1, 1), (2, 2, 2)],
        edges: &[],
        claims: &[((3, 3), &[1, 2], &[])],
    },
    Row {
        txs: &[(1, 1, 1)],
        edges: &[],
        claims: &[((1, 1), &[2], &[])],
    },
    Row {
        txs: &[(1, 1, 1)],
        edges: &[],
        claims: &[],
    },
];

#[test]
fn what_is_no_order_is_refused(rt: HostRuntime) -> Result<(), Fail> {
    play(&rt, rt.alloc(), &NO_ORDER, Err(CheckFault::Order))
}

const RISING: [Row; 3] = [
    Row {
        txs: &[(1, 100, 200), (2, 900, 200)],
        edges: &[(1, 2)],
        claims: &[((1001, 400), &[1, 2], &[(2, 1, 160_000)])],
    },
    Row {
        txs: &[(1, 1, 1), (2, 2, 1)],
        edges: &[],
        claims: &[((1, 1), &[1], &[]), ((2, 1), &[2], &[])],
    },
    Row {
        txs: &[(1, 1, 1)],
        edges: &[],
        claims: &[((1_000_000_000_000_000_000_000_000_000_000, 1), &[1], &[])],
    },
];

#[test]
fn rates_that_do_not_fall_are_refused(rt: HostRuntime) -> Result<(), Fail> {
    play(&rt, rt.alloc(), &RISING, Err(CheckFault::Falling))
}

const FLOWS: [Row; 5] = [
    Row {
        txs: &[(1, 100, 200), (2, 900, 200)],
        edges: &[(1, 2)],
        claims: &[((1000, 400), &[1, 2], &[(2, 1, 159_999)])],
    },
    Row {
        txs: &[(1, 0, 10), (2, 6, 5), (3, 6, 5)],
        edges: &[(1, 2), (1, 3)],
        claims: &[((12, 20), &[1, 2, 3], &[(2, 1, 120), (3, 2, 60)])],
    },
    Row {
        txs: &[(1, 100, 200), (2, 900, 200)],
        edges: &[(1, 2)],
        claims: &[((1000, 400), &[1, 2], &[(2, 1, 80_000), (2, 1, 80_000)])],
    },
    Row {
        txs: &[(1, 100, 200), (2, 900, 200)],
        edges: &[(1, 2)],
        claims: &[((1000, 400), &[1, 2], &[(2, 9, 160_000)])],
    },
    Row {
        txs: &[(1, 900, 200), (2, 100, 200)],
        edges: &[(1, 2)],
        claims: &[((900, 200), &[1], &[]), ((100, 200), &[2], &[(2, 1, 1)])],
    },
];

#[test]
fn flows_that_do_not_certify_are_refused(rt: HostRuntime) -> Result<(), Fail> {
    play(&rt, rt.alloc(), &FLOWS, Err(CheckFault::Flow))
}
