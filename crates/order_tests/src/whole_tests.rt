//! Clusters of whole graphs, beside those that are made of their names one by one.
ghost use Rattle.std.specs.Prelude.{◌≡◌, ◌↔◌, true, Contains, IfOk};
ghost use Rattle.lists.specs.Distinct.{AreDistinct};

use crate::cluster_tests::{built, linked};
use crate::samples::{Room, graph_of, is_in};
use cluster::Cluster;
use dep_graph::DepGraph;
use graphs::TxId;
use linearize::{has_rates, is_component};
use std::alloc::Global;
use std::process::Abort;
use std::test::Fail;
use step_count::{Ledger, Steps};

// Whether a name is in a list.
fn stands_in(names: &[TxId], id: TxId) -> bool
    ensures { (result ≡ true) ↔ Contains names.now id }
{
    names.contains(&id)
}

// Names, asserted to be all different.
fn once(rt: &impl Abort, alloc: Global, names: &[TxId]) -> Result<Vec<TxId>, Fail>
    ensures { IfOk result (λ own. AreDistinct own.items) }
{
    let mut own = Vec::new(alloc);
    for name in names {
        assert!(rt; !stands_in(own.as_slice(), *name));
        own.push(*name)?;
    }
    Ok(own)
}

// The cluster of a graph whose members get names.
fn named<L: Ledger>(
    rt: &impl Abort,
    room: &mut Room<2>,
    steps: &mut Steps<L>,
    graph: &DepGraph<2>,
    names: &[TxId],
) -> Result<Cluster<2>, Fail>
    requires { AreDistinct names.now }
{
    assert!(rt; names.len() > 0);
    assert!(rt; names.len() == graph.members().count());
    assert!(rt; is_component(graph));
    assert!(rt; has_rates(graph));
    Ok(Cluster::whole(room.alloc, names, graph, &mut room.work, steps)?)
}

fn named_once<L: Ledger>(
    rt: &impl Abort,
    room: &mut Room<2>,
    steps: &mut Steps<L>,
    graph: &DepGraph<2>,
    names: &[TxId],
) -> Result<Cluster<2>, Fail> {
    let own = once(rt, room.alloc, names)?;
    named(rt, room, steps, graph, own.as_slice())
}

// A graph by its members and pairs, of which some members go again. Those that are left have names, upward, and the cluster
// of them is that which is made of names one by one, and of pairs.
struct Graph {
    rates: &'static [(i64, u64)],
    pairs: &'static [(usize, usize)],
    gone: &'static [usize],
    names: &'static [TxId],
    rows: &'static [(TxId, TxId, i64, u64)],
    links: &'static [(TxId, TxId)],
}

static GRAPHS: [Graph; 3] = [
    Graph {
        rates: &[(5, 10)],
        pairs: &[],
        gone: &[],
        names: &[9],
        rows: &[(9, 9, 5, 10)],
        links: &[],
    },
    Graph {
        rates: &[(0, 10), (6, 5), (6, 5), (5, 10)],
        pairs: &[(0, 1), (0, 2), (1, 3), (2, 3)],
        gone: &[],
        names: &[1, 2, 3, 4],
        rows: &[(1, 1, 0, 10), (1, 2, 6, 5), (1, 3, 6, 5), (2, 4, 5, 10)],
        links: &[(3, 4)],
    },
    // places 0, 3 and 7 are left
    Graph {
        rates: &[
            (1, 10),
            (0, 1),
            (0, 1),
            (8, 10),
            (0, 1),
            (0, 1),
            (0, 1),
            (3, 5),
        ],
        pairs: &[(0, 1), (1, 3), (3, 7)],
        gone: &[1, 2, 4, 5, 6],
        names: &[30, 10, 20],
        rows: &[(30, 30, 1, 10), (30, 10, 8, 10), (10, 20, 3, 5)],
        links: &[],
    },
];

// Takes members out of a graph.
fn thin(rt: &impl Abort, graph: &mut DepGraph<2>, gone: &[usize]) {
    for place in gone {
        assert!(rt; *place < 128);
        assert!(rt; is_in(graph, *place));
        graph.remove_bridging(*place);
    }
}

// The cluster of a graph.
fn of_graph<L: Ledger>(
    rt: &impl Abort,
    room: &mut Room<2>,
    steps: &mut Steps<L>,
    row: &Graph,
) -> Result<Cluster<2>, Fail> {
    let mut graph = graph_of(rt, room.alloc, row.rates, row.pairs)?;
    thin(rt, &mut graph, row.gone);
    named_once(rt, room, steps, &graph, row.names)
}

// Asserts that two clusters have the same names, and that as many parts of theirs have the same fees and sizes.
fn are_alike(rt: &impl Abort, one: &Cluster<2>, other: &Cluster<2>) {
    assert_eq!(rt; one.names(), other.names());
    assert!(rt; one.part_count() == other.part_count());
    for at in 0..one.part_count() {
        assert!(rt; at < other.part_count());
        assert!(rt; one.part_rate(at) == other.part_rate(at));
    }
}

// Adds dependencies to a cluster.
fn link_all<L: Ledger>(
    rt: &impl Abort,
    room: &mut Room<2>,
    steps: &mut Steps<L>,
    cluster: &mut Cluster<2>,
    pairs: &[(TxId, TxId)],
) -> Result<(), Fail> {
    for pair in pairs {
        *cluster = linked(rt, room, steps, cluster, pair.0, pair.1)?;
    }
    Ok(())
}

// Asserts that a cluster is as one that is made of names one by one, and of pairs.
fn is_as_built<L: Ledger>(
    rt: &impl Abort,
    room: &mut Room<2>,
    steps: &mut Steps<L>,
    made: &Cluster<2>,
    row: &Graph,
) -> Result<(), Fail> {
    let mut grown = built(rt, room, steps, row.rows)?;
    let done = link_all(rt, room, steps, &mut grown, row.links);
    are_alike(rt, made, &grown);
    drop(grown);
    done
}

fn case<L: Ledger>(
    rt: &impl Abort,
    room: &mut Room<2>,
    steps: &mut Steps<L>,
    row: &Graph,
) -> Result<(), Fail> {
    let made = of_graph(rt, room, steps, row)?;
    let done = is_as_built(rt, room, steps, &made, row);
    drop(made);
    done
}

fn cases<L: Ledger>(
    rt: &impl Abort,
    room: &mut Room<2>,
    steps: &mut Steps<L>,
    rows: &[Graph],
) -> Result<(), Fail> {
    for row in rows {
        case(rt, room, steps, row)?;
    }
    Ok(())
}

/// Clusters that are made of whole graphs.
pub(crate) fn each_graph<L: Ledger>(
    rt: &impl Abort,
    room: &mut Room<2>,
    steps: &mut Steps<L>,
) -> Result<(), Fail> {
    cases(rt, room, steps, &GRAPHS)
}
