//! What several tests begin with: dependency graphs by fees, sizes and pairs, and clusters of one name.
ghost use Rattle.std.specs.Prelude.{◌≡◌, ◌*◌, ◌<◌, ◌≤◌, [], ◌∷◌, IfOk};
ghost use Rattle.graphs.specs.Closures.{is_member};

use cluster::{Cluster, Work};
use dep_graph::DepGraph;
use fee_rate::{FeeRate, is_rate};
use graphs::TxId;
use std::alloc::Global;
use std::process::Abort;
use std::test::Fail;
use step_count::{Ledger, Steps};

/// Whether a place is a member.
pub(crate) fn is_in<const W: usize>(graph: &DepGraph<W>, place: usize) -> bool
    requires few { W ≤ 2 }
    requires place { place < 64 * W }
    ensures { result ≡ is_member graph.now place }
{
    graph.members().has(place)
}

/// Adds a member, by its fee and its size, and tells its place.
pub(crate) fn add<const W: usize>(
    rt: &impl Abort,
    graph: &mut DepGraph<W>,
    fee: i64,
    size: u64,
) -> Result<usize, Fail>
    requires { W ≤ 2 }
{
    assert!(rt; graph.members().count() < 64 * W);
    Ok(graph.add(fee, size)?)
}

/// Makes a member depend on another.
pub(crate) fn link<const W: usize>(
    rt: &impl Abort,
    graph: &mut DepGraph<W>,
    parent: usize,
    child: usize,
)
    requires { W ≤ 2 }
{
    assert!(rt; parent < 64 * W);
    assert!(rt; child < 64 * W);
    assert!(rt; is_in(graph, parent));
    assert!(rt; is_in(graph, child));
    assert!(rt; !graph.would_cycle(parent, child));
    graph.add_dep(parent, child);
}

/// Members by fee and size, and pairs of a parent and a child.
pub(crate) fn graph_of<const W: usize>(
    rt: &impl Abort,
    alloc: Global,
    rates: &[(i64, u64)],
    pairs: &[(usize, usize)],
) -> Result<DepGraph<W>, Fail>
    requires { W ≤ 2 }
{
    let mut graph = DepGraph::new(alloc);
    add_all(rt, &mut graph, rates)?;
    for (parent, child) in pairs {
        link(rt, &mut graph, *parent, *child);
    }
    Ok(graph)
}

// Adds members by fee and size.
fn add_all<const W: usize>(
    rt: &impl Abort,
    graph: &mut DepGraph<W>,
    rates: &[(i64, u64)],
) -> Result<(), Fail>
    requires { W ≤ 2 }
{
    for (fee, size) in rates {
        add(rt, graph, *fee, *size)?;
    }
    Ok(())
}

/// The room in which clusters are made.
#[derive(Drop)]
pub(crate) struct Room<const W: usize> {
    pub(crate) alloc: Global,
    pub(crate) work: Work<W>,
}

/// The cluster of one name, with its fee and its size.
pub(crate) fn alone<L: Ledger, const W: usize>(
    rt: &impl Abort,
    room: &mut Room<W>,
    steps: &mut Steps<L>,
    id: TxId,
    fee: i64,
    size: u64,
) -> Result<Cluster<W>, Fail>
    requires { W ≤ 2 }
    ensures { IfOk result (λ c. c.names ≡ id ∷ []) }
{
    assert!(rt; is_rate(FeeRate { fee, size }));
    Ok(Cluster::single(room.alloc, id, fee, size, &mut room.work, steps)?)
}
