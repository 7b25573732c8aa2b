ghost use Rattle.std.specs.Prelude.{◌≡◌, map, OnOk};
ghost use Rattle.graphs.specs.Certificates.{Certified, Finds, NoFalling, NoFlow, NoGraph, NoOrder, graph_of, rate_in};
ghost use Rattle.graphs.specs.Linearizations.{IsOptimal};
ghost use Rattle.certificate.specs.Answers.{AreClaims};
ghost use Rattle.certificate.specs.Parts.{parts_of};

use crate::falling::is_falling;
use crate::flows::check_flows;
use crate::graph::check_graph;
use crate::order::check_order;
use crate::{CheckFault, Part, Written};
use graphs::TxId;
use std::alloc::Global;

/// Checks that parts with flows are a certificate of the written graph.
///
/// Fees are in satoshis, sizes in virtual bytes, and amounts in satoshis times virtual bytes. Each part has a
/// name, each amount is at least 1, and the amounts sum to less than 2^127.
///
/// `Ok` says that all tests pass. Then the parts, in their order, are optimal for the whole graph: no closed
/// set of transactions pays more than their diagram at its size. The time is near-linear in the length of what
/// is written.
///
/// # Errors
///
/// Answers the first test that fails, in the order [`Graph`](CheckFault::Graph), [`Order`](CheckFault::Order),
/// [`Falling`](CheckFault::Falling), [`Flow`](CheckFault::Flow). [`Memory`](CheckFault::Memory) may come before
/// any of them.
pub fn check(alloc: Global, graph: &Written, parts: &[Part]) -> Result<(), CheckFault>
    requires { AreClaims parts.now }
    ensures yes { OnOk result (Finds graph.now.txs graph.now.edges (parts_of parts.now) Certified) }
    ensures optimal { OnOk result
        (IsOptimal (rate_in graph.now.txs) (graph_of graph.now.txs graph.now.edges)
        (map (λ part. part.ids) parts.now)) }
    ensures graph { result ≡ Err CheckFault.Graph → Finds graph.now.txs graph.now.edges (parts_of parts.now) NoGraph }
    ensures order { result ≡ Err CheckFault.Order → Finds graph.now.txs graph.now.edges (parts_of parts.now) NoOrder }
    ensures falling { result ≡ Err CheckFault.Falling
        → Finds graph.now.txs graph.now.edges (parts_of parts.now) NoFalling }
    ensures flow { result ≡ Err CheckFault.Flow → Finds graph.now.txs graph.now.edges (parts_of parts.now) NoFlow }
{
    let txs = graph.txs.as_slice();
    let edges = graph.edges.as_slice();
    check_lists(alloc, txs, edges, parts)
}

/// The tests, in their order.
fn check_lists(
    alloc: Global,
    txs: &[(TxId, i64, u64)],
    edges: &[(TxId, TxId)],
    parts: &[Part],
) -> Result<(), CheckFault>
    requires { AreClaims parts.now }
    ensures yes { OnOk result (Finds txs.now edges.now (parts_of parts.now) Certified) }
    ensures optimal { OnOk result
        (IsOptimal (rate_in txs.now) (graph_of txs.now edges.now) (map (λ part. part.ids) parts.now)) }
    ensures graph { result ≡ Err CheckFault.Graph → Finds txs.now edges.now (parts_of parts.now) NoGraph }
    ensures order { result ≡ Err CheckFault.Order → Finds txs.now edges.now (parts_of parts.now) NoOrder }
    ensures falling { result ≡ Err CheckFault.Falling → Finds txs.now edges.now (parts_of parts.now) NoFalling }
    ensures flow { result ≡ Err CheckFault.Flow → Finds txs.now edges.now (parts_of parts.now) NoFlow }
{
    let tables = check_graph(alloc, txs, edges)?;
    check_order(alloc, txs, &tables, parts)?;
    if !is_falling(txs, &tables.names, parts) {
        return Err(CheckFault::Falling);
    }
    check_flows(alloc, txs, &tables, parts)?;
    Ok(())
}
