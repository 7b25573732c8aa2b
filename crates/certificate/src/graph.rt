ghost use Rattle.std.specs.Prelude.{length, IfOk, IfErr, MatchBool, MatchOption};
ghost use Rattle.lists.specs.Distinct.{AreDistinct};
ghost use Rattle.graphs.specs.Certificates.{HasGraph, graph_of};
ghost use Rattle.graphs.specs.Graphs.{IsGraph};
ghost use Rattle.fee_rate.specs.Limits.{IsFee, IsSize};
ghost use Rattle.certificate.specs.declared.fault.CheckFault.TheVariants.{Graph};
ghost use Rattle.certificate.specs.Faults.{Says};
ghost use Rattle.certificate.specs.Tables.{AreInLimits, AreTables, HaveRoom};

use crate::CheckFault;
use crate::cycles::is_acyclic;
use crate::names::{Edges, Names, take_edges, take_ends, take_places};
use fee_rate::{MAX_TOTAL, is_fee, is_size};
use graphs::TxId;
use std::alloc::{AllocError, Global};
use std::collections::{HashMap, HashSet};

/// What the later tests look up.
#[derive(Drop)]
pub(crate) struct Tables {
    pub(crate) names: Names,
    pub(crate) edges: Edges,
    /// The places of the ends of each edge.
    pub(crate) pairs: Vec<(usize, usize)>,
}

impl Tables {
    /// Empty tables with room for so many transactions and edges.
    fn with_room(alloc: Global, txs: usize, edges: usize) -> Result<Tables, AllocError>
        ensures { IfOk result (HaveRoom txs edges) }
    {
        Ok(Tables {
            names: HashMap::with_capacity(alloc, txs)?,
            edges: HashSet::with_capacity(alloc, edges)?,
            pairs: Vec::with_capacity(alloc, edges)?,
        })
    }
}

/// Whether what is written is a graph: each name and each edge stands once, edges are of the names, and no walk along edges leads back.
///
/// Neither fees nor sizes matter, nor how many transactions there are. The time is near-linear in the length of what is written.
///
/// # Errors
///
/// Fails where there is no memory.
pub fn is_graph(
    alloc: Global,
    txs: &[(TxId, i64, u64)],
    edges: &[(TxId, TxId)],
) -> Result<bool, AllocError>
    ensures { IfOk result (λ yes. MatchBool yes (IsGraph (graph_of txs.now edges.now))
        (IsGraph (graph_of txs.now edges.now) → ⊥)) }
{
    match tables_of(alloc, txs, edges)? {
        Some(_) => Ok(true),
        None => Ok(false),
    }
}

/// Whether what is written is a graph within the limits.
pub(crate) fn check_graph(
    alloc: Global,
    txs: &[(TxId, i64, u64)],
    edges: &[(TxId, TxId)],
) -> Result<Tables, CheckFault>
    ensures yes { IfOk result (λ _. HasGraph txs.now edges.now) }
    ensures tables { IfOk result (AreTables txs.now edges.now) }
    ensures fault { IfErr result (Says Graph (HasGraph txs.now edges.now)) }
{
    if !are_in_limits(txs) {
        return Err(CheckFault::Graph);
    }
    match tables_of(alloc, txs, edges)? {
        Some(tables) => Ok(tables),
        None => Err(CheckFault::Graph),
    }
}

/// The tables of what is written, or none where it is no graph.
fn tables_of(
    alloc: Global,
    txs: &[(TxId, i64, u64)],
    edges: &[(TxId, TxId)],
) -> Result<Option<Tables>, AllocError>
    ensures { IfOk result (λ found. MatchOption found (IsGraph (graph_of txs.now edges.now) → ⊥)
        (λ tables. IsGraph (graph_of txs.now edges.now) × AreTables txs.now edges.now tables)) }
{
    let mut tables = Tables::with_room(alloc, txs.len(), edges.len())?;
    if !are_listed(&mut tables, txs, edges) {
        return Ok(None);
    }
    let acyclic = is_acyclic(alloc, txs.len(), tables.pairs.as_slice())?;
    if !acyclic {
        return Ok(None);
    }
    Ok(Some(tables))
}

/// Fills empty tables that have the room. Whether names and edges stand once, and edges are of transactions.
fn are_listed(tables: &mut Tables, txs: &[(TxId, i64, u64)], edges: &[(TxId, TxId)]) -> bool
    requires { HaveRoom (length txs.now) (length edges.now) tables.old }
    ensures { MatchBool result (AreDistinct edges.now × AreTables txs.now edges.now tables.new)
        (IsGraph (graph_of txs.now edges.now) → ⊥) }
{
    take_places(&mut tables.names, txs)
        && take_ends(&mut tables.pairs, &tables.names, edges)
        && take_edges(&mut tables.edges, edges)
}

/// Whether there are few enough transactions, and fees and sizes are within the limits.
fn are_in_limits(txs: &[(TxId, i64, u64)]) -> bool
    ensures { MatchBool result (AreInLimits txs.now) (AreInLimits txs.now → ⊥) }
{
    if txs.len() as u64 > MAX_TOTAL {
        return false;
    }
    for tx in txs {
        if !is_in_limits(tx) {
            return false;
        }
    }
    true
}

/// Whether a transaction's fee and size are within the limits.
fn is_in_limits(tx: &(TxId, i64, u64)) -> bool
    ensures { MatchBool result (IsFee tx.now.1 × IsSize tx.now.2) (IsFee tx.now.1 × IsSize tx.now.2 → ⊥) }
{
    is_fee(tx.1) && is_size(tx.2)
}
