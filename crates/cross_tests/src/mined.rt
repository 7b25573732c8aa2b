//! Mined blocks as plain lists: what a block takes out of main, and what putting it back makes.
use crate::trimmed::{component, size_of};
use graph_model::{Limits, Refusal, TxId};
use plain_graph::{Plain, Tx};
use std::alloc::{AllocError, Global};
use std::process::Abort;

/// What a mined block took out of main.
#[derive(Drop)]
pub struct Block {
    pub txs: Vec<Tx>,
    pub pairs: Vec<(TxId, TxId)>,
}

/// The names that pairs lead down to from a name, itself among them.
fn below(alloc: Global, pairs: &[(TxId, TxId)], id: TxId) -> Result<Vec<TxId>, AllocError> {
    let mut ids = Vec::new(alloc);
    ids.push(id)?;
    for _ in pairs {
        let before = ids.len();
        for (parent, child) in pairs {
            if ids.contains(parent) && !ids.contains(child) {
                ids.push(*child)?;
            }
        }
        if ids.len() == before {
            break;
        }
    }
    Ok(ids)
}

/// The block that listed names of a graph make.
pub fn block_of(alloc: Global, graph: &Plain, ids: &[TxId]) -> Result<Block, AllocError> {
    let mut txs = Vec::new(alloc);
    let mut pairs = Vec::new(alloc);
    for id in ids {
        for tx in graph.txs() {
            if tx.id == *id {
                txs.push(*tx)?;
            }
        }
        for other in &below(alloc, graph.pairs(), *id)? {
            if other != id {
                pairs.push((*id, *other))?;
            }
        }
    }
    Ok(Block { txs, pairs })
}

/// Whether one of some transactions has the name.
fn has(txs: &[Tx], id: TxId) -> bool {
    for tx in txs {
        if tx.id == id {
            return true;
        }
    }
    false
}

/// Why a block can't be put back into a graph: a name is there, there would be too many, or a component of a listed one would be over the limits.
pub fn refused(
    alloc: Global,
    limits: &Limits,
    graph: &Plain,
    block: &Block,
) -> Result<Option<Refusal>, AllocError> {
    for tx in &block.txs {
        if has(graph.txs(), tx.id) {
            return Ok(Some(Refusal::Back(tx.id)));
        }
    }
    let (txs, pairs) = with(alloc, graph, block)?;
    if txs.len() as u64 > limits.total {
        return Ok(Some(Refusal::Full));
    }
    if limits.defer {
        return Ok(None);
    }
    let mut all = Vec::new(alloc);
    for tx in &txs {
        all.push(tx.id)?;
    }
    for tx in &block.txs {
        let ids = component(alloc, &pairs, &all, tx.id)?;
        if ids.len() as u64 > limits.count {
            return Ok(Some(Refusal::Count(ids.len() as u64)));
        }
        if size_of(&txs, &ids) > limits.size {
            return Ok(Some(Refusal::ClusterSize(size_of(&txs, &ids))));
        }
    }
    Ok(None)
}

/// Transactions, and pairs (parent, child).
type Lists = (Vec<Tx>, Vec<(TxId, TxId)>);

/// The transactions and pairs of a graph with those of a block whose child is then there.
fn with(alloc: Global, graph: &Plain, block: &Block) -> Result<Lists, AllocError> {
    let mut txs = Vec::new(alloc);
    txs.extend_from_slice(graph.txs())?;
    txs.extend_from_slice(&block.txs)?;
    let mut pairs = Vec::new(alloc);
    pairs.extend_from_slice(graph.pairs())?;
    for (parent, child) in &block.pairs {
        if has(&txs, *child) {
            pairs.push((*parent, *child))?;
        }
    }
    Ok((txs, pairs))
}

/// The graph with a block put back.
pub fn restored(
    rt: &impl Abort,
    alloc: Global,
    limits: &Limits,
    graph: &Plain,
    block: &Block,
) -> Result<Plain, Refusal> {
    let (txs, pairs) = with(alloc, graph, block).map_err(|_| Refusal::Memory)?;
    let mut new = Plain::new(alloc).map_err(|_| Refusal::Memory)?;
    new.set_limits(*limits)?;
    for tx in &txs {
        assert!(rt; new.additions() < 1_000_000);
        new.add(tx.id, tx.fee, tx.size)?;
    }
    for (parent, child) in &pairs {
        new.dep(*parent, *child)?;
    }
    Ok(new)
}
