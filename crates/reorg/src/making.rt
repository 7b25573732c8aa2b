//! The block of names that are to be mined.
ghost use Rattle.std.specs.Prelude.{◌≡◌, ◌≢◌, ◌↔◌, ℕ, ◌+◌, ◌*◌, ◌≤◌, true, length, map, Contains, IfOk, OnOk};
ghost use Rattle.graphs.specs.declared.names.Level.TheVariants.{Main};
ghost use Rattle.graphs.specs.Closures.{is_ancestor, is_member};
ghost use Rattle.levels.specs.Levels.{IsWithin};
ghost use Rattle.links.specs.Leaving.{Adds};
ghost use Rattle.reorg.specs.Blocks.{AreNamesOf, ArePairsOf, IsBelow, IsBlockOf, tx_of};

use crate::block::Block;
use crate::linking::pairs_in_links;
use graph_model::{IdBuf, IdList, Level, TxId};
use outside::NoMemory;
use std::alloc::Global;
use tx_graph::TxGraph;

/// The block of some names of main. Nothing changes.
pub(crate) fn block_of<const W: usize>(
    alloc: Global,
    graph: &TxGraph<W>,
    ids: &[TxId],
) -> Result<Block, NoMemory>
    requires { AreNamesOf graph.now.levels.main.graph ids.now }
    ensures { IfOk result (IsBlockOf graph.now.levels.main.graph ids.now) }
{
    let txs = txs_of(alloc, graph, ids)?;
    let pairs = pairs_of(alloc, graph, ids)?;
    let ids = Vec::from_slice(alloc, ids)?;
    Ok(Block::new(txs, pairs, IdList::from_vec(ids)))
}

/// Names of main with their fees and sizes, in their order.
pub(crate) fn txs_of<const W: usize>(
    alloc: Global,
    graph: &TxGraph<W>,
    ids: &[TxId],
) -> Result<Vec<(TxId, i64, u64)>, NoMemory>
    requires { AreNamesOf graph.now.levels.main.graph ids.now }
    ensures { IfOk result (λ list. list.items ≡ map (tx_of graph.now.levels.main.graph) ids.now) }
{
    let mut list = Vec::with_capacity(alloc, ids.len())?;
    for id in ids {
        let rate = graph.rate(Level::Main, *id);
        list.push((*id, rate.fee, rate.size))?;
    }
    Ok(list)
}

/// The pairs of names of main, each with each of its other descendants there.
fn pairs_of<const W: usize>(
    alloc: Global,
    graph: &TxGraph<W>,
    ids: &[TxId],
) -> Result<Vec<(TxId, TxId)>, NoMemory>
    requires { AreNamesOf graph.now.levels.main.graph ids.now }
    ensures { IfOk result (λ list. ArePairsOf graph.now.levels.main.graph ids.now list.items) }
{
    // an oversized level answers no questions about clusters
    if graph.oversized(Level::Main) {
        return pairs_in_links(alloc, graph, ids);
    }
    pairs_in_clusters(alloc, graph, ids)
}

/// The same where main isn't oversized: of a transaction's cluster alone.
fn pairs_in_clusters<const W: usize>(
    alloc: Global,
    graph: &TxGraph<W>,
    ids: &[TxId],
) -> Result<Vec<(TxId, TxId)>, NoMemory>
    requires names { AreNamesOf graph.now.levels.main.graph ids.now }
    requires within { IsWithin graph.now.levels Main }
    ensures { IfOk result (λ list. ArePairsOf graph.now.levels.main.graph ids.now list.items) }
{
    let mut found = IdBuf::new(alloc, most_members(graph))?;
    let mut list = Vec::new(alloc);
    for id in ids {
        put_below(&mut list, graph, *id, &mut found)?;
    }
    Ok(list)
}

/// The most names that a cluster may have.
fn most_members<const W: usize>(graph: &TxGraph<W>) -> usize
    requires { IsWithin graph.now.levels Main }
    ensures { result ≡ 64 * W }
{
    let _narrow = graph.held(Level::Main);
    64 * W
}

/// Puts behind a list the pairs of a name with each of its other descendants in main.
fn put_below<const W: usize>(
    list: &mut Vec<(TxId, TxId)>,
    graph: &TxGraph<W>,
    id: TxId,
    found: &mut IdBuf,
) -> Result<(), NoMemory>
    requires member { is_member graph.now.levels.main.graph id ≡ true }
    requires within { IsWithin graph.now.levels Main }
    requires room { 64 * W ≤ length found.old.ids + found.old.room }
    ensures room { length found.new.ids + found.new.room ≡ length found.old.ids + found.old.room }
    ensures adds { OnOk result (Adds (λ m d. (m ≡ id) × IsBelow graph.now.levels.main.graph m d) list.old.items list.new.items) }
{
    find_below(graph, id, found);
    put_others(list, id, found.ids())
}

/// Leaves the descendants of a name in a list.
fn find_below<const W: usize>(graph: &TxGraph<W>, id: TxId, found: &mut IdBuf)
    requires member { is_member graph.now.levels.main.graph id ≡ true }
    requires within { IsWithin graph.now.levels Main }
    requires room { 64 * W ≤ length found.old.ids + found.old.room }
    ensures room { length found.new.ids + found.new.room ≡ length found.old.ids + found.old.room }
    ensures found { (d : ℕ) → Contains found.new.ids d ↔ (is_ancestor graph.now.levels.main.graph id d ≡ true) }
{
    let _stands = graph.additions();
    match graph.descendants(Level::Main, id, found) {
        Ok(()) => {}
        Err(_) => unreachable!(),
    }
}

/// Puts behind a list the pairs of a name with each other name of a list.
fn put_others(list: &mut Vec<(TxId, TxId)>, id: TxId, below: &[TxId]) -> Result<(), NoMemory>
    ensures { OnOk result (Adds (λ m d. (m ≡ id) × Contains below.now d × (m ≢ d)) list.old.items list.new.items) }
{
    for d in below {
        put_other(list, id, *d)?;
    }
    Ok(())
}

/// Puts a pair of two names behind a list, where they differ.
pub(crate) fn put_other(list: &mut Vec<(TxId, TxId)>, id: TxId, d: TxId) -> Result<(), NoMemory>
    ensures { OnOk result (Adds (λ a b. (a ≡ id) × (b ≡ d) × (id ≢ d)) list.old.items list.new.items) }
{
    if id != d {
        list.push((id, d))?;
    }
    Ok(())
}
