//! The pairs of names in a main that is oversized: along the dependencies of all of it.
ghost use Rattle.std.specs.Prelude.{◌≡◌, ◌≢◌, ◌↔◌, ℕ, List, true, Contains, IfOk, OnOk};
ghost use Rattle.lists.specs.Distinct.{AreDistinct};
ghost use Rattle.graphs.specs.Closing.{IsClosureOf};
ghost use Rattle.graphs.specs.Closures.{is_member};
ghost use Rattle.graphs.specs.Graphs.{IsAncestor};
ghost use Rattle.links.specs.Kept.{names_of};
ghost use Rattle.links.specs.Leaving.{Adds};
ghost use Rattle.links.specs.Links.{Has};
ghost use Rattle.reorg.specs.Blocks.{AreNamesOf, ArePairsBy, ArePairsOf, LeadsTo, LinksTell};

use crate::making::{put_other, txs_of};
use graph_model::{Level, TxId};
use graphs::Kin;
use links::Links;
use outside::NoMemory;
use std::alloc::Global;
use tx_graph::TxGraph;

/// The pairs of names of main, each with each of its other descendants there. The work is linear in the transactions of main and in its
/// dependencies, and in the pairs and the walks that lead to them.
pub(crate) fn pairs_in_links<const W: usize>(
    alloc: Global,
    graph: &TxGraph<W>,
    ids: &[TxId],
) -> Result<Vec<(TxId, TxId)>, NoMemory>
    requires { AreNamesOf graph.now.levels.main.graph ids.now }
    ensures { IfOk result (λ list. ArePairsOf graph.now.levels.main.graph ids.now list.items) }
{
    let mut links = links_of(alloc, graph)?;
    pairs_below(alloc, &mut links, ids)
}

/// All of main as links.
fn links_of<const W: usize>(alloc: Global, graph: &TxGraph<W>) -> Result<Links, NoMemory>
    ensures { IfOk result (LinksTell graph.now.levels.main.graph) }
{
    let _stands = graph.additions();
    let names = names_in(alloc, graph)?;
    let txs = txs_of(alloc, graph, names.as_slice())?;
    let pairs = pairs_in(alloc, graph)?;
    Links::new(alloc, txs.as_slice(), pairs.as_slice())
}

/// The names of main, each once.
fn names_in<const W: usize>(alloc: Global, graph: &TxGraph<W>) -> Result<Vec<TxId>, NoMemory>
    ensures names { IfOk result (λ list. (id : ℕ) → Contains list.items id
        ↔ (is_member graph.now.levels.main.graph id ≡ true)) }
    ensures once { IfOk result (λ list. AreDistinct list.items) }
{
    let mut list = Vec::new(alloc);
    for id in graph.names(Level::Main) {
        list.push(id)?;
    }
    Ok(list)
}

/// Dependencies of main of which walks are the ancestors.
fn pairs_in<const W: usize>(
    alloc: Global,
    graph: &TxGraph<W>,
) -> Result<Vec<(TxId, TxId)>, NoMemory>
    ensures { IfOk result (λ list. (names : List ℕ)
        → ((id : ℕ) → Contains names id ↔ (is_member graph.now.levels.main.graph id ≡ true))
        → IsClosureOf graph.now.levels.main.graph (record { names = names; pairs = list.items })) }
{
    let _stands = graph.additions();
    let mut txs = Vec::new(alloc);
    let mut list = Vec::new(alloc);
    for record in graph.components(Level::Main) {
        record.put_behind(alloc, &mut txs, &mut list)?;
    }
    Ok(list)
}

/// The pairs of names of links, each with each other name that walks lead to from it.
fn pairs_below(
    alloc: Global,
    links: &mut Links,
    ids: &[TxId],
) -> Result<Vec<(TxId, TxId)>, NoMemory>
    requires { (id : ℕ) → Contains ids.now id → Has links.old id }
    ensures { IfOk result (λ list. ArePairsBy (LeadsTo links.old.pairs) ids.now list.items) }
{
    let mut list = Vec::new(alloc);
    for id in ids {
        put_walked(&mut list, links, *id)?;
    }
    Ok(list)
}

/// Puts behind a list the pairs of a name with each other name that walks lead to from it.
fn put_walked(list: &mut Vec<(TxId, TxId)>, links: &mut Links, id: TxId) -> Result<(), NoMemory>
    requires { Has links.old id }
    ensures same { links.new ≡ links.old }
    ensures adds { OnOk result (Adds (λ m d. (m ≡ id) × LeadsTo links.old.pairs m d) list.old.items list.new.items) }
{
    for d in links.kin(&[id], Kin::Descendants) {
        put_other(list, id, d)?;
    }
    Ok(())
}
