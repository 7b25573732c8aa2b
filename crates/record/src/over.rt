//! Links in the place of an order.
ghost use Rattle.std.specs.Prelude.{◌≡◌, ◌↔◌, ℕ, ◌≤◌, [], map, Contains, IfOk, OnOk};
ghost use Rattle.cluster.specs.Clusters.{IsCluster};
ghost use Rattle.graphs.specs.Closures.{IsCover};
ghost use Rattle.links.specs.Links.{AreLinks};
ghost use Rattle.links.specs.Pairs.{HasMore};
ghost use Rattle.record.specs.Kept.{unordered};
ghost use Rattle.record.specs.Parents.{AddsParents, ArePairsAbove, tx_of};

use component::Component;
use graphs::TxId;
use links::Links;
use outside::NoMemory;
use std::alloc::Global;

/// The links of a component with its order: its names, and as pairs the parents of each name with no third name between.
pub(crate) fn links_of<const W: usize>(
    alloc: Global,
    component: &Component<W>,
) -> Result<Links, NoMemory>
    requires { W ≤ 2 }
    ensures { IfOk result (λ links. AreLinks links × (unordered links ≡ record component.now { parts = [] })) }
{
    let _names = component.names();
    let txs = txs_of(alloc, component)?;
    let pairs = pairs_of(alloc, component)?;
    let links = Links::new(alloc, txs.as_slice(), pairs.as_slice())?;
    let _txs = links.txs();
    Ok(links)
}

// The names with their fees and sizes.
fn txs_of<const W: usize>(
    alloc: Global,
    component: &Component<W>,
) -> Result<Vec<(TxId, i64, u64)>, NoMemory>
    ensures { IfOk result (λ txs. txs.items ≡ map (tx_of component.now.graph) component.now.names) }
{
    let names = component.names();
    let mut txs = Vec::with_capacity(alloc, names.len())?;
    for at in 0..names.len() {
        let rate = component.rate_at(at);
        txs.push_reserved((names[at], rate.fee, rate.size));
    }
    Ok(txs)
}

// The pairs of each name and its parents with no third name between.
fn pairs_of<const W: usize>(
    alloc: Global,
    component: &Component<W>,
) -> Result<Vec<(TxId, TxId)>, NoMemory>
    requires { W ≤ 2 }
    ensures { IfOk result (λ pairs. ArePairsAbove component.now.graph component.now.names pairs.items) }
{
    let names = component.names();
    let mut pairs = Vec::new(alloc);
    for at in 0..names.len() {
        add_parents(&mut pairs, component, names[at])?;
    }
    Ok(pairs)
}

// Adds the pairs of a name and its parents with no third name between.
fn add_parents<const W: usize>(
    pairs: &mut Vec<(TxId, TxId)>,
    component: &Component<W>,
    id: TxId,
) -> Result<(), NoMemory>
    requires narrow { W ≤ 2 }
    requires id { Contains component.now.names id }
    ensures { OnOk result (AddsParents component.now.graph id pairs.old.items pairs.new.items) }
{
    for parent in component.covers(id) {
        pairs.push((parent, id))?;
    }
    Ok(())
}
