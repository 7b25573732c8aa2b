//! Tests whether transactions and edges are the text of a graph.
//!
//! The tests of single entries and of neighbours come first, then the test of the graph, then that of covering pairs. An edge is none
//! exactly where its parent is an ancestor of another parent of its child. So only edges to children of several parents take a walk, one
//! each.
ghost use Rattle.std.specs.Prelude.{◌≡◌, ◌≢◌, ℕ, ◌<◌, length, slice_index_or, not, Contains, IfOk, IsTrue, MatchBool};
ghost use Rattle.std.specs.List.Sorted.{IsStrictlyIncreasing};
ghost use Rattle.fee_rate.specs.Limits.{IsFee, IsSize};
ghost use Rattle.graphs.specs.Graphs.{HasNoCycle};
ghost use Rattle.graph_model.specs.Changes.{ids_of};
ghost use Rattle.graph_model.specs.Dumps.{EdgesRise, IsGraphText};
ghost use Rattle.links.specs.Links.{AreInRange};
ghost use Rattle.dump_text.specs.Lists.{text_of};
ghost use Rattle.dump_text.specs.Testing.{AreCovers, AreInOrder, AreLinksOf, IsBefore, StandsAlone};

use crate::entries::{Edge, Lists, Tx};
use certificate::is_graph;
use fee_rate::{is_fee, is_size};
use graph_model::TxId;
use graphs::Kin;
use links::Links;
use outside::NoMemory;
use std::alloc::Global;

/// Whether the lists are the text of a graph: names rise, with fees and sizes in range; edges rise, are of these names, make no cycle, and
/// none is implied by others.
pub(crate) fn is_graph_text(alloc: Global, lists: &Lists) -> Result<bool, NoMemory>
    ensures { IfOk result (λ yes. MatchBool yes (IsGraphText (text_of lists.now)) (IsGraphText (text_of lists.now) → ⊥)) }
{
    is_text(alloc, lists.txs.as_slice(), lists.edges.as_slice())
}

/// Whether transactions and edges are the text of a graph.
fn is_text(alloc: Global, txs: &[Tx], edges: &[Edge]) -> Result<bool, NoMemory>
    ensures { IfOk result (λ yes. MatchBool yes (IsGraphText (record { txs = txs.now; edges = edges.now }))
        (IsGraphText (record { txs = txs.now; edges = edges.now }) → ⊥)) }
{
    if !are_in_order(txs, edges) {
        return Ok(false);
    }
    let graph = is_graph(alloc, txs, edges)?;
    if !graph {
        return Ok(false);
    }
    let mut links = Links::new(alloc, txs, edges)?;
    Ok(are_covers(&mut links, edges))
}

/// Whether names rise, fees and sizes are in range, and edges rise.
fn are_in_order(txs: &[Tx], edges: &[Edge]) -> bool
    ensures { MatchBool result (AreInOrder txs.now edges.now) (AreInOrder txs.now edges.now → ⊥) }
{
    names_rise(txs) && are_in_range(txs) && edges_rise(edges)
}

/// Whether names rise.
fn names_rise(txs: &[Tx]) -> bool
    ensures { MatchBool result (IsStrictlyIncreasing (ids_of txs.now)) (IsStrictlyIncreasing (ids_of txs.now) → ⊥) }
{
    for at in 1..txs.len() {
        if txs[at - 1].0 >= txs[at].0 {
            return false;
        }
    }
    true
}

/// Whether all fees and sizes are in range.
fn are_in_range(txs: &[Tx]) -> bool
    ensures { MatchBool result (AreInRange txs.now) (AreInRange txs.now → ⊥) }
{
    for tx in txs {
        if !is_in_range(tx) {
            return false;
        }
    }
    true
}

/// Whether a transaction's fee and size are in range.
fn is_in_range(tx: &Tx) -> bool
    ensures { MatchBool result (IsFee tx.now.1 × IsSize tx.now.2) (IsFee tx.now.1 × IsSize tx.now.2 → ⊥) }
{
    is_fee(tx.1) && is_size(tx.2)
}

/// Whether edges rise by child, and those to one child by parent.
fn edges_rise(edges: &[Edge]) -> bool
    ensures { MatchBool result (EdgesRise edges.now) (EdgesRise edges.now → ⊥) }
{
    for at in 1..edges.len() {
        if !is_before(edges[at - 1], edges[at]) {
            return false;
        }
    }
    true
}

/// Whether one edge is to stand before another.
fn is_before(a: Edge, b: Edge) -> bool
    ensures { MatchBool result (IsBefore a b) (IsBefore a b → ⊥) }
{
    a.1 < b.1 || (a.1 == b.1 && a.0 < b.0)
}

/// Whether each edge is a covering pair of the graph that the edges make.
fn are_covers(links: &mut Links, edges: &[Edge]) -> bool
    requires rising { EdgesRise edges.now }
    requires acyclic { HasNoCycle edges.now }
    requires links { AreLinksOf edges.now links.old }
    ensures { MatchBool result (AreCovers edges.now) (AreCovers edges.now → ⊥) }
{
    for at in 0..edges.len() {
        if !passes(links, edges, at) {
            return false;
        }
    }
    true
}

/// Whether no other ancestor of the parent of an edge is a parent of its child. Only where the child has several parents it takes a walk.
fn passes(links: &mut Links, edges: &[Edge], at: usize) -> bool
    requires at { at < length edges.now }
    requires rising { EdgesRise edges.now }
    requires links { AreLinksOf edges.now links.old }
    ensures alone { MatchBool result (StandsAlone edges.now (slice_index_or edges.now at (0, 0)))
        (StandsAlone edges.now (slice_index_or edges.now at (0, 0)) → ⊥) }
    ensures same { links.new ≡ links.old }
{
    if !has_sibling(edges, at) {
        return true;
    }
    stands_alone(links, edges, edges[at])
}

/// Whether an edge beside this one leads to the same child.
fn has_sibling(edges: &[Edge], at: usize) -> bool
    requires at { at < length edges.now }
    requires rising { EdgesRise edges.now }
    ensures { IsTrue (not result) → (a : ℕ) → Contains edges.now (a, (slice_index_or edges.now at (0, 0)).1)
        → a ≡ (slice_index_or edges.now at (0, 0)).0 }
{
    let child = edges[at].1;
    if at > 0 && edges[at - 1].1 == child {
        return true;
    }
    at + 1 < edges.len() && edges[at + 1].1 == child
}

/// Whether no other ancestor of an edge's parent is a parent of its child, by a walk over these ancestors.
fn stands_alone(links: &mut Links, edges: &[Edge], edge: Edge) -> bool
    requires rising { EdgesRise edges.now }
    requires links { AreLinksOf edges.now links.old }
    requires edge { Contains edges.now edge }
    ensures alone { MatchBool result (StandsAlone edges.now edge) (StandsAlone edges.now edge → ⊥) }
    ensures same { links.new ≡ links.old }
{
    for above in links.kin(&[edge.0], Kin::Ancestors) {
        if leads_past(edges, above, edge) {
            return false;
        }
    }
    true
}

/// Whether a name is another parent of an edge's child.
fn leads_past(edges: &[Edge], above: TxId, edge: Edge) -> bool
    requires { EdgesRise edges.now }
    ensures { MatchBool result ((above ≢ edge.0) × Contains edges.now (above, edge.1))
        (Contains edges.now (above, edge.1) → above ≡ edge.0) }
{
    above != edge.0 && has_edge(edges, above, edge.1)
}

/// Whether this edge is among edges that rise.
fn has_edge(edges: &[Edge], parent: TxId, child: TxId) -> bool
    requires { EdgesRise edges.now }
    ensures { MatchBool result (Contains edges.now (parent, child)) (Contains edges.now (parent, child) → ⊥) }
{
    let found = edges.binary_search_by_key(&(child, parent), |edge| (edge.1, edge.0));
    found.is_ok()
}
