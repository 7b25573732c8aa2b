ghost use Rattle.std.specs.Prelude.{◌≡◌, ◌↔◌, ℕ, ◌+◌, ◌<◌, ◌≤◌, List, [], map, length, nat_eq, not, true, Contains, IsTrue, ◌&&◌, MatchBool, Some, vec_capacity};
ghost use Rattle.std.specs.HashMap as hash;
ghost use Rattle.std.specs.HashSet as bag;
ghost use Rattle.lists.specs.Distinct.{AreDistinct};
ghost use Rattle.places.specs.Places.{ArePlaces, AreAmong};
ghost use Rattle.certificate.specs.Places.{ArePairs};

use graphs::TxId;
use std::collections::{HashMap, HashSet};

/// Where each name stands among the transactions.
pub(crate) type Names = HashMap<TxId, usize>;

/// The edges, as (parent, child).
pub(crate) type Edges = HashSet<(TxId, TxId)>;

/// Puts the place of each name into an empty table that has the room. Whether each name stands once.
pub(crate) fn take_places(names: &mut Names, txs: &[(TxId, i64, u64)]) -> bool
    requires empty { hash.IsEmpty names.old }
    requires room { length txs.now ≤ hash.spare names.old }
    ensures once { MatchBool result (AreDistinct (map (λ tx. tx.0) txs.now))
        (AreDistinct (map (λ tx. tx.0) txs.now) → ⊥) }
    ensures places { IsTrue result → ArePlaces (map (λ tx. tx.0) txs.now) (hash.get nat_eq names.new) }
{
    for (at, tx) in txs.iter().enumerate() {
        if let Some(_) = put_place(names, tx.0, at) {
            return false;
        }
    }
    true
}

/// Puts the place of a name into a table that has room for one more, and answers the place that it had.
fn put_place(names: &mut Names, id: TxId, place: usize) -> Option<usize>
    requires { 0 < hash.spare names.old }
    ensures old { result ≡ hash.get nat_eq names.old id }
    ensures here { hash.Updates nat_eq names.old names.new id (Some place) }
    ensures room { hash.spare names.old ≤ hash.spare names.new + 1 }
{
    match names.insert(id, place) {
        Ok(old) => old,
        Err(_) => unreachable!(),
    }
}

/// The place of a name, if it is one of the transactions.
pub(crate) fn find(names: &Names, id: TxId) -> Option<usize>
    ensures { result ≡ hash.get nat_eq names.now id }
{
    names.get(&id).copied()
}

/// Puts the places of the ends of each edge into an empty list that has the room. Whether each end is a
/// transaction.
pub(crate) fn take_ends(
    pairs: &mut Vec<(usize, usize)>,
    names: &Names,
    edges: &[(TxId, TxId)],
) -> bool
    requires empty { pairs.old.items ≡ [] }
    requires room { length edges.now ≤ vec_capacity pairs.old }
    ensures { (list : List ℕ) → ArePlaces list (hash.get nat_eq names.now)
        → MatchBool result (ArePairs list edges.now pairs.new.items) (AreAmong list edges.now → ⊥) }
{
    for edge in edges {
        let Some(parent) = find(names, edge.0) else {
            return false;
        };
        let Some(child) = find(names, edge.1) else {
            return false;
        };
        pairs.push_reserved((parent, child));
    }
    true
}

/// Puts edges into an empty set that has the room. Whether each stands once.
pub(crate) fn take_edges(set: &mut Edges, edges: &[(TxId, TxId)]) -> bool
    requires empty { bag.IsEmpty set.old }
    requires room { length edges.now ≤ bag.spare set.old }
    ensures once { MatchBool result (AreDistinct edges.now) (AreDistinct edges.now → ⊥) }
    ensures set { IsTrue result
        → (edge : ℕ × ℕ) → IsTrue (bag.contains (λ x y. nat_eq x.0 y.0 && nat_eq x.1 y.1) set.new edge)
        ↔ Contains edges.now edge }
{
    for edge in edges {
        if !put_pair(set, *edge) {
            return false;
        }
    }
    true
}

/// Puts a pair into a set that has room for one more. Whether it is new there.
pub(crate) fn put_pair(set: &mut Edges, pair: (TxId, TxId)) -> bool
    requires { 0 < bag.spare set.old }
    ensures new { result ≡ not (bag.contains (λ x y. nat_eq x.0 y.0 && nat_eq x.1 y.1) set.old pair) }
    ensures here { bag.Updates (λ x y. nat_eq x.0 y.0 && nat_eq x.1 y.1) set.old set.new pair true }
    ensures room { bag.spare set.old ≤ bag.spare set.new + 1 }
{
    match set.insert(pair) {
        Ok(new) => new,
        Err(_) => unreachable!(),
    }
}
