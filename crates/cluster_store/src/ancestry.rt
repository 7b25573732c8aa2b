//! Ancestors and descendants in the cluster of a number.
ghost use Rattle.std.specs.Prelude.{◌≡◌, ◌↔◌, ◌+◌, ◌≤◌, ℕ, true, Some, length, Contains, IsTrue};
ghost use Rattle.slab.specs.Slab.{get};
ghost use Rattle.graphs.specs.Closures.{is_ancestor};
ghost use Rattle.graphs.specs.Unions.{IsKinOfSome, PutsBehind};
ghost use Rattle.cluster_store.specs.Stores.{Stored as Kept};

use crate::stored::Stored;
use graphs::{IdBuf, Kin, TxId};
use record::Listing;
use slab::Slab;

/// Whether a name of a cluster is an ancestor of another.
pub fn reaches<const W: usize>(slots: &mut Slab<Stored<W>>, number: usize, a: TxId, b: TxId) -> bool
    requires { (s : Kept) × (get slots.old number ≡ Some s) × Contains s.cluster.names a × Contains s.cluster.names b }
    ensures ancestor { (s : Kept) → get slots.old number ≡ Some s → result ≡ is_ancestor s.cluster.graph a b }
    ensures same { slots.new ≡ slots.old }
{
    match slots.get_mut(number) {
        Some(stored) => stored.reaches(a, b),
        None => unreachable!(),
    }
}

/// Whether a name of a cluster has an ancestor that isn't listed.
pub fn lacks<T: Listing, const W: usize>(
    slots: &mut Slab<Stored<W>>,
    number: usize,
    id: TxId,
    listing: &T,
) -> bool
    requires here { (s : Kept) × (get slots.old number ≡ Some s) × Contains s.cluster.names id }
    requires known { (s : Kept) (a : ℕ) → get slots.old number ≡ Some s → Contains s.cluster.names a → T.known listing.now a }
    ensures lacks { (s : Kept) → get slots.old number ≡ Some s
        → IsTrue result ↔ ((a : ℕ) × (is_ancestor s.cluster.graph a id ≡ true) × (T.listed listing.now a → ⊥)) }
    ensures same { slots.new ≡ slots.old }
{
    match slots.get_mut(number) {
        Some(stored) => stored.lacks(id, listing),
        None => unreachable!(),
    }
}

/// Puts behind `out` the ancestors, or the descendants, of names of a cluster.
pub fn add_kin<const W: usize>(
    slots: &mut Slab<Stored<W>>,
    number: usize,
    ids: &[TxId],
    kin: Kin,
    out: &mut IdBuf,
)
    requires { (s : Kept) × (get slots.old number ≡ Some s) × ((id : ℕ) → Contains ids.now id → Contains s.cluster.names id)
        × (length s.cluster.names ≤ out.old.room) }
    ensures adds { (s : Kept) → get slots.old number ≡ Some s
        → PutsBehind (IsKinOfSome kin s.cluster.graph ids.now) out.old.ids out.new.ids }
    ensures room { length out.new.ids + out.new.room ≡ length out.old.ids + out.old.room }
    ensures same { slots.new ≡ slots.old }
{
    match slots.get_mut(number) {
        Some(stored) => stored.add_kin(ids, kin, out),
        None => unreachable!(),
    }
}
