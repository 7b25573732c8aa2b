//! Names that a caller lists, beside the ancestors of a name.
ghost use Rattle.std.specs.Prelude.{◌≡◌, ◌↔◌, ◌≤◌, ℕ, true, Contains, IsTrue};
ghost use Rattle.graphs.specs.Graphs.{IsAncestor};
ghost use Rattle.graphs.specs.Closures.{is_ancestor};
ghost use Rattle.links.specs.Links.{Has};

use component::Component;
use graphs::{Kin, TxId};
use links::Links;

/// A test of names that a caller keeps somewhere else, as a set of marks.
pub trait Listing {
    ghost use Rattle.std.specs.Prelude.{ℕ};

    /// The names that are listed.
    ghost listed: { Self → ℕ → Type 0 };

    /// The names that it can be asked of.
    ghost known: { Self → ℕ → Type 0 };

    /// Whether a name is listed.
    fn lists(&self, id: TxId) -> bool
        requires { known self.now id }
        ensures { IsTrue result ↔ listed self.now id };
}

/// Whether a name of a component with an order has an ancestor that isn't listed.
pub(crate) fn lacks_within<T: Listing, const W: usize>(
    component: &Component<W>,
    id: TxId,
    listing: &T,
) -> bool
    requires narrow { W ≤ 64 }
    requires here { Contains component.now.names id }
    requires known { (a : ℕ) → is_ancestor component.now.graph a id ≡ true → T.known listing.now a }
    ensures { IsTrue result ↔ ((a : ℕ) × (is_ancestor component.now.graph a id ≡ true) × (T.listed listing.now a → ⊥)) }
{
    for above in component.ancestors(id) {
        if !listing.lists(above) {
            return true;
        }
    }
    false
}

/// Whether a name of links has an ancestor that isn't listed.
pub(crate) fn lacks_over<T: Listing>(links: &mut Links, id: TxId, listing: &T) -> bool
    requires here { Has links.old id }
    requires known { (a : ℕ) → IsAncestor links.old.pairs a id → T.known listing.now a }
    ensures lacks { IsTrue result ↔ ((a : ℕ) × IsAncestor links.old.pairs a id × (T.listed listing.now a → ⊥)) }
    ensures same { links.new ≡ links.old }
{
    for above in links.kin(&[id], Kin::Ancestors) {
        if !listing.lists(above) {
            return true;
        }
    }
    false
}
