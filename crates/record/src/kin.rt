//! The ancestors, or the descendants, of names over the limits.
ghost use Rattle.std.specs.Prelude.{◌≡◌, ℕ, ◌+◌, ◌≤◌, length, Contains};
ghost use Rattle.graphs.specs.Unions.{IsKin, PutsBehind};
ghost use Rattle.links.specs.Links.{AreLinks, Has};

use graphs::{IdBuf, Kin, TxId};
use links::Links;

/// Puts behind `out` the ancestors, or the descendants, of names of links.
pub(crate) fn add_over(links: &mut Links, ids: &[TxId], kin: Kin, out: &mut IdBuf)
    requires links { AreLinks links.old }
    requires ids { (id : ℕ) → Contains ids.now id → Has links.old id }
    requires room { length links.old.txs ≤ out.old.room }
    ensures adds { PutsBehind (λ a. (id : ℕ) × Contains ids.now id × IsKin kin links.old.pairs a id) out.old.ids out.new.ids }
    ensures room { length out.new.ids + out.new.room ≡ length out.old.ids + out.old.room }
    ensures same { links.new ≡ links.old }
{
    for id in links.kin(ids, kin) {
        out.push(id);
    }
}
