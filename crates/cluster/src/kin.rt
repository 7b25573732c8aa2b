ghost use Rattle.std.specs.Prelude.{◌≡◌, ℕ, ◌*◌, ◌↔◌, true, length, Contains};
ghost use Rattle.bitset.specs.Places.{IsWithin};
ghost use Rattle.graphs.specs.Closures.{is_member};
ghost use Rattle.graphs.specs.Unions.{IsKinOfSome};
ghost use Rattle.cluster.specs.Changes.{IsChosen};
ghost use Rattle.cluster.specs.Kins.{kin_of};
ghost use Rattle.cluster.specs.Named.{named, IsNamed};

use crate::members::place_of;
use bitset::Bits;
use dep_graph::DepGraph;
use graphs::{Kin, TxId};

/// The places of the ancestors, or of the descendants, of names. The names themselves are among them.
pub(crate) fn kin_places<const W: usize>(
    dep: &DepGraph<W>,
    names: &[TxId],
    ids: &[TxId],
    kin: Kin,
) -> Bits<W>
    requires named { IsNamed (64 * W) names.now dep.now }
    requires ids { (id : ℕ) → Contains ids.now id → Contains names.now id }
    ensures within { IsWithin (length names.now) result }
    ensures exact { (a : ℕ) → IsChosen names.now result a ↔ IsKinOfSome kin (named names.now dep.now) ids.now a }
{
    let mut chosen = Bits::empty();
    for at in 0..ids.len() {
        let place = place_of(names, ids[at]);
        chosen = chosen.union(&kin_of(dep, place, kin));
    }
    chosen
}

// The ancestors, or the descendants, of a place, itself among them.
fn kin_of<const W: usize>(dep: &DepGraph<W>, place: usize, kin: Kin) -> Bits<W>
    requires { is_member dep.now place ≡ true }
    ensures { result ≡ kin_of kin dep.now place }
{
    match kin {
        Kin::Ancestors => dep.ancestors(place),
        Kin::Descendants => dep.descendants(place),
    }
}
