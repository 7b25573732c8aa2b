ghost use Rattle.std.specs.Prelude.{◌≡◌, ◌↔◌, ℕ, ◌<◌, ◌≤◌, length, map, slice_index, Contains, IsTrue, vec_capacity};
ghost use Rattle.links.specs.Kept.{names_of};

use graphs::TxId;

/// Whether places are among those of a list.
pub(crate) fn has_place(places: &[usize], place: usize) -> bool
    ensures { IsTrue result ↔ Contains places.now place }
{
    places.contains(&place)
}

/// Lists the names of places, in their order. Takes no memory.
pub(crate) fn list_names(listed: &mut Vec<TxId>, txs: &[(TxId, i64, u64)], places: &[usize])
    requires within { (place : ℕ) → Contains places.now place → place < length txs.now }
    requires room { length places.now ≤ vec_capacity listed.old }
    ensures names { listed.new.items ≡ map (slice_index (names_of txs.now)) places.now }
    ensures room { vec_capacity listed.new ≡ vec_capacity listed.old }
{
    listed.clear();
    for place in places {
        listed.push_reserved(txs[*place].0);
    }
}
