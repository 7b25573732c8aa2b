ghost use Rattle.std.specs.Prelude.{◌≡◌, ◌≢◌, ℕ, ◌*◌, true, [], ◌∷◌, List, MatchOption, length, slice_index};
ghost use Rattle.std.specs.List.{filter};
ghost use Rattle.std.specs.FinSet as set;
ghost use Rattle.bitset.specs.Places.{IsWithin};
ghost use Rattle.cluster.specs.Covers.{has_chosen, AreToCome, IsFirst};

use bitset::Bits;
use graphs::TxId;
use std::marker::Model;

/// The parents of a name with no third name between, in the order of their cluster. Contracts see those that are still to come.
#[derive(Drop)]
pub struct Covers<'a, const W: usize> {
    names: &'a [TxId],
    // what is left of the order
    rest: &'a [TxId],
    // the places of the parents that are still to come
    chosen: Bits<W>,
}

impl<'a, const W: usize> Model for Covers<'a, W> {
    ghost use Rattle.std.specs.Prelude.{ℕ, ◌*◌, List};
    ghost use Rattle.std.specs.List.{filter};
    ghost use Rattle.std.specs.Coded.{coded_list, coded_ℕ};
    ghost use Rattle.cluster.specs.Covers.{has_chosen, AreToCome};

    ghost Value = { List ℕ };

    ghost coded = { coded_list coded_ℕ };

    ghost view = { λ a. filter (has_chosen a.names.now a.chosen) a.rest.now };

    ghost invariant = { λ a. AreToCome (64 * W) a.names.now a.rest.now a.chosen };
}

impl<'a, const W: usize> Covers<'a, W> {
    /// Those of the names of an order whose places are chosen.
    pub(crate) fn new(names: &'a [TxId], rest: &'a [TxId], chosen: Bits<W>) -> Self
        requires { AreToCome (64 * W) names.now rest.now chosen }
        ensures { result ≡ filter (has_chosen names.now chosen.entry) rest.now }
    {
        Covers {
            names,
            rest,
            chosen,
        }
    }
}

impl<'a, const W: usize> Iterator for Covers<'a, W> {
    type Item = TxId;

    ghost use Rattle.std.specs.Iterator.{YieldsFirstBy, item_count};

    ghost next_gives = { YieldsFirstBy (λ id. id) (λ rest. rest) };

    ghost remaining = { item_count (λ rest. rest) };

    fn next(&mut self) -> Option<TxId> {
        let (place, rest) = first_chosen(self.names, &self.chosen, self.rest)?;
        self.chosen.remove(place);
        self.rest = rest;
        Some(self.names[place])
    }
}

// The first name of an order whose place is chosen: its place, and where the others are to come. One that is chosen alone isn't
// looked for in the order.
fn first_chosen<'a, const W: usize>(
    names: &[TxId],
    chosen: &Bits<W>,
    order: &'a [TxId],
) -> Option<(usize, &'a [TxId])>
    requires { AreToCome (64 * W) names.now order.now chosen.now }
    ensures { MatchOption result (filter (has_chosen names.now chosen.now) order.now ≡ [])
        (λ found. IsFirst (64 * W) names.now order.now chosen.now found.0 found.1.now) }
{
    let Some(place) = chosen.least() else {
        return None;
    };
    let mut others = *chosen;
    others.remove(place);
    match others.least() {
        None => Some((place, &[])),
        Some(_) => look_for(names, chosen, order),
    }
}

// The same, looked for in the order.
fn look_for<'a, const W: usize>(
    names: &[TxId],
    chosen: &Bits<W>,
    order: &'a [TxId],
) -> Option<(usize, &'a [TxId])>
    requires { AreToCome (64 * W) names.now order.now chosen.now }
    ensures { MatchOption result (filter (has_chosen names.now chosen.now) order.now ≡ [])
        (λ found. IsFirst (64 * W) names.now order.now chosen.now found.0 found.1.now) }
{
    for at in 0..order.len() {
        if let Some(place) = chosen_place(names, chosen, order[at]) {
            return Some((place, &order[at + 1..]));
        }
    }
    None
}

// The chosen place at which a name stands, if it stands at one.
fn chosen_place<const W: usize>(names: &[TxId], chosen: &Bits<W>, id: TxId) -> Option<usize>
    requires { IsWithin (length names.now) chosen.now }
    ensures { MatchOption result ((p : ℕ) → set.contains chosen.now p ≡ true → slice_index names.now p ≢ id)
        (λ place. (set.contains chosen.now place ≡ true) × (slice_index names.now place ≡ id)) }
{
    for place in chosen.iter() {
        if names[place] == id {
            return Some(place);
        }
    }
    None
}
