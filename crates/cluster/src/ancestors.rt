ghost use Rattle.std.specs.Prelude.{◌≡◌, ◌*◌, length, map, slice_index};
ghost use Rattle.bitset.specs.Places.{places, IsWithin};

use bitset::Bits;
use graphs::TxId;
use std::marker::Model;

/// The ancestors of a name in its cluster, by their places. Contracts see those that are still to come.
#[derive(Drop)]
pub struct Ancestors<'a, const W: usize> {
    names: &'a [TxId],
    // the places of those that are still to come
    left: Bits<W>,
}

impl<'a, const W: usize> Model for Ancestors<'a, W> {
    ghost use Rattle.std.specs.Prelude.{ℕ, ◌*◌, List, length, map, slice_index};
    ghost use Rattle.std.specs.Coded.{coded_list, coded_ℕ};
    ghost use Rattle.bitset.specs.Places.{places, IsWithin};

    ghost Value = { List ℕ };

    ghost coded = { coded_list coded_ℕ };

    ghost view = { λ a. map (slice_index a.names.now) (places (64 * W) a.left) };

    ghost invariant = { λ a. IsWithin (length a.names.now) a.left };
}

impl<'a, const W: usize> Ancestors<'a, W> {
    /// The names of these places.
    pub(crate) fn new(names: &'a [TxId], left: Bits<W>) -> Self
        requires { IsWithin (length names.now) left }
        ensures { result ≡ map (slice_index names.now) (places (64 * W) left.entry) }
    {
        Ancestors { names, left }
    }
}

impl<'a, const W: usize> Iterator for Ancestors<'a, W> {
    type Item = TxId;

    ghost use Rattle.std.specs.Iterator.{YieldsFirst, item_count};

    ghost next_gives = { YieldsFirst (λ it. it) };

    ghost remaining = { item_count (λ it. it) };

    fn next(&mut self) -> Option<TxId> {
        let place = self.left.least()?;
        self.left.remove(place);
        Some(self.names[place])
    }
}
