ghost use Rattle.std.specs.Prelude.{◌≡◌};

use graphs::TxId;
use std::marker::Model;

/// The ancestors of a name in its component. Contracts see those that are still to come.
#[derive(Drop)]
pub struct Ancestors<'a, const W: usize> {
    left: Left<'a, W>,
}

// The walk over a cluster of one of the two widths.
#[derive(Drop)]
enum Left<'a, const W: usize> {
    Narrow(cluster::Ancestors<'a, 1>),
    Wide(cluster::Ancestors<'a, W>),
}

impl<'a, const W: usize> Model for Ancestors<'a, W> {
    ghost use Rattle.std.specs.Prelude.{ℕ, List};
    ghost use Rattle.std.specs.Coded.{coded_list, coded_ℕ};

    ghost Value = { List ℕ };

    ghost coded = { coded_list coded_ℕ };

    ghost use Rattle.component.specs.AncestorsLeft.{ancestors_left};

    ghost view = { λ a. ancestors_left a.left };
}

impl<'a, const W: usize> Ancestors<'a, W> {
    /// Those of a name of a cluster of one word.
    pub(crate) fn narrow(ancestors: cluster::Ancestors<'a, 1>) -> Self
        ensures { result ≡ ancestors.entry }
    {
        Ancestors {
            left: Left::Narrow(ancestors),
        }
    }

    /// Those of a name of a cluster of W words.
    pub(crate) fn wide(ancestors: cluster::Ancestors<'a, W>) -> Self
        ensures { result ≡ ancestors.entry }
    {
        Ancestors {
            left: Left::Wide(ancestors),
        }
    }
}

impl<'a, const W: usize> Iterator for Ancestors<'a, W> {
    type Item = TxId;

    ghost use Rattle.std.specs.Iterator.{YieldsFirst, item_count};

    ghost next_gives = { YieldsFirst (λ it. it) };

    ghost remaining = { item_count (λ it. it) };

    fn next(&mut self) -> Option<TxId> {
        match &mut self.left {
            Left::Narrow(ancestors) => ancestors.next(),
            Left::Wide(ancestors) => ancestors.next(),
        }
    }
}
