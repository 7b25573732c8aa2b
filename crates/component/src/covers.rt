ghost use Rattle.std.specs.Prelude.{◌≡◌};

use graphs::TxId;
use std::marker::Model;

/// The parents of a name with no third name between, in the order of their component. Contracts see those that are still to
/// come.
#[derive(Drop)]
pub struct Covers<'a, const W: usize> {
    left: Left<'a, W>,
}

// The walk over a cluster of one of the two widths.
#[derive(Drop)]
enum Left<'a, const W: usize> {
    Narrow(cluster::Covers<'a, 1>),
    Wide(cluster::Covers<'a, W>),
}

impl<'a, const W: usize> Model for Covers<'a, W> {
    ghost use Rattle.std.specs.Prelude.{ℕ, List};
    ghost use Rattle.std.specs.Coded.{coded_list, coded_ℕ};

    ghost Value = { List ℕ };

    ghost coded = { coded_list coded_ℕ };

    ghost use Rattle.component.specs.CoversLeft.{covers_left};

    ghost view = { λ a. covers_left a.left };
}

impl<'a, const W: usize> Covers<'a, W> {
    /// Those of a name of a cluster of one word.
    pub(crate) fn narrow(covers: cluster::Covers<'a, 1>) -> Self
        ensures { result ≡ covers.entry }
    {
        Covers {
            left: Left::Narrow(covers),
        }
    }

    /// Those of a name of a cluster of W words.
    pub(crate) fn wide(covers: cluster::Covers<'a, W>) -> Self
        ensures { result ≡ covers.entry }
    {
        Covers {
            left: Left::Wide(covers),
        }
    }
}

impl<'a, const W: usize> Iterator for Covers<'a, W> {
    type Item = TxId;

    ghost use Rattle.std.specs.Iterator.{YieldsFirstBy, item_count};

    ghost next_gives = { YieldsFirstBy (λ id. id) (λ rest. rest) };

    ghost remaining = { item_count (λ rest. rest) };

    fn next(&mut self) -> Option<TxId> {
        match &mut self.left {
            Left::Narrow(covers) => covers.next(),
            Left::Wide(covers) => covers.next(),
        }
    }
}
