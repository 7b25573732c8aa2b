ghost use Rattle.std.specs.Prelude.{◌≡◌, map};

use cluster::PartRef;
use cluster_store::{HeldWalk, NameWalk, OverWalk, PartWalk, Parts, RateWalk, RecordWalk, Stored};
use diagram::Corners;
use std::iter::Rev;
use std::marker::Model;

/// The parts of a level in its order, lent.
pub type Order<'a, const W: usize> = Forward<'a, Stored<W>>;

/// The parts of a level from the last to the first, lent.
pub type OrderBack<'a, const W: usize> = Rev<Order<'a, W>>;

/// The parts of a level in its order, lent, each with the number of its cluster.
pub type Numbered<'a, const W: usize> = PartWalk<'a, Stored<W>>;

/// The parts of a level in its order, lent, each with its cluster.
pub type Held<'a, const W: usize> = HeldWalk<'a, W>;

/// The components of a level that are over the limits of a cluster, lent as their transactions and dependencies.
pub type Over<'a, const W: usize> = OverWalk<'a, Stored<W>>;

/// The components of a level, lent: those within the limits of a cluster with their orders, and those over them without.
pub type Components<'a, const W: usize> = RecordWalk<'a, W>;

/// The transactions of a level, in no order.
pub type Names<'a, const W: usize> = NameWalk<'a, Stored<W>>;

/// The corners of a level's diagram from (0, 0) on, each a size, in virtual bytes, and the fee there, in satoshis.
pub type Diagram<'a, const W: usize> = Corners<RateWalk<'a>>;

/// The fees, in satoshis, and sizes, in virtual bytes, of chunks in their order.
pub type Rates<'a> = RateWalk<'a>;

/// Parts in their order, lent, from either end. Contracts see those that are still to come.
#[derive(Drop)]
pub struct Forward<'a, T: Parts> {
    parts: PartWalk<'a, T>,
}

impl<'a, T: Parts> Model for Forward<'a, T> {
    ghost use Rattle.std.specs.Prelude.{List, map};
    ghost use Rattle.std.specs.Coded.{coded_list};
    ghost use Rattle.graphs.specs.Certificates.{Part};
    ghost use Rattle.cluster.specs.Clusters.{part_code};

    ghost Value = { List Part };

    ghost coded = { coded_list part_code };

    ghost view = { λ a. map (λ s. s.part) a.parts };
}

impl<'a, T: Parts> Forward<'a, T> {
    /// The parts that a walk shows.
    pub(crate) fn new(parts: PartWalk<'a, T>) -> Self
        ensures { result ≡ map (λ s. s.part) parts.entry }
    {
        Forward { parts }
    }
}

impl<'a, T: Parts + 'a> Iterator for Forward<'a, T> {
    type Item = PartRef<'a>;

    ghost use Rattle.std.specs.Iterator.{YieldsFirstBy, item_count};
    ghost use Rattle.cluster_store.specs.Lent.{lent};

    ghost next_gives = { YieldsFirstBy lent (λ rest. rest) };

    ghost remaining = { item_count (λ rest. rest) };

    fn next(&mut self) -> Option<PartRef<'a>> {
        let shown = self.parts.next()?;
        Some(shown.part)
    }
}

impl<'a, T: Parts + 'a> DoubleEndedIterator for Forward<'a, T> {
    ghost use Rattle.std.specs.Iterator.{YieldsLastBy};
    ghost use Rattle.cluster_store.specs.Lent.{lent};

    ghost next_back_gives = { YieldsLastBy lent (λ rest. rest) };

    fn next_back(&mut self) -> Option<PartRef<'a>> {
        let shown = self.parts.next_back()?;
        Some(shown.part)
    }
}
