ghost use Rattle.std.specs.Prelude.{◌≡◌, ◌∷◌, [], MatchOption};
ghost use Rattle.slab.specs.Slab.{get};
ghost use Rattle.record.specs.Kept.{unordered};
ghost use Rattle.cluster_store.specs.Overs.{lacking_by, lacking_in, lacking_of};

use crate::stored::Stored;
use crate::unordered::is_in;
use graphs::Level;
use links::Links;
use slab::Slab;
use std::marker::Model;

/// What may be a cluster without an order.
pub trait MayLack {
    ghost use Rattle.std.specs.Prelude.{List};
    ghost use Rattle.cluster.specs.Clusters.{Cluster};
    ghost use Rattle.graphs.specs.declared.names.Level as levels;

    /// The cluster, where it stands in a level without an order, and else none.
    ghost lacking: { levels.Level → Self → List Cluster };

    /// The links of the cluster, where it stands in a level without an order.
    fn links_in(&self, level: Level) -> Option<&Links>
        ensures { MatchOption result (lacking level self.now ≡ []) (λ links. lacking level self.now ≡ unordered links.now ∷ []) };
}

impl<const W: usize> MayLack for Stored<W> {
    ghost use Rattle.cluster_store.specs.Overs.{lacking_in};

    ghost lacking = { lacking_in };

    fn links_in(&self, level: Level) -> Option<&Links> {
        if is_in(level, self.tag()) {
            self.cluster().links()
        } else {
            None
        }
    }
}

/// A walk over the clusters of a level that have no order, each lent as its links. Contracts see the clusters that are still to come.
#[derive(Drop)]
pub struct OverWalk<'a, T: MayLack> {
    slots: &'a Slab<T>,
    // the numbers that are still to be looked at
    numbers: &'a [usize],
    level: Level,
}

impl<'a, T: MayLack> Model for OverWalk<'a, T> {
    ghost use Rattle.std.specs.Prelude.{List};
    ghost use Rattle.std.specs.Coded.{coded_list};
    ghost use Rattle.cluster.specs.Clusters.{Cluster, cluster_code};
    ghost use Rattle.cluster_store.specs.Overs.{lacking_of};

    ghost Value = { List Cluster };

    ghost coded = { coded_list cluster_code };

    ghost view = { λ a. lacking_of (T.lacking a.level) a.slots.now.slots a.numbers.now };
}

impl<'a, T: MayLack> OverWalk<'a, T> {
    /// Over the clusters of some numbers that stand in a level without an order.
    pub(crate) fn new(slots: &'a Slab<T>, numbers: &'a [usize], level: Level) -> Self
        ensures { result ≡ lacking_of (T.lacking level) slots.now.slots numbers.now }
    {
        OverWalk {
            slots,
            numbers,
            level,
        }
    }
}

/// The links of the cluster of a number, where it stands in a level without an order.
fn over_at<'a, T: MayLack>(slots: &'a Slab<T>, number: usize, level: Level) -> Option<&'a Links>
    ensures { MatchOption result (lacking_by (T.lacking level) (get slots.now number) ≡ [])
        (λ links. lacking_by (T.lacking level) (get slots.now number) ≡ unordered links.now ∷ []) }
{
    slots.get(number)?.links_in(level)
}

/// The first of the clusters of some numbers that stands in a level without an order, and the numbers after its own.
fn first_over<'a, T: MayLack>(
    slots: &'a Slab<T>,
    numbers: &'a [usize],
    level: Level,
) -> Option<(&'a [usize], &'a Links)>
    ensures { MatchOption result (lacking_of (T.lacking level) slots.now.slots numbers.now ≡ [])
        (λ first. lacking_of (T.lacking level) slots.now.slots numbers.now
        ≡ unordered first.1.now ∷ lacking_of (T.lacking level) slots.now.slots first.0.now) }
{
    let mut left = numbers;
    while let Some((number, rest)) = left.split_first() {
        if let Some(links) = over_at(slots, *number, level) {
            return Some((rest, links));
        }
        left = rest;
    }
    None
}

impl<'a, T: MayLack + 'a> Iterator for OverWalk<'a, T> {
    type Item = &'a Links;

    ghost use Rattle.std.specs.Iterator.{YieldsFirstBy, item_count};
    ghost use Rattle.record.specs.Kept.{unordered};

    ghost next_gives = { YieldsFirstBy (λ links. unordered links.now) (λ rest. rest) };

    ghost remaining = { item_count (λ rest. rest) };

    fn next(&mut self) -> Option<&'a Links> {
        let (rest, links) = first_over(self.slots, self.numbers, self.level)?;
        self.numbers = rest;
        Some(links)
    }

    // The least that can be said: which of the clusters have an order isn't known before they are looked at.
    fn size_hint(&self) -> (usize, Option<usize>) {
        (0, None)
    }
}
