//! What is read of the orders of the levels. Nothing takes memory.
ghost use Rattle.std.specs.Prelude.{◌≡◌, ◌≢◌, ◌↔◌, ◌≤◌, ℕ, true, false, Some, Contains, MatchOption};
ghost use Rattle.std.specs.FinMap as finmap;
ghost use Rattle.graphs.specs.declared.names.Level.TheVariants.{Main};
ghost use Rattle.graphs.specs.Closures.{is_member};
ghost use Rattle.graphs.specs.Certificates.{Part};
ghost use Rattle.graphs.specs.Linearizations.{StandsBefore};
ghost use Rattle.graph_model.specs.Answers.{StandsTo, order_of};
ghost use Rattle.cluster_store.specs.Laws.{StandsAt};
ghost use Rattle.cluster_store.specs.Lent.{lent};
ghost use Rattle.levels.specs.Orders.{ListsCovers};
ghost use Rattle.levels.specs.Places.{HasPart};
ghost use Rattle.levels.specs.Oversize.{IsOversized};
ghost use Rattle.levels.specs.Shelves.{IsInOrder, numbers_at, one_of};

use crate::shelves::Shelves;
use cluster::PartRef;
use component::Covers;
use graph_model::{Level, Place, TxId};

impl<const W: usize> Shelves<W> {
    /// The part of main that has a name, or `None` where main hasn't the name.
    pub(crate) fn chunk(&self, id: TxId) -> Option<PartRef<'_>>
        requires order { IsInOrder W self.now }
        requires within { IsOversized self.now.limits (one_of Main self.now).graph → ⊥ }
        ensures { MatchOption result (is_member (one_of Main self.now).graph id ≡ false)
            (λ part. (is_member (one_of Main self.now).graph id ≡ true) × Contains (one_of Main self.now).parts (lent part)
            × Contains (lent part).ids id) }
    {
        match self.number(Level::Main, id) {
            Some(number) => {
                let cluster = self.ordered_at(number);
                Some(cluster.part(cluster.part_of(id)))
            }
            None => None,
        }
    }

    /// Where one name of main stands to another in its order.
    pub(crate) fn place(&self, a: TxId, b: TxId) -> Place
        requires order { IsInOrder W self.now }
        requires within { IsOversized self.now.limits (one_of Main self.now).graph → ⊥ }
        requires a { is_member (one_of Main self.now).graph a ≡ true }
        requires b { is_member (one_of Main self.now).graph b ≡ true }
        ensures { StandsTo (order_of (one_of Main self.now).parts) a b result }
    {
        if a == b {
            return Place::Same;
        }
        let first = self.place_of(a);
        let second = self.place_of(b);
        let is_first = if first == second {
            comes_first(self.part(first).ids, a, b)
        } else {
            self.store().comes_before(first, second)
        };
        if is_first {
            Place::Before
        } else {
            Place::After
        }
    }

    // Where the part stands that has a name of main: the number of its cluster, and its position there.
    fn place_of(&self, id: TxId) -> (usize, usize)
        requires order { IsInOrder W self.now }
        requires within { IsOversized self.now.limits (one_of Main self.now).graph → ⊥ }
        requires live { is_member (one_of Main self.now).graph id ≡ true }
        ensures { HasPart Main self.now result id }
    {
        let number = self.its_number(Level::Main, id);
        (number, self.ordered_at(number).part_of(id))
    }

    // The part at a place of main that has one.
    fn part(&self, place: (usize, usize)) -> PartRef<'_>
        requires order { IsInOrder W self.now }
        requires there { (part : Part) × StandsAt Main self.now.store.clusters place part }
        ensures { StandsAt Main self.now.store.clusters place (lent result) }
    {
        self.ordered_at(place.0).part(place.1)
    }

    /// The parents of a name of a level with nothing between, as they stand in its order.
    pub(crate) fn covers(&self, level: Level, id: TxId) -> Covers<'_, W>
        requires order { IsInOrder W self.now }
        requires within { IsOversized self.now.limits (one_of level self.now).graph → ⊥ }
        requires live { is_member (one_of level self.now).graph id ≡ true }
        ensures { ListsCovers (one_of level self.now).graph (order_of (one_of level self.now).parts) id result }
    {
        self.ordered_at(self.its_number(level, id)).covers(id)
    }

    /// The number of the cluster of a name that a level has.
    pub(crate) fn its_number(&self, level: Level, id: TxId) -> usize
        requires { is_member (one_of level self.now).graph id ≡ true }
        ensures { finmap.get (numbers_at level self.now) id ≡ Some result }
    {
        match self.number(level, id) {
            Some(number) => number,
            None => unreachable!(),
        }
    }
}

// Whether of two names of a part the one stands before the other.
fn comes_first(ids: &[TxId], a: TxId, b: TxId) -> bool
    requires a { Contains ids.now a }
    requires b { Contains ids.now b }
    requires apart { a ≢ b }
    ensures before { result ≡ true → StandsBefore ids.now a b }
    ensures after { result ≡ false → StandsBefore ids.now b a }
{
    for at in 0..ids.len() {
        if ids[at] == a {
            return true;
        }
        if ids[at] == b {
            return false;
        }
    }
    unreachable!()
}
