//! The rings, where a staging is closed.

ghost use Rattle.std.specs.Prelude.{◌≡◌, ◌≤◌, ℕ, Contains};
ghost use Rattle.std.specs.FinSet as set;
ghost use Rattle.lists.specs.Distinct.{AreDistinct};
ghost use Rattle.name_book.specs.Books.{IsNamed};
ghost use Rattle.levels.specs.Kept.{SuitsShelf};
ghost use Rattle.levels.specs.Rings.{AreRight, IsMarked};
ghost use Rattle.levels.specs.Settling.{AreSettling, Settles, SettlesAll};
ghost use Rattle.levels.specs.Shelves.{IsInOrder, numbers_at, view_of};

use crate::shelves::Shelves;
use graph_model::{Level, TxId};
use name_book::NameBook;

/// Where a staging is to be closed and a level stays: no name is touched any more, those that the level hasn't are dropped, and main's
/// rings are those of the level's clusters. Takes no memory.
///
/// It goes over the touched names, and looks up one of each cluster in the level.
pub fn settle_rings<const W: usize>(rings: &mut NameBook, shelves: &Shelves<W>, stays: Level)
    requires order { IsInOrder W shelves.now }
    requires suits { SuitsShelf rings.old shelves.now }
    ensures right { AreRight rings.new (numbers_at stays shelves.now) (numbers_at stays shelves.now) }
    ensures few { set.len rings.new.book.names ≤ set.len rings.old.book.names }
    ensures issued { rings.new.book.issued ≡ rings.old.book.issued }
{
    // Each turn settles a name at least.
    for _turn in 0..rings.len() {
        match rings.first() {
            Some(id) => settle_first(rings, shelves, stays, id),
            None => return,
        }
    }
}

// Settles a touched name: all names of its cluster, or that name alone where the level that stays hasn't it.
fn settle_first<const W: usize>(rings: &mut NameBook, shelves: &Shelves<W>, stays: Level, id: TxId)
    requires order { IsInOrder W shelves.now }
    requires settling { AreSettling stays rings.old (view_of stays shelves.now) }
    requires touched { IsMarked rings.old id }
    ensures settling { AreSettling stays rings.new (view_of stays shelves.now) }
    ensures settles { Settles id rings.old rings.new }
{
    match shelves.number(stays, id) {
        Some(number) => settle_names(rings, shelves.at(number).names(), stays),
        None => rings.forget(id),
    }
}

// Takes the names of a cluster of the level that stays out of the touched ones. Where that is staging, main's ring of the cluster is made.
fn settle_names(rings: &mut NameBook, names: &[TxId], stays: Level)
    requires live { (x : ℕ) → Contains names.now x → IsNamed rings.old.book x }
    requires once { AreDistinct names.now }
    ensures { SettlesAll stays names.now rings.old rings.new }
{
    rings.release_all(names);
    match stays {
        Level::Main => {}
        Level::Top => rings.part(names),
    }
}
