//! Why names can't be mined. Nothing takes memory.
ghost use Rattle.std.specs.Prelude.{◌≡◌, ◌≤◌, ◌↔◌, ℕ, true, false, None, Contains, IsTrue};
ghost use Rattle.lists.specs.Distinct.{AreDistinct};
ghost use Rattle.graphs.specs.declared.names.Level.TheVariants.{Main};
ghost use Rattle.graphs.specs.Closures.{is_member};
ghost use Rattle.name_book.specs.Books.{IsNamed};
ghost use Rattle.name_book.specs.Calls.{Keeps};
ghost use Rattle.levels.specs.Kept.{SuitsShelf};
ghost use Rattle.levels.specs.Mining.{FindsFirst, LacksListed, LacksTouched, MineRefusalIs};
ghost use Rattle.levels.specs.Rings.{IsMarked};
ghost use Rattle.levels.specs.Shelves.{IsInOrder, view_of};
ghost use Rattle.levels.specs.Views.{graph_of};

use crate::shelves::Shelves;
use graph_model::{Level, Refusal, TxId};
use name_book::NameBook;
use record::Listing;
use repeats::Repeats;

/// The refusal that a list of names meets that would be mined, if any: of the first name that stands earlier in the list too, else of the
/// first that main hasn't, else of the first with an ancestor in main that isn't listed. The rings stay.
pub(crate) fn refused_mine<const W: usize>(
    shelves: &mut Shelves<W>,
    rings: &mut NameBook,
    repeats: &mut Repeats,
    ids: &[TxId],
) -> Option<Refusal>
    requires order { IsInOrder W shelves.old }
    requires right { SuitsShelf rings.old shelves.old }
    requires alone { shelves.old.staging ≡ None }
    ensures row { MineRefusalIs (graph_of (view_of Main shelves.old)) ids.now result }
    ensures keeps { Keeps rings.old rings.new }
    ensures same { shelves.new ≡ shelves.old }
{
    if let Some(id) = repeats.first(ids) {
        return Some(Refusal::Twice(id));
    }
    if let Some(id) = first_absent(shelves, ids) {
        return Some(Refusal::Unknown(id));
    }
    match first_lacking(shelves, rings, ids) {
        Some(id) => Some(Refusal::Parent(id)),
        None => None,
    }
}

// The first of some names that main hasn't.
fn first_absent<const W: usize>(shelves: &Shelves<W>, ids: &[TxId]) -> Option<TxId>
    requires narrow { W ≤ 2 }
    ensures { FindsFirst (λ id. is_member (graph_of (view_of Main shelves.now)) id ≡ false) ids.now result }
{
    for id in ids {
        if shelves.number(Level::Main, *id).is_none() {
            return Some(*id);
        }
    }
    None
}

// The first of some names of main with an ancestor that isn't one of them. They are touched meanwhile, and no other name is.
fn first_lacking<const W: usize>(
    shelves: &mut Shelves<W>,
    rings: &mut NameBook,
    ids: &[TxId],
) -> Option<TxId>
    requires order { IsInOrder W shelves.old }
    requires right { SuitsShelf rings.old shelves.old }
    requires alone { shelves.old.staging ≡ None }
    requires once { AreDistinct ids.now }
    requires live { (id : ℕ) → Contains ids.now id → is_member (graph_of (view_of Main shelves.old)) id ≡ true }
    ensures first { FindsFirst (LacksListed (graph_of (view_of Main shelves.old)) ids.now) ids.now result }
    ensures keeps { Keeps rings.old rings.new }
    ensures same { shelves.new ≡ shelves.old }
{
    rings.touch_all(ids);
    let found = first_untouched(shelves, rings, ids);
    rings.release_all(ids);
    found
}

// The first of some touched names of main with an ancestor that isn't touched.
fn first_untouched<const W: usize>(
    shelves: &mut Shelves<W>,
    rings: &NameBook,
    ids: &[TxId],
) -> Option<TxId>
    requires order { IsInOrder W shelves.old }
    requires live { (id : ℕ) → Contains ids.now id → is_member (graph_of (view_of Main shelves.old)) id ≡ true }
    requires touched { (id : ℕ) → Contains ids.now id → IsMarked rings.now id }
    requires named { (a : ℕ) → is_member (graph_of (view_of Main shelves.old)) a ≡ true → IsNamed rings.now.book a }
    ensures first { FindsFirst (LacksTouched (graph_of (view_of Main shelves.old)) rings.now) ids.now result }
    ensures same { shelves.new ≡ shelves.old }
{
    for id in ids {
        if lacks_touched(shelves, rings, *id) {
            return Some(*id);
        }
    }
    None
}

// Whether a touched name of main has an ancestor that isn't touched. A cluster of one name is looked at no further.
fn lacks_touched<const W: usize>(shelves: &mut Shelves<W>, rings: &NameBook, id: TxId) -> bool
    requires order { IsInOrder W shelves.old }
    requires live { is_member (graph_of (view_of Main shelves.old)) id ≡ true }
    requires touched { IsMarked rings.now id }
    requires named { (a : ℕ) → is_member (graph_of (view_of Main shelves.old)) a ≡ true → IsNamed rings.now.book a }
    ensures lacks { IsTrue result ↔ LacksTouched (graph_of (view_of Main shelves.old)) rings.now id }
    ensures same { shelves.new ≡ shelves.old }
{
    let number = shelves.its_number(Level::Main, id);
    if shelves.at(number).names().len() == 1 {
        return false;
    }
    shelves.lacks_touched(number, rings, id)
}

/// The touched names of a book of names, as a listing.
#[derive(Drop)]
pub(crate) struct Touched<'a> {
    pub(crate) rings: &'a NameBook,
}

impl<'a> Listing for Touched<'a> {
    ghost listed = { λ touched. IsMarked touched.rings.now };

    ghost known = { λ touched. IsNamed touched.rings.now.book };

    fn lists(&self, id: TxId) -> bool {
        self.rings.is_touched(id)
    }
}
