//! Changes of the shelves together with the rings.
ghost use Rattle.std.specs.Prelude.{◌≡◌, ◌⊎◌, ◌↔◌, ℕ, ◌+◌, ◌-◌, ◌^◌, ◌<◌, ◌≤◌, true, None, Some, List, ◌∷◌, [], length, is_some, Option, Contains, IfSome, IsSome, OnOk, OnErr};
ghost use Rattle.std.specs.FinMap as finmap;
ghost use Rattle.std.specs.FinSet as set;
ghost use Rattle.lists.specs.Distinct.{AreDistinct};
ghost use Rattle.fee_rate.specs.Limits.{IsRate};
ghost use Rattle.fee_rate.specs.declared.limits.TheConstants.{MAX_TOTAL};
ghost use Rattle.graphs.specs.declared.names.Level.TheVariants.{Main, Top};
ghost use Rattle.graphs.specs.Closures.{is_ancestor, AreLinked};
ghost use Rattle.graphs.specs.Graphs.{Lists};
ghost use Rattle.std.specs.List.{AllPairs};
ghost use Rattle.cluster.specs.Clusters.{AreApart};
ghost use Rattle.cluster.specs.Clusters as records;
ghost use Rattle.cluster.specs.Steps.{GrowsWithin};
ghost use Rattle.record.specs.Steps.{most_steps_fit};
ghost use Rattle.name_book.specs.Books.{IsNamed};
ghost use Rattle.name_book.specs.Calls.{Touches};
ghost use Rattle.levels.specs.Changes.{AreAt};
ghost use Rattle.levels.specs.Changes as changes;
ghost use Rattle.levels.specs.Kept.{SuitsShelf};
ghost use Rattle.levels.specs.Lefts.{DropsWithin};
ghost use Rattle.levels.specs.Links.{IsLink};
ghost use Rattle.levels.specs.Moves.{AddsTop, Connects, DropsTop};
ghost use Rattle.levels.specs.Rings.{AreNamedOnce, Fewer, Forgets, IsMarked, JoinsLast, LeftMain, LeftOf, ShareMain};
ghost use Rattle.levels.specs.Shelves.{HaveFew, IsInOrder, numbers_at, stored_at, view_of};
ghost use Rattle.levels.specs.Tops.{Comes, IsMade};
ghost use Rattle.levels.specs.Views.{graph_of};

use crate::left::{Left, News};
use crate::relation::Link;
use crate::shelves::{Shelves, last_count};
use component::Work;
use graph_model::{Level, TxId};
use name_book::NameBook;
use outside::NoMemory;
use record::Record;
use step_count::{Ledger, Steps};

/// Adds a name that is in neither level to the top level, alone in a cluster, with its fee in satoshis and its size in virtual bytes.
/// Without memory all stays as it was, but for room that was made.
pub(crate) fn add_name<const W: usize, L: Ledger>(
    shelves: &mut Shelves<W>,
    rings: &mut NameBook,
    id: TxId,
    fee: i64,
    size: u64,
    work: &mut Work<W>,
    steps: &mut Steps<L>,
) -> Result<(), NoMemory>
    requires order { IsInOrder W shelves.old }
    requires right { SuitsShelf rings.old shelves.old }
    requires absent { IsNamed rings.old.book id → ⊥ }
    requires rate { IsRate (record { fee = fee; size = size }) }
    requires fits { size ≤ shelves.old.limits.size }
    requires few { set.len rings.old.book.names < MAX_TOTAL }
    requires issued { rings.old.book.issued < 2 ^ 64 - 1 }
    ensures added { OnOk result (AddsTop W id (record { fee = fee; size = size }) shelves.old shelves.new) }
    ensures order { IsInOrder W shelves.new }
    ensures right { SuitsShelf rings.new shelves.new }
    ensures names { OnOk result ((set.len rings.new.book.names ≡ set.len rings.old.book.names + 1)
        × (rings.new.book.issued ≡ rings.old.book.issued + 1)) }
    ensures err { OnErr result ((shelves.new ≡ shelves.old) × (set.len rings.new.book.names ≡ set.len rings.old.book.names)
        × (rings.new.book.issued ≡ rings.old.book.issued)) }
    ensures steps { steps.new ≡ steps.old }
{
    rings.reserve(1)?;
    let alloc = shelves.alloc;
    let cluster = Record::single(alloc, id, fee, size, work, steps)?;
    shelves.rebuild(&[], Vec::new(alloc), Some(cluster), 0, &[])?;
    rings.add(id, shelves.is_staged());
    Ok(())
}

/// Makes a name of the top level a parent of another, where `link` says how they stand. A parent that is an ancestor already changes
/// nothing. Without memory all stays as it was.
pub(crate) fn connect<const W: usize, L: Ledger>(
    shelves: &mut Shelves<W>,
    rings: &mut NameBook,
    link: Link,
    parent: TxId,
    child: TxId,
    work: &mut Work<W>,
    steps: &mut Steps<L>,
) -> Result<(), NoMemory>
    requires order { IsInOrder W shelves.old }
    requires right { SuitsShelf rings.old shelves.old }
    requires few { HaveFew shelves.old }
    requires link { IsLink shelves.old parent child link }
    ensures linked { OnOk result (Connects W parent child shelves.old shelves.new) }
    ensures still { is_ancestor (graph_of (view_of Top shelves.old)) parent child ≡ true
        → (shelves.new ≡ shelves.old) × (rings.new ≡ rings.old) × (steps.new ≡ steps.old) }
    ensures kept { IsInOrder W shelves.new × SuitsShelf rings.new shelves.new × Fewer rings.old rings.new }
    ensures err { OnErr result ((shelves.new ≡ shelves.old) × (rings.new ≡ rings.old)) }
    ensures steps { (ids : List ℕ)
        → Lists (λ q. AreLinked (graph_of (view_of Top shelves.old)) q parent ⊎ AreLinked (graph_of (view_of Top shelves.old)) q child) ids
        → GrowsWithin (most_steps_fit shelves.old.limits (graph_of (view_of Top shelves.old)) ids) steps.old steps.new }
{
    match link {
        Link::There => Ok(()),
        Link::Within(number) => {
            let pair = shelves.link(number, parent, child, work, steps)?;
            rebuild(shelves, rings, &[number], pair, &[])
        }
        Link::Between(first, second) => {
            let pair = shelves.join(first, second, parent, child, work, steps)?;
            rebuild(shelves, rings, &[first, second], pair, &[])
        }
    }
}

/// Drops names of the top level. The others keep the ancestors that they had among them. Without memory all stays as it was.
pub(crate) fn drop_names<const W: usize, L: Ledger>(
    shelves: &mut Shelves<W>,
    rings: &mut NameBook,
    ids: &[TxId],
    work: &mut Work<W>,
    steps: &mut Steps<L>,
) -> Result<(), NoMemory>
    requires order { IsInOrder W shelves.old }
    requires right { SuitsShelf rings.old shelves.old }
    requires few { HaveFew shelves.old }
    requires live { (id : ℕ) → Contains ids.now id → IsSome (finmap.get (numbers_at Top shelves.old) id) }
    requires once { AreDistinct ids.now }
    ensures dropped { OnOk result ((outs : List ℕ) × DropsTop W outs ids.now shelves.old shelves.new) }
    ensures kept { IsInOrder W shelves.new × SuitsShelf rings.new shelves.new × Fewer rings.old rings.new }
    ensures err { OnErr result ((shelves.new ≡ shelves.old) × (rings.new ≡ rings.old)) }
    ensures steps { DropsWithin shelves.old.limits ids.now (graph_of (view_of Top shelves.old)) steps.old steps.new }
{
    let Left { outs, rest, last } = shelves.leave(ids, work, steps)?;
    let kept = last_count(&last);
    rebuild(
        shelves,
        rings,
        outs.as_slice(),
        News { rest, last, kept },
        ids,
    )
}

/// Clusters of the top level go out and others come in, which have their names but for some that go; and the rings follow. Without memory
/// all stays as it was.
fn rebuild<const W: usize>(
    shelves: &mut Shelves<W>,
    rings: &mut NameBook,
    outs: &[usize],
    news: News<W>,
    gone: &[TxId],
) -> Result<(), NoMemory>
    requires order { IsInOrder W shelves.old }
    requires right { SuitsShelf rings.old shelves.old }
    requires comes { Comes W outs.now news.rest.items news.last news.kept gone.now shelves.old }
    ensures rebuilt { OnOk result ((made : List ℕ) × (number : Option ℕ)
        × IsMade W outs.now made number news.entry.rest.items news.entry.last gone.now shelves.old shelves.new) }
    ensures kept { IsInOrder W shelves.new × SuitsShelf rings.new shelves.new × Fewer rings.old rings.new }
    ensures err { OnErr result ((shelves.new ≡ shelves.old) × (rings.new ≡ rings.old)) }
{
    let News { rest, last, kept } = news;
    let made = shelves.rebuild(outs, rest, last, kept, gone)?;
    touch_left(shelves, rings, outs);
    if shelves.is_staged() {
        forget_lost(shelves, rings, gone);
    } else {
        forget_all(rings, gone);
        part_all(rings, shelves, made.rest.as_slice());
        gather_last(rings, shelves, made.last, kept);
    }
    Ok(())
}

/// Touches the names of clusters of main that the top level has left.
fn touch_left<const W: usize>(shelves: &Shelves<W>, rings: &mut NameBook, outs: &[usize])
    requires order { IsInOrder W shelves.now }
    requires once { AreDistinct outs.now }
    requires untouched { (n x : ℕ) → Contains outs.now n → LeftMain shelves.now n x → IsNamed rings.old.book x × (IsMarked rings.old x → ⊥) }
    ensures { Touches (LeftOf shelves.now outs.now) rings.old rings.new }
{
    for number in outs {
        touch_one(shelves, rings, *number);
    }
}

// Touches the names of a cluster of main, if the top level has left it.
fn touch_one<const W: usize>(shelves: &Shelves<W>, rings: &mut NameBook, number: usize)
    requires order { IsInOrder W shelves.now }
    requires untouched { (x : ℕ) → LeftMain shelves.now number x → IsNamed rings.old.book x × (IsMarked rings.old x → ⊥) }
    ensures { Touches (LeftMain shelves.now number) rings.old rings.new }
{
    if shelves.is_left(number) {
        rings.touch_all(shelves.at(number).names());
    }
}

// Drops names of the rings.
fn forget_all(rings: &mut NameBook, ids: &[TxId])
    requires live { (id : ℕ) → Contains ids.now id → IsNamed rings.old.book id }
    requires once { AreDistinct ids.now }
    ensures forgets { Forgets (Contains ids.now) rings.old rings.new }
    ensures few { set.len rings.new.book.names ≤ set.len rings.old.book.names }
    ensures issued { rings.new.book.issued ≡ rings.old.book.issued }
{
    for id in ids {
        rings.forget(*id);
    }
}

// Drops those of some names that main hasn't of the rings.
fn forget_lost<const W: usize>(shelves: &Shelves<W>, rings: &mut NameBook, ids: &[TxId])
    requires live { (id : ℕ) → Contains ids.now id → IsNamed rings.old.book id }
    requires once { AreDistinct ids.now }
    ensures forgets { Forgets (λ x. Contains ids.now x × (finmap.get shelves.now.main x ≡ None)) rings.old rings.new }
    ensures few { set.len rings.new.book.names ≤ set.len rings.old.book.names }
    ensures issued { rings.new.book.issued ≡ rings.old.book.issued }
{
    for id in ids {
        if shelves.number(Level::Main, *id).is_none() {
            rings.forget(*id);
        }
    }
}

/// Makes rings of main of the names of some clusters, a ring of each.
pub(crate) fn part_all<const W: usize>(rings: &mut NameBook, shelves: &Shelves<W>, list: &[usize])
    requires order { IsInOrder W shelves.now }
    requires clusters { (clusters : List records.Cluster) × AreAt (stored_at shelves.now.store.clusters) list.now clusters }
    requires live { (clusters : List records.Cluster) (x : ℕ) → AreAt (stored_at shelves.now.store.clusters) list.now clusters
        → changes.IsNamed clusters x → IsNamed rings.old.book x }
    requires apart { (clusters : List records.Cluster) → AreAt (stored_at shelves.now.store.clusters) list.now clusters → AllPairs AreApart clusters }
    ensures names { rings.new.book.names ≡ rings.old.book.names }
    ensures main { (clusters : List records.Cluster) (x y : ℕ) → AreAt (stored_at shelves.now.store.clusters) list.now clusters
        → ShareMain rings.new x y ↔ ((ShareMain rings.old x y × (changes.IsNamed clusters x → ⊥) × (changes.IsNamed clusters y → ⊥))
        ⊎ AreNamedOnce clusters x y) }
    ensures touched { (x : ℕ) → IsMarked rings.new x ↔ IsMarked rings.old x }
    ensures issued { rings.new.book.issued ≡ rings.old.book.issued }
{
    for number in list {
        rings.part(shelves.at(*number).names());
    }
}

// The names of the last cluster that came in, but for as many as are of one ring from the first, join that ring of main.
fn gather_last<const W: usize>(
    rings: &mut NameBook,
    shelves: &Shelves<W>,
    last: Option<usize>,
    kept: usize,
)
    requires order { IsInOrder W shelves.now }
    requires there { IfSome last (λ number. (c : records.Cluster) × (stored_at shelves.now.store.clusters number ≡ Some c)
        × (1 ≤ kept) × (kept ≤ length c.names) × ((x : ℕ) → Contains c.names x → IsNamed rings.old.book x)) }
    ensures gathers { (c : records.Cluster) (number : ℕ) → last ≡ Some number → stored_at shelves.now.store.clusters number ≡ Some c
        → JoinsLast kept c rings.old rings.new }
    ensures none { last ≡ None → rings.new ≡ rings.old }
{
    if let Some(number) = last {
        let names = shelves.at(number).names();
        if kept < names.len() {
            rings.gather(names[0], names.split_at(kept).1);
        }
    }
}
