ghost use Rattle.std.specs.Prelude.{◌≡◌, ◌≢◌, ◌++◌, ℕ, ◌+◌, ◌*◌, ◌^◌, ◌<◌, ◌≤◌, true, false, None, Some, List, [], ◌∷◌, length, is_some, option_to_list, Contains, IsSome, IfOk, OnOk, OnErr, MatchOption, IfSome, IsTrue, sum_by, ◌↔◌};
ghost use Rattle.std.specs.FinMap as finmap;
ghost use Rattle.lists.specs.Distinct.{AreDistinct};
ghost use Rattle.graphs.specs.declared.names.Level as levels;
ghost use Rattle.graphs.specs.declared.names.Level.TheVariants.{Main, Top};
ghost use Rattle.chunk_index.specs.declared.entry.Tag.TheVariants.{MainOnly};
ghost use Rattle.cluster.specs.Clusters as records;
ghost use Rattle.levels.specs.Changes.{AreAt, Covers};
ghost use Rattle.cluster_store.specs.Changes.{ExchangesEach};
ghost use Rattle.levels.specs.Tops.{HasFront, HaveSameNames, IsMade};
ghost use Rattle.levels.specs.Shelves.{IsInOrder, no_clusters, numbers_at, seen_at, stored_at, tag_at};
ghost use Rattle.graph_model.specs.Limits.{AreInRange, bounds_of};
ghost use Rattle.graphs.specs.Closures.{is_ancestor};
ghost use Rattle.graphs.specs.Unions.{IsKinOfSome, PutsBehind};
ghost use Rattle.record.specs.Records.{IsFitted};
ghost use Rattle.cluster_store.specs.Unordered.{LacksOrder};
ghost use Rattle.name_book.specs.Books.{IsNamed};
ghost use Rattle.levels.specs.Mining.{LacksTouched};

use crate::mining::Touched;
use crate::numbers::{number_of, point_all, point_last, unpoint};
use crate::stored::{at, tag_of};
use chunk_index::Tag;
use cluster_store::{ClusterStore, Exchange, Made};
use component::Component;
use graph_model::{Level, Limits, TxId};
use graphs::{IdBuf, Kin};
use name_book::NameBook;
use outside::NoMemory;
use record::Record;
use staging::Overlay;
use std::alloc::Global;
use std::marker::Model;

/// The clusters of both levels, each under a number, and for each level the number of each name's cluster. A cluster within the limits
/// has its order, and one over them has none.
#[derive(Drop)]
pub struct Shelves<const W: usize> {
    pub(crate) alloc: Global,
    pub(crate) limits: Limits,
    numbers: Overlay<usize>,
    store: ClusterStore<W>,
}

impl<const W: usize> Model for Shelves<W> {
    ghost use Rattle.levels.specs.Shelves.{Shelf, shelf_code, IsInOrder};

    ghost Value = { Shelf };

    ghost coded = { shelf_code };

    ghost view = { λ a. record { limits = a.limits; main = a.numbers.base; staging = a.numbers.top; store = a.store } };

    ghost invariant = { λ a. IsInOrder W (record { limits = a.limits; main = a.numbers.base; staging = a.numbers.top; store = a.store }) };
}

impl<const W: usize> Shelves<W> {
    /// No cluster and no name. Takes no memory.
    pub fn new(alloc: Global, limits: Limits) -> Self
        requires wide { 1 ≤ W }
        requires narrow { W ≤ 2 }
        requires in_range { AreInRange (64 * W) (bounds_of limits) }
        ensures empty { result ≡ no_clusters limits }
        ensures order { IsInOrder W result }
    {
        Shelves {
            alloc,
            limits,
            numbers: Overlay::new(alloc),
            store: ClusterStore::new(alloc),
        }
    }

    /// Whether there is a staging.
    pub fn is_staged(&self) -> bool
        ensures { result ≡ is_some self.now.staging }
    {
        let _store = &self.store;
        self.numbers.staged()
    }

    /// The number of the cluster of a name in a level, or `None` where the level hasn't the name.
    pub fn number(&self, level: Level, id: TxId) -> Option<usize>
        ensures number { result ≡ finmap.get (numbers_at level self.now) id }
        ensures stands { IfSome result (λ number. (c : records.Cluster)
            × (seen_at level self.now.store.clusters number ≡ Some c) × Contains c.names id) }
    {
        let _store = &self.store;
        number_of(&self.numbers, level, id)
    }

    /// Sets the limits, where there is no cluster.
    pub fn set_limits(&mut self, limits: Limits)
        requires none { (number : ℕ) → stored_at self.old.store.clusters number ≡ None }
        requires in_range { AreInRange (64 * W) (bounds_of limits) }
        ensures set { self.new ≡ record self.old { limits = limits } }
        ensures order { IsInOrder W self.new }
    {
        let _numbers = &self.numbers;
        let _store = &self.store;
        self.limits = limits;
    }

    /// The cluster of a number that has one.
    pub fn at(&self, number: usize) -> &Record<W>
        requires { IsSome (stored_at self.now.store.clusters number) }
        ensures { stored_at self.now.store.clusters number ≡ Some result.now }
    {
        let _numbers = &self.numbers;
        at(&self.store, number)
    }

    /// The cluster of a number that has one with its order.
    pub fn ordered_at(&self, number: usize) -> &Component<W>
        requires { (c : records.Cluster) × (stored_at self.now.store.clusters number ≡ Some c) × (c.parts ≢ []) }
        ensures { stored_at self.now.store.clusters number ≡ Some result.now }
    {
        match self.at(number).component() {
            Some(cluster) => cluster,
            None => unreachable!(),
        }
    }

    /// Whether a name of a cluster is an ancestor of another. The cluster has both. Takes no memory.
    pub fn reaches(&mut self, number: usize, a: TxId, b: TxId) -> bool
        requires { (c : records.Cluster) × (stored_at self.old.store.clusters number ≡ Some c) × Contains c.names a × Contains c.names b }
        ensures ancestor { (c : records.Cluster) → stored_at self.old.store.clusters number ≡ Some c → result ≡ is_ancestor c.graph a b }
        ensures same { self.new ≡ self.old }
    {
        let _numbers = &self.numbers;
        self.store.reaches(number, a, b)
    }

    /// Whether a name of a cluster has an ancestor that isn't touched. The cluster has the name. Takes no memory.
    pub fn lacks_touched(&mut self, number: usize, rings: &NameBook, id: TxId) -> bool
        requires here { (c : records.Cluster) × (stored_at self.old.store.clusters number ≡ Some c) × Contains c.names id }
        requires named { (c : records.Cluster) (a : ℕ) → stored_at self.old.store.clusters number ≡ Some c → Contains c.names a
            → IsNamed rings.now.book a }
        ensures lacks { (c : records.Cluster) → stored_at self.old.store.clusters number ≡ Some c
            → IsTrue result ↔ LacksTouched c.graph rings.now id }
        ensures same { self.new ≡ self.old }
    {
        let _numbers = &self.numbers;
        self.store.lacks(number, id, &Touched { rings })
    }

    /// Puts behind `out` the ancestors, or the descendants, of names of a cluster, each once; the names themselves are among them. `out` has
    /// room for as many as the cluster has. Takes no memory.
    pub(crate) fn add_kin(&mut self, number: usize, ids: &[TxId], kin: Kin, out: &mut IdBuf)
        requires { (c : records.Cluster) × (stored_at self.old.store.clusters number ≡ Some c)
            × ((id : ℕ) → Contains ids.now id → Contains c.names id) × (length c.names ≤ out.old.room) }
        ensures adds { (c : records.Cluster) → stored_at self.old.store.clusters number ≡ Some c
            → PutsBehind (IsKinOfSome kin c.graph ids.now) out.old.ids out.new.ids }
        ensures room { length out.new.ids + out.new.room ≡ length out.old.ids + out.old.room }
        ensures same { self.new ≡ self.old }
    {
        let _numbers = &self.numbers;
        self.store.add_kin(number, ids, kin, out)
    }

    /// Whether a cluster of a level is over the limits. Takes no memory, and costs nothing where none is.
    pub fn is_oversized(&self, level: Level) -> bool
        ensures { IsTrue result ↔ LacksOrder level self.now.store.clusters }
    {
        let _numbers = &self.numbers;
        self.store.lacks_order(level)
    }

    /// The clusters under their numbers, and the parts of all of them in one order.
    pub(crate) fn store(&self) -> &ClusterStore<W>
        ensures { result.now ≡ self.now.store }
    {
        let _numbers = &self.numbers;
        &self.store
    }

    /// The levels that the cluster of a number stands in.
    pub fn tag(&self, number: usize) -> Tag
        requires { IsSome (stored_at self.now.store.clusters number) }
        ensures { tag_at self.now.store.clusters number ≡ Some result }
    {
        let _numbers = &self.numbers;
        tag_of(&self.store, number)
    }

    /// Whether main alone has the cluster of a number: staging has left it.
    pub fn is_left(&self, number: usize) -> bool
        ensures { IsTrue result ↔ (tag_at self.now.store.clusters number ≡ Some MainOnly) }
    {
        let _numbers = &self.numbers;
        self.store.tag(number) == Some(Tag::MainOnly)
    }

    /// Clusters of the top level go out, and others come in, each under a number of its own. The last of these takes the number of the
    /// first that goes out where main doesn't keep that one; as many of its names as `kept`, from the first, stand under that number
    /// already. Some names go. Answers the numbers of what came in. Without memory all stays as it was.
    pub(crate) fn rebuild(
        &mut self,
        outs: &[usize],
        rest: Vec<Record<W>>,
        last: Option<Record<W>>,
        kept: usize,
        gone: &[TxId],
    ) -> Result<Made, NoMemory>
        requires once { AreDistinct outs.now }
        requires comes { (olds : List records.Cluster) × AreAt (seen_at Top self.old.store.clusters) outs.now olds
            × Covers (64 * W) olds (rest.items ++ option_to_list last) gone.now (numbers_at Top self.old) }
        requires kept { IfSome last (λ c. HasFront kept outs.now c.names (numbers_at Top self.old)) }
        requires fitted { (c : records.Cluster) → Contains (rest.items ++ option_to_list last) c → IsFitted (64 * W) self.old.limits c }
        requires order { IsInOrder W self.old }
        ensures rebuilt { IfOk result (λ made. IsMade W outs.now made.rest.items made.last rest.entry.items last.entry gone.now self.old self.new) }
        ensures err { OnErr result (self.new ≡ self.old) }
        ensures order { IsInOrder W self.new }
    {
        let staged = self.numbers.staged();
        make_room(&mut self.numbers, rest.as_slice(), &last, gone.len())?;
        let made = self.store.rebuild(staged, outs, rest, last)?;
        unpoint(&mut self.numbers, gone);
        point_all(&mut self.numbers, &self.store, made.rest.as_slice());
        point_last(&mut self.numbers, &self.store, outs, made.last, kept);
        Ok(made)
    }
}

impl<const W: usize> Shelves<W> {
    /// Gives clusters others of the same names, each under its number and in the levels that it stands in. Without memory all stays as it
    /// was.
    pub(crate) fn exchange(&mut self, exchanged: Vec<Exchange<W>>) -> Result<(), NoMemory>
        requires same { HaveSameNames W exchanged.items self.old }
        ensures exchanged { OnOk result (ExchangesEach exchanged.entry.items self.old.store.clusters self.new.store.clusters) }
        ensures numbers { (self.new.main ≡ self.old.main) × (self.new.staging ≡ self.old.staging) × (self.new.limits ≡ self.old.limits) }
        ensures err { OnErr result (self.new ≡ self.old) }
        ensures order { IsInOrder W self.new }
    {
        let _numbers = &self.numbers;
        self.store.exchange(exchanged)
    }

    /// Opens a staging that is as main is. Takes no memory.
    pub fn begin(&mut self)
        requires { self.old.staging ≡ None }
        ensures staged { self.new ≡ record self.old { staging = Some self.old.main } }
        ensures order { IsInOrder W self.new }
    {
        let _store = &self.store;
        match self.numbers.begin() {
            Ok(()) => {}
            Err(_) => unreachable!(),
        }
    }

    /// Closes the staging: the level of the word is main then, and its clusters are all that are left. Takes no memory.
    pub fn close(&mut self, stays: Level)
        requires { IsSome self.old.staging }
        ensures main { self.new.main ≡ numbers_at stays self.old }
        ensures staging { self.new.staging ≡ None }
        ensures limits { self.new.limits ≡ self.old.limits }
        ensures seen { (n : ℕ) → seen_at Main self.new.store.clusters n ≡ seen_at stays self.old.store.clusters n }
        ensures order { IsInOrder W self.new }
    {
        self.store.settle(stays);
        match stays {
            Level::Main => self.numbers.abort(),
            Level::Top => self.numbers.commit(),
        }
    }
}

/// Makes room, so that the names of some clusters can get a number and as many names as `gone` can go.
fn make_room<const W: usize>(
    numbers: &mut Overlay<usize>,
    rest: &[Record<W>],
    last: &Option<Record<W>>,
    gone: usize,
) -> Result<(), NoMemory>
    requires { W ≤ 2 }
    ensures room { OnOk result (sum_by (λ c. length c.names) rest.now + sum_by (λ c. length c.names) (option_to_list last.now) + gone
        ≤ numbers.new.spare) }
    ensures base { numbers.new.base ≡ numbers.old.base }
    ensures top { numbers.new.top ≡ numbers.old.top }
{
    let few = name_count(rest, gone)?;
    let more = last_count(last);
    let all = few.checked_add(more).ok_or(NoMemory)?;
    numbers.reserve(all)
}

/// How many names some clusters have, and so many more.
fn name_count<const W: usize>(clusters: &[Record<W>], more: usize) -> Result<usize, NoMemory>
    requires { W ≤ 2 }
    ensures { IfOk result (λ n. n ≡ sum_by (λ c. length c.names) clusters.now + more) }
{
    let mut count = more;
    for cluster in clusters {
        count = count.checked_add(cluster.names().len()).ok_or(NoMemory)?;
    }
    Ok(count)
}

/// How many names a cluster has, where there is one.
pub(crate) fn last_count<const W: usize>(last: &Option<Record<W>>) -> usize
    requires { W ≤ 2 }
    ensures { result ≡ sum_by (λ c. length c.names) (option_to_list last.now) }
{
    match last {
        Some(cluster) => cluster.names().len(),
        None => 0,
    }
}
