ghost use Rattle.std.specs.Prelude.{◌≡◌, ◌≢◌, ◌↔◌, ◌≤◌, ◌+◌, ◌*◌, ◌++◌, ℕ, false, true, None, Some, [], ◌∷◌, length, map, Contains, IsSome, IsTrue, IfOk, IfSome, OnOk, OnErr, MatchOption, option_to_list};
ghost use Rattle.std.specs.FinMap as finmap;
ghost use Rattle.graphs.specs.Closures.{is_ancestor};
ghost use Rattle.graphs.specs.Merges.{Precedes};
ghost use Rattle.graphs.specs.Unions.{IsKinOfSome, PutsBehind};
ghost use Rattle.record.specs.Records.{IsRecord};
ghost use Rattle.cluster_store.specs.Stores.{Stored as Kept, IsStore, AreWhole, IsLeast, IsOrdered, shown_in, shown_only};
ghost use Rattle.chunk_index.specs.declared.entry.Tag.TheVariants.{Both};
ghost use Rattle.cluster_store.specs.Held.{held_in};
ghost use Rattle.cluster_store.specs.Rates.{IsTail};
ghost use Rattle.cluster_store.specs.Changes.{AreHeld, EndsAt, ExchangesEach, lowest_in, most_least, settled};
ghost use Rattle.cluster_store.specs.Tops.{MayLeave, TopChanges};
ghost use Rattle.cluster_store.specs.Unordered.{LacksOrder};
ghost use Rattle.cluster_store.specs.Names.{AreClusters, AreNames};
ghost use Rattle.cluster_store.specs.Overs.{AreLacking};

use crate::ancestry::{add_kin, lacks, reaches};
use crate::clusters::{cluster_of, entry_at, exchange_all, tag_of};
use crate::held::HeldWalk;
use crate::least::{lowest_exchanged, lowest_of_all, lowest_of_last};
use crate::name_walk::NameWalk;
use crate::over_walk::OverWalk;
use crate::rate_walk::RateWalk;
use crate::rebuilding::rebuild;
use crate::record_walk::RecordWalk;
use crate::settling::settle;
use crate::stored::{Exchange, Made, Stored};
use crate::tail::first_of_tail;
use crate::unordered::{lacks_order, list_exchanged, list_made, make_room};
use crate::walk::PartWalk;
use chunk_index::{ChunkIndex, Tag};
use graphs::{IdBuf, Kin, Level, TxId};
use indexmap::IndexSet;
use outside::NoMemory;
use record::{Listing, Record};
use slab::Slab;
use std::alloc::Global;
use std::marker::Model;

/// Clusters under numbers, each with the levels that it stands in, and the parts of all of them in one order.
#[derive(Drop)]
pub struct ClusterStore<const W: usize> {
    alloc: Global,
    slots: Slab<Stored<W>>,
    index: ChunkIndex,
    // the numbers of the clusters without an order, and perhaps some more
    over: IndexSet<usize>,
    least: u64,
}

// Clauses see the clusters by their numbers, the parts in their order, and the bound of sizes.
impl<const W: usize> Model for ClusterStore<W> {
    ghost use Rattle.std.specs.Prelude.{◌*◌, map};
    ghost use Rattle.cluster_store.specs.Stores.{Store, store_code};
    ghost use Rattle.cluster_store.specs.Kept.{shelved, place_of};
    ghost use Rattle.cluster_store.specs.Unordered.{IsStored};

    ghost Value = { Store };

    ghost coded = { store_code };

    ghost view = { λ a. record { clusters = shelved a.slots.slots; order = map place_of a.index; least = a.least } };

    ghost invariant = { λ a. IsStored W a.slots.slots a.index a.over a.least };
}

impl<const W: usize> ClusterStore<W> {
    /// No cluster. Takes no memory.
    pub fn new(alloc: Global) -> Self
        requires { W ≤ 64 }
        ensures empty { result ≡ record { clusters = finmap.empty; order = []; least = most_least } }
        ensures store { IsStore (64 * W) result }
    {
        ClusterStore {
            alloc,
            slots: Slab::new(alloc),
            index: ChunkIndex::new(alloc),
            over: IndexSet::new(alloc),
            least: u64::MAX,
        }
    }

    /// The cluster of a number, or `None` where the number has none.
    pub fn get(&self, number: usize) -> Option<&Record<W>>
        ensures cluster { MatchOption result (finmap.get self.now.clusters number ≡ None)
            (λ c. (s : Kept) × (finmap.get self.now.clusters number ≡ Some s) × (c.now ≡ s.cluster)) }
        ensures whole { IfSome result (λ c. IsRecord (64 * W) c.now) }
    {
        cluster_of(&self.slots, number)
    }

    /// The levels in which the cluster of a number stands, or `None` where the number has none.
    pub fn tag(&self, number: usize) -> Option<Tag>
        ensures { MatchOption result (finmap.get self.now.clusters number ≡ None)
            (λ tag. (s : Kept) × (finmap.get self.now.clusters number ≡ Some s) × (tag ≡ s.tag)) }
    {
        tag_of(&self.slots, number)
    }

    /// A size that no name of any cluster is below, in virtual bytes. It only falls, to the sizes that come, and begins
    /// anew where no cluster is left.
    pub fn least(&self) -> u64
        ensures value { result ≡ self.now.least }
        ensures least { IsLeast self.now.clusters result }
        ensures whole { AreWhole (64 * W) self.now.clusters }
    {
        self.least
    }

    /// Whether a cluster without an order stands in a level. Takes no memory. It costs nothing where every cluster has one, and else
    /// some of those that have none.
    pub fn lacks_order(&self, level: Level) -> bool
        ensures { IsTrue result ↔ LacksOrder level self.now.clusters }
    {
        lacks_order(&self.slots, &self.over, level)
    }

    /// The clusters of a level that have no order, each once and lent as its links. Takes no memory, and costs nothing where every cluster
    /// has an order.
    pub fn walk_over(&self, level: Level) -> OverWalk<'_, Stored<W>>
        ensures { AreLacking level self.now.clusters result }
    {
        OverWalk::new(&self.slots, self.over.as_slice(), level)
    }

    /// The names of a level, one cluster after the other. Takes no memory. It looks at the clusters of both levels.
    pub fn walk_names(&self, level: Level) -> NameWalk<'_, Stored<W>>
        ensures { AreNames level self.now.clusters result }
    {
        NameWalk::new(self.slots.iter(), level)
    }

    /// The clusters of a level, each once, those with an order and those without. Takes no memory. It looks at the clusters of both levels.
    pub fn walk_records(&self, level: Level) -> RecordWalk<'_, W>
        ensures { AreClusters level self.now.clusters result }
    {
        RecordWalk::new(self.slots.iter(), level)
    }

    /// Whether a name of a cluster is an ancestor of another. The cluster of the number has both. Takes no memory.
    pub fn reaches(&mut self, number: usize, a: TxId, b: TxId) -> bool
        requires { (s : Kept) × (finmap.get self.old.clusters number ≡ Some s) × Contains s.cluster.names a × Contains s.cluster.names b }
        ensures ancestor { (s : Kept) → finmap.get self.old.clusters number ≡ Some s → result ≡ is_ancestor s.cluster.graph a b }
        ensures same { self.new ≡ self.old }
    {
        reaches(&mut self.slots, number, a, b)
    }

    /// Whether a name of a cluster has an ancestor that isn't listed. The cluster of the number has the name. Takes no memory.
    pub fn lacks<T: Listing>(&mut self, number: usize, id: TxId, listing: &T) -> bool
        requires here { (s : Kept) × (finmap.get self.old.clusters number ≡ Some s) × Contains s.cluster.names id }
        requires known { (s : Kept) (a : ℕ) → finmap.get self.old.clusters number ≡ Some s → Contains s.cluster.names a → T.known listing.now a }
        ensures lacks { (s : Kept) → finmap.get self.old.clusters number ≡ Some s
            → IsTrue result ↔ ((a : ℕ) × (is_ancestor s.cluster.graph a id ≡ true) × (T.listed listing.now a → ⊥)) }
        ensures same { self.new ≡ self.old }
    {
        lacks(&mut self.slots, number, id, listing)
    }

    /// Puts behind `out` the ancestors, or the descendants, of names of a cluster, each once; the names themselves are among them. The
    /// cluster of the number has these names, and `out` has room for as many as the cluster has. Takes no memory.
    pub fn add_kin(&mut self, number: usize, ids: &[TxId], kin: Kin, out: &mut IdBuf)
        requires { (s : Kept) × (finmap.get self.old.clusters number ≡ Some s)
            × ((id : ℕ) → Contains ids.now id → Contains s.cluster.names id) × (length s.cluster.names ≤ out.old.room) }
        ensures adds { (s : Kept) → finmap.get self.old.clusters number ≡ Some s
            → PutsBehind (IsKinOfSome kin s.cluster.graph ids.now) out.old.ids out.new.ids }
        ensures room { length out.new.ids + out.new.room ≡ length out.old.ids + out.old.room }
        ensures same { self.new ≡ self.old }
    {
        add_kin(&mut self.slots, number, ids, kin, out)
    }

    /// The parts of a level, by falling rate, among equal rates by the numbers of the clusters, and of a cluster in their
    /// order. Takes no memory.
    pub fn walk(&self, level: Level) -> PartWalk<'_, Stored<W>>
        ensures parts { result ≡ shown_in level self.now }
        ensures order { IsOrdered self.now.clusters self.now.order }
    {
        PartWalk::new(&self.slots, self.index.walk(level))
    }

    /// The parts of a level in the same order, each with its cluster. Takes no memory.
    pub fn walk_held(&self, level: Level) -> HeldWalk<'_, W>
        ensures { result ≡ held_in level self.now }
    {
        HeldWalk::new(&self.slots, self.index.walk(level))
    }

    /// The fees and sizes of the parts of a level, in the same order. Takes no memory, and looks at no cluster.
    pub fn rates(&self, level: Level) -> RateWalk<'_>
        ensures { result ≡ map (λ s. s.part.rate) (shown_in level self.now) }
    {
        let _slots = &self.slots;
        RateWalk::new(self.index.walk(level))
    }

    /// The fees and sizes of the parts of the clusters of one tag, in the same order. Takes no memory, and looks at no
    /// cluster; of main alone, no other part is looked at, nor of staging alone while all of its parts came so.
    pub fn rates_only(&self, tag: Tag) -> RateWalk<'_>
        ensures { result ≡ map (λ s. s.part.rate) (shown_only tag self.now) }
    {
        let _slots = &self.slots;
        RateWalk::new(self.index.walk_only(tag))
    }

    /// The fees and sizes of parts at the end of those that stand in both levels, in the same order, for two walks: of the last
    /// ones of negative fee, as many as are this large together, in virtual bytes, or all. Takes no memory, and looks at no
    /// other part but one.
    pub fn last_shared(&self, size: u64) -> (RateWalk<'_>, RateWalk<'_>)
        ensures tail { IsTail size (map (λ s. s.part.rate) (shown_only Both self.now)) result.0 }
        ensures same { result.1 ≡ result.0 }
    {
        let _slots = &self.slots;
        match first_of_tail(&self.index, size) {
            None => (RateWalk::none(), RateWalk::none()),
            Some(first) => (
                RateWalk::new(self.index.walk_shared_from(&first)),
                RateWalk::new(self.index.walk_shared_from(&first)),
            ),
        }
    }

    /// Whether walks show one part before another. A part is told by the number of its cluster and its position there.
    pub fn comes_before(&self, a: (usize, usize), b: (usize, usize)) -> bool
        requires a { Contains self.now.order a }
        requires b { Contains self.now.order b }
        ensures before { (result ≡ true) ↔ Precedes self.now.order a b }
        ensures behind { a ≢ b → result ≡ false → Precedes self.now.order b a }
    {
        entry_at(&self.slots, a).is_before(&entry_at(&self.slots, b))
    }

    /// Clusters of the top level go out, and others come in. Where there is a staging, main stays as it is: what it has too
    /// stays there, in main alone, and what comes in stands in staging alone; where there is none, all that stands there stands
    /// in both levels.
    ///
    /// The last of those that come in takes the number of the first that goes out, where main doesn't keep that one. Answers
    /// the numbers of the others, which were free, and that of the last. Takes no memory but for what comes in.
    ///
    /// # Errors
    /// Where there is no memory for it. All is as it was.
    pub fn rebuild(
        &mut self,
        staged: bool,
        outs: &[usize],
        rest: Vec<Record<W>>,
        last: Option<Record<W>>,
    ) -> Result<Made, NoMemory>
        requires { MayLeave staged outs.now self.old.clusters }
        ensures rebuilt { IfOk result (λ made. TopChanges staged outs.now made.rest.items made.last rest.entry.items last.entry
            self.old.clusters self.new.clusters) }
        ensures least { OnOk result (EndsAt self.new.clusters
            (lowest_in (rest.entry.items ++ option_to_list last.entry) self.old.least) self.new.least) }
        ensures comes { OnErr result (rest.entry.items ≡ [] → IsSome last.entry) }
        ensures err { OnErr result (self.new ≡ self.old) }
        ensures store { IsStore (64 * W) self.new }
    {
        let least = lowest_of_all(self.least, rest.as_slice());
        let least = lowest_of_last(least, &last);
        make_room(&mut self.over, rest.as_slice(), &last)?;
        let made = rebuild(
            self.alloc,
            &mut self.slots,
            &mut self.index,
            staged,
            outs,
            rest,
            last,
        )?;
        self.least = least;
        list_made(&self.slots, &mut self.over, outs, &made);
        self.begin_anew();
        Ok(made)
    }

    /// Puts clusters in the places of others under their numbers, in the same levels. Entries of the index that are the same
    /// for a cluster and the one in its place stay.
    ///
    /// # Errors
    /// Where there is no memory for it. All is as it was.
    pub fn exchange(&mut self, exchanged: Vec<Exchange<W>>) -> Result<(), NoMemory>
        requires { AreHeld exchanged.items self.old.clusters }
        ensures exchanged { OnOk result (ExchangesEach exchanged.entry.items self.old.clusters self.new.clusters) }
        ensures least { OnOk result (EndsAt self.new.clusters
            (lowest_in (map (λ x. x.cluster) exchanged.entry.items) self.old.least) self.new.least) }
        ensures err { OnErr result (self.new ≡ self.old) }
        ensures store { IsStore (64 * W) self.new }
    {
        let least = lowest_exchanged(self.least, exchanged.as_slice());
        list_exchanged(&mut self.over, exchanged.as_slice())?;
        exchange_all(&mut self.slots, &mut self.index, exchanged)?;
        self.least = least;
        self.begin_anew();
        Ok(())
    }

    // Where no cluster is left, any number is a bound of sizes.
    fn begin_anew(&mut self)
        ensures clusters { self.new.clusters ≡ self.old.clusters }
        ensures least { EndsAt self.new.clusters self.old.least self.new.least }
        ensures store { IsStore (64 * W) self.new }
    {
        if self.slots.is_empty() {
            self.least = u64::MAX;
        }
    }

    /// Where a staging is closed and a level stays: the clusters of that level stand in both from now on, and the others go out. Takes
    /// no memory.
    ///
    /// It costs the clusters that stand in one level alone, and their parts, and all clusters without an order.
    pub fn settle(&mut self, stays: Level)
        ensures settled { (number : ℕ) → finmap.get self.new.clusters number ≡ settled stays (finmap.get self.old.clusters number) }
        ensures least { EndsAt self.new.clusters self.old.least self.new.least }
        ensures store { IsStore (64 * W) self.new }
    {
        settle(&mut self.slots, &mut self.index, &mut self.over, stays);
        self.begin_anew();
    }
}
