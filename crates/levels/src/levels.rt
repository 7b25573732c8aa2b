ghost use Rattle.std.specs.Prelude.{◌≡◌, ◌≢◌, ◌⊎◌, ℕ, ◌+◌, ◌-◌, ◌*◌, ◌^◌, ◌<◌, ◌≤◌, false, true, cond, None, Some, List, ◌∷◌, [], length, is_some, map, flat_map, Contains, IsSome, IfOk, IfErr, OnOk, OnErr, MatchOption, MatchResult, IsTrue, ◌↔◌};
ghost use Rattle.std.specs.FinMap as finmap;
ghost use Rattle.std.specs.List.Sorted.{IsPermutation};
ghost use Rattle.fee_rate.specs.Limits.{IsFee, IsRate};
ghost use Rattle.fee_rate.specs.declared.limits.TheConstants.{MAX_TOTAL};
ghost use Rattle.lists.specs.Distinct.{AreDistinct};
ghost use Rattle.graphs.specs.Closures.{is_member, is_ancestor, rate_of, AddsPair, AreLinked, DropsPlace};
ghost use Rattle.graphs.specs.Certificates.{Part};
ghost use Rattle.graphs.specs.Graphs.{Lists};
ghost use Rattle.graphs.specs.Unions.{IsKinOfSome};
ghost use Rattle.graphs.specs.declared.names.Level.TheVariants.{Main, Top};
ghost use Rattle.graph_model.specs.declared.names.Refusal.TheVariants.{Memory};
ghost use Rattle.graph_model.specs.Answers.{order_of, StandsTo};
ghost use Rattle.cluster.specs.Clusters.{Cluster, IsCluster};
ghost use Rattle.cluster.specs.Steps.{GrowsWithin};
ghost use Rattle.record.specs.Steps.{most_steps_fit};
ghost use Rattle.graph_model.specs.Limits.{AreInRange, bounds_of};
ghost use Rattle.levels.specs.Oversize.{IsOversized};
ghost use Rattle.levels.specs.Overs.{LendsOvers};
ghost use Rattle.cluster_store.specs.Held.{Held};
ghost use Rattle.cluster_store.specs.Lent.{lent};
ghost use Rattle.diagram.specs.Parts.{AreLevelParts, YieldsParts};
ghost use Rattle.levels.specs.Held.{IsHeldIn};
ghost use Rattle.levels.specs.Orders.{AreApart, ComparesParts, ListsCovers, sums_of};
ghost use Rattle.levels.specs.Levels.{AddsName, ChangesTop, GrowsForFee, HavePicks, IsBest, IsLive, IsWithin, LosesNames, MayCome, SetsFeeIn, level_at, no_names};
ghost use Rattle.levels.specs.Joins.{DepRefusalIs};
ghost use Rattle.levels.specs.Lefts.{DropsWithin};
ghost use Rattle.levels.specs.Levels as specs_levels;
ghost use Rattle.levels.specs.Mining.{MineRefusalIs};
ghost use Rattle.levels.specs.Restores.{BringsNoneOver, BringsOver, MayRestore, PutsTxs, RestoresWithin};
ghost use Rattle.levels.specs.Stays.{KeepsPicks};
ghost use Rattle.levels.specs.Unions.{LieIn};
ghost use Rattle.graphs.specs.declared.names.Level as graph_level;
ghost use Rattle.levels.specs.Views.{AreItsClusters, HaveClusterNumbers, IsClusterOf};

use crate::mining::refused_mine;
use crate::moving::{add_name, connect, drop_names};
use crate::restoring::restore;
use crate::settling::settle_rings;
use crate::shelves::Shelves;
use chunk_index::Tag;
use cluster::PartRef;
use cluster_store::{HeldWalk, NameWalk, OverWalk, PartWalk, RateWalk, RecordWalk, Stored};
use component::{Component, Covers, Work};
use fee_rate::FeeRate;
use graph_model::{Level, Limits, Place, Refusal, TxId, Verdict};
use graphs::{IdBuf, Kin};
use name_book::NameBook;
use outside::NoMemory;
use repeats::Repeats;
use std::alloc::Global;
use std::marker::Model;
use step_count::{Ledger, Steps};

/// The clusters of both levels of a graph, of at most 64·W names each, where W is 1 or 2.
#[derive(Drop)]
pub struct Levels<const W: usize> {
    shelves: Shelves<W>,
    rings: NameBook,
    // how many names main has, how many the top level, and how many were added so far
    mains: usize,
    tops: usize,
    issued: u64,
    // where a list of names is tested for names that stand in it twice
    repeats: Repeats,
    work: Work<W>,
}

impl<const W: usize> Model for Levels<W> {
    ghost use Rattle.levels.specs.Levels.{Levels as Kept, levels_code};
    ghost use Rattle.levels.specs.Shelves.{levels_of};
    ghost use Rattle.levels.specs.Kept.{IsKept};

    ghost Value = { Kept };

    ghost coded = { levels_code };

    ghost view = { λ a. levels_of a.shelves a.issued };

    ghost invariant = { λ a. IsKept W a.shelves a.rings a.mains a.tops a.issued };
}

impl<const W: usize> Levels<W> {
    /// No name and no staging, under these limits, with the room in which orders are made and lists of names are tested.
    pub fn new(alloc: Global, limits: Limits) -> Result<Self, NoMemory>
        requires wide { 1 ≤ W }
        requires narrow { W ≤ 2 }
        requires in_range { AreInRange (64 * W) (bounds_of limits) }
        ensures { IfOk result (λ levels. levels ≡ no_names limits) }
    {
        let work = Work::new(alloc)?;
        let repeats = Repeats::new(alloc)?;
        Ok(Levels {
            shelves: Shelves::new(alloc, limits),
            rings: NameBook::new(alloc),
            mains: 0,
            tops: 0,
            issued: 0,
            repeats,
            work,
        })
    }

    /// The limits in force.
    pub fn limits(&self) -> Limits
        ensures limits { result ≡ self.now.limits }
        ensures in_range { AreInRange (64 * W) (bounds_of result) }
    {
        let _count = self.mains;
        self.shelves.limits
    }

    /// Sets the limits, where no level has a name and there is no staging. Takes no memory.
    pub fn set_limits(&mut self, limits: Limits)
        requires none { (id : ℕ) → is_member self.old.main.graph id ≡ false }
        requires alone { self.old.staging ≡ None }
        requires in_range { AreInRange (64 * W) (bounds_of limits) }
        ensures set { self.new ≡ record self.old { limits = limits } }
        ensures picks { HavePicks self.new }
    {
        let _count = self.mains;
        self.shelves.set_limits(limits);
    }

    /// Whether a component of a level is over the limits, so that the level has no order. Takes no memory, and costs nothing where no
    /// component of either level is.
    pub fn oversized(&self, level: Level) -> bool
        ensures { IsTrue result ↔ IsOversized self.now.limits (level_at self.now level).graph }
    {
        let _count = self.mains;
        self.shelves.is_oversized(level)
    }

    /// How many names were added so far. Sets of names have at most two words.
    pub fn issued(&self) -> u64
        ensures issued { result ≡ self.now.issued }
        ensures narrow { W ≤ 2 }
    {
        let _shelves = &self.shelves;
        self.issued
    }

    /// Whether there is a staging.
    pub fn is_staged(&self) -> bool
        ensures { result ≡ is_some self.now.staging }
    {
        let _count = self.mains;
        self.shelves.is_staged()
    }

    /// How many names a level has.
    pub fn count(&self, level: Level) -> usize
        ensures { result ≡ finmap.len (level_at self.now level).graph }
    {
        let _shelves = &self.shelves;
        match level {
            Level::Main => self.mains,
            Level::Top => self.tops,
        }
    }

    /// How many names the levels have together.
    pub fn live(&self) -> usize
        ensures count { (ids : List ℕ) → Lists (IsLive self.now) ids → result ≡ length ids }
        ensures listed { (ids : List ℕ) × Lists (IsLive self.now) ids × (result ≡ length ids) }
        ensures few { result ≤ MAX_TOTAL }
    {
        let _shelves = &self.shelves;
        self.rings.len()
    }

    /// Whether a level has a name.
    pub fn has(&self, level: Level, id: TxId) -> bool
        ensures { result ≡ is_member (level_at self.now level).graph id }
    {
        let _count = self.mains;
        self.shelves.number(level, id).is_some()
    }

    /// The fee in satoshis and the size in virtual bytes that a level has of a name, or `None` where it hasn't the name.
    pub fn rate(&self, level: Level, id: TxId) -> Option<FeeRate>
        ensures { MatchOption result (is_member (level_at self.now level).graph id ≡ false)
            (λ rate. (is_member (level_at self.now level).graph id ≡ true) × (rate ≡ rate_of (level_at self.now level).graph id)) }
    {
        let _count = self.mains;
        match self.shelves.number(level, id) {
            Some(number) => Some(self.shelves.at(number).rate(id)),
            None => None,
        }
    }

    /// The cluster of a name in a level that isn't over the limits, or `None` where the level hasn't the name.
    pub fn find(&self, level: Level, id: TxId) -> Option<&Component<W>>
        requires { IsWithin self.now level }
        ensures { MatchOption result (is_member (level_at self.now level).graph id ≡ false)
            (λ c. (is_member (level_at self.now level).graph id ≡ true)
            × IsClusterOf (level_at self.now level).graph id c.now × IsCluster (64 * W) c.now) }
    {
        let _count = self.mains;
        match self.shelves.number(level, id) {
            Some(number) => Some(self.shelves.ordered_at(number)),
            None => None,
        }
    }

    /// Adds a name that is in neither level to the top level, with its fee in satoshis and its size in virtual bytes. Without
    /// memory all stays as it was.
    pub fn add<L: Ledger>(
        &mut self,
        id: TxId,
        fee: i64,
        size: u64,
        steps: &mut Steps<L>,
    ) -> Result<(), NoMemory>
        requires { MayCome self.old id (record { fee = fee; size = size }) }
        ensures added { OnOk result ((new : specs_levels.Levels) × ChangesTop (λ old new. AddsName old new id
            (record { fee = fee; size = size })) self.old new × (self.new ≡ record new { issued = self.old.issued + 1 })) }
        ensures kept { KeepsPicks self.old self.new }
        ensures err { OnErr result (self.new ≡ self.old) }
        ensures steps { steps.new ≡ steps.old }
    {
        add_name(
            &mut self.shelves,
            &mut self.rings,
            id,
            fee,
            size,
            &mut self.work,
            steps,
        )?;
        self.issued += 1;
        self.tops += 1;
        self.mains = main_count(self.shelves.is_staged(), self.mains, self.tops);
        Ok(())
    }

    /// Makes a name of the top level a parent of another. Where it is an ancestor already nothing changes, and no step is counted.
    ///
    /// Refused, by the first of these that holds: `Unknown` with the name where the parent or the child isn't in the top level,
    /// `Cycle` where the child is an ancestor of the parent, `Count` and `ClusterSize`, with what the cluster would have, where no
    /// dependency may pass the limits and the pair would join two to one over a limit, `Memory` where there is none. All stays as it
    /// was then.
    pub fn dep<L: Ledger>(
        &mut self,
        parent: TxId,
        child: TxId,
        steps: &mut Steps<L>,
    ) -> Result<(), Refusal>
        ensures row { MatchResult result (λ _. DepRefusalIs self.old.limits (level_at self.old Top).graph parent child None)
            (λ why. ((why ≡ Memory) × DepRefusalIs self.old.limits (level_at self.old Top).graph parent child None)
            ⊎ ((why ≢ Memory) × DepRefusalIs self.old.limits (level_at self.old Top).graph parent child (Some why))) }
        ensures linked { OnOk result (ChangesTop (λ old new. AddsPair old new parent child) self.old self.new) }
        ensures same { IfErr result (λ why. (self.new ≡ self.old) × (why ≢ Memory → steps.new ≡ steps.old))
            × (is_ancestor (level_at self.old Top).graph parent child ≡ true → (self.new ≡ self.old) × (steps.new ≡ steps.old)) }
        ensures kept { KeepsPicks self.old self.new }
        ensures steps { (ids : List ℕ)
            → Lists (λ q. AreLinked (level_at self.old Top).graph q parent ⊎ AreLinked (level_at self.old Top).graph q child) ids
            → GrowsWithin (most_steps_fit self.old.limits (level_at self.old Top).graph ids) steps.old steps.new }
    {
        let _count = self.mains;
        let link = self.shelves.refused_dep(parent, child)?;
        match connect(
            &mut self.shelves,
            &mut self.rings,
            link,
            parent,
            child,
            &mut self.work,
            steps,
        ) {
            Ok(()) => Ok(()),
            Err(NoMemory) => Err(Refusal::Memory),
        }
    }

    /// Gives a name another fee, in satoshis, in each level that has it. A fee that is the same changes nothing. Without memory all
    /// stays as it was.
    pub fn set_fee<L: Ledger>(
        &mut self,
        id: TxId,
        fee: i64,
        steps: &mut Steps<L>,
    ) -> Result<(), NoMemory>
        requires live { IsLive self.old id }
        requires fee { IsFee fee }
        requires one { is_member self.old.main.graph id ≡ true → is_member (level_at self.old Top).graph id ≡ true
            → rate_of self.old.main.graph id ≡ rate_of (level_at self.old Top).graph id }
        ensures fee { OnOk result (SetsFeeIn id fee self.old self.new) }
        ensures still { ((level : graph_level.Level) → is_member (level_at self.old level).graph id ≡ true
            → (rate_of (level_at self.old level).graph id).fee ≡ fee) → (self.new ≡ self.old) × (steps.new ≡ steps.old) }
        ensures kept { KeepsPicks self.old self.new }
        ensures err { OnErr result (self.new ≡ self.old) }
        ensures grew { steps.old ≤ steps.new }
        ensures steps { GrowsForFee id steps.old steps.new self.old }
    {
        let _count = self.mains;
        self.shelves.set_fee(id, fee, &mut self.work, steps)
    }

    /// Drops a name of the top level. The others keep the ancestors that they had among them. Without memory all stays as it was.
    pub fn remove<L: Ledger>(&mut self, id: TxId, steps: &mut Steps<L>) -> Result<(), NoMemory>
        requires { is_member (level_at self.old Top).graph id ≡ true }
        ensures dropped { OnOk result (ChangesTop (λ old new. DropsPlace old new id) self.old self.new) }
        ensures kept { KeepsPicks self.old self.new }
        ensures err { OnErr result (self.new ≡ self.old) }
        ensures steps { DropsWithin self.old.limits (id ∷ []) (level_at self.old Top).graph steps.old steps.new }
    {
        self.drop_names(&[id], steps)
    }

    /// Drops names of the top level, each of them once in the list. The others keep the ancestors that they had among them. However many
    /// names a cluster loses, it costs what is left of it once. Without memory all stays as it was.
    pub fn drop_names<L: Ledger>(
        &mut self,
        ids: &[TxId],
        steps: &mut Steps<L>,
    ) -> Result<(), NoMemory>
        requires live { (id : ℕ) → Contains ids.now id → is_member (level_at self.old Top).graph id ≡ true }
        requires once { AreDistinct ids.now }
        ensures dropped { OnOk result (ChangesTop (λ old new. LosesNames old new ids.now) self.old self.new) }
        ensures kept { KeepsPicks self.old self.new }
        ensures err { OnErr result (self.new ≡ self.old) }
        ensures steps { DropsWithin self.old.limits ids.now (level_at self.old Top).graph steps.old steps.new }
    {
        drop_names(
            &mut self.shelves,
            &mut self.rings,
            ids,
            &mut self.work,
            steps,
        )?;
        self.tops -= ids.len();
        self.mains = main_count(self.shelves.is_staged(), self.mains, self.tops);
        Ok(())
    }

    /// Puts transactions that are in no level into main, each with its fee in satoshis and its size in virtual bytes, with those of the pairs
    /// (parent, child) whose child is then in main. There is no staging. Each cluster that is made is made once, in one change.
    ///
    /// Refused with `Count`, else `ClusterSize`, where no dependency may pass the limits and a cluster would be over them: of the first
    /// transaction of which that is so it tells the number of the cluster's names where that is over, and else their total size. Refused
    /// with `Memory` where there is none, also in place of those. All stays as it was then, and where it isn't for memory the solver
    /// takes no step.
    pub fn restore<L: Ledger>(
        &mut self,
        txs: &[(TxId, i64, u64)],
        pairs: &[(TxId, TxId)],
        steps: &mut Steps<L>,
    ) -> Result<(), Refusal>
        requires { MayRestore self.old txs.now pairs.now }
        ensures restored { OnOk result (PutsTxs self.old.main.graph self.new.main.graph txs.now pairs.now
            × (self.new ≡ record self.old { main = self.new.main; issued = self.old.issued + length txs.now })) }
        ensures row { MatchResult result
            (λ _. self.old.limits.defer ≡ false → BringsNoneOver self.old.limits self.old.main.graph txs.now pairs.now)
            (λ why. why ≢ Memory → BringsOver self.old.limits self.old.main.graph txs.now pairs.now why) }
        ensures kept { KeepsPicks self.old self.new }
        ensures refused { IfErr result (λ why. (self.new ≡ self.old) × (why ≢ Memory → steps.new ≡ steps.old)) }
        ensures steps { RestoresWithin self.old.limits self.old.main.graph txs.now pairs.now steps.old steps.new }
    {
        restore(
            &mut self.shelves,
            &mut self.rings,
            txs,
            pairs,
            &mut self.work,
            steps,
        )?;
        self.issued += txs.len() as u64;
        self.tops += txs.len();
        self.mains = self.tops;
        Ok(())
    }

    /// Why names can't be mined, or `None` where they can: `Twice` with the first name that stands earlier in the list too, else `Unknown`
    /// with the first that main hasn't, else `Parent` with the first that has an ancestor in main that isn't listed. All stays as it was.
    /// Takes no memory. A list of up to 32,766 names costs some look-ups a name, and one for each of its ancestors.
    pub fn refused_mine(&mut self, ids: &[TxId]) -> Option<Refusal>
        requires { self.old.staging ≡ None }
        ensures row { MineRefusalIs self.old.main.graph ids.now result }
        ensures same { self.new ≡ self.old }
    {
        let _count = self.mains;
        refused_mine(&mut self.shelves, &mut self.rings, &mut self.repeats, ids)
    }

    /// Opens a staging that is as main is. Takes no memory.
    pub fn stage(&mut self)
        requires { self.old.staging ≡ None }
        ensures { self.new ≡ record self.old { staging = Some self.old.main } }
    {
        self.shelves.begin();
        self.tops = self.mains;
    }

    /// Makes main what staging is, and closes it. Takes no memory.
    pub fn commit(&mut self)
        requires { IsSome self.old.staging }
        ensures { self.new ≡ record self.old { main = level_at self.old Top; staging = None } }
    {
        settle_rings(&mut self.rings, &self.shelves, Level::Top);
        self.shelves.close(Level::Top);
        self.mains = self.tops;
    }

    /// Closes staging; main stays as it is. Takes no memory.
    pub fn abort(&mut self)
        requires { IsSome self.old.staging }
        ensures { self.new ≡ record self.old { staging = None } }
    {
        settle_rings(&mut self.rings, &self.shelves, Level::Main);
        self.shelves.close(Level::Main);
        self.tops = self.mains;
    }
}

impl<const W: usize> Levels<W> {
    /// The parts of a level in its order, from the first, each with the number of its cluster. Two parts have one number exactly
    /// where they are of one cluster. The level isn't over the limits. Takes no memory.
    pub fn parts(&self, level: Level) -> PartWalk<'_, Stored<W>>
        requires { IsWithin self.now level }
        ensures parts { map (λ s. s.part) result ≡ (level_at self.now level).parts }
        ensures numbers { HaveClusterNumbers (level_at self.now level).graph result }
        ensures best { IsBest (level_at self.now level) }
        ensures rates { (id : ℕ) → is_member (level_at self.now level).graph id ≡ true
            → IsRate (rate_of (level_at self.now level).graph id) }
        ensures level { AreLevelParts (sums_of (level_at self.now level).parts) }
    {
        let _count = self.mains;
        self.shelves.store().walk(level)
    }

    /// The same parts, each with its cluster. Sets of names have at most two words. Takes no memory.
    pub fn held(&self, level: Level) -> HeldWalk<'_, W>
        requires { IsWithin self.now level }
        ensures parts { map (λ h. h.part) result ≡ (level_at self.now level).parts }
        ensures clusters { (h : Held) → Contains result h → IsHeldIn (level_at self.now level) h }
        ensures narrow { W ≤ 2 }
    {
        let _count = self.mains;
        self.shelves.store().walk_held(level)
    }

    /// The components of a level that are over the limits, each once, as its transactions and dependencies. Takes no memory, and costs
    /// nothing where no component of either level is.
    pub fn overs(&self, level: Level) -> OverWalk<'_, Stored<W>>
        ensures { LendsOvers self.now.limits (level_at self.now level).graph result }
    {
        let _count = self.mains;
        self.shelves.store().walk_over(level)
    }

    /// How many components of a level these names lie in. Names that the level hasn't are passed over, and a name may be listed twice. Takes
    /// no memory, and puts the names into another order.
    pub fn count_clusters(&self, level: Level, ids: &mut [TxId]) -> usize
        ensures ids { IsPermutation ids.old ids.new }
        ensures count { (clusters : List Cluster) × LieIn (level_at self.now level).graph ids.old clusters × (result ≡ length clusters) }
    {
        let _count = self.mains;
        self.shelves.count_clusters(level, ids)
    }

    /// Leaves in `out` the ancestors, or the descendants, of these names, each once, in rising order; the names are among them. Names that the
    /// level hasn't are passed over, and a name may be listed twice. Where `out` may not have room, it stays as it was, and the error is how
    /// many names the components of these have. Takes no memory, and puts the names into another order.
    pub fn kin(
        &mut self,
        level: Level,
        ids: &mut [TxId],
        kin: Kin,
        out: &mut IdBuf,
    ) -> Result<(), usize>
        ensures ids { IsPermutation ids.old ids.new }
        ensures lists { IfOk result (λ _. Lists (IsKinOfSome kin (level_at self.old level).graph ids.old) out.new.ids) }
        ensures room { length out.new.ids + out.new.room ≡ length out.old.ids + out.old.room }
        ensures err { IfErr result (λ needs. (out.new ≡ out.old) × (length out.old.ids + out.old.room < needs)) }
        ensures needs { IfErr result (λ needs. (clusters : List Cluster) × LieIn (level_at self.old level).graph ids.old clusters
            × (needs ≡ length (flat_map (λ c. c.names) clusters))) }
        ensures same { self.new ≡ self.old }
    {
        let _count = self.mains;
        self.shelves.kin(level, ids, kin, out)
    }

    /// The names of a level, each once, one component after the other. Takes no memory. It costs the components of both levels, and the
    /// names of this one.
    pub fn names(&self, level: Level) -> NameWalk<'_, Stored<W>>
        ensures names { (id : ℕ) → Contains result id ↔ (is_member (level_at self.now level).graph id ≡ true) }
        ensures once { AreDistinct result }
    {
        let _count = self.mains;
        self.shelves.store().walk_names(level)
    }

    /// The components of a level, each once. One within the limits is lent with its order, and one over them without. Sets of names have at
    /// most two words. Takes no memory. It costs the components of both levels.
    pub fn components(&self, level: Level) -> RecordWalk<'_, W>
        ensures components { AreItsClusters (level_at self.now level).graph result }
        ensures narrow { W ≤ 2 }
    {
        let _count = self.mains;
        self.shelves.store().walk_records(level)
    }

    /// A size, in virtual bytes, that no name of main is below. Takes no memory.
    pub fn least(&self) -> u64
        ensures { (id : ℕ) → is_member self.now.main.graph id ≡ true → result ≤ (rate_of self.now.main.graph id).size }
    {
        let _count = self.mains;
        self.shelves.store().least()
    }

    /// The fees and sizes of the parts of a level in its order, in satoshis and virtual bytes. The level isn't over the limits. Takes
    /// no memory, and looks at no cluster.
    pub fn rates(&self, level: Level) -> RateWalk<'_>
        requires { IsWithin self.now level }
        ensures rates { result ≡ sums_of (level_at self.now level).parts }
        ensures yields { YieldsParts ⟦<RateWalk<'static> as Iterator>⟧.next_gives result (sums_of (level_at self.now level).parts) }
        ensures names { (id : ℕ) → is_member (level_at self.now level).graph id ≡ true
            → IsRate (rate_of (level_at self.now level).graph id) }
    {
        let _count = self.mains;
        self.shelves.store().rates(level)
    }

    /// The fees and sizes, in satoshis and virtual bytes, of the parts that main alone has, and of those that staging alone has, each in its
    /// level's order. All others are the same in both levels. Takes no memory, and looks at no cluster.
    pub fn alone(&self) -> (RateWalk<'_>, RateWalk<'_>)
        ensures { (mains tops : List Part) × AreApart self.now.main.parts (level_at self.now Top).parts mains tops
            × (result.0 ≡ sums_of mains) × (result.1 ≡ sums_of tops) }
    {
        let _count = self.mains;
        let store = self.shelves.store();
        (
            store.rates_only(Tag::MainOnly),
            store.rates_only(Tag::TopOnly),
        )
    }

    /// The part of main that has a name, or `None` where main hasn't the name. Main isn't over the limits. Takes no memory.
    pub fn chunk(&self, id: TxId) -> Option<PartRef<'_>>
        requires { IsWithin self.now Main }
        ensures { MatchOption result (is_member self.now.main.graph id ≡ false)
            (λ part. (is_member self.now.main.graph id ≡ true) × Contains self.now.main.parts (lent part)
            × Contains (lent part).ids id) }
    {
        let _count = self.mains;
        self.shelves.chunk(id)
    }

    /// Where one name of main stands to another in its order. Takes no memory.
    pub fn place(&self, a: TxId, b: TxId) -> Place
        requires within { IsWithin self.now Main }
        requires a { is_member self.now.main.graph a ≡ true }
        requires b { is_member self.now.main.graph b ≡ true }
        ensures { StandsTo (order_of self.now.main.parts) a b result }
    {
        let _count = self.mains;
        self.shelves.place(a, b)
    }

    /// The parents of a name of a level with nothing between, as they stand in its order. Takes no memory.
    pub fn covers(&self, level: Level, id: TxId) -> Covers<'_, W>
        requires within { IsWithin self.now level }
        requires live { is_member (level_at self.now level).graph id ≡ true }
        ensures { ListsCovers (level_at self.now level).graph (order_of (level_at self.now level).parts) id result }
    {
        let _count = self.mains;
        self.shelves.covers(level, id)
    }

    /// How staging stands to main, by their diagrams. It costs the parts that stand in one level alone, where the last part of each
    /// level that has one has a fee of at least 0; else also some of the worst that stand in both. Neither level is over the limits. Takes
    /// no memory.
    pub fn compare(&self) -> Verdict
        requires staged { IsSome self.now.staging }
        requires within { IsWithin self.now Main × IsWithin self.now Top }
        ensures verdict { ComparesParts self.now.main.parts (level_at self.now Top).parts result }
        ensures rates { (level : graph_level.Level) (id : ℕ) → is_member (level_at self.now level).graph id ≡ true
            → IsRate (rate_of (level_at self.now level).graph id) }
    {
        let _count = self.mains;
        comparison::compare(self.shelves.store())
    }
}

// How many names main has, by how many it had and how many the top level has: without a staging the two are one.
fn main_count(staged: bool, mains: usize, tops: usize) -> usize
    ensures { result ≡ cond staged mains tops }
{
    if staged { mains } else { tops }
}
