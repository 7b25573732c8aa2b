ghost use Rattle.std.specs.Prelude.{◌≡◌, ◌≢◌, ◌⊎◌, ℕ, ◌+◌, ◌*◌, ◌≤◌, true, false, None, Some, List, [], ◌∷◌, length, map, option_to_list, is_some, Contains, IsSome, IfOk, OnOk, OnErr, MatchResult};
ghost use Rattle.std.specs.FinMap as finmap;
ghost use Rattle.fee_rate.specs.Limits.{IsFee};
ghost use Rattle.graphs.specs.declared.names.Level as levels;
ghost use Rattle.graphs.specs.declared.names.Level.TheVariants.{Main, Top};
ghost use Rattle.graphs.specs.Closures.{rate_of, AreLinked};
ghost use Rattle.graphs.specs.Graphs.{Lists};
ghost use Rattle.cluster.specs.Clusters as records;
ghost use Rattle.cluster.specs.Steps.{GrowsWithin};
ghost use Rattle.record.specs.Steps.{most_steps_again, most_steps_fit};
ghost use Rattle.levels.specs.Joins.{DepRefusalIs};
ghost use Rattle.levels.specs.Levels.{steps_where};
ghost use Rattle.levels.specs.Links.{IsLink, IsWithin};
ghost use Rattle.levels.specs.Moves.{AreNumbersOf, ArePriced, GrowsForBoth, IsPriced, PairsIn, SetsFees};
ghost use Rattle.levels.specs.Shelves.{HaveFew, IsInOrder, numbers_at, seen_at, stored_at, view_of};
ghost use Rattle.levels.specs.Views.{graph_of};

use crate::left::News;
use crate::relation::{Link, refused_sum};
use crate::shelves::Shelves;
use chunk_index::Tag;
use cluster_store::Exchange;
use component::Work;
use graph_model::{Level, Refusal, TxId};
use outside::NoMemory;
use step_count::{Ledger, Steps};

impl<const W: usize> Shelves<W> {
    /// Why a name of the top level can't become a parent of another, other than for want of memory; or how the two stand.
    pub fn refused_dep(&mut self, parent: TxId, child: TxId) -> Result<Link, Refusal>
        requires order { IsInOrder W self.old }
        requires few { HaveFew self.old }
        ensures row { MatchResult result (λ _. DepRefusalIs self.old.limits (graph_of (view_of Top self.old)) parent child None)
            (λ why. DepRefusalIs self.old.limits (graph_of (view_of Top self.old)) parent child (Some why)) }
        ensures link { IfOk result (IsLink self.old parent child) }
        ensures same { self.new ≡ self.old }
    {
        let Some(above) = self.number(Level::Top, parent) else {
            return Err(Refusal::Unknown(parent));
        };
        let Some(below) = self.number(Level::Top, child) else {
            return Err(Refusal::Unknown(child));
        };
        if above == below {
            return self.way_within(above, parent, child);
        }
        match refused_sum(&self.limits, self.at(above), self.at(below)) {
            Some(why) => Err(why),
            None => Ok(self.between(above, below)),
        }
    }

    // How two names of the cluster of a number stand.
    fn way_within(&mut self, number: usize, parent: TxId, child: TxId) -> Result<Link, Refusal>
        requires { (c : records.Cluster) × (stored_at self.old.store.clusters number ≡ Some c) × Contains c.names parent × Contains c.names child }
        ensures way { (c : records.Cluster) → stored_at self.old.store.clusters number ≡ Some c → IsWithin c number parent child result }
        ensures same { self.new ≡ self.old }
    {
        if self.reaches(number, child, parent) {
            return Err(Refusal::Cycle);
        }
        if self.reaches(number, parent, child) {
            return Ok(Link::There);
        }
        Ok(Link::Within(number))
    }

    // How two names of the top level stand whose clusters have these numbers.
    fn between(&self, above: usize, below: usize) -> Link
        requires order { IsInOrder W self.now }
        requires above { IsSome (stored_at self.now.store.clusters above) }
        requires below { IsSome (stored_at self.now.store.clusters below) }
        ensures { (result ≡ Link.Between above below) ⊎ (result ≡ Link.Between below above) }
    {
        if self.gives_first(above, below) {
            Link::Between(above, below)
        } else {
            Link::Between(below, above)
        }
    }

    // Whether of two clusters of the top level the first had better give its number: one that may be changed under it, and of two such
    // the one with more names.
    fn gives_first(&self, above: usize, below: usize) -> bool
        requires order { IsInOrder W self.now }
        requires above { IsSome (stored_at self.now.store.clusters above) }
        requires below { IsSome (stored_at self.now.store.clusters below) }
    {
        let above_own = self.is_own(above);
        if above_own != self.is_own(below) {
            return above_own;
        }
        self.at(above).names().len() >= self.at(below).names().len()
    }

    // Whether a cluster of the top level may be changed under its number: where there is a staging, one that main has too stays.
    fn is_own(&self, number: usize) -> bool
        requires { IsSome (stored_at self.now.store.clusters number) }
    {
        !self.is_staged() || self.tag(number) != Tag::Both
    }

    /// What comes in where a name of the top level becomes a parent of another of its cluster.
    pub(crate) fn link<L: Ledger>(
        &self,
        number: usize,
        parent: TxId,
        child: TxId,
        work: &mut Work<W>,
        steps: &mut Steps<L>,
    ) -> Result<News<W>, NoMemory>
        requires order { IsInOrder W self.now }
        requires link { IsLink self.now parent child (Link.Within number) }
        ensures linked { IfOk result (λ news. PairsIn W (number ∷ []) parent child news.rest.items news.last news.kept self.now) }
        ensures steps { (ids : List ℕ)
            → Lists (λ q. AreLinked (graph_of (view_of Top self.now)) q parent ⊎ AreLinked (graph_of (view_of Top self.now)) q child) ids
            → GrowsWithin (most_steps_fit self.now.limits (graph_of (view_of Top self.now)) ids) steps.old steps.new }
    {
        let cluster = self.at(number);
        let changed = cluster.linked(self.alloc, parent, child, work, steps)?;
        let kept = changed.names().len();
        let rest = Vec::new(self.alloc);
        Ok(News {
            rest,
            last: Some(changed),
            kept,
        })
    }

    /// What comes in where a name of the top level becomes a parent of another of another cluster: one cluster of both.
    pub(crate) fn join<L: Ledger>(
        &self,
        first: usize,
        second: usize,
        parent: TxId,
        child: TxId,
        work: &mut Work<W>,
        steps: &mut Steps<L>,
    ) -> Result<News<W>, NoMemory>
        requires order { IsInOrder W self.now }
        requires few { HaveFew self.now }
        requires link { IsLink self.now parent child (Link.Between first second) }
        ensures joined { IfOk result (λ news. PairsIn W (first ∷ second ∷ []) parent child news.rest.items news.last news.kept self.now) }
        ensures steps { (ids : List ℕ)
            → Lists (λ q. AreLinked (graph_of (view_of Top self.now)) q parent ⊎ AreLinked (graph_of (view_of Top self.now)) q child) ids
            → GrowsWithin (most_steps_fit self.now.limits (graph_of (view_of Top self.now)) ids) steps.old steps.new }
    {
        let one = self.at(first);
        let kept = one.names().len();
        let other = self.at(second);
        let joined = one.joined(self.alloc, other, parent, child, &self.limits, work, steps)?;
        let rest = Vec::new(self.alloc);
        Ok(News {
            rest,
            last: Some(joined),
            kept,
        })
    }

    /// Gives a name another fee, in satoshis, in each level that has it. A fee that is the same changes nothing. Without memory all
    /// stays as it was. A cluster that serves both levels is solved once.
    pub fn set_fee<L: Ledger>(
        &mut self,
        id: TxId,
        fee: i64,
        work: &mut Work<W>,
        steps: &mut Steps<L>,
    ) -> Result<(), NoMemory>
        requires order { IsInOrder W self.old }
        requires live { IsSome (finmap.get (numbers_at Main self.old) id) ⊎ IsSome (finmap.get (numbers_at Top self.old) id) }
        requires fee { IsFee fee }
        requires one { (n m : ℕ) (c d : records.Cluster) → finmap.get (numbers_at Main self.old) id ≡ Some n
            → finmap.get (numbers_at Top self.old) id ≡ Some m → seen_at Main self.old.store.clusters n ≡ Some c
            → seen_at Top self.old.store.clusters m ≡ Some d → rate_of c.graph id ≡ rate_of d.graph id }
        ensures fees { OnOk result (SetsFees W id fee self.old self.new) }
        ensures order { IsInOrder W self.new }
        ensures still { ((level : levels.Level) (n : ℕ) (c : records.Cluster) → finmap.get (numbers_at level self.old) id ≡ Some n
            → seen_at level self.old.store.clusters n ≡ Some c → (rate_of c.graph id).fee ≡ fee)
            → (self.new ≡ self.old) × (steps.new ≡ steps.old) }
        ensures err { OnErr result (self.new ≡ self.old) }
        ensures grew { steps.old ≤ steps.new }
        ensures shared { finmap.get (numbers_at Main self.old) id ≡ finmap.get (numbers_at Top self.old) id → (ids : List ℕ)
            → Lists (AreLinked (graph_of (view_of Main self.old)) id) ids
            → GrowsWithin (most_steps_fit self.old.limits (graph_of (view_of Main self.old)) ids) steps.old steps.new }
        ensures steps { (mains tops : List ℕ) → Lists (AreLinked (graph_of (view_of Main self.old)) id) mains
            → Lists (AreLinked (graph_of (view_of Top self.old)) id) tops
            → steps.new ≤ steps.old
            + steps_where (is_some (finmap.get (numbers_at Main self.old) id)) self.old.limits (graph_of (view_of Main self.old)) mains
            + steps_where (is_some (finmap.get (numbers_at Top self.old) id)) self.old.limits (graph_of (view_of Top self.old)) tops }
    {
        let (first, second) = self.numbers_of(id);
        if self.at(first).rate(id).fee == fee {
            return Ok(());
        }
        let exchanged = self.repriced(first, second, id, fee, work, steps)?;
        self.exchange(exchanged)
    }

    // The number of the cluster that every level has of a name that has it, or main's and the top level's.
    fn numbers_of(&self, id: TxId) -> (usize, Option<usize>)
        requires { IsSome (finmap.get (numbers_at Main self.now) id) ⊎ IsSome (finmap.get (numbers_at Top self.now) id) }
        ensures { AreNumbersOf id result.0 result.1 self.now }
    {
        match (self.number(Level::Main, id), self.number(Level::Top, id)) {
            (Some(main), Some(top)) => (main, if main == top { None } else { Some(top) }),
            (Some(main), None) => (main, None),
            (None, Some(top)) => (top, None),
            (None, None) => unreachable!(),
        }
    }

    // The clusters of a number, or of two, with another fee of one of their names.
    fn repriced<L: Ledger>(
        &self,
        first: usize,
        second: Option<usize>,
        id: TxId,
        fee: i64,
        work: &mut Work<W>,
        steps: &mut Steps<L>,
    ) -> Result<Vec<Exchange<W>>, NoMemory>
        requires order { IsInOrder W self.now }
        requires fee { IsFee fee }
        requires numbers { AreNumbersOf id first second self.now }
        ensures priced { IfOk result (λ list. ArePriced W id fee list.items self.now
            × (map (λ x. x.number) list.items ≡ first ∷ option_to_list second)) }
        ensures steps { GrowsForBoth first second self.now steps.old steps.new }
    {
        let mut list = Vec::with_capacity(self.alloc, 2)?;
        list.push_reserved(self.with_fee(first, id, fee, work, steps)?);
        match second {
            None => {}
            Some(number) => list.push_reserved(self.with_fee(number, id, fee, work, steps)?),
        }
        Ok(list)
    }

    // The cluster of a number with another fee of one of its names.
    fn with_fee<L: Ledger>(
        &self,
        number: usize,
        id: TxId,
        fee: i64,
        work: &mut Work<W>,
        steps: &mut Steps<L>,
    ) -> Result<Exchange<W>, NoMemory>
        requires order { IsInOrder W self.now }
        requires fee { IsFee fee }
        requires there { (c : records.Cluster) × (stored_at self.now.store.clusters number ≡ Some c) × Contains c.names id }
        ensures number { IfOk result (λ x. x.number ≡ number) }
        ensures priced { IfOk result (λ x. IsPriced W id fee x self.now) }
        ensures steps { (c : records.Cluster) → stored_at self.now.store.clusters number ≡ Some c
            → GrowsWithin (most_steps_again c) steps.old steps.new }
    {
        let changed = self.at(number).with_fee(self.alloc, id, fee, work, steps)?;
        Ok(Exchange::new(number, changed))
    }
}
