ghost use Rattle.std.specs.Prelude.{◌≡◌, ℕ, ◌+◌, ◌*◌, ◌<◌, ◌≤◌, ◌++◌, ◌↔◌, true, false, List, length, map, flat_map, slice_get, slice_index, sum_by, Some, All, Contains, IfOk, OnOk};
ghost use Rattle.fee_rate.specs.Limits.{IsFee, IsRate};
ghost use Rattle.fee_rate.specs.declared.limits.TheConstants.{MAX_SIZE, MAX_TOTAL};
ghost use Rattle.graphs.specs.Closures.{is_ancestor, rate_of, AddsPair, SetsFee, IsCover};
ghost use Rattle.graphs.specs.Graphs.{Lists};
ghost use Rattle.graphs.specs.Unions.{IsKinOfSome, PutsBehind};
ghost use Rattle.graphs.specs.Certificates.{Part};
ghost use Rattle.linearize.specs.Graphs.{sum_from, HasRates, IsComponent};
ghost use Rattle.cluster.specs.Clusters.{IsCluster, AreApart};
ghost use Rattle.cluster.specs.Named.{named, IsNamed};
ghost use Rattle.cluster.specs.Covers.{ListsInOrder};
ghost use Rattle.cluster.specs.Changes.{IsSingle, AreNamesOf, TakesNames, Joins, AreAcross, IsSplit, AreComponents};
ghost use Rattle.cluster.specs.Steps.{GrowsWithin, most_steps, most_steps_of};

use crate::ancestors::Ancestors;
use crate::covers::Covers;
use crate::guess::{guess_fee, guess_joined, guess_linked, moved_part};
use crate::kin::kin_places;
use crate::list::ClusterList;
use crate::making::{certified, copied, part};
use crate::members::{add_chosen, both_names, list_chosen, place_of, take_out};
use crate::order::{Order, between, copied_order, end_before, rate_in};
use crate::work::Work;
use bitset::Bits;
use dep_graph::DepGraph;
use fee_rate::FeeRate;
use graphs::{Flow, IdBuf, Kin, TxId};
use outside::NoMemory;
use smallvec::SmallVec;
use std::alloc::Global;
use std::marker::Model;
use step_count::{Ledger, Steps};

/// A part (chunk) of a cluster's order, lent.
///
/// The part has its total fee in satoshis and its total size in virtual bytes, its names in their order, and the flows that
/// show that no closed set within it has a greater feerate. Amounts are satoshis times virtual bytes. Flows are listed by child,
/// then by parent, in the order of the names.
#[derive(Clone, Copy)]
pub struct PartRef<'a> {
    pub rate: FeeRate,
    pub ids: &'a [TxId],
    pub flows: &'a [Flow],
}

/// A cluster: transactions that dependencies connect, and an optimal order of them.
///
/// Each transaction has a name, a fee in satoshis and a size in virtual bytes. The cluster keeps who is an ancestor of whom, and
/// not the dependencies that this came from. The order stands in parts of falling feerate, each with the flows that certify it,
/// and no part can be split into two of the same feerate.
///
/// A call that makes a cluster fails only where there is no memory.
#[derive(Drop)]
pub struct Cluster<const W: usize> {
    // the name of each place of the graph; the places are the numbers from 0 on
    pub(crate) names: SmallVec<TxId, 2>,
    pub(crate) dep: DepGraph<W>,
    pub(crate) order: Order,
}

// Clauses see the names in the order of their places, the graph of the names, and the parts.
impl<const W: usize> Model for Cluster<W> {
    ghost use Rattle.std.specs.Prelude.{◌*◌};
    ghost use Rattle.cluster.specs.Clusters.{Cluster, cluster_code};
    ghost use Rattle.cluster.specs.Named.{named};
    ghost use Rattle.cluster.specs.Kept.{cut, IsKept};

    ghost Value = { Cluster };

    ghost coded = { cluster_code };

    ghost view = { λ c. record {
      names = c.names.items;
      graph = named c.names.items c.dep;
      parts = cut c.order.parts.items c.order.names.items c.order.flows.items;
    } };

    ghost invariant = { λ c.
        IsKept (64 * W) c.names.items c.dep c.order.parts.items c.order.names.items c.order.flows.items };
}

impl<const W: usize> Cluster<W> {
    /// Makes the cluster of one name, with its fee in satoshis and its size in virtual bytes. The solver takes no step.
    pub fn single<L: Ledger>(
        alloc: Global,
        id: TxId,
        fee: i64,
        size: u64,
        work: &mut Work<W>,
        steps: &mut Steps<L>,
    ) -> Result<Self, NoMemory>
        requires { IsRate (record { fee = fee; size = size }) }
        ensures single { IfOk result (IsSingle id (record { fee = fee; size = size })) }
        ensures whole { IfOk result (IsCluster (64 * W)) }
        ensures steps { steps.new ≡ steps.old }
    {
        let _room = &work.room;
        work.guess.clear();
        let mut dep = DepGraph::new(alloc);
        let _place = dep.add(fee, size)?;
        let mut names = SmallVec::new(alloc);
        names.push(id)?;
        certified(alloc, names, dep, &work.guess, &mut work.room, steps)
    }

    /// Makes the cluster of a dependency graph of one component, by names for its members in the order of their places. The graph
    /// stays as it is; there may be gaps between its places. For n names the solver takes at most 2·(n+2)^5 steps.
    pub fn whole<L: Ledger>(
        alloc: Global,
        names: &[TxId],
        dep: &DepGraph<W>,
        work: &mut Work<W>,
        steps: &mut Steps<L>,
    ) -> Result<Self, NoMemory>
        requires names { AreNamesOf dep.now names.now }
        requires component { IsComponent dep.now }
        requires rates { HasRates dep.now }
        ensures graph { IfOk result (TakesNames (64 * W) dep.now names.now) }
        ensures whole { IfOk result (IsCluster (64 * W)) }
        ensures steps { GrowsWithin (most_steps (length names.now)) steps.old steps.new }
    {
        work.guess.clear();
        let dep = dep.part(alloc, dep.members())?;
        let names = SmallVec::from_slice(alloc, names)?;
        certified(alloc, names, dep, &work.guess, &mut work.room, steps)
    }

    /// Makes the cluster in which `child` depends on `parent`. Both are names of this cluster, which stays as it is. For n names
    /// the solver takes at most 2·(n+2)^5 steps.
    pub fn linked<L: Ledger>(
        &self,
        alloc: Global,
        parent: TxId,
        child: TxId,
        work: &mut Work<W>,
        steps: &mut Steps<L>,
    ) -> Result<Cluster<W>, NoMemory>
        requires parent { Contains self.now.names parent }
        requires child { Contains self.now.names child }
        requires no_cycle { is_ancestor self.now.graph child parent ≡ false }
        ensures names { IfOk result (λ c. c.names ≡ self.now.names) }
        ensures graph { IfOk result (λ c. AddsPair self.now.graph c.graph parent child) }
        ensures whole { IfOk result (IsCluster (64 * W)) }
        ensures steps { GrowsWithin (most_steps (length self.now.names)) steps.old steps.new }
    {
        let mut dep = copied(alloc, self.names.as_slice(), &self.dep)?;
        let _order = &self.order;
        let names = SmallVec::from_slice(alloc, self.names.as_slice())?;
        let above = place_of(names.as_slice(), parent);
        let below = place_of(names.as_slice(), child);
        guess_linked(
            self,
            names.as_slice(),
            &self.dep.ancestors(above),
            &self.dep.descendants(below),
            moved_part(self, parent, child),
            &mut work.guess,
        );
        dep.add_dep(above, below);
        certified(alloc, names, dep, &work.guess, &mut work.room, steps)
    }

    /// Makes one cluster of two, in which `child` depends on `parent`: one of them is a name of this cluster, the other one of
    /// `other`. The names of this cluster come first. Both clusters stay as they are. For n names together the solver takes at
    /// most 2·(n+2)^5 steps.
    pub fn joined<L: Ledger>(
        &self,
        alloc: Global,
        other: &Cluster<W>,
        parent: TxId,
        child: TxId,
        work: &mut Work<W>,
        steps: &mut Steps<L>,
    ) -> Result<Cluster<W>, NoMemory>
        requires few { length self.now.names + length other.now.names ≤ 64 * W }
        requires apart { AreApart self.now other.now }
        requires across { AreAcross self.now.names other.now.names parent child }
        ensures names { IfOk result (λ c. c.names ≡ self.now.names ++ other.now.names) }
        ensures graph { IfOk result (λ c. Joins self.now.graph other.now.graph parent child c.graph) }
        ensures whole { IfOk result (IsCluster (64 * W)) }
        ensures steps { GrowsWithin (most_steps (length self.now.names + length other.now.names)) steps.old
            steps.new }
    {
        let _order = &self.order;
        let _order = &other.order;
        let names = both_names(alloc, self.names.as_slice(), other.names.as_slice())?;
        let mut dep = self.dep.merge(alloc, &other.dep)?;
        let above = place_of(names.as_slice(), parent);
        let below = place_of(names.as_slice(), child);
        guess_joined(
            self,
            other,
            parent,
            child,
            names.as_slice(),
            &mut work.guess,
        );
        dep.add_dep(above, below);
        certified(alloc, names, dep, &work.guess, &mut work.room, steps)
    }

    /// Makes the clusters that are left without some names: one for each component of the other names, which keep the ancestors
    /// that they had among them. This cluster stays as it is. The solver takes at most the sum of 2·(n+2)^5 steps over the
    /// components of n names.
    pub fn without<L: Ledger>(
        &self,
        alloc: Global,
        names: &[TxId],
        work: &mut Work<W>,
        steps: &mut Steps<L>,
    ) -> Result<ClusterList<W>, NoMemory>
        requires { (id : ℕ) → Contains names.now id → Contains self.now.names id }
        ensures split { IfOk result (λ left. IsSplit self.now.graph names.now left) }
        ensures whole { IfOk result (λ left. All (IsCluster (64 * W)) left) }
        ensures components { IfOk result (λ left. AreComponents self.now.graph names.now (map (λ c. c.names) left)) }
        ensures grew { steps.old ≤ steps.new }
        ensures steps { (lists : List (List ℕ)) → AreComponents self.now.graph names.now lists
            → steps.new ≤ steps.old + most_steps_of lists }
    {
        let _order = &self.order;
        let mut rest = Bits::first_n(self.names.len());
        take_out(self.names.as_slice(), names, &mut rest);
        let mut clusters = Vec::new(alloc);
        while let Some(first) = rest.least() {
            let chosen = self.dep.component(first, rest);
            let made = part(
                alloc,
                self.names.as_slice(),
                &self.dep,
                self,
                chosen,
                work,
                steps,
            )?;
            clusters.push(made)?;
            rest = rest.minus(&chosen);
        }
        Ok(ClusterList { clusters })
    }

    /// Makes the cluster in which a name of this one has this fee, in satoshis. This cluster stays as it is. For n names the solver
    /// takes at most 2·(n+2)^5 steps.
    pub fn with_fee<L: Ledger>(
        &self,
        alloc: Global,
        id: TxId,
        fee: i64,
        work: &mut Work<W>,
        steps: &mut Steps<L>,
    ) -> Result<Cluster<W>, NoMemory>
        requires id { Contains self.now.names id }
        requires fee { IsFee fee }
        ensures names { IfOk result (λ c. c.names ≡ self.now.names) }
        ensures graph { IfOk result (λ c. SetsFee self.now.graph c.graph id fee) }
        ensures whole { IfOk result (IsCluster (64 * W)) }
        ensures steps { GrowsWithin (most_steps (length self.now.names)) steps.old steps.new }
    {
        let mut dep = copied(alloc, self.names.as_slice(), &self.dep)?;
        let _order = &self.order;
        let names = SmallVec::from_slice(alloc, self.names.as_slice())?;
        guess_fee(self, names.as_slice(), id, &mut work.guess);
        dep.set_fee(place_of(names.as_slice(), id), fee);
        certified(alloc, names, dep, &work.guess, &mut work.room, steps)
    }

    /// Makes the same cluster with sets of V words, which have room for its names. This cluster stays as it is.
    pub fn resized<const V: usize>(&self, alloc: Global) -> Result<Cluster<V>, NoMemory>
        requires { length self.now.names ≤ 64 * V }
        ensures same { IfOk result (λ c. c ≡ self.now) }
        ensures whole { IfOk result (IsCluster (64 * V)) }
    {
        let names = SmallVec::from_slice(alloc, self.names.as_slice())?;
        let dep = self.dep.resized(alloc)?;
        let order = copied_order(alloc, &self.order)?;
        Ok(Cluster { names, dep, order })
    }

    /// Whether `a` is an ancestor of `b`. Both are names of this cluster, and each is an ancestor of itself.
    pub fn reaches(&self, a: TxId, b: TxId) -> bool
        requires a_in { Contains self.now.names a }
        requires b_in { Contains self.now.names b }
        ensures { result ≡ is_ancestor self.now.graph a b }
    {
        let _order = &self.order;
        let above = place_of(self.names.as_slice(), a);
        let below = place_of(self.names.as_slice(), b);
        self.dep.would_cycle(below, above)
    }

    /// The names, each at its place.
    pub fn names(&self) -> &[TxId]
        ensures names { result.now ≡ self.now.names }
        ensures whole { IsCluster (64 * W) self.now }
    {
        let _dep = &self.dep;
        let _order = &self.order;
        self.names.as_slice()
    }

    /// The dependency graph, by the places of the names.
    pub fn dep(&self) -> &DepGraph<W>
        ensures graph { self.now.graph ≡ named self.now.names result.now }
        ensures places { IsNamed (64 * W) self.now.names result.now }
    {
        let _names = &self.names;
        let _order = &self.order;
        &self.dep
    }

    /// The names in the order of the parts.
    pub fn order(&self) -> &[TxId]
        ensures { result.now ≡ flat_map (λ part. part.ids) self.now.parts }
    {
        let _names = &self.names;
        let _dep = &self.dep;
        self.order.names.as_slice()
    }

    /// How many parts there are.
    pub fn part_count(&self) -> usize
        ensures { result ≡ length self.now.parts }
    {
        let _names = &self.names;
        let _dep = &self.dep;
        self.order.parts.len()
    }

    /// The part at a position.
    pub fn part(&self, at: usize) -> PartRef<'_>
        requires { at < length self.now.parts }
        ensures { slice_get self.now.parts at ≡ Some (record {
          rate = sum_from result.rate;
          ids = result.ids.now;
          flows = result.flows.now;
        }) }
    {
        let _names = &self.names;
        let _dep = &self.dep;
        let parts = self.order.parts.as_slice();
        let part = parts[at];
        let before = end_before(parts, at);
        PartRef {
            rate: rate_in(part),
            ids: between(self.order.names.as_slice(), before.end, part.end),
            flows: between(self.order.flows.as_slice(), before.flow_end, part.flow_end),
        }
    }

    /// The fee in satoshis and the size in virtual bytes of the part at a position.
    pub fn part_rate(&self, at: usize) -> FeeRate
        requires { at < length self.now.parts }
        ensures { (part : Part) → slice_get self.now.parts at ≡ Some part → sum_from result ≡ part.rate }
    {
        let _names = &self.names;
        let _dep = &self.dep;
        let parts = self.order.parts.as_slice();
        rate_in(parts[at])
    }

    /// The position of the part that has a name of the cluster.
    pub fn part_of(&self, id: TxId) -> usize
        requires { Contains self.now.names id }
        ensures { (part : Part) × (slice_get self.now.parts result ≡ Some part) × Contains part.ids id }
    {
        let _names = &self.names;
        for at in 0..self.part_count() {
            if self.part(at).ids.contains(&id) {
                return at;
            }
        }
        unreachable!()
    }

    /// The parents of a name with no third name between, in the cluster's order. Takes no memory.
    pub fn covers(&self, id: TxId) -> Covers<'_, W>
        requires { Contains self.now.names id }
        ensures { ListsInOrder (λ a. IsCover self.now.graph a id) (flat_map (λ part. part.ids) self.now.parts) result }
    {
        let names = self.names.as_slice();
        Covers::new(
            names,
            self.order.names.as_slice(),
            self.dep.covers(place_of(names, id)),
        )
    }

    /// The ancestors of a name, itself among them. Looks for the name once, and takes no memory.
    pub fn ancestors(&self, id: TxId) -> Ancestors<'_, W>
        requires { Contains self.now.names id }
        ensures { (a : ℕ) → Contains result a ↔ (is_ancestor self.now.graph a id ≡ true) }
    {
        let _order = &self.order;
        let names = self.names.as_slice();
        Ancestors::new(names, self.dep.ancestors(place_of(names, id)))
    }

    /// The fee of a name, in satoshis, and its size, in virtual bytes.
    pub fn rate(&self, id: TxId) -> FeeRate
        requires { Contains self.now.names id }
        ensures { result ≡ rate_of self.now.graph id }
    {
        let _order = &self.order;
        self.dep.rate(place_of(self.names.as_slice(), id))
    }

    /// The fee and the size of the name at a position of `names`, without a search for the name.
    pub fn rate_at(&self, at: usize) -> FeeRate
        requires { at < length self.now.names }
        ensures { result ≡ rate_of self.now.graph (slice_index self.now.names at) }
    {
        let _names = &self.names;
        let _order = &self.order;
        self.dep.rate(at)
    }

    /// The total size of the names, in virtual bytes.
    pub fn size(&self) -> u64
        requires { length self.now.names ≤ MAX_TOTAL }
        ensures sum { result ≡ sum_by (λ id. (rate_of self.now.graph id).size) self.now.names }
        ensures small { result ≤ MAX_SIZE * length self.now.names }
    {
        let _order = &self.order;
        let mut total = 0;
        for place in 0..self.names.len() {
            total += self.dep.rate(place).size;
        }
        total
    }

    /// Leaves the names in `out`, in rising order. Takes no memory.
    pub fn list_names(&self, out: &mut IdBuf)
        requires { 64 * W ≤ length out.old.ids + out.old.room }
        ensures lists { Lists (λ id. Contains self.now.names id) out.new.ids }
        ensures room { length out.new.ids + out.new.room ≡ length out.old.ids + out.old.room }
    {
        let _dep = &self.dep;
        let _order = &self.order;
        let all = Bits::<W>::first_n(self.names.len());
        list_chosen(self.names.as_slice(), &all, out);
    }

    /// Leaves the ancestors of a name in `out`, itself among them, in rising order. Takes no memory.
    pub fn list_ancestors(&self, id: TxId, out: &mut IdBuf)
        requires id { Contains self.now.names id }
        requires room { 64 * W ≤ length out.old.ids + out.old.room }
        ensures lists { Lists (λ other. is_ancestor self.now.graph other id ≡ true) out.new.ids }
        ensures room { length out.new.ids + out.new.room ≡ length out.old.ids + out.old.room }
    {
        let _order = &self.order;
        let place = place_of(self.names.as_slice(), id);
        list_chosen(self.names.as_slice(), &self.dep.ancestors(place), out);
    }

    /// Leaves the descendants of a name in `out`, itself among them, in rising order. Takes no memory.
    pub fn list_descendants(&self, id: TxId, out: &mut IdBuf)
        requires id { Contains self.now.names id }
        requires room { 64 * W ≤ length out.old.ids + out.old.room }
        ensures lists { Lists (λ other. is_ancestor self.now.graph id other ≡ true) out.new.ids }
        ensures room { length out.new.ids + out.new.room ≡ length out.old.ids + out.old.room }
    {
        let _order = &self.order;
        let place = place_of(self.names.as_slice(), id);
        list_chosen(self.names.as_slice(), &self.dep.descendants(place), out);
    }

    /// Puts behind `out` the ancestors, or the descendants, of names of this cluster, each once; the names themselves are among
    /// them. Takes no memory.
    pub fn add_kin(&self, ids: &[TxId], kin: Kin, out: &mut IdBuf)
        requires ids { (id : ℕ) → Contains ids.now id → Contains self.now.names id }
        requires room { length self.now.names ≤ out.old.room }
        ensures adds { PutsBehind (IsKinOfSome kin self.now.graph ids.now) out.old.ids out.new.ids }
        ensures room { length out.new.ids + out.new.room ≡ length out.old.ids + out.old.room }
    {
        let _order = &self.order;
        let names = self.names.as_slice();
        add_chosen(names, &kin_places(&self.dep, names, ids, kin), out);
    }
}
