ghost use Rattle.std.specs.Prelude.{◌≡◌, ℕ, ◌+◌, ◌*◌, ◌<◌, ◌≤◌, ◌++◌, ◌↔◌, true, false, List, length, map, flat_map, slice_get, slice_index, sum_by, Some, All, Contains, IfOk, OnOk};
ghost use Rattle.fee_rate.specs.Limits.{IsFee, IsRate};
ghost use Rattle.fee_rate.specs.declared.limits.TheConstants.{MAX_SIZE, MAX_TOTAL};
ghost use Rattle.bitset.specs.Places.{IsWithin};
ghost use Rattle.graphs.specs.Closures.{is_ancestor, members_of, rate_of, AddsPair, SetsFee, IsCover};
ghost use Rattle.graphs.specs.Graphs.{Lists};
ghost use Rattle.graphs.specs.Unions.{IsKinOfSome, PutsBehind};
ghost use Rattle.graphs.specs.Certificates.{Part};
ghost use Rattle.linearize.specs.Graphs.{sum_from, HasRates, IsComponent};
ghost use Rattle.cluster.specs.Clusters.{IsCluster, AreApart};
ghost use Rattle.cluster.specs.Covers.{ListsInOrder};
ghost use Rattle.cluster.specs.Changes.{AreNamesOf, IsSingle, Joins, TakesNames, AreAcross, IsSplit, AreComponents};
ghost use Rattle.cluster.specs.Steps.{GrowsWithin, most_steps, most_steps_of};

use crate::ancestors::Ancestors;
use crate::covers::Covers;
use crate::joining::{first_widened, narrow_joined, second_widened, wide_joined};
use crate::list::Components;
use crate::pieces::{fitted_all, narrow_all};
use crate::width::{Boxed, NARROW, Width};
use crate::work::Work;
use cluster::{Cluster, PartRef};
use dep_graph::DepGraph;
use fee_rate::FeeRate;
use graphs::{IdBuf, Kin, TxId};
use outside::NoMemory;
use std::alloc::Global;
use std::marker::Model;
use step_count::{Ledger, Steps};

/// A cluster: transactions that dependencies connect, and an optimal order of them.
///
/// Each transaction has a name, a fee in satoshis and a size in virtual bytes. The component keeps who is an ancestor of whom,
/// and not the dependencies that this came from. The order stands in parts of falling feerate, each with the flows that certify
/// it, and no part can be split into two of the same feerate.
///
/// At most 64 names are kept and solved with sets of one word, and more with sets of W words. Contracts don't see which.
///
/// A call that makes a component fails only where there is no memory.
#[derive(Drop)]
pub struct Component<const W: usize> {
    kept: Width<W>,
}

// Clauses see the names in the order of their places, the graph of the names, and the parts. A component is wide exactly where
// it has more than 64 names.
impl<const W: usize> Model for Component<W> {
    ghost use Rattle.std.specs.Prelude.{◌≤◌};
    ghost use Rattle.cluster.specs.Clusters.{Cluster, cluster_code};

    ghost Value = { Cluster };

    ghost coded = { cluster_code };

    ghost use Rattle.component.specs.Widths.{cluster_at, HasItsWidth};

    ghost view = { λ c. cluster_at c.kept };

    ghost invariant = { λ c. (1 ≤ W) × (W ≤ 64) × HasItsWidth c.kept };
}

impl<const W: usize> Component<W> {
    /// Makes the cluster of one name, with its fee in satoshis and its size in virtual bytes. The solver takes no step.
    pub fn single<L: Ledger>(
        alloc: Global,
        id: TxId,
        fee: i64,
        size: u64,
        work: &mut Work<W>,
        steps: &mut Steps<L>,
    ) -> Result<Self, NoMemory>
        requires { IsRate (record { fee = fee; size = size }) }
        ensures single { IfOk result (IsSingle id (record { fee = fee; size = size })) }
        ensures whole { IfOk result (IsCluster (64 * W)) }
        ensures steps { steps.new ≡ steps.old }
    {
        let cluster = Cluster::single(alloc, id, fee, size, &mut *work.narrow, steps)?;
        Ok(Component::narrow(cluster))
    }

    /// Makes the cluster of a dependency graph of one component, by names for its members in the order of their places, which are the
    /// least ones. The graph stays as it is. For n names the solver takes at most 2·(n+2)^5 steps.
    pub fn whole<L: Ledger>(
        alloc: Global,
        names: &[TxId],
        dep: &DepGraph<W>,
        work: &mut Work<W>,
        steps: &mut Steps<L>,
    ) -> Result<Self, NoMemory>
        requires names { AreNamesOf dep.now names.now }
        requires packed { IsWithin (length names.now) (members_of dep.now) }
        requires component { IsComponent dep.now }
        requires rates { HasRates dep.now }
        ensures graph { IfOk result (TakesNames (64 * W) dep.now names.now) }
        ensures whole { IfOk result (IsCluster (64 * W)) }
        ensures steps { GrowsWithin (most_steps (length names.now)) steps.old steps.new }
    {
        if names.len() <= NARROW {
            let narrow = dep.resized::<1>(alloc)?;
            let cluster = Cluster::whole(alloc, names, &narrow, &mut *work.narrow, steps)?;
            return Ok(Component::narrow(cluster));
        }
        let cluster = Cluster::whole(alloc, names, dep, &mut *work.wide, steps)?;
        Component::wide(alloc, cluster)
    }

    /// Makes the cluster in which `child` depends on `parent`. Both are names of this cluster, which stays as it is. For n names
    /// the solver takes at most 2·(n+2)^5 steps.
    pub fn linked<L: Ledger>(
        &self,
        alloc: Global,
        parent: TxId,
        child: TxId,
        work: &mut Work<W>,
        steps: &mut Steps<L>,
    ) -> Result<Component<W>, NoMemory>
        requires parent { Contains self.now.names parent }
        requires child { Contains self.now.names child }
        requires no_cycle { is_ancestor self.now.graph child parent ≡ false }
        ensures names { IfOk result (λ c. c.names ≡ self.now.names) }
        ensures graph { IfOk result (λ c. AddsPair self.now.graph c.graph parent child) }
        ensures whole { IfOk result (IsCluster (64 * W)) }
        ensures steps { GrowsWithin (most_steps (length self.now.names)) steps.old steps.new }
    {
        match &self.kept {
            Width::Narrow(cluster) => {
                let linked = cluster.linked(alloc, parent, child, &mut *work.narrow, steps)?;
                Ok(Component::narrow(linked))
            }
            Width::Wide(wide) => {
                let linked = wide
                    .cluster
                    .linked(alloc, parent, child, &mut *work.wide, steps)?;
                Component::wide(alloc, linked)
            }
        }
    }

    /// Makes one cluster of two, in which `child` depends on `parent`: one of them is a name of this cluster, the other one of
    /// `other`. The names of this cluster come first. Both clusters stay as they are. For n names together the solver takes at
    /// most 2·(n+2)^5 steps.
    pub fn joined<L: Ledger>(
        &self,
        alloc: Global,
        other: &Component<W>,
        parent: TxId,
        child: TxId,
        work: &mut Work<W>,
        steps: &mut Steps<L>,
    ) -> Result<Component<W>, NoMemory>
        requires few { length self.now.names + length other.now.names ≤ 64 * W }
        requires apart { AreApart self.now other.now }
        requires across { AreAcross self.now.names other.now.names parent child }
        ensures names { IfOk result (λ c. c.names ≡ self.now.names ++ other.now.names) }
        ensures graph { IfOk result (λ c. Joins self.now.graph other.now.graph parent child c.graph) }
        ensures whole { IfOk result (IsCluster (64 * W)) }
        ensures steps { GrowsWithin (most_steps (length self.now.names + length other.now.names)) steps.old
            steps.new }
    {
        match (&self.kept, &other.kept) {
            (Width::Narrow(first), Width::Narrow(second)) => {
                narrow_joined(alloc, first, second, parent, child, work, steps)
            }
            (Width::Narrow(first), Width::Wide(second)) => {
                first_widened(alloc, first, &second.cluster, parent, child, work, steps)
            }
            (Width::Wide(first), Width::Narrow(second)) => {
                second_widened(alloc, &first.cluster, second, parent, child, work, steps)
            }
            (Width::Wide(first), Width::Wide(second)) => {
                wide_joined(
                    alloc,
                    &first.cluster,
                    &second.cluster,
                    parent,
                    child,
                    work,
                    steps,
                )
            }
        }
    }

    /// Makes the clusters that are left without some names: one for each component of the other names, which keep the ancestors
    /// that they had among them. This cluster stays as it is. The solver takes at most the sum of 2·(n+2)^5 steps over the
    /// components of n names.
    pub fn without<L: Ledger>(
        &self,
        alloc: Global,
        names: &[TxId],
        work: &mut Work<W>,
        steps: &mut Steps<L>,
    ) -> Result<Components<W>, NoMemory>
        requires { (id : ℕ) → Contains names.now id → Contains self.now.names id }
        ensures split { IfOk result (λ left. IsSplit self.now.graph names.now left) }
        ensures whole { IfOk result (λ left. All (IsCluster (64 * W)) left) }
        ensures components { IfOk result (λ left. AreComponents self.now.graph names.now (map (λ c. c.names) left)) }
        ensures grew { steps.old ≤ steps.new }
        ensures steps { (lists : List (List ℕ)) → AreComponents self.now.graph names.now lists
            → steps.new ≤ steps.old + most_steps_of lists }
    {
        match &self.kept {
            Width::Narrow(cluster) => {
                let left = cluster.without(alloc, names, &mut *work.narrow, steps)?;
                narrow_all(alloc, left.into_vec())
            }
            Width::Wide(wide) => {
                let left = wide.cluster.without(alloc, names, &mut *work.wide, steps)?;
                fitted_all(alloc, left.into_vec())
            }
        }
    }

    /// Makes the cluster in which a name of this one has this fee, in satoshis. This cluster stays as it is. For n names the solver
    /// takes at most 2·(n+2)^5 steps.
    pub fn with_fee<L: Ledger>(
        &self,
        alloc: Global,
        id: TxId,
        fee: i64,
        work: &mut Work<W>,
        steps: &mut Steps<L>,
    ) -> Result<Component<W>, NoMemory>
        requires id { Contains self.now.names id }
        requires fee { IsFee fee }
        ensures names { IfOk result (λ c. c.names ≡ self.now.names) }
        ensures graph { IfOk result (λ c. SetsFee self.now.graph c.graph id fee) }
        ensures whole { IfOk result (IsCluster (64 * W)) }
        ensures steps { GrowsWithin (most_steps (length self.now.names)) steps.old steps.new }
    {
        match &self.kept {
            Width::Narrow(cluster) => {
                let changed = cluster.with_fee(alloc, id, fee, &mut *work.narrow, steps)?;
                Ok(Component::narrow(changed))
            }
            Width::Wide(wide) => {
                let changed = wide
                    .cluster
                    .with_fee(alloc, id, fee, &mut *work.wide, steps)?;
                Component::wide(alloc, changed)
            }
        }
    }

    /// Whether `a` is an ancestor of `b`. Both are names of this cluster, and each is an ancestor of itself.
    pub fn reaches(&self, a: TxId, b: TxId) -> bool
        requires a_in { Contains self.now.names a }
        requires b_in { Contains self.now.names b }
        ensures { result ≡ is_ancestor self.now.graph a b }
    {
        match &self.kept {
            Width::Narrow(cluster) => cluster.reaches(a, b),
            Width::Wide(wide) => wide.cluster.reaches(a, b),
        }
    }

    /// The names, each at its place.
    pub fn names(&self) -> &[TxId]
        ensures names { result.now ≡ self.now.names }
        ensures whole { IsCluster (64 * W) self.now }
    {
        match &self.kept {
            Width::Narrow(cluster) => cluster.names(),
            Width::Wide(wide) => wide.cluster.names(),
        }
    }

    /// The names in the order of the parts.
    pub fn order(&self) -> &[TxId]
        ensures { result.now ≡ flat_map (λ part. part.ids) self.now.parts }
    {
        match &self.kept {
            Width::Narrow(cluster) => cluster.order(),
            Width::Wide(wide) => wide.cluster.order(),
        }
    }

    /// How many parts there are.
    pub fn part_count(&self) -> usize
        ensures { result ≡ length self.now.parts }
    {
        match &self.kept {
            Width::Narrow(cluster) => cluster.part_count(),
            Width::Wide(wide) => wide.cluster.part_count(),
        }
    }

    /// The part at a position.
    pub fn part(&self, at: usize) -> PartRef<'_>
        requires { at < length self.now.parts }
        ensures { slice_get self.now.parts at ≡ Some (record {
          rate = sum_from result.rate;
          ids = result.ids.now;
          flows = result.flows.now;
        }) }
    {
        match &self.kept {
            Width::Narrow(cluster) => cluster.part(at),
            Width::Wide(wide) => wide.cluster.part(at),
        }
    }

    /// The fee in satoshis and the size in virtual bytes of the part at a position.
    pub fn part_rate(&self, at: usize) -> FeeRate
        requires { at < length self.now.parts }
        ensures { (part : Part) → slice_get self.now.parts at ≡ Some part → sum_from result ≡ part.rate }
    {
        match &self.kept {
            Width::Narrow(cluster) => cluster.part_rate(at),
            Width::Wide(wide) => wide.cluster.part_rate(at),
        }
    }

    /// The position of the part that has a name of the cluster.
    pub fn part_of(&self, id: TxId) -> usize
        requires { Contains self.now.names id }
        ensures { (part : Part) × (slice_get self.now.parts result ≡ Some part) × Contains part.ids id }
    {
        match &self.kept {
            Width::Narrow(cluster) => cluster.part_of(id),
            Width::Wide(wide) => wide.cluster.part_of(id),
        }
    }

    /// The parents of a name with no third name between, in the cluster's order. Takes no memory.
    pub fn covers(&self, id: TxId) -> Covers<'_, W>
        requires { Contains self.now.names id }
        ensures { ListsInOrder (λ a. IsCover self.now.graph a id) (flat_map (λ part. part.ids) self.now.parts) result }
    {
        match &self.kept {
            Width::Narrow(cluster) => Covers::narrow(cluster.covers(id)),
            Width::Wide(wide) => Covers::wide(wide.cluster.covers(id)),
        }
    }

    /// The ancestors of a name, itself among them. Looks for the name once, and takes no memory.
    pub fn ancestors(&self, id: TxId) -> Ancestors<'_, W>
        requires { Contains self.now.names id }
        ensures { (a : ℕ) → Contains result a ↔ (is_ancestor self.now.graph a id ≡ true) }
    {
        match &self.kept {
            Width::Narrow(cluster) => Ancestors::narrow(cluster.ancestors(id)),
            Width::Wide(wide) => Ancestors::wide(wide.cluster.ancestors(id)),
        }
    }

    /// The fee of a name, in satoshis, and its size, in virtual bytes.
    pub fn rate(&self, id: TxId) -> FeeRate
        requires { Contains self.now.names id }
        ensures { result ≡ rate_of self.now.graph id }
    {
        match &self.kept {
            Width::Narrow(cluster) => cluster.rate(id),
            Width::Wide(wide) => wide.cluster.rate(id),
        }
    }

    /// The fee and the size of the name at a position of `names`, without a search for the name.
    pub fn rate_at(&self, at: usize) -> FeeRate
        requires { at < length self.now.names }
        ensures { result ≡ rate_of self.now.graph (slice_index self.now.names at) }
    {
        match &self.kept {
            Width::Narrow(cluster) => cluster.rate_at(at),
            Width::Wide(wide) => wide.cluster.rate_at(at),
        }
    }

    /// The total size of the names, in virtual bytes.
    pub fn size(&self) -> u64
        requires { length self.now.names ≤ MAX_TOTAL }
        ensures sum { result ≡ sum_by (λ id. (rate_of self.now.graph id).size) self.now.names }
        ensures small { result ≤ MAX_SIZE * length self.now.names }
    {
        match &self.kept {
            Width::Narrow(cluster) => cluster.size(),
            Width::Wide(wide) => wide.cluster.size(),
        }
    }

    /// Leaves the names in `out`, in rising order. Takes no memory.
    pub fn list_names(&self, out: &mut IdBuf)
        requires { 64 * W ≤ length out.old.ids + out.old.room }
        ensures lists { Lists (λ id. Contains self.now.names id) out.new.ids }
        ensures room { length out.new.ids + out.new.room ≡ length out.old.ids + out.old.room }
    {
        match &self.kept {
            Width::Narrow(cluster) => cluster.list_names(out),
            Width::Wide(wide) => wide.cluster.list_names(out),
        }
    }

    /// Leaves the ancestors of a name in `out`, itself among them, in rising order. Takes no memory.
    pub fn list_ancestors(&self, id: TxId, out: &mut IdBuf)
        requires id { Contains self.now.names id }
        requires room { 64 * W ≤ length out.old.ids + out.old.room }
        ensures lists { Lists (λ other. is_ancestor self.now.graph other id ≡ true) out.new.ids }
        ensures room { length out.new.ids + out.new.room ≡ length out.old.ids + out.old.room }
    {
        match &self.kept {
            Width::Narrow(cluster) => cluster.list_ancestors(id, out),
            Width::Wide(wide) => wide.cluster.list_ancestors(id, out),
        }
    }

    /// Leaves the descendants of a name in `out`, itself among them, in rising order. Takes no memory.
    pub fn list_descendants(&self, id: TxId, out: &mut IdBuf)
        requires id { Contains self.now.names id }
        requires room { 64 * W ≤ length out.old.ids + out.old.room }
        ensures lists { Lists (λ other. is_ancestor self.now.graph id other ≡ true) out.new.ids }
        ensures room { length out.new.ids + out.new.room ≡ length out.old.ids + out.old.room }
    {
        match &self.kept {
            Width::Narrow(cluster) => cluster.list_descendants(id, out),
            Width::Wide(wide) => wide.cluster.list_descendants(id, out),
        }
    }

    /// Puts behind `out` the ancestors, or the descendants, of names of this cluster, each once; the names themselves are among
    /// them. Takes no memory.
    pub fn add_kin(&self, ids: &[TxId], kin: Kin, out: &mut IdBuf)
        requires ids { (id : ℕ) → Contains ids.now id → Contains self.now.names id }
        requires room { length self.now.names ≤ out.old.room }
        ensures adds { PutsBehind (IsKinOfSome kin self.now.graph ids.now) out.old.ids out.new.ids }
        ensures room { length out.new.ids + out.new.room ≡ length out.old.ids + out.old.room }
    {
        match &self.kept {
            Width::Narrow(cluster) => cluster.add_kin(ids, kin, out),
            Width::Wide(wide) => wide.cluster.add_kin(ids, kin, out),
        }
    }

    /// Of a cluster of one word.
    pub(crate) fn narrow(cluster: Cluster<1>) -> Self
        requires wide { 1 ≤ W }
        requires narrow { W ≤ 64 }
        ensures { result ≡ cluster }
    {
        let _names = cluster.names();
        Component {
            kept: Width::Narrow(cluster),
        }
    }

    /// Of a cluster of W words and more than 64 names.
    pub(crate) fn wide(alloc: Global, cluster: Cluster<W>) -> Result<Self, NoMemory>
        requires wide { 1 ≤ W }
        requires narrow { W ≤ 64 }
        requires large { 64 < length cluster.names }
        ensures { IfOk result (λ c. c ≡ cluster.entry) }
    {
        let cluster = Box::new(alloc, cluster)?;
        Ok(Component {
            kept: Width::Wide(Boxed { cluster }),
        })
    }
}
