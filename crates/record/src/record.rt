ghost use Rattle.std.specs.Prelude.{◌≡◌, ◌≢◌, ◌↔◌, ℕ, ◌+◌, ◌*◌, ◌<◌, ◌≤◌, ◌++◌, [], true, false, List, length, map, slice_index, sum_by, All, Contains, IfOk, IsTrue, MatchOption};
ghost use Rattle.fee_rate.specs.Limits.{IsFee, IsRate};
ghost use Rattle.fee_rate.specs.declared.limits.TheConstants.{MAX_SIZE, MAX_TOTAL};
ghost use Rattle.graphs.specs.Closures.{is_ancestor, rate_of, AddsPair, SetsFee};
ghost use Rattle.graphs.specs.Unions.{IsKinOfSome, PutsBehind};
ghost use Rattle.cluster.specs.Clusters.{IsCluster};
ghost use Rattle.cluster.specs.Changes.{AreComponents, IsSingle, IsSplit, Joins};
ghost use Rattle.cluster.specs.Steps.{GrowsWithin, most_steps};
ghost use Rattle.links.specs.Links.{AreInRange, AreLinks};
ghost use Rattle.links.specs.Kept.{names_of};
ghost use Rattle.links.specs.Closing.{closure};
ghost use Rattle.record.specs.Kept.{unordered};
ghost use Rattle.record.specs.Records.{IsConnected, IsFitted, IsLike, IsRecord, StaysFitted};
ghost use Rattle.record.specs.Leaving.{IsOneComponent, IsWideFor, MayLose};
ghost use Rattle.record.specs.Steps.{most_steps_again, most_steps_fit, most_steps_fit_of, most_steps_within, total_size};
ghost use Rattle.record.specs.Changes.{MayJoin};
ghost use Rattle.graph_model.specs.declared.names.Limits as graph_limits;

use crate::joining::{are_over, joined_over};
use crate::kept::{Kept, Unordered};
use crate::kin::add_over;
use crate::leaving::{all_within, split_up};
use crate::listing::{Listing, lacks_over, lacks_within};
use crate::solving::ordered;
use component::{Component, Work};
use fee_rate::FeeRate;
use graph_model::Limits;
use graphs::{IdBuf, Kin, TxId};
use links::Links;
use outside::NoMemory;
use std::alloc::Global;
use std::marker::Model;
use step_count::{Ledger, Steps};

/// A component of a transaction graph: within the limits a cluster with its optimal order, and over them its names and dependencies
/// without an order.
///
/// A call that makes a record fails only where there is no memory.
#[derive(Drop)]
pub struct Record<const W: usize> {
    pub(crate) kept: Kept<W>,
}

// Clauses see the names, the graph of the names, and the parts, of which a record over the limits has none.
impl<const W: usize> Model for Record<W> {
    ghost use Rattle.std.specs.Prelude.{◌≤◌, ◌*◌};
    ghost use Rattle.cluster.specs.Clusters.{Cluster, cluster_code};

    ghost Value = { Cluster };

    ghost coded = { cluster_code };

    ghost use Rattle.record.specs.Kept.{component_of, IsKept};

    ghost view = { λ r. component_of r.kept };

    ghost invariant = { λ r. (1 ≤ W) × (W ≤ 64) × IsKept (64 * W) r.kept };
}

impl<const W: usize> Record<W> {
    /// Makes the record of one name, with its fee in satoshis and its size in virtual bytes. It has its order, and the solver takes no
    /// step.
    pub fn single<L: Ledger>(
        alloc: Global,
        id: TxId,
        fee: i64,
        size: u64,
        work: &mut Work<W>,
        steps: &mut Steps<L>,
    ) -> Result<Self, NoMemory>
        requires { IsRate (record { fee = fee; size = size }) }
        ensures single { IfOk result (IsSingle id (record { fee = fee; size = size })) }
        ensures whole { IfOk result (IsCluster (64 * W)) }
        ensures fitted { (limits : graph_limits.Limits) → 1 ≤ limits.count → size ≤ limits.size → IfOk result (IsFitted (64 * W) limits) }
        ensures steps { steps.new ≡ steps.old }
    {
        let component = Component::single(alloc, id, fee, size, work, steps)?;
        Ok(Record::within(component))
    }

    /// Makes the record in which `child` depends on `parent`. Both are names of this record, which stays as it is. Neither comes over a
    /// limit by it. Where it has an order, for n names the solver takes at most 2·(n+2)^5 steps, and else none.
    pub fn linked<L: Ledger>(
        &self,
        alloc: Global,
        parent: TxId,
        child: TxId,
        work: &mut Work<W>,
        steps: &mut Steps<L>,
    ) -> Result<Record<W>, NoMemory>
        requires ends { Contains self.now.names parent × Contains self.now.names child }
        requires no_cycle { is_ancestor self.now.graph child parent ≡ false }
        ensures names { IfOk result (λ r. r.names ≡ self.now.names) }
        ensures graph { IfOk result (λ r. AddsPair self.now.graph r.graph parent child) }
        ensures fitted { IfOk result (StaysFitted (64 * W) self.now) }
        ensures steps { GrowsWithin (most_steps_again self.now) steps.old steps.new }
    {
        match &self.kept {
            Kept::Within(component) => {
                let linked = component.linked(alloc, parent, child, work, steps)?;
                Ok(Record::within(linked))
            }
            Kept::Over(over) => {
                let linked = over.links.linked(alloc, parent, child)?;
                Record::over(alloc, linked)
            }
        }
    }

    /// Makes the record in which a name of this one has this fee, in satoshis. This record stays as it is. Where it has an order, for n
    /// names the solver takes at most 2·(n+2)^5 steps, and else none.
    pub fn with_fee<L: Ledger>(
        &self,
        alloc: Global,
        id: TxId,
        fee: i64,
        work: &mut Work<W>,
        steps: &mut Steps<L>,
    ) -> Result<Record<W>, NoMemory>
        requires id { Contains self.now.names id }
        requires fee { IsFee fee }
        ensures names { IfOk result (λ r. r.names ≡ self.now.names) }
        ensures graph { IfOk result (λ r. SetsFee self.now.graph r.graph id fee) }
        ensures fitted { IfOk result (StaysFitted (64 * W) self.now) }
        ensures steps { GrowsWithin (most_steps_again self.now) steps.old steps.new }
    {
        match &self.kept {
            Kept::Within(component) => {
                let priced = component.with_fee(alloc, id, fee, work, steps)?;
                Ok(Record::within(priced))
            }
            Kept::Over(over) => {
                let priced = over.links.with_fee(alloc, id, fee)?;
                Record::over(alloc, priced)
            }
        }
    }

    /// Makes one record of two, in which `child` depends on `parent`: one of them is a name of this record, the other one of `other`. The
    /// names of this record come first. Both stay as they are. Where the record is within the limits, for n names together the solver
    /// takes at most 2·(n+2)^5 steps, and else none.
    pub fn joined<L: Ledger>(
        &self,
        alloc: Global,
        other: &Record<W>,
        parent: TxId,
        child: TxId,
        limits: &Limits,
        work: &mut Work<W>,
        steps: &mut Steps<L>,
    ) -> Result<Record<W>, NoMemory>
        requires narrow { W ≤ 2 }
        requires may_join { MayJoin (64 * W) limits.now self.now other.now parent child }
        ensures names { IfOk result (λ r. r.names ≡ self.now.names ++ other.now.names) }
        ensures graph { IfOk result (λ r. Joins self.now.graph other.now.graph parent child r.graph) }
        ensures fitted { IfOk result (IsFitted (64 * W) limits.now) }
        ensures steps { GrowsWithin (most_steps_within limits.now (length self.now.names + length other.now.names)
            (total_size self.now.graph self.now.names + total_size other.now.graph other.now.names)) steps.old steps.new }
    {
        let count = (self.names().len() + other.names().len()) as u64;
        if are_over(limits, count, self.size() + other.size()) {
            return joined_over(alloc, self, other, parent, child);
        }
        // so neither is over the limits
        let Some(one) = self.component() else {
            unreachable!()
        };
        let Some(two) = other.component() else {
            unreachable!()
        };
        let joined = one.joined(alloc, two, parent, child, work, steps)?;
        Ok(Record::within(joined))
    }

    /// Makes the records that are left without some of the names: one for each component of the others, which keep the ancestors that they
    /// had among them. This record stays as it is. Each that is within the limits has its order, and each that is over them has none. For
    /// those within the limits the solver takes at most the sum of 2·(n+2)^5 steps over components of n names, and for the others none.
    pub fn without<L: Ledger>(
        &self,
        alloc: Global,
        names: &[TxId],
        limits: &Limits,
        work: &mut Work<W>,
        steps: &mut Steps<L>,
    ) -> Result<Vec<Record<W>>, NoMemory>
        requires { MayLose (64 * W) limits.now self.now names.now }
        ensures split { IfOk result (λ left. IsSplit self.now.graph names.now left.items) }
        ensures fitted { IfOk result (λ left. All (IsFitted (64 * W) limits.now) left.items) }
        ensures components { IfOk result (λ left. AreComponents self.now.graph names.now (map (λ c. c.names) left.items)) }
        ensures grew { steps.old ≤ steps.new }
        ensures steps { (lists : List (List ℕ)) → AreComponents self.now.graph names.now lists
            → steps.new ≤ steps.old + most_steps_fit_of limits.now self.now.graph lists }
    {
        match &self.kept {
            Kept::Within(component) => {
                let left = component.without(alloc, names, work, steps)?;
                all_within(alloc, left.into_vec())
            }
            Kept::Over(over) => {
                let left = over.links.without(alloc, names)?;
                let _left = left.txs();
                split_up(alloc, &left, limits, work, steps)
            }
        }
    }

    /// Whether `a` is an ancestor of `b`. Both are names of this record, and each is an ancestor of itself. Takes no memory.
    pub fn reaches(&mut self, a: TxId, b: TxId) -> bool
        requires { Contains self.old.names a × Contains self.old.names b }
        ensures ancestor { result ≡ is_ancestor self.old.graph a b }
        ensures same { self.new ≡ self.old }
    {
        match &mut self.kept {
            Kept::Within(component) => component.reaches(a, b),
            Kept::Over(over) => over.links.reaches(a, b),
        }
    }

    /// Whether a name has an ancestor that isn't listed. The name is one of this record. Takes no memory.
    pub fn lacks<T: Listing>(&mut self, id: TxId, listing: &T) -> bool
        requires here { Contains self.old.names id }
        requires known { (a : ℕ) → Contains self.old.names a → T.known listing.now a }
        ensures lacks { IsTrue result ↔ ((a : ℕ) × (is_ancestor self.old.graph a id ≡ true) × (T.listed listing.now a → ⊥)) }
        ensures same { self.new ≡ self.old }
    {
        match &mut self.kept {
            Kept::Within(component) => lacks_within(component, id, listing),
            Kept::Over(over) => lacks_over(&mut over.links, id, listing),
        }
    }

    /// Puts behind `out` the ancestors, or the descendants, of names of this record, each once; the names themselves are among them. A
    /// name may be listed twice. Takes no memory.
    pub fn add_kin(&mut self, ids: &[TxId], kin: Kin, out: &mut IdBuf)
        requires ids { (id : ℕ) → Contains ids.now id → Contains self.old.names id }
        requires room { length self.old.names ≤ out.old.room }
        ensures adds { PutsBehind (IsKinOfSome kin self.old.graph ids.now) out.old.ids out.new.ids }
        ensures room { length out.new.ids + out.new.room ≡ length out.old.ids + out.old.room }
        ensures same { self.new ≡ self.old }
    {
        match &mut self.kept {
            Kept::Within(component) => component.add_kin(ids, kin, out),
            Kept::Over(over) => add_over(&mut over.links, ids, kin, out),
        }
    }

    /// The fee of a name, in satoshis, and its size, in virtual bytes. A record without an order looks the name up once.
    pub fn rate(&self, id: TxId) -> FeeRate
        requires { Contains self.now.names id }
        ensures { result ≡ rate_of self.now.graph id }
    {
        match &self.kept {
            Kept::Within(component) => component.rate(id),
            Kept::Over(over) => self.rate_at(over.links.position(id)),
        }
    }

    /// The fee in satoshis and the size in virtual bytes of the name at a position of `names`.
    pub fn rate_at(&self, at: usize) -> FeeRate
        requires { at < length self.now.names }
        ensures { result ≡ rate_of self.now.graph (slice_index self.now.names at) }
    {
        match &self.kept {
            Kept::Within(component) => component.rate_at(at),
            Kept::Over(over) => {
                let (_id, fee, size) = over.links.txs()[at];
                FeeRate { fee, size }
            }
        }
    }

    /// The total size of the names, in virtual bytes.
    pub fn size(&self) -> u64
        requires { length self.now.names ≤ MAX_TOTAL }
        ensures sum { result ≡ sum_by (λ id. (rate_of self.now.graph id).size) self.now.names }
        ensures small { result ≤ MAX_SIZE * length self.now.names }
    {
        match &self.kept {
            Kept::Within(component) => component.size(),
            Kept::Over(over) => size_of(over.links.txs()),
        }
    }

    /// The component with its order, or `None` where the record has none.
    pub fn component(&self) -> Option<&Component<W>>
        ensures { MatchOption result (self.now.parts ≡ []) (λ c. (c.now ≡ self.now) × IsCluster (64 * W) c.now) }
    {
        match &self.kept {
            Kept::Within(component) => Some(component),
            Kept::Over(_) => None,
        }
    }

    /// The links of a component without an order, or `None` where it has its order.
    pub fn links(&self) -> Option<&Links>
        ensures { MatchOption result (self.now.parts ≢ []) (λ links. AreLinks links.now × (unordered links.now ≡ self.now)) }
    {
        match &self.kept {
            Kept::Within(_) => None,
            Kept::Over(over) => Some(&over.links),
        }
    }

    /// The names, each at its place.
    pub fn names(&self) -> &[TxId]
        ensures names { result.now ≡ self.now.names }
        ensures record { IsRecord (64 * W) self.now }
    {
        match &self.kept {
            Kept::Within(component) => component.names(),
            Kept::Over(over) => over.names.as_slice(),
        }
    }

    // Of links that are one component, with an order of at most 64·W names. For n names the solver takes at most 2·(n+2)^5 steps.
    pub(crate) fn of_links<L: Ledger>(
        alloc: Global,
        links: &Links,
        work: &mut Work<W>,
        steps: &mut Steps<L>,
    ) -> Result<Record<W>, NoMemory>
        requires width { (1 ≤ W) × (W ≤ 64) }
        requires few { length links.now.txs ≤ 64 * W }
        requires connected { IsConnected (unordered links.now) }
        ensures same { IfOk result (λ r. IsLike r (unordered links.now)) }
        ensures whole { IfOk result (IsCluster (64 * W)) }
        ensures steps { GrowsWithin (most_steps (length links.now.txs)) steps.old steps.new }
    {
        let names = names_of(alloc, links.txs())?;
        let dep = ordered(alloc, names.as_slice(), links.txs(), links.pairs())?;
        let component = Component::whole(alloc, names.as_slice(), &dep, work, steps)?;
        Ok(Record::within(component))
    }

    // Of links that are one component: with an order where they are within the limits, and else without.
    pub(crate) fn of_component<L: Ledger>(
        alloc: Global,
        links: Links,
        limits: &Limits,
        work: &mut Work<W>,
        steps: &mut Steps<L>,
    ) -> Result<Record<W>, NoMemory>
        requires wide { IsWideFor W limits.now }
        requires one { IsOneComponent links }
        ensures same { IfOk result (λ r. IsLike r (unordered links)) }
        ensures fitted { IfOk result (IsFitted (64 * W) limits.now) }
        ensures steps { GrowsWithin (most_steps_fit limits.now (closure links) (names_of links.txs)) steps.old steps.new }
    {
        let count = links.txs().len() as u64;
        let size = size_of(links.txs());
        if are_over(limits, count, size) {
            return Record::over(alloc, links);
        }
        Record::of_links(alloc, &links, work, steps)
    }

    // Of links over the limits.
    pub(crate) fn over(alloc: Global, links: Links) -> Result<Self, NoMemory>
        requires wide { 1 ≤ W }
        requires narrow { W ≤ 64 }
        requires connected { AreLinks links → IsConnected (unordered links) }
        ensures record { IfOk result (λ r. r ≡ unordered links) }
        ensures links { IfOk result (λ _. AreLinks links) }
    {
        let names = names_of(alloc, links.txs())?;
        let over = Box::new(alloc, Unordered { names, links })?;
        Ok(Record {
            kept: Kept::Over(over),
        })
    }

    /// The record of a component with its order.
    pub fn within(component: Component<W>) -> Self
        ensures { result ≡ component.entry }
    {
        let _names = component.names();
        Record {
            kept: Kept::Within(component),
        }
    }
}

// The names of transactions.
pub(crate) fn names_of(alloc: Global, txs: &[(TxId, i64, u64)]) -> Result<Vec<TxId>, NoMemory>
    ensures { IfOk result (λ names. names.items ≡ names_of txs.now) }
{
    let mut names = Vec::with_capacity(alloc, txs.len())?;
    for tx in txs {
        names.push_reserved(tx.0);
    }
    Ok(names)
}

// The total size of transactions, in virtual bytes.
pub(crate) fn size_of(txs: &[(TxId, i64, u64)]) -> u64
    requires few { length txs.now ≤ MAX_TOTAL }
    requires in_range { AreInRange txs.now }
    ensures sum { result ≡ sum_by (λ tx. tx.2) txs.now }
    ensures small { result ≤ MAX_SIZE * length txs.now }
{
    let mut total = 0;
    for tx in txs {
        total += tx.2;
    }
    total
}
