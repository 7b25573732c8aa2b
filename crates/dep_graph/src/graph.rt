ghost use Rattle.std.specs.Prelude.{◌≡◌, ℕ, ◌+◌, ◌*◌, ◌<◌, ◌≤◌, ◌↔◌, true, false, IfOk, OnErr};
ghost use Rattle.std.specs.FinSet as set;
ghost use Rattle.std.specs.FinMap as map;
ghost use Rattle.graphs.specs.Closures.{is_member, rate_of, is_ancestor, members_of, ancestors_of, descendants_of, IsClosed, IsCover, IsNear, HoldsMembers};
ghost use Rattle.graphs.specs.Closures.{AddsPlace, AddsPair, SetsFee, DropsPlace, IsMerged, IsPart};
ghost use Rattle.lists.specs.Walks.{Walk};
ghost use Rattle.bitset.specs.Places.{IsWithin, places};

use crate::rows::{
    Row, Rows, copy_rows, give_ancestors, give_descendants, put, resized_rows, take_ancestor,
    take_descendant,
};
use bitset::Bits;
use fee_rate::FeeRate;
use outside::NoMemory;
use smallvec::SmallVec;
use std::alloc::Global;
use std::marker::Model;

/// The transactions of a cluster by place, each with its fee in satoshis and its size in virtual bytes, and the
/// ancestor relation between them: each member is its own ancestor, an ancestor's ancestors are ancestors, and no
/// two members are ancestors of each other.
#[derive(Drop)]
pub struct DepGraph<const W: usize> {
    members: Bits<W>,
    rows: Rows<W>,
}

// Clauses see a map from the members to their rates and ancestors.
impl<const W: usize> Model for DepGraph<W> {
    ghost use Rattle.std.specs.Prelude.{◌*◌};
    ghost use Rattle.graphs.specs.Closures.{Closure, closure_code};
    ghost use Rattle.dep_graph.specs.Rows.{graph_from, IsKept};

    ghost Value = { Closure };

    ghost coded = { closure_code };

    ghost view = { λ g. graph_from (64 * W) g.members g.rows.items };

    ghost invariant = { λ g. IsKept (64 * W) g.members g.rows.items };
}

impl<const W: usize> DepGraph<W> {
    /// A graph without members. It takes no memory.
    pub fn new(alloc: Global) -> Self
        ensures { result ≡ map.empty }
    {
        DepGraph {
            members: Bits::empty(),
            rows: SmallVec::new(alloc),
        }
    }

    /// The places that are members.
    pub fn members(&self) -> Bits<W>
        ensures members { result ≡ members_of self.now }
        ensures closed { IsClosed (64 * W) self.now }
    {
        self.members
    }

    /// Fee and size of a member.
    pub fn rate(&self, place: usize) -> FeeRate
        requires { is_member self.now place ≡ true }
        ensures { result ≡ rate_of self.now place }
    {
        self.row(place).rate
    }

    /// The ancestors of a member, itself among them.
    pub fn ancestors(&self, place: usize) -> Bits<W>
        requires { is_member self.now place ≡ true }
        ensures { result ≡ ancestors_of self.now place }
    {
        self.row(place).ancestors
    }

    /// The descendants of a member, itself among them.
    pub fn descendants(&self, place: usize) -> Bits<W>
        requires { is_member self.now place ≡ true }
        ensures { result ≡ descendants_of self.now place }
    {
        self.row(place).descendants
    }

    /// Whether a dependency of `child` on `parent` would make a member its own proper ancestor.
    pub fn would_cycle(&self, parent: usize, child: usize) -> bool
        requires parent { is_member self.now parent ≡ true }
        requires child { is_member self.now child ≡ true }
        ensures { result ≡ is_ancestor self.now child parent }
    {
        self.row(parent).ancestors.has(child)
    }

    // The row of a member.
    fn row(&self, place: usize) -> &Row<W>
        requires { is_member self.now place ≡ true }
        ensures rate { result.now.rate ≡ rate_of self.now place }
        ensures ancestors { result.now.ancestors ≡ ancestors_of self.now place }
        ensures descendants { result.now.descendants ≡ descendants_of self.now place }
        ensures closed { IsClosed (64 * W) self.now }
    {
        &self.rows[place]
    }

    /// Changes the fee of a member, in satoshis.
    pub fn set_fee(&mut self, place: usize, fee: i64)
        requires { is_member self.old place ≡ true }
        ensures fee { SetsFee self.old self.new place fee }
        ensures closed { IsClosed (64 * W) self.new }
    {
        self.rows[place].rate.fee = fee;
    }

    /// Adds a member that depends on no other, at the least place that is free: `fee` in satoshis, `size` in virtual
    /// bytes. Without memory for it the graph stays as it was.
    pub fn add(&mut self, fee: i64, size: u64) -> Result<usize, NoMemory>
        requires { set.len (members_of self.old) < 64 * W }
        ensures ok { IfOk result (AddsPlace self.old self.new (record { fee = fee; size = size })) }
        ensures err { OnErr result (self.new ≡ self.old) }
        ensures closed { IsClosed (64 * W) self.new }
    {
        let place = free_place(&self.members, self.rows.len());
        let mut itself = Bits::empty();
        itself.insert(place);
        let row = Row {
            rate: FeeRate { fee, size },
            ancestors: itself,
            descendants: itself,
        };
        put(&mut self.rows, place, row)?;
        self.members.insert(place);
        Ok(place)
    }

    /// Makes `child` depend on `parent`: what descends from the child has the ancestors of the parent too.
    pub fn add_dep(&mut self, parent: usize, child: usize)
        requires parent { is_member self.old parent ≡ true }
        requires child { is_member self.old child ≡ true }
        requires no_cycle { is_ancestor self.old child parent ≡ false }
        ensures pair { AddsPair self.old self.new parent child }
        ensures closed { IsClosed (64 * W) self.new }
    {
        let above = self.ancestors(parent);
        let below = self.descendants(child);
        let rows = self.rows.as_mut_slice();
        give_ancestors(rows, &below, &above);
        give_descendants(rows, &above, &below);
    }

    /// Drops a member. The others keep the relation among themselves, so an ancestor over the member stays one.
    pub fn remove_bridging(&mut self, place: usize)
        requires { is_member self.old place ≡ true }
        ensures dropped { DropsPlace self.old self.new place }
        ensures closed { IsClosed (64 * W) self.new }
    {
        let above = self.ancestors(place);
        let below = self.descendants(place);
        let rows = self.rows.as_mut_slice();
        take_ancestor(rows, &below, place);
        take_descendant(rows, &above, place);
        self.members.remove(place);
    }

    /// The parents of a member with nothing between: no third member descends from one and is an ancestor of it.
    pub fn covers(&self, place: usize) -> Bits<W>
        requires { is_member self.now place ≡ true }
        ensures { (p : ℕ) → (set.contains result p ≡ true) ↔ IsCover self.now p place }
    {
        let mut covers = self.row(place).ancestors;
        covers.remove(place);
        // what is above a place that was gone through is no cover, nor is what is above that
        let mut to_come = covers;
        while let Some(middle) = to_come.greatest() {
            let mut further = self.ancestors(middle);
            to_come = to_come.minus(&further);
            further.remove(middle);
            covers = covers.minus(&further);
        }
        covers
    }

    /// The places of `within` that are reached from a place of it, by steps within it from a place to its ancestors
    /// and descendants.
    pub fn component(&self, place: usize, within: Bits<W>) -> Bits<W>
        requires members { HoldsMembers self.now within }
        requires place { set.contains within place ≡ true }
        ensures { (p : ℕ) → (set.contains result p ≡ true) ↔ Walk (IsNear self.now within.entry) place p }
    {
        let mut reached = self.row(place).ancestors.meet(&within);
        let mut done = Bits::empty();
        while let Some(next) = reached.minus(&done).least() {
            done.insert(next);
            let row = self.row(next);
            let near = row.ancestors.union(&row.descendants).meet(&within);
            reached = reached.union(&near);
        }
        reached
    }

    /// Both graphs side by side, without a relation between them. The places are numbered anew in rising order, those
    /// of this graph first. Both graphs stay as they are.
    pub fn merge(&self, alloc: Global, other: &Self) -> Result<Self, NoMemory>
        requires { set.len (members_of self.now) + set.len (members_of other.now) ≤ 64 * W }
        ensures merged { IfOk result (IsMerged self.now other.now (places (64 * W) (members_of self.now))
            (places (64 * W) (members_of other.now))) }
        ensures closed { IfOk result (IsClosed (64 * W)) }
    {
        let first = self.rows.as_slice();
        let second = other.rows.as_slice();
        let count = self.members.count() + other.members.count();
        let mut rows = SmallVec::with_capacity(alloc, count)?;
        copy_rows(&mut rows, first, &self.members);
        copy_rows(&mut rows, second, &other.members);
        Ok(DepGraph {
            members: Bits::first_n(count),
            rows,
        })
    }

    /// The members that `within` holds, with the relation among them, and numbered anew in rising order. This graph
    /// stays as it is.
    pub fn part(&self, alloc: Global, within: Bits<W>) -> Result<Self, NoMemory>
        requires { HoldsMembers self.now within }
        ensures part { IfOk result (IsPart self.now (places (64 * W) within.entry)) }
        ensures closed { IfOk result (IsClosed (64 * W)) }
    {
        let whole = self.rows.as_slice();
        let count = within.count();
        let mut rows = SmallVec::with_capacity(alloc, count)?;
        copy_rows(&mut rows, whole, &within);
        Ok(DepGraph {
            members: Bits::first_n(count),
            rows,
        })
    }

    /// The same graph, with sets of V words, which have room for its members. This graph stays as it is.
    pub fn resized<const V: usize>(&self, alloc: Global) -> Result<DepGraph<V>, NoMemory>
        requires { IsWithin (64 * V) (members_of self.now) }
        ensures same { IfOk result (λ g. g ≡ self.now) }
        ensures closed { IfOk result (IsClosed (64 * V)) }
    {
        let whole = self.rows.as_slice();
        let rows = resized_rows(alloc, whole, end_of(&self.members, whole.len()))?;
        Ok(DepGraph {
            members: self.members.resized(),
            rows,
        })
    }
}

// The least place that is free, where the members have places below `used`.
fn free_place<const W: usize>(members: &Bits<W>, used: usize) -> usize
    requires room { used ≤ 64 * W }
    requires within { IsWithin used members.now }
    ensures free { set.contains members.now result ≡ false }
    ensures least { (p : ℕ) → p < result → set.contains members.now p ≡ true }
    ensures within { result ≤ used }
{
    Bits::first_n(used).minus(members).least().unwrap_or(used)
}

// The place behind the last one of a set whose places are below `most`, or 0 where it has none.
fn end_of<const W: usize>(set: &Bits<W>, most: usize) -> usize
    requires { IsWithin most set.now }
    ensures all { IsWithin result set.now }
    ensures least { (n : ℕ) → IsWithin n set.now → result ≤ n }
{
    match set.greatest() {
        None => 0,
        Some(last) => last + 1,
    }
}
