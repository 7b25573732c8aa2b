ghost use Rattle.std.specs.Prelude.{◌≡◌, ◌↔◌, ◌+◌, ◌≤◌, ℕ, true, length, Contains, IsTrue};
ghost use Rattle.graphs.specs.Closures.{is_ancestor};
ghost use Rattle.graphs.specs.Unions.{IsKinOfSome, PutsBehind};

use crate::walk::Parts;
use chunk_index::Tag;
use cluster::PartRef;
use graphs::{IdBuf, Kin, TxId};
use record::{Listing, Record};
use std::marker::Model;
use std::mem;

/// A cluster and the levels that it stands in.
#[derive(Drop)]
pub struct Stored<const W: usize> {
    cluster: Record<W>,
    tag: Tag,
}

impl<const W: usize> Model for Stored<W> {
    ghost use Rattle.cluster_store.specs.Stores.{Stored as Kept, stored_code};

    ghost Value = { Kept };

    ghost coded = { stored_code };

    ghost view = { λ s. record { cluster = s.cluster; tag = s.tag } };
}

impl<const W: usize> Stored<W> {
    /// A cluster that is to stand in the levels of a tag.
    pub(crate) fn new(cluster: Record<W>, tag: Tag) -> Self
        ensures { result ≡ record { cluster = cluster.entry; tag = tag } }
    {
        Stored { cluster, tag }
    }

    /// The cluster.
    pub fn cluster(&self) -> &Record<W>
        ensures { result.now ≡ self.now.cluster }
    {
        &self.cluster
    }

    /// The levels that it stands in.
    pub fn tag(&self) -> Tag
        ensures { result ≡ self.now.tag }
    {
        self.tag
    }

    /// Gives it other levels.
    pub(crate) fn set_tag(&mut self, tag: Tag)
        ensures { self.new ≡ record { cluster = self.old.cluster; tag = tag } }
    {
        self.tag = tag;
    }

    /// Puts another cluster in its place, and gives the one that was there.
    pub(crate) fn replace(&mut self, cluster: Record<W>) -> Record<W>
        ensures new { self.new ≡ record { cluster = cluster.entry; tag = self.old.tag } }
        ensures old { result ≡ self.old.cluster }
    {
        mem::replace(&mut self.cluster, cluster)
    }

    /// Whether a name of the cluster is an ancestor of another.
    pub(crate) fn reaches(&mut self, a: TxId, b: TxId) -> bool
        requires { Contains self.old.cluster.names a × Contains self.old.cluster.names b }
        ensures ancestor { result ≡ is_ancestor self.old.cluster.graph a b }
        ensures same { self.new ≡ self.old }
    {
        self.cluster.reaches(a, b)
    }

    /// Whether a name of the cluster has an ancestor that isn't listed.
    pub(crate) fn lacks<T: Listing>(&mut self, id: TxId, listing: &T) -> bool
        requires here { Contains self.old.cluster.names id }
        requires known { (a : ℕ) → Contains self.old.cluster.names a → T.known listing.now a }
        ensures lacks { IsTrue result ↔ ((a : ℕ) × (is_ancestor self.old.cluster.graph a id ≡ true) × (T.listed listing.now a → ⊥)) }
        ensures same { self.new ≡ self.old }
    {
        self.cluster.lacks(id, listing)
    }

    /// Puts behind `out` the ancestors, or the descendants, of names of the cluster.
    pub(crate) fn add_kin(&mut self, ids: &[TxId], kin: Kin, out: &mut IdBuf)
        requires ids { (id : ℕ) → Contains ids.now id → Contains self.old.cluster.names id }
        requires room { length self.old.cluster.names ≤ out.old.room }
        ensures adds { PutsBehind (IsKinOfSome kin self.old.cluster.graph ids.now) out.old.ids out.new.ids }
        ensures room { length out.new.ids + out.new.room ≡ length out.old.ids + out.old.room }
        ensures same { self.new ≡ self.old }
    {
        self.cluster.add_kin(ids, kin, out)
    }
}

/// The numbers of clusters that came into the top level.
#[derive(Drop)]
pub struct Made {
    /// Those of all but the last one, in their order.
    pub rest: Vec<usize>,
    /// That of the last one, where there is one.
    pub last: Option<usize>,
}

/// A cluster that is to take the place of the one that stands under a number, in the same levels.
#[derive(Drop)]
pub struct Exchange<const W: usize> {
    number: usize,
    cluster: Record<W>,
}

impl<const W: usize> Model for Exchange<W> {
    ghost use Rattle.cluster_store.specs.Stores.{Exchange as Kept, exchange_code};

    ghost Value = { Kept };

    ghost coded = { exchange_code };

    ghost view = { λ x. record { number = x.number; cluster = x.cluster } };
}

impl<const W: usize> Exchange<W> {
    /// The cluster that is to stand under a number.
    pub fn new(number: usize, cluster: Record<W>) -> Self
        ensures { result ≡ record { number = number; cluster = cluster.entry } }
    {
        Exchange { number, cluster }
    }

    /// The number.
    pub fn number(&self) -> usize
        ensures { result ≡ self.now.number }
    {
        self.number
    }

    /// The cluster.
    pub fn cluster(&self) -> &Record<W>
        ensures { result.now ≡ self.now.cluster }
    {
        &self.cluster
    }

    /// Both.
    pub(crate) fn into_parts(self) -> (usize, Record<W>)
        ensures number { result.0 ≡ self.entry.number }
        ensures cluster { result.1 ≡ self.entry.cluster }
    {
        (self.number, self.cluster)
    }
}

impl<const W: usize> Parts for Stored<W> {
    ghost parts = { λ s. s.cluster.parts };

    fn part(&self, at: usize) -> PartRef<'_> {
        self.cluster.part(at)
    }
}
