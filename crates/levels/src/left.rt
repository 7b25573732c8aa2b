//! Names that leave their clusters.
ghost use Rattle.std.specs.Prelude.{◌≡◌, ◌≢◌, ◌↔◌, ◌++◌, ◌+◌, ◌*◌, ◌<◌, ◌≤◌, true, false, None, Some, ℕ, List, [], ◌∷◌, length, map, option_to_list, take, drop, slice_index_or, Contains, IsSome, IfOk, OnOk, All};
ghost use Rattle.std.specs.List.Sorted.{IsPermutation};
ghost use Rattle.std.specs.FinMap as finmap;
ghost use Rattle.graphs.specs.declared.names.Level.TheVariants.{Top};
ghost use Rattle.cluster.specs.Clusters as records;
ghost use Rattle.cluster.specs.Changes.{AreComponents, IsSplit};
ghost use Rattle.record.specs.Records.{IsFitted};
ghost use Rattle.record.specs.Steps.{most_steps_fit_of};
ghost use Rattle.levels.specs.Lefts.{AreLeft, AreListed, AreNumbered, DropsWithin, IsRun, Takes};
ghost use Rattle.levels.specs.Shelves.{HaveFew, IsInOrder, numbers_at, seen_at, view_of};
ghost use Rattle.levels.specs.Views.{graph_of};

use crate::shelves::Shelves;
use component::Work;
use graph_model::{Level, TxId};
use outside::NoMemory;
use record::Record;
use std::alloc::Global;
use step_count::{Ledger, Steps};

/// What is left of some clusters: their numbers, and the clusters that are left of them, the last of which is of the first.
#[derive(Drop)]
pub struct Left<const W: usize> {
    pub outs: Vec<usize>,
    pub rest: Vec<Record<W>>,
    pub last: Option<Record<W>>,
}

/// What comes in where clusters go out: the last of it takes the number of the first of those, and has as many of its names as `kept`, from
/// the first.
#[derive(Drop)]
pub struct News<const W: usize> {
    pub rest: Vec<Record<W>>,
    pub last: Option<Record<W>>,
    pub kept: usize,
}

impl<const W: usize> Shelves<W> {
    /// What is left of the clusters of some names of the top level without these: each component of the other names of a cluster is one
    /// then.
    pub(crate) fn leave<L: Ledger>(
        &self,
        ids: &[TxId],
        work: &mut Work<W>,
        steps: &mut Steps<L>,
    ) -> Result<Left<W>, NoMemory>
        requires order { IsInOrder W self.now }
        requires few { HaveFew self.now }
        requires live { (id : ℕ) → Contains ids.now id → IsSome (finmap.get (numbers_at Top self.now) id) }
        ensures left { IfOk result (λ left. AreLeft W ids.now left.outs.items left.rest.items left.last self.now) }
        ensures steps { DropsWithin self.now.limits ids.now (graph_of (view_of Top self.now)) steps.old steps.new }
    {
        let listed = self.by_cluster(ids)?;
        let mut left = Left {
            outs: Vec::new(self.alloc),
            rest: Vec::new(self.alloc),
            last: None,
        };
        let mut coming = listed.as_slice();
        while !coming.is_empty() {
            let number = coming[0].0;
            let (run, later) = coming.split_at(run_length(coming));
            self.leave_run(number, run, &mut left, work, steps)?;
            coming = later;
        }
        Ok(left)
    }

    // The names with the numbers of their clusters, by rising number.
    fn by_cluster(&self, ids: &[TxId]) -> Result<Vec<(usize, TxId)>, NoMemory>
        requires live { (id : ℕ) → Contains ids.now id → IsSome (finmap.get (numbers_at Top self.now) id) }
        ensures { IfOk result (λ listed. AreListed self.now ids.now listed.items) }
    {
        let mut listed = self.numbered(ids)?;
        listed.sort_unstable_by_key(|entry| entry.0);
        Ok(listed)
    }

    // The names with the numbers of their clusters.
    fn numbered(&self, ids: &[TxId]) -> Result<Vec<(usize, TxId)>, NoMemory>
        requires live { (id : ℕ) → Contains ids.now id → IsSome (finmap.get (numbers_at Top self.now) id) }
        ensures { IfOk result (λ listed. AreNumbered self.now ids.now listed.items) }
    {
        let mut listed = Vec::with_capacity(self.alloc, ids.len())?;
        for id in ids {
            listed.push_reserved((self.top_number(*id), *id));
        }
        Ok(listed)
    }

    // The number of the cluster of a name that the top level has.
    fn top_number(&self, id: TxId) -> usize
        requires { IsSome (finmap.get (numbers_at Top self.now) id) }
        ensures { finmap.get (numbers_at Top self.now) id ≡ Some result }
    {
        match self.number(Level::Top, id) {
            Some(number) => number,
            None => unreachable!(),
        }
    }

    // Some names of one cluster leave it.
    fn leave_run<L: Ledger>(
        &self,
        number: usize,
        run: &[(usize, TxId)],
        left: &mut Left<W>,
        work: &mut Work<W>,
        steps: &mut Steps<L>,
    ) -> Result<(), NoMemory>
        requires order { IsInOrder W self.now }
        requires few { HaveFew self.now }
        requires run { IsRun self.now number run.now }
        ensures left { OnOk result ((c : records.Cluster) × (pieces : List records.Cluster)
            × (seen_at Top self.now.store.clusters number ≡ Some c)
            × IsSplit c.graph (map (λ e. e.1) run.now) pieces × All (IsFitted (64 * W) self.now.limits) pieces
            × Takes number pieces left.old.outs.items left.old.rest.items left.old.last left.new.outs.items left.new.rest.items left.new.last) }
        ensures grew { steps.old ≤ steps.new }
        ensures steps { (c : records.Cluster) (lists : List (List ℕ)) → seen_at Top self.now.store.clusters number ≡ Some c
            → AreComponents c.graph (map (λ e. e.1) run.now) lists → steps.new ≤ steps.old + most_steps_fit_of self.now.limits c.graph lists }
    {
        let names = names_of(self.alloc, run)?;
        let ids = names.as_slice();
        let pieces = self
            .at(number)
            .without(self.alloc, ids, &self.limits, work, steps)?;
        left.take(number, pieces)
    }
}

impl<const W: usize> Left<W> {
    // Takes what is left of one cluster more. Of the first cluster one with the most names is kept apart, so that most names keep
    // their number.
    fn take(&mut self, number: usize, mut pieces: Vec<Record<W>>) -> Result<(), NoMemory>
        requires { W ≤ 2 }
        ensures { OnOk result (Takes number pieces.entry.items self.old.outs.items self.old.rest.items self.old.last
            self.new.outs.items self.new.rest.items self.new.last) }
    {
        let is_first = self.outs.is_empty();
        self.outs.push(number)?;
        if !is_first {
            self.rest.append(&mut pieces)?;
            return Ok(());
        }
        self.last = take_largest(&mut pieces);
        self.rest = pieces;
        Ok(())
    }
}

// How many entries at the front have the number of the first.
fn run_length(listed: &[(usize, TxId)]) -> usize
    requires { 1 ≤ length listed.now }
    ensures some { 1 ≤ result }
    ensures low { result ≤ length listed.now }
    ensures same { All (λ e. e.0 ≡ (slice_index_or listed.now 0 (0, 0)).0) (take result listed.now) }
    ensures other { result < length listed.now → (slice_index_or listed.now result (0, 0)).0 ≢ (slice_index_or listed.now 0 (0, 0)).0 }
{
    let number = listed[0].0;
    for at in 1..listed.len() {
        if listed[at].0 != number {
            return at;
        }
    }
    listed.len()
}

// The names of some entries.
fn names_of(alloc: Global, run: &[(usize, TxId)]) -> Result<Vec<TxId>, NoMemory>
    ensures { IfOk result (λ names. names.items ≡ map (λ e. e.1) run.now) }
{
    let mut names = Vec::with_capacity(alloc, run.len())?;
    for entry in run {
        names.push_reserved(entry.1);
    }
    Ok(names)
}

// Takes one of the most names out of some clusters.
fn take_largest<const W: usize>(clusters: &mut Vec<Record<W>>) -> Option<Record<W>>
    requires { W ≤ 2 }
    ensures { IsPermutation {X = records.Cluster} clusters.old.items (clusters.new.items ++ option_to_list result) }
{
    if clusters.is_empty() {
        return None;
    }
    let last = clusters.len() - 1;
    let place = largest(clusters.as_slice());
    clusters.swap(place, last);
    clusters.pop()
}

// The place of one of the most names.
fn largest<const W: usize>(clusters: &[Record<W>]) -> usize
    requires narrow { W ≤ 2 }
    requires some { 1 ≤ length clusters.now }
    ensures place { result < length clusters.now }
    ensures most { All (λ c. length c.names ≤ length (slice_index_or clusters.now result c).names) clusters.now }
{
    let mut best = 0;
    for i in 0..clusters.len() {
        if clusters[best].names().len() < clusters[i].names().len() {
            best = i;
        }
    }
    best
}
