//! The components that names of a level lie in, and the ancestors or descendants of names together. Nothing takes memory.
//!
//! The names are put side by side by the numbers of their clusters first, so that each cluster is looked at once.
ghost use Rattle.std.specs.Prelude.{◌≡◌, ◌≢◌, ℕ, ◌+◌, ◌<◌, ◌≤◌, ◌++◌, [], Some, List, length, take, slice_index, option_to_list, All, Contains, IfErr, IfOk};
ghost use Rattle.std.specs.FinMap as finmap;
ghost use Rattle.std.specs.List.Sorted.{IsPermutation};
ghost use Rattle.graphs.specs.Graphs.{Lists};
ghost use Rattle.graphs.specs.Unions.{IsKinOfSome, PutsBehind};
ghost use Rattle.levels.specs.Shelves.{HaveFew, IsInOrder, numbers_at, one_of};
ghost use Rattle.levels.specs.Unions.{AreGrouped, IsFirstRun, LieUnder, key_in, names_under};

use crate::shelves::Shelves;
use graph_model::{Level, TxId};
use graphs::{IdBuf, Kin};

/// The first names of some that stand side by side, all of one cluster or of none.
#[derive(Clone, Copy)]
pub struct Run<'a> {
    /// The number of their cluster, or `None` where the level hasn't these names.
    pub number: Option<usize>,
    pub ids: &'a [TxId],
    /// The names behind them.
    pub rest: &'a [TxId],
}

impl<const W: usize> Shelves<W> {
    /// How many clusters of a level these names lie in. The names are put into another order.
    pub(crate) fn count_clusters(&self, level: Level, ids: &mut [TxId]) -> usize
        requires order { IsInOrder W self.now }
        requires few { HaveFew self.now }
        ensures ids { IsPermutation ids.old ids.new }
        ensures count { (numbers : List ℕ) × LieUnder level self.now ids.old numbers × (result ≡ length numbers) }
    {
        self.group(level, ids);
        let (clusters, _names) = self.measure(level, ids);
        clusters
    }

    /// Leaves in `out` the ancestors, or the descendants, of these names, in rising order. Where `out` may not have room for them, it stays
    /// as it was, and the error is how many names the clusters of these have. The names are put into another order.
    pub(crate) fn kin(
        &mut self,
        level: Level,
        ids: &mut [TxId],
        kin: Kin,
        out: &mut IdBuf,
    ) -> Result<(), usize>
        requires order { IsInOrder W self.old }
        requires few { HaveFew self.old }
        ensures ids { IsPermutation ids.old ids.new }
        ensures lists { IfOk result (λ _. Lists (IsKinOfSome kin (one_of level self.old).graph ids.old) out.new.ids) }
        ensures room { length out.new.ids + out.new.room ≡ length out.old.ids + out.old.room }
        ensures err { IfErr result (λ needs. (out.new ≡ out.old) × (length out.old.ids + out.old.room < needs)) }
        ensures needs { IfErr result (λ needs. (numbers : List ℕ) × LieUnder level self.old ids.old numbers
            × (needs ≡ length (names_under level self.old numbers))) }
        ensures same { self.new ≡ self.old }
    {
        self.group(level, ids);
        let (_clusters, names) = self.measure(level, ids);
        if names > out.capacity() {
            return Err(names);
        }
        out.clear();
        self.add_all(level, ids, kin, out);
        out.sort();
        Ok(())
    }

    // Puts names of one cluster side by side.
    fn group(&self, level: Level, ids: &mut [TxId])
        ensures same { IsPermutation ids.old ids.new }
        ensures grouped { AreGrouped (numbers_at level self.now) ids.new }
    {
        ids.sort_unstable_by_key(
            |id: &TxId| -> u128
                ensures key { result ≡ key_in (numbers_at level self.entry.now) id.now }
                ensures same { self.exit ≡ self.entry }
            { self.key(level, *id) },
        );
    }

    // Names of one cluster have one key.
    fn key(&self, level: Level, id: TxId) -> u128
        ensures { result ≡ key_in (numbers_at level self.now) id }
    {
        match self.number(level, id) {
            Some(number) => number as u128 + 1,
            None => 0,
        }
    }

    // The first of some names that stand side by side.
    fn first_run<'a>(&self, level: Level, ids: &'a [TxId]) -> Run<'a>
        requires some { 0 < length ids.now }
        requires grouped { AreGrouped (numbers_at level self.now) ids.now }
        ensures { IsFirstRun (numbers_at level self.now) ids.now result.ids.now result.rest.now result.number }
    {
        let number = self.number(level, ids[0]);
        let (run, rest) = ids.split_at(self.run_length(level, number, ids));
        Run {
            number,
            ids: run,
            rest,
        }
    }

    // How many names, from the first, are of the cluster of a number, or of none.
    fn run_length(&self, level: Level, number: Option<usize>, ids: &[TxId]) -> usize
        ensures within { result ≤ length ids.now }
        ensures run { All (λ id. finmap.get (numbers_at level self.now) id ≡ number) (take result ids.now) }
        ensures last { result < length ids.now → finmap.get (numbers_at level self.now) (slice_index ids.now result) ≢ number }
    {
        let mut at = 0;
        while at < ids.len() && self.number(level, ids[at]) == number {
            at += 1;
        }
        at
    }

    // How many clusters names lie in that stand side by side, and how many names these clusters have.
    fn measure(&self, level: Level, ids: &[TxId]) -> (usize, usize)
        requires order { IsInOrder W self.now }
        requires few { HaveFew self.now }
        requires grouped { AreGrouped (numbers_at level self.now) ids.now }
        ensures { (numbers : List ℕ) × LieUnder level self.now ids.now numbers × (result.0 ≡ length numbers)
            × (result.1 ≡ length (names_under level self.now numbers)) }
    {
        let mut clusters = 0;
        let mut names = 0;
        let mut left = ids;
        while !left.is_empty() {
            let run = self.first_run(level, left);
            let (one, many) = self.sizes(level, run);
            clusters += one;
            names += many;
            left = run.rest;
        }
        (clusters, names)
    }

    // One cluster and how many names it has, or none.
    fn sizes(&self, level: Level, run: Run<'_>) -> (usize, usize)
        requires order { IsInOrder W self.now }
        requires run { IsFirstRun (numbers_at level self.now) (run.ids.now ++ run.rest.now) run.ids.now run.rest.now run.number }
        ensures one { result.0 ≡ length (option_to_list run.entry.number) }
        ensures many { result.1 ≡ length (names_under level self.now (option_to_list run.entry.number)) }
    {
        match run.number {
            Some(number) => (1, self.at(number).names().len()),
            None => (0, 0),
        }
    }

    // Puts behind an empty list the ancestors, or the descendants, of names that stand side by side.
    fn add_all(&mut self, level: Level, ids: &[TxId], kin: Kin, out: &mut IdBuf)
        requires order { IsInOrder W self.old }
        requires grouped { AreGrouped (numbers_at level self.old) ids.now }
        requires empty { out.old.ids ≡ [] }
        requires room { (numbers : List ℕ) × LieUnder level self.old ids.now numbers
            × (length (names_under level self.old numbers) ≤ out.old.room) }
        ensures adds { PutsBehind (IsKinOfSome kin (one_of level self.old).graph ids.now) [] out.new.ids }
        ensures room { length out.new.ids + out.new.room ≡ out.old.room }
        ensures same { self.new ≡ self.old }
    {
        let mut left = ids;
        while !left.is_empty() {
            let run = self.first_run(level, left);
            self.add_run(level, run, kin, out);
            left = run.rest;
        }
    }

    // Puts behind a list those of names of one cluster; names of none have none.
    fn add_run(&mut self, level: Level, run: Run<'_>, kin: Kin, out: &mut IdBuf)
        requires order { IsInOrder W self.old }
        requires run { IsFirstRun (numbers_at level self.old) (run.ids.now ++ run.rest.now) run.ids.now run.rest.now run.number }
        requires room { length (names_under level self.old (option_to_list run.number)) ≤ out.old.room }
        ensures adds { PutsBehind (IsKinOfSome kin (one_of level self.old).graph run.entry.ids.now) out.old.ids out.new.ids }
        ensures few { length out.new.ids ≤ length out.old.ids + length (names_under level self.old (option_to_list run.entry.number)) }
        ensures room { length out.new.ids + out.new.room ≡ length out.old.ids + out.old.room }
        ensures same { self.new ≡ self.old }
    {
        if let Some(number) = run.number {
            self.add_kin(number, run.ids, kin, out);
        }
    }
}
