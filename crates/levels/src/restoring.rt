//! Transactions that come into the top level with dependencies, all in one change.
ghost use Rattle.std.specs.Prelude.{◌≡◌, ◌≢◌, ◌⊎◌, ◌↔◌, ℕ, ◌+◌, ◌-◌, ◌^◌, ◌≤◌, false, true, None, Some, List, [], length, nat_eq, Contains, IfErr, IfOk, OnOk, OnErr, IsSome, MatchResult};
ghost use Rattle.std.specs.FinMap as finmap;
ghost use Rattle.std.specs.FinSet as set;
ghost use Rattle.std.specs.HashSet as bag;
ghost use Rattle.lists.specs.Distinct.{AreDistinct};
ghost use Rattle.fee_rate.specs.declared.limits.TheConstants.{MAX_TOTAL};
ghost use Rattle.graphs.specs.declared.names.Level.TheVariants.{Top};
ghost use Rattle.graph_model.specs.declared.names.Refusal.TheVariants.{Memory};
ghost use Rattle.graph_model.specs.Changes.{ids_of};
ghost use Rattle.name_book.specs.Books.{IsNamed};
ghost use Rattle.levels.specs.Gathered.{AreHere, AreMet, ComesBack, GainsAll, Gathers, HasMore, HasNames, KeepsPair, ListsSet, MayReturn, PutsAll, RestoresTop};
ghost use Rattle.levels.specs.Kept.{SuitsShelf};
ghost use Rattle.levels.specs.Restores.{BringsNoneOver, BringsOver, RestoresWithin};
ghost use Rattle.levels.specs.Shelves.{IsInOrder, numbers_at, seen_at, view_of};
ghost use Rattle.levels.specs.Views.{graph_of};

use crate::moving::part_all;
use crate::shelves::Shelves;
use component::Work;
use graph_model::{Level, Refusal, TxId};
use links::Links;
use name_book::NameBook;
use outside::NoMemory;
use record::Record;
use std::alloc::Global;
use std::collections::HashSet;
use step_count::{Ledger, Steps};

/// Clusters that get a new parent, by their numbers, and links of their transactions and of those that come in.
#[derive(Drop)]
pub struct Gathered {
    pub outs: Vec<usize>,
    pub links: Links,
}

/// What comes in where transactions come, and the numbers of the clusters in whose place.
#[derive(Drop)]
pub struct Returned<const W: usize> {
    pub outs: Vec<usize>,
    pub news: Vec<Record<W>>,
}

/// Puts transactions that are in no level into both, where there is no staging, with those of the pairs (parent, child) whose child is then
/// there. Where it is refused all stays as it was, but for room that was made.
pub(crate) fn restore<const W: usize, L: Ledger>(
    shelves: &mut Shelves<W>,
    rings: &mut NameBook,
    txs: &[(TxId, i64, u64)],
    pairs: &[(TxId, TxId)],
    work: &mut Work<W>,
    steps: &mut Steps<L>,
) -> Result<(), Refusal>
    requires order { IsInOrder W shelves.old }
    requires right { SuitsShelf rings.old shelves.old }
    requires alone { shelves.old.staging ≡ None }
    requires may { MayReturn shelves.old txs.now pairs.now }
    requires few { set.len rings.old.book.names + length txs.now ≤ MAX_TOTAL }
    requires issued { rings.old.book.issued + length txs.now ≤ 2 ^ 64 - 1 }
    ensures restored { OnOk result (RestoresTop W txs.now pairs.now shelves.old shelves.new) }
    ensures kept { IsInOrder W shelves.new × SuitsShelf rings.new shelves.new }
    ensures names { OnOk result ((set.len rings.new.book.names ≡ set.len rings.old.book.names + length txs.now)
        × (rings.new.book.issued ≡ rings.old.book.issued + length txs.now)) }
    ensures row { MatchResult result
        (λ _. shelves.old.limits.defer ≡ false
        → BringsNoneOver shelves.old.limits (graph_of (view_of Top shelves.old)) txs.now pairs.now)
        (λ why. why ≢ Memory → BringsOver shelves.old.limits (graph_of (view_of Top shelves.old)) txs.now pairs.now why) }
    ensures err { OnErr result ((shelves.new ≡ shelves.old) × (set.len rings.new.book.names ≡ set.len rings.old.book.names)
        × (rings.new.book.issued ≡ rings.old.book.issued)) }
    ensures refused { IfErr result (λ why. why ≢ Memory → steps.new ≡ steps.old) }
    ensures steps { RestoresWithin shelves.old.limits (graph_of (view_of Top shelves.old)) txs.now pairs.now steps.old steps.new }
{
    if rings.reserve(txs.len()).is_err() {
        return Err(Refusal::Memory);
    }
    let Returned { outs, news } = shelves.returned(txs, pairs, work, steps)?;
    let Ok(made) = shelves.rebuild(outs.as_slice(), news, None, 0, &[]) else {
        return Err(Refusal::Memory);
    };
    add_all(rings, txs);
    part_all(rings, shelves, made.rest.as_slice());
    Ok(())
}

// Adds the names of transactions to the rings, each alone.
fn add_all(rings: &mut NameBook, txs: &[(TxId, i64, u64)])
    requires absent { (id : ℕ) → Contains (ids_of txs.now) id → IsNamed rings.old.book id → ⊥ }
    requires once { AreDistinct (ids_of txs.now) }
    requires spare { length txs.now ≤ rings.old.book.spare }
    requires issued { rings.old.book.issued + length txs.now ≤ 2 ^ 64 - 1 }
    ensures { GainsAll (ids_of txs.now) rings.old rings.new }
{
    for tx in txs {
        rings.add(tx.0, false);
    }
}

impl<const W: usize> Shelves<W> {
    // What comes in where transactions come into the top level.
    fn returned<L: Ledger>(
        &self,
        txs: &[(TxId, i64, u64)],
        pairs: &[(TxId, TxId)],
        work: &mut Work<W>,
        steps: &mut Steps<L>,
    ) -> Result<Returned<W>, Refusal>
        requires order { IsInOrder W self.now }
        requires may { MayReturn self.now txs.now pairs.now }
        ensures comes { IfOk result (λ back. ComesBack W txs.now pairs.now back.outs.items back.news.items self.now) }
        ensures row { MatchResult result
            (λ _. self.now.limits.defer ≡ false → BringsNoneOver self.now.limits (graph_of (view_of Top self.now)) txs.now pairs.now)
            (λ why. why ≢ Memory → BringsOver self.now.limits (graph_of (view_of Top self.now)) txs.now pairs.now why) }
        ensures refused { IfErr result (λ why. why ≢ Memory → steps.new ≡ steps.old) }
        ensures steps { RestoresWithin self.now.limits (graph_of (view_of Top self.now)) txs.now pairs.now steps.old steps.new }
    {
        let Ok(found) = self.gathered(txs, pairs) else {
            return Err(Refusal::Memory);
        };
        let Gathered { outs, links } = found;
        let news = Record::all_of(self.alloc, &links, &self.limits, work, steps)?;
        Ok(Returned { outs, news })
    }

    // The clusters that get a new parent, and links of them and of the transactions.
    fn gathered(
        &self,
        txs: &[(TxId, i64, u64)],
        pairs: &[(TxId, TxId)],
    ) -> Result<Gathered, NoMemory>
        requires order { IsInOrder W self.now }
        requires may { MayReturn self.now txs.now pairs.now }
        ensures { IfOk result (λ found. Gathers self.now txs.now pairs.now found.outs.items found.links) }
    {
        let outs = self.numbers_met(pairs)?;
        let mut between = self.pairs_here(txs, pairs)?;
        let mut all = Vec::from_slice(self.alloc, txs)?;
        self.put_all(outs.as_slice(), &mut all, &mut between)?;
        let links = Links::new(self.alloc, all.as_slice(), between.as_slice())?;
        let _txs = links.txs();
        Ok(Gathered { outs, links })
    }

    // Puts the transactions and pairs of clusters of the top level behind others.
    fn put_all(
        &self,
        outs: &[usize],
        txs: &mut Vec<(TxId, i64, u64)>,
        pairs: &mut Vec<(TxId, TxId)>,
    ) -> Result<(), NoMemory>
        requires order { IsInOrder W self.now }
        requires there { (n : ℕ) → Contains outs.now n → IsSome (seen_at Top self.now.store.clusters n) }
        ensures { OnOk result (PutsAll self.now outs.now txs.old.items pairs.old.items txs.new.items pairs.new.items) }
    {
        for number in outs {
            self.at(*number).put_behind(self.alloc, txs, pairs)?;
        }
        Ok(())
    }

    // The numbers of the clusters of the top level that have a child of some pair, each once.
    fn numbers_met(&self, pairs: &[(TxId, TxId)]) -> Result<Vec<usize>, NoMemory>
        ensures { IfOk result (λ outs. AreMet self.now pairs.now outs.items) }
    {
        let mut seen = HashSet::new(self.alloc);
        let mut outs = Vec::new(self.alloc);
        for pair in pairs {
            self.meet(&mut seen, &mut outs, pair.1)?;
        }
        Ok(outs)
    }

    // Puts the number of the cluster of a name behind others, where the top level has the name and the number isn't among them.
    fn meet(
        &self,
        seen: &mut HashSet<usize>,
        outs: &mut Vec<usize>,
        child: TxId,
    ) -> Result<(), NoMemory>
        requires { ListsSet (bag.contains nat_eq seen.old) outs.old.items }
        ensures lists { OnOk result (ListsSet (bag.contains nat_eq seen.new) outs.new.items) }
        ensures more { OnOk result (HasMore outs.old.items outs.new.items (finmap.get (numbers_at Top self.now) child)) }
    {
        if let Some(number) = self.number(Level::Top, child) {
            if seen.insert(number)? {
                outs.push(number)?;
            }
        }
        Ok(())
    }

    // The pairs whose child is one of the transactions or in the top level.
    fn pairs_here(
        &self,
        txs: &[(TxId, i64, u64)],
        pairs: &[(TxId, TxId)],
    ) -> Result<Vec<(TxId, TxId)>, NoMemory>
        ensures { IfOk result (λ here. AreHere self.now txs.now pairs.now here.items) }
    {
        let names = names_of(self.alloc, txs)?;
        let mut here = Vec::with_capacity(self.alloc, pairs.len())?;
        for pair in pairs {
            self.keep(&names, &mut here, *pair)?;
        }
        Ok(here)
    }

    // Puts a pair behind others, where its child is one of some names or in the top level.
    fn keep(
        &self,
        names: &HashSet<TxId>,
        here: &mut Vec<(TxId, TxId)>,
        pair: (TxId, TxId),
    ) -> Result<(), NoMemory>
        ensures { OnOk result (KeepsPair self.now (bag.contains nat_eq names.now) here.old.items here.new.items pair.0 pair.1) }
    {
        if names.contains(&pair.1) || self.number(Level::Top, pair.1).is_some() {
            here.push(pair)?;
        }
        Ok(())
    }
}

// The names of transactions as a set.
fn names_of(alloc: Global, txs: &[(TxId, i64, u64)]) -> Result<HashSet<TxId>, NoMemory>
    ensures { IfOk result (λ names. HasNames (bag.contains nat_eq names) (ids_of txs.now)) }
{
    let mut names = HashSet::with_capacity(alloc, txs.len())?;
    for tx in txs {
        names.insert(tx.0)?;
    }
    Ok(names)
}
