//! Records that are made of others and of transactions that come in with dependencies.
ghost use Rattle.std.specs.Prelude.{◌≡◌, ◌≢◌, ◌++◌, ℕ, ◌*◌, ◌≤◌, [], false, length, All, IfErr, IfOk, OnOk, MatchOption};
ghost use Rattle.fee_rate.specs.declared.limits.TheConstants.{MAX_TOTAL};
ghost use Rattle.graph_model.specs.declared.names.Refusal.TheVariants.{Memory};
ghost use Rattle.cluster.specs.Changes.{IsSplit};
ghost use Rattle.links.specs.Links.{AreLinks};
ghost use Rattle.links.specs.Closing.{closure};
ghost use Rattle.record.specs.Kept.{unordered};
ghost use Rattle.record.specs.Leaving.{GrowsFor, IsOneComponent, IsWideFor};
ghost use Rattle.record.specs.Records.{IsFitted, IsOver};
ghost use Rattle.record.specs.Restoring.{BringsNoneOver, BringsOver, FindsOver, PutsBehind, TellsOver};

use crate::kept::Kept;
use crate::leaving::{read_all, records_of};
use crate::over::links_of;
use crate::record::{Record, size_of};
use component::Work;
use graph_model::{Limits, Refusal};
use graphs::TxId;
use links::Links;
use outside::NoMemory;
use std::alloc::Global;
use step_count::{Ledger, Steps};

impl<const W: usize> Record<W> {
    /// Puts the names of this record, with their fees in satoshis and sizes in virtual bytes, behind other transactions, and pairs
    /// (parent, child) that make its ancestors behind other pairs: of a record with an order the parents of each name with no third name
    /// between, of one without its dependencies. The record stays as it is.
    pub fn put_behind(
        &self,
        alloc: Global,
        txs: &mut Vec<(TxId, i64, u64)>,
        pairs: &mut Vec<(TxId, TxId)>,
    ) -> Result<(), NoMemory>
        requires { W ≤ 2 }
        ensures { OnOk result (PutsBehind self.now txs.old.items pairs.old.items txs.new.items pairs.new.items) }
    {
        match &self.kept {
            Kept::Within(component) => {
                let links = links_of(alloc, component)?;
                put_links(&links, txs, pairs)
            }
            Kept::Over(over) => put_links(&over.links, txs, pairs),
        }
    }

    /// Makes the records of the components of links. Each that is within the limits has its order, and each that is over them has none.
    /// For those within the limits the solver takes at most the sum of 2·(n+2)^5 steps over components of n names, and for the others
    /// none.
    ///
    /// # Errors
    ///
    /// - [`Refusal::Count`], else [`Refusal::ClusterSize`]: no component may be over the limits, and one is. Of the first name whose
    ///   component is, it tells the number of the component's names where that is over, and else their total size. The solver takes no
    ///   step.
    /// - [`Refusal::Memory`]: there is no memory.
    pub fn all_of<L: Ledger>(
        alloc: Global,
        links: &Links,
        limits: &Limits,
        work: &mut Work<W>,
        steps: &mut Steps<L>,
    ) -> Result<Vec<Record<W>>, Refusal>
        requires wide { IsWideFor W limits.now }
        requires total { length links.now.txs ≤ MAX_TOTAL }
        ensures split { IfOk result (λ all. IsSplit (closure links.now) [] all.items) }
        ensures fitted { IfOk result (λ all. All (IsFitted (64 * W) limits.now) all.items) }
        ensures within { IfOk result (λ all. limits.now.defer ≡ false → BringsNoneOver limits.now links.now) }
        ensures over { IfErr result (λ why. why ≢ Memory → BringsOver limits.now links.now why × (steps.new ≡ steps.old)) }
        ensures steps { GrowsFor limits.now (closure links.now) [] steps.old steps.new }
    {
        let _txs = links.txs();
        let Ok(parts) = links.components(alloc) else {
            return Err(Refusal::Memory);
        };
        read_all(parts.as_slice());
        if let Some(why) = refused_over(parts.as_slice(), limits) {
            return Err(why);
        }
        match records_of(alloc, parts, limits, work, steps) {
            Ok(all) => Ok(all),
            Err(NoMemory) => Err(Refusal::Memory),
        }
    }
}

// Puts the transactions and the pairs of links behind others.
fn put_links(
    links: &Links,
    txs: &mut Vec<(TxId, i64, u64)>,
    pairs: &mut Vec<(TxId, TxId)>,
) -> Result<(), NoMemory>
    ensures put { OnOk result ((txs.new.items ≡ txs.old.items ++ links.now.txs) × (pairs.new.items ≡ pairs.old.items ++ links.now.pairs)) }
    ensures whole { AreLinks links.now }
{
    let own = links.txs();
    txs.extend_from_slice(own)?;
    pairs.extend_from_slice(links.pairs())?;
    Ok(())
}

// Where no component may be over the limits, the refusal of the first of some components that is.
fn refused_over(parts: &[Links], limits: &Limits) -> Option<Refusal>
    requires { All IsOneComponent parts.now }
    ensures { FindsOver limits.now parts.now result }
{
    if limits.defer {
        return None;
    }
    for at in 0..parts.len() {
        if let Some(why) = refused_part(&parts[at], limits) {
            return Some(why);
        }
    }
    None
}

// The refusal of a component that is over the limits, by its names where they are too many, and else by their total size.
fn refused_part(part: &Links, limits: &Limits) -> Option<Refusal>
    requires { IsOneComponent part.now }
    ensures { MatchOption result (IsOver limits.now (unordered part.now) → ⊥) (TellsOver limits.now part.now) }
{
    let count = part.txs().len() as u64;
    if count > limits.count {
        return Some(Refusal::Count(count));
    }
    let size = size_of(part.txs());
    if size > limits.size {
        return Some(Refusal::ClusterSize(size));
    }
    None
}
