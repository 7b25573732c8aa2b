ghost use Rattle.std.specs.Prelude.{◌≡◌, ◌<◌, ◌⊎◌, ◌↔◌, ℕ, length, Contains, All, IsTrue, IfOk, OnOk};
ghost use Rattle.trimming.specs.Nets.{IsNet, IsParent};
ghost use Rattle.trimming.specs.Counts.{ArePassed, HasAllKept};

use crate::net::Net;
use outside::NoMemory;
use std::alloc::Global;
use std::collections::BTreeSet;

/// The candidates, and what tells when a place becomes one.
#[derive(Drop)]
pub(crate) struct Counts {
    /// For each place so many of its parents, from the first on, are kept.
    pub(crate) passed: Vec<usize>,
    /// The places that weren't looked at, and whose parents are all kept.
    pub(crate) ready: BTreeSet<usize>,
}

/// The candidates while no place is kept: those without parents.
pub(crate) fn first_counts(alloc: Global, net: &Net) -> Result<Counts, NoMemory>
    requires { IsNet net.now }
    ensures passed { IfOk result (λ counts. (length counts.passed.items ≡ length net.now.txs.items) × All (λ count. count ≡ 0) counts.passed.items) }
    ensures ready { IfOk result (λ counts. (place : ℕ) → Contains counts.ready.keys place
        ↔ ((place < length net.now.txs.items) × ((a : ℕ) → IsParent net.now a place → ⊥))) }
{
    let mut ready = BTreeSet::new(alloc);
    for place in 0..net.parents.len() {
        offer(&mut ready, place, net.parents[place].is_empty())?;
    }
    Ok(Counts {
        passed: vec![in alloc; 0; net.parents.len()]?,
        ready,
    })
}

/// Goes on with the counts of the children of a place that is kept now, and makes candidates of those whose parents are all kept.
pub(crate) fn release(
    net: &Net,
    kept: &[bool],
    counts: &mut Counts,
    place: usize,
) -> Result<(), NoMemory>
    requires net { IsNet net.now }
    requires kept { length kept.now ≡ length net.now.txs.items }
    requires passed { ArePassed net.now kept.now counts.old.passed.items }
    requires place { place < length net.now.txs.items }
    ensures passed { OnOk result (ArePassed net.now kept.now counts.new.passed.items) }
    ensures ready { OnOk result ((x : ℕ) → Contains counts.new.ready.keys x
        ↔ (Contains counts.old.ready.keys x ⊎ (IsParent net.now place x × HasAllKept net.now kept.now x))) }
{
    for child in net.children[place].as_slice() {
        let all = advance(net, kept, &mut counts.passed, *child);
        offer(&mut counts.ready, *child, all)?;
    }
    Ok(())
}

/// Makes a place a candidate where it fits.
fn offer(ready: &mut BTreeSet<usize>, place: usize, fits: bool) -> Result<(), NoMemory>
    ensures { OnOk result ((x : ℕ) → Contains ready.new.keys x ↔ (Contains ready.old.keys x ⊎ ((x ≡ place) × IsTrue fits))) }
{
    if !fits {
        return Ok(());
    }
    ready.insert(place)?;
    Ok(())
}

/// Goes on with the count of a place. Answers whether all its parents are kept.
fn advance(net: &Net, kept: &[bool], passed: &mut Vec<usize>, place: usize) -> bool
    requires net { IsNet net.now }
    requires kept { length kept.now ≡ length net.now.txs.items }
    requires place { place < length net.now.txs.items }
    requires passed { ArePassed net.now kept.now passed.old.items }
    ensures passed { ArePassed net.now kept.now passed.new.items }
    ensures all { IsTrue result ↔ HasAllKept net.now kept.now place }
{
    let parents = net.parents[place].as_slice();
    let mut count = passed[place];
    while count < parents.len() && kept[parents[count]] {
        count += 1;
    }
    passed[place] = count;
    count == parents.len()
}
