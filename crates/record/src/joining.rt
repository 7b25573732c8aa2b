//! Two records that become one over the limits.
ghost use Rattle.std.specs.Prelude.{◌≡◌, ◌≤◌, ◌<◌, ◌⊎◌, ◌↔◌, IsTrue, IfOk};
ghost use Rattle.cluster.specs.Changes.{AreAcross};
ghost use Rattle.cluster.specs.Clusters.{AreApart};
ghost use Rattle.record.specs.Changes.{AreJoined};
ghost use Rattle.record.specs.Kept.{unordered};
ghost use Rattle.record.specs.Records.{IsConnected};

use crate::kept::Kept;
use crate::over::links_of;
use crate::record::Record;
use graph_model::Limits;
use graphs::TxId;
use links::Links;
use outside::NoMemory;
use std::alloc::Global;

/// Whether so many names, of this size together in virtual bytes, are over the limits.
pub(crate) fn are_over(limits: &Limits, count: u64, size: u64) -> bool
    ensures { IsTrue result ↔ ((limits.now.count < count) ⊎ (limits.now.size < size)) }
{
    count > limits.count || size > limits.size
}

/// The record of two others without an order, in which `child` depends on `parent`.
pub(crate) fn joined_over<const W: usize>(
    alloc: Global,
    one: &Record<W>,
    other: &Record<W>,
    parent: TxId,
    child: TxId,
) -> Result<Record<W>, NoMemory>
    requires narrow { W ≤ 2 }
    requires apart { AreApart one.now other.now }
    requires across { AreAcross one.now.names other.now.names parent child }
    ensures { IfOk result (AreJoined one.now other.now parent child) }
{
    match &one.kept {
        Kept::Within(component) => {
            let links = links_of(alloc, component)?;
            joined_with(alloc, &links, other, parent, child)
        }
        Kept::Over(over) => joined_with(alloc, &over.links, other, parent, child),
    }
}

// The record of links and another record, in which `child` depends on `parent`.
fn joined_with<const W: usize>(
    alloc: Global,
    one: &Links,
    other: &Record<W>,
    parent: TxId,
    child: TxId,
) -> Result<Record<W>, NoMemory>
    requires narrow { W ≤ 2 }
    requires connected { IsConnected (unordered one.now) }
    requires apart { AreApart (unordered one.now) other.now }
    requires across { AreAcross (unordered one.now).names other.now.names parent child }
    ensures { IfOk result (AreJoined (unordered one.now) other.now parent child) }
{
    match &other.kept {
        Kept::Within(component) => {
            let links = links_of(alloc, component)?;
            joined_links(alloc, one, &links, parent, child)
        }
        Kept::Over(over) => joined_links(alloc, one, &over.links, parent, child),
    }
}

// The record of two links, in which `child` depends on `parent`.
fn joined_links<const W: usize>(
    alloc: Global,
    one: &Links,
    other: &Links,
    parent: TxId,
    child: TxId,
) -> Result<Record<W>, NoMemory>
    requires width { (1 ≤ W) × (W ≤ 64) }
    requires connected { IsConnected (unordered one.now) × IsConnected (unordered other.now) }
    requires apart { AreApart (unordered one.now) (unordered other.now) }
    requires across { AreAcross (unordered one.now).names (unordered other.now).names parent child }
    ensures { IfOk result (AreJoined (unordered one.now) (unordered other.now) parent child) }
{
    let _one = one.txs();
    let _other = other.txs();
    let joined = one.joined(alloc, other, parent, child)?;
    Record::over(alloc, joined)
}
