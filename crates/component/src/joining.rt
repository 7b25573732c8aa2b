ghost use Rattle.std.specs.Prelude.{◌≡◌, ◌+◌, ◌*◌, ◌<◌, ◌≤◌, ◌++◌, length, IfOk};
ghost use Rattle.cluster.specs.Clusters.{IsCluster, AreApart};
ghost use Rattle.cluster.specs.Changes.{Joins, AreAcross};
ghost use Rattle.cluster.specs.Steps.{GrowsWithin, most_steps};

use crate::component::Component;
use crate::width::NARROW;
use crate::work::Work;
use cluster::Cluster;
use graphs::TxId;
use outside::NoMemory;
use std::alloc::Global;
use step_count::{Ledger, Steps};

/// Makes one component of two clusters of one word, in which `child` depends on `parent`. Where they have more than 64 names
/// together, both are widened first.
pub(crate) fn narrow_joined<L: Ledger, const W: usize>(
    alloc: Global,
    first: &Cluster<1>,
    second: &Cluster<1>,
    parent: TxId,
    child: TxId,
    work: &mut Work<W>,
    steps: &mut Steps<L>,
) -> Result<Component<W>, NoMemory>
    requires few { length first.now.names + length second.now.names ≤ 64 * W }
    requires apart { AreApart first.now second.now }
    requires across { AreAcross first.now.names second.now.names parent child }
    ensures names { IfOk result (λ c. c.names ≡ first.now.names ++ second.now.names) }
    ensures graph { IfOk result (λ c. Joins first.now.graph second.now.graph parent child c.graph) }
    ensures whole { IfOk result (IsCluster (64 * W)) }
    ensures steps { GrowsWithin (most_steps (length first.now.names + length second.now.names)) steps.old steps.new }
{
    if first.names().len() + second.names().len() <= NARROW {
        let joined = first.joined(alloc, second, parent, child, &mut *work.narrow, steps)?;
        return Ok(Component::narrow(joined));
    }
    let second = second.resized::<W>(alloc)?;
    first_widened(alloc, first, &second, parent, child, work, steps)
}

/// Makes one component of two clusters of W words with more than 64 names together, in which `child` depends on `parent`.
pub(crate) fn wide_joined<L: Ledger, const W: usize>(
    alloc: Global,
    first: &Cluster<W>,
    second: &Cluster<W>,
    parent: TxId,
    child: TxId,
    work: &mut Work<W>,
    steps: &mut Steps<L>,
) -> Result<Component<W>, NoMemory>
    requires large { 64 < length first.now.names + length second.now.names }
    requires few { length first.now.names + length second.now.names ≤ 64 * W }
    requires apart { AreApart first.now second.now }
    requires across { AreAcross first.now.names second.now.names parent child }
    ensures names { IfOk result (λ c. c.names ≡ first.now.names ++ second.now.names) }
    ensures graph { IfOk result (λ c. Joins first.now.graph second.now.graph parent child c.graph) }
    ensures whole { IfOk result (IsCluster (64 * W)) }
    ensures steps { GrowsWithin (most_steps (length first.now.names + length second.now.names)) steps.old steps.new }
{
    let joined = first.joined(alloc, second, parent, child, &mut *work.wide, steps)?;
    Component::wide(alloc, joined)
}

/// Makes one component of two clusters with more than 64 names together, of which the first has one word.
pub(crate) fn first_widened<L: Ledger, const W: usize>(
    alloc: Global,
    first: &Cluster<1>,
    second: &Cluster<W>,
    parent: TxId,
    child: TxId,
    work: &mut Work<W>,
    steps: &mut Steps<L>,
) -> Result<Component<W>, NoMemory>
    requires large { 64 < length first.now.names + length second.now.names }
    requires few { length first.now.names + length second.now.names ≤ 64 * W }
    requires apart { AreApart first.now second.now }
    requires across { AreAcross first.now.names second.now.names parent child }
    ensures names { IfOk result (λ c. c.names ≡ first.now.names ++ second.now.names) }
    ensures graph { IfOk result (λ c. Joins first.now.graph second.now.graph parent child c.graph) }
    ensures whole { IfOk result (IsCluster (64 * W)) }
    ensures steps { GrowsWithin (most_steps (length first.now.names + length second.now.names)) steps.old steps.new }
{
    let _wide = &work.wide;
    let first = first.resized::<W>(alloc)?;
    wide_joined(alloc, &first, second, parent, child, work, steps)
}

/// Makes one component of two clusters with more than 64 names together, of which the second has one word.
pub(crate) fn second_widened<L: Ledger, const W: usize>(
    alloc: Global,
    first: &Cluster<W>,
    second: &Cluster<1>,
    parent: TxId,
    child: TxId,
    work: &mut Work<W>,
    steps: &mut Steps<L>,
) -> Result<Component<W>, NoMemory>
    requires large { 64 < length first.now.names + length second.now.names }
    requires few { length first.now.names + length second.now.names ≤ 64 * W }
    requires apart { AreApart first.now second.now }
    requires across { AreAcross first.now.names second.now.names parent child }
    ensures names { IfOk result (λ c. c.names ≡ first.now.names ++ second.now.names) }
    ensures graph { IfOk result (λ c. Joins first.now.graph second.now.graph parent child c.graph) }
    ensures whole { IfOk result (IsCluster (64 * W)) }
    ensures steps { GrowsWithin (most_steps (length first.now.names + length second.now.names)) steps.old steps.new }
{
    let _wide = &work.wide;
    let second = second.resized::<W>(alloc)?;
    wide_joined(alloc, first, &second, parent, child, work, steps)
}
