//! What is left of a component without some names: records of its components.
ghost use Rattle.std.specs.Prelude.{◌≡◌, ◌*◌, ◌≤◌, [], length, map, All, Contains, IfOk};
ghost use Rattle.fee_rate.specs.declared.limits.TheConstants.{MAX_TOTAL};
ghost use Rattle.cluster.specs.Changes.{AreComponents, IsSplit};
ghost use Rattle.cluster.specs.Steps.{GrowsWithin};
ghost use Rattle.links.specs.Links.{AreLinks};
ghost use Rattle.links.specs.Links.{Links as links_value};
ghost use Rattle.links.specs.Closing.{closure};
ghost use Rattle.record.specs.Leaving.{AreLike, GrowsFor, IsOneComponent, IsWideFor, most_steps_of_links};
ghost use Rattle.record.specs.Records.{IsFitted};

use crate::record::Record;
use component::{Component, Work};
use graph_model::Limits;
use links::Links;
use outside::NoMemory;
use std::alloc::Global;
use step_count::{Ledger, Steps};

/// The records of components with their orders.
pub(crate) fn all_within<const W: usize>(
    alloc: Global,
    components: Vec<Component<W>>,
) -> Result<Vec<Record<W>>, NoMemory>
    requires { W ≤ 64 }
    ensures { IfOk result (λ all. all.items ≡ components.entry.items) }
{
    let mut records = Vec::new(alloc);
    for component in components {
        records.push(Record::within(component))?;
    }
    Ok(records)
}

/// The records of the components of links. Each has its order where it is within the limits.
pub(crate) fn split_up<const W: usize, L: Ledger>(
    alloc: Global,
    links: &Links,
    limits: &Limits,
    work: &mut Work<W>,
    steps: &mut Steps<L>,
) -> Result<Vec<Record<W>>, NoMemory>
    requires wide { IsWideFor W limits.now }
    requires total { length links.now.txs ≤ MAX_TOTAL }
    ensures split { IfOk result (λ all. IsSplit (closure links.now) [] all.items) }
    ensures fitted { IfOk result (λ all. All (IsFitted (64 * W) limits.now) all.items) }
    ensures components { IfOk result (λ all. AreComponents (closure links.now) [] (map (λ c. c.names) all.items)) }
    ensures steps { GrowsFor limits.now (closure links.now) [] steps.old steps.new }
{
    let _txs = links.txs();
    let parts = links.components(alloc)?;
    read_all(parts.as_slice());
    records_of(alloc, parts, limits, work, steps)
}

/// What holds of each of these links.
pub(crate) fn read_all(parts: &[Links])
    ensures { (part : links_value) → Contains parts.now part → AreLinks part }
{
    for at in 0..parts.len() {
        let _txs = parts[at].txs();
    }
}

/// The records of links that are a component each.
pub(crate) fn records_of<const W: usize, L: Ledger>(
    alloc: Global,
    parts: Vec<Links>,
    limits: &Limits,
    work: &mut Work<W>,
    steps: &mut Steps<L>,
) -> Result<Vec<Record<W>>, NoMemory>
    requires wide { IsWideFor W limits.now }
    requires each { All IsOneComponent parts.items }
    ensures like { IfOk result (λ all. AreLike all.items parts.items) }
    ensures fitted { IfOk result (λ all. All (IsFitted (64 * W) limits.now) all.items) }
    ensures steps { GrowsWithin (most_steps_of_links limits.now parts.items) steps.old steps.new }
{
    let mut records = Vec::new(alloc);
    for part in parts {
        let record = Record::of_component(alloc, part, limits, work, steps)?;
        records.push(record)?;
    }
    Ok(records)
}
