ghost use Rattle.std.specs.Prelude.{◌≡◌, ◌≤◌, IfOk};

use crate::component::Component;
use crate::list::Components;
use crate::width::NARROW;
use cluster::Cluster;
use outside::NoMemory;
use std::alloc::Global;

/// The components of clusters of one word.
pub(crate) fn narrow_all<const W: usize>(
    alloc: Global,
    clusters: Vec<Cluster<1>>,
) -> Result<Components<W>, NoMemory>
    requires wide { 1 ≤ W }
    requires narrow { W ≤ 64 }
    ensures { IfOk result (λ all. all ≡ clusters.items) }
{
    let mut components = Vec::new(alloc);
    for cluster in clusters {
        components.push(Component::narrow(cluster))?;
    }
    Ok(Components { components })
}

/// The components of clusters of W words. Those of at most 64 names come back to one word.
pub(crate) fn fitted_all<const W: usize>(
    alloc: Global,
    clusters: Vec<Cluster<W>>,
) -> Result<Components<W>, NoMemory>
    requires wide { 1 ≤ W }
    requires narrow { W ≤ 64 }
    ensures { IfOk result (λ all. all ≡ clusters.entry.items) }
{
    let mut components = Vec::new(alloc);
    for cluster in clusters {
        let component = fitted(alloc, cluster)?;
        components.push(component)?;
    }
    Ok(Components { components })
}

// The component of a cluster of W words, of one word where that has room for its names.
fn fitted<const W: usize>(alloc: Global, cluster: Cluster<W>) -> Result<Component<W>, NoMemory>
    requires wide { 1 ≤ W }
    requires narrow { W ≤ 64 }
    ensures { IfOk result (λ c. c ≡ cluster.entry) }
{
    if cluster.names().len() <= NARROW {
        let narrow = cluster.resized::<1>(alloc)?;
        return Ok(Component::narrow(narrow));
    }
    Component::wide(alloc, cluster)
}
