ghost use Rattle.std.specs.Prelude.{◌≡◌, length, map, IfOk};
ghost use Rattle.places.specs.Chains.{AreChains, AreWithin, turned};
ghost use Rattle.links.specs.Ways.{AreWays};

use outside::NoMemory;
use places::{Chains, linked};
use std::alloc::Global;

/// Steps (to, from) between places.
#[derive(Drop)]
pub(crate) struct Ways {
    pub(crate) steps: Vec<(usize, usize)>,
    pub(crate) chains: Chains,
}

/// The ways along steps between this many places.
pub(crate) fn ways_of(
    alloc: Global,
    count: usize,
    steps: Vec<(usize, usize)>,
) -> Result<Ways, NoMemory>
    requires { AreWithin count steps.items }
    ensures ways { IfOk result (AreWays count) }
    ensures steps { IfOk result (λ ways. ways.steps.items ≡ steps.items) }
{
    let chains = linked(alloc, count, steps.as_slice())?;
    Ok(Ways { steps, chains })
}

/// The steps the other way.
pub(crate) fn turned_steps(
    alloc: Global,
    steps: &[(usize, usize)],
) -> Result<Vec<(usize, usize)>, NoMemory>
    ensures { IfOk result (λ list. list.items ≡ map turned steps.now) }
{
    let mut list = Vec::with_capacity(alloc, steps.len())?;
    for step in steps {
        list.push((step.1, step.0))?;
    }
    Ok(list)
}
