ghost use Rattle.std.specs.Prelude.{◌≡◌, IfOk};
ghost use Rattle.lists.specs.Distinct.{AreDistinct};
ghost use Rattle.links.specs.Links.{AreAmong};
ghost use Rattle.links.specs.Kept.{AreMaps, names_of, ways_to};

use crate::ways::{Ways, turned_steps, ways_of};
use graphs::{Kin, TxId};
use outside::NoMemory;
use places::{Places, places_of, steps_of};
use std::alloc::Global;

/// What walks look up: the place of each name, and the steps between places.
#[derive(Drop)]
pub(crate) struct Maps {
    pub(crate) places: Places,
    /// The steps from children to their parents.
    pub(crate) up: Ways,
    /// The steps from parents to their children.
    pub(crate) down: Ways,
}

impl Maps {
    /// The steps that lead to ancestors, or to descendants.
    pub(crate) fn ways_to(&self, kin: Kin) -> &Ways
        ensures { result.now ≡ ways_to kin self.now }
    {
        match kin {
            Kin::Ancestors => &self.up,
            Kin::Descendants => &self.down,
        }
    }
}

/// What walks look up for these transactions and pairs.
pub(crate) fn maps_of(
    alloc: Global,
    txs: &[(TxId, i64, u64)],
    pairs: &[(TxId, TxId)],
) -> Result<Maps, NoMemory>
    requires once { AreDistinct (names_of txs.now) }
    requires among { AreAmong (names_of txs.now) pairs.now }
    ensures { IfOk result (AreMaps txs.now pairs.now) }
{
    let places = places_of(alloc, txs)?;
    let steps = steps_of(alloc, &places, pairs)?;
    let back = turned_steps(alloc, steps.as_slice())?;
    let up = ways_of(alloc, txs.len(), steps)?;
    let down = ways_of(alloc, txs.len(), back)?;
    Ok(Maps { places, up, down })
}
