//! Readings of a whole level, which gather in lists.
ghost use Rattle.std.specs.Prelude.{◌≡◌, ◌⊎◌, ℕ, ℤ, List};
ghost use Rattle.graph_model.specs.Commands as commands;
ghost use Rattle.tx_graph.specs.Kept.{MakesStep};
ghost use Rattle.desk.specs.Gatherings.{GathersCorners, GathersOrder};

use crate::corners::list_corners;
use crate::listing::{Listing, list_parts};
use crate::telling::Total;
use graph_model::{Level, Refusal};
use graphs::Owned;
use std::alloc::Global;
use tx_graph::TxGraph;

/// The chunks of a level, with their transactions and flows. Refuses where the level is oversized, or where there is no memory.
pub fn gather_order(alloc: Global, graph: &TxGraph<2>, level: Level) -> Result<Listing, Refusal>
    ensures { GathersOrder (MakesStep graph.now graph.now (commands.Order level)) result }
{
    if graph.oversized(level) {
        return Err(Refusal::Oversized);
    }
    match list_parts(alloc, graph.order(level)) {
        Ok(list) => Ok(list),
        Err(_) => Err(Refusal::Memory),
    }
}

/// The corners of a level's diagram. Refuses where the level is oversized, or where there is no memory.
pub fn gather_corners(
    alloc: Global,
    graph: &TxGraph<2>,
    level: Level,
) -> Result<Owned<Total>, Refusal>
    ensures { GathersCorners (MakesStep graph.now graph.now (commands.Diagram level)) result }
{
    if graph.oversized(level) {
        return Err(Refusal::Oversized);
    }
    match list_corners(alloc, graph.diagram(level)) {
        Ok(list) => Ok(Owned::from_vec(list)),
        Err(_) => Err(Refusal::Memory),
    }
}
