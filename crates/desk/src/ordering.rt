//! Questions to a graph about the orders of its levels, and readings of it that no command asks for.
ghost use Rattle.std.specs.Prelude.{◌≡◌, map, Contains, IfOk};
ghost use Rattle.graphs.specs.Graphs.{Lists};
ghost use Rattle.graph_model.specs.States.{State, level_of};
ghost use Rattle.tx_graph.specs.Kept.{StandsFor};
ghost use Rattle.tx_graph.specs.Readings.{part_reply};
ghost use Rattle.desk.specs.Copies.{rate_words};
ghost use Rattle.desk.specs.Orders.{GathersCovers, GathersNumbers, GathersSides, IsLastOfMain, SortsByMain, TellsClusters};

use crate::codes::{DONE, OVERSIZED};
use crate::listing::{Groups, list_components, list_covers, list_names, list_numbers, list_rates};
use crate::telling::Rate;
use cluster::PartRef;
use eviction::worst;
use graph_model::{Level, Refusal, TxId};
use graphs::Owned;
use outside::NoMemory;
use std::alloc::Global;
use tx_graph::{Rates, TxGraph};

/// The last chunk of main's order. Refuses where main is over the limits, or empty.
pub fn last_chunk(graph: &TxGraph<2>) -> Result<PartRef<'_>, Refusal>
    ensures { (state : State) → StandsFor graph.now state → IsLastOfMain state (part_reply result) }
{
    if graph.oversized(Level::Main) {
        return Err(Refusal::Oversized);
    }
    match worst(graph) {
        Some(part) => Ok(part),
        None => Err(Refusal::Empty),
    }
}

/// Puts transactions into main's order, where main isn't over the limits.
pub fn sort_ids(graph: &TxGraph<2>, ids: &mut [TxId]) -> u32
    ensures { SortsByMain (StandsFor graph.now) ids.old ids.new result }
{
    if graph.oversized(Level::Main) {
        return OVERSIZED;
    }
    graph.sort_by_main_order(ids);
    DONE
}

/// The fees and sizes of the chunks that main alone has, and of those that staging alone has.
#[derive(Drop)]
pub struct Sides {
    pub main: Owned<Rate>,
    pub staging: Owned<Rate>,
}

/// Two lists of fees and sizes.
fn list_sides(alloc: Global, main: Rates<'_>, staging: Rates<'_>) -> Result<Sides, NoMemory>
    ensures { IfOk result (λ sides. (sides.main ≡ map rate_words main.entry) × (sides.staging ≡ map rate_words staging.entry)) }
{
    let first = list_rates(alloc, main)?;
    let second = list_rates(alloc, staging)?;
    Ok(Sides {
        main: Owned::from_vec(first),
        staging: Owned::from_vec(second),
    })
}

/// The two sides of a replacement. Refuses as a comparison is refused, or where there is no memory.
pub fn gather_sides(alloc: Global, graph: &TxGraph<2>) -> Result<Sides, Refusal>
    ensures { GathersSides (StandsFor graph.now) result }
{
    if !graph.staged() {
        return Err(Refusal::NoStaging);
    }
    if graph.oversized(Level::Main) || graph.oversized(Level::Top) {
        return Err(Refusal::Oversized);
    }
    let (main, staging) = graph.main_staging_diagrams()?;
    match list_sides(alloc, main, staging) {
        Ok(sides) => Ok(sides),
        Err(_) => Err(Refusal::Memory),
    }
}

/// The number of the cluster of each chunk of main's order. Refuses where main is over the limits, or where there is no memory.
pub fn gather_numbers(alloc: Global, graph: &TxGraph<2>) -> Result<Owned<usize>, Refusal>
    ensures { GathersNumbers (StandsFor graph.now) result }
{
    if graph.oversized(Level::Main) {
        return Err(Refusal::Oversized);
    }
    match list_numbers(alloc, graph.numbered()) {
        Ok(list) => Ok(Owned::from_vec(list)),
        Err(_) => Err(Refusal::Memory),
    }
}

/// The transactions of a level, in rising order.
pub fn gather_names(
    alloc: Global,
    graph: &TxGraph<2>,
    level: Level,
) -> Result<Owned<TxId>, NoMemory>
    ensures { IfOk result (λ names. (state : State) → StandsFor graph.now state
        → Lists (Contains (level_of state.plain level).names) names) }
{
    let mut names = list_names(alloc, graph.names(level))?;
    names.sort_unstable();
    Ok(Owned::from_vec(names))
}

/// The clusters of a level, in no order.
pub fn gather_clusters(alloc: Global, graph: &TxGraph<2>, level: Level) -> Result<Groups, NoMemory>
    ensures { IfOk result (λ groups. (state : State) → StandsFor graph.now state
        → TellsClusters state level groups.counts.items groups.ids.items) }
{
    list_components(alloc, graph.components(level))
}

/// The parents of a transaction with no third one between, as they stand in the level's order. Refuses where the level hasn't the transaction, or
/// is over the limits, or where there is no memory.
pub fn gather_covers(
    alloc: Global,
    graph: &TxGraph<2>,
    level: Level,
    id: TxId,
) -> Result<Owned<TxId>, Refusal>
    ensures { GathersCovers (StandsFor graph.now) level id result }
{
    if !graph.exists(level, id) {
        return Err(Refusal::Unknown(id));
    }
    if graph.oversized(level) {
        return Err(Refusal::Oversized);
    }
    let _stands = graph.additions();
    match list_covers(alloc, graph.covers(level, id)) {
        Ok(list) => Ok(Owned::from_vec(list)),
        Err(_) => Err(Refusal::Memory),
    }
}
