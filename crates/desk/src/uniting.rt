//! Searches of a graph for what several transactions have together. Each takes memory for a copy of their names.
ghost use Rattle.std.specs.Prelude.{◌≡◌, IfOk};
ghost use Rattle.graphs.specs.Graphs.{Lists};
ghost use Rattle.graph_model.specs.States.{State, level_of};
ghost use Rattle.tx_graph.specs.Kept.{StandsFor};
ghost use Rattle.tx_graph.specs.Unions.{IsKinIn, LieInComponents};

use graph_model::{IdBuf, Level, TxId};
use graphs::Kin;
use outside::NoMemory;
use std::alloc::Global;
use tx_graph::TxGraph;

/// How many transactions there is room for at first.
const MOST_AT_FIRST: usize = 128;

/// Why nothing was found: there was no memory, or room is needed for so many transactions.
#[derive(Clone, Copy)]
enum Lack {
    Memory,
    Room(usize),
}

/// The ancestors of these transactions together, or their descendants.
pub fn kin_of(
    alloc: Global,
    graph: &mut TxGraph<2>,
    kin: Kin,
    level: Level,
    ids: &[TxId],
) -> Result<IdBuf, NoMemory>
    ensures kin { IfOk result (λ found. (state : State) → StandsFor graph.old state
        → Lists (IsKinIn kin (level_of state.plain level) ids.now) found.ids) }
    ensures same { graph.new ≡ graph.old }
{
    let needs = match kin_within(alloc, graph, kin, level, ids, MOST_AT_FIRST) {
        Ok(found) => return Ok(found),
        Err(Lack::Memory) => return Err(NoMemory),
        Err(Lack::Room(needs)) => needs,
    };
    match kin_within(alloc, graph, kin, level, ids, needs) {
        Ok(found) => Ok(found),
        Err(_) => Err(NoMemory),
    }
}

/// The same where there is room for so many.
fn kin_within(
    alloc: Global,
    graph: &mut TxGraph<2>,
    kin: Kin,
    level: Level,
    ids: &[TxId],
    room: usize,
) -> Result<IdBuf, Lack>
    ensures kin { IfOk result (λ found. (state : State) → StandsFor graph.old state
        → Lists (IsKinIn kin (level_of state.plain level) ids.now) found.ids) }
    ensures same { graph.new ≡ graph.old }
{
    let Ok(mut names) = Vec::from_slice(alloc, ids) else {
        return Err(Lack::Memory);
    };
    let Ok(mut found) = IdBuf::new(alloc, room) else {
        return Err(Lack::Memory);
    };
    match unite(graph, kin, level, &mut names, &mut found) {
        Ok(()) => Ok(found),
        Err(needs) => Err(Lack::Room(needs)),
    }
}

/// Leaves the ancestors of these transactions, or their descendants, in `found`, where there is room for them.
fn unite(
    graph: &mut TxGraph<2>,
    kin: Kin,
    level: Level,
    ids: &mut [TxId],
    found: &mut IdBuf,
) -> Result<(), usize>
    ensures kin { IfOk result (λ _. (state : State) → StandsFor graph.old state
        → Lists (IsKinIn kin (level_of state.plain level) ids.old) found.new.ids) }
    ensures same { graph.new ≡ graph.old }
{
    match kin {
        Kin::Ancestors => graph.ancestors_union(level, ids, found),
        Kin::Descendants => graph.descendants_union(level, ids, found),
    }
}

/// How many clusters of a level these transactions lie in.
pub fn count_clusters(
    alloc: Global,
    graph: &TxGraph<2>,
    level: Level,
    ids: &[TxId],
) -> Result<usize, NoMemory>
    ensures { IfOk result (λ count. (state : State) → StandsFor graph.now state
        → LieInComponents (level_of state.plain level) ids.now count) }
{
    let mut names = Vec::from_slice(alloc, ids)?;
    Ok(graph.count_distinct_clusters(level, &mut names))
}
