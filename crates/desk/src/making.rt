//! Desks with a new graph, and with the graph of a text.
ghost use Rattle.std.specs.Prelude.{◌≡◌, ◌<◌, ◌≤◌, ℕ, MatchResult, [], IfOk};
ghost use Rattle.graph_model.specs.Limits.{AreInRange, bounds_of};
ghost use Rattle.graph_model.specs.States.{State};
ghost use Rattle.tx_graph.specs.Kept.{StandsFor};
ghost use Rattle.desk.specs.Loading.{IsLoaded, LoadsDesk, fault_number};
ghost use Rattle.desk.specs.Pools.{IsNew};

use crate::codes::{MEMORY, NO_GRAPH_TEXT, NO_LIMITS, NO_SYNTAX};
use crate::desk::{Desk, Held};
use crate::listing::Listing;
use crate::pool::Pool;
use dump::{LoadFault, load};
use graph_model::{IdList, Limits};
use graphs::Owned;
use outside::NoMemory;
use std::alloc::Global;
use std::sync::ledger;
use std::sync::ledger::Blank;
use step_count::{Counted, Steps};
use tx_graph::TxGraph;

/// A desk with a new graph.
pub fn make_desk(alloc: Global, limits: Limits) -> Result<Box<Desk>, NoMemory>
    requires { AreInRange 128 (bounds_of limits) }
    ensures pool { IfOk result (λ desk. IsNew limits desk.value.pool) }
    ensures picked { IfOk result (λ desk. desk.value.picked ≡ []) }
{
    let pool = Pool::new(alloc, limits)?;
    desk_of(alloc, pool)
}

/// A desk of a pool, with nothing picked or read.
fn desk_of(alloc: Global, pool: Pool) -> Result<Box<Desk>, NoMemory>
    ensures pool { IfOk result (λ desk. desk.value.pool ≡ pool) }
    ensures picked { IfOk result (λ desk. desk.value.picked ≡ []) }
{
    let picked = IdList::from_vec(Vec::new(alloc));
    let held = Held {
        listing: Listing::new(alloc),
        corners: Owned::from_vec(Vec::new(alloc)),
        text: Owned::from_vec(Vec::new(alloc)),
        main_side: Owned::from_vec(Vec::new(alloc)),
        staging_side: Owned::from_vec(Vec::new(alloc)),
        numbers: Owned::from_vec(Vec::new(alloc)),
        names: Owned::from_vec(Vec::new(alloc)),
        cluster_counts: Owned::from_vec(Vec::new(alloc)),
        cluster_ids: Owned::from_vec(Vec::new(alloc)),
    };
    let desk = Box::new(alloc, Desk { pool, picked, held })?;
    Ok(desk)
}

/// A desk with the graph of a text.
pub fn load_desk<K: ledger::Ledger>(
    alloc: Global,
    bytes: &[u8],
    limits: Limits,
    steps: &mut u64,
    blank: Blank,
) -> Result<Box<Desk>, LoadFault>
    requires name { blank.name ≡ K.name }
    requires parts { blank.parts ≡ K.parts }
    requires some { 0 < blank.parts }
    requires range { AreInRange 128 (bounds_of limits) }
    ensures answers { LoadsDesk (bounds_of limits) bytes.now result }
    ensures rises { steps.old ≤ steps.new }
{
    let mut counted = Steps::new(Counted::<K>::new(blank));
    let loaded = load::<2, Counted<K>>(alloc, bytes, limits, &mut counted);
    *steps = steps.saturating_add(counted.ledger().shown());
    match loaded {
        Ok(graph) => loaded_desk(alloc, graph),
        Err(fault) => Err(fault),
    }
}

/// A desk of a graph, without mined blocks.
fn loaded_desk(alloc: Global, graph: TxGraph<2>) -> Result<Box<Desk>, LoadFault>
    requires { (state : State) × StandsFor graph state × (state.plain.blocks ≡ []) }
    ensures { MatchResult result (λ desk. IsLoaded graph desk.value) (λ fault. fault ≡ LoadFault.Memory) }
{
    let Ok(pool) = Pool::of_graph(alloc, graph) else {
        return Err(LoadFault::Memory);
    };
    match desk_of(alloc, pool) {
        Ok(desk) => Ok(desk),
        Err(_) => Err(LoadFault::Memory),
    }
}

/// The number of the first test that a text fails.
pub fn code_of_fault(fault: LoadFault) -> u32
    ensures { result ≡ fault_number fault }
{
    match fault {
        LoadFault::Syntax => NO_SYNTAX,
        LoadFault::Graph => NO_GRAPH_TEXT,
        LoadFault::Limits => NO_LIMITS,
        LoadFault::Memory => MEMORY,
    }
}
