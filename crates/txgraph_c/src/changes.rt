//! The calls that change a graph.
ghost use Rattle.std.specs.Prelude.{◌≡◌, ◌≤◌};
ghost use Rattle.graph_model.specs.Limits.{bounds_of};
ghost use Rattle.graph_model.specs.Commands.{Abort, Add, Commit, Dep, Evict, Remove, SetFee, SetLimits, Settle, Stage, Trim};
ghost use Rattle.txgraph_c.specs.Slots.{Makes, Mines, Steps, Unmines};
ghost use Rattle.desk.specs.Calls.{ShowsTotal, ShowsVerdict};
ghost use Rattle.desk.specs.Desks.{limits_with};
ghost use Rattle.desk.specs.Requests.{change_command};

use crate::slot::{Slot, put, take};
use desk::changing::{make_change, make_mine, make_settlement};
use desk::codes::NO_GRAPH;
use desk::picking::{evict_last, take_back, trim_top};
use desk::request::Change;
use desk::telling::Total;
use graph_model::Limits;
use std::alloc::Global;
use std::marker::Brand;
use std::sync::ledger::Blank;

/// Makes a change of the graph in a slot.
fn changed(alloc: Global, slot: &mut Slot, change: Change, kept: &mut u64, steps: &mut u64) -> u32
    ensures answers { Steps slot.old.handle.value slot.new.handle.value (change_command change) result kept.old kept.new }
    ensures rises { steps.old ≤ steps.new }
{
    let Some(mut desk) = take(alloc, slot) else {
        return NO_GRAPH;
    };
    let code = make_change(&mut desk, change, kept, steps);
    put(slot, desk);
    code
}

/// Sets the limits, as long as no change was accepted: those of a cluster's transactions, 1 to 128, of a cluster's size in virtual bytes, 1 to
/// 512,000,000, and of live transactions, 1 to 1,048,576; and whether a dependency may bring a cluster over the first two for a while.
///
/// # Errors
///
/// - 1: the slot has no graph.
/// - 3 late: a change was accepted before, also one of limits. 4 range: a limit is outside its range.
#[unsafe(no_mangle)]
pub extern "C" fn txgraph_set_limits(
    alloc: Global,
    slot: &mut Slot,
    count: u64,
    size: u64,
    total: u64,
    defer: bool,
    kept: &mut u64,
    steps: &mut u64,
) -> u32
    ensures answers { Steps slot.old.handle.value slot.new.handle.value (SetLimits (bounds_of (limits_with count size total defer)))
        result kept.old kept.new }
    ensures rises { steps.old ≤ steps.new }
{
    let limits = Limits {
        count,
        size,
        total,
        defer,
    };
    changed(alloc, slot, Change::Limits(limits), kept, steps)
}

/// Adds a transaction to the top level, with its fee in satoshis and its size in virtual bytes. It has no dependencies yet.
///
/// # Errors
///
/// - 1: the slot has no graph.
/// - 5 fee, 6 size: the number is out of range. 7 taken: the transaction is in main or in staging. 8 clustersize, with the size: it is over
///   the limit of a cluster. 9 full: as many transactions are live as may be. 18 memory: there is no memory.
/// - 33: 2^64 − 1 additions were made.
#[unsafe(no_mangle)]
pub extern "C" fn txgraph_add(
    alloc: Global,
    slot: &mut Slot,
    id: u64,
    fee: i64,
    size: u64,
    kept: &mut u64,
    steps: &mut u64,
) -> u32
    ensures answers { Steps slot.old.handle.value slot.new.handle.value (Add id fee size) result kept.old kept.new }
    ensures rises { steps.old ≤ steps.new }
{
    changed(alloc, slot, Change::Add(id, fee, size), kept, steps)
}

/// Makes `child` depend on `parent` in the top level.
///
/// # Errors
///
/// - 1: the slot has no graph.
/// - 10 unknown, with the name: the parent isn't in the top level, or the child isn't. 11 cycle: the child is an ancestor of the parent, or the
///   parent itself. 12 count and 8 clustersize, with the number or the size: the joined cluster would be over the limits, and no dependency
///   may pass them. 18 memory: there is no memory.
#[unsafe(no_mangle)]
pub extern "C" fn txgraph_dep(
    alloc: Global,
    slot: &mut Slot,
    parent: u64,
    child: u64,
    kept: &mut u64,
    steps: &mut u64,
) -> u32
    ensures answers { Steps slot.old.handle.value slot.new.handle.value (Dep parent child) result kept.old kept.new }
    ensures rises { steps.old ≤ steps.new }
{
    changed(alloc, slot, Change::Dep(parent, child), kept, steps)
}

/// Sets the fee of a transaction, in satoshis, in each level that has it.
///
/// # Errors
///
/// - 1: the slot has no graph.
/// - 5 fee: it is out of range. 10 unknown, with the name: the transaction is neither in main nor in staging. 18 memory: there is no memory.
#[unsafe(no_mangle)]
pub extern "C" fn txgraph_fee(
    alloc: Global,
    slot: &mut Slot,
    id: u64,
    fee: i64,
    kept: &mut u64,
    steps: &mut u64,
) -> u32
    ensures answers { Steps slot.old.handle.value slot.new.handle.value (SetFee id fee) result kept.old kept.new }
    ensures rises { steps.old ≤ steps.new }
{
    changed(alloc, slot, Change::Fee(id, fee), kept, steps)
}

/// Removes a transaction from the top level. Its children come to depend on its parents.
///
/// # Errors
///
/// - 1: the slot has no graph.
/// - 10 unknown, with the name: the transaction isn't in the top level. 18 memory: there is no memory.
#[unsafe(no_mangle)]
pub extern "C" fn txgraph_remove(
    alloc: Global,
    slot: &mut Slot,
    id: u64,
    kept: &mut u64,
    steps: &mut u64,
) -> u32
    ensures answers { Steps slot.old.handle.value slot.new.handle.value (Remove id) result kept.old kept.new }
    ensures rises { steps.old ≤ steps.new }
{
    changed(alloc, slot, Change::Remove(id), kept, steps)
}

/// Opens a staging: a copy of main.
///
/// # Errors
///
/// - 1: the slot has no graph.
/// - 13 staging: one is open.
#[unsafe(no_mangle)]
pub extern "C" fn txgraph_stage(
    alloc: Global,
    slot: &mut Slot,
    kept: &mut u64,
    steps: &mut u64,
) -> u32
    ensures answers { Steps slot.old.handle.value slot.new.handle.value Stage result kept.old kept.new }
    ensures rises { steps.old ≤ steps.new }
{
    changed(alloc, slot, Change::Stage, kept, steps)
}

/// Makes main what staging is, and closes the staging.
///
/// # Errors
///
/// - 1: the slot has no graph.
/// - 17 nostaging: none is open.
#[unsafe(no_mangle)]
pub extern "C" fn txgraph_commit(
    alloc: Global,
    slot: &mut Slot,
    kept: &mut u64,
    steps: &mut u64,
) -> u32
    ensures answers { Steps slot.old.handle.value slot.new.handle.value Commit result kept.old kept.new }
    ensures rises { steps.old ≤ steps.new }
{
    changed(alloc, slot, Change::Commit, kept, steps)
}

/// Drops the staging.
///
/// # Errors
///
/// - 1: the slot has no graph.
/// - 17 nostaging: none is open.
#[unsafe(no_mangle)]
pub extern "C" fn txgraph_abort(
    alloc: Global,
    slot: &mut Slot,
    kept: &mut u64,
    steps: &mut u64,
) -> u32
    ensures answers { Steps slot.old.handle.value slot.new.handle.value Abort result kept.old kept.new }
    ensures rises { steps.old ≤ steps.new }
{
    changed(alloc, slot, Change::Abort, kept, steps)
}

/// Takes the transactions of a mined block out of main, in any order, and keeps them as the latest block. Where 100 blocks are kept, the
/// oldest goes.
///
/// # Errors
///
/// - 1: the slot has no graph. 34: the list is empty.
/// - 13 staging: one is open. 14 twice, with the first transaction that is listed a second time. 10 unknown, with the first that main
///   hasn't. 15 parent, with the first that has an ancestor which isn't listed. 18 memory: there is no memory.
#[unsafe(no_mangle)]
pub extern "C" fn txgraph_mine(
    alloc: Global,
    slot: &mut Slot,
    ids: &[u64],
    kept: &mut u64,
    steps: &mut u64,
) -> u32
    ensures answers { Mines slot.old.handle.value slot.new.handle.value ids.now result kept.old kept.new }
    ensures rises { steps.old ≤ steps.new }
{
    let Some(mut desk) = take(alloc, slot) else {
        return NO_GRAPH;
    };
    let code = make_mine(&mut desk, ids, kept, steps);
    put(slot, desk);
    code
}

/// Puts the transactions of the latest block back into main, and picks them: see `txgraph_picked`.
///
/// # Errors
///
/// - 1: the slot has no graph.
/// - 13 staging: one is open. 20 noblock: no block is left to take back. 21 back, with the first transaction that is in main. 9 full: more would
///   be live than may be. 12 count and 8 clustersize: a cluster would be over the limits. 18 memory: there is no memory.
/// - 33: so many more additions can't be counted.
#[unsafe(no_mangle)]
pub extern "C" fn txgraph_unmine(
    alloc: Global,
    slot: &mut Slot,
    kept: &mut u64,
    steps: &mut u64,
) -> u32
    ensures answers { Unmines slot.old.handle.value slot.new.handle.value result kept.old kept.new }
    ensures rises { steps.old ≤ steps.new }
{
    let Some(mut desk) = take(alloc, slot) else {
        return NO_GRAPH;
    };
    let code = take_back(&mut desk, kept, steps);
    put(slot, desk);
    code
}

/// Drops the last chunk of main's order, tells its fee and size, and picks its transactions: see `txgraph_picked`.
///
/// # Errors
///
/// - 1: the slot has no graph.
/// - 13 staging: one is open. 16 empty: main has no transaction. 19 oversized: main is over the limits of a cluster. 18 memory: there is no
///   memory.
#[unsafe(no_mangle)]
pub extern "C" fn txgraph_evict(
    alloc: Global,
    slot: &mut Slot,
    total: &mut Total,
    kept: &mut u64,
    steps: &mut u64,
) -> u32
    ensures answers { Makes slot.old.handle.value slot.new.handle.value Evict result kept.old kept.new total.old total.new ShowsTotal }
    ensures rises { steps.old ≤ steps.new }
{
    let Some(mut desk) = take(alloc, slot) else {
        return NO_GRAPH;
    };
    let code = evict_last::<Brand>(&mut desk, total, kept, steps, Blank::new(1));
    put(slot, desk);
    code
}

/// Cuts the top level back to its limits, tells the fee and the size of what it drops, and picks those transactions: see `txgraph_picked`.
///
/// # Errors
///
/// - 1: the slot has no graph.
/// - 18 memory: there is no memory.
#[unsafe(no_mangle)]
pub extern "C" fn txgraph_trim(
    alloc: Global,
    slot: &mut Slot,
    total: &mut Total,
    kept: &mut u64,
    steps: &mut u64,
) -> u32
    ensures answers { Makes slot.old.handle.value slot.new.handle.value Trim result kept.old kept.new total.old total.new ShowsTotal }
    ensures rises { steps.old ≤ steps.new }
{
    let Some(mut desk) = take(alloc, slot) else {
        return NO_GRAPH;
    };
    let code = trim_top::<Brand>(&mut desk, total, kept, steps, Blank::new(1));
    put(slot, desk);
    code
}

/// Commits the staging exactly where it is better than main, and else drops it. Tells the verdict.
///
/// # Errors
///
/// - 1: the slot has no graph.
/// - 17 nostaging: none is open. 19 oversized: main or staging is over the limits of a cluster.
#[unsafe(no_mangle)]
pub extern "C" fn txgraph_settle(
    alloc: Global,
    slot: &mut Slot,
    verdict: &mut u32,
    kept: &mut u64,
) -> u32
    ensures { Makes slot.old.handle.value slot.new.handle.value Settle result kept.old kept.new verdict.old verdict.new
        ShowsVerdict }
{
    let Some(mut desk) = take(alloc, slot) else {
        return NO_GRAPH;
    };
    let code = make_settlement(&mut desk, verdict, kept);
    put(slot, desk);
    code
}
