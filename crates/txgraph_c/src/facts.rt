//! The calls that tell how a graph stands. None is refused, and the graph stays as it is.
ghost use Rattle.std.specs.Prelude.{◌≡◌};
ghost use Rattle.txgraph_c.specs.Slots.{OfSlot};
ghost use Rattle.desk.specs.Calls.{Knows};
ghost use Rattle.desk.specs.Desks.{limits_with};
ghost use Rattle.desk.specs.Facts.{TellsLeast, TellsLimits, TellsStaged};

use crate::slot::{Slot, put, take};
use desk::codes::{DONE, NO_GRAPH};
use desk::reading::{is_staged, least_size, limits_of};
use std::alloc::Global;

/// The limits in force: see `txgraph_set_limits`.
///
/// # Errors
///
/// - 1: the slot has no graph.
#[unsafe(no_mangle)]
pub extern "C" fn txgraph_limits(
    alloc: Global,
    slot: &mut Slot,
    count: &mut u64,
    size: &mut u64,
    total: &mut u64,
    defer: &mut bool,
) -> u32
    ensures { OfSlot slot.old.handle.value slot.new.handle.value result
        ((count.new ≡ count.old) × (size.new ≡ size.old) × (total.new ≡ total.old) × (defer.new ≡ defer.old))
        (λ o n. Knows o n result (TellsLimits o (limits_with count.new size.new total.new defer.new))) }
{
    let Some(desk) = take(alloc, slot) else {
        return NO_GRAPH;
    };
    let limits = limits_of(&desk);
    *count = limits.count;
    *size = limits.size;
    *total = limits.total;
    *defer = limits.defer;
    put(slot, desk);
    DONE
}

/// Whether a staging is open.
///
/// # Errors
///
/// - 1: the slot has no graph.
#[unsafe(no_mangle)]
pub extern "C" fn txgraph_staged(alloc: Global, slot: &mut Slot, staged: &mut bool) -> u32
    ensures { OfSlot slot.old.handle.value slot.new.handle.value result (staged.new ≡ staged.old)
        (λ o n. Knows o n result (TellsStaged o staged.new)) }
{
    let Some(desk) = take(alloc, slot) else {
        return NO_GRAPH;
    };
    *staged = is_staged(&desk);
    put(slot, desk);
    DONE
}

/// How many additions were counted since the graph was made: each transaction that was added, and each that came back with a block.
///
/// # Errors
///
/// - 1: the slot has no graph.
#[unsafe(no_mangle)]
pub extern "C" fn txgraph_additions(alloc: Global, slot: &mut Slot, count: &mut u64) -> u32
    ensures { OfSlot slot.old.handle.value slot.new.handle.value result (count.new ≡ count.old)
        (λ o n. Knows o n result (count.new ≡ o.pool.graph.levels.issued)) }
{
    let Some(desk) = take(alloc, slot) else {
        return NO_GRAPH;
    };
    *count = desk.pool.additions();
    put(slot, desk);
    DONE
}

/// A size, in virtual bytes, that no transaction of main is below, and no chunk of main's order.
///
/// # Errors
///
/// - 1: the slot has no graph.
#[unsafe(no_mangle)]
pub extern "C" fn txgraph_least(alloc: Global, slot: &mut Slot, size: &mut u64) -> u32
    ensures { OfSlot slot.old.handle.value slot.new.handle.value result (size.new ≡ size.old)
        (λ o n. Knows o n result (TellsLeast o size.new)) }
{
    let Some(desk) = take(alloc, slot) else {
        return NO_GRAPH;
    };
    *size = least_size(&desk);
    put(slot, desk);
    DONE
}
