//! A graph comes into a slot, and leaves it.
ghost use Rattle.std.specs.Prelude.{◌≡◌, ◌≤◌};
ghost use Rattle.txgraph_c.specs.Slots.{Closes, Loads, Opens};
ghost use Rattle.desk.specs.Desks.{limits_with};

use crate::slot::{Slot, put, take};
use desk::codes::{DONE, IN_USE, MEMORY, NO_GRAPH, RANGE};
use desk::making::{code_of_fault, load_desk, make_desk};
use graph_model::Limits;
use std::alloc::Global;
use std::marker::Brand;
use std::sync::ledger::Blank;

/// Makes an empty graph in a slot that has none. The limits are those of a cluster's transactions, 1 to 128, of a cluster's size in virtual
/// bytes, 1 to 512,000,000, and of live transactions, 1 to 1,048,576; and whether a dependency may bring a cluster over the first two for a
/// while. The graph takes the memory in which orders are made.
///
/// # Errors
///
/// - 2: the slot has a graph. It stays.
/// - 4: a limit is outside its range.
/// - 18: there is no memory.
#[unsafe(no_mangle)]
pub extern "C" fn txgraph_new(
    alloc: Global,
    slot: &mut Slot,
    count: u64,
    size: u64,
    total: u64,
    defer: bool,
) -> u32
    ensures { Opens (limits_with count size total defer) slot.old.handle.value slot.new.handle.value result }
{
    if slot.live {
        return IN_USE;
    }
    let limits = Limits {
        count,
        size,
        total,
        defer,
    };
    if !limits.are_in_range(128) {
        return RANGE;
    }
    match make_desk(alloc, limits) {
        Ok(desk) => {
            put(slot, desk);
            DONE
        }
        Err(_) => MEMORY,
    }
}

/// Makes the graph that a text tells in a slot that has none, under these limits: see `txgraph_new`. The text is one that `txgraph_dump` leaves.
///
/// # Errors
///
/// - 2: the slot has a graph. It stays. 4: a limit is outside its range.
/// - 36, 37, 42: the bytes are no such text; they tell no graph; the graph is over the limits.
/// - 18: there is no memory, also in place of the three before.
#[unsafe(no_mangle)]
pub extern "C" fn txgraph_load(
    alloc: Global,
    slot: &mut Slot,
    bytes: &[u8],
    count: u64,
    size: u64,
    total: u64,
    defer: bool,
    steps: &mut u64,
) -> u32
    ensures answers { Loads (limits_with count size total defer) bytes.now slot.old.handle.value slot.new.handle.value result }
    ensures rises { steps.old ≤ steps.new }
{
    if slot.live {
        return IN_USE;
    }
    let limits = Limits {
        count,
        size,
        total,
        defer,
    };
    if !limits.are_in_range(128) {
        return RANGE;
    }
    match load_desk::<Brand>(alloc, bytes, limits, steps, Blank::new(1)) {
        Ok(desk) => {
            put(slot, desk);
            DONE
        }
        Err(fault) => code_of_fault(fault),
    }
}

/// Lets the graph in a slot go, with its mined blocks, and gives all its memory back. The slot can take a new graph then.
///
/// # Errors
///
/// - 1: the slot has no graph.
#[unsafe(no_mangle)]
pub extern "C" fn txgraph_close(alloc: Global, slot: &mut Slot) -> u32
    ensures { Closes slot.old.handle.value slot.new.handle.value result }
{
    match take(alloc, slot) {
        Some(desk) => {
            drop(desk);
            DONE
        }
        None => NO_GRAPH,
    }
}
