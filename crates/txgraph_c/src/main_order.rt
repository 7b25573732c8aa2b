//! The calls that ask about main's order beside one chunk and two transactions.
ghost use Rattle.std.specs.Prelude.{◌≡◌};
ghost use Rattle.graph_model.specs.Commands as commands;
ghost use Rattle.graphs.specs.declared.names.Level.TheVariants.{Main};
ghost use Rattle.reorg.specs.Kept.{StandsFor};
ghost use Rattle.txgraph_c.specs.Slots.{OfSlot, ReadsAs};
ghost use Rattle.desk.specs.Calls.{GivesPiece, ShowsPart};
ghost use Rattle.desk.specs.Orders.{ShowsNumbers, ShowsSides, SortsByMain, TellsLast};

use crate::slot::{Slot, put, take};
use desk::codes::NO_GRAPH;
use desk::copying::hand_piece;
use desk::keeping::{read_numbers, read_sides};
use desk::reading::{sort_by_main, tell_last};
use desk::telling::Rate;
use std::alloc::Global;

/// The last chunk of main's order, which pays least, and which `txgraph_evict` would drop: its fee and size, its transactions in their order,
/// as many as the array has room for, and how many there are, at most 128.
///
/// # Errors
///
/// - 1: the slot has no graph.
/// - 16 empty: main has no transaction. 19 oversized: main is over the limits of a cluster.
#[unsafe(no_mangle)]
pub extern "C" fn txgraph_worst(
    alloc: Global,
    slot: &mut Slot,
    rate: &mut Rate,
    ids: &mut [u64],
    count: &mut usize,
    kept: &mut u64,
) -> u32
    ensures { OfSlot slot.old.handle.value slot.new.handle.value result
        ((kept.new ≡ kept.old) × (rate.new ≡ rate.old) × (ids.new ≡ ids.old) × (count.new ≡ count.old))
        (λ o n. TellsLast o n result kept.new (ShowsPart rate.old rate.new ids.old ids.new count.old count.new)) }
{
    let Some(desk) = take(alloc, slot) else {
        return NO_GRAPH;
    };
    let code = tell_last(&desk, rate, ids, count, kept);
    put(slot, desk);
    code
}

/// Puts transactions into main's order; those that main hasn't come last. One may be listed twice. Takes no memory.
///
/// # Errors
///
/// - 1: the slot has no graph.
/// - 19 oversized: main is over the limits of a cluster, and the list stays.
#[unsafe(no_mangle)]
pub extern "C" fn txgraph_sort_by_main_order(alloc: Global, slot: &mut Slot, ids: &mut [u64]) -> u32
    ensures { OfSlot slot.old.handle.value slot.new.handle.value result (ids.new ≡ ids.old)
        (λ o n. (n ≡ o) × SortsByMain (StandsFor o.pool) ids.old ids.new result) }
{
    let Some(desk) = take(alloc, slot) else {
        return NO_GRAPH;
    };
    let code = sort_by_main(&desk, ids);
    put(slot, desk);
    code
}

/// Reads the two sides of a replacement: the fees and sizes of the chunks of main's order that staging hasn't, and of those of staging's order
/// that main hasn't, each in its level's order. All other chunks are the same in both. They stay with the graph as they were then, until they
/// are read again, and are handed out in pieces: see `txgraph_main_side` and `txgraph_staging_side`. Takes memory for all of them.
///
/// # Errors
///
/// - 1: the slot has no graph.
/// - 17 nostaging: none is open. 19 oversized: main or staging is over the limits of a cluster. 18 memory: there is no memory.
#[unsafe(no_mangle)]
pub extern "C" fn txgraph_main_staging_diagrams(
    alloc: Global,
    slot: &mut Slot,
    kept: &mut u64,
) -> u32
    ensures { ReadsAs slot.old.handle.value slot.new.handle.value commands.Compare result kept.old kept.new ShowsSides }
{
    let Some(mut desk) = take(alloc, slot) else {
        return NO_GRAPH;
    };
    let code = read_sides(alloc, &mut desk, kept);
    put(slot, desk);
    code
}

/// The fees and sizes of the chunks that main alone had when the sides were read, from the place `from` on: as many as the array has room for,
/// and how many were copied.
///
/// # Errors
///
/// - 1: the slot has no graph.
/// - 32: others come behind these.
#[unsafe(no_mangle)]
pub extern "C" fn txgraph_main_side(
    alloc: Global,
    slot: &mut Slot,
    from: usize,
    rates: &mut [Rate],
    count: &mut usize,
) -> u32
    ensures { OfSlot slot.old.handle.value slot.new.handle.value result ((rates.new ≡ rates.old) × (count.new ≡ count.old))
        (λ o n. (n ≡ o) × GivesPiece o.held.main_side from rates.old rates.new count.new result) }
{
    let Some(desk) = take(alloc, slot) else {
        return NO_GRAPH;
    };
    let code = hand_piece(desk.held.main_side.as_slice(), from, rates, count);
    put(slot, desk);
    code
}

/// The fees and sizes of the chunks that staging alone had when the sides were read, from the place `from` on: as many as the array has room
/// for, and how many were copied.
///
/// # Errors
///
/// - 1: the slot has no graph.
/// - 32: others come behind these.
#[unsafe(no_mangle)]
pub extern "C" fn txgraph_staging_side(
    alloc: Global,
    slot: &mut Slot,
    from: usize,
    rates: &mut [Rate],
    count: &mut usize,
) -> u32
    ensures { OfSlot slot.old.handle.value slot.new.handle.value result ((rates.new ≡ rates.old) × (count.new ≡ count.old))
        (λ o n. (n ≡ o) × GivesPiece o.held.staging_side from rates.old rates.new count.new result) }
{
    let Some(desk) = take(alloc, slot) else {
        return NO_GRAPH;
    };
    let code = hand_piece(desk.held.staging_side.as_slice(), from, rates, count);
    put(slot, desk);
    code
}

/// Reads a number for each chunk of main's order, in the order: two chunks have one number exactly where they are of one cluster. So a block
/// builder skips the later chunks of a cluster of which it left one out. They stay with the graph as they were then, until they are read
/// again, and are handed out in pieces: see `txgraph_numbers`. Takes memory for all of them.
///
/// # Errors
///
/// - 1: the slot has no graph.
/// - 19 oversized: main is over the limits of a cluster. 18 memory: there is no memory.
#[unsafe(no_mangle)]
pub extern "C" fn txgraph_numbered(alloc: Global, slot: &mut Slot, kept: &mut u64) -> u32
    ensures { ReadsAs slot.old.handle.value slot.new.handle.value (commands.Order Main) result kept.old kept.new ShowsNumbers }
{
    let Some(mut desk) = take(alloc, slot) else {
        return NO_GRAPH;
    };
    let code = read_numbers(alloc, &mut desk, kept);
    put(slot, desk);
    code
}

/// The numbers that were read last, from the place `from` on: as many as the array has room for, and how many were copied.
///
/// # Errors
///
/// - 1: the slot has no graph.
/// - 32: others come behind these.
#[unsafe(no_mangle)]
pub extern "C" fn txgraph_numbers(
    alloc: Global,
    slot: &mut Slot,
    from: usize,
    numbers: &mut [usize],
    count: &mut usize,
) -> u32
    ensures { OfSlot slot.old.handle.value slot.new.handle.value result ((numbers.new ≡ numbers.old) × (count.new ≡ count.old))
        (λ o n. (n ≡ o) × GivesPiece o.held.numbers from numbers.old numbers.new count.new result) }
{
    let Some(desk) = take(alloc, slot) else {
        return NO_GRAPH;
    };
    let code = hand_piece(desk.held.numbers.as_slice(), from, numbers, count);
    put(slot, desk);
    code
}
