//! The calls that read a whole level, and hand it out in pieces.
ghost use Rattle.std.specs.Prelude.{◌≡◌};
ghost use Rattle.graph_model.specs.Commands as commands;
ghost use Rattle.txgraph_c.specs.Slots.{OfSlot, Reads};
ghost use Rattle.desk.specs.Calls.{Gathers, GivesPiece, ShowsCorners, ShowsOrder, ShowsText};
ghost use Rattle.desk.specs.Numbers.{level_named};

use crate::slot::{Slot, put, take};
use desk::codes::NO_GRAPH;
use desk::copying::hand_piece;
use desk::keeping::{read_corners, read_order, read_text};
use desk::listing::{FlowWords, PartHead};
use desk::telling::{Total, named_level};
use std::alloc::Global;

/// Reads the order of a level (0 main, 1 top): its chunks by falling feerate. It stays with the graph as it was then, until an order is read
/// again, and is handed out in pieces: see `txgraph_parts`, `txgraph_part_ids`, `txgraph_flows`. Takes memory for all of it.
///
/// # Errors
///
/// - 1: the slot has no graph.
/// - 19 oversized: the level is over the limits of a cluster. 18: there is no memory.
#[unsafe(no_mangle)]
pub extern "C" fn txgraph_order(alloc: Global, slot: &mut Slot, level: u32, kept: &mut u64) -> u32
    ensures { Reads slot.old.handle.value slot.new.handle.value (commands.Order (level_named level)) result kept.old kept.new
        ShowsOrder }
{
    let Some(mut desk) = take(alloc, slot) else {
        return NO_GRAPH;
    };
    let code = read_order(&mut desk, named_level(level), kept);
    put(slot, desk);
    code
}

/// The chunks of the order that was read last, from the place `from` on: as many as the array has room for, and how many were copied. Each
/// tells how many transactions and flows it has.
///
/// # Errors
///
/// - 1: the slot has no graph.
/// - 32: others come behind these.
#[unsafe(no_mangle)]
pub extern "C" fn txgraph_parts(
    alloc: Global,
    slot: &mut Slot,
    from: usize,
    parts: &mut [PartHead],
    count: &mut usize,
) -> u32
    ensures { OfSlot slot.old.handle.value slot.new.handle.value result ((parts.new ≡ parts.old) × (count.new ≡ count.old))
        (λ o n. (n ≡ o) × GivesPiece o.held.listing.heads.items from parts.old parts.new count.new result) }
{
    let Some(desk) = take(alloc, slot) else {
        return NO_GRAPH;
    };
    let code = hand_piece(desk.held.listing.heads.as_slice(), from, parts, count);
    put(slot, desk);
    code
}

/// The transactions of those chunks, in the order, from the place `from` on: as many as the array has room for, and how many were copied.
///
/// # Errors
///
/// - 1: the slot has no graph.
/// - 32: others come behind these.
#[unsafe(no_mangle)]
pub extern "C" fn txgraph_part_ids(
    alloc: Global,
    slot: &mut Slot,
    from: usize,
    ids: &mut [u64],
    count: &mut usize,
) -> u32
    ensures { OfSlot slot.old.handle.value slot.new.handle.value result ((ids.new ≡ ids.old) × (count.new ≡ count.old))
        (λ o n. (n ≡ o) × GivesPiece o.held.listing.ids.items from ids.old ids.new count.new result) }
{
    let Some(desk) = take(alloc, slot) else {
        return NO_GRAPH;
    };
    let code = hand_piece(desk.held.listing.ids.as_slice(), from, ids, count);
    put(slot, desk);
    code
}

/// The flows of those chunks, chunk by chunk, from the place `from` on: as many as the array has room for, and how many were copied.
///
/// # Errors
///
/// - 1: the slot has no graph.
/// - 32: others come behind these.
#[unsafe(no_mangle)]
pub extern "C" fn txgraph_flows(
    alloc: Global,
    slot: &mut Slot,
    from: usize,
    flows: &mut [FlowWords],
    count: &mut usize,
) -> u32
    ensures { OfSlot slot.old.handle.value slot.new.handle.value result ((flows.new ≡ flows.old) × (count.new ≡ count.old))
        (λ o n. (n ≡ o) × GivesPiece o.held.listing.flows.items from flows.old flows.new count.new result) }
{
    let Some(desk) = take(alloc, slot) else {
        return NO_GRAPH;
    };
    let code = hand_piece(desk.held.listing.flows.as_slice(), from, flows, count);
    put(slot, desk);
    code
}

/// Reads the corners of a level's feerate diagram (0 main, 1 top), from size 0 on. They stay with the graph as they were then, until corners
/// are read again, and are handed out in pieces: see `txgraph_corners`. Takes memory for all of them.
///
/// # Errors
///
/// - 1: the slot has no graph.
/// - 19 oversized: the level is over the limits of a cluster. 18: there is no memory.
#[unsafe(no_mangle)]
pub extern "C" fn txgraph_diagram(alloc: Global, slot: &mut Slot, level: u32, kept: &mut u64) -> u32
    ensures { Reads slot.old.handle.value slot.new.handle.value (commands.Diagram (level_named level)) result kept.old kept.new
        ShowsCorners }
{
    let Some(mut desk) = take(alloc, slot) else {
        return NO_GRAPH;
    };
    let code = read_corners(&mut desk, named_level(level), kept);
    put(slot, desk);
    code
}

/// The corners that were read last, from the place `from` on: as many as the array has room for, and how many were copied. Each is a size, and
/// the most that a closed set of that size pays.
///
/// # Errors
///
/// - 1: the slot has no graph.
/// - 32: others come behind these.
#[unsafe(no_mangle)]
pub extern "C" fn txgraph_corners(
    alloc: Global,
    slot: &mut Slot,
    from: usize,
    corners: &mut [Total],
    count: &mut usize,
) -> u32
    ensures { OfSlot slot.old.handle.value slot.new.handle.value result ((corners.new ≡ corners.old) × (count.new ≡ count.old))
        (λ o n. (n ≡ o) × GivesPiece o.held.corners from corners.old corners.new count.new result) }
{
    let Some(desk) = take(alloc, slot) else {
        return NO_GRAPH;
    };
    let code = hand_piece(desk.held.corners.as_slice(), from, corners, count);
    put(slot, desk);
    code
}

/// Reads the text of main, of which `txgraph_load` makes a graph again: lines `tx ID FEE SIZE` by rising name, then `edge PARENT CHILD` by rising
/// child and then by rising parent, then `end`. It stays with the graph as it was then, until a text is read again, and is handed out in
/// pieces: see `txgraph_text`. Mined blocks and a staging aren't in it.
///
/// # Errors
///
/// - 1: the slot has no graph.
/// - 19 oversized: main is over the limits of a cluster. 18 memory: there is no memory.
#[unsafe(no_mangle)]
pub extern "C" fn txgraph_dump(alloc: Global, slot: &mut Slot, kept: &mut u64) -> u32
    ensures { OfSlot slot.old.handle.value slot.new.handle.value result (kept.new ≡ kept.old)
        (λ o n. Gathers o n commands.Dump result kept.new ShowsText) }
{
    let Some(mut desk) = take(alloc, slot) else {
        return NO_GRAPH;
    };
    let code = read_text(&mut desk, kept);
    put(slot, desk);
    code
}

/// The bytes of the text that was read last, from the place `from` on: as many as the array has room for, and how many were copied.
///
/// # Errors
///
/// - 1: the slot has no graph.
/// - 32: others come behind these.
#[unsafe(no_mangle)]
pub extern "C" fn txgraph_text(
    alloc: Global,
    slot: &mut Slot,
    from: usize,
    bytes: &mut [u8],
    count: &mut usize,
) -> u32
    ensures { OfSlot slot.old.handle.value slot.new.handle.value result ((bytes.new ≡ bytes.old) × (count.new ≡ count.old))
        (λ o n. (n ≡ o) × GivesPiece o.held.text from bytes.old bytes.new count.new result) }
{
    let Some(desk) = take(alloc, slot) else {
        return NO_GRAPH;
    };
    let code = hand_piece(desk.held.text.as_slice(), from, bytes, count);
    put(slot, desk);
    code
}
