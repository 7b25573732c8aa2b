//! The calls that read which transactions and clusters a level has, and which mined blocks can be taken back.
ghost use Rattle.std.specs.Prelude.{◌≡◌, ◌⊎◌};
ghost use Rattle.txgraph_c.specs.Slots.{OfSlot};
ghost use Rattle.desk.specs.Calls.{GivesPiece, Knows, LacksRoom};
ghost use Rattle.desk.specs.Numbers.{level_named};
ghost use Rattle.desk.specs.Orders.{CountsBlocks, Holds, ShowsClusters, ShowsNames};

use crate::slot::{Slot, put, take};
use desk::codes::{DONE, NO_GRAPH};
use desk::copying::hand_piece;
use desk::keeping::{read_clusters, read_names};
use desk::reading::tell_blocks;
use desk::telling::named_level;
use std::alloc::Global;

/// Reads the transactions of a level (0 main, 1 top), in rising order. They stay with the graph as they were then, until they are read again,
/// and are handed out in pieces: see `txgraph_ids`. The level may be over the limits of a cluster. Takes memory for all of them.
///
/// # Errors
///
/// - 1: the slot has no graph. 18 memory: there is no memory.
#[unsafe(no_mangle)]
pub extern "C" fn txgraph_names(alloc: Global, slot: &mut Slot, level: u32, kept: &mut u64) -> u32
    ensures { OfSlot slot.old.handle.value slot.new.handle.value result (kept.new ≡ kept.old)
        (λ o n. LacksRoom o n result kept.new ⊎ Holds o n result kept.new (ShowsNames (level_named level))) }
{
    let Some(mut desk) = take(alloc, slot) else {
        return NO_GRAPH;
    };
    let code = read_names(alloc, &mut desk, named_level(level), kept);
    put(slot, desk);
    code
}

/// The transactions that were read last, from the place `from` on: as many as the array has room for, and how many were copied.
///
/// # Errors
///
/// - 1: the slot has no graph.
/// - 32: others come behind these.
#[unsafe(no_mangle)]
pub extern "C" fn txgraph_ids(
    alloc: Global,
    slot: &mut Slot,
    from: usize,
    ids: &mut [u64],
    count: &mut usize,
) -> u32
    ensures { OfSlot slot.old.handle.value slot.new.handle.value result ((ids.new ≡ ids.old) × (count.new ≡ count.old))
        (λ o n. (n ≡ o) × GivesPiece o.held.names from ids.old ids.new count.new result) }
{
    let Some(desk) = take(alloc, slot) else {
        return NO_GRAPH;
    };
    let code = hand_piece(desk.held.names.as_slice(), from, ids, count);
    put(slot, desk);
    code
}

/// Reads the clusters of a level (0 main, 1 top), in no order, also those that are over the limits. They stay with the graph as they were then, until
/// they are read again, and are handed out in pieces: see `txgraph_cluster_counts` and `txgraph_cluster_ids`. Takes memory for all of them.
///
/// # Errors
///
/// - 1: the slot has no graph. 18 memory: there is no memory.
#[unsafe(no_mangle)]
pub extern "C" fn txgraph_clusters(
    alloc: Global,
    slot: &mut Slot,
    level: u32,
    kept: &mut u64,
) -> u32
    ensures { OfSlot slot.old.handle.value slot.new.handle.value result (kept.new ≡ kept.old)
        (λ o n. LacksRoom o n result kept.new ⊎ Holds o n result kept.new (ShowsClusters (level_named level))) }
{
    let Some(mut desk) = take(alloc, slot) else {
        return NO_GRAPH;
    };
    let code = read_clusters(alloc, &mut desk, named_level(level), kept);
    put(slot, desk);
    code
}

/// How many transactions each of the clusters has that were read last, from the place `from` on: of as many as the array has room for, and how
/// many were copied.
///
/// # Errors
///
/// - 1: the slot has no graph.
/// - 32: others come behind these.
#[unsafe(no_mangle)]
pub extern "C" fn txgraph_cluster_counts(
    alloc: Global,
    slot: &mut Slot,
    from: usize,
    counts: &mut [usize],
    count: &mut usize,
) -> u32
    ensures { OfSlot slot.old.handle.value slot.new.handle.value result ((counts.new ≡ counts.old) × (count.new ≡ count.old))
        (λ o n. (n ≡ o) × GivesPiece o.held.cluster_counts from counts.old counts.new count.new result) }
{
    let Some(desk) = take(alloc, slot) else {
        return NO_GRAPH;
    };
    let code = hand_piece(desk.held.cluster_counts.as_slice(), from, counts, count);
    put(slot, desk);
    code
}

/// The transactions of the clusters that were read last, of one after the other, from the place `from` on: as many as the array has room for, and
/// how many were copied.
///
/// # Errors
///
/// - 1: the slot has no graph.
/// - 32: others come behind these.
#[unsafe(no_mangle)]
pub extern "C" fn txgraph_cluster_ids(
    alloc: Global,
    slot: &mut Slot,
    from: usize,
    ids: &mut [u64],
    count: &mut usize,
) -> u32
    ensures { OfSlot slot.old.handle.value slot.new.handle.value result ((ids.new ≡ ids.old) × (count.new ≡ count.old))
        (λ o n. (n ≡ o) × GivesPiece o.held.cluster_ids from ids.old ids.new count.new result) }
{
    let Some(desk) = take(alloc, slot) else {
        return NO_GRAPH;
    };
    let code = hand_piece(desk.held.cluster_ids.as_slice(), from, ids, count);
    put(slot, desk);
    code
}

/// How many mined blocks can be taken back, at most 100, and how many transactions the latest of them has; 0 where there is none.
///
/// # Errors
///
/// - 1: the slot has no graph.
#[unsafe(no_mangle)]
pub extern "C" fn txgraph_blocks(
    alloc: Global,
    slot: &mut Slot,
    count: &mut usize,
    latest: &mut usize,
) -> u32
    ensures { OfSlot slot.old.handle.value slot.new.handle.value result ((count.new ≡ count.old) × (latest.new ≡ latest.old))
        (λ o n. Knows o n result (CountsBlocks o count.new latest.new)) }
{
    let Some(desk) = take(alloc, slot) else {
        return NO_GRAPH;
    };
    tell_blocks(&desk, count, latest);
    put(slot, desk);
    DONE
}
