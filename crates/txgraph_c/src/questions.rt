//! The calls that ask a graph, and leave it as it is.
ghost use Rattle.std.specs.Prelude.{◌≡◌};
ghost use Rattle.graph_model.specs.Commands.{Ancestors, Before, Block, Chunk, Cluster, Compare, Count, Descendants};
ghost use Rattle.graph_model.specs.Replies.{Number};
ghost use Rattle.reorg.specs.Kept.{MakesStep};
ghost use Rattle.txgraph_c.specs.Slots.{Asks, Makes, OfSlot, MayMine};
ghost use Rattle.desk.specs.Calls.{GivesPiece, Knows, ShowsPart, ShowsPlace, ShowsTotal, ShowsVerdict, Tells, TellsOversized, TellsRate, TellsThere};
ghost use Rattle.desk.specs.Numbers.{level_named};
ghost use Rattle.desk.specs.Facts.{ShowsRate};
ghost use Rattle.desk.specs.Finds.{ShowsIds};
ghost use Rattle.desk.specs.Orders.{TellsCovers};
ghost use Rattle.desk.specs.Requests.{search_command};

use crate::slot::{Slot, put, take};
use desk::codes::{DONE, NO_GRAPH};
use desk::picking::fill_block;
use desk::reading::{
    give_picked, is_oversized, is_there, tell_chunk, tell_chunk_rate, tell_count, tell_covers,
    tell_found, tell_minable, tell_place, tell_rate, tell_verdict,
};
use desk::request::Search;
use desk::telling::{Rate, Total, named_level};
use std::alloc::Global;

/// How staging's feerate diagram stands to main's: 0 better, 1 worse, 2 equal, 3 incomparable.
///
/// # Errors
///
/// - 1: the slot has no graph.
/// - 17 nostaging: none is open. 19 oversized: main or staging is over the limits of a cluster.
#[unsafe(no_mangle)]
pub extern "C" fn txgraph_compare(
    alloc: Global,
    slot: &mut Slot,
    verdict: &mut u32,
    kept: &mut u64,
) -> u32
    ensures { Asks slot.old.handle.value slot.new.handle.value Compare result kept.old kept.new verdict.old verdict.new
        ShowsVerdict }
{
    let Some(desk) = take(alloc, slot) else {
        return NO_GRAPH;
    };
    let code = tell_verdict(&desk, verdict, kept);
    put(slot, desk);
    code
}

/// Where `a` stands to `b` in main's order: 0 before, 1 the same transaction, 2 after.
///
/// # Errors
///
/// - 1: the slot has no graph.
/// - 10 unknown, with the first of the two that isn't in main. 19 oversized: main is over the limits of a cluster.
#[unsafe(no_mangle)]
pub extern "C" fn txgraph_before(
    alloc: Global,
    slot: &mut Slot,
    a: u64,
    b: u64,
    place: &mut u32,
    kept: &mut u64,
) -> u32
    ensures { Asks slot.old.handle.value slot.new.handle.value (Before a b) result kept.old kept.new place.old place.new
        ShowsPlace }
{
    let Some(desk) = take(alloc, slot) else {
        return NO_GRAPH;
    };
    let code = tell_place(&desk, a, b, place, kept);
    put(slot, desk);
    code
}

/// The chunk of main's order that has a transaction: its fee and size, its transactions in their order, as many as the array has room for, and
/// how many there are, at most 128.
///
/// # Errors
///
/// - 1: the slot has no graph.
/// - 10 unknown, with the name: main hasn't the transaction. 19 oversized: main is over the limits of a cluster.
#[unsafe(no_mangle)]
pub extern "C" fn txgraph_chunk(
    alloc: Global,
    slot: &mut Slot,
    id: u64,
    rate: &mut Rate,
    ids: &mut [u64],
    count: &mut usize,
    kept: &mut u64,
) -> u32
    ensures { OfSlot slot.old.handle.value slot.new.handle.value result
        ((kept.new ≡ kept.old) × (rate.new ≡ rate.old) × (ids.new ≡ ids.old) × (count.new ≡ count.old))
        (λ o n. Tells o n (Chunk id) result kept.new (ShowsPart rate.old rate.new ids.old ids.new count.old count.new)) }
{
    let Some(desk) = take(alloc, slot) else {
        return NO_GRAPH;
    };
    let code = tell_chunk(&desk, id, rate, ids, count, kept);
    put(slot, desk);
    code
}

/// The fee and the size of the chunk of main's order that has a transaction.
///
/// # Errors
///
/// - 1: the slot has no graph.
/// - 10 unknown, with the name: main hasn't the transaction. 19 oversized: main is over the limits of a cluster.
#[unsafe(no_mangle)]
pub extern "C" fn txgraph_main_chunk_rate(
    alloc: Global,
    slot: &mut Slot,
    id: u64,
    rate: &mut Rate,
    kept: &mut u64,
) -> u32
    ensures { Asks slot.old.handle.value slot.new.handle.value (Chunk id) result kept.old kept.new rate.old rate.new
        ShowsRate }
{
    let Some(desk) = take(alloc, slot) else {
        return NO_GRAPH;
    };
    let code = tell_chunk_rate(&desk, id, rate, kept);
    put(slot, desk);
    code
}

/// Looks for transactions of a transaction's cluster.
fn searched(
    alloc: Global,
    slot: &mut Slot,
    search: Search,
    ids: &mut [u64],
    count: &mut usize,
    kept: &mut u64,
) -> u32
    ensures { OfSlot slot.old.handle.value slot.new.handle.value result
        ((kept.new ≡ kept.old) × (ids.new ≡ ids.old) × (count.new ≡ count.old))
        (λ o n. Tells o n (search_command search) result kept.new (ShowsIds ids.old ids.new count.old count.new)) }
{
    let Some(mut desk) = take(alloc, slot) else {
        return NO_GRAPH;
    };
    let code = tell_found(&mut desk, search, ids, count, kept);
    put(slot, desk);
    code
}

/// The transactions of a transaction's cluster in a level (0 main, 1 top), itself among them, in rising order: as many as the array has room
/// for, and how many there are, at most 128.
///
/// # Errors
///
/// - 1: the slot has no graph.
/// - 10 unknown, with the name: the level hasn't the transaction. 19 oversized: the level is over the limits of a cluster.
#[unsafe(no_mangle)]
pub extern "C" fn txgraph_cluster(
    alloc: Global,
    slot: &mut Slot,
    level: u32,
    id: u64,
    ids: &mut [u64],
    count: &mut usize,
    kept: &mut u64,
) -> u32
    ensures { OfSlot slot.old.handle.value slot.new.handle.value result
        ((kept.new ≡ kept.old) × (ids.new ≡ ids.old) × (count.new ≡ count.old))
        (λ o n. Tells o n (Cluster id (level_named level)) result kept.new (ShowsIds ids.old ids.new count.old count.new)) }
{
    searched(
        alloc,
        slot,
        Search::Cluster(id, named_level(level)),
        ids,
        count,
        kept,
    )
}

/// The ancestors of a transaction in a level (0 main, 1 top), itself among them, in rising order: as many as the array has room for, and how
/// many there are, at most 128.
///
/// # Errors
///
/// - 1: the slot has no graph.
/// - 10 unknown, with the name: the level hasn't the transaction. 19 oversized: the level is over the limits of a cluster.
#[unsafe(no_mangle)]
pub extern "C" fn txgraph_ancestors(
    alloc: Global,
    slot: &mut Slot,
    level: u32,
    id: u64,
    ids: &mut [u64],
    count: &mut usize,
    kept: &mut u64,
) -> u32
    ensures { OfSlot slot.old.handle.value slot.new.handle.value result
        ((kept.new ≡ kept.old) × (ids.new ≡ ids.old) × (count.new ≡ count.old))
        (λ o n. Tells o n (Ancestors id (level_named level)) result kept.new (ShowsIds ids.old ids.new count.old count.new)) }
{
    searched(
        alloc,
        slot,
        Search::Ancestors(id, named_level(level)),
        ids,
        count,
        kept,
    )
}

/// The descendants of a transaction in a level (0 main, 1 top), itself among them, in rising order: as many as the array has room for, and how
/// many there are, at most 128.
///
/// # Errors
///
/// - 1: the slot has no graph.
/// - 10 unknown, with the name: the level hasn't the transaction. 19 oversized: the level is over the limits of a cluster.
#[unsafe(no_mangle)]
pub extern "C" fn txgraph_descendants(
    alloc: Global,
    slot: &mut Slot,
    level: u32,
    id: u64,
    ids: &mut [u64],
    count: &mut usize,
    kept: &mut u64,
) -> u32
    ensures { OfSlot slot.old.handle.value slot.new.handle.value result
        ((kept.new ≡ kept.old) × (ids.new ≡ ids.old) × (count.new ≡ count.old))
        (λ o n. Tells o n (Descendants id (level_named level)) result kept.new (ShowsIds ids.old ids.new count.old count.new)) }
{
    searched(
        alloc,
        slot,
        Search::Descendants(id, named_level(level)),
        ids,
        count,
        kept,
    )
}

/// The parents of a transaction in a level (0 main, 1 top) with no third transaction between, as they stand in the level's order: as many as the
/// array has room for, and how many there are, at most 127.
///
/// # Errors
///
/// - 1: the slot has no graph.
/// - 10 unknown, with the name: the level hasn't the transaction. 19 oversized: the level is over the limits of a cluster. 18 memory: there is
///   no memory.
#[unsafe(no_mangle)]
pub extern "C" fn txgraph_covers(
    alloc: Global,
    slot: &mut Slot,
    level: u32,
    id: u64,
    ids: &mut [u64],
    count: &mut usize,
    kept: &mut u64,
) -> u32
    ensures { OfSlot slot.old.handle.value slot.new.handle.value result
        ((kept.new ≡ kept.old) × (ids.new ≡ ids.old) × (count.new ≡ count.old))
        (λ o n. (n ≡ o) × TellsCovers o (level_named level) id result kept.new ids.old ids.new count.old count.new) }
{
    let Some(desk) = take(alloc, slot) else {
        return NO_GRAPH;
    };
    let code = tell_covers(alloc, &desk, named_level(level), id, ids, count, kept);
    put(slot, desk);
    code
}

/// How many transactions a level (0 main, 1 top) has.
///
/// # Errors
///
/// - 1: the slot has no graph.
#[unsafe(no_mangle)]
pub extern "C" fn txgraph_count(
    alloc: Global,
    slot: &mut Slot,
    level: u32,
    count: &mut usize,
) -> u32
    ensures { OfSlot slot.old.handle.value slot.new.handle.value result (count.new ≡ count.old)
        (λ o n. Knows o n result (MakesStep o.pool o.pool (Count (level_named level)) (Number count.new))) }
{
    let Some(desk) = take(alloc, slot) else {
        return NO_GRAPH;
    };
    let found = tell_count(&desk, named_level(level));
    *count = found;
    put(slot, desk);
    DONE
}

/// Whether a level (0 main, 1 top) has a transaction.
///
/// # Errors
///
/// - 1: the slot has no graph.
#[unsafe(no_mangle)]
pub extern "C" fn txgraph_exists(
    alloc: Global,
    slot: &mut Slot,
    level: u32,
    id: u64,
    there: &mut bool,
) -> u32
    ensures { OfSlot slot.old.handle.value slot.new.handle.value result (there.new ≡ there.old)
        (λ o n. Knows o n result (TellsThere o (level_named level) id there.new)) }
{
    let Some(desk) = take(alloc, slot) else {
        return NO_GRAPH;
    };
    *there = is_there(&desk, named_level(level), id);
    put(slot, desk);
    DONE
}

/// Whether a level (0 main, 1 top) is over the limits of a cluster, so that it has no order.
///
/// # Errors
///
/// - 1: the slot has no graph.
#[unsafe(no_mangle)]
pub extern "C" fn txgraph_oversized(
    alloc: Global,
    slot: &mut Slot,
    level: u32,
    over: &mut bool,
) -> u32
    ensures { OfSlot slot.old.handle.value slot.new.handle.value result (over.new ≡ over.old)
        (λ o n. Knows o n result (TellsOversized o (level_named level) over.new)) }
{
    let Some(desk) = take(alloc, slot) else {
        return NO_GRAPH;
    };
    *over = is_oversized(&desk, named_level(level));
    put(slot, desk);
    DONE
}

/// Whether a transaction is in main or in staging, and its fee in satoshis and its size in virtual bytes where it is.
///
/// # Errors
///
/// - 1: the slot has no graph.
#[unsafe(no_mangle)]
pub extern "C" fn txgraph_sums(
    alloc: Global,
    slot: &mut Slot,
    id: u64,
    live: &mut bool,
    rate: &mut Rate,
) -> u32
    ensures { OfSlot slot.old.handle.value slot.new.handle.value result ((live.new ≡ live.old) × (rate.new ≡ rate.old))
        (λ o n. Knows o n result (TellsRate o id live.new rate.new)) }
{
    let Some(desk) = take(alloc, slot) else {
        return NO_GRAPH;
    };
    *live = tell_rate(&desk, id, rate);
    put(slot, desk);
    DONE
}

/// What `txgraph_mine` would be refused for with these transactions, other than for want of memory. Nothing is mined.
///
/// # Errors
///
/// - 1: the slot has no graph. 34: the list is empty.
/// - 13 staging: one is open. 14 twice, with the first transaction that is listed a second time. 10 unknown, with the first that main
///   hasn't. 15 parent, with the first that has an ancestor which isn't listed.
#[unsafe(no_mangle)]
pub extern "C" fn txgraph_minable(
    alloc: Global,
    slot: &mut Slot,
    ids: &[u64],
    kept: &mut u64,
) -> u32
    ensures { MayMine slot.old.handle.value slot.new.handle.value ids.now result kept.old kept.new }
{
    let Some(mut desk) = take(alloc, slot) else {
        return NO_GRAPH;
    };
    let code = tell_minable(&mut desk, ids, kept);
    put(slot, desk);
    code
}

/// Fills a block of main of at most so many virtual bytes: tells its fee and size, and picks its transactions in their order: see
/// `txgraph_picked`. Main stays as it is.
///
/// # Errors
///
/// - 1: the slot has no graph.
/// - 19 oversized: main is over the limits of a cluster. 18 memory: there is no memory.
#[unsafe(no_mangle)]
pub extern "C" fn txgraph_block(
    alloc: Global,
    slot: &mut Slot,
    size: u64,
    total: &mut Total,
    kept: &mut u64,
) -> u32
    ensures { Makes slot.old.handle.value slot.new.handle.value (Block size) result kept.old kept.new total.old total.new
        ShowsTotal }
{
    let Some(mut desk) = take(alloc, slot) else {
        return NO_GRAPH;
    };
    let code = fill_block(&mut desk, size, total, kept);
    put(slot, desk);
    code
}

/// The transactions that the latest eviction, trimming, block or taking back picked, from the place `from` on: as many as the array has room
/// for, and how many were copied. A piece goes on where the last ended if `from` is the sum of the counts so far.
///
/// # Errors
///
/// - 1: the slot has no graph.
/// - 32: others come behind these.
#[unsafe(no_mangle)]
pub extern "C" fn txgraph_picked(
    alloc: Global,
    slot: &mut Slot,
    from: usize,
    ids: &mut [u64],
    count: &mut usize,
) -> u32
    ensures { OfSlot slot.old.handle.value slot.new.handle.value result ((ids.new ≡ ids.old) × (count.new ≡ count.old))
        (λ o n. (n ≡ o) × GivesPiece o.picked from ids.old ids.new count.new result) }
{
    let Some(desk) = take(alloc, slot) else {
        return NO_GRAPH;
    };
    let code = give_picked(&desk, from, ids, count);
    put(slot, desk);
    code
}
