//! The calls that ask what several transactions have together. The graph stays as it is.
ghost use Rattle.std.specs.Prelude.{◌≡◌};
ghost use Rattle.graphs.specs.declared.names.Kin.TheVariants.{Ancestors, Descendants};
ghost use Rattle.txgraph_c.specs.Slots.{OfSlot};
ghost use Rattle.desk.specs.Numbers.{level_named};
ghost use Rattle.desk.specs.Unions.{CountsClusters, Unites};

use crate::slot::{Slot, put, take};
use desk::codes::NO_GRAPH;
use desk::reading::{tell_clusters, tell_kin};
use desk::telling::named_level;
use graph_model::{Level, TxId};
use graphs::Kin;
use std::alloc::Global;

/// Looks for ancestors or descendants of the transactions in a slot's graph.
fn united(
    alloc: Global,
    slot: &mut Slot,
    kin: Kin,
    level: Level,
    names: &[TxId],
    ids: &mut [TxId],
    count: &mut usize,
) -> u32
    ensures { OfSlot slot.old.handle.value slot.new.handle.value result ((ids.new ≡ ids.old) × (count.new ≡ count.old))
        (λ o n. Unites o n kin level names.now result ids.old ids.new count.old count.new) }
{
    let Some(mut desk) = take(alloc, slot) else {
        return NO_GRAPH;
    };
    let code = tell_kin(&mut desk, kin, level, names, ids, count);
    put(slot, desk);
    code
}

/// The ancestors of several transactions in a level (0 main, 1 top) together, themselves among them, in rising order: as many as the array has
/// room for, and how many there are. One that the level hasn't is passed over, and one may be listed twice. The level may be over the limits
/// of a cluster.
///
/// # Errors
///
/// - 1: the slot has no graph. 18 memory: there is no memory.
#[unsafe(no_mangle)]
pub extern "C" fn txgraph_ancestors_union(
    alloc: Global,
    slot: &mut Slot,
    level: u32,
    names: &[u64],
    ids: &mut [u64],
    count: &mut usize,
) -> u32
    ensures { OfSlot slot.old.handle.value slot.new.handle.value result ((ids.new ≡ ids.old) × (count.new ≡ count.old))
        (λ o n. Unites o n Ancestors (level_named level) names.now result ids.old ids.new count.old count.new) }
{
    united(
        alloc,
        slot,
        Kin::Ancestors,
        named_level(level),
        names,
        ids,
        count,
    )
}

/// The descendants of several transactions in a level (0 main, 1 top) together, themselves among them, in rising order: as many as the array
/// has room for, and how many there are. One that the level hasn't is passed over, and one may be listed twice. The level may be over the
/// limits of a cluster.
///
/// # Errors
///
/// - 1: the slot has no graph. 18 memory: there is no memory.
#[unsafe(no_mangle)]
pub extern "C" fn txgraph_descendants_union(
    alloc: Global,
    slot: &mut Slot,
    level: u32,
    names: &[u64],
    ids: &mut [u64],
    count: &mut usize,
) -> u32
    ensures { OfSlot slot.old.handle.value slot.new.handle.value result ((ids.new ≡ ids.old) × (count.new ≡ count.old))
        (λ o n. Unites o n Descendants (level_named level) names.now result ids.old ids.new count.old count.new) }
{
    united(
        alloc,
        slot,
        Kin::Descendants,
        named_level(level),
        names,
        ids,
        count,
    )
}

/// How many clusters of a level (0 main, 1 top) several transactions lie in. One that the level hasn't is passed over, and one may be listed
/// twice. The level may be over the limits of a cluster.
///
/// # Errors
///
/// - 1: the slot has no graph. 18 memory: there is no memory.
#[unsafe(no_mangle)]
pub extern "C" fn txgraph_count_distinct_clusters(
    alloc: Global,
    slot: &mut Slot,
    level: u32,
    ids: &[u64],
    count: &mut usize,
) -> u32
    ensures { OfSlot slot.old.handle.value slot.new.handle.value result (count.new ≡ count.old)
        (λ o n. (n ≡ o) × CountsClusters o (level_named level) ids.now result count.old count.new) }
{
    let Some(desk) = take(alloc, slot) else {
        return NO_GRAPH;
    };
    let code = tell_clusters(&desk, named_level(level), ids, count);
    put(slot, desk);
    code
}
