//! Questions to a desk's graph.
ghost use Rattle.std.specs.Prelude.{◌≡◌, ◌↔◌, ◌⊎◌, ◌+◌, ◌-◌, ℕ, List, [], length, drop, min, IsTrue};
ghost use Rattle.graph_model.specs.Commands.{Before, Chunk, Compare, Count};
ghost use Rattle.graph_model.specs.Replies.{Number};
ghost use Rattle.reorg.specs.Kept.{MakesStep, StandsFor};
ghost use Rattle.desk.specs.Calls.{Answers, GivesPiece, ShowsPart, ShowsPlace, ShowsVerdict, Tells, TellsRate, TellsThere, TellsOversized};
ghost use Rattle.desk.specs.Facts.{Judges, ShowsRate, TellsLeast, TellsLimits, TellsStaged};
ghost use Rattle.desk.specs.Copies.{copied};
ghost use Rattle.desk.specs.Finds.{ShowsIds};
ghost use Rattle.desk.specs.Orders.{CountsBlocks, SortsByMain, TellsCovers, TellsLast};
ghost use Rattle.desk.specs.Requests.{search_command};
ghost use Rattle.desk.specs.Unions.{CountsClusters, Unites};

use crate::codes::{DONE, MEMORY, NO_NAMES};
use crate::copying::{hand_out, hand_piece};
use crate::desk::Desk;
use crate::ordering::{gather_covers, last_chunk, sort_ids};
use crate::request::Search;
use crate::telling::{Rate, number_of_place, number_of_verdict, refuse, tell};
use graph_model::{Level, Limits, TxId};
use graphs::Kin;
use std::alloc::Global;

/// How staging stands to main.
pub fn tell_verdict(desk: &Desk, verdict: &mut u32, kept: &mut u64) -> u32
    ensures { Answers desk.now desk.now Compare result kept.new (ShowsVerdict verdict.old verdict.new) }
{
    match desk.pool.compare() {
        Ok(found) => {
            *verdict = number_of_verdict(found);
            *kept = 0;
            DONE
        }
        Err(why) => refuse(why, kept),
    }
}

/// Where one transaction stands to another in main's order.
pub fn tell_place(desk: &Desk, a: TxId, b: TxId, place: &mut u32, kept: &mut u64) -> u32
    ensures { Answers desk.now desk.now (Before a b) result kept.new (ShowsPlace place.old place.new) }
{
    match desk.pool.before(a, b) {
        Ok(found) => {
            *place = number_of_place(found);
            *kept = 0;
            DONE
        }
        Err(why) => refuse(why, kept),
    }
}

/// The chunk of main's order that has a transaction.
pub fn tell_chunk(
    desk: &Desk,
    id: TxId,
    rate: &mut Rate,
    ids: &mut [TxId],
    count: &mut usize,
    kept: &mut u64,
) -> u32
    ensures { Answers desk.now desk.now (Chunk id) result kept.new (ShowsPart rate.old rate.new ids.old ids.new count.old
        count.new) }
{
    match desk.pool.graph().chunk(id) {
        Ok(part) => {
            rate.fee = part.rate.fee;
            rate.size = part.rate.size;
            hand_out(part.ids, ids);
            *count = part.ids.len();
            *kept = 0;
            DONE
        }
        Err(why) => refuse(why, kept),
    }
}

/// The fee and the size of the chunk of main's order that has a transaction.
pub fn tell_chunk_rate(desk: &Desk, id: TxId, rate: &mut Rate, kept: &mut u64) -> u32
    ensures { Answers desk.now desk.now (Chunk id) result kept.new (ShowsRate rate.old rate.new) }
{
    match desk.pool.graph().main_chunk_rate(id) {
        Ok(found) => {
            rate.fee = found.fee;
            rate.size = found.size;
            *kept = 0;
            DONE
        }
        Err(why) => refuse(why, kept),
    }
}

/// What mining these transactions would be refused for.
pub fn tell_minable(desk: &mut Desk, ids: &[TxId], kept: &mut u64) -> u32
    ensures { ((ids.now ≡ []) × (result ≡ 34) × (desk.new ≡ desk.old) × (kept.new ≡ kept.old))
        ⊎ Judges desk.old desk.new ids.now result kept.new }
{
    if ids.is_empty() {
        return NO_NAMES;
    }
    let outcome = desk.pool.minable(ids);
    tell(outcome, kept)
}

/// Transactions of a transaction's cluster.
pub fn tell_found(
    desk: &mut Desk,
    search: Search,
    ids: &mut [TxId],
    count: &mut usize,
    kept: &mut u64,
) -> u32
    ensures { Tells desk.old desk.new (search_command search) result kept.new (ShowsIds ids.old ids.new count.old count.new) }
{
    let outcome = desk.pool.find(search, ids, count);
    tell(outcome, kept)
}

/// How many transactions a level has.
pub fn tell_count(desk: &Desk, level: Level) -> usize
    ensures { MakesStep desk.now.pool desk.now.pool (Count level) (Number result) }
{
    desk.pool.count(level)
}

/// Whether a level has a transaction.
pub fn is_there(desk: &Desk, level: Level, id: TxId) -> bool
    ensures { TellsThere desk.now level id result }
{
    desk.pool.graph().exists(level, id)
}

/// Whether a level is over the limits of a cluster.
pub fn is_oversized(desk: &Desk, level: Level) -> bool
    ensures { TellsOversized desk.now level result }
{
    desk.pool.graph().oversized(level)
}

/// The limits in force.
pub fn limits_of(desk: &Desk) -> Limits
    ensures { TellsLimits desk.now result }
{
    desk.pool.graph().limits()
}

/// Whether a staging is open.
pub fn is_staged(desk: &Desk) -> bool
    ensures { TellsStaged desk.now result }
{
    desk.pool.graph().staged()
}

/// A size that no transaction of main is below.
pub fn least_size(desk: &Desk) -> u64
    ensures { TellsLeast desk.now result }
{
    desk.pool.graph().least()
}

/// The fee and the size of a transaction, and whether it is live. Where it isn't, `rate` stays.
pub fn tell_rate(desk: &Desk, id: TxId, rate: &mut Rate) -> bool
    ensures { TellsRate desk.now id result rate.new }
{
    match desk.pool.graph().sums(id) {
        Some(found) => {
            rate.fee = found.fee;
            rate.size = found.size;
            true
        }
        None => false,
    }
}

/// The transactions that were picked, from a place on.
pub fn give_picked(desk: &Desk, from: usize, ids: &mut [TxId], count: &mut usize) -> u32
    ensures { GivesPiece desk.now.picked from ids.old ids.new count.new result }
{
    hand_piece(desk.picked.as_slice(), from, ids, count)
}

/// The ancestors of these transactions together, or their descendants.
pub fn tell_kin(
    desk: &mut Desk,
    kin: Kin,
    level: Level,
    names: &[TxId],
    ids: &mut [TxId],
    count: &mut usize,
) -> u32
    ensures { Unites desk.old desk.new kin level names.now result ids.old ids.new count.old count.new }
{
    let Ok(found) = desk.pool.kin(kin, level, names) else {
        return MEMORY;
    };
    show_ids(found.ids(), ids, count);
    DONE
}

/// Copies what was found to an array, and tells how many there are.
fn show_ids(found: &[TxId], ids: &mut [TxId], count: &mut usize)
    ensures items { ids.new ≡ copied found.now ids.old }
    ensures count { count.new ≡ length found.now }
{
    hand_out(found, ids);
    *count = found.len();
}

/// How many clusters of a level these transactions lie in.
pub fn tell_clusters(desk: &Desk, level: Level, ids: &[TxId], count: &mut usize) -> u32
    ensures { CountsClusters desk.now level ids.now result count.old count.new }
{
    match desk.pool.count_clusters(level, ids) {
        Ok(found) => {
            *count = found;
            DONE
        }
        Err(_) => MEMORY,
    }
}

/// The last chunk of main's order.
pub fn tell_last(
    desk: &Desk,
    rate: &mut Rate,
    ids: &mut [TxId],
    count: &mut usize,
    kept: &mut u64,
) -> u32
    ensures { TellsLast desk.now desk.now result kept.new (ShowsPart rate.old rate.new ids.old ids.new count.old count.new) }
{
    match last_chunk(desk.pool.graph()) {
        Ok(part) => {
            rate.fee = part.rate.fee;
            rate.size = part.rate.size;
            hand_out(part.ids, ids);
            *count = part.ids.len();
            *kept = 0;
            DONE
        }
        Err(why) => refuse(why, kept),
    }
}

/// The parents of a transaction with no third one between.
pub fn tell_covers(
    alloc: Global,
    desk: &Desk,
    level: Level,
    id: TxId,
    ids: &mut [TxId],
    count: &mut usize,
    kept: &mut u64,
) -> u32
    ensures { TellsCovers desk.now level id result kept.new ids.old ids.new count.old count.new }
{
    match gather_covers(alloc, desk.pool.graph(), level, id) {
        Ok(found) => {
            show_ids(found.as_slice(), ids, count);
            *kept = 0;
            DONE
        }
        Err(why) => refuse(why, kept),
    }
}

/// Puts transactions into main's order.
pub fn sort_by_main(desk: &Desk, ids: &mut [TxId]) -> u32
    ensures { SortsByMain (StandsFor desk.now.pool) ids.old ids.new result }
{
    sort_ids(desk.pool.graph(), ids)
}

/// How many mined blocks can be taken back, and how many transactions the latest has.
pub fn tell_blocks(desk: &Desk, count: &mut usize, latest: &mut usize)
    ensures { CountsBlocks desk.now count.new latest.new }
{
    *count = desk.pool.blocks();
    *latest = desk.pool.latest_count();
}
