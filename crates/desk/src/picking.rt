//! Transactions that are picked: by an eviction, by trimming, for a block, and those of a block that is taken back.
ghost use Rattle.std.specs.Prelude.{◌≡◌, ℕ, ◌+◌, ◌-◌, ◌^◌, ◌<◌, ◌≤◌, ◌⊎◌, length};
ghost use Rattle.graph_model.specs.Commands.{Block, Evict, Trim, Unmine};
ghost use Rattle.graph_model.specs.Refusals.{latest_ids};
ghost use Rattle.graph_model.specs.Replies.{built_reply, evicted_reply, trimmed_reply};
ghost use Rattle.reorg.specs.Kept.{MakesStep};
ghost use Rattle.desk.specs.Calls.{Answers, IsSpent, Nothing, ShowsTotal};

use crate::codes::{DONE, SPENT};
use crate::desk::Desk;
use crate::telling::{Total, refuse, sum_of_picked};
use std::marker::Brand;
use std::sync::ledger;
use std::sync::ledger::Blank;
use step_count::{Counted, Steps};

/// Drops the last part of main's order. The solver's steps are added to the caller's.
pub fn evict_last<K: ledger::Ledger>(
    desk: &mut Desk,
    total: &mut Total,
    kept: &mut u64,
    steps: &mut u64,
    blank: Blank,
) -> u32
    requires name { blank.name ≡ K.name }
    requires parts { blank.parts ≡ K.parts }
    requires some { 0 < blank.parts }
    ensures answers { Answers desk.old desk.new Evict result kept.new (ShowsTotal total.old total.new) }
    ensures rises { steps.old ≤ steps.new }
{
    let mut counted = Steps::new(Counted::<K>::new(blank));
    let outcome = desk.pool.evict(&mut counted);
    *steps = steps.saturating_add(counted.ledger().shown());
    match outcome {
        Ok(picked) => {
            *total = sum_of_picked(&picked);
            desk.picked = picked.ids;
            *kept = 0;
            DONE
        }
        Err(why) => refuse(why, kept),
    }
}

/// Cuts the top level back to its limits. The solver's steps are added to the caller's.
pub fn trim_top<K: ledger::Ledger>(
    desk: &mut Desk,
    total: &mut Total,
    kept: &mut u64,
    steps: &mut u64,
    blank: Blank,
) -> u32
    requires name { blank.name ≡ K.name }
    requires parts { blank.parts ≡ K.parts }
    requires some { 0 < blank.parts }
    ensures answers { Answers desk.old desk.new Trim result kept.new (ShowsTotal total.old total.new) }
    ensures rises { steps.old ≤ steps.new }
{
    let mut counted = Steps::new(Counted::<K>::new(blank));
    let outcome = desk.pool.trim(&mut counted);
    *steps = steps.saturating_add(counted.ledger().shown());
    match outcome {
        Ok(picked) => {
            *total = sum_of_picked(&picked);
            desk.picked = picked.ids;
            *kept = 0;
            DONE
        }
        Err(why) => refuse(why, kept),
    }
}

/// Puts the transactions of the latest block back, where as many more additions can be counted. The solver's steps are added to the
/// caller's.
pub fn take_back(desk: &mut Desk, kept: &mut u64, steps: &mut u64) -> u32
    ensures answers { IsSpent desk.old desk.new (length (latest_ids desk.old.pool.blocks)) result (kept.new ≡ kept.old)
        ⊎ Answers desk.old desk.new Unmine result kept.new Nothing }
    ensures rises { steps.old ≤ steps.new }
{
    let more = desk.pool.latest_count() as u64;
    if more > u64::MAX - desk.pool.additions() {
        return SPENT;
    }
    pay_back::<Brand>(desk, kept, steps, Blank::new(1))
}

/// Puts them back in a ledger of its own.
fn pay_back<K: ledger::Ledger>(
    desk: &mut Desk,
    kept: &mut u64,
    steps: &mut u64,
    blank: Blank,
) -> u32
    requires name { blank.name ≡ K.name }
    requires parts { blank.parts ≡ K.parts }
    requires some { 0 < blank.parts }
    requires few { desk.old.pool.graph.levels.issued + length (latest_ids desk.old.pool.blocks) ≤ 2 ^ 64 - 1 }
    ensures answers { Answers desk.old desk.new Unmine result kept.new Nothing }
    ensures rises { steps.old ≤ steps.new }
{
    let mut counted = Steps::new(Counted::<K>::new(blank));
    let outcome = desk.pool.unmine(&mut counted);
    *steps = steps.saturating_add(counted.ledger().shown());
    match outcome {
        Ok(ids) => {
            desk.picked = ids;
            *kept = 0;
            DONE
        }
        Err(why) => refuse(why, kept),
    }
}

/// Fills a block of main of at most so many virtual bytes.
pub fn fill_block(desk: &mut Desk, size: u64, total: &mut Total, kept: &mut u64) -> u32
    ensures answers { Answers desk.old desk.new (Block size) result kept.new (ShowsTotal total.old total.new) }
    ensures same { desk.new.pool ≡ desk.old.pool }
{
    match desk.pool.block(size) {
        Ok(picked) => {
            *total = sum_of_picked(&picked);
            desk.picked = picked.ids;
            *kept = 0;
            DONE
        }
        Err(why) => refuse(why, kept),
    }
}
