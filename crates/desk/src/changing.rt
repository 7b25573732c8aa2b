//! Changes of a desk's graph.
ghost use Rattle.std.specs.Prelude.{◌≡◌, ◌≢◌, [], ℕ, ◌+◌, ◌-◌, ◌^◌, ◌<◌, ◌≤◌, ◌⊎◌, length};
ghost use Rattle.graph_model.specs.Commands.{Mine, Settle};
ghost use Rattle.desk.specs.Calls.{Answers, IsSpent, Nothing, ShowsVerdict};
ghost use Rattle.desk.specs.Requests.{change_command};

use crate::codes::{DONE, NO_NAMES, SPENT};
use crate::desk::Desk;
use crate::request::Change;
use crate::telling::{number_of_verdict, refuse, tell};
use graph_model::TxId;
use std::marker::Brand;
use std::sync::ledger;
use std::sync::ledger::Blank;
use step_count::{Counted, Steps};

/// Makes a change, where one more addition can be counted. The solver's steps are added to the caller's.
pub fn make_change(desk: &mut Desk, change: Change, kept: &mut u64, steps: &mut u64) -> u32
    ensures answers { IsSpent desk.old desk.new 1 result (kept.new ≡ kept.old)
        ⊎ Answers desk.old desk.new (change_command change) result kept.new Nothing }
    ensures rises { steps.old ≤ steps.new }
{
    if desk.pool.additions() == u64::MAX {
        return SPENT;
    }
    pay_change::<Brand>(desk, change, kept, steps, Blank::new(1))
}

/// Makes a change in a ledger of its own.
fn pay_change<K: ledger::Ledger>(
    desk: &mut Desk,
    change: Change,
    kept: &mut u64,
    steps: &mut u64,
    blank: Blank,
) -> u32
    requires name { blank.name ≡ K.name }
    requires parts { blank.parts ≡ K.parts }
    requires some { 0 < blank.parts }
    requires few { desk.old.pool.graph.levels.issued < 2 ^ 64 - 1 }
    ensures answers { Answers desk.old desk.new (change_command change) result kept.new Nothing }
    ensures rises { steps.old ≤ steps.new }
{
    let mut counted = Steps::new(Counted::<K>::new(blank));
    let outcome = desk.pool.change(change, &mut counted);
    *steps = steps.saturating_add(counted.ledger().shown());
    tell(outcome, kept)
}

/// Takes the transactions of a mined block out of main. The solver's steps are added to the caller's.
pub fn make_mine(desk: &mut Desk, ids: &[TxId], kept: &mut u64, steps: &mut u64) -> u32
    ensures answers { ((ids.now ≡ []) × (result ≡ 34) × (desk.new ≡ desk.old) × (kept.new ≡ kept.old))
        ⊎ Answers desk.old desk.new (Mine ids.now) result kept.new Nothing }
    ensures rises { steps.old ≤ steps.new }
{
    if ids.is_empty() {
        return NO_NAMES;
    }
    pay_mine::<Brand>(desk, ids, kept, steps, Blank::new(1))
}

/// Mines in a ledger of its own.
fn pay_mine<K: ledger::Ledger>(
    desk: &mut Desk,
    ids: &[TxId],
    kept: &mut u64,
    steps: &mut u64,
    blank: Blank,
) -> u32
    requires name { blank.name ≡ K.name }
    requires parts { blank.parts ≡ K.parts }
    requires some { 0 < blank.parts }
    requires list { ids.now ≢ [] }
    ensures answers { Answers desk.old desk.new (Mine ids.now) result kept.new Nothing }
    ensures rises { steps.old ≤ steps.new }
{
    let mut counted = Steps::new(Counted::<K>::new(blank));
    let outcome = desk.pool.mine(ids, &mut counted);
    *steps = steps.saturating_add(counted.ledger().shown());
    tell(outcome, kept)
}

/// Closes the staging, and tells how it stood to main.
pub fn make_settlement(desk: &mut Desk, verdict: &mut u32, kept: &mut u64) -> u32
    ensures { Answers desk.old desk.new Settle result kept.new (ShowsVerdict verdict.old verdict.new) }
{
    match desk.pool.settle() {
        Ok(found) => {
            *verdict = number_of_verdict(found);
            *kept = 0;
            DONE
        }
        Err(why) => refuse(why, kept),
    }
}
