//! Answers as numbers.
ghost use Rattle.std.specs.Prelude.{◌≡◌};
ghost use Rattle.graph_model.specs.Replies.{Refused, change_reply, picked_sum};
ghost use Rattle.desk.specs.Numbers.{code_of, kept_of, level_named, place_number, verdict_number};
ghost use Rattle.desk.specs.Copies.{total_of};

use crate::codes::DONE;
use fee_rate::Sum;
use graph_model::{Level, Picked, Place, Refusal, Verdict};

/// A fee in satoshis, and a size in virtual bytes.
#[repr(C)]
#[derive(Clone, Copy)]
pub struct Rate {
    pub fee: i64,
    pub size: u64,
}

/// The fee of several transactions together, in satoshis, and their size, in virtual bytes. The amount of the fee may pass 64 bits: it is
/// 2^64 · `high` + `low`, and the fee is that amount below 0 where it is negative.
#[repr(C)]
#[derive(Clone, Copy)]
pub struct Total {
    pub negative: bool,
    pub high: u64,
    pub low: u64,
    pub size: u64,
}

/// What lies above 64 bits.
pub(crate) const WORD: u128 = 18_446_744_073_709_551_616;

/// The level that a number names: 0 is main, any other the top level.
pub fn named_level(number: u32) -> Level
    ensures { result ≡ level_named number }
{
    if number == 0 { Level::Main } else { Level::Top }
}

/// The number of a verdict.
pub fn number_of_verdict(verdict: Verdict) -> u32
    ensures { result ≡ verdict_number verdict }
{
    match verdict {
        Verdict::Better => 0,
        Verdict::Worse => 1,
        Verdict::Equal => 2,
        Verdict::Incomparable => 3,
    }
}

/// The number of a place.
pub fn number_of_place(place: Place) -> u32
    ensures { result ≡ place_number place }
{
    match place {
        Place::Before => 0,
        Place::Same => 1,
        Place::After => 2,
    }
}

/// A sum in words.
pub fn total_of_sum(sum: Sum) -> Total
    ensures { result ≡ total_of sum }
{
    let amount = sum.fee.unsigned_abs();
    Total {
        negative: sum.fee < 0,
        high: (amount / WORD) as u64,
        low: (amount % WORD) as u64,
        size: sum.size,
    }
}

/// The fee and the size of what was picked, in words.
pub fn sum_of_picked(picked: &Picked) -> Total
    ensures { result ≡ total_of (picked_sum picked.now) }
{
    total_of_sum(Sum {
        fee: picked.fee,
        size: picked.size,
    })
}

/// Tells a refusal, and the number that it keeps.
pub fn refuse(why: Refusal, kept: &mut u64) -> u32
    ensures code { result ≡ code_of (Refused why) }
    ensures kept { kept.new ≡ kept_of (Refused why) }
{
    *kept = why.kept().unwrap_or(0);
    why.number() as u32
}

/// Tells how a change was answered.
pub fn tell(outcome: Result<(), Refusal>, kept: &mut u64) -> u32
    ensures code { result ≡ code_of (change_reply outcome) }
    ensures kept { kept.new ≡ kept_of (change_reply outcome) }
{
    match outcome {
        Ok(()) => {
            *kept = 0;
            DONE
        }
        Err(why) => refuse(why, kept),
    }
}
