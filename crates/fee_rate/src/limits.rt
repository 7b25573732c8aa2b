//! What a transaction may pay, how large it may be, and how many of them are added up: each limit stands here, once.
ghost use Rattle.std.specs.Prelude.{◌≡◌, ◌↔◌, true, IsTrue};
ghost use Rattle.fee_rate.specs.Limits.{IsFee, IsRate, IsSize, IsSum};

use crate::{FeeRate, Sum};

/// What a transaction may pay at most and, as a negative fee, at least, in satoshis: all the money there is.
pub const MAX_FEE: u64 = 2_100_000_000_000_000;

/// How large a transaction may be, in virtual bytes.
pub const MAX_SIZE: u64 = 4_000_000;

/// The most transactions that are live at a time, and the most over which fees and sizes are added up.
pub const MAX_TOTAL: u64 = 1_048_576;

/// Whether a transaction may pay this fee, in satoshis.
pub fn is_fee(fee: i64) -> bool
    ensures { IsTrue result ↔ IsFee fee }
{
    fee.unsigned_abs() <= MAX_FEE
}

/// Whether a transaction may have this size, in virtual bytes.
pub fn is_size(size: u64) -> bool
    ensures { IsTrue result ↔ IsSize size }
{
    (1..=MAX_SIZE).contains(&size)
}

/// Whether a fee and a size are those of a transaction.
pub fn is_rate(rate: FeeRate) -> bool
    ensures { (result ≡ true) ↔ IsRate rate }
{
    is_fee(rate.fee) && is_size(rate.size)
}

/// Whether a fee and a size are in the range of a sum over at most `MAX_TOTAL` transactions.
pub fn is_sum(sum: Sum) -> bool
    ensures { IsTrue result ↔ IsSum sum }
{
    sum.fee.unsigned_abs() <= u128::from(MAX_FEE) * u128::from(MAX_TOTAL)
        && sum.size <= MAX_SIZE * MAX_TOTAL
}
