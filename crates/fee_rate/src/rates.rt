ghost use Rattle.std.specs.Prelude.{◌≡◌, ◌+◌, ◌-◌, ◌*◌, ◌^◌, ◌<◌, ◌≤◌, pos, ◌+ℤ◌, ◌-ℤ◌, ◌*ℤ◌, unsigned_abs, MatchBool};
ghost use Rattle.fee_rate.specs.Limits.{InRange, IsSum};
ghost use Rattle.fee_rate.specs.Rates.{sum_from, AtMost, Below, ComparesFully, ComparesRates};

use crate::limits::{MAX_FEE, MAX_SIZE, MAX_TOTAL};
use std::cmp::Ordering;

/// The fee of a transaction, in satoshis, and its size, in virtual bytes.
#[derive(Clone, Copy, Debug, PartialEq, Eq)]
pub struct FeeRate {
    pub fee: i64,
    pub size: u64,
}

/// The total fee of some transactions, in satoshis, and their total size, in virtual bytes.
#[derive(Clone, Copy, Debug, PartialEq, Eq)]
pub struct Sum {
    pub fee: i128,
    pub size: u64,
}

impl From<FeeRate> for Sum {
    ghost from_gives = { λ rate sum. (sum.fee ≡ rate.fee) × (sum.size ≡ rate.size) };

    fn from(rate: FeeRate) -> Sum {
        Sum {
            fee: i128::from(rate.fee),
            size: rate.size,
        }
    }
}

/// Which of two rates is the lower one, fee over size. The products are exact whatever both are, so nothing is asked of either;
/// it is an order where sizes are at least 1.
#[inline(always)]
pub fn cmp_rates(a: FeeRate, b: FeeRate) -> Ordering
    ensures { ComparesRates (sum_from a) (sum_from b) result }
{
    times(a.fee, b.size).cmp(&times(b.fee, a.size))
}

/// Whether the first of two rates is the lower one, fee over size. As [`cmp_rates`], it asks nothing of either.
#[inline(always)]
pub fn is_lower(a: FeeRate, b: FeeRate) -> bool
    ensures { MatchBool result (Below (sum_from a) (sum_from b)) (AtMost (sum_from b) (sum_from a)) }
{
    cmp_rates(a, b).is_lt()
}

// A fee times a size, which 128 bits hold whatever both are.
#[inline(always)]
fn times(fee: i64, size: u64) -> i128
    ensures { result ≡ fee *ℤ pos size }
{
    i128::from(fee) * i128::from(size)
}

/// Which rate of two sums is the lower one, fee over size. Both sizes are at least 1.
pub fn cmp_rate(a: Sum, b: Sum) -> Ordering
    requires a_in { IsSum a }
    requires b_in { IsSum b }
    requires a_some { 1 ≤ a.size }
    requires b_some { 1 ≤ b.size }
    ensures { ComparesRates a b result }
{
    product(a.fee, b.size).cmp(&product(b.fee, a.size))
}

/// Whether the first rate is the lower one, fee over size. Both sizes are at least 1.
pub fn is_below(a: Sum, b: Sum) -> bool
    requires a_in { IsSum a }
    requires b_in { IsSum b }
    requires a_some { 1 ≤ a.size }
    requires b_some { 1 ≤ b.size }
    ensures { MatchBool result (Below a b) (AtMost b a) }
{
    match cmp_rate(a, b) {
        Ordering::Less => true,
        Ordering::Equal => false,
        Ordering::Greater => false,
    }
}

/// Which sum stands first by rising rate and, among equal rates, by falling size. Both sizes are at least 1.
/// It answers `Equal` only for equal numbers.
pub fn cmp_full(a: Sum, b: Sum) -> Ordering
    requires a_in { IsSum a }
    requires b_in { IsSum b }
    requires a_some { 1 ≤ a.size }
    requires b_some { 1 ≤ b.size }
    ensures { ComparesFully a b result }
{
    match cmp_rate(a, b) {
        Ordering::Less => Ordering::Less,
        Ordering::Equal => b.size.cmp(&a.size),
        Ordering::Greater => Ordering::Greater,
    }
}

/// The sum of both. The result is in range.
pub fn add(a: Sum, b: Sum) -> Sum
    requires a_in { IsSum a }
    requires b_in { IsSum b }
    requires in_range { InRange (a.fee +ℤ b.fee) (a.size + b.size) }
    ensures fee { result.fee ≡ a.fee +ℤ b.fee }
    ensures size { result.size ≡ a.size + b.size }
{
    Sum {
        fee: a.fee + b.fee,
        size: a.size + b.size,
    }
}

/// What is left of `a` without `b`. The result is in range, so `b` is not larger than `a`.
pub fn minus(a: Sum, b: Sum) -> Sum
    requires a_in { IsSum a }
    requires b_in { IsSum b }
    requires not_larger { b.size ≤ a.size }
    requires in_range { InRange (a.fee -ℤ b.fee) (a.size - b.size) }
    ensures fee { result.fee ≡ a.fee -ℤ b.fee }
    ensures size { result.size + b.size ≡ a.size }
{
    Sum {
        fee: a.fee - b.fee,
        size: a.size - b.size,
    }
}

/// A fee, or the difference of two, times a size, exactly. Of sums over a whole level it is below 2^114 in absolute value, of
/// sums over a cluster of at most 128 transactions below 2^88.
pub fn product(fee: i128, size: u64) -> i128
    requires fee { unsigned_abs fee ≤ 2 * (MAX_FEE * MAX_TOTAL) }
    requires size { size ≤ MAX_SIZE * MAX_TOTAL }
    ensures product { result ≡ fee *ℤ pos size }
    ensures level { unsigned_abs result < 2 ^ 114 }
    ensures cluster { unsigned_abs fee ≤ 2 * (MAX_FEE * 128) → size ≤ MAX_SIZE * 128 → unsigned_abs result < 2 ^ 88 }
{
    fee * i128::from(size)
}
