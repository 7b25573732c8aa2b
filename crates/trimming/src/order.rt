ghost use Rattle.std.specs.Prelude.{◌≡◌, IfOk};
ghost use Rattle.std.specs.Ordering.{is_lt};
ghost use Rattle.std.specs.List.Sorted.{IsPermutation, IsSortedBy};
ghost use Rattle.trimming.specs.Orders.{goes_before, some_rate};

use fee_rate::{FeeRate, cmp_rates};
use graphs::TxId;
use outside::NoMemory;
use std::alloc::Global;
use std::cmp::Ordering;

/// The transactions in the order in which candidates are looked at: by falling feerate, and among equal feerates by rising name.
pub(crate) fn sorted(
    alloc: Global,
    txs: &[(TxId, i64, u64)],
) -> Result<Vec<(TxId, i64, u64)>, NoMemory>
    ensures same { IfOk result (λ order. IsPermutation txs.now order.items) }
    ensures sorted { IfOk result (λ order. IsSortedBy goes_before order.items) }
{
    let mut order = Vec::from_slice(alloc, txs)?;
    order.sort_unstable_by(|a, b| compare(a, b));
    Ok(order)
}

/// Which of two transactions is looked at first.
fn compare(a: &(TxId, i64, u64), b: &(TxId, i64, u64)) -> Ordering
    ensures { is_lt result ≡ goes_before a.now b.now }
{
    cmp_rates(rate_of(b), rate_of(a)).then(a.0.cmp(&b.0))
}

/// The fee and the size of a transaction. A size of 0, which no transaction has, counts as 1, so that this is an order of whatever numbers.
fn rate_of(tx: &(TxId, i64, u64)) -> FeeRate
    ensures { result ≡ some_rate tx.now }
{
    FeeRate {
        fee: tx.1,
        size: tx.2.max(1),
    }
}
