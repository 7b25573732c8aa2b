use fee_rate::{FeeRate, Sum, add, cmp_full, cmp_rate, is_below, is_rate, is_sum, minus};
use std::cmp::Ordering;
use std::test::Fail;

fn sum(fee: i128, size: u64) -> Sum {
    Sum { fee, size }
}

/// Whether two sums compare so by rate and so in full, and the first is below where its rate is the lower one.
fn compare(a: Sum, b: Sum, by_rate: Ordering, in_full: Ordering) -> bool {
    if !is_sum(a) || !is_sum(b) || a.size < 1 || b.size < 1 {
        return false;
    }
    let below = by_rate == Ordering::Less;
    cmp_rate(a, b) == by_rate && cmp_full(a, b) == in_full && is_below(a, b) == below
}

/// The sum of two, and what is left of the first without the second.
fn added_and_left() -> (Sum, Sum) {
    let a = Sum { fee: 10, size: 4 };
    let b = Sum { fee: -2, size: 1 };
    (add(a, b), minus(a, b))
}

#[test]
fn rates_are_compared_exactly(rt: HostRuntime) -> Result<(), Fail> {
    let (less, equal) = (Ordering::Less, Ordering::Equal);
    assert!(rt; compare(sum(-2, 1), sum(10, 4), less, less));
    assert!(rt; compare(sum(10, 4), sum(5, 2), equal, less));
    assert!(rt; added_and_left() == (sum(8, 5), sum(12, 3)));
    assert!(rt; Sum::from(FeeRate { fee: -7, size: 9 }) == sum(-7, 9));
    Ok(())
}

/// Fees and sizes, and whether they are those of a transaction.
static RATES: [(i64, u64, bool); 7] = [
    (0, 1, true),
    (2_100_000_000_000_000, 4_000_000, true),
    (-2_100_000_000_000_000, 1, true),
    (2_100_000_000_000_001, 1, false),
    (i64::MIN, 1, false),
    (0, 0, false),
    (0, 4_000_001, false),
];

#[test]
fn rates_are_those_of_transactions(rt: HostRuntime) -> Result<(), Fail> {
    for (fee, size, fits) in &RATES {
        let rate = FeeRate {
            fee: *fee,
            size: *size,
        };
        assert!(rt; is_rate(rate) == *fits, "at {fee} over {size}");
    }
    Ok(())
}
