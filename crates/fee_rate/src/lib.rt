//! Fees over sizes, compared exactly.
//!
//! A fee is in satoshis and may be negative, a size in virtual bytes and at least 1. Rates are compared by
//! cross-multiplication in 128 bits, so nothing is rounded. This is the order of Bitcoin Core's `FeeFrac`.
#![tactic(auto)]

mod laws;
mod limits;
mod rates;

pub use laws::{full_order_is_an_order, rate_order_is_an_order, sums_lie_between};
pub use limits::{MAX_FEE, MAX_SIZE, MAX_TOTAL, is_fee, is_rate, is_size, is_sum};
pub use rates::{
    FeeRate, Sum, add, cmp_full, cmp_rate, cmp_rates, is_below, is_lower, minus, product,
};
