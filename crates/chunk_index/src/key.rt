ghost use Rattle.std.specs.Prelude.{◌≡◌, max};
ghost use Rattle.std.specs.Ordering.{as_partial_cmp};
ghost use Rattle.std.specs.Cmp.{partial_order_from_agreeing_total};
ghost use Rattle.std.proofs.Common.{refl};
ghost use Rattle.chunk_index.specs.KeyOrder.{key_cmp, rate_cmp};
ghost use Rattle.chunk_index.specs.Keys.{key_of};
ghost use Rattle.chunk_index.specs.Kept.{entry_from};
ghost use Rattle.chunk_index.specs.KeyLaws.{key_cmp_total, key_ties};

use crate::entry::Entry;
use fee_rate::{FeeRate, cmp_rates};
use std::cmp::Ordering;

/// What the index orders entries by: falling rate, then serial, position and at last size, all rising.
#[derive(Clone, Copy, PartialEq, Eq)]
pub struct Key {
    pub rate: FeeRate,
    pub serial: u64,
    pub position: usize,
}

impl Ord for Key {
    ghost cmp = { key_cmp };

    ghost total = { key_cmp_total };

    ghost matches_partial_cmp = { λ a b. refl };

    ghost matches_eq = { key_ties };

    fn cmp(&self, other: &Key) -> Ordering {
        let by_rate = higher_first(self.rate, other.rate);
        if by_rate.is_ne() {
            return by_rate;
        }
        self.serial
            .cmp(&other.serial)
            .then(self.position.cmp(&other.position))
            .then(self.rate.size.cmp(&other.rate.size))
    }
}

impl PartialOrd for Key {
    ghost partial_cmp = { as_partial_cmp key_cmp };

    ghost laws = { partial_order_from_agreeing_total key_cmp key_cmp_total (λ a b. refl) key_ties };

    fn partial_cmp(&self, other: &Key) -> Option<Ordering> {
        Some(self.cmp(other))
    }
}

impl Key {
    /// The key of an entry.
    pub fn of(entry: &Entry) -> Key
        ensures { result ≡ key_of entry.now }
    {
        Key {
            rate: entry.rate,
            serial: entry.serial,
            position: entry.position,
        }
    }

    /// The entry of a key, with its record's number.
    pub fn entry(&self, number: usize) -> Entry
        ensures { result ≡ entry_from self.now number }
    {
        Entry {
            rate: self.rate,
            serial: self.serial,
            position: self.position,
            number,
        }
    }
}

// Which of two rates comes first, the higher one. A size of 0 counts as 1.
#[inline(always)]
fn higher_first(a: FeeRate, b: FeeRate) -> Ordering
    ensures { result ≡ rate_cmp a b }
{
    cmp_rates(counted(b), counted(a))
}

// A rate where a size of 0 counts as 1.
#[inline(always)]
fn counted(rate: FeeRate) -> FeeRate
    ensures { result ≡ record { fee = rate.fee; size = max 1 rate.size } }
{
    FeeRate {
        fee: rate.fee,
        size: rate.size.max(1),
    }
}
