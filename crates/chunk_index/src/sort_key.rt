ghost use Rattle.std.specs.Prelude.{◌≡◌};
ghost use Rattle.std.specs.Ordering.{as_partial_cmp, eq_by_cmp};
ghost use Rattle.std.specs.Cmp.{eq_by_cmp_equiv, partial_equiv_from_equiv, partial_order_from_total};
ghost use Rattle.std.proofs.Common.{refl};
ghost use Rattle.chunk_index.specs.Floors.{floor_of};
ghost use Rattle.chunk_index.specs.KeyOrder.{key_cmp};
ghost use Rattle.chunk_index.specs.KeyLaws.{key_cmp_total};
ghost use Rattle.chunk_index.specs.Keys.{key_of};
ghost use Rattle.chunk_index.specs.Kept.{entry_from};

use crate::entry::Entry;
use crate::key::Key;
use fee_rate::FeeRate;
use std::cmp::Ordering;
use std::marker::Model;

/// A key with a whole number beside it that tells most rates apart. Contracts see the key.
#[derive(Clone, Copy)]
pub struct SortKey {
    // Made of the key's rate, once.
    floor: u64,
    key: Key,
}

impl Model for SortKey {
    ghost use Rattle.std.specs.Prelude.{◌≡◌};
    ghost use Rattle.chunk_index.specs.declared.key.Key.{Key};
    ghost use Rattle.chunk_index.specs.Floors.{floor_of};

    ghost Value = { Key };

    ghost view = { λ a. a.key };

    ghost invariant = { λ a. a.floor ≡ floor_of a.key.rate };

    ghost use Rattle.std.proofs.Common.{sym};

    ghost inverse = { λ k. record { floor = floor_of k.rate; key = k } };

    ghost inverse_ok = { λ a h i. record { floor = sym h i; key = a.key } };
}

impl PartialEq for SortKey {
    ghost eq = { eq_by_cmp key_cmp };

    ghost laws = { partial_equiv_from_equiv (eq_by_cmp_equiv key_cmp_total) };

    fn eq(&self, other: &SortKey) -> bool {
        self.cmp(other).is_eq()
    }
}

impl Eq for SortKey {
    ghost laws = { eq_by_cmp_equiv key_cmp_total };
}

impl Ord for SortKey {
    ghost cmp = { key_cmp };

    ghost total = { key_cmp_total };

    ghost matches_partial_cmp = { λ a b. refl };

    ghost matches_eq = { λ a b. refl };

    // Exact products are taken only where the rounded rates are the same.
    fn cmp(&self, other: &SortKey) -> Ordering {
        if self.floor > other.floor {
            Ordering::Less
        } else if self.floor < other.floor {
            Ordering::Greater
        } else {
            self.key.cmp(&other.key)
        }
    }
}

impl PartialOrd for SortKey {
    ghost partial_cmp = { as_partial_cmp key_cmp };

    ghost laws = { partial_order_from_total key_cmp_total };

    fn partial_cmp(&self, other: &SortKey) -> Option<Ordering> {
        Some(self.cmp(other))
    }
}

impl SortKey {
    /// The key of an entry.
    pub fn of(entry: &Entry) -> SortKey
        ensures { result ≡ key_of entry.now }
    {
        SortKey {
            floor: rounded(entry.rate),
            key: Key::of(entry),
        }
    }

    /// The entry of the key, with its record's number.
    pub fn entry(&self, number: usize) -> Entry
        ensures { result ≡ entry_from self.now number }
    {
        self.key.entry(number)
    }
}

/// 2^32 times a rate, rounded down: at most `u64::MAX`, and 0 where the fee is below 0.
fn rounded(rate: FeeRate) -> u64
    ensures { result ≡ floor_of rate }
{
    if rate.fee < 0 {
        return 0;
    }
    let fee = rate.fee.unsigned_abs();
    let size = rate.size.max(1);
    // So is nearly every fee, and a division of 128 bits is a slow call.
    if fee < 1 << 32 {
        return fee * (1 << 32) / size;
    }
    let scaled = u128::from(fee) * (1 << 32) / u128::from(size);
    scaled.min(u128::from(u64::MAX)) as u64
}
