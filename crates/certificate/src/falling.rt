ghost use Rattle.std.specs.Prelude.{◌≡◌, ◌≢◌, ℕ, ◌<◌, ◌≤◌, [], length, nat_eq, Contains, MatchBool, Some};
ghost use Rattle.std.specs.HashMap as hash;
ghost use Rattle.fee_rate.specs.Limits.{IsRate};
ghost use Rattle.graphs.specs.Rates.{Falls, sums};
ghost use Rattle.graphs.specs.Certificates.{HasFalling, rate_in};
ghost use Rattle.certificate.specs.Fallings.{AreRates, AreSummed, rates_of};
ghost use Rattle.certificate.specs.Parts.{ids_at, order_of, parts_of};
ghost use Rattle.places.specs.Places.{ArePlaces};
ghost use Rattle.certificate.specs.Tables.{AreInLimits, names_of};

use crate::Part;
use crate::names::{Names, find};
use fee_rate::{FeeRate, MAX_TOTAL, Sum, add, is_below};
use graphs::TxId;

/// Whether the parts have the fees and sizes of their names, and rates that fall.
pub(crate) fn is_falling(txs: &[(TxId, i64, u64)], names: &Names, parts: &[Part]) -> bool
    requires places { ArePlaces (names_of txs.now) (hash.get nat_eq names.now) }
    requires limits { AreInLimits txs.now }
    requires members { (id : ℕ) → Contains (order_of parts.now) id → Contains (names_of txs.now) id }
    requires few { length (order_of parts.now) ≤ MAX_TOTAL }
    requires filled { (k : ℕ) → k < length parts.now → ids_at parts.now k ≢ [] }
    ensures { MatchBool result (HasFalling (rate_in txs.now) (parts_of parts.now))
        (HasFalling (rate_in txs.now) (parts_of parts.now) → ⊥) }
{
    are_summed(txs, names, parts) && rates_fall(parts)
}

/// Whether the parts have the fees and sizes of their names.
fn are_summed(txs: &[(TxId, i64, u64)], names: &Names, parts: &[Part]) -> bool
    requires places { ArePlaces (names_of txs.now) (hash.get nat_eq names.now) }
    requires limits { AreInLimits txs.now }
    requires members { (id : ℕ) → Contains (order_of parts.now) id → Contains (names_of txs.now) id }
    requires few { length (order_of parts.now) ≤ MAX_TOTAL }
    ensures { MatchBool result (AreSummed txs.now parts.now) (AreSummed txs.now parts.now → ⊥) }
{
    for part in parts {
        let sum = total(txs, names, part.ids.as_slice());
        if !is_same(sum, part.rate) {
            return false;
        }
    }
    true
}

/// Whether no part has a greater rate than the one before it.
fn rates_fall(parts: &[Part]) -> bool
    requires { AreRates parts.now }
    ensures { MatchBool result (Falls (rates_of parts.now)) (Falls (rates_of parts.now) → ⊥) }
{
    for at in 1..parts.len() {
        if is_below(parts[at - 1].rate, parts[at].rate) {
            return false;
        }
    }
    true
}

/// Whether two sums are equal.
fn is_same(a: Sum, b: Sum) -> bool
    ensures { MatchBool result (a ≡ b) (a ≢ b) }
{
    a.fee == b.fee && a.size == b.size
}

/// The total fee and size of names.
fn total(txs: &[(TxId, i64, u64)], names: &Names, ids: &[TxId]) -> Sum
    requires places { ArePlaces (names_of txs.now) (hash.get nat_eq names.now) }
    requires limits { AreInLimits txs.now }
    requires members { (id : ℕ) → Contains ids.now id → Contains (names_of txs.now) id }
    requires few { length ids.now ≤ MAX_TOTAL }
    ensures { result ≡ sums (rate_in txs.now) ids.now }
{
    let mut sum = Sum { fee: 0, size: 0 };
    for id in ids {
        sum = add(sum, Sum::from(rate_of(txs, names, *id)));
    }
    sum
}

/// The fee and size of a name.
pub(crate) fn rate_of(txs: &[(TxId, i64, u64)], names: &Names, id: TxId) -> FeeRate
    requires places { ArePlaces (names_of txs.now) (hash.get nat_eq names.now) }
    requires limits { AreInLimits txs.now }
    requires member { Contains (names_of txs.now) id }
    ensures fee { result.fee ≡ (rate_in txs.now id).fee }
    ensures size { result.size ≡ (rate_in txs.now id).size }
    ensures in_range { IsRate result }
{
    match find(names, id) {
        Some(place) => {
            let tx = txs[place];
            FeeRate {
                fee: tx.1,
                size: tx.2,
            }
        }
        None => unreachable!(),
    }
}
