ghost use Rattle.std.specs.Prelude.{◌↔◌, ◌+◌, ◌+ℤ◌, map, IfSome, IsTrue};
ghost use Rattle.fee_rate.specs.Limits.{InRange, IsSum};
ghost use Rattle.diagram.specs.Parts.{rate_of, AreLevelParts, FallsTo, IsPartSum, MayFollow};

use fee_rate::{FeeRate, Sum, add, cmp_rate, is_sum};
use std::cmp::Ordering;

/// Whether these are parts of a level, as `corners` asks for: of falling rate, with sizes of at least 1, and
/// each of them and each sum of a front of them in the range of a level's sums.
pub fn are_level_parts(parts: &[FeeRate]) -> bool
    ensures { IsTrue result ↔ AreLevelParts (map rate_of parts.now) }
{
    let mut rest = parts;
    let mut last = None;
    let mut end = Sum { fee: 0, size: 0 };
    while let Some((first, others)) = rest.split_first() {
        let rate = Sum::from(*first);
        if !may_follow(last, end, rate) {
            return false;
        }
        end = add(end, rate);
        last = Some(rate);
        rest = others;
    }
    true
}

/// Whether a part may follow others, of which the last and the sum are given.
fn may_follow(last: Option<Sum>, end: Sum, rate: Sum) -> bool
    requires last { IfSome last IsPartSum }
    requires end { IsSum end }
    ensures { IsTrue result ↔ MayFollow last end rate }
{
    is_part_sum(rate) && falls_to(last, rate) && fits_behind(end, rate)
}

/// Whether a sum can be that of a part.
fn is_part_sum(rate: Sum) -> bool
    ensures { IsTrue result ↔ IsPartSum rate }
{
    rate.size >= 1 && is_sum(rate)
}

/// Whether a rate is at most the last one, where there is one.
fn falls_to(last: Option<Sum>, rate: Sum) -> bool
    requires last { IfSome last IsPartSum }
    requires rate { IsPartSum rate }
    ensures { IsTrue result ↔ FallsTo last rate }
{
    match last {
        None => true,
        Some(last) => match cmp_rate(rate, last) {
            Ordering::Less => true,
            Ordering::Equal => true,
            Ordering::Greater => false,
        },
    }
}

/// Whether both together are in range.
fn fits_behind(end: Sum, rate: Sum) -> bool
    requires end { IsSum end }
    requires rate { IsSum rate }
    ensures { IsTrue result ↔ InRange (end.fee +ℤ rate.fee) (end.size + rate.size) }
{
    is_sum(Sum {
        fee: end.fee + rate.fee,
        size: end.size + rate.size,
    })
}
