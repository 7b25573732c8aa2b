ghost use Rattle.std.specs.Prelude.{◌≡◌, ℕ, ℤ, List};
ghost use Rattle.std.specs.Iterator.{IsFinite};
ghost use Rattle.graphs.specs.Diagrams.{Compares};
ghost use Rattle.diagram.specs.Points.{YieldsCorners};
ghost use Rattle.diagram.specs.Comparisons.{and_here};

use crate::sides::{Side, step};
use graphs::Verdict;
use std::cmp::Ordering;

/// How the diagram of corners `a` stands to that of `b`, at every size: `Better` where it is at or above it
/// everywhere and not everywhere equal. Past its last corner a diagram keeps that corner's fee. Both give
/// the corners of a level, from (0, 0) on at rising sizes, with sums in the range of a level; slopes may
/// be any. One walk over both: heights are compared where a slope breaks, and it stops once each diagram
/// was seen above the other.
pub fn verdict<A: Iterator<Item = (u64, i128)>, B: Iterator<Item = (u64, i128)>>(
    a: A,
    b: B,
) -> Verdict
    requires a_can { A.can_next a }
    requires a_ends { IsFinite (A.remaining a) }
    requires a_corners { (corners : List (ℕ × ℤ)) × YieldsCorners A.next_gives a corners }
    requires b_can { B.can_next b }
    requires b_ends { IsFinite (B.remaining b) }
    requires b_corners { (corners : List (ℕ × ℤ)) × YieldsCorners B.next_gives b corners }
    ensures { (firsts seconds : List (ℕ × ℤ)) → YieldsCorners A.next_gives a firsts
        → YieldsCorners B.next_gives b seconds → Compares firsts seconds result }
{
    let mut a = Side::new(a);
    let mut b = Side::new(b);
    let mut found = Verdict::Equal;
    while let Some(here) = step(&mut a, &mut b) {
        found = and_there(found, here);
        if let Verdict::Incomparable = found {
            return found;
        }
    }
    found
}

/// What was found so far, and how the first diagram stands to the second at one more size.
fn and_there(found: Verdict, here: Ordering) -> Verdict
    ensures { result ≡ and_here found here }
{
    match (found, here) {
        (_, Ordering::Equal) => found,
        (Verdict::Equal | Verdict::Better, Ordering::Greater) => Verdict::Better,
        (Verdict::Equal | Verdict::Worse, Ordering::Less) => Verdict::Worse,
        _ => Verdict::Incomparable,
    }
}
