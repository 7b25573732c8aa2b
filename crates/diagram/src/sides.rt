ghost use Rattle.std.specs.Prelude.{◌≡◌, ℕ, ◌+◌, ◌-◌, ◌*◌, ◌^◌, ◌<◌, ◌≤◌, ℤ, pos, ◌-ℤ◌, ◌*ℤ◌, unsigned_abs, List, [], ◌∷◌, Some, None, IfSome, MatchOption};
ghost use Rattle.std.specs.Iterator.{IsFinite};
ghost use Rattle.fee_rate.specs.Limits.{InRange};
ghost use Rattle.fee_rate.specs.declared.limits.TheConstants.{MAX_FEE, MAX_SIZE, MAX_TOTAL};
ghost use Rattle.fee_rate.specs.Rates.{ComparesRates};
ghost use Rattle.diagram.specs.Points.{YieldsCorners};
ghost use Rattle.diagram.specs.Comparisons.{height_from, HasPoints, IsInRange, IsOn, IsReady, Moves, NearestIs, pending, StandAt};

use fee_rate::product;
use std::cmp::Ordering;

/// The part of a diagram at hand: the line from a corner to the next, and past the end the last corner's fee.
#[derive(Clone, Copy)]
struct Line {
    from: (u64, i128),
    to: Option<(u64, i128)>,
}

/// A walk over corners, and the line that it has come to.
#[derive(Drop)]
pub(crate) struct Side<I> {
    line: Line,
    rest: I,
}

/// Which of two walks has the nearer next corner, and that corner.
#[derive(Clone, Copy)]
enum Nearest {
    First((u64, i128)),
    Second((u64, i128)),
    Neither,
}

impl<I: Iterator<Item = (u64, i128)>> Side<I> {
    /// At the first corner.
    pub(crate) fn new(mut rest: I) -> Self
        requires can { I.can_next rest }
        requires ends { IsFinite (I.remaining rest) }
        ensures points { (points : List (ℕ × ℤ)) → YieldsCorners I.next_gives rest points
            → HasPoints I.next_gives result points }
        ensures ready { IsReady I.can_next I.remaining result }
    {
        match rest.next() {
            Some(from) => {
                let to = rest.next();
                Side {
                    line: Line { from, to },
                    rest,
                }
            }
            None => Side {
                line: Line {
                    from: (0, 0),
                    to: None,
                },
                rest,
            },
        }
    }

    /// Goes on to the next corner.
    fn advance(&mut self, next: (u64, i128))
        requires next { self.old.line.to ≡ Some next }
        requires ready { IsReady I.can_next I.remaining self.old }
        ensures points { (points : List (ℕ × ℤ)) → HasPoints I.next_gives self.old points
            → (p : ℕ × ℤ) × (rest : List (ℕ × ℤ)) × (points ≡ p ∷ next ∷ rest)
            × HasPoints I.next_gives self.new (next ∷ rest) }
        ensures ready { IsReady I.can_next I.remaining self.new }
        ensures fewer { pending I.remaining self.new < pending I.remaining self.old }
    {
        self.line.from = next;
        self.line.to = self.rest.next();
    }
}

/// Goes on to the nearer of the next corners, and tells how the first diagram's height stands to the second's
/// there; `None` where neither walk has a corner left.
pub(crate) fn step<A: Iterator<Item = (u64, i128)>, B: Iterator<Item = (u64, i128)>>(
    a: &mut Side<A>,
    b: &mut Side<B>,
) -> Option<Ordering>
    requires a_ready { IsReady A.can_next A.remaining a.old }
    requires b_ready { IsReady B.can_next B.remaining b.old }
    requires stand { (cs ds : List (ℕ × ℤ)) × (x : ℕ) × HasPoints A.next_gives a.old cs
        × HasPoints B.next_gives b.old ds
        × StandAt cs x × StandAt ds x }
    ensures moves { (cs ds : List (ℕ × ℤ)) (x : ℕ) → HasPoints A.next_gives a.old cs → HasPoints B.next_gives b.old ds
        → StandAt cs x → StandAt ds x
        → MatchOption result ((p q : ℕ × ℤ) × (cs ≡ p ∷ []) × (ds ≡ q ∷ []))
        (λ here. (more others : List (ℕ × ℤ)) × (y : ℕ) × HasPoints A.next_gives a.new more
        × HasPoints B.next_gives b.new others × Moves cs ds x more others y here) }
    ensures a_ready { IsReady A.can_next A.remaining a.new }
    ensures b_ready { IsReady B.can_next B.remaining b.new }
    ensures fewer { IfSome result (λ _. pending A.remaining a.new + pending B.remaining b.new
        < pending A.remaining a.old + pending B.remaining b.old) }
{
    match nearer_corner(a.line, b.line) {
        Nearest::First(corner) => {
            let here = compare_point(corner, b.line);
            a.advance(corner);
            Some(here)
        }
        Nearest::Second(corner) => {
            let here = compare_point(corner, a.line);
            b.advance(corner);
            Some(here.reverse())
        }
        Nearest::Neither => None,
    }
}

/// The nearer of the next corners of two lines.
fn nearer_corner(a: Line, b: Line) -> Nearest
    ensures { NearestIs a.to b.to result }
{
    match (a.to, b.to) {
        (None, None) => Nearest::Neither,
        (Some(corner), None) => Nearest::First(corner),
        (None, Some(corner)) => Nearest::Second(corner),
        (Some(first), Some(second)) => {
            if first.0 <= second.0 {
                Nearest::First(first)
            } else {
                Nearest::Second(second)
            }
        }
    }
}

/// How a point's fee stands to the height of a line at the point's size.
fn compare_point(point: (u64, i128), line: Line) -> Ordering
    requires point { InRange point.1 point.0 }
    requires ranged { IsInRange line }
    requires on { IsOn line point.0 }
    ensures { ComparesRates (record { fee = point.1; size = 1 }) (height_from line.from line.to point.0) result }
{
    match line.to {
        None => point.1.cmp(&line.from.1),
        Some(to) => {
            let width = to.0 - line.from.0;
            let gone = point.0 - line.from.0;
            let risen = rise_times(line.from.1, point.1, width);
            risen.cmp(&rise_times(line.from.1, to.1, gone))
        }
    }
}

/// The difference between two fees, times a size. Below 2^114 in absolute value.
fn rise_times(from: i128, to: i128, size: u64) -> i128
    requires from { unsigned_abs from ≤ MAX_FEE * MAX_TOTAL }
    requires to { unsigned_abs to ≤ MAX_FEE * MAX_TOTAL }
    requires size { size ≤ MAX_SIZE * MAX_TOTAL }
    ensures product { result ≡ (to -ℤ from) *ℤ pos size }
    ensures bound { unsigned_abs result < 2 ^ 114 }
{
    product(to - from, size)
}
