//! Fee-rate diagrams: the corners of parts of falling rate, and how two diagrams compare.
//!
//! A corner is a size, in virtual bytes, and the fee there, in satoshis. Nothing here takes memory.
#![tactic(auto)]

ghost use Rattle.std.specs.Prelude.{List};
ghost use Rattle.std.specs.Iterator.{IsFinite};
ghost use Rattle.fee_rate.specs.declared.rates.Sum.{Sum};
ghost use Rattle.graphs.specs.Diagrams.{corners_of, JoinsEqualRates};
ghost use Rattle.diagram.specs.Parts.{YieldsParts};
ghost use Rattle.diagram.specs.Points.{YieldsCorners};
ghost use Rattle.diagram.specs.Walks.{corner_steps, corners_left, CanGoOn};

mod comparison;
mod parts;
mod segments;
mod sides;

pub use comparison::verdict;
use fee_rate::FeeRate;
pub use parts::are_level_parts;
pub use segments::Corners;

/// The corners of parts of falling rate, from (0, 0) on: the ends of the segments that they make where
/// equal rates are joined. Parts are taken as the corners are asked for, up to the first of the segment
/// behind. `parts` gives the parts of a level: sizes are at least 1, and sums in the range of a level.
pub fn corners<I: Iterator<Item = FeeRate>>(parts: I) -> Corners<I>
    requires can { I.can_next parts }
    requires ends { IsFinite (I.remaining parts) }
    requires level { (list : List Sum) × YieldsParts I.next_gives parts list }
    ensures can { CanGoOn I.can_next I.next_gives I.remaining result }
    ensures ends { IsFinite (corners_left I.remaining result) }
    ensures corners { (list segments : List Sum) → YieldsParts I.next_gives parts list → JoinsEqualRates list segments
        → YieldsCorners (corner_steps I.next_gives) result (corners_of segments) }
{
    Corners::new(parts)
}
