//! How a staged replacement changes a level's fee-rate diagram.
#![tactic(auto)]

ghost use Rattle.std.specs.Prelude.{◌↔◌, List, ◌++◌, IsTrue, map};
ghost use Rattle.std.specs.Iterator.{IsFinite};
ghost use Rattle.fee_rate.specs.declared.rates.Sum.{Sum};
ghost use Rattle.graphs.specs.Diagrams.{corners_of, Compares, JoinsEqualRates};
ghost use Rattle.diagram.specs.Parts.{rate_of, YieldsParts};
ghost use Rattle.replacement.specs.Changes.{AreNonNegative, EndsNonNegative, IsEnough, IsMerged, YieldsChanges};
ghost use Rattle.replacement.specs.Merging.{YieldBoth};

mod laws;
mod merged;

use diagram::{corners, verdict};
use fee_rate::FeeRate;
use graphs::Verdict;
pub use laws::{
    best_common_parts_keep_verdicts, changes_are_level_parts, common_parts_keep_verdicts,
    fewer_parts_fit_together, tested_parts_merge,
};
use merged::Merged;

/// The verdict of the whole diagrams of two levels, each given by its parts in falling rate: `Better` where
/// staging's diagram is at or above main's at every size and not everywhere equal. Takes no memory.
pub fn compare_full<I: Iterator<Item = FeeRate>, J: Iterator<Item = FeeRate>>(
    main: I,
    top: J,
) -> Verdict
    requires main_can { I.can_next main }
    requires main_ends { IsFinite (I.remaining main) }
    requires main_level { (parts : List Sum) × YieldsParts I.next_gives main parts }
    requires top_can { J.can_next top }
    requires top_ends { IsFinite (J.remaining top) }
    requires top_level { (parts : List Sum) × YieldsParts J.next_gives top parts }
    ensures { (mains tops before after : List Sum) → YieldsParts I.next_gives main mains
        → YieldsParts J.next_gives top tops → JoinsEqualRates mains before → JoinsEqualRates tops after
        → Compares (corners_of after) (corners_of before) result }
{
    verdict(corners(top), corners(main))
}

/// The verdict of two levels, told by their changes: each level is given by the parts that stand in it and not
/// in the other, in falling rate. Whatever parts of fee at least 0 stand in both besides, it is the verdict of
/// the whole diagrams, as `compare_full` gives it. The last part given of each level, where there is one, has a
/// fee of at least 0: see `ends_non_negative`. Where a part in both has a fee below 0 the verdict may be another,
/// and `compare_full` is to be asked. Takes each part once, and no memory.
pub fn compare_changed<I: Iterator<Item = FeeRate>, J: Iterator<Item = FeeRate>>(
    main_only: I,
    top_only: J,
) -> Verdict
    requires main_can { I.can_next main_only }
    requires main_ends { IsFinite (I.remaining main_only) }
    requires main_changes { (parts : List Sum) × YieldsChanges I.next_gives main_only parts }
    requires top_can { J.can_next top_only }
    requires top_ends { IsFinite (J.remaining top_only) }
    requires top_changes { (parts : List Sum) × YieldsChanges J.next_gives top_only parts }
    ensures { (mains tops common main top before after : List Sum) → YieldsChanges I.next_gives main_only mains
        → YieldsChanges J.next_gives top_only tops → AreNonNegative common → IsMerged mains common main
        → IsMerged tops common top → JoinsEqualRates main before → JoinsEqualRates top after
        → Compares (corners_of after) (corners_of before) result }
{
    compare_full(main_only, top_only)
}

/// The verdict of two levels, told by their changes and a tail of the parts that stand in both: the parts that stand
/// in one level and not in the other, and to be merged with each of them the worst parts that stand in both, all in
/// falling rate. Whatever better parts stand in both besides, it is the verdict of the whole diagrams, as
/// `compare_full` gives it, where the tail's size is at least the difference of the sizes of the changes, or no better
/// part has a fee below 0. Where the tail is shorter the verdict may be another. Takes each part once, and no memory.
pub fn compare_with_tail<
    I: Iterator<Item = FeeRate>,
    J: Iterator<Item = FeeRate>,
    K: Iterator<Item = FeeRate>,
    L: Iterator<Item = FeeRate>,
>(main_only: I, top_only: J, main_tail: K, top_tail: L) -> Verdict
    requires main_can { I.can_next main_only }
    requires main_ends { IsFinite (I.remaining main_only) }
    requires main_tail_can { K.can_next main_tail }
    requires main_tail_ends { IsFinite (K.remaining main_tail) }
    requires main { (parts tail : List Sum) × YieldBoth I.next_gives K.next_gives main_only main_tail parts tail }
    requires top_can { J.can_next top_only }
    requires top_ends { IsFinite (J.remaining top_only) }
    requires top_tail_can { L.can_next top_tail }
    requires top_tail_ends { IsFinite (L.remaining top_tail) }
    requires top { (parts tail : List Sum) × YieldBoth J.next_gives L.next_gives top_only top_tail parts tail }
    ensures { (mains tops upper tail main top before after : List Sum)
        → YieldBoth I.next_gives K.next_gives main_only main_tail mains tail
        → YieldBoth J.next_gives L.next_gives top_only top_tail tops tail → IsEnough mains tops upper tail
        → IsMerged mains (upper ++ tail) main → IsMerged tops (upper ++ tail) top → JoinsEqualRates main before
        → JoinsEqualRates top after → Compares (corners_of after) (corners_of before) result }
{
    let main = Merged::new(main_only, main_tail);
    let top = Merged::new(top_only, top_tail);
    compare_full(main, top)
}

/// Whether the last part, where there is one, has a fee of at least 0, as `compare_changed` asks.
pub fn ends_non_negative(parts: &[FeeRate]) -> bool
    ensures { IsTrue result ↔ EndsNonNegative (map rate_of parts.now) }
{
    match parts.split_last() {
        Some((last, _)) => last.fee >= 0,
        None => true,
    }
}
