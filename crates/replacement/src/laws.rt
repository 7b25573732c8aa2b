//! Laws of levels that have parts in common, each the contract of a function that does nothing.
ghost use Rattle.replacement.specs.Changes.{BestCommonPartsKeepVerdicts, ChangesAreLevelParts, CommonPartsKeepVerdicts, TestedPartsMerge};
ghost use Rattle.replacement.specs.Merging.{FewerFitTogether};

/// Parts of fee at least 0 that stand in both of two levels change no verdict: the levels compare as what is
/// left of them without these parts. Equal rates stand in any order.
pub fn common_parts_keep_verdicts()
    ensures { CommonPartsKeepVerdicts }
{}

/// Of the parts that stand in both of two levels, of any fee, the best ones change no verdict, where the worst ones,
/// which stay, cover the difference of the sizes of what stands in one level alone, or where the best ones' fees are
/// at least 0.
pub fn best_common_parts_keep_verdicts()
    ensures { BestCommonPartsKeepVerdicts }
{}

/// Parts of a level that fit together still do where some of them are left out, as `compare_with_tail` asks.
pub fn fewer_parts_fit_together()
    ensures { FewerFitTogether }
{}

/// Where the last part of a level has a fee of at least 0, what stands in it alone is what `compare_changed`
/// asks for, and what stands in both levels has such fees.
pub fn changes_are_level_parts()
    ensures { ChangesAreLevelParts }
{}

/// Entries in falling rate that a test picks fall too, and the entries of a level merge out of those that
/// stand in it alone and those that stand in both.
pub fn tested_parts_merge<T>()
    ensures { TestedPartsMerge T }
{}
