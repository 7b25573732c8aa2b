ghost use Rattle.std.specs.Prelude.{◌≤◌, length, map, All, IsTrue};
ghost use Rattle.fee_rate.specs.Limits.{IsRate};
ghost use Rattle.diagram.specs.Parts.{rate_of, AreLevelParts};
ghost use Rattle.replacement.specs.Changes.{EndsNonNegative};

use diagram::are_level_parts;
use fee_rate::{FeeRate, is_rate};
use graphs::Verdict;
use graphs::Verdict::{Better, Equal, Incomparable, Worse};
use replacement::{
    compare_changed, compare_full, compare_with_tail, ends_non_negative, tested_parts_merge,
};
use std::alloc::{AllocError, Global};
use std::test::Fail;

/// The verdict of two levels' parts.
fn compared(main: &[FeeRate], top: &[FeeRate]) -> Verdict
    requires main { AreLevelParts (map rate_of main.now) }
    requires top { AreLevelParts (map rate_of top.now) }
{
    compare_full(main.iter().copied(), top.iter().copied())
}

/// Whether main and staging, by their parts as (fee, size), have that verdict, and the reverse where exchanged.
fn has_verdict(main: &[FeeRate], top: &[FeeRate], there: Verdict, back: Verdict) -> bool {
    are_level_parts(main)
        && are_level_parts(top)
        && compared(main, top) == there
        && compared(top, main) == back
}

/// The verdict of what stands in each level alone.
fn compared_changed(main_only: &[FeeRate], top_only: &[FeeRate]) -> Verdict
    requires main { AreLevelParts (map rate_of main_only.now) }
    requires main_last { EndsNonNegative (map rate_of main_only.now) }
    requires top { AreLevelParts (map rate_of top_only.now) }
    requires top_last { EndsNonNegative (map rate_of top_only.now) }
{
    compare_changed(main_only.iter().copied(), top_only.iter().copied())
}

/// The verdict of changes, `None` where they aren't those of levels.
fn verdict_of_changes(main_only: &[FeeRate], top_only: &[FeeRate]) -> Option<Verdict> {
    if are_level_parts(main_only)
        && ends_non_negative(main_only)
        && are_level_parts(top_only)
        && ends_non_negative(top_only)
    {
        return Some(compared_changed(main_only, top_only));
    }
    None
}

/// Whether parts are few, and each has the fee and the size of a transaction.
fn are_few(parts: &[FeeRate]) -> bool
    ensures { IsTrue result → (length parts.now ≤ 8) × All IsRate parts.now }
{
    parts.len() <= 8 && parts.iter().all(|part| is_rate(*part))
}

/// The verdict of what stands in each level alone, and of a tail of what stands in both.
fn compared_with_tail(main_only: &[FeeRate], top_only: &[FeeRate], tail: &[FeeRate]) -> Verdict
    requires main { AreLevelParts (map rate_of main_only.now) }
    requires main_few { (length main_only.now ≤ 8) × All IsRate main_only.now }
    requires top { AreLevelParts (map rate_of top_only.now) }
    requires top_few { (length top_only.now ≤ 8) × All IsRate top_only.now }
    requires tail { AreLevelParts (map rate_of tail.now) }
    requires tail_few { (length tail.now ≤ 8) × All IsRate tail.now }
{
    compare_with_tail(
        main_only.iter().copied(),
        top_only.iter().copied(),
        tail.iter().copied(),
        tail.iter().copied(),
    )
}

/// The verdict of changes and a tail, `None` where they aren't those of levels.
fn verdict_with_tail(
    main_only: &[FeeRate],
    top_only: &[FeeRate],
    tail: &[FeeRate],
) -> Option<Verdict> {
    let levels = are_level_parts(main_only) && are_level_parts(top_only) && are_level_parts(tail);
    if levels && are_few(main_only) && are_few(top_only) && are_few(tail) {
        return Some(compared_with_tail(main_only, top_only, tail));
    }
    None
}

/// The parts with one more at a place.
fn with_part(
    alloc: Global,
    parts: &[FeeRate],
    place: usize,
    common: FeeRate,
) -> Result<Vec<FeeRate>, AllocError>
    requires { place ≤ length parts.now }
{
    let mut whole = Vec::from_slice(alloc, parts)?;
    whole.insert(place, common)?;
    Ok(whole)
}

/// At how many places of staging a part in common, which main has already, leaves the verdict.
fn places_in_top(
    alloc: Global,
    main: &[FeeRate],
    top: &[FeeRate],
    common: FeeRate,
    verdict: Verdict,
) -> Result<u32, AllocError> {
    let mut places = 0u32;
    for place in 0..=top.len() {
        let whole = with_part(alloc, top, place, common)?;
        if are_level_parts(main) && are_level_parts(&whole) && compared(main, &whole) == verdict {
            places = places.saturating_add(1);
        }
    }
    Ok(places)
}

/// At how many pairs of places a part in common leaves the verdict of the whole levels that of the changes.
fn places_in_both(
    alloc: Global,
    main: &[FeeRate],
    top: &[FeeRate],
    common: FeeRate,
    verdict: Verdict,
) -> Result<u32, AllocError> {
    let mut places = 0u32;
    for place in 0..=main.len() {
        let whole = with_part(alloc, main, place, common)?;
        places = places.saturating_add(places_in_top(alloc, &whole, top, common, verdict)?);
    }
    Ok(places)
}

/// Whether changes have this verdict, and each part in common, of a fee and a size, leaves it at that many pairs of
/// places: at all at which rates still fall.
fn keep_verdict(
    alloc: Global,
    main_only: &[FeeRate],
    top_only: &[FeeRate],
    verdict: Verdict,
    rows: &[(i64, u64, u32)],
) -> Result<bool, AllocError> {
    for row in rows {
        let (fee, size, places) = *row;
        let common = FeeRate { fee, size };
        if places_in_both(alloc, main_only, top_only, common, verdict)? != places {
            return Ok(false);
        }
    }
    Ok(verdict_of_changes(main_only, top_only) == Some(verdict))
}

/// Two levels, what stands in each alone, and a tail of what stands in both.
#[derive(Clone, Copy)]
struct Staged<'a> {
    main: &'a [FeeRate],
    top: &'a [FeeRate],
    main_only: &'a [FeeRate],
    top_only: &'a [FeeRate],
    tail: &'a [FeeRate],
}

/// Whether the changes with the tail have the verdict of the whole levels, and the reverse where exchanged.
fn tail_is_enough(staged: &Staged, there: Verdict, back: Verdict) -> bool {
    has_verdict(staged.main, staged.top, there, back)
        && verdict_with_tail(staged.main_only, staged.top_only, staged.tail) == Some(there)
        && verdict_with_tail(staged.top_only, staged.main_only, staged.tail) == Some(back)
}

/// Main and staging, their verdict, and the reverse where they are exchanged.
static LEVELS: [(&[FeeRate], &[FeeRate], Verdict, Verdict); 8] = [
    (rates![], rates![], Equal, Equal),
    (rates![(100, 200)], rates![(500, 100)], Better, Worse),
    (
        rates![(100, 100)],
        rates![(150, 300)],
        Incomparable,
        Incomparable,
    ),
    (rates![(-10, 1)], rates![(0, 1), (-10, 1)], Better, Worse),
    (rates![(5, 1)], rates![], Worse, Better),
    (rates![(-5, 1)], rates![], Better, Worse),
    (
        rates![(50, 10), (100, 100)],
        rates![(50, 10), (150, 300)],
        Incomparable,
        Incomparable,
    ),
    (rates![(1, 1), (2, 2)], rates![(3, 3)], Equal, Equal),
];

#[test]
fn staging_is_better_where_it_is_nowhere_below(rt: HostRuntime) -> Result<(), Fail> {
    for (main, top, there, back) in &LEVELS {
        assert!(rt;
            has_verdict(main, top, *there, *back),
            "at {main:?} and {top:?}"
        );
    }
    Ok(())
}

// A generic law, at a type.
fn parts_of_rates_merge() {
    tested_parts_merge::<FeeRate>();
}

#[test]
fn changes_have_the_verdict_of_the_levels(rt: HostRuntime) -> Result<(), Fail> {
    assert!(rt;
        has_verdict(
            rates![(50, 10), (100, 100)],
            rates![(50, 10), (150, 300)],
            Incomparable,
            Incomparable
        )
    );
    assert!(rt; verdict_of_changes(rates![(100, 100)], rates![(150, 300)]) == Some(Incomparable));
    parts_of_rates_merge();
    Ok(())
}

/// Main and staging that differ in a part of fee zero, and have one of negative fee in common.
static BELOW_ZERO: (&[FeeRate], &[FeeRate]) = (rates![(-10, 1)], rates![(0, 1), (-10, 1)]);

#[test]
fn a_common_part_below_zero_decides(rt: HostRuntime) -> Result<(), Fail> {
    let (main, top) = BELOW_ZERO;
    assert!(rt; has_verdict(main, top, Better, Worse));
    assert!(rt; verdict_of_changes(rates![], rates![(0, 1)]) == Some(Equal));
    assert!(rt; verdict_of_changes(main, top).is_none());
    Ok(())
}

/// Levels with changes and tails that are enough for their verdict, and the reverse where they are exchanged.
static TAILS: [(Staged<'static>, Verdict, Verdict); 4] = [
    // As large as the difference: the better part of a negative fee is left out.
    (
        Staged {
            main: rates![(-5, 3), (-10, 1)],
            top: rates![(0, 1), (-5, 3), (-10, 1)],
            main_only: rates![],
            top_only: rates![(0, 1)],
            tail: rates![(-10, 1)],
        },
        Better,
        Worse,
    ),
    // Better parts of positive fee are left out too.
    (
        Staged {
            main: rates![(50, 10), (100, 100), (-1, 200)],
            top: rates![(50, 10), (150, 300), (-1, 200)],
            main_only: rates![(100, 100)],
            top_only: rates![(150, 300)],
            tail: rates![(-1, 200)],
        },
        Incomparable,
        Incomparable,
    ),
    // The tail stands before a change.
    (
        Staged {
            main: rates![(-10, 1), (-20, 1)],
            top: rates![(-5, 2), (-10, 1)],
            main_only: rates![(-20, 1)],
            top_only: rates![(-5, 2)],
            tail: rates![(-10, 1)],
        },
        Better,
        Worse,
    ),
    // Of equal sizes changes need no tail.
    (
        Staged {
            main: rates![(-3, 1), (-3, 1)],
            top: rates![(-3, 1), (-4, 1)],
            main_only: rates![(-3, 1)],
            top_only: rates![(-4, 1)],
            tail: rates![],
        },
        Worse,
        Better,
    ),
];

#[test]
fn the_worst_common_parts_are_enough(rt: HostRuntime) -> Result<(), Fail> {
    for (staged, there, back) in &TAILS {
        assert!(rt;
            tail_is_enough(staged, *there, *back),
            "at {:?}",
            staged.main
        );
    }
    // One that is too short may tell another verdict.
    let (main, top) = BELOW_ZERO;
    assert!(rt; has_verdict(main, top, Better, Worse));
    assert!(rt; verdict_with_tail(rates![], rates![(0, 1)], rates![]) == Some(Equal));
    Ok(())
}

/// Changes with their verdict, and parts in common, each with the number of pairs of places at which rates still fall.
static KEPT: [(&[FeeRate], &[FeeRate], Verdict, &[(i64, u64, u32)]); 6] = [
    (
        rates![(30, 10), (10, 10)],
        rates![(40, 10), (20, 20)],
        Better,
        &[(50, 10, 1), (40, 10, 2), (35, 10, 1), (30, 10, 2)],
    ),
    (
        rates![(30, 10), (10, 10)],
        rates![(40, 10), (20, 20)],
        Better,
        &[(20, 10, 1), (10, 10, 4), (5, 10, 1), (0, 10, 1)],
    ),
    (
        rates![(40, 10), (20, 20)],
        rates![(30, 10), (10, 10)],
        Worse,
        &[(20, 10, 1), (10, 10, 4), (5, 10, 1), (0, 10, 1)],
    ),
    (
        rates![(3, 3)],
        rates![(1, 1), (2, 2)],
        Equal,
        &[(9, 3, 1), (7, 7, 6), (0, 4, 1)],
    ),
    (
        rates![(1, 1), (2, 2)],
        rates![(5, 9)],
        Incomparable,
        &[(7, 7, 3), (5, 9, 2), (0, 4, 1)],
    ),
    (rates![], rates![(0, 1)], Equal, &[(3, 1, 1), (0, 5, 2)]),
];

#[test]
fn common_parts_at_every_place_keep_the_verdict(rt: HostRuntime) -> Result<(), Fail> {
    for (main_only, top_only, verdict, rows) in &KEPT {
        let keeps = keep_verdict(rt.alloc(), main_only, top_only, *verdict, rows)?;
        assert!(rt; keeps, "at {rows:?}");
    }
    Ok(())
}
