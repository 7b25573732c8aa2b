ghost use Rattle.std.specs.Prelude.{map, List};
ghost use Rattle.std.specs.Iterator.{IsFinite};
ghost use Rattle.fee_rate.specs.declared.rates.Sum.{Sum};
ghost use Rattle.graphs.specs.Diagrams.{corners_of, JoinsEqualRates};
ghost use Rattle.diagram.specs.Parts.{rate_of, AreLevelParts};
ghost use Rattle.diagram.specs.Points.{YieldsCorners};

use diagram::{Corners, are_level_parts, corners, verdict};
use fee_rate::FeeRate;
use graphs::{Verdict, equal_rates_join_once};
use std::iter::Copied;
use std::slice::Iter;
use std::test::Fail;

/// The corners of a slice of parts: at a list iterator they are those of its list.
fn slice_corners(parts: &[FeeRate]) -> Corners<Copied<Iter<'_, FeeRate>>>
    requires { AreLevelParts (map rate_of parts.now) }
    ensures can { ⟦<Corners<Copied<Iter<'static, FeeRate>>> as Iterator>⟧.can_next result }
    ensures ends { IsFinite (⟦<Corners<Copied<Iter<'static, FeeRate>>> as Iterator>⟧.remaining result) }
    ensures corners { (segments : List Sum) → JoinsEqualRates (map rate_of parts.now) segments
        → YieldsCorners ⟦<Corners<Copied<Iter<'static, FeeRate>>> as Iterator>⟧.next_gives result
        (corners_of segments) }
{
    corners(parts.iter().copied())
}

/// Whether these are the corners.
fn has_corners(parts: &[FeeRate], expected: &[(u64, i128)]) -> bool {
    are_level_parts(parts) && slice_corners(parts).eq(expected.iter().copied())
}

/// The verdict of two slices of parts; `None` where one isn't of a level.
fn compared(a: &[FeeRate], b: &[FeeRate]) -> Option<Verdict> {
    if !are_level_parts(a) || !are_level_parts(b) {
        return None;
    }
    equal_rates_join_once();
    Some(verdict(slice_corners(a), slice_corners(b)))
}

/// Parts, points, and whether these are the corners.
static CORNERS: [(&[FeeRate], &[(u64, i128)], bool); 6] = [
    (rates![], &[(0, 0)], true),
    (
        rates![(12, 20), (5, 10)],
        &[(0, 0), (20, 12), (30, 17)],
        true,
    ),
    (rates![(1, 1), (2, 2)], &[(0, 0), (3, 3)], true),
    (rates![(2010, 319)], &[(0, 0), (319, 2010)], true),
    (
        rates![(0, 7), (0, 1), (-1, 2), (-3, 6)],
        &[(0, 0), (8, 0), (16, -4)],
        true,
    ),
    (rates![(1, 1), (2, 2)], &[(0, 0), (1, 1), (3, 3)], false),
];

#[test]
fn equal_slopes_are_joined(rt: HostRuntime) -> Result<(), Fail> {
    for (parts, points, are) in &CORNERS {
        assert!(rt; has_corners(parts, points) == *are, "at {parts:?}");
    }
    Ok(())
}

/// Parts, and whether they are those of a level.
static LEVELS: [(&[FeeRate], bool); 4] = [
    (rates![(1, 2), (1, 1)], false),
    (rates![(1, 0)], false),
    (rates![(0, 4_194_304_000_000), (0, 1)], false),
    (rates![(i64::MAX, 4_194_304_000_000)], true),
];

#[test]
fn parts_of_no_level_are_told(rt: HostRuntime) -> Result<(), Fail> {
    for (parts, are) in &LEVELS {
        assert!(rt; are_level_parts(parts) == *are, "at {parts:?}");
    }
    Ok(())
}

/// Two levels' parts, and the verdict of the first beside the second.
static VERDICTS: [(&[FeeRate], &[FeeRate], Verdict); 11] = [
    (rates![], rates![], Verdict::Equal),
    (rates![(500, 100)], rates![(100, 200)], Verdict::Better),
    (rates![(100, 200)], rates![(500, 100)], Verdict::Worse),
    (
        rates![(150, 300)],
        rates![(100, 100)],
        Verdict::Incomparable,
    ),
    (rates![(0, 1), (-10, 1)], rates![(-10, 1)], Verdict::Better),
    (rates![(-10, 1)], rates![], Verdict::Worse),
    (
        rates![(9, 3), (-1, 1), (-2, 1)],
        rates![(9, 3)],
        Verdict::Worse,
    ),
    (
        rates![(50, 10), (150, 300)],
        rates![(50, 10), (100, 100)],
        Verdict::Incomparable,
    ),
    (rates![(2, 2), (1, 1)], rates![(3, 3)], Verdict::Equal),
    (
        rates![(i64::MAX, 1), (-i64::MAX, 1)],
        rates![(i64::MAX, 2)],
        Verdict::Incomparable,
    ),
    (
        rates![(i64::MAX, 4_194_303_999_999), (-i64::MAX, 1)],
        rates![(i64::MAX, 4_194_304_000_000)],
        Verdict::Incomparable,
    ),
];

#[test]
fn diagrams_are_compared_at_every_size(rt: HostRuntime) -> Result<(), Fail> {
    for (a, b, verdict) in &VERDICTS {
        assert!(rt; compared(a, b) == Some(*verdict), "at {a:?} and {b:?}");
    }
    Ok(())
}
