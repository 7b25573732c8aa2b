// Places numbered anew, in all rows of a list at once.
//
// The places of a set go down to the numbers from 0 on, by the powers of two in their gaps. A place's gap rises with
// the place, so no two places meet on the way, and one step of word operations a set and power is enough.
ghost use Rattle.std.specs.Prelude.{◌≡◌, ℕ, ◌+◌, ◌*◌, ◌^◌, ◌<◌, ◌≤◌, true, length};
ghost use Rattle.std.specs.FinSet as set;
ghost use Rattle.bitset.specs.Places.{IsWithin, places};
ghost use Rattle.dep_graph.specs.Changes.{IsRenumbered};
ghost use Rattle.dep_graph.specs.Moves.{gap, AreMoving, ChangesFrom, IsMovedDown, IsMovedUp};
ghost use Rattle.dep_graph.specs.Rows.{row_at, holds};

use crate::rows::Row;
use bitset::Bits;

/// Numbers the places of `within` anew in the rows from `first` on, which hold no others: in rising order, and from
/// `first` on too.
pub(crate) fn number_anew<const W: usize>(rows: &mut [Row<W>], first: usize, within: &Bits<W>)
    requires held { (i p : ℕ) → first ≤ i → i < length rows.old → holds (row_at rows.old i) p ≡ true
        → set.contains within.now p ≡ true }
    requires room { first + set.len within.now ≤ 64 * W }
    requires fits { first + set.len within.now < 2 ^ 64 }
    ensures { ChangesFrom (IsRenumbered (places (64 * W) within.now) first) first rows.old rows.new }
{
    let mut left = greatest_gap(within);
    let mut power = 0;
    while left > 0 {
        move_down(rows, first, &moving(within, power), 1 << power);
        left /= 2;
        power += 1;
    }
    move_up(rows, first);
}

// The gap of the last place, which is the greatest.
fn greatest_gap<const W: usize>(within: &Bits<W>) -> usize
    requires { set.len within.now < 2 ^ 64 }
    ensures within { IsWithin (64 * W) within.now }
    ensures most { (i : ℕ) → i < length (places (64 * W) within.now) → gap (places (64 * W) within.now) i ≤ result }
{
    let mut greatest = 0;
    let mut number = 0;
    for place in within.iter() {
        greatest = place - number;
        number += 1;
    }
    greatest
}

// Of the places as they stand after the lesser powers of two, those that have to go down by this one.
fn moving<const W: usize>(within: &Bits<W>, power: usize) -> Bits<W>
    requires power { power < 64 }
    requires fits { set.len within.now < 2 ^ 64 }
    ensures { AreMoving (places (64 * W) within.now) power result }
{
    let mut moving = Bits::empty();
    let mut number = 0;
    for place in within.iter() {
        let left = (place - number) >> power;
        if left % 2 == 1 {
            moving.insert(number + (left << power));
        }
        number += 1;
    }
    moving
}

// In the rows from `first` on, those of the places that are moving go down.
fn move_down<const W: usize>(rows: &mut [Row<W>], first: usize, moving: &Bits<W>, by: usize)
    ensures { ChangesFrom (IsMovedDown moving.now by) first rows.old rows.new }
{
    for i in first..rows.len() {
        let row = rows[i];
        rows[i] = Row {
            rate: row.rate,
            ancestors: moved_down(&row.ancestors, moving, by),
            descendants: moved_down(&row.descendants, moving, by),
        };
    }
}

// The set, where those of its places that are moving go down.
fn moved_down<const W: usize>(set: &Bits<W>, moving: &Bits<W>, by: usize) -> Bits<W>
    ensures { IsMovedDown moving.now by set.now result }
{
    set.minus(moving).union(&set.meet(moving).lowered(by))
}

// In the rows from `first` on, each place goes up by `first`.
fn move_up<const W: usize>(rows: &mut [Row<W>], first: usize)
    requires { (i p : ℕ) → first ≤ i → i < length rows.old → holds (row_at rows.old i) p ≡ true → p + first < 2 ^ 64 }
    ensures { ChangesFrom (IsMovedUp (64 * W) first) first rows.old rows.new }
{
    for i in first..rows.len() {
        let row = rows[i];
        rows[i] = Row {
            rate: row.rate,
            ancestors: row.ancestors.raised(first),
            descendants: row.descendants.raised(first),
        };
    }
}
