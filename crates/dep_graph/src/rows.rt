// The rows of a graph, one for each place, and what is done to several of them.
ghost use Rattle.std.specs.Prelude.{◌≡◌, ◌+◌, ◌*◌, ◌<◌, ◌≤◌, length, IfOk, OnErr};
ghost use Rattle.std.specs.FinSet as set;
ghost use Rattle.bitset.specs.Places.{IsWithin, places};
ghost use Rattle.smallvec.specs.SmallVec.{small_vec_len, HasRoomFor};
ghost use Rattle.dep_graph.specs.Changes.{AreResized, ChangesAt, CopiesRows, PutsAt, gives_ancestors, gives_descendants, takes_ancestor, takes_descendant};

use crate::numbering::number_anew;
use bitset::Bits;
use fee_rate::FeeRate;
use outside::NoMemory;
use smallvec::SmallVec;
use std::alloc::Global;

/// What is kept of a member.
#[derive(Clone, Copy)]
pub(crate) struct Row<const W: usize> {
    pub(crate) rate: FeeRate,
    // its ancestors and its descendants, itself among both
    pub(crate) ancestors: Bits<W>,
    pub(crate) descendants: Bits<W>,
}

// The row of no member, which fills a place that isn't used.
impl<const W: usize> Default for Row<W> {
    fn default() -> Self {
        Row {
            rate: FeeRate { fee: 0, size: 0 },
            ancestors: Bits::empty(),
            descendants: Bits::empty(),
        }
    }
}

/// The rows of a graph. Most graphs have one member, whose row takes no allocation.
pub(crate) type Rows<const W: usize> = SmallVec<Row<W>, 1>;

/// Puts a row at a place that there is, or behind the last.
pub(crate) fn put<const W: usize>(
    rows: &mut Rows<W>,
    place: usize,
    row: Row<W>,
) -> Result<(), NoMemory>
    requires { place ≤ small_vec_len rows.old }
    ensures ok { IfOk result (λ _. PutsAt place row.entry rows.old.items rows.new.items) }
    ensures err { OnErr result (rows.new.items ≡ rows.old.items) }
{
    if place < rows.len() {
        rows[place] = row;
    } else {
        rows.push(row)?;
    }
    Ok(())
}

/// Each of the places has more ancestors.
pub(crate) fn give_ancestors<const W: usize>(rows: &mut [Row<W>], places: &Bits<W>, more: &Bits<W>)
    requires { IsWithin (length rows.old) places.now }
    ensures { ChangesAt (gives_ancestors more.now) places.now rows.old rows.new }
{
    for place in places.iter() {
        let row = &mut rows[place];
        row.ancestors = row.ancestors.union(more);
    }
}

/// Each of the places has more descendants.
pub(crate) fn give_descendants<const W: usize>(
    rows: &mut [Row<W>],
    places: &Bits<W>,
    more: &Bits<W>,
)
    requires { IsWithin (length rows.old) places.now }
    ensures { ChangesAt (gives_descendants more.now) places.now rows.old rows.new }
{
    for place in places.iter() {
        let row = &mut rows[place];
        row.descendants = row.descendants.union(more);
    }
}

/// Each of the places has one ancestor fewer.
pub(crate) fn take_ancestor<const W: usize>(rows: &mut [Row<W>], places: &Bits<W>, gone: usize)
    requires within { IsWithin (length rows.old) places.now }
    requires place { gone < 64 * W }
    ensures { ChangesAt (takes_ancestor gone) places.now rows.old rows.new }
{
    for place in places.iter() {
        let row = &mut rows[place];
        row.ancestors.remove(gone);
    }
}

/// Each of the places has one descendant fewer.
pub(crate) fn take_descendant<const W: usize>(rows: &mut [Row<W>], places: &Bits<W>, gone: usize)
    requires within { IsWithin (length rows.old) places.now }
    requires place { gone < 64 * W }
    ensures { ChangesAt (takes_descendant gone) places.now rows.old rows.new }
{
    for place in places.iter() {
        let row = &mut rows[place];
        row.descendants.remove(gone);
    }
}

/// Puts the rows of these places behind the others, in rising order, with the places in them numbered as they stand.
pub(crate) fn copy_rows<const W: usize>(rows: &mut Rows<W>, from: &[Row<W>], within: &Bits<W>)
    requires there { IsWithin (length from.now) within.now }
    requires few { small_vec_len rows.old + set.len within.now ≤ 64 * W }
    requires room { HasRoomFor rows.old (set.len within.now) }
    ensures rows { CopiesRows from.now (places (64 * W) within.now) rows.old.items rows.new.items }
    ensures capacity { rows.new.capacity ≡ rows.old.capacity }
{
    let first = rows.len();
    for place in within.iter() {
        let row = from[place];
        rows.push_reserved(Row {
            rate: row.rate,
            ancestors: row.ancestors.meet(within),
            descendants: row.descendants.meet(within),
        });
    }
    number_anew(rows.as_mut_slice(), first, within);
}

/// The first of these rows, with sets of V words, which keep the places that they have room for.
pub(crate) fn resized_rows<const W: usize, const V: usize>(
    alloc: Global,
    from: &[Row<W>],
    count: usize,
) -> Result<Rows<V>, NoMemory>
    requires { count ≤ length from.now }
    ensures { IfOk result (λ rows. AreResized V count from.now rows.items) }
{
    let mut rows = SmallVec::with_capacity(alloc, count)?;
    for place in 0..count {
        let row = from[place];
        rows.push_reserved(Row {
            rate: row.rate,
            ancestors: row.ancestors.resized(),
            descendants: row.descendants.resized(),
        });
    }
    Ok(rows)
}
