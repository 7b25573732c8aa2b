ghost use Rattle.std.specs.Prelude.{◌≡◌, ℕ, ◌*◌, ◌+◌, ◌<◌, ◌≤◌, ◌++◌, ◌↔◌, true, length, slice_index, map, Contains, IfOk, OnOk};
ghost use Rattle.std.specs.FinSet as set;
ghost use Rattle.lists.specs.Distinct.{AreDistinct};
ghost use Rattle.bitset.specs.Places.{IsWithin, places};
ghost use Rattle.graphs.specs.Graphs.{Lists};
ghost use Rattle.graphs.specs.Unions.{PutsBehind};
ghost use Rattle.cluster.specs.Changes.{IsChosen};

use bitset::Bits;
use graphs::{IdBuf, TxId};
use outside::NoMemory;
use smallvec::SmallVec;
use std::alloc::Global;

/// Where a name stands.
pub(crate) fn place_of(names: &[TxId], id: TxId) -> usize
    requires { Contains names.now id }
    ensures within { result < length names.now }
    ensures here { slice_index names.now result ≡ id }
{
    for place in 0..names.len() {
        if names[place] == id {
            return place;
        }
    }
    unreachable!()
}

/// Takes the places of some names out of a set.
pub(crate) fn take_out<const W: usize>(own: &[TxId], names: &[TxId], rest: &mut Bits<W>)
    requires narrow { length own.now ≤ 64 * W }
    requires once { AreDistinct own.now }
    requires names { (id : ℕ) → Contains names.now id → Contains own.now id }
    ensures less { (p : ℕ) → set.contains rest.new p ≡ true → set.contains rest.old p ≡ true }
    ensures left { (p : ℕ) → p < length own.now → set.contains rest.old p ≡ true
        → (set.contains rest.new p ≡ true) ↔ (Contains names.now (slice_index own.now p) → ⊥) }
{
    for at in 0..names.len() {
        rest.remove(place_of(own, names[at]));
    }
}

/// Adds the names of some places, upward.
pub(crate) fn copy_names<const W: usize>(
    names: &mut SmallVec<TxId, 2>,
    from: &[TxId],
    chosen: &Bits<W>,
) -> Result<(), NoMemory>
    requires { IsWithin (length from.now) chosen.now }
    ensures { OnOk result (names.new.items ≡ names.old.items ++ map (slice_index from.now)
        (places (64 * W) chosen.now)) }
{
    names.reserve_exact(chosen.count())?;
    for place in chosen.iter() {
        names.push(from[place])?;
    }
    Ok(())
}

/// The names of two clusters, those of the first before those of the second.
pub(crate) fn both_names(
    alloc: Global,
    first: &[TxId],
    second: &[TxId],
) -> Result<SmallVec<TxId, 2>, NoMemory>
    ensures { IfOk result (λ names. names.items ≡ first.now ++ second.now) }
{
    let count = first.len().checked_add(second.len()).ok_or(NoMemory)?;
    let mut names = SmallVec::with_capacity(alloc, count)?;
    names.extend_from_slice(first)?;
    names.extend_from_slice(second)?;
    Ok(names)
}

/// Puts the names of some places behind `out`, by rising place.
pub(crate) fn add_chosen<const W: usize>(names: &[TxId], chosen: &Bits<W>, out: &mut IdBuf)
    requires within { IsWithin (length names.now) chosen.now }
    requires once { AreDistinct names.now }
    requires room { length names.now ≤ out.old.room }
    ensures adds { PutsBehind (IsChosen names.now chosen.now) out.old.ids out.new.ids }
    ensures room { length out.new.ids + out.new.room ≡ length out.old.ids + out.old.room }
{
    for place in chosen.iter() {
        out.push(names[place]);
    }
}

/// Leaves the names of some places in `out`, in rising order.
pub(crate) fn list_chosen<const W: usize>(names: &[TxId], chosen: &Bits<W>, out: &mut IdBuf)
    requires within { IsWithin (length names.now) chosen.now }
    requires once { AreDistinct names.now }
    requires room { length names.now ≤ length out.old.ids + out.old.room }
    ensures lists { Lists (IsChosen names.now chosen.now) out.new.ids }
    ensures room { length out.new.ids + out.new.room ≡ length out.old.ids + out.old.room }
{
    out.clear();
    add_chosen(names, chosen, out);
    out.sort();
}
