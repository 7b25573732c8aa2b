//! What becomes of clusters, and of the index of their parts, where the top level changes.
ghost use Rattle.std.specs.Prelude.{◌≡◌, ◌↔◌, ◌≤◌, ℕ, List, ◌∷◌, [], true, false, Some, IsSome, IfOk, OnOk, OnErr, MatchOption};
ghost use Rattle.slab.specs.Slab.{SameValues};
ghost use Rattle.chunk_index.specs.declared.entry.Tag.TheVariants.{Both};
ghost use Rattle.cluster_store.specs.Kept.{IsShown, shelved};
ghost use Rattle.cluster_store.specs.Tops.{Exchanged, MainKeeps, MayLeave, TopChanges, left_of, top_tag};

use crate::clusters::{add, add_clusters, at, exchange, make_move, take_all};
use crate::stored::{Exchange, Made, Stored};
use chunk_index::{ChunkIndex, Tag};
use outside::NoMemory;
use record::Record;
use slab::Slab;
use std::alloc::Global;

/// Clusters go out of the top level, and others come in.
///
/// # Errors
/// Where there is no memory for those that come in. All is as it was.
pub fn rebuild<const W: usize>(
    alloc: Global,
    slots: &mut Slab<Stored<W>>,
    index: &mut ChunkIndex,
    staged: bool,
    outs: &[usize],
    rest: Vec<Record<W>>,
    last: Option<Record<W>>,
) -> Result<Made, NoMemory>
    requires narrow { W ≤ 64 }
    requires shown { IsShown slots.old.slots index.old }
    requires may { MayLeave staged outs.now (shelved slots.old.slots) }
    ensures rebuilt { IfOk result (λ made. TopChanges staged outs.now made.rest.items made.last rest.entry.items last.entry
        (shelved slots.old.slots) (shelved slots.new.slots)) }
    ensures comes { OnErr result (rest.entry.items ≡ [] → IsSome last.entry) }
    ensures err { OnErr result (SameValues slots.old slots.new) }
    ensures shown { IsShown slots.new.slots index.new }
{
    let numbers = add_clusters(alloc, slots, index, rest, new_tag(staged))?;
    match put_last(slots, index, staged, outs, last) {
        Ok(number) => Ok(Made {
            rest: numbers,
            last: number,
        }),
        Err(error) => {
            take_all(slots, index, numbers);
            Err(error)
        }
    }
}

// The last of the clusters that come in, where there is one, and those that go out.
fn put_last<const W: usize>(
    slots: &mut Slab<Stored<W>>,
    index: &mut ChunkIndex,
    staged: bool,
    outs: &[usize],
    last: Option<Record<W>>,
) -> Result<Option<usize>, NoMemory>
    requires narrow { W ≤ 64 }
    requires shown { IsShown slots.old.slots index.old }
    requires may { MayLeave staged outs.now (shelved slots.old.slots) }
    ensures put { IfOk result (λ number. TopChanges staged outs.now [] number [] last.entry
        (shelved slots.old.slots) (shelved slots.new.slots)) }
    ensures comes { OnErr result (IsSome last.entry) }
    ensures err { OnErr result (SameValues slots.old slots.new) }
    ensures shown { IsShown slots.new.slots index.new }
{
    match last {
        Some(cluster) => Ok(Some(put_one(slots, index, staged, outs, cluster)?)),
        None => {
            leave_top(slots, index, staged, outs);
            Ok(None)
        }
    }
}

// One cluster comes in, under the number of the first of those that go out where main doesn't keep that one.
fn put_one<const W: usize>(
    slots: &mut Slab<Stored<W>>,
    index: &mut ChunkIndex,
    staged: bool,
    outs: &[usize],
    cluster: Record<W>,
) -> Result<usize, NoMemory>
    requires narrow { W ≤ 64 }
    requires shown { IsShown slots.old.slots index.old }
    requires may { MayLeave staged outs.now (shelved slots.old.slots) }
    ensures put { IfOk result (λ number. TopChanges staged outs.now [] (Some number) [] (Some cluster.entry)
        (shelved slots.old.slots) (shelved slots.new.slots)) }
    ensures err { OnErr result (SameValues slots.old slots.new) }
    ensures shown { IsShown slots.new.slots index.new }
{
    match giver(slots, staged, outs) {
        Some(leaving) => {
            put_under(slots, index, staged, leaving.0, leaving.1, cluster)?;
            Ok(leaving.0)
        }
        None => put_beside(slots, index, staged, outs, cluster),
    }
}

// The first of those that go out and the others, where main doesn't keep the first.
fn giver<'a, const W: usize>(
    slots: &Slab<Stored<W>>,
    staged: bool,
    outs: &'a [usize],
) -> Option<(usize, &'a [usize])>
    requires { MayLeave staged outs.now (shelved slots.now.slots) }
    ensures { MatchOption result
        ((first : ℕ) (others : List ℕ) → outs.now ≡ first ∷ others → MainKeeps staged (shelved slots.now.slots) first)
        (λ leaving. (outs.now ≡ leaving.0 ∷ leaving.1.now) × (MainKeeps staged (shelved slots.now.slots) leaving.0 → ⊥)) }
{
    match outs.split_first() {
        Some((first, others)) => {
            if gives_number(staged, at(slots, *first).tag()) {
                Some((*first, others))
            } else {
                None
            }
        }
        None => None,
    }
}

// One cluster comes in under the number of the first of those that go out.
fn put_under<const W: usize>(
    slots: &mut Slab<Stored<W>>,
    index: &mut ChunkIndex,
    staged: bool,
    first: usize,
    others: &[usize],
    cluster: Record<W>,
) -> Result<(), NoMemory>
    requires narrow { W ≤ 64 }
    requires shown { IsShown slots.old.slots index.old }
    requires may { MayLeave staged (first ∷ others.now) (shelved slots.old.slots) }
    requires gives { MainKeeps staged (shelved slots.old.slots) first → ⊥ }
    ensures put { OnOk result (Exchanged staged (first ∷ others.now) (first ∷ []) (cluster.entry ∷ [])
        (shelved slots.old.slots) (shelved slots.new.slots)) }
    ensures err { OnErr result (SameValues slots.old slots.new) }
    ensures shown { IsShown slots.new.slots index.new }
{
    exchange(slots, index, Exchange::new(first, cluster))?;
    leave_top(slots, index, staged, others);
    Ok(())
}

// One cluster comes in under a number that was free.
fn put_beside<const W: usize>(
    slots: &mut Slab<Stored<W>>,
    index: &mut ChunkIndex,
    staged: bool,
    outs: &[usize],
    cluster: Record<W>,
) -> Result<usize, NoMemory>
    requires shown { IsShown slots.old.slots index.old }
    requires may { MayLeave staged outs.now (shelved slots.old.slots) }
    ensures put { IfOk result (λ number. Exchanged staged outs.now (number ∷ []) (cluster.entry ∷ [])
        (shelved slots.old.slots) (shelved slots.new.slots)) }
    ensures err { OnErr result (SameValues slots.old slots.new) }
    ensures shown { IsShown slots.new.slots index.new }
{
    let number = add(slots, index, Stored::new(cluster, new_tag(staged)))?;
    leave_top(slots, index, staged, outs);
    Ok(number)
}

// Clusters go out of the top level.
fn leave_top<const W: usize>(
    slots: &mut Slab<Stored<W>>,
    index: &mut ChunkIndex,
    staged: bool,
    outs: &[usize],
)
    requires shown { IsShown slots.old.slots index.old }
    requires may { MayLeave staged outs.now (shelved slots.old.slots) }
    ensures out { Exchanged staged outs.now [] [] (shelved slots.old.slots) (shelved slots.new.slots) }
    ensures shown { IsShown slots.new.slots index.new }
{
    for at in 0..outs.len() {
        leave_one(slots, index, staged, outs[at]);
    }
}

// One cluster goes out of the top level.
fn leave_one<const W: usize>(
    slots: &mut Slab<Stored<W>>,
    index: &mut ChunkIndex,
    staged: bool,
    number: usize,
)
    requires shown { IsShown slots.old.slots index.old }
    requires may { MayLeave staged (number ∷ []) (shelved slots.old.slots) }
    ensures out { Exchanged staged (number ∷ []) [] [] (shelved slots.old.slots) (shelved slots.new.slots) }
    ensures shown { IsShown slots.new.slots index.new }
{
    let tag = at(slots, number).tag();
    make_move(slots, index, number, left(staged, tag));
}

// The levels of what comes into the top level.
fn new_tag(staged: bool) -> Tag
    ensures { result ≡ top_tag staged }
{
    if staged { Tag::TopOnly } else { Tag::Both }
}

// Whether a cluster of the top level may be changed under its number: where there is a staging, one that main has too stays.
fn gives_number(staged: bool, tag: Tag) -> bool
    ensures { (result ≡ false) ↔ ((staged ≡ true) × (tag ≡ Both)) }
{
    match tag {
        Tag::Both => !staged,
        Tag::MainOnly | Tag::TopOnly => true,
    }
}

// What stays of a cluster that goes out of the top level.
fn left(staged: bool, tag: Tag) -> Option<Tag>
    ensures { result ≡ left_of staged tag }
{
    match tag {
        Tag::Both if staged => Some(Tag::MainOnly),
        Tag::MainOnly => Some(Tag::MainOnly),
        Tag::Both | Tag::TopOnly => None,
    }
}
