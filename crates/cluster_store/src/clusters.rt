//! Clusters in a slab, and the index of their parts.
ghost use Rattle.std.specs.Prelude.{◌≡◌, ◌≢◌, ℕ, ◌+◌, ◌<◌, ◌≤◌, ◌++◌, [], None, Some, IsSome, IfOk, OnOk, OnErr, MatchOption, Contains, length, map, take};
ghost use Rattle.lists.specs.Distinct.{AreDistinct};
ghost use Rattle.slab.specs.Slab.{get, Updates, SameValues};
ghost use Rattle.chunk_index.specs.Keys.{key_of};
ghost use Rattle.cluster_store.specs.Stores.{Stored as Kept, key_in, parts_in};
ghost use Rattle.cluster_store.specs.Kept.{IsSameIndex, IsShown, IsWide};
ghost use Rattle.cluster_store.specs.Slots.{AddsOne, AddsTo, AreOut, AreStored, ExchangesAll, IsBeside, KeepsElsewhere, MovesIn, Places};

use crate::entries::{enter, entry_of, leave, retag};
use crate::stored::{Exchange, Stored};
use chunk_index::{ChunkIndex, Entry, Tag};
use outside::NoMemory;
use record::Record;
use slab::Slab;
use std::alloc::Global;

// What is stored under a number that has a cluster.
pub fn at<const W: usize>(slots: &Slab<Stored<W>>, number: usize) -> &Stored<W>
    requires { IsSome (get slots.now number) }
    ensures { get slots.now number ≡ Some result.now }
{
    match slots.get(number) {
        Some(stored) => stored,
        None => unreachable!(),
    }
}

/// The cluster of a number, if it has one.
pub fn cluster_of<const W: usize>(slots: &Slab<Stored<W>>, number: usize) -> Option<&Record<W>>
    ensures { MatchOption result (get slots.now number ≡ None)
        (λ c. (s : Kept) × (get slots.now number ≡ Some s) × (c.now ≡ s.cluster)) }
{
    match slots.get(number) {
        Some(stored) => Some(stored.cluster()),
        None => None,
    }
}

/// The entry of a part, told by the number of its cluster and its position there.
pub fn entry_at<const W: usize>(slots: &Slab<Stored<W>>, place: (usize, usize)) -> Entry
    requires { place.1 < length (parts_in (get slots.now place.0)) }
    ensures { key_of result ≡ key_in (get slots.now place.0) place }
{
    match slots.get(place.0) {
        Some(stored) => entry_of(place.0, stored.cluster(), place.1),
        None => unreachable!(),
    }
}

/// The levels in which the cluster of a number stands, if it has one.
pub fn tag_of<const W: usize>(slots: &Slab<Stored<W>>, number: usize) -> Option<Tag>
    ensures { MatchOption result (get slots.now number ≡ None)
        (λ tag. (s : Kept) × (get slots.now number ≡ Some s) × (tag ≡ s.tag)) }
{
    match slots.get(number) {
        Some(stored) => Some(stored.tag()),
        None => None,
    }
}

/// Adds a cluster under a number that was free.
///
/// # Errors
/// Where there is no memory for it. All is as it was.
pub fn add<const W: usize>(
    slots: &mut Slab<Stored<W>>,
    index: &mut ChunkIndex,
    stored: Stored<W>,
) -> Result<usize, NoMemory>
    requires { IsShown slots.old.slots index.old }
    ensures free { IfOk result (λ number. get slots.old number ≡ None) }
    ensures updates { IfOk result (λ number. Updates slots.old slots.new number (Some stored.entry)) }
    ensures err { OnErr result (SameValues slots.old slots.new) }
    ensures shown { IsShown slots.new.slots index.new }
{
    slots.reserve(1)?;
    let number = slots.vacant_key();
    enter(index, number, stored.tag(), stored.cluster(), None)?;
    Ok(slots.insert_reserved(stored))
}

/// Takes the cluster of a number out.
pub fn take_out<const W: usize>(slots: &mut Slab<Stored<W>>, index: &mut ChunkIndex, number: usize)
    requires shown { IsShown slots.old.slots index.old }
    requires there { IsSome (get slots.old number) }
    ensures updates { Updates slots.old slots.new number None }
    ensures shown { IsShown slots.new.slots index.new }
{
    match slots.try_remove(number) {
        Some(stored) => {
            let cluster = stored.cluster();
            leave(
                index,
                number,
                stored.tag(),
                cluster,
                None,
                cluster.part_count(),
            );
        }
        None => unreachable!(),
    }
}

/// Gives the cluster of a number another tag.
pub fn set_tag<const W: usize>(
    slots: &mut Slab<Stored<W>>,
    index: &mut ChunkIndex,
    number: usize,
    tag: Tag,
)
    requires shown { IsShown slots.old.slots index.old }
    requires there { IsSome (get slots.old number) }
    ensures updates { MovesIn slots.old.slots slots.new.slots number (Some tag) }
    ensures shown { IsShown slots.new.slots index.new }
{
    match slots.get_mut(number) {
        Some(stored) => {
            retag(index, number, stored.cluster(), stored.tag(), tag);
            stored.set_tag(tag);
        }
        None => unreachable!(),
    }
}

/// Takes the cluster of a number out, or gives it another tag.
pub fn make_move<const W: usize>(
    slots: &mut Slab<Stored<W>>,
    index: &mut ChunkIndex,
    number: usize,
    to: Option<Tag>,
)
    requires shown { IsShown slots.old.slots index.old }
    requires there { IsSome (get slots.old number) }
    ensures updates { MovesIn slots.old.slots slots.new.slots number to }
    ensures shown { IsShown slots.new.slots index.new }
{
    match to {
        Some(tag) => set_tag(slots, index, number, tag),
        None => take_out(slots, index, number),
    }
}

/// Adds clusters that are to stand in the levels of a tag under numbers that were free, and answers these.
///
/// # Errors
/// Where there is no memory for all of them. Those that went in are out again.
pub fn add_clusters<const W: usize>(
    alloc: Global,
    slots: &mut Slab<Stored<W>>,
    index: &mut ChunkIndex,
    clusters: Vec<Record<W>>,
    tag: Tag,
) -> Result<Vec<usize>, NoMemory>
    requires { IsShown slots.old.slots index.old }
    ensures ok { IfOk result (λ numbers. AddsTo (map (λ c. record { cluster = c; tag = tag }) clusters.entry.items) numbers.items
        slots.old.slots slots.new.slots) }
    ensures comes { OnErr result (clusters.entry.items ≢ []) }
    ensures err { OnErr result (SameValues slots.old slots.new) }
    ensures shown { IsShown slots.new.slots index.new }
{
    let mut numbers = Vec::new(alloc);
    for cluster in clusters {
        let stored = Stored::new(cluster, tag);
        if let Err(error) = add_next(slots, index, stored, &mut numbers) {
            take_all(slots, index, numbers);
            return Err(error);
        }
    }
    Ok(numbers)
}

// Adds a cluster under a number that was free, and puts the number behind others.
fn add_next<const W: usize>(
    slots: &mut Slab<Stored<W>>,
    index: &mut ChunkIndex,
    stored: Stored<W>,
    numbers: &mut Vec<usize>,
) -> Result<(), NoMemory>
    requires { IsShown slots.old.slots index.old }
    ensures ok { OnOk result (AddsOne stored.entry numbers.old.items numbers.new.items slots.old.slots slots.new.slots) }
    ensures err { OnErr result (SameValues slots.old slots.new) }
    ensures numbers { OnErr result (numbers.new.items ≡ numbers.old.items) }
    ensures shown { IsShown slots.new.slots index.new }
{
    numbers.reserve(1)?;
    let number = add(slots, index, stored)?;
    numbers.push_reserved(number);
    Ok(())
}

/// Takes the clusters of numbers out.
pub fn take_all<const W: usize>(
    slots: &mut Slab<Stored<W>>,
    index: &mut ChunkIndex,
    mut numbers: Vec<usize>,
)
    requires shown { IsShown slots.old.slots index.old }
    requires there { AreStored numbers.items slots.old.slots }
    ensures out { AreOut numbers.items slots.old.slots slots.new.slots }
    ensures shown { IsShown slots.new.slots index.new }
{
    while let Some(number) = numbers.pop() {
        take_out(slots, index, number);
    }
}

/// Puts clusters in the places of others, in the same levels.
///
/// # Errors
/// Where there is no memory for all entries that differ. Those that went in are out again.
pub fn exchange_all<const W: usize>(
    slots: &mut Slab<Stored<W>>,
    index: &mut ChunkIndex,
    exchanged: Vec<Exchange<W>>,
) -> Result<(), NoMemory>
    requires shown { IsShown slots.old.slots index.old }
    requires there { AreStored (map (λ x. x.number) exchanged.items) slots.old.slots }
    ensures ok { OnOk result (ExchangesAll exchanged.entry.items slots.old.slots slots.new.slots) }
    ensures err { OnErr result (SameValues slots.old slots.new) }
    ensures shown { IsShown slots.new.slots index.new }
{
    for at in 0..exchanged.len() {
        if let Err(error) = enter_beside(slots, index, &exchanged[at]) {
            let mut entered = exchanged;
            entered.truncate(at);
            leave_all(slots, index, entered);
            return Err(error);
        }
    }
    finish(slots, index, exchanged);
    Ok(())
}

/// Puts a cluster in the place of another, in the same levels.
///
/// # Errors
/// Where there is no memory for all entries that differ. Those that went in are out again.
pub fn exchange<const W: usize>(
    slots: &mut Slab<Stored<W>>,
    index: &mut ChunkIndex,
    exchange: Exchange<W>,
) -> Result<(), NoMemory>
    requires shown { IsShown slots.old.slots index.old }
    requires there { IsSome (get slots.old exchange.number) }
    ensures ok { OnOk result (Places slots.old.slots slots.new.slots exchange.entry.number exchange.entry.cluster) }
    ensures err { OnErr result (SameValues slots.old slots.new) }
    ensures shown { IsShown slots.new.slots index.new }
{
    enter_beside(slots, index, &exchange)?;
    replace(slots, index, exchange);
    Ok(())
}

// Puts the entries of a cluster in that the one in whose place it is to come lacks.
fn enter_beside<const W: usize>(
    slots: &Slab<Stored<W>>,
    index: &mut ChunkIndex,
    exchange: &Exchange<W>,
) -> Result<(), NoMemory>
    requires there { IsSome (get slots.now exchange.now.number) }
    requires absent { IsBeside slots.now.slots exchange.now.number [] index.old }
    ensures here { OnOk result (IsBeside slots.now.slots exchange.now.number exchange.now.cluster.parts index.new) }
    ensures others { OnOk result (KeepsElsewhere exchange.now.number index.old index.new) }
    ensures err { OnErr result (IsSameIndex index.old index.new) }
{
    let stored = at(slots, exchange.number());
    enter(
        index,
        exchange.number(),
        stored.tag(),
        exchange.cluster(),
        Some(stored.cluster()),
    )
}

// Takes them out again.
fn leave_beside<const W: usize>(
    slots: &Slab<Stored<W>>,
    index: &mut ChunkIndex,
    exchange: &Exchange<W>,
)
    requires there { IsSome (get slots.now exchange.now.number) }
    requires wide { IsBeside slots.now.slots exchange.now.number exchange.now.cluster.parts index.old }
    ensures here { IsBeside slots.now.slots exchange.now.number [] index.new }
    ensures others { KeepsElsewhere exchange.now.number index.old index.new }
{
    let stored = at(slots, exchange.number());
    let other = stored.cluster();
    let cluster = exchange.cluster();
    let count = cluster.part_count();
    leave(
        index,
        exchange.number(),
        stored.tag(),
        cluster,
        Some(other),
        count,
    );
}

// Takes the entries out that went in for clusters that were to be exchanged.
fn leave_all<const W: usize>(
    slots: &Slab<Stored<W>>,
    index: &mut ChunkIndex,
    mut exchanged: Vec<Exchange<W>>,
)
    requires there { AreStored (map (λ x. x.number) exchanged.items) slots.now.slots }
    requires wide { IsWide slots.now.slots exchanged.items index.old }
    ensures { IsShown slots.now.slots index.new }
{
    while let Some(exchange) = exchanged.pop() {
        leave_beside(slots, index, &exchange);
        drop(exchange);
    }
}

// Puts each cluster in its place, and takes the entries out that only the one there before had.
fn finish<const W: usize>(
    slots: &mut Slab<Stored<W>>,
    index: &mut ChunkIndex,
    mut exchanged: Vec<Exchange<W>>,
)
    requires there { AreStored (map (λ x. x.number) exchanged.items) slots.old.slots }
    requires wide { IsWide slots.old.slots exchanged.items index.old }
    ensures exchanged { ExchangesAll exchanged.entry.items slots.old.slots slots.new.slots }
    ensures shown { IsShown slots.new.slots index.new }
{
    while let Some(exchange) = exchanged.pop() {
        replace(slots, index, exchange);
    }
}

// Puts a cluster whose entries are in into the place of another, whose other entries go out.
fn replace<const W: usize>(
    slots: &mut Slab<Stored<W>>,
    index: &mut ChunkIndex,
    exchange: Exchange<W>,
)
    requires there { IsSome (get slots.old exchange.number) }
    requires wide { IsBeside slots.old.slots exchange.number exchange.cluster.parts index.old }
    ensures placed { Places slots.old.slots slots.new.slots exchange.entry.number exchange.entry.cluster }
    ensures here { IsBeside slots.new.slots exchange.entry.number [] index.new }
    ensures others { KeepsElsewhere exchange.entry.number index.old index.new }
{
    let (number, cluster) = exchange.into_parts();
    match slots.get_mut(number) {
        Some(stored) => {
            let gone = stored.replace(cluster);
            let count = gone.part_count();
            let other = stored.cluster();
            leave(index, number, stored.tag(), &gone, Some(other), count);
            drop(gone);
        }
        None => unreachable!(),
    }
}
