//! The numbers of the clusters without an order.
ghost use Rattle.std.specs.Prelude.{◌≡◌, ◌↔◌, ◌⊎◌, ◌++◌, ℕ, ◌+◌, ◌≤◌, ◌<◌, true, nat_eq, List, [], length, Contains, IsTrue, IsSome, Option, option_to_list, OnOk, OnErr};
ghost use Rattle.indexmap.specs.IndexSet.{contains, spare as room_of};
ghost use Rattle.slab.specs.Slab.{get};
ghost use Rattle.chunk_index.specs.Items.{is_in};
ghost use Rattle.cluster_store.specs.Stores.{Exchange as Kept};
ghost use Rattle.cluster_store.specs.Unordered.{HasRoomFor, HasUnordered, IsUnordered, LacksOrderIn, ListsUnordered};

use crate::stored::{Exchange, Made, Stored};
use chunk_index::Tag;
use graphs::Level;
use indexmap::IndexSet;
use outside::NoMemory;
use record::Record;
use slab::Slab;

/// Whether the number has a cluster without an order.
pub fn is_unordered<const W: usize>(slots: &Slab<Stored<W>>, number: usize) -> bool
    ensures { IsTrue result ↔ IsUnordered (get slots.now number) }
{
    match slots.get(number) {
        Some(stored) => stored.cluster().part_count() == 0,
        None => false,
    }
}

/// Whether a cluster without an order stands in a level.
pub fn lacks_order<const W: usize>(
    slots: &Slab<Stored<W>>,
    over: &IndexSet<usize>,
    level: Level,
) -> bool
    requires { ListsUnordered over.now slots.now.slots }
    ensures { IsTrue result ↔ ((n : ℕ) × LacksOrderIn level (get slots.now n)) }
{
    let numbers = over.as_slice();
    for at in 0..numbers.len() {
        if stands_unordered(slots, numbers[at], level) {
            return true;
        }
    }
    false
}

// Whether the number has one that stands in a level.
fn stands_unordered<const W: usize>(slots: &Slab<Stored<W>>, number: usize, level: Level) -> bool
    ensures { IsTrue result ↔ LacksOrderIn level (get slots.now number) }
{
    match slots.get(number) {
        Some(stored) => is_in(level, stored.tag()) && stored.cluster().part_count() == 0,
        None => false,
    }
}

/// Whether a level has what has this tag.
pub fn is_in(level: Level, tag: Tag) -> bool
    ensures { result ≡ is_in level tag }
{
    match (level, tag) {
        (_, Tag::Both) | (Level::Main, Tag::MainOnly) | (Level::Top, Tag::TopOnly) => true,
        (Level::Main, Tag::TopOnly) | (Level::Top, Tag::MainOnly) => false,
    }
}

/// Makes room for the numbers of some clusters and one more, where one of them or that one has no order.
pub fn make_room<const W: usize>(
    over: &mut IndexSet<usize>,
    rest: &[Record<W>],
    last: &Option<Record<W>>,
) -> Result<(), NoMemory>
    ensures room { OnOk result (HasUnordered (rest.now ++ option_to_list last.now) → length rest.now + 1 ≤ room_of over.new) }
    ensures same { (n : ℕ) → contains nat_eq over.new n ≡ contains nat_eq over.old n }
    ensures comes { OnErr result (rest.now ≡ [] → IsSome last.now) }
{
    if has_unordered(rest) || is_last_unordered(last) {
        over.reserve(rest.len() + 1)?;
    }
    Ok(())
}

// Whether one of some clusters has no order.
fn has_unordered<const W: usize>(clusters: &[Record<W>]) -> bool
    ensures { IsTrue result ↔ HasUnordered clusters.now }
{
    for at in 0..clusters.len() {
        if clusters[at].part_count() == 0 {
            return true;
        }
    }
    false
}

// Whether there is a last cluster, and it has no order.
fn is_last_unordered<const W: usize>(last: &Option<Record<W>>) -> bool
    ensures { IsTrue result ↔ HasUnordered (option_to_list last.now) }
{
    match last {
        Some(cluster) => cluster.part_count() == 0,
        None => false,
    }
}

/// Lists the numbers of clusters that came in and have no order, and lists those no more that went out. Takes no memory.
pub fn list_made<const W: usize>(
    slots: &Slab<Stored<W>>,
    over: &mut IndexSet<usize>,
    outs: &[usize],
    made: &Made,
)
    requires room { HasRoomFor (length made.now.rest.items + 1) over.old slots.now.slots (made.now.rest.items ++ option_to_list made.now.last) }
    requires others { (n : ℕ) → IsUnordered (get slots.now n)
        → Contains (made.now.rest.items ++ option_to_list made.now.last) n ⊎ (contains nat_eq over.old n ≡ true) }
    ensures { ListsUnordered over.new slots.now.slots }
{
    // Where there is no room for any number, none is listed, and none that came in has to be.
    if over.capacity() == 0 {
        return;
    }
    unlist_all(slots, over, outs);
    list_all(slots, over, made.rest.as_slice());
    if let Some(number) = made.last {
        list(slots, over, number);
    }
}

// Lists numbers whose clusters have no order. Takes no memory.
fn list_all<const W: usize>(slots: &Slab<Stored<W>>, over: &mut IndexSet<usize>, numbers: &[usize])
    requires { HasRoomFor (length numbers.now) over.old slots.now.slots numbers.now }
    ensures others { (n : ℕ) → contains nat_eq over.old n ≡ true → contains nat_eq over.new n ≡ true }
    ensures listed { (n : ℕ) → Contains numbers.now n → IsUnordered (get slots.now n) → contains nat_eq over.new n ≡ true }
    ensures room { room_of over.old ≤ room_of over.new + length numbers.now }
{
    for at in 0..numbers.len() {
        list(slots, over, numbers[at]);
    }
}

// Lists a number whose cluster has no order. Takes no memory.
fn list<const W: usize>(slots: &Slab<Stored<W>>, over: &mut IndexSet<usize>, number: usize)
    requires { IsUnordered (get slots.now number) → 0 < room_of over.old }
    ensures others { (n : ℕ) → contains nat_eq over.old n ≡ true → contains nat_eq over.new n ≡ true }
    ensures listed { IsUnordered (get slots.now number) → contains nat_eq over.new number ≡ true }
    ensures room { room_of over.old ≤ room_of over.new + 1 }
{
    if is_unordered(slots, number) {
        match over.insert(number) {
            Ok(_) => {}
            Err(_) => unreachable!(),
        }
    }
}

// Lists numbers no more whose clusters have an order, or are gone.
fn unlist_all<const W: usize>(
    slots: &Slab<Stored<W>>,
    over: &mut IndexSet<usize>,
    numbers: &[usize],
)
    ensures unordered { (n : ℕ) → IsUnordered (get slots.now n) → contains nat_eq over.old n ≡ true → contains nat_eq over.new n ≡ true }
    ensures room { room_of over.old ≤ room_of over.new }
{
    for at in 0..numbers.len() {
        unlist(slots, over, numbers[at]);
    }
}

// Lists a number no more whose cluster has an order, or is gone.
fn unlist<const W: usize>(slots: &Slab<Stored<W>>, over: &mut IndexSet<usize>, number: usize)
    ensures unordered { (n : ℕ) → IsUnordered (get slots.now n) → contains nat_eq over.old n ≡ true → contains nat_eq over.new n ≡ true }
    ensures room { room_of over.old ≤ room_of over.new }
{
    if !is_unordered(slots, number) {
        over.swap_remove(&number);
    }
}

/// Lists all numbers no more whose clusters have an order, or are gone.
pub fn tidy<const W: usize>(slots: &Slab<Stored<W>>, over: &mut IndexSet<usize>)
    requires { ListsUnordered over.old slots.now.slots }
    ensures { ListsUnordered over.new slots.now.slots }
{
    let mut left = over.len();
    while left > 0 {
        left -= 1;
        // The last number comes into the place of one that goes: it was looked at before.
        if let Some(number) = over.get_index(left) {
            let number = *number;
            unlist(slots, over, number);
        }
    }
}

/// Lists the numbers of clusters without an order that are to take the place of others.
///
/// # Errors
/// Where there is no memory for them. Some of them may be listed then.
pub fn list_exchanged<const W: usize>(
    over: &mut IndexSet<usize>,
    exchanged: &[Exchange<W>],
) -> Result<(), NoMemory>
    ensures others { (n : ℕ) → contains nat_eq over.old n ≡ true → contains nat_eq over.new n ≡ true }
    ensures listed { OnOk result ((x : Kept) → Contains exchanged.now x → x.cluster.parts ≡ [] → contains nat_eq over.new x.number ≡ true) }
{
    for at in 0..exchanged.len() {
        let exchange = &exchanged[at];
        if exchange.cluster().part_count() == 0 {
            list_number(over, exchange.number())?;
        }
    }
    Ok(())
}

// Lists a number.
fn list_number(over: &mut IndexSet<usize>, number: usize) -> Result<(), NoMemory>
    ensures others { (n : ℕ) → contains nat_eq over.old n ≡ true → contains nat_eq over.new n ≡ true }
    ensures listed { OnOk result (contains nat_eq over.new number ≡ true) }
{
    over.insert(number)?;
    Ok(())
}
