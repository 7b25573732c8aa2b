ghost use Rattle.std.specs.Prelude.{◌≡◌, ℕ, ◌<◌, ◌≤◌, length, map, nat_eq, Contains, IsSome, IsTrue, IfOk, IfErr, MatchBool, [], slice_index};
ghost use Rattle.std.specs.HashMap as hash;
ghost use Rattle.graphs.specs.Certificates.{HasOrder, graph_of};
ghost use Rattle.certificate.specs.declared.fault.CheckFault.TheVariants.{Order};
ghost use Rattle.certificate.specs.Faults.{Says};
ghost use Rattle.places.specs.Chains.{AreWithin};
ghost use Rattle.certificate.specs.Orders.{AreOfOneGroup, AreRanks, AreSeats, AreTaken, IsLaid, IsOrderOf, Rise, seat_at};
ghost use Rattle.certificate.specs.Parts.{ids_at, order_of, parts_of};
ghost use Rattle.places.specs.Places.{ArePlaces};
ghost use Rattle.certificate.specs.Places.{named};
ghost use Rattle.certificate.specs.Tables.{names_of};

use crate::graph::Tables;
use crate::groups::groups_of;
use crate::names::{Names, find};
use crate::{CheckFault, Part};
use graphs::TxId;
use std::alloc::{AllocError, Global};

/// What the test of an order looks into.
#[derive(Drop)]
struct Desk {
    /// The names of all parts.
    order: Vec<TxId>,
    /// For each place its component.
    groups: Vec<usize>,
    /// For each place where its name stands in the order so far, if it does.
    seats: Vec<Option<usize>>,
    /// For each place its rank, once all have a seat.
    ranks: Vec<usize>,
}

impl Desk {
    /// All that takes memory.
    fn new(
        alloc: Global,
        count: usize,
        pairs: &[(usize, usize)],
        parts: &[Part],
    ) -> Result<Desk, AllocError>
        requires { AreWithin count pairs.now }
        ensures { IfOk result (IsLaid count pairs.now (order_of parts.now)) }
    {
        Ok(Desk {
            order: ids_of(alloc, parts)?,
            groups: groups_of(alloc, count, pairs)?,
            seats: vec![in alloc; None; count]?,
            ranks: vec![in alloc; 0; count]?,
        })
    }
}

/// Whether the parts are an order of the graph, each in one component.
pub(crate) fn check_order(
    alloc: Global,
    txs: &[(TxId, i64, u64)],
    tables: &Tables,
    parts: &[Part],
) -> Result<(), CheckFault>
    requires places { ArePlaces (names_of txs.now) (hash.get nat_eq tables.now.names) }
    requires pairs { AreWithin (length (names_of txs.now)) tables.now.pairs.items }
    ensures yes { IfOk result
        (λ _. HasOrder (graph_of txs.now (map (named (names_of txs.now)) tables.now.pairs.items))
        (parts_of parts.now)) }
    ensures few { IfOk result (λ _. length (order_of parts.now) ≤ length txs.now) }
    ensures fault { IfErr result
        (Says Order (HasOrder (graph_of txs.now (map (named (names_of txs.now)) tables.now.pairs.items))
        (parts_of parts.now))) }
{
    let mut desk = Desk::new(alloc, txs.len(), tables.pairs.as_slice(), parts)?;
    if are_in_order(&mut desk, txs, tables, parts) {
        Ok(())
    } else {
        Err(CheckFault::Order)
    }
}

/// Whether the parts are an order of the graph, each in one component, by what was laid out for the test.
fn are_in_order(desk: &mut Desk, txs: &[(TxId, i64, u64)], tables: &Tables, parts: &[Part]) -> bool
    requires places { ArePlaces (names_of txs.now) (hash.get nat_eq tables.now.names) }
    requires pairs { AreWithin (length (names_of txs.now)) tables.now.pairs.items }
    requires laid { IsLaid (length (names_of txs.now)) tables.now.pairs.items (order_of parts.now) desk.old }
    ensures order { MatchBool result
        (HasOrder (graph_of txs.now (map (named (names_of txs.now)) tables.now.pairs.items)) (parts_of parts.now))
        (HasOrder (graph_of txs.now (map (named (names_of txs.now)) tables.now.pairs.items)) (parts_of parts.now) → ⊥) }
    ensures few { IsTrue result → length (order_of parts.now) ≤ length txs.now }
{
    if !is_order(desk, txs, &tables.names) {
        return false;
    }
    if !is_rising(desk.ranks.as_slice(), tables.pairs.as_slice()) {
        return false;
    }
    are_together(desk.groups.as_slice(), &tables.names, parts)
}

/// The names of all parts.
fn ids_of(alloc: Global, parts: &[Part]) -> Result<Vec<TxId>, AllocError>
    ensures { IfOk result (λ order. order.items ≡ order_of parts.now) }
{
    let mut order = Vec::new(alloc);
    for part in parts {
        order.extend_from_slice(part.ids.as_slice())?;
    }
    Ok(order)
}

/// Gives each place its rank in the order. Whether that is each name once.
fn is_order(desk: &mut Desk, txs: &[(TxId, i64, u64)], names: &Names) -> bool
    requires places { ArePlaces (names_of txs.now) (hash.get nat_eq names.now) }
    requires seats { AreSeats (names_of txs.now) [] desk.old.seats.items }
    requires ranks { length desk.old.ranks.items ≡ length (names_of txs.now) }
    ensures order { MatchBool result (IsOrderOf (names_of txs.now) desk.old.order.items)
        (IsOrderOf (names_of txs.now) desk.old.order.items → ⊥) }
    ensures ranks { IsTrue result → AreRanks (names_of txs.now) desk.old.order.items desk.new.ranks.items }
    ensures groups { desk.new.groups.items ≡ desk.old.groups.items }
{
    take_seats(desk.seats.as_mut_slice(), txs, names, desk.order.as_slice())
        && take_ranks(desk.ranks.as_mut_slice(), desk.seats.as_slice())
}

/// Seats the names of an order. Whether each is a name, and had no seat.
fn take_seats(
    seats: &mut [Option<usize>],
    txs: &[(TxId, i64, u64)],
    names: &Names,
    order: &[TxId],
) -> bool
    requires places { ArePlaces (names_of txs.now) (hash.get nat_eq names.now) }
    requires seats { AreSeats (names_of txs.now) [] seats.old }
    ensures { MatchBool result (AreSeats (names_of txs.now) order.now seats.new)
        (IsOrderOf (names_of txs.now) order.now → ⊥) }
{
    for (rank, id) in order.iter().enumerate() {
        let Some(place) = find(names, *id) else {
            return false;
        };
        if let Some(_) = seats[place] {
            return false;
        }
        seats[place] = Some(rank);
    }
    true
}

/// Writes down the ranks of seats. Whether all are taken.
fn take_ranks(ranks: &mut [usize], seats: &[Option<usize>]) -> bool
    requires { length ranks.old ≡ length seats.now }
    ensures { MatchBool result (AreTaken seats.now ranks.new)
        (((place : ℕ) → place < length seats.now → IsSome (seat_at seats.now place)) → ⊥) }
{
    for (place, seat) in seats.iter().enumerate() {
        match *seat {
            Some(rank) => ranks[place] = rank,
            None => return false,
        }
    }
    true
}

/// Whether each parent has a lower rank than its child.
fn is_rising(ranks: &[usize], pairs: &[(usize, usize)]) -> bool
    requires { AreWithin (length ranks.now) pairs.now }
    ensures { MatchBool result (Rise ranks.now pairs.now) (Rise ranks.now pairs.now → ⊥) }
{
    for pair in pairs {
        if ranks[pair.0] >= ranks[pair.1] {
            return false;
        }
    }
    true
}

/// Whether the names of each part are of one group.
fn are_together(groups: &[usize], names: &Names, parts: &[Part]) -> bool
    requires { (id : ℕ) → Contains (order_of parts.now) id → (place : ℕ) × (place < length groups.now)
        × (hash.get nat_eq names.now id ≡ Some place) }
    ensures { MatchBool result
        ((k : ℕ) → k < length parts.now
        → AreOfOneGroup (hash.get nat_eq names.now) groups.now (ids_at parts.now k))
        (((k : ℕ) → k < length parts.now
        → AreOfOneGroup (hash.get nat_eq names.now) groups.now (ids_at parts.now k)) → ⊥) }
{
    for part in parts {
        if !is_together(groups, names, part.ids.as_slice()) {
            return false;
        }
    }
    true
}

/// Whether names are of one group.
fn is_together(groups: &[usize], names: &Names, ids: &[TxId]) -> bool
    requires { (id : ℕ) → Contains ids.now id → (place : ℕ) × (place < length groups.now)
        × (hash.get nat_eq names.now id ≡ Some place) }
    ensures { MatchBool result (AreOfOneGroup (hash.get nat_eq names.now) groups.now ids.now)
        (AreOfOneGroup (hash.get nat_eq names.now) groups.now ids.now → ⊥) }
{
    let Some(first) = ids.first() else {
        return true;
    };
    let group = group_of(groups, names, *first);
    for id in ids {
        if group_of(groups, names, *id) != group {
            return false;
        }
    }
    true
}

/// The group of a name.
fn group_of(groups: &[usize], names: &Names, id: TxId) -> usize
    requires { (place : ℕ) × (place < length groups.now) × (hash.get nat_eq names.now id ≡ Some place) }
    ensures { (place : ℕ) → hash.get nat_eq names.now id ≡ Some place → result ≡ slice_index groups.now place }
{
    match find(names, id) {
        Some(place) => groups[place],
        None => unreachable!(),
    }
}
