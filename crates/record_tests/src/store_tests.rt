ghost use Rattle.std.specs.Prelude.{◌≡◌, ◌↔◌, ◌<◌, [], ◌∷◌, Some, Contains, IsTrue, IfOk};
ghost use Rattle.std.specs.FinMap as finmap;
ghost use Rattle.cluster_store.specs.Stores.{Stored as Kept};
ghost use Rattle.cluster_store.specs.Tops.{StandsInTop};
ghost use Rattle.record.specs.Records.{IsFitted};

use chunk_index::Tag;
use cluster_store::{ClusterStore, Exchange, Made, PartWalk, Stored};
use component::Work;
use fee_rate::{FeeRate, is_rate};
use graph_model::Limits;
use graphs::{Level, TxId};
use record::Record;
use std::alloc::Global;
use std::marker::Brand;
use std::process::Abort;
use std::sync::ledger;
use std::sync::ledger::Blank;
use std::test::Fail;
use step_count::{Ledger, NoLedger, Steps};

// A cluster may have one name.
const ONE_NAME: Limits = Limits {
    count: 1,
    size: 1_000,
    total: 10,
    defer: true,
};

// A cluster may have two.
const TWO_NAMES: Limits = Limits {
    count: 2,
    size: 1_000,
    total: 10,
    defer: true,
};

// ---- records, all made before the store is

// What they are made in, and the limits of clusters.
#[derive(Drop)]
struct Room {
    alloc: Global,
    limits: Limits,
    work: Work<1>,
}

// The record of one name, with its fee and a size of 1.
fn alone<L: Ledger>(
    rt: &impl Abort,
    room: &mut Room,
    steps: &mut Steps<L>,
    id: TxId,
    fee: i64,
) -> Result<Record<1>, Fail>
    ensures names { IfOk result (λ r. r.names ≡ id ∷ []) }
    ensures fitted { IfOk result (IsFitted 64 room.new.limits) }
    ensures same { room.new.limits ≡ room.old.limits }
{
    assert!(rt; is_rate(FeeRate { fee, size: 1 }));
    assert!(rt; 1 <= room.limits.count);
    assert!(rt; 1 <= room.limits.size);
    Ok(Record::single(room.alloc, id, fee, 1, &mut room.work, steps)?)
}

// One record of two that have a name each. It has no clause of what the record is, since callers would pay for it in their proofs.
fn joined<L: Ledger>(
    rt: &impl Abort,
    room: &mut Room,
    steps: &mut Steps<L>,
    old: &Record<1>,
    one: &Record<1>,
    pair: (TxId, TxId),
) -> Result<Record<1>, Fail>
    requires old { old.now.names ≡ pair.0 ∷ [] }
    requires one { one.now.names ≡ pair.1 ∷ [] }
    requires old_fits { IsFitted 64 room.old.limits old.now }
    requires one_fits { IsFitted 64 room.old.limits one.now }
{
    assert!(rt; pair.0 != pair.1);
    let limits = room.limits;
    assert!(rt; limits.count <= 64);
    Ok(old.joined(
        room.alloc,
        one,
        pair.0,
        pair.1,
        &limits,
        &mut room.work,
        steps,
    )?)
}

// One record of that of a name and another name, which depends on it.
fn below<L: Ledger>(
    rt: &impl Abort,
    room: &mut Room,
    steps: &mut Steps<L>,
    old: &Record<1>,
    parent: TxId,
    child: (TxId, i64),
) -> Result<Record<1>, Fail>
    requires old { old.now.names ≡ parent ∷ [] }
    requires fits { IsFitted 64 room.old.limits old.now }
{
    let one = alone(rt, room, steps, child.0, child.1)?;
    let both = joined(rt, room, steps, old, &one, (parent, child.0));
    drop(one);
    both
}

// The record of a name and another that depends on it.
fn pair<L: Ledger>(
    rt: &impl Abort,
    room: &mut Room,
    steps: &mut Steps<L>,
    parent: (TxId, i64),
    child: (TxId, i64),
) -> Result<Record<1>, Fail> {
    let old = alone(rt, room, steps, parent.0, parent.1)?;
    let both = below(rt, room, steps, &old, parent.0, child);
    drop(old);
    both
}

// A name with its fee, and another that depends on it, if any.
type Coming = ((TxId, i64), Option<(TxId, i64)>);

// The record of one name, or of one and another that depends on it.
fn made<L: Ledger>(
    rt: &impl Abort,
    room: &mut Room,
    steps: &mut Steps<L>,
    coming: &Coming,
) -> Result<Record<1>, Fail> {
    match coming.1 {
        Some(child) => pair(rt, room, steps, coming.0, child),
        None => alone(rt, room, steps, coming.0.0, coming.0.1),
    }
}

// ---- the table

// A store, the numbers of its records in the order in which they came, and the records that are still to come, the next one
// last.
#[derive(Drop)]
struct Table {
    alloc: Global,
    store: ClusterStore<1>,
    numbers: Vec<usize>,
    records: Vec<Record<1>>,
}

// What a row does. Records are told by when they came.
#[derive(Clone, Copy)]
enum Act {
    // So many records come into staging, and one more as the last of them.
    Come(usize),
    // That one goes out of staging, and as many come.
    Replace(usize, usize),
    // The first of these goes out of staging, and the second, and one comes.
    Join(usize, usize),
    // That one goes out of staging.
    Leave(usize),
    // The next record takes the place of that one, in each level that has it.
    Exchange(usize),
    // A staging is closed, and that level stays.
    Settle(Level),
    // Of that one the first name is an ancestor of the second, and not the other way round.
    Reach(usize, TxId, TxId),
}

fn next(rt: &impl Abort, table: &mut Table) -> Record<1> {
    match table.records.pop() {
        Some(record) => record,
        None => panic!(rt; "no record is left"),
    }
}

// So many records.
fn some(rt: &impl Abort, table: &mut Table, count: usize) -> Result<Vec<Record<1>>, Fail> {
    let mut records = Vec::new(table.alloc);
    for _ in 0..count {
        records.push(next(rt, table))?;
    }
    Ok(records)
}

fn number(rt: &impl Abort, table: &Table, at: usize) -> usize {
    assert!(rt; at < table.numbers.len());
    table.numbers[at]
}

// The numbers of those that came stand behind the others.
fn note(table: &mut Table, made: Made) -> Result<(), Fail> {
    for number in made.rest {
        table.numbers.push(number)?;
    }
    if let Some(number) = made.last {
        table.numbers.push(number)?;
    }
    Ok(())
}

// Asserts that a number has a record of the top level.
#[tactic(auto, using(cluster_store::proofs::Callers::stands_by))]
fn stands(rt: &impl Abort, store: &ClusterStore<1>, number: usize)
    ensures { StandsInTop store.now.clusters number }
{
    match store.tag(number) {
        Some(Tag::Both) => {}
        Some(Tag::TopOnly) => {}
        _ => panic!(rt; "no record of the top level"),
    }
}

#[tactic(auto, using(cluster_store::proofs::Callers::none_leave))]
fn come(rt: &impl Abort, table: &mut Table, rest: usize) -> Result<(), Fail> {
    let coming = some(rt, table, rest)?;
    let last = next(rt, table);
    let made = table.store.rebuild(true, &[], coming, Some(last))?;
    note(table, made)
}

#[tactic(auto, using(cluster_store::proofs::Callers::one_leaves))]
fn replace(rt: &impl Abort, table: &mut Table, out: usize, rest: usize) -> Result<(), Fail> {
    let coming = some(rt, table, rest)?;
    let last = next(rt, table);
    let number = number(rt, table, out);
    stands(rt, &table.store, number);
    let made = table.store.rebuild(true, &[number], coming, Some(last))?;
    note(table, made)
}

#[tactic(auto, using(cluster_store::proofs::Callers::two_leave))]
fn join(rt: &impl Abort, table: &mut Table, out: usize, other: usize) -> Result<(), Fail> {
    let last = next(rt, table);
    let first = number(rt, table, out);
    let second = number(rt, table, other);
    assert!(rt; first != second);
    stands(rt, &table.store, first);
    stands(rt, &table.store, second);
    let made = table
        .store
        .rebuild(true, &[first, second], Vec::new(table.alloc), Some(last))?;
    note(table, made)
}

#[tactic(auto, using(cluster_store::proofs::Callers::one_leaves))]
fn leave(rt: &impl Abort, table: &mut Table, out: usize) -> Result<(), Fail> {
    let number = number(rt, table, out);
    stands(rt, &table.store, number);
    let made = table
        .store
        .rebuild(true, &[number], Vec::new(table.alloc), None)?;
    note(table, made)
}

#[tactic(auto, using(cluster_store::proofs::Callers::one_held, cluster_store::proofs::Callers::held_by))]
fn exchange(rt: &impl Abort, table: &mut Table, at: usize) -> Result<(), Fail> {
    let mut exchanges = Vec::with_capacity(table.alloc, 1)?;
    let number = number(rt, table, at);
    exchanges.push_reserved(Exchange::new(number, next(rt, table)));
    assert!(rt; table.store.tag(number).is_some());
    table.store.exchange(exchanges)?;
    Ok(())
}

// Whether a name is in a list.
fn is_among(names: &[TxId], id: TxId) -> bool
    ensures { IsTrue result ↔ Contains names.now id }
{
    names.contains(&id)
}

// Asserts that the record of a number has two names.
fn has_both(rt: &impl Abort, store: &ClusterStore<1>, number: usize, a: TxId, b: TxId)
    ensures { (s : Kept) × (finmap.get store.now.clusters number ≡ Some s) × Contains s.cluster.names a × Contains s.cluster.names b }
{
    match store.get(number) {
        Some(record) => {
            assert!(rt; is_among(record.names(), a));
            assert!(rt; is_among(record.names(), b));
        }
        None => panic!(rt; "no record"),
    }
}

// Whether one name of a record is an ancestor of another.
fn leads(rt: &impl Abort, store: &mut ClusterStore<1>, number: usize, a: TxId, b: TxId) -> bool {
    has_both(rt, store, number, a, b);
    store.reaches(number, a, b)
}

// Asserts so of these names, and not the other way round.
fn reach(rt: &impl Abort, table: &mut Table, at: usize, a: TxId, b: TxId) {
    let number = number(rt, table, at);
    assert!(rt; leads(rt, &mut table.store, number, a, b));
    assert!(rt; !leads(rt, &mut table.store, number, b, a));
}

fn obey(rt: &impl Abort, table: &mut Table, act: Act) -> Result<(), Fail> {
    match act {
        Act::Come(rest) => come(rt, table, rest),
        Act::Replace(out, rest) => replace(rt, table, out, rest),
        Act::Join(out, other) => join(rt, table, out, other),
        Act::Leave(out) => leave(rt, table, out),
        Act::Exchange(at) => exchange(rt, table, at),
        Act::Settle(stays) => {
            table.store.settle(stays);
            Ok(())
        }
        Act::Reach(at, a, b) => {
            reach(rt, table, at, a, b);
            Ok(())
        }
    }
}

// The name that a digit stands for.
fn name(digit: u8) -> TxId {
    u64::from(digit.wrapping_sub(b'0'))
}

// The names of the next part of a walk. This and the next function have no clause, since callers would pay for it in
// their proofs.
fn next_part<'a>(walk: &mut PartWalk<'a, Stored<1>>) -> Option<&'a [TxId]> {
    match walk.next() {
        Some(shown) => Some(shown.part.ids),
        None => None,
    }
}

// The same from the back.
fn next_back_part<'a>(walk: &mut PartWalk<'a, Stored<1>>) -> Option<&'a [TxId]> {
    match walk.next_back() {
        Some(shown) => Some(shown.part.ids),
        None => None,
    }
}

// Asserts that a part is of this name alone.
fn is_of(rt: &impl Abort, part: Option<&[TxId]>, digit: u8) {
    match part {
        Some(ids) => assert_eq!(rt; ids, [name(digit)].as_slice()),
        None => panic!(rt; "a part is missing"),
    }
}

// Asserts that a walk gives these names, one a part, from the front.
fn gives(rt: &impl Abort, mut walk: PartWalk<'_, Stored<1>>, names: &[u8]) {
    for digit in names {
        is_of(rt, next_part(&mut walk), *digit);
    }
    assert!(rt; next_part(&mut walk).is_none());
}

// The same from the back.
fn gives_back(rt: &impl Abort, mut walk: PartWalk<'_, Stored<1>>, names: &[u8]) {
    for digit in names.iter().rev() {
        is_of(rt, next_back_part(&mut walk), *digit);
    }
    assert!(rt; next_back_part(&mut walk).is_none());
}

// Asserts whether a record without an order stands in a level, and that the parts of the others have these names.
fn tells(rt: &impl Abort, store: &ClusterStore<1>, level: Level, lacks: bool, names: &str) {
    assert!(rt; store.lacks_order(level) == lacks);
    gives(rt, store.walk(level), names.as_bytes());
    gives_back(rt, store.walk(level), names.as_bytes());
}

// ---- the cases

// What a row does, and after it whether main and the top level lack an order, and the names that their walks give, a digit a name.
type Row = (Act, [bool; 2], [&'static str; 2]);

// The limits, the records that come, the last one first, and the rows.
#[derive(Clone, Copy)]
struct Case {
    limits: Limits,
    coming: &'static [Coming],
    rows: &'static [Row],
}

fn each_row(rt: &impl Abort, table: &mut Table, rows: &[Row]) -> Result<(), Fail> {
    for (act, lacks, names) in rows {
        obey(rt, table, *act)?;
        tells(rt, &table.store, Level::Main, lacks[0], names[0]);
        tells(rt, &table.store, Level::Top, lacks[1], names[1]);
    }
    Ok(())
}

// Makes the records that come.
fn fill<L: Ledger>(
    rt: &impl Abort,
    room: &mut Room,
    steps: &mut Steps<L>,
    records: &mut Vec<Record<1>>,
    coming: &[Coming],
) -> Result<(), Fail> {
    for one in coming {
        records.push(made(rt, room, steps, one)?)?;
    }
    Ok(())
}

fn rows_of<L: Ledger>(
    rt: &impl Abort,
    room: &mut Room,
    steps: &mut Steps<L>,
    table: &mut Table,
    case: Case,
) -> Result<(), Fail> {
    fill(rt, room, steps, &mut table.records, case.coming)?;
    each_row(rt, table, case.rows)
}

// A table of its own, which is dropped once.
fn begun<L: Ledger>(
    rt: &impl Abort,
    room: &mut Room,
    steps: &mut Steps<L>,
    case: Case,
) -> Result<(), Fail> {
    let alloc = room.alloc;
    let mut table = Table {
        alloc,
        store: ClusterStore::new(alloc),
        numbers: Vec::new(alloc),
        records: Vec::new(alloc),
    };
    let done = rows_of(rt, room, steps, &mut table, case);
    drop(table);
    done
}

fn all_rows<K: ledger::Ledger>(
    rt: &impl Abort,
    alloc: Global,
    case: Case,
    blank: Blank,
) -> Result<(), Fail>
    requires name { blank.name ≡ K.name }
    requires parts { blank.parts ≡ K.parts }
    requires some { 0 < blank.parts }
{
    let mut steps = Steps::new(NoLedger::<K>::new(blank));
    let mut room = Room {
        alloc,
        limits: case.limits,
        work: Work::new(alloc)?,
    };
    let done = begun(rt, &mut room, &mut steps, case);
    drop(room);
    done
}

// Records over the limits come, take the places of others and go, and stagings are closed.
static OVER: [Row; 13] = [
    (Act::Come(0), [false, false], ["", "1"]),
    (Act::Settle(Level::Top), [false, false], ["1", "1"]),
    // one over the limits comes into staging, which is dropped
    (Act::Come(1), [false, true], ["1", "14"]),
    (Act::Settle(Level::Main), [false, false], ["1", "1"]),
    // one comes as the last, and the staging is kept
    (Act::Come(0), [false, true], ["1", "1"]),
    (Act::Settle(Level::Top), [true, true], ["1", "1"]),
    // it goes out of a staging that is dropped, and of one that is kept
    (Act::Leave(3), [true, false], ["1", "1"]),
    (Act::Settle(Level::Main), [true, true], ["1", "1"]),
    (Act::Leave(3), [true, false], ["1", "1"]),
    (Act::Settle(Level::Top), [false, false], ["1", "1"]),
    // one takes the place of the other in both levels, and gives it back
    (Act::Exchange(0), [true, true], ["", ""]),
    (Act::Reach(0, 7, 8), [true, true], ["", ""]),
    (Act::Exchange(0), [false, false], ["9", "9"]),
];

static COMING_OVER: [Coming; 6] = [
    ((9, 10), None),
    ((7, 10), Some((8, 10))),
    ((5, 10), Some((6, 10))),
    ((4, 10), None),
    ((2, 10), Some((3, 10))),
    ((1, 10), None),
];

// Each level lacks an order just while a record over the limits stands in it.
#[test]
fn levels_lack_an_order_while_one_over_the_limits_stands_there(
    rt: HostRuntime,
) -> Result<(), Fail> {
    let case = Case {
        limits: ONE_NAME,
        coming: &COMING_OVER,
        rows: &OVER,
    };
    all_rows::<Brand>(&rt, rt.alloc(), case, Blank::new(1))
}

// Records within the limits come, take the places of others and go, and stagings are closed.
static WITHIN: [Row; 11] = [
    (Act::Come(2), [false, false], ["", "123"]),
    (Act::Settle(Level::Top), [false, false], ["123", "123"]),
    (Act::Leave(0), [false, false], ["123", "23"]),
    // main keeps the second, so that both that come have numbers of their own
    (Act::Replace(1, 1), [false, false], ["123", "7348"]),
    (Act::Exchange(2), [false, false], ["312", "3748"]),
    // staging alone has the last, whose number is taken
    (Act::Replace(4, 0), [false, false], ["312", "3784"]),
    (Act::Join(2, 3), [false, false], ["312", "782"]),
    (Act::Settle(Level::Main), [false, false], ["312", "312"]),
    (Act::Join(0, 1), [false, false], ["312", "35"]),
    (Act::Settle(Level::Top), [false, false], ["35", "35"]),
    (Act::Leave(2), [false, false], ["35", "5"]),
];

static COMING_WITHIN: [Coming; 9] = [
    ((5, 6), None),
    ((2, 1), None),
    ((7, 9), Some((8, 6))),
    ((3, 50), None),
    ((7, 9), Some((8, 4))),
    ((4, 5), None),
    ((3, 5), None),
    ((2, 5), None),
    ((1, 10), None),
];

// Each walk shows its parts by rate, equal ones by number.
#[test]
fn levels_show_their_parts_by_rate(rt: HostRuntime) -> Result<(), Fail> {
    let case = Case {
        limits: TWO_NAMES,
        coming: &COMING_WITHIN,
        rows: &WITHIN,
    };
    all_rows::<Brand>(&rt, rt.alloc(), case, Blank::new(1))
}
