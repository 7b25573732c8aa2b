ghost use Rattle.std.specs.Prelude.{◌≡◌, ◌↔◌, ◌<◌, ◌∷◌, [], Contains, IsTrue, IfOk};
ghost use Rattle.record.specs.Records.{IsFitted};
ghost use Rattle.record_tests.specs.declared.record_tests.TheConstants.{LIMITS};

use component::Work;
use fee_rate::FeeRate;
use graph_model::{Limits, TxId};
use record::{Listing, Record};
use std::alloc::Global;
use std::marker::Brand;
use std::process::Abort;
use std::sync::ledger;
use std::sync::ledger::Blank;
use std::test::Fail;
use step_count::{Ledger, NoLedger, Steps};

// A cluster may have two names.
const LIMITS: Limits = Limits {
    count: 2,
    size: 1_000,
    total: 10,
    defer: true,
};

// Whether a name is in a list.
fn stands_in(names: &[TxId], id: TxId) -> bool
    ensures { IsTrue result ↔ Contains names.now id }
{
    names.contains(&id)
}

// The record of one name, with a fee of 10 and a size of 5.
fn single<L: Ledger>(
    alloc: Global,
    work: &mut Work<2>,
    steps: &mut Steps<L>,
    id: TxId,
) -> Result<Record<2>, Fail>
    ensures names { IfOk result (λ r. r.names ≡ id ∷ []) }
    ensures fitted { IfOk result (IsFitted 128 LIMITS) }
{
    Ok(Record::single(alloc, id, 10, 5, work, steps)?)
}

// The record with one name more, which depends on one of it.
fn with_child<L: Ledger>(
    rt: &impl Abort,
    alloc: Global,
    work: &mut Work<2>,
    steps: &mut Steps<L>,
    older: &Record<2>,
    parent: TxId,
    id: TxId,
) -> Result<Record<2>, Fail>
    requires { IsFitted 128 LIMITS older.now }
    ensures { IfOk result (IsFitted 128 LIMITS) }
{
    assert!(rt; older.names().len() < 100);
    assert!(rt; stands_in(older.names(), parent));
    assert!(rt; !stands_in(older.names(), id));
    let other = single(alloc, work, steps, id)?;
    let joined = older.joined(alloc, &other, parent, id, &LIMITS, work, steps);
    drop(other);
    Ok(joined?)
}

// Whether one name of a record is an ancestor of another.
fn leads(rt: &impl Abort, chain: &mut Record<2>, a: TxId, b: TxId) -> bool {
    assert!(rt; stands_in(chain.names(), a));
    assert!(rt; stands_in(chain.names(), b));
    chain.reaches(a, b)
}

// Names that are listed.
#[derive(Clone, Copy)]
struct Names<'a> {
    ids: &'a [TxId],
}

impl<'a> Listing for Names<'a> {
    ghost use Rattle.std.specs.Prelude.{◌≡◌, Contains};

    ghost listed = { λ names id. Contains names.ids.now id };

    ghost known = { λ names id. id ≡ id };

    fn lists(&self, id: TxId) -> bool {
        stands_in(self.ids, id)
    }
}

// Whether a name of a record has an ancestor that isn't one of these.
fn lacks(rt: &impl Abort, chain: &mut Record<2>, id: TxId, ids: &[TxId]) -> bool {
    assert!(rt; stands_in(chain.names(), id));
    chain.lacks(id, &Names { ids })
}

// Rows: a name of a chain whose first names are 1 and 2, names that are listed, and whether it has an ancestor that isn't.
static LISTINGS: [(TxId, &[TxId], bool); 6] = [
    (1, &[], true),
    (1, &[2], true),
    (1, &[1], false),
    (2, &[2], true),
    (2, &[1], true),
    (2, &[3, 2, 1], false),
];

fn each_listing(rt: &impl Abort, chain: &mut Record<2>) {
    for (id, ids, answer) in &LISTINGS {
        assert!(rt; lacks(rt, chain, *id, ids) == *answer);
    }
}

// The record in which one of its names has a fee of 70.
fn with_more<L: Ledger>(
    rt: &impl Abort,
    alloc: Global,
    work: &mut Work<2>,
    steps: &mut Steps<L>,
    older: &Record<2>,
    id: TxId,
) -> Result<Record<2>, Fail> {
    assert!(rt; stands_in(older.names(), id));
    Ok(older.with_fee(alloc, id, 70, work, steps)?)
}

// The record in which one of its names depends on another.
fn with_pair<L: Ledger>(
    rt: &impl Abort,
    alloc: Global,
    work: &mut Work<2>,
    steps: &mut Steps<L>,
    older: &mut Record<2>,
    parent: TxId,
    child: TxId,
) -> Result<Record<2>, Fail> {
    assert!(rt; stands_in(older.names(), parent));
    assert!(rt; stands_in(older.names(), child));
    assert!(rt; !older.reaches(child, parent));
    Ok(older.linked(alloc, parent, child, work, steps)?)
}

// What is left of a record without one of its names.
fn without<L: Ledger>(
    rt: &impl Abort,
    alloc: Global,
    work: &mut Work<2>,
    steps: &mut Steps<L>,
    older: &Record<2>,
    gone: TxId,
) -> Result<Vec<Record<2>>, Fail>
    requires { IsFitted 128 LIMITS older.now }
{
    assert!(rt; older.names().len() < 100);
    assert!(rt; stands_in(older.names(), gone));
    Ok(older.without(alloc, &[gone], &LIMITS, work, steps)?)
}

// As `with_child`, and gives up the older record.
fn longer<L: Ledger>(
    rt: &impl Abort,
    alloc: Global,
    work: &mut Work<2>,
    steps: &mut Steps<L>,
    older: Record<2>,
    parent: TxId,
    id: TxId,
) -> Result<Record<2>, Fail>
    requires { IsFitted 128 LIMITS older }
    ensures { IfOk result (IsFitted 128 LIMITS) }
{
    let younger = with_child(rt, alloc, work, steps, &older, parent, id);
    drop(older);
    younger
}

// A chain of two names, as many as the limits allow.
fn chain_of_two<L: Ledger>(
    rt: &impl Abort,
    alloc: Global,
    work: &mut Work<2>,
    steps: &mut Steps<L>,
) -> Result<Record<2>, Fail>
    ensures { IfOk result (IsFitted 128 LIMITS) }
{
    let one = single(alloc, work, steps, 1)?;
    longer(rt, alloc, work, steps, one, 1, 2)
}

// A chain of three names, one more than the limits allow.
fn chain_of_three<L: Ledger>(
    rt: &impl Abort,
    alloc: Global,
    work: &mut Work<2>,
    steps: &mut Steps<L>,
) -> Result<Record<2>, Fail>
    ensures { IfOk result (IsFitted 128 LIMITS) }
{
    let two = chain_of_two(rt, alloc, work, steps)?;
    longer(rt, alloc, work, steps, two, 2, 3)
}

// Asserts what is told of a chain of three names, which is over the limits.
fn is_unordered(rt: &impl Abort, chain: &mut Record<2>) {
    assert!(rt; chain.component().is_none());
    assert!(rt; chain.names() == [1, 2, 3].as_slice());
    assert!(rt; chain.names().len() < 100);
    assert!(rt; chain.size() == 15);
    assert!(rt; leads(rt, chain, 1, 3));
    assert!(rt; !leads(rt, chain, 3, 1));
    each_listing(rt, chain);
}

// Asserts that the name 2 of a record without an order has a fee of 70.
fn is_priced(rt: &impl Abort, record: &Record<2>) {
    assert!(rt; record.component().is_none());
    assert!(rt; record.names().len() == 3);
    assert!(rt; stands_in(record.names(), 2));
    assert!(rt; record.rate(2) == FeeRate { fee: 70, size: 5 });
    assert!(rt; record.rate_at(1) == FeeRate { fee: 70, size: 5 });
}

// Asserts that one record is left, of these names, with an order or without.
fn is_one(rt: &impl Abort, left: &[Record<2>], names: &[TxId], ordered: bool) {
    assert!(rt; left.len() == 1);
    assert!(rt; left[0].names() == names);
    assert!(rt; left[0].component().is_some() == ordered);
}

// Asserts what is left of a record without one of its names: one record, of these names, with an order or without.
fn leaves<L: Ledger>(
    rt: &impl Abort,
    alloc: Global,
    work: &mut Work<2>,
    steps: &mut Steps<L>,
    older: &Record<2>,
    gone: TxId,
    names: &[TxId],
    ordered: bool,
) -> Result<(), Fail>
    requires { IsFitted 128 LIMITS older.now }
{
    let left = without(rt, alloc, work, steps, older, gone)?;
    is_one(rt, left.as_slice(), names, ordered);
    drop(left);
    Ok(())
}

// A record within the limits, of which a name goes.
fn within_the_limits<L: Ledger>(
    rt: &impl Abort,
    alloc: Global,
    work: &mut Work<2>,
    steps: &mut Steps<L>,
) -> Result<(), Fail> {
    let mut two = chain_of_two(rt, alloc, work, steps)?;
    assert!(rt; two.component().is_some());
    let told = leaves(rt, alloc, work, steps, &two, 1, &[2], true);
    each_listing(rt, &mut two);
    drop(two);
    told
}

// A record over the limits, of which a name goes. What is left is within them.
fn back_within_the_limits<L: Ledger>(
    rt: &impl Abort,
    alloc: Global,
    work: &mut Work<2>,
    steps: &mut Steps<L>,
) -> Result<(), Fail> {
    let mut three = chain_of_three(rt, alloc, work, steps)?;
    let told = leaves(rt, alloc, work, steps, &three, 2, &[1, 3], true);
    is_unordered(rt, &mut three);
    drop(three);
    told
}

// A record over the limits, of which a name goes. What is left is over them.
fn still_over_the_limits<L: Ledger>(
    rt: &impl Abort,
    alloc: Global,
    work: &mut Work<2>,
    steps: &mut Steps<L>,
) -> Result<(), Fail> {
    let three = chain_of_three(rt, alloc, work, steps)?;
    let four = longer(rt, alloc, work, steps, three, 3, 4)?;
    let told = leaves(rt, alloc, work, steps, &four, 2, &[1, 3, 4], false);
    drop(four);
    told
}

// A record over the limits with another fee.
fn priced<L: Ledger>(
    rt: &impl Abort,
    alloc: Global,
    work: &mut Work<2>,
    steps: &mut Steps<L>,
    three: &Record<2>,
) -> Result<(), Fail> {
    let priced = with_more(rt, alloc, work, steps, three, 2)?;
    is_priced(rt, &priced);
    drop(priced);
    Ok(())
}

// A record over the limits with one dependency more.
fn paired<L: Ledger>(
    rt: &impl Abort,
    alloc: Global,
    work: &mut Work<2>,
    steps: &mut Steps<L>,
    three: &mut Record<2>,
) -> Result<(), Fail> {
    let mut paired = with_pair(rt, alloc, work, steps, three, 1, 3)?;
    is_unordered(rt, &mut paired);
    drop(paired);
    Ok(())
}

// A record over the limits with another fee, and with one dependency more.
fn changed<L: Ledger>(
    rt: &impl Abort,
    alloc: Global,
    work: &mut Work<2>,
    steps: &mut Steps<L>,
    three: &mut Record<2>,
) -> Result<(), Fail> {
    priced(rt, alloc, work, steps, three)?;
    paired(rt, alloc, work, steps, three)
}

// A record over the limits is changed.
fn changed_over_the_limits<L: Ledger>(
    rt: &impl Abort,
    alloc: Global,
    work: &mut Work<2>,
    steps: &mut Steps<L>,
) -> Result<(), Fail> {
    let mut three = chain_of_three(rt, alloc, work, steps)?;
    let told = changed(rt, alloc, work, steps, &mut three);
    drop(three);
    told
}

fn all_of_them<L: Ledger>(
    rt: &impl Abort,
    alloc: Global,
    work: &mut Work<2>,
    steps: &mut Steps<L>,
) -> Result<(), Fail> {
    within_the_limits(rt, alloc, work, steps)?;
    changed_over_the_limits(rt, alloc, work, steps)?;
    back_within_the_limits(rt, alloc, work, steps)?;
    still_over_the_limits(rt, alloc, work, steps)
}

fn without_count<K: ledger::Ledger>(
    rt: &impl Abort,
    alloc: Global,
    blank: Blank,
) -> Result<(), Fail>
    requires name { blank.name ≡ K.name }
    requires parts { blank.parts ≡ K.parts }
    requires some { 0 < blank.parts }
{
    let mut steps = Steps::new(NoLedger::<K>::new(blank));
    let mut work = Work::new(alloc)?;
    let told = all_of_them(rt, alloc, &mut work, &mut steps);
    drop(work);
    told
}

#[test]
fn over_the_limits_there_is_no_order(rt: HostRuntime) -> Result<(), Fail> {
    without_count::<Brand>(&rt, rt.alloc(), Blank::new(1))
}
