ghost use Rattle.std.specs.Prelude.{◌≡◌, ◌<◌};

use fee_rate::{FeeRate, is_rate};
use graph_model::{Level, Limits, TxId};
use levels::Levels;
use std::marker::Brand;
use std::process::Abort;
use std::sync::ledger;
use std::sync::ledger::Blank;
use std::test::Fail;
use step_count::{Counted, Ledger, Steps};

const ROOMY: Limits = Limits {
    count: 64,
    size: 404_000,
    total: 100_000,
    defer: false,
};

// Adds a name of size 200, with its fee.
fn add<L: Ledger>(
    rt: &impl Abort,
    levels: &mut Levels<1>,
    steps: &mut Steps<L>,
    id: TxId,
    fee: i64,
) -> Result<(), Fail> {
    assert!(rt; is_rate(FeeRate { fee, size: 200 }));
    assert!(rt; !levels.has(Level::Main, id));
    assert!(rt; !levels.has(Level::Top, id));
    assert!(rt; levels.live() < 1000);
    assert!(rt; levels.issued() < 1000);
    assert!(rt; 200 <= levels.limits().size);
    levels.add(id, fee, 200, steps)?;
    Ok(())
}

// Makes a name of the top level a parent of another.
fn depend<L: Ledger>(
    rt: &impl Abort,
    levels: &mut Levels<1>,
    steps: &mut Steps<L>,
    parent: TxId,
    child: TxId,
) {
    assert!(rt; levels.dep(parent, child, steps).is_ok());
}

// Drops a name of the top level.
fn drop_name<L: Ledger>(
    rt: &impl Abort,
    levels: &mut Levels<1>,
    steps: &mut Steps<L>,
    id: TxId,
) -> Result<(), Fail> {
    assert!(rt; levels.has(Level::Top, id));
    levels.remove(id, steps)?;
    Ok(())
}

// Drops two names of the top level in one call.
fn drop_two<L: Ledger>(
    rt: &impl Abort,
    levels: &mut Levels<1>,
    steps: &mut Steps<L>,
    a: TxId,
    b: TxId,
) -> Result<(), Fail> {
    assert!(rt; a != b);
    assert!(rt; levels.has(Level::Top, a));
    assert!(rt; levels.has(Level::Top, b));
    levels.drop_names(&[a, b], steps)?;
    Ok(())
}

// Three names of main, of which the first is a parent of the second.
fn fill<L: Ledger>(
    rt: &impl Abort,
    levels: &mut Levels<1>,
    steps: &mut Steps<L>,
) -> Result<(), Fail> {
    add(rt, levels, steps, 1, 100)?;
    add(rt, levels, steps, 2, 900)?;
    add(rt, levels, steps, 3, 50)?;
    depend(rt, levels, steps, 1, 2);
    Ok(())
}

// The first name goes from staging, and the third depends on the second there.
fn change<L: Ledger>(
    rt: &impl Abort,
    levels: &mut Levels<1>,
    steps: &mut Steps<L>,
) -> Result<(), Fail> {
    depend(rt, levels, steps, 1, 2);
    depend(rt, levels, steps, 2, 3);
    depend(rt, levels, steps, 1, 3);
    drop_name(rt, levels, steps, 1)?;
    add(rt, levels, steps, 4, 7)
}

// The names of the cluster of a name of a level, which isn't oversized.
fn names_of(levels: &Levels<1>, level: Level, id: TxId) -> usize {
    if levels.oversized(level) {
        return 0;
    }
    match levels.find(level, id) {
        Some(cluster) => cluster.names().len(),
        None => 0,
    }
}

fn seen_in(levels: &Levels<1>, level: Level) -> [usize; 4] {
    [
        names_of(levels, level, 1),
        names_of(levels, level, 2),
        names_of(levels, level, 3),
        names_of(levels, level, 4),
    ]
}

// How many names the clusters of the first names have, main's first.
fn seen(levels: &Levels<1>) -> [[usize; 4]; 2] {
    [seen_in(levels, Level::Main), seen_in(levels, Level::Top)]
}

// Opens staging, and closes it in either way. None of these has a clause, since callers would pay for it in their proofs.

fn stage(rt: &impl Abort, levels: &mut Levels<1>) {
    assert!(rt; !levels.is_staged());
    levels.stage();
}

fn abort(rt: &impl Abort, levels: &mut Levels<1>) {
    assert!(rt; levels.is_staged());
    levels.abort();
}

fn commit(rt: &impl Abort, levels: &mut Levels<1>) {
    assert!(rt; levels.is_staged());
    levels.commit();
}

// How many names main has, the top level, and both together.
fn counts(levels: &Levels<1>) -> (usize, usize, usize) {
    (
        levels.count(Level::Main),
        levels.count(Level::Top),
        levels.live(),
    )
}

// Main keeps what staging changes, and doesn't have it once staging is aborted.
fn aborted<L: Ledger>(
    rt: &impl Abort,
    levels: &mut Levels<1>,
    steps: &mut Steps<L>,
) -> Result<(), Fail> {
    stage(rt, levels);
    change(rt, levels, steps)?;
    assert_eq!(rt; seen(levels), [[2, 2, 1, 0], [0, 2, 2, 1]]);
    abort(rt, levels);
    assert_eq!(rt; seen(levels), [[2, 2, 1, 0], [2, 2, 1, 0]]);
    Ok(())
}

// It has it once staging is committed.
fn committed<L: Ledger>(
    rt: &impl Abort,
    levels: &mut Levels<1>,
    steps: &mut Steps<L>,
) -> Result<(), Fail> {
    stage(rt, levels);
    change(rt, levels, steps)?;
    commit(rt, levels);
    assert_eq!(rt; seen(levels), [[0, 2, 2, 1], [0, 2, 2, 1]]);
    assert_eq!(rt; counts(levels), (3, 3, 3));
    Ok(())
}

fn stagings<K: ledger::Ledger>(
    rt: &impl Abort,
    levels: &mut Levels<1>,
    blank: Blank,
) -> Result<(), Fail>
    requires name { blank.name ≡ K.name }
    requires parts { blank.parts ≡ K.parts }
    requires some { 0 < blank.parts }
{
    let mut steps = Steps::new(Counted::<K>::new(blank));
    fill(rt, levels, &mut steps)?;
    aborted(rt, levels, &mut steps)?;
    committed(rt, levels, &mut steps)?;
    drop_two(rt, levels, &mut steps, 4, 3)?;
    assert_eq!(rt; seen(levels), [[0, 1, 0, 0], [0, 1, 0, 0]]);
    Ok(())
}

#[test]
fn main_stays_while_staging_changes(rt: HostRuntime) -> Result<(), Fail> {
    let mut levels = Levels::new(rt.alloc(), ROOMY)?;
    let done = stagings::<Brand>(&rt, &mut levels, Blank::new(1));
    drop(levels);
    done
}
