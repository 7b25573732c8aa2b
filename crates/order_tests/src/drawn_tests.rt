//! Drawn changes of clusters, one after the other, each beside the order of the same graph that is found from nothing.
//!
//! A part that a change leaves alone is kept, and not solved again. So the parts after many changes have come about in many ways.
//! No part of either order can be cut further. Then they are equally many, and where parts of one rate are joined, they are the
//! same.

ghost use Rattle.std.specs.Prelude.{◌≡◌, ◌<◌, ℕ, true, Contains};
ghost use Rattle.cluster.specs.Changes.{AreAcross};

use crate::cluster_tests::{has, is_above, left, linked, paying};
use crate::linearize_tests::{Room as Solver, ordered};
use crate::samples::{Room, alone, graph_of};
use closure_flow::Scratch;
use cluster::{Cluster, Work};
use fee_rate::FeeRate;
use graphs::TxId;
use linearize::{Linear, LinearPart};
use std::alloc::{AllocError, Global};
use std::marker::Brand;
use std::process::Abort;
use std::sync::ledger;
use std::sync::ledger::Blank;
use std::test::Fail;
use step_count::{Ledger, NoLedger, Steps};

// How many names a cluster has at most.
const MOST_NAMES: usize = 14;

// How many changes a run makes.
const CHANGES: u64 = 1300;

// What a run begins to draw from, and how far a name is from the one before. The names of the second and the last run often
// share a slot.
const RUNS: [(usize, u64); 8] = [
    (1, 1),
    (2, 256),
    (3, 1),
    (5, 7),
    (8, 1),
    (13, 3),
    (21, 1),
    (34, 512),
];

// ---- what is drawn

// The next number below `below` of a linear congruence.
fn draw(state: &mut usize, below: usize) -> usize {
    *state = state.wrapping_mul(1_103_515_245).wrapping_add(12_345) % 2_147_483_648;
    (*state / 65_536).checked_rem(below).unwrap_or(0)
}

// A fee from -20 to 20, more often one near 0, and a size from 1 to 4. So rates are often equal.
fn drawn_rate(state: &mut usize) -> (i64, u64) {
    let paid = (draw(state, 21) % 21) as i64;
    let taken = (draw(state, 21) % 21) as i64;
    let size = (draw(state, 4) % 4) as u64;
    (paid - taken, size + 1)
}

fn drawn_name(rt: &impl Abort, cluster: &Cluster<2>, state: &mut usize) -> TxId {
    let at = draw(state, cluster.names().len());
    assert!(rt; at < cluster.names().len());
    cluster.names()[at]
}

// ---- changes

// Whether a cluster has none of some names.
fn has_none_of(cluster: &Cluster<2>, ids: &[TxId]) -> bool
    ensures { result ≡ true → (id : ℕ) → Contains ids.now id → Contains cluster.now.names id → ⊥ }
{
    for at in 0..ids.len() {
        if has(cluster, ids[at]) {
            return false;
        }
    }
    true
}

// Whether the parent is a name of the one cluster and the child one of the other.
fn are_across(one: &Cluster<2>, other: &Cluster<2>, parent: TxId, child: TxId) -> bool
    ensures { result ≡ true → AreAcross one.now.names other.now.names parent child }
{
    if has(one, parent) {
        return has(other, child);
    }
    has(other, parent) && has(one, child)
}

// One cluster of two. It has no clause of what the cluster is, since callers would pay for it in their proofs.
fn joined<L: Ledger>(
    rt: &impl Abort,
    room: &mut Room<2>,
    steps: &mut Steps<L>,
    one: &Cluster<2>,
    other: &Cluster<2>,
    pair: (TxId, TxId),
) -> Result<Cluster<2>, Fail> {
    assert!(rt; one.names().len() <= 64);
    assert!(rt; other.names().len() <= 64);
    assert!(rt; has_none_of(one, other.names()));
    assert!(rt; are_across(one, other, pair.0, pair.1));
    Ok(one.joined(room.alloc, other, pair.0, pair.1, &mut room.work, steps)?)
}

// One cluster of two, by a drawn pair: each of them comes first or second, and depends on the other or not.
fn joined_somehow<L: Ledger>(
    rt: &impl Abort,
    room: &mut Room<2>,
    steps: &mut Steps<L>,
    one: &Cluster<2>,
    other: &Cluster<2>,
    state: &mut usize,
) -> Result<Cluster<2>, Fail> {
    let a = drawn_name(rt, one, state);
    let b = drawn_name(rt, other, state);
    match draw(state, 4) {
        0 => joined(rt, room, steps, one, other, (a, b)),
        1 => joined(rt, room, steps, one, other, (b, a)),
        2 => joined(rt, room, steps, other, one, (a, b)),
        _ => joined(rt, room, steps, other, one, (b, a)),
    }
}

// The cluster with a name of its own more.
fn grown<L: Ledger>(
    rt: &impl Abort,
    room: &mut Room<2>,
    steps: &mut Steps<L>,
    old: &Cluster<2>,
    fresh: TxId,
    state: &mut usize,
) -> Result<Cluster<2>, Fail> {
    let (fee, size) = drawn_rate(state);
    let one = alone(rt, room, steps, fresh, fee, size)?;
    joined_somehow(rt, room, steps, old, &one, state)
}

// One of the clusters that are left without a name, or the first two of them, joined anew.
fn lessened<L: Ledger>(
    rt: &impl Abort,
    room: &mut Room<2>,
    steps: &mut Steps<L>,
    old: &Cluster<2>,
    gone: TxId,
    state: &mut usize,
) -> Result<Cluster<2>, Fail> {
    let mut rest = left(rt, room, steps, old, gone)?;
    if rest.len() > 1 && draw(state, 2) == 0 {
        return joined_somehow(rt, room, steps, &rest[0], &rest[1], state);
    }
    let at = draw(state, rest.len());
    assert!(rt; at < rest.len());
    Ok(rest.swap_remove(at))
}

// Whether one name may come to depend on another.
fn may_depend(rt: &impl Abort, cluster: &Cluster<2>, parent: TxId, child: TxId) -> bool {
    parent != child && !is_above(rt, cluster, child, parent)
}

// The cluster after a drawn change.
fn changed<L: Ledger>(
    rt: &impl Abort,
    room: &mut Room<2>,
    steps: &mut Steps<L>,
    old: &Cluster<2>,
    fresh: TxId,
    state: &mut usize,
) -> Result<Cluster<2>, Fail> {
    let one = drawn_name(rt, old, state);
    let other = drawn_name(rt, old, state);
    let count = old.names().len();
    match draw(state, 12) {
        0..5 if count < MOST_NAMES => grown(rt, room, steps, old, fresh, state),
        5..8 if may_depend(rt, old, one, other) => linked(rt, room, steps, old, one, other),
        8 if count > 1 => lessened(rt, room, steps, old, one, state),
        _ => paying(rt, room, steps, old, one, drawn_rate(state).0),
    }
}

// ---- the same from nothing

// The fee and the size of each name.
fn rates_of(alloc: Global, cluster: &Cluster<2>) -> Result<Vec<(i64, u64)>, AllocError> {
    let mut rates = Vec::new(alloc);
    for at in 0..cluster.names().len() {
        let rate = cluster.rate_at(at);
        rates.push((rate.fee, rate.size))?;
    }
    Ok(rates)
}

// The places of each ancestor pair.
fn pairs_of(
    rt: &impl Abort,
    alloc: Global,
    cluster: &Cluster<2>,
) -> Result<Vec<(usize, usize)>, Fail> {
    let mut pairs = Vec::new(alloc);
    for (child, below) in cluster.names().iter().enumerate() {
        for (parent, above) in cluster.names().iter().enumerate() {
            if is_above(rt, cluster, *above, *below) {
                pairs.push((parent, child))?;
            }
        }
    }
    Ok(pairs)
}

// Leaves the order of a cluster's graph, found from nothing.
fn solved<L: Ledger>(
    rt: &impl Abort,
    solver: &mut Solver<2>,
    steps: &mut Steps<L>,
    cluster: &Cluster<2>,
) -> Result<(), Fail> {
    let rates = rates_of(solver.alloc, cluster)?;
    let pairs = pairs_of(rt, solver.alloc, cluster)?;
    let graph = graph_of(rt, solver.alloc, rates.as_slice(), pairs.as_slice())?;
    ordered(rt, solver, steps, &graph);
    Ok(())
}

// ---- comparison

// The fee and the size of each part of a cluster.
fn parts_of(alloc: Global, cluster: &Cluster<2>) -> Result<Vec<FeeRate>, AllocError> {
    let mut rates = Vec::new(alloc);
    for at in 0..cluster.part_count() {
        rates.push(cluster.part_rate(at))?;
    }
    Ok(rates)
}

// The fee and the size of each part of an order.
fn parts_in(alloc: Global, parts: &[LinearPart]) -> Result<Vec<FeeRate>, AllocError> {
    let mut rates = Vec::new(alloc);
    for part in parts {
        rates.push(part.rate)?;
    }
    Ok(rates)
}

const NOTHING: FeeRate = FeeRate { fee: 0, size: 0 };

// Whether two rates are equal, where that of nothing is equal to each.
fn is_level(a: FeeRate, b: FeeRate) -> bool {
    let left = i128::from(a.fee).wrapping_mul(i128::from(b.size));
    let right = i128::from(b.fee).wrapping_mul(i128::from(a.size));
    left == right
}

fn sum(a: FeeRate, b: FeeRate) -> FeeRate {
    FeeRate {
        fee: a.fee.saturating_add(b.fee),
        size: a.size.saturating_add(b.size),
    }
}

// The parts, where those of one rate that follow one another are joined. Their ends are the corners of the diagram.
fn segments(alloc: Global, parts: &[FeeRate]) -> Result<Vec<FeeRate>, AllocError> {
    let mut segments = Vec::new(alloc);
    let mut open = NOTHING;
    for part in parts {
        if !is_level(open, *part) {
            segments.push(open)?;
            open = NOTHING;
        }
        open = sum(open, *part);
    }
    segments.push(open)?;
    Ok(segments)
}

// Compares the parts of two orders, none of which can be cut further.
fn are_alike(
    rt: &impl Abort,
    alloc: Global,
    own: &[FeeRate],
    wanted: &[FeeRate],
) -> Result<(), Fail> {
    assert_eq!(rt; own.len(), wanted.len());
    let found = segments(alloc, own)?;
    let sought = segments(alloc, wanted)?;
    assert_eq!(rt; found.as_slice(), sought.as_slice());
    Ok(())
}

// Compares a cluster with the order that is found from nothing.
fn compared<L: Ledger>(
    rt: &impl Abort,
    solver: &mut Solver<2>,
    steps: &mut Steps<L>,
    cluster: &Cluster<2>,
) -> Result<(), Fail> {
    solved(rt, solver, steps, cluster)?;
    let own = parts_of(solver.alloc, cluster)?;
    let wanted = parts_in(solver.alloc, solver.out.parts())?;
    are_alike(rt, solver.alloc, own.as_slice(), wanted.as_slice())
}

// ---- runs

fn change<L: Ledger>(
    rt: &impl Abort,
    room: &mut Room<2>,
    solver: &mut Solver<2>,
    steps: &mut Steps<L>,
    cluster: &mut Cluster<2>,
    fresh: TxId,
    state: &mut usize,
) -> Result<(), Fail> {
    *cluster = changed(rt, room, steps, cluster, fresh, state)?;
    compared(rt, solver, steps, cluster)
}

fn run<L: Ledger>(
    rt: &impl Abort,
    room: &mut Room<2>,
    solver: &mut Solver<2>,
    steps: &mut Steps<L>,
    seed: usize,
    stride: u64,
) -> Result<(), Fail> {
    let mut state = seed;
    let mut cluster = alone(rt, room, steps, 0, 1, 1)?;
    for at in 1..=CHANGES {
        let fresh = at.wrapping_mul(stride);
        change(rt, room, solver, steps, &mut cluster, fresh, &mut state)?;
    }
    Ok(())
}

fn runs<L: Ledger>(
    rt: &impl Abort,
    room: &mut Room<2>,
    solver: &mut Solver<2>,
    steps: &mut Steps<L>,
) -> Result<(), Fail> {
    for (seed, stride) in &RUNS {
        run(rt, room, solver, steps, *seed, *stride)?;
    }
    Ok(())
}

fn all<K: ledger::Ledger>(rt: &impl Abort, alloc: Global, blank: Blank) -> Result<(), Fail>
    requires name { blank.name ≡ K.name }
    requires parts { blank.parts ≡ K.parts }
    requires some { 0 < blank.parts }
{
    let mut steps = Steps::new(NoLedger::<K>::new(blank));
    let work = Work::new(alloc)?;
    let mut room = Room::<2> { alloc, work };
    let scratch = Scratch::new(alloc)?;
    let out = Linear::<2>::new(alloc)?;
    let mut solver = Solver {
        alloc,
        scratch,
        out,
    };
    runs(rt, &mut room, &mut solver, &mut steps)
}

#[test]
fn changed_clusters_are_as_from_nothing(rt: HostRuntime) -> Result<(), Fail> {
    all::<Brand>(&rt, rt.alloc(), Blank::new(1))
}
