ghost use Rattle.std.specs.Prelude.{◌≡◌, ◌≢◌, ◌↔◌, ◌*◌, ◌^◌, ◌<◌, ◌≤◌, [], ◌∷◌, ℕ, true, All, Contains, IfOk};
ghost use Rattle.certificate.specs.Accounts.{amount_of};
ghost use Rattle.certificate.specs.Answers.{AreClaims};

use crate::samples::{Room, alone};
use crate::whole_tests::each_graph;
use certificate::{CheckFault, EdgeList, FlowList, Part, TxList, Written, check};
use cluster::{Cluster, Work};
use fee_rate::{Sum, is_fee};
use graphs::{Flow, IdList, TxId};
use std::alloc::Global;
use std::marker::Brand;
use std::process::Abort;
use std::sync::ledger;
use std::sync::ledger::Blank;
use std::test::Fail;
use step_count::{Counted, Ledger, Steps};

// Far above what flows between a few hundred transactions.
const MUCH: u128 = 1_000_000_000_000_000_000_000_000_000_000;

// Whether a name is of a cluster.
pub(crate) fn has<const W: usize>(cluster: &Cluster<W>, id: TxId) -> bool
    requires { W ≤ 2 }
    ensures { (result ≡ true) ↔ Contains cluster.now.names id }
{
    cluster.names().contains(&id)
}

// Whether the one name is an ancestor of the other, and not it.
pub(crate) fn is_above<const W: usize>(
    rt: &impl Abort,
    cluster: &Cluster<W>,
    a: TxId,
    b: TxId,
) -> bool
    requires { W ≤ 2 }
{
    assert!(rt; has(cluster, a));
    assert!(rt; has(cluster, b));
    a != b && cluster.reaches(a, b)
}

// The names of a cluster with its ancestor pairs, as they are written.
fn written<const W: usize>(
    rt: &impl Abort,
    alloc: Global,
    cluster: &Cluster<W>,
) -> Result<Written, Fail>
    requires { W ≤ 2 }
{
    let mut txs = Vec::new(alloc);
    let mut edges = Vec::new(alloc);
    for child in cluster.names() {
        assert!(rt; has(cluster, *child));
        let rate = cluster.rate(*child);
        txs.push((*child, rate.fee, rate.size))?;
        for parent in cluster.names() {
            if is_above(rt, cluster, *parent, *child) {
                edges.push((*parent, *child))?;
            }
        }
    }
    Ok(Written {
        txs: TxList::from_vec(txs),
        edges: EdgeList::from_vec(edges),
    })
}

// Flows whose amounts are asserted to be at least 1 and not too large.
fn flows_of(rt: &impl Abort, alloc: Global, flows: &[Flow]) -> Result<Vec<Flow>, Fail>
    ensures some { IfOk result (λ flows. All (λ flow. 1 ≤ flow.amount) flows.items) }
    ensures small { IfOk result (λ flows. amount_of flows.items ≤ 4096 * 2 ^ 100) }
{
    assert!(rt; flows.len() <= 4096);
    let mut own = Vec::new(alloc);
    for flow in flows {
        assert!(rt; flow.amount >= 1);
        assert!(rt; flow.amount <= MUCH);
        own.push(*flow)?;
    }
    Ok(own)
}

// A part of a cluster, as it is claimed.
fn part_of<const W: usize>(
    rt: &impl Abort,
    alloc: Global,
    cluster: &Cluster<W>,
    at: usize,
) -> Result<Part, Fail>
    requires { W ≤ 2 }
    ensures filled { IfOk result (λ part. part.ids ≢ []) }
    ensures some { IfOk result (λ part. All (λ flow. 1 ≤ flow.amount) part.flows) }
    ensures small { IfOk result (λ part. amount_of part.flows ≤ 4096 * 2 ^ 100) }
{
    assert!(rt; at < cluster.part_count());
    let shown = cluster.part(at);
    let ids = Vec::from_slice(alloc, shown.ids)?;
    assert!(rt; ids.len() > 0);
    let flows = flows_of(rt, alloc, shown.flows)?;
    Ok(Part {
        rate: Sum::from(shown.rate),
        ids: IdList::from_vec(ids),
        flows: FlowList::from_vec(flows),
    })
}

// All parts of a cluster, as they are claimed.
fn claims_of<const W: usize>(
    rt: &impl Abort,
    alloc: Global,
    cluster: &Cluster<W>,
) -> Result<Vec<Part>, Fail>
    requires { W ≤ 2 }
    ensures { IfOk result (λ claims. AreClaims claims.items) }
{
    let count = cluster.part_count();
    assert!(rt; count <= 128);
    let mut claims = Vec::new(alloc);
    for at in 0..count {
        let claim = part_of(rt, alloc, cluster, at)?;
        claims.push(claim)?;
    }
    Ok(claims)
}

// What the checker says of claims. This and the next function have no clause, since callers would pay for it in their
// proofs.
fn verdict(alloc: Global, graph: &Written, claims: &[Part]) -> Result<(), CheckFault>
    requires { AreClaims claims.now }
{
    check(alloc, graph, claims)
}

// Compares the fees and sizes of parts.
fn parts_are(rt: &impl Abort, claims: &[Part], parts: &[(i64, u64)]) {
    assert!(rt; claims.len() == parts.len());
    for at in 0..parts.len() {
        assert!(rt; at < claims.len());
        assert!(rt; claims[at].rate.fee == i128::from(parts[at].0));
        assert!(rt; claims[at].rate.size == parts[at].1);
    }
}

// Has the order of a cluster checked, by what it claims.
fn certified<const W: usize>(
    rt: &impl Abort,
    alloc: Global,
    cluster: &Cluster<W>,
    claims: &[Part],
) -> Result<(), Fail>
    requires narrow { W ≤ 2 }
    requires claims { AreClaims claims.now }
{
    let graph = written(rt, alloc, cluster)?;
    assert_eq!(rt; verdict(alloc, &graph, claims), Ok(()));
    Ok(())
}

// Has the order of a cluster checked, and compares the fees and sizes of its parts.
fn checked<const W: usize>(
    rt: &impl Abort,
    alloc: Global,
    cluster: &Cluster<W>,
    parts: &[(i64, u64)],
) -> Result<(), Fail>
    requires { W ≤ 2 }
{
    let claims = claims_of(rt, alloc, cluster)?;
    parts_are(rt, &claims, parts);
    let done = certified(rt, alloc, cluster, &claims);
    drop(claims);
    done
}

// One cluster of a cluster and that of one name, which depends on one of it. This and the next functions have no clause,
// since callers would pay for it in their proofs.
fn joined<L: Ledger, const W: usize>(
    rt: &impl Abort,
    room: &mut Room<W>,
    steps: &mut Steps<L>,
    old: &Cluster<W>,
    one: &Cluster<W>,
    pair: (TxId, TxId),
) -> Result<Cluster<W>, Fail>
    requires wide { W ≤ 2 }
    requires one { one.now.names ≡ pair.1 ∷ [] }
{
    assert!(rt; !has(old, pair.1));
    assert!(rt; has(old, pair.0));
    assert!(rt; old.names().len() < 64 * W);
    Ok(old.joined(room.alloc, one, pair.0, pair.1, &mut room.work, steps)?)
}

// One cluster of a cluster and a name of its own, which depends on one of it.
fn grown<L: Ledger, const W: usize>(
    rt: &impl Abort,
    room: &mut Room<W>,
    steps: &mut Steps<L>,
    old: &Cluster<W>,
    parent: TxId,
    id: TxId,
    rate: (i64, u64),
) -> Result<Cluster<W>, Fail>
    requires { W ≤ 2 }
{
    let one = alone(rt, room, steps, id, rate.0, rate.1)?;
    joined(rt, room, steps, old, &one, (parent, id))
}

// The cluster with one more dependency.
pub(crate) fn linked<L: Ledger>(
    rt: &impl Abort,
    room: &mut Room<2>,
    steps: &mut Steps<L>,
    old: &Cluster<2>,
    parent: TxId,
    child: TxId,
) -> Result<Cluster<2>, Fail> {
    assert!(rt; has(old, parent));
    assert!(rt; has(old, child));
    assert!(rt; !old.reaches(child, parent));
    Ok(old.linked(room.alloc, parent, child, &mut room.work, steps)?)
}

// The cluster with another fee of a name.
pub(crate) fn paying<L: Ledger>(
    rt: &impl Abort,
    room: &mut Room<2>,
    steps: &mut Steps<L>,
    old: &Cluster<2>,
    id: TxId,
    fee: i64,
) -> Result<Cluster<2>, Fail> {
    assert!(rt; has(old, id));
    assert!(rt; is_fee(fee));
    Ok(old.with_fee(room.alloc, id, fee, &mut room.work, steps)?)
}

// The clusters without some names.
fn rest_of<L: Ledger>(
    room: &mut Room<2>,
    steps: &mut Steps<L>,
    old: &Cluster<2>,
    names: &[TxId],
) -> Result<Vec<Cluster<2>>, Fail>
    requires { (id : ℕ) → Contains names.now id → Contains old.now.names id }
{
    let list = old.without(room.alloc, names, &mut room.work, steps)?;
    Ok(list.into_vec())
}

// The clusters without a name.
pub(crate) fn left<L: Ledger>(
    rt: &impl Abort,
    room: &mut Room<2>,
    steps: &mut Steps<L>,
    old: &Cluster<2>,
    id: TxId,
) -> Result<Vec<Cluster<2>>, Fail> {
    assert!(rt; has(old, id));
    rest_of(room, steps, old, [id].as_slice())
}

// Puts one more name into a cluster, which depends on one of it.
fn grow<L: Ledger>(
    rt: &impl Abort,
    room: &mut Room<2>,
    steps: &mut Steps<L>,
    cluster: &mut Cluster<2>,
    row: (TxId, TxId, i64, u64),
) -> Result<(), Fail> {
    *cluster = grown(rt, room, steps, cluster, row.0, row.1, (row.2, row.3))?;
    Ok(())
}

// Puts more names into a cluster, each of which depends on one before it.
fn grow_by<L: Ledger>(
    rt: &impl Abort,
    room: &mut Room<2>,
    steps: &mut Steps<L>,
    cluster: &mut Cluster<2>,
    rows: &[(TxId, TxId, i64, u64)],
) -> Result<(), Fail> {
    for row in rows {
        grow(rt, room, steps, cluster, *row)?;
    }
    Ok(())
}

// A cluster by its names: each but the first depends on one before it, and has a fee and a size.
pub(crate) fn built<L: Ledger>(
    rt: &impl Abort,
    room: &mut Room<2>,
    steps: &mut Steps<L>,
    rows: &[(TxId, TxId, i64, u64)],
) -> Result<Cluster<2>, Fail> {
    assert!(rt; rows.len() > 0);
    let (_, first, fee, size) = rows[0];
    let mut cluster = alone(rt, room, steps, first, fee, size)?;
    grow_by(rt, room, steps, &mut cluster, &rows[1..])?;
    Ok(cluster)
}

// Another fee of a name, and what the parts are then.
fn fee_case<L: Ledger>(
    rt: &impl Abort,
    room: &mut Room<2>,
    steps: &mut Steps<L>,
    old: &Cluster<2>,
    change: (TxId, i64),
    parts: &[(i64, u64)],
) -> Result<(), Fail> {
    let alloc = room.alloc;
    let new = paying(rt, room, steps, old, change.0, change.1)?;
    let done = checked(rt, alloc, &new, parts);
    drop(new);
    done
}

// One more dependency, and what the parts are then.
fn link_case<L: Ledger>(
    rt: &impl Abort,
    room: &mut Room<2>,
    steps: &mut Steps<L>,
    old: &Cluster<2>,
    pair: (TxId, TxId),
    parts: &[(i64, u64)],
) -> Result<(), Fail> {
    let alloc = room.alloc;
    let new = linked(rt, room, steps, old, pair.0, pair.1)?;
    let done = checked(rt, alloc, &new, parts);
    drop(new);
    done
}

// The clusters without a name: how many they are, and the parts of one of them.
fn left_case<L: Ledger>(
    rt: &impl Abort,
    room: &mut Room<2>,
    steps: &mut Steps<L>,
    old: &Cluster<2>,
    id: TxId,
    wanted: (usize, usize),
    parts: &[(i64, u64)],
) -> Result<(), Fail> {
    let alloc = room.alloc;
    let rest = left(rt, room, steps, old, id)?;
    assert!(rt; rest.len() == wanted.0);
    assert!(rt; wanted.1 < rest.len());
    let done = checked(rt, alloc, &rest[wanted.1], parts);
    drop(rest);
    done
}

// The order of the two, and what the one sends to the other.
fn child_sends<const W: usize>(rt: &impl Abort, pair: &Cluster<W>)
    requires { W ≤ 2 }
{
    assert_eq!(rt; pair.order(), [1, 2].as_slice());
    assert!(rt; pair.part_count() > 0);
    let flow = Flow {
        child: 2,
        parent: 1,
        amount: 160_000,
    };
    assert_eq!(rt; pair.part(0).flows, [flow].as_slice());
}

// What is done with a cluster, before its order is checked.
#[derive(Clone, Copy)]
enum Change {
    Nothing,
    // a name has another fee
    Fee(TxId, i64),
    // the one name is a parent of the other
    Link(TxId, TxId),
    // a name goes: how many clusters are left, and which one is checked
    Leave(TxId, usize, usize),
}

// The fees and sizes of the parts then.
type Row = (Change, &'static [(i64, u64)]);

fn case<L: Ledger>(
    rt: &impl Abort,
    room: &mut Room<2>,
    steps: &mut Steps<L>,
    old: &Cluster<2>,
    change: Change,
    parts: &[(i64, u64)],
) -> Result<(), Fail> {
    match change {
        Change::Nothing => checked(rt, room.alloc, old, parts),
        Change::Fee(id, fee) => fee_case(rt, room, steps, old, (id, fee), parts),
        Change::Link(parent, child) => link_case(rt, room, steps, old, (parent, child), parts),
        Change::Leave(id, count, at) => left_case(rt, room, steps, old, id, (count, at), parts),
    }
}

fn cases<L: Ledger>(
    rt: &impl Abort,
    room: &mut Room<2>,
    steps: &mut Steps<L>,
    old: &Cluster<2>,
    rows: &[Row],
) -> Result<(), Fail> {
    for row in rows {
        case(rt, room, steps, old, row.0, row.1)?;
    }
    Ok(())
}

// A child pays for its parent.
static PAIR_CASES: [Row; 3] = [
    (Change::Nothing, &[(1000, 400)]),
    (Change::Fee(1, 901), &[(901, 200), (900, 200)]),
    (Change::Leave(1, 1, 0), &[(900, 200)]),
];

fn pair_cases<L: Ledger>(
    rt: &impl Abort,
    room: &mut Room<2>,
    steps: &mut Steps<L>,
    pair: &Cluster<2>,
) -> Result<(), Fail> {
    cases(rt, room, steps, pair, &PAIR_CASES)
}

// 1 is above 2 and 3, and 4 below 2: without 1 two clusters are left, and without 2 the others stay together.
static FOUR_CASES: [Row; 5] = [
    (Change::Nothing, &[(12, 20), (5, 10)]),
    (Change::Link(3, 4), &[(12, 20), (5, 10)]),
    (Change::Leave(1, 2, 0), &[(6, 5), (5, 10)]),
    (Change::Leave(1, 2, 1), &[(6, 5)]),
    (Change::Leave(2, 1, 0), &[(11, 25)]),
];

fn four_cases<L: Ledger>(
    rt: &impl Abort,
    room: &mut Room<2>,
    steps: &mut Steps<L>,
    four: &Cluster<2>,
) -> Result<(), Fail> {
    cases(rt, room, steps, four, &FOUR_CASES)
}

// As many names as there is room for, in a chain.
static WHOLE_CASES: [Row; 4] = [
    (Change::Nothing, &[(8128, 128)]),
    (Change::Link(0, 127), &[(8128, 128)]),
    (Change::Fee(127, -1), &[(8001, 127), (-1, 1)]),
    (Change::Leave(64, 1, 0), &[(8064, 127)]),
];

fn whole_cases<L: Ledger>(
    rt: &impl Abort,
    room: &mut Room<2>,
    steps: &mut Steps<L>,
    whole: &Cluster<2>,
) -> Result<(), Fail> {
    cases(rt, room, steps, whole, &WHOLE_CASES)
}

// Without all names no cluster is left.
fn all_go<L: Ledger>(
    rt: &impl Abort,
    room: &mut Room<2>,
    steps: &mut Steps<L>,
    old: &Cluster<2>,
) -> Result<(), Fail> {
    let none = rest_of(room, steps, old, old.names())?;
    assert_eq!(rt; none.len(), 0);
    Ok(())
}

fn each_has_all(rt: &impl Abort, left: &[Cluster<2>], old: &Cluster<2>) {
    for cluster in left {
        assert_eq!(rt; cluster.names(), old.names());
    }
}

// Without none of the names one cluster of all is left.
fn none_goes<L: Ledger>(
    rt: &impl Abort,
    room: &mut Room<2>,
    steps: &mut Steps<L>,
    old: &Cluster<2>,
) -> Result<(), Fail> {
    let all = rest_of(room, steps, old, [].as_slice())?;
    assert_eq!(rt; all.len(), 1);
    each_has_all(rt, &all, old);
    Ok(())
}

// Without all of the names, and without none.
fn all_or_none<L: Ledger>(
    rt: &impl Abort,
    room: &mut Room<2>,
    steps: &mut Steps<L>,
    four: &Cluster<2>,
) -> Result<(), Fail> {
    all_go(rt, room, steps, four)?;
    none_goes(rt, room, steps, four)
}

static PAIR: [(TxId, TxId, i64, u64); 2] = [(1, 1, 100, 200), (1, 2, 900, 200)];

fn pair_is_one_part<L: Ledger>(
    rt: &impl Abort,
    room: &mut Room<2>,
    steps: &mut Steps<L>,
    pair: &Cluster<2>,
) -> Result<(), Fail> {
    child_sends(rt, pair);
    pair_cases(rt, room, steps, pair)
}

fn pair<L: Ledger>(rt: &impl Abort, room: &mut Room<2>, steps: &mut Steps<L>) -> Result<(), Fail> {
    let cluster = built(rt, room, steps, &PAIR)?;
    let done = pair_is_one_part(rt, room, steps, &cluster);
    drop(cluster);
    done
}

static FOUR: [(TxId, TxId, i64, u64); 4] = [
    (1, 1, 0, 10),
    (1, 2, 6, 5),
    (1, 3, 6, 5),
    (2, 4, 5, 10),
];

fn four_fall_apart<L: Ledger>(
    rt: &impl Abort,
    room: &mut Room<2>,
    steps: &mut Steps<L>,
    four: &Cluster<2>,
) -> Result<(), Fail> {
    four_cases(rt, room, steps, four)?;
    all_or_none(rt, room, steps, four)
}

fn four<L: Ledger>(rt: &impl Abort, room: &mut Room<2>, steps: &mut Steps<L>) -> Result<(), Fail> {
    let cluster = built(rt, room, steps, &FOUR)?;
    let done = four_fall_apart(rt, room, steps, &cluster);
    drop(cluster);
    done
}

// Puts names up to a number under the one before.
fn lengthen<L: Ledger>(
    rt: &impl Abort,
    room: &mut Room<2>,
    steps: &mut Steps<L>,
    cluster: &mut Cluster<2>,
    count: u64,
) -> Result<(), Fail> {
    for id in 1..count {
        assert!(rt; id <= 1000);
        grow(rt, room, steps, cluster, (id - 1, id, id as i64, 1))?;
    }
    Ok(())
}

// A chain of so many names, of which each pays more than the one before it.
fn chain<L: Ledger>(
    rt: &impl Abort,
    room: &mut Room<2>,
    steps: &mut Steps<L>,
    count: u64,
) -> Result<Cluster<2>, Fail> {
    let mut cluster = alone(rt, room, steps, 0, 0, 1)?;
    lengthen(rt, room, steps, &mut cluster, count)?;
    Ok(cluster)
}

// 64 names in a chain are one part.
fn half<L: Ledger>(rt: &impl Abort, room: &mut Room<2>, steps: &mut Steps<L>) -> Result<(), Fail> {
    let alloc = room.alloc;
    let cluster = chain(rt, room, steps, 64)?;
    let done = checked(rt, alloc, &cluster, &[(2016, 64)]);
    drop(cluster);
    done
}

// As many names as there is room for.
fn whole<L: Ledger>(rt: &impl Abort, room: &mut Room<2>, steps: &mut Steps<L>) -> Result<(), Fail> {
    let cluster = chain(rt, room, steps, 128)?;
    let done = whole_cases(rt, room, steps, &cluster);
    drop(cluster);
    done
}

// The pair again, in one word.
fn narrow_pair<L: Ledger>(
    rt: &impl Abort,
    room: &mut Room<1>,
    steps: &mut Steps<L>,
) -> Result<Cluster<1>, Fail> {
    let parent = alone(rt, room, steps, 1, 100, 200)?;
    let both = grown(rt, room, steps, &parent, 1, 2, (900, 200));
    drop(parent);
    both
}

fn pair_is_checked(rt: &impl Abort, alloc: Global, pair: &Cluster<1>) -> Result<(), Fail> {
    child_sends(rt, pair);
    checked(rt, alloc, pair, &[(1000, 400)])
}

fn narrow_cases<L: Ledger>(
    rt: &impl Abort,
    room: &mut Room<1>,
    steps: &mut Steps<L>,
) -> Result<(), Fail> {
    let alloc = room.alloc;
    let pair = narrow_pair(rt, room, steps)?;
    let done = pair_is_checked(rt, alloc, &pair);
    drop(pair);
    done
}

fn narrow<L: Ledger>(rt: &impl Abort, alloc: Global, steps: &mut Steps<L>) -> Result<(), Fail> {
    let mut room = Room::<1> {
        alloc,
        work: Work::new(alloc)?,
    };
    let done = narrow_cases(rt, &mut room, steps);
    drop(room);
    done
}

fn wide_cases<L: Ledger>(
    rt: &impl Abort,
    room: &mut Room<2>,
    steps: &mut Steps<L>,
) -> Result<(), Fail> {
    pair(rt, room, steps)?;
    four(rt, room, steps)?;
    each_graph(rt, room, steps)?;
    half(rt, room, steps)?;
    whole(rt, room, steps)
}

fn wide<L: Ledger>(rt: &impl Abort, alloc: Global, steps: &mut Steps<L>) -> Result<(), Fail> {
    let mut room = Room::<2> {
        alloc,
        work: Work::new(alloc)?,
    };
    let done = wide_cases(rt, &mut room, steps);
    drop(room);
    done
}

fn rows<K: ledger::Ledger>(rt: &impl Abort, alloc: Global, blank: Blank) -> Result<(), Fail>
    requires name { blank.name ≡ K.name }
    requires parts { blank.parts ≡ K.parts }
    requires some { 0 < blank.parts }
{
    let mut steps = Steps::new(Counted::<K>::new(blank));
    narrow(rt, alloc, &mut steps)?;
    wide(rt, alloc, &mut steps)
}

#[test]
fn each_cluster_is_certified(rt: HostRuntime) -> Result<(), Fail> {
    rows::<Brand>(&rt, rt.alloc(), Blank::new(1))
}
