ghost use Rattle.std.specs.Prelude.{◌≡◌, ◌<◌};

use crate::tx_calls::{
    Call, Graph, begins_with, begun, count, done, has_corners, is_in_main, is_staged, make, narrow,
    narrow_mut, settle, sums, verdict,
};
use fee_rate::FeeRate;
use graph_model::{IdBuf, Refusal, TxId, Verdict};
use std::alloc::Global;
use std::marker::Brand;
use std::process::Abort;
use std::sync::ledger;
use std::sync::ledger::Blank;
use std::test::Fail;
use step_count::{Counted, Ledger, Steps};

// A row of a test.
#[derive(Clone, Copy)]
enum Row {
    // A call is accepted, and lists nothing.
    Does(Call),
    // A call is refused.
    Refuses(Call, Refusal),
    // A call lists these names.
    Lists(Call, &'static [TxId]),
    // Main's diagram has these corners.
    Corners(&'static [(u64, i128)]),
    // Main's order begins with a part of these names.
    Begins(&'static [TxId]),
    // So staging would be settled.
    Compares(Result<Verdict, Refusal>),
    // So it is settled.
    Settles(Verdict),
    // Whether there is a staging.
    Staged(bool),
    // A name has this fee and size.
    Sums(TxId, Option<FeeRate>),
    // Main has so many names.
    Count(usize),
}

// Compares what a call answers. All tests say it here: what formats a message pays for it in its proof.
fn compare_answers(
    rt: &impl Abort,
    call: Call,
    answer: Result<(), Refusal>,
    wanted: Result<(), Refusal>,
) {
    assert_eq!(rt; answer, wanted, "{call:?}");
}

// Compares what a call lists.
fn compare_ids(rt: &impl Abort, call: Call, ids: &[TxId], wanted: &[TxId]) {
    assert_eq!(rt; ids, wanted, "{call:?}");
}

// Makes a call that is accepted, and lists these names.
fn lists<L: Ledger>(
    rt: &impl Abort,
    graph: &mut Graph,
    call: Call,
    ids: &[TxId],
    out: &mut IdBuf,
    steps: &mut Steps<L>,
) {
    compare_answers(rt, call, make(rt, graph, call, out, steps), Ok(()));
    compare_ids(rt, call, out.ids(), ids);
}

// Makes a call that is accepted, and lists nothing.
fn does<L: Ledger>(
    rt: &impl Abort,
    graph: &mut Graph,
    call: Call,
    out: &mut IdBuf,
    steps: &mut Steps<L>,
) {
    lists(rt, graph, call, &[], out, steps);
}

// Makes a call that is refused.
fn refuses<L: Ledger>(
    rt: &impl Abort,
    graph: &mut Graph,
    call: Call,
    why: Refusal,
    out: &mut IdBuf,
    steps: &mut Steps<L>,
) {
    compare_answers(rt, call, make(rt, graph, call, out, steps), Err(why));
}

// Settles staging, and compares how it is done.
fn settles(rt: &impl Abort, graph: &mut Graph, wanted: Verdict) {
    assert!(rt; settle(narrow_mut(rt, graph)) == Ok(wanted));
}

// Whether a row that changes nothing reads so.
fn reads(rt: &impl Abort, graph: &Graph, row: Row) -> bool {
    match row {
        Row::Corners(points) => has_corners(narrow(rt, graph), points),
        Row::Begins(ids) => begins_with(narrow(rt, graph), ids),
        Row::Compares(answer) => verdict(narrow(rt, graph)) == answer,
        Row::Staged(staged) => is_staged(narrow(rt, graph)) == staged,
        Row::Sums(id, rate) => sums(graph, id) == rate,
        Row::Count(names) => count(graph) == names,
        _ => false,
    }
}

// Runs a row.
fn run<L: Ledger>(
    rt: &impl Abort,
    graph: &mut Graph,
    row: Row,
    out: &mut IdBuf,
    steps: &mut Steps<L>,
) {
    match row {
        Row::Does(call) => does(rt, graph, call, out, steps),
        Row::Refuses(call, why) => refuses(rt, graph, call, why, out, steps),
        Row::Lists(call, ids) => lists(rt, graph, call, ids, out, steps),
        Row::Settles(verdict) => settles(rt, graph, verdict),
        _ => assert!(rt; reads(rt, graph, row)),
    }
}

// Runs rows on a graph, one after another.
fn play_on<L: Ledger>(
    rt: &impl Abort,
    graph: &mut Graph,
    rows: &[Row],
    out: &mut IdBuf,
    steps: &mut Steps<L>,
) {
    for row in rows {
        run(rt, graph, *row, out, steps);
    }
}

// The same on a graph without names.
fn play<L: Ledger>(
    rt: &impl Abort,
    alloc: Global,
    rows: &[Row],
    out: &mut IdBuf,
    steps: &mut Steps<L>,
) -> Result<(), Fail> {
    let mut graph = begun(alloc, false)?;
    play_on(rt, &mut graph, rows, out, steps);
    done(graph);
    Ok(())
}

// A name whose parent goes keeps what stood above that.
const BRIDGED: [Row; 9] = [
    Row::Does(Call::Add(1, 1, 1)),
    Row::Does(Call::Add(2, 1, 1)),
    Row::Does(Call::Add(3, 1, 1)),
    Row::Does(Call::Dep(1, 2)),
    Row::Does(Call::Dep(2, 3)),
    Row::Does(Call::Remove(2)),
    Row::Lists(Call::Ancestors(3), &[1, 3]),
    Row::Does(Call::Remove(1)),
    Row::Lists(Call::Cluster(3), &[3]),
];

fn bridged<L: Ledger>(
    rt: &impl Abort,
    alloc: Global,
    out: &mut IdBuf,
    steps: &mut Steps<L>,
) -> Result<(), Fail> {
    play(rt, alloc, &BRIDGED, out, steps)
}

// A cluster of the most names is let in, and no larger one.
const LIMITED: [Row; 8] = [
    Row::Does(Call::Limits(2, 1000, 10)),
    Row::Does(Call::Add(1, 1, 1)),
    Row::Does(Call::Add(2, 1, 1)),
    Row::Does(Call::Add(3, 1, 1)),
    Row::Does(Call::Dep(1, 2)),
    Row::Refuses(Call::Dep(2, 3), Refusal::Count(3)),
    Row::Does(Call::Dep(1, 2)),
    Row::Refuses(Call::Limits(2, 1000, 10), Refusal::Late),
];

fn limited<L: Ledger>(
    rt: &impl Abort,
    alloc: Global,
    out: &mut IdBuf,
    steps: &mut Steps<L>,
) -> Result<(), Fail> {
    play(rt, alloc, &LIMITED, out, steps)
}

// A pair that others imply holds when they go.
const IMPLIED: [Row; 12] = [
    Row::Does(Call::Add(1, 1, 1)),
    Row::Does(Call::Add(2, 1, 1)),
    Row::Does(Call::Add(3, 1, 1)),
    Row::Does(Call::Dep(1, 2)),
    Row::Does(Call::Dep(2, 3)),
    Row::Does(Call::Dep(1, 3)),
    Row::Refuses(Call::Dep(3, 1), Refusal::Cycle),
    Row::Lists(Call::Cluster(1), &[1, 2, 3]),
    Row::Does(Call::Remove(2)),
    Row::Lists(Call::Cluster(1), &[1, 3]),
    Row::Lists(Call::Descendants(1), &[1, 3]),
    Row::Refuses(Call::Remove(2), Refusal::Unknown(2)),
];

fn implied<L: Ledger>(
    rt: &impl Abort,
    alloc: Global,
    out: &mut IdBuf,
    steps: &mut Steps<L>,
) -> Result<(), Fail> {
    play(rt, alloc, &IMPLIED, out, steps)
}

// What is mined has its ancestors with it, in any order; what is evicted is the last part.
const MINED: [Row; 20] = [
    Row::Refuses(Call::Evict, Refusal::Empty),
    Row::Does(Call::Add(1, 5, 5)),
    Row::Does(Call::Add(2, 5, 5)),
    Row::Does(Call::Add(3, 5, 5)),
    Row::Does(Call::Add(4, 1, 9)),
    Row::Does(Call::Dep(1, 2)),
    Row::Does(Call::Dep(2, 3)),
    Row::Refuses(Call::Mine(&[9, 3, 9, 3]), Refusal::Twice(9)),
    Row::Refuses(Call::Mine(&[3, 9]), Refusal::Unknown(9)),
    Row::Refuses(Call::Mine(&[1, 3, 4]), Refusal::Parent(3)),
    Row::Does(Call::Mine(&[2, 1])),
    Row::Lists(Call::Ancestors(3), &[3]),
    Row::Does(Call::Stage),
    Row::Refuses(Call::Mine(&[9]), Refusal::Staging),
    Row::Refuses(Call::Evict, Refusal::Staging),
    Row::Does(Call::Abort),
    Row::Lists(Call::Evict, &[4]),
    Row::Lists(Call::Evict, &[3]),
    Row::Refuses(Call::Evict, Refusal::Empty),
    Row::Count(0),
];

fn mined<L: Ledger>(
    rt: &impl Abort,
    alloc: Global,
    out: &mut IdBuf,
    steps: &mut Steps<L>,
) -> Result<(), Fail> {
    play(rt, alloc, &MINED, out, steps)
}

// A parent is paid for by its child, in the order and in the diagram, and equal rates are joined in the diagram.
const DRAWN: [Row; 7] = [
    Row::Does(Call::Add(1, 1, 1)),
    Row::Does(Call::Add(2, 2, 2)),
    Row::Does(Call::Add(3, 9, 1)),
    Row::Does(Call::Add(4, -5, 1)),
    Row::Does(Call::Dep(4, 3)),
    Row::Corners(&[(0, 0), (2, 4), (5, 7)]),
    Row::Begins(&[4, 3]),
];

fn drawn<L: Ledger>(
    rt: &impl Abort,
    alloc: Global,
    out: &mut IdBuf,
    steps: &mut Steps<L>,
) -> Result<(), Fail> {
    play(rt, alloc, &DRAWN, out, steps)
}

// A staging leaves main alone until it is committed, and is gone when it is dropped.
const STAGED: [Row; 19] = [
    Row::Refuses(Call::Commit, Refusal::NoStaging),
    Row::Does(Call::Add(1, 1, 1)),
    Row::Does(Call::Add(2, 1, 1)),
    Row::Does(Call::Stage),
    Row::Refuses(Call::Stage, Refusal::Staging),
    Row::Does(Call::Dep(1, 2)),
    Row::Lists(Call::Cluster(1), &[1]),
    Row::Lists(Call::Top(1), &[1, 2]),
    Row::Does(Call::Abort),
    Row::Refuses(Call::Abort, Refusal::NoStaging),
    Row::Lists(Call::Top(1), &[1]),
    Row::Does(Call::Stage),
    Row::Does(Call::Remove(1)),
    Row::Refuses(Call::Add(1, 2, 2), Refusal::Taken),
    Row::Refuses(Call::Top(1), Refusal::Unknown(1)),
    Row::Does(Call::Commit),
    Row::Refuses(Call::Cluster(1), Refusal::Unknown(1)),
    Row::Does(Call::Add(1, 2, 2)),
    Row::Lists(Call::Cluster(1), &[1]),
];

fn staged<L: Ledger>(
    rt: &impl Abort,
    alloc: Global,
    out: &mut IdBuf,
    steps: &mut Steps<L>,
) -> Result<(), Fail> {
    play(rt, alloc, &STAGED, out, steps)
}

// A name has one fee in both levels, and staging is settled by the two diagrams.
const SETTLED: [Row; 14] = [
    Row::Compares(Err(Refusal::NoStaging)),
    Row::Does(Call::Add(1, 5, 1)),
    Row::Does(Call::Stage),
    Row::Does(Call::Remove(1)),
    Row::Compares(Ok(Verdict::Worse)),
    Row::Settles(Verdict::Worse),
    Row::Staged(false),
    Row::Does(Call::Stage),
    Row::Does(Call::Fee(1, -5)),
    Row::Does(Call::Remove(1)),
    Row::Sums(1, Some(FeeRate { fee: -5, size: 1 })),
    Row::Settles(Verdict::Better),
    Row::Count(0),
    Row::Sums(1, None),
];

fn settled<L: Ledger>(
    rt: &impl Abort,
    alloc: Global,
    out: &mut IdBuf,
    steps: &mut Steps<L>,
) -> Result<(), Fail> {
    play(rt, alloc, &SETTLED, out, steps)
}

fn each_sequence<L: Ledger>(
    rt: &impl Abort,
    alloc: Global,
    out: &mut IdBuf,
    steps: &mut Steps<L>,
) -> Result<(), Fail> {
    bridged(rt, alloc, out, steps)?;
    limited(rt, alloc, out, steps)?;
    implied(rt, alloc, out, steps)?;
    mined(rt, alloc, out, steps)?;
    drawn(rt, alloc, out, steps)?;
    staged(rt, alloc, out, steps)?;
    settled(rt, alloc, out, steps)
}

// Rows on a chain of the names 1 to 64, each with its name as its fee, and how many steps they add: at least and at most.
const ON_A_CHAIN: [(Row, u64, u64); 11] = [
    (Row::Does(Call::Add(65, 65, 1)), 0, 486),
    (Row::Does(Call::Dep(1, 2)), 0, 0),
    (Row::Does(Call::Dep(1, 64)), 0, 0),
    (Row::Does(Call::Fee(64, 64)), 0, 0),
    (Row::Refuses(Call::Limits(1, 1, 1), Refusal::Late), 0, 0),
    (Row::Refuses(Call::Add(3, 3, 1), Refusal::Taken), 0, 0),
    (Row::Refuses(Call::Dep(64, 1), Refusal::Cycle), 0, 0),
    (Row::Refuses(Call::Dep(64, 65), Refusal::Count(65)), 0, 0),
    (Row::Refuses(Call::Fee(64, i64::MIN), Refusal::Fee), 0, 0),
    (Row::Refuses(Call::Remove(66), Refusal::Unknown(66)), 0, 0),
    (Row::Does(Call::Fee(64, 1000)), 64, 2_504_665_152),
];

// Makes one chain of the names 1 to 64, each with its name as its fee.
fn chain<L: Ledger>(rt: &impl Abort, graph: &mut Graph, out: &mut IdBuf, steps: &mut Steps<L>) {
    does(rt, graph, Call::Add(1, 1, 1), out, steps);
    for id in 2..65u64 {
        does(rt, graph, Call::Add(id, id as i64, 1), out, steps);
        does(rt, graph, Call::Dep(id - 1, id), out, steps);
    }
}

// Runs rows, and compares how many steps each adds.
fn count_steps<K: ledger::Ledger>(
    rt: &impl Abort,
    graph: &mut Graph,
    rows: &[(Row, u64, u64)],
    out: &mut IdBuf,
    steps: &mut Steps<Counted<K>>,
) {
    for (row, least, most) in rows {
        let before = steps.ledger().shown();
        run(rt, graph, *row, out, steps);
        let added = steps.ledger().shown().saturating_sub(before);
        assert!(rt; *least <= added && added <= *most);
    }
}

fn counted<K: ledger::Ledger>(
    rt: &impl Abort,
    alloc: Global,
    out: &mut IdBuf,
    steps: &mut Steps<Counted<K>>,
) -> Result<(), Fail> {
    let mut graph = begun(alloc, false)?;
    chain(rt, &mut graph, out, steps);
    count_steps(rt, &mut graph, &ON_A_CHAIN, out, steps);
    done(graph);
    Ok(())
}

fn sequences<K: ledger::Ledger>(rt: &impl Abort, alloc: Global, blank: Blank) -> Result<(), Fail>
    requires name { blank.name ≡ K.name }
    requires parts { blank.parts ≡ K.parts }
    requires some { 0 < blank.parts }
{
    let mut steps = Steps::new(Counted::<K>::new(blank));
    let mut out = IdBuf::new(alloc, 128)?;
    each_sequence(rt, alloc, &mut out, &mut steps)?;
    counted(rt, alloc, &mut out, &mut steps)
}

#[test]
fn sequences_have_their_answers(rt: HostRuntime) -> Result<(), Fail> {
    sequences::<Brand>(&rt, rt.alloc(), Blank::new(1))
}

// How the names 1 to 64 hang together: each has one name above it, or none.
#[derive(Clone, Copy)]
enum Shape {
    Chain,
    Star(TxId),
    Tree,
}

// Names in a shape, those that are left of them in rising order, and whether pairs lead up in place of down.
#[derive(Drop)]
struct Forest {
    shape: Shape,
    left: Vec<TxId>,
    upward: bool,
}

impl Forest {
    // The name above a name, or 0 where there is none.
    fn above(&self, id: TxId) -> TxId {
        match (self.shape, id) {
            (Shape::Chain, _) => id.saturating_sub(1),
            (Shape::Star(centre), _) => { if id == centre { 0 } else { centre } }
            // one name, seven under it, and eight under each of these
            (Shape::Tree, 0..=1) => 0,
            (Shape::Tree, 2..=8) => 1,
            (Shape::Tree, _) => (id - 9) / 8 + 2,
        }
    }

    // The call that joins a name to the one above it.
    fn pair(&self, id: TxId) -> Option<Call> {
        match (self.above(id), self.upward) {
            (0, _) => None,
            (above, true) => Some(Call::Dep(id, above)),
            (above, false) => Some(Call::Dep(above, id)),
        }
    }

    // Leaves out a name.
    fn lose(&mut self, id: TxId) {
        self.left.retain(|other| *other != id);
    }

    // Whether a name is another or stands above it.
    fn is_over(&self, high: TxId, low: TxId) -> bool {
        let mut at = low;
        for _ in 0..64 {
            if at == high {
                return true;
            }
            if at == 0 {
                return false;
            }
            at = self.above(at);
        }
        false
    }

    // The highest name that is left of a name and those above it.
    fn top(&self, id: TxId) -> TxId {
        let mut highest = id;
        let mut at = id;
        for _ in 0..64 {
            at = self.above(at);
            if at == 0 {
                return highest;
            }
            if self.left.binary_search(&at).is_ok() {
                highest = at;
            }
        }
        highest
    }

    // Whether a call lists a name.
    fn lists(&self, call: Call, other: TxId) -> bool {
        match call {
            Call::Cluster(id) => self.top(id) == self.top(other),
            Call::Ancestors(id) if self.upward => self.is_over(id, other),
            Call::Ancestors(id) => self.is_over(other, id),
            Call::Descendants(id) if self.upward => self.is_over(other, id),
            Call::Descendants(id) => self.is_over(id, other),
            _ => false,
        }
    }

    // Whether these are the names that a call lists, in rising order.
    fn is_list(&self, call: Call, ids: &[TxId]) -> bool {
        let mut rest = ids;
        for other in self.left.iter() {
            if self.lists(call, *other) {
                match rest {
                    [first, after @ ..] if *first == *other => rest = after,
                    _ => return false,
                }
            }
        }
        rest.len() == 0
    }
}

// Whether a name has this fee, and its name as its size.
fn has_sums(graph: &Graph, id: TxId, fee: i64) -> bool {
    sums(graph, id) == Some(FeeRate { fee, size: id })
}

// Adds a name with its name as its size, and changes its fee.
fn enter<L: Ledger>(
    rt: &impl Abort,
    graph: &mut Graph,
    id: TxId,
    out: &mut IdBuf,
    steps: &mut Steps<L>,
) {
    does(rt, graph, Call::Add(id, 1, id), out, steps);
    assert!(rt; has_sums(graph, id, 1));
    does(rt, graph, Call::Fee(id, -7), out, steps);
}

// Joins a name to the one above it.
fn hang<L: Ledger>(
    rt: &impl Abort,
    graph: &mut Graph,
    forest: &Forest,
    id: TxId,
    out: &mut IdBuf,
    steps: &mut Steps<L>,
) {
    match forest.pair(id) {
        Some(call) => does(rt, graph, call, out, steps),
        None => {}
    }
}

// Makes one cluster of the names of a forest.
fn grow<L: Ledger>(
    rt: &impl Abort,
    graph: &mut Graph,
    forest: &Forest,
    out: &mut IdBuf,
    steps: &mut Steps<L>,
) {
    for id in forest.left.iter() {
        enter(rt, graph, *id, out, steps);
    }
    for id in forest.left.iter() {
        hang(rt, graph, forest, *id, out, steps);
    }
}

// Compares what a call lists with what is left of a forest.
fn listed<L: Ledger>(
    rt: &impl Abort,
    graph: &mut Graph,
    forest: &Forest,
    call: Call,
    out: &mut IdBuf,
    steps: &mut Steps<L>,
) {
    compare_answers(rt, call, make(rt, graph, call, out, steps), Ok(()));
    assert!(rt; forest.is_list(call, out.ids()), "{call:?}");
}

// The same for each call that lists names.
fn each_listed<L: Ledger>(
    rt: &impl Abort,
    graph: &mut Graph,
    forest: &Forest,
    id: TxId,
    out: &mut IdBuf,
    steps: &mut Steps<L>,
) {
    listed(rt, graph, forest, Call::Cluster(id), out, steps);
    listed(rt, graph, forest, Call::Ancestors(id), out, steps);
    listed(rt, graph, forest, Call::Descendants(id), out, steps);
}

// Compares which names a graph has, with their fees and sizes.
fn compare_names(rt: &impl Abort, graph: &Graph, forest: &Forest) {
    assert!(rt; count(graph) == forest.left.len());
    for id in forest.left.iter() {
        assert!(rt; is_in_main(graph, *id));
        assert!(rt; has_sums(graph, *id, -7));
    }
}

// Compares what a graph has of each name that is left, and what it lists for some of them.
fn compare<L: Ledger>(
    rt: &impl Abort,
    graph: &mut Graph,
    forest: &Forest,
    out: &mut IdBuf,
    steps: &mut Steps<L>,
) {
    compare_names(rt, graph, forest);
    for id in forest.left.iter().step_by(9) {
        each_listed(rt, graph, forest, *id, out, steps);
    }
}

// Removes a name, and compares what is left.
fn cut<L: Ledger>(
    rt: &impl Abort,
    graph: &mut Graph,
    forest: &mut Forest,
    id: TxId,
    out: &mut IdBuf,
    steps: &mut Steps<L>,
) {
    does(rt, graph, Call::Remove(id), out, steps);
    forest.lose(id);
    assert!(rt; sums(graph, id).is_none());
    compare(rt, graph, forest, out, steps);
}

// Makes one cluster of the names of a forest, and removes them from the middle outward.
fn grow_and_cut<L: Ledger>(
    rt: &impl Abort,
    graph: &mut Graph,
    forest: &mut Forest,
    out: &mut IdBuf,
    steps: &mut Steps<L>,
) {
    grow(rt, graph, forest, out, steps);
    compare(rt, graph, forest, out, steps);
    for pair in 0..32u64 {
        cut(rt, graph, forest, 32 - pair, out, steps);
        cut(rt, graph, forest, 33 + pair, out, steps);
    }
}

// The names 1 to 64.
fn names(alloc: Global) -> Result<Vec<TxId>, Fail> {
    let mut ids = Vec::new(alloc);
    for id in 1..65u64 {
        ids.push(id)?;
    }
    Ok(ids)
}

// The names 1 to 64 in a shape.
fn planted(alloc: Global, shape: Shape, upward: bool) -> Result<Forest, Fail> {
    let left = names(alloc)?;
    Ok(Forest {
        shape,
        left,
        upward,
    })
}

// Takes down a forest in a graph without names.
fn take_down_in<L: Ledger>(
    rt: &impl Abort,
    alloc: Global,
    is_wide: bool,
    forest: &mut Forest,
    out: &mut IdBuf,
    steps: &mut Steps<L>,
) -> Result<(), Fail> {
    let mut graph = begun(alloc, is_wide)?;
    grow_and_cut(rt, &mut graph, forest, out, steps);
    done(graph);
    Ok(())
}

// Makes one cluster of 64 names and removes them from the middle outward.
fn take_down<L: Ledger>(
    rt: &impl Abort,
    alloc: Global,
    is_wide: bool,
    shape: Shape,
    upward: bool,
    out: &mut IdBuf,
    steps: &mut Steps<L>,
) -> Result<(), Fail> {
    let mut forest = planted(alloc, shape, upward)?;
    take_down_in(rt, alloc, is_wide, &mut forest, out, steps)
}

fn each_shape<L: Ledger>(
    rt: &impl Abort,
    alloc: Global,
    out: &mut IdBuf,
    steps: &mut Steps<L>,
) -> Result<(), Fail> {
    for shape in &[Shape::Chain, Shape::Star(1), Shape::Star(32), Shape::Tree] {
        take_down(rt, alloc, false, *shape, false, out, steps)?;
        take_down(rt, alloc, false, *shape, true, out, steps)?;
    }
    take_down(rt, alloc, true, Shape::Chain, false, out, steps)
}

fn removals<K: ledger::Ledger>(rt: &impl Abort, alloc: Global, blank: Blank) -> Result<(), Fail>
    requires name { blank.name ≡ K.name }
    requires parts { blank.parts ≡ K.parts }
    requires some { 0 < blank.parts }
{
    let mut steps = Steps::new(Counted::<K>::new(blank));
    let mut out = IdBuf::new(alloc, 128)?;
    each_shape(rt, alloc, &mut out, &mut steps)
}

#[test]
fn clusters_fall_apart_from_the_middle(rt: HostRuntime) -> Result<(), Fail> {
    removals::<Brand>(&rt, rt.alloc(), Blank::new(1))
}
