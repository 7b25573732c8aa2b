ghost use Rattle.std.specs.Prelude.{◌≡◌, ◌<◌};

use crate::chains::{LAST, NARROW, ROOMY, chains, done};
use graph_model::{IdBuf, Level, Limits, TxId};
use graphs::Kin;
use std::alloc::Global;
use std::marker::Brand;
use std::process::Abort;
use std::sync::ledger;
use std::sync::ledger::Blank;
use std::test::Fail;
use step_count::{Ledger, NoLedger, Steps};
use tx_graph::TxGraph;

// Names that are asked of together. 0 and 99 are in no graph; some stand twice.
const ASKED: [&[TxId]; 8] = [
    &[],
    &[0, 99],
    &[7],
    &[7, 7, 7],
    &[24, 1, 9, 99],
    &[11, 3, 23, 19, 3],
    &[5, 6, 7, 8, 0, 8, 7, 6, 5],
    &[20, 24, 21, 22, 23, 4, 3, 2, 1],
];

// Whether a is an ancestor, or a descendant, of an id: both are in one chain, and a is at or before it, or at or behind it.
fn is_kin(kin: Kin, a: TxId, id: TxId) -> bool {
    let far = match kin {
        Kin::Ancestors => a <= id,
        Kin::Descendants => a >= id,
    };
    far && 1 <= id && id <= LAST && a % 4 == id % 4
}

// Whether it is one of some.
fn is_kin_of_some(kin: Kin, a: TxId, ids: &[TxId]) -> bool {
    for id in ids {
        if is_kin(kin, a, *id) {
            return true;
        }
    }
    false
}

// In how many chains some names lie.
fn chain_count(ids: &[TxId]) -> usize {
    let mut count = 0usize;
    for first in 1..=4u64 {
        if is_kin_of_some(Kin::Ancestors, first, ids) {
            count = count.wrapping_add(1);
        }
    }
    count
}

// What is asked and what is wanted. What makes no list anew lets none go, which costs proof.
#[derive(Drop)]
struct Lists {
    wanted: Vec<TxId>,
    asked: Vec<TxId>,
    out: IdBuf,
    small: IdBuf,
}

fn new_lists(alloc: Global) -> Result<Lists, Fail> {
    Ok(Lists {
        wanted: Vec::new(alloc),
        asked: Vec::new(alloc),
        out: IdBuf::new(alloc, 24)?,
        small: IdBuf::new(alloc, 5)?,
    })
}

// Writes down the names that are wanted, in rising order, and those that are asked of.
fn prepare(lists: &mut Lists, kin: Kin, ids: &[TxId]) -> Result<(), Fail> {
    lists.wanted.clear();
    for a in 1..=LAST {
        if is_kin_of_some(kin, a, ids) {
            lists.wanted.push(a)?;
        }
    }
    lists.asked.clear();
    lists.asked.extend_from_slice(ids)?;
    Ok(())
}

fn union(graph: &mut TxGraph<1>, kin: Kin, ids: &mut [TxId], out: &mut IdBuf) -> Result<(), usize> {
    match kin {
        Kin::Ancestors => graph.ancestors_union(Level::Main, ids, out),
        Kin::Descendants => graph.descendants_union(Level::Main, ids, out),
    }
}

fn count(graph: &TxGraph<1>, ids: &mut [TxId]) -> usize {
    graph.count_distinct_clusters(Level::Main, ids)
}

// With room for all.
fn answered(rt: &impl Abort, graph: &mut TxGraph<1>, kin: Kin, lists: &mut Lists) {
    let done = union(graph, kin, lists.asked.as_mut_slice(), &mut lists.out);
    assert!(rt; done == Ok(()));
    assert!(rt; lists.out.ids() == lists.wanted.as_slice());
}

// With room for less than one chain.
fn needs_room(rt: &impl Abort, graph: &mut TxGraph<1>, kin: Kin, lists: &mut Lists, chains: usize) {
    lists.small.clear();
    let done = union(graph, kin, lists.asked.as_mut_slice(), &mut lists.small);
    assert!(rt; chains > 0 || done == Ok(()));
    assert!(rt; chains == 0 || done == Err(chains.wrapping_mul(6)));
    assert!(rt; lists.small.ids().is_empty());
}

// The names that were asked of are those that were, in some order.
fn stays(rt: &impl Abort, lists: &mut Lists, ids: &[TxId]) {
    assert!(rt; lists.asked.len() == ids.len());
    for id in ids {
        assert!(rt; lists.asked.as_slice().contains(id));
    }
}

fn ask(
    rt: &impl Abort,
    graph: &mut TxGraph<1>,
    lists: &mut Lists,
    kin: Kin,
    ids: &[TxId],
) -> Result<(), Fail> {
    prepare(lists, kin, ids)?;
    answered(rt, graph, kin, lists);
    needs_room(rt, graph, kin, lists, chain_count(ids));
    assert!(rt; count(graph, lists.asked.as_mut_slice()) == chain_count(ids));
    stays(rt, lists, ids);
    Ok(())
}

fn ask_each(rt: &impl Abort, graph: &mut TxGraph<1>, lists: &mut Lists) -> Result<(), Fail> {
    for ids in ASKED {
        ask(rt, graph, lists, Kin::Ancestors, ids)?;
        ask(rt, graph, lists, Kin::Descendants, ids)?;
    }
    Ok(())
}

// All that is asked, of a graph under these limits.
fn ask_all<L: Ledger>(
    rt: &impl Abort,
    alloc: Global,
    limits: Limits,
    steps: &mut Steps<L>,
) -> Result<(), Fail> {
    let mut lists = new_lists(alloc)?;
    let mut graph = chains(rt, alloc, limits, steps)?;
    let told = ask_each(rt, &mut graph, &mut lists);
    done(graph);
    told
}

fn unions<K: ledger::Ledger>(
    rt: &impl Abort,
    alloc: Global,
    limits: Limits,
    blank: Blank,
) -> Result<(), Fail>
    requires name { blank.name ≡ K.name }
    requires parts { blank.parts ≡ K.parts }
    requires some { 0 < blank.parts }
{
    let mut steps = Steps::new(NoLedger::<K>::new(blank));
    ask_all(rt, alloc, limits, &mut steps)
}

#[test]
fn unions_of_clusters(rt: HostRuntime) -> Result<(), Fail> {
    unions::<Brand>(&rt, rt.alloc(), ROOMY, Blank::new(1))
}

#[test]
fn unions_of_components_over_the_limits(rt: HostRuntime) -> Result<(), Fail> {
    unions::<Brand>(&rt, rt.alloc(), NARROW, Blank::new(1))
}
