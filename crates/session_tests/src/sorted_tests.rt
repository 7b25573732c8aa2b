ghost use Rattle.std.specs.Prelude.{◌≡◌, ◌<◌};

use crate::chains::{LAST, NARROW, ROOMY, chains, cut, done};
use fee_rate::FeeRate;
use graph_model::{Level, Refusal, TxId};
use std::alloc::Global;
use std::marker::Brand;
use std::process::Abort;
use std::sync::ledger;
use std::sync::ledger::Blank;
use std::test::Fail;
use step_count::{Ledger, NoLedger, Steps};
use tx_graph::{Rates, TxGraph};

// The names of a level in its order.
fn listed(rt: &impl Abort, alloc: Global, graph: &TxGraph<1>) -> Result<Vec<TxId>, Fail> {
    assert!(rt; !graph.oversized(Level::Main));
    let mut ids = Vec::new(alloc);
    for part in graph.order(Level::Main) {
        ids.extend_from_slice(part.ids)?;
    }
    Ok(ids)
}

// The fees and sizes of the chunks of a level that have none of some names, and of those that have one.
fn rates(
    rt: &impl Abort,
    alloc: Global,
    graph: &TxGraph<1>,
    level: Level,
    chain: TxId,
) -> Result<Vec<FeeRate>, Fail> {
    assert!(rt; !graph.oversized(level));
    let mut rates = Vec::new(alloc);
    for part in graph.order(level) {
        put_rate(rt, &mut rates, part.rate, part.ids, chain)?;
    }
    Ok(rates)
}

// Puts a rate behind some, where the chunk is of one chain.
fn put_rate(
    rt: &impl Abort,
    rates: &mut Vec<FeeRate>,
    rate: FeeRate,
    ids: &[TxId],
    chain: TxId,
) -> Result<(), Fail> {
    assert!(rt; !ids.is_empty());
    if ids[0] % 4 == chain {
        rates.push(rate)?;
    }
    Ok(())
}

// All names from the last to the first, and two that main hasn't.
fn backwards(alloc: Global) -> Result<Vec<TxId>, Fail> {
    let mut ids = Vec::new(alloc);
    ids.push(99)?;
    for id in 0..=LAST {
        ids.push(LAST - id)?;
    }
    Ok(ids)
}

// Sorts all names: main's order, and behind it those that main hasn't.
fn sort(rt: &impl Abort, alloc: Global, graph: &TxGraph<1>) -> Result<(), Fail> {
    assert!(rt; !graph.oversized(Level::Main));
    let order = listed(rt, alloc, graph)?;
    let mut ids = backwards(alloc)?;
    graph.sort_by_main_order(ids.as_mut_slice());
    assert!(rt; ids.len() == order.len() + 2);
    let (known, others) = ids.as_slice().split_at(order.len());
    assert!(rt; known == order.as_slice());
    assert!(rt; others[0].wrapping_add(others[1]) == 99);
    Ok(())
}

// The rate of each name's chunk is the chunk's.
fn rate_each(rt: &impl Abort, graph: &TxGraph<1>) {
    for id in 1..=LAST {
        rate_one(rt, graph, id);
    }
    assert!(rt; graph.main_chunk_rate(99) == Err(Refusal::Unknown(99)));
}

fn rate_one(rt: &impl Abort, graph: &TxGraph<1>, id: TxId) {
    match graph.chunk(id) {
        Ok(part) => assert!(rt; graph.main_chunk_rate(id) == Ok(part.rate)),
        Err(_) => panic!(rt; "no chunk"),
    }
}

fn orders<K: ledger::Ledger>(rt: &impl Abort, alloc: Global, blank: Blank) -> Result<(), Fail>
    requires name { blank.name ≡ K.name }
    requires parts { blank.parts ≡ K.parts }
    requires some { 0 < blank.parts }
{
    let mut steps = Steps::new(NoLedger::<K>::new(blank));
    let graph = chains(rt, alloc, ROOMY, &mut steps)?;
    rate_each(rt, &graph);
    let told = sort(rt, alloc, &graph);
    done(graph);
    told
}

#[test]
fn names_are_put_into_the_order(rt: HostRuntime) -> Result<(), Fail> {
    orders::<Brand>(&rt, rt.alloc(), Blank::new(1))
}

// A walk tells the rates of a list.
fn tells(rt: &impl Abort, walk: Rates<'_>, rates: &[FeeRate]) {
    let mut at = 0;
    for rate in walk {
        assert!(rt; at < rates.len() && rates[at] == rate);
        at += 1;
    }
    assert!(rt; at == rates.len());
}

// Main tells the chain that staging cut, and staging what it left of it.
fn compare_chains(rt: &impl Abort, alloc: Global, graph: &TxGraph<1>) -> Result<(), Fail> {
    let mains = rates(rt, alloc, graph, Level::Main, 0)?;
    let tops = rates(rt, alloc, graph, Level::Top, 0)?;
    match graph.main_staging_diagrams() {
        Ok((main, top)) => {
            tells(rt, main, mains.as_slice());
            tells(rt, top, tops.as_slice());
        }
        Err(_) => panic!(rt; "refused"),
    }
    Ok(())
}

fn sides<K: ledger::Ledger>(rt: &impl Abort, alloc: Global, blank: Blank) -> Result<(), Fail>
    requires name { blank.name ≡ K.name }
    requires parts { blank.parts ≡ K.parts }
    requires some { 0 < blank.parts }
{
    let mut steps = Steps::new(NoLedger::<K>::new(blank));
    let mut graph = chains(rt, alloc, ROOMY, &mut steps)?;
    assert!(rt; graph.main_staging_diagrams().is_err());
    cut(rt, &mut graph, &mut steps);
    let told = compare_chains(rt, alloc, &graph);
    done(graph);
    told
}

#[test]
fn each_side_tells_what_it_has_alone(rt: HostRuntime) -> Result<(), Fail> {
    sides::<Brand>(&rt, rt.alloc(), Blank::new(1))
}

fn refusals<K: ledger::Ledger>(rt: &impl Abort, alloc: Global, blank: Blank) -> Result<(), Fail>
    requires name { blank.name ≡ K.name }
    requires parts { blank.parts ≡ K.parts }
    requires some { 0 < blank.parts }
{
    let mut steps = Steps::new(NoLedger::<K>::new(blank));
    let mut graph = chains(rt, alloc, NARROW, &mut steps)?;
    assert!(rt; graph.main_chunk_rate(1) == Err(Refusal::Oversized));
    cut(rt, &mut graph, &mut steps);
    match graph.main_staging_diagrams() {
        Ok(_) => panic!(rt; "answered"),
        Err(why) => assert!(rt; why == Refusal::Oversized),
    }
    done(graph);
    Ok(())
}

#[test]
fn an_oversized_level_has_no_order(rt: HostRuntime) -> Result<(), Fail> {
    refusals::<Brand>(&rt, rt.alloc(), Blank::new(1))
}
