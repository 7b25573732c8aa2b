//! Lists of as many names as a line may list, and of as many different ones as it has room for.
ghost use Rattle.std.specs.Prelude.{◌≡◌, ◌<◌};

use crate::runs::{Script, answers, begun, tell};
use graph_model::{DEFAULT_LIMITS, Level, Refusal, TxId};
use reorg::Reorg;
use std::alloc::{AllocError, Global};
use std::marker::Brand;
use std::process::Abort;
use std::sync::ledger;
use std::sync::ledger::Blank;
use std::test::Fail;
use step_count::{Ledger, NoLedger, Steps};
use tx_graph::TxGraph;

/// The most names that a line lists.
const LISTED: u64 = 32_766;

/// How many different names, from 1, a `mine` of 65,536 bytes lists.
const DIFFERENT: u64 = 12_773;

/// Names that come in one by one, go in one line, and come back in one line.
fn mined(alloc: Global, count: u64) -> Result<Script, AllocError> {
    let mut script = begun(alloc, "count main", "count 0")?;
    let mut names = String::new(alloc);
    for id in 1..=count {
        tell(&mut script, &format!(in alloc; "add {id} 1 1")?, "ok")?;
        names.push_str(&format!(in alloc; " {id}")?)?;
    }
    tell(&mut script, &format!(in alloc; "mine{names}")?, "ok")?;
    tell(&mut script, "count main", "count 0")?;
    tell(&mut script, "unmine", &format!(in alloc; "unmined{names}")?)?;
    tell(
        &mut script,
        "count main",
        &format!(in alloc; "count {count}")?,
    )?;
    Ok(script)
}

#[test]
fn a_line_mines_as_many_names_as_it_has_room_for(rt: HostRuntime) -> Result<(), Fail> {
    answers(&rt, rt.alloc(), &mined(rt.alloc(), DIFFERENT)?)
}

/// Adds a name.
fn add<L: Ledger>(
    rt: &impl Abort,
    graph: &mut TxGraph<2>,
    id: TxId,
    steps: &mut Steps<L>,
) -> Result<(), Refusal> {
    assert!(rt; graph.additions() < 100_000);
    graph.add(id, 5, 100, steps)
}

/// Mines these names.
fn mine<L: Ledger>(
    rt: &impl Abort,
    graph: &mut TxGraph<2>,
    reorg: &mut Reorg,
    ids: &[TxId],
    steps: &mut Steps<L>,
) -> Result<(), Refusal> {
    assert!(rt; !ids.is_empty());
    reorg.mine(graph, ids, steps)
}

/// Takes the latest block back, and tells how many names it has.
fn unmine<L: Ledger>(
    rt: &impl Abort,
    graph: &mut TxGraph<2>,
    reorg: &mut Reorg,
    steps: &mut Steps<L>,
) -> usize {
    assert!(rt; graph.additions() < 100_000 && reorg.latest_count() < 100_000);
    match reorg.unmine(graph, steps) {
        Ok(ids) => ids.as_slice().len(),
        Err(why) => panic!(rt; "refused: {why:?}"),
    }
}

/// Adds as many names as a line may list, mines them in one block, and takes it back.
fn play<L: Ledger>(
    rt: &impl Abort,
    alloc: Global,
    graph: &mut TxGraph<2>,
    reorg: &mut Reorg,
    steps: &mut Steps<L>,
) -> Result<(), Fail> {
    let mut ids = Vec::new(alloc);
    for id in 0..LISTED {
        assert!(rt; add(rt, graph, id, steps) == Ok(()));
        ids.push(id)?;
    }
    assert!(rt; mine(rt, graph, reorg, &ids, steps) == Ok(()));
    assert!(rt; graph.count(Level::Main) == 0);
    assert!(rt; unmine(rt, graph, reorg, steps) == ids.len());
    assert!(rt; graph.count(Level::Main) == ids.len());
    Ok(())
}

fn lists<K: ledger::Ledger>(rt: &impl Abort, alloc: Global, blank: Blank) -> Result<(), Fail>
    requires name { blank.name ≡ K.name }
    requires parts { blank.parts ≡ K.parts }
    requires some { 0 < blank.parts }
{
    let mut steps = Steps::new(NoLedger::<K>::new(blank));
    let mut graph = TxGraph::<2>::new(alloc, DEFAULT_LIMITS)?;
    let mut reorg = Reorg::new(alloc);
    play(rt, alloc, &mut graph, &mut reorg, &mut steps)
}

#[test]
fn a_block_has_as_many_names_as_a_line_may_list(rt: HostRuntime) -> Result<(), Fail> {
    lists::<Brand>(&rt, rt.alloc(), Blank::new(1))
}
