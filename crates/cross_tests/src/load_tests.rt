use crate::replay_tests::{Row, Way, even, shows};
use replay::Status;
use std::alloc::Global;
use std::process::Abort;
use std::test::Fail;

/// Texts that are accepted, with the proofs of their graphs' orders.
const LOADED: [Row; 2] = [
    (
        "tx 1 100 200\ntx 2 900 200\nedge 1 2\nend\n",
        "tx 1 100 200\ntx 2 900 200\nedge 1 2\nchunk 1000 400 1 2\nflow 2 1 160000\nend\n",
    ),
    ("end\n", "end\n"),
];

/// Texts that are refused, with why.
const REFUSED: [Row; 4] = [
    ("tx 2 1 1\ntx 1 1 1\nend\n", "no graph\n"),
    (
        "tx 1 1 1\ntx 2 1 1\ntx 3 1 1\nedge 1 2\nedge 1 3\nedge 2 3\nend\n",
        "no graph\n",
    ),
    ("end", "no syntax\n"),
    ("tx 1 1 404001\nend\n", "no limits\n"),
];

fn loaded() -> &'static [Row] {
    &LOADED
}

fn refused() -> &'static [Row] {
    &REFUSED
}

fn loads(
    rt: &impl Abort,
    alloc: Global,
    text: &str,
    way: Way,
    wanted: (Status, &str),
) -> Result<(), Fail> {
    shows(rt, alloc, &["txgraph", "load"], text, way, wanted)
}

fn load_all(rt: &impl Abort, alloc: Global, rows: &[Row], status: Status) -> Result<(), Fail> {
    for (text, written) in rows {
        loads(rt, alloc, text, even(64), (status, *written))?;
    }
    Ok(())
}

#[test]
fn the_order_of_a_loaded_graph_is_proved(rt: HostRuntime) -> Result<(), Fail> {
    load_all(&rt, rt.alloc(), loaded(), Status::Done)
}

#[test]
fn a_refused_text_is_told_why(rt: HostRuntime) -> Result<(), Fail> {
    load_all(&rt, rt.alloc(), refused(), Status::No)
}

/// A source that fails in its second line, and a sink that is full in the second line of a proof.
#[test]
fn a_load_ends_at_a_fault(rt: HostRuntime) -> Result<(), Fail> {
    let failing = Way {
        source_stop: Some(15),
        ..even(4)
    };
    let text = "tx 1 100 200\nend\n";
    loads(&rt, rt.alloc(), text, failing, (Status::ReadFault, ""))?;
    let full = Way {
        sink_stop: 16,
        ..even(4)
    };
    let wanted = (Status::WriteFault, "tx 1 100 200\nchu");
    loads(&rt, rt.alloc(), text, full, wanted)
}
