//! What `check` says of texts.
use crate::replay_tests::{Row, Way, even, shows};
use outside::MemSink;
use replay::{Status, check_accepts_proofs};
use std::alloc::Global;
use std::process::Abort;
use std::test::Fail;

/// Texts of `check` with what is said of them.
const TEXTS: [Row; 72] = [
    (
        "tx 1 100 200\ntx 2 900 200\nedge 1 2\nchunk 1000 400 1 2\nflow 2 1 160000\nend\n",
        "yes\n",
    ),
    (
        "tx 1 100 200\ntx 2 900 200\nedge 1 2\nchunk 1000 400 1 2\nflow 2 1 159999\nend\n",
        "no flow\n",
    ),
    (
        "tx 1 100 200\ntx 2 900 200\nedge 1 2\nedge 1 2\nchunk 1000 400 1 2\nflow 2 1 160000\nend\n",
        "no graph\n",
    ),
    (
        "tx 1 100 200\ntx 2 900 200\nedge 1 2\nedge 2 1\nchunk 1000 400 1 2\nflow 2 1 160000\nend\n",
        "no graph\n",
    ),
    (
        "tx 1 100 200\ntx 2 900 200\nedge 1 2\nchunk 1000 400 2 1\nflow 2 1 160000\nend\n",
        "no order\n",
    ),
    (
        "tx 1 100 200\ntx 2 900 200\nedge 1 2\nchunk 1001 400 1 2\nflow 2 1 160000\nend\n",
        "no falling\n",
    ),
    ("", "no syntax\n"),
    ("end\n", "yes\n"),
    (
        "tx 2 -2100000000000000 1\ntx 1 2100000000000000 1\nedge 2 1\nchunk 0 2 2 1\nflow 1 2 4200000000000000\nend\n",
        "yes\n",
    ),
    (
        "tx 1 0 10\ntx 2 6 5\ntx 3 6 5\nedge 1 2\nedge 1 3\nchunk 12 20 1 2 3\nflow 2 1 120\nflow 3 2 60\nend\n",
        "no flow\n",
    ),
    (
        "tx 1 1 1\ntx 2 2 1\nchunk 1 1 1\nchunk 2 1 2\nend\n",
        "no falling\n",
    ),
    ("tx 1 1 1\ntx 2 2 2\nchunk 3 3 1 2\nend\n", "no order\n"),
    (
        "tx 1 1 1\ntx 2 1 1\nedge 1 2\nedge 2 1\nchunk 2 2 1 2\nend\n",
        "no graph\n",
    ),
    ("tx 1 1 1\nedge 1 1\nchunk 1 1 1\nend\n", "no graph\n"),
    (
        "tx 1 2100000000000001 1\nchunk 2100000000000001 1 1\nend\n",
        "no graph\n",
    ),
    ("tx 1 1 1\nchunk 1 1 2\nend\n", "no order\n"),
    ("tx 1 1 1\nend\n", "no order\n"),
    (
        "tx 1 1 1\nchunk 1000000000000000000000000000000 1 1\nend\n",
        "no falling\n",
    ),
    (
        "tx 1 1 1\nchunk 1000000000000000000000000000001 1 1\nend\n",
        "no syntax\n",
    ),
    (
        "tx 1 100 200\ntx 2 900 200\nedge 1 2\nchunk 1000 400 1 2\nflow 2 1 80000\nflow 2 1 80000\nend\n",
        "no flow\n",
    ),
    (
        "tx 1 100 200\ntx 2 900 200\nedge 1 2\nchunk 1000 400 1 2\nflow 2 1 0\nend\n",
        "no syntax\n",
    ),
    (
        "tx 1 100 200\ntx 2 900 200\nedge 1 2\nchunk 1000 400 1 2\nflow 2 9 160000\nend\n",
        "no flow\n",
    ),
    (
        "tx 1 900 200\ntx 2 100 200\nedge 1 2\nchunk 900 200 1\nchunk 100 200 2\nflow 2 1 1\nend\n",
        "no flow\n",
    ),
    ("end\nend\n", "no syntax\n"),
    ("edge 1 2\ntx 1 1 1\nend\n", "no syntax\n"),
    ("end\n# x\n", "yes\n"),
    (
        "tx 1 0 1\ntx 2 0 1\ntx 3 3 1\nedge 1 2\nedge 2 3\nedge 1 3\nchunk 3 3 1 2 3\nflow 3 1 3\nflow 3 2 3\nend\n",
        "yes\n",
    ),
    ("# a\r\n\ntx 1 1 1\r\nchunk 1 1 1\nend", "yes\n"),
    (
        "tx 1 1 1\ntx 2 1 1\nedge 1 2\nedge 1 2\nchunk 2 2 1 2\nend\n",
        "no graph\n",
    ),
    (
        "tx 1 5 1\ntx 2 3 1\nchunk 5 1 1\nchunk 3 1 2\nend\n",
        "yes\n",
    ),
    ("tx 1 1 1\ntx 1 1 1\nchunk 1 1 1\nend\n", "no graph\n"),
    (
        "tx 1 -2100000000000001 1\nchunk -2100000000000001 1 1\nend\n",
        "no graph\n",
    ),
    ("tx 1 1 0\nchunk 1 0 1\nend\n", "no graph\n"),
    ("tx 1 1 4000001\nchunk 1 4000001 1\nend\n", "no graph\n"),
    ("tx 1 1 4000000\nchunk 1 4000000 1\nend\n", "yes\n"),
    ("tx 1 1 1\nedge 9 1\nchunk 1 1 1\nend\n", "no graph\n"),
    ("tx 1 1 1\nedge 1 9\nchunk 1 1 1\nend\n", "no graph\n"),
    ("tx 1 1 1\nchunk 1 1 1\nchunk 1 1 9\nend\n", "no order\n"),
    ("tx 1 1 1\nchunk 2 2 1 1\nend\n", "no order\n"),
    ("tx 1 1 1\nchunk 1 1 1\nchunk 1 1 1\nend\n", "no order\n"),
    ("tx 1 1 1\ntx 2 1 1\nchunk 1 1 1\nend\n", "no order\n"),
    (
        "tx 1 1 1\ntx 2 2 1\nedge 1 2\nchunk 2 1 2\nchunk 1 1 1\nend\n",
        "no order\n",
    ),
    ("tx 1 1 1\nchunk 1 2 1\nend\n", "no falling\n"),
    (
        "tx 1 0 1\ntx 2 0 1\ntx 3 3 1\nedge 1 2\nedge 2 3\nchunk 3 3 1 2 3\nflow 3 1 3\nflow 3 2 3\nend\n",
        "no flow\n",
    ),
    (
        "tx 1 900 200\ntx 2 100 200\nedge 1 2\nchunk 1000 400 1 2\nflow 1 2 160000\nend\n",
        "no flow\n",
    ),
    (
        "tx 1 900 200\ntx 2 100 200\nedge 1 2\nchunk 900 200 1\nflow 2 1 1\nchunk 100 200 2\nend\n",
        "no flow\n",
    ),
    (
        "tx 1 100 200\ntx 2 900 200\ntx 3 1 1\nedge 1 2\nchunk 1000 400 1 2\nchunk 1 1 3\nflow 2 1 160000\nend\n",
        "no flow\n",
    ),
    ("tx 1 1 1\nTX 2 1 1\nchunk 1 1 1\nend\n", "no syntax\n"),
    ("tx 1 1\nend\n", "no syntax\n"),
    ("tx 1 1 1 1\nend\n", "no syntax\n"),
    ("tx 1 1 1\nedge 1\nend\n", "no syntax\n"),
    ("tx 1 1 1\nchunk 1 1\nend\n", "no syntax\n"),
    ("tx 1 1 1\nchunk 1 1 1\nflow 1 1\nend\n", "no syntax\n"),
    ("end 1\n", "no syntax\n"),
    ("tx  1 1 1\nend\n", "no syntax\n"),
    ("tx 1 1 1 \nend\n", "no syntax\n"),
    (" tx 1 1 1\nend\n", "no syntax\n"),
    ("end\r\r\n", "no syntax\n"),
    ("tx 01 1 1\nend\n", "no syntax\n"),
    ("tx 1 -0 1\nend\n", "no syntax\n"),
    ("tx 1 +1 1\nend\n", "no syntax\n"),
    ("tx x 1 1\nend\n", "no syntax\n"),
    ("tx 18446744073709551616 1 1\nend\n", "no syntax\n"),
    ("tx 1 9223372036854775808 1\nend\n", "no syntax\n"),
    (
        "tx 1 1 1\nchunk 1 18446744073709551616 1\nend\n",
        "no syntax\n",
    ),
    (
        "tx 1 1 1\nchunk -1000000000000000000000000000001 1 1\nend\n",
        "no syntax\n",
    ),
    (
        "tx 1 1 1\nchunk 1 1 1 18446744073709551616\nend\n",
        "no syntax\n",
    ),
    (
        "tx 1 1 1\nchunk 1 1 1\nflow 1 1 1000000000000000000000000000001\nend\n",
        "no syntax\n",
    ),
    ("tx 1 1 1\nflow 1 1 1\nchunk 1 1 1\nend\n", "no syntax\n"),
    (
        "tx 1 1 1\nchunk 1 1 1\ntx 2 1 1\nchunk 1 1 2\nend\n",
        "no syntax\n",
    ),
    (
        "tx 1 1 1\ntx 2 1 1\nchunk 2 2 1 2\nedge 1 2\nend\n",
        "no syntax\n",
    ),
    ("tx 1 1 1\nchunk 1 1 1\n", "no syntax\n"),
];

fn texts() -> &'static [Row] {
    &TEXTS
}

/// Compares what `check` says of a text.
fn checks(
    rt: &impl Abort,
    alloc: Global,
    text: &str,
    way: Way,
    wanted: (Status, &str),
) -> Result<(), Fail> {
    shows(rt, alloc, &["txgraph", "check"], text, way, wanted)
}

#[test]
fn a_text_is_a_certificate_or_the_first_fault_is_told(rt: HostRuntime) -> Result<(), Fail> {
    check_accepts_proofs::<MemSink>();
    for (text, said) in texts() {
        let wanted = if *said == "yes\n" {
            Status::Done
        } else {
            Status::No
        };
        let way = Way {
            given: 7,
            taken: 3,
            ..even(1)
        };
        checks(&rt, rt.alloc(), text, way, (wanted, said))?;
    }
    Ok(())
}

// Without its end nothing is said of a text, and past a full sink no more.
#[test]
fn a_check_ends_at_a_fault(rt: HostRuntime) -> Result<(), Fail> {
    let failing = Way {
        failing_read: Some(2),
        ..even(7)
    };
    checks(&rt, rt.alloc(), "end\n", failing, (Status::ReadFault, ""))?;
    let full = Way {
        given: 7,
        sink_stop: 2,
        ..even(1)
    };
    let wanted = (Status::WriteFault, "ye");
    checks(&rt, rt.alloc(), "end\n", full, wanted)
}
