ghost use Rattle.std.specs.Prelude.{◌≡◌, ◌<◌};

use outside::{Failed, MemSink, MemSource, NoMemory};
use replay::{Lines, Next, Outcome, Piece, Session, Status, run};
use std::alloc::{AllocError, Global};
use std::process::Abort;
use std::test::Fail;

/// How the bytes of a run come and go.
#[derive(Clone, Copy, Debug)]
pub struct Way {
    /// how many bytes the source gives at a time
    pub given: usize,
    /// how many the source gives before it fails, if it does
    pub source_stop: Option<usize>,
    /// which read is the one that fails first, if one does
    pub failing_read: Option<u64>,
    /// how many bytes the sink takes at a time
    pub taken: usize,
    /// how many the sink takes before it fails
    pub sink_stop: usize,
}

/// No fault, and so many bytes at a time on both sides.
pub fn even(piece: usize) -> Way {
    Way {
        given: piece,
        source_stop: None,
        failing_read: None,
        taken: piece,
        sink_stop: 4096,
    }
}

/// The words of a command line.
fn words(alloc: Global, words: &[&str]) -> Result<Vec<String>, AllocError> {
    let mut all = Vec::new(alloc);
    for word in words {
        all.push(String::from_str(alloc, word)?)?;
    }
    Ok(all)
}

/// A source of an input.
fn source_of(alloc: Global, input: &str, way: Way) -> Result<MemSource, NoMemory>
    requires { 0 < way.given }
{
    match way.failing_read {
        Some(at) => MemSource::new(alloc, input.as_bytes(), way.given, &[at], way.source_stop),
        None => MemSource::new(alloc, input.as_bytes(), way.given, &[], way.source_stop),
    }
}

/// The status of a run. No test needs more of its contract, which would cost each of them its proof.
fn played(alloc: Global, words: &[String], source: &mut MemSource, sink: &mut MemSink) -> Status {
    run(alloc, words, source, sink)
}

/// Runs a command on an input, and compares its status and what it writes.
pub fn shows(
    rt: &impl Abort,
    alloc: Global,
    command: &[&str],
    input: &str,
    way: Way,
    wanted: (Status, &str),
) -> Result<(), Fail> {
    assert!(rt; way.given > 0);
    assert!(rt; way.taken > 0);
    let words = words(alloc, command)?;
    let mut source = source_of(alloc, input, way)?;
    let mut sink = MemSink::new(alloc, way.taken, &[], way.sink_stop)?;
    let status = played(alloc, &words, &mut source, &mut sink);
    assert_eq!(rt; status, wanted.0, "at {input:?}");
    assert_eq!(rt; sink.written(), wanted.1.as_bytes(), "at {input:?}");
    Ok(())
}

/// The same of `replay`.
pub fn replays(
    rt: &impl Abort,
    alloc: Global,
    input: &str,
    way: Way,
    wanted: (Status, &str),
) -> Result<(), Fail> {
    shows(rt, alloc, &["txgraph", "replay"], input, way, wanted)
}

/// An input and what is written of it.
pub type Row = (&'static str, &'static str);

/// Inputs of `replay` with their outputs.
const RUNS: [Row; 16] = [
    ("", ""),
    ("add 1 1000 200\n", "ok\n"),
    (
        "add 1 1 1\nadd 2 1 1\nadd 3 1 1\ndep 1 2\ndep 2 1\ndep 1 1\ndep 1 3\ndep 2 3\ndescendants 1 main\n",
        "ok\nok\nok\nok\nrefused cycle\nrefused cycle\nok\nok\nids 1 2 3\n",
    ),
    (
        "add 1 1 404001\nadd 2 1 404000\nadd 3 1 1\ndep 2 3\nancestors 9 top\ncount top\n",
        "refused clustersize 404001\nok\nok\nrefused clustersize 404001\nrefused unknown 9\ncount 2\n",
    ),
    ("# c\n\nadd 1 5 5\r\ncount main", "ok\ncount 1\n"),
    (
        "add 1 2100000000000000 1\nadd 2 -2100000000000000 404000\nadd 3 2100000000000001 1\n\
         add 3 -2100000000000001 1\nadd 4 0 0\nadd 5 0 4000001\nadd 1 0 1\n",
        "ok\nok\nrefused fee\nrefused fee\nrefused size\nrefused size\nrefused taken\n",
    ),
    (
        "add 18446744073709551615 9223372036854775807 18446744073709551615\nadd 18446744073709551616 0 1\n\
         add 1 9223372036854775808 1\nadd 1 -9223372036854775808 1\nadd 1 -9223372036854775809 1\n",
        "refused fee\nrefused syntax\nrefused syntax\nrefused fee\nrefused syntax\n",
    ),
    (
        "add 1 01 1\nadd 1 -0 1\nadd  1 1 1\nadd 1 1 1 \nadd 1 +1 1\nadd 1 1\nadd\n add 1 1 1\ncount bottom\ncount main\r\r\n",
        "refused syntax\nrefused syntax\nrefused syntax\nrefused syntax\nrefused syntax\n\
         refused syntax\nrefused syntax\nrefused syntax\nrefused syntax\nrefused syntax\n",
    ),
    (
        "add 7 1 1\nadd 5 1 1\nadd 6 1 1\ndep 7 6\ndep 6 5\nancestors 5 main\ndescendants 7 top\nancestors 7 main\ndep 7 5\ndep 8 5\ndep 5 8\n",
        "ok\nok\nok\nok\nok\nids 5 6 7\nids 5 6 7\nids 7\nok\nrefused unknown 8\nrefused unknown 8\n",
    ),
    (
        "add 1 1 1\nadd 2 1 1\nadd 3 1 1\ndep 1 2\ndep 2 3\nremove 2\nancestors 3 top\nremove 1\ncluster 3 top\n",
        "ok\nok\nok\nok\nok\nok\nids 1 3\nok\nids 3\n",
    ),
    (
        "limits 2 1000 10\nadd 1 1 1\nadd 2 1 1\nadd 3 1 1\ndep 1 2\ndep 2 3\ndep 1 2\n",
        "ok\nok\nok\nok\nok\nrefused count 3\nok\n",
    ),
    (
        "limits 129 1 1\nlimits 64 404000 1\nlimits 64 404000 2\nadd 1 1 1\nadd 2 1 1\nremove 1\nadd 2 1 1\n",
        "refused range\nok\nrefused late\nok\nrefused full\nok\nok\n",
    ),
    (
        "limits 64 512000001 1\nlimits 128 512000000 1\n",
        "refused range\nok\n",
    ),
    (
        "add 1 1 1\nadd 2 1 1\nadd 3 1 1\ndep 1 2\ndep 2 3\ndep 1 3\ncluster 1 main\nremove 2\ncluster 1 main\ndescendants 1 top\nremove 2\n",
        "ok\nok\nok\nok\nok\nok\nids 1 2 3\nok\nids 1 3\nids 1 3\nrefused unknown 2\n",
    ),
    (
        "add 1 1 1\nfee 1 2100000000000000\nfee 1 2100000000000001\nfee 9 -2100000000000001\nfee 9 5\nfee 1 -0\n\
         fee 1 5 5\nlimits 64 404000 0\nremove 01\nremove main\ncluster 1\ncluster 9 main\nlimits 64 1 1 1\n",
        "ok\nok\nrefused fee\nrefused fee\nrefused unknown 9\nrefused syntax\nrefused syntax\n\
         refused late\nrefused syntax\nrefused syntax\nrefused syntax\nrefused unknown 9\nrefused syntax\n",
    ),
    (
        "mine\ntrim 1\nunmine 1\ndump 1\nlimits 64 1 defer\nblock 1 1\nevict 1\n",
        "refused syntax\nrefused syntax\nrefused syntax\nrefused syntax\nrefused syntax\nrefused syntax\nrefused syntax\n",
    ),
];

/// Inputs of `replay` that take transactions out of main, or pick some for a block, with their outputs.
const BLOCKS: [Row; 7] = [
    (
        "evict\nadd 1 10 1\nadd 2 1 1\nevict\ncount main\n",
        "refused empty\nok\nok\nevicted 1 1 2\ncount 1\n",
    ),
    (
        "add 1 100 100\nadd 2 90 50\nadd 3 30 60\nblock 110\nblock 0\n",
        "ok\nok\nok\nblock 120 110 2 3\nblock 0 0\n",
    ),
    (
        "add 1 100 100\nadd 2 1 10\ndep 1 2\nblock 50\n",
        "ok\nok\nok\nblock 0 0\n",
    ),
    (
        "add 1 5 5\nadd 2 5 5\ndep 1 2\nmine 2\nmine 1 1\nmine 1\nancestors 2 main\n",
        "ok\nok\nok\nrefused parent 2\nrefused twice 1\nok\nids 2\n",
    ),
    (
        "limits 64 10 10\nadd 1 1 6\nadd 2 1 11\nadd 3 1 5\ndep 1 3\nfee 8 1\ndep 9 8\nstage\nevict\nmine 1\n",
        "ok\nok\nrefused clustersize 11\nok\nrefused clustersize 11\nrefused unknown 8\nrefused unknown 9\nok\nrefused staging\nrefused staging\n",
    ),
    (
        "add 1 5 5\nadd 2 5 5\nadd 3 5 5\ndep 1 2\ndep 2 3\nmine 2 1\nancestors 3 main\nmine 9\nstage\nblock 5\n",
        "ok\nok\nok\nok\nok\nok\nids 3\nrefused unknown 9\nok\nblock 5 5 3\n",
    ),
    (
        "mine 1 2 1 2\nadd 1 2100000000000000 1\nadd 2 -2100000000000000 1\nadd 3 2100000000000000 1\nblock 2\nevict\nblock 18446744073709551615\nlimits 64 1 1\n",
        "refused twice 1\nok\nok\nok\nblock 4200000000000000 2 1 3\nevicted -2100000000000000 1 2\nblock 4200000000000000 2 1 3\nrefused late\n",
    ),
];

/// Inputs of `replay` whose dependencies may pass the limits, with their outputs.
const OVERSIZED: [Row; 10] = [
    (
        "limits 2 1000 10 defer\nadd 1 3 1\nadd 2 2 1\nadd 3 1 1\ndep 1 2\ndep 2 3\ndep 1 3\norder main\ncount main\n\
         ancestors 3 main\ncluster 9 top\nevict\nremove 3\norder main\n",
        "ok\nok\nok\nok\nok\nok\nok\nrefused oversized\ncount 3\nrefused oversized\nrefused unknown 9\nrefused oversized\n\
         ok\nchunk 3 1 1\nchunk 2 1 2\nend\n",
    ),
    (
        "limits 2 1000 10 defer\nadd 1 1 1\nadd 2 1 1\nstage\nadd 3 1 1\ndep 1 2\ndep 2 3\ndep 3 1\ncompare\nsettle\n\
         block 9\nabort\ndiagram main\n",
        "ok\nok\nok\nok\nok\nok\nok\nrefused cycle\nrefused oversized\nrefused oversized\nblock 2 2 1 2\nok\n\
         point 0 0\npoint 2 2\nend\n",
    ),
    (
        "limits 2 9 10 defer\nadd 1 1 10\nadd 1 5 5\nadd 2 5 4\ndep 1 2\ndiagram main\nadd 3 1 1\ndep 3 1\ndiagram main\n\
         proof top\ndescendants 1 top\nchunk 9\nchunk 1\nbefore 1 9\nbefore 1 2\nblock 9\nlimits 64 9 9\n",
        "ok\nrefused clustersize 10\nok\nok\nok\npoint 0 0\npoint 9 10\nend\nok\nok\nrefused oversized\n\
         refused oversized\nrefused oversized\nrefused unknown 9\nrefused oversized\nrefused unknown 9\nrefused oversized\n\
         refused oversized\nrefused late\n",
    ),
    (
        "limits 2 9 10 defer\nadd 1 5 5\nadd 2 5 5\ndep 1 2\ncluster 1 main\nfee 2 7\nstage\nevict\nabort\nmine 2\nmine 1\ncluster 2 top\nproof main\n",
        "ok\nok\nok\nok\nrefused oversized\nok\nok\nrefused staging\nok\nrefused parent 2\nok\nids 2\n\
         tx 2 7 5\nchunk 7 5 2\nend\n",
    ),
    (
        "limits 3 100 10 defer\nadd 1 1 1\nadd 2 2 1\nadd 3 3 1\nadd 4 4 1\ndep 1 2\ndep 2 3\nstage\ndep 3 4\norder top\norder main\n\
         commit\norder main\nstage\nremove 4\nsettle\nabort\nstage\nremove 1\ncommit\norder main\n",
        "ok\nok\nok\nok\nok\nok\nok\nok\nok\nrefused oversized\nchunk 4 1 4\nchunk 6 3 1 2 3\nend\n\
         ok\nrefused oversized\nok\nok\nrefused oversized\nok\nok\nok\nok\nchunk 9 3 2 3 4\nend\n",
    ),
    (
        "limits 129 1 1 defer\nlimits 1 1 1  defer\nlimits 1 1 1 defer defer\nlimits 1 1 1 DEFER\nlimits 1 1 1 defer\nlimits 1 1 2\n\
         add 1 0 1\nadd 2 0 1\nlimits 1 1 1 defer\n",
        "refused range\nrefused syntax\nrefused syntax\nrefused syntax\nok\nrefused late\nok\nrefused full\nrefused late\n",
    ),
    (
        "limits 2 1000 10 defer\nadd 1 1 1\nadd 2 5 1\nadd 3 3 1\ndep 1 2\ndep 1 3\ntrim\norder top\n",
        "ok\nok\nok\nok\nok\nok\ntrimmed 3 1 3\nchunk 6 2 1 2\nend\n",
    ),
    (
        "limits 2 1000 10 defer\nadd 1 9 1\nadd 2 8 1\nadd 3 7 1\nadd 4 6 1\ndep 1 2\ndep 2 3\ndep 3 4\ntrim\ncount top\n",
        "ok\nok\nok\nok\nok\nok\nok\nok\ntrimmed 13 2 3 4\ncount 2\n",
    ),
    (
        "trim\nlimits 64 9 9\nadd 1 1 1\ntrim\ncount main\n",
        "trimmed 0 0\nrefused late\nok\ntrimmed 0 0\ncount 1\n",
    ),
    (
        "limits 2 9 9 defer\nadd 1 -4 4\nadd 2 3 4\nadd 3 3 4\nstage\ndep 1 2\ndep 1 3\nproof main\ntrim\norder main\norder top\ncommit\ntrim\n",
        "ok\nok\nok\nok\nok\nok\nok\ntx 2 3 4\ntx 3 3 4\ntx 1 -4 4\nchunk 3 4 2\nchunk 3 4 3\nchunk -4 4 1\nend\n\
         trimmed 3 4 3\nchunk 3 4 2\nchunk 3 4 3\nchunk -4 4 1\nend\nchunk -1 8 1 2\nend\nok\ntrimmed 0 0\n",
    ),
];

/// Inputs of `replay` that ask for the order, with their outputs.
const ORDERS: [Row; 12] = [
    (
        "add 1 1000 200\norder main\n",
        "ok\nchunk 1000 200 1\nend\n",
    ),
    (
        "add 1 100 200\nadd 2 900 200\ndep 1 2\nproof main\nchunk 1\nchunk 3\n",
        "ok\nok\nok\ntx 1 100 200\ntx 2 900 200\nedge 1 2\nchunk 1000 400 1 2\nflow 2 1 160000\nend\nchunk 1000 400 1 2\nrefused unknown 3\n",
    ),
    (
        "add 1 900 200\nadd 2 100 200\ndep 1 2\norder main\n",
        "ok\nok\nok\nchunk 900 200 1\nchunk 100 200 2\nend\n",
    ),
    (
        "add 1 -5 1\nadd 2 9 1\nadd 3 9 1\ndep 1 2\ndep 2 3\ndep 1 3\nproof top\n",
        "ok\nok\nok\nok\nok\nok\ntx 1 -5 1\ntx 2 9 1\ntx 3 9 1\nedge 1 2\nedge 2 3\nchunk 13 3 1 2 3\nflow 2 1 28\nflow 3 2 14\nend\n",
    ),
    (
        "add 1 10 1\nadd 2 1 1\nbefore 1 2\nbefore 2 1\nbefore 2 2\nbefore 1 7\n",
        "ok\nok\nbefore\nafter\nsame\nrefused unknown 7\n",
    ),
    (
        "add 1 1 1\nadd 2 2 1\nfee 1 5\nfee 9 -2100000000000001\norder main\n",
        "ok\nok\nok\nrefused fee\nchunk 5 1 1\nchunk 2 1 2\nend\n",
    ),
    (
        "add 1 0 10\nadd 2 6 5\nadd 3 6 5\nadd 4 5 10\ndep 1 2\ndep 1 3\ndiagram main\n",
        "ok\nok\nok\nok\nok\nok\npoint 0 0\npoint 20 12\npoint 30 17\nend\n",
    ),
    (
        "add 1 1 1\nadd 2 2 2\nadd 3 -5 1\ndiagram top\n",
        "ok\nok\nok\npoint 0 0\npoint 3 3\npoint 4 -2\nend\n",
    ),
    (
        "add 1 2100000000000000 1\nadd 2 -2100000000000000 1\nadd 3 2100000000000001 1\nadd 4 0 0\nadd 5 0 4000001\ndep 2 1\nproof main\n",
        "ok\nok\nrefused fee\nrefused size\nrefused size\nok\ntx 2 -2100000000000000 1\n\
         tx 1 2100000000000000 1\nedge 2 1\nchunk 0 2 2 1\nflow 1 2 4200000000000000\nend\n",
    ),
    (
        "order bottom\norder main\nproof top\ndiagram bottom\ndiagram main\n",
        "refused syntax\nend\nend\nrefused syntax\npoint 0 0\nend\n",
    ),
    (
        "add 1 1 1\nadd 2 1 1\ndep 1 2\norder main\n",
        "ok\nok\nok\nchunk 1 1 1\nchunk 1 1 2\nend\n",
    ),
    (
        "add 1 0 1\nadd 2 2 1\nadd 3 0 1\nadd 4 2 1\ndep 1 2\ndep 1 4\ndep 3 4\norder main\n",
        "ok\nok\nok\nok\nok\nok\nok\nchunk 2 2 1 2\nchunk 2 2 3 4\nend\n",
    ),
];

/// Inputs of `replay` with a staging, with their outputs.
const STAGINGS: [Row; 12] = [
    (
        "add 1 100 200\nstage\nremove 1\nadd 2 500 100\ncompare\nsettle\ncount main\norder main\n",
        "ok\nok\nok\nok\nbetter\ncommitted better\ncount 1\nchunk 500 100 2\nend\n",
    ),
    (
        "add 1 100 100\nstage\nremove 1\nadd 2 150 300\ncompare\nsettle\nancestors 1 main\n",
        "ok\nok\nok\nok\nincomparable\naborted incomparable\nids 1\n",
    ),
    (
        "stage\ncompare\nstage\nabort\ncommit\n",
        "ok\nequal\nrefused staging\nok\nrefused nostaging\n",
    ),
    (
        "add 9 -10 1\nstage\nadd 2 0 1\ncompare\n",
        "ok\nok\nok\nbetter\n",
    ),
    (
        "add 1 9 9\nstage\nremove 1\nadd 1 5 5\nfee 1 7\nabort\nchunk 1\n",
        "ok\nok\nok\nrefused taken\nok\nok\nchunk 7 9 1\n",
    ),
    (
        "add 1 4 2\nstage\nadd 2 9 3\ndep 1 2\norder main\norder top\ndescendants 1 main\ndescendants 1 top\ncommit\ncount main\n",
        "ok\nok\nok\nok\nchunk 4 2 1\nend\nchunk 13 5 1 2\nend\nids 1\nids 1 2\nok\ncount 2\n",
    ),
    (
        "add 1 1 1\nstage\nfee 1 5\norder top\nchunk 1\n",
        "ok\nok\nok\nchunk 5 1 1\nend\nchunk 5 1 1\n",
    ),
    (
        "add 1 1 1\nstage\nremove 1\ncommit\nadd 1 2 2\norder main\n",
        "ok\nok\nok\nok\nok\nchunk 2 2 1\nend\n",
    ),
    (
        "add 1 5 1\nstage\nremove 1\ncompare\nsettle\nfee 1 -5\nstage\nremove 1\nsettle\ncount main\n",
        "ok\nok\nok\nworse\naborted worse\nok\nok\nok\ncommitted better\ncount 0\n",
    ),
    (
        "add 5 50 10\nadd 1 100 100\nstage\nremove 1\nadd 2 150 300\ncompare\nsettle\ncount main\n",
        "ok\nok\nok\nok\nok\nincomparable\naborted incomparable\ncount 2\n",
    ),
    (
        "settle\ncompare\nabort\ncommit\nstage\nlimits 64 404000 2\nsettle top\nsettle\nstage 1\n",
        "refused nostaging\nrefused nostaging\nrefused nostaging\nrefused nostaging\nok\nrefused late\nrefused syntax\naborted equal\nrefused syntax\n",
    ),
    (
        "add 1 100 200\nstage\nadd 2 900 200\ndep 1 2\nproof main\nproof top\ndiagram top\ncluster 2 main\ncount top\n",
        "ok\nok\nok\nok\ntx 1 100 200\nchunk 100 200 1\nend\ntx 1 100 200\ntx 2 900 200\nedge 1 2\n\
         chunk 1000 400 1 2\nflow 2 1 160000\nend\npoint 0 0\npoint 400 1000\nend\nrefused unknown 2\ncount 2\n",
    ),
];

// Tables are lent by functions of their own: a function that names a table proves all its texts.
fn runs() -> &'static [Row] {
    &RUNS
}

fn blocks() -> &'static [Row] {
    &BLOCKS
}

fn oversized() -> &'static [Row] {
    &OVERSIZED
}

fn orders() -> &'static [Row] {
    &ORDERS
}

fn stagings() -> &'static [Row] {
    &STAGINGS
}

/// Compares what `replay` writes of inputs with their outputs.
fn replay_all(rt: &impl Abort, alloc: Global, rows: &[Row], piece: usize) -> Result<(), Fail> {
    for (input, output) in rows {
        replays(rt, alloc, input, even(piece), (Status::Done, output))?;
    }
    Ok(())
}

#[test]
fn replies_are_the_same_whatever_the_pieces(rt: HostRuntime) -> Result<(), Fail> {
    for piece in [1, 2, 4096] {
        replay_all(&rt, rt.alloc(), runs(), piece)?;
    }
    Ok(())
}

#[test]
fn blocks_and_evictions_are_told(rt: HostRuntime) -> Result<(), Fail> {
    replay_all(&rt, rt.alloc(), blocks(), 4096)
}

#[test]
fn oversized_levels_are_told(rt: HostRuntime) -> Result<(), Fail> {
    replay_all(&rt, rt.alloc(), oversized(), 4096)
}

#[test]
fn orders_are_told(rt: HostRuntime) -> Result<(), Fail> {
    replay_all(&rt, rt.alloc(), orders(), 4096)
}

#[test]
fn stagings_are_told(rt: HostRuntime) -> Result<(), Fail> {
    replay_all(&rt, rt.alloc(), stagings(), 4096)
}

/// A source that fails in its third line, and a sink that is full after the first reply.
fn faults(rt: &impl Abort, alloc: Global, piece: usize) -> Result<(), Fail> {
    let stopped = Way {
        source_stop: Some(25),
        ..even(piece)
    };
    let input = "count main\ncount main\ncou";
    let wanted = (Status::ReadFault, "count 0\ncount 0\n");
    replays(rt, alloc, input, stopped, wanted)?;
    let full = Way {
        sink_stop: 3,
        ..even(piece)
    };
    let wanted = (Status::WriteFault, "ok\n");
    replays(rt, alloc, "add 1 1 1\nadd 2 1 1\n", full, wanted)
}

#[test]
fn faults_give_their_status(rt: HostRuntime) -> Result<(), Fail> {
    for piece in [1, 2, 4096] {
        faults(&rt, rt.alloc(), piece)?;
    }
    Ok(())
}

/// Words that are refused.
const REFUSED_WORDS: [&[&str]; 8] = [
    &["txgraph", "replay", "x"],
    &["txgraph"],
    &["txgraph", "load", "x"],
    &["txgraph", "--help"],
    &["txgraph", "gen", "1"],
    &["txgraph", "gen", "1", "4", "4"],
    &["txgraph", "gen", "2147483648", "4"],
    &["txgraph", "gen", "1", "1000001"],
];

fn refused_words() -> &'static [&'static [&'static str]] {
    &REFUSED_WORDS
}

#[test]
fn other_words_are_told_the_usage(rt: HostRuntime) -> Result<(), Fail> {
    let usage = "usage: txgraph replay | check | load | gen SEED COUNT\n";
    for words in refused_words() {
        let wanted = (Status::Usage, usage);
        shows(&rt, rt.alloc(), words, "add 1 1 1\n", even(64), wanted)?;
    }
    Ok(())
}

/// Words of `gen` with the summaries that they ask for.
const GENERATED: [(&[&str], &str); 4] = [
    (
        &["txgraph", "gen", "1", "4"],
        "accepted 1\nrefused 3\nmemory 0\ncount 1\ntotal 2010 319\ncorners 2\n",
    ),
    (
        &["txgraph", "gen", "7", "0"],
        "accepted 0\nrefused 0\nmemory 0\ncount 0\ntotal 0 0\ncorners 1\n",
    ),
    (
        &["txgraph", "gen", "1", "2000"],
        "accepted 1123\nrefused 877\nmemory 0\ncount 706\ntotal 2630108 378626\ncorners 673\n",
    ),
    (
        &["txgraph", "gen", "2147483647", "300"],
        "accepted 166\nrefused 134\nmemory 0\ncount 84\ntotal 332705 44436\ncorners 79\n",
    ),
];

fn generated() -> &'static [(&'static [&'static str], &'static str)] {
    &GENERATED
}

#[test]
fn generated_commands_are_summed_up(rt: HostRuntime) -> Result<(), Fail> {
    for (words, summary) in generated() {
        let wanted = (Status::Done, *summary);
        shows(&rt, rt.alloc(), words, "add 1 1 1\n", even(64), wanted)?;
    }
    Ok(())
}

/// A sink that is full in the second line of a summary.
#[test]
fn a_summary_that_is_cut_off_is_told(rt: HostRuntime) -> Result<(), Fail> {
    let full = Way {
        sink_stop: 15,
        ..even(4)
    };
    let wanted = (Status::WriteFault, "accepted 1\nrefu");
    let words = ["txgraph", "gen", "1", "4"];
    shows(&rt, rt.alloc(), &words, "", full, wanted)
}

#[test]
fn statuses_have_their_numbers(rt: HostRuntime) -> Result<(), Fail> {
    assert_eq!(rt; Status::Done.code(), 0);
    assert_eq!(rt; Status::No.code(), 1);
    assert_eq!(rt; Status::Usage.code(), 2);
    assert_eq!(rt; Status::ReadFault.code(), 3);
    assert_eq!(rt; Status::WriteFault.code(), 4);
    Ok(())
}

/// A line of 65,537 bytes, one of 65,536, and a command.
fn long_lines(alloc: Global) -> Result<String, AllocError> {
    let mut input = String::new(alloc);
    for at in 0..131_073 {
        input.push(if at == 65_537 { '\n' } else { 'x' })?;
    }
    input.push_str("x\ncount main\n")?;
    Ok(input)
}

#[test]
fn a_line_has_at_most_65536_bytes(rt: HostRuntime) -> Result<(), Fail> {
    let input = long_lines(rt.alloc())?;
    for piece in [1, 2, 4096] {
        let wanted = "refused line\nrefused syntax\ncount 0\n";
        replays(&rt, rt.alloc(), &input, even(piece), (Status::Done, wanted))?;
    }
    Ok(())
}

/// Four lines.
fn four() -> &'static str {
    "add 1 100 200\nadd 2 900 200\ndep 1 2\nproof main\n"
}

/// Their replies.
fn four_replies() -> &'static str {
    "ok\nok\nok\ntx 1 100 200\ntx 2 900 200\nedge 1 2\nchunk 1000 400 1 2\nflow 2 1 160000\nend\n"
}

/// The first so many bytes of the replies.
fn front(rt: &impl Abort, stop: usize) -> &'static str {
    four_replies()
        .split_at_checked(stop)
        .expect(rt, "the replies are of ASCII")
        .0
}

#[test]
fn a_sink_that_stops_has_a_front_of_the_replies(rt: HostRuntime) -> Result<(), Fail> {
    for stop in 0..four_replies().len() {
        let way = Way {
            sink_stop: stop,
            ..even(1)
        };
        let wanted = (Status::WriteFault, front(&rt, stop));
        replays(&rt, rt.alloc(), four(), way, wanted)?;
    }
    let way = Way {
        sink_stop: four_replies().len(),
        ..even(1)
    };
    replays(&rt, rt.alloc(), four(), way, (Status::Done, four_replies()))
}

/// For the stops of a source over the four lines, the last of each range and the length of the replies by then.
const STOPS: [(usize, usize); 5] = [(13, 0), (27, 3), (35, 6), (46, 9), (47, 83)];

#[test]
fn a_source_that_stops_has_its_complete_lines_answered(rt: HostRuntime) -> Result<(), Fail> {
    let mut stop = 0;
    for (last, length) in &STOPS {
        for at in stop..=*last {
            let way = Way {
                source_stop: Some(at),
                ..even(1)
            };
            let wanted = (Status::ReadFault, front(&rt, *length));
            replays(&rt, rt.alloc(), four(), way, wanted)?;
        }
        stop = *last + 1;
    }
    let way = Way {
        failing_read: Some(1),
        ..even(1)
    };
    replays(&rt, rt.alloc(), four(), way, (Status::ReadFault, ""))
}

/// Adds a name for a sink that takes nothing, and counts the names for one that does.
fn adds_and_counts(rt: &impl Abort, alloc: Global, session: &mut Session<2>) -> Result<(), Fail>
    requires { session.old.graph.levels.issued ≡ 0 }
{
    let mut broken = MemSink::new(alloc, 1, &[], 0)?;
    assert_eq!(rt;
        session.one(Piece::Whole(b"add 1 1 1"), &mut broken),
        Err(Failed)
    );
    let mut sink = MemSink::new(alloc, 64, &[], 64)?;
    assert_eq!(rt;
        session.one(Piece::Whole(b"count main"), &mut sink),
        Ok(Outcome::Accepted)
    );
    assert_eq!(rt; sink.written(), b"count 1\n".as_slice());
    Ok(())
}

#[test]
fn a_line_has_made_its_step_where_its_reply_failed(rt: HostRuntime) -> Result<(), Fail> {
    let alloc = rt.alloc();
    let mut session = Session::<2>::new(alloc)?;
    let done = adds_and_counts(&rt, alloc, &mut session);
    session.close();
    done
}

#[test]
fn lines_are_cut_whatever_the_pieces(rt: HostRuntime) -> Result<(), Fail> {
    let alloc = rt.alloc();
    for piece in [1, 2, 4096] {
        let mut source = MemSource::new(alloc, b"a\n\nbc", piece, &[], None)?;
        let mut lines = Lines::new(alloc)?;
        for wanted in [b"a".as_slice(), b"".as_slice(), b"bc".as_slice()] {
            match lines.next(&mut source) {
                Next::Line(Piece::Whole(line)) => assert_eq!(rt; line, wanted),
                _ => assert!(rt; false, "a line is left"),
            }
        }
        assert!(rt; matches!(lines.next(&mut source), Next::End));
    }
    Ok(())
}
