use outside::{MemSink, MemSource};
use replay::{Status, run};
use std::alloc::{AllocError, Global};
use std::process::Abort;
use std::test::Fail;

/// A chain of 65 names under these limits, each of which pays its own number, and then these lines.
fn chain(alloc: Global, limits: &str, asked: &str) -> Result<String, AllocError> {
    let mut input = format!(in alloc; "{limits}\n")?;
    for id in 1..66 {
        input.push_str(&format!(in alloc; "add {id} {id} 1\n")?)?;
    }
    for parent in 1..65 {
        let child = parent + 1;
        input.push_str(&format!(in alloc; "dep {parent} {child}\n")?)?;
    }
    input.push_str(asked)?;
    Ok(input)
}

/// So many accepted lines, and then these replies.
fn accepted(alloc: Global, lines: usize, rest: &str) -> Result<String, AllocError> {
    let mut replies = String::new(alloc);
    for _ in 0..lines {
        replies.push_str("ok\n")?;
    }
    replies.push_str(rest)?;
    Ok(replies)
}

/// How many names there are, and their order where they are one chunk: the names of a range, after its fee and size.
fn one_chunk(alloc: Global, head: &str, first: u64, end: u64) -> Result<String, AllocError> {
    let mut replies = String::from_str(alloc, head)?;
    for id in first..end {
        replies.push_str(&format!(in alloc; " {id}")?)?;
    }
    replies.push_str("\nend\n")?;
    Ok(replies)
}

/// Runs `replay` on an input, and compares what it writes.
fn replays(rt: &impl Abort, alloc: Global, input: &str, wanted: &str) -> Result<(), Fail> {
    let words = [format!(in alloc; "txgraph")?, format!(in alloc; "replay")?];
    let mut source = MemSource::new(alloc, input.as_bytes(), 4096, &[], None)?;
    let mut sink = MemSink::new(alloc, 4096, &[], 4096)?;
    assert!(rt; run(alloc, &words, &mut source, &mut sink) == Status::Done);
    assert_eq!(rt; sink.written(), wanted.as_bytes());
    Ok(())
}

#[test]
fn a_cluster_may_have_65_names(rt: HostRuntime) -> Result<(), Fail> {
    let alloc = rt.alloc();
    let input = chain(alloc, "limits 65 404000 1000", "count main\norder main\n")?;
    let order = one_chunk(alloc, "count 65\nchunk 2145 65", 1, 66)?;
    replays(&rt, alloc, &input, &accepted(alloc, 130, &order)?)
}

#[test]
fn a_limit_of_64_names_refuses_the_65th(rt: HostRuntime) -> Result<(), Fail> {
    let alloc = rt.alloc();
    let input = chain(
        alloc,
        "limits 64 404000 1000",
        "count main\nancestors 65 main\n",
    )?;
    let replies = accepted(alloc, 129, "refused count 65\ncount 65\nids 65\n")?;
    replays(&rt, alloc, &input, &replies)
}

// The chain gets another fee, goes down to 64 names and grows again.
#[test]
fn a_cluster_goes_below_65_names_and_back(rt: HostRuntime) -> Result<(), Fail> {
    let alloc = rt.alloc();
    let input = chain(
        alloc,
        "limits 128 404000 1000",
        "fee 65 1\nremove 1\nadd 66 9 1\ndep 65 66\nadd 67 1000 1\ndep 66 67\ncount main\norder main\n",
    )?;
    let order = one_chunk(alloc, "count 66\nchunk 3089 66", 2, 68)?;
    replays(&rt, alloc, &input, &accepted(alloc, 136, &order)?)
}
