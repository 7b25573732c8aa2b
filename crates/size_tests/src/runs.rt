//! Runs of the program whose output is compared.
use outside::{MemSink, MemSource};
use replay::{Status, run};
use std::alloc::{AllocError, Global};
use std::process::Abort;
use std::test::Fail;

/// How many bytes a source gives, and a sink takes, at a time.
const PIECE: usize = 4_096;

/// Lines, and their replies.
#[derive(Drop)]
pub struct Script {
    pub input: String,
    pub output: String,
}

/// Lines and replies, to which more are added.
pub fn begun(alloc: Global, line: &str, reply: &str) -> Result<Script, AllocError> {
    Ok(Script {
        input: format!(in alloc; "{line}\n")?,
        output: format!(in alloc; "{reply}\n")?,
    })
}

/// Adds a line and its reply.
pub fn tell(script: &mut Script, line: &str, reply: &str) -> Result<(), AllocError> {
    script.input.push_str(line)?;
    script.input.push('\n')?;
    script.output.push_str(reply)?;
    script.output.push('\n')
}

/// The status of a run. No test needs more of its contract.
fn played(alloc: Global, words: &[String], source: &mut MemSource, sink: &mut MemSink) -> Status {
    run(alloc, words, source, sink)
}

/// Runs a word of the program on these bytes, and compares the status and what is written.
pub fn shows(
    rt: &impl Abort,
    alloc: Global,
    word: &str,
    input: &[u8],
    wanted: (Status, &str),
) -> Result<(), Fail> {
    let words = [
        format!(in alloc; "txgraph")?,
        String::from_str(alloc, word)?,
    ];
    let mut source = MemSource::new(alloc, input, PIECE, &[], None)?;
    let mut sink = MemSink::new(alloc, PIECE, &[], wanted.1.len())?;
    assert!(rt; played(alloc, &words, &mut source, &mut sink) == wanted.0);
    assert!(rt; sink.written() == wanted.1.as_bytes());
    Ok(())
}

/// Runs `replay` on the lines, and compares the replies.
pub fn answers(rt: &impl Abort, alloc: Global, script: &Script) -> Result<(), Fail> {
    let input = script.input.as_bytes();
    shows(rt, alloc, "replay", input, (Status::Done, &script.output))
}
