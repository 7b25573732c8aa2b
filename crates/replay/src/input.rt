ghost use Rattle.std.specs.Prelude.{◌≡◌, IfOk, OnErr};
ghost use Rattle.replay.specs.Inputs.{ReadsTo, ReadFaults};

use crate::window::MAX_READ;
use graph_model::MAX_INPUT;
use outside::{NoMemory, Source};
use std::alloc::Global;

/// How reading ended.
#[derive(Clone, Copy)]
pub(crate) enum End {
    /// The source answered its end.
    Told,
    /// A read failed.
    Fault,
    /// A byte past the limit came.
    Limit,
}

/// What was read, within the limit.
#[derive(Drop)]
pub(crate) struct Input {
    pub(crate) bytes: Vec<u8>,
    pub(crate) end: End,
}

/// Reads a source to its end, to the first read that fails, or past the limit. Want of memory comes only where no
/// read failed.
pub(crate) fn read_input<S: Source>(alloc: Global, source: &mut S) -> Result<Input, NoMemory>
    ensures reads { IfOk result (λ input. ReadsTo input.end (S.left source.old) (S.left source.new) input.bytes.items) }
    ensures faults { IfOk result (λ input. ReadFaults input.end (S.faults source.old) (S.faults source.new)) }
    ensures memory { OnErr result (S.faults source.new ≡ S.faults source.old) }
{
    let mut bytes = Vec::new(alloc);
    let mut chunk = [0; MAX_READ];
    while bytes.len() <= MAX_INPUT {
        match source.read(&mut chunk) {
            Ok(0) => return Ok(read(bytes, End::Told)),
            Ok(count) => bytes.extend_from_slice(&chunk[..count])?,
            Err(_) => return Ok(read(bytes, End::Fault)),
        }
    }
    bytes.truncate(MAX_INPUT);
    Ok(read(bytes, End::Limit))
}

/// What was read, and how it ended.
fn read(bytes: Vec<u8>, end: End) -> Input
    ensures { result ≡ record { bytes = bytes; end = end } }
{
    Input { bytes, end }
}
