ghost use Rattle.std.specs.Prelude.{◌≡◌, ◌<◌, ◌≤◌, ◌-◌, ◌↔◌, Some, IfOk, OnErr, IsErr, IsTrue, drop, length};
ghost use Rattle.std.specs.Io.{ReadsAtMost};
ghost use Rattle.std.specs.Io.KnownBytes.{ReadConsumes};
ghost use Rattle.outside.specs.Faults.{CountsFaults};

use crate::source::copy_front;
use crate::{Failed, NoMemory, Source};
use std::alloc::Global;
use std::marker::Model;

/// A source over memory, for tests: it gives its bytes in pieces and fails where it was told to.
#[derive(Drop)]
pub struct MemSource {
    bytes: Vec<u8>,
    at: usize,
    piece: usize,
    calls: Vec<u64>,
    stop: Option<usize>,
    made: u64,
    faults: u64,
}

impl Model for MemSource {
    ghost use Rattle.std.specs.Prelude.{◌≤◌, ◌<◌, length};
    ghost use Rattle.outside.specs.Memory.{Feed};

    ghost Value = { Feed };

    ghost view = { λ a. record { bytes = a.bytes.items; at = a.at; piece = a.piece; calls = a.calls.items; stop = a.stop; made = a.made; faults = a.faults } };

    ghost invariant = { λ a. (a.at ≤ length a.bytes.items) × (0 < a.piece) };
}

impl MemSource {
    ghost use Rattle.outside.specs.Memory.{Feed, Fails, end_at};

    /// A source that gives a copy of `bytes`, at most `piece` of them in a call. It fails at the
    /// calls whose numbers are in `calls`, counted from 1, and where `stop` is a place, at every
    /// call from that place on; no byte past it is given.
    pub fn new(
        alloc: Global,
        bytes: &[u8],
        piece: usize,
        calls: &[u64],
        stop: Option<usize>,
    ) -> Result<MemSource, NoMemory>
        requires { 0 < piece }
        ensures { IfOk result (λ source. source ≡ record
            { bytes = bytes.now; at = 0; piece = piece; calls = calls.now; stop = stop; made = 0; faults = 0 }) }
    {
        Ok(MemSource {
            bytes: Vec::from_slice(alloc, bytes)?,
            at: 0,
            piece,
            calls: Vec::from_slice(alloc, calls)?,
            stop,
            made: 0,
            faults: 0,
        })
    }

    /// Where nothing more is given.
    fn end(&self) -> usize
        ensures { result ≡ end_at self.now.stop self.now.bytes }
    {
        match self.stop {
            Some(stop) => stop.min(self.bytes.len()),
            None => self.bytes.len(),
        }
    }

    /// Whether the call that is counted last fails.
    fn fails(&self) -> bool
        ensures { IsTrue result ↔ Fails self.now self.now.made }
    {
        if let Some(stop) = self.stop
            && stop <= self.at
        {
            return true;
        }
        self.calls.contains(&self.made)
    }
}

impl Source for MemSource {
    ghost use Rattle.std.specs.Prelude.{Some, drop};
    ghost use Rattle.outside.specs.Memory.{FailsNext, given, after_giving, after_failing};

    ghost left = { λ source. Some (drop source.at source.bytes) };

    ghost faults = { λ source. source.faults };

    fn read(&mut self, buf: &mut [u8]) -> Result<usize, Failed>
        ensures bound { ReadsAtMost result buf.new }
        ensures bytes { ReadConsumes (Some (drop self.old.at self.old.bytes))
            (Some (drop self.new.at self.new.bytes)) result buf.new }
        ensures cause { CountsFaults self.old.faults self.new.faults result }
        ensures fails { IsErr result ↔ FailsNext self.old }
        ensures gives { IfOk result (λ count. count ≡ given self.old (length buf.old)) }
        ensures ok { IfOk result (λ count. self.new ≡ after_giving self.old count) }
        ensures failed { OnErr result (self.new ≡ after_failing self.old) }
    {
        self.made = self.made.saturating_add(1);
        if self.fails() {
            self.faults = self.faults.saturating_add(1);
            return Err(Failed);
        }
        let left = self.end().saturating_sub(self.at);
        let (_, rest) = self.bytes.split_at(self.at);
        let count = copy_front(rest, buf, self.piece.min(left));
        self.at += count;
        Ok(count)
    }
}
