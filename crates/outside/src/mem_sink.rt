ghost use Rattle.std.specs.Prelude.{◌≡◌, ◌<◌, ◌≤◌, ◌-◌, ◌↔◌, [], Some, IfOk, OnErr, IsErr, length};
ghost use Rattle.std.specs.Io.KnownBytes.{WriteAppends};
ghost use Rattle.outside.specs.Faults.{CountsFaults};
ghost use Rattle.outside.specs.Transfers.{TakesSome};

use crate::{Failed, NoMemory, Sink};
use std::alloc::Global;
use std::marker::Model;

/// A sink over memory, for tests: it takes bytes in pieces and fails where it was told to.
#[derive(Drop)]
pub struct MemSink {
    bytes: Vec<u8>,
    piece: usize,
    calls: Vec<u64>,
    stop: usize,
    made: u64,
    faults: u64,
}

impl Model for MemSink {
    ghost use Rattle.std.specs.Prelude.{◌≤◌, ◌<◌, length, vec_capacity};
    ghost use Rattle.outside.specs.Memory.{Store};

    ghost Value = { Store };

    ghost view = { λ a. record { bytes = a.bytes.items; piece = a.piece; calls = a.calls.items; stop = a.stop; made = a.made; faults = a.faults } };

    ghost invariant = { λ a. (length a.bytes.items ≤ a.stop) × (a.stop ≤ vec_capacity a.bytes) × (0 < a.piece) };
}

impl MemSink {
    ghost use Rattle.outside.specs.Memory.{Store};

    /// A sink that takes at most `piece` bytes in a call. It fails at the calls whose numbers are
    /// in `calls`, counted from 1, and at every call once it holds `stop` bytes. Room for that
    /// many is taken here, so no write takes memory.
    pub fn new(alloc: Global, piece: usize, calls: &[u64], stop: usize) -> Result<MemSink, NoMemory>
        requires { 0 < piece }
        ensures { IfOk result (λ sink. sink ≡ record
            { bytes = []; piece = piece; calls = calls.now; stop = stop; made = 0; faults = 0 }) }
    {
        Ok(MemSink {
            bytes: Vec::with_capacity(alloc, stop)?,
            piece,
            calls: Vec::from_slice(alloc, calls)?,
            stop,
            made: 0,
            faults: 0,
        })
    }

    /// What was taken so far.
    pub fn written(&self) -> &[u8]
        ensures { result.now ≡ self.now.bytes }
    {
        self.bytes.as_slice()
    }
}

impl Sink for MemSink {
    ghost use Rattle.std.specs.Prelude.{Some};
    ghost use Rattle.outside.specs.Memory.{RefusesNext, accepted, after_taking, after_refusing};

    ghost written = { λ sink. Some sink.bytes };

    ghost faults = { λ sink. sink.faults };

    fn write(&mut self, piece: &[u8]) -> Result<usize, Failed>
        ensures bound { TakesSome result piece.now }
        ensures bytes { WriteAppends (Some self.old.bytes) (Some self.new.bytes) result piece.now }
        ensures cause { CountsFaults self.old.faults self.new.faults result }
        ensures fails { IsErr result ↔ RefusesNext self.old }
        ensures takes { IfOk result (λ count. count ≡ accepted self.old (length piece.now)) }
        ensures ok { IfOk result (λ count. self.new ≡ after_taking self.old piece.now count) }
        ensures failed { OnErr result (self.new ≡ after_refusing self.old) }
    {
        self.made = self.made.saturating_add(1);
        let held = self.bytes.len();
        if held >= self.stop || self.calls.contains(&self.made) {
            self.faults = self.faults.saturating_add(1);
            return Err(Failed);
        }
        let count = piece.len().min(self.piece.min(self.stop - held));
        match self.bytes.extend_from_slice(&piece[..count]) {
            Ok(()) => Ok(count),
            Err(_) => unreachable!(),
        }
    }
}
