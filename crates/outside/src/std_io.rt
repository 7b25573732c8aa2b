ghost use Rattle.std.specs.Prelude.{◌≡◌, None, IfOk, OnErr, take};
ghost use Rattle.std.specs.Io.{ReadsAtMost};
ghost use Rattle.std.specs.Io.KnownBytes.{Appends, ReadConsumes, WriteAppends};
ghost use Rattle.outside.specs.Faults.{CountsFaults, Rose};
ghost use Rattle.outside.specs.Transfers.{AppendsFront, TakesSome};

use crate::{Failed, Sink, Source};
use std::io::{Read, Write};
use std::marker::Model;

/// A source over a reader of std. It tells nothing; each error is a fault.
#[derive(Drop)]
pub struct ReadSource<R> {
    inner: R,
    faults: u64,
}

impl<R> Model for ReadSource<R> {
    ghost use Rattle.outside.specs.Adapters.{Adapter};

    ghost Value = { Adapter R };

    ghost view = { λ a. record { inner = a.inner; faults = a.faults } };
}

impl<R: Read> ReadSource<R> {
    /// A source over this reader, without faults so far.
    pub fn new(inner: R) -> ReadSource<R>
        ensures { result ≡ record { inner = inner; faults = 0 } }
    {
        ReadSource { inner, faults: 0 }
    }
}

impl<R: Read> Source for ReadSource<R> {
    ghost left = { λ _. None };

    ghost faults = { λ source. source.faults };

    fn read(&mut self, buf: &mut [u8]) -> Result<usize, Failed>
        ensures bound { ReadsAtMost result buf.new }
        ensures bytes { ReadConsumes None None result buf.new }
        ensures cause { CountsFaults self.old.faults self.new.faults result }
        // What the reader gave is handed on whole.
        ensures handed { ReadConsumes (R.remaining self.old.inner) (R.remaining self.new.inner) result buf.new }
    {
        match self.inner.read(buf) {
            Ok(count) => Ok(count),
            Err(_) => {
                self.faults = self.faults.saturating_add(1);
                Err(Failed)
            }
        }
    }
}

/// A sink over a writer of std, which it flushes after each write. It tells nothing; each error is
/// a fault, and so is a write that takes nothing of a piece that isn't empty.
#[derive(Drop)]
pub struct WriteSink<W> {
    inner: W,
    faults: u64,
}

impl<W> Model for WriteSink<W> {
    ghost use Rattle.outside.specs.Adapters.{Adapter};

    ghost Value = { Adapter W };

    ghost view = { λ a. record { inner = a.inner; faults = a.faults } };
}

impl<W: Write> WriteSink<W> {
    /// A sink over this writer, without faults so far.
    pub fn new(inner: W) -> WriteSink<W>
        ensures { result ≡ record { inner = inner; faults = 0 } }
    {
        WriteSink { inner, faults: 0 }
    }

    // Counts a fault.
    fn fault(&mut self) -> Failed
        ensures same { self.new.inner ≡ self.old.inner }
        ensures rose { Rose self.old.faults self.new.faults }
    {
        self.faults = self.faults.saturating_add(1);
        Failed
    }
}

impl<W: Write> Sink for WriteSink<W> {
    ghost written = { λ _. None };

    ghost faults = { λ sink. sink.faults };

    fn write(&mut self, piece: &[u8]) -> Result<usize, Failed>
        ensures bound { TakesSome result piece.now }
        ensures bytes { WriteAppends None None result piece.now }
        ensures cause { CountsFaults self.old.faults self.new.faults result }
        // What is taken is handed on whole to the writer. Where its flush fails, it may have taken some all the same.
        ensures handed { IfOk result (λ count. Appends (W.contents self.old.inner) (W.contents self.new.inner)
            (take count piece.now)) }
        ensures failed { OnErr result (AppendsFront (W.contents self.old.inner) (W.contents self.new.inner)
            piece.now) }
    {
        match self.inner.write(piece) {
            Ok(0) if !piece.is_empty() => Err(self.fault()),
            Ok(count) => match self.inner.flush() {
                Ok(()) => Ok(count),
                Err(_) => Err(self.fault()),
            },
            Err(_) => Err(self.fault()),
        }
    }
}
