ghost use Rattle.std.specs.Prelude.{◌≡◌, ℕ, None, Some, IsOk};
ghost use Rattle.std.specs.Io.{ReadsAtMost};
ghost use Rattle.std.specs.Io.KnownBytes.{ReadConsumes, WriteAppends};
ghost use Rattle.outside.specs.Faults.{CountsFaults};
ghost use Rattle.outside.specs.Transfers.{TakesSome};

use crate::{Failed, Sink, Source};
use std::marker::Model;

/// A source over a slice. It never fails, and tells its bytes.
#[derive(Debug, Drop)]
pub struct SureSource<'a> {
    rest: &'a [u8],
}

impl<'a> Model for SureSource<'a> {
    ghost use Rattle.std.specs.Prelude.{List, ℕ};

    ghost Value = { List ℕ };

    ghost view = { λ a. a.rest.now };
}

impl<'a> SureSource<'a> {
    /// A source that gives these bytes.
    pub fn new(bytes: &'a [u8]) -> SureSource<'a>
        ensures { result ≡ bytes.now }
    {
        SureSource { rest: bytes }
    }
}

impl Source for SureSource<'_> {
    ghost left = { λ source. Some source };

    ghost faults = { λ _. 0 };

    fn read(&mut self, buf: &mut [u8]) -> Result<usize, Failed>
        ensures bound { ReadsAtMost result buf.new }
        ensures bytes { ReadConsumes (Some self.old) (Some self.new) result buf.new }
        ensures cause { CountsFaults 0 0 result }
        ensures sure { IsOk result }
    {
        let count = buf.len().min(self.rest.len());
        let (front, rest) = self.rest.split_at(count);
        buf.split_at_mut(count).0.copy_from_slice(front);
        self.rest = rest;
        Ok(count)
    }
}

/// A sink that drops what it takes. It never fails, and tells nothing.
#[derive(Clone, Copy, Debug)]
pub struct SureSink;

impl SureSink {
    /// A sink that drops what it takes.
    pub fn new() -> SureSink {
        SureSink
    }
}

impl Sink for SureSink {
    ghost written = { λ _. None };

    ghost faults = { λ _. 0 };

    fn write(&mut self, piece: &[u8]) -> Result<usize, Failed>
        ensures bound { TakesSome result piece.now }
        ensures bytes { WriteAppends None None result piece.now }
        ensures cause { CountsFaults 0 0 result }
        ensures sure { IsOk result }
    {
        Ok(piece.len())
    }
}
