ghost use Rattle.std.specs.Prelude.{◌≡◌, ℕ, ◌+◌, ◌-◌, ◌<◌, ◌≤◌, List, [], ◌++◌, length, take, drop, IfOk, OnErr};
ghost use Rattle.std.specs.Io.KnownBytes.{Consumes, IsAtEnd, Keeps};
ghost use Rattle.outside.specs.Faults.{CountsFaults};

use graph_model::MAX_LINE;
use outside::{Failed, NoMemory, Source};
use std::alloc::Global;
use std::marker::Model;

/// The most bytes that one read brings, and that a window has room for: those of the longest line, and its line feed.
pub const MAX_READ: usize = MAX_LINE + 1;

/// Bytes that a source gave and that weren't given on yet, and the line that was cut off them last. They lie in one
/// buffer, which is taken once.
#[derive(Drop)]
pub(crate) struct Window {
    buffer: Vec<u8>,
    // the line lies at from..to, the bytes that are held at start..end
    from: usize,
    to: usize,
    start: usize,
    end: usize,
}

impl Model for Window {
    ghost use Rattle.std.specs.Prelude.{◌≡◌, ◌-◌, ◌≤◌, length, slice_range};
    ghost use Rattle.replay.specs.Windows.{Sight};
    ghost use Rattle.replay.specs.declared.window.TheConstants.{MAX_READ};

    ghost Value = { Sight };

    ghost view = { λ a. record { line = slice_range a.buffer.items a.from a.to; held = slice_range a.buffer.items a.start a.end; room = MAX_READ - a.end } };

    ghost invariant = { λ a. (length a.buffer.items ≡ MAX_READ) × (a.from ≤ a.to) × (a.to ≤ MAX_READ) × (a.start ≤ a.end) × (a.end ≤ MAX_READ) };
}

impl Window {
    /// A window that holds nothing.
    pub(crate) fn new(alloc: Global) -> Result<Window, NoMemory>
        ensures { IfOk result (λ window. window.held ≡ []) }
    {
        Ok(Window {
            buffer: vec![in alloc; 0; MAX_READ]?,
            from: 0,
            to: 0,
            start: 0,
            end: 0,
        })
    }

    /// The bytes that are held.
    pub(crate) fn held(&self) -> &[u8]
        ensures value { result.now ≡ self.now.held }
        ensures fits { length result.now ≤ MAX_READ }
    {
        &self.buffer[self.start..self.end]
    }

    /// The line that was cut off last.
    pub(crate) fn line(&self) -> &[u8]
        ensures { result.now ≡ self.now.line }
    {
        &self.buffer[self.from..self.to]
    }

    /// Cuts off a line of so many bytes, and drops the byte behind it.
    pub(crate) fn cut(&mut self, count: usize)
        requires { count < length self.old.held }
        ensures line { self.new.line ≡ take count self.old.held }
        ensures held { self.new.held ≡ drop (count + 1) self.old.held }
        ensures fits { length self.old.held ≤ MAX_READ }
    {
        self.from = self.start;
        self.to = self.start + count;
        self.start += count + 1;
    }

    /// Cuts off all bytes as the line.
    pub(crate) fn cut_all(&mut self)
        ensures line { self.new.line ≡ self.old.held }
        ensures held { self.new.held ≡ [] }
    {
        self.from = self.start;
        self.to = self.end;
        self.start = self.end;
    }

    /// Drops the bytes behind the first so many.
    pub(crate) fn keep(&mut self, count: usize)
        requires { count ≤ length self.old.held }
        ensures { self.new.held ≡ take count self.old.held }
    {
        self.end = self.start + count;
    }

    /// Drops all bytes.
    pub(crate) fn clear(&mut self)
        ensures held { self.new.held ≡ [] }
        ensures room { self.new.room ≡ MAX_READ }
    {
        self.start = 0;
        self.end = 0;
    }

    /// Moves the bytes to the front of the buffer, so that all room lies behind them.
    pub(crate) fn settle(&mut self)
        ensures held { self.new.held ≡ self.old.held }
        ensures room { self.new.room + length self.new.held ≡ MAX_READ }
    {
        let (start, end) = (self.start, self.end);
        if start > 0 {
            self.buffer.as_mut_slice().copy_within(start..end, 0);
        }
        self.start = 0;
        self.end = end - start;
    }

    /// Reads once into the room behind the bytes, and answers how many came: none at the end of the source. At `Failed`
    /// nothing was taken.
    pub(crate) fn fill<S: Source>(&mut self, source: &mut S) -> Result<usize, Failed>
        requires { 0 < self.old.room }
        ensures ok { IfOk result (λ count. (more : List ℕ) × (length more ≡ count)
            × (self.new.held ≡ self.old.held ++ more) × Consumes (S.left source.old) (S.left source.new) more) }
        ensures end { IfOk result (λ count. count ≡ 0 → IsAtEnd (S.left source.new)) }
        ensures most { IfOk result (λ count. count ≤ MAX_READ) }
        ensures err { OnErr result ((self.new.held ≡ self.old.held) × Keeps (S.left source.old) (S.left source.new)) }
        ensures cause { CountsFaults (S.faults source.old) (S.faults source.new) result }
    {
        let end = self.end;
        match source.read(&mut self.buffer[end..]) {
            Ok(count) => {
                self.end = end + count;
                Ok(count)
            }
            Err(failed) => Err(failed),
        }
    }
}
