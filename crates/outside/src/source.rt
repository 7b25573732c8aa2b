ghost use Rattle.std.specs.Prelude.{◌≡◌, ℕ, List, length, min, take};
ghost use Rattle.std.specs.declared.option.Option.{Option};
ghost use Rattle.std.specs.Io.{ReadsAtMost};
ghost use Rattle.std.specs.Io.KnownBytes.{ReadConsumes};
ghost use Rattle.outside.specs.Faults.{CountsFaults};

use crate::Failed;

/// Gives bytes.
pub trait Source {
    /// The bytes that are left, where the source tells them.
    ghost left: { Self → Option (List ℕ) };

    /// How many reads have failed. The count stands still at 2^64 - 1.
    ghost faults: { Self → ℕ };

    /// Puts the next bytes at the front of `buf` and answers how many. For a `buf` that isn't
    /// empty, 0 is the end: nothing is left. The faults stay as they are then. At `Failed` they
    /// rise by one, and nothing is taken.
    fn read(&mut self, buf: &mut [u8]) -> Result<usize, Failed>
        ensures bound { ReadsAtMost result buf.new }
        ensures bytes { ReadConsumes (left self.old) (left self.new) result buf.new }
        ensures cause { CountsFaults (faults self.old) (faults self.new) result };
}

/// Copies the front of `bytes` to the front of `buf`, at most `most` bytes of it, and answers how
/// many were copied.
pub(crate) fn copy_front(bytes: &[u8], buf: &mut [u8], most: usize) -> usize
    ensures count { result ≡ min (length buf.old) (min most (length bytes.now)) }
    ensures copied { take result buf.new ≡ take result bytes.now }
{
    let count = buf.len().min(most.min(bytes.len()));
    let (front, _) = bytes.split_at(count);
    buf.split_at_mut(count).0.copy_from_slice(front);
    count
}
