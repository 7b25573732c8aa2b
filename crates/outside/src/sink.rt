ghost use Rattle.std.specs.Prelude.{ℕ, List};
ghost use Rattle.std.specs.declared.option.Option.{Option};
ghost use Rattle.std.specs.Io.KnownBytes.{WriteAppends};
ghost use Rattle.outside.specs.Faults.{CountsFaults};
ghost use Rattle.outside.specs.Transfers.{TakesSome, Writes};

use crate::Failed;

/// Takes bytes.
pub trait Sink {
    /// The bytes that were taken, where the sink tells them.
    ghost written: { Self → Option (List ℕ) };

    /// How many writes have failed. The count stands still at 2^64 - 1.
    ghost faults: { Self → ℕ };

    /// Takes bytes from the front of `piece` and answers how many: at least one where `piece`
    /// isn't empty. The faults stay as they are then. At `Failed` they rise by one, and nothing is
    /// taken.
    fn write(&mut self, piece: &[u8]) -> Result<usize, Failed>
        ensures bound { TakesSome result piece.now }
        ensures bytes { WriteAppends (written self.old) (written self.new) result piece.now }
        ensures cause { CountsFaults (faults self.old) (faults self.new) result };

    /// Writes the whole text, and the faults stay as they are. The first write that fails ends it
    /// with `Failed`: a front of the text was taken then, and the faults rose by one.
    final fn write_all(&mut self, text: &[u8]) -> Result<(), Failed>
        ensures { Writes (written self.old) (written self.new) (faults self.old) (faults self.new) result text.now }
    {
        let mut rest = text;
        while !rest.is_empty() {
            let count = self.write(rest)?;
            rest = rest.split_at(count).1;
        }
        Ok(())
    }
}
