//! Laws over the definitions, each the contract of a function that does nothing.
ghost use Rattle.replay.specs.CheckLaws.{CheckAcceptsProofs};

use outside::Sink;

/// What `proof` and `load` write is answered `yes` by `check`, where it fits the limit of an input: whatever lines came before,
/// the bytes of the answer to a line `proof LEVEL` are accepted, and those that `load` writes of a text that it accepts. Without a fault `check` of them ends with `Done`, or for
/// want of memory.
pub fn check_accepts_proofs<K: Sink>()
    ensures { CheckAcceptsProofs K.written }
{}
