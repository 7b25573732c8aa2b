//! The command `check`: whether a text is a certificate.
ghost use Rattle.std.specs.Prelude.{◌≡◌, ◌≢◌, ℕ, ◌⊎◌};
ghost use Rattle.std.specs.Io.KnownBytes.{Appends};
ghost use Rattle.graph_model.specs.Words.{line_text};
ghost use Rattle.graph_model.specs.Texts.{verification_text};
ghost use Rattle.outside.specs.Transfers.{AppendsFront};
ghost use Rattle.verification.specs.Verdicts.{verification_of};
ghost use Rattle.replay.specs.Checks.{Checks};
ghost use Rattle.replay.specs.Statuses.{StatusFaults};

use crate::input::{End, read_input};
use crate::top::Status;
use outside::{Failed, NoMemory, Sink, Source};
use std::alloc::Global;
use verification::{Said, verify};
use wire::write_word;

/// Reads a text to its end, checks it, and writes what is said of it. Where reading doesn't come to the end,
/// nothing is written.
pub(crate) fn check_text<S: Source, K: Sink>(alloc: Global, source: &mut S, sink: &mut K) -> Status
    ensures checks { Checks result (S.left source.old) (S.left source.new) K.written sink.old sink.new }
    ensures no_memory { result ≡ Status.NoMemory → sink.new ≡ sink.old }
    ensures faults { StatusFaults result (S.faults source.old) (S.faults source.new) (K.faults sink.old)
        (K.faults sink.new) }
{
    let Ok(input) = read_input(alloc, source) else {
        return Status::NoMemory;
    };
    match input.end {
        End::Told => {}
        End::Fault => return Status::ReadFault,
        End::Limit => return Status::InputLimit,
    }
    match verify(alloc, &input.bytes) {
        Ok(said) => tell(said, sink),
        Err(NoMemory) => Status::NoMemory,
    }
}

/// Writes what is said, and answers the status for it.
fn tell<K: Sink>(said: Said, sink: &mut K) -> Status
    ensures done { result ≡ Status.Done → (said ≡ Said.Yes)
        × Appends (K.written sink.old) (K.written sink.new) (verification_text (verification_of said)) }
    ensures no { result ≡ Status.No → (said ≢ Said.Yes)
        × Appends (K.written sink.old) (K.written sink.new) (verification_text (verification_of said)) }
    ensures write_fault { result ≡ Status.WriteFault
        → AppendsFront (K.written sink.old) (K.written sink.new) (verification_text (verification_of said)) }
    ensures faults { (reads : ℕ) → StatusFaults result reads reads (K.faults sink.old) (K.faults sink.new) }
    ensures told { (result ≡ Status.Done) ⊎ ((result ≡ Status.No) ⊎ (result ≡ Status.WriteFault)) }
{
    match write_word(sink, words(said)) {
        Ok(()) => status_of(said),
        Err(Failed) => Status::WriteFault,
    }
}

/// The status for what is said.
fn status_of(said: Said) -> Status
    ensures done { result ≡ Status.Done → said ≡ Said.Yes }
    ensures no { result ≡ Status.No → said ≢ Said.Yes }
    ensures told { (result ≡ Status.Done) ⊎ (result ≡ Status.No) }
{
    match said {
        Said::Yes => Status::Done,
        Said::NoSyntax | Said::NoGraph | Said::NoOrder | Said::NoFalling | Said::NoFlow =>
            Status::No,
    }
}

/// The words for what is said.
fn words(said: Said) -> &'static str
    ensures { line_text result.now ≡ verification_text (verification_of said) }
{
    match said {
        Said::Yes => "yes",
        Said::NoSyntax => "no syntax",
        Said::NoGraph => "no graph",
        Said::NoOrder => "no order",
        Said::NoFalling => "no falling",
        Said::NoFlow => "no flow",
    }
}
