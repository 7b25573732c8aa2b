ghost use Rattle.std.specs.Prelude.{◌≡◌, ◌≢◌, ℕ, ◌≤◌, [], false, IfSome, length, map, string_bytes};
ghost use Rattle.graph_model.specs.States.{start};
ghost use Rattle.replay.specs.declared.session.TheConstants.{MOST_NAMES};
ghost use Rattle.graph_model.specs.Lines.{max_input};
ghost use Rattle.outside.specs.Faults.{Rose};
ghost use Rattle.reorg.specs.Kept.{StandsFor};
ghost use Rattle.replay.specs.Generations.{Generates};
ghost use Rattle.replay.specs.Statuses.{AreReplay, AreCheck, AreLoad, AreGen, AreRefused, Replays, Refuses, SuitsWords, EndsWell, StatusFaults, end_status, status_code};
ghost use Rattle.replay.specs.Checks.{Checks};
ghost use Rattle.replay.specs.Loads.{Loads};

use crate::answering::answer_lines;
use crate::check::check_text;
use crate::generated::write_generated;
use crate::input::End;
use crate::lines::{Lines, Stage};
use crate::load::load_text;
use crate::replies::Replies;
use crate::session::Session;
use command_line::{Asked, WordsFault, read_words};
use outside::{Failed, Sink, Source};
use std::alloc::Global;
use wire::write_word;

/// How the program ended, with its exit status.
#[derive(Clone, Copy, Debug, PartialEq, Eq)]
pub enum Status {
    /// The input was read to its end, or for `gen` all commands were run, and everything was written.
    Done = 0,
    /// The text of a `check` is no certificate, or that of a `load` is refused.
    No = 1,
    /// The words aren't a command; the usage line was written.
    Usage = 2,
    /// A read failed; the complete lines before it were answered.
    ReadFault = 3,
    /// A write failed; a front of the output was written.
    WriteFault = 4,
    /// There was no memory; nothing was written, and by `replay` and `gen` nothing was read.
    NoMemory = 5,
    /// A byte past the limit of 268,435,456 came; the complete lines before it were answered.
    InputLimit = 6,
}

impl Status {
    /// The exit status.
    pub fn code(self) -> u8
        ensures { result ≡ status_code self }
    {
        self as u8
    }
}

/// Runs the program: `words` are its name and the command, `replay`, `check`, `load` or `gen SEED COUNT`.
pub fn run<S: Source, K: Sink>(
    alloc: Global,
    words: &[String],
    source: &mut S,
    sink: &mut K,
) -> Status
    // By what the words ask for: what was read and what was written, by status. Only `gen` doesn't read.
    ensures replays { AreReplay (map string_bytes words.now)
        → Replays result (S.left source.old) (S.left source.new) K.written sink.old sink.new }
    ensures checks { AreCheck (map string_bytes words.now)
        → Checks result (S.left source.old) (S.left source.new) K.written sink.old sink.new }
    ensures loads { AreLoad (map string_bytes words.now)
        → Loads result (S.left source.old) (S.left source.new) K.written sink.old sink.new }
    ensures generates { (seed count : ℕ) → AreGen (map string_bytes words.now) seed count
        → (source.new ≡ source.old) × Generates result seed count K.written sink.old sink.new }
    ensures refuses { AreRefused (map string_bytes words.now) → (source.new ≡ source.old)
        × Refuses result K.written sink.old sink.new }
    // Nothing was written then, and with `replay` nothing was read: it takes its memory before it reads.
    ensures no_memory { result ≡ Status.NoMemory → (sink.new ≡ sink.old)
        × (AreReplay (map string_bytes words.now) → source.new ≡ source.old) }

    // The cause of each status: the words, or a read or a write that failed. A fault always shows in the status.
    ensures words { SuitsWords result (map string_bytes words.now) }
    ensures faults { StatusFaults result (S.faults source.old) (S.faults source.new) (K.faults sink.old)
        (K.faults sink.new) }

    // With accepted words and no fault: Done or, for `check` and `load`, No; want of memory; or past the limit.
    ensures complete { (AreRefused (map string_bytes words.now) → ⊥)
        → (Rose (S.faults source.old) (S.faults source.new) → ⊥)
        → (Rose (K.faults sink.old) (K.faults sink.new) → ⊥) → EndsWell result }
    ensures within_limit { IfSome (S.left source.old) (λ bytes. length bytes ≤ max_input → result ≢ Status.InputLimit) }
{
    match read_words(alloc, words) {
        Ok(Asked::Replay) => replay_lines(alloc, source, sink),
        Ok(Asked::Check) => check_text(alloc, source, sink),
        Ok(Asked::Load) => load_text(alloc, source, sink),
        Ok(Asked::Gen(seed, count)) => write_generated(alloc, seed, count, sink),
        Err(WordsFault::Refused) => refuse_words(sink),
        Err(WordsFault::Memory) => Status::NoMemory,
    }
}

/// Reads lines of commands to the end, and answers them.
fn replay_lines<S: Source, K: Sink>(alloc: Global, source: &mut S, sink: &mut K) -> Status
    ensures replays { Replays result (S.left source.old) (S.left source.new) K.written sink.old sink.new }
    ensures no_memory { result ≡ Status.NoMemory → (sink.new ≡ sink.old) × (source.new ≡ source.old) }
    ensures faults { StatusFaults result (S.faults source.old) (S.faults source.new) (K.faults sink.old)
        (K.faults sink.new) }
    ensures within_limit { IfSome (S.left source.old) (λ bytes. length bytes ≤ max_input → result ≢ Status.InputLimit) }
{
    let Ok(mut lines) = Lines::new(alloc) else {
        return Status::NoMemory;
    };
    let Ok(mut replies) = Replies::new(alloc) else {
        return Status::NoMemory;
    };
    let Ok(mut session) = Session::<2>::new(alloc) else {
        return Status::NoMemory;
    };
    let status = replay_in(&mut session, &mut lines, &mut replies, source, sink);
    drop(session);
    status
}

/// The same in a session, lines and replies that are fresh.
fn replay_in<S: Source, K: Sink>(
    session: &mut Session<2>,
    lines: &mut Lines,
    replies: &mut Replies,
    source: &mut S,
    sink: &mut K,
) -> Status
    requires fresh { StandsFor session.old (start MOST_NAMES) }
    requires none_added { session.old.graph.levels.issued ≡ 0 }
    requires none_held { lines.old.held ≡ [] }
    requires none_dropped { lines.old.long ≡ false }
    requires none_taken { lines.old.taken ≡ 0 }
    requires going { lines.old.stage ≡ Stage.Open }
    requires no_replies { replies.old ≡ [] }
    ensures replays { Replays result (S.left source.old) (S.left source.new) K.written sink.old sink.new }
    ensures no_memory { result ≡ Status.NoMemory → (sink.new ≡ sink.old) × (source.new ≡ source.old) }
    ensures faults { StatusFaults result (S.faults source.old) (S.faults source.new) (K.faults sink.old)
        (K.faults sink.new) }
    ensures within_limit { IfSome (S.left source.old) (λ bytes. length bytes ≤ max_input → result ≢ Status.InputLimit) }
{
    match answer_lines(session, lines, replies, source, sink) {
        Ok(end) => status_of(end),
        Err(Failed) => Status::WriteFault,
    }
}

/// The status where everything that was read was answered.
fn status_of(end: End) -> Status
    ensures { result ≡ end_status end }
{
    match end {
        End::Told => Status::Done,
        End::Fault => Status::ReadFault,
        End::Limit => Status::InputLimit,
    }
}

/// Writes the usage line.
fn refuse_words<K: Sink>(sink: &mut K) -> Status
    ensures refuses { Refuses result K.written sink.old sink.new }
    ensures faults { (reads : ℕ) → StatusFaults result reads reads (K.faults sink.old) (K.faults sink.new) }
{
    match write_word(
        sink,
        "usage: txgraph replay | check | load | gen SEED COUNT",
    ) {
        Ok(()) => Status::Usage,
        Err(Failed) => Status::WriteFault,
    }
}
