//! The command `gen`: a session answers commands that a number gives, and the run is summed up.
ghost use Rattle.std.specs.Prelude.{◌≡◌, ◌≢◌, ℕ, ◌+◌, ◌-◌, ◌<◌, ◌≤◌, ◌^◌, ◌∷◌, [], ◌++◌, map, decimal, ◌⊎◌};
ghost use Rattle.graph_model.specs.Commands.{Command};
ghost use Rattle.graph_model.specs.Lines.{Says};
ghost use Rattle.graph_model.specs.Replies.{Reply};
ghost use Rattle.graph_model.specs.States.{start};
ghost use Rattle.graph_model.specs.Words.{spaced};
ghost use Rattle.outside.specs.Transfers.{Writes};
ghost use Rattle.wire.specs.Pieces.{sum_words};
ghost use Rattle.wire.specs.Readings.{meaning_of};
ghost use Rattle.reorg.specs.Kept.{StandsFor, MakesStep};
ghost use Rattle.replay.specs.declared.session.TheConstants.{MOST_NAMES};
ghost use Rattle.replay.specs.Answers.{reply_outcome};
ghost use Rattle.replay.specs.Generations.{IsPlayed, Generates, summary_of, summary_text};
ghost use Rattle.mempool.specs.Pools.{most_raised};
ghost use Rattle.replay.specs.Statuses.{StatusFaults};
ghost use Rattle.replay.specs.Writings.{GoesOnLines};

use crate::answer::Outcome;
use crate::session::Session;
use crate::tally::Tally;
use crate::top::Status;
use crate::totals::Totals;
use fee_rate::Sum;
use outside::{Failed, Sink, SureSink};
use std::alloc::Global;
use wire::{Generator, Line, write_ids};

/// Answers the commands that the seed gives in a fresh session, and writes the summary at the end.
pub(crate) fn write_generated<K: Sink>(alloc: Global, seed: u64, count: u64, sink: &mut K) -> Status
    requires seed { seed < 2 ^ 31 }
    requires count { count ≤ 1000000 }
    ensures generates { Generates result seed count K.written sink.old sink.new }
    ensures faults { (reads : ℕ) → StatusFaults result reads reads (K.faults sink.old) (K.faults sink.new) }
    ensures told { (result ≡ Status.Done) ⊎ ((result ≡ Status.WriteFault) ⊎ ((result ≡ Status.NoMemory) × (sink.new ≡ sink.old))) }
{
    let Ok(mut session) = Session::<2>::new(alloc) else {
        return Status::NoMemory;
    };
    let tally = play(&mut session, seed, count);
    let totals = session.totals();
    drop(session);
    match write_summary(&tally, &totals, sink) {
        Ok(()) => Status::Done,
        Err(Failed) => Status::WriteFault,
    }
}

/// Answers the commands in a session that is fresh, and counts the answers.
fn play(session: &mut Session<2>, seed: u64, count: u64) -> Tally
    requires fresh { StandsFor session.old (start MOST_NAMES) }
    requires none_added { session.old.graph.levels.issued ≡ 0 }
    requires seed { seed < 2 ^ 31 }
    requires count { count ≤ 1000000 }
    ensures { IsPlayed seed count session.new result }
{
    let mut generator = Generator::new(seed);
    let mut tally = Tally::new();
    let mut k = 0;
    'commands: while k < count {
        k += 1;
        let line = generator.next(k);
        let outcome = obey(session, line);
        tally.count(outcome);
    }
    tally
}

/// Answers one command, whose reply goes nowhere.
fn obey(session: &mut Session<2>, line: Line) -> Outcome
    requires few { session.old.graph.levels.issued + most_raised ≤ 2 ^ 64 - 1 }
    requires not_mine { line ≢ Line.Mine }
    ensures step { (command : Command) → meaning_of line [] ≡ Says command
        → (reply : Reply) × MakesStep session.old session.new command reply × (result ≡ reply_outcome reply) }
    ensures additions { session.new.graph.levels.issued ≤ session.old.graph.levels.issued + most_raised }
{
    match session.line(line, &mut SureSink::new()) {
        Ok(outcome) => outcome,
        Err(Failed) => unreachable!(),
    }
}

/// Writes the six lines of the summary.
fn write_summary<K: Sink>(tally: &Tally, totals: &Totals, sink: &mut K) -> Result<(), Failed>
    ensures { Writes (K.written sink.old) (K.written sink.new) (K.faults sink.old) (K.faults sink.new) result
        (summary_text (summary_of tally.now totals.now)) }
{
    let accepted = more(Ok(()), sink, "accepted", None, &[tally.accepted]);
    let refused = more(accepted, sink, "refused", None, &[tally.refused]);
    let memory = more(refused, sink, "memory", None, &[tally.memory]);
    let count = more(memory, sink, "count", None, &[totals.count]);
    let total = more(count, sink, "total", Some(totals.total), &[]);
    more(total, sink, "corners", None, &[totals.corners])
}

/// Goes on with a line of a word, sums where there are some, and numbers, where all so far was written.
fn more<K: Sink>(
    so_far: Result<(), Failed>,
    sink: &mut K,
    head: &str,
    sums: Option<Sum>,
    numbers: &[u64],
) -> Result<(), Failed>
    ensures { GoesOnLines so_far (K.written sink.old) (K.written sink.new) (K.faults sink.old) (K.faults sink.new) result
        (spaced (head.now ∷ (sum_words sums ++ map decimal numbers.now)) ∷ []) }
{
    match so_far {
        Ok(()) => write_ids(sink, head, sums, numbers),
        Err(failed) => Err(failed),
    }
}
