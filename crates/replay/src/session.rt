ghost use Rattle.std.specs.Prelude.{◌≡◌, ℕ, ◌+◌, ◌-◌, ◌*◌, ◌^◌, ◌<◌, ◌≤◌, ◌≢◌, List, [], IfOk};
ghost use Rattle.graph_model.specs.Runs.{answer_text};
ghost use Rattle.graph_model.specs.Runs as runs;
ghost use Rattle.outside.specs.Faults.{CountsFaults};
ghost use Rattle.outside.specs.Transfers.{Writes};
ghost use Rattle.wire.specs.Readings.{meaning_of};

use crate::answer::Outcome;
use crate::commands::{answer, answer_line};
use crate::replies::Replies;
use crate::totals::{Totals, main_totals};
use graph_model::IdBuf;
use mempool::Mempool;
use outside::{Failed, NoMemory, Sink};
use std::alloc::Global;
use std::marker::Model;
use wire::Line;

/// The most names that the program can allow a cluster: 64 for each of the two words of its graph's sets.
pub const MOST_NAMES: u64 = 128;

/// How many names a line may list.
const MAX_NAMES: usize = 32_766;

/// A line that is handed to a session, without its line feed.
#[derive(Clone, Copy, Debug)]
pub enum Piece<'a> {
    /// The bytes of the line. Where there are more than 65,536, the line is answered as `TooLong`.
    Whole(&'a [u8]),
    /// The line has more than 65,536 bytes.
    TooLong,
}

/// A transaction graph that answers lines. `W` is the number of words of a set of names of one
/// cluster, 1 or 2.
#[derive(Drop)]
pub struct Session<const W: usize> {
    alloc: Global,
    pool: Mempool<W>,
    // the names that a line lists, and then those that its reading finds
    ids: IdBuf,
}

impl<const W: usize> Model for Session<W> {
    ghost use Rattle.reorg.specs.Kept.{Kept, kept_code};
    ghost use Rattle.replay.specs.Sessions.{HasRoom};

    ghost Value = { Kept };

    ghost coded = { kept_code };

    ghost view = { λ a. a.pool };

    ghost invariant = { λ a. HasRoom W a.ids };
}

impl<const W: usize> Session<W> {
    ghost use Rattle.reorg.specs.Kept.{Kept, StandsFor};
    ghost use Rattle.graphs.specs.declared.names.Level.TheVariants.{Main};
    ghost use Rattle.graph_model.specs.States.{State, start};
    ghost use Rattle.levels.specs.Levels.{IsWithin};
    ghost use Rattle.replay.specs.Answers.{AnswersMeaning, outcome_of};
    ghost use Rattle.replay.specs.Generations.{AreTotals};
    ghost use Rattle.replay.specs.Gatherings.{Gathers};
    ghost use Rattle.mempool.specs.Pools.{most_raised};
    ghost use Rattle.replay.specs.Sessions.{IsLine, Answers, Suits};

    /// A session at the start: default limits, no names. Takes the room that readings need.
    pub fn new(alloc: Global) -> Result<Session<W>, NoMemory>
        requires wide { 1 ≤ W }
        requires narrow { W ≤ 2 }
        ensures start { IfOk result (λ session. StandsFor session (start (64 * W))) }
        ensures additions { IfOk result (λ session. session.graph.levels.issued ≡ 0) }
    {
        Ok(Session {
            alloc,
            ids: IdBuf::new(alloc, MAX_NAMES)?,
            pool: Mempool::new(alloc)?,
        })
    }

    /// Lets the session go, as a drop of it does. What shows that its graph fits in memory stands in this crate, so that another
    /// crate that owns a session needs no proof of it to end it here.
    pub fn close(self) {
        drop(self);
    }

    /// How many additions were accepted. The session always stands for some state, so that what the
    /// other calls say of such states says something.
    pub fn additions(&self) -> u64
        ensures additions { result ≡ self.now.graph.levels.issued }
        ensures stands { (state : State) × StandsFor self.now state }
    {
        self.pool.graph().additions()
    }

    /// Answers one line, and writes its reply to `sink`. The first write that fails ends it with
    /// `Failed`: the sink's faults rose by one then, and else they are as they were. At `Failed` a
    /// front of the reply was written, and the graph has changed all the same.
    pub fn one<K: Sink>(&mut self, piece: Piece<'_>, sink: &mut K) -> Result<Outcome, Failed>
        requires { self.old.graph.levels.issued + most_raised ≤ 2 ^ 64 - 1 }
        // One line of a run: its answer, the state that follows, and what was written and told of it.
        ensures line { (line : List ℕ) → IsLine piece.entry line → (answer : runs.Answer)
            × Answers self.old self.new line answer
            × Writes (K.written sink.old) (K.written sink.new) (K.faults sink.old) (K.faults sink.new) result
            (answer_text answer)
            × IfOk result (λ outcome. outcome ≡ outcome_of answer) × Suits line answer }
        ensures cause { CountsFaults (K.faults sink.old) (K.faults sink.new) result }
        ensures additions { self.new.graph.levels.issued ≤ self.old.graph.levels.issued + most_raised }
    {
        let found = answer(self.alloc, &mut self.pool, &mut self.ids, piece);
        found.tell(&self.pool, self.ids.ids(), sink)
    }

    /// Answers what a line says that was read before, as `one` answers a line. It is no `mine`, whose names stand beside
    /// it.
    pub fn line<K: Sink>(&mut self, line: Line, sink: &mut K) -> Result<Outcome, Failed>
        requires few { self.old.graph.levels.issued + most_raised ≤ 2 ^ 64 - 1 }
        requires not_mine { line ≢ Line.Mine }
        ensures line { (answer : runs.Answer) × AnswersMeaning (meaning_of line []) self.old self.new answer
            × Writes (K.written sink.old) (K.written sink.new) (K.faults sink.old) (K.faults sink.new) result
            (answer_text answer)
            × IfOk result (λ outcome. outcome ≡ outcome_of answer) }
        ensures cause { CountsFaults (K.faults sink.old) (K.faults sink.new) result }
        ensures additions { self.new.graph.levels.issued ≤ self.old.graph.levels.issued + most_raised }
    {
        let found = answer_line(self.alloc, &mut self.pool, &mut self.ids, line);
        found.tell(&self.pool, self.ids.ids(), sink)
    }

    /// How much main has, which isn't oversized.
    pub(crate) fn totals(&self) -> Totals
        requires { IsWithin self.now.graph.levels Main }
        ensures { (state : State) → StandsFor self.now state → AreTotals state.plain result }
    {
        main_totals(self.pool.graph())
    }

    /// Answers one line as `one` does, where its reply gathers behind others before the sink.
    pub(crate) fn gather<K: Sink>(
        &mut self,
        piece: Piece<'_>,
        replies: &mut Replies,
        sink: &mut K,
    ) -> Result<Outcome, Failed>
        requires { self.old.graph.levels.issued + most_raised ≤ 2 ^ 64 - 1 }
        ensures line { (line : List ℕ) → IsLine piece.entry line → (answer : runs.Answer)
            × Answers self.old self.new line answer
            × Gathers (K.written sink.old) (K.written sink.new) replies.old replies.new result (answer_text answer) }
        ensures cause { CountsFaults (K.faults sink.old) (K.faults sink.new) result }
        ensures additions { self.new.graph.levels.issued ≤ self.old.graph.levels.issued + most_raised }
    {
        let found = answer(self.alloc, &mut self.pool, &mut self.ids, piece);
        replies.tell(&self.pool, &found, self.ids.ids(), sink)
    }
}
