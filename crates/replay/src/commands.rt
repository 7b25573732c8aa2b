ghost use Rattle.std.specs.Prelude.{◌≡◌, ◌≢◌, [], ℕ, ◌+◌, ◌-◌, ◌^◌, ◌<◌, ◌≤◌, List, length};
ghost use Rattle.wire.specs.Readings.{meaning_of};
ghost use Rattle.reorg.specs.Kept.{Kept};
ghost use Rattle.replay.specs.Answers.{AnswersMeaning, MayTell, answer_of, IsReadOf, WritesAnswer};
ghost use Rattle.mempool.specs.Pools.{most_raised};
ghost use Rattle.replay.specs.Requests.{MinesSome, asked, reading_command};
ghost use Rattle.replay.specs.Sessions.{IsLine, Answers, HasRoom, Suits};

use crate::answer::{Answer, Outcome};
use crate::reading::Reading;
use crate::request::Request;
use crate::session::Piece;
use crate::writing::{write_diagram, write_dump, write_order, write_part, write_proof};
use graph_model::{IdBuf, MAX_LINE, Refusal};
use mempool::Mempool;
use outside::{Failed, Sink};
use std::alloc::Global;
use std::marker::Brand;
use std::sync::ledger;
use std::sync::ledger::Blank;
use step_count::{Ledger, NoLedger, Steps};
use wire::{Line, read_line};

/// The answer to a line, after the graph has changed. Names that a reading finds are left in `ids`.
pub(crate) fn answer<const W: usize>(
    alloc: Global,
    pool: &mut Mempool<W>,
    ids: &mut IdBuf,
    piece: Piece<'_>,
) -> Answer
    requires few { pool.old.graph.levels.issued + most_raised ≤ 2 ^ 64 - 1 }
    requires room { HasRoom W ids.old }
    ensures line { (line : List ℕ) → IsLine piece.entry line
        → MayTell pool.new result ids.new.ids (Answers pool.old pool.new line) }
    ensures suits { (line : List ℕ) → IsLine piece.entry line
        → MayTell pool.new result ids.new.ids (Suits line) }
    ensures additions { pool.new.graph.levels.issued ≤ pool.old.graph.levels.issued + most_raised }
    ensures room { HasRoom W ids.new }
{
    match piece {
        Piece::Whole(bytes) => read(alloc, pool, ids, bytes),
        Piece::TooLong => Answer::TooLong,
    }
}

/// The answer to a line of these bytes.
fn read<const W: usize>(
    alloc: Global,
    pool: &mut Mempool<W>,
    ids: &mut IdBuf,
    bytes: &[u8],
) -> Answer
    requires few { pool.old.graph.levels.issued + most_raised ≤ 2 ^ 64 - 1 }
    requires room { HasRoom W ids.old }
    ensures line { MayTell pool.new result ids.new.ids (Answers pool.old pool.new bytes.now) }
    ensures suits { MayTell pool.new result ids.new.ids (Suits bytes.now) }
    ensures additions { pool.new.graph.levels.issued ≤ pool.old.graph.levels.issued + most_raised }
    ensures room { HasRoom W ids.new }
{
    if bytes.len() > MAX_LINE {
        return Answer::TooLong;
    }
    let line = read_line(bytes, ids);
    obey_unpaid::<Brand, Mempool<W>>(alloc, pool, ids, line, Blank::new(1))
}

/// The answer to what a line says that was read before. A `mine` has its names in `ids`.
pub(crate) fn answer_line<const W: usize>(
    alloc: Global,
    pool: &mut Mempool<W>,
    ids: &mut IdBuf,
    line: Line,
) -> Answer
    requires few { pool.old.graph.levels.issued + most_raised ≤ 2 ^ 64 - 1 }
    requires room { HasRoom W ids.old }
    requires mines { MinesSome (meaning_of line ids.old.ids) }
    ensures answers { MayTell pool.new result ids.new.ids
        (AnswersMeaning (meaning_of line ids.old.ids) pool.old pool.new) }
    ensures additions { pool.new.graph.levels.issued ≤ pool.old.graph.levels.issued + most_raised }
    ensures room { HasRoom W ids.new }
{
    obey_unpaid::<Brand, Mempool<W>>(alloc, pool, ids, line, Blank::new(1))
}

/// What obeys commands, and is read.
///
/// A graph does so through this trait because a function that is given a token of its own ledger can't have a number of
/// words among its parameters.
pub(crate) trait Obeys {
    ghost kept: { Self → Kept };

    ghost words: { ℕ };

    /// The answer to what a line says.
    fn obey<L: Ledger>(
        &mut self,
        alloc: Global,
        ids: &mut IdBuf,
        line: Line,
        steps: &mut Steps<L>,
    ) -> Answer
        requires few { (kept self.old).graph.levels.issued + most_raised ≤ 2 ^ 64 - 1 }
        requires room { HasRoom words ids.old }
        requires mines { MinesSome (meaning_of line ids.old.ids) }
        ensures answers { MayTell (kept self.new) result ids.new.ids
            (AnswersMeaning (meaning_of line ids.old.ids) (kept self.old) (kept self.new)) }
        ensures additions { (kept self.new).graph.levels.issued ≤ (kept self.old).graph.levels.issued + most_raised }
        ensures room { HasRoom words ids.new };

    /// Writes the reply to a reading, and tells the outcome.
    fn read<K: Sink>(&self, reading: Reading, sink: &mut K) -> Result<Outcome, Failed>
        ensures { WritesAnswer (IsReadOf (kept self.now) (reading_command reading)) (K.written sink.old)
            (K.written sink.new) (K.faults sink.old) (K.faults sink.new) result };
}

impl<const W: usize> Obeys for Mempool<W> {
    ghost kept = { λ pool. pool };

    ghost words = { W };

    fn obey<L: Ledger>(
        &mut self,
        alloc: Global,
        ids: &mut IdBuf,
        line: Line,
        steps: &mut Steps<L>,
    ) -> Answer {
        match answer_request(alloc, self, ids, Request::from(line), steps) {
            Ok(answer) => answer,
            Err(why) => Answer::Refused(why),
        }
    }

    fn read<K: Sink>(&self, reading: Reading, sink: &mut K) -> Result<Outcome, Failed> {
        match reading {
            Reading::Order(level) => write_order(self.graph(), level, sink),
            Reading::Diagram(level) => write_diagram(self.graph(), level, sink),
            Reading::Proof(level) => write_proof(self.graph(), level, sink),
            Reading::Chunk(id) => write_part(self.graph().chunk(id), sink),
            Reading::Dump => write_dump(self.alloc(), self.graph(), sink),
        }
    }
}

/// The answer to what a line says, where nobody reads the steps: their ledger is a token that keeps nothing.
fn obey_unpaid<K: ledger::Ledger, G: Obeys>(
    alloc: Global,
    pool: &mut G,
    ids: &mut IdBuf,
    line: Line,
    blank: Blank,
) -> Answer
    requires name { blank.name ≡ K.name }
    requires parts { blank.parts ≡ K.parts }
    requires some { 0 < blank.parts }
    requires few { (G.kept pool.old).graph.levels.issued + most_raised ≤ 2 ^ 64 - 1 }
    requires room { HasRoom G.words ids.old }
    requires mines { MinesSome (meaning_of line ids.old.ids) }
    ensures answers { MayTell (G.kept pool.new) result ids.new.ids
        (AnswersMeaning (meaning_of line ids.old.ids) (G.kept pool.old) (G.kept pool.new)) }
    ensures additions { (G.kept pool.new).graph.levels.issued ≤ (G.kept pool.old).graph.levels.issued + most_raised }
    ensures room { HasRoom G.words ids.new }
{
    let mut steps = Steps::new(NoLedger::<K>::new(blank));
    pool.obey(alloc, ids, line, &mut steps)
}

/// The answer to a request, or why it is refused.
fn answer_request<const W: usize, L: Ledger>(
    alloc: Global,
    pool: &mut Mempool<W>,
    ids: &mut IdBuf,
    request: Request,
    steps: &mut Steps<L>,
) -> Result<Answer, Refusal>
    requires few { pool.old.graph.levels.issued + most_raised ≤ 2 ^ 64 - 1 }
    requires room { HasRoom W ids.old }
    requires mines { MinesSome (asked request ids.old.ids) }
    ensures answers { MayTell pool.new (answer_of result) ids.new.ids
        (AnswersMeaning (asked request ids.old.ids) pool.old pool.new) }
    ensures additions { pool.new.graph.levels.issued ≤ pool.old.graph.levels.issued + most_raised }
    ensures room { HasRoom W ids.new }
{
    match request {
        Request::Silence => Ok(Answer::Silence),
        Request::Unread => Ok(Answer::Unread),
        Request::Change(change) => {
            pool.change(change, steps)?;
            Ok(Answer::Done)
        }
        Request::Mine => {
            pool.mine(ids.ids(), steps)?;
            Ok(Answer::Done)
        }
        Request::Unmine => Ok(Answer::Unmined(pool.unmine(steps)?)),
        Request::Evict => Ok(Answer::Evicted(pool.evict(steps)?)),
        Request::Block(size) => Ok(Answer::Block(pool.block(alloc, size)?)),
        Request::Trim => Ok(Answer::Trimmed(pool.trim(alloc, steps)?)),
        Request::Search(search) => {
            pool.find(search, ids)?;
            Ok(Answer::Names)
        }
        Request::Count(level) => Ok(Answer::Number(pool.count(level))),
        Request::Before(a, b) => Ok(Answer::Stands(pool.before(a, b)?)),
        Request::Compare => Ok(Answer::Compared(pool.compare()?)),
        Request::Settle => Ok(Answer::Settled(pool.settle()?)),
        Request::Read(reading) => Ok(Answer::Reads(reading)),
    }
}
