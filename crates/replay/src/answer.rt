ghost use Rattle.std.specs.Prelude.{◌≡◌, ℕ, List, IfOk};
ghost use Rattle.std.specs.declared.option.Option.{Option};
ghost use Rattle.outside.specs.Transfers.{Writes};
ghost use Rattle.graph_model.specs.Replies.{picked_sum, sum_line};
ghost use Rattle.graph_model.specs.Words.{line_text};
ghost use Rattle.replay.specs.Answers.{Tells, WritesAnswer};

use crate::commands::Obeys;
use crate::reading::Reading;
use fee_rate::Sum;
use graph_model::{IdList, Picked, Place, Refusal, TxId, Verdict};
use outside::{Failed, Sink};
use wire::{place_word, settled_words, verdict_word, write_ids, write_refusal, write_word};

/// How a line was answered.
#[derive(Clone, Copy, Debug, PartialEq, Eq)]
pub enum Outcome {
    /// The line was empty or a comment, and got no reply.
    Quiet,
    /// The command was accepted.
    Accepted,
    /// The line was refused, with the number of the refusal: 1 where it was too long, 2 where it
    /// was no command, else the number of `Refusal`.
    Refused(u8),
}

/// The answer to a line, before it is written.
#[derive(Drop)]
pub(crate) enum Answer {
    Silence,
    TooLong,
    Unread,
    Refused(Refusal),
    Done,
    /// the names that the graph found
    Names,
    Number(u64),
    Stands(Place),
    /// how staging stands to main
    Compared(Verdict),
    /// how it stood to main when it was closed
    Settled(Verdict),
    /// what was dropped from the end of main
    Evicted(Picked),
    /// what a block of main has
    Block(Picked),
    /// what was trimmed from the top level
    Trimmed(Picked),
    /// what came back of the latest block
    Unmined(IdList),
    /// what the graph is read for as it is written
    Reads(Reading),
}

impl Answer {
    /// Writes the text of the answer, and tells the outcome.
    pub(crate) fn tell<G: Obeys, K: Sink>(
        &self,
        graph: &G,
        found: &[TxId],
        sink: &mut K,
    ) -> Result<Outcome, Failed>
        ensures { WritesAnswer (Tells (G.kept graph.now) self.now found.now) (K.written sink.old) (K.written sink.new)
            (K.faults sink.old) (K.faults sink.new) result }
    {
        match self {
            Answer::Silence => Ok(Outcome::Quiet),
            Answer::TooLong => told(write_word(sink, "refused line"), Outcome::Refused(1)),
            Answer::Unread => told(write_word(sink, "refused syntax"), Outcome::Refused(2)),
            Answer::Refused(why) => told(write_refusal(sink, why), Outcome::Refused(why.number())),
            Answer::Done => told(write_word(sink, "ok"), Outcome::Accepted),
            Answer::Names => told(write_ids(sink, "ids", None, found), Outcome::Accepted),
            Answer::Number(n) => told(write_ids(sink, "count", None, &[*n]), Outcome::Accepted),
            Answer::Stands(place) => told(write_word(sink, place_word(*place)), Outcome::Accepted),
            Answer::Compared(verdict) => {
                told(write_word(sink, verdict_word(*verdict)), Outcome::Accepted)
            }
            Answer::Settled(verdict) => {
                told(write_word(sink, settled_words(*verdict)), Outcome::Accepted)
            }
            Answer::Evicted(picked) => {
                told(write_picked(sink, "evicted", picked), Outcome::Accepted)
            }
            Answer::Block(picked) => told(write_picked(sink, "block", picked), Outcome::Accepted),
            Answer::Trimmed(picked) => {
                told(write_picked(sink, "trimmed", picked), Outcome::Accepted)
            }
            Answer::Unmined(ids) => {
                told(
                    write_ids(sink, "unmined", None, ids.as_slice()),
                    Outcome::Accepted,
                )
            }
            Answer::Reads(reading) => graph.read(*reading, sink),
        }
    }
}

/// Writes a word, and what was picked: the fee, the size, the names in their order.
fn write_picked<K: Sink>(sink: &mut K, word: &str, picked: &Picked) -> Result<(), Failed>
    ensures { Writes (K.written sink.old) (K.written sink.new) (K.faults sink.old) (K.faults sink.new) result
        (line_text (sum_line word.now (picked_sum picked.now) picked.now.ids)) }
{
    let sum = Sum {
        fee: picked.fee,
        size: picked.size,
    };
    write_ids(sink, word, Some(sum), picked.ids.as_slice())
}

/// The outcome where the text was written.
pub(crate) fn told(written: Result<(), Failed>, outcome: Outcome) -> Result<Outcome, Failed>
    ensures writes { (old new : Option (List ℕ)) (before now : ℕ) (text : List ℕ)
        → Writes old new before now written text → Writes old new before now result text }
    ensures told { IfOk result (λ o. o ≡ outcome) }
{
    match written {
        Ok(()) => Ok(outcome),
        Err(failed) => Err(failed),
    }
}
