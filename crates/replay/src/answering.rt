//! The command `replay`: the lines of a source are answered as they come.
ghost use Rattle.std.specs.Prelude.{◌≡◌, ◌≢◌, ℕ, ◌≤◌, ◌⊎◌, List, [], false, IfOk, OnOk, OnErr, MatchResult};
ghost use Rattle.std.specs.Io.KnownBytes.{Appends};
ghost use Rattle.graph_model.specs.States.{start};
ghost use Rattle.replay.specs.declared.session.TheConstants.{MOST_NAMES};
ghost use Rattle.outside.specs.Faults.{CountsFaults};
ghost use Rattle.outside.specs.Transfers.{AppendsFront};
ghost use Rattle.reorg.specs.Kept.{StandsFor};
ghost use Rattle.replay.specs.Cuts.{HasLine};
ghost use Rattle.replay.specs.Gatherings.{Sends};
ghost use Rattle.replay.specs.Inputs.{ReadFaults};
ghost use Rattle.replay.specs.Statuses.{IsAnswered, IsCutOff};

use crate::input::End;
use crate::lines::{Lines, Next, Stage};
use crate::replies::Replies;
use crate::session::Session;
use outside::{Failed, Sink, Source};

/// Answers the lines of a source from the start, and tells how reading ended. Replies go out before each read, when their
/// room is full, and at the end. The first write that fails ends it with `Failed`.
pub(crate) fn answer_lines<S: Source, K: Sink>(
    session: &mut Session<2>,
    lines: &mut Lines,
    replies: &mut Replies,
    source: &mut S,
    sink: &mut K,
) -> Result<End, Failed>
    requires fresh { StandsFor session.old (start MOST_NAMES) }
    requires none_added { session.old.graph.levels.issued ≡ 0 }
    requires none_held { lines.old.held ≡ [] }
    requires none_dropped { lines.old.long ≡ false }
    requires none_taken { lines.old.taken ≡ 0 }
    requires going { lines.old.stage ≡ Stage.Open }
    requires no_replies { replies.old ≡ [] }
    ensures answered { IfOk result (λ end. IsAnswered end (S.left source.old) (S.left source.new) (K.written sink.old)
        (K.written sink.new)) }
    ensures cut_off { OnErr result (IsCutOff (S.left source.old) (S.left source.new) (K.written sink.old)
        (K.written sink.new)) }
    ensures reads { MatchResult result (λ end. ReadFaults end (S.faults source.old) (S.faults source.new))
        (λ _. S.faults source.new ≡ S.faults source.old) }
    ensures writes { CountsFaults (K.faults sink.old) (K.faults sink.new) result }
{
    'turns: loop {
        match make_way(lines, replies, sink) {
            Ok(()) => {}
            Err(failed) => return Err(failed),
        }
        match lines.next(source) {
            Next::Line(piece) => match session.gather(piece, replies, sink) {
                Ok(_) => {}
                Err(failed) => return Err(failed),
            },
            Next::End => return finish(End::Told, replies, sink),
            Next::Limit => return finish(End::Limit, replies, sink),
            Next::Fault => return Ok(End::Fault),
        }
    }
}

/// Lets the replies go out, if the next line has to be read.
fn make_way<K: Sink>(lines: &Lines, replies: &mut Replies, sink: &mut K) -> Result<(), Failed>
    ensures ok { OnOk result (Sends (K.written sink.old) (K.written sink.new) replies.old replies.new) }
    ensures empty { OnOk result ((replies.new ≡ []) ⊎ (HasLine lines.now.held ⊎ (lines.now.stage ≢ Stage.Open))) }
    ensures err { OnErr result (AppendsFront (K.written sink.old) (K.written sink.new) replies.old) }
    ensures cause { CountsFaults (K.faults sink.old) (K.faults sink.new) result }
{
    if lines.is_ready() {
        return Ok(());
    }
    replies.send(sink)
}

/// Lets the last replies go out, where reading has ended.
fn finish<K: Sink>(end: End, replies: &mut Replies, sink: &mut K) -> Result<End, Failed>
    ensures ok { IfOk result (λ told. (told ≡ end) × Appends (K.written sink.old) (K.written sink.new) replies.old) }
    ensures err { OnErr result (AppendsFront (K.written sink.old) (K.written sink.new) replies.old) }
    ensures cause { CountsFaults (K.faults sink.old) (K.faults sink.new) result }
{
    match replies.send(sink) {
        Ok(()) => Ok(end),
        Err(failed) => Err(failed),
    }
}
