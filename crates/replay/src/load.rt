//! The command `load`: a text is loaded as a graph, whose order is proved.
ghost use Rattle.std.specs.Prelude.{◌≡◌, ℕ, ◌<◌, ◌*◌, []};
ghost use Rattle.dump.specs.Loading.{LoadGives};
ghost use Rattle.graph_model.specs.Commands as commands;
ghost use Rattle.graph_model.specs.Limits.{default_limits};
ghost use Rattle.graph_model.specs.Runs as runs;
ghost use Rattle.graph_model.specs.Runs.{answer_text};
ghost use Rattle.graph_model.specs.Words.{line_text};
ghost use Rattle.graphs.specs.declared.names.Level.TheVariants.{Main};
ghost use Rattle.replay.specs.declared.session.TheConstants.{MOST_NAMES};
ghost use Rattle.replay.specs.Answers.{IsReadOf};
ghost use Rattle.replay.specs.Loads.{Loads, LoadsBytes, Tells};
ghost use Rattle.replay.specs.Statuses.{StatusFaults};

use crate::answer::Answer;
use crate::input::{End, read_input};
use crate::reading::Reading;
use crate::replies::Replies;
use crate::top::Status;
use dump::{LoadFault, load};
use graph_model::{DEFAULT_LIMITS, Level};
use mempool::Mempool;
use outside::{Failed, Sink, Source};
use std::alloc::Global;
use std::marker::Brand;
use std::sync::ledger;
use std::sync::ledger::Blank;
use step_count::{NoLedger, Steps};
use tx_graph::TxGraph;
use wire::write_word;

/// Reads a text to its end, loads it under the default limits, and writes the proof of the graph's order, or why the text
/// is refused. Where reading doesn't come to the end, nothing is written.
pub(crate) fn load_text<S: Source, K: Sink>(alloc: Global, source: &mut S, sink: &mut K) -> Status
    ensures loads { Loads result (S.left source.old) (S.left source.new) K.written sink.old sink.new }
    ensures no_memory { result ≡ Status.NoMemory → sink.new ≡ sink.old }
    ensures faults { StatusFaults result (S.faults source.old) (S.faults source.new) (K.faults sink.old)
        (K.faults sink.new) }
{
    let Ok(input) = read_input(alloc, source) else {
        return Status::NoMemory;
    };
    match input.end {
        End::Told => {}
        End::Fault => return Status::ReadFault,
        End::Limit => return Status::InputLimit,
    }
    load_bytes(alloc, &input.bytes, sink)
}

/// Loads these bytes, and writes what is to be said of them.
fn load_bytes<K: Sink>(alloc: Global, bytes: &[u8], sink: &mut K) -> Status
    ensures loads { LoadsBytes result bytes.now K.written sink.old sink.new }
    ensures faults { (reads : ℕ) → StatusFaults result reads reads (K.faults sink.old) (K.faults sink.new) }
{
    let Ok(mut replies) = Replies::new(alloc) else {
        return Status::NoMemory;
    };
    match load_unpaid::<Brand>(alloc, bytes, Blank::new(1)) {
        Ok(graph) => {
            let pool = Mempool::of(alloc, graph);
            let status = prove(&pool, &mut replies, sink);
            drop(pool);
            status
        }
        Err(LoadFault::Syntax) => refuse("no syntax", sink),
        Err(LoadFault::Graph) => refuse("no graph", sink),
        Err(LoadFault::Limits) => refuse("no limits", sink),
        Err(LoadFault::Memory) => Status::NoMemory,
    }
}

/// Loads these bytes under the default limits, where nobody reads the steps: their ledger is a token that keeps nothing.
fn load_unpaid<K: ledger::Ledger>(
    alloc: Global,
    bytes: &[u8],
    blank: Blank,
) -> Result<TxGraph<2>, LoadFault>
    requires name { blank.name ≡ K.name }
    requires parts { blank.parts ≡ K.parts }
    requires some { 0 < blank.parts }
    ensures loads { LoadGives MOST_NAMES default_limits bytes.now result }
{
    let mut steps = Steps::new(NoLedger::<K>::new(blank));
    load(alloc, bytes, DEFAULT_LIMITS, &mut steps)
}

/// Writes the proof of the order of main, and answers the status for it. The lines gather, and go out in large pieces.
fn prove<K: Sink>(pool: &Mempool<2>, replies: &mut Replies, sink: &mut K) -> Status
    requires none_held { replies.old ≡ [] }
    ensures tells { Tells Status.Done result (λ text. (answer : runs.Answer)
        × IsReadOf pool.now (commands.Proof Main) answer × (text ≡ answer_text answer))
        (K.written sink.old) (K.written sink.new) }
    ensures faults { (reads : ℕ) → StatusFaults result reads reads (K.faults sink.old) (K.faults sink.new) }
{
    let answer = Answer::Reads(Reading::Proof(Level::Main));
    match replies.tell(pool, &answer, &[], sink) {
        Ok(_) => {}
        Err(Failed) => return Status::WriteFault,
    }
    match replies.send(sink) {
        Ok(()) => Status::Done,
        Err(Failed) => Status::WriteFault,
    }
}

/// Writes why a text is refused, and answers the status for it.
fn refuse<K: Sink>(words: &str, sink: &mut K) -> Status
    ensures tells { Tells Status.No result (λ text. text ≡ line_text words.now) (K.written sink.old) (K.written sink.new) }
    ensures faults { (reads : ℕ) → StatusFaults result reads reads (K.faults sink.old) (K.faults sink.new) }
{
    match write_word(sink, words) {
        Ok(()) => Status::No,
        Err(Failed) => Status::WriteFault,
    }
}
