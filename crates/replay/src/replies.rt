ghost use Rattle.std.specs.Prelude.{◌≡◌, ℕ, ◌<◌, List, [], ◌++◌, IfOk, OnOk, OnErr, vec_capacity};
ghost use Rattle.std.specs.Io.KnownBytes.{Appends};
ghost use Rattle.outside.specs.Faults.{CountsFaults};
ghost use Rattle.outside.specs.Transfers.{AppendsFront};
ghost use Rattle.replay.specs.Answers.{Tells};
ghost use Rattle.replay.specs.Gatherings.{GathersAnswer, Grows};

use crate::answer::{Answer, Outcome};
use crate::commands::Obeys;
use crate::gathered::{Gathered, Opening, send};
use core::mem::replace_with;
use graph_model::TxId;
use outside::{Failed, NoMemory, Sink};
use std::alloc::Global;
use std::marker::{Brand, Model};
use std::mem::replace;

/// How many bytes of replies are held before they go out.
const HELD: usize = 65_536;

/// Replies that weren't written out yet, in room that is taken once.
#[derive(Drop)]
pub(crate) struct Replies {
    alloc: Global,
    held: Vec<u8>,
}

impl Model for Replies {
    ghost use Rattle.std.specs.Prelude.{ℕ, ◌<◌, List, vec_capacity};

    ghost Value = { List ℕ };

    ghost view = { λ a. a.held.items };

    ghost invariant = { λ a. 0 < vec_capacity a.held };
}

impl Replies {
    /// No replies, and room for some.
    pub(crate) fn new(alloc: Global) -> Result<Replies, NoMemory>
        ensures { IfOk result (λ replies. replies ≡ []) }
    {
        Ok(Replies {
            alloc,
            held: Vec::with_capacity(alloc, HELD)?,
        })
    }

    /// Writes out what is held. The first write that fails ends it; a front of what was held went out then.
    pub(crate) fn send<K: Sink>(&mut self, sink: &mut K) -> Result<(), Failed>
        ensures ok { OnOk result ((self.new ≡ []) × Appends (K.written sink.old) (K.written sink.new) self.old) }
        ensures err { OnErr result (AppendsFront (K.written sink.old) (K.written sink.new) self.old) }
        ensures cause { CountsFaults (K.faults sink.old) (K.faults sink.new) result }
    {
        send(sink, &mut self.held)
    }

    /// Holds the text of an answer, and tells the outcome. Where the room is full, what is held goes out. The first write
    /// that fails ends it; a front of what was held and of the text went out then.
    pub(crate) fn tell<G: Obeys, K: Sink>(
        &mut self,
        graph: &G,
        answer: &Answer,
        found: &[TxId],
        sink: &mut K,
    ) -> Result<Outcome, Failed>
        ensures gathers { GathersAnswer (Tells (G.kept graph.now) answer.now found.now) (K.written sink.old)
            (K.written sink.new) self.old self.new result }
        ensures cause { CountsFaults (K.faults sink.old) (K.faults sink.new) result }
    {
        let held = replace(&mut self.held, Vec::new(self.alloc));
        let (outcome, held) = replace_with(sink, (graph, answer, found, held), tell_behind);
        self.held = held;
        outcome
    }
}

/// Writes the text of an answer behind what is held before a sink.
fn tell_behind<G: Obeys, K: Sink>(
    sink: K,
    told: (&G, &Answer, &[TxId], Vec<u8>),
) -> (K, (Result<Outcome, Failed>, Vec<u8>))
    requires { 0 < vec_capacity told.3 }
    ensures gathers { GathersAnswer (Tells (G.kept told.entry.0.now) told.entry.1.now told.entry.2.now) (K.written sink)
        (K.written result.0) told.entry.3.items result.1.1.items result.1.0 }
    ensures cause { CountsFaults (K.faults sink) (K.faults result.0) result.1.0 }
    ensures room { 0 < vec_capacity result.1.1 }
{
    let (graph, answer, found, held) = told;
    tell_from::<Brand, G, K>(sink, graph, answer, found, held)
}

/// The same, where it is known what the sink had been given.
fn tell_from<L: Opening, G: Obeys, K: Sink>(
    sink: K,
    graph: &G,
    answer: &Answer,
    found: &[TxId],
    held: Vec<u8>,
) -> (K, (Result<Outcome, Failed>, Vec<u8>))
    requires first { K.written sink ≡ L.first }
    requires room { 0 < vec_capacity held }
    ensures gathers { GathersAnswer (Tells (G.kept graph.now) answer.now found.now) (K.written sink)
        (K.written result.0) held.items result.1.1.items result.1.0 }
    ensures cause { CountsFaults (K.faults sink) (K.faults result.0) result.1.0 }
    ensures room { 0 < vec_capacity result.1.1 }
{
    let mut gathered = Gathered::<K, L>::new(sink, held);
    let outcome = answer.tell(graph, found, &mut gathered);
    let (sink, held) = gathered.into_parts();
    (sink, (outcome, held))
}
