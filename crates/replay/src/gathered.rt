ghost use Rattle.std.specs.Prelude.{◌≡◌, ℕ, ◌+◌, ◌<◌, ◌≤◌, List, [], ◌++◌, length, OnOk, OnErr, vec_capacity};
ghost use Rattle.std.specs.declared.option.Option.{Option};
ghost use Rattle.std.specs.Io.KnownBytes.{Appends, WriteAppends, append_known};
ghost use Rattle.outside.specs.Faults.{CountsFaults};
ghost use Rattle.outside.specs.Transfers.{TakesSome};
ghost use Rattle.replay.specs.Gatherings.{Sends, Grows};

use outside::{Failed, Sink};
use std::marker::{Brand, Model, PhantomData};

/// What a sink had been given before replies gathered for it.
pub(crate) trait Opening {
    ghost first: { Option (List ℕ) };
}

impl Opening for Brand {
    ghost use Rattle.std.specs.Prelude.{None};

    ghost first = { None };
}

/// A sink before a sink: what it takes is held until the room is full, and goes out then. What was written to it is what
/// went out and then what is held.
pub(crate) struct Gathered<K: Sink, L: Opening> {
    sink: K,
    held: Vec<u8>,
    of: PhantomData<L>,
}

impl<K: Sink, L: Opening> Model for Gathered<K, L> {
    ghost use Rattle.std.specs.Prelude.{◌<◌, vec_capacity};
    ghost use Rattle.replay.specs.Gatherings.{Outlet, Grows};

    ghost Value = { Outlet K };

    ghost view = { λ a. record { sink = a.sink; held = a.held.items } };

    ghost invariant = { λ a. Grows L.first (K.written a.sink) × (0 < vec_capacity a.held) };
}

impl<K: Sink, L: Opening> Gathered<K, L> {
    /// A sink before this one, which holds these bytes so far.
    pub(crate) fn new(sink: K, held: Vec<u8>) -> Gathered<K, L>
        requires first { Grows L.first (K.written sink) }
        requires room { 0 < vec_capacity held }
        ensures { result ≡ record { sink = sink; held = held.items } }
    {
        Gathered {
            sink,
            held,
            of: PhantomData,
        }
    }

    /// The sink behind it, and what is held.
    pub(crate) fn into_parts(self) -> (K, Vec<u8>)
        ensures sink { result.0 ≡ self.sink }
        ensures held { result.1.items ≡ self.held }
        ensures room { 0 < vec_capacity result.1 }
        ensures grows { Grows L.first (K.written result.0) }
    {
        let Gathered { sink, held, of: _ } = self;
        (sink, held)
    }
}

impl<K: Sink, L: Opening> Sink for Gathered<K, L> {
    ghost written = { λ g. append_known (K.written g.sink) g.held };

    ghost faults = { λ g. K.faults g.sink };

    fn write(&mut self, piece: &[u8]) -> Result<usize, Failed> {
        gather(&mut self.sink, &mut self.held, piece)
    }
}

/// Takes as much of a piece as there is room for, behind what is held. Where there is no room, what is held goes out first.
fn gather<K: Sink>(sink: &mut K, held: &mut Vec<u8>, piece: &[u8]) -> Result<usize, Failed>
    requires { 0 < vec_capacity held.old }
    ensures bound { TakesSome result piece.now }
    ensures bytes { WriteAppends (append_known (K.written sink.old) held.old.items)
        (append_known (K.written sink.new) held.new.items) result piece.now }
    ensures cause { CountsFaults (K.faults sink.old) (K.faults sink.new) result }
    ensures grows { Grows (K.written sink.old) (K.written sink.new) }
    ensures room { 0 < vec_capacity held.new }
{
    if held.len() == held.capacity() {
        match send(sink, held) {
            Ok(()) => {}
            Err(failed) => return Err(failed),
        }
    }
    let count = piece.len().min(held.capacity() - held.len());
    match held.extend_from_slice(&piece[..count]) {
        Ok(()) => Ok(count),
        Err(_) => unreachable!(),
    }
}

/// Writes out what is held. The first write that fails ends it, and what wasn't taken is held still.
pub(crate) fn send<K: Sink>(sink: &mut K, held: &mut Vec<u8>) -> Result<(), Failed>
    ensures sends { Sends (K.written sink.old) (K.written sink.new) held.old.items held.new.items }
    ensures all { OnOk result (held.new.items ≡ []) }
    ensures cause { CountsFaults (K.faults sink.old) (K.faults sink.new) result }
    ensures room { vec_capacity held.new ≡ vec_capacity held.old }
{
    let mut at = 0;
    'pieces: while at < held.len() {
        match sink.write(&held[at..]) {
            Ok(count) => at += count,
            Err(failed) => {
                held.rotate_left(at);
                held.truncate(held.len() - at);
                return Err(failed);
            }
        }
    }
    held.clear();
    Ok(())
}
