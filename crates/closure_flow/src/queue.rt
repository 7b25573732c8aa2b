ghost use Rattle.std.specs.Prelude.{◌≡◌, ◌+◌, ◌*◌, ◌<◌, ◌≤◌, ◌++◌, ◌∷◌, [], length, IfOk, MatchOption};
ghost use Rattle.closure_flow.specs.Queues.{from_at, place_at};

use crate::past::Past;
use bitset::Bits;
use outside::NoMemory;
use std::alloc::Global;
use std::marker::Model;
use step_count::{Ledger, Steps};

/// A place that a search found, and the position in the queue of the entry from which it found it, if it did not
/// start there.
#[derive(Clone, Copy, Debug)]
pub struct Entry {
    pub place: usize,
    pub from: Option<usize>,
}

/// The places that a search found, first in, first out. What was taken stays, so that a path can be read backward.
///
/// It has room for 64·W entries.
#[derive(Drop)]
pub struct Queue<const W: usize> {
    entries: Vec<Entry>,
    taken: usize,
    past: Past,
}

// Clauses see the entries, how many of them were taken, and how many places the queue ever gave: those of before it was
// cleared last, and those that were taken since.
impl<const W: usize> Model for Queue<W> {
    ghost use Rattle.std.specs.Prelude.{◌+◌, ◌*◌, ◌≤◌, vec_len, vec_capacity};
    ghost use Rattle.closure_flow.specs.Queues.{Line};

    ghost Value = { Line };

    ghost view = { λ q. record { entries = q.entries.items; taken = q.taken; given = q.past.places + q.taken } };

    ghost invariant = { λ q. (q.taken ≤ vec_len q.entries) × (64 * W ≤ vec_capacity q.entries) };
}

impl<const W: usize> Queue<W> {
    /// An empty queue with room for `room` entries, which is 64·W.
    pub fn new(alloc: Global, room: usize) -> Result<Self, NoMemory>
        requires { room ≡ 64 * W }
        ensures entries { IfOk result (λ q. q.entries ≡ []) }
        ensures taken { IfOk result (λ q. q.taken ≡ 0) }
        ensures given { IfOk result (λ q. q.given ≡ 0) }
    {
        Ok(Queue {
            entries: Vec::with_capacity(alloc, room)?,
            taken: 0,
            past: Past::none(),
        })
    }

    /// Takes the oldest place that was not taken yet, and counts a step for it.
    pub fn take<L: Ledger>(&mut self, steps: &mut Steps<L>) -> Option<usize>
        ensures none { MatchOption result (self.old.taken ≡ length self.old.entries)
            (λ _. self.old.taken < length self.old.entries) }
        ensures place { MatchOption result (self.new ≡ self.old) (λ p. p ≡ place_at self.old.entries self.old.taken) }
        ensures entries { self.new.entries ≡ self.old.entries }
        ensures taken { MatchOption result (self.new.taken ≡ self.old.taken)
            (λ _. self.new.taken ≡ self.old.taken + 1) }
        ensures given { MatchOption result (self.new.given ≡ self.old.given)
            (λ _. self.new.given ≡ self.old.given + 1) }
        ensures step { MatchOption result (steps.new ≡ steps.old) (λ _. steps.new ≡ steps.old + 1) }
    {
        if self.taken == self.entries.len() {
            return None;
        }
        let place = self.entries[self.taken].place;
        self.taken += 1;
        steps.tick();
        Some(place)
    }

    /// How many entries were taken.
    pub fn taken(&self) -> usize
        ensures taken { result ≡ self.now.taken }
        ensures within { self.now.taken ≤ length self.now.entries }
    {
        self.taken
    }

    /// The entry at a position.
    pub fn entry(&self, at: usize) -> Entry
        requires { at < length self.now.entries }
        ensures place { result.place ≡ place_at self.now.entries at }
        ensures from { result.from ≡ from_at self.now.entries at }
    {
        self.entries[at]
    }

    /// Forgets all entries.
    pub fn clear(&mut self)
        ensures entries { self.new.entries ≡ [] }
        ensures taken { self.new.taken ≡ 0 }
        ensures given { self.new.given ≡ self.old.given }
    {
        self.past = self.past.and(self.taken);
        self.taken = 0;
        self.entries.clear();
    }

    /// Puts an entry behind the others, where there are fewer than 64·W.
    pub fn push(&mut self, entry: Entry)
        requires { length self.old.entries < 64 * W }
        ensures entries { self.new.entries ≡ self.old.entries ++ entry ∷ [] }
        ensures taken { self.new.taken ≡ self.old.taken }
        ensures given { self.new.given ≡ self.old.given }
    {
        let pushed = self.entries.push(entry);
        prove!(pushed.is_ok());
    }
}
