ghost use Rattle.std.specs.Prelude.{◌≡◌, ◌+◌, ◌≤◌, [], length, take, drop};
ghost use Rattle.std.specs.Iterator.{YieldsFirst, YieldsLast};

use crate::entry::Entry;
use crate::tree::Tree;
use fee_rate::FeeRate;
use std::marker::Model;

/// Some entries of a tree that were read ahead of their use. Contracts see those that were not taken yet.
#[derive(Drop)]
pub struct Ahead {
    // They stand from `next` up to `filled`.
    entries: [Entry; Ahead::MOST],
    next: usize,
    filled: usize,
}

impl Model for Ahead {
    ghost use Rattle.std.specs.Prelude.{◌≤◌, List, slice_range};
    ghost use Rattle.chunk_index.specs.declared.entry.Entry.{Entry};

    ghost Value = { List Entry };

    ghost view = { λ a. slice_range a.entries a.next a.filled };

    ghost invariant = { λ a. (a.next ≤ a.filled) × (a.filled ≤ 16) };
}

impl Ahead {
    /// How many entries are read at a time.
    pub const MOST: usize = 16;

    /// No entries.
    pub fn new() -> Ahead
        ensures { result ≡ [] }
    {
        let nothing = Entry {
            rate: FeeRate { fee: 0, size: 0 },
            serial: 0,
            position: 0,
            number: 0,
        };
        Ahead {
            entries: [nothing; Ahead::MOST],
            next: 0,
            filled: 0,
        }
    }

    /// Reads so many entries of a tree from the one with `at` before it on, in the place of what is left.
    pub fn read(&mut self, tree: &Tree, at: usize, count: usize)
        requires few { count ≤ 16 }
        requires within { at + count ≤ length tree.now }
        ensures { self.new ≡ take count (drop at tree.now) }
    {
        tree.copy_from(at, &mut self.entries[..count]);
        self.next = 0;
        self.filled = count;
    }

    /// The first entry that is left.
    #[inline(always)]
    pub fn take_first(&mut self) -> Option<Entry>
        ensures { YieldsFirst (λ es. es) self.old result self.new }
    {
        if self.next == self.filled {
            return None;
        }
        let entry = self.entries[self.next];
        self.next += 1;
        Some(entry)
    }

    /// The last entry that is left.
    pub fn take_last(&mut self) -> Option<Entry>
        ensures { YieldsLast (λ es. es) self.old result self.new }
    {
        if self.next == self.filled {
            return None;
        }
        self.filled -= 1;
        Some(self.entries[self.filled])
    }
}
