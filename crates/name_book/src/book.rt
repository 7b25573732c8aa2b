//! The live names, which share clusters of main and of which some are touched.
ghost use Rattle.std.specs.Prelude.{◌≡◌, ◌≢◌, ℕ, ◌+◌, ◌-◌, ◌^◌, ◌<◌, ◌≤◌, ◌↔◌, Some, Contains, IsOk, IsTrue, OnOk, MatchOption};
ghost use Rattle.std.specs.FinSet as set;
ghost use Rattle.lists.specs.Distinct.{AreDistinct};
ghost use Rattle.name_book.specs.Books.{has, IsMarked, IsNamed};
ghost use Rattle.name_book.specs.Calls.{Drops, Gains, GathersMain, HasNone, Keeps, Parts, Releases, ReleasesAll, Touches};

use crate::table::RingTable;
use graphs::TxId;
use outside::NoMemory;
use std::alloc::Global;
use std::marker::Model;

// The ring of the names of one cluster of main, and that of the names that staging touched.
const MAIN: usize = 0;

const TOUCHED: usize = 1;

/// The live names of a graph: which of them share a cluster of main, and which are touched.
#[derive(Drop)]
pub struct NameBook {
    table: RingTable,
    // One of the touched names.
    touched: Option<TxId>,
}

impl Model for NameBook {
    ghost use Rattle.name_book.specs.Books.{Ringed, ringed_code, AreMarks};

    ghost Value = { Ringed };

    ghost coded = { ringed_code };

    ghost view = { λ a. record { book = a.table; touched = a.touched } };

    ghost invariant = { λ a. AreMarks (record { book = a.table; touched = a.touched }) };
}

impl NameBook {
    /// No name. Takes no memory.
    pub fn new(alloc: Global) -> Self
        ensures { HasNone result }
    {
        NameBook {
            table: RingTable::new(alloc),
            touched: None,
        }
    }

    /// How many names there are.
    pub fn len(&self) -> usize
        ensures { result ≡ set.len self.now.book.names }
    {
        let _touched = self.touched;
        self.table.len()
    }

    /// Whether a name is there.
    pub fn has(&self, id: TxId) -> bool
        ensures { result ≡ has self.now.book id }
    {
        let _touched = self.touched;
        self.table.has(id)
    }

    /// Makes room for `n` more names, so that as many calls of `add` can't fail.
    ///
    /// # Errors
    /// Where there is no memory for them, and the room isn't there already. All names are as they were, and the room is no less.
    pub fn reserve(&mut self, n: usize) -> Result<(), NoMemory>
        requires few { set.len self.old.book.names + n ≤ 2 ^ 32 - 1 }
        ensures room { OnOk result (n ≤ self.new.book.spare) }
        ensures ready { n ≤ self.old.book.spare → IsOk result }
        ensures kept { self.old.book.spare ≤ self.new.book.spare }
        ensures same { Keeps self.old self.new }
    {
        let _touched = self.touched;
        self.table.reserve(n)
    }

    /// Adds a name, alone in its cluster, and touched where there is a staging. Takes no memory.
    pub fn add(&mut self, id: TxId, staged: bool)
        requires absent { IsNamed self.old.book id → ⊥ }
        requires spare { 1 ≤ self.old.book.spare }
        requires issued { self.old.book.issued < 2 ^ 64 - 1 }
        ensures { Gains staged id self.old self.new }
    {
        self.table.insert(id);
        if staged {
            self.touch_all(&[id]);
        }
    }

    /// Touches names that weren't. Takes no memory, and looks each name up once.
    pub fn touch_all(&mut self, names: &[TxId])
        requires live { (x : ℕ) → Contains names.now x → IsNamed self.old.book x }
        requires once { AreDistinct names.now }
        requires untouched { (x : ℕ) → Contains names.now x → IsMarked self.old x → ⊥ }
        ensures { Touches (Contains names.now) self.old self.new }
    {
        match self.touched {
            Some(first) => self.table.gather(TOUCHED, first, names),
            None => {
                if let Some((&first, rest)) = names.split_first() {
                    self.touched = Some(first);
                    self.table.gather(TOUCHED, first, rest);
                }
            }
        }
    }

    /// These names leave their clusters of main and join that of another name, which is none of them. Takes no memory, and looks each name
    /// up once.
    pub fn gather(&mut self, to: TxId, names: &[TxId])
        requires live { IsNamed self.old.book to × ((x : ℕ) → Contains names.now x → IsNamed self.old.book x) }
        requires apart { Contains names.now to → ⊥ }
        ensures { GathersMain to names.now self.old self.new }
    {
        let _touched = self.touched;
        self.table.gather(MAIN, to, names);
    }

    /// Makes a cluster of main of these names alone. Takes no memory, and looks each name up once.
    pub fn part(&mut self, names: &[TxId])
        requires live { (x : ℕ) → Contains names.now x → IsNamed self.old.book x }
        requires once { AreDistinct names.now }
        ensures { Parts names.now self.old self.new }
    {
        let _touched = self.touched;
        self.table.make_ring(MAIN, names);
    }

    /// Drops a name. Takes no memory.
    pub fn forget(&mut self, id: TxId)
        requires live { IsNamed self.old.book id }
        ensures { Drops id self.old self.new }
    {
        self.pass_over(id);
        self.table.remove(id);
    }

    /// Takes names out of the touched ones. Takes no memory.
    pub fn release_all(&mut self, names: &[TxId])
        requires { (x : ℕ) → Contains names.now x → IsNamed self.old.book x }
        ensures { ReleasesAll names.now self.old self.new }
    {
        for id in names {
            self.release(*id);
        }
    }

    // Takes a name out of the touched ones.
    fn release(&mut self, id: TxId)
        requires live { IsNamed self.old.book id }
        ensures { Releases id self.old self.new }
    {
        self.pass_over(id);
        self.table.cut(TOUCHED, id);
    }

    // Where this name is the touched one that is kept, another of its ring is kept in its place.
    fn pass_over(&mut self, id: TxId)
        requires live { IsNamed self.old.book id }
        ensures book { self.new.book ≡ self.old.book }
        ensures touched { (x : ℕ) → x ≢ id → IsMarked self.new x ↔ IsMarked self.old x }
        ensures other { self.new.touched ≢ Some id }
    {
        if self.touched == Some(id) {
            self.touched = self.table.other(TOUCHED, id);
        }
    }

    /// Whether a name is touched. Looks the name up once, unless it is the touched one that is kept.
    pub fn is_touched(&self, id: TxId) -> bool
        requires live { IsNamed self.now.book id }
        ensures { IsTrue result ↔ IsMarked self.now id }
    {
        if self.touched == Some(id) {
            return true;
        }
        self.table.other(TOUCHED, id).is_some()
    }

    /// One of the touched names, or `None` where there is none.
    pub fn first(&self) -> Option<TxId>
        ensures marked { MatchOption result ((x : ℕ) → IsMarked self.now x → ⊥) (λ id. IsMarked self.now id × IsNamed self.now.book id) }
    {
        let _table = &self.table;
        self.touched
    }
}
