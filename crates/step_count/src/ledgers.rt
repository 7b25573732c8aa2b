ghost use Rattle.std.specs.Prelude.{◌≡◌, ℕ, ◌+◌, ◌-◌, ◌^◌, ◌<◌, min};

use std::marker::Model;
use std::sync::ledger;
use std::sync::ledger::{Blank, Book, Share};

/// Where steps are written down. The count is seen by contracts; `tick` raises it by one and nothing lowers it.
pub trait Ledger {
    ghost count: { Self → ℕ };

    /// Writes one step down.
    fn tick(&mut self)
        ensures { count self.new ≡ count self.old + 1 };
}

/// A ledger that keeps nothing at run time: its count is a token's, which takes no bytes.
///
/// `K` names the token. A caller gets one by passing `Blank::new(1)` to a function over `K`.
#[derive(Drop)]
pub struct NoLedger<K: ledger::Ledger> {
    book: Book<K>,
    share: Share<K>,
}

impl<K: ledger::Ledger> Model for NoLedger<K> {
    ghost Value = { ℕ };

    ghost view = { λ l. l.book.total };

    ghost invariant = { λ l. 0 < l.share.parts };
}

impl<K: ledger::Ledger> NoLedger<K> {
    /// A ledger with no step in it, out of a token of at least one part that nobody uses yet.
    pub fn new(blank: Blank) -> Self
        requires name { blank.name ≡ K.name }
        requires parts { blank.parts ≡ K.parts }
        requires some { 0 < blank.parts }
        ensures { result ≡ 0 }
    {
        let (book, share) = blank.open::<K>();
        NoLedger { book, share }
    }
}

impl<K: ledger::Ledger> Ledger for NoLedger<K> {
    ghost count = { λ l. l };

    fn tick(&mut self) {
        self.book.add(&mut self.share, 1);
    }
}

/// A ledger that shows its count: the lesser of the count and 2^64 − 1.
#[derive(Drop)]
pub struct Counted<K: ledger::Ledger> {
    exact: NoLedger<K>,
    shown: u64,
}

impl<K: ledger::Ledger> Model for Counted<K> {
    ghost Value = { ℕ };

    ghost view = { λ l. l.exact };

    ghost invariant = { λ l. l.shown ≡ min l.exact (2 ^ 64 - 1) };
}

impl<K: ledger::Ledger> Counted<K> {
    /// A ledger with no step in it, out of a token of at least one part that nobody uses yet.
    pub fn new(blank: Blank) -> Self
        requires name { blank.name ≡ K.name }
        requires parts { blank.parts ≡ K.parts }
        requires some { 0 < blank.parts }
        ensures { result ≡ 0 }
    {
        Counted {
            exact: NoLedger::new(blank),
            shown: 0,
        }
    }

    /// The steps so far, or 2^64 − 1 where they are more.
    pub fn shown(&self) -> u64
        ensures { result ≡ min self.now (2 ^ 64 - 1) }
    {
        self.shown
    }
}

impl<K: ledger::Ledger> Ledger for Counted<K> {
    ghost count = { λ l. l };

    fn tick(&mut self) {
        self.exact.tick();
        self.shown = self.shown.saturating_add(1);
    }
}
