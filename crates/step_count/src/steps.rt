ghost use Rattle.std.specs.Prelude.{◌≡◌, ℕ, ◌+◌};

use crate::Ledger;
use std::marker::Model;

/// The steps of a caller, as counted by its ledger. It only rises, by one each `tick`.
#[derive(Drop)]
pub struct Steps<L: Ledger> {
    ledger: L,
}

impl<L: Ledger> Model for Steps<L> {
    ghost Value = { ℕ };

    ghost view = { λ s. L.count s.ledger };
}

impl<L: Ledger> Steps<L> {
    /// The steps that stand in a ledger.
    pub fn new(ledger: L) -> Self
        ensures { result ≡ L.count ledger }
    {
        Steps { ledger }
    }

    /// Counts one step.
    pub fn tick(&mut self)
        ensures { self.new ≡ self.old + 1 }
    {
        self.ledger.tick();
    }

    /// The ledger that the steps stand in.
    pub fn ledger(&self) -> &L
        ensures { L.count result.now ≡ self.now }
    {
        &self.ledger
    }
}
