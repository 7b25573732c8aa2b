ghost use Rattle.std.specs.Prelude.{◌≡◌, ℕ, ◌+◌};
ghost use Rattle.std.specs.Borrow.{ftrue};

use std::marker::Model;

/// How many places a queue gave before it was cleared last. Only proofs read it: it has no bytes, and its functions do
/// nothing at run time.
#[derive(Drop)]
pub(crate) struct Past {
    pub(crate) ghost places: { ℕ },
}

impl Model for Past {
    ghost also_owns = { λ _. ftrue };
}

impl Past {
    /// No places.
    pub(crate) fn none() -> Past
        ensures { result.places ≡ 0 }
    {
        Past {}
    }

    /// So many places more.
    pub(crate) fn and(&self, _more: usize) -> Past
        ensures { result.places ≡ self.now.places + _more }
    {
        Past {}
    }
}
