ghost use Rattle.std.specs.Prelude.{◌≡◌};

use graphs::TxId;

/// The names that a walk found, each once. Contracts see those that are still to come as `coming`.
#[derive(Clone, Copy, Debug)]
pub struct LinkWalk<'a> {
    left: &'a [TxId],
}

impl<'a> LinkWalk<'a> {
    /// These names.
    pub(crate) fn new(left: &'a [TxId]) -> Self
        ensures { result.left.now ≡ left.now }
    {
        LinkWalk { left }
    }
}

impl<'a> Iterator for LinkWalk<'a> {
    type Item = TxId;

    ghost use Rattle.std.specs.Iterator.{YieldsFirst, item_count};

    ghost next_gives = { YieldsFirst (λ it. it.left.now) };

    ghost remaining = { item_count (λ it. it.left.now) };

    fn next(&mut self) -> Option<TxId> {
        let (id, rest) = self.left.split_first()?;
        self.left = rest;
        Some(*id)
    }
}
