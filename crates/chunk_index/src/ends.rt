ghost use Rattle.std.specs.Prelude.{◌≡◌};
ghost use Rattle.chunk_index.specs.Ends.{seen_from};

use std::cmp::Ordering;

/// An end of a list in order, from which a walk takes.
#[derive(Clone, Copy)]
pub enum End {
    First,
    Last,
}

impl End {
    /// How two keys compare as seen from this end: what stands nearer to it is the less.
    #[inline(always)]
    pub fn seen(self, order: Ordering) -> Ordering
        ensures { result ≡ seen_from self order }
    {
        match self {
            End::First => order,
            End::Last => order.reverse(),
        }
    }
}
