ghost use Rattle.std.specs.Prelude.{◌↔◌, IsTrue};
ghost use Rattle.graph_model.specs.Limits.{AreInRange, bounds_of};

use crate::Limits;
use fee_rate::MAX_TOTAL;

/// The most names that any graph can allow a cluster: 64 for each of the two words that its sets have at most. What a graph
/// of W words allows is 64·W.
pub const MAX_COUNT: u64 = 128;

/// The greatest total size of a cluster that may be set as a limit, in virtual bytes.
pub const MAX_CLUSTER_SIZE: u64 = 512_000_000;

/// The limits at the start.
pub const DEFAULT_LIMITS: Limits = Limits {
    count: 64,
    size: 404_000,
    total: 1_048_576,
    defer: false,
};

/// The most mined blocks that are kept to be taken back.
pub const MAX_BLOCKS: usize = 100;

/// The longest line that is read, in bytes, without its line feed and with a carriage return at its end.
pub const MAX_LINE: usize = 65_536;

/// The longest input that is read, in bytes.
pub const MAX_INPUT: usize = 268_435_456;

impl Limits {
    /// Whether they may be set where a cluster may be allowed `most` names: each is in its range.
    pub fn are_in_range(&self, most: u64) -> bool
        ensures { IsTrue result ↔ AreInRange most (bounds_of self.now) }
    {
        (1..=most).contains(&self.count)
            && (1..=MAX_CLUSTER_SIZE).contains(&self.size)
            && (1..=MAX_TOTAL).contains(&self.total)
    }
}
