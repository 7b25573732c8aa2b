ghost use Rattle.std.specs.Prelude.{◌≡◌, ◌↔◌, true};
ghost use Rattle.std.specs.declared.cmp.Ordering.TheVariants.{Less};
ghost use Rattle.chunk_index.specs.KeyOrder.{key_cmp};
ghost use Rattle.chunk_index.specs.Keys.{key_of};

use crate::key::Key;
use fee_rate::FeeRate;
use std::cmp::Ordering;

/// A part of a cluster, as the index has it.
#[derive(Clone, Copy, Debug, PartialEq, Eq)]
pub struct Entry {
    /// The part's fee, in satoshis, and its size, in virtual bytes.
    pub rate: FeeRate,
    /// A number that no other cluster has: among equal rates the lower one comes first.
    pub serial: u64,
    /// Where the part stands among those of its cluster.
    pub position: usize,
    /// The number of the cluster's record. No part of the key.
    pub number: usize,
}

impl Entry {
    /// Whether walks show this entry before the other.
    pub fn is_before(&self, other: &Entry) -> bool
        ensures { (result ≡ true) ↔ (key_cmp (key_of self.now) (key_of other.now) ≡ Less) }
    {
        matches!(Key::of(self).cmp(&Key::of(other)), Ordering::Less)
    }
}

/// In which levels an entry stands.
#[derive(Clone, Copy, Debug, PartialEq, Eq)]
pub enum Tag {
    /// In main and in staging, or in main where nothing is staged.
    Both,
    /// In main, and not in staging.
    MainOnly,
    /// In staging, and not in main.
    TopOnly,
}
