//! A walk along a ring.
ghost use Rattle.std.specs.Prelude.{◌<◌};
ghost use Rattle.node_pool.specs.Nodes.{HasNode};

use crate::pool::{Key, Pool};

/// The keys of a ring, each once, from the one that the walk began at.
#[derive(Drop)]
pub struct Ring<'a, T, const R: usize> {
    pub(crate) pool: &'a Pool<T, R>,
    pub(crate) r: usize,
    pub(crate) first: u32,
    pub(crate) slot: u32,
    // At most how many keys are left: none once the walk has come back to the first.
    pub(crate) left: usize,
    ghost in_range: { r < R },
    ghost held: { HasNode pool.now slot },
}

impl<'a, T, const R: usize> Iterator for Ring<'a, T, R> {
    type Item = Key;

    ghost use Rattle.std.specs.Iterator.{YieldsFirst, item_count};
    ghost use Rattle.node_pool.specs.RingKeys.{ring_keys};

    ghost next_gives = { YieldsFirst ring_keys };

    ghost remaining = { item_count ring_keys };

    fn next(&mut self) -> Option<Key> {
        if self.left == 0 {
            return None;
        }
        let (key, next) = self.pool.step(self.r, self.slot);
        self.slot = next;
        self.left = if next == self.first { 0 } else { self.left - 1 };
        Some(key)
    }
}
