//! The chunks of clusters in one order, each with the levels that it stands in.
//!
//! Contracts see an index as the list of its entries with their tags, in strict key order: falling feerate by exact products,
//! then rising serial, position and size. A tag says whether an entry stands in main alone, in staging alone, or in both levels.
//!
//! # How it works
//!
//! An ordered map has the number of each entry's record under its key. Beside it stand weight-balanced trees of boxed nodes:
//!
//! - One tree has the entries of main alone. The map has them too: an entry's tag is told by the tree that has its key.
//! - One has the fresh entries, which came in staging alone. The map doesn't have them. Most go out again before the staging ends,
//!   and a search in a map of hundreds of thousands waits for memory at each level.
//! - One has the late entries: fresh ones that came into main, which takes no memory. Each insertion, which takes memory anyway, brings
//!   up to two of them into the map. Walks merge the map with this tree.
//! - One has entries that were changed from both levels to staging alone, which no crate above does.
//!
//! An insertion makes one node. For an entry of staging alone it makes two: one to stand in now, and one for when main has the entry. Nodes that
//! stand in no tree wait in a stack, and some nodes of entries that go out are kept for others that come. So a change of tags takes no memory.
//!
//! # What calls cost
//!
//! `take` and `move_tag` are told the entry's tag. They search the tree of that tag and the tree that the entry comes into. `remove` and `retag`
//! look for the tag first. All of these take logarithmic time. `settle` takes the trees of one level alone apart whole, node by node: of the
//! entries that stand in both levels it looks at none.
//!
//! A step of a level's walk is a step of the map's iterator and, while something is staged, a search in each tree for the entry's tag. A walk over
//! one tag's tree reads up to 16 entries ahead for one search by rank; from its end it takes one search for each entry.
#![tactic(auto)]

mod ahead;
mod apart;
mod emptying;
mod ends;
mod entry;
mod index;
mod key;
mod laws;
mod numbers;
mod part;
mod sort_key;
mod spares;
mod tree;
mod walk;

pub use entry::{Entry, Tag};
use graphs::Level;
pub use index::ChunkIndex;
pub use laws::{changes_touch_one_key, keys_stand_by_rate, walks_are_in_order};
pub use walk::IndexWalk;
