//! A pool of nodes that never move, each under a key of its own, with rings among the nodes.
//!
//! A key that was taken finds nothing ever after, and no later node gets the same key.
//!
//! # Raw memory
//!
//! Raw pointers stand in one file, `cells.rt`, in six functions whose proofs are written by hand. All code above them is safe.
//!
//! | Function | What its proof shows |
//! |---|---|
//! | `allocate` | a block of the allocator is this many places, each empty, with the right to give the block back |
//! | `deallocate` | a block whose places are all empty goes back, once, to the allocator that it came from, with the size it was taken with |
//! | `Cells::write` | an empty place of the block holds the value then, and every other place is as it was |
//! | `Cells::read` | the value of a place moves out, and the place is empty then |
//! | `Cells::get` | the reference is to the value of the place, which stays while the block is borrowed |
//! | `Cells::get_mut` | the same to write to; the place holds the value last written |
#![tactic(auto)]

mod block;
mod cells;
mod laws;
mod places;
mod pool;
mod ring;
mod rings;
mod store;

pub use laws::keys_are_used_once;
pub use pool::{Key, Pool, PoolFault};
pub use ring::Ring;
