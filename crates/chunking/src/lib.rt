//! Chunking: the parts (chunks) of falling feerate of a given order of transactions.
//!
//! Each transaction is put behind the parts so far as a part of its own; while the last part's rate is
//! greater than that of the part before it, the two are joined. An order has exactly one list of parts in
//! which rates fall and no part begins with anything as good as the whole part; this rule finds it.
#![tactic(auto)]

mod chunks;
mod laws;

pub use chunks::{Chunk, chunk_list};
pub use laws::parts_are_unique;
