//! Mined blocks that can be taken back, as a reorganization of the chain asks for.
//!
//! [`Reorg`] keeps beside a graph what its mined blocks took out of main, and puts the latest back.
//!
//! # How it works
//!
//! - `mine` asks the graph first whether it would refuse, then takes the memory of the block, and then mines. So a call that is refused
//!   leaves the blocks as they were.
//! - The descendants of a mined transaction are those of its cluster. An oversized main answers no questions about clusters; there they are
//!   found by walks along the dependencies of all of main, which are copied into [`Links`](links::Links).
//! - `unmine` lends the latest block to [`TxGraph::restore`](tx_graph::TxGraph::restore). The block has the list of its names beside its
//!   transactions, so that the answer takes no memory once the graph has changed.
//! - Blocks stand in a ring, the latest first. To put one in front and to take one off moves no other.
#![tactic(auto)]

mod block;
mod laws;
mod linking;
mod making;
mod reorg;

pub use laws::other_commands_keep_blocks;
pub use reorg::Reorg;
