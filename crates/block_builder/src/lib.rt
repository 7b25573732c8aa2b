//! Blocks: parts of main in main's order, for as long as they fit.
//!
//! [`Builder`] is the block builder of Bitcoin Core's `txgraph.h`: it offers the parts of main one by one, from the greatest feerate on, and
//! its caller includes or skips each. Of a skipped cluster no further part is offered, since a later part may depend on the one
//! that was skipped. [`Builder::fill`] makes the block of some size in which each part that fits is included and each other one skipped.
//!
//! Clusters are told by their numbers in the graph: for each number a mark says whether it was skipped. Fees are in satoshis and
//! sizes in virtual bytes.
#![tactic(auto)]

mod ahead;
mod builder;
mod draft;
mod marks;

pub use builder::{BlockBuilder, Builder};
pub use cluster::PartRef;
pub use graph_model::Picked;
