//! What a node keeps of unconfirmed transactions: a graph, and the mined blocks of its main that can be taken back.
//!
//! A [`Mempool`] is a [`TxGraph`](tx_graph::TxGraph) beside a [`Reorg`](reorg::Reorg). Each call is one step of the machine, whose states have
//! both. A change or a search that leaves the blocks is a value, [`Change`] or [`Search`], so that all of them are one call.
//!
//! Fees are in satoshis and sizes in virtual bytes.
#![tactic(auto)]

mod pool;
mod request;

pub use pool::Mempool;
pub use request::{Change, Search};
