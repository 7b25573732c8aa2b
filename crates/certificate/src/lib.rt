//! The checker of certificates: parts of an order, with flows that show by themselves that the order is optimal.
//!
//! [`check`] trusts nobody. The caller hands in transactions, edges and parts as they were written. `check` tests that
//! the transactions and edges are a graph, that the parts are an order of this graph, that rates fall, and that the flows
//! certify each part. `Ok` says that the parts are optimal for the whole graph.
#![tactic(auto)]

mod checker;
mod cycles;
mod falling;
mod fault;
mod flows;
mod graph;
mod groups;
mod names;
mod order;
mod owned;

pub use checker::check;
pub use fault::CheckFault;
pub use graph::is_graph;
pub use owned::{EdgeList, FlowList, Part, PartList, TxList, Written};
