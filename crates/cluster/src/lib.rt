//! Clusters that always hold an optimal order.
//!
//! A [`Cluster<W>`] is one component of the transaction graph, told by names: its transactions, who is an ancestor of whom,
//! and an optimal order in parts of falling feerate, each with the flow that certifies it. A *part* is what Bitcoin Core calls a
//! chunk.
//!
//! # How it works
//!
//! Six calls make clusters: [`single`](Cluster::single) of one transaction, [`whole`](Cluster::whole) of a dependency graph, and
//! `linked`, `joined`, `without` and `with_fee` of other clusters, which stay as they are. Each solves the clusters that it makes,
//! once. The solver is handed the order that was there before, if there was one. That order has no say in what the solver finds,
//! only in how soon.
//!
//! A part of the old order whose names keep their fees, their sizes and the relation among themselves is *known*, and isn't
//! solved again. With another fee, the parts without that name are known. With a new dependency, those that have no name
//! above it or none below it are known, but not the child's part where it stands before the parent's. Where two clusters join,
//! all parts are known, but not the child's where it had to wait for the parent's. Where names go, the parts that keep all
//! their names are known.
//!
//! The flows of a known part are copied from order to order, by names. Only those that the solver found are named and sorted.
#![tactic(auto)]

mod ancestors;
mod cluster;
mod covers;
mod guess;
mod kin;
mod laws;
mod list;
mod making;
mod members;
mod order;
mod work;

pub use ancestors::Ancestors;
pub use cluster::{Cluster, PartRef};
pub use covers::Covers;
pub use laws::clusters_are_optimal;
pub use list::ClusterList;
pub use work::Work;
