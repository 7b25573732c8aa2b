//! The transaction graph of a cluster mempool.
//!
//! A [`TxGraph<W>`] stands for states of the machine that `graph_model` defines, and each call is a step of that machine.
//!
//! # How it works
//!
//! An index finds a transaction's cluster, and a call changes that cluster alone. Nothing walks all live transactions but a reading that tells
//! of all of them.
//!
//! - `add` takes a few look-ups. So do a dependency and a fee that are there already.
//! - `cluster`, `ancestors` and `descendants` take as many steps as the cluster has members, and a sort.
//! - `dep`, `fee` and `remove` make the changed clusters anew: they copy the members, with a few word operations for each, solve each new cluster
//!   once, and put the chunks that differ into the index of all chunks. The names of the smaller of two joined clusters, or of all but the
//!   largest of those that are left, get another cluster number.
//! - `restore` puts the transactions that come and the clusters that get a new parent together as names and links. Each component of these
//!   becomes a cluster, solved once, and all of them come in by one change.
//! - A cluster over the limits is kept as names and links. A change of it copies these and solves nothing, and what it leaves within the
//!   limits is solved once. A level knows without a search whether it is oversized, and `over` looks at the clusters over the limits alone.
//! - While a staging is open, a cluster that main keeps isn't changed. Another takes its place in staging, under a number of its own.
//! - `stage` sets a flag. `commit` and `abort` go over the clusters of one level alone, so they cost what staging changed.
//! - `compare` and `settle` walk the chunks that stand in one level alone. Where the last chunk of a level has a fee below 0, they also walk the
//!   worst of the chunks in both levels, from the last one upward while fees are below 0, until these are as large as the difference
//!   between the sizes of what stands in one level alone.
//! - `ancestors_union`, `descendants_union` and `count_distinct_clusters` sort the names that they are given by the numbers of their
//!   clusters, and look at each cluster once. `sort_by_main_order` compares two names by their chunks' places in the index.
//! - `main_staging_diagrams` walks the chunks that stand in one level alone.
//! - `order` and `diagram` walk the index, and `names` and `components` walk the clusters of both levels. No reading takes memory.
//! - A change takes all its memory before it changes anything. So a call that is refused for want of memory leaves the graph as it was.
#![tactic(auto)]

mod graph;
mod main_order;
mod mining;
mod order;
mod restoring;
mod unions;

pub use cluster::PartRef;
pub use component::{Component, Covers};
pub use graph::TxGraph;
pub use order::{
    Components, Diagram, Forward, Held, Names, Numbered, Order, OrderBack, Over, Rates,
};
pub use record::Record;
