//! The clusters of both levels of a transaction graph, main and staging where there is one.
//!
//! `Shelves` has each cluster under a number, and for each level the number of each name's cluster: contracts see of a level the
//! clusters that stand in it, the numbers of its names, and the graph that these make. A cluster that serves both levels is kept
//! once. What changes in the top level leaves main as it is while there is a staging, at the cost of the clusters that change: one
//! that main keeps isn't changed, another takes its place under a number of its own. A `NameBook` has the names of both
//! levels: which share a cluster of main, and which staging touched.
//!
//! Where the limits let dependencies pass them, a cluster may be over them. It is kept without an order, and its level has none as long as
//! it stands there. A change of it solves nothing; what comes within the limits is solved once. `overs` lends the components over the
//! limits as links, and looks at no others; `names` and `components` walk all clusters.
#![tactic(auto)]

mod changes;
mod left;
mod levels;
mod mining;
mod moving;
mod numbers;
mod readings;
mod relation;
mod restoring;
mod settling;
mod shelves;
mod stored;
mod unions;

pub use levels::Levels;
