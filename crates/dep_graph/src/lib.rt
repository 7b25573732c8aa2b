//! The dependency graph of one cluster: fees, sizes, and who is an ancestor of whom.
//!
//! # How it works
//!
//! [`DepGraph<W>`] keeps a row for each place: a fee, a size, the set of ancestors and the set of descendants. Sets of places are machine
//! words, so each question takes a few operations on words. A graph of one member takes no allocation.
//!
//! Where a graph is made of some members of another, their places are numbered anew in all rows at once, by one step for each power of two up
//! to the greatest gap: at most six steps for 64 places (`numbering.rt`).
#![tactic(auto)]

mod graph;
mod laws;
mod numbering;
mod rows;

pub use graph::DepGraph;
pub use laws::{
    add_dep_adds_the_pair, add_keeps_the_pairs, merge_joins_the_pairs,
    part_bridges_what_it_leaves_out, part_keeps_the_pairs_within,
    remove_bridging_bridges_the_pairs,
};
