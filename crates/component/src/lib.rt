//! Clusters of either width.
//!
//! A [`Component<W>`] is a cluster of at most 64·W names: one component of the transaction graph with an optimal order, told by
//! names as [`cluster::Cluster`] is.
//!
//! # Why
//! A cluster and the room of its solver are made of sets of places. A set of one machine word stays in a register, and a set of
//! more words is an array that each operation loops over. A program whose clusters may have more than 64 names would pay for the
//! wide sets in every cluster, though nearly all clusters have a few names: with sets of two words the whole program takes about
//! an eighth longer than with sets of one.
//!
//! # How it works
//! A component of at most 64 names is kept, changed and solved with sets of one word, and only one of more names with sets of W
//! words. So a graph pays for the greatest cluster that it may have only in the clusters that are so great. A wide cluster lies
//! in a box, so that a component takes no more room at a greater W.
//!
//! The names alone decide the width. Where two clusters join to more than 64 names, those of one word are widened first. Where
//! names go, each piece of at most 64 names comes back to one word.
#![tactic(auto)]

mod ancestors;
mod component;
mod covers;
mod joining;
mod list;
mod pieces;
mod width;
mod work;

pub use ancestors::Ancestors;
pub use cluster::PartRef;
pub use component::Component;
pub use covers::Covers;
pub use list::Components;
pub use work::Work;
