//! Components of a transaction graph, within the limits or over them.
//!
//! A [`Record<W>`] within the limits is a [`Component`] of at most 64·W names with its optimal order. One over a limit has names and
//! dependencies alone ([`Links`](links::Links)): it isn't solved, and it has no order until it is within the limits again.
//!
//! # How it works
//! Which of the two a record is depends on its names, their sizes and the limits alone, so each call that may pass a limit is given the
//! limits. Where a change leaves a component over them, its links are made of those that it came from: of a component with an order
//! these are the parents of each name with no third name between. Where a change brings components back within the limits, each of
//! them is solved once. `component` lends a record that has its order, and `links` one that has none.
#![tactic(auto)]

mod joining;
mod kept;
mod kin;
mod leaving;
mod listing;
mod over;
mod parts;
mod record;
mod restoring;
mod solving;

pub use listing::Listing;
pub use record::Record;
