//! Transactions by their places: where each name stands, the pairs of names as steps between places, and the steps in chains.
//!
//! [`places_of`] and [`steps_of`] turn names into places, each in one pass. [`linked`] makes chains of steps: for each place the steps from it, without
//! a list for each. Who walks along them begins at a place's last step, and goes from each step to the one before it from the same place.
//! (Adjacency lists, as forward stars.)
#![tactic(auto)]

mod chains;
mod names;

pub use chains::{Chains, linked};
pub use names::{Places, place_of, places_of, steps_of};
