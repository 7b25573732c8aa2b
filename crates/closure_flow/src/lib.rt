//! Closed sets of greatest weight, by maximum flow.
//!
//! Places have integer weights that sum to 0, and each place may have parents. A set is closed where it has each parent of its members. Either
//! some closed set has positive weight, and [`solve`] finds one of the greatest weight. Or a flow from children to parents takes all weight
//! above 0 to places whose weight is below 0, and shows that no closed set has positive weight.
//!
//! # How it works
//!
//! A solve sends what it can from each place to its parents first. Then it searches by breadth until nothing of the rest can be sent. A search
//! takes at most n places and finds a shortest path. An augmentation along the path either settles a place, or uses up a pair of places along
//! which the distance rises. Such a pair comes back only after the distance has grown, which happens at most n times. So a solve takes at most
//! n³ + n augmentations. The proof carries the distances as a labelling (`specs/Labels.antt`).
//!
//! A step is one place that a solve begins with, or that a search takes from its queue. How many places a queue ever gave is a number in the
//! proof: no code keeps it, and contracts tell the steps by it exactly.
#![tactic(auto)]

mod first;
mod network;
mod past;
mod path;
mod queue;
mod scratch;
mod search;
mod solver;
mod tight_sets;

pub use queue::{Entry, Queue};
pub use scratch::Scratch;
pub use solver::{Outcome, solve};
pub use tight_sets::{smallest_tight, tight};
