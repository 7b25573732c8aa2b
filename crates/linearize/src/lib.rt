//! A certified optimal order of one dependency graph.
//!
//! [`optimal`] leaves in a [`Linear`] the order, cut into chunks of falling feerate, and for each chunk a flow that shows that no closed set
//! within it has a greater feerate. [`optimal_near`] does the same from the order before a change.
//!
//! # How it works
//!
//! `optimal` splits a set of members at a closed set of greatest weight, as long as one has positive weight. Both halves of a split have members,
//! so n members take at most 2n − 1 solves. Both halves are solved anew: their weights differ by a factor that needn't divide the amounts.
//! A balanced set is a chunk only where no smaller set closed within it has the same feerate; else it is cut at the smallest such set.
//! A search behind the balanced flow finds that set, from each place to its parents and to the children that send it flow. The search takes at
//! most n² steps, mostly about 2n.
//!
//! `optimal_near` first tries groups of places that it makes of the old order. A group comes behind those of no lower feerate, and takes along
//! the groups among the lower ones that it depends on. A group that is a known chunk is written as it was: only the order of its places is
//! tested, and covering parents are found for the other groups alone. Its flows stay with the caller, who is told which old chunk it is. Each
//! other group has to be balanced, and may be cut in two at most. Where that holds, feerates fall, and parents come first, the groups are the
//! chunks. Else the members are solved from nothing.
//!
//! A chunk is known where its members keep their fees, their sizes and the relation among themselves: the caller shows that such a chunk
//! still certifies itself and can't be split. A group of one place is a chunk for one step.
#![tactic(auto)]

mod draft;
mod fit;
mod guess;
mod known;
mod linear;
mod near;
mod old;
mod part;
mod split;

pub use draft::{LinearPart, PlaceFlow};
pub use fit::{has_rates, is_component};
pub use linear::{Linear, optimal};
pub use near::optimal_near;
pub use old::{Guess, OldPart};
