//! Sets of small numbers, kept as the bits of a few machine words.
//!
//! [`Bits<W>`] is a set of places, numbers below 64·W. It is copied like a number and takes no memory.
#![tactic(auto)]

mod bits;

pub use bits::{Bits, BitsIter};
