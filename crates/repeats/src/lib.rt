//! Which name of a list stands in it twice, told without memory.
//!
//! [`Repeats::first`] answers the first name of a list that stands earlier in it too.
//!
//! # How it works
//!
//! A set has room for as many names as one line of the input may list, taken once. The names of a list come into it in turn, up to one that
//! it has. A longer list is tested in pieces: each pass puts one piece into the set, and then looks behind the piece for the first name that
//! the set has, no further than the best that was found so far. So a list of up to 32,766 names costs two look-ups a name, and a longer one
//! as many more as it has pieces.
#![tactic(auto)]

mod pieces;

pub use pieces::{MAX_LISTED, Repeats};
