//! A graph on a desk: what a caller in C is handed, beside the slot that it keeps it in.
//!
//! A [`Desk`](desk::Desk) has a graph of sets of two words with its mined blocks, the transactions that the latest call picked, and the lists that were
//! read last. Each function makes the call of `tx_graph`, `reorg`, `trim`, `eviction`, `block_builder` or `dump`, and tells its answer in numbers and
//! into arrays, as `txgraph_c` hands them to C: see [`codes`].
//!
//! # How it works
//!
//! - A refusal has its number, and the number that it keeps, if it keeps one, goes to the caller's `kept`.
//! - Lists are written into the caller's arrays. A list that may be longer than a cluster stays on the desk, and is handed out in pieces, each
//!   from the place where the last one ended: [`hand_piece`](copying::hand_piece).
//! - Fees are in satoshis, sizes in virtual bytes.
#![tactic(auto)]

pub mod changing;
pub mod codes;
pub mod copying;
mod corners;
pub mod desk;
mod gathering;
pub mod keeping;
pub mod listing;
pub mod making;
mod ordering;
pub mod picking;
pub mod pool;
pub mod reading;
pub mod request;
pub mod telling;
mod uniting;
pub mod verifying;
