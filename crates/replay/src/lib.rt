//! The session of a transaction graph: lines go in, replies come out, and the graph is kept between them. Beside it stand the commands
//! that check a certificate and load a graph, and [`run`], the top call of all.
//!
//! # How it works
//!
//! [`Lines`] keeps one buffer of 65,537 bytes. A read fills the room behind the bytes that are held, and the new bytes are searched once for line
//! feeds: a read of one byte costs no more per byte than a long one. A line that lies whole in the buffer is handed on where it lies. Only
//! the beginning of a line at the buffer's end moves to the front. The bytes of a line that is too long are dropped as they come.
//!
//! Replies gather in another 65,536 bytes. They go out before each read, when that room is full, and at the end. Each read takes at least one
//! byte or ends the reading; each write takes at least one byte or ends the run. All memory of the two buffers is taken before the first read.
#![tactic(auto)]

mod answer;
mod answering;
mod check;
mod commands;
mod gathered;
mod generated;
mod input;
mod laws;
mod lines;
mod load;
mod reading;
mod replies;
mod request;
mod session;
mod tally;
mod top;
mod totals;
mod window;
mod writing;

pub use answer::Outcome;
pub use laws::check_accepts_proofs;
pub use lines::{Lines, Next};
pub use session::{MOST_NAMES, Piece, Session};
pub use top::{Status, run};
pub use window::MAX_READ;
