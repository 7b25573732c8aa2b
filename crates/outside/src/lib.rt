//! The outside of the program: where bytes come from and where they go.
//!
//! A [`Source`] gives bytes and a [`Sink`] takes them. Both count their faults: a call that succeeds leaves the count, and a call that fails
//! raises it by one (the count stands still at 2^64 − 1). Code that is generic over the two traits can't change a count itself. So its
//! contract tells, from the counts before and after, how many calls failed, and such code can neither hide a fault nor make one up.
#![tactic(auto)]

mod errors;
mod mem_sink;
mod mem_source;
mod sink;
mod source;
mod std_io;
mod sure;

pub use errors::{Failed, NoMemory};
pub use mem_sink::MemSink;
pub use mem_source::MemSource;
pub use sink::Sink;
pub use source::Source;
pub use std_io::{ReadSource, WriteSink};
pub use sure::{SureSink, SureSource};
