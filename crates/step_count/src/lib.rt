//! Steps that callers pay for: a ledger that each step is written into, and the count that contracts see.
//!
//! What a step stands for is said by the code that ticks. A contract bounds the work of a call by what the call
//! adds to its caller's count.
#![tactic(auto)]

mod ledgers;
mod steps;

pub use ledgers::{Counted, Ledger, NoLedger};
pub use steps::Steps;
