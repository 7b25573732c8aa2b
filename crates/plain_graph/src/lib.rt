//! The plain graph: transactions and dependencies as two lists. It is slow, and easy to read: the
//! program that the definitions name, beside which every faster one is tested.
#![tactic(auto)]

mod limits;
mod over;
mod pairs;
mod plain;
mod tx;
mod txs;
mod walk;

pub use limits::MAX_NAMES;
pub use plain::Plain;
pub use tx::Tx;
