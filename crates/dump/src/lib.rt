//! The text of a graph: one for each graph, from which the graph can be made again.
//!
//! [`text`] writes main as lines: its transactions by rising name, its dependencies that no others imply by child and then by parent, and
//! `end`. So two graphs have the same text exactly where they have the same transactions, fees, sizes and ancestors, however they were
//! built.
//!
//! [`load`] makes the graph of a text, and takes no other bytes. [`dumps_load`] is the law that the two belong together: the text of a graph
//! passes all tests, and makes a graph with the same names, fees, sizes, ancestors, clusters and feerate diagram.
//!
//! The parts of main are walked once. For each transaction its cluster is asked once for fee and size and once for its parents with nothing
//! between. The lines are then sorted in place: n transactions and m edges take O((n + m) log (n + m)) steps beside what the clusters take.
//!
//! Fees are in satoshis and sizes in virtual bytes.
#![tactic(auto)]

mod dumping;
mod listing;
mod loading;

pub use dump_text::LoadFault;
pub use dumping::{DumpText, text};
pub use graph_model::dumps_load;
pub use loading::load;
