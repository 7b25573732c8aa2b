//! The tests of the checker, the lines, the two graphs, blocks, the text of a graph, and the calls that Bitcoin Core's `txgraph.h` has beside the
//! protocol's commands, by the public calls alone.
//!
//! They stand apart, so that the functions of those crates are proved once, and not again with the tests; and together, so that what a graph
//! owns is let go by functions that are proved once.
#![tactic(auto)]

#[cfg(test)]
mod builder_tests;
#[cfg(test)]
mod certificate_tests;
#[cfg(test)]
mod chains;
#[cfg(test)]
mod dump_tests;
#[cfg(test)]
mod plain_graph_tests;
#[cfg(test)]
mod sorted_tests;
#[cfg(test)]
mod tx_calls;
#[cfg(test)]
mod tx_graph_tests;
#[cfg(test)]
mod union_tests;
#[cfg(test)]
mod wire_tests;
