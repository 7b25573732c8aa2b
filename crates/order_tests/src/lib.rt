//! The tests of the crates that make orders of clusters and keep them, by their public calls alone.
//!
//! They stand apart, so that the functions of those crates are proved once, and not again with the tests.
#![tactic(auto)]

#[cfg(test)]
mod chunk_index_tests;
#[cfg(test)]
mod closure_flow_tests;
#[cfg(test)]
mod cluster_tests;
#[cfg(test)]
mod dep_graph_tests;
#[cfg(test)]
mod drawn_tests;
#[cfg(test)]
mod linearize_tests;
#[cfg(test)]
mod samples;
#[cfg(test)]
mod whole_tests;
