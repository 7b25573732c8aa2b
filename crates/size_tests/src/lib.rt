//! The tests at the greatest sizes, and of lines that are meant to break the program.
//!
//! Where memory is ample no call may give up from some size on. No contract says so, since want of memory is always a possible answer.
#![tactic(auto)]

#[cfg(test)]
mod cluster_tests;
#[cfg(test)]
mod graph_tests;
#[cfg(test)]
mod line_tests;
#[cfg(test)]
mod list_tests;
#[cfg(test)]
mod runs;
