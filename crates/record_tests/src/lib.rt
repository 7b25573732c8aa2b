//! The tests of `record`, `cluster_store` and `levels`, by their public calls alone.
//!
//! They stand apart, so that the functions of those crates are proved once, and not again with the tests.
#![tactic(auto)]

#[cfg(test)]
mod levels_tests;
#[cfg(test)]
mod record_tests;
#[cfg(test)]
mod store_tests;
