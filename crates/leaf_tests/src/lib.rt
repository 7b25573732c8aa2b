//! The tests of the small crates at the bottom, by their public calls alone.
//!
//! They stand apart, so that the functions of those crates are proved once, and not again with the tests.
#![tactic(auto)]

// A slice of fees with their sizes, for tables.
#[cfg(test)]
macro_rules! rates {
    ($(($fee:expr, $size:expr)),*) => { &[$(FeeRate { fee: $fee, size: $size }),*] };
}

#[cfg(test)]
mod bitset_tests;
#[cfg(test)]
mod chunking_tests;
#[cfg(test)]
mod diagram_tests;
#[cfg(test)]
mod fee_rate_tests;
#[cfg(test)]
mod graphs_tests;
#[cfg(test)]
mod links_tests;
#[cfg(test)]
mod name_book_tests;
#[cfg(test)]
mod node_pool_tests;
#[cfg(test)]
mod outside_tests;
#[cfg(test)]
mod repeats_tests;
#[cfg(test)]
mod replacement_tests;
#[cfg(test)]
mod staging_tests;
#[cfg(test)]
mod step_count_tests;
