//! Laws of integers, of products and of sums over lists, stated once for the crates above.
#![tactic(auto)]
