//! Tests that cross crates: what one crate makes is handed to another that judges it.
//!
//! Nothing else stands here. The contracts of the crates say that these agree; the tests show it at work.
#![tactic(auto)]

#[cfg(test)]
mod check_tests;
#[cfg(test)]
mod load_tests;
#[cfg(test)]
mod mined;
#[cfg(test)]
mod mined_tests;
#[cfg(test)]
mod orders;
#[cfg(test)]
mod picked;
#[cfg(test)]
mod replay_tests;
#[cfg(test)]
mod replies;
#[cfg(test)]
mod trimmed;
#[cfg(test)]
mod wide_tests;
