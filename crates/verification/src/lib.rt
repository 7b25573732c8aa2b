//! Whether a text in memory is a certificate: `wire` reads it, and `certificate` tests what was read.
//!
//! [`verify`] says of the bytes of a text that they show an optimal order, or which test fails first. It trusts nobody: all that it looks at is
//! the text.
#![tactic(auto)]

mod verifying;

pub use verifying::{Said, verify};
