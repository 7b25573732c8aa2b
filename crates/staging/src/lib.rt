//! A map with a staged copy: a base map and, while something is staged, a second map that started as a copy of it.
//!
//! Callers use an [`Overlay<V>`] as two whole maps.
//!
//! # How it works
//!
//! An overlay keeps the base map and the keys that staging changed, each with its value or with nothing. A look-up in main is one look-up in
//! the base. A look-up on top goes to the changed keys first, where there are any, and then to the base.
//!
//! `begin` sets a flag. `commit` and `abort` take the changed keys out one by one, so they cost only those. A commit looks sixteen of them up
//! in the base before it writes the first: look-ups that follow one another wait for memory at the same time. `reserve` alone takes memory,
//! and only `reserve` can cost the size of the base, where a table grows.
#![tactic(auto)]

mod overlay;

pub use overlay::Overlay;
