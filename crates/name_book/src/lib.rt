//! The live names of a transaction graph: which of them share a cluster of main, and which of them staging touched.
//!
//! Contracts see of a [`NameBook`] the names, a relation among them and a set of them.
//!
//! # How it works
//!
//! A pool has a node for each live name, and a hash table the key of each node. Two links in each node make two rings: one of the names
//! that share its cluster of main, and one of the touched names. To take a name out of its ring and put it into another writes a few links.
//!
//! The book looks each name that it is told up once in the hash table, and sixteen names before it links the first: look-ups that follow one
//! another wait for memory at the same time. Where a name goes, the touched name that the book keeps at hand is looked up once more. `reserve`
//! alone takes memory. Nothing walks a ring to find who is in it.
#![tactic(auto)]

mod book;
mod keys;
mod table;

pub use book::NameBook;
