//! A transaction graph for C and C++: a static library, `libtxgraph_c.a`, of which `include/txgraph.h` has the declarations.
//!
//! C keeps a [`Slot`](slot::Slot) of 16 bytes for a graph. Each call is handed a slot, takes the graph out of it, makes the call of `desk`, and puts
//! the graph back. So a call's contract says what the graph in the slot was and is, as a step of the machine, and which number tells the answer.
//!
//! # How it works
//!
//! - A graph stands on the heap, as a `Desk` in a box. A [`Handle`](handle::Handle) keeps the box as a pointer that C can hold.
//!   Five functions reach the pointer, and are proved by hand: two of `loose`, three of `handle`. That a box is never forgotten, and none is given
//!   twice, is part of the types: neither a slot nor a handle can be let go unless it is empty.
//! - Every call answers a number: see `desk::codes`.
//! - Fees are in satoshis, sizes in virtual bytes.
#![tactic(auto)]

mod changes;
mod checking;
mod facts;
mod handle;
mod life;
mod loose;
mod main_order;
mod names;
mod orders;
mod questions;
mod slot;
mod unions;
