//! Transactions that dependencies connect, without an order.
//!
//! [`Links`] are transactions, each a name with its fee and size, and dependencies among them as pairs (parent, child). They serve where a
//! component has more names than an order can be kept of: links can be joined, lose names and be asked for ancestors and descendants, and
//! nothing is solved.
//!
//! # How it works
//!
//! Six calls make links: [`new`](Links::new) of lists, and `linked`, `joined`, `without`, `with_fee` and `components` of other links, which
//! stay as they are. A name's place is where it stands among the transactions. Each pair is kept once, and as a step between the places of
//! its ends. For each place the last step that leads up from it is kept, and for each step the one before it from the same place; likewise
//! for the steps down. A walk starts at one place, or at the places of several names, follows these chains, marks each place that it comes
//! to and puts it into a queue. Marks and queue are as long as there are places and were taken when the links were made, so a walk takes no
//! memory. It goes over each pair of each place that it finds once, however many of its starts lead there.
//!
//! Making links takes time linear in transactions and pairs, with a look-up of each name and of each pair in a hash table. `without` makes
//! links of the pairs into the names that go, and walks up these from each pair that leads from one that goes to one that stays. Where no
//! pair leads from a name that stays to one that goes, as where names go with all their ancestors, these walks are of one name.
//!
//! `components` walks along the steps in both directions, from each place that no such walk has found yet. What a walk finds is a component,
//! and the chains of its places give its pairs, so no walk looks at a place or a pair of another component.
#![tactic(auto)]

mod gathering;
mod laws;
mod leaving;
mod link_walk;
mod links;
mod listing;
mod making;
mod maps;
mod pairs;
mod pricing;
mod walker;
mod ways;

pub use laws::{changes_are_closed, components_are_closed, links_have_closures};
pub use link_walk::LinkWalk;
pub use links::Links;
