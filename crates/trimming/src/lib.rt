//! Which transactions of one component are dropped when it is cut back to the limits of a cluster.
//!
//! [`trimmed`] knows no graph store: it reads [`Links`](links::Links), and answers the names that go.
//!
//! # How it works
//!
//! Transactions are sorted once, by falling feerate and then by rising name. A transaction's place is where it stands in that order, so the
//! first of some candidates is the least place. A `BTreeSet` of places holds the candidates: those that weren't looked at, and whose parents
//! are all kept. One after the other is taken from it. Those that are kept form teams, a team for each component among them, each a list of
//! its places. A candidate's team would be itself and the teams of its parents. Where that is within the limits, the candidate is kept: the
//! places of these teams become the list of one team. A team has no more places than a cluster may have names, so this is cheap.
//!
//! For each place it is known how many of its parents, from the first on, are kept. This count only goes up. When a place is kept, the
//! counts of its children go on, and a child whose count comes to its end is a candidate from then on. So all counts together cost one
//! look at each pair.
//!
//! The work is near linear in transactions and pairs, and nothing is recursive.
#![tactic(auto)]

mod buckets;
mod counts;
mod cut;
mod dropped;
mod net;
mod order;
mod room;
mod teams;
mod turns;

pub use cut::trimmed;
