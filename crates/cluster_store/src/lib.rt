//! The clusters of a transaction graph, each with the levels that it stands in, and the merged parts of each level.
//!
//! Contracts see clusters under numbers, and the parts of all of them in one order; a level's parts are those of the clusters
//! that stand in it. The clusters are kept in a slab, their parts in an index in which the serial of an entry is the number of
//! its cluster. One call makes every change of the top level: first what comes in goes in, and where there is no memory for it,
//! that comes out again; only then go clusters and entries out, which can't fail.
//!
//! The numbers of the clusters without an order are listed apart, and perhaps some that have one again or are gone. So whether a level
//! lacks an order, and which of its clusters do, is told from that list.
#![tactic(auto)]

mod ancestry;
mod clusters;
mod entries;
mod held;
mod laws;
mod least;
mod name_walk;
mod over_walk;
mod rate_walk;
mod rebuilding;
mod record_walk;
mod settling;
mod store;
mod stored;
mod tail;
mod unordered;
mod walk;

pub use held::HeldWalk;
pub use laws::{
    levels_are_picked, orders_are_kept, parts_are_told_by_clusters, parts_stand_in_order,
};
pub use name_walk::{HasNames, NameWalk};
pub use over_walk::{MayLack, OverWalk};
pub use rate_walk::RateWalk;
pub use record_walk::RecordWalk;
pub use store::ClusterStore;
pub use stored::{Exchange, Made, Stored};
pub use walk::{PartWalk, Parts, ShownPart};
