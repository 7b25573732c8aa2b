//! What a slot leads to.
use crate::listing::Listing;
use crate::pool::Pool;
use crate::telling::{Rate, Total};
use graph_model::{IdList, TxId};
use graphs::Owned;

/// A graph with its mined blocks, the transactions that the latest call picked, and the lists that were read last.
#[derive(Drop)]
pub struct Desk {
    pub pool: Pool,
    pub picked: IdList,
    pub held: Held,
}

/// What was read last: an order, corners, a text, the two sides of a replacement, the numbers of the clusters of main's chunks, the transactions
/// of a level, and its clusters, as how many transactions each has, and the transactions of one after the other.
#[derive(Drop)]
pub struct Held {
    pub listing: Listing,
    pub corners: Owned<Total>,
    pub text: Owned<u8>,
    pub main_side: Owned<Rate>,
    pub staging_side: Owned<Rate>,
    pub numbers: Owned<usize>,
    pub names: Owned<TxId>,
    pub cluster_counts: Owned<usize>,
    pub cluster_ids: Owned<TxId>,
}
