use fee_rate::Sum;
use graphs::{Flow, IdList, Owned, TxId};

/// A list of transactions: name, fee in satoshis, size in virtual bytes.
pub type TxList = Owned<(TxId, i64, u64)>;

/// A list of edges: parent, child.
pub type EdgeList = Owned<(TxId, TxId)>;

/// A list of flows.
pub type FlowList = Owned<Flow>;

/// A part of an order as it is claimed: its fee and size, its names in their order, and the flows that certify it.
#[derive(Debug, Drop)]
pub struct Part {
    /// The total fee, in satoshis, and the total size, in virtual bytes.
    pub rate: Sum,
    pub ids: IdList,
    pub flows: FlowList,
}

/// A list of parts.
pub type PartList = Owned<Part>;

/// Transactions and edges as they were written: names and edges may stand twice, and edges may be of no transaction.
#[derive(Debug, Drop)]
pub struct Written {
    pub txs: TxList,
    pub edges: EdgeList,
}
