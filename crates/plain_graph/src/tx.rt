use graph_model::TxId;

/// A transaction: its name, its fee in satoshis and its size in virtual bytes.
#[derive(Clone, Copy, Debug, PartialEq, Eq)]
pub struct Tx {
    pub id: TxId,
    pub fee: i64,
    pub size: u64,
}
