use graph_model::{Level, TxId};

/// What a graph is read for. The reply goes from the graph to the sink piece by piece.
#[derive(Clone, Copy)]
pub(crate) enum Reading {
    Order(Level),
    Diagram(Level),
    Proof(Level),
    Chunk(TxId),
    Dump,
}
