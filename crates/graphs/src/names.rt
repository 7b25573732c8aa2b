/// The name of a transaction: a number that the caller chooses.
pub type TxId = u64;

/// Which graph a command speaks of.
#[derive(Clone, Copy, Debug, PartialEq, Eq)]
pub enum Level {
    /// The main graph.
    Main,
    /// The staging graph where there is one, else the main graph.
    Top,
}

/// Which relatives of a transaction a call asks for. A transaction is an ancestor and a descendant of itself.
#[derive(Clone, Copy, Debug, PartialEq, Eq)]
pub enum Kin {
    Ancestors,
    Descendants,
}

/// An amount that goes from a child to a parent, in proof that no part of a chunk has a greater rate than the chunk.
/// Amounts are satoshis times virtual bytes.
#[derive(Clone, Copy, Debug, PartialEq, Eq)]
pub struct Flow {
    pub child: TxId,
    pub parent: TxId,
    pub amount: u128,
}

/// How one fee-rate diagram stands to another, at every size.
#[derive(Clone, Copy, Debug, PartialEq, Eq)]
pub enum Verdict {
    /// At or above it everywhere, and not everywhere equal.
    Better,
    /// At or below it everywhere, and not everywhere equal.
    Worse,
    /// The same.
    Equal,
    /// Above it somewhere, and below it elsewhere.
    Incomparable,
}
