//! What calls answer. From 3 to 21 stand the refusals of the machine, each by its number.

/// The call did what it says.
pub const DONE: u32 = 0;

/// The slot has no graph. Nothing changed.
pub const NO_GRAPH: u32 = 1;

/// The slot has a graph already, where a new one should go. Nothing changed.
pub const IN_USE: u32 = 2;

/// A limit is outside its range: the refusal of `set_limits`, by its number.
pub const RANGE: u32 = 4;

/// There was no memory: the refusal, by its number.
pub const MEMORY: u32 = 18;

/// A level is over the limits of a cluster, so that it has no order: the refusal, by its number.
pub const OVERSIZED: u32 = 19;

/// The piece that was handed out isn't the last one.
pub const MORE: u32 = 32;

/// As many additions were made as can be counted, 2^64 − 1. Nothing changed.
pub const SPENT: u32 = 33;

/// The list of transactions is empty, where it must not be. Nothing changed.
pub const NO_NAMES: u32 = 34;

/// Bytes are no text of a certificate, or of a graph.
pub const NO_SYNTAX: u32 = 36;

/// What is written is no graph.
pub const NO_GRAPH_TEXT: u32 = 37;

/// The parts are no order of the graph.
pub const NO_ORDER: u32 = 38;

/// The rates of the parts don't fall, or a part's rate isn't the sum of its transactions.
pub const NO_FALLING: u32 = 39;

/// The flows don't certify the parts.
pub const NO_FLOW: u32 = 40;

/// There are more bytes than are read.
pub const TOO_LONG: u32 = 41;

/// The graph of a text is over the limits.
pub const NO_LIMITS: u32 = 42;
