/// The most names that a cluster of the plain graph may be allowed.
pub const MAX_NAMES: u64 = 128;
