ghost use Rattle.std.specs.Prelude.{◌≤◌};

use cluster::Cluster;

// How many names sets of one word have room for.
pub(crate) const NARROW: usize = 64;

/// A cluster at one of the two widths.
#[derive(Drop)]
pub(crate) enum Width<const W: usize> {
    /// Its sets have one word.
    Narrow(Cluster<1>),
    /// Its sets have W words.
    Wide(Boxed<W>),
}

/// A cluster of W words, which are few enough that it fits in memory.
#[derive(Drop)]
pub(crate) struct Boxed<const W: usize> {
    pub(crate) cluster: Box<Cluster<W>>,
    ghost narrow: { W ≤ 64 },
}
