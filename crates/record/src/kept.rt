use component::Component;
use graphs::TxId;
use links::Links;

/// A component within the limits or over them.
#[derive(Drop)]
pub(crate) enum Kept<const W: usize> {
    /// With its order.
    Within(Component<W>),
    /// Without an order. Links take much more room, so they lie in a box.
    Over(Box<Unordered>),
}

/// Links, and their names in the same order.
#[derive(Drop)]
pub(crate) struct Unordered {
    pub(crate) names: Vec<TxId>,
    pub(crate) links: Links,
}
