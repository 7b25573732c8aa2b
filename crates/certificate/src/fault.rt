ghost use Rattle.std.specs.Prelude.{◌≡◌};
ghost use Rattle.certificate.specs.declared.fault.CheckFault.TheVariants.{Memory};

use std::alloc::AllocError;
use thiserror::Error;

/// Why parts with flows are no certificate: the first test that fails, in the order Graph, Order, Falling, Flow.
#[derive(Clone, Copy, Debug, PartialEq, Eq, Error)]
pub enum CheckFault {
    /// The parts are no linearization of the graph, or a part has names of two components.
    #[error("the parts are no order of the graph")]
    Order = 1,
    /// A part's fee or size isn't the sum over its names, or a part has a greater rate than the one before it.
    #[error("the rates of the parts do not fall")]
    Falling = 2,
    /// The flows of some part don't certify it.
    #[error("the flows do not certify the parts")]
    Flow = 3,
    /// The transactions and edges are no graph within the limits.
    #[error("the transactions and edges are no graph")]
    Graph = 4,
    /// There was no memory. This may come before any other fault.
    #[error("out of memory")]
    Memory,
}

impl From<AllocError> for CheckFault {
    ghost from_gives = { λ _ fault. fault ≡ Memory };

    fn from(_error: AllocError) -> CheckFault {
        CheckFault::Memory
    }
}
