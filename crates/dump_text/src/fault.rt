ghost use Rattle.std.specs.Prelude.{◌≡◌};
ghost use Rattle.dump_text.specs.declared.fault.LoadFault.TheVariants.{Memory};

use outside::NoMemory;
use std::alloc::{AllocError, AllocFailed};
use thiserror::Error;

/// Why bytes were not loaded.
#[derive(Clone, Copy, Debug, PartialEq, Eq, Error)]
pub enum LoadFault {
    /// The bytes aren't of the form of a text.
    #[error("the bytes are no text of a graph")]
    Syntax,
    /// What is written is no graph, or isn't written as the text of one.
    #[error("the text is not that of a graph")]
    Graph,
    /// The graph doesn't fit the limits.
    #[error("the graph is over the limits")]
    Limits,
    /// There was no memory. This may come before any other fault.
    #[error("out of memory")]
    Memory,
}

impl From<NoMemory> for LoadFault {
    ghost from_gives = { λ _ fault. fault ≡ Memory };

    fn from(_error: NoMemory) -> LoadFault {
        LoadFault::Memory
    }
}
