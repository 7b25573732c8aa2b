ghost use Rattle.std.specs.Prelude.{Some};

use outside::{Failed, Sink};
use std::alloc::Global;

/// A sink over bytes, which keeps all that it takes. A write fails where there is no memory.
#[derive(Drop)]
pub(crate) struct TextSink {
    pub(crate) bytes: Vec<u8>,
    faults: u64,
}

impl TextSink {
    ghost use Rattle.std.specs.Prelude.{◌≡◌, []};

    /// A sink without bytes. Takes no memory.
    pub(crate) fn new(alloc: Global) -> TextSink
        ensures { result.bytes.items ≡ [] }
    {
        TextSink {
            bytes: Vec::new(alloc),
            faults: 0,
        }
    }
}

impl Sink for TextSink {
    ghost written = { λ sink. Some sink.bytes.items };

    ghost faults = { λ sink. sink.faults };

    fn write(&mut self, piece: &[u8]) -> Result<usize, Failed> {
        match self.bytes.extend_from_slice(piece) {
            Ok(()) => Ok(piece.len()),
            Err(_) => {
                self.faults = self.faults.saturating_add(1);
                Err(Failed)
            }
        }
    }
}
