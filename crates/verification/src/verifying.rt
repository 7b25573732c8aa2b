//! What is said of a text.
ghost use Rattle.std.specs.Prelude.{◌≡◌, ℕ, ◌^◌, ◌<◌, ◌≤◌, IfOk, length};
ghost use Rattle.graph_model.specs.Lines.{max_input};
ghost use Rattle.graph_model.specs.Texts.{HasTextTypes};
ghost use Rattle.wire.specs.Drafts.{text_of, amount_of};
ghost use Rattle.verification.specs.Verdicts.{verification_of, IsSaidOf, IsVerified};

use certificate::{CheckFault, check};
use outside::NoMemory;
use std::alloc::Global;
use wire::{CertText, TextFault, read_certificate};

/// What is said of a text: that it is a certificate, or the first test that it fails.
#[derive(Clone, Copy)]
pub enum Said {
    /// It is a certificate: its chunks are an optimal order of its graph, as its flows show.
    Yes,
    /// It has not the form of a certificate.
    NoSyntax,
    /// Its transactions and edges are no graph within the limits.
    NoGraph,
    /// Its chunks are no order of the graph.
    NoOrder,
    /// The fee rates of its chunks rise somewhere.
    NoFalling,
    /// Its flows don't show that no chunk can be split for the better.
    NoFlow,
}

/// What is to be said of the text that these bytes are. There are no more of them than a program reads. Fails where there is no memory.
pub fn verify(alloc: Global, bytes: &[u8]) -> Result<Said, NoMemory>
    requires { length bytes.now ≤ max_input }
    ensures { IfOk result (λ said. IsVerified bytes.now (verification_of said)) }
{
    match read_certificate(alloc, bytes) {
        Ok(text) => judge(alloc, &text),
        Err(TextFault::Syntax) => Ok(Said::NoSyntax),
        Err(TextFault::Memory) => Err(NoMemory),
    }
}

/// What is to be said of a text that was read.
fn judge(alloc: Global, text: &CertText) -> Result<Said, NoMemory>
    requires types { HasTextTypes (text_of text.now) }
    requires amounts { amount_of (text_of text.now) < 2 ^ 127 }
    ensures { IfOk result (IsSaidOf (text_of text.now)) }
{
    match check(alloc, &text.graph, text.parts.as_slice()) {
        Ok(()) => Ok(Said::Yes),
        Err(CheckFault::Graph) => Ok(Said::NoGraph),
        Err(CheckFault::Order) => Ok(Said::NoOrder),
        Err(CheckFault::Falling) => Ok(Said::NoFalling),
        Err(CheckFault::Flow) => Ok(Said::NoFlow),
        Err(CheckFault::Memory) => Err(NoMemory),
    }
}
