//! Whether a text in memory is a certificate.
ghost use Rattle.std.specs.Prelude.{◌≡◌};
ghost use Rattle.verification.specs.Verdicts.{verification_of};
ghost use Rattle.desk.specs.Verdicts.{Checks, code_of_verification};

use crate::codes::{
    DONE, MEMORY, NO_FALLING, NO_FLOW, NO_GRAPH_TEXT, NO_ORDER, NO_SYNTAX, TOO_LONG,
};
use graph_model::MAX_INPUT;
use std::alloc::Global;
use verification::{Said, verify};

/// The number of what is said of a text: 0 where it is a certificate, else the number of the first test that fails. There may be more bytes than
/// are read, and there may be no memory.
pub fn check_text(alloc: Global, bytes: &[u8]) -> u32
    ensures { Checks bytes.now result }
{
    if bytes.len() > MAX_INPUT {
        return TOO_LONG;
    }
    match verify(alloc, bytes) {
        Ok(said) => code_of_said(said),
        Err(_) => MEMORY,
    }
}

/// The number for what is said.
fn code_of_said(said: Said) -> u32
    ensures { result ≡ code_of_verification (verification_of said) }
{
    match said {
        Said::Yes => DONE,
        Said::NoSyntax => NO_SYNTAX,
        Said::NoGraph => NO_GRAPH_TEXT,
        Said::NoOrder => NO_ORDER,
        Said::NoFalling => NO_FALLING,
        Said::NoFlow => NO_FLOW,
    }
}
