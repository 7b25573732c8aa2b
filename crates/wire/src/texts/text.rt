ghost use Rattle.std.specs.Prelude.{◌≡◌, ◌≤◌, ◌<◌, ◌^◌, ℕ, List, length, All, IfOk, IsErrOf};
ghost use Rattle.graph_model.specs.Lines.{Cut, with_last, max_input, is_quiet};
ghost use Rattle.graph_model.specs.Texts.{Text, HasTextTypes, IsText};
ghost use Rattle.wire.specs.declared.texts.fault.TextFault.TheVariants.{Syntax};
ghost use Rattle.wire.specs.Rows.{HasRowTypes};
ghost use Rattle.wire.specs.Drafts.{text_of, amount_of, written, TakesLine, TakesText, ReadsLines, lines_of};

use super::draft::{CertText, Draft};
use super::fault::TextFault;
use super::row::read_row;
use crate::line::trimmed;
use crate::words::split_at_byte;
use graph_model::MAX_LINE;
use std::alloc::Global;

/// The certificate text that bytes are, by their lines; what follows the last line feed is a line too.
/// Fees are in satoshis, sizes in virtual bytes, amounts in satoshis times virtual bytes.
///
/// # Errors
///
/// `Syntax` where no text has these lines. `Memory` where memory ran out, which may come in place of
/// either other answer. Nothing is changed.
pub fn read_certificate(alloc: Global, bytes: &[u8]) -> Result<CertText, TextFault>
    ensures text { IfOk result
        (λ text. (lines : List (List ℕ)) (rest : List ℕ) → Cut bytes.now lines rest
        → IsText (with_last lines rest) (text_of text)) }
    ensures types { IfOk result (λ text. HasTextTypes (text_of text)) }
    ensures amounts { length bytes.now ≤ max_input → IfOk result (λ text. amount_of (text_of text) < 2 ^ 127) }
    ensures syntax { IsErrOf result Syntax → (lines : List (List ℕ)) (rest : List ℕ) → Cut bytes.now lines rest
        → (text : Text) → IsText (with_last lines rest) text → ⊥ }
{
    read_lines(alloc, bytes)
}

/// The text of all lines, where the last one is what follows the last line feed, be it empty.
fn read_lines(alloc: Global, bytes: &[u8]) -> Result<CertText, TextFault>
    ensures { ReadsLines (lines_of bytes.now) result }
{
    let mut draft = Draft::new(alloc);
    let mut rest = bytes;
    while let Some((line, more)) = split_at_byte(rest, b'\n') {
        draft = take_line(alloc, draft, line)?;
        rest = more;
    }
    take_line(alloc, draft, rest)?.finished()
}

/// The draft with a line. `Syntax`: no text has this line there.
fn take_line(alloc: Global, draft: Draft, line: &[u8]) -> Result<Draft, TextFault>
    requires { All HasRowTypes (written draft) }
    ensures { TakesLine (written draft) line.now result }
{
    if line.len() > MAX_LINE {
        return given_up(draft, TextFault::Syntax);
    }
    let text = trimmed(line);
    if says_nothing(text) {
        return Ok(draft);
    }
    take_text(alloc, draft, text)
}

/// Whether a line is empty or a comment.
fn says_nothing(text: &[u8]) -> bool
    ensures { result ≡ is_quiet text.now }
{
    match text {
        [] | [b'#', ..] => true,
        _ => false,
    }
}

/// The draft with a line that is neither empty nor a comment.
fn take_text(alloc: Global, draft: Draft, text: &[u8]) -> Result<Draft, TextFault>
    requires { All HasRowTypes (written draft) }
    ensures { TakesText (written draft) text.now result }
{
    match read_row(alloc, text) {
        Ok(row) => draft.with(alloc, row),
        Err(fault) => given_up(draft, fault),
    }
}

/// Lets a draft go for a fault. A function of its own, so that no other lets go what a draft holds.
fn given_up(_draft: Draft, fault: TextFault) -> Result<Draft, TextFault>
    ensures { IsErrOf result fault }
{
    Err(fault)
}
