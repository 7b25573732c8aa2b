ghost use Rattle.std.specs.Prelude.{◌≡◌, ◌∷◌, ◌++◌, codes, decimal, IsTrue, ◌↔◌};
ghost use Rattle.std.specs.Fmt.{signed_decimal};
ghost use Rattle.wire.specs.Fields.{IsOneWord, ReadsAs, IsWide, IsBigFee, Always};
ghost use Rattle.wire.specs.Forms.{names_text, AreNames};
ghost use Rattle.wire.specs.Rows.{row_line, HasRowTypes, Gives, AddsName, kind_word};

use super::fault::TextFault;
use crate::field::{Field, first_word};
use crate::numbers::number;
use crate::words::split_at_byte;
use fee_rate::Sum;
use graph_model::{Flow, IdList, TxId};
use std::alloc::Global;

/// A line of a certificate text. Fees are in satoshis, sizes in virtual bytes.
#[derive(Debug, Drop)]
pub(crate) enum Row {
    /// `tx ID FEE SIZE`
    Tx(TxId, i64, u64),
    /// `edge ID ID`, the parent first
    Edge(TxId, TxId),
    /// `chunk FEE SIZE ID ..`
    Chunk(Sum, IdList),
    /// `flow ID ID AMOUNT`, the child first
    Flow(Flow),
    /// `end`
    End,
}

/// Which line it is, by its first word.
#[derive(Clone, Copy, Debug, PartialEq, Eq)]
pub(crate) enum Kind {
    Tx,
    Edge,
    Chunk,
    Flow,
}

/// The kind of line whose first word this is.
fn kind_of(word: &[u8]) -> Option<Kind>
    ensures { ReadsAs kind_word Always word.now result }
{
    match word {
        b"tx" => Some(Kind::Tx),
        b"edge" => Some(Kind::Edge),
        b"chunk" => Some(Kind::Chunk),
        b"flow" => Some(Kind::Flow),
        _ => None,
    }
}

/// What a line says that is neither empty nor a comment.
pub(crate) fn read_row(alloc: Global, text: &[u8]) -> Result<Row, TextFault>
    ensures { Gives row_line HasRowTypes text.now result }
{
    match split_at_byte(text, b' ') {
        Some((word, rest)) => read_words(alloc, word, rest),
        None => read_word(text),
    }
}

/// What a line of one word says.
fn read_word(word: &[u8]) -> Result<Row, TextFault>
    requires { IsOneWord word.now }
    ensures { Gives row_line HasRowTypes word.now result }
{
    if is_end(word) {
        Ok(Row::End)
    } else {
        Err(TextFault::Syntax)
    }
}

/// Whether a word is `end`.
fn is_end(word: &[u8]) -> bool
    ensures { IsTrue result ↔ word.now ≡ codes "end" }
{
    match word {
        b"end" => true,
        _ => false,
    }
}

/// What a line of this first word and this rest says.
fn read_words(alloc: Global, word: &[u8], rest: &[u8]) -> Result<Row, TextFault>
    requires { IsOneWord word.now }
    ensures { Gives row_line HasRowTypes (word.now ++ 32 ∷ rest.now) result }
{
    match kind_of(word) {
        Some(kind) => read_fields(alloc, kind, rest),
        None => Err(TextFault::Syntax),
    }
}

/// What a line of this kind says, by what follows its first word.
fn read_fields(alloc: Global, kind: Kind, rest: &[u8]) -> Result<Row, TextFault>
    ensures { Gives row_line HasRowTypes (kind_word kind ++ 32 ∷ rest.now) result }
{
    match kind {
        Kind::Tx => tx(rest),
        Kind::Edge => edge(rest),
        Kind::Chunk => chunk(alloc, rest),
        Kind::Flow => flow(rest),
    }
}

/// `tx ID FEE SIZE`
fn tx(rest: &[u8]) -> Result<Row, TextFault>
    ensures { Gives row_line HasRowTypes (kind_word Kind.Tx ++ 32 ∷ rest.now) result }
{
    match Field::read(rest) {
        Some((id, (fee, size))) => Ok(Row::Tx(id, fee, size)),
        None => Err(TextFault::Syntax),
    }
}

/// `edge ID ID`
fn edge(rest: &[u8]) -> Result<Row, TextFault>
    ensures { Gives row_line HasRowTypes (kind_word Kind.Edge ++ 32 ∷ rest.now) result }
{
    match Field::read(rest) {
        Some((parent, child)) => Ok(Row::Edge(parent, child)),
        None => Err(TextFault::Syntax),
    }
}

/// `flow ID ID AMOUNT`
fn flow(rest: &[u8]) -> Result<Row, TextFault>
    ensures { Gives row_line HasRowTypes (kind_word Kind.Flow ++ 32 ∷ rest.now) result }
{
    match Field::read(rest) {
        Some((child, (parent, amount))) => Ok(Row::Flow(Flow {
            child,
            parent,
            amount,
        })),
        None => Err(TextFault::Syntax),
    }
}

/// `chunk FEE SIZE ID ..`
fn chunk(alloc: Global, rest: &[u8]) -> Result<Row, TextFault>
    ensures { Gives row_line HasRowTypes (kind_word Kind.Chunk ++ 32 ∷ rest.now) result }
{
    match first_word(rest) {
        Some((fee, rest)) => chunk_of_fee(alloc, fee, rest),
        None => Err(TextFault::Syntax),
    }
}

/// A chunk of this fee, by `SIZE ID ..`.
fn chunk_of_fee(alloc: Global, fee: i128, rest: &[u8]) -> Result<Row, TextFault>
    requires { IsBigFee fee }
    ensures { Gives row_line HasRowTypes (kind_word Kind.Chunk ++ 32 ∷ (signed_decimal fee ++ 32 ∷ rest.now)) result }
{
    match first_word(rest) {
        Some((size, rest)) => chunk_of_rate(alloc, Sum { fee, size }, rest),
        None => Err(TextFault::Syntax),
    }
}

/// A chunk of this fee and size, by `ID ..`.
fn chunk_of_rate(alloc: Global, rate: Sum, rest: &[u8]) -> Result<Row, TextFault>
    requires fee { IsBigFee rate.fee }
    requires size { IsWide rate.size }
    ensures { Gives row_line HasRowTypes
        (kind_word Kind.Chunk ++ 32 ∷ (signed_decimal rate.fee ++ 32 ∷ (decimal rate.size ++ 32 ∷ rest.now)))
        result }
{
    let ids = names(alloc, rest)?;
    Ok(Row::Chunk(rate, ids))
}

/// `ID ..`
fn names(alloc: Global, text: &[u8]) -> Result<IdList, TextFault>
    ensures { Gives names_text AreNames text.now result }
{
    let mut ids = Vec::new(alloc);
    let mut rest = text;
    while let Some((word, more)) = split_at_byte(rest, b' ') {
        add_name(&mut ids, word)?;
        rest = more;
    }
    add_name(&mut ids, rest)?;
    Ok(IdList::from_vec(ids))
}

/// Adds the name that a word is.
fn add_name(ids: &mut Vec<TxId>, word: &[u8]) -> Result<(), TextFault>
    ensures { AddsName ids.old.items word.now ids.new.items result }
{
    match number(word) {
        Some(id) => {
            ids.push(id)?;
            Ok(())
        }
        None => Err(TextFault::Syntax),
    }
}
