ghost use Rattle.std.specs.Prelude.{◌≡◌, ◌≢◌, ℕ, List, [], ◌-◌, slice_index, MatchOption, IfSome, IfNone, ◌+◌, ◌*◌, ◌<◌, ◌≤◌, ◌∷◌, ◌++◌, length};
ghost use Rattle.graph_model.specs.Lines.{Means, max_line, without_return};
ghost use Rattle.wire.specs.Fields.{IsOneWord};
ghost use Rattle.wire.specs.Forms.{form_word, names_text, AreNames};
ghost use Rattle.wire.specs.Readings.{meaning_of, TextSays, FormSays};

use crate::field::{Deferrable, Field};
use crate::form::{Form, form_of};
use crate::numbers::number;
use crate::words::split_at_byte;
use graph_model::{IdBuf, Level, Limits, TxId};

/// What a line says. Fees are in satoshis, sizes in virtual bytes.
#[derive(Clone, Copy, Debug, PartialEq, Eq)]
pub enum Line {
    /// An empty line or a comment: it gets no reply.
    Quiet,
    /// A line that is no command.
    Syntax,
    /// `limits N N N`: the names of a cluster, its size, the live names. A last word `defer` lets dependencies bring a cluster over the
    /// first two for a while.
    Limits(Limits),
    /// `add ID FEE SIZE`
    Add(TxId, i64, u64),
    /// `dep ID ID`, the parent first
    Dep(TxId, TxId),
    /// `fee ID FEE`
    Fee(TxId, i64),
    /// `remove ID`
    Remove(TxId),
    /// `mine ID ..`: the names stand in the buffer that the line was read with.
    Mine,
    /// `evict`
    Evict,
    /// `stage`
    Stage,
    /// `commit`
    Commit,
    /// `abort`
    Abort,
    /// `settle`
    Settle,
    /// `trim`
    Trim,
    /// `unmine`
    Unmine,
    /// `compare`
    Compare,
    /// `order L`
    Order(Level),
    /// `diagram L`
    Diagram(Level),
    /// `proof L`
    Proof(Level),
    /// `cluster ID L`
    Cluster(TxId, Level),
    /// `ancestors ID L`
    Ancestors(TxId, Level),
    /// `descendants ID L`
    Descendants(TxId, Level),
    /// `chunk ID`
    Chunk(TxId),
    /// `before ID ID`
    Before(TxId, TxId),
    /// `block SIZE`
    Block(u64),
    /// `count L`
    Count(Level),
    /// `dump`
    Dump,
}

/// What a line says, without its line feed: of at most 65,536 bytes, with a carriage return at its end, which is
/// dropped. What `ids` held goes; it holds the names that a `mine` lists, in their order, and else nothing.
pub fn read_line(bytes: &[u8], ids: &mut IdBuf) -> Line
    requires short { length bytes.now ≤ max_line }
    requires room { 32766 ≤ length ids.old.ids + ids.old.room }
    ensures meaning { Means bytes.now (meaning_of result ids.new.ids) }
    ensures names { (result ≡ Line.Mine → ⊥) → ids.new.ids ≡ [] }
    ensures room { length ids.new.ids + ids.new.room ≡ length ids.old.ids + ids.old.room }
{
    ids.clear();
    let text = trimmed(bytes);
    match text {
        [] | [b'#', ..] => Line::Quiet,
        _ => read_text(text, ids),
    }
}

/// The line without the carriage return at its end, if it has one there.
pub(crate) fn trimmed(bytes: &[u8]) -> &[u8]
    ensures text { result.now ≡ without_return bytes.now }
    ensures shorter { length result.now ≤ length bytes.now }
{
    match before_return(bytes) {
        Some(front) => front,
        None => bytes,
    }
}

/// What stands before a carriage return at the end.
fn before_return(bytes: &[u8]) -> Option<&[u8]>
    ensures { MatchOption result (slice_index bytes.now (length bytes.now - 1) ≢ 13)
        (λ front. bytes.now ≡ front.now ++ 13 ∷ []) }
{
    match bytes {
        [front @ .., b'\r'] => Some(front),
        _ => None,
    }
}

/// What a line says that is neither empty nor a comment.
fn read_text(text: &[u8], ids: &mut IdBuf) -> Line
    requires empty { ids.old.ids ≡ [] }
    requires room { length text.now < 2 * ids.old.room + 5 }
    ensures says { TextSays text.now (meaning_of result ids.new.ids) }
    ensures names { (result ≡ Line.Mine → ⊥) → ids.new.ids ≡ [] }
    ensures room { length ids.new.ids + ids.new.room ≡ ids.old.room }
{
    match split_at_byte(text, b' ') {
        Some((word, rest)) => read_words(word, rest, ids),
        None => read_word(text),
    }
}

/// What a line of one word says.
fn read_word(word: &[u8]) -> Line
    requires { IsOneWord word.now }
    ensures says { (ids : List ℕ) → TextSays word.now (meaning_of result ids) }
    ensures names { result ≡ Line.Mine → ⊥ }
{
    match form_of(word) {
        Some(form) => bare(form),
        None => Line::Syntax,
    }
}

/// What a line of a form's first word alone says.
fn bare(form: Form) -> Line
    ensures says { (ids : List ℕ) → TextSays (form_word form) (meaning_of result ids) }
    ensures names { result ≡ Line.Mine → ⊥ }
{
    match form {
        Form::Evict => Line::Evict,
        Form::Stage => Line::Stage,
        Form::Commit => Line::Commit,
        Form::Abort => Line::Abort,
        Form::Settle => Line::Settle,
        Form::Trim => Line::Trim,
        Form::Unmine => Line::Unmine,
        Form::Compare => Line::Compare,
        Form::Dump => Line::Dump,
        _ => Line::Syntax,
    }
}

/// What a line of this first word and this rest says.
fn read_words(word: &[u8], rest: &[u8], ids: &mut IdBuf) -> Line
    requires one { IsOneWord word.now }
    requires empty { ids.old.ids ≡ [] }
    requires room { length word.now + length rest.now < 2 * ids.old.room + 4 }
    ensures says { TextSays (word.now ++ 32 ∷ rest.now) (meaning_of result ids.new.ids) }
    ensures names { (result ≡ Line.Mine → ⊥) → ids.new.ids ≡ [] }
    ensures room { length ids.new.ids + ids.new.room ≡ ids.old.room }
{
    match form_of(word) {
        Some(Form::Mine) => mine(rest, ids),
        Some(form) => read_fields(form, rest),
        None => Line::Syntax,
    }
}

/// What a line of this form with fields of its own kinds says.
fn read_fields(form: Form, rest: &[u8]) -> Line
    requires { form ≢ Form.Mine }
    ensures says { (ids : List ℕ) → TextSays (form_word form ++ 32 ∷ rest.now) (meaning_of result ids) }
    ensures names { result ≡ Line.Mine → ⊥ }
{
    match fields(form, rest) {
        Some(line) => line,
        None => Line::Syntax,
    }
}

/// The line of this form with these fields, a row for each form.
fn fields(form: Form, rest: &[u8]) -> Option<Line>
    requires { form ≢ Form.Mine }
    ensures { (ids : List ℕ) → FormSays (form_word form ++ 32 ∷ rest.now) result ids }
{
    match form {
        Form::Limits => {
            let (count, (size, Deferrable { n: total, defer })) = Field::read(rest)?;
            Some(Line::Limits(Limits {
                count,
                size,
                total,
                defer,
            }))
        }
        Form::Add => {
            let (id, (fee, size)) = Field::read(rest)?;
            Some(Line::Add(id, fee, size))
        }
        Form::Dep => {
            let (parent, child) = Field::read(rest)?;
            Some(Line::Dep(parent, child))
        }
        Form::Fee => {
            let (id, fee) = Field::read(rest)?;
            Some(Line::Fee(id, fee))
        }
        Form::Remove => Some(Line::Remove(Field::read(rest)?)),
        Form::Order => Some(Line::Order(Field::read(rest)?)),
        Form::Diagram => Some(Line::Diagram(Field::read(rest)?)),
        Form::Proof => Some(Line::Proof(Field::read(rest)?)),
        Form::Cluster => {
            let (id, level) = Field::read(rest)?;
            Some(Line::Cluster(id, level))
        }
        Form::Ancestors => {
            let (id, level) = Field::read(rest)?;
            Some(Line::Ancestors(id, level))
        }
        Form::Descendants => {
            let (id, level) = Field::read(rest)?;
            Some(Line::Descendants(id, level))
        }
        Form::Chunk => Some(Line::Chunk(Field::read(rest)?)),
        Form::Before => {
            let (a, b) = Field::read(rest)?;
            Some(Line::Before(a, b))
        }
        Form::Block => Some(Line::Block(Field::read(rest)?)),
        Form::Count => Some(Line::Count(Field::read(rest)?)),
        _ => None,
    }
}

/// `mine ID ..`
fn mine(rest: &[u8], ids: &mut IdBuf) -> Line
    requires empty { ids.old.ids ≡ [] }
    requires room { length rest.now < 2 * ids.old.room }
    ensures says { TextSays (form_word Form.Mine ++ 32 ∷ rest.now) (meaning_of result ids.new.ids) }
    ensures names { (result ≡ Line.Mine → ⊥) → ids.new.ids ≡ [] }
    ensures room { length ids.new.ids + ids.new.room ≡ ids.old.room }
{
    match names(rest, ids) {
        Some(()) => Line::Mine,
        None => {
            ids.clear();
            Line::Syntax
        }
    }
}

/// `ID ..`: the names are added.
fn names(text: &[u8], ids: &mut IdBuf) -> Option<()>
    requires empty { ids.old.ids ≡ [] }
    requires room { length text.now < 2 * ids.old.room }
    ensures found { IfSome result (λ done. AreNames ids.new.ids × (text.now ≡ names_text ids.new.ids)) }
    ensures none { IfNone result ((names : List ℕ) → AreNames names → text.now ≡ names_text names → ⊥) }
    ensures room { length ids.new.ids + ids.new.room ≡ ids.old.room }
{
    let mut rest = text;
    while let Some((word, more)) = split_at_byte(rest, b' ') {
        ids.push(number(word)?);
        rest = more;
    }
    ids.push(number(rest)?);
    Some(())
}
