ghost use Rattle.std.specs.Prelude.{◌≡◌, ◌↔◌, ℕ, List, ◌∷◌, ◌++◌, IfSome, IfNone, IsTrue, codes, decimal, FitsSigned};
ghost use Rattle.std.specs.Int.{w64};
ghost use Rattle.std.specs.Fmt.{signed_decimal};
ghost use Rattle.graph_model.specs.Words.{level_word};
ghost use Rattle.wire.specs.Fields.{ReadsAs, IsOneWord, IsWide, IsAmount, IsBigFee, Always, pair_spelling, BothFit, deferrable_text, IsDeferrable};
ghost use Rattle.wire.specs.OneWord.{decimal_word, signed_word, big_fee_word};

use crate::numbers::{number, signed_number};
use crate::words::split_at_byte;
use graph_model::Level;

/// A field of a line, or several with a space between them.
pub(crate) trait Field: Copy {
    /// Its text.
    ghost spelling: { Self → List ℕ };

    /// The values that have one.
    ghost fits: { Self → Type 0 };

    /// The value that a text spells.
    fn read(text: &[u8]) -> Option<Self>
        ensures { ReadsAs spelling fits text.now result };
}

/// A field without a space, so that another can follow it.
pub(crate) trait Word: Field {
    ghost is_one_word: { (value : Self) → Self.fits value → IsOneWord (Self.spelling value) };
}

/// A name, or a number of 64 bits.
impl Field for u64 {
    ghost spelling = { decimal };

    ghost fits = { IsWide };

    fn read(text: &[u8]) -> Option<u64> {
        number(text)
    }
}

impl Word for u64 {
    ghost is_one_word = { decimal_word };
}

/// A fee.
impl Field for i64 {
    ghost spelling = { signed_decimal };

    ghost fits = { FitsSigned w64 };

    fn read(text: &[u8]) -> Option<i64> {
        signed_number::<u64>(text)
    }
}

impl Word for i64 {
    ghost is_one_word = { signed_word };
}

/// A fee of a certificate.
impl Field for i128 {
    ghost spelling = { signed_decimal };

    ghost fits = { IsBigFee };

    fn read(text: &[u8]) -> Option<i128> {
        signed_number::<u128>(text)
    }
}

impl Word for i128 {
    ghost is_one_word = { big_fee_word };
}

/// An amount of a certificate.
impl Field for u128 {
    ghost spelling = { decimal };

    ghost fits = { IsAmount };

    fn read(text: &[u8]) -> Option<u128> {
        match number(text) {
            Some(0) => None,
            found => found,
        }
    }
}

/// `main` or `top`
impl Field for Level {
    ghost spelling = { level_word };

    ghost fits = { Always };

    fn read(text: &[u8]) -> Option<Level> {
        match text {
            b"main" => Some(Level::Main),
            b"top" => Some(Level::Top),
            _ => None,
        }
    }
}

/// A number, and whether the word `defer` stands behind it.
#[derive(Clone, Copy)]
pub(crate) struct Deferrable {
    pub(crate) n: u64,
    pub(crate) defer: bool,
}

impl Field for Deferrable {
    ghost spelling = { deferrable_text };

    ghost fits = { IsDeferrable };

    fn read(text: &[u8]) -> Option<Deferrable> {
        match split_at_byte(text, b' ') {
            Some((word, rest)) => deferred(word, rest),
            None => Some(Deferrable {
                n: number(text)?,
                defer: false,
            }),
        }
    }
}

/// A number before a space and the word `defer`.
fn deferred(word: &[u8], rest: &[u8]) -> Option<Deferrable>
    requires { IsOneWord word.now }
    ensures { ReadsAs deferrable_text IsDeferrable (word.now ++ 32 ∷ rest.now) result }
{
    if !is_defer(rest) {
        return None;
    }
    Some(Deferrable {
        n: number(word)?,
        defer: true,
    })
}

/// Whether it is the word `defer`.
fn is_defer(word: &[u8]) -> bool
    ensures { IsTrue result ↔ (word.now ≡ codes "defer") }
{
    matches!(word, b"defer")
}

/// A word, and what follows it.
impl<A: Word, B: Field> Field for (A, B) {
    ghost spelling = { pair_spelling A.Field.spelling B.spelling };

    ghost fits = { BothFit A.Field.fits B.fits };

    fn read(text: &[u8]) -> Option<(A, B)> {
        let (first, rest) = first_word(text)?;
        Some((first, B::read(rest)?))
    }
}

/// The field before the first space, and what follows the space.
pub(crate) fn first_word<A: Word>(text: &[u8]) -> Option<(A, &[u8])>
    ensures found { IfSome result
        (λ parts. A.Field.fits parts.0 × (text.now ≡ A.Field.spelling parts.0 ++ 32 ∷ parts.1.now)) }
    ensures none { IfNone result ((value : _) (rest : List ℕ) → A.Field.fits value
        → text.now ≡ A.Field.spelling value ++ 32 ∷ rest → ⊥) }
{
    let (word, rest) = split_at_byte(text, b' ')?;
    Some((A::read(word)?, rest))
}
