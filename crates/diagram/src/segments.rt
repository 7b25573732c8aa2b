ghost use Rattle.std.specs.Prelude.{◌≡◌, ◌<◌, pos, List, [], ◌∷◌, MatchOption, IfSome};
ghost use Rattle.std.specs.Iterator.{AlwaysYields, IsFinite, IsNearerEnd};
ghost use Rattle.fee_rate.specs.declared.rates.Sum.{Sum};
ghost use Rattle.diagram.specs.Parts.{rate_of};
ghost use Rattle.diagram.specs.Walks.{corner_steps, corners_left, AreLeft, CanGoOn, FitBehind, TakesSegment, WhereTaken};

use fee_rate::{FeeRate, Sum, add, cmp_rate};
use std::cmp::Ordering;

/// What is known of the part behind those taken.
#[derive(Clone, Copy)]
enum Ahead {
    /// Nothing was taken yet.
    Unknown,
    /// It was taken, and is the first of the next segment.
    Part(Sum),
    /// There is none.
    End,
}

/// The corners of parts of falling rate, lazily: see `corners`.
#[derive(Drop)]
pub struct Corners<I> {
    parts: I,
    /// The sum of the parts whose segments ended.
    end: Sum,
    ahead: Ahead,
}

impl<I: Iterator<Item = FeeRate>> Iterator for Corners<I> {
    type Item = (u64, i128);

    ghost can_next = { CanGoOn I.can_next I.next_gives I.remaining };

    ghost next_gives = { corner_steps I.next_gives };

    ghost remaining = { corners_left I.remaining };

    fn next(&mut self) -> Option<(u64, i128)> {
        match self.ahead {
            Ahead::Unknown => {
                self.take_part();
                Some((self.end.size, self.end.fee))
            }
            Ahead::Part(first) => {
                self.take_segment(first);
                Some((self.end.size, self.end.fee))
            }
            Ahead::End => None,
        }
    }
}

impl<I: Iterator<Item = FeeRate>> Corners<I> {
    /// Before the first part.
    pub(crate) fn new(parts: I) -> Self
        ensures parts { result.parts ≡ parts }
        ensures end { result.end ≡ record { fee = pos 0; size = 0 } }
        ensures ahead { result.ahead ≡ Ahead.Unknown }
    {
        Corners {
            parts,
            end: Sum { fee: 0, size: 0 },
            ahead: Ahead::Unknown,
        }
    }

    /// Takes the next part, if there is one.
    fn take_part(&mut self)
        requires can { I.can_next self.old.parts }
        requires ends { IsFinite (I.remaining self.old.parts) }
        ensures end { self.new.end ≡ self.old.end }
        ensures left { (rest : List Sum) → AlwaysYields I.next_gives rate_of self.old.parts rest
            → AreLeft I.next_gives self.new rest }
        ensures goes { WhereTaken self.new.ahead (IsNearerEnd I.can_next I.remaining self.old.parts self.new.parts) }
    {
        self.ahead = match next_rate(&mut self.parts) {
            Some(rate) => Ahead::Part(rate),
            None => Ahead::End,
        };
    }

    /// Takes the parts of the first one's rate, and the one behind them.
    fn take_segment(&mut self, first: Sum)
        requires can { I.can_next self.old.parts }
        requires ends { IsFinite (I.remaining self.old.parts) }
        requires level { (more : List Sum) × AlwaysYields I.next_gives rate_of self.old.parts more
            × FitBehind self.old.end (first ∷ more) }
        ensures takes { (more : List Sum) → AlwaysYields I.next_gives rate_of self.old.parts more
            → TakesSegment I.next_gives self.old.end first more self.new }
        ensures goes { WhereTaken self.new.ahead (IsNearerEnd I.can_next I.remaining self.old.parts self.new.parts) }
    {
        self.end = add(self.end, first);
        while let Some(rate) = next_rate(&mut self.parts) {
            match cmp_rate(rate, first) {
                Ordering::Less => {
                    self.ahead = Ahead::Part(rate);
                    return;
                }
                Ordering::Equal | Ordering::Greater => self.end = add(self.end, rate),
            }
        }
        self.ahead = Ahead::End;
    }
}

/// The next part's rate, as a sum.
fn next_rate<I: Iterator<Item = FeeRate>>(parts: &mut I) -> Option<Sum>
    requires can { I.can_next parts.old }
    requires ends { IsFinite (I.remaining parts.old) }
    ensures item { (rest : List Sum) → AlwaysYields I.next_gives rate_of parts.old rest
        → MatchOption result (rest ≡ []) (λ rate. (more : List Sum) × (rest ≡ rate ∷ more)
        × AlwaysYields I.next_gives rate_of parts.new more) }
    ensures goes { IfSome result (λ _. IsNearerEnd I.can_next I.remaining parts.old parts.new) }
{
    match parts.next() {
        Some(part) => Some(Sum::from(part)),
        None => None,
    }
}
