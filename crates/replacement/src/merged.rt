ghost use Rattle.std.specs.Prelude.{◌≡◌, ◌+◌, ◌<◌, List, IfSome};
ghost use Rattle.std.specs.Iterator.{AlwaysYields, IsFinite, size};
ghost use Rattle.fee_rate.specs.declared.rates.Sum.{Sum};
ghost use Rattle.diagram.specs.Parts.{rate_of, YieldsParts};
ghost use Rattle.replacement.specs.Changes.{IsMerged};
ghost use Rattle.replacement.specs.Merging.{merged_left, merged_steps, peeked_left, AreLeft, CanMerge, IsHigher, IsReady, YieldBoth};

use fee_rate::{FeeRate, is_lower};

/// A walk over parts, of which the next was taken ahead.
#[derive(Drop)]
struct Peeked<I> {
    next: Option<FeeRate>,
    rest: I,
}

impl<I: Iterator<Item = FeeRate>> Peeked<I> {
    /// Before the first part.
    fn new(rest: I) -> Self
        requires can { I.can_next rest }
        requires ends { IsFinite (I.remaining rest) }
        ensures left { (parts : List Sum) → AlwaysYields I.next_gives rate_of rest parts
            → AreLeft I.next_gives result parts }
        ensures ready { IsReady I.can_next I.remaining result }
    {
        let mut walk = Peeked { next: None, rest };
        walk.advance();
        walk
    }

    /// Goes on to the part behind the next.
    fn advance(&mut self)
        requires can { I.can_next self.old.rest }
        requires ends { IsFinite (I.remaining self.old.rest) }
        ensures left { (parts : List Sum) → AlwaysYields I.next_gives rate_of self.old.rest parts
            → AreLeft I.next_gives self.new parts }
        ensures ready { IsReady I.can_next I.remaining self.new }
        ensures fewer { size (peeked_left I.remaining self.new) < size (I.remaining self.old.rest) + 1 }
    {
        self.next = self.rest.next();
    }
}

/// Which of two walks has the next part of the higher rate, and that part.
#[derive(Clone, Copy)]
enum Front {
    One(FeeRate),
    Other(FeeRate),
    Neither,
}

/// The part of the higher rate, the first where rates are equal.
fn higher(one: Option<FeeRate>, other: Option<FeeRate>) -> Front
    ensures { IsHigher one other result }
{
    match (one, other) {
        (Some(a), Some(b)) => {
            if is_lower(a, b) {
                Front::Other(b)
            } else {
                Front::One(a)
            }
        }
        (Some(a), None) => Front::One(a),
        (None, Some(b)) => Front::Other(b),
        (None, None) => Front::Neither,
    }
}

/// Two walks over parts in falling rate, merged to one that falls too. It holds one part of each, and takes no memory.
#[derive(Drop)]
pub(crate) struct Merged<I, J> {
    one: Peeked<I>,
    other: Peeked<J>,
}

impl<I: Iterator<Item = FeeRate>, J: Iterator<Item = FeeRate>> Merged<I, J> {
    /// Before the first part.
    pub(crate) fn new(one: I, other: J) -> Self
        requires one_can { I.can_next one }
        requires one_ends { IsFinite (I.remaining one) }
        requires other_can { J.can_next other }
        requires other_ends { IsFinite (J.remaining other) }
        requires both { (ones more : List Sum) × YieldBoth I.next_gives J.next_gives one other ones more }
        ensures can { CanMerge I.can_next I.next_gives I.remaining J.can_next J.next_gives J.remaining result }
        ensures ends { IsFinite (merged_left I.remaining J.remaining result) }
        ensures parts { (ones more : List Sum) → YieldBoth I.next_gives J.next_gives one other ones more
            → (level : List Sum) × IsMerged ones more level
            × YieldsParts (merged_steps I.next_gives J.next_gives) result level }
    {
        Merged {
            one: Peeked::new(one),
            other: Peeked::new(other),
        }
    }
}

impl<I: Iterator<Item = FeeRate>, J: Iterator<Item = FeeRate>> Iterator for Merged<I, J> {
    type Item = FeeRate;

    ghost can_next = { CanMerge I.can_next I.next_gives I.remaining J.can_next J.next_gives J.remaining };

    ghost next_gives = { merged_steps I.next_gives J.next_gives };

    ghost remaining = { merged_left I.remaining J.remaining };

    fn next(&mut self) -> Option<FeeRate> {
        match higher(self.one.next, self.other.next) {
            Front::One(part) => {
                self.one.advance();
                Some(part)
            }
            Front::Other(part) => {
                self.other.advance();
                Some(part)
            }
            Front::Neither => None,
        }
    }
}
