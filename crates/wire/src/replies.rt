ghost use Rattle.std.specs.Prelude.{◌≡◌};
ghost use Rattle.graph_model.specs.Words.{spaced};
ghost use Rattle.graph_model.specs.Replies as replies;

use graph_model::{Place, Verdict};

/// The word of a verdict.
pub fn verdict_word(verdict: Verdict) -> &'static str
    ensures { result.now ≡ replies.verdict_word verdict }
{
    match verdict {
        Verdict::Better => "better",
        Verdict::Worse => "worse",
        Verdict::Equal => "equal",
        Verdict::Incomparable => "incomparable",
    }
}

/// The words of a settlement with this verdict: whether it committed, and the verdict.
pub fn settled_words(verdict: Verdict) -> &'static str
    ensures { result.now ≡ spaced (replies.settled_words verdict) }
{
    match verdict {
        Verdict::Better => "committed better",
        Verdict::Worse => "aborted worse",
        Verdict::Equal => "aborted equal",
        Verdict::Incomparable => "aborted incomparable",
    }
}

/// The word for where one name stands to another.
pub fn place_word(place: Place) -> &'static str
    ensures { result.now ≡ replies.place_word place }
{
    match place {
        Place::Before => "before",
        Place::Same => "same",
        Place::After => "after",
    }
}
