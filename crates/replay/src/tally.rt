ghost use Rattle.std.specs.Prelude.{◌≡◌, ℕ, ◌+◌, ◌-◌, ◌<◌, ◌^◌, List, [], ◌∷◌, ◌++◌};
ghost use Rattle.graph_model.specs.Replies.{Reply};
ghost use Rattle.replay.specs.Answers.{reply_outcome};
ghost use Rattle.replay.specs.Generations.{IsTally};

use crate::answer::Outcome;
use graph_model::Refusal;

/// How commands were answered: how many were accepted, how many were refused for want of memory, and how many for
/// another cause.
#[derive(Clone, Copy)]
pub(crate) struct Tally {
    pub(crate) accepted: u64,
    pub(crate) refused: u64,
    pub(crate) memory: u64,
}

impl Tally {
    /// No command yet.
    pub(crate) fn new() -> Tally
        ensures tally { IsTally [] result }
        ensures all { result.accepted + result.refused + result.memory ≡ 0 }
    {
        Tally {
            accepted: 0,
            refused: 0,
            memory: 0,
        }
    }

    /// One more command.
    pub(crate) fn count(&mut self, outcome: Outcome)
        requires { self.old.accepted + self.old.refused + self.old.memory < 2 ^ 64 - 1 }
        ensures tally { (replies : List Reply) (reply : Reply) → IsTally replies self.old → outcome ≡ reply_outcome reply
            → IsTally (replies ++ reply ∷ []) self.new }
        ensures all { self.new.accepted + self.new.refused + self.new.memory
            ≡ self.old.accepted + self.old.refused + self.old.memory + 1 }
    {
        match outcome {
            Outcome::Quiet | Outcome::Accepted => self.accepted += 1,
            Outcome::Refused(number) => self.refuse(number),
        }
    }

    /// One more refusal, by its number.
    fn refuse(&mut self, number: u8)
        requires { self.old.accepted + self.old.refused + self.old.memory < 2 ^ 64 - 1 }
        ensures memory { number ≡ 18 → self.new ≡ record self.old { memory = self.old.memory + 1 } }
        ensures other { (number ≡ 18 → ⊥) → self.new ≡ record self.old { refused = self.old.refused + 1 } }
    {
        if number == Refusal::Memory.number() {
            self.memory += 1;
        } else {
            self.refused += 1;
        }
    }
}
