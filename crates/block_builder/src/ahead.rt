//! The parts that a builder hasn't gone past.
ghost use Rattle.std.specs.Prelude.{◌≡◌, ◌≢◌, List, [], ◌∷◌, MatchOption};
ghost use Rattle.cluster_store.specs.Stores.{Shown};
ghost use Rattle.cluster_store.specs.Walks.{shown_part};
ghost use Rattle.block_builder.specs.Building.{PassesOver};

use crate::marks::has_mark;
use cluster_store::{PartWalk, Parts, ShownPart};
use std::marker::Model;

/// The parts of a walk, of which the first is known.
#[derive(Drop)]
pub struct Ahead<'g, T: Parts> {
    first: Option<ShownPart<'g>>,
    behind: PartWalk<'g, T>,
}

// Clauses see the parts.
impl<'g, T: Parts> Model for Ahead<'g, T> {
    ghost use Rattle.std.specs.Prelude.{List, option_map};
    ghost use Rattle.std.specs.Coded.{coded_list};
    ghost use Rattle.cluster_store.specs.Stores.{Shown, shown_code};
    ghost use Rattle.cluster_store.specs.Walks.{shown_part};
    ghost use Rattle.block_builder.specs.Building.{ahead_of};

    ghost Value = { List Shown };

    ghost coded = { coded_list shown_code };

    ghost view = { λ a. ahead_of (option_map shown_part a.first) a.behind };
}

impl<'g, T: Parts + 'g> Ahead<'g, T> {
    /// All parts of a walk.
    pub fn new(mut parts: PartWalk<'g, T>) -> Self
        ensures { result ≡ parts.entry }
    {
        let first = parts.next();
        Ahead {
            first,
            behind: parts,
        }
    }

    /// The first part, or `None` at the end.
    pub fn first(&self) -> Option<ShownPart<'g>>
        ensures { MatchOption result (self.now ≡ []) (λ s. (rest : List Shown) × (self.now ≡ shown_part s ∷ rest)) }
    {
        let _behind = &self.behind;
        self.first
    }

    /// Goes past the first part, and over those behind it whose clusters are marked, up to the first one whose cluster isn't.
    pub fn go_past(&mut self, marks: &[bool])
        requires { self.old ≢ [] }
        ensures { PassesOver marks.now self.old self.new }
    {
        while let Some(shown) = self.behind.next() {
            if !has_mark(marks, shown.number) {
                self.first = Some(shown);
                return;
            }
        }
        self.first = None;
    }
}
