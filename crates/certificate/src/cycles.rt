ghost use Rattle.std.specs.Prelude.{◌≡◌, ◌<◌, ◌≤◌, [], ◌∷◌, ◌++◌, length, replicate, slice_set, not, IsTrue, IfOk, MatchBool, vec_capacity};
ghost use Rattle.graphs.specs.Graphs.{HasNoCycle};
ghost use Rattle.certificate.specs.declared.cycles.Visit.TheVariants.{New, Open, Done};
ghost use Rattle.places.specs.Chains.{AreWithin};
ghost use Rattle.certificate.specs.Searches.{IsSearch, GoesOn, LeadBack, visit_at, work_of};

use places::{Chains, linked};
use std::alloc::{AllocError, Global};

/// How far the search has come with a place.
#[derive(Clone, Copy, Debug, PartialEq, Eq)]
pub(crate) enum Visit {
    /// It wasn't reached.
    New,
    /// It is on the way that the search is on.
    Open,
    /// All that leads to it was searched.
    Done,
}

/// A search by depth from children to parents.
#[derive(Drop)]
pub(crate) struct Search {
    /// For each place how many of the pairs are still to be looked at for it.
    left: Vec<usize>,
    visits: Vec<Visit>,
    /// The way that the search is on, each place a parent of the one before it.
    way: Vec<usize>,
}

impl Search {
    /// A search that hasn't begun, with room for a way of all places, by the pairs to be looked at for each place.
    fn new(alloc: Global, left: Vec<usize>) -> Result<Search, AllocError>
        ensures left { IfOk result (λ search. search.left.items ≡ left.items) }
        ensures visits { IfOk result (λ search. search.visits.items ≡ replicate (length left.items) New) }
        ensures way { IfOk result (λ search. search.way.items ≡ []) }
        ensures room { IfOk result (λ search. length left.items ≤ vec_capacity search.way) }
    {
        let count = left.len();
        Ok(Search {
            left,
            visits: vec![in alloc; Visit::New; count]?,
            way: Vec::with_capacity(alloc, count)?,
        })
    }
}

/// Whether no walk along pairs (parent, child) leads back to where it began.
pub(crate) fn is_acyclic(
    alloc: Global,
    count: usize,
    pairs: &[(usize, usize)],
) -> Result<bool, AllocError>
    requires { AreWithin count pairs.now }
    ensures { IfOk result (λ yes. MatchBool yes (HasNoCycle pairs.now) (HasNoCycle pairs.now → ⊥)) }
{
    let Chains { last, before } = linked(alloc, count, pairs)?;
    let mut search = Search::new(alloc, last)?;
    Ok(finds_no_cycle(&mut search, pairs, before.as_slice()))
}

/// Searches all that leads to each place. Whether no walk leads back to where it began.
fn finds_no_cycle(search: &mut Search, pairs: &[(usize, usize)], before: &[usize]) -> bool
    requires pairs_in { AreWithin (length search.old.visits.items) pairs.now }
    requires chains { LeadBack pairs.now before.now }
    requires sized { length before.now ≡ length pairs.now }
    requires search { IsSearch pairs.now search.old.left.items search.old.visits.items search.old.way.items }
    requires way { search.old.way.items ≡ [] }
    requires room { length search.old.visits.items ≤ vec_capacity search.old.way }
    ensures { MatchBool result (HasNoCycle pairs.now) (HasNoCycle pairs.now → ⊥) }
{
    for place in 0..search.visits.len() {
        if !reach(search, pairs, before, place) {
            return false;
        }
    }
    true
}

/// Searches all that leads to a place. Whether no walk of it leads back to where it began.
fn reach(search: &mut Search, pairs: &[(usize, usize)], before: &[usize], place: usize) -> bool
    requires place_in { place < length search.old.visits.items }
    requires pairs_in { AreWithin (length search.old.visits.items) pairs.now }
    requires chains { LeadBack pairs.now before.now }
    requires sized { length before.now ≡ length pairs.now }
    requires search { IsSearch pairs.now search.old.left.items search.old.visits.items search.old.way.items }
    requires way { search.old.way.items ≡ [] }
    requires room { length search.old.visits.items ≤ vec_capacity search.old.way }
    ensures goes_on { IsTrue result → GoesOn pairs.now search.old.visits.items search.new.left.items
        search.new.visits.items search.new.way.items }
    ensures way { IsTrue result → search.new.way.items ≡ [] }
    ensures room { IsTrue result → length search.new.visits.items ≤ vec_capacity search.new.way }
    ensures done { IsTrue result → visit_at search.new.visits.items place ≡ Done }
    ensures cycle { IsTrue (not result) → HasNoCycle pairs.now → ⊥ }
{
    match search.visits[place] {
        Visit::New => search_from(search, pairs, before, place),
        Visit::Open => true,
        Visit::Done => true,
    }
}

/// Searches all that leads to a place that wasn't reached. Whether no walk of it leads back to where it began.
fn search_from(
    search: &mut Search,
    pairs: &[(usize, usize)],
    before: &[usize],
    place: usize,
) -> bool
    requires place_in { place < length search.old.visits.items }
    requires is_new { visit_at search.old.visits.items place ≡ New }
    requires pairs_in { AreWithin (length search.old.visits.items) pairs.now }
    requires chains { LeadBack pairs.now before.now }
    requires sized { length before.now ≡ length pairs.now }
    requires search { IsSearch pairs.now search.old.left.items search.old.visits.items search.old.way.items }
    requires way { search.old.way.items ≡ [] }
    requires room { length search.old.visits.items ≤ vec_capacity search.old.way }
    ensures goes_on { IsTrue result → GoesOn pairs.now search.old.visits.items search.new.left.items
        search.new.visits.items search.new.way.items }
    ensures way { IsTrue result → search.new.way.items ≡ [] }
    ensures room { IsTrue result → length search.new.visits.items ≤ vec_capacity search.new.way }
    ensures done { IsTrue result → visit_at search.new.visits.items place ≡ Done }
    ensures cycle { IsTrue (not result) → HasNoCycle pairs.now → ⊥ }
{
    open(search, place);
    while search.way.len() > 0 {
        if !step(search, pairs, before) {
            return false;
        }
    }
    true
}

/// Puts a place on the way, which has room for one more.
fn open(search: &mut Search, place: usize)
    requires place_in { place < length search.old.visits.items }
    requires room { length search.old.way.items < vec_capacity search.old.way }
    ensures left { search.new.left.items ≡ search.old.left.items }
    ensures visits { search.new.visits.items ≡ slice_set search.old.visits.items place Open }
    ensures way { search.new.way.items ≡ search.old.way.items ++ place ∷ [] }
    ensures room { vec_capacity search.new.way ≡ vec_capacity search.old.way }
{
    search.way.push_reserved(place);
    search.visits[place] = Visit::Open;
}

/// Looks at one more pair for the last place of the way, or leaves it where none is left. Whether no walk led back.
fn step(search: &mut Search, pairs: &[(usize, usize)], before: &[usize]) -> bool
    requires some { 0 < length search.old.way.items }
    requires pairs_in { AreWithin (length search.old.visits.items) pairs.now }
    requires chains { LeadBack pairs.now before.now }
    requires sized { length before.now ≡ length pairs.now }
    requires search { IsSearch pairs.now search.old.left.items search.old.visits.items search.old.way.items }
    requires room { length search.old.visits.items ≤ vec_capacity search.old.way }
    ensures goes_on { IsTrue result → GoesOn pairs.now search.old.visits.items search.new.left.items
        search.new.visits.items search.new.way.items }
    ensures room { IsTrue result → length search.new.visits.items ≤ vec_capacity search.new.way }
    ensures less { IsTrue result → work_of search.new.left.items search.new.visits.items
        < work_of search.old.left.items search.old.visits.items }
    ensures cycle { IsTrue (not result) → HasNoCycle pairs.now → ⊥ }
{
    let top = search.way[search.way.len() - 1];
    let left = search.left[top];
    if left == 0 {
        search.visits[top] = Visit::Done;
        search.way.pop();
        return true;
    }
    let parent = pairs[left - 1].0;
    match search.visits[parent] {
        Visit::New => {
            open(search, parent);
            true
        }
        Visit::Open => false,
        Visit::Done => {
            search.left[top] = before[left - 1];
            true
        }
    }
}
