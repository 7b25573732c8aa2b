ghost use Rattle.std.specs.Prelude.{◌≡◌, ◌⊎◌, ◌↔◌, ℕ, ◌+◌, ◌<◌, ◌≤◌, [], not, true, false, length, nat_eq, slice_index, IfOk, MatchOption};
ghost use Rattle.indexmap.specs.IndexSet.{contains, index_set_len, keys, spare as room_of};
ghost use Rattle.lists.specs.Distinct.{AreDistinct};
ghost use Rattle.graph_model.specs.Refusals.{IsFirst, StandsTwice};
ghost use Rattle.repeats.specs.Places.{NoneAgain, StandsWithin};
ghost use Rattle.repeats.specs.declared.pieces.TheConstants.{MAX_LISTED};

use graphs::TxId;
use indexmap::IndexSet;
use outside::NoMemory;
use std::alloc::Global;
use std::marker::Model;

/// How many names a piece of a list has: as many as one line of the input may list.
pub const MAX_LISTED: usize = 32_766;

/// Room in which a list of names is tested for names that stand in it twice. One value serves all lists.
#[derive(Drop)]
pub struct Repeats {
    // the names of a piece, and none between two calls
    seen: IndexSet<TxId>,
}

// Clauses see how many names there is room for.
impl Model for Repeats {
    ghost use Rattle.std.specs.Prelude.{◌≡◌, ◌≤◌, ℕ, []};
    ghost use Rattle.indexmap.specs.IndexSet.{spare as room_of};
    ghost use Rattle.repeats.specs.declared.pieces.TheConstants.{MAX_LISTED};

    ghost Value = { ℕ };

    ghost view = { λ r. MAX_LISTED };

    ghost invariant = { λ r. (r.seen.keys ≡ []) × (MAX_LISTED ≤ room_of r.seen) };
}

impl Repeats {
    /// Room for as many names as one line may list. All its memory is taken here.
    ///
    /// # Errors
    /// Where there is no memory for them.
    pub fn new(alloc: Global) -> Result<Self, NoMemory>
        ensures { IfOk result (λ r. r ≡ MAX_LISTED) }
    {
        let seen = IndexSet::with_capacity(alloc, MAX_LISTED)?;
        Ok(Repeats { seen })
    }

    /// The first name of a list that stands earlier in it too, or `None` where each stands once. Takes no memory.
    pub fn first(&mut self, ids: &[TxId]) -> Option<TxId>
        ensures first { MatchOption result (AreDistinct ids.now) (λ id. IsFirst StandsTwice ids.now id) }
        ensures same { self.new ≡ self.old }
    {
        let mut best = ids.len();
        let mut start = 0;
        while start < best {
            let end = best.min(start + MAX_LISTED);
            best = self.pass(ids, start, end, best);
            start = end;
        }
        if best == ids.len() {
            return None;
        }
        Some(ids[best])
    }

    // The first position below `best`, from the start of a piece on, whose name stands earlier in the piece; or `best`.
    fn pass(&mut self, ids: &[TxId], start: usize, end: usize, best: usize) -> usize
        requires piece { (start ≤ end) × (end ≤ start + MAX_LISTED) }
        requires within { (end ≤ best) × (best ≤ length ids.now) }
        ensures within { result ≤ best }
        ensures none { NoneAgain ids.now start end result }
        ensures again { (result ≡ best) ⊎ ((result < best) × StandsWithin ids.now start result (slice_index ids.now result)) }
        ensures same { self.new ≡ self.old }
    {
        let found = first_again(&mut self.seen, ids, start, end, best);
        self.seen.clear();
        found
    }
}

// The first position below `best`, from the start of a piece on, whose name stands earlier in the piece; or `best`. The names of the piece
// come into a set that has none.
fn first_again(
    seen: &mut IndexSet<TxId>,
    ids: &[TxId],
    start: usize,
    end: usize,
    best: usize,
) -> usize
    requires empty { seen.old.keys ≡ [] }
    requires piece { (start ≤ end) × (end ≤ start + room_of seen.old) }
    requires within { (end ≤ best) × (best ≤ length ids.now) }
    ensures within { result ≤ best }
    ensures none { NoneAgain ids.now start end result }
    ensures again { (result ≡ best) ⊎ ((result < best) × StandsWithin ids.now start result (slice_index ids.now result)) }
    ensures room { room_of seen.old ≤ index_set_len seen.new + room_of seen.new }
{
    let own = fill(seen, ids, start, end);
    if own < end {
        return own;
    }
    first_seen(seen, ids, end, best)
}

// Puts the names of a piece into a set that has none, up to the first that the set has by then: its position, or the end of the piece.
fn fill(seen: &mut IndexSet<TxId>, ids: &[TxId], start: usize, end: usize) -> usize
    requires empty { seen.old.keys ≡ [] }
    requires piece { (start ≤ end) × (end ≤ start + room_of seen.old) }
    requires within { end ≤ length ids.now }
    ensures within { (start ≤ result) × (result ≤ end) }
    ensures seen { (id : ℕ) → (contains nat_eq seen.new id ≡ true) ↔ StandsWithin ids.now start result id }
    ensures none { NoneAgain ids.now start end result }
    ensures again { result < end → StandsWithin ids.now start result (slice_index ids.now result) }
    ensures room { room_of seen.old ≤ index_set_len seen.new + room_of seen.new }
{
    for at in start..end {
        if !insert_new(seen, ids[at]) {
            return at;
        }
    }
    end
}

// The first position from one on and below another whose name a set has, or the other.
fn first_seen(seen: &IndexSet<TxId>, ids: &[TxId], from: usize, to: usize) -> usize
    requires { (from ≤ to) × (to ≤ length ids.now) }
    ensures within { (from ≤ result) × (result ≤ to) }
    ensures none { (at : ℕ) → from ≤ at → at < result → contains nat_eq seen.now (slice_index ids.now at) ≡ false }
    ensures there { result < to → contains nat_eq seen.now (slice_index ids.now result) ≡ true }
{
    for at in from..to {
        if seen.contains(&ids[at]) {
            return at;
        }
    }
    to
}

// Puts a name into a set that hasn't it, and answers whether it did. Takes no memory.
fn insert_new(seen: &mut IndexSet<TxId>, id: TxId) -> bool
    requires { 0 < room_of seen.old }
    ensures new { result ≡ not (contains nat_eq seen.old id) }
    ensures seen { (q : ℕ) → (contains nat_eq seen.new q ≡ true) ↔ ((q ≡ id) ⊎ (contains nat_eq seen.old q ≡ true)) }
    ensures room { index_set_len seen.old + room_of seen.old ≤ index_set_len seen.new + room_of seen.new }
    ensures spare { room_of seen.old ≤ room_of seen.new + 1 }
{
    if seen.contains(&id) {
        return false;
    }
    match seen.insert(id) {
        Ok(_) => true,
        Err(_) => unreachable!(),
    }
}
