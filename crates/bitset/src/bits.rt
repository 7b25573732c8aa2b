ghost use Rattle.std.specs.Prelude.{◌≡◌, ℕ, ◌+◌, ◌-◌, ◌*◌, ◌^◌, ◌<◌, ◌≤◌, ◌&&◌, not, min, nat_lt, true, length, IfSome, MatchOption};
ghost use Rattle.std.specs.Ordering.{nat_cmp};
ghost use Rattle.std.specs.FinSet as set;
ghost use Rattle.bitset.specs.Words.{is_set, is_place};
ghost use Rattle.bitset.specs.Places.{IsLeast, IsWithin, first_places, places};

use std::marker::Model;

/// Bits in a word.
const WORD: usize = 64;

/// A set of places, which are numbers below 64·W.
///
/// Place p is bit p % 64 of word p / 64, so what is done with a set is done a word at a time.
#[derive(Clone, Copy, Debug)]
pub struct Bits<const W: usize> {
    words: [u64; W],
}

// Clauses see the set of the places.
impl<const W: usize> Model for Bits<W> {
    ghost use Rattle.std.specs.Ordering.{nat_cmp};
    ghost use Rattle.std.specs.FinSet as set;
    ghost use Rattle.std.specs.Coded.{coded_ℕ};
    ghost use Rattle.bitset.specs.Words.{members_of, words_of, AreWords};
    ghost use Rattle.bitset.specs.WordSets.{words_of-members_of};

    ghost Value = { set.FinSet nat_cmp };

    ghost coded = { set.code coded_ℕ };

    ghost view = { λ b. members_of b.words };

    ghost invariant = { λ b. AreWords W b.words };

    ghost inverse = { λ s. record { words = words_of W s } };

    ghost inverse_ok = { λ b h i. record { words = words_of-members_of W b.words h i } };
}

impl<const W: usize> Bits<W> {
    /// The set of no place.
    pub fn empty() -> Self
        ensures { result ≡ set.empty }
    {
        Bits { words: [0; W] }
    }

    /// The set of the first `n` places, of which there are 64·W.
    pub fn first_n(n: usize) -> Self
        requires { n ≤ 64 * W }
        ensures { result ≡ first_places n }
    {
        let mut words = [0; W];
        for i in 0..W {
            words[i] = low_bits(i, n);
        }
        Bits { words }
    }

    /// Puts a place below 64·W into the set.
    pub fn insert(&mut self, place: usize)
        requires { place < 64 * W }
        ensures { self.new ≡ set.insert self.old place }
    {
        self.words[place / WORD] |= 1 << (place % WORD);
    }

    /// Takes a place below 64·W out of the set.
    pub fn remove(&mut self, place: usize)
        requires { place < 64 * W }
        ensures { self.new ≡ set.remove self.old place }
    {
        self.words[place / WORD] &= !(1 << (place % WORD));
    }

    /// Puts a place below 64·W into the set, or takes it out: whichever it is, at the same cost.
    pub fn set(&mut self, place: usize, there: bool)
        requires { place < 64 * W }
        ensures here { set.contains self.new place ≡ there }
        ensures others { (p : ℕ) → (p ≡ place → ⊥) → set.contains self.new p ≡ set.contains self.old p }
    {
        self.remove(place);
        self.words[place / WORD] |= u64::from(there) << (place % WORD);
    }

    /// Whether a place below 64·W is in the set.
    pub fn has(&self, place: usize) -> bool
        requires { place < 64 * W }
        ensures { result ≡ set.contains self.now place }
    {
        (self.words[place / WORD] >> (place % WORD)) & 1 == 1
    }

    /// Whether each place of this set is in the other.
    pub fn is_subset(&self, other: &Self) -> bool
        ensures { result ≡ set.is_subset self.now other.now }
    {
        for i in 0..W {
            if self.words[i] & !other.words[i] != 0 {
                return false;
            }
        }
        true
    }

    /// The places of either set.
    #[must_use]
    pub fn union(&self, other: &Self) -> Self
        ensures { result ≡ set.union self.now other.now }
    {
        let mut words = self.words;
        for i in 0..W {
            words[i] |= other.words[i];
        }
        Bits { words }
    }

    /// The places that both sets have.
    #[must_use]
    pub fn meet(&self, other: &Self) -> Self
        ensures { result ≡ set.intersection self.now other.now }
    {
        let mut words = self.words;
        for i in 0..W {
            words[i] &= other.words[i];
        }
        Bits { words }
    }

    /// The places of this set that the other has not.
    #[must_use]
    pub fn minus(&self, other: &Self) -> Self
        ensures { result ≡ set.difference self.now other.now }
    {
        let mut words = self.words;
        for i in 0..W {
            words[i] &= !other.words[i];
        }
        Bits { words }
    }

    /// The places that lie `by` below a place of the set. What is less than `by` drops out.
    #[must_use]
    pub fn lowered(&self, by: usize) -> Self
        ensures { (p : ℕ) → set.contains result p ≡ set.contains self.now (p + by) }
    {
        let skipped = by / WORD;
        let mut words = [0; W];
        for i in skipped..W {
            words[i - skipped] = bits_lowered(&self.words, i, by % WORD);
        }
        Bits { words }
    }

    /// The places that lie `by` above a place of the set. What would come to 64·W or more drops out; what is left is, as
    /// every place, below 2^64.
    #[must_use]
    pub fn raised(&self, by: usize) -> Self
        requires { (p : ℕ) → set.contains self.now p ≡ true → p + by < 64 * W → p + by < 2 ^ 64 }
        ensures { (p : ℕ) → set.contains result p ≡
            (nat_lt p (64 * W) && (not (nat_lt p by) && set.contains self.now (p - by))) }
    {
        let skipped = by / WORD;
        let mut words = [0; W];
        for i in skipped..W {
            words[i] = bits_raised(&self.words, i - skipped, by % WORD);
        }
        Bits { words }
    }

    /// The places of the set that are below 64·V, in V words.
    #[must_use]
    pub fn resized<const V: usize>(&self) -> Bits<V>
        ensures { (p : ℕ) → set.contains result p ≡ (nat_lt p (64 * V) && set.contains self.now p) }
    {
        let mut words = [0; V];
        for i in 0..V {
            words[i] = word_or_none(&self.words, i);
        }
        Bits { words }
    }

    /// How many places the set has.
    ///
    /// Where they are more than a `usize` holds, which no set in memory reaches, it is the largest `usize`.
    pub fn count(&self) -> usize
        ensures exact { result ≡ min (set.len self.now) (2 ^ 64 - 1) }
        ensures within { IsWithin (64 * W) self.now }
    {
        let mut total: usize = 0;
        for i in 0..W {
            total = total.saturating_add(self.words[i].count_ones() as usize);
        }
        total
    }

    /// The least place, or `None` where the set has none.
    pub fn least(&self) -> Option<usize>
        ensures least { MatchOption result (self.now ≡ set.empty) (IsLeast self.now) }
        ensures within { IsWithin (64 * W) self.now }
    {
        for i in 0..W {
            let word = self.words[i];
            if word != 0 {
                return Some(WORD * i + word.trailing_zeros() as usize);
            }
        }
        None
    }

    /// The greatest place, or `None` where the set has none.
    pub fn greatest(&self) -> Option<usize>
        ensures there { MatchOption result (self.now ≡ set.empty) (λ p. set.contains self.now p ≡ true) }
        ensures greatest { IfSome result (λ p. (q : ℕ) → set.contains self.now q ≡ true → q ≤ p) }
        ensures within { IsWithin (64 * W) self.now }
    {
        let mut i = W;
        while i > 0 {
            i -= 1;
            let word = self.words[i];
            if word != 0 {
                return Some(WORD * i + (63 - word.leading_zeros() as usize));
            }
        }
        None
    }

    /// The places, upward.
    pub fn iter(&self) -> BitsIter<W>
        ensures places { result ≡ places (64 * W) self.now }
        ensures within { IsWithin (64 * W) self.now }
    {
        let _words = &self.words;
        BitsIter { left: *self }
    }
}

// The bits of word i that stand for places below n.
fn low_bits(i: usize, n: usize) -> u64
    ensures { (k : ℕ) → k < 64 → is_set result k ≡ nat_lt (64 * i + k) n }
{
    if i < n / WORD {
        u64::MAX
    } else if i == n / WORD {
        (1 << (n % WORD)) - 1
    } else {
        0
    }
}

// Word i, or no bit where there are fewer words.
fn word_or_none(words: &[u64], i: usize) -> u64
    ensures { (k : ℕ) → k < 64 → is_set result k ≡ is_place words.now (64 * i + k) }
{
    if i < words.len() { words[i] } else { 0 }
}

// The 64 bits that stand `by` places above those of word i, which are of this word and the next.
fn bits_lowered(words: &[u64], i: usize, by: usize) -> u64
    requires word { i < length words.now }
    requires within { by < 64 }
    ensures { (k : ℕ) → k < 64 → is_set result k ≡ is_place words.now (64 * i + k + by) }
{
    let here = words[i] >> by;
    if by == 0 || i + 1 == words.len() {
        here
    } else {
        here | words[i + 1] << (WORD - by)
    }
}

// The 64 bits that stand `by` places below those of word i, which are of this word and the one before.
fn bits_raised(words: &[u64], i: usize, by: usize) -> u64
    requires word { i < length words.now }
    requires within { by < 64 }
    ensures { (k : ℕ) → k < 64 → is_set result k ≡
        (not (nat_lt (64 * i + k) by) && is_place words.now (64 * i + k - by)) }
{
    let here = words[i] << by;
    if by == 0 || i == 0 {
        here
    } else {
        here | words[i - 1] >> (WORD - by)
    }
}

/// The places of a set that are still to come, upward.
#[derive(Debug, Drop)]
pub struct BitsIter<const W: usize> {
    left: Bits<W>,
}

// Clauses see the list of these places.
impl<const W: usize> Model for BitsIter<W> {
    ghost use Rattle.std.specs.Prelude.{List, ℕ, ◌*◌};
    ghost use Rattle.bitset.specs.Places.{places};

    ghost Value = { List ℕ };

    ghost view = { λ it. places (64 * W) it.left };
}

impl<const W: usize> Iterator for BitsIter<W> {
    type Item = usize;

    ghost use Rattle.std.specs.Iterator.{YieldsFirst, item_count};

    ghost next_gives = { YieldsFirst (λ it. it) };

    ghost remaining = { item_count (λ it. it) };

    fn next(&mut self) -> Option<usize> {
        let place = self.left.least()?;
        self.left.remove(place);
        Some(place)
    }
}
