ghost use Rattle.std.specs.Prelude.{◌≡◌, ◌≢◌, ℕ, [], true, false, Some, OnOk, OnErr, MatchOption};
ghost use Rattle.chunk_index.specs.declared.entry.Tag.TheVariants.{Both, TopOnly};
ghost use Rattle.chunk_index.specs.Keys.{key_of, has_key, not_before, without};
ghost use Rattle.chunk_index.specs.Items.{item_key, AreInOrder, HasEntry, found, has, shared, with_entry, without_entry, with_tag, tag_set, entries_by, entries_in, entries_tagged};
ghost use Rattle.chunk_index.specs.Kept.{entry_from};
ghost use Rattle.chunk_index.specs.Walks.{passes};

use crate::Level;
use crate::apart::{put_in, tag_of, take_out};
use crate::emptying::take_all;
use crate::entry::{Entry, Tag};
use crate::numbers::Numbers;
use crate::part::Part;
use crate::sort_key::SortKey;
use crate::spares::Spares;
use crate::tree::Tree;
use crate::walk::{IndexWalk, Wanted};
use outside::NoMemory;
use std::alloc::Global;
use std::marker::Model;
use std::mem;

/// Entries in the order of their keys, each with its tag.
#[derive(Drop)]
pub struct ChunkIndex {
    alloc: Global,
    // Of all entries but the fresh ones, the numbers of their records.
    numbers: Numbers,
    // Those of them that are in main alone.
    main: Tree,
    // Those of them that are in staging alone.
    top: Tree,
    // Those that came in staging alone and are still. Most go out again before they come into main.
    fresh: Tree,
    // A node for each entry in both levels, one for each fresh entry, and some more.
    spares: Spares,
}

impl Model for ChunkIndex {
    ghost use Rattle.chunk_index.specs.Fresh.{with_fresh, IsIndex};
    ghost use Rattle.chunk_index.specs.Items.{Items};
    ghost use Rattle.chunk_index.specs.Kept.{items_of};
    ghost use Rattle.chunk_index.specs.Numbers.{listed, count};
    ghost use Rattle.chunk_index.specs.Spares.{kept, room};

    ghost Value = { Items };

    ghost view = { λ a. with_fresh (items_of (listed a.numbers) a.main a.top) a.fresh };

    ghost invariant = { λ a. IsIndex (listed a.numbers) a.main a.top a.fresh (count a.numbers) (kept a.spares) (room a.spares) };
}

impl ChunkIndex {
    /// An index of no entries. Takes no memory.
    pub fn new(alloc: Global) -> ChunkIndex
        ensures { result ≡ [] }
    {
        ChunkIndex {
            alloc,
            numbers: Numbers::new(alloc),
            main: Tree::new(),
            top: Tree::new(),
            fresh: Tree::new(),
            spares: Spares::new(alloc),
        }
    }

    /// Whether an entry of that entry's key is there. Takes no memory.
    pub fn contains(&self, entry: &Entry) -> bool
        ensures found { result ≡ has self.now entry.now }
        ensures order { AreInOrder self.now }
    {
        let key = SortKey::of(entry);
        self.fresh.has(&key) || self.numbers.get(&key).is_some()
    }

    /// The number of the record of the entry of that entry's key, or `None` where none is there. Takes no memory.
    pub fn number(&self, entry: &Entry) -> Option<usize>
        ensures { MatchOption result (has self.now entry.now ≡ false) (λ number. (t : Tag) × (found self.now (key_of entry.now) ≡ Some (number, t))) }
    {
        let key = SortKey::of(entry);
        match self.fresh.find(&key) {
            Some(number) => Some(number),
            None => self.numbers.get(&key),
        }
    }

    /// Puts an entry in its place, under a tag. No entry of its key is there.
    ///
    /// # Errors
    /// Where there is no memory for it. All is as it was.
    pub fn insert(&mut self, entry: Entry, tag: Tag) -> Result<(), NoMemory>
        requires { has self.old entry ≡ false }
        ensures ok { OnOk result (self.new ≡ with_entry self.old entry tag) }
        ensures err { OnErr result (self.new ≡ self.old) }
    {
        let key = SortKey::of(&entry);
        self.catch_up();
        match tag {
            Tag::TopOnly => self.begin(key, entry.number),
            tag => {
                self.enter(key, entry.number)?;
                self.set_apart(key, entry.number, tag);
                Ok(())
            }
        }
    }

    /// Takes the entry of that entry's key out, which is there. Takes no memory.
    pub fn remove(&mut self, entry: &Entry)
        requires { has self.old entry.now ≡ true }
        ensures { self.new ≡ without_entry self.old entry.now }
    {
        let tag = self.tag_of(&SortKey::of(entry));
        self.take(entry, tag);
    }

    /// The same where it is known that the entry has that tag: no tree is searched for it but the one of the tag.
    pub fn take(&mut self, entry: &Entry, tag: Tag)
        requires { (number : ℕ) × (found self.old (key_of entry.now) ≡ Some (number, tag)) }
        ensures { self.new ≡ without_entry self.old entry.now }
    {
        self.take_key(&SortKey::of(entry), tag);
    }

    /// The same by the entry's key.
    fn take_key(&mut self, key: &SortKey, tag: Tag)
        requires { (number : ℕ) × (found self.old key.now ≡ Some (number, tag)) }
        ensures { self.new ≡ without item_key self.old key.now }
    {
        if self.end(key, tag) {
            return;
        }
        self.share(key, tag);
        self.leave(key);
    }

    /// Changes the tag of an entry, which is there, its record's number included. Takes no memory.
    pub fn retag(&mut self, entry: &Entry, tag: Tag)
        requires { HasEntry self.old entry.now }
        ensures { self.new ≡ with_tag self.old entry.now tag }
    {
        let from = self.tag_of(&SortKey::of(entry));
        self.move_tag(entry, from, tag);
    }

    /// The same where it is known which tag the entry has: no tree is searched for it but the one of that tag.
    pub fn move_tag(&mut self, entry: &Entry, from: Tag, to: Tag)
        requires { found self.old (key_of entry.now) ≡ Some (entry.now.number, from) }
        ensures { self.new ≡ with_tag self.old entry.now to }
    {
        let key = SortKey::of(entry);
        self.share(&key, from);
        self.set_apart(key, entry.number, to);
    }

    /// The entries of a level stand in both levels from now on, and the others go out. Takes no memory.
    ///
    /// It costs the entries that stand in one level alone.
    pub fn settle(&mut self, stays: Level)
        ensures { self.new ≡ shared (entries_in stays self.old) }
    {
        let main = mem::replace(&mut self.main, Tree::new());
        let top = mem::replace(&mut self.top, Tree::new());
        let fresh = mem::replace(&mut self.fresh, Tree::new());
        match stays {
            Level::Main => {
                self.spares.give_all(main);
                take_all(&mut self.numbers, &mut self.spares, top);
                self.spares.give_all(fresh);
            }
            Level::Top => {
                take_all(&mut self.numbers, &mut self.spares, main);
                self.spares.give_all(top);
                self.numbers.list_all(fresh);
            }
        }
        self.spares.trim(self.numbers.len());
    }

    /// Puts the entry of a key and a record's number in its place, in both levels. No entry of that key is there.
    ///
    /// # Errors
    /// Where there is no memory for it. All is as it was.
    fn enter(&mut self, key: SortKey, number: usize) -> Result<(), NoMemory>
        requires { has_key item_key self.old key ≡ false }
        ensures ok { OnOk result (self.new ≡ with_entry self.old (entry_from key number) Both) }
        ensures err { OnErr result (self.new ≡ self.old) }
    {
        let count = self.numbers.len() + self.fresh.len();
        let apart = self.main.len() + self.top.len();
        let others = apart + self.fresh.len();
        self.spares
            .need(self.alloc, key, count - apart + 1, others)?;
        self.numbers.insert(key, number)?;
        Ok(())
    }

    /// Brings numbers that stand in nodes into the map, if there are some and it finds memory for them.
    fn catch_up(&mut self)
        ensures { self.new ≡ self.old }
    {
        // Two, so that they are brought faster than they can come.
        self.numbers.catch_up();
        self.numbers.catch_up();
    }

    /// Takes the entry of a key out, where one is there. It stands in both levels.
    fn leave(&mut self, key: &SortKey)
        requires { (number : ℕ) × (found self.old key.now ≡ Some (number, Both)) }
        ensures { self.new ≡ without item_key self.old key.now }
    {
        self.numbers.remove(key);
        let count = self.numbers.len() + self.fresh.len();
        let apart = self.main.len() + self.top.len();
        self.spares.trim(count - apart);
    }

    /// Puts the entry of a key and a record's number in its place, in staging alone. No entry of that key is there.
    ///
    /// It gets two nodes: one to stand in now, and one for when it is in main, wherever its number stands then.
    ///
    /// # Errors
    /// Where there is no memory for it. All is as it was.
    fn begin(&mut self, key: SortKey, number: usize) -> Result<(), NoMemory>
        requires { has_key item_key self.old key ≡ false }
        ensures ok { OnOk result (self.new ≡ with_entry self.old (entry_from key number) TopOnly) }
        ensures err { OnErr result (self.new ≡ self.old) }
    {
        let count = self.numbers.len() + self.fresh.len();
        let apart = self.main.len() + self.top.len();
        let others = apart + self.fresh.len();
        let needed = count - apart;
        self.spares.need(self.alloc, key, needed + 1, others)?;
        self.spares.need(self.alloc, key, needed + 2, others)?;
        put_in(&mut self.fresh, key, number, self.spares.take());
        Ok(())
    }

    /// Takes the entry of a key and a tag out where it is a fresh one, and tells whether it is.
    fn end(&mut self, key: &SortKey, tag: Tag) -> bool
        ensures out { result ≡ true → self.new ≡ without item_key self.old key.now }
        ensures none { result ≡ false → self.new ≡ self.old }
    {
        if !matches!(tag, Tag::TopOnly) {
            return false;
        }
        if !self.fresh.has(key) {
            return false;
        }
        self.spares.give(take_out(&mut self.fresh, key));
        let count = self.numbers.len() + self.fresh.len();
        let apart = self.main.len() + self.top.len();
        self.spares.trim(count - apart);
        true
    }

    /// The tag of the entry of a key, where one is there.
    fn tag_of(&self, key: &SortKey) -> Tag
        ensures { (number : ℕ) (tag : Tag) → found self.now key.now ≡ Some (number, tag) → tag ≡ result }
    {
        if self.fresh.has(key) {
            Tag::TopOnly
        } else {
            tag_of(&self.main, &self.top, key)
        }
    }

    /// Brings the entry of a key and a tag into both levels. Its node waits from then on.
    fn share(&mut self, key: &SortKey, tag: Tag)
        requires { (number : ℕ) × (found self.old key.now ≡ Some (number, tag)) }
        ensures { self.new ≡ tag_set self.old key.now Both }
    {
        match tag {
            Tag::Both => {}
            Tag::MainOnly => self.spares.give(take_out(&mut self.main, key)),
            Tag::TopOnly => match self.fresh.find(key) {
                None => self.spares.give(take_out(&mut self.top, key)),
                Some(number) => {
                    let node = take_out(&mut self.fresh, key);
                    self.numbers.list(*key, number, node);
                }
            },
        }
    }

    /// Gives a tag to the entry of a key and a record's number, which stands in both levels.
    fn set_apart(&mut self, key: SortKey, number: usize, tag: Tag)
        requires { found self.old key ≡ Some (number, Both) }
        ensures { self.new ≡ tag_set self.old key tag }
    {
        match tag {
            Tag::Both => {}
            Tag::MainOnly => put_in(&mut self.main, key, number, self.spares.take()),
            Tag::TopOnly => put_in(&mut self.top, key, number, self.spares.take()),
        }
    }

    /// The entries of a level, in key order. Takes no memory.
    ///
    /// A step costs a few nanoseconds while nothing is staged; else it looks for its entry among those of one level alone, and
    /// goes past what this level doesn't have.
    pub fn walk(&self, level: Level) -> IndexWalk<'_>
        ensures entries { result ≡ entries_in level self.now }
        ensures order { AreInOrder self.now }
    {
        self.walk_wanted(Wanted::InLevel(level))
    }

    /// The entries of one tag, in key order. Takes no memory.
    ///
    /// Of main alone, no other entry is looked at, nor of staging alone while all of these came so.
    pub fn walk_only(&self, tag: Tag) -> IndexWalk<'_>
        ensures entries { result ≡ entries_tagged tag self.now }
        ensures order { AreInOrder self.now }
    {
        match tag {
            Tag::MainOnly => IndexWalk::over_tree(&self.main),
            Tag::TopOnly if self.top.len() == 0 => IndexWalk::over_tree(&self.fresh),
            tag => self.walk_wanted(Wanted::Of(tag)),
        }
    }

    /// The entries of some tags, in key order.
    fn walk_wanted(&self, wanted: Wanted) -> IndexWalk<'_>
        ensures entries { result ≡ entries_by (passes wanted) self.now }
        ensures order { AreInOrder self.now }
    {
        let fresh = if wanted.passes(Tag::TopOnly) {
            Part::whole(&self.fresh)
        } else {
            Part::none(&self.fresh)
        };
        IndexWalk::over_map(self.numbers.all(), &self.main, &self.top, wanted, fresh)
    }

    /// The entries of both levels that don't stand before an entry, in key order. Takes no memory.
    ///
    /// To start costs one search, wherever the entry stands, and the entry itself needn't be there.
    pub fn walk_shared_from(&self, first: &Entry) -> IndexWalk<'_>
        ensures entries { result ≡ not_before key_of (entries_tagged Both self.now) (key_of first.now) }
        ensures order { AreInOrder self.now }
    {
        IndexWalk::over_map(
            self.numbers.from(SortKey::of(first)),
            &self.main,
            &self.top,
            Wanted::Of(Tag::Both),
            Part::none(&self.fresh),
        )
    }
}
