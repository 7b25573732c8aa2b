ghost use Rattle.std.specs.Prelude.{◌≡◌, ◌≤◌, [], ◌∷◌, ◌++◌, length, MatchOption};
ghost use Rattle.chunk_index.specs.InOrder.{IsInOrder-prop};
ghost use Rattle.chunk_index.specs.Keys.{IsInOrder, key_of};
ghost use Rattle.std.specs.Iterator.{YieldsFirst, YieldsLast, item_count};
ghost use Rattle.chunk_index.specs.Walks.{left_in, passes};
ghost use Rattle.chunk_index.specs.Ends.{Takes, at_end, seen_from};
ghost use Rattle.chunk_index.specs.Merges.{put_all, ComesAt};
ghost use Rattle.chunk_index.specs.KeyOrder.{key_cmp};
ghost use Rattle.std.specs.declared.cmp.Ordering.TheVariants.{Less};

use crate::Level;
use crate::ahead::Ahead;
use crate::apart::tag_of;
use crate::ends::End;
use crate::entry::{Entry, Tag};
use crate::numbers::NumberSpan;
use crate::part::Part;
use crate::sort_key::SortKey;
use crate::tree::Tree;
use std::cmp::Ordering;
use std::marker::Model;

/// A walk over entries of an index in key order, from either end. Contracts see the entries that are still to come.
#[derive(Drop)]
pub struct IndexWalk<'a> {
    source: Source<'a>,
}

impl<'a> Model for IndexWalk<'a> {
    ghost use Rattle.std.specs.Prelude.{List};
    ghost use Rattle.chunk_index.specs.declared.entry.Entry.{Entry};

    ghost Value = { List Entry };

    ghost use Rattle.chunk_index.specs.Sources.{rest_of};

    ghost view = { λ a. rest_of a.source };
}

/// What a walk goes over.
#[derive(Drop)]
enum Source<'a> {
    Map(MapSpan<'a>),
    Tree(TreeSpan<'a>),
}

/// The numbers that are left, under their keys, with the trees that tell the tags, and which tags count.
#[derive(Drop)]
struct MapSpan<'a> {
    numbers: NumberSpan<'a>,
    main: &'a Tree,
    top: &'a Tree,
    wanted: Wanted,
    // Others, which all count.
    fresh: Part<'a>,
    ghost main_order: { IsInOrder key_of main.now } by { IsInOrder-prop key_of main.now },
    ghost top_order: { IsInOrder key_of top.now } by { IsInOrder-prop key_of top.now },
}

/// Entries that were read ahead, and behind them those of a tree from the one with `from` before it up to the one with `to`
/// before it, that one not included.
#[derive(Drop)]
struct TreeSpan<'a> {
    ahead: Ahead,
    tree: &'a Tree,
    from: usize,
    to: usize,
    ghost ordered: { from ≤ to },
    ghost within: { to ≤ length tree.now },
}

/// Which entries of the map a walk gives.
#[derive(Clone, Copy)]
pub enum Wanted {
    InLevel(Level),
    Of(Tag),
}

impl Wanted {
    pub fn passes(self, tag: Tag) -> bool
        ensures { result ≡ passes self tag }
    {
        match (self, tag) {
            (Wanted::InLevel(_), Tag::Both) => true,
            (Wanted::InLevel(level), Tag::MainOnly) => level == Level::Main,
            (Wanted::InLevel(level), Tag::TopOnly) => level == Level::Top,
            (Wanted::Of(wanted), tag) => wanted == tag,
        }
    }
}

impl<'a> IndexWalk<'a> {
    ghost use Rattle.chunk_index.specs.Numbers.{span_left};
    ghost use Rattle.chunk_index.specs.Parts.{part_left};

    /// Over the wanted ones of some keys, whose tags the trees of main alone and of staging alone tell.
    pub fn over_map(
        numbers: NumberSpan<'a>,
        main: &'a Tree,
        top: &'a Tree,
        wanted: Wanted,
        fresh: Part<'a>,
    ) -> IndexWalk<'a>
        requires main { IsInOrder key_of main.now }
        requires top { IsInOrder key_of top.now }
        ensures { result ≡ put_all key_of (left_in (span_left numbers.entry) main.now top.now wanted) (part_left fresh.entry) }
    {
        IndexWalk {
            source: Source::Map(MapSpan {
                numbers,
                main,
                top,
                wanted,
                fresh,
            }),
        }
    }

    /// Over the entries of a tree.
    pub fn over_tree(tree: &'a Tree) -> IndexWalk<'a>
        ensures { result ≡ tree.now }
    {
        IndexWalk {
            source: Source::Tree(TreeSpan {
                ahead: Ahead::new(),
                tree,
                from: 0,
                to: tree.len(),
            }),
        }
    }
}

impl<'a> Iterator for IndexWalk<'a> {
    type Item = Entry;

    ghost next_gives = { YieldsFirst (λ s. s) };

    ghost remaining = { item_count (λ s. s) };

    fn next(&mut self) -> Option<Entry> {
        match &mut self.source {
            Source::Map(span) => span.take(End::First),
            Source::Tree(span) => span.take_first(),
        }
    }
}

impl<'a> DoubleEndedIterator for IndexWalk<'a> {
    ghost next_back_gives = { YieldsLast (λ s. s) };

    fn next_back(&mut self) -> Option<Entry> {
        match &mut self.source {
            Source::Map(span) => span.take(End::Last),
            Source::Tree(span) => span.take_last(),
        }
    }
}

impl<'a> MapSpan<'a> {
    ghost use Rattle.chunk_index.specs.Sources.{map_left, map_listed};
    ghost use Rattle.chunk_index.specs.Parts.{part_left};

    /// The entry at an end of those that count.
    #[inline(always)]
    fn take(&mut self, end: End) -> Option<Entry>
        ensures { Takes end (map_left self.old) result (map_left self.new) }
    {
        if self.fresh.is_empty() {
            return self.take_listed(end);
        }
        self.take_merged(end)
    }

    /// The same where a fresh one is left.
    fn take_merged(&mut self, end: End) -> Option<Entry>
        ensures { Takes end (map_left self.old) result (map_left self.new) }
    {
        let mut fresh = self.fresh.copy();
        let Some(entry) = fresh.take(end) else {
            return self.take_listed(end);
        };
        if let Some(nearer) = self.take_nearer(end, &SortKey::of(&entry)) {
            return Some(nearer);
        }
        self.fresh = fresh;
        Some(entry)
    }

    /// The one at an end of those that have numbers.
    #[inline(always)]
    fn take_listed(&mut self, end: End) -> Option<Entry>
        ensures taken { Takes end (map_listed self.old) result (map_listed self.new) }
        ensures fresh { part_left self.new.fresh ≡ part_left self.old.fresh }
    {
        while let Some((key, number)) = self.numbers.take(end) {
            if self.wanted.passes(tag_of(self.main, self.top, &key)) {
                return Some(key.entry(number));
            }
        }
        None
    }

    /// The same, where it stands nearer to the end than a key. One of that very key goes.
    fn take_nearer(&mut self, end: End, than: &SortKey) -> Option<Entry>
        ensures nearer { MatchOption result (ComesAt key_of end than.now (map_listed self.old) (map_listed self.new))
            (λ e. (map_listed self.old ≡ at_end end e (map_listed self.new)) × (seen_from end (key_cmp (key_of e) than.now) ≡ Less)) }
        ensures fresh { part_left self.new.fresh ≡ part_left self.old.fresh }
    {
        loop {
            let mut numbers = self.numbers.copy();
            let Some((key, number)) = numbers.take(end) else {
                return None;
            };
            match end.seen(key.cmp(than)) {
                Ordering::Less => self.numbers = numbers,
                Ordering::Equal => {
                    self.numbers = numbers;
                    return None;
                }
                Ordering::Greater => return None,
            }
            if self.wanted.passes(tag_of(self.main, self.top, &key)) {
                return Some(key.entry(number));
            }
        }
    }
}

impl<'a> TreeSpan<'a> {
    ghost use Rattle.chunk_index.specs.Sources.{tree_left};

    /// The first entry that is left. Where none was read ahead, some are read, for one search by rank.
    // Kept out of the loops that walk the map, which have no use for it.
    #[inline(never)]
    fn take_first(&mut self) -> Option<Entry>
        ensures { YieldsFirst tree_left self.old result self.new }
    {
        if let Some(entry) = self.ahead.take_first() {
            return Some(entry);
        }
        let count = (self.to - self.from).min(Ahead::MOST);
        self.ahead.read(self.tree, self.from, count);
        self.from += count;
        self.ahead.take_first()
    }

    /// The last entry that is left.
    fn take_last(&mut self) -> Option<Entry>
        ensures { YieldsLast tree_left self.old result self.new }
    {
        if self.from == self.to {
            return self.ahead.take_last();
        }
        self.to -= 1;
        Some(self.tree.get(self.to))
    }
}
