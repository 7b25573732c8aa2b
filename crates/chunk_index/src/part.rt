ghost use Rattle.std.specs.Prelude.{◌≡◌, ◌≤◌, [], length, true};
ghost use Rattle.chunk_index.specs.Ends.{Takes};
ghost use Rattle.chunk_index.specs.InOrder.{IsInOrder-prop};
ghost use Rattle.chunk_index.specs.Keys.{IsInOrder, key_of, not_before};

use crate::ends::End;
use crate::entry::Entry;
use crate::sort_key::SortKey;
use crate::tree::Tree;
use std::cmp::Ordering;

/// The entries of a tree from the one with `from` before it up to the one with `to` before it, that one not included.
#[derive(Drop)]
pub struct Part<'a> {
    tree: &'a Tree,
    from: usize,
    to: usize,
    ghost ordered: { from ≤ to },
    ghost within: { to ≤ length tree.now },
    ghost order: { IsInOrder key_of tree.now } by { IsInOrder-prop key_of tree.now },
}

impl<'a> Part<'a> {
    ghost use Rattle.chunk_index.specs.Parts.{part_left};

    /// All of them.
    pub fn whole(tree: &'a Tree) -> Part<'a>
        requires { IsInOrder key_of tree.now }
        ensures { part_left result ≡ tree.now }
    {
        Part {
            tree,
            from: 0,
            to: tree.len(),
        }
    }

    /// None of them.
    pub fn none(tree: &'a Tree) -> Part<'a>
        requires { IsInOrder key_of tree.now }
        ensures { part_left result ≡ [] }
    {
        Part {
            tree,
            from: 0,
            to: 0,
        }
    }

    /// Whether there is none.
    #[inline(always)]
    pub fn is_empty(&self) -> bool
        ensures { result ≡ true → part_left self.now ≡ [] }
    {
        self.from == self.to
    }

    /// The same part once more.
    pub fn copy(&self) -> Part<'a>
        ensures { part_left result ≡ part_left self.now }
    {
        Part {
            tree: self.tree,
            from: self.from,
            to: self.to,
        }
    }

    /// The entry at an end of those that are left.
    pub fn take(&mut self, end: End) -> Option<Entry>
        ensures { Takes end (part_left self.old) result (part_left self.new) }
    {
        if self.from == self.to {
            return None;
        }
        match end {
            End::First => {
                let entry = self.tree.get(self.from);
                self.from += 1;
                Some(entry)
            }
            End::Last => {
                self.to -= 1;
                Some(self.tree.get(self.to))
            }
        }
    }

    /// Leaves out what stands before a key.
    pub fn skip_before(&mut self, key: &SortKey)
        ensures { part_left self.new ≡ not_before key_of (part_left self.old) key.now }
    {
        while self.from < self.to {
            let first = self.tree.get(self.from);
            match SortKey::of(&first).cmp(key) {
                Ordering::Less => self.from += 1,
                _ => break,
            }
        }
    }
}
