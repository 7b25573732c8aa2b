ghost use Rattle.std.specs.Prelude.{◌≡◌, ◌+◌, ◌≤◌, ◌<◌, ◌^◌, false, true, [], ◌∷◌, ◌++◌, Some, None, length, map, OnOk, OnErr, MatchOption};
ghost use Rattle.std.specs.BTreeMap.{is_at};
ghost use Rattle.std.specs.Map.{lookup};
ghost use Rattle.chunk_index.specs.InOrder.{IsInOrder-prop};
ghost use Rattle.chunk_index.specs.KeyOrder.{key_cmp};
ghost use Rattle.chunk_index.specs.Keys.{IsInOrder, has_key, key_of, not_before, put, without};
ghost use Rattle.chunk_index.specs.Pairs.{pair_key, pair_of};
ghost use Rattle.chunk_index.specs.declared.key.Key.{Key as KeyRecord};
ghost use Rattle.chunk_index.specs.Ends.{Takes, at_end, seen_from};
ghost use Rattle.chunk_index.specs.Merges.{ComesAt, put_all};
ghost use Rattle.std.specs.declared.cmp.Ordering.TheVariants.{Less};

use crate::apart::{put_in, take_out};
use crate::ends::End;
use crate::part::Part;
use crate::sort_key::SortKey;
use crate::tree::{Node, Tree};
use outside::NoMemory;
use std::alloc::Global;
use std::cmp::Ordering;
use std::collections::{BTreeMap, btree_map};

/// Numbers under keys.
#[derive(Drop)]
pub struct Numbers {
    map: BTreeMap<SortKey, usize>,
    // Those that were listed without memory, and wait to be brought into the map.
    late: Tree,
    ghost map_order: { IsInOrder pair_key map.entries } by { IsInOrder-prop pair_key map.entries },
    ghost late_order: { IsInOrder key_of late } by { IsInOrder-prop key_of late },
}

impl Numbers {
    ghost use Rattle.chunk_index.specs.Numbers.{listed, count, span_left};

    /// None. Takes no memory.
    pub fn new(alloc: Global) -> Numbers
        ensures none { listed result ≡ [] }
        ensures count { count result ≡ 0 }
    {
        Numbers {
            map: BTreeMap::new(alloc),
            late: Tree::new(),
        }
    }

    /// How many there are.
    pub fn len(&self) -> usize
        requires { count self.now < 2 ^ 64 }
        ensures count { result ≡ count self.now }
        ensures more { length (listed self.now) ≤ result }
    {
        self.map.len() + self.late.len()
    }

    /// The number of a key.
    pub fn get(&self, key: &SortKey) -> Option<usize>
        ensures { result ≡ lookup (is_at (key_cmp key.now)) (listed self.now) }
    {
        match self.late.find(key) {
            Some(number) => Some(number),
            None => self.map.get(key).copied(),
        }
    }

    /// Puts a number under a key that has none.
    ///
    /// # Errors
    /// Where there is no memory for it.
    pub fn insert(&mut self, key: SortKey, number: usize) -> Result<(), NoMemory>
        requires { has_key pair_key (listed self.old) key ≡ false }
        ensures ok { OnOk result (listed self.new ≡ put pair_key (listed self.old) (key, number)) }
        ensures more { OnOk result (count self.new ≤ count self.old + 1) }
        ensures err { OnErr result (listed self.new ≡ listed self.old) }
        ensures same { OnErr result (count self.new ≡ count self.old) }
    {
        self.map.insert(key, number)?;
        Ok(())
    }

    /// The same where no memory may be taken: the number stands in a node until it is brought into the map.
    pub fn list(&mut self, key: SortKey, number: usize, node: Box<Node>)
        requires absent { has_key pair_key (listed self.old) key ≡ false }
        requires fits { count self.old + 1 < 2 ^ 64 }
        ensures put { listed self.new ≡ put pair_key (listed self.old) (key, number) }
        ensures more { count self.new ≤ count self.old + 1 }
    {
        put_in(&mut self.late, key, number, node);
    }

    /// The same for all entries of a tree.
    pub fn list_all(&mut self, tree: Tree)
        requires order { IsInOrder key_of tree }
        requires absent { (k : KeyRecord) → has_key key_of tree k ≡ true → has_key pair_key (listed self.old) k ≡ false }
        requires fits { count self.old + length tree < 2 ^ 64 }
        ensures put { listed self.new ≡ put_all pair_key (listed self.old) (map pair_of tree) }
        ensures more { count self.new ≤ count self.old + length tree }
    {
        if self.late.len() == 0 {
            self.late = tree;
            return;
        }
        if let Some((left, node, right)) = tree.into_parts() {
            self.list_all(left);
            self.list(node.key, node.number, node);
            self.list_all(right);
        }
    }

    /// Brings a number that stands in a node into the map, if there is one and the map finds memory for it.
    pub fn catch_up(&mut self)
        ensures same { listed self.new ≡ listed self.old }
        ensures count { count self.new ≤ count self.old }
    {
        let Some(key) = self.late.any_key() else {
            return;
        };
        let Some(number) = self.late.find(&key) else {
            unreachable!()
        };
        match self.map.insert(key, number) {
            Ok(_) => drop(take_out(&mut self.late, &key)),
            Err(_) => {}
        }
    }

    /// Takes a key out with its number.
    pub fn remove(&mut self, key: &SortKey)
        ensures without { listed self.new ≡ without pair_key (listed self.old) key.now }
        ensures fewer { count self.new ≤ count self.old }
    {
        self.map.remove(key);
        if self.late.has(key) {
            drop(take_out(&mut self.late, key));
        }
    }

    /// All of them.
    pub fn all(&self) -> NumberSpan<'_>
        ensures { span_left result ≡ listed self.now }
    {
        NumberSpan {
            map: self.map.range(..),
            late: Part::whole(&self.late),
        }
    }

    /// Those that don't stand before a key.
    pub fn from(&self, key: SortKey) -> NumberSpan<'_>
        ensures { span_left result ≡ not_before pair_key (listed self.now) key }
    {
        let mut late = Part::whole(&self.late);
        late.skip_before(&key);
        NumberSpan {
            map: self.map.range(key..),
            late,
        }
    }
}

/// Some numbers, under their keys.
#[derive(Drop)]
pub struct NumberSpan<'a> {
    map: btree_map::Range<'a, SortKey, usize>,
    late: Part<'a>,
    ghost map_order: { IsInOrder pair_key map } by { IsInOrder-prop pair_key map },
}

impl<'a> NumberSpan<'a> {
    ghost use Rattle.chunk_index.specs.Numbers.{span_left};
    ghost use Rattle.chunk_index.specs.Parts.{part_left};

    /// The same once more.
    pub fn copy(&self) -> NumberSpan<'a>
        ensures { span_left result ≡ span_left self.now }
    {
        let Ok(map) = self.map.clone() else {
            unreachable!()
        };
        NumberSpan {
            map,
            late: self.late.copy(),
        }
    }

    /// The one at an end of those that are left.
    #[inline(always)]
    pub fn take(&mut self, end: End) -> Option<(SortKey, usize)>
        ensures { Takes end (span_left self.old) result (span_left self.new) }
    {
        if self.late.is_empty() {
            return take_mapped(&mut self.map, end);
        }
        self.take_merged(end)
    }

    /// The same where a late one is left.
    fn take_merged(&mut self, end: End) -> Option<(SortKey, usize)>
        ensures { Takes end (span_left self.old) result (span_left self.new) }
    {
        let mut late = self.late.copy();
        let Some(entry) = late.take(end) else {
            return take_mapped(&mut self.map, end);
        };
        let key = SortKey::of(&entry);
        if let Some(nearer) = self.take_nearer(end, &key) {
            return Some(nearer);
        }
        self.late = late;
        Some((key, entry.number))
    }

    // The one at an end of the map, where it stands nearer to the end than a key. One of that very key goes.
    fn take_nearer(&mut self, end: End, than: &SortKey) -> Option<(SortKey, usize)>
        ensures nearer { MatchOption result (ComesAt pair_key end than.now self.old.map self.new.map)
            (λ e. (self.old.map ≡ at_end end e self.new.map) × (seen_from end (key_cmp e.0 than.now) ≡ Less)) }
        ensures late { part_left self.new.late ≡ part_left self.old.late }
    {
        let Ok(mut map) = self.map.clone() else {
            unreachable!()
        };
        let Some((key, number)) = take_mapped(&mut map, end) else {
            return None;
        };
        match end.seen(key.cmp(than)) {
            Ordering::Less => {
                self.map = map;
                Some((key, number))
            }
            Ordering::Equal => {
                self.map = map;
                None
            }
            Ordering::Greater => None,
        }
    }
}

/// The one at an end of a range of a map.
#[inline(always)]
fn take_mapped(map: &mut btree_map::Range<'_, SortKey, usize>, end: End) -> Option<(SortKey, usize)>
    ensures { Takes end map.old result map.new }
{
    let taken = match end {
        End::First => map.next(),
        End::Last => map.next_back(),
    };
    let (key, number) = taken?;
    Some((*key, *number))
}
