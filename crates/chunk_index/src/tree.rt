ghost use Rattle.std.specs.Prelude.{◌≡◌, ℕ, ◌+◌, ◌*◌, ◌^◌, ◌<◌, ◌≤◌, [], ◌∷◌, ◌++◌, length, MatchOption, Some, true, false, slice_get, take, drop};
ghost use Rattle.chunk_index.specs.Keys.{IsInOrder, has_key, key_of, number_at, put, without};
ghost use Rattle.chunk_index.specs.TreeShape.{entry_of};
ghost use Rattle.chunk_index.specs.Trees.{AreBalanced, AreNearlyBalanced};

use crate::entry::Entry;
use crate::sort_key::SortKey;
use std::cmp::Ordering;
use std::marker::Model;
use std::mem;

/// Some entries in a weight-balanced tree. It takes no memory: its nodes are handed in, and out again.
#[cycle(tree)]
#[derive(Drop)]
pub struct Tree {
    root: Option<Box<Node>>,
    len: usize,
}

/// The memory of an entry in a tree. Outside a tree it has no children, and what entry is in it doesn't matter.
#[cycle(tree)]
#[derive(Drop)]
pub struct Node {
    // What a search reads stands together.
    left: Tree,
    right: Tree,
    pub key: SortKey,
    pub number: usize,
}

impl Model for Tree {
    ghost use Rattle.std.specs.Prelude.{List, length};
    ghost use Rattle.chunk_index.specs.declared.entry.Entry.{Entry};

    ghost Value = { List Entry };

    ghost use Rattle.chunk_index.specs.TreeShape.{entries_under, IsTree};

    ghost view = { λ a. entries_under a.root };

    ghost invariant = { λ a. IsTree a.root a.len };

    ghost size = { length };

    ghost use Rattle.std.proofs.Common.{arith, length-append};

    ghost size_decreases = { λ a h. Prim.grind (arith, length-append) };
}

impl Node {
    /// A node that is in no tree.
    pub fn spare(key: SortKey) -> Node {
        Node {
            left: Tree::new(),
            right: Tree::new(),
            key,
            number: 0,
        }
    }

    /// The entry in it.
    #[inline(always)]
    fn entry(&self) -> Entry
        ensures { result ≡ entry_of self.now }
    {
        self.key.entry(self.number)
    }
}

impl Tree {
    /// No entries.
    pub fn new() -> Tree
        ensures { result ≡ [] }
    {
        Tree { root: None, len: 0 }
    }

    /// How many entries there are.
    pub fn len(&self) -> usize
        ensures { result ≡ length self.now }
    {
        self.len
    }

    /// What stands left of the root, the root's node with its entry, and what stands right of it.
    #[inline(always)]
    pub fn into_parts(self) -> Option<(Tree, Box<Node>, Tree)>
        ensures parts { MatchOption result (self ≡ []) (λ p. self ≡ p.0 ++ entry_of p.1.value ∷ p.2) }
        ensures balanced { MatchOption result (self ≡ []) (λ p. AreBalanced (length p.0) (length p.2)) }
        ensures fits { MatchOption result (self ≡ []) (λ p. length p.0 + length p.2 + 1 < 2 ^ 64) }
    {
        match self.root {
            None => None,
            Some(node) => Some(open(node)),
        }
    }

    /// A tree of two whose sizes are balanced, and a node's entry between.
    #[inline(always)]
    fn of_parts(left: Tree, mut node: Box<Node>, right: Tree) -> Tree
        requires balanced { AreBalanced (length left) (length right) }
        requires fits { length left + length right + 1 < 2 ^ 64 }
        ensures { result ≡ left ++ entry_of node.value ∷ right }
    {
        let len = left.len + right.len + 1;
        node.left = left;
        node.right = right;
        Tree {
            root: Some(node),
            len,
        }
    }

    /// A tree of two whose sizes are nearly balanced, and a node's entry between.
    #[inline(always)]
    fn join(left: Tree, node: Box<Node>, right: Tree) -> Tree
        requires nearly { AreNearlyBalanced (length left) (length right) }
        requires fits { length left + length right + 1 < 2 ^ 64 }
        ensures { result ≡ left ++ entry_of node.value ∷ right }
    {
        if left.len / 3 > right.len {
            Tree::from_heavy_left(left, node, right)
        } else if right.len / 3 > left.len {
            Tree::from_heavy_right(left, node, right)
        } else {
            Tree::of_parts(left, node, right)
        }
    }

    /// The same where the left one is too large.
    fn from_heavy_left(left: Tree, node: Box<Node>, right: Tree) -> Tree
        requires heavy { 3 * length right + 2 < length left }
        requires nearly { length left ≤ 3 * length right + 5 }
        requires fits { length left + length right + 1 < 2 ^ 64 }
        ensures { result ≡ left ++ entry_of node.value ∷ right }
    {
        let Some((outer, root, inner)) = left.into_parts() else {
            unreachable!()
        };
        if (inner.len + 1) / 2 <= outer.len {
            let right = Tree::of_parts(inner, node, right);
            return Tree::of_parts(outer, root, right);
        }
        Tree::from_heavy_middle(outer, root, inner, node, right)
    }

    /// The same where the right one is too large.
    fn from_heavy_right(left: Tree, node: Box<Node>, right: Tree) -> Tree
        requires heavy { 3 * length left + 2 < length right }
        requires nearly { length right ≤ 3 * length left + 5 }
        requires fits { length left + length right + 1 < 2 ^ 64 }
        ensures { result ≡ left ++ entry_of node.value ∷ right }
    {
        let Some((inner, root, outer)) = right.into_parts() else {
            unreachable!()
        };
        if (inner.len + 1) / 2 <= outer.len {
            let left = Tree::of_parts(left, node, inner);
            return Tree::of_parts(left, root, outer);
        }
        Tree::from_heavy_middle(left, node, inner, root, outer)
    }

    /// A tree of three with two nodes' entries between, where the middle one is parted and its root comes to the top.
    #[inline(always)]
    fn from_heavy_middle(
        first: Tree,
        low: Box<Node>,
        inner: Tree,
        high: Box<Node>,
        last: Tree,
    ) -> Tree
        requires some { 0 < length inner }
        requires balanced { (a b : ℕ) → a + b + 1 ≡ length inner → AreBalanced a b → AreBalanced (length first) a
            × AreBalanced b (length last) × AreBalanced (length first + a + 1) (b + length last + 1) }
        requires fits { length first + length inner + length last + 2 < 2 ^ 64 }
        ensures { result ≡ first ++ entry_of low.value ∷ inner ++ entry_of high.value ∷ last }
    {
        let Some((before, middle, behind)) = inner.into_parts() else {
            unreachable!()
        };
        let left = Tree::of_parts(first, low, before);
        let right = Tree::of_parts(behind, high, last);
        Tree::of_parts(left, middle, right)
    }

    /// The node of the first entry, with that entry, and the others.
    fn split_first(self) -> Option<(Box<Node>, Tree)>
        ensures { MatchOption result (self ≡ []) (λ p. self ≡ entry_of p.0.value ∷ p.1) }
    {
        let (left, node, right) = self.into_parts()?;
        match left.split_first() {
            None => Some((node, right)),
            Some((first, left)) => Some((first, Tree::join(left, node, right))),
        }
    }

    /// All but the last entry, and that entry's node.
    fn split_last(self) -> Option<(Tree, Box<Node>)>
        ensures { MatchOption result (self ≡ []) (λ p. self ≡ p.0 ++ entry_of p.1.value ∷ []) }
    {
        let (left, node, right) = self.into_parts()?;
        match right.split_last() {
            None => Some((left, node)),
            Some((right, last)) => Some((Tree::join(left, node, right), last)),
        }
    }

    /// One behind the other, where their sizes are balanced.
    fn append(left: Tree, right: Tree) -> Tree
        requires balanced { AreBalanced (length left) (length right) }
        requires fits { length left + length right < 2 ^ 64 }
        ensures { result ≡ left ++ right }
    {
        if left.len > right.len {
            match left.split_last() {
                None => right,
                Some((left, last)) => Tree::join(left, last, right),
            }
        } else {
            match right.split_first() {
                None => left,
                Some((first, right)) => Tree::join(left, first, right),
            }
        }
    }

    /// The entry with that many before it.
    pub fn get(&self, at: usize) -> Entry
        requires { at < length self.now }
        ensures { slice_get self.now at ≡ Some result }
    {
        match &self.root {
            None => unreachable!(),
            Some(node) => {
                if at < node.left.len {
                    node.left.get(at)
                } else if at == node.left.len {
                    node.entry()
                } else {
                    node.right.get(at - node.left.len - 1)
                }
            }
        }
    }

    /// The key of an entry, if there is one: of the root's, which is found first.
    pub fn any_key(&self) -> Option<SortKey>
        ensures { MatchOption result (self.now ≡ []) (λ key. has_key key_of self.now key ≡ true) }
    {
        match &self.root {
            None => None,
            Some(root) => {
                let node: &Node = root;
                Some(node.key)
            }
        }
    }

    /// Whether an entry has a key.
    // A test while there is none.
    #[inline(always)]
    pub fn has(&self, key: &SortKey) -> bool
        requires { IsInOrder key_of self.now }
        ensures { result ≡ has_key key_of self.now key.now }
    {
        if self.len == 0 {
            return false;
        }
        self.find(key).is_some()
    }

    /// The number of the record of the entry of a key.
    pub fn find(&self, key: &SortKey) -> Option<usize>
        requires { IsInOrder key_of self.now }
        ensures { result ≡ number_at self.now key.now }
    {
        match &self.root {
            None => None,
            Some(root) => {
                let node: &Node = root;
                match key.cmp(&node.key) {
                    Ordering::Less => node.left.find(key),
                    Ordering::Equal => Some(node.number),
                    Ordering::Greater => node.right.find(key),
                }
            }
        }
    }

    /// Fills a slice with the entries from the one with that many before it on.
    ///
    /// That costs a search for the first one, and then a step or two for each.
    pub fn copy_from(&self, at: usize, out: &mut [Entry])
        requires { at + length out.old ≤ length self.now }
        ensures { out.new ≡ take (length out.old) (drop at self.now) }
    {
        if out.is_empty() {
            return;
        }
        match &self.root {
            None => unreachable!(),
            Some(root) => {
                let node: &Node = root;
                let left = node.left.len;
                if left < at {
                    node.right.copy_from(at - left - 1, out);
                } else if out.len() <= left - at {
                    node.left.copy_from(at, out);
                } else {
                    node.left.copy_from(at, &mut out[..left - at]);
                    out[left - at] = node.entry();
                    node.right.copy_from(0, &mut out[left - at + 1..]);
                }
            }
        }
    }

    /// Puts a node's entry in its place. No entry of its key is there.
    pub fn insert(&mut self, node: Box<Node>)
        requires order { IsInOrder key_of self.old }
        requires absent { has_key key_of self.old (key_of (entry_of node.value)) ≡ false }
        requires fits { length self.old + 1 < 2 ^ 64 }
        ensures put { self.new ≡ put key_of self.old (entry_of node.value) }
        ensures longer { length self.new ≡ length self.old + 1 }
    {
        let Some(here) = &mut self.root else {
            *self = Tree::of_parts(Tree::new(), node, Tree::new());
            return;
        };
        match node.key.cmp(&here.key) {
            Ordering::Less => here.left.insert(node),
            Ordering::Equal => unreachable!(),
            Ordering::Greater => here.right.insert(node),
        }
        if is_lopsided(here) {
            let Some(here) = mem::replace(&mut self.root, None) else {
                unreachable!()
            };
            let (left, here, right) = open(here);
            *self = Tree::join(left, here, right);
        } else {
            self.len += 1;
        }
    }

    /// Takes the entry of a key out, and gives its node. The entry is there.
    pub fn remove(self, key: &SortKey) -> (Tree, Box<Node>)
        requires order { IsInOrder key_of self }
        requires there { has_key key_of self key.now ≡ true }
        ensures without { result.0 ≡ without key_of self key.now }
        ensures shorter { length result.0 + 1 ≡ length self }
    {
        match self.into_parts() {
            None => unreachable!(),
            Some((left, here, right)) => match key.cmp(&here.key) {
                Ordering::Less => {
                    let (left, node) = left.remove(key);
                    (Tree::join(left, here, right), node)
                }
                Ordering::Equal => (Tree::append(left, right), here),
                Ordering::Greater => {
                    let (right, node) = right.remove(key);
                    (Tree::join(left, here, right), node)
                }
            },
        }
    }
}

/// What stands left of a node, the node alone, and what stands right of it.
#[inline(always)]
fn open(mut node: Box<Node>) -> (Tree, Box<Node>, Tree)
    ensures left { result.0 ≡ node.value.left }
    ensures node { entry_of result.1.value ≡ entry_of node.value }
    ensures right { result.2 ≡ node.value.right }
{
    let left = mem::replace(&mut node.left, Tree::new());
    let right = mem::replace(&mut node.right, Tree::new());
    (left, node, right)
}

/// Whether the one side of a node is too large for the other.
#[inline(always)]
fn is_lopsided(node: &Node) -> bool
    ensures { result ≡ false → AreBalanced (length node.now.left) (length node.now.right) }
{
    node.left.len / 3 > node.right.len || node.right.len / 3 > node.left.len
}
