ghost use Rattle.std.specs.Prelude.{◌≡◌, ◌+◌, ◌^◌, ◌<◌, true, false, length};
ghost use Rattle.chunk_index.specs.Keys.{IsInOrder, has_key, key_of, put, without};
ghost use Rattle.chunk_index.specs.Kept.{entry_from, tag_in};

use crate::entry::Tag;
use crate::sort_key::SortKey;
use crate::tree::{Node, Tree};
use std::mem;

/// The tag of the entry of a key, by the trees of main alone and of staging alone.
// A test or two while both are empty.
#[inline(always)]
pub fn tag_of(main: &Tree, top: &Tree, key: &SortKey) -> Tag
    requires main { IsInOrder key_of main.now }
    requires top { IsInOrder key_of top.now }
    ensures { result ≡ tag_in main.now top.now key.now }
{
    if main.has(key) {
        Tag::MainOnly
    } else if top.has(key) {
        Tag::TopOnly
    } else {
        Tag::Both
    }
}

/// Puts the entry of a key and a record's number into a tree, with a node for it. No entry of that key is there.
pub fn put_in(tree: &mut Tree, key: SortKey, number: usize, mut node: Box<Node>)
    requires order { IsInOrder key_of tree.old }
    requires absent { has_key key_of tree.old key ≡ false }
    requires fits { length tree.old + 1 < 2 ^ 64 }
    ensures put { tree.new ≡ put key_of tree.old (entry_from key number) }
    ensures longer { length tree.new ≡ length tree.old + 1 }
{
    node.key = key;
    node.number = number;
    tree.insert(node);
}

/// Takes the entry of a key out of a tree, and gives its node. The entry is there.
pub fn take_out(tree: &mut Tree, key: &SortKey) -> Box<Node>
    requires order { IsInOrder key_of tree.old }
    requires there { has_key key_of tree.old key.now ≡ true }
    ensures without { tree.new ≡ without key_of tree.old key.now }
    ensures shorter { length tree.new + 1 ≡ length tree.old }
{
    let (left, node) = mem::replace(tree, Tree::new()).remove(key);
    *tree = left;
    node
}
