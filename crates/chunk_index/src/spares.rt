ghost use Rattle.std.specs.Prelude.{◌≡◌, ◌+◌, ◌^◌, ◌<◌, ◌≤◌, OnOk, length};
ghost use Rattle.chunk_index.specs.Spares.{kept, room};

use crate::sort_key::SortKey;
use crate::tree::{Node, Tree};
use outside::NoMemory;
use std::alloc::Global;

// How many nodes are kept beside those that are needed: as many as a cluster of 64 names has parts, which mostly come as
// others go.
const MOST: usize = 64;

/// Nodes that are in no tree. One that is needed is at hand, and one that comes back has room.
#[derive(Drop)]
pub struct Spares {
    nodes: Vec<Box<Node>>,
}

impl Spares {
    /// None. Takes no memory.
    pub fn new(alloc: Global) -> Spares
        ensures { kept result ≡ 0 }
    {
        Spares {
            nodes: Vec::new(alloc),
        }
    }

    /// Makes a node where fewer than so many are kept, with room for it and for the others, which are in trees.
    ///
    /// # Errors
    /// Where there is no memory for it.
    pub fn need(
        &mut self,
        alloc: Global,
        key: SortKey,
        needed: usize,
        others: usize,
    ) -> Result<(), NoMemory>
        requires near { needed ≤ kept self.old + 1 }
        requires within { kept self.old + others ≤ room self.old }
        requires few { others < 2 ^ 63 }
        ensures ok { OnOk result (needed ≤ kept self.new) }
        ensures more { kept self.old ≤ kept self.new }
        ensures room { kept self.new + others ≤ room self.new }
    {
        if needed <= self.nodes.len() {
            return Ok(());
        }
        self.nodes.reserve(others + 1)?;
        let node = Box::new(alloc, Node::spare(key))?;
        self.nodes.push_reserved(node);
        Ok(())
    }

    /// One of the nodes.
    pub fn take(&mut self) -> Box<Node>
        requires { 0 < kept self.old }
        ensures kept { kept self.new + 1 ≡ kept self.old }
        ensures room { room self.new ≡ room self.old }
    {
        match self.nodes.pop() {
            Some(node) => node,
            None => unreachable!(),
        }
    }

    /// Keeps a node, for which there is room.
    pub fn give(&mut self, node: Box<Node>)
        requires { kept self.old < room self.old }
        ensures kept { kept self.new ≡ kept self.old + 1 }
        ensures room { room self.new ≡ room self.old }
    {
        self.nodes.push_reserved(node);
    }

    /// Keeps all nodes of a tree, for which there is room.
    pub fn give_all(&mut self, tree: Tree)
        requires { kept self.old + length tree ≤ room self.old }
        ensures kept { kept self.new ≡ kept self.old + length tree }
        ensures room { room self.new ≡ room self.old }
    {
        if let Some((left, node, right)) = tree.into_parts() {
            self.give_all(left);
            self.give(node);
            self.give_all(right);
        }
    }

    /// Lets nodes go while more than enough are kept beside so many.
    pub fn trim(&mut self, needed: usize)
        requires { needed ≤ kept self.old }
        ensures enough { needed ≤ kept self.new }
        ensures fewer { kept self.new ≤ kept self.old }
        ensures room { room self.new ≡ room self.old }
    {
        while needed < self.nodes.len().saturating_sub(MOST) {
            drop(self.nodes.pop());
        }
    }
}
