//! Rings among numbered slots: for each slot and each partition the slots before and after it.
ghost use Rattle.std.specs.Prelude.{◌≡◌, ◌≢◌, ◌+◌, ◌*◌, ◌-◌, ◌<◌, ◌≤◌, ◌++◌, ◌^◌, [], length, replicate, OnOk, OnErr};
ghost use Rattle.node_pool.specs.Row.{row, grown};
ghost use Rattle.node_pool.specs.Links.{Links, self_link, next_in, prev_in, with_link, SameLinks, Connects, IsCut, IsJoined};

use crate::places::Places;
use std::alloc::{AllocError, Global};
use std::marker::Model;

/// The slots of the neighbours in one ring.
#[derive(Clone, Copy)]
pub(crate) struct Link {
    pub(crate) next: u32,
    pub(crate) prev: u32,
}

/// The neighbours of each slot in each partition.
#[derive(Drop)]
pub(crate) struct Rings {
    // A link in each partition for each slot, those of the first slot first.
    links: Places<Link>,
    width: usize,
}

impl Model for Rings {
    ghost use Rattle.std.specs.Prelude.{◌≡◌, ◌*◌, length};
    ghost use Rattle.node_pool.specs.Links.{Links, links_code};

    ghost Value = { Links };

    ghost coded = { links_code };

    ghost view = { λ r. record { links = r.links.items; slots = r.links.room; width = r.width } };

    ghost invariant = { λ r. (length r.links.items ≡ r.links.room * r.width) × (r.links.width ≡ r.width) };
}

// Adds a slot that is alone in its rings.
fn push_alone(links: &mut Places<Link>, slot: u32, width: usize)
    requires { length links.old.items + width ≤ links.old.room * links.old.width }
    ensures { links.new ≡ row (links.old.items ++ replicate width (self_link slot)) links.old.room links.old.width }
{
    let link = Link {
        next: slot,
        prev: slot,
    };
    for _ in 0..width {
        links.push(link);
    }
}

impl Rings {
    /// No slots, with so many partitions, for which no memory is taken.
    pub(crate) fn new(alloc: Global, width: usize) -> Self
        ensures { result ≡ record { links = []; slots = 0; width = width } }
    {
        Rings {
            links: Places::new(alloc, width),
            width,
        }
    }

    /// The number of slots.
    pub(crate) fn slots(&self) -> usize
        ensures slots { result ≡ self.now.slots }
        ensures within { result < 2 ^ 32 }
    {
        self.links.room()
    }

    /// Adds about as many slots as there are, each alone in its rings.
    pub(crate) fn grow(&mut self) -> Result<(), AllocError>
        requires { self.old.slots < 2 ^ 32 - 1 }
        ensures links { SameLinks self.old self.new }
        ensures ok { OnOk result (self.new.slots ≡ grown self.old.slots) }
        ensures err { OnErr result (self.new ≡ self.old) }
    {
        let first = self.links.room();
        self.links.grow()?;
        for slot in first..self.links.room() {
            push_alone(&mut self.links, slot as u32, self.width);
        }
        Ok(())
    }

    /// The neighbours of the slot in a partition.
    pub(crate) fn neighbours(&self, r: usize, slot: u32) -> Link
        requires r_in_range { r < self.now.width }
        requires slot { slot < self.now.slots }
        ensures next { result.next ≡ next_in self.now r slot }
        ensures prev { result.prev ≡ prev_in self.now r slot }
    {
        self.links.get(slot as usize, r)
    }

    fn set_link(&mut self, r: usize, slot: u32, link: Link)
        requires r_in_range { r < self.old.width }
        requires slot { slot < self.old.slots }
        ensures link { self.new ≡ with_link self.old r slot link }
        ensures within { slot * self.old.width + r < length self.old.links }
    {
        self.links.set(slot as usize, r, link);
    }

    /// Leaves the slot alone in its ring of a partition.
    pub(crate) fn cut(&mut self, r: usize, slot: u32)
        requires r_in_range { r < self.old.width }
        requires slot { slot < self.old.slots }
        requires next { next_in self.old r slot < self.old.slots }
        requires prev { prev_in self.old r slot < self.old.slots }
        ensures { IsCut self.old self.new r slot }
    {
        let link = self.neighbours(r, slot);
        self.connect(r, link.prev, link.next);
        self.connect(r, slot, slot);
    }

    /// Unites the rings of two slots, which are not in one ring of the partition.
    pub(crate) fn join(&mut self, r: usize, a: u32, b: u32)
        requires r_in_range { r < self.old.width }
        requires a { a < self.old.slots }
        requires b { b < self.old.slots }
        requires next_a { next_in self.old r a < self.old.slots }
        requires next_b { next_in self.old r b < self.old.slots }
        requires apart { (a ≢ b) × (next_in self.old r a ≢ next_in self.old r b) }
        ensures { IsJoined self.old self.new r a b }
    {
        let after_a = self.neighbours(r, a).next;
        let after_b = self.neighbours(r, b).next;
        self.connect(r, a, after_b);
        self.connect(r, b, after_a);
    }

    /// Makes `to` the slot after `from`, and `from` the slot before `to`.
    pub(crate) fn connect(&mut self, r: usize, from: u32, to: u32)
        requires r_in_range { r < self.old.width }
        requires from { from < self.old.slots }
        requires to { to < self.old.slots }
        ensures { Connects self.old self.new r from to }
    {
        let prev = self.neighbours(r, from).prev;
        self.set_link(r, from, Link { next: to, prev });
        let next = self.neighbours(r, to).next;
        self.set_link(r, to, Link { next, prev: from });
    }
}
