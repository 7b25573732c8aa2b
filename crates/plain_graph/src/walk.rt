ghost use Rattle.std.specs.Prelude.{◌≡◌, ◌+◌, ◌↔◌, [], ◌∷◌, length, nat_eq, MatchOption, IsTrue, Contains};
ghost use Rattle.std.specs.List.{IsDistinct};
ghost use Rattle.graphs.specs.Graphs.{Lists};
ghost use Rattle.plain_graph.specs.Walks.{goes_up, goes_down, Reaches, ReachesFrom, PairStays, IsClosed, LeadsOut, HoldsAll};

use graph_model::{IdBuf, TxId};

/// A way to go along pairs.
#[derive(Clone, Copy, Debug)]
pub enum Way {
    /// From a child to its parents.
    Up,
    /// From a parent to its children.
    Down,
    /// Up and down.
    Either,
}

impl Way {
    fn goes_up(self) -> bool
        ensures { result ≡ goes_up self }
    {
        match self {
            Way::Up => true,
            Way::Down => false,
            Way::Either => true,
        }
    }

    fn goes_down(self) -> bool
        ensures { result ≡ goes_down self }
    {
        match self {
            Way::Up => false,
            Way::Down => true,
            Way::Either => true,
        }
    }
}

/// Whether the list has the name.
pub fn has(ids: &[TxId], id: TxId) -> bool
    ensures { IsTrue result ↔ Contains ids.now id }
{
    ids.contains(&id)
}

/// Whether the list has the pair.
pub fn has_pair(pairs: &[(TxId, TxId)], parent: TxId, child: TxId) -> bool
    ensures { IsTrue result ↔ Contains pairs.now (parent, child) }
{
    for (from, to) in pairs {
        if *from == parent && *to == child {
            return true;
        }
    }
    false
}

/// The end of the pair that it leads to from the list and that isn't in the list.
fn end_outside(ids: &[TxId], parent: TxId, child: TxId, way: Way) -> Option<TxId>
    ensures { MatchOption result (PairStays way ids.now parent child) (LeadsOut way ((parent, child) ∷ []) ids.now) }
{
    let has_parent = has(ids, parent);
    let has_child = has(ids, child);
    if way.goes_down() && has_parent && !has_child {
        return Some(child);
    }
    if way.goes_up() && has_child && !has_parent {
        return Some(parent);
    }
    None
}

/// A name that isn't in the list and that a pair leads to from it.
fn next_name(ids: &[TxId], pairs: &[(TxId, TxId)], way: Way) -> Option<TxId>
    ensures { MatchOption result (IsClosed way pairs.now ids.now) (LeadsOut way pairs.now ids.now) }
{
    for (parent, child) in pairs {
        if let Some(id) = end_outside(ids, *parent, *child, way) {
            return Some(id);
        }
    }
    None
}

/// Adds the names that walks lead to from those in the list, and sorts the list. Takes no memory.
fn spread(found: &mut IdBuf, pairs: &[(TxId, TxId)], way: Way)
    requires room { HoldsAll pairs.now found.old.ids (length found.old.ids + found.old.room) }
    requires distinct { IsDistinct nat_eq found.old.ids }
    ensures lists { Lists (ReachesFrom way pairs.now found.old.ids) found.new.ids }
    ensures room { length found.new.ids + found.new.room ≡ length found.old.ids + found.old.room }
{
    while let Some(id) = next_name(found.ids(), pairs, way) {
        found.push(id);
    }
    found.sort();
}

/// Leaves in `found` the names that walks lead to from the starts, in rising order. Takes no memory.
pub fn reach(found: &mut IdBuf, pairs: &[(TxId, TxId)], starts: &[TxId], way: Way)
    requires room { HoldsAll pairs.now starts.now (length found.old.ids + found.old.room) }
    requires distinct { IsDistinct nat_eq starts.now }
    ensures lists { Lists (ReachesFrom way pairs.now starts.now) found.new.ids }
    ensures room { length found.new.ids + found.new.room ≡ length found.old.ids + found.old.room }
{
    found.clear();
    for id in starts {
        found.push(*id);
    }
    spread(found, pairs, way);
}

/// Whether walks lead this way from one name to another. Takes no memory.
pub fn leads(found: &mut IdBuf, pairs: &[(TxId, TxId)], from: TxId, to: TxId, way: Way) -> bool
    requires { HoldsAll pairs.now (from ∷ []) (length found.old.ids + found.old.room) }
    ensures walk { IsTrue result ↔ Reaches way pairs.now from to }
    ensures room { length found.new.ids + found.new.room ≡ length found.old.ids + found.old.room }
{
    reach(found, pairs, &[from], way);
    has(found.ids(), to)
}
