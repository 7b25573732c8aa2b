ghost use Rattle.std.specs.Prelude.{◌≡◌, ◌<◌, ◌+◌, ℕ, false, [], length, map, slice_index, Contains, IfOk, OnOk};
ghost use Rattle.links.specs.Links.{AreLinks};
ghost use Rattle.links.specs.Kept.{AreMaps, names_of};
ghost use Rattle.links.specs.Leaving.{Adds};
ghost use Rattle.links.specs.Ways.{AreWays};
ghost use Rattle.links.specs.Walkers.{FindsAll, mark_at};
ghost use Rattle.links.specs.Parts.{AreComponentsOf};
ghost use Rattle.links.specs.Gathering.{AreClosed, AreInto, HasFound, IsFrom, IsFromOne, IsSearch, MarksMore, both_ways, tx_at};

use crate::links::{Links, made};
use crate::maps::Maps;
use crate::walker::{Walker, walk};
use crate::ways::{Ways, turned_steps, ways_of};
use graphs::TxId;
use outside::NoMemory;
use std::alloc::Global;

/// A search for components, one after the other.
#[derive(Drop)]
pub(crate) struct Search {
    /// The steps between places, each both ways.
    pub(crate) around: Ways,
    pub(crate) walker: Walker,
    /// For each place whether a component has it that was found.
    pub(crate) taken: Vec<bool>,
}

/// The links of each component of these transactions and pairs.
pub(crate) fn components(
    alloc: Global,
    txs: &[(TxId, i64, u64)],
    pairs: &[(TxId, TxId)],
    maps: &Maps,
) -> Result<Vec<Links>, NoMemory>
    requires whole { AreLinks (record { txs = txs.now; pairs = pairs.now }) }
    requires maps { AreMaps txs.now pairs.now maps.now }
    ensures { IfOk result (λ parts. AreComponentsOf (record { txs = txs.now; pairs = pairs.now }) parts.items) }
{
    let mut search = search_of(alloc, txs.len(), &maps.up)?;
    let mut parts = Vec::new(alloc);
    for place in 0..txs.len() {
        put_part(alloc, txs, pairs, maps, &mut search, &mut parts, place)?;
    }
    Ok(parts)
}

/// A search along steps between this many places.
fn search_of(alloc: Global, count: usize, up: &Ways) -> Result<Search, NoMemory>
    requires { AreWays count up.now }
    ensures search { IfOk result (IsSearch count) }
    ensures steps { IfOk result (λ search. search.around.steps.items ≡ both_ways up.now.steps.items) }
    ensures none { IfOk result (λ search. (place : ℕ) → place < count → mark_at search.taken.items place ≡ false) }
{
    let mut steps = turned_steps(alloc, up.steps.as_slice())?;
    steps.extend_from_slice(up.steps.as_slice())?;
    Ok(Search {
        around: ways_of(alloc, count, steps)?,
        walker: Walker::new(alloc, count)?,
        taken: vec![in alloc; false; count]?,
    })
}

/// Puts the component of a place behind those that were found, where none of them has the place.
fn put_part(
    alloc: Global,
    txs: &[(TxId, i64, u64)],
    pairs: &[(TxId, TxId)],
    maps: &Maps,
    search: &mut Search,
    parts: &mut Vec<Links>,
    place: usize,
) -> Result<(), NoMemory>
    requires whole { AreLinks (record { txs = txs.now; pairs = pairs.now }) }
    requires maps { AreMaps txs.now pairs.now maps.now }
    requires place { place < length txs.now }
    requires found { HasFound (record { txs = txs.now; pairs = pairs.now }) maps.now.up.steps.items place search.old parts.old.items }
    ensures { OnOk result (HasFound (record { txs = txs.now; pairs = pairs.now }) maps.now.up.steps.items (place + 1) search.new
        parts.new.items) }
{
    if search.taken[place] {
        return Ok(());
    }
    take(search, place);
    let part = part_at(alloc, txs, pairs, maps, search.walker.found.as_slice())?;
    parts.push(part)?;
    Ok(())
}

/// Finds the component of a place, and marks its places.
fn take(search: &mut Search, place: usize)
    requires place { place < length search.old.taken.items }
    requires search { IsSearch (length search.old.taken.items) search.old }
    ensures search { IsSearch (length search.old.taken.items) search.new }
    ensures around { search.new.around ≡ search.old.around }
    ensures found { FindsAll search.old.around.steps.items place search.new.walker.found.items }
    ensures taken { MarksMore (length search.old.taken.items) search.old.taken.items search.new.walker.found.items
        search.new.taken.items }
{
    walk(&mut search.walker, &search.around, place);
    mark(&mut search.taken, search.walker.found.as_slice());
}

/// Marks places.
fn mark(marks: &mut Vec<bool>, places: &[usize])
    requires { (place : ℕ) → Contains places.now place → place < length marks.old.items }
    ensures sized { length marks.new.items ≡ length marks.old.items }
    ensures marks { MarksMore (length marks.old.items) marks.old.items places.now marks.new.items }
{
    for place in places {
        marks[*place] = true;
    }
}

/// Links of the transactions at places, and of the pairs between these.
fn part_at(
    alloc: Global,
    txs: &[(TxId, i64, u64)],
    pairs: &[(TxId, TxId)],
    maps: &Maps,
    places: &[usize],
) -> Result<Links, NoMemory>
    requires whole { AreLinks (record { txs = txs.now; pairs = pairs.now }) }
    requires maps { AreMaps txs.now pairs.now maps.now }
    requires closed { AreClosed (length txs.now) maps.now.up.steps.items places.now }
    ensures txs { IfOk result (λ links. links.txs ≡ map (tx_at txs.now) places.now) }
    ensures pairs { IfOk result (λ links. AreInto (map (slice_index (names_of txs.now)) places.now) pairs.now links.pairs) }
{
    let some = txs_at(alloc, txs, places)?;
    let inner = pairs_at(alloc, pairs, &maps.up, places)?;
    made(alloc, some, inner.as_slice())
}

/// The transactions at places, in their order.
fn txs_at(
    alloc: Global,
    txs: &[(TxId, i64, u64)],
    places: &[usize],
) -> Result<Vec<(TxId, i64, u64)>, NoMemory>
    requires { (place : ℕ) → Contains places.now place → place < length txs.now }
    ensures { IfOk result (λ list. list.items ≡ map (tx_at txs.now) places.now) }
{
    let mut list = Vec::with_capacity(alloc, places.len())?;
    for place in places {
        list.push(txs[*place])?;
    }
    Ok(list)
}

/// The pairs of the steps that lead from places.
fn pairs_at(
    alloc: Global,
    pairs: &[(TxId, TxId)],
    ways: &Ways,
    places: &[usize],
) -> Result<Vec<(TxId, TxId)>, NoMemory>
    requires sized { length ways.now.steps.items ≡ length pairs.now }
    requires chains { AreWays (length ways.now.chains.last.items) ways.now }
    requires within { (place : ℕ) → Contains places.now place → place < length ways.now.chains.last.items }
    ensures { IfOk result (λ list. Adds (IsFromOne ways.now.steps.items pairs.now places.now) [] list.items) }
{
    let mut list = Vec::new(alloc);
    for place in places {
        put_pairs(&mut list, pairs, ways, *place)?;
    }
    Ok(list)
}

/// Puts behind a list the pairs of the steps that lead from a place.
fn put_pairs(
    list: &mut Vec<(TxId, TxId)>,
    pairs: &[(TxId, TxId)],
    ways: &Ways,
    place: usize,
) -> Result<(), NoMemory>
    requires sized { length ways.now.steps.items ≡ length pairs.now }
    requires chains { AreWays (length ways.now.chains.last.items) ways.now }
    requires place { place < length ways.now.chains.last.items }
    ensures { OnOk result (Adds (IsFrom ways.now.steps.items pairs.now place) list.old.items list.new.items) }
{
    let mut left = ways.chains.last[place];
    while left > 0 {
        list.push(pairs[left - 1])?;
        left = ways.chains.before[left - 1];
    }
    Ok(())
}
