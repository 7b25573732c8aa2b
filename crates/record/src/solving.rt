//! The dependency graph of links, by which their order is made.
ghost use Rattle.std.specs.Prelude.{◌≡◌, ◌*◌, ◌<◌, ◌≤◌, [], length, slice_index, Contains, IfOk};
ghost use Rattle.graphs.specs.Closures.{IsClosed};
ghost use Rattle.links.specs.Links.{AreLinks};
ghost use Rattle.links.specs.Kept.{names_of};
ghost use Rattle.record.specs.Solving.{StandsFor};

use dep_graph::DepGraph;
use graphs::TxId;
use outside::NoMemory;
use std::alloc::Global;

/// The dependency graph of transactions and pairs. The place of each name is its position.
pub(crate) fn ordered<const W: usize>(
    alloc: Global,
    names: &[TxId],
    txs: &[(TxId, i64, u64)],
    pairs: &[(TxId, TxId)],
) -> Result<DepGraph<W>, NoMemory>
    requires narrow { W ≤ 64 }
    requires few { length txs.now ≤ 64 * W }
    requires links { AreLinks (record { txs = txs.now; pairs = pairs.now }) }
    requires names { names.now ≡ names_of txs.now }
    ensures { IfOk result (StandsFor txs.now pairs.now) }
{
    let mut dep = members(alloc, txs)?;
    for at in 0..pairs.len() {
        let (parent, child) = pairs[at];
        dep.add_dep(place_of(names, parent), place_of(names, child));
    }
    Ok(dep)
}

// A member for each transaction, without a dependency.
fn members<const W: usize>(alloc: Global, txs: &[(TxId, i64, u64)]) -> Result<DepGraph<W>, NoMemory>
    requires narrow { W ≤ 64 }
    requires few { length txs.now ≤ 64 * W }
    requires links { AreLinks (record { txs = txs.now; pairs = [] }) }
    ensures { IfOk result (StandsFor txs.now []) }
{
    let mut dep = DepGraph::new(alloc);
    for at in 0..txs.len() {
        let (_id, fee, size) = txs[at];
        dep.add(fee, size)?;
    }
    Ok(dep)
}

/// Where a name stands.
pub(crate) fn place_of(names: &[TxId], id: TxId) -> usize
    requires { Contains names.now id }
    ensures within { result < length names.now }
    ensures here { slice_index names.now result ≡ id }
{
    for place in 0..names.len() {
        if names[place] == id {
            return place;
        }
    }
    unreachable!()
}
