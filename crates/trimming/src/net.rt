ghost use Rattle.std.specs.Prelude.{◌≡◌, ◌↔◌, ◌<◌, ℕ, length, Contains, IfOk};
ghost use Rattle.links.specs.Links.{AreLinks};
ghost use Rattle.places.specs.Chains.{AreWithin};
ghost use Rattle.trimming.specs.Nets.{list_at, IsNetOf};

use crate::buckets::{empty_lists, put};
use crate::order::sorted;
use graphs::TxId;
use outside::NoMemory;
use places::{places_of, steps_of};
use std::alloc::Global;

/// Transactions in the order in which candidates are looked at, with the places of the parents and of the children of each.
#[derive(Drop)]
pub(crate) struct Net {
    pub(crate) txs: Vec<(TxId, i64, u64)>,
    pub(crate) parents: Vec<Vec<usize>>,
    pub(crate) children: Vec<Vec<usize>>,
}

/// The net of transactions and pairs (parent, child). The work is linear but for the sort.
pub(crate) fn net_of(
    alloc: Global,
    txs: &[(TxId, i64, u64)],
    pairs: &[(TxId, TxId)],
) -> Result<Net, NoMemory>
    requires { AreLinks (record { txs = txs.now; pairs = pairs.now }) }
    ensures { IfOk result (IsNetOf txs.now pairs.now) }
{
    let order = sorted(alloc, txs)?;
    let places = places_of(alloc, order.as_slice())?;
    let steps = steps_of(alloc, &places, pairs)?;
    let parents = parents_of(alloc, order.len(), steps.as_slice())?;
    let children = children_of(alloc, order.len(), steps.as_slice())?;
    Ok(Net {
        txs: order,
        parents,
        children,
    })
}

/// For each place those from which a step leads to it.
fn parents_of(
    alloc: Global,
    count: usize,
    steps: &[(usize, usize)],
) -> Result<Vec<Vec<usize>>, NoMemory>
    requires { AreWithin count steps.now }
    ensures sized { IfOk result (λ lists. length lists.items ≡ count) }
    ensures exact { IfOk result (λ lists. (a b : ℕ) → Contains (list_at lists.items b) a ↔ Contains {X = ℕ × ℕ} steps.now (a, b)) }
{
    let mut parents = empty_lists(alloc, count)?;
    for step in steps {
        put(&mut parents, step.1, step.0)?;
    }
    Ok(parents)
}

/// For each place those to which a step leads from it.
fn children_of(
    alloc: Global,
    count: usize,
    steps: &[(usize, usize)],
) -> Result<Vec<Vec<usize>>, NoMemory>
    requires { AreWithin count steps.now }
    ensures sized { IfOk result (λ lists. length lists.items ≡ count) }
    ensures exact { IfOk result (λ lists. (a b : ℕ) → Contains (list_at lists.items a) b ↔ Contains {X = ℕ × ℕ} steps.now (a, b)) }
{
    let mut children = empty_lists(alloc, count)?;
    for step in steps {
        put(&mut children, step.0, step.1)?;
    }
    Ok(children)
}
