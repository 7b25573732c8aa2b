ghost use Rattle.std.specs.Prelude.{◌≡◌, ◌⊎◌, ℕ, not, nat_eq, ◌∷◌, [], ◌++◌, Contains, IfOk};
ghost use Rattle.std.specs.List.{filter};
ghost use Rattle.std.specs.HashSet as bag;
ghost use Rattle.graphs.specs.Graphs.{IsAncestor};
ghost use Rattle.links.specs.Links.{AreLinks};
ghost use Rattle.links.specs.Kept.{names_of};
ghost use Rattle.links.specs.Pairs.{AreAcross, AreSplit, HasMore};
ghost use Rattle.links.specs.Leaving.{ArePairsLeft, Serves, goes};

use crate::leaving::{Gone, bridged, pairs_between, set_of, txs_left};
use crate::links::{Links, made};
use graphs::TxId;
use outside::NoMemory;
use std::alloc::Global;

/// Links of these transactions and pairs, and one pair more.
pub(crate) fn linked(
    alloc: Global,
    txs: &[(TxId, i64, u64)],
    pairs: &[(TxId, TxId)],
    parent: TxId,
    child: TxId,
) -> Result<Links, NoMemory>
    requires whole { AreLinks (record { txs = txs.now; pairs = pairs.now }) }
    requires parent { Contains (names_of txs.now) parent }
    requires child { Contains (names_of txs.now) child }
    requires no_cycle { IsAncestor pairs.now child parent → ⊥ }
    ensures txs { IfOk result (λ links. links.txs ≡ txs.now) }
    ensures pairs { IfOk result (λ links. HasMore pairs.now links.pairs (parent, child)) }
{
    let all = Vec::from_slice(alloc, txs)?;
    let more = with_pair(alloc, pairs, &[], parent, child)?;
    made(alloc, all, more.as_slice())
}

/// Links of these transactions and pairs and of others, and one pair more between the two.
pub(crate) fn joined(
    alloc: Global,
    txs: &[(TxId, i64, u64)],
    pairs: &[(TxId, TxId)],
    others: &[(TxId, i64, u64)],
    other_pairs: &[(TxId, TxId)],
    parent: TxId,
    child: TxId,
) -> Result<Links, NoMemory>
    requires whole { AreLinks (record { txs = txs.now; pairs = pairs.now }) }
    requires other_whole { AreLinks (record { txs = others.now; pairs = other_pairs.now }) }
    requires apart { AreSplit (names_of txs.now) (names_of others.now) }
    requires across { AreAcross (names_of txs.now) (names_of others.now) parent child }
    ensures txs { IfOk result (λ links. links.txs ≡ txs.now ++ others.now) }
    ensures pairs { IfOk result (λ links. HasMore (pairs.now ++ other_pairs.now) links.pairs (parent, child)) }
{
    let all = all_txs(alloc, txs, others)?;
    let more = with_pair(alloc, pairs, other_pairs, parent, child)?;
    made(alloc, all, more.as_slice())
}

/// The transactions of two lists.
fn all_txs(
    alloc: Global,
    txs: &[(TxId, i64, u64)],
    others: &[(TxId, i64, u64)],
) -> Result<Vec<(TxId, i64, u64)>, NoMemory>
    ensures { IfOk result (λ list. list.items ≡ txs.now ++ others.now) }
{
    let mut list = Vec::from_slice(alloc, txs)?;
    list.extend_from_slice(others)?;
    Ok(list)
}

/// The pairs of two lists, and one pair more.
fn with_pair(
    alloc: Global,
    pairs: &[(TxId, TxId)],
    others: &[(TxId, TxId)],
    parent: TxId,
    child: TxId,
) -> Result<Vec<(TxId, TxId)>, NoMemory>
    ensures { IfOk result (λ list. list.items ≡ (pairs.now ++ others.now) ++ (parent, child) ∷ []) }
{
    let mut list = Vec::from_slice(alloc, pairs)?;
    list.extend_from_slice(others)?;
    list.push((parent, child))?;
    Ok(list)
}

/// The links that are left of these transactions and pairs without some names.
pub(crate) fn without(
    alloc: Global,
    txs: &[(TxId, i64, u64)],
    pairs: &[(TxId, TxId)],
    names: &[TxId],
) -> Result<Links, NoMemory>
    requires { AreLinks (record { txs = txs.now; pairs = pairs.now }) }
    ensures txs { IfOk result (λ links. links.txs ≡ filter (λ tx. not (goes names.now tx.0)) txs.now) }
    ensures pairs { IfOk result (λ links. ArePairsLeft pairs.now names.now links.pairs) }
{
    let gone = set_of(alloc, names)?;
    let mut inner = within(alloc, txs, pairs, &gone)?;
    let bridges = bridged(alloc, pairs, &gone, &mut inner)?;
    let stay = txs_left(alloc, txs, &gone)?;
    made(alloc, stay, bridges.as_slice())
}

/// Links of these transactions, along pairs that lead from names that stay where the pairs whose child goes lead.
fn within(
    alloc: Global,
    txs: &[(TxId, i64, u64)],
    pairs: &[(TxId, TxId)],
    gone: &Gone,
) -> Result<Links, NoMemory>
    requires { AreLinks (record { txs = txs.now; pairs = pairs.now }) }
    ensures txs { IfOk result (λ links. links.txs ≡ txs.now) }
    ensures pairs { IfOk result (λ links. Serves (bag.contains nat_eq gone.now) pairs.now links.pairs) }
{
    let all = Vec::from_slice(alloc, txs)?;
    let steps = pairs_between(alloc, pairs, gone)?;
    made(alloc, all, steps.as_slice())
}
