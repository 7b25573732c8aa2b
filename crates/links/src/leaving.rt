ghost use Rattle.std.specs.Prelude.{◌≡◌, ℕ, true, false, not, cond, nat_eq, [], ◌∷◌, ◌++◌, ◌&&◌, Contains, IfOk, OnOk};
ghost use Rattle.std.specs.List.{filter};
ghost use Rattle.std.specs.HashSet as bag;
ghost use Rattle.links.specs.Links.{Has};
ghost use Rattle.links.specs.Leaving.{Adds, Crosses, CrossesOne, NoneEnters, Serves, Tells};

use crate::links::Links;
use graphs::{Kin, TxId};
use outside::NoMemory;
use std::alloc::Global;
use std::collections::HashSet;

/// Names that go.
pub(crate) type Gone = HashSet<TxId>;

/// The names of a list as a set.
pub(crate) fn set_of(alloc: Global, names: &[TxId]) -> Result<Gone, NoMemory>
    ensures { IfOk result (λ gone. Tells (bag.contains nat_eq gone) names.now) }
{
    let mut gone = HashSet::with_capacity(alloc, names.len())?;
    for id in names {
        gone.insert(*id)?;
    }
    Ok(gone)
}

/// The transactions that stay, in their order.
pub(crate) fn txs_left(
    alloc: Global,
    txs: &[(TxId, i64, u64)],
    gone: &Gone,
) -> Result<Vec<(TxId, i64, u64)>, NoMemory>
    ensures { IfOk result (λ list. list.items ≡ filter (λ tx. not (bag.contains nat_eq gone.now tx.0)) txs.now) }
{
    let mut list = Vec::with_capacity(alloc, txs.len())?;
    for tx in txs {
        keep_tx(&mut list, gone, *tx)?;
    }
    Ok(list)
}

/// Puts a transaction behind a list, where it stays.
fn keep_tx(
    list: &mut Vec<(TxId, i64, u64)>,
    gone: &Gone,
    tx: (TxId, i64, u64),
) -> Result<(), NoMemory>
    ensures { OnOk result (list.new.items ≡ list.old.items ++ cond (not (bag.contains nat_eq gone.now tx.0)) (tx ∷ []) []) }
{
    if !gone.contains(&tx.0) {
        list.push(tx)?;
    }
    Ok(())
}

/// The pairs over which walks lead from names that stay to parents that go: those whose child goes, or none where no pair leads from a name
/// that stays to one that goes.
pub(crate) fn pairs_between(
    alloc: Global,
    pairs: &[(TxId, TxId)],
    gone: &Gone,
) -> Result<Vec<(TxId, TxId)>, NoMemory>
    ensures within { IfOk result (λ list. (a b : ℕ) → Contains list.items (a, b) → Contains pairs.now (a, b)) }
    ensures serves { IfOk result (λ list. Serves (bag.contains nat_eq gone.now) pairs.now list.items) }
{
    if !some_enter(pairs, gone) {
        return Ok(Vec::new(alloc));
    }
    pairs_into(alloc, pairs, gone)
}

/// Whether some pair leads from a name that stays to one that goes.
fn some_enter(pairs: &[(TxId, TxId)], gone: &Gone) -> bool
    ensures { result ≡ false → NoneEnters (bag.contains nat_eq gone.now) pairs.now }
{
    for pair in pairs {
        if enters(gone, pair.0, pair.1) {
            return true;
        }
    }
    false
}

/// Whether the parent stays and the child goes.
fn enters(gone: &Gone, parent: TxId, child: TxId) -> bool
    ensures { result ≡ (not (bag.contains nat_eq gone.now parent) && bag.contains nat_eq gone.now child) }
{
    !gone.contains(&parent) && gone.contains(&child)
}

/// The pairs whose child goes, in their order.
fn pairs_into(
    alloc: Global,
    pairs: &[(TxId, TxId)],
    gone: &Gone,
) -> Result<Vec<(TxId, TxId)>, NoMemory>
    ensures { IfOk result (λ list. list.items ≡ filter (λ pair. bag.contains nat_eq gone.now pair.1) pairs.now) }
{
    let mut list = Vec::with_capacity(alloc, pairs.len())?;
    for pair in pairs {
        keep_pair(&mut list, gone, *pair)?;
    }
    Ok(list)
}

/// Puts a pair behind a list, where its child goes.
fn keep_pair(list: &mut Vec<(TxId, TxId)>, gone: &Gone, pair: (TxId, TxId)) -> Result<(), NoMemory>
    ensures { OnOk result (list.new.items ≡ list.old.items ++ cond (bag.contains nat_eq gone.now pair.1) (pair ∷ []) []) }
{
    if gone.contains(&pair.1) {
        list.push(pair)?;
    }
    Ok(())
}

/// The pairs from each name that stays to each child that stays, where pairs within lead from the one to a parent of the other.
pub(crate) fn bridged(
    alloc: Global,
    pairs: &[(TxId, TxId)],
    gone: &Gone,
    inner: &mut Links,
) -> Result<Vec<(TxId, TxId)>, NoMemory>
    requires { (parent child : ℕ) → Contains pairs.now (parent, child) → Has inner.old parent }
    ensures { IfOk result (λ list. Adds (CrossesOne (bag.contains nat_eq gone.now) inner.old.pairs pairs.now) [] list.items) }
{
    let mut list = Vec::with_capacity(alloc, pairs.len())?;
    for pair in pairs {
        carry(&mut list, gone, inner, pair.0, pair.1)?;
    }
    Ok(list)
}

/// Puts behind a list the pairs to a child that stays, from each name that stays and from which pairs within lead to a parent.
fn carry(
    list: &mut Vec<(TxId, TxId)>,
    gone: &Gone,
    inner: &mut Links,
    parent: TxId,
    child: TxId,
) -> Result<(), NoMemory>
    requires { Has inner.old parent }
    ensures same { inner.new ≡ inner.old }
    ensures adds { OnOk result (Adds (Crosses (bag.contains nat_eq gone.now) inner.old.pairs parent child) list.old.items
        list.new.items) }
{
    if gone.contains(&child) {
        return Ok(());
    }
    bridge(list, gone, inner, parent, child)
}

/// Does so for a child that stays.
fn bridge(
    list: &mut Vec<(TxId, TxId)>,
    gone: &Gone,
    inner: &mut Links,
    parent: TxId,
    child: TxId,
) -> Result<(), NoMemory>
    requires parent { Has inner.old parent }
    requires child { bag.contains nat_eq gone.now child ≡ false }
    ensures same { inner.new ≡ inner.old }
    ensures adds { OnOk result (Adds (Crosses (bag.contains nat_eq gone.now) inner.old.pairs parent child) list.old.items
        list.new.items) }
{
    for above in inner.kin(&[parent], Kin::Ancestors) {
        put_left(list, gone, above, child)?;
    }
    Ok(())
}

/// Puts a pair behind a list, where its parent stays.
fn put_left(
    list: &mut Vec<(TxId, TxId)>,
    gone: &Gone,
    above: TxId,
    child: TxId,
) -> Result<(), NoMemory>
    ensures { OnOk result (Adds (λ a b. (a ≡ above) × (b ≡ child) × (bag.contains nat_eq gone.now above ≡ false)) list.old.items
        list.new.items) }
{
    if !gone.contains(&above) {
        list.push((above, child))?;
    }
    Ok(())
}
