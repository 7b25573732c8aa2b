//! What `trim` drops, by its rule over the plain lists.
use crate::replies::{Lists, PROOF, said};
use fee_rate::Sum;
use graph_model::{Level, Limits, TxId};
use outside::MemSink;
use plain_graph::Tx;
use replay::Session;
use std::alloc::{AllocError, Global};
use std::process::Abort;
use std::test::Fail;
use wire::write_ids;

/// Whether the first of two transactions is looked at first: at a greater feerate, or at the same one by the lesser name.
fn goes_first(a: &Tx, b: &Tx) -> bool {
    let one = i128::from(a.fee).saturating_mul(i128::from(b.size));
    let other = i128::from(b.fee).saturating_mul(i128::from(a.size));
    one > other || (one == other && a.id < b.id)
}

/// Whether a transaction wasn't looked at, and all its parents are kept.
fn is_candidate(pairs: &[(TxId, TxId)], kept: &[TxId], seen: &[TxId], id: TxId) -> bool {
    for (parent, child) in pairs {
        if *child == id && !kept.contains(parent) {
            return false;
        }
    }
    !seen.contains(&id)
}

/// The candidate that is looked at first.
fn first_candidate(txs: &[Tx], pairs: &[(TxId, TxId)], kept: &[TxId], seen: &[TxId]) -> Option<Tx> {
    let mut first: Option<Tx> = None;
    for tx in txs {
        if !is_candidate(pairs, kept, seen, tx.id) {
            continue;
        }
        match first {
            Some(best) if goes_first(&best, tx) => {}
            _ => first = Some(*tx),
        }
    }
    first
}

/// The component of a transaction among those that are kept.
pub fn component(
    alloc: Global,
    pairs: &[(TxId, TxId)],
    kept: &[TxId],
    id: TxId,
) -> Result<Vec<TxId>, AllocError> {
    let mut ids = Vec::new(alloc);
    ids.push(id)?;
    for _ in kept {
        for (parent, child) in pairs {
            if ids.contains(parent) && kept.contains(child) && !ids.contains(child) {
                ids.push(*child)?;
            }
            if ids.contains(child) && kept.contains(parent) && !ids.contains(parent) {
                ids.push(*parent)?;
            }
        }
    }
    Ok(ids)
}

/// The total size of some transactions, in virtual bytes.
pub fn size_of(txs: &[Tx], ids: &[TxId]) -> u64 {
    let mut size: u64 = 0;
    for tx in txs {
        if ids.contains(&tx.id) {
            size = size.saturating_add(tx.size);
        }
    }
    size
}

/// The names that trimming keeps.
fn kept(
    alloc: Global,
    limits: &Limits,
    txs: &[Tx],
    pairs: &[(TxId, TxId)],
) -> Result<Vec<TxId>, AllocError> {
    let mut kept: Vec<TxId> = Vec::new(alloc);
    let mut seen: Vec<TxId> = Vec::new(alloc);
    for _ in txs {
        let Some(tx) = first_candidate(txs, pairs, &kept, &seen) else {
            break;
        };
        seen.push(tx.id)?;
        let ids = component(alloc, pairs, &kept, tx.id)?;
        if ids.len() as u64 <= limits.count && size_of(txs, &ids) <= limits.size {
            kept.push(tx.id)?;
        }
    }
    Ok(kept)
}

/// The names that trimming drops, in rising order, with their sum.
fn dropped(alloc: Global, lists: &mut Lists) -> Result<(Sum, Vec<TxId>), Fail> {
    let limits = lists.limits();
    let top = lists.level(Level::Top);
    let kept = kept(alloc, &limits, top.txs(), top.pairs())?;
    let mut sum = Sum { fee: 0, size: 0 };
    let mut ids = Vec::new(alloc);
    for tx in top.txs() {
        if !kept.contains(&tx.id) {
            ids.push(tx.id)?;
            sum.fee = sum.fee.saturating_add(i128::from(tx.fee));
            sum.size = sum.size.saturating_add(tx.size);
        }
    }
    ids.sort_unstable();
    Ok((sum, ids))
}

/// Lets the session trim, which must drop the names that the rule says, and drops them from the lists. Afterwards top isn't oversized.
pub fn trim<const W: usize>(
    rt: &impl Abort,
    alloc: Global,
    session: &mut Session<W>,
    lists: &mut Lists,
) -> Result<(), Fail> {
    let (sum, ids) = dropped(alloc, lists)?;
    let mut wanted = MemSink::new(alloc, PROOF, &[], PROOF)?;
    write_ids(&mut wanted, "trimmed", Some(sum), &ids)?;
    let told = said(rt, alloc, session, "trim")?;
    assert_eq!(rt; told.written(), wanted.written());
    for id in &ids {
        lists.remove(*id).expect(rt, "top has the name");
    }
    assert!(rt; !lists.over(Level::Top));
    Ok(())
}
