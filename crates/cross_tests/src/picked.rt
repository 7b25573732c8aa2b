//! What `evict` and `block` tell, beside the order that the session tells and the components of the plain lists.
use crate::replies::{Lists, PROOF, refuses, said};
use certificate::Part;
use fee_rate::Sum;
use graph_model::{Level, Refusal, TxId};
use outside::MemSink;
use plain_graph::Plain;
use replay::Session;
use std::alloc::Global;
use std::process::Abort;
use std::test::Fail;
use wire::{CertText, read_certificate, write_ids, write_refusal};

/// The parts of main's order.
fn order<const W: usize>(
    rt: &impl Abort,
    alloc: Global,
    session: &mut Session<W>,
) -> Result<CertText, Fail> {
    let told = said(rt, alloc, session, "order main")?;
    assert!(rt; told.written().len() <= PROOF);
    Ok(read_certificate(alloc, told.written()).expect(rt, "an order is a text"))
}

/// Lets the session drop its last part, which must be told, and drops its names from the lists. Where main is oversized it must refuse.
pub fn evict<const W: usize>(
    rt: &impl Abort,
    alloc: Global,
    session: &mut Session<W>,
    lists: &mut Lists,
) -> Result<(), Fail> {
    if lists.over(Level::Main) {
        let why = if lists.is_staged() {
            Refusal::Staging
        } else {
            Refusal::Oversized
        };
        return refuses(rt, alloc, session, "evict", &why);
    }
    let text = order(rt, alloc, session)?;
    let done = said(rt, alloc, session, "evict")?;
    let mut wanted = MemSink::new(alloc, PROOF, &[], PROOF)?;
    match text.parts.as_slice().last() {
        _ if lists.is_staged() => write_refusal(&mut wanted, &Refusal::Staging)?,
        None => write_refusal(&mut wanted, &Refusal::Empty)?,
        Some(part) => {
            let ids = part.ids.as_slice();
            write_ids(&mut wanted, "evicted", Some(part.rate), ids)?;
            lists.drop_all(ids).expect(rt, "main has the part");
        }
    }
    assert_eq!(rt; done.written(), wanted.written());
    Ok(())
}

/// The sum and the names of a block: each part is taken that fits, unless one of its component was left out before.
fn block(
    alloc: Global,
    main: &mut Plain,
    parts: &[Part],
    limit: u64,
) -> Result<(Sum, Vec<TxId>), Fail> {
    let mut sum = Sum { fee: 0, size: 0 };
    let mut ids = Vec::new(alloc);
    let mut skipped: Vec<TxId> = Vec::new(alloc);
    for part in parts {
        let Some(first) = part.ids.as_slice().first() else {
            continue;
        };
        if skipped.as_slice().contains(first) {
            continue;
        }
        if part.rate.size > limit.saturating_sub(sum.size) {
            if main.cluster(*first, Level::Main).is_ok() {
                skipped.extend_from_slice(main.found())?;
            }
            continue;
        }
        ids.extend_from_slice(part.ids.as_slice())?;
        sum.fee = sum.fee.saturating_add(part.rate.fee);
        sum.size = sum.size.saturating_add(part.rate.size);
    }
    Ok((sum, ids))
}

/// Compares a block of the session with one that is made of its order. Where main is oversized it must refuse.
pub fn fill<const W: usize>(
    rt: &impl Abort,
    alloc: Global,
    session: &mut Session<W>,
    lists: &mut Lists,
    limit: u64,
) -> Result<(), Fail> {
    let line = format!(in alloc; "block {limit}")?;
    if lists.over(Level::Main) {
        return refuses(rt, alloc, session, &line, &Refusal::Oversized);
    }
    let text = order(rt, alloc, session)?;
    let (sum, ids) = block(alloc, lists.main(), text.parts.as_slice(), limit)?;
    let mut wanted = MemSink::new(alloc, PROOF, &[], PROOF)?;
    write_ids(&mut wanted, "block", Some(sum), &ids)?;
    let told = said(rt, alloc, session, &line)?;
    assert_eq!(rt; told.written(), wanted.written());
    Ok(())
}
