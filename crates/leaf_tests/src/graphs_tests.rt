use graphs::{IdBuf, IdList, TxId};
use std::alloc::{AllocError, Global};
use std::process::Abort;
use std::test::Fail;

fn push(rt: &impl Abort, buf: &mut IdBuf, id: TxId) {
    assert!(rt; buf.ids().len() < buf.capacity());
    buf.push(id);
}

/// Puts two names into a list and drops them again. It has the list by reference, so that its owner has one exit.
fn keep_two(rt: &impl Abort, buf: &mut IdBuf) {
    push(rt, buf, 7);
    push(rt, buf, 3);
    assert!(rt; buf.ids() == [7, 3].as_slice());
    buf.clear();
    assert!(rt; buf.ids().is_empty());
}

/// Whether a list has the names of a vector, and gives it back.
fn is_given_back(ids: Vec<TxId>, names: &[TxId]) -> bool {
    let list = IdList::from_vec(ids);
    list.as_slice() == names && list.into_vec().len() == names.len()
}

fn two_are_given_back(alloc: Global) -> Result<bool, AllocError> {
    let ids = [4, 9].to_vec(alloc)?;
    Ok(is_given_back(ids, &[4, 9]))
}

#[test]
fn names_are_kept_in_their_order(rt: HostRuntime) -> Result<(), Fail> {
    assert!(rt; two_are_given_back(rt.alloc())?);
    let mut buf = IdBuf::new(rt.alloc(), 2)?;
    keep_two(&rt, &mut buf);
    Ok(())
}
