ghost use Rattle.std.specs.Prelude.{◌≡◌, ◌↔◌, ◌∷◌, ℕ, [], pos, Contains, IsTrue, IfOk};
ghost use Rattle.links.specs.Kept.{names_of};
ghost use Rattle.links.specs.Links.{Has};

use graphs::{Kin, TxId};
use links::Links;
use outside::NoMemory;
use std::alloc::Global;
use std::process::Abort;
use std::test::Fail;

// Whether a name is one of these transactions'.
fn lists(txs: &[(TxId, i64, u64)], id: TxId) -> bool
    ensures { IsTrue result ↔ Contains (names_of txs.now) id }
{
    for tx in txs {
        if tx.0 == id {
            return true;
        }
    }
    false
}

// Whether a name is one of the links.
fn has(links: &Links, id: TxId) -> bool
    ensures { IsTrue result ↔ Has links.now id }
{
    lists(links.txs(), id)
}

// Links of one transaction.
fn single(alloc: Global, id: TxId) -> Result<Links, NoMemory>
    ensures { IfOk result (λ links. links.txs ≡ (id, pos 10, 5) ∷ []) }
{
    Links::new(alloc, &[(id, 10, 5)], &[])
}

// The links with one name more, which depends on one of theirs.
fn with_child(
    rt: &impl Abort,
    alloc: Global,
    links: &Links,
    parent: TxId,
    id: TxId,
) -> Result<Links, NoMemory> {
    assert!(rt; has(links, parent));
    assert!(rt; !has(links, id));
    let other = single(alloc, id)?;
    links.joined(alloc, &other, parent, id)
}

// The links in which one of their names depends on another.
fn with_pair(
    rt: &impl Abort,
    alloc: Global,
    links: &mut Links,
    parent: TxId,
    child: TxId,
) -> Result<Links, NoMemory> {
    assert!(rt; has(links, parent));
    assert!(rt; has(links, child));
    assert!(rt; !links.reaches(child, parent));
    links.linked(alloc, parent, child)
}

// The links without one of their names.
fn without_one(rt: &impl Abort, alloc: Global, links: &Links, id: TxId) -> Result<Links, NoMemory> {
    assert!(rt; has(links, id));
    links.without(alloc, &[id])
}

// The links in which one of their names has a fee of 20.
fn with_more(rt: &impl Abort, alloc: Global, links: &Links, id: TxId) -> Result<Links, NoMemory> {
    assert!(rt; has(links, id));
    links.with_fee(alloc, id, 20)
}

// Whether all of these names are among the links'.
fn has_all(links: &Links, ids: &[TxId]) -> bool
    ensures { IsTrue result → (id : ℕ) → Contains ids.now id → Has links.now id }
{
    for id in ids {
        if !has(links, *id) {
            return false;
        }
    }
    true
}

// The ancestors, or the descendants, of these names, in rising order.
fn kin_of(
    rt: &impl Abort,
    alloc: Global,
    links: &mut Links,
    ids: &[TxId],
    kin: Kin,
) -> Result<Vec<TxId>, NoMemory> {
    assert!(rt; has_all(links, ids));
    let mut found = Vec::new(alloc);
    for other in links.kin(ids, kin) {
        found.push(other)?;
    }
    found.sort_unstable();
    Ok(found)
}

// Three names, each a child of the one before.
fn chain(rt: &impl Abort, alloc: Global) -> Result<Links, NoMemory> {
    let one = single(alloc, 1)?;
    let two = with_child(rt, alloc, &one, 1, 2)?;
    with_child(rt, alloc, &two, 2, 3)
}

/// Names, which kin of theirs, and these in rising order.
type Relatives = (&'static [TxId], Kin, &'static [TxId]);

// Below the name 9 stand 1 and 2, below both of these 4, and below 2 alone 5.
const RELATIVES: [Relatives; 10] = [
    (&[9], Kin::Ancestors, &[9]),
    (&[4], Kin::Ancestors, &[1, 2, 4, 9]),
    (&[2], Kin::Descendants, &[2, 4, 5]),
    (&[4, 5], Kin::Ancestors, &[1, 2, 4, 5, 9]),
    (&[1, 2], Kin::Descendants, &[1, 2, 4, 5]),
    (&[5, 2], Kin::Ancestors, &[2, 5, 9]),
    (&[1, 9], Kin::Descendants, &[1, 2, 4, 5, 9]),
    (&[5, 5], Kin::Ancestors, &[2, 5, 9]),
    (&[1, 1], Kin::Descendants, &[1, 4]),
    (&[], Kin::Ancestors, &[]),
];

#[test]
fn walks_give_the_kin_of_names_each_once(rt: HostRuntime) -> Result<(), Fail> {
    let alloc = rt.alloc();
    let mut tree = grown(&rt, alloc, &[(9, 1), (9, 2), (1, 4), (2, 5)])?;
    let mut links = with_pair(&rt, alloc, &mut tree, 2, 4)?;
    for (ids, kin, names) in &RELATIVES {
        let found = kin_of(&rt, alloc, &mut links, ids, *kin)?;
        assert!(rt; found.as_slice() == *names, "{kin:?} of {ids:?}");
    }
    Ok(())
}

#[test]
fn a_name_that_goes_leaves_its_ancestors_to_its_children(rt: HostRuntime) -> Result<(), Fail> {
    let alloc = rt.alloc();
    let mut links = chain(&rt, alloc)?;
    let all = with_pair(&rt, alloc, &mut links, 1, 3)?;
    let mut rest = without_one(&rt, alloc, &all, 2)?;
    assert!(rt; rest.pairs() == [(1, 3)].as_slice());
    assert!(rt;
        kin_of(&rt, alloc, &mut rest, &[3], Kin::Ancestors)?.as_slice() == [1, 3].as_slice()
    );
    Ok(())
}

#[test]
fn one_fee_changes_and_nothing_else(rt: HostRuntime) -> Result<(), Fail> {
    let alloc = rt.alloc();
    let links = chain(&rt, alloc)?;
    let other = with_more(&rt, alloc, &links, 2)?;
    assert!(rt; other.txs() == [(1, 10, 5), (2, 20, 5), (3, 10, 5)].as_slice());
    assert!(rt; other.pairs() == links.pairs());
    Ok(())
}

/// The names of a component, and its pairs.
type Shape = (&'static [TxId], &'static [(TxId, TxId)]);

// How names come in below the name 9, each after its parent, and the components that are left without the name 9.
const PARTED: [(&[(TxId, TxId)], &[Shape]); 3] = [
    (
        &[(9, 1), (9, 2), (9, 3), (1, 4), (3, 5)],
        &[(&[1, 4], &[(1, 4)]), (&[2], &[]), (&[3, 5], &[(3, 5)])],
    ),
    (&[(9, 1), (1, 2)], &[(&[1, 2], &[(1, 2)])]),
    (&[], &[]),
];

// The name 9 and those below it.
fn grown(rt: &impl Abort, alloc: Global, pairs: &[(TxId, TxId)]) -> Result<Links, NoMemory> {
    let mut links = single(alloc, 9)?;
    for pair in pairs {
        links = with_child(rt, alloc, &links, pair.0, pair.1)?;
    }
    Ok(links)
}

// Whether links have these names and pairs.
fn has_shape(links: &Links, shape: &Shape) -> bool {
    for id in shape.0 {
        if !has(links, *id) {
            return false;
        }
    }
    links.txs().len() == shape.0.len() && links.pairs() == shape.1
}

// Whether the components of links have these names and pairs.
fn has_parts(alloc: Global, links: &Links, shapes: &[Shape]) -> Result<bool, NoMemory> {
    let parts = links.components(alloc)?;
    for (part, shape) in parts.iter().zip(shapes) {
        if !has_shape(part, shape) {
            return Ok(false);
        }
    }
    Ok(parts.len() == shapes.len())
}

#[test]
fn components_come_in_the_order_of_their_first_names(rt: HostRuntime) -> Result<(), Fail> {
    let alloc = rt.alloc();
    for (pairs, shapes) in &PARTED {
        let all = grown(&rt, alloc, pairs)?;
        let rest = without_one(&rt, alloc, &all, 9)?;
        assert!(rt; has_parts(alloc, &rest, shapes)?, "after {pairs:?}");
    }
    Ok(())
}
