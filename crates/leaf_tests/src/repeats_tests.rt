use graphs::TxId;
use outside::NoMemory;
use repeats::{MAX_LISTED, Repeats};
use std::alloc::Global;
use std::test::Fail;

// The call stands in a function that has no clauses: no test needs more of the contract.
fn first(repeats: &mut Repeats, ids: &[TxId]) -> Option<TxId> {
    repeats.first(ids)
}

/// Lists, and the first name of each that stands earlier too.
static ROWS: [(&[TxId], Option<TxId>); 7] = [
    (&[], None),
    (&[7], None),
    (&[1, 2, 3], None),
    (&[4, 4], Some(4)),
    (&[1, 2, 3, 2, 1], Some(2)),
    (&[1, 2, 2, 1], Some(2)),
    (&[0, 5, 6, 0, 6, 5], Some(0)),
];

#[test]
fn the_first_repeat_is_told(rt: HostRuntime) -> Result<(), Fail> {
    let mut repeats = Repeats::new(rt.alloc())?;
    for (ids, told) in &ROWS {
        assert!(rt; first(&mut repeats, ids) == *told, "at {ids:?}");
    }
    Ok(())
}

// A list of three pieces, of which every name is its position but for the last two: the first of them stands in the second piece too, and
// the last in the first piece.
fn three_pieces(alloc: Global) -> Result<Vec<TxId>, NoMemory> {
    let mut ids = Vec::new(alloc);
    for at in 0..3 * MAX_LISTED {
        ids.push(at as TxId)?;
    }
    ids.push(40_000)?;
    ids.push(3)?;
    Ok(ids)
}

#[test]
fn repeats_of_other_pieces_are_told(rt: HostRuntime) -> Result<(), Fail> {
    let mut repeats = Repeats::new(rt.alloc())?;
    let ids = three_pieces(rt.alloc())?;
    assert!(rt; first(&mut repeats, ids.as_slice()) == Some(40_000));
    Ok(())
}
