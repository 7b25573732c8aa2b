ghost use Rattle.std.specs.Prelude.{◌≡◌, if◌then◌else◌, ◌∷◌, [], ◌++◌, length, IfOk, OnOk};
ghost use Rattle.lists.specs.Distinct.{AreDistinct};
ghost use Rattle.graphs.specs.Graphs.{Lists};
ghost use Rattle.links.specs.Kept.{names_of};
ghost use Rattle.trimming.specs.Counts.{IsUnkept};

use graphs::TxId;
use outside::NoMemory;
use std::alloc::Global;

/// The names of the places that aren't kept, in rising order.
pub(crate) fn unkept(
    alloc: Global,
    txs: &[(TxId, i64, u64)],
    kept: &[bool],
) -> Result<Vec<TxId>, NoMemory>
    requires sized { length kept.now ≡ length txs.now }
    requires once { AreDistinct (names_of txs.now) }
    ensures { IfOk result (λ ids. Lists (IsUnkept txs.now kept.now) ids.items) }
{
    let mut ids = Vec::new(alloc);
    for (place, tx) in txs.iter().enumerate() {
        put_unkept(&mut ids, tx.0, kept[place])?;
    }
    ids.sort_unstable();
    Ok(ids)
}

/// Puts a name behind others where its place isn't kept.
fn put_unkept(ids: &mut Vec<TxId>, id: TxId, kept: bool) -> Result<(), NoMemory>
    ensures { OnOk result (ids.new.items ≡ (if kept then ids.old.items else ids.old.items ++ id ∷ [])) }
{
    if kept {
        return Ok(());
    }
    ids.push(id)?;
    Ok(())
}
