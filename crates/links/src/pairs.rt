ghost use Rattle.std.specs.Prelude.{◌≡◌, IfOk, OnOk};
ghost use Rattle.std.specs.HashSet as bag;
ghost use Rattle.lists.specs.Distinct.{AreDistinct};
ghost use Rattle.links.specs.Links.{AreSame};
ghost use Rattle.lists.specs.Pairs.{same_pair};
ghost use Rattle.links.specs.Pairs.{HasMore, ListsSet};

use graphs::TxId;
use outside::NoMemory;
use std::alloc::Global;
use std::collections::HashSet;

/// Pairs of names.
type Pairs = HashSet<(TxId, TxId)>;

/// The pairs of a list, each once.
pub(crate) fn each_once(
    alloc: Global,
    pairs: &[(TxId, TxId)],
) -> Result<Vec<(TxId, TxId)>, NoMemory>
    ensures same { IfOk result (λ list. AreSame pairs.now list.items) }
    ensures once { IfOk result (λ list. AreDistinct list.items) }
{
    let mut seen = HashSet::with_capacity(alloc, pairs.len())?;
    let mut list = Vec::with_capacity(alloc, pairs.len())?;
    for pair in pairs {
        put(&mut seen, &mut list, *pair)?;
    }
    Ok(list)
}

/// Puts a pair behind a list that a set has, where it isn't in the list.
fn put(seen: &mut Pairs, list: &mut Vec<(TxId, TxId)>, pair: (TxId, TxId)) -> Result<(), NoMemory>
    requires { ListsSet (bag.contains same_pair seen.old) list.old.items }
    ensures lists { OnOk result (ListsSet (bag.contains same_pair seen.new) list.new.items) }
    ensures more { OnOk result (HasMore list.old.items list.new.items pair) }
{
    if seen.insert(pair)? {
        list.push(pair)?;
    }
    Ok(())
}
