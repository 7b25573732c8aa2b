ghost use Rattle.std.specs.Prelude.{[], ◌∷◌, OnOk, IfOk};
ghost use Rattle.plain_graph.specs.Rests.{Puts, IsPair, IsToChild, IsLeft, ArePairsWithout};

use crate::walk::has_pair;
use graph_model::TxId;
use outside::NoMemory;
use std::alloc::Global;

/// The pairs without a name, its parents joined to its children.
pub fn without(
    alloc: Global,
    pairs: &[(TxId, TxId)],
    id: TxId,
) -> Result<Vec<(TxId, TxId)>, NoMemory>
    ensures { IfOk result (λ list. ArePairsWithout pairs.now id list.items) }
{
    let mut list = Vec::new(alloc);
    for (parent, child) in pairs {
        carry(&mut list, pairs, id, *parent, *child)?;
    }
    Ok(list)
}

/// Adds what is left of a pair without a name: the pair itself, nothing where the name is its parent,
/// and where the name is its child, the pairs from its parent to the children of the name.
fn carry(
    list: &mut Vec<(TxId, TxId)>,
    pairs: &[(TxId, TxId)],
    id: TxId,
    parent: TxId,
    child: TxId,
) -> Result<(), NoMemory>
    ensures { OnOk result (Puts (IsLeft ((parent, child) ∷ []) pairs.now id) list.old.items list.new.items) }
{
    if parent == id {
        return Ok(());
    }
    if child == id {
        return join(list, pairs, id, parent);
    }
    put(list, parent, child)
}

/// Adds the pairs from a parent to each child of a name, other than the name.
fn join(
    list: &mut Vec<(TxId, TxId)>,
    pairs: &[(TxId, TxId)],
    id: TxId,
    parent: TxId,
) -> Result<(), NoMemory>
    ensures { OnOk result (Puts (IsToChild pairs.now id parent) list.old.items list.new.items) }
{
    for (from, to) in pairs {
        cross(list, id, parent, *from, *to)?;
    }
    Ok(())
}

/// Adds the pair from a parent of a name to the child of a pair, where that pair's parent is the name
/// and its child another one.
fn cross(
    list: &mut Vec<(TxId, TxId)>,
    id: TxId,
    parent: TxId,
    from: TxId,
    to: TxId,
) -> Result<(), NoMemory>
    ensures { OnOk result (Puts (IsToChild ((from, to) ∷ []) id parent) list.old.items list.new.items) }
{
    if from == id && to != id {
        put(list, parent, to)?;
    }
    Ok(())
}

/// Adds a pair at the end where it isn't in the list.
fn put(list: &mut Vec<(TxId, TxId)>, parent: TxId, child: TxId) -> Result<(), NoMemory>
    ensures { OnOk result (Puts (IsPair parent child) list.old.items list.new.items) }
{
    if !has_pair(list, parent, child) {
        list.push((parent, child))?;
    }
    Ok(())
}
