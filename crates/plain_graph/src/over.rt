ghost use Rattle.std.specs.Prelude.{◌+◌, ◌↔◌, length, IsTrue};
ghost use Rattle.graph_model.specs.Limits.{AreInRange, AreOver, bounds_of};
ghost use Rattle.plain_graph.specs.declared.limits.TheConstants.{MAX_NAMES};
ghost use Rattle.plain_graph.specs.Plain.{sizes_in};
ghost use Rattle.plain_graph.specs.Overs.{IsRight};
ghost use Rattle.plain_graph.specs.Sound.{AreSmall, IsSound};

use crate::tx::Tx;
use crate::txs::total_size;
use crate::walk::{Way, reach};
use graph_model::{IdBuf, Limits, TxId};

/// Whether names are more, or larger together, than those of a cluster may be.
fn are_over(limits: &Limits, txs: &[Tx], ids: &[TxId]) -> bool
    requires in_range { AreInRange MAX_NAMES (bounds_of limits.now) }
    requires small { AreSmall txs.now }
    ensures { IsTrue result ↔ AreOver (bounds_of limits.now) (sizes_in txs.now) ids.now }
{
    ids.len() as u64 > limits.count || total_size(txs, ids) > limits.size
}

/// Whether a component is over the limits, where pairs may bring one over them. Takes no memory.
pub fn is_over(limits: &Limits, txs: &[Tx], pairs: &[(TxId, TxId)], found: &mut IdBuf) -> bool
    requires { IsSound limits.now txs.now pairs.now (length found.old.ids + found.old.room) }
    ensures { IsRight limits.now txs.now pairs.now (length found.new.ids + found.new.room) result }
{
    if !limits.defer {
        return false;
    }
    for tx in txs {
        reach(found, pairs, &[tx.id], Way::Either);
        if are_over(limits, txs, found.ids()) {
            return true;
        }
    }
    false
}
