ghost use Rattle.std.specs.Prelude.{◌≡◌, ◌≤◌, ◌↔◌, map, is_some, sum_by, length, IsTrue, Contains};
ghost use Rattle.plain_graph.specs.declared.limits.TheConstants.{MAX_NAMES};
ghost use Rattle.plain_graph.specs.Plain.{entry_in, sizes_in};
ghost use Rattle.plain_graph.specs.Sound.{names_of, AreSmall};
ghost use Rattle.plain_graph.specs.Rests.{paying, without_name};

use crate::tx::Tx;
use graph_model::TxId;

/// Whether a transaction has the name.
pub fn is_live(txs: &[Tx], id: TxId) -> bool
    ensures entry { result ≡ is_some (entry_in txs.now id) }
    ensures named { IsTrue result ↔ Contains (names_of txs.now) id }
{
    for tx in txs {
        if tx.id == id {
            return true;
        }
    }
    false
}

/// The size of the transaction of a name, in virtual bytes; 0 where there is none.
pub fn size_of(txs: &[Tx], id: TxId) -> u64
    ensures { result ≡ sizes_in txs.now id }
{
    for tx in txs {
        if tx.id == id {
            return tx.size;
        }
    }
    0
}

/// The total size of names, in virtual bytes.
pub fn total_size(txs: &[Tx], ids: &[TxId]) -> u64
    requires few { length ids.now ≤ MAX_NAMES }
    requires small { AreSmall txs.now }
    ensures { result ≡ sum_by (sizes_in txs.now) ids.now }
{
    let mut total = 0;
    for id in ids {
        total += size_of(txs, *id);
    }
    total
}

/// Sets the fee of the transaction of a name, in satoshis.
pub fn set_fee(txs: &mut Vec<Tx>, id: TxId, fee: i64)
    ensures { txs.new.items ≡ map (paying id fee) txs.old.items }
{
    for tx in txs.iter_mut() {
        pay(tx, id, fee);
    }
}

/// Sets the fee of a transaction, in satoshis, where it has the name.
fn pay(tx: &mut Tx, id: TxId, fee: i64)
    ensures { tx.new ≡ paying id fee tx.old }
{
    if tx.id == id {
        tx.fee = fee;
    }
}

/// Drops the transaction of a name. Takes no memory.
pub fn drop_name(txs: &mut Vec<Tx>, id: TxId)
    ensures { txs.new.items ≡ without_name id txs.old.items }
{
    txs.retain(|tx| tx.id != id);
}
