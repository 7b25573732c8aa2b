ghost use Rattle.std.specs.Prelude.{◌≡◌, ◌==◌, if◌then◌else◌, map, IfOk};
ghost use Rattle.fee_rate.specs.Limits.{IsFee};
ghost use Rattle.links.specs.Links.{AreLinks, AreSame};
ghost use Rattle.links.specs.Pricing.{priced};

use crate::links::{Links, made};
use graphs::TxId;
use outside::NoMemory;
use std::alloc::Global;

/// Links of these transactions and pairs, in which one name has this fee.
pub(crate) fn with_fee(
    alloc: Global,
    txs: &[(TxId, i64, u64)],
    pairs: &[(TxId, TxId)],
    id: TxId,
    fee: i64,
) -> Result<Links, NoMemory>
    requires whole { AreLinks (record { txs = txs.now; pairs = pairs.now }) }
    requires fee { IsFee fee }
    ensures txs { IfOk result (λ links. links.txs ≡ map (priced id fee) txs.now) }
    ensures pairs { IfOk result (λ links. AreSame pairs.now links.pairs) }
{
    let all = all_priced(alloc, txs, id, fee)?;
    made(alloc, all, pairs)
}

/// The transactions, in which one name has this fee.
fn all_priced(
    alloc: Global,
    txs: &[(TxId, i64, u64)],
    id: TxId,
    fee: i64,
) -> Result<Vec<(TxId, i64, u64)>, NoMemory>
    ensures { IfOk result (λ list. list.items ≡ map (priced id fee) txs.now) }
{
    let mut list = Vec::with_capacity(alloc, txs.len())?;
    for tx in txs {
        list.push((tx.0, fee_of(id, fee, tx.0, tx.1), tx.2))?;
    }
    Ok(list)
}

/// The fee of a transaction, where one name has another fee.
fn fee_of(id: TxId, fee: i64, name: TxId, own: i64) -> i64
    ensures { result ≡ (if name == id then fee else own) }
{
    if name == id { fee } else { own }
}
