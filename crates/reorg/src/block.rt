ghost use Rattle.std.specs.Prelude.{◌≡◌};
ghost use Rattle.graph_model.specs.Changes.{ids_of};

use graph_model::{IdList, TxId};
use std::marker::Model;

/// What a mined block took out of main. Contracts see the transactions and the pairs.
#[derive(Drop)]
pub(crate) struct Block {
    txs: Vec<(TxId, i64, u64)>,
    pairs: Vec<(TxId, TxId)>,
    // the names of the transactions, so that to tell them takes no memory
    ids: IdList,
}

impl Model for Block {
    ghost use Rattle.std.specs.Prelude.{◌≡◌};
    ghost use Rattle.graph_model.specs.Changes.{ids_of};
    ghost use Rattle.graph_model.specs.States.{MinedBlock};
    ghost use Rattle.reorg.specs.Kept.{block_code};

    ghost Value = { MinedBlock };

    ghost coded = { block_code };

    ghost view = { λ a. record { txs = a.txs.items; pairs = a.pairs.items } };

    ghost invariant = { λ a. a.ids ≡ ids_of a.txs.items };
}

impl Block {
    /// A block of these transactions and pairs. The names are those of the transactions.
    pub(crate) fn new(txs: Vec<(TxId, i64, u64)>, pairs: Vec<(TxId, TxId)>, ids: IdList) -> Self
        requires { ids ≡ ids_of txs.items }
        ensures { result ≡ record { txs = txs.items; pairs = pairs.items } }
    {
        Block { txs, pairs, ids }
    }

    /// The transactions, each a name, a fee in satoshis and a size in virtual bytes, as they were listed.
    pub(crate) fn txs(&self) -> &[(TxId, i64, u64)]
        ensures { result.now ≡ self.now.txs }
    {
        let _pairs = &self.pairs;
        let _ids = &self.ids;
        self.txs.as_slice()
    }

    /// The pairs, each a transaction of the block and another descendant of it.
    pub(crate) fn pairs(&self) -> &[(TxId, TxId)]
        ensures { result.now ≡ self.now.pairs }
    {
        let _txs = &self.txs;
        let _ids = &self.ids;
        self.pairs.as_slice()
    }

    /// The names of the transactions, as they were listed. Takes no memory.
    pub(crate) fn into_ids(self) -> IdList
        ensures { result ≡ ids_of self.txs }
    {
        let Block {
            txs: _,
            pairs: _,
            ids,
        } = self;
        ids
    }
}
