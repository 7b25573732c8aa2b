//! Changes and searches of a graph, as values.
ghost use Rattle.std.specs.Prelude.{◌≡◌, ◌+◌, ◌-◌, ◌*◌, ◌^◌, ◌<◌, ◌≤◌, length};
ghost use Rattle.graph_model.specs.Replies.{change_reply, names_reply};
ghost use Rattle.tx_graph.specs.Kept.{MakesStep};
ghost use Rattle.mempool.specs.Requests.{change_command, search_command};

use graph_model::{IdBuf, Level, Limits, Refusal, TxId};
use step_count::{Ledger, Steps};
use tx_graph::TxGraph;

/// A change of the graph that leaves the mined blocks: each is the call of [`TxGraph`] of that name.
#[derive(Clone, Copy)]
pub enum Change {
    Limits(Limits),
    /// A transaction, its fee in satoshis, and its size in virtual bytes.
    Add(TxId, i64, u64),
    /// The parent, and the child.
    Dep(TxId, TxId),
    /// A transaction, and its new fee in satoshis.
    Fee(TxId, i64),
    Remove(TxId),
    Stage,
    Commit,
    Abort,
}

/// Which transactions of a level are looked for: those of a transaction's cluster, its ancestors, or its descendants, itself among them.
#[derive(Clone, Copy)]
pub enum Search {
    Cluster(TxId, Level),
    Ancestors(TxId, Level),
    Descendants(TxId, Level),
}

impl Change {
    /// Makes the change.
    pub(crate) fn make<const W: usize, L: Ledger>(
        self,
        graph: &mut TxGraph<W>,
        steps: &mut Steps<L>,
    ) -> Result<(), Refusal>
        requires few { graph.old.levels.issued < 2 ^ 64 - 1 }
        ensures step { MakesStep graph.old graph.new (change_command self) (change_reply result) }
        ensures additions { graph.new.levels.issued ≤ graph.old.levels.issued + 1 }
    {
        match self {
            Change::Limits(limits) => graph.set_limits(limits),
            Change::Add(id, fee, size) => graph.add(id, fee, size, steps),
            Change::Dep(parent, child) => graph.dep(parent, child, steps),
            Change::Fee(id, fee) => graph.fee(id, fee, steps),
            Change::Remove(id) => graph.remove(id, steps),
            Change::Stage => graph.stage(),
            Change::Commit => graph.commit(),
            Change::Abort => graph.abort(),
        }
    }
}

impl Search {
    /// Leaves the names in `ids`, where there is room for those of a cluster.
    pub(crate) fn find<const W: usize>(
        self,
        graph: &TxGraph<W>,
        ids: &mut IdBuf,
    ) -> Result<(), Refusal>
        requires room { 64 * W ≤ length ids.old.ids + ids.old.room }
        ensures step { MakesStep graph.now graph.now (search_command self) (names_reply result ids.new.ids) }
        ensures room { length ids.new.ids + ids.new.room ≡ length ids.old.ids + ids.old.room }
    {
        match self {
            Search::Cluster(id, level) => graph.cluster(level, id, ids),
            Search::Ancestors(id, level) => graph.ancestors(level, id, ids),
            Search::Descendants(id, level) => graph.descendants(level, id, ids),
        }
    }
}
