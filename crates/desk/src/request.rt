//! Changes, and searches for transactions, as values.
ghost use Rattle.std.specs.Prelude.{◌≡◌, ◌+◌, ◌-◌, ◌^◌, ◌<◌, ◌≤◌, length};
ghost use Rattle.graph_model.specs.Replies.{change_reply, names_reply};
ghost use Rattle.tx_graph.specs.Kept.{MakesStep};
ghost use Rattle.desk.specs.Requests.{change_command, search_command};

use graph_model::{IdBuf, Level, Limits, Refusal, TxId};
use step_count::{Ledger, Steps};
use tx_graph::TxGraph;

/// A change of the graph.
#[derive(Clone, Copy)]
pub enum Change {
    Limits(Limits),
    Add(TxId, i64, u64),
    Dep(TxId, TxId),
    Fee(TxId, i64),
    Remove(TxId),
    Stage,
    Commit,
    Abort,
}

/// Which transactions are looked for in a level.
#[derive(Clone, Copy)]
pub enum Search {
    Cluster(TxId, Level),
    Ancestors(TxId, Level),
    Descendants(TxId, Level),
}

impl Change {
    /// Makes the change.
    pub fn make<L: Ledger>(
        self,
        graph: &mut TxGraph<2>,
        steps: &mut Steps<L>,
    ) -> Result<(), Refusal>
        requires { graph.old.levels.issued < 2 ^ 64 - 1 }
        ensures { MakesStep graph.old graph.new (change_command self) (change_reply result) }
    {
        match self {
            Change::Limits(limits) => graph.set_limits(limits),
            Change::Add(id, fee, size) => graph.add(id, fee, size, steps),
            Change::Dep(parent, child) => graph.dep(parent, child, steps),
            Change::Fee(id, fee) => graph.fee(id, fee, steps),
            Change::Remove(id) => graph.remove(id, steps),
            Change::Stage => graph.stage(),
            Change::Commit => graph.commit(),
            Change::Abort => graph.abort(),
        }
    }
}

impl Search {
    /// Leaves the transactions in `ids`, where there is room for those of a cluster.
    pub fn find(self, graph: &TxGraph<2>, ids: &mut IdBuf) -> Result<(), Refusal>
        requires { 128 ≤ length ids.old.ids + ids.old.room }
        ensures step { MakesStep graph.now graph.now (search_command self) (names_reply result ids.new.ids) }
        ensures room { length ids.new.ids + ids.new.room ≡ length ids.old.ids + ids.old.room }
    {
        match self {
            Search::Cluster(id, level) => graph.cluster(level, id, ids),
            Search::Ancestors(id, level) => graph.ancestors(level, id, ids),
            Search::Descendants(id, level) => graph.descendants(level, id, ids),
        }
    }
}
