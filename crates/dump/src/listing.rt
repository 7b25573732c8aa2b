//! The transactions and the edges of main, in the order of its parts.
ghost use Rattle.std.specs.Prelude.{◌≡◌, ℕ, ◌≤◌, List, ◌++◌, map, Contains, IfOk, OnOk};
ghost use Rattle.lists.specs.Distinct.{AreDistinct};
ghost use Rattle.graphs.specs.declared.names.Level.TheVariants.{Main};
ghost use Rattle.graph_model.specs.Answers.{order_of};
ghost use Rattle.levels.specs.Levels.{OneLevel, IsWithin};
ghost use Rattle.dump.specs.Listings.{AreListed, Tells};

use dump_text::{Edge, Lists};
use graph_model::{Level, TxId};
use outside::NoMemory;
use std::alloc::Global;
use tx_graph::{Component, Covers, TxGraph};

/// Adds the edges from some parents to a child.
fn add_parents<const W: usize>(
    parents: Covers<'_, W>,
    child: TxId,
    edges: &mut Vec<Edge>,
) -> Result<(), NoMemory>
    ensures { OnOk result (edges.new.items ≡ edges.old.items ++ map (λ parent. (parent, child)) parents.entry) }
{
    for parent in parents {
        edges.push((parent, child))?;
    }
    Ok(())
}

/// Adds some transactions of a cluster, with the edges to them.
fn add_part<const W: usize>(
    cluster: &Component<W>,
    ids: &[TxId],
    lists: &mut Lists,
) -> Result<(), NoMemory>
    requires names { (id : ℕ) → Contains ids.now id → Contains cluster.now.names id }
    requires narrow { W ≤ 2 }
    ensures { (level : OneLevel) (before : List ℕ) → Tells level cluster.now → AreDistinct (order_of level.parts)
        → AreDistinct (before ++ ids.now) → AreListed level before lists.old.txs.items lists.old.edges.items
        → OnOk result (AreListed level (before ++ ids.now) lists.new.txs.items lists.new.edges.items) }
{
    for id in ids {
        let rate = cluster.rate(*id);
        lists.txs.push((*id, rate.fee, rate.size))?;
        add_parents(cluster.covers(*id), *id, &mut lists.edges)?;
    }
    Ok(())
}

/// The transactions and the edges of main, of which there are so many transactions.
pub(crate) fn list_main<const W: usize>(
    alloc: Global,
    graph: &TxGraph<W>,
    count: usize,
) -> Result<Lists, NoMemory>
    requires { IsWithin graph.now.levels Main }
    ensures { IfOk result (λ lists. AreDistinct (order_of graph.now.levels.main.parts)
        → AreListed graph.now.levels.main (order_of graph.now.levels.main.parts) lists.txs.items lists.edges.items) }
{
    let mut lists = Lists {
        txs: Vec::with_capacity(alloc, count)?,
        edges: Vec::new(alloc),
    };
    for (part, cluster) in graph.held(Level::Main) {
        add_part(cluster, part.ids, &mut lists)?;
    }
    Ok(lists)
}
