//! Transactions and edges in the order of a text.
ghost use Rattle.std.specs.List.Sorted.{IsPermutation, IsStrictlyIncreasing};
ghost use Rattle.lists.specs.Distinct.{AreDistinct};
ghost use Rattle.graph_model.specs.Changes.{ids_of};
ghost use Rattle.graph_model.specs.Dumps.{EdgesRise};

use crate::entries::{Edge, Tx};

/// Puts transactions into the order of their names. Takes no memory.
pub fn sort_txs(txs: &mut Vec<Tx>)
    ensures same { IsPermutation txs.old.items txs.new.items }
    ensures rises { AreDistinct (ids_of txs.old.items) → IsStrictlyIncreasing (ids_of txs.new.items) }
{
    txs.sort_unstable_by_key(|tx| tx.0);
}

/// Puts edges into the order of their children, and those to one child into that of their parents. Takes no memory.
pub fn sort_edges(edges: &mut Vec<Edge>)
    ensures same { IsPermutation edges.old.items edges.new.items }
    ensures rises { AreDistinct edges.old.items → EdgesRise edges.new.items }
{
    edges.sort_unstable_by_key(|edge| (edge.1, edge.0));
}
