ghost use Rattle.std.specs.Prelude.{IfOk};
ghost use Rattle.graphs.specs.declared.names.Level.TheVariants.{Main};
ghost use Rattle.levels.specs.Levels.{IsWithin};
ghost use Rattle.dump.specs.Replies.{MakesDump, DumpsTo};

use crate::listing::list_main;
use dump_text::{sort_edges, sort_txs, write_lists};
use graph_model::{Level, Refusal};
use graphs::Owned;
use outside::NoMemory;
use std::alloc::Global;
use tx_graph::TxGraph;

/// The text of a graph. Contracts see its bytes.
pub type DumpText = Owned<u8>;

/// The text of a graph whose main isn't oversized.
fn main_text<const W: usize>(alloc: Global, graph: &TxGraph<W>) -> Result<DumpText, NoMemory>
    requires { IsWithin graph.now.levels Main }
    ensures { IfOk result (DumpsTo graph.now) }
{
    let count = graph.count(Level::Main);
    let mut lists = list_main(alloc, graph, count)?;
    sort_txs(&mut lists.txs);
    sort_edges(&mut lists.edges);
    match write_lists(alloc, &lists) {
        Ok(bytes) => Ok(DumpText::from_vec(bytes)),
        Err(_) => Err(NoMemory),
    }
}

/// The text of main: a line `tx ID FEE SIZE` for each transaction by rising name, with its fee in satoshis and its size in virtual bytes,
/// then a line `edge PARENT CHILD` for each dependency that no others imply, by rising child and then by rising parent, then `end`. Each
/// line ends with one line feed. The graph stays as it is.
///
/// # Errors
///
/// Answers the first of these that holds:
///
/// - [`Refusal::Oversized`]: main is oversized.
/// - [`Refusal::Memory`]: there is no memory.
pub fn text<const W: usize>(alloc: Global, graph: &TxGraph<W>) -> Result<DumpText, Refusal>
    ensures step { MakesDump graph.now result }
{
    if graph.oversized(Level::Main) {
        return Err(Refusal::Oversized);
    }
    match main_text(alloc, graph) {
        Ok(text) => Ok(text),
        Err(_) => Err(Refusal::Memory),
    }
}
