ghost use Rattle.std.specs.Prelude.{◌≡◌, ◌≤◌, ℕ, ℤ, true, List, [], ◌∷◌, map, flat_map, Contains};
ghost use Rattle.std.specs.Iterator.{AlwaysYields, IsFinite};
ghost use Rattle.graph_model.specs.Answers.{order_of};
ghost use Rattle.graph_model.specs.Commands as commands;
ghost use Rattle.graph_model.specs.Runs as runs;
ghost use Rattle.graph_model.specs.Replies.{Refused, point_line};
ghost use Rattle.graph_model.specs.Words.{line_text};
ghost use Rattle.outside.specs.Transfers.{Writes};
ghost use Rattle.graph_model.specs.Texts.{chunk_line, edge_line, flow_line, part_lines};
ghost use Rattle.cluster_store.specs.Lent.{lent};
ghost use Rattle.replay.specs.Answers.{IsReadOfGraph, WritesAnswer};
ghost use Rattle.levels.specs.Levels.{IsWithin, level_at};
ghost use Rattle.tx_graph.specs.Readings.{part_reply};
ghost use Rattle.replay.specs.Writings.{GoesOnLines, ListsEach, ListsOwn, line_of, tx_line_of, edges_lines};

use crate::answer::{Outcome, told};
use dump::text;
use fee_rate::{FeeRate, Sum};
use graph_model::{Flow, Level, Refusal, TxId};
use outside::{Failed, Sink};
use std::alloc::Global;
use tx_graph::{Component, Covers, Order, PartRef, TxGraph};
use wire::{write_chunk, write_edge, write_flow, write_point, write_refusal, write_tx, write_word};

/// A line of a reply that goes out line by line.
#[derive(Clone, Copy)]
enum Line<'a> {
    Tx(TxId, FeeRate),
    Edge(TxId, TxId),
    Chunk(PartRef<'a>),
    Flow(Flow),
    Point(u64, i128),
    End,
}

/// Goes on with a line where all so far was written.
fn more<K: Sink>(so_far: Result<(), Failed>, line: Line<'_>, sink: &mut K) -> Result<(), Failed>
    ensures { GoesOnLines so_far (K.written sink.old) (K.written sink.new) (K.faults sink.old)
        (K.faults sink.new) result (line_of line.entry ∷ []) }
{
    match so_far {
        Ok(()) => write_line(line, sink),
        Err(failed) => Err(failed),
    }
}

/// Writes a line.
fn write_line<K: Sink>(line: Line<'_>, sink: &mut K) -> Result<(), Failed>
    ensures { Writes (K.written sink.old) (K.written sink.new) (K.faults sink.old) (K.faults sink.new) result
        (line_text (line_of line.entry)) }
{
    match line {
        Line::Tx(id, rate) => write_tx(sink, id, rate.fee, rate.size),
        Line::Edge(parent, child) => write_edge(sink, parent, child),
        Line::Chunk(part) => write_chunk(sink, Sum::from(part.rate), part.ids),
        Line::Flow(flow) => write_flow(sink, flow),
        Line::Point(size, fee) => write_point(sink, size, fee),
        Line::End => write_word(sink, "end"),
    }
}

/// Goes on with the lines of parts, without their flows.
fn more_chunks<const W: usize, K: Sink>(
    so_far: Result<(), Failed>,
    parts: Order<'_, W>,
    sink: &mut K,
) -> Result<(), Failed>
    ensures { GoesOnLines so_far (K.written sink.old) (K.written sink.new) (K.faults sink.old)
        (K.faults sink.new) result (map chunk_line parts.entry) }
{
    let mut so_far = so_far;
    for part in parts {
        so_far = more(so_far, Line::Chunk(part), sink);
    }
    so_far
}

/// Writes the reply to `order`: the parts in their order, and `end`; or that the level is oversized.
pub(crate) fn write_order<const W: usize, K: Sink>(
    graph: &TxGraph<W>,
    level: Level,
    sink: &mut K,
) -> Result<Outcome, Failed>
    ensures { WritesAnswer (IsReadOfGraph graph.now (commands.Order level)) (K.written sink.old) (K.written sink.new)
        (K.faults sink.old) (K.faults sink.new) result }
{
    if graph.oversized(level) {
        return write_refused(Refusal::Oversized, sink);
    }
    let so_far = more_chunks(Ok(()), graph.order(level), sink);
    told(more(so_far, Line::End, sink), Outcome::Accepted)
}

/// Goes on with the lines of corners.
fn more_points<I: Iterator<Item = (u64, i128)>, K: Sink>(
    so_far: Result<(), Failed>,
    points: I,
    sink: &mut K,
) -> Result<(), Failed>
    requires can { I.can_next points }
    requires ends { IsFinite (I.remaining points) }
    ensures { (list : List (ℕ × ℤ)) → AlwaysYields I.next_gives (λ point. point) points list
        → GoesOnLines so_far (K.written sink.old) (K.written sink.new) (K.faults sink.old) (K.faults sink.new) result
        (map point_line list) }
{
    let mut so_far = so_far;
    for (size, fee) in points {
        so_far = more(so_far, Line::Point(size, fee), sink);
    }
    so_far
}

/// Writes the reply to `diagram`: the corners, and `end`; or that the level is oversized.
pub(crate) fn write_diagram<const W: usize, K: Sink>(
    graph: &TxGraph<W>,
    level: Level,
    sink: &mut K,
) -> Result<Outcome, Failed>
    ensures { WritesAnswer (IsReadOfGraph graph.now (commands.Diagram level)) (K.written sink.old) (K.written sink.new)
        (K.faults sink.old) (K.faults sink.new) result }
{
    if graph.oversized(level) {
        return write_refused(Refusal::Oversized, sink);
    }
    let so_far = more_points(Ok(()), graph.diagram(level), sink);
    told(more(so_far, Line::End, sink), Outcome::Accepted)
}

/// Writes the reply to `chunk`: the part, or the refusal.
pub(crate) fn write_part<K: Sink>(
    found: Result<PartRef<'_>, Refusal>,
    sink: &mut K,
) -> Result<Outcome, Failed>
    ensures { WritesAnswer (λ answer. answer ≡ runs.Replies (part_reply found.entry)) (K.written sink.old)
        (K.written sink.new) (K.faults sink.old) (K.faults sink.new) result }
{
    match found {
        Ok(part) => told(write_line(Line::Chunk(part), sink), Outcome::Accepted),
        Err(why) => write_refused(why, sink),
    }
}

/// Writes why a reading is refused.
fn write_refused<K: Sink>(why: Refusal, sink: &mut K) -> Result<Outcome, Failed>
    ensures { WritesAnswer (λ answer. answer ≡ runs.Replies (Refused why)) (K.written sink.old) (K.written sink.new)
        (K.faults sink.old) (K.faults sink.new) result }
{
    told(write_refusal(sink, &why), Outcome::Refused(why.number()))
}

/// Goes on with the lines of flows.
fn more_flows<K: Sink>(
    so_far: Result<(), Failed>,
    flows: &[Flow],
    sink: &mut K,
) -> Result<(), Failed>
    ensures { GoesOnLines so_far (K.written sink.old) (K.written sink.new) (K.faults sink.old)
        (K.faults sink.new) result (map flow_line flows.now) }
{
    let mut so_far = so_far;
    for flow in flows {
        so_far = more(so_far, Line::Flow(*flow), sink);
    }
    so_far
}

/// Goes on with the lines of parts and of their flows.
fn more_parts<const W: usize, K: Sink>(
    so_far: Result<(), Failed>,
    parts: Order<'_, W>,
    sink: &mut K,
) -> Result<(), Failed>
    ensures { GoesOnLines so_far (K.written sink.old) (K.written sink.new) (K.faults sink.old)
        (K.faults sink.new) result (flat_map part_lines parts.entry) }
{
    let mut so_far = so_far;
    for part in parts {
        so_far = more(so_far, Line::Chunk(part), sink);
        so_far = more_flows(so_far, part.flows, sink);
    }
    so_far
}

/// Goes on with the lines of some transactions of a cluster.
fn more_txs<const W: usize, K: Sink>(
    so_far: Result<(), Failed>,
    cluster: &Component<W>,
    ids: &[TxId],
    sink: &mut K,
) -> Result<(), Failed>
    requires { (id : ℕ) → Contains ids.now id → Contains cluster.now.names id }
    ensures { GoesOnLines so_far (K.written sink.old) (K.written sink.new) (K.faults sink.old)
        (K.faults sink.new) result (map (tx_line_of cluster.now.graph) ids.now) }
{
    let mut so_far = so_far;
    for id in ids {
        so_far = more(so_far, Line::Tx(*id, cluster.rate(*id)), sink);
    }
    so_far
}

/// Goes on with the lines of the transactions of a level.
fn more_all_txs<const W: usize, K: Sink>(
    so_far: Result<(), Failed>,
    graph: &TxGraph<W>,
    level: Level,
    sink: &mut K,
) -> Result<(), Failed>
    requires { IsWithin graph.now.levels level }
    ensures { GoesOnLines so_far (K.written sink.old) (K.written sink.new) (K.faults sink.old) (K.faults sink.new) result
        (map (tx_line_of (level_at graph.now.levels level).graph) (order_of (level_at graph.now.levels level).parts)) }
{
    let mut so_far = so_far;
    for (part, cluster) in graph.held(level) {
        so_far = more_txs(so_far, cluster, part.ids, sink);
    }
    so_far
}

/// Goes on with the lines of the edges from some parents to a child.
fn more_covers<const W: usize, K: Sink>(
    so_far: Result<(), Failed>,
    parents: Covers<'_, W>,
    child: TxId,
    sink: &mut K,
) -> Result<(), Failed>
    ensures { GoesOnLines so_far (K.written sink.old) (K.written sink.new) (K.faults sink.old)
        (K.faults sink.new) result (map (λ parent. edge_line parent child) parents.entry) }
{
    let mut so_far = so_far;
    for parent in parents {
        so_far = more(so_far, Line::Edge(parent, child), sink);
    }
    so_far
}

/// Goes on with the lines of the edges to some transactions of a cluster.
fn more_edges<const W: usize, K: Sink>(
    so_far: Result<(), Failed>,
    cluster: &Component<W>,
    ids: &[TxId],
    sink: &mut K,
) -> Result<(), Failed>
    requires names { (id : ℕ) → Contains ids.now id → Contains cluster.now.names id }
    requires narrow { W ≤ 2 }
    ensures { (edges : List (ℕ × ℕ)) × ListsOwn cluster.now ids.now edges
        × GoesOnLines so_far (K.written sink.old) (K.written sink.new) (K.faults sink.old) (K.faults sink.new) result
        (edges_lines edges) }
{
    let mut so_far = so_far;
    for id in ids {
        so_far = more_covers(so_far, cluster.covers(*id), *id, sink);
    }
    so_far
}

/// Goes on with the lines of the edges to the transactions of a level.
fn more_all_edges<const W: usize, K: Sink>(
    so_far: Result<(), Failed>,
    graph: &TxGraph<W>,
    level: Level,
    sink: &mut K,
) -> Result<(), Failed>
    requires { IsWithin graph.now.levels level }
    ensures { (edges : List (ℕ × ℕ))
        × ListsEach (level_at graph.now.levels level).graph (order_of (level_at graph.now.levels level).parts)
        (order_of (level_at graph.now.levels level).parts) edges
        × GoesOnLines so_far (K.written sink.old) (K.written sink.new) (K.faults sink.old) (K.faults sink.new) result
        (edges_lines edges) }
{
    let mut so_far = so_far;
    for (part, cluster) in graph.held(level) {
        so_far = more_edges(so_far, cluster, part.ids, sink);
    }
    so_far
}

/// Writes the reply to `proof`: the transactions in their order, the edges with nothing between by child, then by parent,
/// the parts with their flows, and `end`; or that the level is oversized.
pub(crate) fn write_proof<const W: usize, K: Sink>(
    graph: &TxGraph<W>,
    level: Level,
    sink: &mut K,
) -> Result<Outcome, Failed>
    ensures { WritesAnswer (IsReadOfGraph graph.now (commands.Proof level)) (K.written sink.old) (K.written sink.new)
        (K.faults sink.old) (K.faults sink.new) result }
{
    if graph.oversized(level) {
        return write_refused(Refusal::Oversized, sink);
    }
    let so_far = more_all_txs(Ok(()), graph, level, sink);
    let so_far = more_all_edges(so_far, graph, level, sink);
    let so_far = more_parts(so_far, graph.order(level), sink);
    told(more(so_far, Line::End, sink), Outcome::Accepted)
}

/// Writes the reply to `dump`: the text of main, which is made whole before its first byte goes out; or the refusal.
pub(crate) fn write_dump<const W: usize, K: Sink>(
    alloc: Global,
    graph: &TxGraph<W>,
    sink: &mut K,
) -> Result<Outcome, Failed>
    ensures { WritesAnswer (IsReadOfGraph graph.now commands.Dump) (K.written sink.old) (K.written sink.new)
        (K.faults sink.old) (K.faults sink.new) result }
{
    match text(alloc, graph) {
        Ok(text) => told(sink.write_all(text.as_slice()), Outcome::Accepted),
        Err(why) => write_refused(why, sink),
    }
}
