ghost use Rattle.std.specs.Prelude.{◌≡◌, [], ◌∷◌, ◌++◌, map, MatchResult};
ghost use Rattle.wire.specs.declared.texts.fault.TextFault.TheVariants.{Memory};
ghost use Rattle.wire.specs.Rows.{tx_row, edge_row, rows_of};
ghost use Rattle.certificate.specs.Parts.{part_of};
ghost use Rattle.wire.specs.Drafts.{open_part, written, Continues, Finishes};

use super::fault::TextFault;
use super::row::Row;
use certificate::{EdgeList, FlowList, Part, PartList, TxList, Written};
use fee_rate::Sum;
use graph_model::{Flow, IdList, TxId};
use std::alloc::Global;

/// A certificate text: a graph as it was written, and parts with flows. Nothing is tested but the form.
#[derive(Debug, Drop)]
pub struct CertText {
    /// Fees are in satoshis, sizes in virtual bytes.
    pub graph: Written,
    /// Each part has one name or more. Amounts are 1 to 10^30, in satoshis times virtual bytes.
    pub parts: PartList,
}

/// A part whose flows are still to come.
#[derive(Debug, Drop)]
pub(crate) struct OpenPart {
    rate: Sum,
    ids: IdList,
    flows: Vec<Flow>,
}

impl OpenPart {
    /// A part whose chunk line came.
    fn new(alloc: Global, rate: Sum, ids: IdList) -> OpenPart
        ensures { open_part result ≡ record { rate = rate; ids = ids; flows = [] } }
    {
        OpenPart {
            rate,
            ids,
            flows: Vec::new(alloc),
        }
    }

    /// The part with the flows that came.
    fn closed(self) -> Part
        ensures { part_of result ≡ open_part self }
    {
        let OpenPart { rate, ids, flows } = self;
        Part {
            rate,
            ids,
            flows: FlowList::from_vec(flows),
        }
    }
}

/// A certificate text as far as it was read, by the section that it is in.
#[derive(Debug, Drop)]
pub(crate) enum Draft {
    /// Transactions, then edges.
    Graph(Vec<(TxId, i64, u64)>, Vec<(TxId, TxId)>),
    /// The graph, the parts that are whole, and the one that isn't yet.
    Parts(Written, Vec<Part>, OpenPart),
    Ended(CertText),
}

impl Draft {
    /// The draft before the first line.
    pub(crate) fn new(alloc: Global) -> Draft
        ensures { written result ≡ [] }
    {
        Draft::Graph(Vec::new(alloc), Vec::new(alloc))
    }

    /// The draft with one more line. `Syntax`: no text has this line there.
    pub(crate) fn with(self, alloc: Global, row: Row) -> Result<Draft, TextFault>
        ensures { Continues (written self) row result }
    {
        match self {
            Draft::Graph(txs, edges) => after_graph(alloc, txs, edges, row),
            Draft::Parts(graph, parts, last) => after_part(alloc, graph, parts, last, row),
            Draft::Ended(_) => Err(TextFault::Syntax),
        }
    }

    /// The whole text, where its end came.
    pub(crate) fn finished(self) -> Result<CertText, TextFault>
        ensures { Finishes (written self) result }
    {
        match self {
            Draft::Graph(_, _) => Err(TextFault::Syntax),
            Draft::Parts(_, _, _) => Err(TextFault::Syntax),
            Draft::Ended(text) => Ok(text),
        }
    }
}

/// The draft with a line that follows transactions and edges.
fn after_graph(
    alloc: Global,
    txs: Vec<(TxId, i64, u64)>,
    edges: Vec<(TxId, TxId)>,
    row: Row,
) -> Result<Draft, TextFault>
    ensures { Continues (written (Draft.Graph txs edges)) row result }
{
    match row {
        Row::Tx(id, fee, size) => with_tx(txs, edges, (id, fee, size)),
        Row::Edge(parent, child) => with_edge(txs, edges, (parent, child)),
        Row::Chunk(rate, ids) => Ok(Draft::Parts(
            graph_of(txs, edges),
            Vec::new(alloc),
            OpenPart::new(alloc, rate, ids),
        )),
        Row::Flow(_) => Err(TextFault::Syntax),
        Row::End => Ok(ended(graph_of(txs, edges), Vec::new(alloc))),
    }
}

/// The draft with a transaction, which may follow transactions alone.
fn with_tx(
    mut txs: Vec<(TxId, i64, u64)>,
    edges: Vec<(TxId, TxId)>,
    tx: (TxId, i64, u64),
) -> Result<Draft, TextFault>
    ensures { Continues (written (Draft.Graph txs edges)) (tx_row tx) result }
{
    if !edges.is_empty() {
        return Err(TextFault::Syntax);
    }
    match txs.push(tx) {
        Ok(()) => Ok(Draft::Graph(txs, edges)),
        Err(_) => Err(TextFault::Memory),
    }
}

/// The draft with an edge, which may follow transactions and edges.
fn with_edge(
    txs: Vec<(TxId, i64, u64)>,
    mut edges: Vec<(TxId, TxId)>,
    edge: (TxId, TxId),
) -> Result<Draft, TextFault>
    ensures { Continues (written (Draft.Graph txs edges)) (edge_row edge) result }
{
    match edges.push(edge) {
        Ok(()) => Ok(Draft::Graph(txs, edges)),
        Err(_) => Err(TextFault::Memory),
    }
}

/// The draft with a line that follows a part's chunk and flows.
fn after_part(
    alloc: Global,
    graph: Written,
    parts: Vec<Part>,
    last: OpenPart,
    row: Row,
) -> Result<Draft, TextFault>
    ensures { Continues (written (Draft.Parts graph parts last)) row result }
{
    match row {
        Row::Chunk(rate, ids) => match with_part(parts, last) {
            Ok(parts) => Ok(Draft::Parts(graph, parts, OpenPart::new(alloc, rate, ids))),
            Err(fault) => Err(fault),
        },
        Row::Flow(flow) => match with_flow(last, flow) {
            Ok(last) => Ok(Draft::Parts(graph, parts, last)),
            Err(fault) => Err(fault),
        },
        Row::End => match with_part(parts, last) {
            Ok(parts) => Ok(ended(graph, parts)),
            Err(fault) => Err(fault),
        },
        Row::Tx(_, _, _) | Row::Edge(_, _) => Err(TextFault::Syntax),
    }
}

/// The parts with one more, whose flows all came.
fn with_part(mut parts: Vec<Part>, last: OpenPart) -> Result<Vec<Part>, TextFault>
    ensures { MatchResult result
        (λ more. map part_of more.items ≡ map part_of parts.items ++ open_part last ∷ []) (λ fault. fault ≡ Memory) }
{
    match parts.push(last.closed()) {
        Ok(()) => Ok(parts),
        Err(_) => Err(TextFault::Memory),
    }
}

/// The part with one more flow.
fn with_flow(mut part: OpenPart, flow: Flow) -> Result<OpenPart, TextFault>
    ensures { MatchResult result
        (λ more. open_part more ≡ record { rate = part.rate; ids = part.ids; flows = part.flows.items ++ flow ∷ [] })
        (λ fault. fault ≡ Memory) }
{
    match part.flows.push(flow) {
        Ok(()) => Ok(part),
        Err(_) => Err(TextFault::Memory),
    }
}

/// What was written of transactions and edges.
fn graph_of(txs: Vec<(TxId, i64, u64)>, edges: Vec<(TxId, TxId)>) -> Written
    ensures txs { result.txs ≡ txs.items }
    ensures edges { result.edges ≡ edges.items }
{
    Written {
        txs: TxList::from_vec(txs),
        edges: EdgeList::from_vec(edges),
    }
}

/// A draft whose end came.
fn ended(graph: Written, parts: Vec<Part>) -> Draft
    ensures { written result ≡ rows_of
        (record { txs = graph.txs; edges = graph.edges; parts = map part_of parts.items }) }
{
    Draft::Ended(CertText {
        graph,
        parts: PartList::from_vec(parts),
    })
}
