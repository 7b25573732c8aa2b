//! What is read of a level, as lists that can be handed out in pieces.
ghost use Rattle.std.specs.Prelude.{◌≡◌, ◌++◌, [], map, Contains, IfOk, OnOk};
ghost use Rattle.cluster.specs.Clusters.{Cluster};
ghost use Rattle.cluster_store.specs.Lent.{lent};
ghost use Rattle.record.specs.Records.{IsConnected};
ghost use Rattle.desk.specs.Copies.{AddsGroup, AddsPart, AreGrouped, IsListed, flow_words, rate_words};

use crate::telling::{Rate, WORD};
use cluster::PartRef;
use graph_model::{Flow, TxId};
use outside::NoMemory;
use std::alloc::Global;
use tx_graph::{Components, Covers, Names, Numbered, Order, Rates};

/// A chunk: its fee in satoshis, its size in virtual bytes, and how many transactions and flows it has.
#[repr(C)]
#[derive(Clone, Copy)]
pub struct PartHead {
    pub fee: i64,
    pub size: u64,
    pub ids: usize,
    pub flows: usize,
}

/// An amount, in satoshis times virtual bytes, that goes from a child to a parent of the same chunk: 2^64 · `high` + `low`.
#[repr(C)]
#[derive(Clone, Copy)]
pub struct FlowWords {
    pub child: u64,
    pub parent: u64,
    pub high: u64,
    pub low: u64,
}

/// Chunks, their transactions, and their flows, each in the order of the chunks.
#[derive(Drop)]
pub struct Listing {
    pub heads: Vec<PartHead>,
    pub ids: Vec<TxId>,
    pub flows: Vec<FlowWords>,
}

impl Listing {
    /// No chunk. Takes no memory.
    pub fn new(alloc: Global) -> Listing
        ensures { IsListed [] result }
    {
        Listing {
            heads: Vec::new(alloc),
            ids: Vec::new(alloc),
            flows: Vec::new(alloc),
        }
    }
}

/// The chunks of an order.
pub fn list_parts(alloc: Global, parts: Order<'_, 2>) -> Result<Listing, NoMemory>
    ensures { IfOk result (IsListed parts.entry) }
{
    let mut list = Listing::new(alloc);
    for part in parts {
        put_part(&mut list, part)?;
    }
    Ok(list)
}

/// Puts a chunk behind the others.
fn put_part(list: &mut Listing, part: PartRef<'_>) -> Result<(), NoMemory>
    ensures { OnOk result (AddsPart (lent part.entry) list.old list.new) }
{
    list.heads.push(PartHead {
        fee: part.rate.fee,
        size: part.rate.size,
        ids: part.ids.len(),
        flows: part.flows.len(),
    })?;
    list.ids.extend_from_slice(part.ids)?;
    put_flows(&mut list.flows, part.flows)
}

/// Puts flows behind the others.
fn put_flows(list: &mut Vec<FlowWords>, flows: &[Flow]) -> Result<(), NoMemory>
    ensures { OnOk result (list.new.items ≡ list.old.items ++ map flow_words flows.now) }
{
    for flow in flows {
        list.push(words_of(*flow))?;
    }
    Ok(())
}

/// A flow in words of 64 bits.
fn words_of(flow: Flow) -> FlowWords
    ensures { result ≡ flow_words flow }
{
    FlowWords {
        child: flow.child,
        parent: flow.parent,
        high: (flow.amount / WORD) as u64,
        low: (flow.amount % WORD) as u64,
    }
}

/// Fees and sizes, in their order.
pub fn list_rates(alloc: Global, rates: Rates<'_>) -> Result<Vec<Rate>, NoMemory>
    ensures { IfOk result (λ list. list.items ≡ map rate_words rates.entry) }
{
    let mut list = Vec::new(alloc);
    for rate in rates {
        list.push(Rate {
            fee: rate.fee,
            size: rate.size,
        })?;
    }
    Ok(list)
}

/// The numbers of the clusters of chunks, in their order.
pub fn list_numbers(alloc: Global, parts: Numbered<'_, 2>) -> Result<Vec<usize>, NoMemory>
    ensures { IfOk result (λ list. list.items ≡ map (λ s. s.number) parts.entry) }
{
    let mut list = Vec::new(alloc);
    for shown in parts {
        list.push(shown.number)?;
    }
    Ok(list)
}

/// The transactions that a walk gives.
pub fn list_names(alloc: Global, names: Names<'_, 2>) -> Result<Vec<TxId>, NoMemory>
    ensures { IfOk result (λ list. list.items ≡ names.entry) }
{
    let mut list = Vec::new(alloc);
    for id in names {
        list.push(id)?;
    }
    Ok(list)
}

/// The parents that a walk gives.
pub fn list_covers(alloc: Global, covers: Covers<'_, 2>) -> Result<Vec<TxId>, NoMemory>
    ensures { IfOk result (λ list. list.items ≡ covers.entry) }
{
    let mut list = Vec::new(alloc);
    for id in covers {
        list.push(id)?;
    }
    Ok(list)
}

/// Lists of transactions: how many each has, and the transactions of one after the other.
#[derive(Drop)]
pub struct Groups {
    pub counts: Vec<usize>,
    pub ids: Vec<TxId>,
}

/// The transactions of each component that a walk lends.
pub fn list_components(alloc: Global, components: Components<'_, 2>) -> Result<Groups, NoMemory>
    ensures listed { IfOk result (AreGrouped (map (λ c. c.names) components.entry)) }
    ensures whole { IfOk result (λ _. (c : Cluster) → Contains components.entry c → IsConnected c) }
{
    let mut list = Groups {
        counts: Vec::new(alloc),
        ids: Vec::new(alloc),
    };
    for record in components {
        put_names(&mut list, record.names())?;
    }
    Ok(list)
}

/// Puts a list behind the others.
fn put_names(list: &mut Groups, names: &[TxId]) -> Result<(), NoMemory>
    ensures { OnOk result (AddsGroup names.now list.old list.new) }
{
    list.counts.push(names.len())?;
    list.ids.extend_from_slice(names)?;
    Ok(())
}
