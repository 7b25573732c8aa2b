ghost use Rattle.std.specs.Prelude.{◌≡◌, ℕ, ◌*◌, ◌+◌, ◌<◌, ◌≤◌, ◌++◌, [], ◌∷◌, None, true, length, get_or, slice_index, map, take, drop, ◌-◌, Contains, IfOk, IfSome, OnOk};
ghost use Rattle.std.specs.List.Sorted.{IsPermutation};
ghost use Rattle.lists.specs.Distinct.{AreDistinct};
ghost use Rattle.cluster.specs.Orders.{at_positions, named_at, AreRising, AreBelow, AreWithin, IsNoLater, AddsFlows, AddsPart, IsPlaced, IsReadOf, StandAt};
ghost use Rattle.cluster.specs.Kept.{end_of, no_end, sum_in};
ghost use Rattle.linearize.specs.Graphs.{sum_from};

use fee_rate::FeeRate;
use graphs::{Flow, TxId};
use linearize::{Linear, LinearPart, OldPart, PlaceFlow};
use outside::NoMemory;
use smallvec::SmallVec;
use std::alloc::Global;

/// The total fee of a part in satoshis, its total size in virtual bytes, and the positions before which its names end among
/// the names of an order and its flows among the flows.
#[derive(Clone, Copy, Default)]
pub(crate) struct PartEnd {
    pub(crate) fee: i64,
    pub(crate) size: u64,
    pub(crate) end: usize,
    pub(crate) flow_end: usize,
}

/// An order in parts: its names, of each part its rate and where its names and its flows end, and the flows.
#[derive(Drop)]
pub(crate) struct Order {
    pub(crate) names: SmallVec<TxId, 2>,
    pub(crate) parts: SmallVec<PartEnd, 1>,
    pub(crate) flows: Vec<Flow>,
}

/// The items from one position on, before another.
pub(crate) fn between<T>(items: &[T], from: usize, to: usize) -> &[T]
    requires start { from ≤ to }
    requires end { to ≤ length items.now }
    ensures { result.now ≡ take (to - from) (drop from items.now) }
{
    &items[from..to]
}

/// The end of the part before the one at a position, where that one begins. Before the first part all is zero.
pub(crate) fn end_before(parts: &[PartEnd], at: usize) -> PartEnd
    requires { at < length parts.now }
    ensures { result ≡ get_or (no_end ∷ parts.now) at no_end }
{
    if at == 0 {
        return PartEnd::default();
    }
    parts[at - 1]
}

/// The fee and the size of a part.
pub(crate) fn rate_in(part: PartEnd) -> FeeRate
    ensures { sum_from result ≡ sum_in part }
{
    FeeRate {
        fee: part.fee,
        size: part.size,
    }
}

/// The order of a name alone.
pub(crate) fn lone(alloc: Global, id: TxId, rate: FeeRate) -> Result<Order, NoMemory>
    ensures names { IfOk result (λ o. o.names.items ≡ id ∷ []) }
    ensures parts { IfOk result (λ o. o.parts.items ≡ record { fee = rate.fee; size = rate.size; end = 1; flow_end = 0 } ∷ []) }
    ensures flows { IfOk result (λ o. o.flows.items ≡ []) }
{
    let mut names = SmallVec::new(alloc);
    names.push(id)?;
    let mut parts = SmallVec::new(alloc);
    parts.push(PartEnd {
        fee: rate.fee,
        size: rate.size,
        end: 1,
        flow_end: 0,
    })?;
    Ok(Order {
        names,
        parts,
        flows: Vec::new(alloc),
    })
}

/// The same order once more.
pub(crate) fn copied_order(alloc: Global, order: &Order) -> Result<Order, NoMemory>
    ensures names { IfOk result (λ o. o.names.items ≡ order.now.names.items) }
    ensures parts { IfOk result (λ o. o.parts.items ≡ order.now.parts.items) }
    ensures flows { IfOk result (λ o. o.flows.items ≡ order.now.flows.items) }
{
    let mut flows = Vec::with_capacity(alloc, order.flows.len())?;
    flows.extend_from_slice(order.flows.as_slice())?;
    Ok(Order {
        names: SmallVec::from_slice(alloc, order.names.as_slice())?,
        parts: SmallVec::from_slice(alloc, order.parts.as_slice())?,
        flows,
    })
}

/// An order of places, by the names of the places. The flows of each part stand by child, then by parent, in the order's
/// positions. Those of an old part are copied from where they are kept.
pub(crate) fn read<const W: usize>(
    alloc: Global,
    names: &[TxId],
    linear: &Linear<W>,
    froms: &[Option<OldPart>],
    known: &[Flow],
    positions: &mut [usize],
    moved: &mut Vec<PlaceFlow>,
) -> Result<Order, NoMemory>
    requires room { length names.now ≤ length positions.old }
    requires placed { IsPlaced (length names.now) linear.now }
    requires within { AreWithin froms.now known.now }
    ensures { IfOk result (λ o. IsReadOf names.now froms.now known.now linear.now o.parts.items o.names.items o.flows.items) }
{
    stand(linear.order(), positions);
    let order = names_at(alloc, names, linear.order())?;
    let own_names = order.as_slice();
    let shown = linear.parts();
    let all = linear.flows();
    let mut parts = SmallVec::with_capacity(alloc, shown.len())?;
    let mut flows = Vec::with_capacity(alloc, all.len().saturating_add(count_kept(froms)))?;
    let mut from = 0;
    for at in 0..shown.len() {
        let part = shown[at];
        add_part(
            from_at(froms, at),
            between(all, from, part.flow_end),
            positions,
            own_names,
            known,
            moved,
            &mut flows,
        )?;
        parts.push_reserved(end_of(part, flows.len()));
        from = part.flow_end;
    }
    Ok(Order {
        names: order,
        parts,
        flows,
    })
}

// The old part that the part at a position is, if any.
fn from_at(froms: &[Option<OldPart>], at: usize) -> Option<OldPart>
    ensures { result ≡ get_or froms.now at None }
{
    if at < froms.len() { froms[at] } else { None }
}

// How many flows the old parts have. It says only how much room to take.
fn count_kept(froms: &[Option<OldPart>]) -> usize {
    let mut count: usize = 0;
    for at in 0..froms.len() {
        if let Some(old) = froms[at] {
            count = count.saturating_add(old.flow_end.saturating_sub(old.flow_start));
        }
    }
    count
}

// A part's fee and size, and where it ends.
fn end_of(part: LinearPart, flow_end: usize) -> PartEnd
    ensures { result ≡ end_of part flow_end }
{
    PartEnd {
        fee: part.rate.fee,
        size: part.rate.size,
        end: part.end,
        flow_end,
    }
}

// Keeps where each place of an order stands.
fn stand(order: &[usize], positions: &mut [usize])
    requires once { AreDistinct order.now }
    requires within { (p : ℕ) → Contains order.now p → p < length positions.old }
    ensures { StandAt order.now positions.new }
{
    for at in 0..order.len() {
        positions[order[at]] = at;
    }
}

// The names of places.
fn names_at(alloc: Global, names: &[TxId], places: &[usize]) -> Result<SmallVec<TxId, 2>, NoMemory>
    requires { (p : ℕ) → Contains places.now p → p < length names.now }
    ensures { IfOk result (λ order. order.items ≡ map (slice_index names.now) places.now) }
{
    let mut order = SmallVec::with_capacity(alloc, places.len())?;
    for at in 0..places.len() {
        order.push_reserved(names[places[at]]);
    }
    Ok(order)
}

// Adds the flows of a part by names: those of an old part as they are kept, others by child and then by parent in the order's
// positions.
fn add_part(
    old_part: Option<OldPart>,
    own: &[PlaceFlow],
    positions: &[usize],
    order: &[TxId],
    known: &[Flow],
    moved: &mut Vec<PlaceFlow>,
    flows: &mut Vec<Flow>,
) -> Result<(), NoMemory>
    requires there { AreBelow (length positions.now) own.now }
    requires within { AreBelow (length order.now) (map (at_positions positions.now) own.now) }
    requires kept { IfSome old_part (λ from. (from.flow_start ≤ from.flow_end) × (from.flow_end ≤ length known.now)) }
    ensures { OnOk result (AddsPart old_part own.now positions.now order.now known.now flows.old.items flows.new.items) }
{
    match old_part {
        // a name that stands alone has no flows
        Some(old) if old.flow_start == old.flow_end => Ok(()),
        Some(old) => {
            flows.extend_from_slice(between(known, old.flow_start, old.flow_end))?;
            Ok(())
        }
        None => add_flows(own, positions, order, moved, flows),
    }
}

// Adds the flows of a part by names, by child and then by parent in the order's positions.
fn add_flows(
    own: &[PlaceFlow],
    positions: &[usize],
    order: &[TxId],
    moved: &mut Vec<PlaceFlow>,
    flows: &mut Vec<Flow>,
) -> Result<(), NoMemory>
    requires there { AreBelow (length positions.now) own.now }
    requires within { AreBelow (length order.now) (map (at_positions positions.now) own.now) }
    ensures { OnOk result (AddsFlows own.now positions.now order.now flows.old.items flows.new.items) }
{
    if rise(own, positions) {
        name_risen(own, positions, order, flows)?;
        return Ok(());
    }
    move_flows(own, positions, moved)?;
    sort_flows(moved);
    name_flows(moved.as_slice(), order, flows)
}

// Whether flows stand by child and then by parent in the order's positions, as those of a part that was known do.
fn rise(own: &[PlaceFlow], positions: &[usize]) -> bool
    requires { AreBelow (length positions.now) own.now }
    ensures { result ≡ true → AreRising (map (at_positions positions.now) own.now) }
{
    for at in 1..own.len() {
        if !is_no_later(own[at - 1], own[at], positions) {
            return false;
        }
    }
    true
}

// Whether a flow stands no later than another, by child and then by parent in the order's positions.
fn is_no_later(a: PlaceFlow, b: PlaceFlow, positions: &[usize]) -> bool
    requires a { (a.child < length positions.now) × (a.parent < length positions.now) }
    requires b { (b.child < length positions.now) × (b.parent < length positions.now) }
    ensures { result ≡ true → IsNoLater (at_positions positions.now a) (at_positions positions.now b) }
{
    let child = positions[a.child];
    let other = positions[b.child];
    if child != other {
        return child < other;
    }
    positions[a.parent] <= positions[b.parent]
}

// Adds flows by the names of their places, which stand at positions.
fn name_risen(
    own: &[PlaceFlow],
    positions: &[usize],
    order: &[TxId],
    flows: &mut Vec<Flow>,
) -> Result<(), NoMemory>
    requires there { AreBelow (length positions.now) own.now }
    requires within { AreBelow (length order.now) (map (at_positions positions.now) own.now) }
    ensures { OnOk result (flows.new.items ≡ flows.old.items ++ map (named_at order.now) (map (at_positions positions.now) own.now)) }
{
    for at in 0..own.len() {
        let flow = own[at];
        flows.push(Flow {
            child: order[positions[flow.child]],
            parent: order[positions[flow.parent]],
            amount: flow.amount,
        })?;
    }
    Ok(())
}

// Leaves flows by the positions of their places.
fn move_flows(
    own: &[PlaceFlow],
    positions: &[usize],
    moved: &mut Vec<PlaceFlow>,
) -> Result<(), NoMemory>
    requires { AreBelow (length positions.now) own.now }
    ensures { OnOk result (moved.new.items ≡ map (at_positions positions.now) own.now) }
{
    moved.clear();
    for at in 0..own.len() {
        let flow = own[at];
        moved.push(PlaceFlow {
            child: positions[flow.child],
            parent: positions[flow.parent],
            amount: flow.amount,
        })?;
    }
    Ok(())
}

// Puts flows in their order: by child, then by parent.
fn sort_flows(moved: &mut Vec<PlaceFlow>)
    ensures same { IsPermutation moved.old.items moved.new.items }
    ensures rises { AreRising moved.new.items }
{
    moved.sort_unstable_by_key(|flow| (flow.child, flow.parent));
}

// Adds flows by the names at their positions.
fn name_flows(moved: &[PlaceFlow], order: &[TxId], flows: &mut Vec<Flow>) -> Result<(), NoMemory>
    requires { AreBelow (length order.now) moved.now }
    ensures { OnOk result (flows.new.items ≡ flows.old.items ++ map (named_at order.now) moved.now) }
{
    for at in 0..moved.len() {
        let flow = moved[at];
        flows.push(Flow {
            child: order[flow.child],
            parent: order[flow.parent],
            amount: flow.amount,
        })?;
    }
    Ok(())
}
