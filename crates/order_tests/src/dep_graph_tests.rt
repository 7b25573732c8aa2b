ghost use Rattle.std.specs.Prelude.{◌≡◌, ◌+◌, ◌*◌, ◌^◌, ◌<◌, ◌≤◌};
ghost use Rattle.std.specs.FinSet as set;
ghost use Rattle.graphs.specs.Closures.{HoldsMembers};
ghost use Rattle.bitset.specs.Places.{places};
ghost use Rattle.dep_graph.specs.Changes.{IsRenumbered};

use crate::samples::{add, graph_of, is_in, link};
use bitset::Bits;
use dep_graph::DepGraph;
use fee_rate::FeeRate;
use std::alloc::Global;
use std::process::Abort;
use std::test::Fail;

// The members but one.
fn all_but(graph: &DepGraph<1>, place: usize) -> Bits<1>
    requires { place < 64 }
    ensures { HoldsMembers graph.now result }
{
    let mut rest = graph.members();
    rest.remove(place);
    rest
}

// The members that are in the set too.
fn of_both(graph: &DepGraph<2>, set: &Bits<2>) -> Bits<2>
    ensures { HoldsMembers graph.now result }
{
    graph.members().meet(set)
}

fn covers(rt: &impl Abort, graph: &DepGraph<1>, place: usize) -> Bits<1> {
    assert!(rt; place < 64);
    assert!(rt; is_in(graph, place));
    graph.covers(place)
}

// How many covers a place has, and the least of them. Neither has a clause, since callers would pay for it in their proofs.

fn cover_count(rt: &impl Abort, graph: &DepGraph<1>, place: usize) -> usize {
    covers(rt, graph, place).count()
}

fn least_cover(rt: &impl Abort, graph: &DepGraph<1>, place: usize) -> Option<usize> {
    covers(rt, graph, place).least()
}

// One above two above one, and the pair that they imply.
fn diamond(rt: &impl Abort, alloc: Global) -> Result<DepGraph<1>, Fail> {
    let rates = [(7, 1), (7, 2), (7, 3), (7, 4)];
    let pairs = [(0, 1), (0, 2), (1, 3), (2, 3), (0, 3)];
    graph_of(rt, alloc, &rates, &pairs)
}

// What is asked of a graph and done to it. None of these has a clause, since callers would pay for it in their proofs.

fn rate(rt: &impl Abort, graph: &DepGraph<1>, place: usize) -> FeeRate {
    assert!(rt; place < 64);
    assert!(rt; is_in(graph, place));
    graph.rate(place)
}

fn descendants(rt: &impl Abort, graph: &DepGraph<1>, place: usize) -> usize {
    assert!(rt; place < 64);
    assert!(rt; is_in(graph, place));
    graph.descendants(place).count()
}

fn remove(rt: &impl Abort, graph: &mut DepGraph<1>, place: usize) {
    assert!(rt; place < 64);
    assert!(rt; is_in(graph, place));
    graph.remove_bridging(place);
}

fn set_fee(rt: &impl Abort, graph: &mut DepGraph<1>, place: usize, fee: i64) {
    assert!(rt; place < 64);
    assert!(rt; is_in(graph, place));
    graph.set_fee(place, fee);
}

fn members(graph: &DepGraph<2>) -> Bits<2> {
    graph.members()
}

fn count<const W: usize>(graph: &DepGraph<W>) -> usize {
    graph.members().count()
}

fn part_without(alloc: Global, graph: &DepGraph<1>, place: usize) -> Result<DepGraph<1>, Fail>
    requires { place < 64 }
{
    Ok(graph.part(alloc, all_but(graph, place))?)
}

fn part_of(alloc: Global, graph: &DepGraph<2>, set: &Bits<2>) -> Result<DepGraph<2>, Fail> {
    Ok(graph.part(alloc, of_both(graph, set))?)
}

fn merged(
    rt: &impl Abort,
    alloc: Global,
    first: &DepGraph<1>,
    second: &DepGraph<1>,
) -> Result<DepGraph<1>, Fail> {
    assert!(rt; second.members().count() < 32);
    assert!(rt; first.members().count() < 32);
    Ok(first.merge(alloc, second)?)
}

fn merged_wide(
    rt: &impl Abort,
    alloc: Global,
    left: &DepGraph<2>,
    right: &DepGraph<2>,
) -> Result<DepGraph<2>, Fail> {
    assert!(rt; left.members().count() <= 60);
    assert!(rt; right.members().count() <= 68);
    Ok(left.merge(alloc, right)?)
}

// How many places the component of a member has, without another member.
fn component_without(rt: &impl Abort, graph: &DepGraph<1>, place: usize, out: usize) -> usize {
    assert!(rt; out < 64);
    let rest = all_but(graph, out);
    assert!(rt; place < 64);
    assert!(rt; rest.has(place));
    graph.component(place, rest).count()
}

// The covers of a graph, after members go.
fn covers_change(rt: &impl Abort, graph: &mut DepGraph<1>) {
    assert!(rt; cover_count(rt, graph, 3) == 2);
    assert!(rt; least_cover(rt, graph, 3) == Some(1));
    assert!(rt; descendants(rt, graph, 0) == 4);
    remove(rt, graph, 1);
    assert!(rt; least_cover(rt, graph, 3) == Some(2));
    remove(rt, graph, 2);
    assert!(rt; least_cover(rt, graph, 3) == Some(0));
}

// A member comes at the least place that is free, and its fee changes.
fn member_comes(rt: &impl Abort, graph: &mut DepGraph<1>) -> Result<(), Fail> {
    let place = add(rt, graph, -3, 9)?;
    assert!(rt; place == 1);
    set_fee(rt, graph, 1, 8);
    assert!(rt; rate(rt, graph, 1) == FeeRate { fee: 8, size: 9 });
    Ok(())
}

#[test]
fn covers_leave_out_what_others_imply(rt: HostRuntime) -> Result<(), Fail> {
    let mut graph = diamond(&rt, rt.alloc())?;
    covers_change(&rt, &mut graph);
    member_comes(&rt, &mut graph)
}

fn part_is_numbered(rt: &impl Abort, part: &DepGraph<1>) {
    assert!(rt; count(part) == 3);
    assert!(rt; least_cover(rt, part, 2) == Some(1));
}

fn whole_is_numbered(rt: &impl Abort, whole: &DepGraph<1>) {
    assert!(rt; count(whole) == 7);
    assert!(rt; rate(rt, whole, 6) == FeeRate { fee: 7, size: 4 });
    assert!(rt; least_cover(rt, whole, 6) == Some(4));
    assert!(rt; component_without(rt, whole, 5, 3) == 3);
}

// The part of a graph without a member, and both side by side.
fn part_and_whole(rt: &impl Abort, alloc: Global, graph: &DepGraph<1>) -> Result<(), Fail> {
    let part = part_without(alloc, graph, 1)?;
    part_is_numbered(rt, &part);
    let whole = merged(rt, alloc, &part, graph)?;
    whole_is_numbered(rt, &whole);
    Ok(())
}

#[test]
fn places_are_numbered_anew(rt: HostRuntime) -> Result<(), Fail> {
    let graph = diamond(&rt, rt.alloc())?;
    part_and_whole(&rt, rt.alloc(), &graph)
}

// The plain program of places numbered anew: one look at each place, for each set. Those of the set that `within`
// holds, where the places of `within` are numbered from `first` on.
fn renumbered<const W: usize>(old: &Bits<W>, within: &Bits<W>, first: usize) -> Bits<W>
    requires room { first + set.len within.now ≤ 64 * W }
    requires fits { first + set.len within.now < 2 ^ 64 }
    ensures { IsRenumbered (places (64 * W) within.now) first old.now result }
{
    let mut numbers = Bits::empty();
    let mut number = first;
    for place in within.iter() {
        if old.has(place) {
            numbers.insert(number);
        }
        number += 1;
    }
    numbers
}

// The sets of these places, as the plain program numbers them from `first` on, are those of the numbered graph.
fn compare(
    rt: &impl Abort,
    graph: &DepGraph<2>,
    within: Bits<2>,
    numbered: &DepGraph<2>,
    first: usize,
) {
    assert!(rt; first <= 128);
    assert!(rt; within.count() <= 128 - first);
    let mut number = first;
    for place in within.iter() {
        assert!(rt; place < 128);
        assert!(rt; number < 128);
        assert!(rt; is_in(graph, place));
        assert!(rt; is_in(numbered, number));
        let up = renumbered(&graph.ancestors(place), &within, first);
        assert!(rt; up.is_subset(&numbered.ancestors(number)));
        assert!(rt; numbered.ancestors(number).is_subset(&up));
        let down = renumbered(&graph.descendants(place), &within, first);
        assert!(rt; down.is_subset(&numbered.descendants(number)));
        assert!(rt; numbered.descendants(number).is_subset(&down));
        number += 1;
    }
}

// So many members, of which each but the first depends on the one at half its place.
fn halves(rt: &impl Abort, alloc: Global, count: usize) -> Result<DepGraph<2>, Fail> {
    let mut graph = DepGraph::new(alloc);
    for place in 0..count {
        add(rt, &mut graph, 1, 1)?;
        if place > 0 {
            link(rt, &mut graph, place / 2, place);
        }
    }
    Ok(graph)
}

// Drops each place that leaves this remainder.
fn thin(rt: &impl Abort, graph: &mut DepGraph<2>, divisor: usize, remainder: usize) {
    assert!(rt; divisor > 0);
    for place in 0..128 {
        if place % divisor == remainder && is_in(graph, place) {
            graph.remove_bridging(place);
        }
    }
}

fn thinned(
    rt: &impl Abort,
    alloc: Global,
    count: usize,
    row: (usize, usize),
) -> Result<DepGraph<2>, Fail> {
    let mut graph = halves(rt, alloc, count)?;
    thin(rt, &mut graph, row.0, row.1);
    Ok(graph)
}

// The part of a graph that a row leaves.
fn part_case(
    rt: &impl Abort,
    alloc: Global,
    whole: &DepGraph<2>,
    row: (usize, usize),
) -> Result<(), Fail> {
    let rest = thinned(rt, alloc, 128, row)?;
    let part = part_of(alloc, whole, &members(&rest))?;
    compare(rt, whole, of_both(whole, &members(&rest)), &part, 0);
    Ok(())
}

fn both_are_numbered(
    rt: &impl Abort,
    alloc: Global,
    left: &DepGraph<2>,
    right: &DepGraph<2>,
) -> Result<(), Fail> {
    let both = merged_wide(rt, alloc, left, right)?;
    compare(rt, left, members(left), &both, 0);
    compare(rt, right, members(right), &both, count(left));
    Ok(())
}

// What a row leaves of two graphs, side by side.
fn merge_case(rt: &impl Abort, alloc: Global, row: (usize, usize)) -> Result<(), Fail> {
    let left = thinned(rt, alloc, 60, row)?;
    let right = thinned(rt, alloc, 68, row)?;
    both_are_numbered(rt, alloc, &left, &right)
}

const ROWS: [(usize, usize); 7] = [
    (1, 0),
    (2, 0),
    (2, 1),
    (3, 1),
    (64, 63),
    (127, 1),
    (128, 127),
];

fn rows() -> &'static [(usize, usize)] {
    &ROWS
}

fn rows_are_numbered(rt: &impl Abort, alloc: Global, whole: &DepGraph<2>) -> Result<(), Fail> {
    for row in rows() {
        part_case(rt, alloc, whole, *row)?;
        merge_case(rt, alloc, *row)?;
    }
    Ok(())
}

// Places that lie as far apart as they can, or side by side but for one, at either end and across words.
#[test]
fn places_are_numbered_as_the_plain_program_does(rt: HostRuntime) -> Result<(), Fail> {
    let whole = halves(&rt, rt.alloc(), 128)?;
    rows_are_numbered(&rt, rt.alloc(), &whole)
}
