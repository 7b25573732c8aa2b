ghost use Rattle.std.specs.Prelude.{◌≡◌, ◌*◌, ◌^◌, ◌<◌, ◌≤◌, length, pos, unsigned_abs, sum_by, IfSome};
ghost use Rattle.arithmetic.specs.Sums.{total};

use bitset::Bits;
use closure_flow::{Outcome, Scratch, smallest_tight, solve, tight};
use std::alloc::Global;
use std::marker::Brand;
use std::process::Abort;
use std::sync::ledger;
use std::sync::ledger::Blank;
use std::test::Fail;
use step_count::{Counted, Ledger, NoLedger, Steps};

// Solves for all places that have a weight: how many places are better, and the least of them, where some are.
fn solved<L: Ledger, const W: usize>(
    scratch: &mut Scratch<W>,
    weights: &[i128],
    parents: &[Bits<W>],
    steps: &mut Steps<L>,
) -> Option<(usize, Option<usize>)>
    requires words { W ≤ 2 }
    requires room { length weights.now ≤ 64 * W }
    requires parents { length parents.now ≡ length weights.now }
    requires sum { total (λ z. z) weights.now ≡ pos 0 }
    requires small { sum_by unsigned_abs weights.now < 2 ^ 126 }
{
    let all = Bits::first_n(weights.len());
    match solve(scratch, weights, parents, all, steps) {
        Outcome::Better(set) => Some((set.count(), set.least())),
        Outcome::Balanced => None,
    }
}

// The same where it is balanced: how many places the least tight set of a place has, and the smallest one of all.
fn tight_sets<L: Ledger, const W: usize>(
    scratch: &mut Scratch<W>,
    weights: &[i128],
    parents: &[Bits<W>],
    place: usize,
    steps: &mut Steps<L>,
) -> Option<(usize, usize)>
    requires words { W ≤ 2 }
    requires place { place < length weights.now }
    requires room { length weights.now ≤ 64 * W }
    requires parents { length parents.now ≡ length weights.now }
    requires sum { total (λ z. z) weights.now ≡ pos 0 }
    requires small { sum_by unsigned_abs weights.now < 2 ^ 126 }
{
    let all = Bits::first_n(weights.len());
    match solve(scratch, weights, parents, all, steps) {
        Outcome::Better(_) => None,
        Outcome::Balanced => {
            let least = tight(scratch, parents, all, place, steps);
            let smallest = smallest_tight(scratch, parents, all, steps);
            Some((least.count(), smallest.count()))
        }
    }
}

// A set of places. No caller needs in its proof which they are.
fn set_of(rt: &impl Abort, places: &[usize]) -> Bits<1> {
    let mut set = Bits::empty();
    for place in places {
        assert!(rt; *place < 64);
        set.insert(*place);
    }
    set
}

// What flows from a child to a parent. It has no clause, since callers would pay for it in their proofs.
fn flow<const W: usize>(scratch: &Scratch<W>, child: usize, parent: usize) -> u128
    requires { W ≤ 2 }
{
    scratch.flow(child, parent)
}

// Compares flows with rows of a child, a parent and an amount.
fn flows_are<const W: usize>(rt: &impl Abort, scratch: &Scratch<W>, rows: &[(usize, usize, u128)])
    requires { W ≤ 2 }
{
    for row in rows {
        assert!(rt; flow(scratch, row.0, row.1) == row.2);
    }
}

// Whether the weights of a solve are what it asks for is asserted, so that rows of any weights have one proof.

// The sum of weights, where it fits.
fn sum_of(weights: &[i128]) -> Option<i128>
    ensures { IfSome result (λ sum. sum ≡ total (λ z. z) weights.now) }
{
    let mut sum: i128 = 0;
    for weight in weights {
        sum = sum.checked_add(*weight)?;
    }
    Some(sum)
}

// The sum of their absolute values, where it fits.
fn size_of(weights: &[i128]) -> Option<u128>
    ensures { IfSome result (λ size. size ≡ sum_by unsigned_abs weights.now) }
{
    let mut size: u128 = 0;
    for weight in weights {
        size = size.checked_add(weight.unsigned_abs())?;
    }
    Some(size)
}

// Asserts that weights sum to 0, and are small.
fn even_out(rt: &impl Abort, weights: &[i128])
    ensures sum { total (λ z. z) weights.now ≡ pos 0 }
    ensures small { sum_by unsigned_abs weights.now < 2 ^ 126 }
{
    let Some(sum) = sum_of(weights) else {
        panic!(rt; "the sum is too large");
    };
    let Some(size) = size_of(weights) else {
        panic!(rt; "the weights are too large");
    };
    assert!(rt; sum == 0);
    assert!(rt; size < 85_070_591_730_234_615_865_843_651_857_942_052_864);
}

// Solves for these weights, as above. This and the next function have no clause, since callers would pay for it in their
// proofs.
fn answer<L: Ledger, const W: usize>(
    rt: &impl Abort,
    scratch: &mut Scratch<W>,
    weights: &[i128],
    parents: &[Bits<W>],
    steps: &mut Steps<L>,
) -> Option<(usize, usize)>
    requires { W ≤ 2 }
{
    assert!(rt; weights.len() <= 64 * W);
    assert!(rt; parents.len() == weights.len());
    even_out(rt, weights);
    match solved(scratch, weights, parents, steps) {
        Some((count, Some(least))) => Some((count, least)),
        Some((_, None)) => panic!(rt; "no place is better"),
        None => None,
    }
}

fn tight_sizes<L: Ledger>(
    rt: &impl Abort,
    scratch: &mut Scratch<1>,
    weights: &[i128],
    parents: &[Bits<1>],
    place: usize,
    steps: &mut Steps<L>,
) -> Option<(usize, usize)> {
    assert!(rt; weights.len() <= 64);
    assert!(rt; parents.len() == weights.len());
    assert!(rt; place < weights.len());
    even_out(rt, weights);
    tight_sets(scratch, weights, parents, place, steps)
}

// The sets of rows of places.
fn sets_of(rt: &impl Abort, alloc: Global, rows: &[&[usize]]) -> Result<Vec<Bits<1>>, Fail> {
    let mut sets = Vec::new(alloc);
    for row in rows {
        sets.push(set_of(rt, row))?;
    }
    Ok(sets)
}

// Weights and the parents of each place, what a solve answers, and flows from a child to a parent after it.
struct Row {
    weights: &'static [i128],
    parents: &'static [&'static [usize]],
    better: Option<(usize, usize)>,
    flows: &'static [(usize, usize, u128)],
}

const MOST: i128 = 42_535_295_865_117_307_932_921_825_928_971_026_431;

static FIRST: [Row; 2] = [
    Row {
        weights: &[160_000, -160_000],
        parents: &[&[], &[0]],
        better: Some((1, 0)),
        flows: &[],
    },
    Row {
        weights: &[-120, 60, 60],
        parents: &[&[], &[0], &[0]],
        better: None,
        flows: &[
            (1, 0, 60),
            (1, 1, 0),
            (1, 2, 0),
            (2, 0, 60),
            (2, 1, 0),
            (2, 2, 0),
            (0, 0, 0),
            (0, 1, 0),
            (0, 2, 0),
        ],
    },
];

static EDGES: [Row; 6] = [
    Row {
        weights: &[],
        parents: &[],
        better: None,
        flows: &[],
    },
    Row {
        weights: &[0],
        parents: &[&[]],
        better: None,
        flows: &[],
    },
    // A chain.
    Row {
        weights: &[-3, 0, 3],
        parents: &[&[], &[0], &[1]],
        better: None,
        flows: &[(2, 1, 3), (1, 0, 3), (2, 0, 0)],
    },
    // Whatever place 3 sends first, in the end it sends to place 1, since place 2 has no other parent than place 0.
    Row {
        weights: &[-1, -1, 1, 1],
        parents: &[&[], &[], &[0], &[0, 1]],
        better: None,
        flows: &[(2, 0, 1), (3, 0, 0), (3, 1, 1)],
    },
    // Place 4 hands all that it has on to place 3, which can give half of it. The other half is taken back.
    Row {
        weights: &[-1, -1, 0, 0, 2],
        parents: &[&[], &[], &[0], &[1], &[2, 3]],
        better: None,
        flows: &[(4, 3, 1), (4, 2, 1), (2, 0, 1)],
    },
    // As much as there may be.
    Row {
        weights: &[-MOST, MOST],
        parents: &[&[], &[0]],
        better: None,
        flows: &[(1, 0, MOST as u128)],
    },
];

fn row_is_answered<L: Ledger>(
    rt: &impl Abort,
    alloc: Global,
    scratch: &mut Scratch<1>,
    steps: &mut Steps<L>,
    row: &Row,
) -> Result<(), Fail> {
    let parents = sets_of(rt, alloc, row.parents)?;
    assert!(rt; answer(rt, scratch, row.weights, &parents, steps) == row.better);
    flows_are(rt, scratch, row.flows);
    Ok(())
}

fn are_answered<L: Ledger>(
    rt: &impl Abort,
    alloc: Global,
    scratch: &mut Scratch<1>,
    steps: &mut Steps<L>,
    rows: &[Row],
) -> Result<(), Fail> {
    for row in rows {
        row_is_answered(rt, alloc, scratch, steps, row)?;
    }
    Ok(())
}

// Each table stands in a function that hands it on and does nothing else, which alone pays for its literals.

fn first<L: Ledger>(
    rt: &impl Abort,
    alloc: Global,
    scratch: &mut Scratch<1>,
    steps: &mut Steps<L>,
) -> Result<(), Fail> {
    are_answered(rt, alloc, scratch, steps, &FIRST)
}

fn edges<L: Ledger>(
    rt: &impl Abort,
    alloc: Global,
    scratch: &mut Scratch<1>,
    steps: &mut Steps<L>,
) -> Result<(), Fail> {
    are_answered(rt, alloc, scratch, steps, &EDGES)
}

fn first_rows<K: ledger::Ledger>(rt: &impl Abort, alloc: Global, blank: Blank) -> Result<(), Fail>
    requires name { blank.name ≡ K.name }
    requires parts { blank.parts ≡ K.parts }
    requires some { 0 < blank.parts }
{
    let mut scratch = Scratch::<1>::new(alloc)?;
    let mut steps = Steps::new(Counted::<K>::new(blank));
    first(rt, alloc, &mut scratch, &mut steps)?;
    assert!(rt; steps.ledger().shown() >= 4);
    Ok(())
}

fn edge_rows<K: ledger::Ledger>(rt: &impl Abort, alloc: Global, blank: Blank) -> Result<(), Fail>
    requires name { blank.name ≡ K.name }
    requires parts { blank.parts ≡ K.parts }
    requires some { 0 < blank.parts }
{
    let mut scratch = Scratch::<1>::new(alloc)?;
    let mut steps = Steps::new(NoLedger::<K>::new(blank));
    edges(rt, alloc, &mut scratch, &mut steps)
}

// Weights and the parents of each place, and a place: the sizes of its least tight set and of the smallest one of all.
struct Cut {
    weights: &'static [i128],
    parents: &'static [&'static [usize]],
    place: usize,
    sizes: Option<(usize, usize)>,
}

static CUTS: [Cut; 5] = [
    // A chain of weights 0.
    Cut {
        weights: &[0, 0, 0],
        parents: &[&[], &[0], &[1]],
        place: 1,
        sizes: Some((2, 1)),
    },
    Cut {
        weights: &[1, 0, -1],
        parents: &[&[], &[0], &[1]],
        place: 1,
        sizes: None,
    },
    // A parent with two children that send it flow.
    Cut {
        weights: &[-2, 1, 1],
        parents: &[&[], &[0], &[0]],
        place: 0,
        sizes: Some((3, 3)),
    },
    // A zigzag that falls in two.
    Cut {
        weights: &[-4, 4, -4, 4],
        parents: &[&[], &[0], &[], &[0, 2]],
        place: 0,
        sizes: Some((2, 2)),
    },
    Cut {
        weights: &[-4, 4, -4, 4],
        parents: &[&[], &[0], &[], &[0, 2]],
        place: 2,
        sizes: Some((4, 2)),
    },
];

fn cuts() -> &'static [Cut] {
    &CUTS
}

fn is_cut<L: Ledger>(
    rt: &impl Abort,
    alloc: Global,
    scratch: &mut Scratch<1>,
    steps: &mut Steps<L>,
    row: &Cut,
) -> Result<(), Fail> {
    let parents = sets_of(rt, alloc, row.parents)?;
    let sizes = tight_sizes(rt, scratch, row.weights, &parents, row.place, steps);
    assert!(rt; sizes == row.sizes);
    Ok(())
}

fn are_cut<L: Ledger>(
    rt: &impl Abort,
    alloc: Global,
    scratch: &mut Scratch<1>,
    steps: &mut Steps<L>,
    rows: &[Cut],
) -> Result<(), Fail> {
    for row in rows {
        is_cut(rt, alloc, scratch, steps, row)?;
    }
    Ok(())
}

fn cut_rows<K: ledger::Ledger>(rt: &impl Abort, alloc: Global, blank: Blank) -> Result<(), Fail>
    requires name { blank.name ≡ K.name }
    requires parts { blank.parts ≡ K.parts }
    requires some { 0 < blank.parts }
{
    let mut scratch = Scratch::<1>::new(alloc)?;
    let mut steps = Steps::new(NoLedger::<K>::new(blank));
    are_cut(rt, alloc, &mut scratch, &mut steps, cuts())
}

// Sets of a place, or of none, for each of 128 places.
fn children() -> [Bits<2>; 128] {
    let mut children = [Bits::<2>::first_n(1); 128];
    children[0] = Bits::empty();
    children
}

// Many children of one parent, in two words.
fn many_send<L: Ledger>(rt: &impl Abort, scratch: &mut Scratch<2>, steps: &mut Steps<L>) {
    let mut sends = [1i128; 128];
    sends[0] = -127;
    assert_eq!(rt; answer(rt, scratch, &sends, &children(), steps), None);
}

fn many_lack<L: Ledger>(rt: &impl Abort, scratch: &mut Scratch<2>, steps: &mut Steps<L>) {
    let mut lacks = [-1i128; 128];
    lacks[0] = 127;
    let better = answer(rt, scratch, &lacks, &children(), steps);
    assert_eq!(rt; better, Some((1, 0)));
}

// Many parents of one child.
fn last_sends<L: Ledger>(rt: &impl Abort, scratch: &mut Scratch<2>, steps: &mut Steps<L>) {
    let mut last_sends = [-1i128; 128];
    last_sends[127] = 127;
    let mut one_child = [Bits::<2>::empty(); 128];
    one_child[127] = Bits::first_n(127);
    assert_eq!(rt; answer(rt, scratch, &last_sends, &one_child, steps), None);
}

fn stars<K: ledger::Ledger>(rt: &impl Abort, alloc: Global, blank: Blank) -> Result<(), Fail>
    requires name { blank.name ≡ K.name }
    requires parts { blank.parts ≡ K.parts }
    requires some { 0 < blank.parts }
{
    let mut scratch = Scratch::<2>::new(alloc)?;
    let mut steps = Steps::new(NoLedger::<K>::new(blank));
    many_send(rt, &mut scratch, &mut steps);
    flows_are(rt, &scratch, &[(64, 0, 1), (127, 0, 1), (127, 64, 0)]);
    many_lack(rt, &mut scratch, &mut steps);
    last_sends(rt, &mut scratch, &mut steps);
    flows_are(rt, &scratch, &[(127, 0, 1), (127, 126, 1), (64, 0, 0)]);
    Ok(())
}

#[test]
fn worked_rows_are_answered(rt: HostRuntime) -> Result<(), Fail> {
    first_rows::<Brand>(&rt, rt.alloc(), Blank::new(1))?;
    edge_rows::<Brand>(&rt, rt.alloc(), Blank::new(1))?;
    stars::<Brand>(&rt, rt.alloc(), Blank::new(1))?;
    cut_rows::<Brand>(&rt, rt.alloc(), Blank::new(1))
}
