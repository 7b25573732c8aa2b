ghost use Rattle.std.specs.Prelude.{◌≡◌, ℕ, ◌*◌, ◌<◌, ◌≤◌, true, length, slice_index, map, Contains, IfOk, OnOk};
ghost use Rattle.std.specs.FinSet as set;
ghost use Rattle.lists.specs.Walks.{Walk};
ghost use Rattle.bitset.specs.Places.{IsWithin, places};
ghost use Rattle.graphs.specs.Closures.{IsNear};
ghost use Rattle.cluster.specs.Clusters.{IsCluster};
ghost use Rattle.cluster.specs.Named.{named, IsNamed};
ghost use Rattle.cluster.specs.Changes.{IsSame, IsPartOf};
ghost use Rattle.cluster.specs.Kept.{IsOrdered};
ghost use Rattle.cluster.specs.Steps.{GrowsWithin, most_steps};
ghost use Rattle.graphs.specs.Certificates.{Part};
ghost use Rattle.graphs.specs.Picks.{FollowOrder, links_of};
ghost use Rattle.linearize.specs.Known.{IsKnown};
ghost use Rattle.cluster.specs.Guesses.{AreSound};

use crate::cluster::Cluster;
use crate::guess::guess_part;
use crate::members::copy_names;
use crate::order::{Order, lone, read};
use crate::work::{Room, Work};
use bitset::Bits;
use dep_graph::DepGraph;
use graphs::TxId;
use linearize::{Guess, optimal_near};
use outside::NoMemory;
use smallvec::SmallVec;
use std::alloc::Global;
use step_count::{Ledger, Steps};

/// The cluster of a dependency graph whose places have these names, with an optimal order, of which the guess has known parts.
pub(crate) fn certified<L: Ledger, const W: usize>(
    alloc: Global,
    names: SmallVec<TxId, 2>,
    dep: DepGraph<W>,
    guess: &Guess,
    room: &mut Room<W>,
    steps: &mut Steps<L>,
) -> Result<Cluster<W>, NoMemory>
    requires named { IsNamed (64 * W) names.items dep }
    requires known { AreSound names.items dep guess.now.parts.items guess.now.places.items guess.now.flows.items }
    ensures names { IfOk result (λ c. c.names ≡ names.items) }
    ensures graph { IfOk result (λ c. c.graph ≡ named names.items dep.entry) }
    ensures whole { IfOk result (IsCluster (64 * W)) }
    ensures steps { GrowsWithin (most_steps (length names.items)) steps.old steps.new }
    ensures alone { length names.items ≡ 1 → steps.new ≡ steps.old }
{
    let order = ordered(alloc, names.as_slice(), &dep, guess, room, steps)?;
    Ok(Cluster { names, dep, order })
}

// An optimal order of a dependency graph, by the names of its places.
fn ordered<L: Ledger, const W: usize>(
    alloc: Global,
    names: &[TxId],
    dep: &DepGraph<W>,
    guess: &Guess,
    room: &mut Room<W>,
    steps: &mut Steps<L>,
) -> Result<Order, NoMemory>
    requires named { IsNamed (64 * W) names.now dep.now }
    requires known { AreSound names.now dep.now guess.now.parts.items guess.now.places.items guess.now.flows.items }
    ensures order { IfOk result (λ o. IsOrdered names.now dep.now o.parts.items o.names.items o.flows.items) }
    ensures steps { GrowsWithin (most_steps (length names.now)) steps.old steps.new }
    ensures alone { length names.now ≡ 1 → steps.new ≡ steps.old }
{
    if names.len() == 1 {
        return lone(alloc, names[0], dep.rate(0));
    }
    solved(alloc, names, dep, guess, room, steps)
}

// The order that the solver finds, with what is known of it.
fn solved<L: Ledger, const W: usize>(
    alloc: Global,
    names: &[TxId],
    dep: &DepGraph<W>,
    guess: &Guess,
    room: &mut Room<W>,
    steps: &mut Steps<L>,
) -> Result<Order, NoMemory>
    requires named { IsNamed (64 * W) names.now dep.now }
    requires known { AreSound names.now dep.now guess.now.parts.items guess.now.places.items guess.now.flows.items }
    ensures order { IfOk result (λ o. IsOrdered names.now dep.now o.parts.items o.names.items o.flows.items) }
    ensures steps { GrowsWithin (most_steps (length names.now)) steps.old steps.new }
{
    optimal_near(
        &mut room.scratch,
        dep,
        guess,
        &mut room.linear,
        &mut room.froms,
        steps,
    );
    read(
        alloc,
        names,
        &room.linear,
        room.froms.as_slice(),
        guess.flows.as_slice(),
        room.positions.as_mut_slice(),
        &mut room.flows,
    )
}

/// The same dependency graph once more.
pub(crate) fn copied<const W: usize>(
    alloc: Global,
    names: &[TxId],
    dep: &DepGraph<W>,
) -> Result<DepGraph<W>, NoMemory>
    requires { IsNamed (64 * W) names.now dep.now }
    ensures same { IfOk result (IsSame dep.now) }
    ensures named { IfOk result (IsNamed (64 * W) names.now) }
{
    dep.part(alloc, dep.members())
}

/// The cluster of the places of a component, with their names. What is known of the parts of the old cluster helps to order it.
pub(crate) fn part<L: Ledger, const W: usize>(
    alloc: Global,
    names: &[TxId],
    dep: &DepGraph<W>,
    old: &Cluster<W>,
    chosen: Bits<W>,
    work: &mut Work<W>,
    steps: &mut Steps<L>,
) -> Result<Cluster<W>, NoMemory>
    requires named { IsNamed (64 * W) names.now dep.now }
    requires known { (part : Part) → Contains old.now.parts part → IsKnown (named names.now dep.now) part }
    requires follow { (part : Part) → Contains old.now.parts part → FollowOrder part.ids (links_of part.flows) }
    requires within { IsWithin (length names.now) chosen }
    requires some { (p : ℕ) × (set.contains chosen p ≡ true) }
    requires whole { (p q : ℕ) → set.contains chosen p ≡ true → set.contains chosen q ≡ true
        → Walk (IsNear dep.now chosen) p q }
    ensures names { IfOk result (λ c. c.names ≡ map (slice_index names.now) (places (64 * W) chosen.entry)) }
    ensures part { IfOk result (λ c. IsPartOf names.now (named names.now dep.now) chosen.entry c.names c.graph) }
    ensures whole { IfOk result (IsCluster (64 * W)) }
    ensures steps { GrowsWithin (most_steps (length (places (64 * W) chosen.entry))) steps.old steps.new }
{
    let mut own = SmallVec::new(alloc);
    copy_names(&mut own, names, &chosen)?;
    guess_part(old, own.as_slice(), &mut work.guess);
    let dep = dep.part(alloc, chosen)?;
    certified(alloc, own, dep, &work.guess, &mut work.room, steps)
}
