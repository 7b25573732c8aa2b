ghost use Rattle.std.specs.Prelude.{◌≡◌, ◌+◌, ◌<◌, ◌≤◌, [], ◌∷◌, ◌++◌, length, map, slice_index, slice_set, IfOk, OnOk};
ghost use Rattle.places.specs.Chains.{AreChains, AreWithin, turned};
ghost use Rattle.certificate.specs.Groups.{AreGroups, AreOfGroup, GoBothWays, GoesOn, HasGroup};
ghost use Rattle.certificate.specs.Groups.{IsGrouping, work_of};

use places::{Chains, linked};
use std::alloc::{AllocError, Global};

/// Groups of places, as far as walks along pairs have come.
#[derive(Drop)]
pub(crate) struct Walk {
    /// For each place its group, which is a place; the count of places stands for none.
    groups: Vec<usize>,
    /// Places of the walk's group whose pairs are still to be looked at.
    waiting: Vec<usize>,
}

/// For each place a place of its component, the same for all of one component.
pub(crate) fn groups_of(
    alloc: Global,
    count: usize,
    pairs: &[(usize, usize)],
) -> Result<Vec<usize>, AllocError>
    requires { AreWithin count pairs.now }
    ensures sized { IfOk result (λ groups. length groups.items ≡ count) }
    ensures groups { IfOk result (λ groups. AreGroups pairs.now groups.items) }
{
    let steps = both_ways(alloc, pairs)?;
    let chains = linked(alloc, count, steps.as_slice())?;
    let groups = vec![in alloc; count; count]?;
    let mut walk = Walk {
        groups,
        waiting: Vec::new(alloc),
    };
    for place in 0..count {
        walk_from(&mut walk, steps.as_slice(), &chains, place)?;
    }
    Ok(walk.groups)
}

/// The pairs, and each of them turned round.
fn both_ways(alloc: Global, pairs: &[(usize, usize)]) -> Result<Vec<(usize, usize)>, AllocError>
    ensures { IfOk result (λ steps. steps.items ≡ pairs.now ++ map turned pairs.now) }
{
    let mut steps = pairs.to_vec(alloc)?;
    for pair in pairs {
        steps.push((pair.1, pair.0))?;
    }
    Ok(steps)
}

/// Makes a group of a place and all that it is connected to, unless it has one.
fn walk_from(
    walk: &mut Walk,
    steps: &[(usize, usize)],
    chains: &Chains,
    place: usize,
) -> Result<(), AllocError>
    requires place_in { place < length walk.old.groups.items }
    requires steps_in { AreWithin (length walk.old.groups.items) steps.now }
    requires both { GoBothWays steps.now }
    requires sized { length chains.now.last.items ≡ length walk.old.groups.items }
    requires chains { AreChains steps.now chains.now.last.items chains.now.before.items }
    requires grouping { let groups = walk.old.groups.items in
        IsGrouping steps.now (length groups) groups walk.old.waiting.items }
    requires none { walk.old.waiting.items ≡ [] }
    ensures goes_on { let old = walk.old.groups.items in let new = walk.new in
        IfOk result (λ _. GoesOn steps.now (length old) place old new.groups.items new.waiting.items) }
    ensures none { IfOk result (λ _. walk.new.waiting.items ≡ []) }
    ensures grouped { IfOk result (λ _. HasGroup (length walk.old.groups.items) walk.new.groups.items place) }
{
    reach(walk, place, place)?;
    while let Some(from) = walk.waiting.pop() {
        look_around(walk, steps, chains, from)?;
    }
    Ok(())
}

/// Gives the neighbours of a place its group. Those that had none wait then.
fn look_around(
    walk: &mut Walk,
    steps: &[(usize, usize)],
    chains: &Chains,
    from: usize,
) -> Result<(), AllocError>
    requires from_in { from < length walk.old.groups.items }
    requires grouped { HasGroup (length walk.old.groups.items) walk.old.groups.items from }
    requires steps_in { AreWithin (length walk.old.groups.items) steps.now }
    requires both { GoBothWays steps.now }
    requires sized { length chains.now.last.items ≡ length walk.old.groups.items }
    requires chains { AreChains steps.now chains.now.last.items chains.now.before.items }
    requires grouping { let groups = walk.old.groups.items in
        IsGrouping steps.now (length groups) groups (from ∷ walk.old.waiting.items) }
    requires together { let groups = walk.old.groups.items in
        AreOfGroup (length groups) groups (slice_index groups from) walk.old.waiting.items }
    ensures goes_on { let old = walk.old.groups.items in let new = walk.new in
        IfOk result (λ _. GoesOn steps.now (length old) (slice_index old from) old new.groups.items new.waiting.items) }
    ensures work { let old = walk.old in let new = walk.new in let count = length old.groups.items in
        IfOk result (λ _. work_of count new.groups.items new.waiting.items
        ≤ work_of count old.groups.items old.waiting.items) }
{
    let group = walk.groups[from];
    let mut left = chains.last[from];
    while left > 0 {
        reach(walk, steps[left - 1].0, group)?;
        left = chains.before[left - 1];
    }
    Ok(())
}

/// Gives a place a group and lets it wait, unless it has one.
fn reach(walk: &mut Walk, place: usize, group: usize) -> Result<(), AllocError>
    requires { place < length walk.old.groups.items }
    ensures had { let old = walk.old in let new = walk.new in HasGroup (length old.groups.items) old.groups.items place
        → OnOk result ((new.groups.items ≡ old.groups.items) × (new.waiting.items ≡ old.waiting.items)) }
    ensures had_none { let old = walk.old in let new = walk.new in
        slice_index old.groups.items place ≡ length old.groups.items
        → OnOk result ((new.groups.items ≡ slice_set old.groups.items place group)
        × (new.waiting.items ≡ old.waiting.items ++ place ∷ [])) }
{
    if walk.groups[place] != walk.groups.len() {
        return Ok(());
    }
    walk.waiting.push(place)?;
    walk.groups[place] = group;
    Ok(())
}
