//! Clusters of as many names as there may be: joined, split, given other fees, mined, taken back, trimmed, evicted and emptied.
use crate::runs::{Script, answers, begun, tell};
use std::alloc::{AllocError, Global};
use std::process::Abort;
use std::test::Fail;

/// Adds names with rising fees, each of one virtual byte.
fn add_all(alloc: Global, script: &mut Script, count: u64) -> Result<(), AllocError> {
    for id in 1..=count {
        tell(script, &format!(in alloc; "add {id} {id} 1")?, "ok")?;
    }
    Ok(())
}

/// Makes the name before the first of a range the parent of each name of it.
fn spread(alloc: Global, script: &mut Script, first: u64, last: u64) -> Result<(), AllocError> {
    for child in first..=last {
        let parent = first.saturating_sub(1);
        tell(script, &format!(in alloc; "dep {parent} {child}")?, "ok")?;
    }
    Ok(())
}

/// Makes each name of a range but the last the parent of the next.
fn chain(alloc: Global, script: &mut Script, first: u64, last: u64) -> Result<(), AllocError> {
    for parent in first..last {
        let child = parent.saturating_add(1);
        tell(script, &format!(in alloc; "dep {parent} {child}")?, "ok")?;
    }
    Ok(())
}

/// A word and the names of a range.
fn listed(alloc: Global, word: &str, first: u64, last: u64) -> Result<String, AllocError> {
    let mut line = String::from_str(alloc, word)?;
    for id in first..=last {
        line.push_str(&format!(in alloc; " {id}")?)?;
    }
    Ok(line)
}

/// Two halves of so many names, each a name with children, are joined and get one pair more; then the cluster gets another fee, loses
/// the first name, which splits it, and is emptied by a block that comes back.
fn halves(alloc: Global, count: u64) -> Result<Script, AllocError> {
    let half = count / 2;
    let other = half.saturating_add(1);
    let beside = other.saturating_add(1);
    let mut script = begun(
        alloc,
        &format!(in alloc; "limits {count} 512000000 1000")?,
        "ok",
    )?;
    add_all(alloc, &mut script, count)?;
    spread(alloc, &mut script, 2, half)?;
    spread(alloc, &mut script, beside, count)?;
    tell(&mut script, &format!(in alloc; "dep 1 {other}")?, "ok")?;
    tell(&mut script, &format!(in alloc; "dep 2 {beside}")?, "ok")?;
    tell(
        &mut script,
        "cluster 1 main",
        &listed(alloc, "ids", 1, count)?,
    )?;
    tell(&mut script, "fee 1 1000000", "ok")?;
    tell(&mut script, "remove 1", "ok")?;
    tell(&mut script, "cluster 3 main", "ids 3")?;
    let rest = listed(alloc, "", other, count)?;
    tell(
        &mut script,
        "cluster 2 main",
        &format!(in alloc; "ids 2{rest}")?,
    )?;
    let mine = listed(alloc, "mine", 2, count)?;
    tell(&mut script, &mine, "ok")?;
    tell(&mut script, "count main", "count 0")?;
    let unmined = listed(alloc, "unmined", 2, count)?;
    tell(&mut script, "unmine", &unmined)?;
    tell(
        &mut script,
        "cluster 2 main",
        &format!(in alloc; "ids 2{rest}")?,
    )?;
    Ok(script)
}

/// A chain of one name more than may be in a cluster is cut back, put into a block, and dropped as one chunk.
fn longest(alloc: Global, count: u64) -> Result<Script, AllocError> {
    let more = count.saturating_add(1);
    let fee = count.saturating_mul(more) / 2;
    let mut script = begun(
        alloc,
        &format!(in alloc; "limits {count} 512000000 1000 defer")?,
        "ok",
    )?;
    add_all(alloc, &mut script, more)?;
    chain(alloc, &mut script, 1, more)?;
    tell(&mut script, "order main", "refused oversized")?;
    tell(
        &mut script,
        "trim",
        &format!(in alloc; "trimmed {more} 1 {more}")?,
    )?;
    let names = listed(alloc, "", 1, count)?;
    tell(
        &mut script,
        &format!(in alloc; "block {count}")?,
        &format!(in alloc; "block {fee} {count}{names}")?,
    )?;
    tell(
        &mut script,
        "evict",
        &format!(in alloc; "evicted {fee} {count}{names}")?,
    )?;
    tell(&mut script, "count main", "count 0")?;
    Ok(script)
}

#[test]
fn a_cluster_of_64_is_joined_split_and_emptied(rt: HostRuntime) -> Result<(), Fail> {
    answers(&rt, rt.alloc(), &halves(rt.alloc(), 64)?)
}

#[test]
fn a_cluster_of_128_is_joined_split_and_emptied(rt: HostRuntime) -> Result<(), Fail> {
    answers(&rt, rt.alloc(), &halves(rt.alloc(), 128)?)
}

#[test]
fn a_cluster_over_the_limit_is_cut_back_and_evicted(rt: HostRuntime) -> Result<(), Fail> {
    answers(&rt, rt.alloc(), &longest(rt.alloc(), 64)?)?;
    answers(&rt, rt.alloc(), &longest(rt.alloc(), 128)?)
}
