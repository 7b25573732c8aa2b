//! Graphs of many names: dumped, loaded, and cut back as one component over the limits.
ghost use Rattle.std.specs.Prelude.{◌<◌};

use crate::runs::{Script, answers, begun, shows, tell};
use replay::Status;
use std::alloc::{AllocError, Global};
use std::test::Fail;

/// How many names the graphs have: a power of two.
const NAMES: u64 = 16_384;

/// The limit of a component that is cut back.
const KEPT: u64 = 64;

/// The fee of a name: the first has the greatest.
fn fee_of(id: u64) -> u64 {
    NAMES.saturating_add(1).saturating_sub(id)
}

/// Adds all names.
fn add_all(alloc: Global, script: &mut Script) -> Result<(), AllocError> {
    for id in 1..=NAMES {
        let fee = fee_of(id);
        tell(script, &format!(in alloc; "add {id} {fee} 1")?, "ok")?;
    }
    Ok(())
}

/// Joins each two neighbouring chains of 2^shift names.
fn join(alloc: Global, script: &mut Script, shift: u32) -> Result<(), AllocError>
    requires { shift < 32 }
{
    let long = 1_u64 << shift;
    let step = 2_u64 << shift;
    for at in 0..NAMES >> shift >> 1 {
        let parent = at.saturating_mul(step).saturating_add(long);
        let child = parent.saturating_add(1);
        tell(script, &format!(in alloc; "dep {parent} {child}")?, "ok")?;
    }
    Ok(())
}

/// Makes one chain of all names, by halves.
fn chain(alloc: Global, script: &mut Script) -> Result<(), AllocError> {
    for shift in 0..14_u32 {
        join(alloc, script, shift)?;
    }
    Ok(())
}

/// A word, a fee and a size, and the names of a range.
fn listed(alloc: Global, head: &str, first: u64, last: u64) -> Result<String, AllocError> {
    let mut line = String::from_str(alloc, head)?;
    for id in first..=last {
        line.push_str(&format!(in alloc; " {id}")?)?;
    }
    Ok(line)
}

/// The sum of the numbers of a range.
fn sum(first: u64, last: u64) -> u64 {
    let mut sum: u64 = 0;
    for id in first..=last {
        sum = sum.saturating_add(id);
    }
    sum
}

/// One component over the limits loses all names but the first ones, with a staging open that is dropped, and then for good.
fn cut_back(alloc: Global) -> Result<Script, AllocError> {
    let limits = format!(in alloc; "limits {KEPT} 404000 1048576 defer")?;
    let mut script = begun(alloc, &limits, "ok")?;
    add_all(alloc, &mut script)?;
    chain(alloc, &mut script)?;
    let count = NAMES - KEPT;
    let gone = sum(1, count);
    let reply = listed(
        alloc,
        &format!(in alloc; "trimmed {gone} {count}")?,
        KEPT + 1,
        NAMES,
    )?;
    tell(&mut script, "stage", "ok")?;
    tell(&mut script, "trim", &reply)?;
    tell(&mut script, "abort", "ok")?;
    tell(&mut script, "order main", "refused oversized")?;
    tell(&mut script, "trim", &reply)?;
    tell(
        &mut script,
        "count main",
        &format!(in alloc; "count {KEPT}")?,
    )?;
    Ok(script)
}

#[test]
fn a_component_of_16384_names_is_cut_back(rt: HostRuntime) -> Result<(), Fail> {
    answers(&rt, rt.alloc(), &cut_back(rt.alloc())?)
}

/// The text of a graph of many names without dependencies.
fn text(alloc: Global) -> Result<String, AllocError> {
    let mut text = String::new(alloc);
    for id in 1..=NAMES {
        let fee = fee_of(id);
        text.push_str(&format!(in alloc; "tx {id} {fee} 1\n")?)?;
    }
    Ok(text)
}

/// The proof of its order: its transactions, and each as a chunk.
fn proof(alloc: Global, text: &str) -> Result<String, AllocError> {
    let mut proof = String::from_str(alloc, text)?;
    for id in 1..=NAMES {
        let fee = fee_of(id);
        proof.push_str(&format!(in alloc; "chunk {fee} 1 {id}\n")?)?;
    }
    proof.push_str("end\n")?;
    Ok(proof)
}

#[test]
fn a_graph_of_16384_names_loads(rt: HostRuntime) -> Result<(), Fail> {
    let mut text = text(rt.alloc())?;
    let proof = proof(rt.alloc(), &text)?;
    text.push_str("end\n")?;
    shows(
        &rt,
        rt.alloc(),
        "load",
        text.as_bytes(),
        (Status::Done, &proof),
    )
}

/// Names that come in one by one, and the text of main.
fn dumped(alloc: Global) -> Result<Script, AllocError> {
    let mut script = begun(alloc, "count main", "count 0")?;
    add_all(alloc, &mut script)?;
    let text = text(alloc)?;
    tell(&mut script, "dump", &format!(in alloc; "{text}end")?)?;
    Ok(script)
}

#[test]
fn a_graph_of_16384_names_is_dumped(rt: HostRuntime) -> Result<(), Fail> {
    answers(&rt, rt.alloc(), &dumped(rt.alloc())?)
}
