//! A node's mempool in a few calls of the library: transactions come in, a package among them; a replacement is tried in a staging and
//! settled by its diagram; a block is filled chunk by chunk and by one call; the worst chunk goes. It prints what the calls answered.
//!
//! Fees are in satoshis, sizes in virtual bytes.
#![tactic(auto)]

mod day;

use day::{Day, live_through};
use std::io;
use std::marker::Brand;
use std::sync::ledger::Blank;

fn main(rt: HostRuntime) -> io::Result<()> {
    let (day, steps) = live_through::<Brand>(rt.alloc(), Blank::new(1));
    match day {
        Ok(day) => tell(&rt, &day)?,
        Err(why) => println!(rt; "refused {}", why.word())?,
    }
    println!(rt; "steps of the solver: {}", steps)
}

fn tell(rt: &HostRuntime, day: &Day) -> io::Result<()> {
    println!(rt; "the replacement is {:?}", day.verdict)?;
    println!(rt; "a block by hand: {:?}", day.by_hand)?;
    println!(rt;
        "a block by one call: {:?}, {} sat, {} vB",
        day.block.ids.as_slice(),
        day.block.fee,
        day.block.size
    )?;
    println!(rt;
        "evicted: {:?}, {} sat, {} vB",
        day.evicted.ids.as_slice(),
        day.evicted.fee,
        day.evicted.size
    )?;
    println!(rt; "left: {} transactions", day.left)
}
