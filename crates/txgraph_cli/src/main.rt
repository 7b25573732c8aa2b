//! The program `txgraph`: its input is standard input, its output standard output.
#![tactic(auto)]

use program::{Ended, start};

fn main(rt: HostRuntime) -> Ended {
    start(&rt)
}
