//! The program again, run with a word too many: it writes the usage line, and ends with status 2.
#![tactic(auto)]

use program::{Ended, start};

fn main(rt: HostRuntime) -> Ended {
    start(&rt)
}
