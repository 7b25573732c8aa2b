//! The program again, run on a text that is no certificate: it says so, and ends with status 1.
#![tactic(auto)]

use program::{Ended, start};

fn main(rt: HostRuntime) -> Ended {
    start(&rt)
}
