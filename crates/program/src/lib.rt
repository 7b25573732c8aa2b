//! The program as the system runs it: the words of the command line, standard input, standard output and the exit
//! status. Each `main` is the one call of `start`.
#![tactic(auto)]

mod ended;
mod words;

ghost use Rattle.program.specs.Endings.{IsStarted};

pub use ended::{EndedRun, ended_run};
use outside::{ReadSource, WriteSink};
use std::env;
use std::rt::{Stdin, Stdout};

/// How the program ended over standard input and standard output.
pub type Ended = EndedRun<ReadSource<Stdin>, WriteSink<Stdout>>;

/// Runs the program over the words of the command line, standard input and standard output. What these give can't be
/// named here: for some words, and for a reader and a writer without a fault before, it ends as `ended_run` says.
pub fn start(rt: &HostRuntime) -> Ended
    ensures { IsStarted result }
{
    let source = ReadSource::new(rt.stdin());
    let sink = WriteSink::new(rt.stdout());
    ended_run(rt.alloc(), env::args(rt), source, sink)
}
