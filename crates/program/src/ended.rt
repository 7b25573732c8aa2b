ghost use Rattle.std.specs.Prelude.{◌≡◌};
ghost use Rattle.std.specs.Process.{exit_status};
ghost use Rattle.replay.specs.Statuses.{status_code};
ghost use Rattle.program.specs.Endings.{Ends};

use crate::words::words;
use outside::{NoMemory, Sink, Source};
use replay::{Status, run};
use std::alloc::Global;
use std::env::Args;
use std::io;
use std::io::Eprint;
use std::marker::Model;
use std::process::{ExitCode, Termination};

/// How the program ended, and its source and its sink as they are then. `ended_run` alone makes one, so whoever gives one
/// back has run the program over such a source and such a sink, and hides nothing of how that went.
#[derive(Drop)]
pub struct EndedRun<S, K> {
    status: Status,
    source: S,
    sink: K,
}

impl<S, K> Model for EndedRun<S, K> {
    ghost use Rattle.program.specs.Endings.{Ending};

    ghost Value = { Ending S K };

    ghost view = { λ a. record { status = a.status; source = a.source; sink = a.sink } };
}

impl<S: Drop, K: Drop> Termination for EndedRun<S, K> {
    /// The exit status is that of the status.
    fn report<R: Eprint>(self, _rt: &R) -> ExitCode
        ensures { exit_status result ≡ status_code self.status }
    {
        ExitCode::from(self.status.code())
    }
}

/// Runs the program over what the system gives as the words of the command line.
pub fn ended_run<S: Source, K: Sink>(
    alloc: Global,
    given: io::Result<Args>,
    mut source: S,
    mut sink: K,
) -> EndedRun<S, K>
    ensures { Ends S.left S.faults K.written K.faults given source sink result }
{
    let status = match words(alloc, given) {
        Ok(words) => run(alloc, &words, &mut source, &mut sink),
        Err(NoMemory) => Status::NoMemory,
    };
    EndedRun {
        status,
        source,
        sink,
    }
}
