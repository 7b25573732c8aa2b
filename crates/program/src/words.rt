ghost use Rattle.program.specs.Endings.{AreTaken};

use outside::NoMemory;
use std::alloc::Global;
use std::env::Args;
use std::io;

/// The words of the command line as a list: all of them, whole and in order. Where one of them isn't text there are
/// none, so that they are refused as a whole.
pub(crate) fn words(alloc: Global, given: io::Result<Args>) -> Result<Vec<String>, NoMemory>
    ensures { AreTaken given result }
{
    match given {
        Ok(args) => Ok(args.collect(alloc)?),
        Err(error) if error.kind() == io::ErrorKind::OutOfMemory => Err(NoMemory),
        Err(_) => Ok(Vec::new(alloc)),
    }
}
