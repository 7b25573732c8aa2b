//! Whether a text in memory is a certificate.
ghost use Rattle.desk.specs.Verdicts.{Checks};

use desk::verifying::check_text;
use std::alloc::Global;

/// Whether the bytes are the text of a certificate: transactions, dependencies, and an order in chunks with the flows that show that no closed
/// set pays more than their diagram. Needs no graph.
///
/// # Errors
///
/// - 36, 37, 38, 39, 40: no, and the first test that fails: syntax, graph, order, falling, flow.
/// - 18: there is no memory; this may come before any other. 41: there are more than 268,435,456 bytes.
#[unsafe(no_mangle)]
pub extern "C" fn txgraph_check(alloc: Global, bytes: &[u8]) -> u32
    ensures { Checks bytes.now result }
{
    check_text(alloc, bytes)
}
