use crate::runs::shows;
use replay::Status;
use std::alloc::{AllocError, Global};
use std::test::Fail;

/// Lines that are meant to break the program, and the replies to all of them and to what follows.
const LINES: &str = "limits 0 1 1\nadd 18446744073709551615 1 1\nadd 18446744073709551616 1 1\n\
    add 1 9223372036854775807 1\nadd 1 -9223372036854775809 1\nadd 1 1 1 \nADD 1 1 1\nmine\n";

const MORE_LINES: &str = "\n\r\ncount main\r\r\nmine 1 1\ndep 3 3\n";

const REPLIES: &str =
    "refused range\nok\nrefused syntax\nrefused fee\nrefused syntax\nrefused syntax\nrefused syntax\nrefused syntax\n\
    refused syntax\nrefused syntax\nrefused twice 1\nrefused unknown 3\nrefused twice 1\nrefused line\n";

fn lines() -> (&'static str, &'static str, &'static str) {
    (LINES, MORE_LINES, REPLIES)
}

/// Adds a `mine` of 32,766 times the name 1, a line of 65,536 bytes.
fn push_longest(input: &mut Vec<u8>) -> Result<(), AllocError> {
    input.extend_from_slice(b"mine")?;
    for _ in 0..32_766u64 {
        input.extend_from_slice(b" 1")?;
    }
    Ok(())
}

/// The lines, a line of the byte 255 among them, and at the end the longest one, and the same with a carriage return.
fn hostile(alloc: Global, first: &str, then: &str) -> Result<Vec<u8>, AllocError> {
    let mut input = Vec::new(alloc);
    input.extend_from_slice(first.as_bytes())?;
    input.push(255)?;
    input.extend_from_slice(then.as_bytes())?;
    push_longest(&mut input)?;
    input.push(b'\n')?;
    push_longest(&mut input)?;
    input.extend_from_slice(b"\r\n")?;
    Ok(input)
}

#[test]
fn hostile_lines_are_refused_by_their_names(rt: HostRuntime) -> Result<(), Fail> {
    let (first, then, replies) = lines();
    let input = hostile(rt.alloc(), first, then)?;
    shows(
        &rt,
        rt.alloc(),
        "replay",
        input.as_slice(),
        (Status::Done, replies),
    )
}

/// The most transactions of a certificate.
const MOST: u64 = 1_048_576;

/// A text of so many transactions, without chunks.
fn text(alloc: Global, count: u64) -> Result<String, AllocError> {
    let mut text = String::new(alloc);
    for id in 0..count {
        text.push_str(&format!(in alloc; "tx {id} 1 1\n")?)?;
    }
    text.push_str("end\n")?;
    Ok(text)
}

#[test]
fn a_certificate_has_at_most_1048576_transactions(rt: HostRuntime) -> Result<(), Fail> {
    let alloc = rt.alloc();
    let most = text(alloc, MOST)?;
    let no_order = (Status::No, "no order\n");
    shows(&rt, alloc, "check", most.as_bytes(), no_order)?;
    let more = text(alloc, MOST + 1)?;
    let no_graph = (Status::No, "no graph\n");
    shows(&rt, alloc, "check", more.as_bytes(), no_graph)
}
