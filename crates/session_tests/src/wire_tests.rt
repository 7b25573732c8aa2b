use fee_rate::Sum;
use graph_model::{Flow, IdBuf, Level, Limits, Place, Refusal, TxId, Verdict};
use outside::{Failed, MemSink};
use std::alloc::Global;
use std::process::Abort;
use std::test::Fail;
use wire::{
    CertText, Line, TextFault, place_word, read_certificate, read_line, settled_words,
    verdict_word, write_chunk, write_edge, write_flow, write_ids, write_point, write_refusal,
    write_tx, write_word,
};

// Tables and long texts stand in functions that lend them, and rows are run by reference: a function that names a
// table pays in its proof for each byte of it.

/// What a line says, read with room for as many names as a line can list. No test needs more of the contract.
fn read(rt: &impl Abort, ids: &mut IdBuf, line: &[u8]) -> Line {
    assert!(rt; line.len() <= 65_536);
    assert!(rt; ids.capacity() >= 32_766);
    read_line(line, ids)
}

/// A line, and what it says.
type Reading = (&'static str, Line);

const BOUNDS: Limits = Limits {
    count: 0,
    size: 1,
    total: 18_446_744_073_709_551_615,
    defer: false,
};

const DEFERRED: Limits = Limits {
    count: 0,
    size: 1,
    total: 18_446_744_073_709_551_615,
    defer: true,
};

const READINGS: [Reading; 33] = [
    ("", Line::Quiet),
    ("\r", Line::Quiet),
    ("#add 1 1 1", Line::Quiet),
    ("limits 0 1 18446744073709551615", Line::Limits(BOUNDS)),
    (
        "limits 0 1 18446744073709551615 defer",
        Line::Limits(DEFERRED),
    ),
    ("limits 1 1 1  defer", Line::Syntax),
    ("limits 1 1 defer", Line::Syntax),
    ("trim", Line::Trim),
    ("unmine\r", Line::Unmine),
    ("unmine 1", Line::Syntax),
    ("dump", Line::Dump),
    ("add 1 -2 3\r", Line::Add(1, -2, 3)),
    ("dep 1 2", Line::Dep(1, 2)),
    ("fee 1 -2", Line::Fee(1, -2)),
    ("remove 1", Line::Remove(1)),
    ("mine 1", Line::Mine),
    ("mine 3 1 2\r", Line::Mine),
    ("evict", Line::Evict),
    ("stage", Line::Stage),
    ("commit", Line::Commit),
    ("abort", Line::Abort),
    ("settle", Line::Settle),
    ("compare", Line::Compare),
    ("order main", Line::Order(Level::Main)),
    ("diagram top", Line::Diagram(Level::Top)),
    ("proof main", Line::Proof(Level::Main)),
    ("cluster 1 top", Line::Cluster(1, Level::Top)),
    ("ancestors 1 main", Line::Ancestors(1, Level::Main)),
    ("descendants 1 top", Line::Descendants(1, Level::Top)),
    ("chunk 1", Line::Chunk(1)),
    ("before 1 2", Line::Before(1, 2)),
    ("block 1", Line::Block(1)),
    ("count main", Line::Count(Level::Main)),
];

fn readings() -> &'static [Reading] {
    &READINGS
}

/// Lines of no form.
const FORMLESS: [&str; 17] = [
    "mine",
    "mine ",
    "mine 1 ",
    "mine 1  2",
    "mine 1 x",
    "evict 1",
    "evict ",
    " evict",
    "Evict",
    "evict\r\r",
    "order",
    "order mai",
    "order main top",
    "add 1 2",
    "add 1 2 3 4",
    "before 1",
    "unknown 1",
];

fn formless() -> &'static [&'static str] {
    &FORMLESS
}

/// Reads a line, and compares what it says.
fn says(rt: &impl Abort, ids: &mut IdBuf, line: &[u8], said: Line) {
    assert_eq!(rt; read(rt, ids, line), said);
}

fn each_reading(rt: &impl Abort, ids: &mut IdBuf) {
    for (line, said) in readings() {
        says(rt, ids, line.as_bytes(), *said);
    }
}

fn each_formless(rt: &impl Abort, ids: &mut IdBuf) {
    for line in formless() {
        says(rt, ids, line.as_bytes(), Line::Syntax);
    }
}

/// Compares the names that the last line left.
fn leaves(rt: &impl Abort, ids: &IdBuf, names: &[TxId]) {
    assert_eq!(rt; ids.ids(), names);
}

/// Reads lines of each form, and of none, and one that leaves names.
fn each_form(rt: &impl Abort, ids: &mut IdBuf) {
    each_reading(rt, ids);
    each_formless(rt, ids);
    leaves(rt, ids, &[]);
    says(rt, ids, b"mine 3 1 2", Line::Mine);
    leaves(rt, ids, &[3, 1, 2]);
    says(rt, ids, b"evict", Line::Evict);
    leaves(rt, ids, &[]);
}

#[test]
fn each_form_is_read(rt: HostRuntime) -> Result<(), Fail> {
    let mut ids = IdBuf::new(rt.alloc(), 32_766)?;
    each_form(&rt, &mut ids);
    Ok(())
}

/// The longest line, which is a `mine` of 32,766 names.
fn longest(alloc: Global) -> Result<Vec<u8>, Fail> {
    let mut line = b"mine".to_vec(alloc)?;
    for _ in 0..32_766 {
        line.extend_from_slice(b" 7")?;
    }
    Ok(line)
}

/// Reads a line of sevens, and counts them.
fn lists_sevens(rt: &impl Abort, ids: &mut IdBuf, line: &[u8]) {
    assert_eq!(rt; line.len(), 65_536);
    says(rt, ids, line, Line::Mine);
    assert_eq!(rt; ids.ids().len(), 32_766);
    for id in ids.ids() {
        assert!(rt; *id == 7);
    }
}

fn lists_longest(rt: &impl Abort, alloc: Global, ids: &mut IdBuf) -> Result<(), Fail> {
    let line = longest(alloc)?;
    lists_sevens(rt, ids, &line);
    Ok(())
}

#[test]
fn the_longest_line_lists_32766_names(rt: HostRuntime) -> Result<(), Fail> {
    let mut ids = IdBuf::new(rt.alloc(), 32_766)?;
    lists_longest(&rt, rt.alloc(), &mut ids)
}

/// A word, and what it is as a name and as a fee.
type Numeral = (&'static str, Option<u64>, Option<i64>);

const NUMERALS: [Numeral; 18] = [
    ("0", Some(0), Some(0)),
    ("1", Some(1), Some(1)),
    (
        "9223372036854775807",
        Some(9_223_372_036_854_775_807),
        Some(9_223_372_036_854_775_807),
    ),
    ("9223372036854775808", Some(9_223_372_036_854_775_808), None),
    (
        "18446744073709551615",
        Some(18_446_744_073_709_551_615),
        None,
    ),
    ("18446744073709551616", None, None),
    ("-1", None, Some(-1)),
    (
        "-9223372036854775808",
        None,
        Some(-9_223_372_036_854_775_808),
    ),
    ("-9223372036854775809", None, None),
    ("99999999999999999999999999999999999999999", None, None),
    ("-", None, None),
    ("-0", None, None),
    ("--1", None, None),
    ("+1", None, None),
    ("00", None, None),
    ("01", None, None),
    ("-01", None, None),
    ("1a", None, None),
];

fn numerals() -> &'static [Numeral] {
    &NUMERALS
}

/// What a line that ends in a word says, where that is a name.
fn named(id: Option<u64>) -> Line {
    match id {
        Some(id) => Line::Remove(id),
        None => Line::Syntax,
    }
}

/// What a line that ends in a word says, where that is a fee.
fn paid(fee: Option<i64>) -> Line {
    match fee {
        Some(fee) => Line::Fee(1, fee),
        None => Line::Syntax,
    }
}

fn line_of(alloc: Global, front: &str, word: &str) -> Result<String, Fail> {
    Ok(format!(in alloc; "{front} {word}")?)
}

/// Reads a line that ends in a word, and compares what it says.
fn ends(
    rt: &impl Abort,
    alloc: Global,
    ids: &mut IdBuf,
    front: &str,
    word: &str,
    said: Line,
) -> Result<(), Fail> {
    let line = line_of(alloc, front, word)?;
    says(rt, ids, line.as_bytes(), said);
    Ok(())
}

fn each_numeral(rt: &impl Abort, alloc: Global, ids: &mut IdBuf) -> Result<(), Fail> {
    for (word, id, fee) in numerals() {
        ends(rt, alloc, ids, "remove", word, named(*id))?;
        ends(rt, alloc, ids, "fee 1", word, paid(*fee))?;
    }
    Ok(())
}

#[test]
fn numbers_are_read_within_their_ranges(rt: HostRuntime) -> Result<(), Fail> {
    let mut ids = IdBuf::new(rt.alloc(), 32_766)?;
    each_numeral(&rt, rt.alloc(), &mut ids)
}

/// A line of a reply, or of a certificate's text.
#[derive(Clone, Copy)]
enum Reply<'a> {
    Word(&'a str),
    Ids(&'a str, Option<Sum>, &'a [u64]),
    Chunk(Sum, &'a [u64]),
    Point(u64, i128),
    Tx(u64, i64, u64),
    Edge(u64, u64),
    Flow(Flow),
    Refused(Refusal),
}

/// Writes a line. No test needs more of the writers' contracts, which would cost each of them its proof.
fn write(sink: &mut MemSink, reply: Reply) -> Result<(), Failed> {
    match reply {
        Reply::Word(word) => write_word(sink, word),
        Reply::Ids(head, sums, ids) => write_ids(sink, head, sums, ids),
        Reply::Chunk(rate, ids) => write_chunk(sink, rate, ids),
        Reply::Point(size, fee) => write_point(sink, size, fee),
        Reply::Tx(id, fee, size) => write_tx(sink, id, fee, size),
        Reply::Edge(parent, child) => write_edge(sink, parent, child),
        Reply::Flow(flow) => write_flow(sink, flow),
        Reply::Refused(why) => write_refusal(sink, &why),
    }
}

const SUMS: Sum = Sum {
    fee: -2_100_000_000_000_000_000_000,
    size: 220,
};

const FLOW: Flow = Flow {
    child: 2,
    parent: 1,
    amount: 1_000_000_000_000_000_000_000_000_000_000,
};

const REPLIES: [Reply<'static>; 9] = [
    Reply::Ids("block", Some(SUMS), &[3, 18_446_744_073_709_551_615]),
    Reply::Ids("ids", None, &[]),
    Reply::Chunk(SUMS, &[2, 1]),
    Reply::Point(0, -1),
    Reply::Tx(1, -9_223_372_036_854_775_808, 2),
    Reply::Edge(1, 2),
    Reply::Flow(FLOW),
    Reply::Refused(Refusal::Count(65)),
    Reply::Refused(Refusal::NoStaging),
];

fn replies() -> &'static [Reply<'static>] {
    &REPLIES
}

fn text() -> &'static str {
    "ok\nincomparable\naborted worse\nsame\nblock -2100000000000000000000 220 3 18446744073709551615\n\
     ids\nchunk -2100000000000000000000 220 2 1\npoint 0 -1\ntx 1 -9223372036854775808 2\nedge 1 2\n\
     flow 2 1 1000000000000000000000000000000\nrefused count 65\nrefused nostaging\n"
}

/// Writes a line.
fn puts(rt: &impl Abort, sink: &mut MemSink, reply: Reply) {
    assert!(rt; write(sink, reply).is_ok());
}

/// Writes lines of one word.
fn put_words(rt: &impl Abort, sink: &mut MemSink) {
    puts(rt, sink, Reply::Word("ok"));
    puts(rt, sink, Reply::Word(verdict_word(Verdict::Incomparable)));
    puts(rt, sink, Reply::Word(settled_words(Verdict::Worse)));
    puts(rt, sink, Reply::Word(place_word(Place::Same)));
}

/// Writes lines one after another, and compares their text.
fn put_each(rt: &impl Abort, sink: &mut MemSink) {
    put_words(rt, sink);
    for reply in replies() {
        puts(rt, sink, *reply);
    }
    assert_eq!(rt; sink.written(), text().as_bytes());
}

#[test]
fn replies_are_lines_of_text(rt: HostRuntime) -> Result<(), Fail> {
    let mut sink = MemSink::new(rt.alloc(), 7, &[], 1_024)?;
    put_each(&rt, &mut sink);
    Ok(())
}

/// How many transactions, edges and parts a text has, and flows in its last part.
type Counts = (usize, usize, usize, usize);

fn counts(read: &Result<CertText, TextFault>) -> Result<Counts, TextFault> {
    match read {
        Ok(text) => Ok((
            text.graph.txs.as_slice().len(),
            text.graph.edges.as_slice().len(),
            text.parts.as_slice().len(),
            last_flows(text),
        )),
        Err(fault) => Err(*fault),
    }
}

fn last_flows(text: &CertText) -> usize {
    match text.parts.as_slice() {
        [.., last] => last.flows.as_slice().len(),
        [] => 0,
    }
}

/// The same of bytes that are read.
fn counted(rt: &impl Abort, alloc: Global, bytes: &[u8]) -> Result<Counts, TextFault> {
    assert!(rt; bytes.len() < 100_000);
    counts(&read_certificate(alloc, bytes))
}

/// Reads bytes, and compares the counts.
fn counts_to(rt: &impl Abort, alloc: Global, bytes: &[u8], wanted: Result<Counts, TextFault>) {
    assert_eq!(rt; counted(rt, alloc, bytes), wanted);
}

/// Texts with their counts.
const WHOLE: [(&str, Counts); 9] = [
    (
        "tx 1 100 200\ntx 2 900 200\nedge 1 2\nchunk 1000 400 1 2\nflow 2 1 160000\nend\n",
        (2, 1, 1, 1),
    ),
    (
        "# a comment\r\n\r\ntx 1 -1 1\r\n\nchunk -1 1 1\n#\nend\r",
        (1, 0, 1, 0),
    ),
    (
        "chunk 1 1 1 2\nflow 2 1 1\nflow 1 2 1\nchunk 1 1 3\nflow 3 3 7\nend",
        (0, 0, 2, 1),
    ),
    ("edge 1 1\nedge 1 1\nend", (0, 2, 0, 0)),
    ("end", (0, 0, 0, 0)),
    ("end\n\r\n# x", (0, 0, 0, 0)),
    (
        "chunk 1000000000000000000000000000000 0 1\nend",
        (0, 0, 1, 0),
    ),
    (
        "chunk -1000000000000000000000000000000 0 1\nend",
        (0, 0, 1, 0),
    ),
    (
        "chunk 0 0 1\nflow 1 1 1000000000000000000000000000000\nend",
        (0, 0, 1, 1),
    ),
];

fn whole() -> &'static [(&'static str, Counts)] {
    &WHOLE
}

/// Texts that are refused.
const BROKEN: [&str; 18] = [
    "",
    "tx 1 1 1",
    "end\nend",
    "end\r\r",
    "end ",
    "END",
    "edge 1 2\ntx 1 1 1\nend",
    "chunk 1 1 1\nedge 1 2\nend",
    "flow 1 2 3\nend",
    "chunk 1 1\nend",
    "chunk 1 1 1 \nend",
    "chunk 1 1  1\nend",
    "chunk -0 1 1\nend",
    "chunk 1000000000000000000000000000001 0 1\nend",
    "chunk 0 0 1\nflow 1 1 1000000000000000000000000000001\nend",
    "chunk 0 0 1\nflow 1 1 0\nend",
    "tx 01 1 1\nend",
    "tx 18446744073709551616 1 1\nend",
];

fn broken() -> &'static [&'static str] {
    &BROKEN
}

fn each_whole(rt: &impl Abort, alloc: Global) {
    for (text, counts) in whole() {
        counts_to(rt, alloc, text.as_bytes(), Ok(*counts));
    }
}

fn each_broken(rt: &impl Abort, alloc: Global) {
    for text in broken() {
        counts_to(rt, alloc, text.as_bytes(), Err(TextFault::Syntax));
    }
}

#[test]
fn a_certificate_text_is_read_whole_or_not_at_all(rt: HostRuntime) {
    each_whole(&rt, rt.alloc());
    each_broken(&rt, rt.alloc());
}

/// A text with a long comment in it.
fn comment(alloc: Global, front: &[u8], marks: usize, back: &[u8]) -> Result<Vec<u8>, Fail> {
    let mut text = front.to_vec(alloc)?;
    for _ in 0..marks {
        text.push(b'#')?;
    }
    text.extend_from_slice(back)?;
    Ok(text)
}

/// Reads a text with a long comment in it.
fn comments(
    rt: &impl Abort,
    alloc: Global,
    front: &[u8],
    marks: usize,
    back: &[u8],
    wanted: Result<Counts, TextFault>,
) -> Result<(), Fail> {
    let text = comment(alloc, front, marks, back)?;
    counts_to(rt, alloc, &text, wanted);
    Ok(())
}

#[test]
fn a_comment_may_be_too_long(rt: HostRuntime) -> Result<(), Fail> {
    let syntax = Err(TextFault::Syntax);
    comments(&rt, rt.alloc(), b"end\n", 65_536, b"", Ok((0, 0, 0, 0)))?;
    comments(&rt, rt.alloc(), b"end\n", 65_536, b"\r", syntax)?;
    comments(&rt, rt.alloc(), b"", 65_537, b"", syntax)
}
