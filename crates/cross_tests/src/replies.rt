//! The session answers lines as the plain lists do, and proves its orders to the checker.
use crate::mined::{Block, block_of, refused, restored};
use crate::picked::{evict, fill};
use crate::trimmed::trim;
use graph_model::{DEFAULT_LIMITS, IdBuf, Level, Limits, MAX_LINE, Refusal, TxId};
use outside::{Failed, MemSink, MemSource, NoMemory, Sink};
use plain_graph::Plain;
use replay::{Piece, Session, Status, run};
use std::alloc::{AllocError, Global};
use std::process::Abort;
use std::test::Fail;
use wire::{Line, read_line, write_ids, write_refusal, write_word};

/// The plain lists of both levels.
#[derive(Drop)]
pub struct Lists {
    alloc: Global,
    limits: Limits,
    /// the names that are live, for refusals that ask both levels
    live: Plain,
    main: Plain,
    staging: Option<Plain>,
    /// the mined blocks, the latest last
    blocks: Vec<Block>,
}

impl Lists {
    fn new(alloc: Global) -> Result<Lists, NoMemory> {
        Ok(Lists {
            alloc,
            limits: DEFAULT_LIMITS,
            live: Plain::new(alloc)?,
            main: Plain::new(alloc)?,
            staging: None,
            blocks: Vec::new(alloc),
        })
    }

    /// Whether a level is oversized.
    pub fn over(&mut self, level: Level) -> bool {
        self.level(level).oversized(level)
    }

    pub fn level(&mut self, level: Level) -> &mut Plain {
        match (level, &mut self.staging) {
            (Level::Top, Some(staging)) => staging,
            _ => &mut self.main,
        }
    }

    fn set_limits(&mut self, limits: Limits) -> Result<(), Refusal> {
        self.live.set_limits(limits)?;
        self.limits = limits;
        self.main.set_limits(limits)
    }

    pub fn limits(&self) -> Limits {
        self.limits
    }

    fn add(&mut self, rt: &impl Abort, id: TxId, fee: i64, size: u64) -> Result<(), Refusal> {
        assert!(rt; self.live.additions() < 1_000_000);
        self.live.add(id, fee, size)?;
        let top = self.level(Level::Top);
        assert!(rt; top.additions() < 1_000_000);
        top.add(id, fee, size)
    }

    /// The fee goes to each level that has the name.
    fn fee(&mut self, id: TxId, fee: i64) -> Result<(), Refusal> {
        self.live.fee(id, fee)?;
        let main = self.main.fee(id, fee);
        match &mut self.staging {
            Some(staging) => main.or(staging.fee(id, fee)),
            None => main,
        }
    }

    /// A name that main keeps stays live.
    pub fn remove(&mut self, id: TxId) -> Result<(), Refusal> {
        self.level(Level::Top).remove(id)?;
        match self.main.cluster(id, Level::Main) {
            Err(Refusal::Unknown(_)) => self.live.remove(id),
            _ => Ok(()),
        }
    }

    fn stage(&mut self) -> Result<(), Refusal> {
        if self.staging.is_some() {
            return Err(Refusal::Staging);
        }
        self.staging = Some(copy(&self.main)?);
        Ok(())
    }

    pub fn is_staged(&self) -> bool {
        self.staging.is_some()
    }

    pub fn main(&mut self) -> &mut Plain {
        &mut self.main
    }

    /// Names go from main, each behind those that depend on it. No staging is open.
    pub fn drop_all(&mut self, ids: &[TxId]) -> Result<(), Refusal> {
        for id in ids.iter().rev() {
            self.main.remove(*id)?;
            self.live.remove(*id)?;
        }
        Ok(())
    }

    /// A mined list goes where all its names are main's, and all ancestors of these are listed too.
    fn mine(&mut self, ids: &[TxId]) -> Result<(), Refusal> {
        if self.staging.is_some() {
            return Err(Refusal::Staging);
        }
        first_again(ids)?;
        for id in ids {
            if let Err(Refusal::Unknown(id)) = self.main.cluster(*id, Level::Main) {
                return Err(Refusal::Unknown(id));
            }
        }
        for id in ids {
            if leads_out(self.alloc, self.main.pairs(), ids, *id).map_err(|_| Refusal::Memory)? {
                return Err(Refusal::Parent(*id));
            }
        }
        self.keep_block(ids).map_err(|_| Refusal::Memory)?;
        self.drop_all(ids)
    }

    /// At most 100 blocks are kept.
    fn keep_block(&mut self, ids: &[TxId]) -> Result<(), AllocError> {
        let block = block_of(self.alloc, &self.main, ids)?;
        if self.blocks.len() == 100 {
            self.blocks.remove(0);
        }
        self.blocks.push(block)?;
        Ok(())
    }

    /// Puts the latest block back.
    fn unmine(&mut self, rt: &impl Abort) -> Result<Block, Refusal> {
        if self.staging.is_some() {
            return Err(Refusal::Staging);
        }
        let Some(block) = self.blocks.pop() else {
            return Err(Refusal::NoBlock);
        };
        let why = refused(self.alloc, &self.limits, &self.main, &block);
        if let Some(why) = why.map_err(|_| Refusal::Memory)? {
            self.blocks.push(block).map_err(|_| Refusal::Memory)?;
            return Err(why);
        }
        self.main = restored(rt, self.alloc, &self.limits, &self.main, &block)?;
        self.live = copy(&self.main)?;
        Ok(block)
    }

    /// Closes staging, which becomes main or is dropped.
    fn close(&mut self, commits: bool) -> Result<(), Refusal> {
        let Some(staging) = self.staging.take() else {
            return Err(Refusal::NoStaging);
        };
        if commits {
            self.main = staging;
        }
        self.live = copy(&self.main)?;
        Ok(())
    }
}

/// Refuses a list with a name that stands earlier in it too.
fn first_again(ids: &[TxId]) -> Result<(), Refusal> {
    for (at, id) in ids.iter().enumerate() {
        if ids.iter().take(at).any(|earlier| earlier == id) {
            return Err(Refusal::Twice(*id));
        }
    }
    Ok(())
}

/// Whether a listed name has an ancestor that isn't listed.
fn leads_out(
    alloc: Global,
    pairs: &[(TxId, TxId)],
    ids: &[TxId],
    id: TxId,
) -> Result<bool, AllocError> {
    let mut above = Vec::new(alloc);
    above.push(id)?;
    for _ in ids {
        for (parent, child) in pairs {
            if !above.as_slice().contains(child) || above.as_slice().contains(parent) {
                continue;
            }
            if !ids.contains(parent) {
                return Ok(true);
            }
            above.push(*parent)?;
        }
    }
    Ok(false)
}

/// The same lists once more.
fn copy(graph: &Plain) -> Result<Plain, Refusal> {
    graph.copied().map_err(|_| Refusal::Memory)
}

/// Writes the reply to a change.
fn tell<K: Sink>(sink: &mut K, done: Result<(), Refusal>) -> Result<(), Failed> {
    match done {
        Ok(()) => write_word(sink, "ok"),
        Err(why) => write_refusal(sink, &why),
    }
}

/// Writes the reply to a reading of names.
fn tell_found<K: Sink>(
    sink: &mut K,
    graph: &Plain,
    done: Result<(), Refusal>,
) -> Result<(), Failed> {
    match done {
        Ok(()) => write_ids(sink, "ids", None, graph.found()),
        Err(why) => write_refusal(sink, &why),
    }
}

/// Writes the reply to a block that is taken back.
fn tell_block<K: Sink>(
    alloc: Global,
    sink: &mut K,
    done: Result<Block, Refusal>,
) -> Result<(), Failed> {
    let mut ids = Vec::new(alloc);
    match done {
        Ok(block) => {
            for tx in &block.txs {
                ids.push(tx.id).map_err(|_| Failed)?;
            }
            write_ids(sink, "unmined", None, &ids)
        }
        Err(why) => write_refusal(sink, &why),
    }
}

/// Answers what a line says over the plain lists. A `mine` has its names in `ids`.
fn reply<K: Sink>(
    rt: &impl Abort,
    lists: &mut Lists,
    line: Line,
    ids: &[TxId],
    sink: &mut K,
) -> Result<(), Failed> {
    match line {
        Line::Quiet => Ok(()),
        Line::Limits(limits) => tell(sink, lists.set_limits(limits)),
        Line::Add(id, fee, size) => tell(sink, lists.add(rt, id, fee, size)),
        Line::Dep(parent, child) => tell(sink, lists.level(Level::Top).dep(parent, child)),
        Line::Fee(id, fee) => tell(sink, lists.fee(id, fee)),
        Line::Remove(id) => tell(sink, lists.remove(id)),
        Line::Mine => tell(sink, lists.mine(ids)),
        Line::Unmine => tell_block(lists.alloc, sink, lists.unmine(rt)),
        Line::Stage => tell(sink, lists.stage()),
        Line::Commit => tell(sink, lists.close(true)),
        Line::Abort => tell(sink, lists.close(false)),
        Line::Cluster(id, level) => {
            let graph = lists.level(level);
            let done = graph.cluster(id, level);
            tell_found(sink, graph, done)
        }
        Line::Ancestors(id, level) => {
            let graph = lists.level(level);
            let done = graph.ancestors(id, level);
            tell_found(sink, graph, done)
        }
        Line::Descendants(id, level) => {
            let graph = lists.level(level);
            let done = graph.descendants(id, level);
            tell_found(sink, graph, done)
        }
        Line::Count(level) => {
            let count = lists.level(level).count(level) as u64;
            write_ids(sink, "count", None, &[count])
        }
        // No command, or one that these lists are not asked for.
        _ => write_word(sink, "refused syntax"),
    }
}

/// The next number below `below` of a linear congruence.
fn draw(state: &mut u64, below: u64) -> u64 {
    *state = state.wrapping_mul(1_103_515_245).wrapping_add(12_345) % 2_147_483_648;
    (*state / 65_536).checked_rem(below).unwrap_or(0)
}

/// A line about stagings: as often one that opens one as one that closes it.
fn staging_line(drawn: u64) -> &'static str {
    match drawn {
        0..4 => "stage",
        4..6 => "commit",
        6 => "abort",
        _ => "settle",
    }
}

/// The `at`-th line of a run of commands on names near each other.
fn line_at(alloc: Global, state: &mut u64, at: u64) -> Result<String, AllocError> {
    let child = at.saturating_sub(draw(state, at.min(40)));
    let parent = child.saturating_sub(draw(state, child.min(12)));
    let level = if draw(state, 2) == 0 { "main" } else { "top" };
    match draw(state, 24) {
        0..7 => {
            let size = 100 + draw(state, 900) % 900;
            let sign = if draw(state, 4) == 0 { "-" } else { "" };
            format!(in alloc; "add {at} {sign}{child} {size}")
        }
        7..13 => format!(in alloc; "dep {parent} {child}"),
        13 => format!(in alloc; "fee {child} -{at}"),
        14 => format!(in alloc; "remove {child}"),
        15 => format!(in alloc; "cluster {child} {level}"),
        16 => format!(in alloc; "ancestors {child} {level}"),
        17 => format!(in alloc; "descendants {parent} {level}"),
        18 => format!(in alloc; "count {level}"),
        19 => format!(in alloc; "mine {child} {parent}"),
        20 => format!(in alloc; "mine {child}"),
        21 => String::from_str(alloc, "evict"),
        22 => String::from_str(alloc, "unmine"),
        _ => String::from_str(alloc, staging_line(draw(state, 8))),
    }
}

/// What a session replies to a line.
pub fn said<const W: usize>(
    rt: &impl Abort,
    alloc: Global,
    session: &mut Session<W>,
    line: &str,
) -> Result<MemSink, Fail> {
    let mut sink = MemSink::new(alloc, PROOF, &[], PROOF)?;
    assert!(rt; session.additions() < 1_000_000);
    session
        .one(Piece::Whole(line.as_bytes()), &mut sink)
        .expect(rt, "the sink has room");
    Ok(sink)
}

/// A session refuses a line for this cause.
pub fn refuses<const W: usize>(
    rt: &impl Abort,
    alloc: Global,
    session: &mut Session<W>,
    line: &str,
    why: &Refusal,
) -> Result<(), Fail> {
    let told = said(rt, alloc, session, line)?;
    let mut wanted = MemSink::new(alloc, 64, &[], 64)?;
    write_refusal(&mut wanted, why)?;
    assert_eq!(rt; told.written(), wanted.written(), "at {line:?}");
    Ok(())
}

/// Hands a line to both, and compares the replies.
fn agree<const W: usize>(
    rt: &impl Abort,
    alloc: Global,
    session: &mut Session<W>,
    lists: &mut Lists,
    line: &str,
) -> Result<(), Fail> {
    let fast = said(rt, alloc, session, line)?;
    let mut slow = MemSink::new(alloc, 4096, &[], 4096)?;
    let mut ids = IdBuf::new(alloc, 32_766)?;
    assert!(rt; line.len() <= MAX_LINE);
    let meant = read_line(line.as_bytes(), &mut ids);
    reply(rt, lists, meant, ids.ids(), &mut slow).expect(rt, "the sink has room");
    assert_eq!(rt; fast.written(), slow.written(), "at {line:?}");
    Ok(())
}

/// Lets the session settle, which must commit exactly what it says is better, and closes the lists' staging as it did. Where a level is
/// oversized it must refuse, and the staging stays.
fn settle<const W: usize>(
    rt: &impl Abort,
    alloc: Global,
    session: &mut Session<W>,
    lists: &mut Lists,
) -> Result<(), Fail> {
    if lists.is_staged() && (lists.over(Level::Main) || lists.over(Level::Top)) {
        refuses(rt, alloc, session, "compare", &Refusal::Oversized)?;
        return refuses(rt, alloc, session, "settle", &Refusal::Oversized);
    }
    let verdict = said(rt, alloc, session, "compare")?;
    let done = said(rt, alloc, session, "settle")?;
    let commits = verdict.written() == b"better\n".as_slice();
    let head = match lists.close(commits) {
        Ok(()) if commits => "committed ",
        Ok(()) => "aborted ",
        Err(_) => "",
    };
    let mut wanted = MemSink::new(alloc, 64, &[], 64)?;
    wanted.write_all(head.as_bytes())?;
    wanted.write_all(verdict.written())?;
    assert_eq!(rt; done.written(), wanted.written());
    Ok(())
}

/// Room for a reply of a session, in bytes.
pub const PROOF: usize = 1_000_000;

/// Hands the proof of a level to the checker, which must say `yes`. Where the level is oversized its readings must be refused.
fn prove<const W: usize>(
    rt: &impl Abort,
    alloc: Global,
    session: &mut Session<W>,
    lists: &mut Lists,
    level: Level,
) -> Result<(), Fail> {
    let word = if level == Level::Main { "main" } else { "top" };
    let line = format!(in alloc; "proof {word}")?;
    if lists.over(level) {
        return refuses(rt, alloc, session, &line, &Refusal::Oversized);
    }
    let proof = said(rt, alloc, session, &line)?;
    let mut yes = MemSink::new(alloc, 16, &[], 16)?;
    let mut source = MemSource::new(alloc, proof.written(), PROOF, &[], None)?;
    let words = [format!(in alloc; "txgraph")?, format!(in alloc; "check")?];
    assert!(rt; run(alloc, &words, &mut source, &mut yes) == Status::Done);
    assert_eq!(rt; yes.written(), b"yes\n".as_slice());
    Ok(())
}

/// Where runs begin, and the line that sets their limits.
const RUNS: [(u64, &str); 5] = [
    (1, "limits 128 512000000 1048576"),
    (2, "limits 7 404000 1000"),
    (3, "limits 64 2500 1048576"),
    (4, "limits 3 4000000 50"),
    (5, "count main"),
];

fn runs() -> &'static [(u64, &'static str)] {
    &RUNS
}

/// Hands a run of lines to both, between two lines that set limits.
fn agree_on_run<const W: usize>(
    rt: &impl Abort,
    alloc: Global,
    session: &mut Session<W>,
    lists: &mut Lists,
    seed: u64,
    limits: &str,
) -> Result<(), Fail> {
    let mut state = seed;
    agree(rt, alloc, session, lists, limits)?;
    for at in 1..4001 {
        let line = line_at(alloc, &mut state, at)?;
        match line.as_str() {
            "settle" => settle(rt, alloc, session, lists)?,
            "evict" => evict(rt, alloc, session, lists)?,
            _ => agree(rt, alloc, session, lists, &line)?,
        }
        if at % 50 == 0 {
            fill(rt, alloc, session, lists, draw(&mut state, 5000))?;
        }
        if at % 100 == 0 {
            prove(rt, alloc, session, lists, Level::Main)?;
            prove(rt, alloc, session, lists, Level::Top)?;
        }
    }
    agree(rt, alloc, session, lists, limits)
}

/// The next line of a run on a few names that are joined and parted all the time.
fn close_line(alloc: Global, state: &mut u64) -> Result<String, AllocError> {
    let one = draw(state, 12);
    let other = draw(state, 12);
    let level = if draw(state, 2) == 0 { "main" } else { "top" };
    match draw(state, 27) {
        0..6 => {
            let size = 1 + draw(state, 9) % 9;
            format!(in alloc; "add {one} {size} {size}")
        }
        6..11 => format!(in alloc; "dep {one} {other}"),
        11 => format!(in alloc; "fee {one} {other}"),
        12..16 => format!(in alloc; "remove {one}"),
        16 => format!(in alloc; "cluster {one} {level}"),
        17 => format!(in alloc; "ancestors {one} {level}"),
        18 => format!(in alloc; "descendants {one} {level}"),
        19 => format!(in alloc; "mine {one} {other}"),
        20 => format!(in alloc; "mine {one}"),
        21 => String::from_str(alloc, "evict"),
        22 => String::from_str(alloc, "trim"),
        23..25 => String::from_str(alloc, "unmine"),
        _ => String::from_str(alloc, staging_line(draw(state, 8))),
    }
}

/// Where runs begin whose dependencies may pass the limits, and the line that sets these.
const DEFERRED: [(u64, &str); 3] = [
    (6, "limits 3 1000 10 defer"),
    (7, "limits 64 12 1000 defer"),
    (8, "limits 1 9 12 defer"),
];

fn deferred() -> &'static [(u64, &'static str)] {
    &DEFERRED
}

/// Hands a run to both whose levels are oversized and mended often. Answers how often main was oversized, and how often it wasn't.
fn agree_oversized<const W: usize>(
    rt: &impl Abort,
    alloc: Global,
    session: &mut Session<W>,
    lists: &mut Lists,
    seed: u64,
    limits: &str,
) -> Result<(u64, u64), Fail> {
    let mut state = seed;
    let mut seen: (u64, u64) = (0, 0);
    agree(rt, alloc, session, lists, limits)?;
    for _ in 0..3000 {
        let line = close_line(alloc, &mut state)?;
        match line.as_str() {
            "settle" => settle(rt, alloc, session, lists)?,
            "evict" => evict(rt, alloc, session, lists)?,
            "trim" => trim(rt, alloc, session, lists)?,
            _ => agree(rt, alloc, session, lists, &line)?,
        }
        fill(rt, alloc, session, lists, draw(&mut state, 30))?;
        prove(rt, alloc, session, lists, Level::Main)?;
        prove(rt, alloc, session, lists, Level::Top)?;
        match lists.over(Level::Main) {
            true => seen.0 = seen.0.saturating_add(1),
            false => seen.1 = seen.1.saturating_add(1),
        }
    }
    Ok(seen)
}

/// A run of lines from the start.
fn agree_from_start(rt: &impl Abort, alloc: Global, seed: u64, limits: &str) -> Result<(), Fail> {
    let mut lists = Lists::new(alloc)?;
    let mut session = Session::<2>::new(alloc)?;
    let agreed = agree_on_run(rt, alloc, &mut session, &mut lists, seed, limits);
    session.close();
    agreed
}

#[test]
fn a_session_replies_as_the_plain_lists_do(rt: HostRuntime) -> Result<(), Fail> {
    for (seed, limits) in runs() {
        agree_from_start(&rt, rt.alloc(), *seed, limits)?;
    }
    Ok(())
}

#[test]
fn a_session_replies_as_the_plain_lists_do_where_limits_are_passed(
    rt: HostRuntime,
) -> Result<(), Fail> {
    for (seed, limits) in deferred() {
        let mut lists = Lists::new(rt.alloc())?;
        let mut session = Session::<2>::new(rt.alloc())?;
        let seen = agree_oversized(&rt, rt.alloc(), &mut session, &mut lists, *seed, limits);
        session.close();
        let (over, within) = seen?;
        assert!(rt; over > 300 && within > 300, "{over} and {within}");
    }
    Ok(())
}
