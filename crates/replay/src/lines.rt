ghost use Rattle.std.specs.Prelude.{◌≡◌, ◌≢◌, ℕ, ◌+◌, ◌-◌, ◌<◌, ◌≤◌, ◌⊎◌, List, [], ◌∷◌, ◌++◌, length, take, false, IfOk, OnOk, OnErr, MatchBool};
ghost use Rattle.std.specs.declared.option.Option.{Option};
ghost use Rattle.graph_model.specs.Lines.{IsOneLine, max_input};
ghost use Rattle.outside.specs.Faults.{CountsFaults, Rose};
ghost use Rattle.replay.specs.Cuts.{EndsIn, HasFeed, HasLine, Leaves, Reads, GivesNext, FindsNext, FaultsOf, FoundFaults, IsGiven, IsFound, CountsWithin, weight, ahead, reads_left};

use crate::session::Piece;
use crate::window::{MAX_READ, Window};
use graph_model::{MAX_INPUT, MAX_LINE};
use outside::{Failed, NoMemory, Source};
use std::alloc::Global;
use std::marker::Model;
use wire::split_at_byte;

/// How far the reading of a source has come.
#[derive(Clone, Copy, PartialEq, Eq)]
pub(crate) enum Stage {
    /// More may come.
    Open,
    /// The source answered its end.
    Ended,
    /// A byte past the limit came.
    Past,
}

/// What `Lines::next` answers.
#[derive(Clone, Copy, Debug)]
pub enum Next<'a> {
    /// The next line, without its line feed. It is `TooLong` where it has more than 65,536 bytes.
    Line(Piece<'a>),
    /// The source answered its end, and no line is left.
    End,
    /// A byte past the limit of 268,435,456 came, and all complete lines within it were given.
    Limit,
    /// A read failed, and all complete lines before it were given.
    Fault,
}

/// What was found before it is given.
#[derive(Clone, Copy)]
enum Found {
    /// the line that the window cut off
    Whole,
    Long,
    End,
    Limit,
    Fault,
}

/// Cuts what a source gives into lines, however it comes. A line that lies whole in the buffer isn't copied; of a line
/// of more than 65,536 bytes the bytes are dropped up to its line feed.
#[derive(Drop)]
pub struct Lines {
    window: Window,
    // where the first line feed among the bytes of the window is
    feed: Option<usize>,
    // more bytes than a line may have went before those of the window
    long: bool,
    // how many bytes were taken within the limit
    taken: usize,
    stage: Stage,
}

impl Model for Lines {
    ghost use Rattle.std.specs.Prelude.{◌≤◌};
    ghost use Rattle.graph_model.specs.Lines.{max_input};
    ghost use Rattle.replay.specs.Cutters.{Cutter};
    ghost use Rattle.replay.specs.Cuts.{HasFeed};

    ghost Value = { Cutter };

    ghost view = { λ a. record { line = a.window.line; held = a.window.held; long = a.long; taken = a.taken; stage = a.stage } };

    ghost invariant = { λ a. HasFeed a.feed a.window.held × (a.taken ≤ max_input) };
}

impl Lines {
    ghost use Rattle.std.specs.Io.BufRead.{Rests};
    ghost use Rattle.std.specs.Borrow.{sem};
    ghost use Rattle.replay.specs.contracts.lines.Lines.{the_row};

    /// Room for the bytes of the longest line and its line feed, taken here once.
    pub fn new(alloc: Global) -> Result<Lines, NoMemory>
        ensures { IfOk result (λ lines. (lines.held ≡ []) × (lines.long ≡ false) × (lines.taken ≡ 0)
            × (lines.stage ≡ Stage.Open)) }
    {
        Ok(Lines {
            window: Window::new(alloc)?,
            feed: None,
            long: false,
            taken: 0,
            stage: Stage::Open,
        })
    }

    /// Whether the next call of `next` answers without reading: a complete line is held, or reading has ended.
    pub fn is_ready(&self) -> bool
        ensures { MatchBool result (HasLine self.now.held ⊎ (self.now.stage ≢ Stage.Open))
            (IsOneLine self.now.held × (self.now.stage ≡ Stage.Open)) }
    {
        self.feed.is_some() || self.stage != Stage::Open
    }

    /// The next line, or why there is none. It takes no memory. Each read takes at least one byte, or ends the reading.
    pub fn next<S: Source>(&mut self, source: &mut S) -> Next<'_>
        // What was left of the lines given before, and what was taken now, gives the line or ends without one.
        ensures* after { sem 𝓛 (Rests the_row self.entry (λ new. ((rest : List ℕ) → Leaves self.old rest
            → GivesNext self.old new (S.left source.old) (S.left source.new) rest result)
            × (new.taken ≤ max_input) × (IsGiven result → ahead new < ahead self.old))) }
        ensures faults { FaultsOf result (S.faults source.old) (S.faults source.new) }
        ensures ready { HasLine self.old.held ⊎ (self.old.stage ≢ Stage.Open) → (source.new ≡ source.old) × (result ≢ Next.Fault) }
    {
        match self.find(source) {
            Found::Whole => Next::Line(Piece::Whole(self.window.line())),
            Found::Long => Next::Line(Piece::TooLong),
            Found::End => Next::End,
            Found::Limit => Next::Limit,
            Found::Fault => Next::Fault,
        }
    }

    /// Reads until a line is held or reading ends, and finds what is next.
    fn find<S: Source>(&mut self, source: &mut S) -> Found
        ensures next { (rest : List ℕ) → Leaves self.old rest → (more : List ℕ)
            × Reads self.old self.new (S.left source.old) (S.left source.new) more
            × FindsNext self.new (rest ++ more) result }
        ensures within { self.new.taken ≤ max_input }
        ensures ahead { IsFound result → ahead self.new < ahead self.old }
        ensures faults { FoundFaults result (S.faults source.old) (S.faults source.new) }
        ensures ready { HasLine self.old.held ⊎ (self.old.stage ≢ Stage.Open) → (source.new ≡ source.old) × (result ≢ Found.Fault) }
    {
        'reads: while !self.is_ready() {
            match self.fill(source) {
                Ok(()) => {}
                Err(_) => return Found::Fault,
            }
        }
        self.give()
    }

    /// Reads once, where no line is held and reading hasn't ended.
    fn fill<S: Source>(&mut self, source: &mut S) -> Result<(), Failed>
        requires none { IsOneLine self.old.held }
        requires open { self.old.stage ≡ Stage.Open }
        ensures reads { (rest : List ℕ) → Leaves self.old rest → (more : List ℕ)
            × Reads self.old self.new (S.left source.old) (S.left source.new) more
            × Leaves self.new (rest ++ more) }
        ensures within { self.new.taken ≤ max_input }
        ensures err { OnErr result (IsOneLine self.new.held × (self.new.stage ≡ Stage.Open)) }
        ensures cause { CountsFaults (S.faults source.old) (S.faults source.new) result }
        ensures ahead { ahead self.new ≤ ahead self.old }
        ensures fewer { OnOk result (reads_left self.new < reads_left self.old) }
    {
        self.feed = None;
        self.long = make_room(&mut self.window, self.long);
        let before = self.window.held().len();
        match self.window.fill(source) {
            Ok(count) => {
                (self.taken, self.stage) = count_within(
                    &mut self.window,
                    before,
                    count,
                    self.taken,
                );
                self.feed = feed_behind(self.window.held(), before);
                Ok(())
            }
            Err(failed) => Err(failed),
        }
    }

    /// Gives what is next, where a line is held or reading has ended.
    fn give(&mut self) -> Found
        requires { HasLine self.old.held ⊎ (self.old.stage ≢ Stage.Open) }
        ensures next { (rest : List ℕ) → Leaves self.old rest → FindsNext self.new rest result }
        ensures within { self.new.taken ≤ max_input }
        ensures taken { self.new.taken ≡ self.old.taken }
        ensures stage { self.new.stage ≡ self.old.stage }
        ensures ahead { IsFound result → ahead self.new < ahead self.old }
        ensures told { result ≢ Found.Fault }
    {
        match self.feed {
            Some(count) => self.give_line(count),
            None => self.give_last(),
        }
    }

    /// Gives the line that ends at the first line feed.
    fn give_line(&mut self, count: usize) -> Found
        requires { HasFeed (Some count) self.old.held }
        ensures next { (rest : List ℕ) → Leaves self.old rest → FindsNext self.new rest result }
        ensures within { self.new.taken ≤ max_input }
        ensures taken { self.new.taken ≡ self.old.taken }
        ensures stage { self.new.stage ≡ self.old.stage }
        ensures ahead { IsFound result → ahead self.new < ahead self.old }
        ensures told { result ≢ Found.Fault }
    {
        let long = self.long;
        self.window.cut(count);
        self.long = false;
        self.feed = feed_behind(self.window.held(), 0);
        if long {
            return Found::Long;
        }
        Found::Whole
    }

    /// Gives what follows the last line feed, where the source answered its end, or why there is no line.
    fn give_last(&mut self) -> Found
        requires none { IsOneLine self.old.held }
        requires stopped { self.old.stage ≢ Stage.Open }
        ensures next { (rest : List ℕ) → Leaves self.old rest → FindsNext self.new rest result }
        ensures within { self.new.taken ≤ max_input }
        ensures taken { self.new.taken ≡ self.old.taken }
        ensures stage { self.new.stage ≡ self.old.stage }
        ensures ahead { IsFound result → ahead self.new < ahead self.old }
        ensures told { result ≢ Found.Fault }
    {
        if self.stage != Stage::Ended {
            return Found::Limit;
        }
        let held = self.window.held().len();
        if held == 0 && !self.long {
            return Found::End;
        }
        let long = self.long || held > MAX_LINE;
        self.window.cut_all();
        self.feed = None;
        self.long = false;
        if long {
            return Found::Long;
        }
        Found::Whole
    }
}

/// Makes room in a window that holds no line feed, and tells whether too many bytes of its line went before those that it
/// holds: where it is full, they are dropped.
fn make_room(window: &mut Window, long: bool) -> bool
    requires { IsOneLine window.old.held }
    ensures kept { (rest : List ℕ) → EndsIn long window.old.held rest → EndsIn result window.new.held rest }
    ensures none { IsOneLine window.new.held }
    ensures room { 0 < window.new.room }
    ensures lighter { weight result window.new.held ≤ weight long window.old.held }
{
    if long {
        window.clear();
        return true;
    }
    if window.held().len() < MAX_READ {
        window.settle();
        return false;
    }
    window.clear();
    true
}

/// Drops what came past the limit on the input, and tells how many bytes were taken within it, and the stage.
fn count_within(window: &mut Window, before: usize, count: usize, taken: usize) -> (usize, Stage)
    requires before { before ≤ MAX_READ }
    requires most { count ≤ MAX_READ }
    requires taken { taken ≤ max_input }
    requires held { before + count ≡ length window.old.held }
    ensures { (shown came : List ℕ) → window.old.held ≡ shown ++ came → length came ≡ count
        → (more past : List ℕ) × (came ≡ more ++ past) × (window.new.held ≡ shown ++ more)
        × (result.0 ≡ taken + length more) × CountsWithin result.1 result.0 more past }
{
    if count == 0 {
        return (taken, Stage::Ended);
    }
    let left = MAX_INPUT - taken;
    if count > left {
        window.keep(before + left);
        return (MAX_INPUT, Stage::Past);
    }
    (taken + count, Stage::Open)
}

/// Where the first line feed is, if there is none among the first so many bytes.
fn feed_behind(bytes: &[u8], from: usize) -> Option<usize>
    requires within { from ≤ length bytes.now }
    requires none { IsOneLine (take from bytes.now) }
    ensures { HasFeed result bytes.now }
{
    let (_, fresh) = bytes.split_at(from);
    match split_at_byte(fresh, b'\n') {
        Some((line, _)) => Some(from + line.len()),
        None => None,
    }
}
