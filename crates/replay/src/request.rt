use crate::reading::Reading;
use graph_model::{Level, TxId};
use mempool::{Change, Search};
use wire::Line;

/// What a line asks for.
#[derive(Clone, Copy)]
pub(crate) enum Request {
    /// nothing, and no reply
    Silence,
    /// what is no command, or one that no body does yet
    Unread,
    Change(Change),
    /// that the names which the line lists go with a block
    Mine,
    /// that the latest block comes back
    Unmine,
    /// that the last part of main goes
    Evict,
    /// that the top level is cut back to its limits
    Trim,
    /// a block of main of at most so many virtual bytes
    Block(u64),
    Search(Search),
    /// how many names a level has
    Count(Level),
    /// where one name stands to another
    Before(TxId, TxId),
    /// how staging stands to main
    Compare,
    /// that staging is committed where it is better, and else dropped
    Settle,
    Read(Reading),
}

impl From<Line> for Request {
    ghost use Rattle.std.specs.Prelude.{◌≡◌, ℕ, List};
    ghost use Rattle.wire.specs.Readings.{meaning_of};
    ghost use Rattle.replay.specs.Requests.{asked};

    ghost from_gives = { λ line request. (ids : List ℕ) → meaning_of line ids ≡ asked request ids };

    fn from(line: Line) -> Request {
        match line {
            Line::Quiet => Request::Silence,
            Line::Syntax => Request::Unread,
            Line::Limits(limits) => Request::Change(Change::Limits(limits)),
            Line::Add(id, fee, size) => Request::Change(Change::Add(id, fee, size)),
            Line::Dep(parent, child) => Request::Change(Change::Dep(parent, child)),
            Line::Fee(id, fee) => Request::Change(Change::Fee(id, fee)),
            Line::Remove(id) => Request::Change(Change::Remove(id)),
            Line::Mine => Request::Mine,
            Line::Unmine => Request::Unmine,
            Line::Evict => Request::Evict,
            Line::Trim => Request::Trim,
            Line::Block(size) => Request::Block(size),
            Line::Stage => Request::Change(Change::Stage),
            Line::Commit => Request::Change(Change::Commit),
            Line::Abort => Request::Change(Change::Abort),
            Line::Settle => Request::Settle,
            Line::Compare => Request::Compare,
            Line::Cluster(id, level) => Request::Search(Search::Cluster(id, level)),
            Line::Ancestors(id, level) => Request::Search(Search::Ancestors(id, level)),
            Line::Descendants(id, level) => Request::Search(Search::Descendants(id, level)),
            Line::Count(level) => Request::Count(level),
            Line::Before(a, b) => Request::Before(a, b),
            Line::Order(level) => Request::Read(Reading::Order(level)),
            Line::Diagram(level) => Request::Read(Reading::Diagram(level)),
            Line::Proof(level) => Request::Read(Reading::Proof(level)),
            Line::Chunk(id) => Request::Read(Reading::Chunk(id)),
            Line::Dump => Request::Read(Reading::Dump),
        }
    }
}
