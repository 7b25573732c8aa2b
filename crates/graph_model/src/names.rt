ghost use Rattle.std.specs.Prelude.{◌≡◌};

use graphs::{IdList, TxId};

/// The limits of a graph.
#[derive(Clone, Copy, Debug, PartialEq, Eq)]
pub struct Limits {
    /// The most names that a cluster may have: 1 to 64 for each word of the graph's sets.
    pub count: u64,
    /// The greatest total size of a cluster, in virtual bytes: 1 to 512,000,000.
    pub size: u64,
    /// The most names that may be live, in main and staging together: 1 to 1,048,576.
    pub total: u64,
    /// Whether a dependency may bring a cluster over the first two for a while. Its level has no order until it is within them again.
    pub defer: bool,
}

/// Transactions that were picked, in their order, with what they pay and take together.
#[derive(Debug, Drop)]
pub struct Picked {
    /// The total fee, in satoshis.
    pub fee: i128,
    /// The total size, in virtual bytes.
    pub size: u64,
    /// The transactions.
    pub ids: IdList,
}

/// Where one name stands to another in an order.
#[derive(Clone, Copy, Debug, PartialEq, Eq)]
pub enum Place {
    /// In front of it.
    Before,
    /// They are one name.
    Same,
    /// Behind it.
    After,
}

/// Why a command was refused. A refused command changes nothing.
#[derive(Clone, Copy, Debug, PartialEq, Eq)]
pub enum Refusal {
    /// A changing command was accepted before.
    Late,
    /// A limit is outside its range.
    Range,
    /// The fee is outside −2,100,000,000,000,000 to 2,100,000,000,000,000 satoshis.
    Fee,
    /// The size is outside 1 to 4,000,000 virtual bytes.
    Size,
    /// The name is live.
    Taken,
    /// A cluster would have this total size, which is over the limit.
    ClusterSize(u64),
    /// As many names are live as may be.
    Full,
    /// The name isn't in the level.
    Unknown(TxId),
    /// The child is an ancestor of the parent.
    Cycle,
    /// A cluster would have this many names, which is over the limit.
    Count(u64),
    /// A staging is open.
    Staging,
    /// The name is listed twice.
    Twice(TxId),
    /// The name has an ancestor that isn't listed.
    Parent(TxId),
    /// Main holds nothing.
    Empty,
    /// No staging is open.
    NoStaging,
    /// A component of the level that is spoken of is over a limit, so that the level has no order.
    Oversized,
    /// No mined block is left to take back.
    NoBlock,
    /// The name of the block is live again.
    Back(TxId),
    /// There was no memory.
    Memory,
}

impl Refusal {
    ghost use Rattle.graph_model.specs.Refusals.{number_of, told_as};

    /// The number of the refusal, from 3 to 21; 1 and 2 are of lines that are no command.
    pub fn number(&self) -> u8
        ensures { result ≡ number_of self.now }
    {
        self.told().0
    }

    /// The word that names the refusal in a reply.
    pub fn word(&self) -> &'static str
        ensures { result.now ≡ (told_as self.now).word }
    {
        self.told().1
    }

    /// The number that the refusal keeps: a name, a count or a size.
    pub fn kept(&self) -> Option<u64>
        ensures { result ≡ (told_as self.now).kept }
    {
        self.told().2
    }

    /// The number, the word and the number that is kept.
    fn told(&self) -> (u8, &'static str, Option<u64>)
        ensures number { result.0 ≡ (told_as self.now).number }
        ensures word { result.1.now ≡ (told_as self.now).word }
        ensures kept { result.2 ≡ (told_as self.now).kept }
    {
        match self {
            Refusal::Late => (3, "late", None),
            Refusal::Range => (4, "range", None),
            Refusal::Fee => (5, "fee", None),
            Refusal::Size => (6, "size", None),
            Refusal::Taken => (7, "taken", None),
            Refusal::ClusterSize(n) => (8, "clustersize", Some(*n)),
            Refusal::Full => (9, "full", None),
            Refusal::Unknown(id) => (10, "unknown", Some(*id)),
            Refusal::Cycle => (11, "cycle", None),
            Refusal::Count(n) => (12, "count", Some(*n)),
            Refusal::Staging => (13, "staging", None),
            Refusal::Twice(id) => (14, "twice", Some(*id)),
            Refusal::Parent(id) => (15, "parent", Some(*id)),
            Refusal::Empty => (16, "empty", None),
            Refusal::NoStaging => (17, "nostaging", None),
            Refusal::Memory => (18, "memory", None),
            Refusal::Oversized => (19, "oversized", None),
            Refusal::NoBlock => (20, "noblock", None),
            Refusal::Back(id) => (21, "back", Some(*id)),
        }
    }
}
