ghost use Rattle.std.specs.Prelude.{◌≡◌, ◌↔◌, ◌+◌, ◌-◌, ◌*◌, ◌^◌, ◌<◌, ◌≤◌, false, IsTrue, [], ◌∷◌, length, IfOk, OnOk, if◌then◌else◌, is_ok, MatchResult, Contains, IsSome};
ghost use Rattle.fee_rate.specs.declared.limits.TheConstants.{MAX_SIZE};
ghost use Rattle.graph_model.specs.Limits.{AreInRange, bounds_of};
ghost use Rattle.plain_graph.specs.declared.limits.TheConstants.{MAX_NAMES};
ghost use Rattle.graphs.specs.Graphs.{AreConnected};
ghost use Rattle.plain_graph.specs.Walks.{HoldsAll};
ghost use Rattle.plain_graph.specs.Sound.{AreSmall};
ghost use Rattle.plain_graph.specs.Joins.{JoinRefusalIs};
ghost use Rattle.plain_graph.specs.Overs.{WalkRefusalIs};
ghost use Rattle.graph_model.specs.Commands.{SetLimits, Add, Dep, SetFee, Remove, Cluster, Ancestors, Descendants, Count};
ghost use Rattle.graph_model.specs.Replies.{Number};

use crate::limits::MAX_NAMES;
use crate::over::is_over;
use crate::pairs::without;
use crate::tx::Tx;
use crate::txs::{drop_name, is_live, set_fee, total_size};
use crate::walk::{Way, has_pair, leads, reach};
use graph_model::{DEFAULT_LIMITS, IdBuf, Level, Limits, Refusal, TxId, is_fee, is_size};
use outside::NoMemory;
use std::alloc::Global;
use std::marker::Model;

/// The plain graph: every call walks its lists.
#[derive(Drop)]
pub struct Plain {
    alloc: Global,
    limits: Limits,
    begun: bool,
    /// Whether a cluster is over the limits, where pairs may bring one over them.
    over: bool,
    txs: Vec<Tx>,
    pairs: Vec<(TxId, TxId)>,
    found: IdBuf,
    additions: u64,
}

impl Model for Plain {
    ghost use Rattle.std.specs.Prelude.{◌+◌, length};
    ghost use Rattle.plain_graph.specs.Plain.{Kept};
    ghost use Rattle.plain_graph.specs.Overs.{IsRight};

    ghost Value = { Kept };

    ghost view = { λ a. record { limits = a.limits; begun = a.begun; txs = a.txs.items; pairs = a.pairs.items; found = a.found.ids; additions = a.additions } };

    ghost invariant = { λ a. IsRight a.limits a.txs.items a.pairs.items (length a.found.ids + a.found.room) a.over };
}

/// Makes room for at least this many names, where there is less. The list is empty then.
fn make_room(found: &mut IdBuf, alloc: Global, names: usize) -> Result<(), NoMemory>
    ensures ok { OnOk result (names ≤ length found.new.ids + found.new.room) }
    ensures kept { length found.old.ids + found.old.room ≤ length found.new.ids + found.new.room }
{
    let most = found.capacity();
    if names > most {
        *found = IdBuf::new(alloc, names.max(most.saturating_mul(2)))?;
    }
    Ok(())
}

/// Which limit the component breaks that a pair would make of two; none where pairs may bring one over
/// the limits. Takes no memory.
fn refused_join(
    limits: &Limits,
    txs: &[Tx],
    pairs: &[(TxId, TxId)],
    found: &mut IdBuf,
    parent: TxId,
    child: TxId,
) -> Option<Refusal>
    requires in_range { AreInRange MAX_NAMES (bounds_of limits.now) }
    requires small { AreSmall txs.now }
    requires apart { AreConnected pairs.now parent child → ⊥ }
    requires room { HoldsAll pairs.now (parent ∷ child ∷ []) (length found.old.ids + found.old.room) }
    ensures first { JoinRefusalIs limits.now txs.now pairs.now parent child result }
    ensures room { length found.new.ids + found.new.room ≡ length found.old.ids + found.old.room }
{
    if limits.defer {
        return None;
    }
    reach(found, pairs, &[parent, child], Way::Either);
    let count = found.ids().len() as u64;
    if count > limits.count {
        return Some(Refusal::Count(count));
    }
    let size = total_size(txs, found.ids());
    if size > limits.size {
        return Some(Refusal::ClusterSize(size));
    }
    None
}

impl Plain {
    ghost use Rattle.graph_model.specs.Replies.{change_reply, names_reply};
    ghost use Rattle.plain_graph.specs.Plain.{Kept, StandsFor, Steps, entry_in};
    ghost use Rattle.graph_model.specs.States.{PlainState, plain_start};
    ghost use Rattle.graph_model.specs.Refusals.{RefusalIs};
    ghost use Rattle.graph_model.specs.Oversize.{IsOversized};
    ghost use Rattle.graphs.specs.Graphs.{Lists};
    ghost use Rattle.plain_graph.specs.Sound.{names_of};
    ghost use Rattle.plain_graph.specs.Walks.{Reaches};

    /// An empty graph with the default limits: clusters of at most 64 names and 404,000 virtual
    /// bytes, and 1,048,576 live names. Fails where there is no memory for its first room.
    pub fn new(alloc: Global) -> Result<Plain, NoMemory>
        ensures start { IfOk result (λ graph. StandsFor graph (plain_start MAX_NAMES)) }
        ensures additions { IfOk result (λ graph. graph.additions ≡ 0) }
    {
        Ok(Plain {
            alloc,
            limits: DEFAULT_LIMITS,
            begun: false,
            over: false,
            txs: Vec::new(alloc),
            pairs: Vec::new(alloc),
            found: IdBuf::new(alloc, 64)?,
            additions: 0,
        })
    }

    /// Another graph of the same names and pairs, under the same limits. No reading has found a name in it.
    pub fn copied(&self) -> Result<Plain, NoMemory>
        ensures { IfOk result (λ graph. graph ≡ record self.now { found = [] }) }
    {
        let mut txs = Vec::new(self.alloc);
        txs.extend_from_slice(&self.txs)?;
        let mut pairs = Vec::new(self.alloc);
        pairs.extend_from_slice(&self.pairs)?;
        Ok(Plain {
            alloc: self.alloc,
            limits: self.limits,
            begun: self.begun,
            over: self.over,
            txs,
            pairs,
            found: IdBuf::new(self.alloc, self.found.capacity())?,
            additions: self.additions,
        })
    }

    /// How many additions were accepted.
    pub fn additions(&self) -> u64
        ensures { result ≡ self.now.additions }
    {
        self.additions
    }

    /// Why `set_limits` is refused.
    fn refused_limits(&self, limits: &Limits) -> Option<Refusal>
        ensures first { (state : PlainState) → StandsFor self.now state
            → RefusalIs state (SetLimits (bounds_of limits.now)) result }
        ensures in_range { result ≡ None → AreInRange MAX_NAMES (bounds_of limits.now) }
    {
        if self.begun {
            return Some(Refusal::Late);
        }
        if !limits.are_in_range(MAX_NAMES) {
            return Some(Refusal::Range);
        }
        None
    }

    /// Sets the limits. Takes no memory.
    ///
    /// With `defer` a dependency may bring a cluster over the limits. Its level is oversized then, and
    /// `cluster`, `ancestors` and `descendants` are refused until all clusters are within them again.
    ///
    /// Refused with `Late` where a change was accepted before, limits among them, and else with
    /// `Range` where a limit is outside its range. The graph stays as it was then.
    pub fn set_limits(&mut self, limits: Limits) -> Result<(), Refusal>
        ensures step { Steps self.old self.new (SetLimits (bounds_of limits)) (change_reply result) }
        ensures additions { self.new.additions ≡ self.old.additions }
    {
        if let Some(why) = self.refused_limits(&limits) {
            return Err(why);
        }
        self.limits = limits;
        self.over = is_over(&self.limits, &self.txs, &self.pairs, &mut self.found);
        self.begun = true;
        Ok(())
    }

    /// Why `add` is refused, other than for want of memory.
    fn refused_add(&self, id: TxId, fee: i64, size: u64) -> Option<Refusal>
        ensures first { (state : PlainState) → StandsFor self.now state → RefusalIs state (Add id fee size) result }
        ensures new_name { result ≡ None → entry_in self.now.txs id ≡ None }
        ensures small { result ≡ None → size ≤ MAX_SIZE }
    {
        if !is_fee(fee) {
            return Some(Refusal::Fee);
        }
        if !is_size(size) {
            return Some(Refusal::Size);
        }
        if is_live(&self.txs, id) {
            return Some(Refusal::Taken);
        }
        if size > self.limits.size {
            return Some(Refusal::ClusterSize(size));
        }
        if self.txs.len() as u64 >= self.limits.total {
            return Some(Refusal::Full);
        }
        None
    }

    /// Adds a name with its fee, in satoshis, and its size, in virtual bytes. It has no pairs then.
    ///
    /// Refused, by the first of these that holds: `Fee` and `Size` where the number is out of range,
    /// `Taken` where the name is live, `ClusterSize` with the size where that is over the limit of a
    /// cluster, `Full` where as many names are live as may be, `Memory` where there is none. The
    /// graph stays as it was then.
    pub fn add(&mut self, id: TxId, fee: i64, size: u64) -> Result<(), Refusal>
        requires { self.old.additions < 2 ^ 64 - 1 }
        ensures step { Steps self.old self.new (Add id fee size) (change_reply result) }
        ensures additions { self.new.additions ≡ self.old.additions + (if is_ok result then 1 else 0) }
    {
        if let Some(why) = self.refused_add(id, fee, size) {
            return Err(why);
        }
        let names = self.txs.len() + 1;
        if make_room(&mut self.found, self.alloc, names).is_err() {
            return Err(Refusal::Memory);
        }
        if self.txs.push(Tx { id, fee, size }).is_err() {
            return Err(Refusal::Memory);
        }
        self.over = is_over(&self.limits, &self.txs, &self.pairs, &mut self.found);
        self.begun = true;
        self.additions += 1;
        Ok(())
    }

    /// Why `dep` is refused, other than for want of memory. Takes no memory.
    fn refused_dep(&mut self, parent: TxId, child: TxId) -> Option<Refusal>
        ensures first { (state : PlainState) → StandsFor self.old state → RefusalIs state (Dep parent child) result }
        ensures ends { result ≡ None → Contains (names_of self.old.txs) parent
            × Contains (names_of self.old.txs) child }
        ensures same { self.new ≡ record self.old { found = self.new.found } }
    {
        if !is_live(&self.txs, parent) {
            return Some(Refusal::Unknown(parent));
        }
        if !is_live(&self.txs, child) {
            return Some(Refusal::Unknown(child));
        }
        if leads(&mut self.found, &self.pairs, parent, child, Way::Up) {
            return Some(Refusal::Cycle);
        }
        if leads(&mut self.found, &self.pairs, parent, child, Way::Either) {
            return None;
        }
        refused_join(
            &self.limits,
            &self.txs,
            &self.pairs,
            &mut self.found,
            parent,
            child,
        )
    }

    /// Makes one name a parent of another. A pair that is there already is accepted again.
    ///
    /// Refused, by the first of these that holds: `Unknown` with the name where the parent or the
    /// child isn't live, `Cycle` where the child is an ancestor of the parent, `Count` and
    /// `ClusterSize`, with what the cluster would have, where the pair would join two to one over a
    /// limit that no pair may pass, `Memory` where there is none. The graph stays as it was then.
    pub fn dep(&mut self, parent: TxId, child: TxId) -> Result<(), Refusal>
        ensures step { Steps self.old self.new (Dep parent child) (change_reply result) }
        ensures additions { self.new.additions ≡ self.old.additions }
    {
        if let Some(why) = self.refused_dep(parent, child) {
            return Err(why);
        }
        if has_pair(&self.pairs, parent, child) {
            self.begun = true;
            return Ok(());
        }
        if self.pairs.push((parent, child)).is_err() {
            return Err(Refusal::Memory);
        }
        self.over = is_over(&self.limits, &self.txs, &self.pairs, &mut self.found);
        self.begun = true;
        Ok(())
    }

    /// Why `fee` is refused, other than for want of memory.
    fn refused_fee(&self, id: TxId, fee: i64) -> Option<Refusal>
        ensures first { (state : PlainState) → StandsFor self.now state → RefusalIs state (SetFee id fee) result }
        ensures live { result ≡ None → IsSome (entry_in self.now.txs id) }
    {
        if !is_fee(fee) {
            return Some(Refusal::Fee);
        }
        if !is_live(&self.txs, id) {
            return Some(Refusal::Unknown(id));
        }
        None
    }

    /// Sets the fee of a name, in satoshis. Takes no memory.
    ///
    /// Refused, by the first of these that holds: `Fee` where the number is out of range, `Unknown`
    /// where the name isn't live. The graph stays as it was then.
    pub fn fee(&mut self, id: TxId, fee: i64) -> Result<(), Refusal>
        ensures step { Steps self.old self.new (SetFee id fee) (change_reply result) }
        ensures additions { self.new.additions ≡ self.old.additions }
    {
        if let Some(why) = self.refused_fee(id, fee) {
            return Err(why);
        }
        set_fee(&mut self.txs, id, fee);
        self.begun = true;
        Ok(())
    }

    /// Removes a name. Each of its parents becomes a parent of each of its children, so that the
    /// other names keep their ancestors.
    ///
    /// Refused with `Unknown` where the name isn't live, and else with `Memory` where there is none.
    /// The graph stays as it was then.
    pub fn remove(&mut self, id: TxId) -> Result<(), Refusal>
        ensures step { Steps self.old self.new (Remove id) (change_reply result) }
        ensures additions { self.new.additions ≡ self.old.additions }
    {
        if !is_live(&self.txs, id) {
            return Err(Refusal::Unknown(id));
        }
        let Ok(pairs) = without(self.alloc, &self.pairs, id) else {
            return Err(Refusal::Memory);
        };
        self.pairs = pairs;
        drop_name(&mut self.txs, id);
        self.over = is_over(&self.limits, &self.txs, &self.pairs, &mut self.found);
        self.begun = true;
        Ok(())
    }

    /// The names that walks lead to from a name, in `found`. Takes no memory.
    fn walk(&mut self, id: TxId, way: Way) -> Result<(), Refusal>
        ensures found { MatchResult result
            (λ _. WalkRefusalIs self.old id None × Lists (Reaches way self.old.pairs id) self.new.found)
            (λ why. WalkRefusalIs self.old id (Some why)) }
        ensures same { self.new ≡ record self.old { found = self.new.found } }
    {
        if !is_live(&self.txs, id) {
            return Err(Refusal::Unknown(id));
        }
        if self.over {
            return Err(Refusal::Oversized);
        }
        reach(&mut self.found, &self.pairs, &[id], way);
        Ok(())
    }

    /// Finds the names of a name's cluster, itself among them, which are in `found` then: those that
    /// pairs, taken in either direction, lead to. Takes no memory.
    ///
    /// Refused with `Unknown` where the name isn't live, and else with `Oversized` where the level is
    /// oversized. The graph stays as it was either way.
    pub fn cluster(&mut self, id: TxId, level: Level) -> Result<(), Refusal>
        ensures step { Steps self.old self.new (Cluster id level) (names_reply result self.new.found) }
        ensures additions { self.new.additions ≡ self.old.additions }
    {
        // There is no staging, so both words speak of main.
        let _ = level;
        self.walk(id, Way::Either)
    }

    /// Finds the ancestors of a name, itself among them, which are in `found` then. Takes no memory.
    ///
    /// Refused with `Unknown` where the name isn't live, and else with `Oversized` where the level is
    /// oversized. The graph stays as it was either way.
    pub fn ancestors(&mut self, id: TxId, level: Level) -> Result<(), Refusal>
        ensures step { Steps self.old self.new (Ancestors id level) (names_reply result self.new.found) }
        ensures additions { self.new.additions ≡ self.old.additions }
    {
        // There is no staging, so both words speak of main.
        let _ = level;
        self.walk(id, Way::Up)
    }

    /// Finds the descendants of a name, itself among them, which are in `found` then. Takes no memory.
    ///
    /// Refused with `Unknown` where the name isn't live, and else with `Oversized` where the level is
    /// oversized. The graph stays as it was either way.
    pub fn descendants(&mut self, id: TxId, level: Level) -> Result<(), Refusal>
        ensures step { Steps self.old self.new (Descendants id level) (names_reply result self.new.found) }
        ensures additions { self.new.additions ≡ self.old.additions }
    {
        // There is no staging, so both words speak of main.
        let _ = level;
        self.walk(id, Way::Down)
    }

    /// The names that the last accepted reading found, in rising order. They last until the next reading
    /// or change of the graph.
    pub fn found(&self) -> &[TxId]
        ensures { result.now ≡ self.now.found }
    {
        self.found.ids()
    }

    /// The transactions, each once.
    pub fn txs(&self) -> &[Tx]
        ensures { result.now ≡ self.now.txs }
    {
        &self.txs
    }

    /// The pairs, the parent first in each.
    pub fn pairs(&self) -> &[(TxId, TxId)]
        ensures { result.now ≡ self.now.pairs }
    {
        &self.pairs
    }

    /// Whether a level is oversized: one of its clusters is over the limits, which stands only where
    /// dependencies may bring one over them. Takes no memory.
    pub fn oversized(&self, level: Level) -> bool
        ensures { (state : PlainState) → StandsFor self.now state → IsTrue result ↔ IsOversized state level }
    {
        // There is no staging, so both words speak of main.
        let _ = level;
        self.over
    }

    /// How many names a level has.
    pub fn count(&self, level: Level) -> usize
        ensures { Steps self.now self.now (Count level) (Number result) }
    {
        self.txs.len()
    }
}
