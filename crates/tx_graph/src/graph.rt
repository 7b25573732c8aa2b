ghost use Rattle.std.specs.Prelude.{◌≡◌, ◌≢◌, ℕ, ℤ, ◌+◌, ◌-◌, ◌*◌, ◌^◌, ◌<◌, ◌≤◌, ◌⊎◌, ◌↔◌, true, None, Some, List, [], ◌∷◌, length, map, option_map, is_ok, if◌then◌else◌, IsSome, IsTrue, IfOk, IfErr, OnErr, MatchResult, Contains};
ghost use Rattle.std.specs.FinMap as finmap;
ghost use Rattle.lists.specs.Distinct.{AreDistinct};
ghost use Rattle.std.specs.Iterator.{IsFinite};
ghost use Rattle.std.specs.Iterator.Adapters.{rev_source};
ghost use Rattle.graphs.specs.Closures.{is_member, is_ancestor, rate_of, AreLinked};
ghost use Rattle.graphs.specs.declared.names.Level as words;
ghost use Rattle.graphs.specs.declared.names.Level.TheVariants.{Main, Top};
ghost use Rattle.graphs.specs.declared.names.Verdict.TheVariants.{Better};
ghost use Rattle.graphs.specs.Graphs.{Lists};
ghost use Rattle.graph_model.specs.Limits.{AreInRange, bounds_of};
ghost use Rattle.graph_model.specs.declared.names.Refusal.TheVariants.{Memory, NoStaging};
ghost use Rattle.graph_model.specs.Oversize as model;
ghost use Rattle.graph_model.specs.States.{State, level_of, IsStaged};
ghost use Rattle.graph_model.specs.Answers.{order_of};
ghost use Rattle.graphs.specs.Certificates.{Part};
ghost use Rattle.graph_model.specs.Commands as commands;
ghost use Rattle.graph_model.specs.Commands.{SetLimits, Add, Dep, SetFee, Remove, Stage, Commit, Abort, Settle, Compare, Cluster, Ancestors, Descendants, Chunk, Before, Proof, Count, Block};
ghost use Rattle.graph_model.specs.Replies.{Reply, Number, Parts, Points, Proves, change_reply, names_reply, Built, Refused};
ghost use Rattle.graph_model.specs.Texts.{Text};
ghost use Rattle.diagram.specs.Points.{YieldsCorners};
ghost use Rattle.graphs.specs.Rates.{sum_of};
ghost use Rattle.cluster.specs.Clusters.{IsCluster};
ghost use Rattle.cluster.specs.Steps.{GrowsWithin};
ghost use Rattle.record.specs.Steps.{most_steps_fit};
ghost use Rattle.cluster_store.specs.Held.{Held as HeldPart};
ghost use Rattle.levels.specs.Held.{IsHeldIn};
ghost use Rattle.tx_graph.specs.Additions.{AddRefusalIs, CountsLive};
ghost use Rattle.tx_graph.specs.Kept.{Kept, StandsFor, MakesStep, start_within};
ghost use Rattle.levels.specs.Lefts.{DropsWithin};
ghost use Rattle.levels.specs.Levels.{GrowsForFee, IsLive, IsWithin, level_at};
ghost use Rattle.levels.specs.Orders.{ListsCovers, sums_of};
ghost use Rattle.levels.specs.Oversize.{IsOversized};
ghost use Rattle.levels.specs.Overs.{LendsOvers};
ghost use Rattle.levels.specs.Views.{AreItsClusters, IsClusterOf};
ghost use Rattle.tx_graph.specs.Dropped.{AreOfClusters, ArePaidBySize, IsBlockOf};
ghost use Rattle.tx_graph.specs.Readings.{AreMinimalIn, CompareRefusalIs, IsBestOrder, IsTextOf, NameRefusalIs, part_reply, place_reply, compare_reply, settle_reply};
ghost use Rattle.levels.specs.Stays.{AllStay};

use crate::order::{Components, Diagram, Forward, Held, Names, Numbered, Order, OrderBack, Over};
use cluster::PartRef;
use component::{Component, Covers};
use diagram::corners;
use fee_rate::FeeRate;
use graph_model::{IdBuf, Level, Limits, Place, Refusal, TxId, Verdict, is_fee, is_size};
use levels::Levels;
use outside::NoMemory;
use std::alloc::Global;
use std::marker::Model;
use step_count::{Ledger, Steps};

/// A transaction graph with clusters of at most 64·W transactions, where W is 1 or 2. It has two levels, as Bitcoin Core's
/// `txgraph.h` does: main and, where one is open, staging, a copy of main on which changes are tried. Main stays as it is meanwhile, but for
/// a new fee, which goes to each level that has the transaction.
///
/// The graph keeps, of each level, who is an ancestor of whom, and an optimal order. It doesn't keep the dependencies that the
/// ancestors came from. So a value stands for every state of the machine with these ancestors and these orders, and each call
/// is a step of the machine from each such state (clause `step`). A call that is refused leaves the graph as it was.
///
/// Where [`Limits::defer`] is set, a dependency may bring a cluster over the limits of a cluster. Its level is then *oversized* until it
/// is mended, say by a removal: it has no order, and what reads one is refused with [`Refusal::Oversized`], or has as a condition that the
/// level isn't oversized. All other calls are answered as ever.
///
/// A call that changes a level solves the clusters that it makes, and no others. It solves none that is over the limits. The solver
/// counts its steps in the caller's ledger. A cluster with the same transactions, ancestors, fees and sizes as before keeps its
/// chunks and their flows, in their order, whatever the call answers (clause `stays`). To open, commit or drop a staging solves
/// nothing.
///
/// Fees are in satoshis, sizes in virtual bytes.
#[derive(Drop)]
pub struct TxGraph<const W: usize> {
    pub(crate) begun: bool,
    pub(crate) alloc: Global,
    pub(crate) levels: Levels<W>,
}

// Clauses see the graph by names. Every value stands for some state.
impl<const W: usize> Model for TxGraph<W> {
    ghost use Rattle.std.specs.Prelude.{◌*◌};
    ghost use Rattle.tx_graph.specs.Kept.{Kept, kept_code};
    ghost use Rattle.tx_graph.specs.Sound.{IsSound};

    ghost Value = { Kept };

    ghost coded = { kept_code };

    ghost view = { λ a. record { most = 64 * W; begun = a.begun; levels = a.levels } };

    ghost invariant = { λ a. IsSound (record { most = 64 * W; begun = a.begun; levels = a.levels }) };
}

/// Whether a name is in main or in staging.
pub(crate) fn is_live<const W: usize>(levels: &Levels<W>, id: TxId) -> bool
    ensures { IsTrue result ↔ IsLive levels.now id }
{
    levels.has(Level::Main, id) || levels.has(Level::Top, id)
}

/// Why `add` is refused, other than for want of memory.
fn refused_add<const W: usize>(levels: &Levels<W>, id: TxId, fee: i64, size: u64) -> Option<Refusal>
    ensures row { (live : ℕ) → CountsLive levels.now live → AddRefusalIs levels.now live id fee size result }
{
    let limits = levels.limits();
    if !is_fee(fee) {
        return Some(Refusal::Fee);
    }
    if !is_size(size) {
        return Some(Refusal::Size);
    }
    if is_live(levels, id) {
        return Some(Refusal::Taken);
    }
    if size > limits.size {
        return Some(Refusal::ClusterSize(size));
    }
    if levels.live() as u64 >= limits.total {
        return Some(Refusal::Full);
    }
    None
}

/// Refuses where no staging is open.
fn needs_staging<const W: usize>(levels: &Levels<W>) -> Result<(), Refusal>
    ensures { MatchResult result (λ _. IsSome levels.now.staging)
        (λ why. (why ≡ NoStaging) × (levels.now.staging ≡ None)) }
{
    if !levels.is_staged() {
        return Err(Refusal::NoStaging);
    }
    Ok(())
}

/// Refuses where no staging is open, and else where one of the levels is oversized.
pub(crate) fn needs_orders<const W: usize>(levels: &Levels<W>) -> Result<(), Refusal>
    ensures { MatchResult result
        (λ _. IsSome levels.now.staging × IsWithin levels.now Main × IsWithin levels.now Top)
        (λ why. CompareRefusalIs levels.now (Some why)) }
{
    needs_staging(levels)?;
    if levels.oversized(Level::Main) || levels.oversized(Level::Top) {
        return Err(Refusal::Oversized);
    }
    Ok(())
}

/// Why a reading of a transaction is refused on a level that is oversized.
fn refused_over<const W: usize>(levels: &Levels<W>, level: Level, id: TxId) -> Refusal
    requires { IsOversized levels.now.limits (level_at levels.now level).graph }
    ensures { NameRefusalIs levels.now level id (Some result) }
{
    if !levels.has(level, id) {
        return Refusal::Unknown(id);
    }
    Refusal::Oversized
}

/// The cluster of a transaction. Refuses where the level hasn't the transaction, and else where it is oversized.
fn cluster_of<const W: usize>(
    levels: &Levels<W>,
    level: Level,
    id: TxId,
) -> Result<&Component<W>, Refusal>
    ensures { MatchResult result
        (λ c. (is_member (level_at levels.now level).graph id ≡ true) × IsWithin levels.now level
        × IsClusterOf (level_at levels.now level).graph id c.now × IsCluster (64 * W) c.now)
        (λ why. NameRefusalIs levels.now level id (Some why)) }
{
    if levels.oversized(level) {
        return Err(refused_over(levels, level, id));
    }
    match levels.find(level, id) {
        Some(cluster) => Ok(cluster),
        None => Err(Refusal::Unknown(id)),
    }
}

/// Commits a staging that is better, and drops any other.
fn close<const W: usize>(levels: &mut Levels<W>, verdict: Verdict)
    requires { IsSome levels.old.staging }
    ensures better { verdict ≡ Better → levels.new ≡ record levels.old { main = level_at levels.old Top; staging = None } }
    ensures other { verdict ≢ Better → levels.new ≡ record levels.old { staging = None } }
{
    match verdict {
        Verdict::Better => levels.commit(),
        _ => levels.abort(),
    }
}

/// The most names that the limit of a cluster may allow.
fn most_names<const W: usize>(levels: &Levels<W>) -> u64
    ensures { result ≡ 64 * W }
{
    // that sets of names have at most two words is a clause of this call
    let _issued = levels.issued();
    64 * W as u64
}

impl<const W: usize> TxGraph<W> {
    /// Makes an empty graph under these limits. Takes the memory in which orders are made.
    ///
    /// The limits are those of a cluster's transactions, of a cluster's size in virtual bytes, and of live transactions. Each is in
    /// its range, and a cluster may have at most 64·W transactions.
    ///
    /// # Errors
    ///
    /// Fails where there is no memory.
    pub fn new(alloc: Global, limits: Limits) -> Result<Self, NoMemory>
        requires in_range { AreInRange (64 * W) (bounds_of limits) }
        requires wide { 1 ≤ W }
        requires narrow { W ≤ 2 }
        ensures start { IfOk result (λ graph. StandsFor graph (start_within (64 * W) limits)) }
        ensures additions { IfOk result (λ graph. graph.levels.issued ≡ 0) }
    {
        Ok(TxGraph {
            begun: false,
            alloc,
            levels: Levels::new(alloc, limits)?,
        })
    }

    /// The limits in force.
    pub fn limits(&self) -> Limits
        ensures { result ≡ self.now.levels.limits }
    {
        self.levels.limits()
    }

    /// Whether a level is oversized: one of its components has more transactions, or a greater size, than a cluster may have. It never
    /// is where the limits don't let a dependency pass them ([`Limits::defer`]). Takes no memory.
    pub fn oversized(&self, level: Level) -> bool
        ensures exact { IsTrue result ↔ IsOversized self.now.levels.limits (level_at self.now.levels level).graph }
        ensures state { (state : State) → StandsFor self.now state → IsTrue result ↔ model.IsOversized state.plain level }
    {
        self.levels.oversized(level)
    }

    /// The components of a level that have more transactions, or a greater size, than a cluster may have. Each is lent once, as its
    /// transactions with their fees in satoshis and sizes in virtual bytes, and as dependencies of which walks lead from ancestors to
    /// descendants. Takes no memory, and costs nothing where no component of either level is over the limits.
    pub fn over(&self, level: Level) -> Over<'_, W>
        ensures components { LendsOvers self.now.levels.limits (level_at self.now.levels level).graph result }
    {
        self.levels.overs(level)
    }

    /// The transactions of a level, each once, in no order. Takes no memory. It costs the clusters of both levels, and the transactions of
    /// this one.
    pub fn names(&self, level: Level) -> Names<'_, W>
        ensures names { (id : ℕ) → Contains result id ↔ (is_member (level_at self.now.levels level).graph id ≡ true) }
        ensures once { AreDistinct result }
    {
        self.levels.names(level)
    }

    /// The components of a level, each once, in no order. One that is within the limits of a cluster is lent with its order, of which
    /// [`Component::covers`] tells the parents of a transaction with no third one between; one that is over them is lent with its dependencies
    /// ([`Record::links`](record::Record::links)). Sets of names have at most two words. Takes no memory. It costs the clusters of both levels.
    pub fn components(&self, level: Level) -> Components<'_, W>
        ensures components { AreItsClusters (level_at self.now.levels level).graph result }
        ensures narrow { W ≤ 2 }
    {
        self.levels.components(level)
    }

    /// How many transactions [`add`](TxGraph::add) and [`restore`](TxGraph::restore) put into the graph since it was made. Sets of names have
    /// at most two words.
    pub fn additions(&self) -> u64
        ensures additions { result ≡ self.now.levels.issued }
        ensures stands { (state : State) × StandsFor self.now state }
        ensures most { self.now.most ≡ 64 * W }
        ensures narrow { W ≤ 2 }
    {
        self.levels.issued()
    }

    /// Sets the limits. Takes no memory.
    ///
    /// # Errors
    ///
    /// Answers the first of these that holds, and leaves the graph as it was:
    ///
    /// - [`Refusal::Late`]: a change was accepted before, also one of limits.
    /// - [`Refusal::Range`]: a limit is outside its range.
    pub fn set_limits(&mut self, limits: Limits) -> Result<(), Refusal>
        ensures step { MakesStep self.old self.new (SetLimits (bounds_of limits)) (change_reply result) }
        ensures additions { self.new.levels.issued ≡ self.old.levels.issued }
    {
        if self.begun {
            return Err(Refusal::Late);
        }
        if !limits.are_in_range(most_names(&self.levels)) {
            return Err(Refusal::Range);
        }
        self.levels.set_limits(limits);
        self.begun = true;
        Ok(())
    }

    /// Adds a transaction to the top level, with its fee in satoshis and its size in virtual bytes. It has no dependencies
    /// yet, and its cluster takes no step of the solver.
    ///
    /// # Errors
    ///
    /// Answers the first of these that holds, and leaves the graph as it was:
    ///
    /// - [`Refusal::Fee`], [`Refusal::Size`]: the number is out of range.
    /// - [`Refusal::Taken`]: the transaction is in main or in staging.
    /// - [`Refusal::ClusterSize`], with the size: the size is over the limit of a cluster.
    /// - [`Refusal::Full`]: as many transactions are live as may be.
    /// - [`Refusal::Memory`]: there is no memory.
    pub fn add<L: Ledger>(
        &mut self,
        id: TxId,
        fee: i64,
        size: u64,
        steps: &mut Steps<L>,
    ) -> Result<(), Refusal>
        requires { self.old.levels.issued < 2 ^ 64 - 1 }
        ensures step { MakesStep self.old self.new (Add id fee size) (change_reply result) }
        ensures stays { AllStay self.old.levels self.new.levels }
        ensures additions { self.new.levels.issued ≡ self.old.levels.issued + (if is_ok result then 1 else 0) }
        ensures steps { steps.new ≡ steps.old }
    {
        if let Some(why) = refused_add(&self.levels, id, fee, size) {
            return Err(why);
        }
        if self.levels.add(id, fee, size, steps).is_err() {
            return Err(Refusal::Memory);
        }
        self.begun = true;
        Ok(())
    }

    /// Makes `child` depend on `parent` in the top level. Where `parent` is an ancestor of `child` already, clusters and orders
    /// stay as they are.
    ///
    /// A new dependency joins the clusters of the two, where they are in different ones. The solver takes at most 2·(n+2)^5
    /// steps for a cluster of n transactions that comes of this. It takes none for one that is over the limits, none where the
    /// parent is an ancestor already, nor where the call is refused for another reason than memory.
    ///
    /// # Errors
    ///
    /// Answers the first of these that holds, and leaves the graph as it was:
    ///
    /// - [`Refusal::Unknown`], with the name: the parent isn't in the top level; or the child isn't.
    /// - [`Refusal::Cycle`]: the child is an ancestor of the parent, or the parent itself.
    /// - [`Refusal::Count`], [`Refusal::ClusterSize`]: no dependency may pass the limits, and the two clusters are different, and
    ///   together have more transactions, or a greater size, than a cluster may have. The refusal tells the number or the size
    ///   that they have together.
    /// - [`Refusal::Memory`]: there is no memory.
    pub fn dep<L: Ledger>(
        &mut self,
        parent: TxId,
        child: TxId,
        steps: &mut Steps<L>,
    ) -> Result<(), Refusal>
        ensures step { MakesStep self.old self.new (Dep parent child) (change_reply result) }
        ensures stays { AllStay self.old.levels self.new.levels }
        ensures additions { self.new.levels.issued ≡ self.old.levels.issued }
        ensures refused { IfErr result (λ why. why ≢ Memory → steps.new ≡ steps.old) }
        ensures nothing { is_ancestor (level_at self.old.levels Top).graph parent child ≡ true → steps.new ≡ steps.old }
        ensures steps { (ids : List ℕ)
            → Lists (λ q. AreLinked (level_at self.old.levels Top).graph q parent
            ⊎ AreLinked (level_at self.old.levels Top).graph q child) ids
            → GrowsWithin (most_steps_fit self.old.levels.limits (level_at self.old.levels Top).graph ids) steps.old steps.new }
    {
        self.levels.dep(parent, child, steps)?;
        self.begun = true;
        Ok(())
    }

    /// Sets the fee of a transaction, in satoshis, in each level that has it. Where the transaction has that fee already, clusters
    /// and orders stay as they are.
    ///
    /// The solver takes at most 2·(n+2)^5 steps for the transaction's cluster of n transactions, one cluster for each level that
    /// has the transaction. It takes none for one that is over the limits, none where the fee is the same, nor where the call is
    /// refused for another reason than memory.
    ///
    /// # Errors
    ///
    /// Answers the first of these that holds, and leaves the graph as it was:
    ///
    /// - [`Refusal::Fee`]: the fee is out of range.
    /// - [`Refusal::Unknown`]: the transaction is neither in main nor in staging.
    /// - [`Refusal::Memory`]: there is no memory.
    pub fn fee<L: Ledger>(
        &mut self,
        id: TxId,
        fee: i64,
        steps: &mut Steps<L>,
    ) -> Result<(), Refusal>
        ensures step { MakesStep self.old self.new (SetFee id fee) (change_reply result) }
        ensures stays { AllStay self.old.levels self.new.levels }
        ensures additions { self.new.levels.issued ≡ self.old.levels.issued }
        ensures refused { IfErr result (λ why. why ≢ Memory → steps.new ≡ steps.old) }
        ensures nothing { ((level : words.Level) → is_member (level_at self.old.levels level).graph id ≡ true
            → (rate_of (level_at self.old.levels level).graph id).fee ≡ fee) → steps.new ≡ steps.old }
        ensures grew { steps.old ≤ steps.new }
        ensures steps { GrowsForFee id steps.old steps.new self.old.levels }
    {
        if !is_fee(fee) {
            return Err(Refusal::Fee);
        }
        if !is_live(&self.levels, id) {
            return Err(Refusal::Unknown(id));
        }
        if self.levels.set_fee(id, fee, steps).is_err() {
            return Err(Refusal::Memory);
        }
        self.begun = true;
        Ok(())
    }

    /// Removes a transaction from the top level. Its children come to depend on its parents, so the others keep the ancestors
    /// that they had among them.
    ///
    /// The solver takes at most the sum of 2·(n+2)^5 steps over the clusters of n transactions that are left of the
    /// transaction's cluster and are within the limits. It takes none where the call is refused for another reason than memory.
    ///
    /// # Errors
    ///
    /// Answers the first of these that holds, and leaves the graph as it was:
    ///
    /// - [`Refusal::Unknown`]: the transaction isn't in the top level.
    /// - [`Refusal::Memory`]: there is no memory.
    pub fn remove<L: Ledger>(&mut self, id: TxId, steps: &mut Steps<L>) -> Result<(), Refusal>
        ensures step { MakesStep self.old self.new (Remove id) (change_reply result) }
        ensures stays { AllStay self.old.levels self.new.levels }
        ensures additions { self.new.levels.issued ≡ self.old.levels.issued }
        ensures refused { IfErr result (λ why. why ≢ Memory → steps.new ≡ steps.old) }
        ensures steps { DropsWithin self.old.levels.limits (id ∷ []) (level_at self.old.levels Top).graph steps.old steps.new }
    {
        if !self.levels.has(Level::Top, id) {
            return Err(Refusal::Unknown(id));
        }
        if self.levels.remove(id, steps).is_err() {
            return Err(Refusal::Memory);
        }
        self.begun = true;
        Ok(())
    }

    /// Whether a staging is open.
    pub fn staged(&self) -> bool
        ensures { (state : State) → StandsFor self.now state → IsTrue result ↔ IsStaged state.plain }
    {
        self.levels.is_staged()
    }

    /// Opens a staging: a copy of main, with main's order. Takes no memory, and solves nothing.
    ///
    /// # Errors
    ///
    /// Answers [`Refusal::Staging`], and leaves the graph as it was, exactly where a staging is open.
    pub fn stage(&mut self) -> Result<(), Refusal>
        ensures step { MakesStep self.old self.new Stage (change_reply result) }
        ensures additions { self.new.levels.issued ≡ self.old.levels.issued }
    {
        if self.levels.is_staged() {
            return Err(Refusal::Staging);
        }
        self.levels.stage();
        self.begun = true;
        Ok(())
    }

    /// Makes main what staging is, with staging's order, and closes the staging. Takes no memory, and solves nothing.
    ///
    /// # Errors
    ///
    /// Answers [`Refusal::NoStaging`], and leaves the graph as it was, exactly where no staging is open.
    pub fn commit(&mut self) -> Result<(), Refusal>
        ensures step { MakesStep self.old self.new Commit (change_reply result) }
        ensures additions { self.new.levels.issued ≡ self.old.levels.issued }
    {
        needs_staging(&self.levels)?;
        self.levels.commit();
        self.begun = true;
        Ok(())
    }

    /// Drops the staging. Main keeps its order, and a fee that was set meanwhile stays set. Takes no memory, and solves nothing.
    ///
    /// # Errors
    ///
    /// Answers [`Refusal::NoStaging`], and leaves the graph as it was, exactly where no staging is open.
    pub fn abort(&mut self) -> Result<(), Refusal>
        ensures step { MakesStep self.old self.new Abort (change_reply result) }
        ensures additions { self.new.levels.issued ≡ self.old.levels.issued }
    {
        needs_staging(&self.levels)?;
        self.levels.abort();
        self.begun = true;
        Ok(())
    }

    /// How staging's feerate diagram stands to main's: `Better` where staging's is at or above main's at every size and above it
    /// at some, `Worse` the other way round, `Equal` where the two are the same, and else `Incomparable`. Takes no memory.
    ///
    /// # Errors
    ///
    /// Answers the first of these that holds:
    ///
    /// - [`Refusal::NoStaging`]: no staging is open.
    /// - [`Refusal::Oversized`]: main or staging is oversized.
    pub fn compare(&self) -> Result<Verdict, Refusal>
        ensures step { MakesStep self.now self.now Compare (compare_reply result) }
    {
        needs_orders(&self.levels)?;
        let found = self.levels.compare();
        Ok(found)
    }

    /// Commits the staging exactly where [`compare`](TxGraph::compare) would answer `Better`, and else drops it. Answers the
    /// verdict. Takes no memory, and solves nothing.
    ///
    /// # Errors
    ///
    /// Answers the first of these that holds, and leaves the graph as it was, so that an open staging stays open:
    ///
    /// - [`Refusal::NoStaging`]: no staging is open.
    /// - [`Refusal::Oversized`]: main or staging is oversized.
    pub fn settle(&mut self) -> Result<Verdict, Refusal>
        ensures step { MakesStep self.old self.new Settle (settle_reply result) }
        ensures additions { self.new.levels.issued ≡ self.old.levels.issued }
    {
        needs_orders(&self.levels)?;
        let verdict = self.levels.compare();
        close(&mut self.levels, verdict);
        self.begun = true;
        Ok(verdict)
    }

    /// Leaves the transactions of a transaction's cluster in `out`, itself among them, in rising order. Takes no memory.
    ///
    /// # Errors
    ///
    /// Answers the first of these that holds, and leaves `out` as it was:
    ///
    /// - [`Refusal::Unknown`]: the transaction isn't in the level.
    /// - [`Refusal::Oversized`]: the level is oversized.
    pub fn cluster(&self, level: Level, id: TxId, out: &mut IdBuf) -> Result<(), Refusal>
        requires { 64 * W ≤ length out.old.ids + out.old.room }
        ensures step { MakesStep self.now self.now (Cluster id level) (names_reply result out.new.ids) }
        ensures room { length out.new.ids + out.new.room ≡ length out.old.ids + out.old.room }
        ensures err { OnErr result (out.new ≡ out.old) }
    {
        let cluster = cluster_of(&self.levels, level, id)?;
        cluster.list_names(out);
        Ok(())
    }

    /// Leaves the ancestors of a transaction in `out`, itself among them, in rising order. Takes no memory.
    ///
    /// # Errors
    ///
    /// Answers the first of these that holds, and leaves `out` as it was:
    ///
    /// - [`Refusal::Unknown`]: the transaction isn't in the level.
    /// - [`Refusal::Oversized`]: the level is oversized.
    pub fn ancestors(&self, level: Level, id: TxId, out: &mut IdBuf) -> Result<(), Refusal>
        requires { 64 * W ≤ length out.old.ids + out.old.room }
        ensures step { MakesStep self.now self.now (Ancestors id level) (names_reply result out.new.ids) }
        ensures room { length out.new.ids + out.new.room ≡ length out.old.ids + out.old.room }
        ensures err { OnErr result (out.new ≡ out.old) }
    {
        let cluster = cluster_of(&self.levels, level, id)?;
        cluster.list_ancestors(id, out);
        Ok(())
    }

    /// Leaves the descendants of a transaction in `out`, itself among them, in rising order. Takes no memory.
    ///
    /// # Errors
    ///
    /// Answers the first of these that holds, and leaves `out` as it was:
    ///
    /// - [`Refusal::Unknown`]: the transaction isn't in the level.
    /// - [`Refusal::Oversized`]: the level is oversized.
    pub fn descendants(&self, level: Level, id: TxId, out: &mut IdBuf) -> Result<(), Refusal>
        requires { 64 * W ≤ length out.old.ids + out.old.room }
        ensures step { MakesStep self.now self.now (Descendants id level) (names_reply result out.new.ids) }
        ensures room { length out.new.ids + out.new.room ≡ length out.old.ids + out.old.room }
        ensures err { OnErr result (out.new ≡ out.old) }
    {
        let cluster = cluster_of(&self.levels, level, id)?;
        cluster.list_descendants(id, out);
        Ok(())
    }

    /// The chunks of a level in the level's order, each with its fee and size, its transactions, and the flows that certify it.
    /// The level isn't oversized. Takes no memory.
    ///
    /// The order is an optimal linearization of the whole level: no front of any linearization lies above its feerate diagram. No
    /// chunk can be split further: no smaller set of its transactions, closed within it, has its feerate. A certificate text that
    /// lists these chunks is what the machine answers to `proof`.
    pub fn order(&self, level: Level) -> Order<'_, W>
        requires within { IsWithin self.now.levels level }
        ensures parts { result ≡ (level_at self.now.levels level).parts }
        ensures step { MakesStep self.now self.now (commands.Order level) (Parts result) }
        ensures best { (state : State) → StandsFor self.now state → IsBestOrder state level result × AreMinimalIn state level result }
        ensures names { (id : ℕ) → Contains (order_of result) id
            ↔ (is_member (level_at self.now.levels level).graph id ≡ true) }
        ensures proof { (text : Text) → IsTextOf (level_at self.now.levels level) text
            → MakesStep self.now self.now (Proof level) (Proves text) }
    {
        Forward::new(self.levels.parts(level))
    }

    /// The same chunks from the last to the first. Takes no memory.
    pub fn order_back(&self, level: Level) -> OrderBack<'_, W>
        requires within { IsWithin self.now.levels level }
        ensures { rev_source result ≡ (level_at self.now.levels level).parts }
    {
        self.order(level).rev()
    }

    /// The same chunks, each with its cluster, which knows of its transactions what the level's graph does: the fee and the size of
    /// each, and its parents with no third transaction between, as they stand in the level's order. Sets of names have at most two
    /// words. Takes no memory.
    pub fn held(&self, level: Level) -> Held<'_, W>
        requires within { IsWithin self.now.levels level }
        ensures parts { map (λ h. h.part) result ≡ (level_at self.now.levels level).parts }
        ensures clusters { (h : HeldPart) → Contains result h → IsHeldIn (level_at self.now.levels level) h }
        ensures narrow { W ≤ 2 }
    {
        self.levels.held(level)
    }

    /// The chunks of main in main's order, each with the number of its cluster. Two chunks have one number exactly where they are of
    /// one cluster. Main isn't oversized. Takes no memory.
    ///
    /// The chunks that a block takes of these are what the machine answers to `block`.
    pub fn numbered(&self) -> Numbered<'_, W>
        requires within { IsWithin self.now.levels Main }
        ensures parts { map (λ s. s.part) result ≡ self.now.levels.main.parts }
        ensures numbers { (state : State) → StandsFor self.now state → AreOfClusters state.plain.main result }
        ensures rates { ArePaidBySize self.now.levels.main.parts }
        ensures block { (size : ℕ) (taken : List Part) → IsBlockOf self.now size taken
            → MakesStep self.now self.now (Block size) (Built (sum_of (sums_of taken)) (order_of taken)) }
        ensures memory { (size : ℕ) → MakesStep self.now self.now (Block size) (Refused Memory) }
    {
        self.levels.parts(Level::Main)
    }

    /// A size, in virtual bytes, that no transaction of main is below, and so no chunk where main isn't oversized. Takes no memory.
    pub fn least(&self) -> u64
        ensures names { (id : ℕ) → is_member self.now.levels.main.graph id ≡ true
            → result ≤ (rate_of self.now.levels.main.graph id).size }
        ensures parts { IsWithin self.now.levels Main → (part : Part) → Contains self.now.levels.main.parts part
            → result ≤ part.rate.size }
    {
        self.levels.least()
    }

    /// The corners of a level's feerate diagram, from (0, 0) on: sizes in virtual bytes, each with the most that a closed set of
    /// that size pays, in satoshis. The level isn't oversized. Takes no memory.
    ///
    /// The corners are the ends of the chunks, where chunks of equal feerate count as one. Every optimal order of the level has
    /// the same corners.
    pub fn diagram(&self, level: Level) -> Diagram<'_, W>
        requires within { IsWithin self.now.levels level }
        ensures can { ⟦<Diagram<'static, W> as Iterator>⟧.can_next result }
        ensures ends { IsFinite (⟦<Diagram<'static, W> as Iterator>⟧.remaining result) }
        ensures step { (points : List (ℕ × ℤ)) × YieldsCorners ⟦<Diagram<'static, W> as Iterator>⟧.next_gives result points
            × MakesStep self.now self.now (commands.Diagram level) (Points points) }
    {
        corners(self.levels.rates(level))
    }

    /// The chunk of main's order that has a transaction. Takes no memory.
    ///
    /// # Errors
    ///
    /// Answers the first of these that holds:
    ///
    /// - [`Refusal::Unknown`]: the transaction isn't in main.
    /// - [`Refusal::Oversized`]: main is oversized.
    pub fn chunk(&self, id: TxId) -> Result<PartRef<'_>, Refusal>
        ensures step { MakesStep self.now self.now (Chunk id) (part_reply result) }
    {
        if self.levels.oversized(Level::Main) {
            return Err(refused_over(&self.levels, Level::Main, id));
        }
        match self.levels.chunk(id) {
            Some(part) => Ok(part),
            None => Err(Refusal::Unknown(id)),
        }
    }

    /// Where `a` stands to `b` in main's order: `Before`, `After`, or `Same` exactly where they are the same transaction. Takes no
    /// memory.
    ///
    /// # Errors
    ///
    /// Answers the first of these that holds:
    ///
    /// - [`Refusal::Unknown`], with the first of the two that isn't in main.
    /// - [`Refusal::Oversized`]: main is oversized.
    pub fn before(&self, a: TxId, b: TxId) -> Result<Place, Refusal>
        ensures step { MakesStep self.now self.now (Before a b) (place_reply result) }
    {
        if !self.levels.has(Level::Main, a) {
            return Err(Refusal::Unknown(a));
        }
        if !self.levels.has(Level::Main, b) {
            return Err(Refusal::Unknown(b));
        }
        if self.levels.oversized(Level::Main) {
            return Err(Refusal::Oversized);
        }
        Ok(self.levels.place(a, b))
    }

    /// The parents of a transaction with no third transaction between, as they stand in the level's order. Takes no memory. The
    /// transaction is in the level, and the level isn't oversized.
    pub fn covers(&self, level: Level, id: TxId) -> Covers<'_, W>
        requires within { IsWithin self.now.levels level }
        requires live { is_member (level_at self.now.levels level).graph id ≡ true }
        ensures { ListsCovers (level_at self.now.levels level).graph (order_of (level_at self.now.levels level).parts) id
            result }
    {
        self.levels.covers(level, id)
    }

    /// How many transactions a level has.
    pub fn count(&self, level: Level) -> usize
        ensures { MakesStep self.now self.now (Count level) (Number result) }
    {
        self.levels.count(level)
    }

    /// Whether a level has the transaction.
    pub fn exists(&self, level: Level, id: TxId) -> bool
        ensures { (state : State) → StandsFor self.now state → IsTrue result
            ↔ Contains (level_of state.plain level).names id }
    {
        self.levels.has(level, id)
    }

    /// The fee of a transaction, in satoshis, and its size, in virtual bytes. The transaction is in the level.
    pub fn rate(&self, level: Level, id: TxId) -> FeeRate
        requires { is_member (level_at self.now.levels level).graph id ≡ true }
        ensures { result ≡ rate_of (level_at self.now.levels level).graph id }
    {
        match self.levels.rate(level, id) {
            Some(rate) => rate,
            None => unreachable!(),
        }
    }

    /// The fee of a transaction, in satoshis, and its size, in virtual bytes; `None` where it is neither in main nor in staging.
    pub fn sums(&self, id: TxId) -> Option<FeeRate>
        ensures { (state : State) → StandsFor self.now state
            → finmap.get state.plain.table id ≡ option_map (λ rate. record { fee = rate.fee; size = rate.size }) result }
    {
        if let Some(rate) = self.levels.rate(Level::Main, id) {
            return Some(rate);
        }
        self.levels.rate(Level::Top, id)
    }
}
