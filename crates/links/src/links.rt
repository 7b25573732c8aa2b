ghost use Rattle.std.specs.Prelude.{◌≡◌, ◌↔◌, ℕ, ◌<◌, ◌++◌, not, length, map, slice_index, Contains, IsTrue, IfOk};
ghost use Rattle.std.specs.List.{filter};
ghost use Rattle.lists.specs.Distinct.{AreDistinct};
ghost use Rattle.fee_rate.specs.Limits.{IsFee};
ghost use Rattle.graphs.specs.Graphs.{IsAncestor, HasNoCycle};
ghost use Rattle.graphs.specs.Unions.{IsKin};
ghost use Rattle.links.specs.Links.{AreAmong, AreInRange, AreLinks, AreSame, Has};
ghost use Rattle.links.specs.Kept.{coming, names_of};
ghost use Rattle.links.specs.Pairs.{AreAcross, AreSplit, HasMore};
ghost use Rattle.links.specs.Leaving.{ArePairsLeft, KeepAncestors, goes};
ghost use Rattle.links.specs.Pricing.{priced};
ghost use Rattle.links.specs.Parts.{AreComponentsOf};

use crate::gathering::components;
use crate::link_walk::LinkWalk;
use crate::listing::{has_place, list_names};
use crate::making::{joined, linked, without};
use crate::maps::{Maps, maps_of};
use crate::pairs::each_once;
use crate::pricing::with_fee;
use crate::walker::{Walker, walk, walk_all};
use graphs::{Kin, TxId};
use outside::NoMemory;
use places::place_of;
use std::alloc::Global;
use std::marker::Model;

/// Transactions that dependencies connect, without an order.
///
/// Each transaction has a name, a fee in satoshis and a size in virtual bytes. A dependency is a pair (parent, child).
///
/// A call that makes links fails only where there is no memory. No other call takes memory: the room for walks is taken when the
/// links are made, so the two calls that walk take `&mut self`.
#[derive(Drop)]
pub struct Links {
    txs: Vec<(TxId, i64, u64)>,
    pairs: Vec<(TxId, TxId)>,
    maps: Maps,
    walker: Walker,
    // the names that the last walk found
    listed: Vec<TxId>,
}

// Clauses see the transactions and the pairs.
impl Model for Links {
    ghost use Rattle.std.specs.Prelude.{vec_capacity};
    ghost use Rattle.links.specs.Links.{Links};
    ghost use Rattle.links.specs.Kept.{AreKept};

    ghost Value = { Links };

    ghost view = { λ a. record { txs = a.txs.items; pairs = a.pairs.items } };

    ghost invariant = { λ a. AreKept a.txs.items a.pairs.items a.maps a.walker (vec_capacity a.listed) };
}

impl Links {
    ghost use Rattle.std.specs.Io.BufRead.{Rests};
    ghost use Rattle.std.specs.Borrow.{sem};
    ghost use Rattle.links.specs.contracts.links.Links.{the_row};

    /// Makes links of transactions (name, fee in satoshis, size in virtual bytes) and pairs (parent, child). Pairs that are listed
    /// more than once count once. The work is linear in transactions and pairs.
    pub fn new(
        alloc: Global,
        txs: &[(TxId, i64, u64)],
        pairs: &[(TxId, TxId)],
    ) -> Result<Links, NoMemory>
        requires once { AreDistinct (names_of txs.now) }
        requires in_range { AreInRange txs.now }
        requires among { AreAmong (names_of txs.now) pairs.now }
        requires no_cycle { HasNoCycle pairs.now }
        ensures txs { IfOk result (λ links. links.txs ≡ txs.now) }
        ensures pairs { IfOk result (λ links. AreSame pairs.now links.pairs) }
    {
        let txs = Vec::from_slice(alloc, txs)?;
        made(alloc, txs, pairs)
    }

    /// Makes the links in which `child` depends on `parent`, both of them names of these links, which stay as they are. A pair that is
    /// there already is left as it is. The work is linear in transactions and pairs.
    pub fn linked(&self, alloc: Global, parent: TxId, child: TxId) -> Result<Links, NoMemory>
        requires parent { Has self.now parent }
        requires child { Has self.now child }
        requires no_cycle { IsAncestor self.now.pairs child parent → ⊥ }
        ensures txs { IfOk result (λ links. links.txs ≡ self.now.txs) }
        ensures pairs { IfOk result (λ links. HasMore self.now.pairs links.pairs (parent, child)) }
    {
        linked(alloc, self.txs(), self.pairs(), parent, child)
    }

    /// Makes one set of links of two, in which `child` depends on `parent`: one of them is a name of these links, the other one of
    /// `other`. The transactions of these links come first. Both stay as they are. The work is linear in transactions and pairs.
    pub fn joined(
        &self,
        alloc: Global,
        other: &Links,
        parent: TxId,
        child: TxId,
    ) -> Result<Links, NoMemory>
        requires apart { AreSplit (names_of self.now.txs) (names_of other.now.txs) }
        requires across { AreAcross (names_of self.now.txs) (names_of other.now.txs) parent child }
        ensures txs { IfOk result (λ links. links.txs ≡ self.now.txs ++ other.now.txs) }
        ensures pairs { IfOk result (λ links. HasMore (self.now.pairs ++ other.now.pairs) links.pairs (parent, child)) }
    {
        joined(
            alloc,
            self.txs(),
            self.pairs(),
            other.txs(),
            other.pairs(),
            parent,
            child,
        )
    }

    /// Makes the links that are left without some names: one set of links, of one component or of several. Where a name goes, each of
    /// its parents becomes a parent of each of its children, so the others keep the ancestors that they had among them. These links stay
    /// as they are. The work is linear in transactions and pairs where names go with all their ancestors, or with all their descendants.
    pub fn without(&self, alloc: Global, names: &[TxId]) -> Result<Links, NoMemory>
        requires { (id : ℕ) → Contains names.now id → Has self.now id }
        ensures txs { IfOk result (λ links. links.txs ≡ filter (λ tx. not (goes names.now tx.0)) self.now.txs) }
        ensures pairs { IfOk result (λ links. ArePairsLeft self.now.pairs names.now links.pairs) }
        ensures ancestors { IfOk result (λ links. KeepAncestors self.now.pairs names.now links.pairs) }
    {
        without(alloc, self.txs(), self.pairs(), names)
    }

    /// Makes the links in which one name has another fee, in satoshis. These links stay as they are. The work is linear in transactions
    /// and pairs.
    pub fn with_fee(&self, alloc: Global, id: TxId, fee: i64) -> Result<Links, NoMemory>
        requires id { Has self.now id }
        requires fee { IsFee fee }
        ensures txs { IfOk result (λ links. links.txs ≡ map (priced id fee) self.now.txs) }
        ensures pairs { IfOk result (λ links. AreSame self.now.pairs links.pairs) }
    {
        with_fee(alloc, self.txs(), self.pairs(), id, fee)
    }

    /// Makes the links of each component, in the order of the first name of each. These links stay as they are. The work is linear in
    /// transactions and pairs, for all components together.
    pub fn components(&self, alloc: Global) -> Result<Vec<Links>, NoMemory>
        ensures { IfOk result (λ parts. AreComponentsOf self.now parts.items) }
    {
        let _walker = &self.walker;
        let _listed = &self.listed;
        components(
            alloc,
            self.txs.as_slice(),
            self.pairs.as_slice(),
            &self.maps,
        )
    }

    /// The transactions, each a name, a fee in satoshis and a size in virtual bytes.
    pub fn txs(&self) -> &[(TxId, i64, u64)]
        ensures txs { result.now ≡ self.now.txs }
        ensures whole { AreLinks self.now }
    {
        let _pairs = &self.pairs;
        let _maps = &self.maps;
        let _walker = &self.walker;
        let _listed = &self.listed;
        self.txs.as_slice()
    }

    /// The dependencies as pairs (parent, child), each once.
    pub fn pairs(&self) -> &[(TxId, TxId)]
        ensures { result.now ≡ self.now.pairs }
    {
        let _txs = &self.txs;
        let _maps = &self.maps;
        let _walker = &self.walker;
        let _listed = &self.listed;
        self.pairs.as_slice()
    }

    /// Where a name of these links stands among the transactions. Takes no memory.
    pub fn position(&self, id: TxId) -> usize
        requires { Has self.now id }
        ensures within { result < length self.now.txs }
        ensures here { slice_index (names_of self.now.txs) result ≡ id }
    {
        let _txs = &self.txs;
        let _pairs = &self.pairs;
        let _walker = &self.walker;
        let _listed = &self.listed;
        place_of(&self.maps.places, id)
    }

    /// Whether `a` is an ancestor of `b`. Both are names of these links, and each is an ancestor of itself. Takes no memory.
    pub fn reaches(&mut self, a: TxId, b: TxId) -> bool
        requires a_in { Has self.old a }
        requires b_in { Has self.old b }
        ensures ancestor { IsTrue result ↔ IsAncestor self.old.pairs a b }
        ensures same { self.new ≡ self.old }
    {
        let _pairs = &self.pairs;
        let _listed = &self.listed;
        let above = place_of(&self.maps.places, a);
        let below = place_of(&self.maps.places, b);
        walk(&mut self.walker, &self.maps.up, below);
        has_place(self.walker.found.as_slice(), above)
    }

    /// The ancestors, or the descendants, of these names, each once, the names themselves among them. A name may be listed twice. Takes no
    /// memory; the walk is linear in the names, in what it finds and in the pairs of that.
    pub fn kin(&mut self, ids: &[TxId], kin: Kin) -> LinkWalk<'_>
        requires { (id : ℕ) → Contains ids.now id → Has self.old id }
        ensures* same { sem 𝓛 (Rests the_row self.entry (λ new. new ≡ self.old)) }
        ensures exact { (a : ℕ) → Contains (coming result) a ↔ ((id : ℕ) × Contains ids.now id × IsKin kin self.old.pairs a id) }
        ensures once { AreDistinct (coming result) }
    {
        let _pairs = &self.pairs;
        walk_all(&mut self.walker, &self.maps, ids, kin);
        list_names(
            &mut self.listed,
            self.txs.as_slice(),
            self.walker.found.as_slice(),
        );
        LinkWalk::new(self.listed.as_slice())
    }
}

/// Links of these transactions and pairs.
pub(crate) fn made(
    alloc: Global,
    txs: Vec<(TxId, i64, u64)>,
    pairs: &[(TxId, TxId)],
) -> Result<Links, NoMemory>
    requires once { AreDistinct (names_of txs.items) }
    requires in_range { AreInRange txs.items }
    requires among { AreAmong (names_of txs.items) pairs.now }
    requires no_cycle { HasNoCycle pairs.now }
    ensures txs { IfOk result (λ links. links.txs ≡ txs.items) }
    ensures pairs { IfOk result (λ links. AreSame pairs.now links.pairs) }
{
    let pairs = each_once(alloc, pairs)?;
    let maps = maps_of(alloc, txs.as_slice(), pairs.as_slice())?;
    let walker = Walker::new(alloc, txs.len())?;
    let listed = Vec::with_capacity(alloc, txs.len())?;
    Ok(Links {
        txs,
        pairs,
        maps,
        walker,
        listed,
    })
}
