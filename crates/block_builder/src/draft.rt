//! A block that is being filled.
ghost use Rattle.std.specs.Prelude.{◌≡◌, ◌+ℤ◌, ◌*◌, ◌≤◌, ◌-◌, Bool, List, [], map, unsigned_abs, Contains, OnOk};
ghost use Rattle.fee_rate.specs.declared.limits.TheConstants.{MAX_FEE};
ghost use Rattle.cluster_store.specs.Stores.{Shown};
ghost use Rattle.cluster_store.specs.Walks.{shown_part};
ghost use Rattle.tx_graph.specs.Dropped.{ArePaidBySize};
ghost use Rattle.block_builder.specs.Drafts.{Drafts, IsFilled, Offers};

use crate::marks::{has_mark, mark};
use cluster_store::{PartWalk, Parts, ShownPart};
use graph_model::{IdList, Picked, TxId};
use outside::NoMemory;
use std::alloc::Global;

/// The parts that were taken so far: their names, their fee, what they leave of the size, and a mark for the number of each cluster of
/// which a part wasn't taken.
#[derive(Drop)]
pub struct Draft {
    pub limit: u64,
    pub ids: Vec<TxId>,
    pub fee: i128,
    pub left: u64,
    pub marks: Vec<bool>,
}

impl Draft {
    /// Nothing is taken yet. Takes no memory.
    pub fn new(alloc: Global, limit: u64) -> Self
        ensures draft { Drafts result [] }
        ensures limit { result.limit ≡ limit }
    {
        Draft {
            limit,
            ids: Vec::new(alloc),
            fee: 0,
            left: limit,
            marks: Vec::new(alloc),
        }
    }

    /// Takes a part, where it fits and none of its cluster was left out.
    pub fn offer(&mut self, shown: ShownPart<'_>) -> Result<(), NoMemory>
        requires draft { (gone : List (Shown × Bool)) × Drafts self.old gone }
        requires pays { unsigned_abs shown.part.rate.fee ≤ MAX_FEE * shown.part.rate.size }
        ensures offers { OnOk result (Offers (shown_part shown.entry) self.old self.new) }
        ensures limit { OnOk result (self.new.limit ≡ self.old.limit) }
    {
        if has_mark(self.marks.as_slice(), shown.number) {
            return Ok(());
        }
        let rate = shown.part.rate;
        if rate.size > self.left {
            return mark(&mut self.marks, shown.number);
        }
        self.ids.extend_from_slice(shown.part.ids)?;
        self.fee = plus(self.fee, rate.fee, self.limit);
        self.left -= rate.size;
        Ok(())
    }

    /// Offers the parts of a walk, for as long as one of the least size fits.
    pub fn fill<T: Parts>(
        &mut self,
        parts: &mut PartWalk<'_, T>,
        least: u64,
    ) -> Result<(), NoMemory>
        requires draft { Drafts self.old [] }
        requires pays { ArePaidBySize (map (λ s. s.part) parts.old) }
        requires least { (s : Shown) → Contains parts.old s → least ≤ s.part.rate.size }
        ensures filled { OnOk result (IsFilled self.new parts.old) }
        ensures limit { OnOk result (self.new.limit ≡ self.old.limit) }
    {
        while self.left >= least {
            let Some(shown) = parts.next() else {
                return Ok(());
            };
            self.offer(shown)?;
        }
        Ok(())
    }

    /// What was taken.
    pub fn picked(self) -> Picked
        requires { self.left ≤ self.limit }
        ensures fee { result.fee ≡ self.fee }
        ensures size { result.size ≡ self.limit - self.left }
        ensures ids { result.ids ≡ self.ids.items }
    {
        let Draft {
            limit,
            ids,
            fee,
            left,
            marks: _,
        } = self;
        Picked {
            fee,
            size: limit - left,
            ids: IdList::from_vec(ids),
        }
    }
}

// A fee that is in range for a size of at most the limit, and one more, in satoshis.
fn plus(fee: i128, more: i64, limit: u64) -> i128
    requires { unsigned_abs fee ≤ MAX_FEE * limit }
    ensures { result ≡ fee +ℤ more }
{
    let _limit = limit;
    fee + more as i128
}
