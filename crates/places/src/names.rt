ghost use Rattle.std.specs.Prelude.{◌≡◌, ℕ, List, length, map, nat_eq, Some, IfOk};
ghost use Rattle.std.specs.HashMap as hash;
ghost use Rattle.lists.specs.Distinct.{AreDistinct};
ghost use Rattle.places.specs.Chains.{AreWithin};
ghost use Rattle.places.specs.Places.{AreAmong, ArePlaces, AreSteps, Finds};

use graphs::TxId;
use outside::NoMemory;
use std::alloc::Global;
use std::collections::HashMap;

/// Where each name stands among the transactions.
pub type Places = HashMap<TxId, usize>;

/// The place of each name among the transactions, none of which stands twice. Fails where there is no memory.
pub fn places_of(alloc: Global, txs: &[(TxId, i64, u64)]) -> Result<Places, NoMemory>
    requires { AreDistinct (map (λ tx. tx.0) txs.now) }
    ensures { IfOk result (λ places. ArePlaces (map (λ tx. tx.0) txs.now) (hash.get nat_eq places)) }
{
    let mut places = HashMap::with_capacity(alloc, txs.len())?;
    for (at, tx) in txs.iter().enumerate() {
        places.insert(tx.0, at)?;
    }
    Ok(places)
}

/// The place of a name that has one. Takes no memory.
pub fn place_of(places: &Places, id: TxId) -> usize
    requires { Finds (hash.get nat_eq places.now) id }
    ensures { hash.get nat_eq places.now id ≡ Some result }
{
    match places.get(&id).copied() {
        Some(place) => place,
        None => unreachable!(),
    }
}

/// The pairs as steps between the places of their ends, which have places. Fails where there is no memory.
pub fn steps_of(
    alloc: Global,
    places: &Places,
    pairs: &[(TxId, TxId)],
) -> Result<Vec<(usize, usize)>, NoMemory>
    requires { (names : List ℕ) × ArePlaces names (hash.get nat_eq places.now) × AreAmong names pairs.now }
    ensures steps { IfOk result (λ steps. AreSteps (hash.get nat_eq places.now) pairs.now steps.items) }
    ensures within { IfOk result (λ steps. (names : List ℕ) → ArePlaces names (hash.get nat_eq places.now)
        → AreWithin (length names) steps.items) }
{
    let mut steps = Vec::with_capacity(alloc, pairs.len())?;
    for pair in pairs {
        let parent = place_of(places, pair.0);
        let child = place_of(places, pair.1);
        steps.push((parent, child))?;
    }
    Ok(steps)
}
