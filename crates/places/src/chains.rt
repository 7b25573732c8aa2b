ghost use Rattle.std.specs.Prelude.{◌≡◌, length, IfOk};
ghost use Rattle.places.specs.Chains.{AreChains, AreWithin};

use std::alloc::{AllocError, Global};

/// For each place the pairs that have it second, from the last to the first.
#[derive(Drop)]
pub struct Chains {
    /// For each place how many of the pairs have to be looked at for it: up to its last one, or none.
    pub last: Vec<usize>,
    /// For each pair how many of the pairs before it: up to the one before with the same second place, or none.
    pub before: Vec<usize>,
}

/// The chains of pairs of this many places. Fails where there is no memory.
pub fn linked(alloc: Global, count: usize, pairs: &[(usize, usize)]) -> Result<Chains, AllocError>
    requires { AreWithin count pairs.now }
    ensures sized { IfOk result (λ chains. length chains.last.items ≡ count) }
    ensures chains { IfOk result (λ chains. AreChains pairs.now chains.last.items chains.before.items) }
{
    let mut last = vec![in alloc; 0; count]?;
    let mut before = Vec::with_capacity(alloc, pairs.len())?;
    for (at, pair) in pairs.iter().enumerate() {
        before.push(last[pair.1])?;
        last[pair.1] = at + 1;
    }
    Ok(Chains { last, before })
}
