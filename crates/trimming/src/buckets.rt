ghost use Rattle.std.specs.Prelude.{◌≡◌, ◌<◌, ℕ, length, Contains, IfOk, OnOk};
ghost use Rattle.trimming.specs.Nets.{list_at, HasPut};

use outside::NoMemory;
use std::alloc::Global;

/// A list of places for each place, all of them empty.
pub(crate) fn empty_lists(alloc: Global, count: usize) -> Result<Vec<Vec<usize>>, NoMemory>
    ensures sized { IfOk result (λ lists. length lists.items ≡ count) }
    ensures empty { IfOk result (λ lists. (i x : ℕ) → Contains (list_at lists.items i) x → ⊥) }
{
    let mut lists = Vec::with_capacity(alloc, count)?;
    for _ in 0..count {
        lists.push_reserved(Vec::new(alloc));
    }
    Ok(lists)
}

/// Puts a place behind the list of another one.
pub(crate) fn put(lists: &mut Vec<Vec<usize>>, at: usize, place: usize) -> Result<(), NoMemory>
    requires { at < length lists.old.items }
    ensures { OnOk result (HasPut lists.old.items lists.new.items at place) }
{
    lists[at].push(place)?;
    Ok(())
}
