//! Where the last of the parts that stand in both levels begin.
ghost use Rattle.std.specs.Prelude.{◌≡◌, ◌⊎◌, ◌<◌, [], ◌∷◌, ◌++◌, length, map, IfSome, MatchOption};
ghost use Rattle.chunk_index.specs.declared.entry.Tag.TheVariants.{Both};
ghost use Rattle.chunk_index.specs.Items.{entries_tagged};
ghost use Rattle.cluster_store.specs.Rates.{EndPaid, IsFirstOfTail, entry_rate};

use chunk_index::{ChunkIndex, Entry, IndexWalk, Tag};

/// The first of the entries of both levels from which on they have negative fees and are just so large together, in virtual
/// bytes, or of all that have negative fees where these aren't so large. `None` where none is needed.
pub fn first_of_tail(index: &ChunkIndex, size: u64) -> Option<Entry>
    ensures { IsFirstOfTail size (entries_tagged Both index.now) result }
{
    let mut walk = index.walk_only(Tag::Both);
    let mut short = size;
    let mut first = None;
    while let Some(entry) = take_needed(&mut walk, short) {
        short = short.saturating_sub(entry.rate.size);
        first = Some(entry);
    }
    first
}

// The last entry of a walk, where it has a negative fee and some size is still short.
fn take_needed(walk: &mut IndexWalk<'_>, short: u64) -> Option<Entry>
    ensures needed { MatchOption result ((short ≡ 0) ⊎ EndPaid (map entry_rate walk.old)) (λ e. walk.old ≡ walk.new ++ e ∷ []) }
    ensures fewer { IfSome result (λ _. length walk.new < length walk.old) }
{
    if short == 0 {
        return None;
    }
    let entry = walk.next_back()?;
    if entry.rate.fee < 0 {
        Some(entry)
    } else {
        None
    }
}
