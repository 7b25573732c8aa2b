ghost use Rattle.std.specs.Prelude.{◌≡◌, ℕ, ◌<◌, ◌≤◌, true, None, Some, [], length, take, slice_get, OnOk, OnErr, option_copied};
ghost use Rattle.graphs.specs.Certificates.{Part};
ghost use Rattle.chunk_index.specs.declared.key.Key.{Key};
ghost use Rattle.chunk_index.specs.Keys.{key_of};
ghost use Rattle.cluster_store.specs.Kept.{AreListed, found, fresh, is_rate, parts_of, Enters, Leaves, IsSameIndex};
ghost use Rattle.cluster_store.specs.Keys.{key_part};

use chunk_index::{ChunkIndex, Entry, Tag};
use fee_rate::FeeRate;
use outside::NoMemory;
use record::Record;

/// The entry of the part at a position of a cluster.
pub fn entry_of<const W: usize>(number: usize, cluster: &Record<W>, at: usize) -> Entry
    requires { at < length cluster.now.parts }
    ensures key { (part : Part) → slice_get cluster.now.parts at ≡ Some part → key_of result ≡ key_part number at part }
    ensures number { result.number ≡ number }
{
    Entry {
        rate: cluster.part_rate(at),
        serial: number as u64,
        position: at,
        number,
    }
}

// Whether the other cluster, if there is one, has a part of that rate at that position.
#[inline]
fn stays<const W: usize>(other: Option<&Record<W>>, at: usize, rate: FeeRate) -> bool
    ensures { result ≡ is_rate rate (slice_get (parts_of (option_copied other.entry)) at) }
{
    match other {
        None => false,
        Some(other) => at < other.part_count() && other.part_rate(at) == rate,
    }
}

/// Takes the entries of the first parts of a cluster out, which have that tag, but for those that the other one has too.
pub fn leave<const W: usize>(
    index: &mut ChunkIndex,
    number: usize,
    tag: Tag,
    gone: &Record<W>,
    other: Option<&Record<W>>,
    count: usize,
)
    requires within { count ≤ length gone.now.parts }
    requires there { (k : Key) → fresh number (take count gone.now.parts) (parts_of (option_copied other)) k ≡ true
        → found index.old k ≡ Some tag }
    ensures { Leaves number (take count gone.now.parts) (parts_of (option_copied other.entry)) index.old index.new }
{
    for at in 0..count {
        let entry = entry_of(number, gone, at);
        if !stays(other, at, entry.rate) {
            index.take(&entry, tag);
        }
    }
}

/// Puts the entries of a cluster in, but for those that the other one has, and so are there.
///
/// # Errors
/// Where there is no memory for one of them. Those that went in are out again.
pub fn enter<const W: usize>(
    index: &mut ChunkIndex,
    number: usize,
    tag: Tag,
    new: &Record<W>,
    other: Option<&Record<W>>,
) -> Result<(), NoMemory>
    requires absent { (k : Key) → fresh number new.now.parts (parts_of (option_copied other)) k ≡ true
        → found index.old k ≡ None }
    ensures ok { OnOk result (Enters number tag new.now.parts (parts_of (option_copied other.entry)) index.old index.new) }
    ensures err { OnErr result (IsSameIndex index.old index.new) }
{
    for at in 0..new.part_count() {
        let entry = entry_of(number, new, at);
        if !stays(other, at, entry.rate) {
            if let Err(error) = index.insert(entry, tag) {
                leave(index, number, tag, new, other, at);
                return Err(error);
            }
        }
    }
    Ok(())
}

/// Gives the entries of a cluster, which have a tag, another tag.
pub fn retag<const W: usize>(
    index: &mut ChunkIndex,
    number: usize,
    cluster: &Record<W>,
    from: Tag,
    to: Tag,
)
    requires listed { AreListed index.old }
    requires there { (k : Key) → fresh number cluster.now.parts [] k ≡ true → found index.old k ≡ Some from }
    ensures { Enters number to cluster.now.parts [] index.old index.new }
{
    for at in 0..cluster.part_count() {
        index.move_tag(&entry_of(number, cluster, at), from, to);
    }
}
