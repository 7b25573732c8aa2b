//! Changes of the rings of names by the keys of their nodes. Each name is looked up once.
ghost use Rattle.std.specs.Prelude.{◌≡◌, ◌≢◌, ◌<◌, ◌≤◌, ℕ, List, Some, IsSome, Contains, length, MatchOption};
ghost use Rattle.node_pool.specs.declared.pool.Key.{Key as PoolKey};
ghost use Rattle.node_pool.specs.Nodes.{IsLive, SameRing, value_at};
ghost use Rattle.node_pool.specs.Laws.{RingsGoRound};
ghost use Rattle.name_book.specs.Changes.{CutsOut, Gathers};
ghost use Rattle.name_book.specs.declared.keys.TheConstants.{LOOKED_UP};
ghost use Rattle.name_book.specs.Tables.{key_of, table_of, AreKeys, AreKeysOf, ChangesRing};

use graphs::TxId;
use indexmap::IndexMap;
use node_pool::{Key, Pool};

/// How many names are looked up before the first of them is linked. A look-up waits for memory, and look-ups that follow one another wait
/// at the same time.
const LOOKED_UP: usize = 16;

/// The key of a live name.
pub(crate) fn find_key(names: &IndexMap<TxId, Key>, id: TxId) -> Key
    requires { IsSome (key_of names.now.entries id) }
    ensures { key_of names.now.entries id ≡ Some result }
{
    match names.get(&id) {
        Some(&key) => key,
        None => unreachable!(),
    }
}

/// Puts the keys of live names at the front of a list, in their order.
fn look_up(names: &IndexMap<TxId, Key>, ids: &[TxId], keys: &mut [Key; LOOKED_UP])
    requires few { length ids.now ≤ LOOKED_UP }
    requires live { (x : ℕ) → Contains ids.now x → IsSome (key_of names.now.entries x) }
    ensures { AreKeysOf names.now.entries ids.now keys.new }
{
    for i in 0..ids.len() {
        keys[i] = find_key(names, ids[i]);
    }
}

/// The name of the key that comes after another in its ring `r`, if that isn't alone.
pub(crate) fn name_after(nodes: &Pool<TxId, 2>, r: usize, key: Key) -> Option<TxId>
    requires r_in_range { r < 2 }
    requires live { IsLive nodes.now key }
    ensures { MatchOption result ((other : PoolKey) → SameRing nodes.now r key other → other ≡ key)
        (λ id. (other : PoolKey) × SameRing nodes.now r key other × (other ≢ key) × (value_at nodes.now other ≡ Some id)) }
{
    let mut keys = nodes.ring(r, key);
    let _first = keys.next();
    let other = keys.next()?;
    match nodes.get(other) {
        Some(&id) => Some(id),
        None => unreachable!(),
    }
}

/// Cuts a key out of its ring `r`.
pub(crate) fn cut_key(nodes: &mut Pool<TxId, 2>, r: usize, key: Key)
    requires r_in_range { r < 2 }
    requires live { IsLive nodes.old key }
    ensures ring { ChangesRing nodes.old nodes.new r }
    ensures cut { (es : List (ℕ × PoolKey)) (spare id : ℕ) → AreKeys nodes.old es → key_of es id ≡ Some key
        → CutsOut (table_of nodes.old es spare) (table_of nodes.new es spare) r id }
    ensures round { RingsGoRound 2 nodes.new }
{
    nodes.cut(r, key);
}

/// Names leave their rings `r` and join that of another name, which is told by its key.
pub(crate) fn move_names(
    nodes: &mut Pool<TxId, 2>,
    names: &IndexMap<TxId, Key>,
    r: usize,
    to: Key,
    ids: &[TxId],
)
    requires r_in_range { r < 2 }
    requires own { AreKeys nodes.old names.now.entries }
    requires to { IsLive nodes.old to }
    requires live { (x : ℕ) → Contains ids.now x → IsSome (key_of names.now.entries x) }
    requires apart { (x : ℕ) → Contains ids.now x → key_of names.now.entries x ≢ Some to }
    ensures ring { ChangesRing nodes.old nodes.new r }
    ensures gathers { (spare t : ℕ) → key_of names.now.entries t ≡ Some to
        → Gathers (table_of nodes.old names.now.entries spare) (table_of nodes.new names.now.entries spare) r t ids.now }
    ensures round { RingsGoRound 2 nodes.old → RingsGoRound 2 nodes.new }
{
    let mut rest = ids;
    while !rest.is_empty() {
        let (few, later) = rest.split_at(rest.len().min(LOOKED_UP));
        move_few(nodes, names, r, to, few);
        rest = later;
    }
}

/// As `move_names`, for names that are few enough to be looked up at once.
fn move_few(nodes: &mut Pool<TxId, 2>, names: &IndexMap<TxId, Key>, r: usize, to: Key, ids: &[TxId])
    requires few { length ids.now ≤ LOOKED_UP }
    requires r_in_range { r < 2 }
    requires own { AreKeys nodes.old names.now.entries }
    requires to { IsLive nodes.old to }
    requires live { (x : ℕ) → Contains ids.now x → IsSome (key_of names.now.entries x) }
    requires apart { (x : ℕ) → Contains ids.now x → key_of names.now.entries x ≢ Some to }
    ensures ring { ChangesRing nodes.old nodes.new r }
    ensures gathers { (spare t : ℕ) → key_of names.now.entries t ≡ Some to
        → Gathers (table_of nodes.old names.now.entries spare) (table_of nodes.new names.now.entries spare) r t ids.now }
    ensures round { RingsGoRound 2 nodes.old → RingsGoRound 2 nodes.new }
{
    let mut keys = [to; LOOKED_UP];
    look_up(names, ids, &mut keys);
    for key in &keys[..ids.len()] {
        cut_key(nodes, r, *key);
        nodes.join_rings(r, to, *key);
    }
}
