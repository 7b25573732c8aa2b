ghost use Rattle.std.specs.Prelude.{◌≡◌, ◌+◌, ◌-◌, ◌<◌, ◌≤◌, ◌^◌};

use node_pool::{Key, Pool, PoolFault};
use std::alloc::{AllocError, Global};
use std::process::Abort;
use std::test::Fail;

// Each call stands in a function that says no more than that few keys were issued: no test needs more of the contracts. A pool
// is handed on by reference, so that its owner has one exit.

// Whether a pool has no slots for as many nodes.
fn is_full(pool: &mut Pool<u64, 2>, n: usize) -> bool
    ensures { pool.new.issued ≡ pool.old.issued }
{
    pool.reserve(n) == Err(PoolFault::Full)
}

fn insert(pool: &mut Pool<u64, 2>, value: u64) -> Result<Key, PoolFault>
    requires { pool.old.issued < 2 ^ 64 - 1 }
    ensures { pool.new.issued ≤ pool.old.issued + 1 }
{
    pool.reserve(1)?;
    Ok(pool.insert(value))
}

// Two nodes, in a ring of the second partition.
fn insert_ring(pool: &mut Pool<u64, 2>, values: [u64; 2]) -> Result<[Key; 2], PoolFault>
    requires { pool.old.issued < 2 ^ 64 - 2 }
    ensures { pool.new.issued ≤ pool.old.issued + 2 }
{
    pool.reserve(2)?;
    let a = pool.insert(values[0]);
    let b = pool.insert(values[1]);
    pool.join_rings(1, a, b);
    Ok([a, b])
}

fn take(pool: &mut Pool<u64, 2>, key: Key) -> Option<u64>
    ensures { pool.new.issued ≡ pool.old.issued }
{
    pool.take(key)
}

fn value(pool: &Pool<u64, 2>, key: Key) -> Option<u64> {
    pool.get(key).copied()
}

// Whether the ring of a live key has these keys in the second partition.
fn has_ring(pool: &Pool<u64, 2>, key: Key, keys: &[Key]) -> bool {
    pool.get(key).is_some() && pool.ring(1, key).eq(keys.iter().copied())
}

fn take_one_of_two(rt: &impl Abort, pool: &mut Pool<u64, 2>) -> Result<(), PoolFault>
    requires { pool.old.issued ≡ 0 }
{
    assert!(rt; is_full(pool, 4_294_967_296));
    let [a, b] = insert_ring(pool, [7, 8])?;
    assert!(rt; has_ring(pool, b, &[b, a]));
    assert!(rt; take(pool, a) == Some(7));
    insert_another(rt, pool, a, b)
}

// The same slot gets another key.
fn insert_another(
    rt: &impl Abort,
    pool: &mut Pool<u64, 2>,
    taken: Key,
    left: Key,
) -> Result<(), PoolFault>
    requires { pool.old.issued < 2 ^ 64 - 1 }
{
    let key = insert(pool, 9)?;
    assert!(rt; key != taken && key != left);
    assert!(rt; value(pool, taken).is_none());
    assert!(rt; has_ring(pool, left, &[left]));
    assert!(rt; take(pool, key) == Some(9));
    Ok(())
}

#[test]
fn a_taken_key_finds_nothing(rt: HostRuntime) -> Result<(), Fail> {
    let mut pool = Pool::new(rt.alloc());
    let result = take_one_of_two(&rt, &mut pool);
    Ok(result?)
}

// A node with a vector of three bytes.
fn insert_bytes(alloc: Global, pool: &mut Pool<Vec<u8>, 2>, byte: u8) -> Result<Key, PoolFault>
    requires { pool.old.issued < 2 ^ 64 - 1 }
    ensures { pool.new.issued ≤ pool.old.issued + 1 }
{
    pool.reserve(1)?;
    let value = vec![in alloc; byte; 3]?;
    Ok(pool.insert(value))
}

fn fill(alloc: Global, pool: &mut Pool<Vec<u8>, 2>, keys: &mut Vec<Key>) -> Result<(), Fail>
    requires { pool.old.issued ≡ 0 }
{
    for byte in 0..20u8 {
        let key = insert_bytes(alloc, pool, byte)?;
        keys.push(key)?;
    }
    Ok(())
}

// Whether a key has a node to take, once.
fn is_taken_once(pool: &mut Pool<Vec<u8>, 2>, key: Key) -> bool {
    pool.take(key).is_some() && pool.take(key).is_none()
}

fn take_each_other(rt: &impl Abort, pool: &mut Pool<Vec<u8>, 2>, keys: &[Key]) {
    for key in keys.iter().step_by(2) {
        assert!(rt; is_taken_once(pool, *key));
    }
}

fn push_byte(pool: &mut Pool<Vec<u8>, 2>, keys: &[Key]) -> Result<(), AllocError> {
    if let Some(key) = keys.get(1)
        && let Some(value) = pool.get_mut(*key)
    {
        value.push(9)?;
    }
    Ok(())
}

fn length(pool: &Pool<Vec<u8>, 2>, key: Key) -> Option<usize> {
    Some(pool.get(key)?.len())
}

// Values are there at each key that wasn't taken.
fn has_the_others(rt: &impl Abort, pool: &Pool<Vec<u8>, 2>, keys: &[Key]) {
    for (byte, key) in keys.iter().enumerate() {
        let want = match byte {
            1 => Some(4),
            odd if odd % 2 == 1 => Some(3),
            _ => None,
        };
        assert!(rt; length(pool, *key) == want, "at {byte}");
    }
}

fn fill_and_take(
    rt: &impl Abort,
    alloc: Global,
    pool: &mut Pool<Vec<u8>, 2>,
    keys: &mut Vec<Key>,
) -> Result<(), Fail>
    requires { pool.old.issued ≡ 0 }
{
    fill(alloc, pool, keys)?;
    take_each_other(rt, pool, keys);
    push_byte(pool, keys)?;
    has_the_others(rt, pool, keys);
    Ok(())
}

// Values that own memory: each is dropped once, as it leaves the pool or with it. The pool grows over several blocks.
#[test]
fn values_own_memory(rt: HostRuntime) -> Result<(), Fail> {
    let mut pool = Pool::new(rt.alloc());
    let mut keys = Vec::new(rt.alloc());
    fill_and_take(&rt, rt.alloc(), &mut pool, &mut keys)
}
