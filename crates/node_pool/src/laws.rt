//! Laws over the calls of a pool.
ghost use Rattle.node_pool.specs.Laws.{TakenStaysGone, WritesStayInPlace};

use crate::pool::Pool;

/// Once the node of a key was taken, the key finds nothing, whatever calls come later. A write through `get_mut`
/// changes the value of its key and nothing else.
pub fn keys_are_used_once<T, const R: usize>(pool: &Pool<T, R>)
    ensures taken { TakenStaysGone pool.now }
    ensures written { WritesStayInPlace pool.now }
{
    let _ = pool;
}
