//! Lists that go into the caller's arrays.
ghost use Rattle.std.specs.Prelude.{◌≡◌, ◌+◌, ◌-◌, ◌≤◌, length, drop, min};
ghost use Rattle.desk.specs.Copies.{copied, code_of_piece};

use crate::codes::{DONE, MORE};

/// Copies items to the front of an array, as many as it has room for, and answers how many.
pub fn hand_out<T: Copy>(from: &[T], out: &mut [T]) -> usize
    ensures copied { out.new ≡ copied from.now out.old }
    ensures count { result ≡ min (length from.now) (length out.old) }
{
    let n = if from.len() < out.len() {
        from.len()
    } else {
        out.len()
    };
    out[..n].copy_from_slice(&from[..n]);
    n
}

/// Copies the items from a place on to an array, as many as it has room for, and tells how many. Answers whether more are to come.
pub fn hand_piece<T: Copy>(all: &[T], from: usize, out: &mut [T], count: &mut usize) -> u32
    ensures copied { out.new ≡ copied (drop from all.now) out.old }
    ensures count { count.new ≡ min (length all.now - from) (length out.old) }
    ensures code { result ≡ code_of_piece (length all.now) (from + count.new) }
{
    if from > all.len() {
        *count = 0;
        return DONE;
    }
    let rest = &all[from..];
    *count = hand_out(rest, out);
    if *count < rest.len() { MORE } else { DONE }
}
