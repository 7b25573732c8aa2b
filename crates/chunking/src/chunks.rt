ghost use Rattle.std.specs.Prelude.{◌^◌, ◌≡◌, ◌+◌, ◌<◌, ◌≤◌, length, take, All};
ghost use Rattle.fee_rate.specs.Limits.{IsRate};

use fee_rate::{FeeRate, Sum, add, is_below};

/// A part of an order: it begins where the part before it ends, or at the order's beginning.
#[derive(Clone, Copy, Debug, PartialEq, Eq)]
pub struct Chunk {
    /// The part ends before this position of the order.
    pub end: usize,
    /// The total fee and size of the part.
    pub sum: Sum,
}

ghost use Rattle.chunking.specs.Chunkings.{AreChunks};

/// Cuts an order into parts and writes them to the front of `out`; answers how many they are.
///
/// `rates` has the fee and size of each transaction of `order`, position by position (what it has behind them is
/// passed over), and `out` is at least as long as `order`. The parts are not empty and follow each other from the order's beginning to
/// its end; their rates fall (equal ones may follow each other); what a part begins with, short of the
/// whole part, has a strictly smaller rate than the part. What stands in `out` behind the parts is free.
/// Takes no memory, and time in proportion to the order's length.
pub fn chunk_list(order: &[u64], rates: &[FeeRate], out: &mut [Chunk]) -> usize
    requires rate_each { length order.now ≤ length rates.now }
    requires few { length order.now ≤ 2 ^ 20 }
    requires in_range { All IsRate rates.now }
    requires room { length order.now ≤ length out.old }
    ensures within { result ≤ length order.now }
    ensures parts { AreChunks (take (length order.now) rates.now) (take result out.new) }
{
    let mut count = 0;
    for at in 0..order.len() {
        count = put(rates, at, out, count);
    }
    count
}

/// Puts the transaction at a position behind the parts of those before it.
fn put(rates: &[FeeRate], at: usize, out: &mut [Chunk], count: usize) -> usize
    requires at_in { at < length rates.now }
    requires few { at < 2 ^ 20 }
    requires in_range { All IsRate rates.now }
    requires room { at < length out.old }
    requires count_in { count ≤ at }
    requires parts { AreChunks (take at rates.now) (take count out.old) }
    ensures within { result ≤ at + 1 }
    ensures parts { AreChunks (take (at + 1) rates.now) (take result out.new) }
{
    let mut sum = Sum::from(rates[at]);
    let mut left = count;
    while left > 0 && is_below(out[left - 1].sum, sum) {
        left -= 1;
        sum = add(out[left].sum, sum);
    }
    out[left] = Chunk { end: at + 1, sum };
    left + 1
}
