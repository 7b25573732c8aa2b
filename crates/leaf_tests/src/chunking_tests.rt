use chunking::{Chunk, chunk_list};
use fee_rate::{FeeRate, Sum, is_rate};
use std::test::Fail;

/// Whether an order of at most four is cut into chunks with these ends, fees and sizes.
fn has_chunks(rates: &[FeeRate], chunks: &[(usize, i128, u64)]) -> bool {
    if rates.len() > 4 || !rates.iter().all(|rate| is_rate(*rate)) {
        return false;
    }
    let order = [7; 4];
    let mut out = [Chunk {
        end: 0,
        sum: Sum { fee: 0, size: 0 },
    }; 4];
    let count = chunk_list(&order[..rates.len()], rates, &mut out);
    are_chunks(out.get(..count).unwrap_or(&[]), chunks)
}

fn are_chunks(found: &[Chunk], chunks: &[(usize, i128, u64)]) -> bool {
    for (at, chunk) in found.iter().enumerate() {
        if chunks.get(at) != Some(&(chunk.end, chunk.sum.fee, chunk.sum.size)) {
            return false;
        }
    }
    found.len() == chunks.len()
}

const MOST: i64 = 2_100_000_000_000_000;

/// Orders, and their chunks.
static ORDERS: [(&[FeeRate], &[(usize, i128, u64)]); 8] = [
    (rates![], &[]),
    (rates![(0, 10), (6, 5), (6, 5)], &[(3, 12, 20)]),
    (rates![(1, 1), (2, 2)], &[(1, 1, 1), (2, 2, 2)]),
    (
        rates![(3, 1), (2, 1), (1, 1)],
        &[(1, 3, 1), (2, 2, 1), (3, 1, 1)],
    ),
    (rates![(1, 1), (2, 1), (3, 1)], &[(3, 6, 3)]),
    (
        rates![(5, 1), (0, 9), (-1, 1), (4, 2)],
        &[(1, 5, 1), (4, 3, 12)],
    ),
    (rates![(-MOST, 1), (MOST, 4_000_000)], &[(2, 0, 4_000_001)]),
    (
        rates![(MOST, 1), (-MOST, 4_000_000)],
        &[
            (1, 2_100_000_000_000_000, 1),
            (2, -2_100_000_000_000_000, 4_000_000),
        ],
    ),
];

#[test]
fn a_better_part_is_joined_to_the_one_before(rt: HostRuntime) -> Result<(), Fail> {
    for (rates, chunks) in &ORDERS {
        assert!(rt; has_chunks(rates, chunks), "at {rates:?}");
    }
    Ok(())
}
