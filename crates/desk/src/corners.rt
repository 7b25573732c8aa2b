//! The corners of a diagram as a list that can be handed out in pieces.
ghost use Rattle.std.specs.Prelude.{◌≡◌, ℕ, ℤ, List, map, IfOk};
ghost use Rattle.std.specs.Iterator.{IsFinite};
ghost use Rattle.diagram.specs.Points.{YieldsCorners};
ghost use Rattle.desk.specs.Copies.{corner_of, total_of};

use crate::telling::{Total, total_of_sum};
use fee_rate::Sum;
use outside::NoMemory;
use std::alloc::Global;

/// The corners, each with its size in virtual bytes and the fee there in satoshis.
pub fn list_corners<I: Iterator<Item = (u64, i128)> + Drop>(
    alloc: Global,
    points: I,
) -> Result<Vec<Total>, NoMemory>
    requires can { I.can_next points }
    requires ends { IsFinite (I.remaining points) }
    ensures { IfOk result (λ list. (corners : List (ℕ × ℤ)) → YieldsCorners I.next_gives points corners
        → list.items ≡ map corner_of corners) }
{
    let mut list = Vec::new(alloc);
    for (size, fee) in points {
        list.push(total_of_sum(Sum { fee, size }))?;
    }
    Ok(list)
}
