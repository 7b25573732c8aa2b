ghost use Rattle.std.specs.Prelude.{◌+◌, ◌*◌, ◌≤◌, length, sum_by};
ghost use Rattle.fee_rate.specs.declared.limits.TheConstants.{MAX_TOTAL};
ghost use Rattle.graphs.specs.Closures.{rate_of};
ghost use Rattle.levels.specs.Joins.{SumRefusalIs};

use graph_model::{Limits, Refusal};
use record::Record;

/// How two names stand, of which the one may become a parent of the other.
#[derive(Clone, Copy, Debug)]
pub enum Link {
    /// It is an ancestor already.
    There,
    /// Neither is an ancestor of the other, and both are of the cluster of this number.
    Within(usize),
    /// They are of the clusters of these numbers, the first of which had better give its number to both.
    Between(usize, usize),
}

/// Which limit two clusters break together that no dependency may pass.
pub(crate) fn refused_sum<const W: usize>(
    limits: &Limits,
    first: &Record<W>,
    second: &Record<W>,
) -> Option<Refusal>
    requires narrow { W ≤ 2 }
    requires few { length first.now.names + length second.now.names ≤ MAX_TOTAL }
    ensures { SumRefusalIs limits.now (length first.now.names + length second.now.names)
        (sum_by (λ id. (rate_of first.now.graph id).size) first.now.names + sum_by
        (λ id. (rate_of second.now.graph id).size) second.now.names) result }
{
    if limits.defer {
        return None;
    }
    let count = (first.names().len() + second.names().len()) as u64;
    if count > limits.count {
        return Some(Refusal::Count(count));
    }
    let size = first.size() + second.size();
    if size > limits.size {
        return Some(Refusal::ClusterSize(size));
    }
    None
}
