ghost use Rattle.std.specs.Prelude.{◌≤◌, IfOk};
ghost use Rattle.graphs.specs.Certificates.{rate_in};
ghost use Rattle.links.specs.Links.{graph};
ghost use Rattle.graph_model.specs.declared.limits.TheConstants.{MAX_COUNT};
ghost use Rattle.graph_model.specs.Limits.{bounds_of};
ghost use Rattle.graph_model.specs.Trims.{IsTrimmed};

use crate::dropped::unkept;
use crate::net::net_of;
use crate::turns::all_turns;
use graph_model::Limits;
use graphs::TxId;
use links::Links;
use outside::NoMemory;
use std::alloc::Global;

/// The transactions that trimming drops, in rising order, so that no component of what is left is over the limits.
///
/// Nothing is kept or dropped at first. A candidate is a transaction that is neither, and whose parents are all kept. While there is a
/// candidate, the one of the greatest feerate of its own is taken, among equal ones the one of the least name. It is kept where its
/// component, among those that are kept and itself, has no more transactions than `limits.count`, and is no larger than `limits.size`,
/// in virtual bytes. Else it is dropped, and its descendants, which never become candidates, with it.
///
/// The links stay as they are. The work is near linear in transactions and pairs.
///
/// # Errors
///
/// [`NoMemory`] where there is no memory.
pub fn trimmed(alloc: Global, limits: &Limits, links: &Links) -> Result<Vec<TxId>, NoMemory>
    requires count { limits.now.count ≤ MAX_COUNT }
    ensures trimmed { IfOk result (λ ids. IsTrimmed (bounds_of limits.now) (rate_in links.now.txs) (graph links.now) ids.items) }
{
    let net = net_of(alloc, links.txs(), links.pairs())?;
    let trim = all_turns(alloc, limits, &net)?;
    let ids = unkept(alloc, net.txs.as_slice(), trim.teams.kept.as_slice())?;
    Ok(ids)
}
