ghost use Rattle.std.specs.Prelude.{◌≡◌, ◌↔◌, true};
ghost use Rattle.linearize.specs.Graphs.{HasRates, IsComponent};

use dep_graph::DepGraph;
use fee_rate::is_rate;

/// Whether the members are one component. No members are one.
pub fn is_component<const W: usize>(dep: &DepGraph<W>) -> bool
    ensures { (result ≡ true) ↔ IsComponent dep.now }
{
    let members = dep.members();
    match members.least() {
        Some(first) => members.is_subset(&dep.component(first, members)),
        None => true,
    }
}

/// Whether the fee and the size of each member are those of a transaction.
pub fn has_rates<const W: usize>(dep: &DepGraph<W>) -> bool
    ensures { (result ≡ true) ↔ HasRates dep.now }
{
    let members = dep.members();
    for place in members.iter() {
        if !is_rate(dep.rate(place)) {
            return false;
        }
    }
    true
}
