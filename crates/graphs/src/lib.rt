//! Graphs of transactions, and the value of their orders: names and pairs, rates, linearizations, certificates and diagrams, with
//! their laws, and the plain types that every layer speaks of. This crate knows no command.
#![tactic(auto)]

mod ids;
mod laws;
mod names;
mod owned;

pub use ids::{IdBuf, IdList};
pub use laws::{
    alike_graphs_agree, ancestors_with_pair, ancestors_without_name, certificates_are_renamed,
    certified_parts_agree, certified_parts_are_optimal, closure_tells_of_graph,
    closures_have_graphs, components_with_pair, corners_are_unique, drops_keep_ancestors,
    equal_rates_join_once, fewer_are_closed, first_parts_are_best, flat_parts_bound_closed_sets,
    joined_is_closed, last_part_is_lowest, merged_parts_are_certified, name_is_closed,
    names_can_go, names_have_one_rate, optimal_bounds_closed_sets, optimal_ends_are_corners,
    optimal_parts_bound_closed_sets, pair_is_closed, picks_are_kept, renamed_is_closed,
    sorted_lists_merge, stays_graph, stays_without_cycle, unions_keep_components,
    verdicts_are_unique,
};
pub use names::{Flow, Kin, Level, TxId, Verdict};
pub use owned::Owned;
