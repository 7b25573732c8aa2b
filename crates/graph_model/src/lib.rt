//! The machine: the transaction graph as states, commands and replies, over the graphs and orders of `graphs`, and the plain
//! types that every layer speaks of.
//!
//! The definitions stand in `specs/`, one file a subject: limits, commands, states and which of them are valid, refusals, changes,
//! answers, blocks, replies, steps, lines, runs, the texts of certificates, and laws over them.
#![tactic(auto)]

mod laws;
mod limits;
mod names;

pub use fee_rate::{is_fee, is_size};
pub use graphs::{
    Flow, IdBuf, IdList, Level, TxId, Verdict, alike_graphs_agree, ancestors_with_pair,
    ancestors_without_name, certified_parts_agree, certified_parts_are_optimal,
    components_with_pair, corners_are_unique, drops_keep_ancestors, equal_rates_join_once,
    first_parts_are_best, flat_parts_bound_closed_sets, last_part_is_lowest,
    merged_parts_are_certified, names_can_go, names_have_one_rate, optimal_bounds_closed_sets,
    optimal_ends_are_corners, picks_are_kept, stays_graph, stays_without_cycle,
    unions_keep_components, verdicts_are_unique,
};
pub use laws::{
    abort_leaves_main, answers_are_in_order, blocks_begin_best, dumps_load, mined_comes_back,
    proofs_are_certificates, readings_lack_no_memory, refused_changes_nothing, rows_are_functions,
    runs_are_sound, steps_are_functions, steps_keep_valid, summaries_are_functions,
    trim_drops_one_set,
};
pub use limits::{DEFAULT_LIMITS, MAX_BLOCKS, MAX_CLUSTER_SIZE, MAX_COUNT, MAX_INPUT, MAX_LINE};
pub use names::{Limits, Picked, Place, Refusal};
