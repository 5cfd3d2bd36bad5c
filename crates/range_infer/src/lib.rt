//! Ranges that a model really needs: ranges that its own changes and edges never leave, found in rounds and checked.
#![tactic(auto)]

mod bounds_left;
mod checking;
mod collecting;
mod fitting;
mod inferring;
mod kept_range;
mod law;
mod moved_ranges;
mod narrowing;
mod numbers_left;
mod part_reads;
mod parts_looked_at;
mod postfix;
mod postfix_bounds;
mod range_verdict;
mod ranges_left;
mod readers;
mod refinement;
mod replaced_range;
mod rounds;

pub use checking::check_ranges;
pub use inferring::infer;
pub use law::{
    narrowed_models_mean_the_same, narrowing_keeps_the_meaning, no_run_leaves_the_ranges,
    rounds_end_with_inductive_ranges, values_lie_in_bounds_under_ranges, what_is_left_is_the_least,
};
pub use model_core::{Incoming, VarRange};
pub use narrowing::{narrow, narrow_to_needed};
pub use range_verdict::RangeVerdict;
