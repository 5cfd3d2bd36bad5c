//! The definitions of sums and trees, computed on a small model.
#![tactic(auto)]

mod computed_limits;
mod computed_trees;

pub use computed_limits::limits_end_where_they_say;
pub use computed_trees::{
    a_quotient_has_one_check, opposite_comparisons_are_one, rows_have_one_tree,
};
