//! Laws of sums and trees: under what is known of sums, each operation has the value that its name says. The functions have empty
//! bodies: what they ensure holds of all sums and trees.
#![tactic(auto)]

mod conditions;
mod expressions;
mod sums;
mod trees;
mod vertices;

pub use conditions::{conditions_have_their_values, what_is_learned_holds};
pub use expressions::expressions_have_the_value_of_their_tree;
pub use sums::{
    operations_have_their_values, settled_sums_keep_their_value, values_lie_between_ends,
};
pub use trees::{
    agreeing_trees_have_one_value, cases_have_their_values, joined_trees_have_their_values,
    steps_are_enough,
};
pub use vertices::states_in_range_meet_the_ends;
