//! Which values expressions can have, as far as the declared ranges show: bounds, conditions that never or always hold, and
//! stores, changes and edges that never fault. The rows of the table of bounds are public, for bounds under other ranges.
#![tactic(auto)]

mod branches;
mod choices;
mod compared_alike;
mod exclusion;
mod expressions;
mod number_rows;
mod parts;
mod range_ends;
mod soundness;
mod truth_rows;
mod urgency;
mod variables;

pub use branches::{chosen_bounds, operator_bounds};
pub use choices::choice_bounds;
pub use exclusion::{exclusive, literal_number};
pub use expressions::{bounds, proved, refuted};
pub use number_rows::negative_bounds;
pub use parts::{quiet_change, quiet_edge, quiet_set, quiet_store};
pub use range_ends::{number_bounds, truth_bounds};
pub use soundness::{
    exclusive_conditions_are_never_both_true, quiet_parts_have_no_fault, values_lie_in_bounds,
    values_lie_in_bounds_under_any_guard,
};
pub use truth_rows::opposite;
pub use urgency::{may_take_any_condition, plain_urgent, single_urgent};
