//! The definitions of models that mean the same, computed on small models.
#![tactic(auto)]

mod folds;
mod forms;
mod meanings;
mod orders;

pub use folds::{each_half_of_folding_fails_alone, pairs_of_twins_are_folded_together};
pub use forms::plainer_forms_are_taken_inside;
pub use meanings::{
    looks_are_apart_by_what_they_show, steps_alone_do_not_count, what_is_seen_counts,
};
pub use orders::{
    orders_have_inverses, shuffled_models_differ_in_names_alone, tables_are_seen_by_their_rows,
};
