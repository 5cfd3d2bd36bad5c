//! Slice: which variables are needed, and the model without the others.
#![tactic(auto)]

mod delays;
mod dropping_variables;
mod faults;
mod law;
mod linking;
mod marking;
mod needs;
mod new_numbers;
mod paired_lists;
mod reads_beside;
mod slicing;
mod streams;

pub use law::{
    marks_are_of_needed_variables, slicing_keeps_the_meaning, slicing_leaves_the_rules_of_edges,
};
pub use marking::unneeded;
pub use slicing::slice;
