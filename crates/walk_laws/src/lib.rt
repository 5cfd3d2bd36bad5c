//! Laws of two models whose events are paired by links. The functions have empty bodies: what they ensure holds of all models.
#![tactic(auto)]

mod classes;

pub use classes::{links_carry_to_classes, trees_of_one_class_have_one_value};
