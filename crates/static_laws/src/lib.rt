//! Laws of the static rules: a written model has one first fault or is accepted, and what is accepted keeps the rules by
//! itself, without the places of a text. The functions have empty bodies: what they ensure holds of all written models.
#![tactic(auto)]

mod static_law;

pub use static_law::{accepted_models_keep_their_rules, accepted_or_one_fault};
