//! Models made from a number: the same number makes the same model.
#![tactic(auto)]

mod declared_parts;
mod edges_by_form;
mod generating;
mod made_names;
mod picking;
mod validity;
mod vertices_by_words;

pub use generating::generate;
pub use validity::generated_models_are_valid;
