//! A model in English sentences, for a reader who doesn't know the language of models.
#![tactic(auto)]

mod changes;
mod declarations;
mod description;
mod edges;
mod phrases;
mod vertices;

pub use description::describe;
