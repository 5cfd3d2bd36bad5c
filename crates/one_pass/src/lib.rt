//! Reads a model from its tokens in one pass: changes and edges are checked while they are read, and have numbers in place
//! of names at once.
#![tactic(auto)]

mod beginnings;
mod changes;
mod destination;
mod edges;
mod endings;
mod expressions;
mod not_read;
mod one_pass_error;
mod parts;
mod refusing;
mod text;
mod values;
mod vertices;

pub use one_pass_error::OnePassError;
pub use text::read_model;
