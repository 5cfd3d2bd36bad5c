//! Prints a model's canonical text.
#![tactic(auto)]

mod declarations;
mod expressions;
mod fused_model;
mod lengths;
mod model;
mod model_without_edge;
mod names;
mod operators;
mod pen;
mod text_in_memory;
mod version_without;
mod vertices;

pub use fused_model::standing_for;
pub use lengths::{
    body_length, change_length, edge_length, expr_length, fused_length, length_without_edge,
    printed_length, set_length, vertex_length,
};
pub use text_in_memory::{print, print_expr, put_expr};
