//! How often a model is narrowed, reduced and fused at most.

/// The most rounds that lead to a normal form.
pub const ROUNDS_MAX: usize = 8;
