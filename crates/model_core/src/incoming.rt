//! What a variable takes.

use crate::bounds::Bounds;

/// A value that is set, drawn or carried into a variable.
#[derive(Clone, Copy, Debug, PartialEq, Eq)]
pub struct Incoming {
    /// The place of the variable, from 0.
    pub variable: usize,
    /// The bounds of the value.
    pub bounds: Bounds,
}
