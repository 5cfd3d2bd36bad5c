//! A range that another one was put in place of, where something is known.

use model_core::VarRange;

/// The range that the variable at this place had.
#[derive(Clone, Copy)]
pub(crate) struct ReplacedRange {
    pub(crate) var: usize,
    pub(crate) range: VarRange,
}
