//! The ranges that are left of a model's variables where something is known of them.

ghost use Rattle.std.specs.Prelude.{◌≡◌, length};

use crate::replaced_range::ReplacedRange;
use model_core::{Model, VarRange};

/// The ranges that are left of a model's variables, one for each, and those that they replaced, in this order.
#[derive(Drop)]
pub(crate) struct RangesLeft<'m> {
    pub(crate) model: &'m Model,
    pub(crate) ranges: Vec<VarRange>,
    pub(crate) replaced: Vec<ReplacedRange>,
    pub(crate) ghost many: { length ranges.items ≡ length model.now.vars },
}
