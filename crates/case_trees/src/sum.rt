//! Sums: terms and a constant.

ghost use Rattle.std.specs.Prelude.{◌≡◌, true, ◌&&◌, nat_le};
ghost use Rattle.tree_laws.specs.Limits.{count, small_coefficients, TERMS_MAX as most_terms};
ghost use Rattle.case_trees.specs.TermViews.{terms_of};

use crate::limited::Number;
use crate::terms::Terms;

/// A sum of terms and a constant. Its terms keep the limits; a constant may pass its limit by as much again.
#[derive(Drop)]
pub struct Sum {
    /// The terms.
    pub terms: Terms,
    /// The constant.
    pub constant: Number,
    ghost fit: { nat_le (count (terms_of terms)) most_terms && small_coefficients (terms_of terms) ≡ true },
}
