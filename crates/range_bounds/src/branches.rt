//! The row of each operator, and the row of `if`.
#![tactic(auto, using(model_core::proofs::SignedBits::signed_bits))]

ghost use Rattle.std.specs.Prelude.{◌≡◌, ◌&&◌, ◌||◌, not, cond};
ghost use Rattle.model_core.specs.Rules.BoundsTable.{operator_bounds, either_bounds, chosen_bounds};
ghost use Rattle.model_core.specs.Code.Views.{operator_of};

use crate::number_rows::{
    difference_bounds, greatest_bounds, least_bounds, product_bounds, quotient_bounds,
    remainder_bounds, sum_bounds,
};
use crate::range_ends::both_quiet;
use crate::truth_rows::{
    and_bounds, at_most_bounds, below_bounds, equal_bounds, opposite, or_bounds,
};
use model_core::{Bounds, Op};

/// The bounds of what an operator gives, from those of its operands.
#[inline(always)]
pub fn operator_bounds(op: Op, a: &Bounds, b: &Bounds) -> Bounds
    ensures { result ≡ operator_bounds (operator_of op) a.now b.now }
{
    match op {
        Op::Add => sum_bounds(a, b),
        Op::Sub => difference_bounds(a, b),
        Op::Mul => product_bounds(a, b),
        Op::Div => quotient_bounds(a, b),
        Op::Rem => remainder_bounds(a, b),
        Op::Min => least_bounds(a, b),
        Op::Max => greatest_bounds(a, b),
        Op::Eq => equal_bounds(a, b),
        Op::Ne => opposite(&equal_bounds(a, b)),
        Op::Lt => below_bounds(a, b),
        Op::Le => at_most_bounds(a, b),
        Op::Gt => below_bounds(b, a),
        Op::Ge => at_most_bounds(b, a),
        Op::And => and_bounds(a, b),
        Op::Or => or_bounds(a, b),
    }
}

fn either_bounds(a: &Bounds, b: &Bounds) -> Bounds
    ensures { result ≡ either_bounds a.now b.now }
{
    Bounds {
        lo: a.lo.min(b.lo),
        hi: a.hi.max(b.hi),
        can_false: a.can_false || b.can_false,
        can_true: a.can_true || b.can_true,
        quiet: both_quiet(a, b),
    }
}

fn quiet_unless(a: &Bounds, needed: bool) -> bool
    ensures { result ≡ (a.now.quiet || not needed) }
{
    a.quiet || !needed
}

fn quiet_choice(c: &Bounds, a: &Bounds, b: &Bounds) -> bool
    ensures { result
        ≡ ((c.now.quiet && (a.now.quiet || not c.now.can_true))
        && (b.now.quiet || not c.now.can_false)) }
{
    c.quiet && quiet_unless(a, c.can_true) && quiet_unless(b, c.can_false)
}

fn taken_branch(c: &Bounds, a: &Bounds, b: &Bounds) -> Bounds
    ensures { result
        ≡ cond (not c.now.can_false) a.now
        (cond (not c.now.can_true) b.now (either_bounds a.now b.now)) }
{
    if !c.can_false {
        *a
    } else if !c.can_true {
        *b
    } else {
        either_bounds(a, b)
    }
}

/// The bounds of `if c then a else b`, from those of its parts.
pub fn chosen_bounds(c: &Bounds, a: &Bounds, b: &Bounds) -> Bounds
    ensures { result ≡ chosen_bounds c.now a.now b.now }
{
    Bounds {
        quiet: quiet_choice(c, a, b),
        ..taken_branch(c, a, b)
    }
}
