//! The ranges that are left where an expression is known to be true, or to be false.
#![tactic(auto, using(crate::proofs::RestoredRanges::restores_through))]

ghost use Rattle.std.specs.Prelude.{◌≡◌, Some, length, slice_set, cond, OnOk};
ghost use Rattle.range_bounds.specs.Near.{IsNear};
ghost use Rattle.model_core.specs.Rules.BoundsOf.{ranged_at};
ghost use Rattle.model_core.specs.Code.Views.{expression_of, operator_of};
ghost use Rattle.model_core.specs.Ranges.Refined.{opposite_comparison, where_holds, ranges_refined_by, refines_both, refined};
ghost use Rattle.range_infer.specs.declared.ranges_left.RangesLeft.{RangesLeft};
ghost use Rattle.range_infer.specs.Inner.RangesLeft.{variables_left, StaysLeft, RestoresTo};
ghost use Rattle.range_infer.specs.Inner.Postfix.{guard_of};

use crate::numbers_left::where_holds;
use crate::ranges_left::RangesLeft;
use crate::replaced_range::ReplacedRange;
use model_core::{Expr, Op, VarRange};
use range_bounds::literal_number;
use sig_base::NoMemory;

fn opposite_comparison(op: Op) -> Op
    ensures { operator_of result ≡ opposite_comparison (operator_of op) }
{
    match op {
        Op::Lt => Op::Ge,
        Op::Le => Op::Gt,
        Op::Gt => Op::Le,
        Op::Ge => Op::Lt,
        Op::Eq => Op::Ne,
        Op::Ne => Op::Eq,
        Op::Add | Op::Sub | Op::Mul | Op::Div | Op::Rem => op,
        Op::Min | Op::Max | Op::And | Op::Or => op,
    }
}

/// The comparison that holds where this one has this value.
pub(crate) fn comparison_where(op: Op, value: bool) -> Op
    ensures { operator_of result
        ≡ cond value (operator_of op) (opposite_comparison (operator_of op)) }
{
    if value { op } else { opposite_comparison(op) }
}

pub(crate) fn refines_both(op: Op, value: bool) -> bool
    ensures { result ≡ refines_both (operator_of op) value }
{
    match op {
        Op::And => value,
        Op::Or => !value,
        Op::Eq | Op::Ne | Op::Lt | Op::Le | Op::Gt | Op::Ge => false,
        Op::Add | Op::Sub | Op::Mul | Op::Div | Op::Rem | Op::Min | Op::Max => false,
    }
}

/// The value that the left operand has where the right one is evaluated, if that is known.
pub(crate) fn guard_of(op: Op) -> Option<bool>
    ensures { result ≡ guard_of (operator_of op) }
{
    match op {
        Op::And => Some(true),
        Op::Or => Some(false),
        Op::Eq | Op::Ne | Op::Lt | Op::Le | Op::Gt | Op::Ge => None,
        Op::Add | Op::Sub | Op::Mul | Op::Div | Op::Rem | Op::Min | Op::Max => None,
    }
}

/// Puts a range in the place of the variable, if there is one.
fn put_range(ranges: &mut Vec<VarRange>, var: usize, range: VarRange)
    ensures { ranges.new.items ≡ slice_set ranges.old.items var range }
{
    if var < ranges.len() {
        ranges[var] = range;
    }
}

/// Puts back what was replaced since there were so many replaced ranges: what then is left was left before that.
pub(crate) fn restore_ranges(left: &mut RangesLeft, replaced: usize)
    ensures { (old : RangesLeft) → replaced ≡ length old.replaced.items → RestoresTo old left.old
        → StaysLeft old left.new }
{
    while replaced < left.replaced.len() {
        if let Some(last) = left.replaced.pop() {
            put_range(&mut left.ranges, last.var, last.range);
        }
    }
}

/// Replaces the range of the variable at this place, if there is one, by what is left of it where a comparison of it with
/// `n` holds.
pub(crate) fn refine_scalar(
    left: &mut RangesLeft,
    op: Op,
    var: usize,
    n: i128,
) -> Result<(), NoMemory>
    requires near { IsNear n }
    ensures left { OnOk result (variables_left left.new
        ≡ slice_set (variables_left left.old) var
        (where_holds (operator_of op) (Some n) (ranged_at (variables_left left.old) var))) }
    ensures back { OnOk result (RestoresTo left.old left.new) }
{
    if let Some(found) = left.model.vars.as_slice().get(var) {
        let range = left.ranges[var];
        left.replaced.push(ReplacedRange { var, range })?;
        left.ranges[var] = where_holds(op, n, found, range);
    }
    Ok(())
}

/// Refines what is left of the variable on the left of a comparison, if there is one, where the comparison has this value.
fn refine_by(
    left: &mut RangesLeft,
    op: Op,
    first: &Expr,
    second: &Expr,
    value: bool,
) -> Result<(), NoMemory>
    ensures left { OnOk result (variables_left left.new
        ≡ ranges_refined_by (operator_of op) (expression_of first.now)
        (expression_of second.now) value (variables_left left.old)) }
    ensures back { OnOk result (RestoresTo left.old left.new) }
{
    let Expr::Scalar(var) = first else {
        return Ok(());
    };
    let Some(n) = literal_number(second) else {
        return Ok(());
    };
    refine_scalar(left, comparison_where(op, value), *var, n)
}

/// Refines the ranges to those that are left where an expression has this value.
pub(crate) fn refine(left: &mut RangesLeft, expr: &Expr, value: bool) -> Result<(), NoMemory>
    ensures left { OnOk result
        (variables_left left.new
        ≡ refined (expression_of expr.now) value (variables_left left.old)) }
    ensures back { OnOk result (RestoresTo left.old left.new) }
{
    match expr {
        Expr::Not(a) => refine(left, a, !value),
        Expr::Binary(op, first, second) => {
            if refines_both(*op, value) {
                refine(left, first, value)?;
                refine(left, second, value)
            } else {
                refine_by(left, *op, first, second, value)
            }
        }
        Expr::Int(_) | Expr::Truth(_) | Expr::Clk | Expr::Scalar(_) => Ok(()),
        Expr::Cell(_, _) | Expr::Neg(_) | Expr::If(..) => Ok(()),
    }
}
