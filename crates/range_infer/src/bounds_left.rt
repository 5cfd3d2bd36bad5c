//! The bounds of an expression under the ranges that are left where it is evaluated.
#![tactic(auto, using(crate::proofs::RestoredRanges::restores_through))]

ghost use Rattle.std.specs.Prelude.{◌≡◌, List, length, pos, int_le, int_lt, ◌&&◌, true, IfOk, OnOk};
ghost use Rattle.model_core.specs.EventGraph.{Variable, Expression};
ghost use Rattle.model_core.specs.Run.State.{variable_at};
ghost use Rattle.model_core.specs.Rules.BoundsTable.{kind_bounds, variable_bounds, quiet_index};
ghost use Rattle.model_core.specs.Rules.BoundsOf.{ranged_at, beside, bounds_under};
ghost use Rattle.model_core.specs.Code.Views.{graph_of, expression_of, operator_of};
ghost use Rattle.model_core.specs.Ranges.OtherRanges.{with_ranges};
ghost use Rattle.model_core.specs.Ranges.Refined.{refined};
ghost use Rattle.range_infer.specs.declared.ranges_left.RangesLeft.{RangesLeft};
ghost use Rattle.range_infer.specs.Inner.RangesLeft.{variables_left, StaysLeft, RestoresTo};

use crate::ranges_left::RangesLeft;
use crate::refinement::{guard_of, refine, refines_both, restore_ranges};
use model_core::{Bounds, Expr, Kind, Model, Op, VarRange};
use range_bounds::{
    chosen_bounds, negative_bounds, number_bounds, operator_bounds, opposite, truth_bounds,
};
use sig_base::NoMemory;

fn kind_bounds(kind: Kind, range: VarRange, quiet: bool) -> Bounds
    ensures { result ≡ kind_bounds kind range.lo range.hi quiet }
{
    match kind {
        Kind::Range => number_bounds(range.lo, range.hi, quiet),
        Kind::Truth => truth_bounds(true, true, quiet),
    }
}

/// The bounds of what the variable at this place holds.
#[inline(always)]
pub(crate) fn variable_bounds(left: &RangesLeft, var: usize, quiet: bool) -> Bounds
    ensures { result ≡ variable_bounds (ranged_at (variables_left left.now) var) quiet }
{
    match left.model.vars.as_slice().get(var) {
        Some(found) => kind_bounds(found.kind, left.ranges[var], quiet),
        None => number_bounds(0, 0, quiet),
    }
}

/// How many cells the array at this place has.
fn size_at(model: &Model, var: usize) -> usize
    ensures { result ≡ (variable_at (graph_of model.now) var).size }
{
    match model.vars.as_slice().get(var) {
        Some(found) => found.size,
        None => 0,
    }
}

fn lies_inside(index: &Bounds, size: usize) -> bool
    ensures { result
        ≡ (index.now.quiet && int_le (pos 0) index.now.lo && int_lt index.now.hi (pos size)) }
{
    index.quiet && 0 <= index.lo && (index.hi as i128) < size as i128
}

/// Whether an index of these bounds into the array at this place never faults, under any ranges.
pub(crate) fn quiet_index(model: &Model, var: usize, index: &Bounds) -> bool
    ensures { (ranges : List VarRange)
        → result ≡ quiet_index
        (ranged_at (with_ranges (graph_of model.now).variables ranges) var) index.now }
{
    lies_inside(index, size_at(model, var))
}

/// Whether the value of this operator's left operand changes nothing about the ranges under which the right one is evaluated.
fn stays_beside(op: Op) -> bool
    ensures { result ≡ true → (first : Expression) (ranges : List Variable)
        → beside refined (operator_of op) first ranges ≡ ranges }
{
    !matches!(op, Op::And | Op::Or)
}

/// The bounds of an expression, as `bounds_left` finds them. Those of variables and numbers need no call.
#[cycle(bounds_left)]
#[inline(always)]
fn operand_left(left: &mut RangesLeft, expr: &Expr) -> Result<Bounds, NoMemory>
    ensures bounds { IfOk result
        (λ b. b ≡ bounds_under refined (variables_left left.old) (expression_of expr.now)) }
    ensures left { OnOk result (StaysLeft left.old left.new) }
{
    match expr {
        Expr::Scalar(var) => Ok(variable_bounds(left, *var, true)),
        Expr::Int(n) => Ok(number_bounds(*n, *n, true)),
        _ => bounds_left(left, expr),
    }
}

/// The bounds of the left operand of this operator. What is left where the right one is evaluated stays.
#[cycle(bounds_left)]
fn bounds_beside(left: &mut RangesLeft, op: Op, first: &Expr) -> Result<Bounds, NoMemory>
    ensures bounds { IfOk result
        (λ b. b ≡ bounds_under refined (variables_left left.old) (expression_of first.now)) }
    ensures left { OnOk result
        (variables_left left.new
        ≡ beside refined (operator_of op) (expression_of first.now) (variables_left left.old)) }
    ensures back { OnOk result (RestoresTo left.old left.new) }
{
    match guard_of(op) {
        None => operand_left(left, first),
        Some(value) => bounds_where(left, first, value),
    }
}

/// The bounds of the last operand. What was replaced since there were so many replaced ranges is put back.
#[cycle(bounds_left)]
#[inline(always)]
fn last_bounds(left: &mut RangesLeft, expr: &Expr, replaced: usize) -> Result<Bounds, NoMemory>
    ensures bounds { IfOk result
        (λ b. b ≡ bounds_under refined (variables_left left.old) (expression_of expr.now)) }
    ensures left { OnOk result
        ((old : RangesLeft) → replaced ≡ length old.replaced.items → RestoresTo old left.old
        → StaysLeft old left.new) }
{
    let bounds = operand_left(left, expr)?;
    restore_ranges(left, replaced);
    Ok(bounds)
}

/// The bounds of an expression under the ranges that are left. What is replaced on the way is put back.
// Most expressions are operators that replace nothing. They go first, in a function with few locals. By `?` at the end no bounds
// go through memory but those of operands.
#[cycle(bounds_left)]
pub(crate) fn bounds_left(left: &mut RangesLeft, expr: &Expr) -> Result<Bounds, NoMemory>
    ensures bounds { IfOk result
        (λ b. b ≡ bounds_under refined (variables_left left.old) (expression_of expr.now)) }
    ensures left { OnOk result (StaysLeft left.old left.new) }
{
    if let Expr::Binary(op, first, second) = expr {
        if stays_beside(*op) {
            let a = operand_left(left, first)?;
            let b = operand_left(left, second)?;
            return Ok(operator_bounds(*op, &a, &b));
        }
    }
    let bounds = any_bounds_left(left, expr)?;
    Ok(bounds)
}

/// The same, of an expression of any form.
#[cycle(bounds_left)]
#[inline(never)]
fn any_bounds_left(left: &mut RangesLeft, expr: &Expr) -> Result<Bounds, NoMemory>
    ensures bounds { IfOk result
        (λ b. b ≡ bounds_under refined (variables_left left.old) (expression_of expr.now)) }
    ensures left { OnOk result (StaysLeft left.old left.new) }
{
    match expr {
        Expr::Int(n) => Ok(number_bounds(*n, *n, true)),
        Expr::Truth(b) => Ok(truth_bounds(!*b, *b, true)),
        Expr::Clk => Ok(number_bounds(0, 1 << 48, true)),
        Expr::Scalar(v) => Ok(variable_bounds(left, *v, true)),
        Expr::Cell(v, i) => {
            let index = operand_left(left, i)?;
            let quiet = quiet_index(left.model, *v, &index);
            Ok(variable_bounds(left, *v, quiet))
        }
        Expr::Neg(a) => {
            let bounds = operand_left(left, a)?;
            Ok(negative_bounds(&bounds))
        }
        Expr::Not(a) => {
            let bounds = operand_left(left, a)?;
            Ok(opposite(&bounds))
        }
        Expr::Binary(op, first, second) => {
            let replaced = left.replaced.len();
            let a = bounds_beside(left, *op, first)?;
            let b = last_bounds(left, second, replaced)?;
            Ok(operator_bounds(*op, &a, &b))
        }
        Expr::If(test, yes, no) => {
            let replaced = left.replaced.len();
            let c = bounds_where(left, test, true)?;
            let a = last_bounds(left, yes, replaced)?;
            refine(left, test, false)?;
            let b = last_bounds(left, no, replaced)?;
            Ok(chosen_bounds(&c, &a, &b))
        }
    }
}

/// The bounds of an expression. What is left where it has this value stays.
// A chain of `and` or of `or` is gone through once, and not once more for each of its operands.
#[cycle(bounds_left)]
pub(crate) fn bounds_where(
    left: &mut RangesLeft,
    expr: &Expr,
    value: bool,
) -> Result<Bounds, NoMemory>
    ensures bounds { IfOk result
        (λ b. b ≡ bounds_under refined (variables_left left.old) (expression_of expr.now)) }
    ensures left { OnOk result
        (variables_left left.new
        ≡ refined (expression_of expr.now) value (variables_left left.old)) }
    ensures back { OnOk result (RestoresTo left.old left.new) }
{
    if let Expr::Binary(op, first, second) = expr {
        if refines_both(*op, value) {
            let a = bounds_where(left, first, value)?;
            let b = bounds_where(left, second, value)?;
            return Ok(operator_bounds(*op, &a, &b));
        }
    }
    let bounds = bounds_left(left, expr)?;
    refine(left, expr, value)?;
    Ok(bounds)
}
