//! The value of an expression.

ghost use Rattle.std.specs.Prelude.{◌≡◌, ◌<◌, ◌≤◌, ◌-ℤ◌, pos, ℕ, IsTrue, IfSome, Ok, length};
ghost use Rattle.sig_base.specs.declared.limits.TheConstants.{STOP_MAX};
ghost use Rattle.model_core.specs.Run.State.{in_range, cell_at};
ghost use Rattle.model_core.specs.Run.Value.{◌>>=◌ as and_then, value_of, indexed};
ghost use Rattle.model_core.specs.Code.Views.{graph_of, expression_of};
ghost use Rattle.sig_expr.specs.Outcomes.{map_ok};
ghost use Rattle.sig_expr.specs.Possible.{PossibleExpression, IsTruth};

use crate::arithmetic::{is_decided, negative, operate};
use crate::state::State;
use model_core::{Expr, Model};
use sig_base::FaultKind;

/// The value of a scalar.
fn scalar(model: &Model, var: usize, state: &State) -> i64
    requires declared { var < length model.now.vars }
    requires inside { IsTrue (in_range (graph_of model.now) state.now) }
    ensures { result ≡ cell_at state.now (record { variable = var; index = 0 }) }
{
    state.cell(var, 0)
}

/// The place of a cell of an array, whose index is from 0 up to the array's size.
pub fn cell_index(model: &Model, var: usize, index: i64) -> Result<usize, FaultKind>
    requires declared { var < length model.now.vars }
    ensures { map_ok (λ i. record { variable = var; index = i }) result
        ≡ indexed (graph_of model.now) var index }
{
    let size = model.vars.as_slice()[var].size;
    if index < 0 || index as usize >= size {
        return Err(FaultKind::IndexOutside);
    }
    Ok(index as usize)
}

/// The value of a cell of an array.
fn cell(model: &Model, var: usize, index: i64, state: &State) -> Result<i64, FaultKind>
    requires declared { var < length model.now.vars }
    requires inside { IsTrue (in_range (graph_of model.now) state.now) }
    ensures { result
        ≡ and_then (indexed (graph_of model.now) var index) (λ p. Ok (cell_at state.now p)) }
{
    let index = cell_index(model, var, index)?;
    Ok(state.cell(var, index))
}

/// The other truth value.
fn other_truth(a: i64) -> i64
    requires { IsTruth a }
    ensures { result ≡ pos 1 -ℤ a }
{
    1 - a
}

/// The value of a number or of a scalar, and `None` of any other expression.
#[inline(always)]
fn plain_value(model: &Model, expr: &Expr, state: &State) -> Option<i64>
    requires possible { PossibleExpression (graph_of model.now) (expression_of expr.now) }
    requires inside { IsTrue (in_range (graph_of model.now) state.now) }
    ensures { (clk : ℕ)
        → IfSome result
        (λ x. value_of (graph_of model.now) state.now clk (expression_of expr.now) ≡ Ok x) }
{
    if let Expr::Scalar(var) = expr {
        return Some(scalar(model, *var, state));
    }
    if let Expr::Int(n) = expr {
        return Some(*n);
    }
    None
}

/// The value of an operator between numbers and scalars, and `None` where it faults, and of any other expression. It comes
/// in two registers, where a fault would want a place in memory.
#[inline(never)]
fn operator_value(model: &Model, expr: &Expr, state: &State) -> Option<i64>
    requires possible { PossibleExpression (graph_of model.now) (expression_of expr.now) }
    requires inside { IsTrue (in_range (graph_of model.now) state.now) }
    ensures { (clk : ℕ)
        → IfSome result
        (λ x. value_of (graph_of model.now) state.now clk (expression_of expr.now) ≡ Ok x) }
{
    let Expr::Binary(op, left, right) = expr else {
        return None;
    };
    let Some(a) = plain_value(model, left, state) else {
        return None;
    };
    let Some(b) = plain_value(model, right, state) else {
        return None;
    };
    if is_decided(*op, a) {
        return Some(a);
    }
    match operate(*op, a, b) {
        Ok(x) => Some(x),
        Err(_) => None,
    }
}

/// The value of an expression in a state and at a clock's time in ticks, or its first fault from left to right. Numbers and
/// scalars, which are most expressions, are answered without a call.
#[cycle(evaluation)]
#[inline(always)]
pub fn value(model: &Model, expr: &Expr, state: &State, clk: u64) -> Result<i64, FaultKind>
    requires possible { PossibleExpression (graph_of model.now) (expression_of expr.now) }
    requires inside { IsTrue (in_range (graph_of model.now) state.now) }
    requires soon { clk ≤ STOP_MAX }
    ensures { result ≡ value_of (graph_of model.now) state.now clk (expression_of expr.now) }
{
    match expr {
        Expr::Int(n) => Ok(*n),
        Expr::Scalar(var) => Ok(scalar(model, *var, state)),
        _ => evaluate(model, expr, state, clk),
    }
}

/// The same, of any expression. An operator between numbers and scalars is tried first.
#[cycle(evaluation)]
#[inline(always)]
fn evaluate(model: &Model, expr: &Expr, state: &State, clk: u64) -> Result<i64, FaultKind>
    requires possible { PossibleExpression (graph_of model.now) (expression_of expr.now) }
    requires inside { IsTrue (in_range (graph_of model.now) state.now) }
    requires soon { clk ≤ STOP_MAX }
    ensures { result ≡ value_of (graph_of model.now) state.now clk (expression_of expr.now) }
{
    if let Some(x) = operator_value(model, expr, state) {
        return Ok(x);
    }
    evaluate_parts(model, expr, state, clk)
}

/// The same, part by part.
#[cycle(evaluation)]
#[inline(never)]
fn evaluate_parts(model: &Model, expr: &Expr, state: &State, clk: u64) -> Result<i64, FaultKind>
    requires possible { PossibleExpression (graph_of model.now) (expression_of expr.now) }
    requires inside { IsTrue (in_range (graph_of model.now) state.now) }
    requires soon { clk ≤ STOP_MAX }
    ensures { result ≡ value_of (graph_of model.now) state.now clk (expression_of expr.now) }
{
    match expr {
        Expr::Int(n) => Ok(*n),
        Expr::Truth(b) => Ok(i64::from(*b)),
        Expr::Clk => Ok(clk as i64),
        Expr::Scalar(var) => Ok(scalar(model, *var, state)),
        Expr::Cell(var, index) => cell(model, *var, value(model, index, state, clk)?, state),
        Expr::Neg(a) => negative(value(model, a, state, clk)?),
        Expr::Not(a) => Ok(other_truth(value(model, a, state, clk)?)),
        Expr::Binary(op, left, right) => {
            let a = value(model, left, state, clk)?;
            if is_decided(*op, a) {
                return Ok(a);
            }
            operate(*op, a, value(model, right, state, clk)?)
        }
        Expr::If(test, yes, no) => {
            if value(model, test, state, clk)? == 1 {
                value(model, yes, state, clk)
            } else {
                value(model, no, state, clk)
            }
        }
    }
}
