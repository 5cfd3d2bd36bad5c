//! Conditions of which at most one is true.
#![tactic(auto, using(model_core::proofs::SignedBits::signed_bits))]

ghost use Rattle.std.specs.Prelude.{◌≡◌, ℤ, pos, ◌+ℤ◌, ◌||◌, IfSome};
ghost use Rattle.model_core.specs.EventGraph.{Binary};
ghost use Rattle.model_core.specs.Rules.Exclusive.{same_expression, compares, is_comparison, number_literal, literal_number, comparison_of, is_negation_of, compare_apart, exclusive};
ghost use Rattle.model_core.specs.Code.Views.{graph_of, expression_of, operator_of};
ghost use Rattle.range_bounds.specs.Near.{IsNear, both_meet, one_beside_meets};

use crate::expressions::refuted;
use model_core::{Expr, Model, Op, same_expr};

pub(crate) fn is_same(a: &Expr, b: &Expr) -> bool
    ensures { result ≡ same_expression (expression_of a.now) (expression_of b.now) }
{
    same_expr(a, b)
}

pub(crate) fn is_comparison(op: Op) -> bool
    ensures { result ≡ is_comparison (operator_of op) }
{
    matches!(op, Op::Eq | Op::Ne | Op::Lt | Op::Le | Op::Gt | Op::Ge)
}

fn compares(op: Op, x: i128, n: i128) -> bool
    ensures { result ≡ compares (operator_of op) x n }
{
    match op {
        Op::Eq => x == n,
        Op::Ne => x != n,
        Op::Lt => x < n,
        Op::Le => x <= n,
        Op::Gt => n < x,
        Op::Ge => n <= x,
        Op::Add | Op::Sub | Op::Mul | Op::Div | Op::Rem => false,
        Op::Min | Op::Max | Op::And | Op::Or => false,
    }
}

fn number_literal(expr: &Expr) -> Option<i64>
    ensures { result ≡ number_literal (expression_of expr.now) }
{
    match expr {
        Expr::Int(n) => Some(*n),
        _ => None,
    }
}

/// The number of a literal, or of `-` before one; `None` of any other expression.
pub fn literal_number(expr: &Expr) -> Option<i128>
    ensures number { result ≡ literal_number (expression_of expr.now) }
    ensures near { IfSome result IsNear }
{
    match expr {
        Expr::Neg(a) => match number_literal(a) {
            Some(n) => Some(-(n as i128)),
            None => None,
        },
        _ => match number_literal(expr) {
            Some(n) => Some(n as i128),
            None => None,
        },
    }
}

#[tactic(auto, using(model_core::proofs::SignedBits::signed_bits), unfolding(crate::specs::Near::both_meet))]
fn both_meet(p: Op, m: i128, q: Op, n: i128, x: i128) -> bool
    ensures { result ≡ both_meet (operator_of p) m (operator_of q) n x }
{
    compares(p, x, m) && compares(q, x, n)
}

fn this_or_next_meets(p: Op, m: i128, q: Op, n: i128, at: i128) -> bool
    requires { IsNear at }
    ensures { result
        ≡ (both_meet (operator_of p) m (operator_of q) n at
        || both_meet (operator_of p) m (operator_of q) n (at +ℤ pos 1)) }
{
    both_meet(p, m, q, n, at) || both_meet(p, m, q, n, at + 1)
}

/// Whether a number or one of the two beside it makes both comparisons true.
#[tactic(auto, using(model_core::proofs::SignedBits::signed_bits), unfolding(crate::specs::Near::one_beside_meets))]
fn one_beside_meets(p: Op, m: i128, q: Op, n: i128, at: i128) -> bool
    requires { IsNear at }
    ensures { result ≡ one_beside_meets (operator_of p) m (operator_of q) n at }
{
    both_meet(p, m, q, n, at - 1) || this_or_next_meets(p, m, q, n, at)
}

pub(crate) fn some_meets_both(p: Op, m: i128, q: Op, n: i128) -> bool
    requires first { IsNear m }
    requires second { IsNear n }
    ensures { result
        ≡ (one_beside_meets (operator_of p) m (operator_of q) n m
        || one_beside_meets (operator_of p) m (operator_of q) n n) }
{
    one_beside_meets(p, m, q, n, m) || one_beside_meets(p, m, q, n, n)
}

/// Whether `left p m` and `right q n` compare the same with numbers that no whole number meets both.
fn operands_compare_apart(p: Op, left: &Expr, m: &Expr, q: Op, right: &Expr, n: &Expr) -> bool
    ensures { result
        ≡ compare_apart
        (comparison_of (Binary (operator_of p) (expression_of left.now) (expression_of m.now)))
        (comparison_of (Binary (operator_of q) (expression_of right.now) (expression_of n.now))) }
{
    if !is_comparison(p) || !is_comparison(q) {
        return false;
    }
    match (literal_number(m), literal_number(n)) {
        (Some(m), Some(n)) => is_same(left, right) && !some_meets_both(p, m, q, n),
        _ => false,
    }
}

fn compare_apart(a: &Expr, b: &Expr) -> bool
    ensures { result
        ≡ compare_apart (comparison_of (expression_of a.now))
        (comparison_of (expression_of b.now)) }
{
    match (a, b) {
        (Expr::Binary(p, a, m), Expr::Binary(q, b, n)) => {
            operands_compare_apart(*p, a, m, *q, b, n)
        }
        _ => false,
    }
}

fn is_negation_of(a: &Expr, b: &Expr) -> bool
    ensures { result ≡ is_negation_of (expression_of a.now) (expression_of b.now) }
{
    match a {
        Expr::Not(c) => is_same(c, b),
        _ => false,
    }
}

/// Whether two conditions are known to be never both true: one is `not` of the other, one never holds, or both compare one
/// and the same with numbers, and no whole number meets both.
pub fn exclusive(model: &Model, a: &Expr, b: &Expr) -> bool
    ensures { result ≡ exclusive (graph_of model.now) (expression_of a.now) (expression_of b.now) }
{
    is_negation_of(a, b)
        || is_negation_of(b, a)
        || compare_apart(a, b)
        || refuted(model, a)
        || refuted(model, b)
}
