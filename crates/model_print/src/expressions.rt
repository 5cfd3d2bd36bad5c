//! The text of an expression, with parentheses exactly where they are needed.

ghost use Rattle.std.specs.Prelude.{◌≡◌, ◌++◌, map};
ghost use Rattle.model_core.specs.Text.Canonical.{truth_text, level as level_of, operand, expression_text, expression_texts, joined, in_parentheses};
ghost use Rattle.model_core.specs.Code.Views.{graph_of, expression_of};

use crate::names::put_variable_name;
use crate::operators::{
    left_operand_level, operator_level, put_call, put_infix, right_operand_level,
};
use crate::pen::{Pen, put_comma, put_signed};
use model_core::{Expr, Model};

/// The level of an expression without operators, and of `min` and `max`, which are written like calls.
const CALL_LEVEL: u8 = 8;

/// How tightly the operand of `-` has to bind.
const NEGATIVE_LEVEL: u8 = 7;

/// How tightly the operand of `not` has to bind.
const NOT_LEVEL: u8 = 3;

/// Puts `true` or `false`.
pub(crate) fn put_truth<P: Pen>(out: &mut P, truth: bool)
    ensures { P.adds out.old out.new (truth_text truth) }
{
    if truth {
        out.put_bytes(b"true");
    } else {
        out.put_bytes(b"false");
    }
}

/// How tightly an expression binds.
fn level(expr: &Expr) -> u8
    ensures { result ≡ level_of (expression_of expr.now) }
{
    match expr {
        Expr::If(..) => 0,
        Expr::Binary(op, ..) => operator_level(*op),
        Expr::Not(_) => NOT_LEVEL,
        Expr::Neg(_) => NEGATIVE_LEVEL,
        Expr::Int(_) | Expr::Truth(_) | Expr::Clk | Expr::Scalar(_) | Expr::Cell(..) => CALL_LEVEL,
    }
}

/// Puts an operand, in parentheses where it binds less tightly than is asked for.
#[cycle(printing)]
fn put_operand<P: Pen>(out: &mut P, model: &Model, asked: u8, expr: &Expr)
    ensures { P.adds out.old out.new
        (operand asked (expression_of expr.now)
        (expression_text (graph_of model.now) (expression_of expr.now))) }
{
    // Most operands are variables: such a name is put without a call.
    if let Expr::Scalar(var) = expr
        && asked <= CALL_LEVEL
    {
        return put_variable_name(out, model, *var);
    }
    if level(expr) < asked {
        out.put_bytes(b"(");
        put_expression(out, model, expr);
        out.put_bytes(b")");
    } else {
        put_expression(out, model, expr);
    }
}

/// Puts an operand after a sign or a word.
#[cycle(printing)]
fn put_after_sign<P: Pen>(out: &mut P, model: &Model, sign: &[u8], asked: u8, expr: &Expr)
    ensures { P.adds out.old out.new
        (sign.now ++ operand asked (expression_of expr.now)
        (expression_text (graph_of model.now) (expression_of expr.now))) }
{
    out.put_bytes(sign);
    put_operand(out, model, asked, expr);
}

/// Puts an expression.
#[cycle(printing)]
pub(crate) fn put_expression<P: Pen>(out: &mut P, model: &Model, expr: &Expr)
    ensures { P.adds out.old out.new
        (expression_text (graph_of model.now) (expression_of expr.now)) }
{
    match expr {
        Expr::Int(number) => put_signed(out, *number),
        Expr::Truth(truth) => put_truth(out, *truth),
        Expr::Clk => out.put_bytes(b"clk"),
        Expr::Scalar(var) => put_variable_name(out, model, *var),
        Expr::Cell(var, index) => {
            put_variable_name(out, model, *var);
            out.put_bytes(b"[");
            put_expression(out, model, index);
            out.put_bytes(b"]");
        }
        Expr::Neg(number) => put_after_sign(out, model, b"-", NEGATIVE_LEVEL, number),
        Expr::Not(truth) => put_after_sign(out, model, b"not ", NOT_LEVEL, truth),
        Expr::Binary(op, left, right) => {
            if operator_level(*op) == CALL_LEVEL {
                put_call(out, *op);
                put_expression(out, model, left);
                put_comma(out);
                put_expression(out, model, right);
                out.put_bytes(b")");
            } else {
                put_operand(out, model, left_operand_level(*op), left);
                put_infix(out, *op);
                put_operand(out, model, right_operand_level(*op), right);
            }
        }
        Expr::If(test, yes, no) => {
            out.put_bytes(b"if ");
            put_expression(out, model, test);
            out.put_bytes(b" then ");
            put_expression(out, model, yes);
            out.put_bytes(b" else ");
            put_expression(out, model, no);
        }
    }
}

/// Puts expressions, with a comma and a space between two.
pub(crate) fn put_expressions<P: Pen>(out: &mut P, model: &Model, exprs: &[Expr])
    ensures { P.adds out.old out.new
        (joined (expression_texts (graph_of model.now) (map expression_of exprs.now))) }
{
    let [first, rest @ ..] = exprs else {
        return;
    };
    put_expression(out, model, first);
    for expr in rest {
        put_comma(out);
        put_expression(out, model, expr);
    }
}

/// Puts the values that an edge carries in parentheses, or nothing where it carries none.
pub(crate) fn put_carried_values<P: Pen>(out: &mut P, model: &Model, values: &[Expr])
    ensures { P.adds out.old out.new
        (in_parentheses (expression_texts (graph_of model.now) (map expression_of values.now))) }
{
    if values.is_empty() {
        return;
    }
    out.put_bytes(b"(");
    put_expressions(out, model, values);
    out.put_bytes(b")");
}
