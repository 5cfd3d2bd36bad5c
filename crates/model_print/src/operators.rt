//! Operators: how each is written, and how tightly it binds.

ghost use Rattle.std.specs.Prelude.{◌≡◌, ◌++◌, codes};
ghost use Rattle.model_core.specs.Text.Canonical.{operator_level as level_of, left_operand_level as left_level_of, right_operand_level as right_level_of, operator_text};
ghost use Rattle.model_core.specs.Code.Views.{operator_of};

use crate::pen::Pen;
use model_core::Op;

/// How tightly an operator binds, from 1 for `or` to 8 for `min` and `max`. A higher level binds more tightly: the levels of
/// `model_read` go the other way.
pub(crate) fn operator_level(op: Op) -> u8
    ensures { result ≡ level_of (operator_of op) }
{
    match op {
        Op::Or => 1,
        Op::And => 2,
        Op::Eq | Op::Ne | Op::Lt | Op::Le | Op::Gt | Op::Ge => 4,
        Op::Add | Op::Sub => 5,
        Op::Mul | Op::Div | Op::Rem => 6,
        Op::Min | Op::Max => 8,
    }
}

/// How tightly the left operand has to bind. Comparisons don't chain.
pub(crate) fn left_operand_level(op: Op) -> u8
    ensures { result ≡ left_level_of (operator_of op) }
{
    match op {
        Op::Eq | Op::Ne | Op::Lt | Op::Le | Op::Gt | Op::Ge => 5,
        _ => operator_level(op),
    }
}

/// How tightly the right operand has to bind. Chains group to the left.
pub(crate) fn right_operand_level(op: Op) -> u8
    ensures { result ≡ right_level_of (operator_of op) }
{
    operator_level(op) + 1
}

/// Puts `min` or `max` and the parenthesis after it.
pub(crate) fn put_call<P: Pen>(out: &mut P, op: Op)
    requires { level_of (operator_of op) ≡ 8 }
    ensures { P.adds out.old out.new (operator_text (operator_of op) ++ codes "(") }
{
    if op == Op::Min {
        out.put_bytes(b"min(");
    } else {
        out.put_bytes(b"max(");
    }
}

/// Puts an operator with a space on each side, as between operands. In one piece, since most pieces of an expression
/// are such.
pub(crate) fn put_infix<P: Pen>(out: &mut P, op: Op)
    ensures { P.adds out.old out.new (codes " " ++ operator_text (operator_of op) ++ codes " ") }
{
    let text: &[u8] = match op {
        Op::Add => b" + ",
        Op::Sub => b" - ",
        Op::Mul => b" * ",
        Op::Div => b" / ",
        Op::Rem => b" % ",
        Op::Min => b" min ",
        Op::Max => b" max ",
        Op::Eq => b" = ",
        Op::Ne => b" <> ",
        Op::Lt => b" < ",
        Op::Le => b" <= ",
        Op::Gt => b" > ",
        Op::Ge => b" >= ",
        Op::And => b" and ",
        Op::Or => b" or ",
    };
    out.put_bytes(text);
}
