//! The kinds of operators and expressions, where they are known.

ghost use Rattle.std.specs.Prelude.{◌≡◌};
ghost use Rattle.model_core.specs.Code.Views.{operator_of};
ghost use Rattle.model_core.specs.Static.Kinds as kinds;

use model_core::{Kind, Op};

/// A part, and its kind where that is known.
#[derive(Drop)]
pub struct Typed<T> {
    pub part: T,
    pub kind: Option<Kind>,
}

/// Whether two known kinds differ.
pub fn kinds_differ(a: Option<Kind>, b: Option<Kind>) -> bool
    ensures { result ≡ kinds.kinds_differ a b }
{
    match (a, b) {
        (Some(Kind::Truth), Some(Kind::Range)) | (Some(Kind::Range), Some(Kind::Truth)) => true,
        _ => false,
    }
}

/// The first of two kinds that is known.
pub fn known_or(a: Option<Kind>, b: Option<Kind>) -> Option<Kind>
    ensures { result ≡ kinds.known_or a b }
{
    match a {
        Some(kind) => Some(kind),
        None => b,
    }
}

/// The kind of what an operator gives.
pub fn result_kind(op: Op) -> Kind
    ensures { result ≡ kinds.result_kind (operator_of op) }
{
    match op {
        Op::Add | Op::Sub | Op::Mul | Op::Div | Op::Rem | Op::Min | Op::Max => Kind::Range,
        _ => Kind::Truth,
    }
}

/// The kind that both operands must have.
pub fn operand_kind(op: Op) -> Option<Kind>
    ensures { result ≡ kinds.operand_kind (operator_of op) }
{
    match op {
        Op::Eq | Op::Ne => None,
        Op::And | Op::Or => Some(Kind::Truth),
        _ => Some(Kind::Range),
    }
}

/// The kind that the right operand must have, beside a left one of this kind.
pub fn right_kind(op: Op, left: Option<Kind>) -> Option<Kind>
    ensures { result ≡ kinds.right_operand_kind (operator_of op) left }
{
    known_or(operand_kind(op), left)
}
