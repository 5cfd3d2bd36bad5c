//! The operators on values.

ghost use Rattle.std.specs.Prelude.{◌≡◌, ◌+ℤ◌, ◌-ℤ◌, ◌*ℤ◌, neg_ℤ, int_div, int_rem, Ok};
ghost use Rattle.model_core.specs.Run.Value.{exact, unless_zero, operate, decided};
ghost use Rattle.model_core.specs.Code.Views.{operator_of};

use model_core::Op;
use sig_base::FaultKind;

fn sum(a: i64, b: i64) -> Result<i64, FaultKind>
    ensures { result ≡ exact (a +ℤ b) }
{
    match a.checked_add(b) {
        Some(n) => Ok(n),
        None => Err(FaultKind::Overflow),
    }
}

fn difference(a: i64, b: i64) -> Result<i64, FaultKind>
    ensures { result ≡ exact (a -ℤ b) }
{
    match a.checked_sub(b) {
        Some(n) => Ok(n),
        None => Err(FaultKind::Overflow),
    }
}

fn product(a: i64, b: i64) -> Result<i64, FaultKind>
    ensures { result ≡ exact (a *ℤ b) }
{
    match a.checked_mul(b) {
        Some(n) => Ok(n),
        None => Err(FaultKind::Overflow),
    }
}

/// The number with the other sign.
pub fn negative(a: i64) -> Result<i64, FaultKind>
    ensures { result ≡ exact (neg_ℤ a) }
{
    match a.checked_neg() {
        Some(n) => Ok(n),
        None => Err(FaultKind::Overflow),
    }
}

fn quotient(a: i64, b: i64) -> Result<i64, FaultKind>
    ensures { result ≡ unless_zero b (exact (int_div a b)) }
{
    if b == 0 {
        return Err(FaultKind::DivisionByZero);
    }
    match a.checked_div(b) {
        Some(n) => Ok(n),
        None => Err(FaultKind::Overflow),
    }
}

fn remainder(a: i64, b: i64) -> Result<i64, FaultKind>
    ensures { result ≡ unless_zero b (Ok (int_rem a b)) }
{
    if b == 0 {
        return Err(FaultKind::DivisionByZero);
    }
    Ok(a.wrapping_rem(b))
}

/// The result of an operator on the values of both operands.
#[inline(always)]
pub fn operate(op: Op, a: i64, b: i64) -> Result<i64, FaultKind>
    ensures { result ≡ operate (operator_of op) a b }
{
    match op {
        Op::Add => sum(a, b),
        Op::Sub => difference(a, b),
        Op::Mul => product(a, b),
        Op::Div => quotient(a, b),
        Op::Rem => remainder(a, b),
        Op::Min => Ok(if a <= b { a } else { b }),
        Op::Max => Ok(if a <= b { b } else { a }),
        Op::Eq => Ok(i64::from(a == b)),
        Op::Ne => Ok(i64::from(a != b)),
        Op::Lt => Ok(i64::from(a < b)),
        Op::Le => Ok(i64::from(a <= b)),
        Op::Gt => Ok(i64::from(b < a)),
        Op::Ge => Ok(i64::from(b <= a)),
        Op::And | Op::Or => Ok(b),
    }
}

/// Whether the left operand alone decides the value.
pub fn is_decided(op: Op, a: i64) -> bool
    ensures { result ≡ decided (operator_of op) a }
{
    match op {
        Op::And => a == 0,
        Op::Or => a == 1,
        _ => false,
    }
}
