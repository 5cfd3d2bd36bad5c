//! The numbers of a range for which a comparison holds.
#![tactic(auto, using(model_core::proofs::SignedBits::signed_bits))]

ghost use Rattle.std.specs.Prelude.{◌≡◌, ℤ, pos, ◌+ℤ◌, ◌-ℤ◌, ◌≤ℤ◌, int_le, cond, Some};
ghost use Rattle.std.specs.Ordering.{int_eq};
ghost use Rattle.range_bounds.specs.Near.{IsNear};
ghost use Rattle.model_core.specs.Code.Views.{operator_of, variable_of};
ghost use Rattle.model_core.specs.Ranges.OtherRanges.{with_range};
ghost use Rattle.model_core.specs.Ranges.Refined.{numbers_left, is_number_scalar, where_holds};

use model_core::{Kind, Op, Var, VarRange};

/// Two ends in 128 bits.
#[derive(Clone, Copy)]
struct Ends {
    lo: i128,
    hi: i128,
}

fn low_without(lo: i128, n: i128) -> i128
    requires { IsNear lo }
    ensures { result ≡ cond (int_eq lo n) (lo +ℤ pos 1) lo }
{
    if lo == n { lo + 1 } else { lo }
}

fn high_without(hi: i128, n: i128) -> i128
    requires { IsNear hi }
    ensures { result ≡ cond (int_eq hi n) (hi -ℤ pos 1) hi }
{
    if hi == n { hi - 1 } else { hi }
}

/// The ends of what is left of a range.
fn ends_left(op: Op, n: i128, range: VarRange) -> Ends
    requires { IsNear n }
    ensures lo { result.lo ≡ (numbers_left (operator_of op) n range).lo }
    ensures hi { result.hi ≡ (numbers_left (operator_of op) n range).hi }
{
    let lo = range.lo as i128;
    let hi = range.hi as i128;
    match op {
        Op::Lt => Ends {
            lo,
            hi: hi.min(n - 1),
        },
        Op::Le => Ends { lo, hi: hi.min(n) },
        Op::Gt => Ends {
            lo: lo.max(n + 1),
            hi,
        },
        Op::Ge => Ends { lo: lo.max(n), hi },
        Op::Eq => Ends {
            lo: lo.max(n),
            hi: hi.min(n),
        },
        Op::Ne => Ends {
            lo: low_without(lo, n),
            hi: high_without(hi, n),
        },
        Op::Add | Op::Sub | Op::Mul | Op::Div | Op::Rem => Ends { lo, hi },
        Op::Min | Op::Max | Op::And | Op::Or => Ends { lo, hi },
    }
}

/// The numbers of a range that compare so with `n`: none where the lower end is above the upper one.
fn numbers_left(op: Op, n: i128, range: VarRange) -> Ends
    requires { IsNear n }
    ensures lo { result.lo ≡ (numbers_left (operator_of op) n range).lo }
    ensures hi { result.hi ≡ (numbers_left (operator_of op) n range).hi }
    ensures low { range.lo ≤ℤ result.lo }
    ensures high { result.hi ≤ℤ range.hi }
{
    ends_left(op, n, range)
}

fn is_number_scalar(var: &Var) -> bool
    ensures { result ≡ is_number_scalar (variable_of var.now) }
{
    var.size == 0 && matches!(var.kind, Kind::Range)
}

/// These ends, which lie in a range, or the range where the lower one is above the upper one.
fn unless_empty(range: VarRange, ends: Ends) -> VarRange
    requires low { range.lo ≤ℤ ends.lo }
    requires high { ends.hi ≤ℤ range.hi }
    ensures lo { result.lo ≡ cond (int_le ends.lo ends.hi) ends.lo range.lo }
    ensures hi { result.hi ≡ cond (int_le ends.lo ends.hi) ends.hi range.hi }
{
    if ends.lo <= ends.hi {
        VarRange {
            lo: ends.lo as i64,
            hi: ends.hi as i64,
        }
    } else {
        range
    }
}

/// The range of a variable where a comparison of it with `n` holds.
pub(crate) fn where_holds(op: Op, n: i128, var: &Var, range: VarRange) -> VarRange
    requires { IsNear n }
    ensures { with_range (variable_of var.now) result
        ≡ where_holds (operator_of op) (Some n) (with_range (variable_of var.now) range) }
{
    if is_number_scalar(var) {
        unless_empty(range, numbers_left(op, n, range))
    } else {
        range
    }
}
