//! The rows of the table that give numbers, one function each. A row is computed where it is asked for, and so its bounds needn't
//! go through memory.
#![tactic(auto, using(model_core::proofs::SignedBits::signed_bits))]

ghost use Rattle.std.specs.Prelude.{◌≡◌, pos, ◌+ℤ◌, ◌-ℤ◌, ◌*ℤ◌, ◌≤ℤ◌, neg_ℤ, int_div, int_le, cond, ◌&&◌, not};
ghost use Rattle.std.specs.Int.{int_min, int_max};
ghost use Rattle.model_core.specs.EventGraph.{Add, Subtract, Multiply, Least, Greatest};
ghost use Rattle.model_core.specs.Rules.BoundsTable.{negative_bounds, operator_bounds, quotient_bounds, greatest_rest, remainder_bounds, has_zero};

use crate::range_ends::{both_quiet, exact_bounds, has_zero, magnitude, number_bounds, of_four};
use model_core::Bounds;

/// The bounds of `-a`, from those of `a`.
#[inline(always)]
pub fn negative_bounds(a: &Bounds) -> Bounds
    ensures { result ≡ negative_bounds a.now }
{
    exact_bounds(-(a.hi as i128), -(a.lo as i128), a.quiet)
}

fn plus(a: i64, b: i64) -> i128
    ensures { result ≡ a +ℤ b }
{
    a as i128 + b as i128
}

/// The bounds of `a + b`.
#[inline(always)]
pub(crate) fn sum_bounds(a: &Bounds, b: &Bounds) -> Bounds
    ensures { result ≡ operator_bounds Add a.now b.now }
{
    exact_bounds(plus(a.lo, b.lo), plus(a.hi, b.hi), both_quiet(a, b))
}

fn minus(a: i64, b: i64) -> i128
    ensures { result ≡ a -ℤ b }
{
    a as i128 - b as i128
}

/// The bounds of `a - b`.
#[inline(always)]
pub(crate) fn difference_bounds(a: &Bounds, b: &Bounds) -> Bounds
    ensures { result ≡ operator_bounds Subtract a.now b.now }
{
    exact_bounds(minus(a.lo, b.hi), minus(a.hi, b.lo), both_quiet(a, b))
}

fn times(a: i64, b: i64) -> i128
    ensures { result ≡ a *ℤ b }
{
    a as i128 * b as i128
}

/// The bounds of `a * b`.
#[inline(always)]
pub(crate) fn product_bounds(a: &Bounds, b: &Bounds) -> Bounds
    ensures { result ≡ operator_bounds Multiply a.now b.now }
{
    of_four(
        times(a.lo, b.lo),
        times(a.lo, b.hi),
        times(a.hi, b.lo),
        times(a.hi, b.hi),
        both_quiet(a, b),
    )
}

/// The quotient in 128 bits, of which only that of the least number of 64 bits by -1 has need.
#[cold]
#[inline(never)]
fn wide_over(a: i64, b: i64) -> i128
    ensures { result ≡ int_div a b }
{
    if b == 0 {
        return 0;
    }
    a as i128 / b as i128
}

#[inline(always)]
fn over(a: i64, b: i64) -> i128
    ensures { result ≡ int_div a b }
{
    match a.checked_div(b) {
        Some(quotient) => quotient as i128,
        None => wide_over(a, b),
    }
}

/// The bounds of `a / b`.
#[inline(always)]
pub(crate) fn quotient_bounds(a: &Bounds, b: &Bounds) -> Bounds
    ensures { result ≡ quotient_bounds a.now b.now }
{
    if has_zero(b) {
        let m = magnitude(a) as i128;
        exact_bounds(-m, m, false)
    } else {
        of_four(
            over(a.lo, b.lo),
            over(a.lo, b.hi),
            over(a.hi, b.lo),
            over(a.hi, b.hi),
            both_quiet(a, b),
        )
    }
}

fn greatest_rest(b: &Bounds) -> i64
    ensures { result ≡ greatest_rest b.now }
{
    (magnitude(b).max(1) - 1) as i64
}

fn remainder_from(a: i64, m: i64) -> i64
    requires { pos 0 ≤ℤ m }
    ensures { result ≡ cond (int_le (pos 0) a) (pos 0) (int_max a (neg_ℤ m)) }
{
    if 0 <= a { 0 } else { a.max(-m) }
}

fn remainder_to(a: i64, m: i64) -> i64
    ensures { result ≡ cond (int_le a (pos 0)) (pos 0) (int_min a m) }
{
    if a <= 0 { 0 } else { a.min(m) }
}

fn apart(a: &Bounds, b: &Bounds) -> bool
    ensures { result ≡ ((a.now.quiet && b.now.quiet) && not (has_zero b.now)) }
{
    both_quiet(a, b) && !has_zero(b)
}

/// The bounds of `a % b`.
#[inline(always)]
pub(crate) fn remainder_bounds(a: &Bounds, b: &Bounds) -> Bounds
    ensures { result ≡ remainder_bounds a.now b.now }
{
    let m = greatest_rest(b);
    number_bounds(remainder_from(a.lo, m), remainder_to(a.hi, m), apart(a, b))
}

/// The bounds of `min(a, b)`.
#[inline(always)]
pub(crate) fn least_bounds(a: &Bounds, b: &Bounds) -> Bounds
    ensures { result ≡ operator_bounds Least a.now b.now }
{
    number_bounds(a.lo.min(b.lo), a.hi.min(b.hi), both_quiet(a, b))
}

/// The bounds of `max(a, b)`.
#[inline(always)]
pub(crate) fn greatest_bounds(a: &Bounds, b: &Bounds) -> Bounds
    ensures { result ≡ operator_bounds Greatest a.now b.now }
{
    number_bounds(a.lo.max(b.lo), a.hi.max(b.hi), both_quiet(a, b))
}
