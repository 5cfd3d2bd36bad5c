//! The rows of the table that give truth values, one function each.

ghost use Rattle.std.specs.Prelude.{◌≡◌, int_le, ◌&&◌, ◌||◌};
ghost use Rattle.std.specs.Ordering.{int_eq};
ghost use Rattle.model_core.specs.EventGraph.{And, Or};
ghost use Rattle.model_core.specs.Rules.BoundsTable.{opposite, below_bounds, at_most_bounds, of_truth_value, equal_bounds, operator_bounds};

use crate::range_ends::{both_quiet, truth_bounds};
use model_core::Bounds;

/// The bounds of `not a`, from those of `a`.
#[inline(always)]
pub fn opposite(a: &Bounds) -> Bounds
    ensures { result ≡ opposite a.now }
{
    truth_bounds(a.can_true, a.can_false, a.quiet)
}

/// The bounds of `a < b`.
#[inline(always)]
pub(crate) fn below_bounds(a: &Bounds, b: &Bounds) -> Bounds
    ensures { result ≡ below_bounds a.now b.now }
{
    truth_bounds(b.lo <= a.hi, a.lo < b.hi, both_quiet(a, b))
}

/// The bounds of `a <= b`.
#[inline(always)]
pub(crate) fn at_most_bounds(a: &Bounds, b: &Bounds) -> Bounds
    ensures { result ≡ at_most_bounds a.now b.now }
{
    truth_bounds(b.lo < a.hi, a.lo <= b.hi, both_quiet(a, b))
}

fn same_ends(a: &Bounds, b: &Bounds) -> bool
    ensures { result
        ≡ (int_eq a.now.lo a.now.hi && int_eq a.now.hi b.now.lo && int_eq b.now.lo b.now.hi) }
{
    a.lo == a.hi && a.hi == b.lo && b.lo == b.hi
}

fn meet(a: &Bounds, b: &Bounds) -> bool
    ensures { result ≡ (int_le a.now.lo b.now.hi && int_le b.now.lo a.now.hi) }
{
    a.lo <= b.hi && b.lo <= a.hi
}

fn of_truth_value(a: &Bounds) -> bool
    ensures { result ≡ of_truth_value a.now }
{
    a.can_false || a.can_true
}

fn can_agree(a: &Bounds, b: &Bounds) -> bool
    ensures { result ≡ (a.now.can_true && b.now.can_true || a.now.can_false && b.now.can_false) }
{
    a.can_true && b.can_true || a.can_false && b.can_false
}

fn can_differ(a: &Bounds, b: &Bounds) -> bool
    ensures { result ≡ (a.now.can_true && b.now.can_false || a.now.can_false && b.now.can_true) }
{
    a.can_true && b.can_false || a.can_false && b.can_true
}

/// The bounds of `a = b`.
#[inline(always)]
pub(crate) fn equal_bounds(a: &Bounds, b: &Bounds) -> Bounds
    ensures { result ≡ equal_bounds a.now b.now }
{
    if of_truth_value(a) {
        truth_bounds(can_differ(a, b), can_agree(a, b), both_quiet(a, b))
    } else {
        truth_bounds(!same_ends(a, b), meet(a, b), both_quiet(a, b))
    }
}

/// The bounds of `a and b`.
#[inline(always)]
pub(crate) fn and_bounds(a: &Bounds, b: &Bounds) -> Bounds
    ensures { result ≡ operator_bounds And a.now b.now }
{
    truth_bounds(
        a.can_false || a.can_true && b.can_false,
        a.can_true && b.can_true,
        a.quiet && (b.quiet || !a.can_true),
    )
}

/// The bounds of `a or b`.
#[inline(always)]
pub(crate) fn or_bounds(a: &Bounds, b: &Bounds) -> Bounds
    ensures { result ≡ operator_bounds Or a.now b.now }
{
    truth_bounds(
        a.can_false && b.can_false,
        a.can_true || a.can_false && b.can_true,
        a.quiet && (b.quiet || !a.can_false),
    )
}
