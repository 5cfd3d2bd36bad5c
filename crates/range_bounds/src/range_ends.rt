//! The two ends of bounds, computed in 128 bits and moved to the nearest numbers of 64 bits.
#![tactic(auto, using(model_core::proofs::SignedBits::signed_bits))]

ghost use Rattle.std.specs.Prelude.{◌≡◌, ◌≤◌, ◌^◌, true, ◌&&◌};
ghost use Rattle.model_core.specs.Rules.BoundsTable.{number_bounds, truth_bounds, nearest, fits, exact_bounds, least_of, greatest_of, has_zero, magnitude};

use model_core::Bounds;

/// The bounds of a whole number from `lo` to `hi`, which never faults where it is quiet.
pub fn number_bounds(lo: i64, hi: i64, quiet: bool) -> Bounds
    ensures { result ≡ number_bounds lo hi quiet }
{
    Bounds {
        lo,
        hi,
        can_false: false,
        can_true: false,
        quiet,
    }
}

/// The bounds of a truth value that can be false, can be true, and never faults where it is quiet.
pub fn truth_bounds(can_false: bool, can_true: bool, quiet: bool) -> Bounds
    ensures { result ≡ truth_bounds can_false can_true quiet }
{
    Bounds {
        lo: i64::from(!can_false),
        hi: i64::from(can_true),
        can_false,
        can_true,
        quiet,
    }
}

fn fits(x: i128) -> bool
    ensures { result ≡ fits x }
{
    i64::MIN as i128 <= x && x <= i64::MAX as i128
}

#[cold]
#[inline(never)]
fn nearest_end(x: i128) -> i64
    ensures { result ≡ nearest x }
{
    x.min(i64::MAX as i128).max(i64::MIN as i128) as i64
}

fn number_itself(x: i128) -> i64
    requires { fits x ≡ true }
    ensures { result ≡ nearest x }
{
    x as i64
}

// Mostly it is the number itself, which needs no call.
#[inline(always)]
fn nearest(x: i128) -> i64
    ensures { result ≡ nearest x }
{
    if fits(x) {
        number_itself(x)
    } else {
        nearest_end(x)
    }
}

fn both_fit(x: i128, y: i128) -> bool
    ensures { result ≡ (fits x && fits y) }
{
    fits(x) && fits(y)
}

fn quiet_where(quiet: bool, x: i128, y: i128) -> bool
    ensures { result ≡ (quiet && (fits x && fits y)) }
{
    quiet && both_fit(x, y)
}

/// A pair that is quiet where neither end had to be moved.
#[inline(always)]
#[tactic(auto, unfolding(model_core::specs::Rules::BoundsTable::exact_bounds))]
pub(crate) fn exact_bounds(lo: i128, hi: i128, quiet: bool) -> Bounds
    ensures { result ≡ exact_bounds lo hi quiet }
{
    number_bounds(nearest(lo), nearest(hi), quiet_where(quiet, lo, hi))
}

/// Whether both operands are quiet.
pub(crate) fn both_quiet(a: &Bounds, b: &Bounds) -> bool
    ensures { result ≡ (a.now.quiet && b.now.quiet) }
{
    a.quiet && b.quiet
}

#[tactic(auto, using(model_core::proofs::SignedBits::signed_bits), unfolding(model_core::specs::Rules::BoundsTable::least_of))]
fn least_of(p: i128, q: i128, r: i128, s: i128) -> i128
    ensures { result ≡ least_of p q r s }
{
    p.min(q).min(r.min(s))
}

#[tactic(auto, using(model_core::proofs::SignedBits::signed_bits), unfolding(model_core::specs::Rules::BoundsTable::greatest_of))]
fn greatest_of(p: i128, q: i128, r: i128, s: i128) -> i128
    ensures { result ≡ greatest_of p q r s }
{
    p.max(q).max(r.max(s))
}

/// The least and the greatest of the results at four pairs of ends.
#[inline(always)]
pub(crate) fn of_four(p: i128, q: i128, r: i128, s: i128, quiet: bool) -> Bounds
    ensures { result ≡ exact_bounds (least_of p q r s) (greatest_of p q r s) quiet }
{
    exact_bounds(least_of(p, q, r, s), greatest_of(p, q, r, s), quiet)
}

/// Whether 0 lies between the ends.
pub(crate) fn has_zero(b: &Bounds) -> bool
    ensures { result ≡ has_zero b.now }
{
    b.lo <= 0 && 0 <= b.hi
}

/// The greatest distance from 0.
pub(crate) fn magnitude(a: &Bounds) -> u64
    ensures most { result ≤ 2 ^ 63 }
    ensures value { result ≡ magnitude a.now }
{
    a.lo.unsigned_abs().max(a.hi.unsigned_abs())
}
