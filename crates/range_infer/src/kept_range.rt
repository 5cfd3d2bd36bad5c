//! The range that a variable keeps of the values that it takes: the part within its declared range.

ghost use Rattle.std.specs.Prelude.{◌≡◌};
ghost use Rattle.model_core.specs.Code.Views.{variable_of};
ghost use Rattle.model_core.specs.Ranges.OtherRanges.{declared_range};
ghost use Rattle.model_core.specs.Ranges.Incoming.{nearest_declared, overlap, kept_range};

use model_core::{Bounds, Var, VarRange};

/// The declared range of a variable.
pub(crate) fn declared_range(var: &Var) -> VarRange
    ensures { result ≡ declared_range (variable_of var.now) }
{
    VarRange {
        lo: var.lo,
        hi: var.hi,
    }
}

fn nearest_declared(var: &Var, x: i64) -> i64
    ensures { result ≡ nearest_declared (variable_of var.now) x }
{
    var.lo.max(var.hi.min(x))
}

fn overlap(a: VarRange, b: VarRange) -> Option<VarRange>
    ensures { result ≡ overlap a b }
{
    let lo = a.lo.max(b.lo);
    let hi = a.hi.min(b.hi);
    if lo <= hi {
        Some(VarRange { lo, hi })
    } else {
        None
    }
}

/// The range of what a variable keeps of values of these bounds, if it keeps any.
pub(crate) fn kept_range(var: &Var, of: &Bounds) -> Option<VarRange>
    ensures { result ≡ kept_range (variable_of var.now) of.now }
{
    if var.clip {
        return Some(VarRange {
            lo: nearest_declared(var, of.lo),
            hi: nearest_declared(var, of.hi),
        });
    }
    let bounds = VarRange {
        lo: of.lo,
        hi: of.hi,
    };
    overlap(declared_range(var), bounds)
}
