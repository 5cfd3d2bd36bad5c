//! Conditions that are exclusive, and pairs that aren't.
#![tactic(auto, unfolding(model_core::specs::Rules::BoundsTable::exact_bounds))]

ghost use Rattle.std.specs.Prelude.{◌≡◌, true, false};
ghost use Rattle.model_core.specs.EventGraph.{Not, Binary, Equal, NotEqual, Below, AtMost, Above, AtLeast};
ghost use Rattle.model_core.specs.Rules.Exclusive.{exclusive};
ghost use Rattle.worked_runs.specs.Building.{whole, minus};
ghost use Rattle.worked_runs.specs.BoundedModel.{bounded, x, y, b};

/// A condition and `not` of it are exclusive, in either order, and nothing else that means the
/// same.
pub fn negations_are_exclusive()
    ensures after { exclusive bounded b (Not b) ≡ true }
    ensures before { exclusive bounded (Not (Binary Below x y)) (Binary Below x y) ≡ true }
    ensures of_another { exclusive bounded (Not (Binary Below x y)) (Binary Below y x) ≡ false }
    ensures itself { exclusive bounded b b ≡ false }
    ensures otherwise_written { exclusive bounded (Binary Below x y) (Binary AtLeast x y) ≡ false }
{}

/// A condition that never holds is exclusive with each one.
pub fn refuted_ones_are_exclusive()
    ensures first { exclusive bounded (Binary Above x (whole 3)) b ≡ true }
    ensures second { exclusive bounded b (Binary Above x (whole 3)) ≡ true }
    ensures neither { exclusive bounded b (Binary Above x (whole 2)) ≡ false }
{}

/// Comparisons of the same with numbers are exclusive where no whole number meets both.
pub fn comparisons_may_be_exclusive()
    ensures two_numbers { exclusive bounded (Binary Equal y (whole 1)) (Binary Equal y (whole 2))
        ≡ true }
    ensures below_and_at_least { exclusive bounded (Binary Below y (whole 1))
        (Binary AtLeast y (whole 1)) ≡ true }
    ensures at_one_number { exclusive bounded (Binary AtMost y (whole 1))
        (Binary AtLeast y (whole 1)) ≡ false }
    ensures nothing_between { exclusive bounded (Binary Above y (whole 1))
        (Binary Below y (whole 2)) ≡ true }
    ensures one_between { exclusive bounded (Binary Above y (whole 1)) (Binary Below y (whole 3))
        ≡ false }
    ensures equal_and_not { exclusive bounded (Binary Equal y (minus 2))
        (Binary NotEqual y (minus 2)) ≡ true }
    ensures two_unequal { exclusive bounded (Binary NotEqual y (whole 1))
        (Binary NotEqual y (whole 2)) ≡ false }
    ensures far_apart { exclusive bounded (Binary Below y (minus 2)) (Binary Above y (whole 2))
        ≡ true }
    ensures of_another { exclusive bounded (Binary Below x (whole 1)) (Binary AtLeast y (whole 1))
        ≡ false }
    ensures number_first { exclusive bounded (Binary Below (whole 1) y) (Binary Below y (whole 1))
        ≡ false }
{}
