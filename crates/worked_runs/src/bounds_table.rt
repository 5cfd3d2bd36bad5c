//! Bounds of expressions of one small model, a few of each row of the table, at the ends of 64 bits
//! among them.
#![tactic(auto, unfolding(model_core::specs::Rules::BoundsTable::exact_bounds, model_core::specs::Rules::BoundsTable::least_of, model_core::specs::Rules::BoundsTable::greatest_of))]

ghost use Rattle.std.specs.Prelude.{◌≡◌, pos, neg_ℤ, true, false};
ghost use Rattle.model_core.specs.EventGraph.{Truth, Clock, Cell, Negative, Not, Binary, If, Add, Subtract, Multiply, Divide, Remainder, Least, Greatest, Equal, NotEqual, Below, AtMost, Above, AtLeast, And, Or};
ghost use Rattle.model_core.specs.Rules.BoundsTable.{truth_bounds};
ghost use Rattle.model_core.specs.Rules.BoundsOf.{refuted, proved};
ghost use Rattle.worked_runs.specs.Building.{whole, minus};
ghost use Rattle.worked_runs.specs.BoundedModel.{seen_bounds, numbers_in, perhaps_in, either_truth, only_true, only_false, x, y, b, l, least_number, over_x_is_1};

/// Literals are themselves, and a variable has its declared range.
pub fn ranges_are_declared()
    ensures number { seen_bounds (whole 5) ≡ numbers_in (pos 5) (pos 5) }
    ensures truth { seen_bounds (Truth true) ≡ only_true }
    ensures lie { seen_bounds (Truth false) ≡ only_false }
    ensures clock { seen_bounds Clock ≡ numbers_in (pos 0) (pos 281474976710656) }
    ensures scalar { seen_bounds x ≡ numbers_in (pos 0) (pos 3) }
    ensures truth_value { seen_bounds b ≡ either_truth }
    ensures cell { seen_bounds (Cell 4 (Binary Least x (whole 2)))
        ≡ numbers_in (neg_ℤ (pos 1)) (pos 9) }
    ensures cell_beyond { seen_bounds (Cell 4 x) ≡ perhaps_in (neg_ℤ (pos 1)) (pos 9) }
    ensures cell_below { seen_bounds (Cell 4 (minus 1)) ≡ perhaps_in (neg_ℤ (pos 1)) (pos 9) }
    ensures cell_of_truths { seen_bounds (Cell 5 (whole 1)) ≡ either_truth }
    ensures index_may_fault { seen_bounds (Cell 5 (Binary Remainder (whole 1) x))
        ≡ truth_bounds true true false }
{}

/// Sums, differences and products are exact, and an end outside 64 bits is moved to the nearest
/// number.
pub fn ends_are_exact_or_moved()
    ensures negative { seen_bounds (Negative y) ≡ numbers_in (neg_ℤ (pos 7)) (pos 5) }
    ensures negative_of_the_least { seen_bounds (Negative least_number)
        ≡ perhaps_in (pos 9223372036854775807) (pos 9223372036854775807) }
    ensures sum { seen_bounds (Binary Add x y) ≡ numbers_in (neg_ℤ (pos 5)) (pos 10) }
    ensures sum_moved { seen_bounds (Binary Add l l)
        ≡ perhaps_in (neg_ℤ (pos 9223372036854775808)) (pos 9223372036854775807) }
    ensures difference { seen_bounds (Binary Subtract x y) ≡ numbers_in (neg_ℤ (pos 7)) (pos 8) }
    ensures difference_moved { seen_bounds (Binary Subtract l l)
        ≡ perhaps_in (neg_ℤ (pos 9223372036854775808)) (pos 9223372036854775807) }
    ensures product { seen_bounds (Binary Multiply y y) ≡ numbers_in (neg_ℤ (pos 35)) (pos 49) }
    ensures product_of_two { seen_bounds (Binary Multiply x y)
        ≡ numbers_in (neg_ℤ (pos 15)) (pos 21) }
    ensures product_moved { seen_bounds (Binary Multiply l l)
        ≡ perhaps_in (neg_ℤ (pos 9223372036854775808)) (pos 9223372036854775807) }
    ensures least_product { seen_bounds (Binary Multiply (Binary Least l (whole 0)) (whole 2))
        ≡ numbers_in (neg_ℤ (pos 9223372036854775808)) (pos 0) }
    ensures of_what_may_fault { seen_bounds (Binary Add x (Binary Divide (whole 5) x))
        ≡ perhaps_in (neg_ℤ (pos 5)) (pos 8) }
    ensures least { seen_bounds (Binary Least x y) ≡ numbers_in (neg_ℤ (pos 5)) (pos 3) }
    ensures greatest { seen_bounds (Binary Greatest x y) ≡ numbers_in (pos 0) (pos 7) }
{}

/// A quotient or remainder by a range that holds 0 may be a fault.
pub fn divisors_may_be_zero()
    ensures quotient { seen_bounds (Binary Divide y (whole 2))
        ≡ numbers_in (neg_ℤ (pos 2)) (pos 3) }
    ensures quotient_by_a_negative { seen_bounds (Binary Divide y (minus 2))
        ≡ numbers_in (neg_ℤ (pos 3)) (pos 2) }
    ensures quotient_by_zero { seen_bounds (Binary Divide (whole 5) x)
        ≡ perhaps_in (neg_ℤ (pos 5)) (pos 5) }
    ensures greater_side { seen_bounds (Binary Divide y x) ≡ perhaps_in (neg_ℤ (pos 7)) (pos 7) }
    ensures quotient_outside { seen_bounds (Binary Divide least_number (minus 1))
        ≡ perhaps_in (pos 9223372036854775807) (pos 9223372036854775807) }
    ensures least_by_zero { seen_bounds (Binary Divide least_number x)
        ≡ perhaps_in (neg_ℤ (pos 9223372036854775808)) (pos 9223372036854775807) }
    ensures remainder { seen_bounds (Binary Remainder y (whole 4))
        ≡ numbers_in (neg_ℤ (pos 3)) (pos 3) }
    ensures remainder_of_few { seen_bounds (Binary Remainder x (whole 9))
        ≡ numbers_in (pos 0) (pos 3) }
    ensures remainder_by_minus_1 { seen_bounds (Binary Remainder y (minus 1))
        ≡ numbers_in (pos 0) (pos 0) }
    ensures least_by_minus_1 { seen_bounds (Binary Remainder least_number (minus 1))
        ≡ numbers_in (pos 0) (pos 0) }
    ensures remainder_by_the_least { seen_bounds (Binary Remainder y least_number)
        ≡ numbers_in (neg_ℤ (pos 5)) (pos 7) }
    ensures remainder_by_zero { seen_bounds (Binary Remainder y x)
        ≡ perhaps_in (neg_ℤ (pos 2)) (pos 2) }
{}

/// A comparison can be true where one pair of values makes it true, and false where one makes it
/// false.
pub fn comparisons_go_by_ends()
    ensures below { seen_bounds (Binary Below x y) ≡ either_truth }
    ensures always_below { seen_bounds (Binary Below x (whole 4)) ≡ only_true }
    ensures never_below { seen_bounds (Binary Below x (whole 0)) ≡ only_false }
    ensures perhaps_at_most { seen_bounds (Binary AtMost x (whole 0)) ≡ either_truth }
    ensures always_at_most { seen_bounds (Binary AtMost x (whole 3)) ≡ only_true }
    ensures never_at_most { seen_bounds (Binary AtMost x (minus 1)) ≡ only_false }
    ensures never_above { seen_bounds (Binary Above x (whole 3)) ≡ only_false }
    ensures always_at_least { seen_bounds (Binary AtLeast x (whole 0)) ≡ only_true }
    ensures perhaps_equal { seen_bounds (Binary Equal x y) ≡ either_truth }
    ensures never_equal { seen_bounds (Binary Equal x (whole 4)) ≡ only_false }
    ensures always_equal { seen_bounds (Binary Equal (whole 5) (whole 5)) ≡ only_true }
    ensures never_different { seen_bounds (Binary NotEqual (whole 5) (whole 5)) ≡ only_false }
    ensures always_different { seen_bounds (Binary NotEqual x (whole 4)) ≡ only_true }
    ensures truths_perhaps_equal { seen_bounds (Binary Equal b (Truth true)) ≡ either_truth }
    ensures truths_equal { seen_bounds (Binary Equal (Truth false) (Truth false)) ≡ only_true }
    ensures truths_never_equal { seen_bounds (Binary Equal (Truth true) (Truth false))
        ≡ only_false }
    ensures truths_different { seen_bounds (Binary NotEqual (Truth true) (Truth false))
        ≡ only_true }
{}

/// A part that is never evaluated counts for nothing.
pub fn branches_not_taken_count_for_nothing()
    ensures opposite { seen_bounds (Not (Truth true)) ≡ only_false }
    ensures and { seen_bounds (Binary And b (Truth true)) ≡ either_truth }
    ensures and_false { seen_bounds (Binary And (Truth false) over_x_is_1) ≡ only_false }
    ensures and_fault { seen_bounds (Binary And b over_x_is_1) ≡ truth_bounds true true false }
    ensures or { seen_bounds (Binary Or b (Truth true)) ≡ only_true }
    ensures or_true { seen_bounds (Binary Or (Truth true) over_x_is_1) ≡ only_true }
    ensures or_fault { seen_bounds (Binary Or (Truth false) over_x_is_1)
        ≡ truth_bounds true true false }
    ensures both_branches { seen_bounds (If b x y) ≡ numbers_in (neg_ℤ (pos 5)) (pos 7) }
    ensures both_truths { seen_bounds (If b (Truth true) (Truth false)) ≡ either_truth }
    ensures first_branch { seen_bounds (If (Truth true) x (Binary Divide (whole 9) x))
        ≡ numbers_in (pos 0) (pos 3) }
    ensures second_branch { seen_bounds (If (Truth false) (Binary Divide (whole 9) x) y)
        ≡ numbers_in (neg_ℤ (pos 5)) (pos 7) }
    ensures branch_may_fault { seen_bounds (If b x (Binary Divide (whole 5) x))
        ≡ perhaps_in (neg_ℤ (pos 5)) (pos 5) }
    ensures condition_may_fault { seen_bounds (If over_x_is_1 (whole 2) (whole 3))
        ≡ perhaps_in (pos 2) (pos 3) }
{}

/// A condition that may fault is neither refuted nor proved.
pub fn conditions_are_refuted_or_proved()
    ensures refuted { refuted (seen_bounds (Binary Above x (whole 3))) ≡ true }
    ensures not_refuted { refuted (seen_bounds (Binary Above x (whole 2))) ≡ false }
    ensures fault_is_not_refuted { refuted
        (seen_bounds (Binary Above (Binary Divide (whole 5) x) (whole 9))) ≡ false }
    ensures proved { proved (seen_bounds (Binary AtMost x (whole 3))) ≡ true }
    ensures not_proved { proved (seen_bounds (Binary AtMost x (whole 2))) ≡ false }
    ensures fault_is_not_proved { proved
        (seen_bounds (Binary AtMost (Binary Divide (whole 5) x) (whole 9))) ≡ false }
{}
