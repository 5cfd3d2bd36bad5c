//! Values of expressions, exact inside the signed numbers of 64 bits.

ghost use Rattle.std.specs.Prelude.{◌≡◌, pos, negsuc, true, false, Ok, Err};
ghost use Rattle.sig_base.specs.declared.fault.FaultKind.TheVariants as faults;
ghost use Rattle.model_core.specs.EventGraph.{Truth, Clock, Cell, Negative, Not, Binary, If, Add, Subtract, Multiply, Divide, Remainder, Least, Greatest, Equal, NotEqual, Below, AtMost, Above, AtLeast, And, Or};
ghost use Rattle.worked_runs.specs.Building.{whole, minus, one_over_zero, is_one_over_zero};
ghost use Rattle.worked_runs.specs.Models.{of};

/// Results outside the numbers of 64 bits are faults; quotients by 0 and indexes outside are faults
/// too.
pub fn values_are_exact()
    ensures product_outside { of (Binary Multiply (whole 4611686018427387904) (whole 2))
        ≡ Err faults.Overflow }
    ensures greatest_sum { of (Binary Add (whole 9223372036854775806) (whole 1))
        ≡ Ok (pos 9223372036854775807) }
    ensures sum_outside { of (Binary Add (whole 9223372036854775807) (whole 1))
        ≡ Err faults.Overflow }
    ensures least_difference { of (Binary Subtract (minus 9223372036854775807) (whole 1))
        ≡ Ok (negsuc 9223372036854775807) }
    ensures difference_outside { of (Binary Subtract (minus 9223372036854775807) (whole 2))
        ≡ Err faults.Overflow }
    ensures negative_outside { of (Negative (Binary Subtract (minus 9223372036854775807) (whole 1)))
        ≡ Err faults.Overflow }
    ensures product_of_signs { of (Binary Multiply (minus 7) (minus 2)) ≡ Ok (pos 14) }
    ensures quotient_by_a_negative { of (Binary Divide (whole 7) (minus 2)) ≡ Ok (negsuc 2) }
    ensures remainder_by_a_negative { of (Binary Remainder (whole 7) (minus 2)) ≡ Ok (pos 1) }
    ensures remainder_by_zero { of (Binary Remainder (whole 1) (whole 0))
        ≡ Err faults.DivisionByZero }
    ensures quotient_towards_zero { of (Binary Divide (minus 7) (whole 2)) ≡ Ok (negsuc 2) }
    ensures remainder_of_it { of (Binary Remainder (minus 7) (whole 2)) ≡ Ok (negsuc 0) }
    ensures quotient_by_zero { of one_over_zero ≡ Err faults.DivisionByZero }
    ensures quotient_outside { of
        (Binary Divide (Binary Subtract (minus 9223372036854775807) (whole 1)) (minus 1))
        ≡ Err faults.Overflow }
    ensures remainder_inside { of
        (Binary Remainder (Binary Subtract (minus 9223372036854775807) (whole 1)) (minus 1))
        ≡ Ok (pos 0) }
    ensures index_outside { of (Cell 1 (whole 2)) ≡ Err faults.IndexOutside }
    ensures index_below { of (Cell 1 (minus 1)) ≡ Err faults.IndexOutside }
    ensures last_cell { of (Cell 1 (whole 1)) ≡ Ok (pos 0) }
    ensures first_cell { of (Cell 1 (whole 0)) ≡ Ok (pos 0) }
    ensures index_far_outside { of (Cell 1 (whole 9223372036854775807)) ≡ Err faults.IndexOutside }
{}

/// Truth values are 1 and 0.
pub fn operators_compare()
    ensures equal { of (Binary Equal (whole 2) (whole 2)) ≡ Ok (pos 1) }
    ensures equal_no { of (Binary Equal (whole 2) (minus 2)) ≡ Ok (pos 0) }
    ensures not_equal_yes { of (Binary NotEqual (whole 2) (minus 2)) ≡ Ok (pos 1) }
    ensures at_most_no { of (Binary AtMost (whole 3) (whole 2)) ≡ Ok (pos 0) }
    ensures at_least_no { of (Binary AtLeast (whole 2) (whole 3)) ≡ Ok (pos 0) }
    ensures least_on_the_right { of (Binary Least (whole 1) (minus 2)) ≡ Ok (negsuc 1) }
    ensures greatest_on_the_left { of (Binary Greatest (whole 1) (minus 2)) ≡ Ok (pos 1) }
    ensures negated_false { of (Not (Truth false)) ≡ Ok (pos 1) }
    ensures not_equal { of (Binary NotEqual (whole 2) (whole 2)) ≡ Ok (pos 0) }
    ensures below { of (Binary Below (whole 2) (whole 2)) ≡ Ok (pos 0) }
    ensures below_it { of (Binary Below (minus 3) (minus 2)) ≡ Ok (pos 1) }
    ensures at_most { of (Binary AtMost (whole 2) (whole 2)) ≡ Ok (pos 1) }
    ensures above { of (Binary Above (whole 2) (whole 2)) ≡ Ok (pos 0) }
    ensures above_it { of (Binary Above (minus 2) (minus 3)) ≡ Ok (pos 1) }
    ensures at_least_1 { of (Binary AtLeast (whole 1) (whole 1)) ≡ Ok (pos 1) }
    ensures at_least { of (Binary AtLeast (whole 2) (whole 2)) ≡ Ok (pos 1) }
    ensures least { of (Binary Least (minus 2) (whole 1)) ≡ Ok (negsuc 1) }
    ensures greatest { of (Binary Greatest (minus 2) (whole 1)) ≡ Ok (pos 1) }
    ensures negated { of (Not (Truth true)) ≡ Ok (pos 0) }
    ensures clock { of Clock ≡ Ok (pos 7) }
{}

/// A part that isn't needed isn't evaluated, and else the first fault is reported.
pub fn values_are_lazy()
    ensures if_true { of (If (Truth true) (whole 1) one_over_zero) ≡ Ok (pos 1) }
    ensures if_false { of (If (Truth false) one_over_zero (whole 1)) ≡ Ok (pos 1) }
    ensures if_1_alone { of (If (whole 2) one_over_zero (whole 1)) ≡ Ok (pos 1) }
    ensures or_true { of (Binary Or (Truth true) is_one_over_zero) ≡ Ok (pos 1) }
    ensures or_false { of (Binary Or (Truth false) is_one_over_zero) ≡ Err faults.DivisionByZero }
    ensures and_false { of (Binary And (Truth false) is_one_over_zero) ≡ Ok (pos 0) }
    ensures and_true { of (Binary And (Truth true) (Truth false)) ≡ Ok (pos 0) }
    ensures if_false_to_a_fault { of (If (Truth false) (whole 1) one_over_zero)
        ≡ Err faults.DivisionByZero }
    ensures and_of_numbers { of (Binary And (whole 0) (whole 7)) ≡ Ok (pos 0) }
    ensures or_of_numbers { of (Binary Or (whole 1) (whole 7)) ≡ Ok (pos 1) }
    ensures left_first { of (Binary Add (Cell 1 (whole 2)) one_over_zero)
        ≡ Err faults.IndexOutside }
{}
