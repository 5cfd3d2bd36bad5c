//! What conditions leave of ranges, by each comparison at both its ends, and bounds under what is
//! left.
#![tactic(auto, unfolding(model_core::specs::Rules::BoundsTable::exact_bounds, model_core::specs::Rules::BoundsTable::least_of, model_core::specs::Rules::BoundsTable::greatest_of))]

ghost use Rattle.std.specs.Prelude.{◌≡◌, ◌∷◌, [], pos, neg_ℤ, true, false, map};
ghost use Rattle.model_core.specs.EventGraph.{Truth, Clock, Scalar, Cell, Not, Binary, If, Add, Equal, NotEqual, Below, AtMost, Above, AtLeast, And, Or};
ghost use Rattle.model_core.specs.Rules.BoundsOf.{bounds_of};
ghost use Rattle.model_core.specs.Rules.BoundsTable.{number_bounds, truth_bounds};
ghost use Rattle.model_core.specs.Ranges.BoundsIn.{bounds_in};
ghost use Rattle.model_core.specs.Ranges.Refined.{refined};
ghost use Rattle.model_core.specs.Ranges.OtherRanges.{with_ranges, range_at};
ghost use Rattle.worked_runs.specs.Building.{clipped, array, whole, minus};
ghost use Rattle.worked_runs.specs.BoundedModel.{bounded_by};
ghost use Rattle.worked_runs.specs.NarrowModel.{range};
ghost use Rattle.worked_rules.specs.RangedModels.{span, comparison, five_kinds, declared_ones, left_where, left_at, guarded, ten_over_x, equals_one, above_zero, equals_zero};

/// Each comparison with a number leaves the numbers of the range for which it holds, and where it
/// doesn't those for which it doesn't.
// with 5, in the midst: both answers of each of the six; at the last number that leaves some, and
// the first that leaves none, at which the range stays; far outside on the side where all are left;
// `<>` takes an end away, and nothing in the midst.
pub fn comparisons_leave_ranges()
    ensures holding { map (λ op. left_at 0 true (comparison op 0 (whole 5)))
        (Below ∷ AtMost ∷ Above ∷ AtLeast ∷ Equal ∷ NotEqual ∷ [])
        ≡ span 0 4 ∷ span 0 5 ∷ span 6 9 ∷ span 5 9 ∷ span 5 5 ∷ span 0 9 ∷ [] }
    ensures not_holding { map (λ op. left_at 0 false (comparison op 0 (whole 5)))
        (Below ∷ AtMost ∷ Above ∷ AtLeast ∷ Equal ∷ NotEqual ∷ [])
        ≡ span 5 9 ∷ span 6 9 ∷ span 0 5 ∷ span 0 4 ∷ span 0 9 ∷ span 5 5 ∷ [] }
    ensures at_the_lower_end { map (λ op. left_at 0 true (comparison op 0 (whole 0)))
        (Below ∷ AtMost ∷ Above ∷ AtLeast ∷ Equal ∷ NotEqual ∷ [])
        ≡ span 0 9 ∷ span 0 0 ∷ span 1 9 ∷ span 0 9 ∷ span 0 0 ∷ span 1 9 ∷ [] }
    ensures at_the_upper_end { map (λ op. left_at 0 true (comparison op 0 (whole 9)))
        (Below ∷ AtMost ∷ Above ∷ AtLeast ∷ Equal ∷ NotEqual ∷ [])
        ≡ span 0 8 ∷ span 0 9 ∷ span 0 9 ∷ span 9 9 ∷ span 9 9 ∷ span 0 8 ∷ [] }
    ensures below_both { map (λ op. left_at 0 true (comparison op 0 (minus 1)))
        (Below ∷ AtMost ∷ Above ∷ AtLeast ∷ Equal ∷ NotEqual ∷ [])
        ≡ span 0 9 ∷ span 0 9 ∷ span 0 9 ∷ span 0 9 ∷ span 0 9 ∷ span 0 9 ∷ [] }
    ensures above_both { map (λ op. left_at 0 true (comparison op 0 (whole 10)))
        (Below ∷ AtMost ∷ Above ∷ AtLeast ∷ Equal ∷ NotEqual ∷ [])
        ≡ span 0 9 ∷ span 0 9 ∷ span 0 9 ∷ span 0 9 ∷ span 0 9 ∷ span 0 9 ∷ [] }
    ensures of_the_only_number { map (λ op. left_at 4 true (comparison op 4 (whole 4)))
        (Below ∷ AtMost ∷ Above ∷ AtLeast ∷ Equal ∷ NotEqual ∷ [])
        ≡ span 4 4 ∷ span 4 4 ∷ span 4 4 ∷ span 4 4 ∷ span 4 4 ∷ span 4 4 ∷ [] }
    ensures negative_literals { map (λ op. left_at 1 true (comparison op 1 (minus 3)))
        (Below ∷ AtMost ∷ Above ∷ AtLeast ∷ Equal ∷ [])
        ≡ range (neg_ℤ (pos 5)) (neg_ℤ (pos 4)) ∷ range (neg_ℤ (pos 5)) (neg_ℤ (pos 3))
        ∷ range (neg_ℤ (pos 2)) (pos 7) ∷ range (neg_ℤ (pos 3)) (pos 7)
        ∷ range (neg_ℤ (pos 3)) (neg_ℤ (pos 3)) ∷ [] }
{}

/// A comparison takes up what the one on its left leaves, at both ends.
// 5 alone; 5 and above; 5 and below; last, numbers at the ends of 64 bits.
pub fn comparisons_take_up_what_is_left()
    ensures of_one { map
        (λ op. left_at 0 true
        (Binary And (comparison Equal 0 (whole 5)) (comparison op 0 (whole 5))))
        (Below ∷ AtMost ∷ Above ∷ AtLeast ∷ Equal ∷ NotEqual ∷ [])
        ≡ span 5 5 ∷ span 5 5 ∷ span 5 5 ∷ span 5 5 ∷ span 5 5 ∷ span 5 5 ∷ [] }
    ensures from_five { map
        (λ op. left_at 0 true
        (Binary And (comparison AtLeast 0 (whole 5)) (comparison op 0 (whole 5))))
        (Below ∷ AtMost ∷ Above ∷ AtLeast ∷ Equal ∷ NotEqual ∷ [])
        ≡ span 5 9 ∷ span 5 5 ∷ span 6 9 ∷ span 5 9 ∷ span 5 5 ∷ span 6 9 ∷ [] }
    ensures up_to_five { map
        (λ op. left_at 0 true
        (Binary And (comparison AtMost 0 (whole 5)) (comparison op 0 (whole 5))))
        (Below ∷ AtMost ∷ Above ∷ AtLeast ∷ Equal ∷ NotEqual ∷ [])
        ≡ span 0 4 ∷ span 0 5 ∷ span 0 5 ∷ span 5 5 ∷ span 5 5 ∷ span 0 4 ∷ [] }
    ensures with_the_greatest { map
        (λ op. left_at 0 true (comparison op 0 (whole 9223372036854775807)))
        (Below ∷ AtMost ∷ Above ∷ AtLeast ∷ Equal ∷ NotEqual ∷ [])
        ≡ span 0 9 ∷ span 0 9 ∷ span 0 9 ∷ span 0 9 ∷ span 0 9 ∷ span 0 9 ∷ [] }
    ensures with_the_least { map
        (λ op. left_at 0 true (comparison op 0 (minus 9223372036854775807)))
        (Below ∷ AtMost ∷ Above ∷ AtLeast ∷ Equal ∷ NotEqual ∷ [])
        ≡ span 0 9 ∷ span 0 9 ∷ span 0 9 ∷ span 0 9 ∷ span 0 9 ∷ span 0 9 ∷ [] }
{}

/// What is known of a variable that clips narrows it as any other, and it goes on to clip; an array
/// isn't narrowed.
pub fn clipped_variables_are_refined()
    ensures scalar { refined (comparison Below 0 (whole 5)) true
        (clipped (bounded_by [] (pos 0) (pos 9)) ∷ [])
        ≡ clipped (bounded_by [] (pos 0) (pos 4)) ∷ [] }
    ensures array { refined (comparison Below 0 (whole 5)) true
        (array 3 (clipped (bounded_by [] (pos 0) (pos 9))) ∷ [])
        ≡ array 3 (clipped (bounded_by [] (pos 0) (pos 9))) ∷ [] }
{}

/// A comparison narrows the variable on its left alone, and only if this is a scalar of numbers and
/// the right side a literal.
// first: the others stay; a truth value, an array, its cell: nothing; the number first; a variable
// on the right; a sum on the left; the clock on the right; an operator that compares nothing; a
// truth value by itself, a literal, and an `if`.
pub fn other_conditions_leave_all()
    ensures the_variable { left_where true (comparison Below 1 (whole 2))
        ≡ span 0 9 ∷ range (neg_ℤ (pos 5)) (pos 1) ∷ span 0 1 ∷ span 0 9 ∷ span 4 4 ∷ [] }
    ensures all { map (left_where true)
        (comparison Equal 2 (whole 1) ∷ comparison Below 3 (whole 5)
        ∷ Binary Below (Cell 3 (whole 0)) (whole 5) ∷ Binary Below (whole 5) (Scalar 0)
        ∷ comparison Below 0 (Scalar 4)
        ∷ Binary Below (Binary Add (Scalar 0) (whole 1)) (whole 5) ∷ comparison Below 0 Clock
        ∷ comparison Add 0 (whole 5) ∷ Scalar 2 ∷ Truth true
        ∷ If (Scalar 2) (comparison Below 0 (whole 5)) (comparison Below 0 (whole 5)) ∷ [])
        ≡ declared_ones ∷ declared_ones ∷ declared_ones ∷ declared_ones ∷ declared_ones
        ∷ declared_ones ∷ declared_ones ∷ declared_ones ∷ declared_ones ∷ declared_ones
        ∷ declared_ones ∷ [] }
    ensures all_where_false { map (left_where false)
        (comparison Equal 2 (whole 1) ∷ comparison Below 3 (whole 5) ∷ comparison Add 0 (whole 5)
        ∷ Scalar 2 ∷ [])
        ≡ declared_ones ∷ declared_ones ∷ declared_ones ∷ declared_ones ∷ [] }
{}

/// `not` turns what is known; an `and` that is true and an `or` that is false narrow by both
/// operands, the left one first; the others narrow nothing.
// not: once, twice, and of what is false; both: of one variable, and of two; no `and` that is
// false, no `or` that is true, no other operator; order: the left one leaves 0..4, of which the
// right one leaves nothing; within one another.
pub fn conditions_refine_together()
    ensures not { left_at 0 true (Not (comparison Below 0 (whole 5))) ≡ span 5 9 }
    ensures not_false { left_at 0 false (Not (comparison Below 0 (whole 5))) ≡ span 0 4 }
    ensures not_not { left_at 0 true (Not (Not (comparison Below 0 (whole 5)))) ≡ span 0 4 }
    ensures and_true { left_at 0 true
        (Binary And (comparison Above 0 (whole 2)) (comparison Below 0 (whole 5))) ≡ span 3 4 }
    ensures and_false { left_at 0 false
        (Binary And (comparison AtMost 0 (whole 2)) (comparison AtLeast 0 (whole 5))) ≡ span 0 9 }
    ensures or_false { left_at 0 false
        (Binary Or (comparison AtMost 0 (whole 2)) (comparison AtLeast 0 (whole 5))) ≡ span 3 4 }
    ensures or_true { left_at 0 true
        (Binary Or (comparison Above 0 (whole 2)) (comparison Below 0 (whole 5))) ≡ span 0 9 }
    ensures other_operator { left_at 0 true
        (Binary Equal (comparison Above 0 (whole 2)) (comparison Below 0 (whole 5))) ≡ span 0 9 }
    ensures of_two { left_where true
        (Binary And (comparison Above 0 (whole 2)) (comparison Above 1 (whole 6)))
        ≡ span 3 9 ∷ span 7 7 ∷ span 0 1 ∷ span 0 9 ∷ span 4 4 ∷ [] }
    ensures left_first { left_at 0 true
        (Binary And (comparison Below 0 (whole 5)) (comparison Above 0 (whole 7))) ≡ span 0 4 }
    ensures left_first_where_false { left_at 0 false
        (Binary Or (comparison AtLeast 0 (whole 5)) (comparison AtMost 0 (whole 7))) ≡ span 0 4 }
    ensures within { left_at 0 true
        (Binary And (Binary And (comparison Above 0 (whole 1)) (Scalar 2))
        (Not (Binary Or (comparison Above 0 (whole 6)) (comparison Equal 0 (whole 2)))))
        ≡ span 3 6 }
{}

/// What is evaluated only where a condition is true, or false, has its bounds under what that
/// leaves.
// the right operand of `and` and of `or`, both branches of `if`; not the left operand, not of
// another operator, not where the other answer leaves 0; a guard within a guard; and without guards
// none of it.
pub fn parts_are_bounded_under_guards()
    ensures quiet { map (bounds_in guarded [])
        (Binary And above_zero (equals_one ten_over_x)
        ∷ Binary Or equals_zero (equals_one ten_over_x) ∷ If above_zero ten_over_x (whole 7)
        ∷ If equals_zero (whole 20) ten_over_x ∷ [])
        ≡ truth_bounds true true true ∷ truth_bounds true true true
        ∷ number_bounds (pos 1) (pos 10) true ∷ number_bounds (pos 1) (pos 20) true ∷ [] }
    ensures perhaps { map (bounds_in guarded [])
        (Binary And (equals_one ten_over_x) above_zero
        ∷ Binary Or above_zero (equals_one ten_over_x)
        ∷ Binary Equal above_zero (equals_one ten_over_x) ∷ If above_zero (whole 7) ten_over_x
        ∷ If equals_zero ten_over_x (whole 7) ∷ [])
        ≡ truth_bounds true true false ∷ truth_bounds true true false ∷ truth_bounds true true false
        ∷ number_bounds (neg_ℤ (pos 10)) (pos 10) false
        ∷ number_bounds (neg_ℤ (pos 10)) (pos 10) false ∷ [] }
    ensures guards_within { bounds_in guarded []
        (If above_zero (If (comparison Below 0 (whole 5)) (Scalar 0) (whole 3)) (whole 2))
        ≡ number_bounds (pos 1) (pos 4) true }
    ensures without { map (bounds_of guarded)
        (Binary And above_zero (equals_one ten_over_x)
        ∷ Binary Or equals_zero (equals_one ten_over_x) ∷ If above_zero (Scalar 0) (whole 7) ∷ [])
        ≡ truth_bounds true true false ∷ truth_bounds true true false
        ∷ number_bounds (pos 0) (pos 9) true ∷ [] }
{}

/// Ranges replace the declared ones, each for the variable at its place; a variable that has none
/// keeps its own.
pub fn other_ranges_are_taken()
    ensures given { map (bounds_in guarded (span 2 3 ∷ range (neg_ℤ (pos 1)) (pos 1) ∷ []))
        (Scalar 0 ∷ Scalar 1 ∷ Scalar 4 ∷ [])
        ≡ number_bounds (pos 2) (pos 3) true ∷ number_bounds (neg_ℤ (pos 1)) (pos 1) true
        ∷ number_bounds (pos 4) (pos 4) true ∷ [] }
    ensures as_many { with_ranges five_kinds declared_ones ≡ five_kinds }
    ensures more { with_ranges [] declared_ones ≡ [] }
    ensures places { map (range_at (span 2 3 ∷ span 4 5 ∷ [])) (0 ∷ 1 ∷ 2 ∷ [])
        ≡ span 2 3 ∷ span 4 5 ∷ span 0 0 ∷ [] }
{}
