//! The rows of the table of bounds, end by end, and which parts of an event are quiet, half by
//! half.
#![tactic(auto, unfolding(model_core::specs::Rules::BoundsTable::exact_bounds, model_core::specs::Rules::BoundsTable::least_of, model_core::specs::Rules::BoundsTable::greatest_of))]

ghost use Rattle.std.specs.Prelude.{◌≡◌, ◌∷◌, [], pos, neg_ℤ, true, false, map};
ghost use Rattle.model_core.specs.EventGraph.{Truth, Cell, Negative, Not, Binary, If, Add, Subtract, Multiply, Divide, Remainder, Least, Greatest, Equal, NotEqual, Below, AtMost, Above, AtLeast, And, Or, Uniform, ByTable, Set, Draw, Drawn, Schedule, Urgent, CancelNext, CancelEqual, CancelAll};
ghost use Rattle.model_core.specs.Run.State.{variable_at};
ghost use Rattle.model_core.specs.Rules.BoundsOf.{refuted, proved};
ghost use Rattle.model_core.specs.Rules.BoundsOfParts.{rows_bounds, choice_bounds, quiet_store, quiet_change, quiet_edge};
ghost use Rattle.worked_runs.specs.Building.{whole, minus, at_variable, at_cell, plain_edge, schedule};
ghost use Rattle.worked_runs.specs.BoundedModel.{bounded, seen_bounds, numbers_in, perhaps_in, either_truth, only_true, only_false, x, y, b, least_number, over_x_is_1};
ghost use Rattle.worked_rules.specs.BoundedParts.{two_or_three, by_signs, five_over_x, are_quiet, between_truths, x_and};

/// Products and quotients go by all four pairs of ends: each is the least of one pair of signs, and
/// the greatest of another.
// in turn: both above 0; the left below; the right below; both below.
pub fn all_four_pairs_of_ends_count()
    ensures products { by_signs Multiply
        ≡ numbers_in (pos 40) (pos 90) ∷ numbers_in (neg_ℤ (pos 90)) (neg_ℤ (pos 40))
        ∷ numbers_in (neg_ℤ (pos 90)) (neg_ℤ (pos 40)) ∷ numbers_in (pos 40) (pos 90) ∷ [] }
    ensures quotients { by_signs Divide
        ≡ numbers_in (pos 6) (pos 15) ∷ numbers_in (neg_ℤ (pos 15)) (neg_ℤ (pos 6))
        ∷ numbers_in (neg_ℤ (pos 15)) (neg_ℤ (pos 6)) ∷ numbers_in (pos 6) (pos 15) ∷ [] }
    ensures remainders { by_signs Remainder
        ≡ numbers_in (pos 0) (pos 2) ∷ numbers_in (neg_ℤ (pos 2)) (pos 0)
        ∷ numbers_in (pos 0) (pos 2) ∷ numbers_in (neg_ℤ (pos 2)) (pos 0) ∷ [] }
{}

/// Each end alone may be moved, and each operand has its ends.
// the lower end alone; 0 at the upper end of a divisor, and no 0 where it begins at 1; a quotient
// by 0 goes by the end that is further from 0, on either side; a remainder where the numbers end at
// 0, by a number below 0, by 0 alone, by which nothing but 0 would be left; the lesser and the
// greater of two, in both orders.
pub fn each_end_counts()
    ensures lower_end_moved { seen_bounds (Binary Subtract least_number x)
        ≡ perhaps_in (neg_ℤ (pos 9223372036854775808)) (neg_ℤ (pos 9223372036854775808)) }
    ensures by_zero_at_the_upper_end { seen_bounds (Binary Divide (whole 5) (Negative x))
        ≡ perhaps_in (neg_ℤ (pos 5)) (pos 5) }
    ensures by_no_zero { seen_bounds (Binary Divide (whole 5) (Binary Greatest x (whole 1)))
        ≡ numbers_in (pos 1) (pos 5) }
    ensures lower_end_further { seen_bounds (Binary Divide (Negative y) x)
        ≡ perhaps_in (neg_ℤ (pos 7)) (pos 7) }
    ensures upper_end_fits { seen_bounds (Binary Add (whole 9223372036854775806) (whole 1))
        ≡ numbers_in (pos 9223372036854775807) (pos 9223372036854775807) }
    ensures upper_end_moved { seen_bounds
        (Binary Add (whole 9223372036854775806) (Binary Greatest x (whole 1)))
        ≡ perhaps_in (pos 9223372036854775807) (pos 9223372036854775807) }
    ensures by_no_zero_below { seen_bounds
        (Binary Divide (whole 5) (Negative (Binary Greatest x (whole 1))))
        ≡ numbers_in (neg_ℤ (pos 5)) (neg_ℤ (pos 1)) }
    ensures rest_from_minus_1 { seen_bounds (Binary Remainder (Cell 4 (whole 0)) (whole 4))
        ≡ numbers_in (neg_ℤ (pos 1)) (pos 3) }
    ensures rest_to_1 { seen_bounds (Binary Remainder (Binary Subtract (whole 1) x) (whole 4))
        ≡ numbers_in (neg_ℤ (pos 2)) (pos 1) }
    ensures rest_below { seen_bounds (Binary Remainder (Negative x) (whole 9))
        ≡ numbers_in (neg_ℤ (pos 3)) (pos 0) }
    ensures rest_of_negatives { map seen_bounds
        (Binary Remainder (Binary Subtract (minus 5) x) (whole 9)
        ∷ Binary Remainder (Binary Subtract (minus 5) x) (whole 7)
        ∷ Binary Remainder (Binary Subtract (minus 5) x) (minus 9) ∷ [])
        ≡ numbers_in (neg_ℤ (pos 8)) (pos 0) ∷ numbers_in (neg_ℤ (pos 6)) (pos 0)
        ∷ numbers_in (neg_ℤ (pos 8)) (pos 0) ∷ [] }
    ensures rest_by_a_negative { seen_bounds (Binary Remainder y (minus 4))
        ≡ numbers_in (neg_ℤ (pos 3)) (pos 3) }
    ensures rest_by_many { seen_bounds (Binary Remainder y (whole 8))
        ≡ numbers_in (neg_ℤ (pos 5)) (pos 7) }
    ensures rest_by_fewer { seen_bounds (Binary Remainder y (whole 7))
        ≡ numbers_in (neg_ℤ (pos 5)) (pos 6) }
    ensures rest_by_zero { seen_bounds (Binary Remainder y (whole 0)) ≡ perhaps_in (pos 0) (pos 0) }
    ensures rest_of_the_least_by_zero { seen_bounds (Binary Remainder (Negative x) x)
        ≡ perhaps_in (neg_ℤ (pos 2)) (pos 0) }
    ensures lesser { map seen_bounds
        (Binary Least y x ∷ Binary Least x (minus 1) ∷ Binary Least (minus 1) x ∷ [])
        ≡ numbers_in (neg_ℤ (pos 5)) (pos 3) ∷ numbers_in (neg_ℤ (pos 1)) (neg_ℤ (pos 1))
        ∷ numbers_in (neg_ℤ (pos 1)) (neg_ℤ (pos 1)) ∷ [] }
    ensures greater { map seen_bounds
        (Binary Greatest y x ∷ Binary Greatest x (whole 5) ∷ Binary Greatest (whole 5) x ∷ [])
        ≡ numbers_in (pos 0) (pos 7) ∷ numbers_in (pos 5) (pos 5)
        ∷ numbers_in (pos 5) (pos 5) ∷ [] }
{}

/// An operator between numbers is quiet where both operands are.
// neither faults; the left one may; the right one may, which is never 0.
pub fn both_operands_are_quiet()
    ensures both { are_quiet y two_or_three
        ≡ true ∷ true ∷ true ∷ true ∷ true ∷ true ∷ true ∷ true ∷ true ∷ true ∷ true ∷ true
        ∷ true ∷ [] }
    ensures left_alone { are_quiet (Binary Divide y x) two_or_three
        ≡ false ∷ false ∷ false ∷ false ∷ false ∷ false ∷ false ∷ false ∷ false ∷ false ∷ false
        ∷ false ∷ false ∷ [] }
    ensures right_alone { are_quiet y (Binary Greatest five_over_x (whole 1))
        ≡ false ∷ false ∷ false ∷ false ∷ false ∷ false ∷ false ∷ false ∷ false ∷ false ∷ false
        ∷ false ∷ false ∷ [] }
    ensures one { map (λ e. (seen_bounds e).quiet)
        (Negative five_over_x ∷ Not over_x_is_1 ∷ Negative y ∷ Not b ∷ [])
        ≡ false ∷ false ∷ true ∷ true ∷ [] }
{}

/// Each comparison of X, which is 0 to 3, with -1 to 4.
pub fn comparisons_turn_at_ends()
    ensures below { x_and Below
        ≡ only_false ∷ only_false ∷ either_truth ∷ either_truth ∷ either_truth ∷ only_true ∷ [] }
    ensures at_most { x_and AtMost
        ≡ only_false ∷ either_truth ∷ either_truth ∷ either_truth ∷ only_true ∷ only_true ∷ [] }
    ensures above { x_and Above
        ≡ only_true ∷ either_truth ∷ either_truth ∷ either_truth ∷ only_false ∷ only_false ∷ [] }
    ensures at_least { x_and AtLeast
        ≡ only_true ∷ only_true ∷ either_truth ∷ either_truth ∷ either_truth ∷ only_false ∷ [] }
    ensures equal { x_and Equal
        ≡ only_false ∷ either_truth ∷ either_truth ∷ either_truth ∷ either_truth ∷ only_false ∷ [] }
    ensures different { x_and NotEqual
        ≡ only_true ∷ either_truth ∷ either_truth ∷ either_truth ∷ either_truth ∷ only_true ∷ [] }
    ensures number_first { map seen_bounds
        (Binary Equal (whole 0) x ∷ Binary Equal (whole 3) x ∷ Binary Equal (whole 4) x
        ∷ Binary Below (whole 3) x ∷ Binary AtMost (whole 3) x ∷ [])
        ≡ either_truth ∷ either_truth ∷ only_false ∷ only_false ∷ either_truth ∷ [] }
{}

/// Each operator between truth values: true, false and either on the left, and each of them on the
/// right.
pub fn truths_are_put_together()
    ensures and { between_truths And
        ≡ (only_true ∷ only_false ∷ either_truth ∷ []) ∷ (only_false ∷ only_false ∷ only_false ∷ [])
        ∷ (either_truth ∷ only_false ∷ either_truth ∷ []) ∷ [] }
    ensures or { between_truths Or
        ≡ (only_true ∷ only_true ∷ only_true ∷ []) ∷ (only_true ∷ only_false ∷ either_truth ∷ [])
        ∷ (only_true ∷ either_truth ∷ either_truth ∷ []) ∷ [] }
    ensures equal { between_truths Equal
        ≡ (only_true ∷ only_false ∷ either_truth ∷ [])
        ∷ (only_false ∷ only_true ∷ either_truth ∷ [])
        ∷ (either_truth ∷ either_truth ∷ either_truth ∷ []) ∷ [] }
    ensures different { between_truths NotEqual
        ≡ (only_false ∷ only_true ∷ either_truth ∷ [])
        ∷ (only_true ∷ only_false ∷ either_truth ∷ [])
        ∷ (either_truth ∷ either_truth ∷ either_truth ∷ []) ∷ [] }
    ensures opposites { map seen_bounds (Not (Truth true) ∷ Not (Truth false) ∷ Not b ∷ [])
        ≡ only_false ∷ only_true ∷ either_truth ∷ [] }
{}

/// `and` and `or` are quiet where the left one is, and the right one is or is never looked at.
// the left one may fault; the right one may, after true, false and either.
pub fn operands_may_not_be_looked_at()
    ensures left { map (λ e. (seen_bounds e).quiet)
        (Binary And over_x_is_1 (Truth true) ∷ Binary And over_x_is_1 (Truth false)
        ∷ Binary Or over_x_is_1 (Truth true) ∷ Binary Or over_x_is_1 (Truth false) ∷ [])
        ≡ false ∷ false ∷ false ∷ false ∷ [] }
    ensures right { map (λ e. (seen_bounds e).quiet)
        (Binary And (Truth true) over_x_is_1 ∷ Binary And (Truth false) over_x_is_1
        ∷ Binary And b over_x_is_1 ∷ Binary Or (Truth true) over_x_is_1
        ∷ Binary Or (Truth false) over_x_is_1 ∷ Binary Or b over_x_is_1 ∷ [])
        ≡ false ∷ true ∷ false ∷ true ∷ false ∷ false ∷ [] }
{}

/// An `if` has the bounds of what may be taken.
// numbers: each end of each branch; truth values: each of each branch; a branch that may fault,
// taken, perhaps taken and never taken; a condition that may fault.
pub fn branches_are_taken()
    ensures numbers { map seen_bounds
        (If b x (whole 5) ∷ If b (whole 5) x ∷ If b y x ∷ If (Truth true) x (whole 5)
        ∷ If (Truth false) x (whole 5) ∷ [])
        ≡ numbers_in (pos 0) (pos 5) ∷ numbers_in (pos 0) (pos 5)
        ∷ numbers_in (neg_ℤ (pos 5)) (pos 7) ∷ numbers_in (pos 0) (pos 3)
        ∷ numbers_in (pos 5) (pos 5) ∷ [] }
    ensures truths { map seen_bounds
        (If b (Truth true) (Truth true) ∷ If b (Truth false) (Truth false)
        ∷ If b (Truth false) (Truth true) ∷ If b (Truth true) (Truth false)
        ∷ If b b (Truth true) ∷ [])
        ≡ only_true ∷ only_false ∷ either_truth ∷ either_truth ∷ either_truth ∷ [] }
    ensures quiet { map (λ e. (seen_bounds e).quiet)
        (If b five_over_x x ∷ If b x five_over_x ∷ If (Truth true) five_over_x x
        ∷ If (Truth false) five_over_x x ∷ If (Truth true) x five_over_x
        ∷ If (Truth false) x five_over_x ∷ If over_x_is_1 x x ∷ If b x x ∷ [])
        ≡ false ∷ false ∷ false ∷ true ∷ true ∷ false ∷ false ∷ true ∷ [] }
{}

/// A condition is refuted, or proved, where it is quiet and has one value alone.
// may fault and is never true, never false; true, false, either.
pub fn quiet_conditions_are_decided()
    ensures refuted { map (λ e. refuted (seen_bounds e))
        (Binary Above five_over_x (whole 9) ∷ Truth true ∷ Truth false ∷ b ∷ [])
        ≡ false ∷ false ∷ true ∷ false ∷ [] }
    ensures proved { map (λ e. proved (seen_bounds e))
        (Binary AtMost five_over_x (whole 9) ∷ Truth true ∷ Truth false ∷ b ∷ [])
        ≡ false ∷ true ∷ false ∷ false ∷ [] }
{}

/// A draw's bounds are the least and the greatest of its values, wherever these are in the table.
// none; one; the least first, in the midst and last, the greatest last, first and in the midst; no
// table.
pub fn draws_have_bounds()
    ensures tables { map
        (λ values. rows_bounds (map (λ v. record { value = v; weight = 1 }) values))
        ([] ∷ (pos 7 ∷ []) ∷ (pos 1 ∷ pos 2 ∷ pos 3 ∷ []) ∷ (pos 3 ∷ pos 1 ∷ pos 2 ∷ [])
        ∷ (pos 2 ∷ pos 3 ∷ pos 1 ∷ []) ∷ [])
        ≡ numbers_in (pos 0) (pos 0) ∷ numbers_in (pos 7) (pos 7) ∷ numbers_in (pos 1) (pos 3)
        ∷ numbers_in (pos 1) (pos 3) ∷ numbers_in (pos 1) (pos 3) ∷ [] }
    ensures uniform { choice_bounds bounded (Uniform (neg_ℤ (pos 4)) (pos 6))
        ≡ numbers_in (neg_ℤ (pos 4)) (pos 6) }
    ensures by_table { choice_bounds bounded (ByTable 0) ≡ numbers_in (neg_ℤ (pos 2)) (pos 9) }
    ensures no_table { choice_bounds bounded (ByTable 1) ≡ numbers_in (pos 0) (pos 0) }
{}

/// Which changes never fault.
// in turn, `set`: an index that may fault though it lies inside; a value that may fault into a
// clipped variable; fewer values, more values; of two, the first; a draw: beside the array, at its
// last cell, and one that clips at such an index.
pub fn parts_of_changes_are_quiet()
    ensures sets { map (quiet_change bounded)
        (Set (at_cell 4 (Binary Remainder (whole 1) x) ∷ []) (x ∷ [])
        ∷ Set (at_variable 6 ∷ []) (five_over_x ∷ []) ∷ Set (at_variable 6 ∷ []) []
        ∷ Set [] (x ∷ []) ∷ Set (at_variable 0 ∷ at_variable 6 ∷ []) (y ∷ x ∷ []) ∷ Set [] [] ∷ [])
        ≡ false ∷ false ∷ false ∷ false ∷ false ∷ true ∷ [] }
    ensures draws { map (quiet_change bounded)
        (Draw (at_cell 4 (whole 3)) 54 (Uniform (pos 0) (pos 1))
        ∷ Draw (at_cell 4 (whole 2)) 54 (Uniform (pos 0) (pos 9))
        ∷ Draw (at_cell 4 (whole 2)) 54 (Uniform (pos 0) (pos 10))
        ∷ Draw (at_cell 4 (whole 2)) 54 (Uniform (neg_ℤ (pos 1)) (pos 9))
        ∷ Draw (at_cell 4 (whole 2)) 54 (Uniform (neg_ℤ (pos 2)) (pos 9)) ∷ [])
        ≡ false ∷ true ∷ false ∷ true ∷ false ∷ [] }
    ensures stores { map (quiet_store (variable_at bounded 1))
        (numbers_in (neg_ℤ (pos 5)) (pos 7) ∷ numbers_in (neg_ℤ (pos 6)) (pos 7)
        ∷ numbers_in (neg_ℤ (pos 5)) (pos 8) ∷ []) ≡ true ∷ false ∷ false ∷ [] }
{}

/// Which edges never fault.
// a delay at 0 and below; one that may fault at 0 or above; drawn delays from 0 and from below, and
// from a table whose least value is below 0 and in its second row; edges without one, of each kind,
// with a value that may fault and without.
pub fn parts_of_edges_are_quiet()
    ensures delays { map (λ delay. quiet_edge bounded (schedule 0 delay))
        (x ∷ whole 0 ∷ minus 1 ∷ Binary Subtract x (whole 1)
        ∷ Binary Greatest five_over_x (whole 1) ∷ []) ≡ true ∷ true ∷ false ∷ false ∷ false ∷ [] }
    ensures drawn_delays { map
        (λ choice. quiet_edge bounded (plain_edge (Schedule (Drawn 54 choice) 5) 0 []))
        (Uniform (pos 0) (pos 5) ∷ Uniform (neg_ℤ (pos 1)) (pos 5) ∷ Uniform (pos 0) (pos 0)
        ∷ ByTable 0 ∷ ByTable 1 ∷ [])
        ≡ true ∷ false ∷ true ∷ false ∷ true ∷ [] }
    ensures kinds { map (λ kind. quiet_edge bounded (plain_edge kind 0 (x ∷ [])))
        (Urgent ∷ CancelNext ∷ CancelEqual ∷ CancelAll ∷ []) ≡ true ∷ true ∷ true ∷ true ∷ [] }
    ensures values { map (λ kind. quiet_edge bounded (plain_edge kind 0 (five_over_x ∷ x ∷ [])))
        (Urgent ∷ CancelNext ∷ CancelEqual ∷ CancelAll ∷ []) ≡ false ∷ false ∷ false ∷ false ∷ [] }
{}
