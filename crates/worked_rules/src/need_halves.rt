//! Which variables are needed, half by half, and what a slice leaves of each part.
#![tactic(auto, unfolding(model_core::specs::Rules::BoundsTable::exact_bounds))]

ghost use Rattle.std.specs.Prelude.{◌≡◌, ◌∷◌, [], true, false, map, pos, Some, None};
ghost use Rattle.model_core.specs.EventGraph.{Truth, Scalar, Set, Draw, Uniform, Urgent, CancelNext, CancelEqual, CancelAll, Fixed, Drawn, Schedule, WatchedVariable, WatchedVertex};
ghost use Rattle.model_core.specs.Rules.Conditions.{first_failed};
ghost use Rattle.model_core.specs.Rules.Needed.{unneeded};
ghost use Rattle.model_core.specs.Rules.Slice.{slice_conditions, sliced_change, sliced_edge, sliced};
ghost use Rattle.worked_runs.specs.Building.{whole, at_variable, at_cell, draw, only_if, positive, plain_edge, schedule, one_over_zero, x_watched};
ghost use Rattle.worked_rules.specs.NeedHalves.{four_clipped, taken_over, drawn_of, giving_edge, one_strict, before_slice, after_slice};

/// What is needed at once, by one of U, V, W and X each time.
// nothing; a watched variable, after a vertex of another number; the first vertex's parameters,
// both, and not the second's; what an edge cancels by its values, and not where it cancels the next
// or all; what conditions of each kind of edge read, and delays, but no value; no drawn delay.
pub fn some_are_needed_at_once()
    ensures nothing { unneeded (four_clipped [] [] (taken_over) []) ≡ 0 ∷ 1 ∷ 2 ∷ 3 ∷ [] }
    ensures watched { unneeded (four_clipped (WatchedVertex 1 ∷ WatchedVariable 3 ∷ []) [] [] [])
        ≡ 0 ∷ 1 ∷ 2 ∷ [] }
    ensures given { unneeded (four_clipped [] (0 ∷ 2 ∷ []) [] []) ≡ 1 ∷ 3 ∷ [] }
    ensures compared { map
        (λ kind. unneeded (four_clipped [] [] [] (giving_edge kind (whole 3) ∷ [])))
        (CancelNext ∷ CancelEqual ∷ CancelAll ∷ [])
        ≡ (0 ∷ 1 ∷ 2 ∷ 3 ∷ []) ∷ (0 ∷ 2 ∷ 3 ∷ []) ∷ (0 ∷ 1 ∷ 2 ∷ 3 ∷ []) ∷ [] }
    ensures in_conditions { map
        (λ kind. unneeded
        (four_clipped [] [] [] (only_if (positive 2) (plain_edge kind 0 []) ∷ [])))
        (Urgent ∷ CancelNext ∷ CancelEqual ∷ CancelAll ∷ [])
        ≡ (0 ∷ 1 ∷ 3 ∷ []) ∷ (0 ∷ 1 ∷ 3 ∷ []) ∷ (0 ∷ 1 ∷ 3 ∷ []) ∷ (0 ∷ 1 ∷ 3 ∷ []) ∷ [] }
    ensures in_delays { unneeded
        (four_clipped [] [] [] (schedule 0 (Scalar 2) ∷ schedule 1 (Scalar 0) ∷ [])) ≡ 1 ∷ 3 ∷ [] }
    ensures not_in_values { unneeded (four_clipped [] [] [] (giving_edge Urgent (Scalar 2) ∷ []))
        ≡ 0 ∷ 1 ∷ 2 ∷ 3 ∷ [] }
    ensures not_in_drawn_delays { unneeded
        (four_clipped [] [] []
        (plain_edge (Schedule (Drawn 54 (Uniform (pos 1) (pos 6))) 5) 0 [] ∷ []))
        ≡ 0 ∷ 1 ∷ 2 ∷ 3 ∷ [] }
{}

/// A variable is needed where a store, an index or a value for it may fault: that of its own target
/// alone.
// a `set` of two: the value of the second, the store of the first, the index of the last, a value
// that stays; a draw: an index; what an edge carries that schedules, in time and at once, and not
// where it cancels.
pub fn faults_are_needed_one_by_one()
    ensures second_value { unneeded
        (one_strict (Set (at_variable 0 ∷ at_variable 1 ∷ []) (whole 9 ∷ one_over_zero ∷ []) ∷ []))
        ≡ 0 ∷ 2 ∷ [] }
    ensures first_store { unneeded
        (one_strict (Set (at_variable 0 ∷ at_variable 1 ∷ []) (whole 10 ∷ whole 10 ∷ []) ∷ []))
        ≡ 1 ∷ 2 ∷ [] }
    ensures last_index { unneeded
        (one_strict (Set (at_variable 0 ∷ at_cell 2 (whole 3) ∷ []) (whole 9 ∷ whole 9 ∷ []) ∷ []))
        ≡ 0 ∷ 1 ∷ [] }
    ensures last_cell { unneeded
        (one_strict (Set (at_variable 0 ∷ at_cell 2 (whole 2) ∷ []) (whole 0 ∷ whole 10 ∷ []) ∷ []))
        ≡ 0 ∷ 1 ∷ 2 ∷ [] }
    ensures drawn { map (λ change. unneeded (one_strict (change ∷ [])))
        (Draw (at_variable 0) 54 (Uniform (pos 0) (pos 9))
        ∷ Draw (at_variable 0) 54 (Uniform (pos 0) (pos 10))
        ∷ Draw (at_cell 2 (whole 3)) 54 (Uniform (pos 0) (pos 9))
        ∷ Draw (at_cell 2 (whole 2)) 54 (Uniform (pos 0) (pos 10)) ∷ [])
        ≡ (0 ∷ 1 ∷ 2 ∷ []) ∷ (1 ∷ 2 ∷ []) ∷ (0 ∷ 1 ∷ []) ∷ (0 ∷ 1 ∷ 2 ∷ []) ∷ [] }
    ensures carried { map
        (λ kind. unneeded (four_clipped [] [] [] (giving_edge kind one_over_zero ∷ [])))
        (Schedule (Fixed (whole 1)) 5 ∷ Urgent ∷ CancelNext ∷ CancelAll ∷ [])
        ≡ (0 ∷ 2 ∷ 3 ∷ []) ∷ (0 ∷ 2 ∷ 3 ∷ []) ∷ (0 ∷ 1 ∷ 2 ∷ 3 ∷ []) ∷ (0 ∷ 1 ∷ 2 ∷ 3 ∷ []) ∷ [] }
{}

/// What a needed variable is made of is needed, and what that is made of, as far as it goes.
// U of V, V of W, W of X, in three changes of which the last makes U; from the midst on; of two
// targets each has its own side; an index, of a `set` and of a draw; what is carried, by edges that
// schedule and by one that cancels by its values; nothing by another target's side.
pub fn needed_ones_are_made_of_needed_ones()
    ensures chain { unneeded (four_clipped (WatchedVariable 0 ∷ []) [] taken_over []) ≡ [] }
    ensures from_the_midst { unneeded (four_clipped (WatchedVariable 2 ∷ []) [] taken_over [])
        ≡ 0 ∷ 1 ∷ [] }
    ensures own_side { unneeded
        (four_clipped x_watched []
        (Set (at_variable 0 ∷ at_variable 1 ∷ []) (Scalar 2 ∷ Scalar 3 ∷ []) ∷ []) [])
        ≡ 1 ∷ 3 ∷ [] }
    ensures index { unneeded
        (four_clipped x_watched []
        (Set (at_variable 1 ∷ at_cell 0 (Scalar 2) ∷ []) (Scalar 3 ∷ whole 1 ∷ []) ∷ []) [])
        ≡ 1 ∷ 3 ∷ [] }
    ensures carried { map
        (λ kind. unneeded
        (four_clipped (WatchedVariable 1 ∷ []) [] [] (giving_edge kind (Scalar 2) ∷ [])))
        (Schedule (Fixed (whole 1)) 5 ∷ Urgent ∷ CancelEqual ∷ [])
        ≡ (0 ∷ 3 ∷ []) ∷ (0 ∷ 3 ∷ []) ∷ (0 ∷ 3 ∷ []) ∷ [] }
{}

/// What is drawn from the stream of a needed one is needed, wherever it is drawn; and where a delay
/// is drawn from the stream.
// before and after; through a third; of another stream; what is drawn twice, from two streams; a
// delay of the stream, and of another; where one number alone can be drawn; of a delay that is
// never drawn.
pub fn streams_are_needed_one_by_one()
    ensures before { unneeded
        (four_clipped x_watched [] (drawn_of 1 54 ∷ drawn_of 0 54 ∷ drawn_of 2 53 ∷ []) [])
        ≡ 2 ∷ 3 ∷ [] }
    ensures after { unneeded
        (four_clipped x_watched [] (drawn_of 0 54 ∷ drawn_of 1 54 ∷ drawn_of 2 53 ∷ []) [])
        ≡ 2 ∷ 3 ∷ [] }
    ensures through_a_third { unneeded
        (four_clipped x_watched []
        (drawn_of 3 53 ∷ drawn_of 1 53 ∷ drawn_of 1 54 ∷ drawn_of 0 54 ∷ []) []) ≡ 2 ∷ [] }
    ensures none { unneeded (four_clipped [] [] (drawn_of 0 54 ∷ drawn_of 1 54 ∷ []) [])
        ≡ 0 ∷ 1 ∷ 2 ∷ 3 ∷ [] }
    ensures of_a_delay_of_one_number { unneeded
        (four_clipped [] [] (drawn_of 0 54 ∷ drawn_of 1 53 ∷ [])
        (plain_edge (Schedule (Drawn 53 (Uniform (pos 3) (pos 3))) 5) 0 [] ∷ [])) ≡ 0 ∷ 2 ∷ 3 ∷ [] }
    ensures of_a_draw_of_one_number { unneeded
        (four_clipped x_watched [] (draw 0 54 3 3 ∷ draw 1 54 3 3 ∷ []) []) ≡ 2 ∷ 3 ∷ [] }
    ensures of_an_edge_that_is_never_taken { unneeded
        (four_clipped [] [] (drawn_of 1 53 ∷ [])
        (only_if (Truth false)
        (plain_edge (Schedule (Drawn 53 (Uniform (pos 1) (pos 6))) 5) 0 []) ∷ []))
        ≡ 0 ∷ 2 ∷ 3 ∷ [] }
    ensures of_a_delay { unneeded
        (four_clipped [] [] (drawn_of 0 54 ∷ drawn_of 1 53 ∷ drawn_of 2 52 ∷ [])
        (plain_edge (Schedule (Drawn 53 (Uniform (pos 1) (pos 6))) 5) 0 [] ∷ [])) ≡ 0 ∷ 2 ∷ 3 ∷ [] }
{}

/// The list of a slice has all that aren't needed, and no other, in order.
pub fn slices_list_all()
    ensures all { first_failed (slice_conditions (four_clipped x_watched [] [] []) (1 ∷ 2 ∷ 3 ∷ []))
        ≡ None }
    ensures one_less { first_failed
        (slice_conditions (four_clipped x_watched [] [] []) (1 ∷ 2 ∷ [])) ≡ Some 2 }
    ensures one_more { first_failed
        (slice_conditions (four_clipped x_watched [] [] []) (1 ∷ 2 ∷ 3 ∷ 4 ∷ [])) ≡ Some 2 }
    ensures first_more { first_failed
        (slice_conditions (four_clipped x_watched [] [] []) (0 ∷ 1 ∷ 2 ∷ 3 ∷ [])) ≡ Some 2 }
    ensures turned { first_failed
        (slice_conditions (four_clipped x_watched [] [] []) (1 ∷ 3 ∷ 2 ∷ [])) ≡ Some 2 }
    ensures none { first_failed
        (slice_conditions (four_clipped (WatchedVariable 0 ∷ []) [] taken_over []) []) ≡ Some 1 }
{}

/// What is left of each part without one variable: those after it move up by one, and those ahead
/// of it stay.
// the watch list: a variable after it, a vertex, a variable ahead; parameters; a `set` of four, of
// which the first and the last go with their sides; one that goes whole and one that stays; a draw
// that goes, and one into a cell, whose index is numbered anew; values that edges carry, of each
// kind; a delay and a condition, of each form of expression; a drawn delay and a table, which stay;
// edges with no values, with fewer, of the one variable and of the other, and to a vertex that
// takes none.
pub fn parts_are_sliced()
    ensures whole { sliced before_slice (1 ∷ []) ≡ after_slice }
    ensures without_values { map (sliced_edge before_slice (true ∷ false ∷ true ∷ true ∷ []))
        (plain_edge Urgent 1 [] ∷ plain_edge CancelEqual 1 [] ∷ plain_edge Urgent 1 (whole 7 ∷ [])
        ∷ plain_edge CancelEqual 1 (whole 7 ∷ []) ∷ [])
        ≡ plain_edge Urgent 1 [] ∷ plain_edge CancelEqual 1 [] ∷ plain_edge Urgent 1 []
        ∷ plain_edge CancelEqual 1 [] ∷ [] }
    ensures with_values { map (sliced_edge before_slice (true ∷ true ∷ false ∷ true ∷ []))
        (plain_edge Urgent 1 (whole 7 ∷ Scalar 3 ∷ [])
        ∷ plain_edge CancelEqual 1 (Scalar 1 ∷ whole 8 ∷ []) ∷ plain_edge CancelNext 1 []
        ∷ plain_edge CancelNext 2 (Scalar 3 ∷ []) ∷ [])
        ≡ plain_edge Urgent 1 (whole 7 ∷ []) ∷ plain_edge CancelEqual 1 (Scalar 1 ∷ [])
        ∷ plain_edge CancelNext 1 [] ∷ plain_edge CancelNext 2 (Scalar 2 ∷ []) ∷ [] }
    ensures more_sides { sliced_change (true ∷ false ∷ [])
        (Set (at_variable 1 ∷ []) (whole 1 ∷ whole 2 ∷ [])) ≡ Set [] (whole 2 ∷ []) ∷ [] }
    ensures fewer_sides { sliced_change (true ∷ false ∷ [])
        (Set (at_variable 1 ∷ at_variable 0 ∷ []) (whole 1 ∷ []))
        ≡ Set (at_variable 0 ∷ []) [] ∷ [] }
{}
