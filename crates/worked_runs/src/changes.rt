//! Changes: stores on the state before, and draws.

ghost use Rattle.std.specs.Prelude.{◌≡◌, pos, neg_ℤ, [], ◌∷◌, codes, Ok, Err};
ghost use Rattle.sig_base.specs.declared.fault.FaultKind.TheVariants as faults;
ghost use Rattle.model_core.specs.EventGraph.{Clock, Scalar, Cell, Set};
ghost use Rattle.model_core.specs.Run.Changes.{kept};
ghost use Rattle.model_core.specs.Run.Machine.{At, Ended, Faulted};
ghost use Rattle.model_core.specs.Run.History.{look};
ghost use Rattle.worked_runs.specs.Building.{ranged, clipped, whole, at_variable, at_cell, one_over_zero, set, draw, draw_cell, scalars, showing};
ghost use Rattle.worked_runs.specs.HarbourModel.{harbour_n};
ghost use Rattle.worked_runs.specs.Models.{changing, two_draws, two_rows, cells, index_and_cell, bad_index_and_value, bad_indexes, doubling, lowering, at_two, taking_two};

/// Each draw takes the next word of its own stream.
#[tactic(auto, unfolding(rand_pcg::specs::Lcg::state_after))]
pub fn variables_are_drawn()
    ensures second_of_one_stream { look (two_draws 54) 42 [] 100 1000
        ≡ showing (At 0 (scalars (3 ∷ [])) ∷ []) (Ended 0) }
    ensures first_of_another_stream { look (two_draws 53) 42 [] 100 1000
        ≡ showing (At 0 (scalars (4 ∷ [])) ∷ []) (Ended 0) }
    ensures second_of_the_last_stream { look
        (changing (draw 0 63 1 6 ∷ draw 0 63 1 6 ∷ [])) 42 [] 100 1000
        ≡ showing (At 0 (scalars (6 ∷ [])) ∷ []) (Ended 0) }
    ensures second_after_a_set { look
        (changing (draw 1 54 1 6 ∷ set 1 (whole 2) ∷ draw 0 54 1 6 ∷ [])) 42 [] 100 1000
        ≡ showing (At 0 (scalars (3 ∷ [])) ∷ []) (Ended 0) }
    ensures by_weights { look two_rows 42 [] 100 1000
        ≡ showing (At 0 (scalars (3 ∷ 2 ∷ [])) ∷ []) (Ended 0) }
{}

/// A store at either end of the range stays, and one beyond is a fault, or under `clip` the nearest
/// bound.
pub fn stores_keep_to_ranges()
    ensures least { kept harbour_n (neg_ℤ (pos 3)) ≡ Ok (neg_ℤ (pos 3)) }
    ensures greatest { kept harbour_n (pos 9) ≡ Ok (pos 9) }
    ensures below { kept harbour_n (neg_ℤ (pos 4)) ≡ Err faults.RangeOutside }
    ensures above { kept harbour_n (pos 10) ≡ Err faults.RangeOutside }
    ensures clipped_inside { kept (clipped harbour_n) (pos 2) ≡ Ok (pos 2) }
    ensures clipped_below { kept (clipped harbour_n) (neg_ℤ (pos 4)) ≡ Ok (neg_ℤ (pos 3)) }
    ensures clipped_above { kept (clipped harbour_n) (pos 10) ≡ Ok (pos 9) }
{}

/// Carried values are stored before the changes are made, and a store under `clip` takes the
/// nearest bound.
pub fn parameters_come_first()
    ensures changes_see_them { look (doubling (ranged (codes "X") 0 9 0)) 42 (pos 4 ∷ []) 100 1000
        ≡ showing (At 0 (scalars (8 ∷ [])) ∷ []) (Ended 0) }
    ensures clipped_from_above { look (doubling (clipped (ranged (codes "X") 1 6 1))) 42
        (pos 4 ∷ []) 100 1000
        ≡ showing (At 0 (scalars (6 ∷ [])) ∷ []) (Ended 0) }
    ensures clipped_from_below { look (lowering (clipped (ranged (codes "X") 1 6 1))) 42
        (pos 4 ∷ []) 100 1000
        ≡ showing (At 0 (scalars (1 ∷ [])) ∷ []) (Ended 0) }
    ensures one_for_each { look
        (taking_two (ranged (codes "X") 0 9 0) (clipped (ranged (codes "Y") 0 9 0)) []) 42
        (pos 4 ∷ pos 10 ∷ []) 100 1000
        ≡ showing (At 0 (scalars (9 ∷ 4 ∷ [])) ∷ []) (Ended 0) }
{}

/// Right sides come first, then indexes, both on the state before, and then the stores.
pub fn cells_are_set()
    ensures index_on_the_state_before { look (cells (index_and_cell ∷ [])) 42 [] 100 1000
        ≡ showing (At 0 ((pos 1 ∷ []) ∷ (pos 7 ∷ pos 0 ∷ []) ∷ []) ∷ []) (Ended 0) }
    ensures stores_from_left_to_right { look
        (cells (Set (at_cell 1 (whole 0) ∷ at_cell 1 (whole 0) ∷ [])
        (whole 1 ∷ whole 2 ∷ []) ∷ [])) 42 [] 100 1000
        ≡ showing (At 0 ((pos 0 ∷ []) ∷ (pos 2 ∷ pos 0 ∷ []) ∷ []) ∷ []) (Ended 0) }
    ensures values_from_left_to_right { look
        (cells (Set (at_variable 0 ∷ at_cell 1 (whole 0) ∷ [])
        (one_over_zero ∷ Cell 1 (whole 2) ∷ []) ∷ [])) 42 [] 100 1000
        ≡ showing [] (Faulted 0 faults.DivisionByZero) }
    ensures values_before_indexes { look (cells (bad_index_and_value ∷ [])) 42 [] 100 1000
        ≡ showing [] (Faulted 0 faults.DivisionByZero) }
    ensures indexes_from_left_to_right { look
        (cells (bad_indexes one_over_zero (whole 2) ∷ [])) 42 [] 100 1000
        ≡ showing [] (Faulted 0 faults.DivisionByZero) }
    ensures the_other_way_round { look
        (cells (bad_indexes (whole 2) one_over_zero ∷ [])) 42 [] 100 1000
        ≡ showing [] (Faulted 0 faults.IndexOutside) }
    ensures indexes_before_stores { look
        (cells (Set (at_variable 0 ∷ at_cell 1 (whole 2) ∷ [])
        (whole 10 ∷ whole 1 ∷ []) ∷ [])) 42 [] 100 1000
        ≡ showing [] (Faulted 0 faults.IndexOutside) }
{}

/// A draw finds its cell on the state that the changes before it left, at the clock of the event.
#[tactic(auto, unfolding(rand_pcg::specs::Lcg::state_after))]
pub fn cells_are_drawn()
    ensures after_a_set { look
        (cells (set 0 (whole 1) ∷ draw_cell 1 (Scalar 0) ∷ [])) 42 [] 100 1000
        ≡ showing (At 0 ((pos 1 ∷ []) ∷ (pos 0 ∷ pos 4 ∷ []) ∷ []) ∷ []) (Ended 0) }
    ensures at_its_clock { look
        (at_two (draw_cell 1 Clock ∷ set 0 (Cell 1 (whole 2)) ∷ []) []) 42 [] 100 1000
        ≡ showing (At 0 (scalars (0 ∷ [])) ∷ At 2 (scalars (4 ∷ [])) ∷ []) (Ended 2) }
    ensures outside_its_range { look (cells (draw 0 54 10 12 ∷ [])) 42 [] 100 1000
        ≡ showing [] (Faulted 0 faults.RangeOutside) }
{}
