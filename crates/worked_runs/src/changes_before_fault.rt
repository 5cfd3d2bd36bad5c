//! What changes leave if one of them faults: the stores and words before the fault.

ghost use Rattle.std.specs.Prelude.{◌≡◌, pos, [], ◌∷◌};
ghost use Rattle.model_core.specs.EventGraph.{Binary, Add, Scalar};
ghost use Rattle.model_core.specs.Run.Changes.{one_more};
ghost use Rattle.model_core.specs.Run.LeftByFaults.{left_by_changes};
ghost use Rattle.worked_runs.specs.Building.{set, draw, whole};
ghost use Rattle.worked_runs.specs.Models.{cells, changing, bad_index_and_value};
ghost use Rattle.worked_runs.specs.Left.{as_it_begins, with_state, with_words, second_store_bad, bad_index_drawn};

/// The stores made before the first fault stay, and none is made after it.
pub fn stores_before_a_fault_stay()
    ensures first_of_two_stores { left_by_changes (cells []) 42 0 (second_store_bad ∷ [])
        (as_it_begins (cells []))
        ≡ with_state ((pos 3 ∷ []) ∷ (pos 0 ∷ pos 0 ∷ []) ∷ []) (as_it_begins (cells [])) }
    ensures no_store_before_all_values { left_by_changes (cells []) 42 0 (bad_index_and_value ∷ [])
        (as_it_begins (cells []))
        ≡ as_it_begins (cells []) }
    ensures none_of_a_draw_outside { (left_by_changes (changing []) 42 0
        (draw 0 54 7 9 ∷ draw 0 54 1 6 ∷ []) (as_it_begins (changing []))).state
        ≡ (as_it_begins (changing [])).state }
    ensures nothing_after_a_fault { left_by_changes (cells []) 42 0
        (set 0 (whole 3) ∷ set 0 (whole 10) ∷ set 0 (whole 5) ∷ []) (as_it_begins (cells []))
        ≡ with_state ((pos 3 ∷ []) ∷ (pos 0 ∷ pos 0 ∷ []) ∷ []) (as_it_begins (cells [])) }
    ensures first_of_two_raises { left_by_changes (cells []) 42 0
        (set 0 (Binary Add (Scalar 0) (whole 6)) ∷ set 0 (Binary Add (Scalar 0) (whole 6)) ∷ [])
        (as_it_begins (cells []))
        ≡ with_state ((pos 6 ∷ []) ∷ (pos 0 ∷ pos 0 ∷ []) ∷ []) (as_it_begins (cells [])) }
{}

/// A draw whose store faults has taken its word, and one whose index faults has taken none.
#[tactic(auto, unfolding(rand_pcg::specs::Lcg::state_after))]
pub fn words_before_a_fault_are_taken()
    ensures store_faults { left_by_changes (changing []) 42 0 (draw 0 54 7 9 ∷ [])
        (as_it_begins (changing []))
        ≡ with_words (one_more (as_it_begins (changing [])).taken 54) (as_it_begins (changing [])) }
    ensures both_draws { left_by_changes (changing []) 42 0
        (draw 1 54 1 6 ∷ draw 0 54 7 9 ∷ draw 0 54 1 6 ∷ []) (as_it_begins (changing []))
        ≡ record {
          state = (pos 1 ∷ [])
              ∷ (pos 4 ∷ []) ∷ [];
          taken = one_more
              (one_more (as_it_begins (changing [])).taken 54) 54;
        } }
    ensures where_a_set_faults { left_by_changes (changing []) 42 0
        (draw 1 54 1 6 ∷ set 0 (whole 9) ∷ []) (as_it_begins (changing []))
        ≡ record {
          state = (pos 1 ∷ [])
              ∷ (pos 4 ∷ []) ∷ [];
          taken = one_more (as_it_begins (changing [])).taken 54;
        } }
    ensures index_faults { left_by_changes (cells []) 42 0 (bad_index_drawn ∷ [])
        (as_it_begins (cells [])) ≡ as_it_begins (cells []) }
{}
