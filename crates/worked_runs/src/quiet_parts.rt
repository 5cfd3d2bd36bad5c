//! Stores, changes and edges of one small model, whose declared ranges decide whether they can
//! fault.
#![tactic(auto, unfolding(model_core::specs::Rules::BoundsTable::exact_bounds))]

ghost use Rattle.std.specs.Prelude.{◌≡◌, pos, neg_ℤ, true, false, [], ◌∷◌};
ghost use Rattle.model_core.specs.EventGraph.{Binary, Divide, Least, Set, Draw, Uniform, ByTable, Fixed, Drawn, Schedule, Urgent, CancelNext};
ghost use Rattle.model_core.specs.Run.State.{variable_at};
ghost use Rattle.model_core.specs.Rules.BoundsOfParts.{quiet_store, choice_bounds, quiet_change, quiet_edge};
ghost use Rattle.worked_runs.specs.Building.{whole, at_variable, at_cell, set, plain_edge, only_if};
ghost use Rattle.worked_runs.specs.BoundedModel.{bounded, numbers_in, either_truth, x, y, b, over_x_is_1};

/// A store is quiet where the variable's range holds the bounds, or the variable is clipped or
/// holds truth values.
pub fn stores_may_be_quiet()
    ensures whole_range { quiet_store (variable_at bounded 0) (numbers_in (pos 0) (pos 3)) ≡ true }
    ensures above { quiet_store (variable_at bounded 0) (numbers_in (pos 0) (pos 4)) ≡ false }
    ensures below { quiet_store (variable_at bounded 0) (numbers_in (neg_ℤ (pos 1)) (pos 3))
        ≡ false }
    ensures clipped { quiet_store (variable_at bounded 6) (numbers_in (neg_ℤ (pos 1)) (pos 100))
        ≡ true }
    ensures truth { quiet_store (variable_at bounded 2) either_truth ≡ true }
{}

/// A change is quiet where its right sides, indexes and stores are, and a draw's bounds are those
/// of what it takes from.
pub fn changes_may_be_quiet()
    ensures set { quiet_change bounded (set 0 (whole 3)) ≡ true }
    ensures set_outside { quiet_change bounded (set 0 y) ≡ false }
    ensures set_a_fault { quiet_change bounded (set 6 (Binary Divide (whole 5) x)) ≡ false }
    ensures two { quiet_change bounded (Set (at_variable 0 ∷ at_variable 6 ∷ []) (x ∷ y ∷ []))
        ≡ true }
    ensures second { quiet_change bounded (Set (at_variable 6 ∷ at_variable 0 ∷ []) (x ∷ y ∷ []))
        ≡ false }
    ensures cell { quiet_change bounded (Set (at_cell 4 (Binary Least x (whole 2)) ∷ []) (x ∷ []))
        ≡ true }
    ensures cell_beyond { quiet_change bounded (Set (at_cell 4 x ∷ []) (x ∷ [])) ≡ false }
    ensures draw { quiet_change bounded (Draw (at_variable 0) 54 (Uniform (pos 0) (pos 3))) ≡ true }
    ensures draw_outside { quiet_change bounded (Draw (at_variable 0) 54 (Uniform (pos 0) (pos 4)))
        ≡ false }
    ensures values_of_a_table { choice_bounds bounded (ByTable 0)
        ≡ numbers_in (neg_ℤ (pos 2)) (pos 9) }
    ensures draw_by_table { quiet_change bounded (Draw (at_cell 4 (whole 0)) 54 (ByTable 0))
        ≡ false }
    ensures draw_clipped { quiet_change bounded (Draw (at_variable 6) 54 (ByTable 0)) ≡ true }
{}

/// An edge is quiet where its condition, its values and its delay are, and the delay is never below
/// 0.
pub fn edges_may_be_quiet()
    ensures scheduled { quiet_edge bounded
        (only_if b (plain_edge (Schedule (Fixed x) 5) 0 (y ∷ []))) ≡ true }
    ensures delay_below { quiet_edge bounded (plain_edge (Schedule (Fixed y) 5) 0 []) ≡ false }
    ensures delay_is_a_fault { quiet_edge bounded
        (plain_edge (Schedule (Fixed (Binary Divide (whole 1) x)) 5) 0 []) ≡ false }
    ensures drawn_delay { quiet_edge bounded
        (plain_edge (Schedule (Drawn 54 (Uniform (pos 0) (pos 3))) 5) 0 []) ≡ true }
    ensures drawn_below { quiet_edge bounded
        (plain_edge (Schedule (Drawn 54 (Uniform (neg_ℤ (pos 1)) (pos 3))) 5) 0 []) ≡ false }
    ensures drawn_by_table { quiet_edge bounded
        (plain_edge (Schedule (Drawn 54 (ByTable 0)) 5) 0 []) ≡ false }
    ensures condition_is_a_fault { quiet_edge bounded (only_if over_x_is_1 (plain_edge Urgent 0 []))
        ≡ false }
    ensures value_is_a_fault { quiet_edge bounded (plain_edge Urgent 0 (x ∷ over_x_is_1 ∷ []))
        ≡ false }
    ensures cancelled { quiet_edge bounded (plain_edge CancelNext 0 []) ≡ true }
{}
