//! Which variables are needed, each for one reason; what uses them; and what slice leaves.
#![tactic(auto, unfolding(model_core::specs::Rules::BoundsTable::exact_bounds))]

ghost use Rattle.std.specs.Prelude.{◌≡◌, pos, true, false, [], ◌∷◌, Some, None};
ghost use Rattle.model_core.specs.EventGraph.{Scalar, Set, Draw, Uniform, Urgent};
ghost use Rattle.model_core.specs.Rules.Conditions.{first_failed};
ghost use Rattle.model_core.specs.Rules.Uses.{vertex_reads, vertex_writes};
ghost use Rattle.use_analysis.specs.UseRows.{use_table};
ghost use Rattle.model_core.specs.Rules.Needed.{needed_marks, unneeded};
ghost use Rattle.model_core.specs.Rules.LeastRelations.{Needed};
ghost use Rattle.model_core.specs.Rules.Slice.{slice_conditions, sliced};
ghost use Rattle.worked_runs.specs.Building.{whole, at_cell, set, draw, schedule, schedule_with, urgent, only_if, positive, plus_one, minus_one, one_over_zero, plain_edge, x_watched};
ghost use Rattle.worked_runs.specs.Models.{bank, bank_enter, cancel_three, two_draws};
ghost use Rattle.worked_runs.specs.NeedingModels.{unfaulting, strict, with_cells, carrying_variable, both_grow, unseen_bank, one_draw, growing, x_alone, two_carried, one_carried};

/// Changes and edges read the variables in them but for their targets, and parameters and targets
/// are written.
pub fn uses_are_listed()
    ensures reads { vertex_reads bank_enter ≡ 0 ∷ 3 ∷ 2 ∷ 1 ∷ [] }
    ensures writes { vertex_writes bank_enter ≡ 0 ∷ 3 ∷ 2 ∷ [] }
    ensures table { use_table bank
        ≡ record { readers = 1 ∷ 2 ∷ 3 ∷ []; writers = 1 ∷ 2 ∷ []; watched = true }
        ∷ record { readers = 1 ∷ 2 ∷ 3 ∷ []; writers = 0 ∷ 2 ∷ 3 ∷ []; watched = true }
        ∷ record { readers = 1 ∷ []; writers = 1 ∷ []; watched = false }
        ∷ record { readers = 1 ∷ []; writers = 1 ∷ []; watched = false }
        ∷ [] }
{}

/// Variables that are watched, given at the start, compared or decisive are needed, whatever else
/// is.
pub fn some_variables_are_needed_at_once()
    ensures none { unneeded (unfaulting [] [] (both_grow ∷ []) (schedule_with 1 3 5 ∷ []))
        ≡ 0 ∷ 1 ∷ [] }
    ensures watched { unneeded (unfaulting x_watched [] [] []) ≡ 1 ∷ [] }
    ensures given { unneeded (unfaulting [] (1 ∷ []) [] []) ≡ 0 ∷ [] }
    ensures compared { unneeded (unfaulting [] [] [] (cancel_three ∷ [])) ≡ 1 ∷ [] }
    ensures in_a_condition { unneeded (unfaulting [] [] [] (only_if (positive 1) (urgent 0) ∷ []))
        ≡ 0 ∷ [] }
    ensures in_a_delay { unneeded (unfaulting [] [] [] (schedule 0 (Scalar 1) ∷ [])) ≡ 0 ∷ [] }
{}

/// The variables from which a needed variable is computed are needed.
pub fn some_variables_are_needed_for_others()
    ensures for_a_value { unneeded (unfaulting x_watched [] (set 0 (plus_one 1) ∷ []) []) ≡ [] }
    ensures not_for_its_own { unneeded (unfaulting x_watched [] (both_grow ∷ []) []) ≡ 1 ∷ [] }
    ensures for_an_index { unneeded
        (with_cells x_watched (Set (at_cell 0 (Scalar 1) ∷ []) (whole 1 ∷ []) ∷ [])) ≡ [] }
    ensures for_a_drawn_index { unneeded
        (with_cells x_watched (Draw (at_cell 0 (Scalar 1)) 54 (Uniform (pos 1) (pos 6)) ∷ []))
        ≡ [] }
    ensures for_what_is_carried { unneeded (unfaulting x_watched [] [] (carrying_variable 1 ∷ []))
        ≡ [] }
    ensures carried_for_none { unneeded (unfaulting [] [] [] (carrying_variable 1 ∷ []))
        ≡ 0 ∷ 1 ∷ [] }
{}

/// A variable is needed where a value for it, an index or a store may fault.
pub fn faults_are_needed()
    ensures store { unneeded (strict (set 0 (minus_one 0) ∷ []) []) ≡ 1 ∷ [] }
    ensures no_fault { unneeded (strict (set 0 (whole 9) ∷ []) []) ≡ 0 ∷ 1 ∷ [] }
    ensures value { unneeded (unfaulting [] [] (set 1 one_over_zero ∷ []) []) ≡ 0 ∷ [] }
    ensures index { unneeded (with_cells [] (Set (at_cell 0 (whole 3) ∷ []) (whole 1 ∷ []) ∷ []))
        ≡ 1 ∷ [] }
    ensures drawn_store { unneeded (strict (draw 0 54 1 10 ∷ []) []) ≡ 1 ∷ [] }
    ensures drawn_index { unneeded
        (with_cells [] (Draw (at_cell 0 (plus_one 1)) 54 (Uniform (pos 1) (pos 6)) ∷ [])) ≡ [] }
    ensures carried_store { unneeded (strict [] (schedule_with 1 10 5 ∷ [])) ≡ 1 ∷ [] }
    ensures carried_value { unneeded
        (unfaulting [] [] [] (plain_edge Urgent 1 (one_over_zero ∷ []) ∷ [])) ≡ 1 ∷ [] }
{}

/// The needed variables are those that are needed at once or for a needed one, and no others.
pub fn the_least_are_needed()
    ensures at_once { Needed growing 0 }
    ensures for_another { Needed (unfaulting x_watched [] (set 0 (plus_one 1) ∷ []) []) 1 }
    ensures not_for_itself { Needed growing 1 → ⊥ }
    ensures no_other { Needed growing 2 → ⊥ }
{}

/// The variables drawn from one stream are needed together.
pub fn streams_are_needed_whole()
    ensures one_stream { unneeded (two_draws 54) ≡ [] }
    ensures two_streams { unneeded (two_draws 53) ≡ 1 ∷ [] }
    ensures none_is_needed { unneeded (unfaulting [] [] (draw 1 54 1 6 ∷ draw 0 54 1 6 ∷ []) [])
        ≡ 0 ∷ 1 ∷ [] }
{}

/// Condition 1 of slice is that the list isn't empty, and condition 2 that it lists exactly the
/// variables that aren't needed, in order. What is stored in them goes with them, and those that
/// stay are numbered anew.
pub fn slice_has_conditions()
    ensures holds { first_failed (slice_conditions bank (3 ∷ [])) ≡ None }
    ensures empty { first_failed (slice_conditions bank []) ≡ Some 1 }
    ensures not_these { first_failed (slice_conditions bank (2 ∷ [])) ≡ Some 2 }
    ensures not_in_order { first_failed (slice_conditions (unfaulting [] [] [] []) (1 ∷ 0 ∷ []))
        ≡ Some 2 }
    ensures marks { needed_marks bank ≡ true ∷ true ∷ true ∷ false ∷ [] }
    ensures result { sliced bank (3 ∷ []) ≡ unseen_bank }
    ensures draw_goes { sliced (two_draws 53) (1 ∷ []) ≡ one_draw }
    ensures set_goes { sliced growing (1 ∷ []) ≡ x_alone }
    ensures carried_goes { sliced two_carried (0 ∷ []) ≡ one_carried }
{}
