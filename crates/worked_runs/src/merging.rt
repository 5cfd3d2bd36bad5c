//! Merge on small models: which condition fails, and what it gives.
#![tactic(auto, unfolding(model_core::specs::Rules::BoundsTable::exact_bounds))]

ghost use Rattle.std.specs.Prelude.{◌≡◌, [], ◌∷◌, Some, None};
ghost use Rattle.model_core.specs.EventGraph.{WatchedVariable, WatchedVertex, Scalar};
ghost use Rattle.model_core.specs.Rules.Conditions.{first_failed};
ghost use Rattle.model_core.specs.Rules.UrgentEdges.{plain_urgent};
ghost use Rattle.model_core.specs.Rules.Merge.{merge_conditions, merged, first_merge};
ghost use Rattle.worked_runs.specs.Building.{whole, schedule, urgent, only_if, event, positive, one_over_zero, x_watched};
ghost use Rattle.worked_runs.specs.Models.{bank, loop};
ghost use Rattle.worked_runs.specs.MergingModels.{three_at_once, chain_merged, bank_merged, choosing, not_positive, is_zero, below_five, giving, with_others, cancels_next, with_others_merged, counting_down, then_set, long_named};

/// A vertex has a plain urgent edge where it has one urgent edge, without a condition.
pub fn plain_edges_are_alone()
    ensures alone { plain_urgent (event [] [] (schedule 0 (whole 1) ∷ urgent 1 ∷ [])) ≡ Some 1 }
    ensures conditional { plain_urgent (event [] [] (only_if (positive 0) (urgent 1) ∷ [])) ≡ None }
    ensures two { plain_urgent (event [] [] (urgent 1 ∷ only_if (positive 0) (urgent 2) ∷ []))
        ≡ None }
    ensures none { plain_urgent (event [] [] (schedule 0 (whole 1) ∷ [])) ≡ None }
{}

/// Each condition of merge fails alone. The first is that the two exist and the plain urgent edge
/// leads from one to the other, the second that the other has none, the third that the model is
/// single urgent, the fourth that the other isn't watched, the fifth that the one doesn't cancel
/// it, the sixth that the edges besides never fault and read nothing that the other writes, the
/// seventh that the other happens unseen where the one is watched, and the eighth that the result
/// is within the limits.
pub fn merge_has_conditions()
    ensures holds { first_failed (merge_conditions three_at_once 1 2) ≡ None }
    ensures no_vertex { first_failed (merge_conditions three_at_once 3 2) ≡ Some 1 }
    ensures no_target { first_failed (merge_conditions three_at_once 1 3) ≡ Some 1 }
    ensures elsewhere { first_failed (merge_conditions three_at_once 0 2) ≡ Some 1 }
    ensures no_edge { first_failed (merge_conditions three_at_once 2 1) ≡ Some 1 }
    ensures goes_on { first_failed (merge_conditions three_at_once 0 1) ≡ Some 2 }
    ensures either { first_failed (merge_conditions (choosing not_positive) 0 1) ≡ None }
    ensures either_by_numbers { first_failed (merge_conditions (choosing is_zero) 0 1) ≡ None }
    ensures perhaps_both { first_failed (merge_conditions (choosing below_five) 0 1) ≡ Some 3 }
    ensures target_watched { first_failed
        (merge_conditions (with_others (WatchedVertex 1 ∷ []) []) 0 1) ≡ Some 4 }
    ensures cancelled { first_failed
        (merge_conditions (with_others x_watched (cancels_next 1 ∷ [])) 0 1) ≡ Some 5 }
    ensures another_cancelled { first_failed
        (merge_conditions (with_others x_watched (cancels_next 2 ∷ [])) 0 1) ≡ None }
    ensures reads_what_is_given { first_failed
        (merge_conditions (with_others x_watched (schedule 2 (Scalar 0) ∷ [])) 0 1) ≡ Some 6 }
    ensures reads_what_is_set { first_failed
        (merge_conditions (then_set 0 (schedule 0 (Scalar 0) ∷ [])) 0 1) ≡ Some 6 }
    ensures another_may_fault { first_failed
        (merge_conditions (with_others x_watched (schedule 2 one_over_zero ∷ [])) 0 1) ≡ Some 6 }
    ensures may_fault { first_failed (merge_conditions (counting_down (WatchedVertex 0 ∷ [])) 0 1)
        ≡ Some 7 }
    ensures unseen_fault { first_failed (merge_conditions (counting_down []) 0 1) ≡ None }
    ensures writes_what_is_watched { first_failed
        (merge_conditions (with_others (WatchedVertex 0 ∷ WatchedVariable 0 ∷ []) []) 0 1)
        ≡ Some 7 }
    ensures given_beyond_the_range { first_failed
        (merge_conditions (giving (whole 10) (WatchedVertex 0 ∷ []) []) 0 1) ≡ Some 7 }
    ensures writes_unseen { first_failed
        (merge_conditions (with_others (WatchedVertex 0 ∷ []) []) 0 1) ≡ None }
    ensures too_many_changes { first_failed (merge_conditions (then_set 1000 []) 0 1) ≡ Some 8 }
    ensures as_many_changes { first_failed (merge_conditions (then_set 999 []) 0 1) ≡ None }
    ensures too_many_bytes { first_failed (merge_conditions (long_named 4194171) 1 2) ≡ Some 8 }
    ensures as_many_bytes { first_failed (merge_conditions (long_named 4194170) 1 2) ≡ None }
{}

/// The changes of the other come after those of the one and a `set` of its parameters, and its
/// edges after the others.
pub fn merge_has_a_result()
    ensures chain_of_three { merged three_at_once 1 2 ≡ chain_merged }
    ensures of_bank { merged bank 0 1 ≡ bank_merged }
    ensures parameters_are_set { merged (with_others x_watched (schedule 2 (whole 3) ∷ [])) 0 1
        ≡ with_others_merged }
{}

/// The first vertex that may be merged is merged with the one to which its plain urgent edge leads.
pub fn the_first_merge_is_taken()
    ensures last_two { first_merge three_at_once ≡ Some (1, 2) }
    ensures of_bank { first_merge bank ≡ Some (0, 1) }
    ensures bank_once { first_merge bank_merged ≡ None }
    ensures circle { first_merge loop ≡ None }
    ensures both_at_once { first_merge (choosing below_five) ≡ None }
{}
