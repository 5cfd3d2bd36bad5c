//! Prune, settle and drop, half by half: the first edge, what may fault, and how far vertices are
//! reached.
#![tactic(auto, unfolding(model_core::specs::Rules::BoundsTable::exact_bounds))]

ghost use Rattle.std.specs.Prelude.{◌≡◌, ◌∷◌, [], true, false, map, Some, None};
ghost use Rattle.model_core.specs.Rules.Conditions.{first_failed};
ghost use Rattle.model_core.specs.Rules.Prune.{first_prune, prune_conditions, pruned};
ghost use Rattle.model_core.specs.Rules.Settle.{settle_conditions, settled, first_settle};
ghost use Rattle.model_core.specs.Rules.Reached.{reached_marks, unreached};
ghost use Rattle.model_core.specs.Rules.Drop.{drop_conditions, dropped};
ghost use Rattle.worked_rules.specs.EdgeModels.{at_several_places, one_pruned, one_settled, led, led_alone, over_x};

/// The first edge that may be pruned, and the first that may be settled, by vertex and then by
/// edge.
// RUN has none of either: one that may be taken, one that is literally taken, one whose condition
// may fault; A has two to prune, and one to settle between them; B has one of each at earlier
// places; without A's and B's there is none.
pub fn the_first_edge_is_taken()
    ensures prune { first_prune at_several_places ≡ Some (1, 1) }
    ensures settle { first_settle at_several_places ≡ Some (1, 2) }
    ensures none { first_prune (over_x [] []) ≡ None }
    ensures none_to_settle { first_settle (over_x [] []) ≡ None }
    ensures pruned { pruned at_several_places 1 1 ≡ one_pruned }
    ensures settled { settled at_several_places 1 2 ≡ one_settled }
{}

/// Each condition of prune and of settle, edge by edge of two vertices, and beyond.
// prune, RUN: may be taken; literal; always, if it doesn't fault; A: may be; never; always; never;
// then none. settle likewise.
pub fn edges_have_conditions()
    ensures prune_run { map (λ k. first_failed (prune_conditions at_several_places 0 k))
        (0 ∷ 1 ∷ 2 ∷ 3 ∷ []) ≡ Some 2 ∷ Some 2 ∷ Some 2 ∷ Some 1 ∷ [] }
    ensures prune_a { map (λ k. first_failed (prune_conditions at_several_places 1 k))
        (0 ∷ 1 ∷ 2 ∷ 3 ∷ 4 ∷ []) ≡ Some 2 ∷ None ∷ Some 2 ∷ None ∷ Some 1 ∷ [] }
    ensures prune_none { first_failed (prune_conditions at_several_places 3 0) ≡ Some 1 }
    ensures settle_run { map (λ k. first_failed (settle_conditions at_several_places 0 k))
        (0 ∷ 1 ∷ 2 ∷ 3 ∷ []) ≡ Some 3 ∷ Some 2 ∷ Some 3 ∷ Some 1 ∷ [] }
    ensures settle_a { map (λ k. first_failed (settle_conditions at_several_places 1 k))
        (0 ∷ 1 ∷ 2 ∷ 3 ∷ 4 ∷ []) ≡ Some 3 ∷ Some 3 ∷ None ∷ Some 3 ∷ Some 1 ∷ [] }
    ensures settle_none { first_failed (settle_conditions at_several_places 3 0) ≡ Some 1 }
{}

/// Vertices are reached over edges of each kind, also those that are never taken, as far as they
/// go.
// RUN: the first; A: over an edge whose condition is `false`; B, C, D: each over one that cancels
// in another way, from the vertex after it; SEEN: watched, and NEXT from there; FAR and LOST:
// though they lead to others, and to themselves.
pub fn vertices_are_reached_as_far_as_edges_go()
    ensures marks { reached_marks led
        ≡ true ∷ false ∷ true ∷ true ∷ true ∷ true ∷ true ∷ true ∷ false ∷ [] }
    ensures others { unreached led ≡ 1 ∷ 8 ∷ [] }
    ensures all { unreached led_alone ≡ [] }
{}

/// The list of a drop has all that can't be reached, and no other, in order; what stays is numbered
/// anew, in edges and in the watch list.
pub fn drops_list_all()
    ensures all { first_failed (drop_conditions led (1 ∷ 8 ∷ [])) ≡ None }
    ensures one_less { first_failed (drop_conditions led (1 ∷ [])) ≡ Some 2 }
    ensures one_more { first_failed (drop_conditions led (1 ∷ 2 ∷ 8 ∷ [])) ≡ Some 2 }
    ensures turned { first_failed (drop_conditions led (8 ∷ 1 ∷ [])) ≡ Some 2 }
    ensures none { first_failed (drop_conditions led_alone []) ≡ Some 1 }
    ensures result { dropped led (1 ∷ 8 ∷ []) ≡ led_alone }
{}
