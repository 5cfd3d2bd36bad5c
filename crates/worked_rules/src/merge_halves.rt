//! Merge, half by half: each part of a condition fails alone, and the result has each part in its
//! place.
#![tactic(auto, unfolding(model_core::specs::Rules::BoundsTable::exact_bounds))]

ghost use Rattle.std.specs.Prelude.{◌≡◌, ◌∷◌, [], pos, map, Some, None, codes};
ghost use Rattle.model_core.specs.EventGraph.{WatchedVariable, WatchedVertex, Scalar, Uniform, Drawn, Schedule, CancelNext, CancelEqual, CancelAll};
ghost use Rattle.model_core.specs.Rules.Conditions.{first_failed};
ghost use Rattle.model_core.specs.Rules.Merge.{merge_conditions, merged, first_merge};
ghost use Rattle.worked_runs.specs.Building.{whole, set, draw, schedule, urgent, only_if, positive, event, plain_edge, one_over_zero};
ghost use Rattle.worked_runs.specs.MergingModels.{giving};
ghost use Rattle.worked_rules.specs.UrgentModels.{followed, first_event, both_events, in_four, run_then, sets_z, with_many_edges};

/// Changes come in turn: those of the first, a `set` of what it gives, and those of the second; and
/// edges: the others of the first, then those of the second. The first keeps its name and its
/// parameters, and the second stays. Without a plain urgent edge nothing changes.
pub fn merged_parts_come_in_turn()
    ensures both { merged (in_four first_event) 1 2 ≡ in_four both_events }
    ensures without_an_edge { merged (in_four first_event) 0 1 ≡ in_four first_event }
{}

/// The first four conditions, and the fifth.
// 1: an edge to itself, and one to no vertex; 2: the second has one, of which two urgent edges are
// none; 3: two of any
// vertex must be exclusive; 4: of the watched, the first may be; 5: each kind of cancelling edge of
// the first, also where it isn't the last edge; one of another vertex may, and one of the first to
// another.
pub fn each_half_of_meeting_at_once_fails_alone()
    ensures itself { first_failed
        (merge_conditions (followed [] (event [] [] (urgent 0 ∷ []) ∷ [])) 0 0) ≡ Some 1 }
    ensures no_vertex { first_failed
        (merge_conditions (followed [] (event [] [] (urgent 1 ∷ []) ∷ [])) 0 1) ≡ Some 1 }
    ensures goes_on { first_failed
        (merge_conditions (run_then [] [] (event [] [] (urgent 2 ∷ []))) 0 1) ≡ Some 2 }
    ensures two_urgent { first_failed
        (merge_conditions (run_then [] [] (event [] [] (only_if (positive 0) (urgent 2) ∷ []))) 0 1)
        ≡ None }
    ensures of_another_vertex { first_failed
        (merge_conditions (run_then [] [] (event [] [] (urgent 2 ∷ urgent 2 ∷ []))) 0 1) ≡ Some 3 }
    ensures next_watched { first_failed
        (merge_conditions (run_then (WatchedVertex 2 ∷ WatchedVertex 1 ∷ []) [] sets_z) 0 1)
        ≡ Some 4 }
    ensures last_watched { first_failed
        (merge_conditions (run_then (WatchedVertex 2 ∷ []) [] sets_z) 0 1) ≡ None }
    ensures cancelled { map
        (λ kind. first_failed
        (merge_conditions
        (run_then [] (plain_edge kind 1 [] ∷ schedule 2 (whole 1) ∷ []) sets_z) 0 1))
        (CancelNext ∷ CancelEqual ∷ CancelAll ∷ []) ≡ Some 5 ∷ Some 5 ∷ Some 5 ∷ [] }
    ensures another_cancelled { map
        (λ kind. first_failed
        (merge_conditions (run_then [] (plain_edge kind 2 [] ∷ []) sets_z) 0 1))
        (CancelNext ∷ CancelEqual ∷ CancelAll ∷ []) ≡ None ∷ None ∷ None ∷ [] }
    ensures by_itself { first_failed
        (merge_conditions (run_then [] [] (event [] [] (plain_edge CancelAll 1 [] ∷ []))) 0 1)
        ≡ None }
{}

/// The sixth condition is about the other edges of the first, each of them, and what the second
/// writes.
// a value, a condition and a delay read what a change writes; the second of two does; what the
// plain edge carries may; an edge of the second may; an edge may fault as the second of two; a
// drawn delay is refused, also of one number, and beside one of the second, which may have one;
// draws of both may be; what is given may fault where nothing is watched.
pub fn each_other_edge_reads_nothing_written()
    ensures value { first_failed
        (merge_conditions
        (run_then [] (record (schedule 2 (whole 1)) { values = Scalar 1 ∷ [] } ∷ []) sets_z) 0 1)
        ≡ Some 6 }
    ensures condition { first_failed
        (merge_conditions
        (run_then [] (only_if (positive 1) (schedule 2 (whole 1)) ∷ []) sets_z) 0 1) ≡ Some 6 }
    ensures condition_of_another { first_failed
        (merge_conditions
        (run_then [] (only_if (positive 0) (schedule 2 (whole 1)) ∷ []) sets_z) 0 1) ≡ None }
    ensures second_delay { first_failed
        (merge_conditions
        (run_then [] (schedule 2 (Scalar 0) ∷ schedule 2 (Scalar 1) ∷ []) sets_z) 0 1) ≡ Some 6 }
    ensures second_fault { first_failed
        (merge_conditions
        (run_then [] (schedule 2 (Scalar 0) ∷ schedule 2 one_over_zero ∷ []) sets_z) 0 1) ≡ Some 6 }
    ensures drawn_delay { map
        (λ choice. first_failed
        (merge_conditions
        (run_then []
        (schedule 2 (whole 1) ∷ plain_edge (Schedule (Drawn 54 choice) 5) 2 [] ∷ []) sets_z) 0 1))
        (Uniform (pos 1) (pos 6) ∷ Uniform (pos 3) (pos 3) ∷ []) ≡ Some 6 ∷ Some 6 ∷ [] }
    ensures drawn_delay_of_the_second { first_failed
        (merge_conditions
        (run_then [] []
        (event [] (set 1 (whole 1) ∷ [])
        (plain_edge (Schedule (Drawn 54 (Uniform (pos 1) (pos 6))) 5) 2 [] ∷ []))) 0 1) ≡ None }
    ensures drawn_delays_of_both { first_failed
        (merge_conditions
        (run_then [] (plain_edge (Schedule (Drawn 53 (Uniform (pos 1) (pos 6))) 5) 2 [] ∷ [])
        (event [] [] (plain_edge (Schedule (Drawn 54 (Uniform (pos 1) (pos 6))) 5) 2 [] ∷ []))) 0 1)
        ≡ Some 6 }
    ensures draws_of_both { first_failed
        (merge_conditions
        (followed []
        (event (codes "RUN") (draw 0 54 1 6 ∷ []) (urgent 1 ∷ [])
        ∷ event (codes "NEXT") (draw 1 54 1 6 ∷ []) [] ∷ [])) 0 1) ≡ None }
    ensures given { first_failed (merge_conditions (giving (Scalar 0) [] []) 0 1) ≡ None }
    ensures given_a_fault { first_failed (merge_conditions (giving one_over_zero [] []) 0 1)
        ≡ None }
    ensures of_the_second { first_failed
        (merge_conditions
        (run_then [] [] (event [] (set 1 (whole 1) ∷ []) (schedule 2 (Scalar 1) ∷ []))) 0 1)
        ≡ None }
{}

/// The seventh: where the first is watched, the second happens unseen.
// a change writes what is watched, or another variable; an edge of the second may fault, in a value
// and in a delay; a change may, the second of two; what is given may; each is none of it where the
// first isn't watched.
pub fn watched_ones_are_followed_unseen()
    ensures writes { map (λ watch. first_failed (merge_conditions (run_then watch [] sets_z) 0 1))
        ((WatchedVertex 0 ∷ WatchedVariable 1 ∷ []) ∷ (WatchedVertex 0 ∷ WatchedVariable 0 ∷ [])
        ∷ (WatchedVariable 1 ∷ []) ∷ []) ≡ Some 7 ∷ None ∷ None ∷ [] }
    ensures at_the_place_of_a_vertex { first_failed
        (merge_conditions
        (run_then (WatchedVertex 0 ∷ []) [] (event [] (set 0 (whole 1) ∷ []) [])) 0 1) ≡ None }
    ensures edges { map
        (λ watch. first_failed
        (merge_conditions
        (run_then watch []
        (event [] [] (schedule 2 (Scalar 0) ∷ schedule 2 one_over_zero ∷ []))) 0 1))
        ((WatchedVertex 0 ∷ []) ∷ [] ∷ []) ≡ Some 7 ∷ None ∷ [] }
    ensures changes { map
        (λ watch. first_failed
        (merge_conditions
        (run_then watch [] (event [] (set 0 (whole 9) ∷ set 0 (whole 10) ∷ []) [])) 0 1))
        ((WatchedVertex 0 ∷ []) ∷ [] ∷ []) ≡ Some 7 ∷ None ∷ [] }
    ensures gives { map
        (λ watch. first_failed (merge_conditions (giving one_over_zero watch []) 0 1))
        ((WatchedVertex 0 ∷ []) ∷ [] ∷ []) ≡ Some 7 ∷ None ∷ [] }
{}

/// The eighth: as many edges as a vertex may have, and one more.
pub fn merged_vertices_have_room()
    ensures as_many_edges { first_failed (merge_conditions (with_many_edges 990 10) 0 1) ≡ None }
    ensures too_many_edges { first_failed (merge_conditions (with_many_edges 990 11) 0 1) ≡ Some 8 }
{}

/// Where two pairs may be merged, the first vertex of the text decides.
pub fn the_first_of_two_merges_is_taken()
    ensures { first_merge
        (followed []
        (event [] [] [] ∷ event [] [] (urgent 3 ∷ []) ∷ event [] [] (urgent 0 ∷ [])
        ∷ event [] [] [] ∷ [])) ≡ Some (1, 3) }
{}
