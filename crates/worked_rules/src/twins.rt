//! Fuse, half by half: which condition fails, what it gives, which pair is the first, and where
//! fusing ends.

ghost use Rattle.std.specs.Prelude.{◌≡◌, ◌∷◌, [], true, false, map, replicate, Some, None};
ghost use Rattle.model_core.specs.EventGraph.{EventGraph, WatchedVariable, WatchedVertex, CancelNext, CancelEqual, CancelAll, Fixed, Schedule, Urgent};
ghost use Rattle.model_core.specs.Rules.Conditions.{first_failed};
ghost use Rattle.model_core.specs.Rules.Fuse.{fuse_conditions, fused, first_twins, same_changes, same_edges_for, Fused};
ghost use Rattle.worked_runs.specs.Building.{plain_edge, set, whole, urgent, plus_one};
ghost use Rattle.worked_rules.specs.TwinHalves.{to, apart_twins, last_and_mid, two_that_take, one_that_takes, cut_by_the_last, rich_changes, rich_edges, rich_twins, one_rich, changes_apart_by_one, edges_apart_by_one, two_pairs, three_alike, alone, long_twins};

/// Two vertices that take values, of which edges carry some to each, are fused: all that named the
/// second names the first, and the vertices after it move up by one, in edges and in the watch
/// list.
// takes: with parameters, with watched vertices between and after; result: RUN's edges to KEEP, to
// GONE, to RUN, to MID and to LAST; KEEP's own, MID's to GONE; LAST's to itself, and its place in
// the watch list; a watched variable, and a watched vertex ahead of GONE, stay.
pub fn two_become_one()
    ensures takes { first_failed (fuse_conditions two_that_take 1 3) ≡ None }
    ensures result { fused two_that_take 1 3 ≡ one_that_takes }
{}

/// Each half of a condition fails alone.
// 1: the first must be ahead of the second, and the second exist; 2: either is watched; 3: either
// is cancelled, in
// each way, and those of another vertex may be; 4: another parameter, one less, the other order,
// other changes; 5: other edges, of the vertices between and after; those of a third vertex don't
// count.
pub fn each_half_of_fuse_fails_alone()
    ensures backwards { first_failed (fuse_conditions two_that_take 3 1) ≡ Some 1 }
    ensures itself { first_failed (fuse_conditions two_that_take 1 1) ≡ Some 1 }
    ensures last_vertex { first_failed (fuse_conditions two_that_take 1 4) ≡ Some 2 }
    ensures no_vertex { first_failed (fuse_conditions two_that_take 1 5) ≡ Some 1 }
    ensures keep_watched { first_failed
        (fuse_conditions (apart_twins (WatchedVertex 1 ∷ []) (0 ∷ 1 ∷ []) []) 1 3) ≡ Some 2 }
    ensures gone_watched { first_failed
        (fuse_conditions
        (apart_twins (WatchedVariable 1 ∷ WatchedVertex 3 ∷ []) (0 ∷ 1 ∷ []) []) 1 3) ≡ Some 2 }
    ensures keep_cancelled { map
        (λ kind. first_failed (fuse_conditions (cut_by_the_last (plain_edge kind 1 [])) 1 3))
        (CancelNext ∷ CancelEqual ∷ CancelAll ∷ Urgent ∷ [])
        ≡ Some 3 ∷ Some 3 ∷ Some 3 ∷ None ∷ [] }
    ensures gone_cancelled { map
        (λ kind. first_failed (fuse_conditions (cut_by_the_last (plain_edge kind 3 [])) 1 3))
        (CancelNext ∷ CancelEqual ∷ CancelAll ∷ Urgent ∷ [])
        ≡ Some 3 ∷ Some 3 ∷ Some 3 ∷ None ∷ [] }
    ensures other_cancelled { map
        (λ kind. first_failed (fuse_conditions (cut_by_the_last (plain_edge kind 2 [])) 1 3))
        (CancelNext ∷ CancelEqual ∷ CancelAll ∷ [])
        ≡ None ∷ None ∷ None ∷ [] }
    ensures parameters { map
        (λ parameters. first_failed (fuse_conditions (apart_twins last_and_mid parameters []) 1 3))
        ((0 ∷ []) ∷ (0 ∷ 0 ∷ []) ∷ (1 ∷ 0 ∷ []) ∷ (0 ∷ 1 ∷ 1 ∷ []) ∷ [])
        ≡ Some 4 ∷ Some 4 ∷ Some 4 ∷ Some 4 ∷ [] }
    ensures changes { first_failed (fuse_conditions two_pairs 1 2) ≡ Some 4 }
    ensures other_edges { first_failed (fuse_conditions (apart_twins [] (0 ∷ 1 ∷ []) []) 2 4)
        ≡ Some 5 }
    ensures edges_of_another { first_failed (fuse_conditions (cut_by_the_last (urgent 1)) 1 3)
        ≡ None }
{}

/// Two vertices with each feature of the language are fused, and are not where one thing of one of
/// them is another.
// changes: of a draw the stream, both ends and the variable; of one by a table the index, whether
// there is one, the stream, the table, and a range for a table; of a `set` the index, the second
// target, one less, each right side. edges: of a drawn delay the stream, both ends, the priority,
// the condition, the value, a delay that isn't drawn, a table; each cancel as each other one, with
// other values and without; one that is never taken as one that is, to another vertex, in time.
pub fn rich_vertices_are_fused_where_they_are_equal()
    ensures equal { first_failed (fuse_conditions (rich_twins rich_changes rich_edges) 1 2) ≡ None }
    ensures result { fused (rich_twins rich_changes rich_edges) 1 2 ≡ one_rich }
    ensures changes { map
        (λ changes. first_failed
        (fuse_conditions (rich_twins changes rich_edges) 1 2)) changes_apart_by_one
        ≡ replicate 14 (Some 4) }
    ensures edges { map
        (λ edges. first_failed
        (fuse_conditions (rich_twins rich_changes edges) 1 2)) edges_apart_by_one
        ≡ replicate 19 (Some 5) }
{}

/// Changes are the same one by one, as many and in order. Edges are too, where what names either
/// vertex of the two names one.
// changes: one less, one more, another order; edges: of the one and of the other in each of the
// four ways; to a third and a fourth vertex; one less; another order; another priority.
pub fn lists_are_the_same()
    ensures no_change { same_changes [] [] ≡ true }
    ensures changes { map
        (λ changes. same_changes (set 0 (plus_one 0) ∷ set 1 (whole 2) ∷ []) changes)
        ((set 0 (plus_one 0) ∷ set 1 (whole 2) ∷ []) ∷ (set 0 (plus_one 0) ∷ [])
        ∷ (set 0 (plus_one 0) ∷ set 1 (whole 2) ∷ set 1 (whole 2) ∷ [])
        ∷ (set 1 (whole 2) ∷ set 0 (plus_one 0) ∷ []) ∷ [])
        ≡ true ∷ false ∷ false ∷ false ∷ [] }
    ensures edges { map (λ edges. same_edges_for 1 3 (to 1 ∷ to 3 ∷ to 2 ∷ []) edges)
        ((to 1 ∷ to 1 ∷ to 2 ∷ []) ∷ (to 3 ∷ to 3 ∷ to 2 ∷ []) ∷ (to 3 ∷ to 1 ∷ to 2 ∷ [])
        ∷ (to 1 ∷ to 3 ∷ to 4 ∷ []) ∷ (to 1 ∷ to 3 ∷ to 1 ∷ []) ∷ (to 1 ∷ to 3 ∷ to 3 ∷ [])
        ∷ (to 1 ∷ to 3 ∷ []) ∷ (to 1 ∷ to 2 ∷ to 3 ∷ [])
        ∷ (to 1 ∷ to 3 ∷ plain_edge (Schedule (Fixed (whole 1)) 6) 2 [] ∷ []) ∷ [])
        ≡ true ∷ true ∷ true ∷ false ∷ false ∷ false ∷ false ∷ false ∷ false ∷ [] }
{}

/// The first pair is the first by the one that is kept, and then by the other; the first vertex may
/// be one.
pub fn the_first_pair_is_taken()
    ensures by_the_first { first_twins two_pairs ≡ Some (1, 4) }
    ensures then_by_the_second { first_twins three_alike ≡ Some (0, 1) }
    ensures with_parameters { first_twins two_that_take ≡ Some (1, 3) }
    ensures none { first_twins alone ≡ None }
{}

/// Condition 6 is that the result isn't too long: it may have as many bytes as a text may have, and
/// no more.
pub fn fused_models_have_texts()
    ensures as_many_bytes { first_failed (fuse_conditions (long_twins 4194182) 0 1) ≡ None }
    ensures too_many_bytes { first_failed (fuse_conditions (long_twins 4194183) 0 1) ≡ Some 6 }
{}

/// Fusing goes on as long as there are twins, and ends where there are none.
pub fn fusing_goes_on()
    ensures twice { Fused three_alike alone }
    ensures none_left { (g h : EventGraph) → Fused g h → first_twins h ≡ None }
{}
