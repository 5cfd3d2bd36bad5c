//! What variables take under given ranges, and what they keep of it.
#![tactic(auto, unfolding(model_core::specs::Rules::BoundsTable::exact_bounds, model_core::specs::Rules::BoundsTable::least_of, model_core::specs::Rules::BoundsTable::greatest_of))]

ghost use Rattle.std.specs.Prelude.{◌≡◌, ◌∷◌, [], pos, neg_ℤ, map, Some, None};
ghost use Rattle.model_core.specs.EventGraph.{Scalar, Binary, Below, Above, ByTable, Drawn, Schedule};
ghost use Rattle.model_core.specs.Ranges.Incoming.{assigned, into_edge, incoming, kept_range};
ghost use Rattle.worked_runs.specs.Building.{clipped, array, whole, plain_edge, schedule, only_if};
ghost use Rattle.worked_runs.specs.BoundedModel.{bounded_by};
ghost use Rattle.worked_rules.specs.RangedModels.{span, five_kinds, fed, n_and_m, takes_in, bounds_between};

/// All that is set, drawn and carried into variables.
// In turn: both targets of a `set`, each by its own right side; an `if` under what its condition
// leaves; an array, by a cell; a draw from a range and one from a table; what an urgent edge
// carries, both values, under what its condition leaves; what a scheduling edge carries; what one
// carries whose condition may fault. Nothing of an edge whose condition can't be true, nor of the
// three that cancel. Last, of the second vertex.
pub fn variables_take_values()
    ensures declared { incoming fed []
        ≡ takes_in 0 (pos 1) (pos 10) ∷ takes_in 1 (neg_ℤ (pos 5)) (pos 7)
        ∷ takes_in 0 (pos 0) (pos 4)
        ∷ takes_in 2 (pos 7) (pos 7)
        ∷ takes_in 0 (pos 2) (pos 5)
        ∷ takes_in 2 (neg_ℤ (pos 2)) (pos 9)
        ∷ takes_in 3 (pos 0) (pos 4) ∷ takes_in 4 (neg_ℤ (pos 5)) (pos 7)
        ∷ takes_in 3 (pos 1) (pos 1) ∷ takes_in 4 (pos 2) (pos 2)
        ∷ takes_in 3 (pos 8) (pos 8) ∷ takes_in 4 (pos 0) (pos 9)
        ∷ takes_in 1 (pos 0) (pos 281474976710656)
        ∷ [] }
    ensures given { incoming fed (span 6 8 ∷ span 1 1 ∷ [])
        ≡ takes_in 0 (pos 7) (pos 9) ∷ takes_in 1 (pos 1) (pos 1)
        ∷ takes_in 0 (pos 2) (pos 2)
        ∷ takes_in 2 (pos 7) (pos 7)
        ∷ takes_in 0 (pos 2) (pos 5)
        ∷ takes_in 2 (neg_ℤ (pos 2)) (pos 9)
        ∷ takes_in 3 (pos 1) (pos 1) ∷ takes_in 4 (pos 2) (pos 2)
        ∷ takes_in 3 (pos 8) (pos 8) ∷ takes_in 4 (pos 6) (pos 8)
        ∷ takes_in 1 (pos 0) (pos 281474976710656)
        ∷ [] }
{}

/// What an edge carries in time is taken too: where its condition can be true, under what that
/// leaves; after a delay that is an expression, and after a drawn one.
pub fn values_are_carried_in_time()
    ensures after_a_delay { into_edge fed n_and_m
        (only_if (Binary Below (Scalar 0) (whole 5))
        (record (schedule 1 (Scalar 0)) { values = Scalar 0 ∷ Scalar 1 ∷ [] }))
        ≡ takes_in 3 (pos 0) (pos 4) ∷ takes_in 4 (neg_ℤ (pos 5)) (pos 7) ∷ [] }
    ensures after_a_draw { into_edge fed n_and_m
        (only_if (Binary Above (Scalar 0) (whole 5))
        (plain_edge (Schedule (Drawn 54 (ByTable 0)) 5) 1 (Scalar 0 ∷ whole 3 ∷ [])))
        ≡ takes_in 3 (pos 6) (pos 9) ∷ takes_in 4 (pos 3) (pos 3) ∷ [] }
    ensures never { into_edge fed n_and_m
        (only_if (Binary Above (Scalar 0) (whole 9))
        (record (schedule 1 (Scalar 0)) { values = Scalar 0 ∷ Scalar 1 ∷ [] })) ≡ [] }
{}

/// A variable that clips keeps the nearest declared number at each end, and any other what lies in
/// its declared range, if anything does.
// inside; below, with an end inside, at the end, beyond; above likewise; on both sides.
pub fn variables_keep_some()
    ensures clips { map (kept_range (clipped (bounded_by [] (pos 0) (pos 9)))) bounds_between
        ≡ Some (span 3 5) ∷ Some (span 0 4) ∷ Some (span 0 0) ∷ Some (span 0 0) ∷ Some (span 4 9)
        ∷ Some (span 9 9) ∷ Some (span 9 9) ∷ Some (span 0 9) ∷ [] }
    ensures clips_cells { map
        (kept_range (array 3 (clipped (bounded_by [] (pos 0) (pos 9))))) bounds_between
        ≡ Some (span 3 5) ∷ Some (span 0 4) ∷ Some (span 0 0) ∷ Some (span 0 0) ∷ Some (span 4 9)
        ∷ Some (span 9 9) ∷ Some (span 9 9) ∷ Some (span 0 9) ∷ [] }
    ensures keeps { map (kept_range (bounded_by [] (pos 0) (pos 9))) bounds_between
        ≡ Some (span 3 5) ∷ Some (span 0 4) ∷ Some (span 0 0) ∷ None ∷ Some (span 4 9)
        ∷ Some (span 9 9) ∷ None ∷ Some (span 0 9) ∷ [] }
{}

/// If there are fewer values than variables, or more, those are taken that are side by side.
pub fn values_are_taken_side_by_side()
    ensures fewer { assigned five_kinds (0 ∷ 1 ∷ []) (whole 3 ∷ [])
        ≡ takes_in 0 (pos 3) (pos 3) ∷ [] }
    ensures more { assigned five_kinds (0 ∷ []) (whole 3 ∷ whole 4 ∷ [])
        ≡ takes_in 0 (pos 3) (pos 3) ∷ [] }
    ensures both { assigned five_kinds (0 ∷ 1 ∷ []) (whole 3 ∷ whole 4 ∷ [])
        ≡ takes_in 0 (pos 3) (pos 3) ∷ takes_in 1 (pos 4) (pos 4) ∷ [] }
{}
