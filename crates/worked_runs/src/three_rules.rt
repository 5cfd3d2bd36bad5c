//! Prune, settle and drop on small models: which condition fails, what each gives, and the strategy
//! over all three.
#![tactic(auto, unfolding(model_core::specs::Rules::BoundsTable::exact_bounds, model_core::specs::Rules::BoundsTable::least_of, model_core::specs::Rules::BoundsTable::greatest_of))]

ghost use Rattle.std.specs.Prelude.{◌≡◌, true, false, [], ◌∷◌, Some, None, codes};
ghost use Rattle.model_core.specs.Rules.Conditions.{first_failed};
ghost use Rattle.model_core.specs.Rules.Prune.{first_prune, prune_conditions};
ghost use Rattle.model_core.specs.Rules.Settle.{settle_conditions, settled, first_settle};
ghost use Rattle.model_core.specs.Rules.Reached.{reached_marks, unreached};
ghost use Rattle.model_core.specs.Rules.Drop.{drop_conditions, dropped};
ghost use Rattle.model_core.specs.Rules.Reduction.{Prune, Settle, Drop, failed_condition, applied, first_bad, first_rule, Strategy};
ghost use Rattle.model_core.specs.Rules.Certificate.{certificate};
ghost use Rattle.worked_runs.specs.ThreeRules.{narrow, narrow_pruned, narrow_settled, narrow_dropped, faulting, faulting_reduced};
ghost use Rattle.worked_runs.specs.ReachedVertices.{five, three};

/// A condition that the ranges refute may be pruned, and one that can fault may not, though it
/// never holds.
pub fn ranges_refute_conditions()
    ensures refuted { first_failed (prune_conditions narrow 0 0) ≡ None }
    ensures not_quiet { first_failed (prune_conditions faulting 0 0) ≡ Some 2 }
    ensures first { first_prune narrow ≡ Some (0, 0) }
    ensures none { first_prune faulting ≡ None }
{}

/// Condition 1 of settle is that the edge exists, condition 2 that its condition isn't the literal
/// `true`, and condition 3 that it is proved.
pub fn settle_has_conditions()
    ensures holds { first_failed (settle_conditions narrow 0 1) ≡ None }
    ensures no_edge { first_failed (settle_conditions narrow 0 2) ≡ Some 1 }
    ensures no_vertex { failed_condition narrow (Settle (codes "C") 1) ≡ Some 1 }
    ensures literally_true { first_failed (settle_conditions narrow 2 0) ≡ Some 2 }
    ensures not_proved { first_failed (settle_conditions narrow 0 0) ≡ Some 3 }
    ensures result { settled narrow_pruned 0 0 ≡ narrow_settled }
    ensures first { first_settle narrow ≡ Some (0, 1) }
    ensures none { first_settle narrow_settled ≡ None }
{}

/// A vertex is reached over edges of any kind, from the first vertex and from the watched ones.
pub fn vertices_are_reached()
    ensures marks { reached_marks five ≡ true ∷ false ∷ false ∷ true ∷ true ∷ [] }
    ensures others { unreached five ≡ 1 ∷ 2 ∷ [] }
    ensures all { unreached three ≡ [] }
{}

/// Condition 1 of drop is that the list isn't empty, and condition 2 that it lists exactly the
/// vertices that can't be reached, in order. Those that stay are numbered anew.
pub fn drop_has_conditions()
    ensures holds { first_failed (drop_conditions five (1 ∷ 2 ∷ [])) ≡ None }
    ensures empty { first_failed (drop_conditions five []) ≡ Some 1 }
    ensures not_all { first_failed (drop_conditions five (1 ∷ [])) ≡ Some 2 }
    ensures not_in_order { first_failed (drop_conditions five (2 ∷ 1 ∷ [])) ≡ Some 2 }
    ensures too_many { first_failed (drop_conditions five (1 ∷ 2 ∷ 3 ∷ [])) ≡ Some 2 }
    ensures no_vertex { failed_condition five (Drop (codes "LOST" ∷ codes "NONE" ∷ [])) ≡ Some 2 }
    ensures result { dropped five (1 ∷ 2 ∷ []) ≡ three }
    ensures by_names { applied five (Drop (codes "LOST" ∷ codes "GONE" ∷ [])) ≡ Some three }
{}

/// Prune comes before settle, and settle before drop.
pub fn rules_come_in_order()
    ensures prune_first { first_rule narrow ≡ Some (Prune (codes "RUN") 1) }
    ensures then_settle { first_rule narrow_pruned ≡ Some (Settle (codes "RUN") 1) }
    ensures then_drop { first_rule narrow_settled ≡ Some (Drop (codes "B" ∷ [])) }
    ensures then_none { first_rule narrow_dropped ≡ None }
    ensures drops_two { first_rule five ≡ Some (Drop (codes "LOST" ∷ codes "GONE" ∷ [])) }
    ensures bad_in_order { first_bad narrow
        (Prune (codes "RUN") 1 ∷ Drop (codes "B" ∷ []) ∷ Settle (codes "RUN") 2 ∷ []) ≡ Some 3 }
{}

/// The whole reduction of two models.
pub fn three_rules_reduce()
    ensures narrow_one { Strategy narrow
        (Prune (codes "RUN") 1 ∷ Settle (codes "RUN") 1
        ∷ Drop (codes "B" ∷ []) ∷ []) narrow_dropped }
    ensures faulting_one { Strategy faulting
        (Settle (codes "RUN") 2 ∷ Drop (codes "B" ∷ []) ∷ []) faulting_reduced }
{}

/// Each rule has its line.
pub fn applications_have_lines()
    ensures prune_and_settle { certificate (Prune (codes "RUN") 1 ∷ Settle (codes "RUN") 12 ∷ [])
        ≡ codes "certificate\nprune RUN 1\nsettle RUN 12\nend\n" }
    ensures drop { certificate (Drop (codes "B" ∷ codes "C" ∷ []) ∷ [])
        ≡ codes "certificate\ndrop B C\nend\n" }
{}
