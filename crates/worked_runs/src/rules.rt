//! Reductions of a small model: which condition fails, which application is bad, and which rule is
//! first.

ghost use Rattle.std.specs.Prelude.{◌≡◌, [], ◌∷◌, Some, None, codes};
ghost use Rattle.model_core.specs.Rules.Prune.{pruned, prune_conditions, first_prune};
ghost use Rattle.model_core.specs.Rules.Conditions.{first_failed};
ghost use Rattle.model_core.specs.Rules.Reduction.{Prune, failed_condition, applied, first_bad, first_rule, Strategy};
ghost use Rattle.model_core.specs.Rules.Certificate.{certificate};
ghost use Rattle.model_core.specs.Rules.Verdict.{verdict, Sound, Rejected, Differs};
ghost use Rattle.worked_runs.specs.Reductions.{idle, once_pruned, twice_pruned};

/// Condition 1 of prune is that its vertex and edge exist, and condition 2 that the edge's
/// condition is refuted. Edges are counted from 1 in an application.
pub fn conditions_have_numbers()
    ensures none { failed_condition idle (Prune (codes "A") 1) ≡ None }
    ensures not_refuted { failed_condition idle (Prune (codes "RUN") 1) ≡ Some 2 }
    ensures no_edge { failed_condition idle (Prune (codes "A") 4) ≡ Some 1 }
    ensures no_edge_zero { failed_condition idle (Prune (codes "A") 0) ≡ Some 1 }
    ensures no_vertex { failed_condition idle (Prune (codes "B") 1) ≡ Some 1 }
    ensures by_places { first_failed (prune_conditions idle 1 1) ≡ Some 2 }
    ensures no_place { first_failed (prune_conditions idle 2 0) ≡ Some 1 }
{}

/// An application moves later edges up, and the first bad one of a list is counted from 1.
pub fn applications_are_made_in_order()
    ensures result { applied idle (Prune (codes "A") 1) ≡ Some once_pruned }
    ensures refused { applied idle (Prune (codes "RUN") 1) ≡ None }
    ensures edges_move_up { pruned once_pruned 1 1 ≡ twice_pruned }
    ensures no_bad_one { first_bad idle (Prune (codes "A") 1 ∷ Prune (codes "A") 2 ∷ []) ≡ None }
    ensures second_is_bad { first_bad idle (Prune (codes "A") 1 ∷ Prune (codes "A") 1 ∷ [])
        ≡ Some 2 }
    ensures first_is_bad { first_bad idle (Prune (codes "RUN") 1 ∷ Prune (codes "A") 1 ∷ [])
        ≡ Some 1 }
    ensures third_is_bad { first_bad idle
        (Prune (codes "A") 3 ∷ Prune (codes "A") 1 ∷ Prune (codes "A") 3 ∷ []) ≡ Some 3 }
{}

/// The strategy takes the first edge that may be pruned, each time.
pub fn the_first_rule_is_taken()
    ensures place { first_prune idle ≡ Some (1, 0) }
    ensures first { first_rule idle ≡ Some (Prune (codes "A") 1) }
    ensures then { first_rule once_pruned ≡ Some (Prune (codes "A") 2) }
    ensures none_at_the_end { first_rule twice_pruned ≡ None }
    ensures text { certificate (Prune (codes "A") 1 ∷ Prune (codes "A") 2 ∷ [])
        ≡ codes "certificate\nprune A 1\nprune A 2\nend\n" }
{}

/// The whole reduction. It doesn't stop where a rule is left.
pub fn the_strategy_ends()
    ensures whole { Strategy idle (Prune (codes "A") 1 ∷ Prune (codes "A") 2 ∷ []) twice_pruned }
    ensures not_before_its_end { Strategy idle (Prune (codes "A") 1 ∷ []) once_pruned → ⊥ }
{}

/// A reduction is sound where its applications lead to the other model. Else the first bad one is
/// reported, and where none is bad, that they lead elsewhere.
pub fn reductions_are_judged()
    ensures sound { verdict idle (Prune (codes "A") 1 ∷ Prune (codes "A") 2 ∷ []) twice_pruned
        ≡ Sound }
    ensures in_part { verdict idle (Prune (codes "A") 3 ∷ []) (pruned idle 1 2) ≡ Sound }
    ensures rejected { verdict idle (Prune (codes "A") 1 ∷ Prune (codes "A") 1 ∷ []) once_pruned
        ≡ Rejected 2 }
    ensures differs { verdict idle (Prune (codes "A") 1 ∷ []) twice_pruned ≡ Differs }
{}
