//! Fuse on a small model and on others that differ from it in one line: which condition fails, what
//! it gives, and that the runs look the same.

ghost use Rattle.std.specs.Prelude.{◌≡◌, [], ◌∷◌, Some, None};
ghost use Rattle.model_core.specs.EventGraph.{CancelNext, WatchedVariable, WatchedVertex};
ghost use Rattle.model_core.specs.Run.Machine.{At, Stopped};
ghost use Rattle.model_core.specs.Run.History.{look};
ghost use Rattle.model_core.specs.Rules.Conditions.{first_failed};
ghost use Rattle.model_core.specs.Rules.Fuse.{fuse_conditions, fused, first_twins, Fused};
ghost use Rattle.worked_runs.specs.Building.{plain_edge, scalars, showing, x_watched};
ghost use Rattle.worked_runs.specs.TwinModels.{twins_with, twins, one_of_twins, unlike};

/// Condition 1 of fuse is that both vertices exist and the one that is kept comes first; 2 that
/// neither is watched; 3 that no edge cancels either; 4 that they have the same parameters and
/// changes; 5 that they have the same edges once what leads to the one is taken to lead to the
/// other.
pub fn fuse_has_conditions()
    ensures backwards { first_failed (fuse_conditions twins 2 1) ≡ Some 1 }
    ensures itself { first_failed (fuse_conditions twins 1 1) ≡ Some 1 }
    ensures no_vertex { first_failed (fuse_conditions twins 1 3) ≡ Some 1 }
    ensures watched { first_failed
        (fuse_conditions (twins_with (WatchedVariable 0 ∷ WatchedVertex 1 ∷ []) []) 1 2) ≡ Some 2 }
    ensures cancelled { first_failed
        (fuse_conditions (twins_with x_watched (plain_edge CancelNext 2 [] ∷ [])) 1 2) ≡ Some 3 }
    ensures other_changes { first_failed (fuse_conditions twins 0 1) ≡ Some 4 }
    ensures other_edges { first_failed (fuse_conditions unlike 1 2) ≡ Some 5 }
{}

/// Two vertices that schedule each other are twins, and one is left of them. Whatever is watched or
/// cancelled stays.
pub fn twins_are_fused()
    ensures first { first_twins twins ≡ Some (1, 2) }
    ensures result { fused twins 1 2 ≡ one_of_twins }
    ensures then_none { first_twins one_of_twins ≡ None }
    ensures whole { Fused twins one_of_twins }
    ensures not_watched { first_twins (twins_with (WatchedVariable 0 ∷ WatchedVertex 1 ∷ []) [])
        ≡ None }
    ensures not_cancelled { first_twins (twins_with x_watched (plain_edge CancelNext 2 [] ∷ []))
        ≡ None }
{}

/// A run of the model and one of what is left of it look the same.
pub fn fused_runs_look_alike()
    ensures alike { look twins 1 [] 5 99 ≡ look one_of_twins 1 [] 5 99 }
    ensures seen { look one_of_twins 1 [] 5 99
        ≡ showing
        (At 0 (scalars (0 ∷ [])) ∷ At 1 (scalars (1 ∷ [])) ∷ At 2 (scalars (2 ∷ []))
        ∷ At 4 (scalars (3 ∷ []))
        ∷ At 5 (scalars (4 ∷ [])) ∷ []) Stopped }
{}
