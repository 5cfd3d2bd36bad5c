//! With which values a run may begin, and which states are in range.

ghost use Rattle.std.specs.Prelude.{◌≡◌, pos, negsuc, true, false, [], ◌∷◌, codes};
ghost use Rattle.model_core.specs.EventGraph.{WatchedVariable};
ghost use Rattle.model_core.specs.Run.State.{in_range};
ghost use Rattle.model_core.specs.Run.Machine.{At, Ended};
ghost use Rattle.model_core.specs.Run.History.{allowed, look};
ghost use Rattle.worked_runs.specs.Building.{ranged, array, event, showing};
ghost use Rattle.worked_runs.specs.Models.{cells};
ghost use Rattle.worked_runs.specs.Pairs.{small, asking};

/// Each variable, and each cell of an array, begins with its initial value.
pub fn runs_begin_with_initial_values()
    ensures { look
        (small (ranged (codes "X") 2 9 5 ∷ array 2 (ranged (codes "A") 3 9 4) ∷ [])
        (WatchedVariable 1 ∷ WatchedVariable 0 ∷ []) (event (codes "RUN") [] [] ∷ []))
        42 [] 100 1000
        ≡ showing (At 0 ((pos 4 ∷ pos 4 ∷ []) ∷ (pos 5 ∷ []) ∷ []) ∷ []) (Ended 0) }
{}

/// There is one starting value for each parameter of the first vertex, in its range.
pub fn starting_values_are_in_range()
    ensures least { allowed (asking (ranged (codes "X") 2 9 5)) (pos 2 ∷ []) ≡ true }
    ensures greatest { allowed (asking (ranged (codes "X") 2 9 5)) (pos 9 ∷ []) ≡ true }
    ensures below { allowed (asking (ranged (codes "X") 2 9 5)) (pos 1 ∷ []) ≡ false }
    ensures far_below { allowed (asking (ranged (codes "X") 2 9 5)) (negsuc 4 ∷ []) ≡ false }
    ensures above { allowed (asking (ranged (codes "X") 2 9 5)) (pos 10 ∷ []) ≡ false }
    ensures none { allowed (asking (ranged (codes "X") 2 9 5)) [] ≡ false }
    ensures too_many { allowed (asking (ranged (codes "X") 2 9 5)) (pos 5 ∷ pos 5 ∷ []) ≡ false }
{}

/// A state in range has as many values of each variable as it declares, all in its range: here a
/// scalar and two cells.
pub fn states_are_in_range()
    ensures all_in_range { in_range (cells []) ((pos 0 ∷ []) ∷ (pos 9 ∷ pos 0 ∷ []) ∷ []) ≡ true }
    ensures last_cell_above { in_range (cells []) ((pos 0 ∷ []) ∷ (pos 0 ∷ pos 10 ∷ []) ∷ [])
        ≡ false }
    ensures scalar_below { in_range (cells []) ((negsuc 0 ∷ []) ∷ (pos 0 ∷ pos 0 ∷ []) ∷ [])
        ≡ false }
    ensures cell_missing { in_range (cells []) ((pos 0 ∷ []) ∷ (pos 0 ∷ []) ∷ []) ≡ false }
    ensures cell_too_many { in_range (cells []) ((pos 0 ∷ []) ∷ (pos 0 ∷ pos 0 ∷ pos 0 ∷ []) ∷ [])
        ≡ false }
    ensures variable_missing { in_range (cells []) ((pos 0 ∷ []) ∷ []) ≡ false }
    ensures variable_too_many { in_range (cells [])
        ((pos 0 ∷ []) ∷ (pos 0 ∷ pos 0 ∷ []) ∷ (pos 0 ∷ []) ∷ []) ≡ false }
{}
