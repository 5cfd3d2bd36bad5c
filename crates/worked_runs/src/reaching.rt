//! The moments that steps reach.

ghost use Rattle.std.specs.Prelude.{◌≡◌, [], ◌∷◌, Some, None};
ghost use Rattle.model_core.specs.Run.Machine.{At, Stopped};
ghost use Rattle.model_core.specs.Run.History.{start, look_from, reached_from};
ghost use Rattle.worked_runs.specs.Building.{scalars, showing};
ghost use Rattle.worked_runs.specs.Models.{clock, strict_clock};
ghost use Rattle.worked_runs.specs.Moments.{counted_to};

/// Steps that go on lead to a moment, from which a look goes on. A run that is over leads nowhere.
pub fn steps_reach_moments()
    ensures two_steps { reached_from clock 42 12 2 (start clock [])
        ≡ Some (record { notes = At 0 (scalars (1 ∷ [])) ∷ []; moment = counted_to 5 2 1 }) }
    ensures from_there { look_from clock 42 12 10 (counted_to 5 2 1)
        ≡ showing (At 5 (scalars (2 ∷ [])) ∷ At 10 (scalars (3 ∷ [])) ∷ []) Stopped }
    ensures not_past_the_end { reached_from clock 42 12 4 (start clock []) ≡ None }
    ensures not_past_a_fault { reached_from strict_clock 42 100 4 (start strict_clock []) ≡ None }
{}
