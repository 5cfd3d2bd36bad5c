//! A bank with one teller, whose customers come after drawn gaps.

ghost use Rattle.std.specs.Prelude.{◌≡◌, pos, [], ◌∷◌};
ghost use Rattle.model_core.specs.Run.Machine.{At, Stopped, Going};
ghost use Rattle.model_core.specs.Run.History.{look};
ghost use Rattle.worked_runs.specs.Building.{scalars, showing};
ghost use Rattle.worked_runs.specs.Models.{bank, smaller_bank};

/// Three events at clock 7 leave the watched values as they were, so there is no note.
#[tactic(auto, unfolding(rand_pcg::specs::Lcg::state_after))]
pub fn bank_serves()
    ensures stops_after_11_steps { look bank 42 (pos 1 ∷ []) 16 11
        ≡ showing
        (At 0 (scalars (0 ∷ 0 ∷ [])) ∷ At 4 (scalars (1 ∷ 0 ∷ [])) ∷ At 12 (scalars (2 ∷ 0 ∷ []))
        ∷ At 14 (scalars (1 ∷ 0 ∷ [])) ∷ At 16 (scalars (2 ∷ 0 ∷ [])) ∷ []) Stopped }
    ensures goes_on_after_10_steps { look bank 42 (pos 1 ∷ []) 16 10
        ≡ showing
        (At 0 (scalars (0 ∷ 0 ∷ [])) ∷ At 4 (scalars (1 ∷ 0 ∷ []))
        ∷ At 12 (scalars (2 ∷ 0 ∷ [])) ∷ [])
        Going }
    ensures smaller_one_needs_10_steps { look smaller_bank 42 (pos 1 ∷ []) 16 10
        ≡ look bank 42 (pos 1 ∷ []) 16 11 }
{}
