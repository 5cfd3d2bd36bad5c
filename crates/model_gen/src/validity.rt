//! The law that made models are valid.

ghost use Rattle.std.specs.Prelude.{ℕ, ◌≤◌};
ghost use Rattle.model_core.specs.Static.Reading.{IsValid};
ghost use Rattle.model_gen.specs.Generated.{generated};

use round_trip::validity_is_by_parts;

/// The model that a number makes is valid.
pub fn generated_models_are_valid()
    ensures { (seed vertices : ℕ) → 1 ≤ vertices → vertices ≤ 500
        → IsValid (generated seed vertices) }
{
    validity_is_by_parts();
}
