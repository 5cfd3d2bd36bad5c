//! The law of summaries. The function does nothing: what it ensures holds of all numbers.

ghost use Rattle.std.specs.Prelude.{◌≡◌, ◌≤◌, ◌<◌, ℕ, List, length};
ghost use Rattle.trial_report.specs.TrialText.{Summarises};

use model_gen::generated_models_are_valid;
use reducer::{strategies_are_determined, strategies_end};

/// Each trial has one summary, which has bytes.
pub fn trials_are_determined()
    ensures exists { (seed vertices until events : ℕ) → 1 ≤ vertices → vertices ≤ 500
        → (out : List ℕ) × Summarises seed vertices until events out }
    ensures one { (seed vertices until events : ℕ) (a b : List ℕ)
        → Summarises seed vertices until events a → Summarises seed vertices until events b
        → a ≡ b }
    ensures has_bytes { (seed vertices until events : ℕ) (out : List ℕ)
        → Summarises seed vertices until events out → 0 < length out }
{
    generated_models_are_valid();
    strategies_are_determined();
    strategies_end();
}
