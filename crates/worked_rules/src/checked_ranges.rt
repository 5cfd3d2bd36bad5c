//! Which ranges fit a model and are inductive, half by half, and the model that declares them.
#![tactic(auto, unfolding(model_core::specs::Rules::BoundsTable::exact_bounds))]

ghost use Rattle.std.specs.Prelude.{◌≡◌, ◌∷◌, [], pos, neg_ℤ};
ghost use Rattle.model_core.specs.Ranges.Inductive.{FitsVariable, Fitting, Inductive, Suffices};
ghost use Rattle.model_core.specs.Ranges.OtherRanges.{model_with_ranges};
ghost use Rattle.model_core.specs.Ranges.Narrowed.{IsNarrowed, with_ranges_if_short};
ghost use Rattle.worked_runs.specs.NarrowModel.{range};
ghost use Rattle.worked_rules.specs.RangedModels.{span, checked_model, with_two, long_checked};

/// A range of a variable isn't empty and lies in the declared one, and is that one where the
/// variable's range stays.
// empty; below, above: each end; shorter: at each end, of the first vertex's parameter; both ends
// at once may be where the declared ones are.
pub fn ranges_fit_variables()
    ensures one { FitsVariable checked_model 1 (span 9 9) }
    ensures whole { FitsVariable checked_model 1 (span 0 9) }
    ensures empty { FitsVariable checked_model 1 (span 5 4) → ⊥ }
    ensures below { FitsVariable checked_model 1 (range (neg_ℤ (pos 1)) (pos 4)) → ⊥ }
    ensures above { FitsVariable checked_model 1 (span 4 10) → ⊥ }
    ensures declared { FitsVariable checked_model 0 (span 0 9) }
    ensures shorter_above { FitsVariable checked_model 0 (span 0 8) → ⊥ }
    ensures shorter_below { FitsVariable checked_model 0 (span 1 9) → ⊥ }
{}

/// There is a range for each variable, and each fits.
pub fn ranges_fit_models()
    ensures all { Fitting checked_model (with_two (span 2 5) (span 3 3)) }
    ensures one_less { Fitting checked_model (span 0 9 ∷ span 2 5 ∷ []) → ⊥ }
    ensures one_more { Fitting checked_model (span 0 9 ∷ span 2 5 ∷ span 3 3 ∷ span 3 3 ∷ []) → ⊥ }
    ensures the_last_outside { Fitting checked_model (with_two (span 2 5) (span 3 10)) → ⊥ }
{}

/// Each range holds what its variable begins with and what it takes, at both ends.
// begins: M is 3; takes: N takes 2, and up to one above what is below 5 of its range.
pub fn ranges_hold_what_is_taken()
    ensures all { Inductive checked_model (with_two (span 2 5) (span 3 3)) }
    ensures begins_below { Inductive checked_model (with_two (span 2 5) (span 4 9)) → ⊥ }
    ensures begins_above { Inductive checked_model (with_two (span 2 5) (span 0 2)) → ⊥ }
    ensures takes_less { Inductive checked_model (with_two (span 3 5) (span 3 3)) → ⊥ }
    ensures takes_more { Inductive checked_model (with_two (span 2 4) (span 3 3)) → ⊥ }
{}

/// So it is asked of one variable, whatever the others are.
pub fn one_range_holds_what_is_taken()
    ensures begins { Suffices checked_model (with_two (span 3 5) (span 3 3)) 2 }
    ensures begins_below { Suffices checked_model (with_two (span 2 5) (span 4 9)) 2 → ⊥ }
    ensures begins_above { Suffices checked_model (with_two (span 2 5) (span 0 2)) 2 → ⊥ }
    ensures takes { Suffices checked_model (with_two (span 2 5) (span 4 9)) 1 }
    ensures takes_less { Suffices checked_model (with_two (span 3 5) (span 3 3)) 1 → ⊥ }
    ensures takes_more { Suffices checked_model (with_two (span 2 4) (span 3 3)) 1 → ⊥ }
{}

/// The model that declares its inferred ranges, if that isn't too long.
// inferred: S as declared, N and M; the length: as many bytes as a text may have, and one more.
pub fn narrowed_models_have_texts()
    ensures narrowed { IsNarrowed checked_model
        (model_with_ranges checked_model (with_two (span 2 5) (span 3 3))) }
    ensures as_many_bytes { with_ranges_if_short (long_checked 4194181)
        (with_two (span 2 5) (span 3 3))
        ≡ model_with_ranges (long_checked 4194181) (with_two (span 2 5) (span 3 3)) }
    ensures too_many_bytes { with_ranges_if_short (long_checked 4194182)
        (with_two (span 2 5) (span 3 3)) ≡ long_checked 4194182 }
{}
