//! The reduction of the bank, to which two rules apply: a merge, and a slice after it.
#![tactic(auto, unfolding(model_core::specs::Rules::BoundsTable::exact_bounds))]

ghost use Rattle.std.specs.Prelude.{◌≡◌, [], ◌∷◌, Some, None, codes};
ghost use Rattle.model_core.specs.Rules.Reduction.{Merge, Slice, failed_condition, first_rule, Strategy};
ghost use Rattle.worked_runs.specs.Models.{bank, smaller_bank};
ghost use Rattle.worked_runs.specs.MergingModels.{bank_merged};

/// Merge comes before slice, also where the slice could be made first.
pub fn merge_comes_before_slice()
    ensures merge_first { first_rule bank ≡ Some (Merge (codes "RUN") (codes "ENTER")) }
    ensures then_slice { first_rule bank_merged ≡ Some (Slice (codes "SEEN" ∷ [])) }
    ensures slice_could_be_first { failed_condition bank (Slice (codes "SEEN" ∷ [])) ≡ None }
    ensures whole { Strategy bank
        (Merge (codes "RUN") (codes "ENTER") ∷ Slice (codes "SEEN" ∷ []) ∷ []) smaller_bank }
    ensures not_slice_first { Strategy bank
        (Slice (codes "SEEN" ∷ []) ∷ Merge (codes "RUN") (codes "ENTER") ∷ []) smaller_bank → ⊥ }
{}
