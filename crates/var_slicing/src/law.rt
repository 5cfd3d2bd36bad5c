//! The laws of slice. The functions do nothing: what they ensure holds of all models.

ghost use Rattle.std.specs.Prelude.{◌≡◌, ◌↔◌, ℕ, true, None, List};
ghost use Rattle.model_core.specs.EventGraph.{EventGraph};
ghost use Rattle.model_core.specs.Run.Same.{Same};
ghost use Rattle.model_core.specs.Static.Reading.{IsValid};
ghost use Rattle.model_core.specs.Rules.Conditions.{first_failed};
ghost use Rattle.model_core.specs.Rules.MarkedPlaces.{is_marked};
ghost use Rattle.model_core.specs.Rules.Needed.{needed_marks};
ghost use Rattle.model_core.specs.Rules.LeastRelations.{Needed};
ghost use Rattle.model_core.specs.Rules.Prune.{first_prune};
ghost use Rattle.model_core.specs.Rules.Settle.{first_settle};
ghost use Rattle.model_core.specs.Rules.Slice.{slice_conditions, sliced};

use range_bounds::quiet_parts_have_no_fault;
use round_trip::validity_is_by_parts;

/// Where no condition of slice fails on a valid model, the result is valid and means the same.
pub fn slicing_keeps_the_meaning()
    ensures valid { (g : EventGraph) (variables : List ℕ) → IsValid g
        → first_failed (slice_conditions g variables) ≡ None
        → IsValid (sliced g variables) }
    ensures same { (g : EventGraph) (variables : List ℕ) → IsValid g
        → first_failed (slice_conditions g variables) ≡ None
        → Same g (sliced g variables) }
{
    validity_is_by_parts();
    quiet_parts_have_no_fault();
}

/// The variables that passes mark are exactly those that are needed.
pub fn marks_are_of_needed_variables()
    ensures { (g : EventGraph) (variable : ℕ)
        → (is_marked (needed_marks g) variable ≡ true) ↔ Needed g variable }
{}

/// A slice leaves the edges that can be pruned or settled as they were: it takes nothing away that their conditions read,
/// and leaves the ranges.
pub fn slicing_leaves_the_rules_of_edges()
    ensures prune { (g : EventGraph) (variables : List ℕ) → IsValid g
        → first_failed (slice_conditions g variables) ≡ None
        → first_prune (sliced g variables) ≡ first_prune g }
    ensures settle { (g : EventGraph) (variables : List ℕ) → IsValid g
        → first_failed (slice_conditions g variables) ≡ None
        → first_settle (sliced g variables) ≡ first_settle g }
{
    validity_is_by_parts();
}
