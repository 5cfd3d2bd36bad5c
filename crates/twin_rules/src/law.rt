//! The laws of fuse. The functions do nothing: what they ensure holds of all models.

ghost use Rattle.std.specs.Prelude.{◌≡◌, ℕ, None};
ghost use Rattle.model_core.specs.EventGraph.{EventGraph};
ghost use Rattle.model_core.specs.Run.Same.{Same};
ghost use Rattle.model_core.specs.Static.Reading.{IsValid};
ghost use Rattle.model_core.specs.Rules.Conditions.{first_failed};
ghost use Rattle.model_core.specs.Rules.Fuse.{fuse_conditions, fused, first_twins};
ghost use Rattle.model_core.specs.Rules.Fuse.{Fused};

use round_trip::validity_is_by_parts;
use run_laws::sameness_is_a_preorder;

/// Where no condition of fuse fails on a valid model, the result is valid and means the same.
pub fn fusing_keeps_the_meaning()
    ensures valid { (g : EventGraph) (keep gone : ℕ) → IsValid g
        → first_failed (fuse_conditions g keep gone) ≡ None
        → IsValid (fused g keep gone) }
    ensures same { (g : EventGraph) (keep gone : ℕ) → IsValid g
        → first_failed (fuse_conditions g keep gone) ≡ None
        → Same g (fused g keep gone) }
{
    validity_is_by_parts();
}

/// From each model fusing leads to exactly one, in which there are no twins. Of a valid model this is valid and means the
/// same.
pub fn fusing_ends()
    ensures ends { (g : EventGraph) → (h : EventGraph) × Fused g h }
    ensures determined { (g h k : EventGraph) → Fused g h → Fused g k → h ≡ k }
    ensures no_twins { (g h : EventGraph) → Fused g h → first_twins h ≡ None }
    ensures valid { (g h : EventGraph) → IsValid g → Fused g h → IsValid h }
    ensures same { (g h : EventGraph) → IsValid g → Fused g h → Same g h }
{
    fusing_keeps_the_meaning();
    sameness_is_a_preorder();
}
