//! The laws of normal forms. The functions have empty bodies, or call the laws on which they rest: what they ensure holds of all
//! models.

ghost use Rattle.std.specs.Prelude.{◌≡◌, true};
ghost use Rattle.model_core.specs.EventGraph.{EventGraph};
ghost use Rattle.model_core.specs.Run.Same.{Same};
ghost use Rattle.model_core.specs.Rules.SameGraph.{same_graph};
ghost use Rattle.model_core.specs.Static.Reading.{IsValid};
ghost use Rattle.alike_laws.specs.DeclaredAlike.{DeclaredAlike};
ghost use Rattle.alike_laws.specs.AreAlike.{AreAlike};
ghost use Rattle.alike_laws.specs.Nameless.{nameless};
ghost use Rattle.normal_form.specs.Normal.{Round, Normal};

use alike_laws::{meaning_alike_is_an_equivalence, models_with_one_form_are_alike};
use range_infer::narrowed_models_mean_the_same;
use reducer::{strategies_are_determined, strategies_end, strategies_keep_the_meaning};
use round_trip::validity_is_by_parts;
use run_laws::sameness_is_a_preorder;
use twin_rules::fusing_ends;

/// From each valid model a round leads to exactly one, which is valid, means the same and declares the same.
pub fn rounds_keep_the_meaning()
    ensures exists { (g : EventGraph) → IsValid g → (h : EventGraph) × Round g h }
    ensures determined { (g h k : EventGraph) → Round g h → Round g k → h ≡ k }
    ensures valid { (g h : EventGraph) → IsValid g → Round g h → IsValid h }
    ensures same { (g h : EventGraph) → IsValid g → Round g h → Same g h }
    ensures declared { (g h : EventGraph) → IsValid g → Round g h → DeclaredAlike g h }
{
    narrowed_models_mean_the_same();
    strategies_keep_the_meaning();
    strategies_are_determined();
    strategies_end();
    fusing_ends();
    sameness_is_a_preorder();
    validity_is_by_parts();
}

/// Each valid model has exactly one normal form, which is valid, means the same and declares the same.
pub fn normal_forms_keep_the_meaning()
    ensures exists { (g : EventGraph) → IsValid g → (h : EventGraph) × Normal g h }
    ensures determined { (g h k : EventGraph) → Normal g h → Normal g k → h ≡ k }
    ensures valid { (g h : EventGraph) → IsValid g → Normal g h → IsValid h }
    ensures same { (g h : EventGraph) → IsValid g → Normal g h → Same g h }
    ensures declared { (g h : EventGraph) → IsValid g → Normal g h → DeclaredAlike g h }
{
    rounds_keep_the_meaning();
    sameness_is_a_preorder();
}

/// Valid models that declare the same are alike if their normal forms are equal but for names.
pub fn models_with_one_normal_form_are_alike()
    ensures { (g h one other : EventGraph) → IsValid g → IsValid h → Normal g one → Normal h other
        → same_graph (nameless one) (nameless other) ≡ true → DeclaredAlike g h → AreAlike g h }
{
    normal_forms_keep_the_meaning();
    meaning_alike_is_an_equivalence();
    models_with_one_form_are_alike();
}
