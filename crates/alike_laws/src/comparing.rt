//! How two models are compared. The functions have empty bodies: what they ensure holds of all models.

ghost use Rattle.std.specs.Prelude.{◌≡◌, ℕ, ◌^◌, ◌<◌, ◌≤◌, ℤ, IsTrue, List, true};
ghost use Rattle.model_core.specs.EventGraph.{EventGraph};
ghost use Rattle.model_core.specs.Run.History.{allowed, look};
ghost use Rattle.model_core.specs.Rules.SameGraph.{same_graph};
ghost use Rattle.alike_laws.specs.DeclaredAlike.{DeclaredAlike};
ghost use Rattle.alike_laws.specs.AreAlike.{AreAlike};
ghost use Rattle.alike_laws.specs.LooksApart.{LooksApart};
ghost use Rattle.alike_laws.specs.Nameless.{nameless};

use crate::meaning::meaning_alike_is_an_equivalence;
use crate::renaming::names_are_not_seen;

/// Two models that declare the same are alike if they lead to equal forms: each to one that is alike, and these two are equal but
/// for names.
pub fn models_with_one_form_are_alike()
    ensures { (g h one other : EventGraph) → AreAlike g one → AreAlike h other
        → same_graph (nameless one) (nameless other) ≡ true → DeclaredAlike g h → AreAlike g h }
{
    meaning_alike_is_an_equivalence();
    names_are_not_seen();
}

/// Models aren't alike of which two looks with the same seed, starting values and stop time are apart, or that don't declare the
/// same.
pub fn models_apart_are_not_alike()
    ensures looks { (g h : EventGraph) (seed : ℕ) → seed < 2 ^ 64 → (starts : List ℤ)
        → IsTrue (allowed g starts) → (until : ℕ) → until ≤ 2 ^ 48 → (n k : ℕ)
        → LooksApart (look g seed starts until n) (look h seed starts until k) → ¬ AreAlike g h }
    ensures declared { (g h : EventGraph) → ¬ DeclaredAlike g h → ¬ AreAlike g h }
{}
