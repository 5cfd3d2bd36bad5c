//! What it is to mean the same. The function has an empty body: what it ensures holds of all models.

ghost use Rattle.model_core.specs.EventGraph.{EventGraph};
ghost use Rattle.model_core.specs.Run.Same.{Same};
ghost use Rattle.alike_laws.specs.DeclaredAlike.{DeclaredAlike};
ghost use Rattle.alike_laws.specs.AreAlike.{AreAlike};

/// Models that are the same and declare the same are alike, and to be alike is an equivalence.
pub fn meaning_alike_is_an_equivalence()
    ensures same { (g h : EventGraph) → Same g h → DeclaredAlike g h → AreAlike g h }
    ensures reflexive { (g : EventGraph) → AreAlike g g }
    ensures symmetric { (g h : EventGraph) → AreAlike g h → AreAlike h g }
    ensures transitive { (g h k : EventGraph) → AreAlike g h → AreAlike h k → AreAlike g k }
{}
