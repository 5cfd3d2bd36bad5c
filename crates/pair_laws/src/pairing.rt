//! The law of two models whose events do the same by classes. The function has an empty body: what it ensures holds of all models.

ghost use Rattle.std.specs.Prelude.{◌≡◌, ℕ, ◌^◌, ◌≤◌, ℤ, List};
ghost use Rattle.model_core.specs.EventGraph.{EventGraph};
ghost use Rattle.model_core.specs.Run.History.{look};
ghost use Rattle.model_core.specs.Run.Same.{Same};
ghost use Rattle.alike_laws.specs.DeclaredAlike.{DeclaredAlike};
ghost use Rattle.pair_laws.specs.Effects.{Done};
ghost use Rattle.pair_laws.specs.Pairing.{Classes, DoneAgree, PairedAlways, Pairing};
ghost use Rattle.pair_laws.specs.AgreeingEvents.{EventsAgree};

/// Two models that are paired have the same look after each number of steps.
pub fn paired_models_look_the_same()
    ensures { (g h : EventGraph) (k l : Classes) (seed : ℕ) (starts : List ℤ)
        → Pairing g h k l seed starts
        → (until : ℕ) → until ≤ 2 ^ 48 → (n : ℕ) → look g seed starts until n ≡ look h seed starts until n }
{}

/// Events whose edges, ordered and joined on each side, agree one by one do the same.
pub fn agreeing_edges_suffice()
    ensures { (k l : Classes) (d e : Done) → EventsAgree k l d e → DoneAgree k l d e }
{}

/// Where some classes pair two models in each run, and they are declared alike, they are the same.
pub fn paired_models_are_the_same()
    ensures { (g h : EventGraph) → DeclaredAlike g h → PairedAlways g h → Same g h }
{}
