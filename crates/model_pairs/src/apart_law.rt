//! What it means that two models are found apart. The functions have empty bodies: what they ensure holds of all models.

ghost use Rattle.std.specs.Prelude.{◌≡◌, ℕ, ℤ, List, Some, None};
ghost use Rattle.model_core.specs.EventGraph.{EventGraph};
ghost use Rattle.model_core.specs.Run.History.{look};
ghost use Rattle.alike_laws.specs.DeclaredAlike.{DeclaredAlike};
ghost use Rattle.alike_laws.specs.LooksApart.{LooksApart};
ghost use Rattle.model_pairs.specs.declared.lines_apart.LinesApart.{LinesApart};
ghost use Rattle.model_pairs.specs.declared.line_pair.LinePair.{LinePair};
ghost use Rattle.model_pairs.specs.DeclaredApart.{declared_apart};
ghost use Rattle.model_pairs.specs.RunsApart.{runs_apart};

/// No lines are apart exactly if the models declare the same.
pub fn declared_lines_decide()
    ensures none { (g h : EventGraph) → declared_apart g h ≡ None → DeclaredAlike g h }
    ensures some { (g h : EventGraph) (lines : LinePair) → declared_apart g h ≡ Some lines → ¬ DeclaredAlike g h }
{}

/// If models declare the same and lines of two runs are apart, the looks at these runs are apart.
pub fn lines_apart_are_looks_apart()
    ensures { (g h : EventGraph) → DeclaredAlike g h → (seed until events : ℕ) (starts : List ℤ)
        (lines : LinesApart) → runs_apart g h seed until events starts ≡ Some lines
        → LooksApart (look g seed starts until events) (look h seed starts until events) }
{}
