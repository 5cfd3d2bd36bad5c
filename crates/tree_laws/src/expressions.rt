//! Trees of expressions, with the checks that are noted. The function has an empty body: what it ensures holds of all expressions.

ghost use Rattle.std.specs.Prelude.{◌≡◌, ℕ, pos, Some};
ghost use Rattle.sig_base.specs.declared.fault.FaultKind.{FaultKind};
ghost use Rattle.model_core.specs.EventGraph.{EventGraph, Expression};
ghost use Rattle.model_core.specs.Run.State.{State};
ghost use Rattle.model_core.specs.Run.Value.{value_of};
ghost use Rattle.tree_laws.specs.SumValues.{Valuation};
ghost use Rattle.tree_laws.specs.SumEnds.{Ground};
ghost use Rattle.tree_laws.specs.Meaning.{Meets};
ghost use Rattle.tree_laws.specs.Trees.{CaseTree, tree_value};
ghost use Rattle.tree_laws.specs.Valued.{Noted, Valued, SoFar, valued};
ghost use Rattle.tree_laws.specs.ChecksHold.{Fine, FailedIn, Outcome};
ghost use Rattle.tree_laws.specs.ValuesAgree.{Agrees, TruthsWhereAsked};

/// Under a guard that is 1 an expression has its tree's value, and all checks pass, or its fault is the kind of the first check that
/// fails. Under a guard that is 0 all checks still pass. A check that failed before stays the first that fails.
pub fn expressions_have_the_value_of_their_tree()
    ensures counted { (base : Ground) (v : Valuation) (g : EventGraph) (s : State) (clk : ℕ) (so_far : SoFar) → Meets base v → Agrees v g s clk so_far
        → (e : Expression) → TruthsWhereAsked g s clk e → (guard : CaseTree) (n : Noted) (w : Valued) → valued base g so_far e guard n ≡ Some w
        → Fine v n → tree_value v guard ≡ pos 1 → Outcome v (value_of g s clk e) w }
    ensures idle { (base : Ground) (v : Valuation) (g : EventGraph) (s : State) (clk : ℕ) (so_far : SoFar) → Meets base v → Agrees v g s clk so_far
        → (e : Expression) → TruthsWhereAsked g s clk e → (guard : CaseTree) (n : Noted) (w : Valued) → valued base g so_far e guard n ≡ Some w
        → Fine v n → tree_value v guard ≡ pos 0 → Fine v w.noted }
    ensures failed { (base : Ground) (v : Valuation) (g : EventGraph) (s : State) (clk : ℕ) (so_far : SoFar) → Meets base v → Agrees v g s clk so_far
        → (e : Expression) → TruthsWhereAsked g s clk e → (guard : CaseTree) (n : Noted) (w : Valued) → valued base g so_far e guard n ≡ Some w
        → (f : FaultKind) → FailedIn v f n → FailedIn v f w.noted }
{}
