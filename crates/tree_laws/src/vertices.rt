//! The begin of a vertex. The function has an empty body: what it ensures holds of all models.

ghost use Rattle.std.specs.Prelude.{ℕ, ◌^◌, ◌≤◌, ℤ, Bool, IsTrue};
ghost use Rattle.model_core.specs.declared.model.Kind.{Kind};
ghost use Rattle.model_core.specs.EventGraph.{EventGraph, Expression};
ghost use Rattle.model_core.specs.Run.State.{State, in_range, initial_state};
ghost use Rattle.model_core.specs.Rules.RangesHold.{TruthsAreDeclared};
ghost use Rattle.model_core.specs.Static.HasKind.{HasKind};
ghost use Rattle.tree_laws.specs.LinearSums.{SumAtom, SumTerms, LinearSum};
ghost use Rattle.tree_laws.specs.Limits.{Interval};
ghost use Rattle.tree_laws.specs.Meaning.{Within, Meets};
ghost use Rattle.tree_laws.specs.Valued.{SoFar};
ghost use Rattle.tree_laws.specs.ValuesAgree.{Agrees, TruthsWhereAsked};
ghost use Rattle.tree_laws.specs.BeginOfVertex.{ground_of, valuation_of, BeginsWithReads};

/// If a run begins in range, a state in range meets the ends of its model's atoms, the reads of a vertex's begin have the state's values, and expressions have
/// truth values where kinds ask for them.
pub fn states_in_range_meet_the_ends()
    ensures meets { (g : EventGraph) (s : State) (clk : ℕ) → IsTrue (in_range g s) → IsTrue (in_range g (initial_state g)) → clk ≤ 2 ^ 48
        → (received word : ℕ → ℤ) (of_received of_word : ℕ → Interval)
        → (before : SumAtom → SumAtom → Bool) (terms_before : SumTerms → SumTerms → Bool) (sum_before : LinearSum → LinearSum → Bool)
        → ((i : ℕ) → Within (of_received i) (received i)) → ((i : ℕ) → Within (of_word i) (word i))
        → Meets (ground_of g of_received of_word before terms_before sum_before) (valuation_of g s clk received word) }
    ensures begins { (g : EventGraph) (s : State) (clk : ℕ) → IsTrue (in_range g s) → IsTrue (in_range g (initial_state g)) → clk ≤ 2 ^ 48
        → (received word : ℕ → ℤ) (of_received of_word : ℕ → Interval)
        → (before : SumAtom → SumAtom → Bool) (terms_before : SumTerms → SumTerms → Bool) (sum_before : LinearSum → LinearSum → Bool)
        → ((i : ℕ) → Within (of_received i) (received i)) → ((i : ℕ) → Within (of_word i) (word i))
        → (so_far : SoFar) → BeginsWithReads (ground_of g of_received of_word before terms_before sum_before) so_far
        → Agrees (valuation_of g s clk received word) g s clk so_far }
    ensures truths { (g : EventGraph) (s : State) (clk : ℕ) → IsTrue (in_range g s) → clk ≤ 2 ^ 48 → TruthsAreDeclared g.variables
        → (e : Expression) (k : Kind) → HasKind g.variables e k → TruthsWhereAsked g s clk e }
{}
