//! The law that the variables of a run stay in their ranges. The function has an empty body: what it ensures holds of all runs.

ghost use Rattle.std.specs.Prelude.{◌≡◌, ℕ, IsTrue, List, All};
ghost use Rattle.model_core.specs.EventGraph.{EventGraph};
ghost use Rattle.model_core.specs.Run.State.{within, in_range, initial_state};
ghost use Rattle.model_core.specs.Run.Machine.{Note, Goes};
ghost use Rattle.model_core.specs.Run.History.{Moment, next_move};

/// A run begins in range where the initial values lie in their ranges, and a step that goes on stays in range.
pub fn runs_stay_in_range()
    ensures begins { (g : EventGraph) → All (λ v. IsTrue (within v.lo v.hi v.initial)) g.variables
        → IsTrue (in_range g (initial_state g)) }
    ensures goes_on { (g : EventGraph) (seed until : ℕ) (m later : Moment) (notes : List Note)
        → IsTrue (in_range g m.now.state)
        → next_move g seed until m ≡ Goes notes later
        → IsTrue (in_range g later.now.state) }
{}
