//! The law that changes leave their result if none of them faults. The function has an empty body: what it ensures holds of all
//! changes.

ghost use Rattle.std.specs.Prelude.{◌≡◌, ℕ, List, Ok};
ghost use Rattle.model_core.specs.EventGraph.{EventGraph, StateChange};
ghost use Rattle.model_core.specs.Run.Value.{in_turn};
ghost use Rattle.model_core.specs.Run.Changes.{ChangeState, make_change};
ghost use Rattle.model_core.specs.Run.LeftByFaults.{left_by_change, left_by_changes};

/// Where no change faults, changes leave their result.
pub fn changes_leave_their_result()
    ensures one { (g : EventGraph) (seed clk : ℕ) (change : StateChange)
        (before after : ChangeState)
        → make_change g seed clk change before ≡ Ok after
        → left_by_change g seed clk change before ≡ after }
    ensures all { (g : EventGraph) (seed clk : ℕ) (changes : List StateChange)
        (before after : ChangeState)
        → in_turn (make_change g seed clk) changes before ≡ Ok after
        → left_by_changes g seed clk changes before ≡ after }
{}
