//! The trees of an event's changes. The function has an empty body: what it ensures holds of all models.

ghost use Rattle.std.specs.Prelude.{◌≡◌, ℕ, IsTrue, List, [], Some};
ghost use Rattle.std.specs.List.{AllByRecursion};
ghost use Rattle.sig_base.specs.declared.fault.FaultKind.{FaultKind};
ghost use Rattle.model_core.specs.EventGraph.{EventGraph, StateChange};
ghost use Rattle.model_core.specs.Run.State.{in_range};
ghost use Rattle.model_core.specs.Run.Value.{in_turn};
ghost use Rattle.model_core.specs.Run.Changes.{ChangeState, make_change};
ghost use Rattle.tree_laws.specs.SumValues.{Valuation};
ghost use Rattle.tree_laws.specs.SumEnds.{Ground};
ghost use Rattle.tree_laws.specs.Meaning.{Meets};
ghost use Rattle.tree_laws.specs.ChecksHold.{FailedIn};
ghost use Rattle.event_laws.specs.Making.{Making, with_words};
ghost use Rattle.event_laws.specs.ChangesMade.{changes_made};
ghost use Rattle.event_laws.specs.ChangesFit.{AlwaysFits};
ghost use Rattle.event_laws.specs.WordsAre.{WordsAre};
ghost use Rattle.event_laws.specs.Follows.{Follows, FollowsResult};

/// From a state in range: if the changes of an event go on, all checks pass and the trees have the values of the state after them;
/// if one of them faults, its fault is the kind of the first check that fails. A check that failed before stays the first.
pub fn trees_of_changes_follow_a_run()
    ensures follows { (v : Valuation) (g : EventGraph) (clk : ℕ) (base : Ground) (seed : ℕ) (taken : List ℕ)
        → Meets (with_words g base []) v
        → (changes : List StateChange) → AllByRecursion (AlwaysFits g clk) changes
        → (d : ChangeState) → IsTrue (in_range g d.state)
        → (m n : Making) → Follows v g clk taken d m
        → changes_made g base changes m ≡ Some n → WordsAre v g seed taken n.words
        → FollowsResult v g clk taken (in_turn (make_change g seed clk) changes d) n }
    ensures failed { (v : Valuation) (g : EventGraph) (base : Ground) (seed : ℕ) (taken : List ℕ)
        → Meets (with_words g base []) v
        → (f : FaultKind) (changes : List StateChange) (m n : Making)
        → changes_made g base changes m ≡ Some n → WordsAre v g seed taken n.words
        → FailedIn v f m.noted → FailedIn v f n.noted }
{}
