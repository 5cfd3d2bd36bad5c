//! The trees of a whole event. The function's clauses hold of all models.

ghost use Rattle.std.specs.Prelude.{◌≡◌, ℕ, IsTrue, List, [], Some};
ghost use Rattle.model_core.specs.EventGraph.{EventGraph, EventVertex};
ghost use Rattle.model_core.specs.Run.State.{State, in_range};
ghost use Rattle.model_core.specs.Run.Pending.{EntryAndRest};
ghost use Rattle.model_core.specs.Run.Step.{occur};
ghost use Rattle.tree_laws.specs.SumValues.{Valuation};
ghost use Rattle.tree_laws.specs.SumEnds.{Ground};
ghost use Rattle.tree_laws.specs.Meaning.{Meets};
ghost use Rattle.event_laws.specs.Making.{Making, with_words};
ghost use Rattle.event_laws.specs.EdgesFit.{VertexFits};
ghost use Rattle.event_laws.specs.EventMade.{EventMade, event_made, done_after_receiving, occur_in_parts, FollowsDone};
ghost use Rattle.event_laws.specs.WordsAre.{WordsAre};
ghost use Rattle.event_laws.specs.Follows.{Follows};

use pair_laws::effects_of_edges;

/// An event receives its values, and then makes its changes and treats its edges. From a state in range: if that goes on, all
/// checks pass, the trees have the values of the state after the event, as many words were taken, and the edges have the event's
/// effects on the pending list; if it faults, its fault is the kind of the first check that fails.
pub fn trees_of_events_follow_a_run()
    ensures occurs { (g : EventGraph) (seed : ℕ) (vertex : EventVertex) (n : EntryAndRest) (s : State) (taken : List ℕ)
        → occur g seed vertex n s taken ≡ occur_in_parts g seed vertex n s taken }
    ensures follows { (v : Valuation) (g : EventGraph) (clk : ℕ) (base : Ground) (seed : ℕ) (taken : List ℕ)
        → Meets (with_words g base []) v
        → (vertex : EventVertex) → VertexFits g clk vertex
        → (received : State) → IsTrue (in_range g received)
        → (m : Making) → Follows v g clk taken (record { state = received; taken = taken }) m
        → (e : EventMade) → event_made g base vertex m ≡ Some e → WordsAre v g seed taken e.words
        → FollowsDone v g clk taken (done_after_receiving g seed vertex clk received taken) e }
{
    effects_of_edges();
}
