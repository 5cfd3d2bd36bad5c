//! The sum of an event. The function's clause holds of all models.

ghost use Rattle.std.specs.Prelude.{◌≡◌, ℕ, Bool, IsTrue, List, [], Some};
ghost use Rattle.model_core.specs.EventGraph.{EventGraph, EventVertex};
ghost use Rattle.model_core.specs.Run.State.{State, in_range};
ghost use Rattle.tree_laws.specs.SumValues.{Valuation};
ghost use Rattle.tree_laws.specs.SumEnds.{Ground};
ghost use Rattle.tree_laws.specs.Meaning.{Meets};
ghost use Rattle.tree_laws.specs.Trees.{CaseTree};
ghost use Rattle.event_laws.specs.Making.{Making, with_words};
ghost use Rattle.event_laws.specs.EdgesFit.{VertexFits};
ghost use Rattle.event_laws.specs.EdgesMade.{EdgeTrees};
ghost use Rattle.event_laws.specs.EventMade.{EventMade, event_made, done_after_receiving};
ghost use Rattle.event_laws.specs.EventClosed.{EventSum, event_closed};
ghost use Rattle.event_laws.specs.SumFollows.{FollowsSum};
ghost use Rattle.event_laws.specs.WordsAre.{WordsAre};
ghost use Rattle.event_laws.specs.Follows.{Follows};

use crate::events::trees_of_events_follow_a_run;

/// What an event does is what its sum says, from a state in range and once its values are received: if it goes on, all checks pass,
/// the trees have the values of the state after it, as many words were taken, and the edges, which were ordered and joined, have its
/// effects on the pending list; if it faults, its fault is the kind of the first check that fails.
pub fn sums_of_events_follow_a_run()
    ensures { (v : Valuation) (g : EventGraph) (clk : ℕ) (base : Ground) (seed : ℕ) (taken : List ℕ)
        → Meets (with_words g base []) v
        → (vertex : EventVertex) → VertexFits g clk vertex
        → (received : State) → IsTrue (in_range g received)
        → (m : Making) → Follows v g clk taken (record { state = received; taken = taken }) m
        → (e : EventMade) → event_made g base vertex m ≡ Some e → WordsAre v g seed taken e.words
        → (index_less : CaseTree → CaseTree → Bool) (edge_less : EdgeTrees → EdgeTrees → Bool) (n : ℕ)
        → (s : EventSum) → event_closed (with_words g base e.words) index_less edge_less n e ≡ Some s
        → FollowsSum v g clk taken (done_after_receiving g seed vertex clk received taken) s }
{
    trees_of_events_follow_a_run();
}
