//! The laws of events that aren't in conflict, and of the priorities that pending events have. The functions do nothing: what they
//! ensure holds of all models.

ghost use Rattle.std.specs.Prelude.{◌≡◌, ℕ, ℤ, false, List, Some, Ok};
ghost use Rattle.std.specs.List.{AllByRecursion};
ghost use Rattle.model_core.specs.EventGraph.{EventGraph};
ghost use Rattle.model_core.specs.Run.Pending.{Entry};
ghost use Rattle.model_core.specs.Run.Step.{Configuration};
ghost use Rattle.model_core.specs.Run.Machine.{Note, Goes, Reached};
ghost use Rattle.model_core.specs.Run.History.{Moment, next_move, start, reached_from};
ghost use Rattle.model_core.specs.Conflicts.Conflict.{in_conflict};
ghost use Rattle.model_core.specs.Conflicts.Perform.{perform, after_both_events};
ghost use Rattle.model_core.specs.Conflicts.Orders.{HasOwnPriority, Simultaneous, StaysPending, Commute};

/// Two simultaneous events of vertices that aren't in conflict may occur in either order: both orders fault, or both give
/// the same, but for the order of what is pending. The second one is still pending when the first has occurred.
pub fn events_without_conflict_commute()
    ensures commute { (g : EventGraph) (seed : ℕ) (c : Configuration) (first second : ℕ)
        (a b : Entry)
        → Simultaneous g c.pending first second a b → in_conflict g a.vertex b.vertex ≡ false
        → Commute (after_both_events g seed c first second)
        (after_both_events g seed c second first) }
    ensures second_stays { (g : EventGraph) (seed : ℕ) (c d : Configuration) (first second : ℕ)
        (a b : Entry)
        → Simultaneous g c.pending first second a b → in_conflict g a.vertex b.vertex ≡ false
        → perform g seed c first ≡ Some (Ok d) → StaysPending g seed c first second b d }
{}

/// Each event that is pending in a run has a priority of its vertex: the first one has, and a step that goes on keeps it so. So it
/// is at each moment that a run reaches.
pub fn pending_events_have_own_priorities()
    ensures begins { (g : EventGraph) (starts : List ℤ)
        → AllByRecursion (HasOwnPriority g) (start g starts).now.pending }
    ensures goes_on { (g : EventGraph) (seed until : ℕ) (m later : Moment) (notes : List Note)
        → AllByRecursion (HasOwnPriority g) m.now.pending
        → next_move g seed until m ≡ Goes notes later
        → AllByRecursion (HasOwnPriority g) later.now.pending }
    ensures reached { (g : EventGraph) (seed until n : ℕ) (starts : List ℤ) (r : Reached Moment)
        → reached_from g seed until n (start g starts) ≡ Some r
        → AllByRecursion (HasOwnPriority g) r.moment.now.pending }
{}
