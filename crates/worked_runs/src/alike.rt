//! Models that differ, and are the same.

ghost use Rattle.std.specs.Prelude.{ℕ, ◌^◌, ◌<◌};
ghost use Rattle.model_core.specs.Run.Same.{Same};
ghost use Rattle.worked_runs.specs.Pairs.{ends, comes_twice, two_events, one_event, a_first, a_second, due_after};

/// The same may be shown in fewer steps, and not in more, where a run ends and where it goes on for
/// ever.
pub fn steps_may_be_fewer()
    ensures fewer { Same two_events one_event }
    ensures not_more { Same one_event two_events → ⊥ }
    ensures no_more_after_the_last_note { Same ends comes_twice → ⊥ }
    ensures fewer_for_ever { Same a_second a_first }
    ensures not_more_for_ever { Same a_first a_second → ⊥ }
{}

/// Events that are due after the last stop time make no difference.
pub fn later_events_are_unseen()
    ensures { (one other : ℕ) → 2 ^ 48 < one → 2 ^ 48 < other
        → Same (due_after one) (due_after other) }
{}
