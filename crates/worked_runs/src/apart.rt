//! Models that differ in one thing, and that sameness distinguishes.

ghost use Rattle.std.specs.Prelude.{◌+◌, ◌^◌, [], ◌∷◌, false, codes};
ghost use Rattle.model_core.specs.EventGraph.{Truth, WatchedVariable, WatchedVertex};
ghost use Rattle.worked_runs.specs.Building.{ranged, whole, set, schedule};
ghost use Rattle.worked_runs.specs.Models.{changing, ordering};
ghost use Rattle.worked_runs.specs.Pairs.{Apart, ends, stops, goes_on, divides, leaves, ends_at_4, divides_at_4, a_first, b_first, silent, watching, watching_two, asking, due_after, taking_x, equals_x, drawing, equals_x_and_y};

/// Runs that end, stop, fail or go on for ever are distinguished, although they show the same.
pub fn models_differ_by_ends()
    ensures ended_or_stopped { Apart ends stops }
    ensures ended_or_going_on { Apart ends goes_on }
    ensures ended_or_failed { Apart ends divides }
    ensures stopped_or_going_on { Apart stops goes_on }
    ensures stopped_or_failed { Apart stops divides }
    ensures failed_or_going_on { Apart divides goes_on }
    ensures failed_otherwise { Apart divides leaves }
    ensures ended_earlier { Apart ends_at_4 ends }
    ensures failed_earlier { Apart divides_at_4 divides }
{}

/// Runs that show other notes are distinguished, also where they go on for ever.
pub fn models_differ_by_notes()
    ensures another_value { Apart (changing (set 0 (whole 2) ∷ []))
        (changing (set 0 (whole 3) ∷ [])) }
    ensures another_order { Apart
        (ordering (schedule 1 (whole 2) ∷ schedule 2 (whole 2) ∷ []))
        (ordering (schedule 2 (whole 2) ∷ schedule 1 (whole 2) ∷ [])) }
    ensures one_more { Apart
        (ordering (schedule 1 (whole 2) ∷ []))
        (ordering (schedule 1 (whole 2) ∷ schedule 1 (whole 2) ∷ [])) }
    ensures some_or_none_for_ever { Apart a_first silent }
    ensures another_order_for_ever { Apart a_first b_first }
{}

/// The watch list and the parameters of the beginning distinguish models, although the runs are the
/// same.
pub fn models_differ_by_declarations()
    ensures variable_or_vertex { Apart
        (watching (codes "X") (codes "A") (WatchedVariable 0 ∷ []))
        (watching (codes "A") (codes "X") (WatchedVertex 1 ∷ [])) }
    ensures watched_variable { Apart
        (watching (codes "X") (codes "A") (WatchedVariable 0 ∷ []))
        (watching (codes "Y") (codes "A") (WatchedVariable 0 ∷ [])) }
    ensures watched_vertex { Apart
        (watching (codes "X") (codes "A") (WatchedVertex 1 ∷ []))
        (watching (codes "X") (codes "B") (WatchedVertex 1 ∷ [])) }
    ensures order_of_the_watch_list { Apart
        (watching_two (WatchedVariable 0 ∷ WatchedVariable 1 ∷ []))
        (watching_two (WatchedVariable 1 ∷ WatchedVariable 0 ∷ [])) }
    ensures one_more_watched { Apart
        (watching_two (WatchedVariable 0 ∷ []))
        (watching_two (WatchedVariable 0 ∷ WatchedVariable 1 ∷ [])) }
    ensures name_of_a_parameter { Apart (asking (ranged (codes "X") 0 9 0))
        (asking (ranged (codes "Y") 0 9 0)) }
    ensures least_of_a_parameter { Apart (asking (ranged (codes "X") 0 9 1))
        (asking (ranged (codes "X") 1 9 1)) }
    ensures greatest_of_a_parameter { Apart (asking (ranged (codes "X") 0 9 0))
        (asking (ranged (codes "X") 0 8 0)) }
{}

/// One run is enough, also at the last stop time, with the first or the last seed, or with a value
/// at the end of a range.
#[tactic(auto, unfolding(rand_pcg::specs::Lcg::state_after))]
pub fn models_differ_by_one_run()
    ensures last_stop_time { Apart (due_after (2 ^ 48)) (due_after (2 ^ 48 + 1)) }
    ensures first_seed { Apart (drawing (equals_x_and_y 1203932051 3113183783))
        (drawing (Truth false)) }
    ensures last_seed { Apart (drawing (equals_x_and_y 290611831 3872925298))
        (drawing (Truth false)) }
    ensures least_start { Apart (taking_x (equals_x 0)) (taking_x (Truth false)) }
    ensures greatest_start { Apart (taking_x (equals_x 9)) (taking_x (Truth false)) }
{}
