//! The snapshot of a run, how it goes on, and the order in which pending events are saved.

ghost use Rattle.std.specs.Prelude.{◌≡◌, pos, [], ◌∷◌, Some};
ghost use Rattle.model_core.specs.EventGraph.{WatchedVariable, WatchedVertex};
ghost use Rattle.model_core.specs.Run.Machine.{At, Stopped, Going};
ghost use Rattle.model_core.specs.Saved.Cells.{cells_declared, watched_sizes, cut_up, in_one_list, cell_variables, variables_watched};
ghost use Rattle.model_core.specs.Saved.DueOrder.{in_due_order};
ghost use Rattle.model_core.specs.Saved.GoingOn.{Alike};
ghost use Rattle.model_core.specs.Saved.SavedRun.{saved, saved_moment, history_from};
ghost use Rattle.worked_runs.specs.Building.{scalars, showing};
ghost use Rattle.worked_runs.specs.DrawnModels.{after_draw, one_to_six, arriving};
ghost use Rattle.worked_runs.specs.HarbourModel.{harbour, harbour_n, harbour_flags, harbour_z, harbour_watching};
ghost use Rattle.worked_runs.specs.HarbourRuns.{two_events_saved, two_events_due, two_events_moment, bare_saved, bare_moment, saved_delay};
ghost use Rattle.worked_runs.specs.Models.{clock};
ghost use Rattle.worked_runs.specs.Moments.{counted_to, configuration_at};
ghost use Rattle.worked_runs.specs.SavedExamples.{due, saved_clock, five_pending, five_due};

/// A scalar is one cell, as an array of one is, and a watched vertex is none.
pub fn cells_are_listed_in_order()
    ensures scalar { cells_declared harbour 0 ≡ 1 }
    ensures array { cells_declared harbour 1 ≡ 2 }
    ensures no_variable { cells_declared harbour 3 ≡ 0 }
    ensures sizes { watched_sizes harbour
        (WatchedVariable 1 ∷ WatchedVertex 1 ∷ WatchedVariable 0 ∷ []) ≡ 2 ∷ 1 ∷ [] }
    ensures cut { cut_up (2 ∷ 0 ∷ 1 ∷ []) (pos 5 ∷ pos 6 ∷ pos 7 ∷ [])
        ≡ (pos 5 ∷ pos 6 ∷ []) ∷ [] ∷ (pos 7 ∷ []) ∷ [] }
    ensures joined { in_one_list ((pos 5 ∷ pos 6 ∷ []) ∷ [] ∷ (pos 7 ∷ []) ∷ [])
        ≡ pos 5 ∷ pos 6 ∷ pos 7 ∷ [] }
    ensures of_variables { cell_variables harbour.variables
        ≡ harbour_n ∷ harbour_flags ∷ harbour_flags ∷ harbour_z ∷ [] }
    ensures watched { variables_watched harbour
        (WatchedVariable 2 ∷ WatchedVertex 0 ∷ WatchedVariable 1 ∷ [])
        ≡ harbour_z ∷ harbour_flags ∷ [] }
{}

/// Pending events are saved by time, then by priority, and those that are due alike in the order of
/// scheduling.
pub fn events_are_in_due_order()
    ensures mixed { in_due_order five_pending ≡ five_due }
    ensures again { in_due_order five_due ≡ five_due }
    ensures by_time_before_priority { in_due_order (due 9 1 0 ∷ due 4 5 1 ∷ [])
        ≡ due 4 5 1 ∷ due 9 1 0 ∷ [] }
    ensures none { in_due_order [] ≡ [] }
{}

/// Two runs are alike that scheduled events in another order which aren't due alike. With another
/// clock, state or number of words taken, or with another order of events that are due alike, they
/// don't.
pub fn runs_may_be_alike()
    ensures another_order { Alike (configuration_at 4 3 0 (due 9 5 0 ∷ due 4 5 1 ∷ []))
        (configuration_at 4 3 0 (due 4 5 1 ∷ due 9 5 0 ∷ [])) }
    ensures another_order_of_priorities { Alike (configuration_at 4 3 0 (due 4 5 0 ∷ due 4 3 1 ∷ []))
        (configuration_at 4 3 0 (due 4 3 1 ∷ due 4 5 0 ∷ [])) }
    ensures clock { Alike (configuration_at 4 3 0 []) (configuration_at 5 3 0 []) → ⊥ }
    ensures state { Alike (configuration_at 4 3 0 []) (configuration_at 4 2 0 []) → ⊥ }
    ensures words { Alike (configuration_at 4 3 0 []) (configuration_at 4 3 1 []) → ⊥ }
    ensures due_alike { Alike (configuration_at 4 3 0 (due 4 5 0 ∷ due 4 5 1 ∷ []))
        (configuration_at 4 3 0 (due 4 5 1 ∷ due 4 5 0 ∷ [])) → ⊥ }
    ensures an_event_more { Alike (configuration_at 4 3 0 (due 4 5 0 ∷ []))
        (configuration_at 4 3 0 (due 4 5 0 ∷ due 9 5 0 ∷ [])) → ⊥ }
{}

/// A snapshot after two events is the moment that they reached, and shows what is left of the run.
pub fn saved_runs_show_the_rest()
    ensures saved { saved 42 2 (counted_to 5 2 1) ≡ saved_clock }
    ensures is_there { saved_moment clock saved_clock ≡ counted_to 5 2 1 }
    ensures rest { history_from clock saved_clock 12 100
        ≡ showing (At 5 (scalars (2 ∷ [])) ∷ At 10 (scalars (3 ∷ [])) ∷ []) Stopped }
    ensures up_to_an_earlier_time { history_from clock saved_clock 7 9
        ≡ showing (At 5 (scalars (2 ∷ [])) ∷ []) Stopped }
    ensures no_event_more { history_from clock saved_clock 12 0 ≡ showing [] Going }
{}

/// Each part of a moment is kept: the words of each stream, the values of each cell in one list,
/// those of the last note if there is one, and the events in due order.
pub fn moments_are_kept_whole()
    ensures saved { saved 12884901895 2 two_events_moment ≡ two_events_due }
    ensures is_there { saved_moment harbour two_events_due
        ≡ record two_events_moment { now = record two_events_moment.now { pending = two_events_due.pending } } }
    ensures as_it_is { (saved_moment harbour two_events_saved).now.pending
        ≡ two_events_saved.pending }
    ensures nothing_noted { saved 0 0 bare_moment ≡ bare_saved }
    ensures nothing_noted_there { saved_moment harbour bare_saved ≡ bare_moment }
    ensures nothing_watched { (saved_moment (harbour_watching [])
        (record bare_saved { noted = Some [] })).noted ≡ Some [] }
{}

/// A run that goes on draws by its own seed the words after those that were taken.
#[tactic(auto, unfolding(rand_pcg::specs::Lcg::state_after))]
pub fn saved_streams_go_on()
    ensures { history_from (arriving (after_draw 0 one_to_six ∷ [])) saved_delay 12 9
        ≡ showing (At 4 (scalars (2 ∷ [])) ∷ At 7 (scalars (3 ∷ []))
        ∷ At 12 (scalars (4 ∷ [])) ∷ []) Stopped }
{}
