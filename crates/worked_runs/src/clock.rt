//! A clock that counts to 3, a loop that never leaves clock 0, and how a run begins, notes and is
//! over.

ghost use Rattle.std.specs.Prelude.{◌≡◌, ℕ, pos, true, false, [], ◌∷◌, replicate, Some, None};
ghost use Rattle.sig_base.specs.declared.fault.FaultKind.{FaultKind};
ghost use Rattle.sig_base.specs.declared.fault.FaultKind.TheVariants as faults;
ghost use Rattle.model_core.specs.Run.Machine.{At, On, Ended, Stopped, Faulted, Going, finished};
ghost use Rattle.model_core.specs.Run.History.{at_note, noting_before_event, completed, start, look};
ghost use Rattle.worked_runs.specs.Building.{scalars, showing};
ghost use Rattle.worked_runs.specs.Models.{clock, strict_clock, loop, backwards, cells, at_two};
ghost use Rattle.worked_runs.specs.Moments.{counted_to, configuration_at};

/// A note comes as the clock leaves a time, where the values are new.
pub fn clock_counts()
    ensures stops_at_12 { look clock 42 [] 12 1000
        ≡ showing (At 0 (scalars (1 ∷ [])) ∷ At 5 (scalars (2 ∷ []))
        ∷ At 10 (scalars (3 ∷ [])) ∷ []) Stopped }
    ensures stops_at_0 { look clock 42 [] 0 1000 ≡ showing (At 0 (scalars (1 ∷ [])) ∷ []) Stopped }
    ensures has_not_left_5_after_two_steps { look clock 42 [] 12 2
        ≡ showing (At 0 (scalars (1 ∷ [])) ∷ []) Going }
    ensures stops_after_three_steps { look clock 42 [] 12 3 ≡ look clock 42 [] 12 1000 }
    ensures stays_at_its_bound { look clock 42 [] 1000 1000
        ≡ showing (At 0 (scalars (1 ∷ [])) ∷ At 5 (scalars (2 ∷ []))
        ∷ At 10 (scalars (3 ∷ [])) ∷ []) Stopped }
    ensures fails_past_its_bound { look strict_clock 42 [] 1000 1000
        ≡ showing (At 0 (scalars (1 ∷ [])) ∷ At 5 (scalars (2 ∷ []))
        ∷ At 10 (scalars (3 ∷ [])) ∷ [])
        (Faulted 15 faults.RangeOutside) }
    ensures failing_takes_a_step { look strict_clock 42 [] 1000 3
        ≡ showing (At 0 (scalars (1 ∷ [])) ∷ At 5 (scalars (2 ∷ [])) ∷ []) Going }
{}

/// A run at one clock may go on for ever, and shows nothing. A delay below 0 is a fault.
pub fn loop_goes_on()
    ensures goes_on_after_50_steps { look loop 42 [] 100 50 ≡ showing [] Going }
    ensures never_waits_below_0 { look backwards 42 [] 100 1000
        ≡ showing [] (Faulted 0 faults.NegativeDelay) }
{}

/// A run is over where no event is pending, where the next is due after the stop time, and where
/// one failed.
pub fn runs_are_over()
    ensures ended { (time : ℕ) → finished (Ended time) ≡ true }
    ensures stopped { finished Stopped ≡ true }
    ensures failed { (time : ℕ) (kind : FaultKind) → finished (Faulted time kind) ≡ true }
    ensures not_while_it_goes_on { finished Going ≡ false }
{}

/// A run begins at clock 0 with the initial values, no words taken and the first vertex's event,
/// which carries the starting values.
pub fn runs_begin_at_0()
    ensures { start (cells []) (pos 4 ∷ []) ≡ record {
      now = record {
        clock = 0;
        state = (pos 0 ∷ [])
            ∷ (pos 0 ∷ pos 0 ∷ []) ∷ [];
        taken = replicate 64 0;
        pending = record { time = 0; priority = 5; vertex = 0; values = pos 4 ∷ [] } ∷ [];
      };
      noted = None;
    } }
{}

/// A note comes where any cell of any watched variable differs from the last one, also where it is
/// as it was before that.
pub fn notes_have_what_is_new()
    ensures first { at_note 7 [] None ≡ At 7 [] ∷ [] }
    ensures nothing_watched { at_note 7 [] (Some []) ≡ [] }
    ensures same { at_note 7 (scalars (3 ∷ 4 ∷ [])) (Some (scalars (3 ∷ 4 ∷ []))) ≡ [] }
    ensures first_variable { at_note 7 (scalars (2 ∷ 4 ∷ [])) (Some (scalars (3 ∷ 4 ∷ [])))
        ≡ At 7 (scalars (2 ∷ 4 ∷ [])) ∷ [] }
    ensures last_variable { at_note 7 (scalars (3 ∷ 5 ∷ [])) (Some (scalars (3 ∷ 4 ∷ [])))
        ≡ At 7 (scalars (3 ∷ 5 ∷ [])) ∷ [] }
    ensures last_cell { at_note 7 ((pos 3 ∷ pos 4 ∷ []) ∷ []) (Some ((pos 3 ∷ pos 5 ∷ []) ∷ []))
        ≡ At 7 ((pos 3 ∷ pos 4 ∷ []) ∷ []) ∷ [] }
{}

/// The clock leaves its time where the next event is later, and what it leaves is what the next
/// note is compared with, also where no note came.
pub fn the_clock_leaves_its_time()
    ensures later { noting_before_event clock (counted_to 5 2 1) 6
        ≡ record { notes = At 5 (scalars (2 ∷ [])) ∷ []; noted = Some (scalars (2 ∷ [])) } }
    ensures now { noting_before_event clock (counted_to 5 2 1) 5
        ≡ record { notes = []; noted = Some (scalars (1 ∷ [])) } }
    ensures nothing_new { noting_before_event clock (counted_to 5 2 2) 6
        ≡ record { notes = []; noted = Some (scalars (2 ∷ [])) } }
{}

/// The note of an event that is completed has its vertex's place in the watch list, and the values
/// and the clock after it. A variable of the same number is no vertex.
pub fn events_are_noted_by_place()
    ensures second { completed (at_two [] []) 2 (configuration_at 4 3 0 [])
        ≡ On 4 1 (scalars (3 ∷ [])) ∷ [] }
    ensures unwatched { completed (at_two [] []) 1 (configuration_at 4 3 0 []) ≡ [] }
    ensures variable { completed (at_two [] []) 0 (configuration_at 4 3 0 []) ≡ [] }
{}

/// An event at the stop time comes, and one after it doesn't.
pub fn runs_stop_after_their_time()
    ensures at_the_stop_time { look clock 42 [] 5 1000
        ≡ showing (At 0 (scalars (1 ∷ [])) ∷ At 5 (scalars (2 ∷ [])) ∷ []) Stopped }
    ensures before_it { look clock 42 [] 4 1000 ≡ showing (At 0 (scalars (1 ∷ [])) ∷ []) Stopped }
    ensures no_step { look clock 42 [] 4 0 ≡ showing [] Going }
{}
