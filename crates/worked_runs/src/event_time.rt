//! The clock that an event's expressions see, which is the time of the event.

ghost use Rattle.std.specs.Prelude.{◌≡◌, false, [], ◌∷◌};
ghost use Rattle.model_core.specs.EventGraph.{Truth, Clock, Cell, Binary, Equal, Set, Fixed, Schedule, Urgent, CancelEqual};
ghost use Rattle.model_core.specs.Run.Machine.{At, On, Ended};
ghost use Rattle.model_core.specs.Run.History.{look};
ghost use Rattle.worked_runs.specs.Building.{whole, at_cell, one_over_zero, set, plain_edge, schedule_with, only_if, scalars, showing};
ghost use Rattle.worked_runs.specs.Models.{at_two};

/// Changes and edges of an event at clock 2 see 2. An edge whose condition isn't 1 evaluates
/// nothing else.
pub fn events_see_their_time()
    ensures in_a_value { look (at_two (set 0 Clock ∷ []) []) 42 [] 100 1000
        ≡ showing (At 0 (scalars (0 ∷ [])) ∷ At 2 (scalars (2 ∷ [])) ∷ []) (Ended 2) }
    ensures in_an_index { look
        (at_two (Set (at_cell 1 Clock ∷ []) (whole 7 ∷ []) ∷ [])
        (plain_edge Urgent 2 (Cell 1 (whole 2) ∷ []) ∷ [])) 42 [] 100 1000
        ≡ showing (At 0 (scalars (0 ∷ [])) ∷ On 2 1 (scalars (7 ∷ []))
        ∷ At 2 (scalars (7 ∷ [])) ∷ []) (Ended 2) }
    ensures in_a_condition { look
        (at_two [] (only_if (Binary Equal Clock (whole 2))
        (schedule_with 2 7 1) ∷ [])) 42 [] 100 1000
        ≡ showing (At 0 (scalars (0 ∷ [])) ∷ On 3 1 (scalars (7 ∷ []))
        ∷ At 3 (scalars (7 ∷ [])) ∷ []) (Ended 3) }
    ensures in_a_delay { look
        (at_two [] (plain_edge (Schedule (Fixed Clock) 5) 2 (whole 7 ∷ []) ∷ [])) 42 [] 100 1000
        ≡ showing (At 0 (scalars (0 ∷ [])) ∷ On 4 1 (scalars (7 ∷ []))
        ∷ At 4 (scalars (7 ∷ [])) ∷ []) (Ended 4) }
    ensures in_what_is_carried { look
        (at_two [] (plain_edge (Schedule (Fixed (whole 1)) 5) 2 (Clock ∷ []) ∷ [])) 42 [] 100 1000
        ≡ showing (At 0 (scalars (0 ∷ [])) ∷ On 3 1 (scalars (2 ∷ []))
        ∷ At 3 (scalars (2 ∷ [])) ∷ []) (Ended 3) }
    ensures in_what_is_carried_at_once { look
        (at_two [] (plain_edge Urgent 2 (Clock ∷ []) ∷ [])) 42 [] 100 1000
        ≡ showing (At 0 (scalars (0 ∷ [])) ∷ On 2 1 (scalars (2 ∷ []))
        ∷ At 2 (scalars (2 ∷ [])) ∷ []) (Ended 2) }
    ensures in_what_is_cancelled { look
        (at_two [] (schedule_with 2 2 1
        ∷ plain_edge CancelEqual 2 (Clock ∷ []) ∷ [])) 42 [] 100 1000
        ≡ showing (At 0 (scalars (0 ∷ [])) ∷ []) (Ended 2) }
    ensures not_where_it_is_false { look
        (at_two [] (only_if (Truth false)
        (plain_edge (Schedule (Fixed one_over_zero) 5) 2 (one_over_zero ∷ [])) ∷ [])) 42 [] 100 1000
        ≡ showing (At 0 (scalars (0 ∷ [])) ∷ []) (Ended 2) }
    ensures not_where_it_is_2 { look
        (at_two [] (only_if (whole 2) (schedule_with 2 7 1) ∷ [])) 42 [] 100 1000
        ≡ showing (At 0 (scalars (0 ∷ [])) ∷ []) (Ended 2) }
{}
