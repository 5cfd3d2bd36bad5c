//! Two simultaneous events of worked models, in either order.

ghost use Rattle.std.specs.Prelude.{◌≡◌, ◌∷◌, [], false, pos, Some, None, Ok};
ghost use Rattle.worked_runs.specs.TwoEvents.{soon, waiting, later, at_5, words_of_54, cutting, both_write, both_draw, cancelling};
ghost use Rattle.model_core.specs.Conflicts.Conflict.{in_conflict};
ghost use Rattle.model_core.specs.Conflicts.Perform.{after_both_events};
ghost use Rattle.model_core.specs.Conflicts.Orders.{Simultaneous};

/// The second event is found where it then is, although the first one cancels an event ahead of it
/// and schedules another. Both orders leave the same events, in another order.
pub fn places_are_kept()
    ensures simultaneous { Simultaneous cutting (soon 3 ∷ soon 1 ∷ soon 2 ∷ []) 1 2 (soon 1)
        (soon 2) }
    ensures not_in_conflict { in_conflict cutting 1 2 ≡ false }
    ensures first_cancels { after_both_events cutting 0
        (waiting [] [] (soon 3 ∷ soon 1 ∷ soon 2 ∷ [])) 1 2
        ≡ Some (Ok (at_5 [] [] (later 3 ∷ later 1 ∷ []))) }
    ensures second_cancels { after_both_events cutting 0
        (waiting [] [] (soon 3 ∷ soon 1 ∷ soon 2 ∷ [])) 2 1
        ≡ Some (Ok (at_5 [] [] (later 1 ∷ later 3 ∷ []))) }
{}

/// Where vertices are in conflict, the order of their events matters.
pub fn conflicts_matter()
    ensures variables { after_both_events both_write 0
        (waiting ((pos 0 ∷ []) ∷ []) [] (soon 1 ∷ soon 2 ∷ [])) 0 1
        ≡ Some (Ok (at_5 ((pos 2 ∷ []) ∷ []) [] [])) }
    ensures variables_turned { after_both_events both_write 0
        (waiting ((pos 0 ∷ []) ∷ []) [] (soon 1 ∷ soon 2 ∷ [])) 1 0
        ≡ Some (Ok (at_5 ((pos 1 ∷ []) ∷ []) [] [])) }
    ensures streams { after_both_events both_draw 42
        (waiting ((pos 1 ∷ []) ∷ (pos 1 ∷ []) ∷ []) (words_of_54 0) (soon 1 ∷ soon 2 ∷ [])) 0 1
        ≡ Some (Ok (at_5 ((pos 4 ∷ []) ∷ (pos 3 ∷ []) ∷ []) (words_of_54 2) [])) }
    ensures streams_turned { after_both_events both_draw 42
        (waiting ((pos 1 ∷ []) ∷ (pos 1 ∷ []) ∷ []) (words_of_54 0) (soon 1 ∷ soon 2 ∷ [])) 1 0
        ≡ Some (Ok (at_5 ((pos 3 ∷ []) ∷ (pos 4 ∷ []) ∷ []) (words_of_54 2) [])) }
    ensures cancels { after_both_events cancelling 0 (waiting [] [] (soon 1 ∷ soon 2 ∷ [])) 0 1
        ≡ None }
    ensures cancels_turned { after_both_events cancelling 0
        (waiting [] [] (soon 1 ∷ soon 2 ∷ [])) 1 0
        ≡ Some (Ok (at_5 [] [] [])) }
{}
