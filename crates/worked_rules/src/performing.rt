//! Events that are performed out of turn: which is taken, and where the other one then is; and how
//! often entries are held.

ghost use Rattle.std.specs.Prelude.{◌≡◌, ◌∷◌, [], map, pos, Some, None, Ok, Err};
ghost use Rattle.sig_base.specs.declared.fault.FaultKind.TheVariants as faults;
ghost use Rattle.model_core.specs.Run.Step.{Fault};
ghost use Rattle.model_core.specs.Conflicts.Perform.{taken_at, events_ahead, place_with_ahead, place_after_first, after_both_events};
ghost use Rattle.model_core.specs.Conflicts.Orders.{times_pending, SameButForOrder, Commute};
ghost use Rattle.worked_runs.specs.TwoEvents.{soon, waiting, at_5, words_of_54};
ghost use Rattle.worked_rules.specs.PerformedEvents.{four_soon, dividing, entries_apart};

/// The event at a place is taken with all others left, and another one is found by how many of its
/// vertex are ahead of it.
// taken: in the midst, and beyond the last; ahead: at each place, the place itself not counted;
// after: none ahead, one, and more than there are; then: the first is ahead, of the same vertex,
// which counts no more; of another; after; and what was scheduled or cancelled besides.
pub fn events_have_places()
    ensures taken { taken_at four_soon 1
        ≡ Some (record { entry = soon 2; others = soon 1 ∷ soon 1 ∷ soon 2 ∷ [] }) }
    ensures none_taken { taken_at four_soon 4 ≡ None }
    ensures ahead { map (events_ahead 1 four_soon) (0 ∷ 1 ∷ 2 ∷ 3 ∷ 4 ∷ [])
        ≡ 0 ∷ 1 ∷ 1 ∷ 2 ∷ 2 ∷ [] }
    ensures after { map (λ n. place_with_ahead 2 n four_soon) (0 ∷ 1 ∷ 2 ∷ []) ≡ 1 ∷ 3 ∷ 4 ∷ [] }
    ensures then_of_the_same { place_after_first four_soon 0 2 1 (soon 3 ∷ soon 1 ∷ soon 2 ∷ [])
        ≡ 1 }
    ensures then_of_another { place_after_first four_soon 0 3 2 (soon 2 ∷ soon 3 ∷ soon 2 ∷ [])
        ≡ 2 }
    ensures then_ahead { place_after_first four_soon 3 1 2 (soon 2 ∷ soon 1 ∷ soon 2 ∷ []) ≡ 0 }
{}

/// A fault of the first or of the second is that of both, and there is none of either if one is
/// missing.
pub fn faults_are_of_both()
    ensures first { after_both_events dividing 0
        (waiting ((pos 0 ∷ []) ∷ []) [] (soon 1 ∷ soon 2 ∷ [])) 0 1
        ≡ Some (Err (record { time = 5; kind = faults.DivisionByZero })) }
    ensures second { after_both_events dividing 0
        (waiting ((pos 0 ∷ []) ∷ []) [] (soon 1 ∷ soon 2 ∷ [])) 1 0
        ≡ Some (Err (record { time = 5; kind = faults.DivisionByZero })) }
    ensures no_first { after_both_events dividing 0
        (waiting ((pos 0 ∷ []) ∷ []) [] (soon 1 ∷ soon 2 ∷ [])) 2 0 ≡ None }
    ensures no_second { after_both_events dividing 0
        (waiting ((pos 0 ∷ []) ∷ []) [] (soon 1 ∷ soon 2 ∷ [])) 0 2 ≡ None }
{}

/// Entries are equal in their time, their priority, their vertex and their values.
// each of these once, of a list in which each differs from the first in one of them, or carries
// another number of values; twice if it is there twice.
pub fn entries_are_counted()
    ensures once { map (λ e. times_pending e entries_apart) entries_apart
        ≡ 1 ∷ 1 ∷ 1 ∷ 1 ∷ 1 ∷ 1 ∷ [] }
    ensures twice { times_pending (soon 1) four_soon ≡ 2 }
    ensures never { times_pending (soon 3) four_soon ≡ 0 }
{}

/// What two orders give is the same where clock, state, words taken and what is held are; a fault
/// isn't the same as none.
pub fn orders_may_differ()
    ensures clocks { SameButForOrder (at_5 [] [] []) (waiting [] [] []) → ⊥ }
    ensures states { SameButForOrder (at_5 ((pos 0 ∷ []) ∷ []) [] [])
        (at_5 ((pos 1 ∷ []) ∷ []) [] []) → ⊥ }
    ensures words { SameButForOrder (at_5 [] (words_of_54 1) []) (at_5 [] (words_of_54 2) []) → ⊥ }
    ensures held { SameButForOrder (at_5 [] [] (soon 1 ∷ soon 1 ∷ [])) (at_5 [] [] (soon 1 ∷ []))
        → ⊥ }
    ensures one_fault { (fault : Fault) → Commute (Some (Err fault)) (Some (Ok (at_5 [] [] [])))
        → ⊥ }
    ensures one_none { (fault : Fault) → Commute (Some (Err fault)) None → ⊥ }
{}
