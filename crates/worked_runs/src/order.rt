//! The order in which events come, and what cancelling edges take away.

ghost use Rattle.std.specs.Prelude.{◌≡◌, pos, [], ◌∷◌, codes};
ghost use Rattle.sig_base.specs.declared.fault.FaultKind.TheVariants as faults;
ghost use Rattle.model_core.specs.EventGraph.{Scalar, Binary, Equal, Fixed, Schedule, Urgent, CancelNext, CancelEqual, CancelAll};
ghost use Rattle.model_core.specs.Run.Machine.{At, On, Ended, Faulted};
ghost use Rattle.model_core.specs.Run.History.{look};
ghost use Rattle.worked_runs.specs.Building.{ranged, clipped, scalars, showing, whole, one_over_zero, is_one_over_zero, set, plain_edge, schedule, schedule_with, only_if, two_numbers, urgent};
ghost use Rattle.worked_runs.specs.Models.{cut, cancel_three, cancel_all, late_and_bad, ordering, carrying, at_two, taking_two, big_sum};

/// Events come by time, then by priority, then in the order of scheduling.
pub fn events_come_in_order()
    ensures lesser_priority_first { look
        (ordering (plain_edge (Schedule (Fixed (whole 2)) 7) 1 []
        ∷ schedule 2 (whole 2) ∷ [])) 42 [] 100 1000
        ≡ showing (At 0 [] ∷ On 2 1 [] ∷ On 2 0 [] ∷ []) (Ended 2) }
    ensures first_scheduled_first { look
        (ordering (schedule 1 (whole 2) ∷ schedule 2 (whole 2) ∷ [])) 42 [] 100 1000
        ≡ showing (At 0 [] ∷ On 2 0 [] ∷ On 2 1 [] ∷ []) (Ended 2) }
    ensures urgent_first { look (ordering (schedule 1 (whole 0) ∷ urgent 2 ∷ [])) 42 [] 100 1000
        ≡ showing (On 0 1 [] ∷ On 0 0 [] ∷ At 0 [] ∷ []) (Ended 0) }
    ensures earlier_time_first { look
        (ordering (plain_edge (Schedule (Fixed (whole 3)) 1) 1 []
        ∷ plain_edge (Schedule (Fixed (whole 2)) 9) 2 [] ∷ [])) 42 [] 100 1000
        ≡ showing (At 0 [] ∷ On 2 1 [] ∷ On 3 0 [] ∷ []) (Ended 3) }
    ensures urgent_before_priority_1 { look
        (ordering (plain_edge (Schedule (Fixed (whole 0)) 1) 1 [] ∷ urgent 2 ∷ [])) 42 [] 100 1000
        ≡ showing (On 0 1 [] ∷ On 0 0 [] ∷ At 0 [] ∷ []) (Ended 0) }
    ensures cancel_takes_the_next { look
        (ordering (schedule 2 (whole 3) ∷ schedule 2 (whole 2)
        ∷ plain_edge CancelNext 2 [] ∷ [])) 42 [] 100 1000
        ≡ showing (At 0 [] ∷ On 3 1 [] ∷ []) (Ended 3) }
{}

/// A cancelling edge with values takes the next event that carries exactly these, and one for all
/// takes all. Delays are looked at before values, and values as the event comes.
pub fn equal_events_are_cancelled()
    ensures once { look (cut (cancel_three ∷ [])) 42 [] 100 1000
        ≡ showing
        (At 0 (scalars (0 ∷ [])) ∷ On 5 1 (scalars (4 ∷ [])) ∷ At 5 (scalars (4 ∷ []))
        ∷ On 6 1 (scalars (3 ∷ [])) ∷ At 6 (scalars (3 ∷ [])) ∷ []) (Ended 6) }
    ensures three_times { look
        (cut (cancel_three ∷ cancel_three ∷ cancel_three ∷ [])) 42 [] 100 1000
        ≡ showing (At 0 (scalars (0 ∷ [])) ∷ On 5 1 (scalars (4 ∷ []))
        ∷ At 5 (scalars (4 ∷ [])) ∷ []) (Ended 5) }
    ensures carried_outside_the_range { look
        (cut (cancel_all ∷ schedule_with 1 10 5 ∷ [])) 42 [] 100 1000
        ≡ showing (At 0 (scalars (0 ∷ [])) ∷ []) (Faulted 5 faults.RangeOutside) }
    ensures delay_before_values { look (cut (late_and_bad ∷ [])) 42 [] 100 1000
        ≡ showing [] (Faulted 0 faults.NegativeDelay) }
    ensures all { look (cut (cancel_all ∷ [])) 42 [] 100 1000
        ≡ showing (At 0 (scalars (0 ∷ [])) ∷ []) (Ended 0) }
{}

/// Of an edge the condition is looked at first, on the state that the changes left, then the delay,
/// and then the values from left to right; those of a cancelling edge too, also where there is
/// nothing to cancel.
pub fn edges_evaluate_in_order()
    ensures condition_before_delay { look
        (cut (only_if is_one_over_zero late_and_bad ∷ [])) 42 [] 100 1000
        ≡ showing [] (Faulted 0 faults.DivisionByZero) }
    ensures values { look
        (carrying (plain_edge Urgent 1 (one_over_zero ∷ big_sum ∷ []) ∷ [])) 42 [] 100 1000
        ≡ showing [] (Faulted 0 faults.DivisionByZero) }
    ensures values_the_other_way_round { look
        (carrying (plain_edge Urgent 1 (big_sum ∷ one_over_zero ∷ []) ∷ [])) 42 [] 100 1000
        ≡ showing [] (Faulted 0 faults.Overflow) }
    ensures values_of_a_cancel { look
        (ordering (plain_edge CancelEqual 2 (one_over_zero ∷ []) ∷ [])) 42 [] 100 1000
        ≡ showing [] (Faulted 0 faults.DivisionByZero) }
    ensures first_edge_first { look
        (ordering (plain_edge Urgent 1 (big_sum ∷ [])
        ∷ plain_edge Urgent 1 (one_over_zero ∷ []) ∷ [])) 42 [] 100 1000
        ≡ showing [] (Faulted 0 faults.Overflow) }
    ensures after_the_changes { look
        (at_two (set 0 (whole 5) ∷ [])
        (only_if (Binary Equal (Scalar 0) (whole 5))
        (plain_edge (Schedule (Fixed (Scalar 0)) 5) 2 (Scalar 0 ∷ [])) ∷ [])) 42 [] 100 1000
        ≡ showing (At 0 (scalars (0 ∷ [])) ∷ At 2 (scalars (5 ∷ []))
        ∷ On 7 1 (scalars (5 ∷ [])) ∷ []) (Ended 7) }
    ensures changes_before_edges { look
        (at_two (set 0 (whole 10) ∷ [])
        (plain_edge Urgent 2 (one_over_zero ∷ []) ∷ [])) 42 [] 100 1000
        ≡ showing (At 0 (scalars (0 ∷ [])) ∷ []) (Faulted 2 faults.RangeOutside) }
{}

/// The values that an edge carries go into the parameters of its vertex, each into its own, as the
/// event comes.
pub fn carried_values_arrive()
    ensures in_order { look
        (taking_two (ranged (codes "X") 0 9 0) (ranged (codes "Y") 0 9 0)
        (plain_edge (Schedule (Fixed (whole 3)) 5) 1 (two_numbers 7 8) ∷ [])) 42
        (pos 1 ∷ pos 2 ∷ []) 100 1000
        ≡ showing (At 0 (scalars (2 ∷ 1 ∷ [])) ∷ On 3 2 (scalars (7 ∷ 8 ∷ []))
        ∷ At 3 (scalars (7 ∷ 8 ∷ [])) ∷ []) (Ended 3) }
    ensures clipped { look
        (taking_two (clipped (ranged (codes "X") 0 9 0)) (ranged (codes "Y") 0 9 0)
        (plain_edge Urgent 1 (two_numbers 7 12) ∷ [])) 42 (pos 1 ∷ pos 2 ∷ []) 100 1000
        ≡ showing (On 0 2 (scalars (7 ∷ 9 ∷ [])) ∷ At 0 (scalars (7 ∷ 9 ∷ [])) ∷ []) (Ended 0) }
{}

/// A cancelling edge takes events of its own vertex alone, however soon the others are due.
pub fn others_stay()
    ensures by_cancel { look
        (ordering (schedule 1 (whole 2) ∷ schedule 2 (whole 3)
        ∷ plain_edge CancelNext 2 [] ∷ [])) 42 [] 100 1000
        ≡ showing (At 0 [] ∷ On 2 0 [] ∷ []) (Ended 2) }
    ensures by_cancel_with_values { look
        (carrying (plain_edge (Schedule (Fixed (whole 2)) 5) 1 (two_numbers 3 4)
        ∷ plain_edge (Schedule (Fixed (whole 3)) 5) 2 (two_numbers 3 5)
        ∷ plain_edge (Schedule (Fixed (whole 4)) 5) 2 (two_numbers 3 4)
        ∷ plain_edge CancelEqual 2 (two_numbers 3 4) ∷ [])) 42 [] 100 1000
        ≡ showing (At 0 [] ∷ On 2 0 [] ∷ On 3 1 [] ∷ []) (Ended 3) }
    ensures by_cancel_all { look
        (ordering (schedule 2 (whole 1) ∷ schedule 1 (whole 2) ∷ schedule 2 (whole 3)
        ∷ schedule 1 (whole 4) ∷ plain_edge CancelAll 2 [] ∷ []))
        42 [] 100 1000
        ≡ showing (At 0 [] ∷ On 2 0 [] ∷ On 4 0 [] ∷ []) (Ended 4) }
    ensures where_there_is_none { look
        (ordering (schedule 1 (whole 2) ∷ plain_edge CancelNext 2 []
        ∷ plain_edge CancelAll 2 [] ∷ [])) 42 [] 100 1000
        ≡ showing (At 0 [] ∷ On 2 0 [] ∷ []) (Ended 2) }
{}
