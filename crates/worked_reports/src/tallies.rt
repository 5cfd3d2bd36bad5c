//! The tally of a run: what its notes say of each cell and each event, and when it ends.

ghost use Rattle.std.specs.Prelude.{◌≡◌, ℕ, pos, negsuc, [], ◌∷◌, Some, None};
ghost use Rattle.sig_base.specs.declared.fault.FaultKind.TheVariants as faults;
ghost use Rattle.model_core.specs.Run.Machine.{At, On, Ended, Stopped, Faulted, Going};
ghost use Rattle.tally_report.specs.declared.item.Item.TheVariants as items;
ghost use Rattle.tally_report.specs.declared.run_tally.RunEnd.TheVariants as ends;
ghost use Rattle.tally_report.specs.CellCourse.{cells_noted, value_noted, course, span_of, area_of};
ghost use Rattle.tally_report.specs.Tallying.{CellAt, VertexAt, items_reported, occurrences, run_end, end_time, tally_of};
ghost use Rattle.worked_reports.specs.Gauge.{gauge, gauged};
ghost use Rattle.worked_reports.specs.GaugeRuns.{from, spanning, cell, no_value, gauge_notes, gauge_seen, tally_with};

/// There is an item for each cell of each watched variable and for each watched vertex, in the
/// order of the watch list, also for an array of one cell. A note's values are those of the watched
/// variables alone.
pub fn items_are_those_watched()
    ensures all { items_reported gauge
        ≡ VertexAt 0 ∷ CellAt 1 0 ∷ CellAt 1 1 ∷ CellAt 2 0 ∷ VertexAt 3 ∷ CellAt 4 0 ∷ [] }
    ensures nothing { items_reported (record gauge { watch = [] }) ≡ [] }
    ensures cells_after_a_vertex { cells_noted gauge.watch
        (gauged (pos 5) (pos 1) (pos 2) (pos 7)) 1 ≡ pos 5 ∷ pos 1 ∷ [] }
    ensures cells_further_on { cells_noted gauge.watch (gauged (pos 5) (pos 1) (pos 2) (pos 7)) 4
        ≡ pos 7 ∷ [] }
    ensures cells_of_a_vertex { cells_noted gauge.watch (gauged (pos 5) (pos 1) (pos 2) (pos 7)) 3
        ≡ [] }
    ensures first_cell { value_noted gauge 1 0 (gauged (pos 5) (pos 1) (pos 2) (pos 7)) ≡ pos 5 }
    ensures second_cell { value_noted gauge 1 1 (gauged (pos 5) (pos 1) (pos 2) (pos 7)) ≡ pos 1 }
    ensures scalar { value_noted gauge 2 0 (gauged (pos 5) (pos 1) (pos 2) (pos 7)) ≡ pos 2 }
{}

/// The course of a cell has its value at each `at` note, and nothing of an `on` note.
pub fn cells_have_courses()
    ensures second_cell { course gauge 1 1 gauge_notes
        ≡ from 3 (pos 1) ∷ from 4 (negsuc 0) ∷ from 6 (negsuc 0) ∷ [] }
    ensures scalar { course gauge 2 0 gauge_notes
        ≡ from 3 (pos 2) ∷ from 4 (pos 6) ∷ from 6 (pos 4) ∷ [] }
    ensures nothing_noted { course gauge 2 0 (On 2 0 (gauged (pos 9) (pos 9) (pos 9) (pos 9)) ∷ [])
        ≡ [] }
{}

/// The least, the greatest and the last value, wherever each comes in the course.
pub fn courses_have_spans()
    ensures none { span_of [] ≡ None }
    ensures one { span_of (from 3 (pos 5) ∷ []) ≡ Some (spanning (pos 5) (pos 5) (pos 5)) }
    ensures rising { span_of (from 3 (negsuc 1) ∷ from 4 (pos 5) ∷ [])
        ≡ Some (spanning (negsuc 1) (pos 5) (pos 5)) }
    ensures falling { span_of (from 3 (pos 5) ∷ from 4 (negsuc 1) ∷ [])
        ≡ Some (spanning (negsuc 1) (pos 5) (negsuc 1)) }
    ensures up_and_down { span_of
        (from 0 (pos 3) ∷ from 4 (negsuc 1) ∷ from 5 (pos 7) ∷ from 9 (pos 1) ∷ [])
        ≡ Some (spanning (negsuc 1) (pos 7) (pos 1)) }
    ensures first_of_both { span_of (from 0 (negsuc 3) ∷ from 4 (pos 0) ∷ from 5 (negsuc 1) ∷ [])
        ≡ Some (spanning (negsuc 3) (pos 0) (negsuc 1)) }
{}

/// Each value counts for as long as it holds: up to the next one, and the last one up to the end.
pub fn courses_have_areas()
    ensures none { area_of [] 12 ≡ pos 0 }
    ensures one { area_of (from 3 (pos 5) ∷ []) 10 ≡ pos 35 }
    ensures no_time { area_of (from 3 (pos 5) ∷ []) 3 ≡ pos 0 }
    ensures one_below_0 { area_of (from 3 (negsuc 0) ∷ []) 10 ≡ negsuc 6 }
    ensures four { area_of
        (from 0 (pos 3) ∷ from 4 (negsuc 1) ∷ from 5 (pos 7) ∷ from 9 (pos 1) ∷ []) 12 ≡ pos 41 }
    ensures up_to_a_later_end { area_of
        (from 0 (pos 3) ∷ from 4 (negsuc 1) ∷ from 5 (pos 7) ∷ from 9 (pos 1) ∷ []) 15 ≡ pos 44 }
{}

/// An event counts by its place in the watch list, once for each `on` note, also where it comes
/// twice at one time.
pub fn occurrences_are_counted()
    ensures first { occurrences 0 gauge_notes ≡ 3 }
    ensures other { occurrences 3 gauge_notes ≡ 1 }
    ensures by_place { occurrences 1 gauge_notes ≡ 0 }
    ensures nothing_noted { occurrences 0 [] ≡ 0 }
{}

/// A run ends with its end's time, at the stop time, at its fault's time or, where its budget is
/// spent, at the time of its last note of either kind, which is 0 where there is none.
pub fn runs_end_at_a_time()
    ensures ended { (time : ℕ) → run_end (Ended time) ≡ ends.Ended }
    ensures stopped { run_end Stopped ≡ ends.Stopped }
    ensures faulted { run_end (Faulted 8 faults.IndexOutside) ≡ ends.Fault }
    ensures budget { run_end Going ≡ ends.Budget }
    ensures time_of_the_end { end_time 20 gauge_notes (Ended 9) ≡ 9 }
    ensures stop_time { end_time 20 gauge_notes Stopped ≡ 20 }
    ensures time_of_the_fault { end_time 20 gauge_notes (Faulted 8 faults.RangeOutside) ≡ 8 }
    ensures after_an_on_note { end_time 20 gauge_notes Going ≡ 7 }
    ensures after_an_at_note { end_time 20 (On 2 0 [] ∷ At 3 [] ∷ []) Going ≡ 3 }
    ensures on_notes_alone { end_time 20 (On 2 0 [] ∷ On 5 0 [] ∷ []) Going ≡ 5 }
    ensures no_note { end_time 20 [] Going ≡ 0 }
{}

/// The whole tally of a run: areas go up to the run's time.
pub fn runs_have_tallies()
    ensures stopped { tally_of gauge 10 (gauge_seen Stopped)
        ≡ tally_with ends.Stopped 10
        (items.Count 3 ∷ cell (pos 0) (pos 5) (pos 0) (pos 15)
        ∷ cell (negsuc 0) (pos 1) (negsuc 0) (negsuc 4) ∷ cell (pos 2) (pos 6) (pos 4) (pos 30)
        ∷ items.Count 1 ∷ cell (pos 7) (pos 8) (pos 8) (pos 53) ∷ []) }
    ensures ended { tally_of gauge 10 (gauge_seen (Ended 7))
        ≡ tally_with ends.Ended 7
        (items.Count 3 ∷ cell (pos 0) (pos 5) (pos 0) (pos 15)
        ∷ cell (negsuc 0) (pos 1) (negsuc 0) (negsuc 1) ∷ cell (pos 2) (pos 6) (pos 4) (pos 18)
        ∷ items.Count 1 ∷ cell (pos 7) (pos 8) (pos 8) (pos 29) ∷ []) }
    ensures faulted { tally_of gauge 10 (gauge_seen (Faulted 8 faults.Overflow))
        ≡ tally_with ends.Fault 8
        (items.Count 3 ∷ cell (pos 0) (pos 5) (pos 0) (pos 15)
        ∷ cell (negsuc 0) (pos 1) (negsuc 0) (negsuc 2) ∷ cell (pos 2) (pos 6) (pos 4) (pos 22)
        ∷ items.Count 1 ∷ cell (pos 7) (pos 8) (pos 8) (pos 37) ∷ []) }
    ensures spent { tally_of gauge 10 (gauge_seen Going)
        ≡ tally_with ends.Budget 7
        (items.Count 3 ∷ cell (pos 0) (pos 5) (pos 0) (pos 15)
        ∷ cell (negsuc 0) (pos 1) (negsuc 0) (negsuc 1) ∷ cell (pos 2) (pos 6) (pos 4) (pos 18)
        ∷ items.Count 1 ∷ cell (pos 7) (pos 8) (pos 8) (pos 29) ∷ []) }
    ensures nothing_noted { tally_of gauge 10 (record { history = []; standing = Stopped })
        ≡ tally_with ends.Stopped 10
        (items.Count 0 ∷ no_value (pos 0) ∷ no_value (pos 0) ∷ no_value (pos 0) ∷ items.Count 0
        ∷ no_value (pos 0) ∷ []) }
{}
