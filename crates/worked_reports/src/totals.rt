//! The totals of runs: items that are added up, run by run.

ghost use Rattle.std.specs.Prelude.{◌≡◌, pos, negsuc, [], ◌∷◌, Some, None};
ghost use Rattle.tally_report.specs.declared.item.Item.TheVariants as items;
ghost use Rattle.tally_report.specs.declared.run_tally.RunEnd.TheVariants as ends;
ghost use Rattle.tally_report.specs.Totalling.{spans_joined, item_added, items_added, no_totals, with_run, totals_of};
ghost use Rattle.worked_reports.specs.Gauge.{gauge};
ghost use Rattle.worked_reports.specs.GaugeRuns.{spanning, cell, no_value, tally_with, totalled};

/// The least and the greatest value of both, whichever has them, and the last one of the later; a
/// run without values adds none.
pub fn spans_are_joined()
    ensures none { spans_joined None None ≡ None }
    ensures first_alone { spans_joined (Some (spanning (pos 1) (pos 5) (pos 3))) None
        ≡ Some (spanning (pos 1) (pos 5) (pos 3)) }
    ensures second_alone { spans_joined None (Some (spanning (pos 1) (pos 5) (pos 3)))
        ≡ Some (spanning (pos 1) (pos 5) (pos 3)) }
    ensures first_has_both { spans_joined (Some (spanning (negsuc 1) (pos 9) (pos 3)))
        (Some (spanning (pos 1) (pos 5) (pos 4))) ≡ Some (spanning (negsuc 1) (pos 9) (pos 4)) }
    ensures second_has_both { spans_joined (Some (spanning (pos 1) (pos 5) (pos 4)))
        (Some (spanning (negsuc 1) (pos 9) (pos 3))) ≡ Some (spanning (negsuc 1) (pos 9) (pos 3)) }
    ensures each_has_one { spans_joined (Some (spanning (pos 0) (pos 5) (pos 4)))
        (Some (spanning (pos 1) (pos 9) (pos 2))) ≡ Some (spanning (pos 0) (pos 9) (pos 2)) }
{}

/// Areas and counts are summed up, each item with the same one of the next run.
pub fn items_are_added_up()
    ensures areas { item_added (cell (pos 1) (pos 5) (pos 3) (pos 20))
        (cell (pos 2) (pos 6) (pos 4) (negsuc 29)) ≡ cell (pos 1) (pos 6) (pos 4) (negsuc 9) }
    ensures area_of_no_value { item_added (cell (pos 1) (pos 5) (pos 3) (pos 20)) (no_value (pos 0))
        ≡ cell (pos 1) (pos 5) (pos 3) (pos 20) }
    ensures counts { item_added (items.Count 3) (items.Count 4) ≡ items.Count 7 }
    ensures by_place { items_added (items.Count 3 ∷ items.Count 4 ∷ [])
        (items.Count 10 ∷ items.Count 20 ∷ []) ≡ items.Count 13 ∷ items.Count 24 ∷ [] }
{}

/// Totals begin with nothing for each item, and count the runs.
pub fn runs_are_totalled()
    ensures of_no_run { no_totals gauge
        ≡ totalled 0
        (items.Count 0 ∷ no_value (pos 0) ∷ no_value (pos 0) ∷ no_value (pos 0) ∷ items.Count 0
        ∷ no_value (pos 0) ∷ []) }
    ensures of_none { totals_of gauge [] ≡ no_totals gauge }
    ensures one_more { with_run
        (totalled 4 (items.Count 3 ∷ cell (pos 1) (pos 5) (pos 3) (pos 20) ∷ []))
        (tally_with ends.Fault 7 (items.Count 2 ∷ cell (pos 0) (pos 1) (pos 0) (pos 6) ∷ []))
        ≡ totalled 5 (items.Count 5 ∷ cell (pos 0) (pos 5) (pos 0) (pos 26) ∷ []) }
    ensures of_two { totals_of gauge
        (tally_with ends.Stopped 9
        (items.Count 1 ∷ cell (pos 1) (pos 2) (pos 1) (pos 3) ∷ cell (pos 4) (pos 5) (pos 4) (pos 6)
        ∷ no_value (pos 0) ∷ items.Count 7 ∷ cell (pos 8) (pos 8) (pos 8) (pos 9) ∷ [])
        ∷ tally_with ends.Budget 2
        (items.Count 10 ∷ cell (pos 0) (pos 1) (pos 0) (pos 30) ∷ no_value (pos 0)
        ∷ cell (pos 3) (pos 3) (pos 3) (pos 60) ∷ items.Count 70
        ∷ cell (pos 9) (pos 9) (pos 9) (pos 90) ∷ []) ∷ [])
        ≡ totalled 2
        (items.Count 11 ∷ cell (pos 0) (pos 2) (pos 0) (pos 33)
        ∷ cell (pos 4) (pos 5) (pos 4) (pos 6) ∷ cell (pos 3) (pos 3) (pos 3) (pos 60)
        ∷ items.Count 77 ∷ cell (pos 8) (pos 9) (pos 9) (pos 99) ∷ []) }
{}
