//! A small report, worked out by hand, and the rows of single items.

ghost use Rattle.std.specs.Prelude.{◌≡◌, ◌++◌, pos, negsuc, ◌∷◌, [], codes};
ghost use Rattle.tally_report.specs.declared.item.Item.TheVariants as items;
ghost use Rattle.tally_report.specs.declared.run_tally.RunEnd.TheVariants as ends;
ghost use Rattle.tally_report.specs.Totalling.{totals_of};
ghost use Rattle.tally_report.specs.ReportText.{header_row, item_names, run_rows, total_rows, item_rows, run_heading, total_heading};
ghost use Rattle.worked_reports.specs.Gauge.{gauge};
ghost use Rattle.worked_reports.specs.GaugeRuns.{cell, no_value, tally_with, totalled};
ghost use Rattle.worked_reports.specs.ShelfReport.{shelf, shelf_run, shelf_unseen};

/// A value holds up to the next `at` note, and the last one up to the end; a value of an `on` note
/// counts for nothing. Totals have no last value, and a run without a note adds no value to them.
pub fn a_shelf_is_reported()
    ensures header { header_row
        ≡ codes "run,seed,outcome,time,item,least,greatest,last,area,count\n" }
    ensures run { run_rows shelf 1 7 shelf_run
        ≡ codes "1,7,stopped,12,N,1,4,2,35,\n" ++ codes "1,7,stopped,12,RUN,,,,,2\n"
        ++ codes "1,7,stopped,12,A[0],0,5,0,50,\n" ++ codes "1,7,stopped,12,A[1],-1,6,-1,9,\n" }
    ensures unseen { run_rows shelf 2 8 shelf_unseen
        ≡ codes "2,8,budget,0,N,,,,0,\n" ++ codes "2,8,budget,0,RUN,,,,,0\n"
        ++ codes "2,8,budget,0,A[0],,,,0,\n" ++ codes "2,8,budget,0,A[1],,,,0,\n" }
    ensures totals { total_rows shelf (totals_of shelf (shelf_run ∷ shelf_unseen ∷ shelf_run ∷ []))
        ≡ codes "total,,,,N,1,4,,70,\n" ++ codes "total,,,,RUN,,,,,4\n"
        ++ codes "total,,,,A[0],0,5,,100,\n" ++ codes "total,,,,A[1],-1,6,,18,\n" }
{}

/// A cell of an array, also of one cell, has its index in brackets. The names are those of the
/// watch list, in its order.
pub fn items_have_names()
    ensures in_order { item_names gauge
        ≡ codes "TOCK" ∷ codes "A[0]" ∷ codes "A[1]" ∷ codes "N" ∷ codes "TICK"
        ∷ codes "B[0]" ∷ [] }
    ensures nothing_watched { item_names (record gauge { watch = [] }) ≡ [] }
{}

/// A row names the run, its seed, how and when it ended, the item, its least, greatest and last
/// value, its area or its count. A total names the item, its least and greatest value, its area or
/// its count.
pub fn items_have_rows()
    ensures ended { item_rows (run_heading 3 40 (tally_with ends.Ended 9 [])) (codes "N" ∷ [])
        (cell (negsuc 0) (pos 2) (pos 1) (pos 5) ∷ []) ≡ codes "3,40,ended,9,N,-1,2,1,5,\n" }
    ensures faulted { item_rows (run_heading 3 40 (tally_with ends.Fault 9 [])) (codes "N" ∷ [])
        (no_value (pos 0) ∷ []) ≡ codes "3,40,fault,9,N,,,,0,\n" }
    ensures stopped { item_rows (run_heading 3 40 (tally_with ends.Stopped 9 [])) (codes "N" ∷ [])
        (cell (pos 1) (pos 2) (negsuc 2) (negsuc 4) ∷ []) ≡ codes "3,40,stopped,9,N,1,2,-3,-5,\n" }
    ensures spent { item_rows (run_heading 3 40 (tally_with ends.Budget 9 [])) (codes "N" ∷ [])
        (items.Count 12 ∷ []) ≡ codes "3,40,budget,9,N,,,,,12\n" }
    ensures total { item_rows total_heading (codes "N" ∷ codes "A" ∷ codes "B" ∷ [])
        (cell (negsuc 0) (pos 2) (pos 1) (pos 5) ∷ items.Count 12 ∷ no_value (pos 0) ∷ [])
        ≡ codes "total,,,,N,-1,2,,5,\ntotal,,,,A,,,,,12\ntotal,,,,B,,,,0,\n" }
    ensures largest_seed { run_rows gauge 65536 18446744073709551615
        (tally_with ends.Ended 281474976710656
        (items.Count 1 ∷ no_value (pos 0) ∷ no_value (pos 0) ∷ no_value (pos 0) ∷ items.Count 2
        ∷ no_value (pos 0) ∷ []))
        ≡ codes "65536,18446744073709551615,ended,281474976710656,TOCK,,,,,1\n"
        ++ codes "65536,18446744073709551615,ended,281474976710656,A[0],,,,0,\n"
        ++ codes "65536,18446744073709551615,ended,281474976710656,A[1],,,,0,\n"
        ++ codes "65536,18446744073709551615,ended,281474976710656,N,,,,0,\n"
        ++ codes "65536,18446744073709551615,ended,281474976710656,TICK,,,,,2\n"
        ++ codes "65536,18446744073709551615,ended,281474976710656,B[0],,,,0,\n" }
    ensures totals { total_rows gauge
        (totalled 2 (items.Count 1 ∷ no_value (pos 0) ∷ cell (pos 1) (pos 2) (pos 3) (pos 4)
        ∷ no_value (pos 0) ∷ items.Count 2 ∷ no_value (pos 0) ∷ []))
        ≡ codes "total,,,,TOCK,,,,,1\ntotal,,,,A[0],,,,0,\ntotal,,,,A[1],1,2,,4,\ntotal,,,,N,,,,0,\ntotal,,,,TICK,,,,,2\ntotal,,,,B[0],,,,0,\n" }
{}
