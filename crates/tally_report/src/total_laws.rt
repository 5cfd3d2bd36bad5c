//! Laws of totals. The functions do nothing: what they ensure holds of all runs.

ghost use Rattle.std.specs.Prelude.{◌≡◌, ◌++◌, ◌∷◌, [], ◌≤◌, ℕ, ℤ, List, Option, All, length};
ghost use Rattle.std.specs.Int.RustNames.{FitsSigned};
ghost use mir.Syntax.{w128};
ghost use Rattle.sig_base.specs.declared.limits.TheConstants.{RUNS_MAX};
ghost use Rattle.model_core.specs.EventGraph.{EventGraph};
ghost use Rattle.tally_report.specs.declared.item.Span.{Span};
ghost use Rattle.tally_report.specs.declared.item.Item.TheVariants.{Cell as CellItem};
ghost use Rattle.tally_report.specs.declared.run_tally.RunTally.{RunTally};
ghost use Rattle.tally_report.specs.SmallAreas.{IsOfRuns};
ghost use Rattle.tally_report.specs.Totalling.{RunTotals, with_run, totals_from, totals_of};

/// Runs are added one after the other.
pub fn totals_are_added_up()
    ensures { (t : RunTotals) (runs : List RunTally) (run : RunTally)
        → totals_from t (runs ++ run ∷ []) ≡ with_run (totals_from t runs) run }
{}

/// No area overflows: the totals of so many runs are that small, and the area of 65,536 runs fits 128 bits.
pub fn areas_never_overflow()
    ensures small { (g : EventGraph) (runs : List RunTally)
        → All (λ r. All (IsOfRuns 1) r.items) runs
        → All (IsOfRuns (length runs)) (totals_of g runs).items }
    ensures fits { (runs : ℕ) (span : Option Span) (area : ℤ) → runs ≤ RUNS_MAX
        → IsOfRuns runs (CellItem span area) → FitsSigned w128 area }
{}
