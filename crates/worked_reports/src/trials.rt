//! The summary of a model that a number makes, and what it counts.

ghost use Rattle.std.specs.Prelude.{◌≡◌, ◌++◌, [], codes};
ghost use Rattle.trial_report.specs.StepsMade.{steps_of_run};
ghost use Rattle.trial_report.specs.TrialText.{edges_in, size_line, applications_line, without_feed, run_line, summary};
ghost use Rattle.worked_runs.specs.Models.{clock, strict_clock, loop, bank};

/// All edges of all vertices count.
pub fn models_have_sizes()
    ensures edges { edges_in bank ≡ 5 }
    ensures size { size_line (codes "reduced") bank
        ≡ codes "reduced vertices 4 variables 4 edges 5\n" }
    ensures nothing { size_line (codes "original") (record loop { vertices = [] })
        ≡ codes "original vertices 0 variables 0 edges 0\n" }
    ensures applications { applications_line 12 ≡ codes "applications 12\n" }
    ensures without_feed { without_feed (codes "stopped 20\n") ≡ codes "stopped 20" }
{}

/// A step counts that is made up to the stop time and within the budget, also the last one where
/// that faults.
pub fn steps_are_counted()
    ensures up_to_the_stop_time { steps_of_run clock 42 [] 12 100 ≡ 3 }
    ensures at_the_stop_time { steps_of_run clock 42 [] 10 100 ≡ 3 }
    ensures before_it { steps_of_run clock 42 [] 9 100 ≡ 2 }
    ensures within_the_budget { steps_of_run clock 42 [] 12 2 ≡ 2 }
    ensures of_no_budget { steps_of_run clock 42 [] 12 0 ≡ 0 }
    ensures with_the_one_that_faults { steps_of_run strict_clock 42 [] 100 100 ≡ 4 }
    ensures before_it_faults { steps_of_run strict_clock 42 [] 14 100 ≡ 3 }
    ensures without_it { steps_of_run strict_clock 42 [] 100 3 ≡ 3 }
{}

/// How each run ends, how many steps it made, and how many notes there are: those of the original
/// first, and the number of applications between the sizes and the runs.
pub fn trials_have_summaries()
    ensures of_a_run { run_line (codes "original") clock 42 12 100
        ≡ codes "original stopped 12 events 3 notes 3\n" }
    ensures of_a_budget { run_line (codes "reduced") clock 42 12 2
        ≡ codes "reduced budget 2 events 2 notes 1\n" }
    ensures of_two { summary clock loop 7 42 12 30
        ≡ codes "original vertices 1 variables 1 edges 1\nreduced vertices 3 variables 0 edges 3\napplications 7\n"
        ++ codes "original stopped 12 events 3 notes 3\nreduced budget 30 events 30 notes 0\n" }
{}
