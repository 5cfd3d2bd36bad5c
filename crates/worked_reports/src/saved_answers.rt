//! What `save` and `resume` answer, and what `run` does: starting values, ends, and the order of
//! what is refused.

ghost use Rattle.std.specs.Prelude.{◌≡◌, ◌++◌, ℕ, pos, neg_ℤ, List, [], ◌∷◌, Some, None, codes, length};
ghost use Rattle.sig_base.specs.declared.fault.FaultKind.TheVariants as faults;
ghost use Rattle.model_core.specs.Run.Machine.{Ended, Stopped, Faulted, Going};
ghost use Rattle.answer_delivery.specs.declared.answer.Answer.TheVariants.{Given, Refused};
ghost use Rattle.answer_delivery.specs.declared.status.End.TheVariants as ends;
ghost use Rattle.answer_delivery.specs.declared.status.Refusal.TheVariants as refusals;
ghost use Rattle.answer_delivery.specs.AnswerForms.{done};
ghost use Rattle.job_answers.specs.RunAnswer.{end_of, run_answer};
ghost use Rattle.job_answers.specs.SaveAnswer.{unless_too_long, unless_finished, save_answer};
ghost use Rattle.job_answers.specs.ResumeAnswer.{resume_refusal, resume_answer, ResumedExceedsRoom};
ghost use Rattle.job_answers.specs.StartingValues.{start_refusal};
ghost use Rattle.worked_runs.specs.Building.{ranged};
ghost use Rattle.worked_runs.specs.DrawnModels.{after_draw, one_to_six, arriving};
ghost use Rattle.worked_runs.specs.Models.{clock, strict_clock, ordering, taking_two};
ghost use Rattle.worked_runs.specs.SavedExamples.{saved_clock};
ghost use Rattle.worked_reports.specs.AskedOptions.{saving, resuming, after_events, with_many_pending};

/// There is one starting value for each parameter, each in its range. Their number is looked at
/// first, and then the first one outside.
pub fn starting_values_are_judged()
    ensures ends_of_ranges { start_refusal
        (taking_two (ranged (codes "X") 2 9 2) (ranged (codes "Y") 0 5 0) []) (pos 2 ∷ pos 5 ∷ [])
        ≡ None }
    ensures first_outside { start_refusal
        (taking_two (ranged (codes "X") 2 9 2) (ranged (codes "Y") 0 5 0) []) (pos 1 ∷ pos 6 ∷ [])
        ≡ Some (codes "sigma: starting value 1 outside: 1\n") }
    ensures second_outside { start_refusal
        (taking_two (ranged (codes "X") 2 9 2) (ranged (codes "Y") 0 5 0) [])
        (pos 9 ∷ neg_ℤ (pos 7) ∷ []) ≡ Some (codes "sigma: starting value 2 outside: -7\n") }
    ensures second_above { start_refusal
        (taking_two (ranged (codes "X") 2 9 2) (ranged (codes "Y") 0 5 0) []) (pos 9 ∷ pos 6 ∷ [])
        ≡ Some (codes "sigma: starting value 2 outside: 6\n") }
    ensures too_few { start_refusal
        (taking_two (ranged (codes "X") 2 9 2) (ranged (codes "Y") 0 5 0) []) (pos 1 ∷ [])
        ≡ Some (codes "sigma: starting values needed 2 given 1\n") }
    ensures too_many { start_refusal clock (pos 1 ∷ pos 2 ∷ pos 3 ∷ [])
        ≡ Some (codes "sigma: starting values needed 0 given 3\n") }
{}

/// A run that ends or stops is done, and one that faults or whose budget is spent has a status of
/// its own.
pub fn runs_are_answered()
    ensures ended { (time : ℕ) → end_of (Ended time) ≡ ends.Done }
    ensures stopped { end_of Stopped ≡ ends.Done }
    ensures faulted { end_of (Faulted 3 faults.Overflow) ≡ ends.ModelFault }
    ensures going { end_of Going ≡ ends.Budget }
    ensures budget { run_answer clock 12 42 2 []
        ≡ Given ends.Budget (codes "at 0 N=1\nbudget 2\n") }
    ensures stop { run_answer clock 7 42 9 []
        ≡ Given ends.Done (codes "at 0 N=1\nat 5 N=2\nstopped 7\n") }
    ensures fault { run_answer strict_clock 100 42 9 []
        ≡ Given ends.ModelFault (codes "at 0 N=1\nat 5 N=2\nat 10 N=3\nfault 15 range\n") }
    ensures start { run_answer strict_clock 100 42 9 (pos 5 ∷ [])
        ≡ Refused refusals.BadStart (codes "sigma: starting values needed 0 given 1\n") }
{}

/// `save` answers a document where the run goes on, and refuses starting values first, then a run
/// that is over in any way, and then a document of more than 24 MiB.
pub fn runs_are_saved_while_they_go_on()
    ensures document { save_answer clock (saving 12 42 2 [])
        ≡ done (codes "model CLOCK;\nvar N : 0..3 clip = 0;\nwatch N;\nvertex RUN {\n  set N := N + 1;\n  schedule RUN after 5;\n}\nend\n"
        ++ codes "snapshot\nseed 0 42\nclk 5\nevents 2\nvalue N 2\nnoted 1\npending 5 5 RUN\nend\n") }
    ensures with_words_taken { save_answer (arriving (after_draw 0 one_to_six ∷ []))
        (saving 12 42 2 [])
        ≡ done (codes "version 2;\nmodel DELAY;\nvar N : 0..9 clip = 0;\ntable T { 8 : 1; 2 : 1; }\nwatch N, A, B;\nvertex RUN {\n  set N := N + 1;\n  schedule RUN after draw from 54 in 1..6;\n}\nvertex A {\n}\nvertex B {\n}\nend\n"
        ++ codes "snapshot\nseed 0 42\nclk 4\nevents 2\nstream 54 2\nvalue N 2\nnoted 1\npending 3 5 RUN\nend\n") }
    ensures stopped { save_answer clock (saving 12 42 9 [])
        ≡ Refused refusals.Finished (codes "sigma: run finished\n") }
    ensures ended { save_answer (ordering []) (saving 12 42 9 [])
        ≡ Refused refusals.Finished (codes "sigma: run finished\n") }
    ensures faulted { save_answer strict_clock (saving 100 42 9 [])
        ≡ Refused refusals.Finished (codes "sigma: run finished\n") }
    ensures start_before { save_answer (ordering []) (saving 12 42 9 (pos 5 ∷ []))
        ≡ Refused refusals.BadStart (codes "sigma: starting values needed 0 given 1\n") }
    ensures longest { (document : List ℕ) → length document ≡ 25165824
        → unless_too_long document ≡ done document }
    ensures too_long { (document : List ℕ) → length document ≡ 25165825
        → unless_too_long document
        ≡ Refused refusals.TooLarge (codes "sigma: snapshot too long\n") }
    ensures finished_before { (document : List ℕ) → length document ≡ 25165825
        → unless_finished Stopped (unless_too_long document)
        ≡ Refused refusals.Finished (codes "sigma: run finished\n") }
{}

/// `resume` refuses a stop time below the clock first, and then more than 2^40 events in all. Else
/// it answers what `run` would from there on.
pub fn resuming_is_answered()
    ensures whole { resume_answer clock saved_clock 12 100
        ≡ Given ends.Done (codes "at 5 N=2\nat 10 N=3\nstopped 12\n") }
    ensures budget { resume_answer clock saved_clock 20 1
        ≡ Given ends.Budget (codes "at 5 N=2\nbudget 1\n") }
    ensures fault { resume_answer strict_clock saved_clock 20 9
        ≡ Given ends.ModelFault (codes "at 5 N=2\nat 10 N=3\nfault 15 range\n") }
    ensures at_the_clock { resume_refusal saved_clock 5 1 ≡ None }
    ensures below_the_clock { resume_refusal saved_clock 4 1
        ≡ Some (codes "sigma: stop time below clock 5\n") }
    ensures most_events { resume_refusal (after_events 1099511627770) 12 6 ≡ None }
    ensures too_many_events { resume_refusal (after_events 1099511627770) 12 7
        ≡ Some (codes "sigma: too many events\n") }
    ensures stop_time_before_events { resume_refusal (after_events 1099511627776) 4 1
        ≡ Some (codes "sigma: stop time below clock 5\n") }
    ensures is_a_bad_start { resume_answer clock saved_clock 4 1
        ≡ Refused refusals.BadStart (codes "sigma: stop time below clock 5\n") }
{}

/// A saved run has room for its pending events at least. What is pending and what the next event
/// schedules are together more than there is room for, or not.
pub fn saved_runs_have_room_for_themselves()
    ensures no_room_asked { ResumedExceedsRoom clock (with_many_pending 3) (resuming 12 1 0) }
    ensures too_little_asked { ResumedExceedsRoom clock (with_many_pending 3) (resuming 12 1 3) }
    ensures enough_asked { ResumedExceedsRoom clock (with_many_pending 3) (resuming 12 1 4) → ⊥ }
    ensures nothing_scheduled { ResumedExceedsRoom (ordering []) (with_many_pending 3)
        (resuming 12 1 0) → ⊥ }
    ensures not_due { ResumedExceedsRoom clock (with_many_pending 3) (resuming 9 1 0) → ⊥ }
    ensures no_event { ResumedExceedsRoom clock (with_many_pending 3) (resuming 12 0 0) → ⊥ }
{}
