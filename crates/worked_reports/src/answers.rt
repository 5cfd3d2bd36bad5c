//! The answers about models, job by job, and the forms of answers: the job's own bytes, and no
//! other status.

ghost use Rattle.std.specs.Prelude.{◌≡◌, ◌++◌, [], Some, None, codes};
ghost use Rattle.command_words.specs.declared.reading.Reading.TheVariants as readings;
ghost use Rattle.command_words.specs.declared.reading.ModelJob.TheVariants as models;
ghost use Rattle.answer_delivery.specs.declared.answer.Answer.TheVariants.{Given, Refused};
ghost use Rattle.answer_delivery.specs.declared.status.End.TheVariants as ends;
ghost use Rattle.answer_delivery.specs.declared.status.Refusal.TheVariants as refusals;
ghost use Rattle.answer_delivery.specs.AnswerForms.{done, IsDone, refused, too_long};
ghost use Rattle.job_answers.specs.Answers.{AnswersModel, HasNothingToWrite, IsWithin, IsOver};
ghost use Rattle.worked_runs.specs.Models.{clock, loop};
ghost use Rattle.worked_runs.specs.Texts.{desk};

/// Each job answers what it is asked, on a model on which another job answers otherwise.
pub fn models_are_answered()
    ensures check { AnswersModel models.Check clock (done (codes "accepted CLOCK\n")) }
    ensures print { AnswersModel models.Print clock
        (done (codes "model CLOCK;\nvar N : 0..3 clip = 0;\nwatch N;\nvertex RUN {\n  set N := N + 1;\n  schedule RUN after 5;\n}\nend\n")) }
    ensures uses { AnswersModel models.Uses desk
        (done (codes "N readers SERVE writers SERVE watched yes\n"
        ++ codes "OPEN readers SERVE writers SERVE watched no\n"
        ++ codes "CELLS readers - writers SERVE watched no\n")) }
    ensures conflicts { AnswersModel models.Conflicts clock (done (codes "RUN RUN variables\n")) }
    ensures describe { AnswersModel models.Describe loop
        (done (codes "This is the model LOOP.\nNothing is watched.\nThe first event is RUN.\nEvent RUN takes no values.\nAfter RUN, event A follows at once.\n"
        ++ codes "Event A takes no values.\nAfter A, event B follows at once.\nEvent B takes no values.\nAfter B, event A follows at once.\n")) }
    ensures run { AnswersModel
        (models.Run (record { until = 7; seed = 42; events = 9; starts = []; room = 5 })) clock
        (Given ends.Done (codes "at 0 N=1\nat 5 N=2\nstopped 7\n")) }
    ensures run_at_its_budget { AnswersModel
        (models.Run (record { until = 12; seed = 42; events = 2; starts = []; room = 5 })) clock
        (Given ends.Budget (codes "at 0 N=1\nbudget 2\n")) }
    ensures save { AnswersModel
        (models.Save (record { until = 12; seed = 42; events = 9; starts = [] })) clock
        (Refused refusals.Finished (codes "sigma: run finished\n")) }
{}

/// A job that is done has no other status and no other bytes, and a text that is refused has its
/// line.
pub fn answers_have_forms()
    ensures done { done (codes "x") ≡ Given ends.Done (codes "x") }
    ensures is_done { IsDone (λ out. out ≡ codes "x") (Given ends.Done (codes "x")) }
    ensures with_another_end { IsDone (λ out. out ≡ codes "x") (Given ends.Rejected (codes "x"))
        → ⊥ }
    ensures with_other_bytes { IsDone (λ out. out ≡ codes "x") (Given ends.Done (codes "y")) → ⊥ }
    ensures refused { refused (codes "x") ≡ Refused refusals.Refused (codes "x") }
    ensures too_long { too_long ≡ codes "sigma: text too long\n" }
{}

/// Only of `uses` and `conflicts` there may be nothing to write. A text of as many bytes as the
/// limit is within it, and one byte more is over it.
pub fn answers_have_limits()
    ensures no_uses { HasNothingToWrite (readings.Model models.Uses) [] }
    ensures some_uses { HasNothingToWrite (readings.Model models.Uses) (codes "x") → ⊥ }
    ensures no_conflicts { HasNothingToWrite (readings.Model models.Conflicts) [] }
    ensures some_conflicts { HasNothingToWrite (readings.Model models.Conflicts) (codes "x") → ⊥ }
    ensures nothing_of_another { HasNothingToWrite (readings.Model models.Print) [] → ⊥ }
    ensures as_many { IsWithin (Some 3) (codes "abc") }
    ensures one_more { IsWithin (Some 3) (codes "abcd") → ⊥ }
    ensures is_over { IsOver (Some 3) (codes "abcd") }
    ensures not_over { IsOver (Some 3) (codes "abc") → ⊥ }
    ensures without_a_limit { IsWithin None (codes "abcd") }
    ensures never_over { IsOver None (codes "abcd") → ⊥ }
{}
