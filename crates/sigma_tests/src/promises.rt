//! What the promises of a call say, job by job, about the bytes that were written.
//! The clauses are theorems. The function that carries them does nothing.

ghost use Rattle.std.specs.Prelude.{◌≡◌, ◌+◌, ◌≤◌, ℕ, true, false, List, [], ◌∷◌, codes};
ghost use Rattle.sig_base.specs.declared.limits.TheConstants.{EVENTS_MAX};
ghost use Rattle.model_core.specs.Ranges.Narrowed.{IsNarrowed};
ghost use Rattle.model_core.specs.Rules.Fuse.{Fused};
ghost use Rattle.model_core.specs.Saved.SavedRun.{saved, history_from};
ghost use Rattle.model_core.specs.Text.HistoryText.{history_text};
ghost use Rattle.command_words.specs.declared.reading.Reading.TheVariants as readings;
ghost use Rattle.command_words.specs.declared.reading.ModelJob.TheVariants as models;
ghost use Rattle.command_words.specs.declared.save_options.SaveOptions.{SaveOptions};
ghost use Rattle.answer_delivery.specs.declared.answer.Answer.{Answer};
ghost use Rattle.answer_delivery.specs.declared.status.Status.{Status};
ghost use Rattle.answer_delivery.specs.declared.status.Status.TheVariants as statuses;
ghost use Rattle.answer_delivery.specs.Statuses.{status_of_answer, bytes_of_answer};
ghost use Rattle.job_answers.specs.Answers.{Answers};
ghost use Rattle.job_answers.specs.CertifyAnswer.{Certifies};
ghost use Rattle.job_answers.specs.ReduceAnswer.{KeepsMeaning};
ghost use Rattle.job_answers.specs.RewrittenAnswer.{RewritesTheSame};
ghost use Rattle.job_answers.specs.SavedAndResumed.{SavesTheRun};
ghost use Rattle.sigma_top.specs.Promises.{IsOfAnswer, PrintsModel};
ghost use Rattle.sigma_tests.specs.Devices.{PromisesSo, input_of, output_of};

/// Each promise says of the very bytes that were written what its job is for. That of `resume` also
/// holds where the run ends at a fault or at its budget.
pub fn promises_are_of_what_is_written()
    ensures printed { (text out : List ℕ) → PromisesSo statuses.Done (codes "print" ∷ []) text out
        → PrintsModel text out }
    ensures reduced { (text out : List ℕ) → PromisesSo statuses.Done (codes "reduce" ∷ []) text out
        → KeepsMeaning text out }
    ensures fused { (text out : List ℕ) → PromisesSo statuses.Done (codes "fuse" ∷ []) text out
        → RewritesTheSame Fused text out }
    ensures narrowed { (text out : List ℕ) → PromisesSo statuses.Done (codes "narrow" ∷ []) text out
        → RewritesTheSame IsNarrowed text out }
    ensures saved { (text out : List ℕ)
        → PromisesSo statuses.Done
        (codes "save" ∷ codes "--until=10" ∷ codes "--seed=0" ∷ codes "--events=5" ∷ []) text out
        → SavesTheRun text out (record { until = 10; seed = 0; events = 5; starts = [] }) }
    ensures resumed { (text document out : List ℕ) (o : SaveOptions)
        (saves : SavesTheRun text document o) → saves.here.now.clock ≤ 10
        → o.events + 5 ≤ EVENTS_MAX
        → PromisesSo statuses.Done
        (codes "resume" ∷ codes "--until=10" ∷ codes "--events=5" ∷ []) document out
        → out ≡ history_text saves.model 10 5
        (history_from saves.model (saved o.seed o.events saves.here) 10 5) }
    ensures resumed_up_to_a_fault { (text document out : List ℕ) (o : SaveOptions)
        (saves : SavesTheRun text document o) → saves.here.now.clock ≤ 10
        → o.events + 5 ≤ EVENTS_MAX
        → PromisesSo statuses.ModelFault
        (codes "resume" ∷ codes "--until=10" ∷ codes "--events=5" ∷ []) document out
        → out ≡ history_text saves.model 10 5
        (history_from saves.model (saved o.seed o.events saves.here) 10 5) }
    ensures resumed_up_to_a_budget { (text document out : List ℕ) (o : SaveOptions)
        (saves : SavesTheRun text document o) → saves.here.now.clock ≤ 10
        → o.events + 5 ≤ EVENTS_MAX
        → PromisesSo statuses.Budget
        (codes "resume" ∷ codes "--until=10" ∷ codes "--events=5" ∷ []) document out
        → out ≡ history_text saves.model 10 5
        (history_from saves.model (saved o.seed o.events saves.here) 10 5) }
    ensures certified { (text out : List ℕ)
        → PromisesSo statuses.Done (codes "certify" ∷ []) text out → Certifies text }
    ensures of_an_answer { (text out : List ℕ) (status : Status)
        → IsOfAnswer (readings.Model models.Check) (input_of text 0) status (output_of [] 0 false)
        (output_of out 0 true)
        → (a : Answer) × Answers (readings.Model models.Check) text a
        × (status ≡ status_of_answer a) × (out ≡ bytes_of_answer a) }
{}
