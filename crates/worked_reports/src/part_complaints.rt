//! Documents and saved runs: the complaint about their last part, their answers, and which jobs may stop short.

ghost use Rattle.std.specs.Prelude.{ℕ, List};
ghost use Rattle.command_words.specs.declared.reading.DocumentJob.TheVariants as documents;
ghost use Rattle.command_words.specs.declared.reading.ModelJob.TheVariants as models;
ghost use Rattle.command_words.specs.declared.reading.SavedJob.TheVariants as saved_jobs;
ghost use Rattle.command_words.specs.declared.reading.Reading.TheVariants as readings;
ghost use Rattle.command_words.specs.declared.resume_options.ResumeOptions.{ResumeOptions};
ghost use Rattle.command_words.specs.declared.run_options.RunOptions.{RunOptions};
ghost use Rattle.model_core.specs.EventGraph.{EventGraph};
ghost use Rattle.model_core.specs.Rules.Reduction.{RuleApplication};
ghost use Rattle.model_core.specs.Rules.Verdict.{verdict};
ghost use Rattle.model_core.specs.Saved.SavedRun.{SavedRun};
ghost use Rattle.model_core.specs.Static.Reading.{Reads, ReadsDocument};
ghost use Rattle.model_core.specs.Text.CertificateText.{IsNoCertificateAt};
ghost use Rattle.model_core.specs.Text.DocumentText.{BeginsWithModel};
ghost use Rattle.model_core.specs.Text.Lexing.{Lexeme};
ghost use Rattle.model_core.specs.Text.SnapshotGrammar.{IsNoSnapshotAt};
ghost use Rattle.model_core.specs.Text.Written.{WrittenModel};
ghost use Rattle.answer_delivery.specs.declared.complaint.Complaint.TheVariants as complaints;
ghost use Rattle.job_answers.specs.Answers.{Responds, MayStopShort};
ghost use Rattle.job_answers.specs.CertifyAnswer.{answer_of_verdict};
ghost use Rattle.job_answers.specs.DocumentComplaints.{IsGrammarComplaint};
ghost use Rattle.job_answers.specs.ResumeAnswer.{resume_answer, ResumedExceedsRoom};
ghost use Rattle.job_answers.specs.RunAnswer.{ExceedsRoom};
ghost use Rattle.job_answers.specs.SavedComplaints.{IsSavedGrammarComplaint};
ghost use Rattle.job_answers.specs.SavedReading.{ReadsSaved};

/// Where no certificate follows two models, or no snapshot one model, a token is unexpected there. No tokens have the complaint of
/// a bad byte, or of a bad snapshot.
pub fn last_parts_are_complained_of()
    ensures certificate { (text : List ℕ) (tokens left last : List Lexeme) (first second : WrittenModel)
        (at : ℕ) → BeginsWithModel tokens first left → BeginsWithModel left second last
        → IsNoCertificateAt text last at → IsGrammarComplaint text tokens complaints.Unexpected at }
    ensures no_bad_byte { (text : List ℕ) (tokens : List Lexeme) (at : ℕ)
        → IsGrammarComplaint text tokens complaints.BadByte at → ⊥ }
    ensures snapshot { (text : List ℕ) (tokens left : List Lexeme) (model : WrittenModel) (at : ℕ)
        → BeginsWithModel tokens model left → IsNoSnapshotAt text left at
        → IsSavedGrammarComplaint text tokens complaints.Unexpected at }
    ensures no_bad_snapshot { (text : List ℕ) (tokens : List Lexeme) (at : ℕ)
        → IsSavedGrammarComplaint text tokens complaints.BadSnapshot at → ⊥ }
{}

/// A document that reads has the answer for its two models and its certificate, and a saved document that for its model and its
/// run.
pub fn documents_are_answered()
    ensures certify { (text : List ℕ) (g h : EventGraph) (applications : List RuleApplication)
        → ReadsDocument text g applications h
        → Responds (readings.Document documents.Certify) text
        (answer_of_verdict (verdict g applications h)) }
    ensures resume { (text : List ℕ) (g : EventGraph) (s : SavedRun) (o : ResumeOptions)
        → ReadsSaved text g s
        → Responds (readings.Saved (saved_jobs.Resume o)) text
        (resume_answer g s o.until o.events) }
{}

/// `run` and `resume` may stop short where the run exceeds its room, `replicate` anywhere, and `print` and `certify` nowhere.
pub fn jobs_may_stop_short()
    ensures run { (text : List ℕ) (g : EventGraph) (o : RunOptions) → Reads text g
        → ExceedsRoom g o.until o.seed o.events o.starts o.room
        → MayStopShort (readings.Model (models.Run o)) text }
    ensures resume { (text : List ℕ) (g : EventGraph) (s : SavedRun) (o : ResumeOptions)
        → ReadsSaved text g s → ResumedExceedsRoom g s o
        → MayStopShort (readings.Saved (saved_jobs.Resume o)) text }
    ensures print { (text : List ℕ) → MayStopShort (readings.Model models.Print) text → ⊥ }
    ensures certify { (text : List ℕ) → MayStopShort (readings.Document documents.Certify) text
        → ⊥ }
{}
