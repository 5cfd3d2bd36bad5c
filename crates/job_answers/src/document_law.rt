//! Laws of the complaints about documents. The functions do nothing: what they ensure holds of all documents.

ghost use Rattle.std.specs.Prelude.{◌≡◌, ◌≤◌, ◌⊎◌, ℕ, List, length};
ghost use Rattle.sig_base.specs.declared.limits.TheConstants.{DOCUMENT_MAX};
ghost use Rattle.command_words.specs.declared.reading.Reading.TheVariants.{Saved as OfSaved};
ghost use Rattle.command_words.specs.declared.reading.SavedJob.{SavedJob};
ghost use Rattle.model_core.specs.EventGraph.{EventGraph};
ghost use Rattle.model_core.specs.Rules.Reduction.{RuleApplication};
ghost use Rattle.model_core.specs.Static.Reading.{IsValid, ReadsDocument};
ghost use Rattle.model_core.specs.Saved.SavedRun.{SavedRun};
ghost use Rattle.answer_delivery.specs.declared.answer.Answer.{Answer};
ghost use Rattle.answer_delivery.specs.declared.complaint.Complaint.{Complaint};
ghost use Rattle.job_answers.specs.Answers.{AnswersSaved, Answers};
ghost use Rattle.job_answers.specs.DocumentComplaints.{IsDocumentComplaint};
ghost use Rattle.job_answers.specs.TextComplaints.{HasDocumentComplaint, HasPairComplaint, HasSavedComplaint};
ghost use Rattle.job_answers.specs.PairComplaints.{IsPairComplaint};
ghost use Rattle.job_answers.specs.PairReading.{ReadsPair};
ghost use Rattle.job_answers.specs.SavedComplaints.{IsSavedComplaint};
ghost use Rattle.job_answers.specs.SavedReading.{ReadsSaved};

use snapshot_text::snapshots_have_one_reading;
use static_laws::accepted_or_one_fault;

/// A document within its limit has one complaint or reads as two models and a certificate, and never both.
pub fn documents_have_one_complaint()
    ensures one { (text : List ℕ) (c d : Complaint) (i j : ℕ) → IsDocumentComplaint text c i
        → IsDocumentComplaint text d j → (c ≡ d) × (i ≡ j) }
    ensures none { (text : List ℕ) (c : Complaint) (i : ℕ) (g : EventGraph)
        (applications : List RuleApplication) (h : EventGraph)
        → IsDocumentComplaint text c i → ReadsDocument text g applications h → ⊥ }
    ensures one_reading { (text : List ℕ) (g h k l : EventGraph) (a b : List RuleApplication)
        → ReadsDocument text g a h → ReadsDocument text k b l → (g ≡ k) × (a ≡ b) × (h ≡ l) }
    ensures some { (text : List ℕ) → length text ≤ DOCUMENT_MAX
        → HasDocumentComplaint text
        ⊎ ((g : EventGraph) × (applications : List RuleApplication) × (h : EventGraph)
        × ReadsDocument text g applications h) }
{
    accepted_or_one_fault();
}

/// A document of two texts within its limit has one complaint or reads as two models, which are valid, and never both.
pub fn pairs_have_one_complaint()
    ensures one { (text : List ℕ) (c d : Complaint) (i j : ℕ) → IsPairComplaint text c i
        → IsPairComplaint text d j → (c ≡ d) × (i ≡ j) }
    ensures none { (text : List ℕ) (c : Complaint) (i : ℕ) (g h : EventGraph)
        → IsPairComplaint text c i → ReadsPair text g h → ⊥ }
    ensures one_reading { (text : List ℕ) (g h k l : EventGraph) → ReadsPair text g h
        → ReadsPair text k l → (g ≡ k) × (h ≡ l) }
    ensures some { (text : List ℕ) → length text ≤ DOCUMENT_MAX
        → HasPairComplaint text ⊎ ((g : EventGraph) × (h : EventGraph) × ReadsPair text g h) }
    ensures valid { (text : List ℕ) (g h : EventGraph) → ReadsPair text g h
        → IsValid g × IsValid h }
{
    accepted_or_one_fault();
}

/// A saved document within its limit has one complaint or reads as a model and a saved run, and never both.
pub fn saved_documents_have_one_complaint()
    ensures one { (text : List ℕ) (c d : Complaint) (i j : ℕ) → IsSavedComplaint text c i
        → IsSavedComplaint text d j → (c ≡ d) × (i ≡ j) }
    ensures none { (text : List ℕ) (c : Complaint) (i : ℕ) (g : EventGraph) (s : SavedRun)
        → IsSavedComplaint text c i → ReadsSaved text g s → ⊥ }
    ensures one_reading { (text : List ℕ) (g h : EventGraph) (s t : SavedRun) → ReadsSaved text g s
        → ReadsSaved text h t → (g ≡ h) × (s ≡ t) }
    ensures some { (text : List ℕ) → length text ≤ DOCUMENT_MAX
        → HasSavedComplaint text ⊎ ((g : EventGraph) × (s : SavedRun) × ReadsSaved text g s) }
{
    accepted_or_one_fault();
    snapshots_have_one_reading();
}

/// What is answered to a document that reads as a model and a saved run is answered for these.
pub fn read_runs_are_answered()
    ensures { (job : SavedJob) (text : List ℕ) (g : EventGraph) (s : SavedRun) (a : Answer)
        → ReadsSaved text g s → Answers (OfSaved job) text a → AnswersSaved job g s a }
{
    saved_documents_have_one_complaint();
}
