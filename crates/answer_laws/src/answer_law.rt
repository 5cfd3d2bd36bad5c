//! Laws of the answers to texts: there is one, and which texts are refused. The functions do nothing: what they ensure holds
//! of all texts.

ghost use Rattle.std.specs.Prelude.{◌≡◌, ◌↔◌, ◌≤◌, ℕ, List, length};
ghost use Rattle.sig_base.specs.declared.limits.TheConstants.{TEXT_MAX, DOCUMENT_MAX};
ghost use Rattle.command_words.specs.declared.job.Job.{Job};
ghost use Rattle.command_words.specs.Readings.{reading_of, limit_of};
ghost use Rattle.model_core.specs.EventGraph.{EventGraph};
ghost use Rattle.model_core.specs.Static.Reading.{Reads};
ghost use Rattle.model_core.specs.Rules.Reduction.{RuleApplication, Strategy};
ghost use Rattle.answer_delivery.specs.declared.answer.Answer.{Answer};
ghost use Rattle.answer_delivery.specs.declared.status.Status.{Status};
ghost use Rattle.answer_delivery.specs.AnswerForms.{refused, too_long};
ghost use Rattle.job_answers.specs.AnswerLaws.{MayBeAsked};
ghost use Rattle.job_answers.specs.Answers.{IsOver, Answers};
ghost use Rattle.job_answers.specs.TextComplaints.{HasComplaint, HasDocumentComplaint, HasPairComplaint, HasSavedComplaint};
ghost use Rattle.answer_delivery.specs.Statuses.{status_of_answer};
ghost use Rattle.answer_laws.specs.Unreadable.{IsNoModel, IsNoDocument, IsNoPair, IsNoSavedDocument, IsUnreadable};

use job_answers::{
    answers_keep_their_laws, documents_have_one_complaint, pairs_have_one_complaint,
    saved_documents_have_one_complaint, texts_have_one_complaint,
};
use reducer::strategies_are_determined;
use text_laws::texts_read_as_one_model;

/// A job has one answer to a text, and so every byte that is written is determined by them. It comes from the
/// one model that the text reads as, the one list of applications of rules to it, and the one model reduced to.
pub fn answers_are_determined()
    ensures answer { (job : Job) (text : List ℕ) (a b : Answer) → Answers (reading_of job) text a
        → Answers (reading_of job) text b → a ≡ b }
    ensures has_answer { (job : Job) (text : List ℕ) → MayBeAsked (reading_of job)
        → (a : Answer) × Answers (reading_of job) text a }
    ensures model { (text : List ℕ) (g h : EventGraph) → Reads text g → Reads text h → g ≡ h }
    ensures applications { (g : EventGraph) (a b : List RuleApplication) (h k : EventGraph)
        → Strategy g a h → Strategy g b k → a ≡ b }
    ensures reduced { (g : EventGraph) (a b : List RuleApplication) (h k : EventGraph)
        → Strategy g a h → Strategy g b k → h ≡ k }
{
    answers_keep_their_laws();
    texts_have_one_complaint();
    documents_have_one_complaint();
    pairs_have_one_complaint();
    saved_documents_have_one_complaint();
    texts_read_as_one_model();
    strategies_are_determined();
}

/// Refused is exactly what can't be read: a text that reads as no model, for `compare` as no two models, and for
/// `certify` and `resume` as no document.
/// Within the limit such a text has a complaint, and no other has one; over the limit nothing can be read.
pub fn unreadable_texts_are_refused()
    ensures refused { (job : Job) (text : List ℕ) (a : Answer) → Answers (reading_of job) text a
        → (status_of_answer a ≡ Status.Refused) ↔ IsUnreadable (reading_of job) text }
    ensures complaint { (text : List ℕ) → length text ≤ TEXT_MAX
        → HasComplaint text ↔ IsNoModel text }
    ensures document_complaint { (text : List ℕ) → length text ≤ DOCUMENT_MAX
        → HasDocumentComplaint text ↔ IsNoDocument text }
    ensures pair_complaint { (text : List ℕ) → length text ≤ DOCUMENT_MAX
        → HasPairComplaint text ↔ IsNoPair text }
    ensures saved_complaint { (text : List ℕ) → length text ≤ DOCUMENT_MAX
        → HasSavedComplaint text ↔ IsNoSavedDocument text }
    ensures too_long { (job : Job) (text : List ℕ) → IsOver (limit_of (reading_of job)) text
        → Answers (reading_of job) text (refused too_long) × IsUnreadable (reading_of job) text }
{
    answers_keep_their_laws();
    texts_have_one_complaint();
    documents_have_one_complaint();
    pairs_have_one_complaint();
    saved_documents_have_one_complaint();
}
