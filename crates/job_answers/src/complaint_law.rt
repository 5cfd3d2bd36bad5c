//! Laws of the complaints about texts. The functions do nothing: what they ensure holds of all texts.

ghost use Rattle.std.specs.Prelude.{◌≡◌, ◌≤◌, ◌⊎◌, ℕ, List, length};
ghost use Rattle.sig_base.specs.declared.limits.TheConstants.{TEXT_MAX};
ghost use Rattle.command_words.specs.declared.reading.ModelJob.TheVariants.{Reduce};
ghost use Rattle.command_words.specs.declared.reading.Reading.TheVariants.{Model as OfModel};
ghost use Rattle.model_core.specs.EventGraph.{EventGraph};
ghost use Rattle.model_core.specs.Static.Reading.{Reads};
ghost use Rattle.answer_delivery.specs.declared.answer.Answer.{Answer};
ghost use Rattle.answer_delivery.specs.declared.complaint.Complaint.{Complaint};
ghost use Rattle.answer_delivery.specs.declared.status.Status.{Status};
ghost use Rattle.job_answers.specs.Answers.{Answers};
ghost use Rattle.answer_delivery.specs.Complaints.{IsComplaint};
ghost use Rattle.job_answers.specs.TextComplaints.{HasComplaint};
ghost use Rattle.answer_delivery.specs.Statuses.{status_of_answer};
ghost use Rattle.job_answers.specs.Inner.TextFacts.{TextFacts};

use static_laws::accepted_or_one_fault;
use text_laws::{openings_have_a_limit, texts_have_one_reading};

/// The facts about texts that the layers below give.
fn texts_keep_their_laws()
    ensures { TextFacts }
{
    texts_have_one_reading();
    openings_have_a_limit();
    accepted_or_one_fault();
}

/// A text within its limit has one complaint or reads as a model, and never both.
pub fn texts_have_one_complaint()
    ensures one { (text : List ℕ) (c d : Complaint) (i j : ℕ) → IsComplaint text c i
        → IsComplaint text d j → (c ≡ d) × (i ≡ j) }
    ensures none { (text : List ℕ) (c : Complaint) (i : ℕ) (g : EventGraph) → IsComplaint text c i
        → Reads text g → ⊥ }
    ensures some { (text : List ℕ) → length text ≤ TEXT_MAX
        → HasComplaint text ⊎ ((g : EventGraph) × Reads text g) }
{
    texts_keep_their_laws();
}

/// `reduce` ends as done for every text that reads as a model.
pub fn readable_models_are_reduced()
    ensures { (text : List ℕ) (g : EventGraph) (a : Answer) → Reads text g
        → Answers (OfModel Reduce) text a → status_of_answer a ≡ Status.Done }
{
    texts_have_one_complaint();
}
