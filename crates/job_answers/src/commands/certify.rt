//! `certify`: whether the certificate of a document holds between its two models, and the law that two models mean the same
//! where it does.

ghost use Rattle.std.specs.Prelude.{◌≡◌, List, ℕ, map, IfOk};
ghost use Rattle.command_words.specs.declared.reading.DocumentJob.TheVariants.{Certify};
ghost use Rattle.command_words.specs.declared.reading.Reading.TheVariants.{Document as OfDocument};
ghost use Rattle.model_core.specs.Code.Views.{graph_of, application_of};
ghost use Rattle.model_core.specs.Rules.Verdict.{verdict};
ghost use Rattle.reduction_cert.specs.VerdictView.{verdict_of};
ghost use Rattle.job_answers.specs.Answers.{Answers};
ghost use Rattle.job_answers.specs.CertifyAnswer.{answer_of_verdict, Certifies};
ghost use Rattle.answer_delivery.specs.declared.answer.Answer.TheVariants.{Given as Gives};
ghost use Rattle.answer_delivery.specs.declared.status.End.TheVariants.{Done as IsDone};

use crate::document_reading::Document;
use answer_delivery::{Answer, End};
use reduction_cert::{Verdict, check_chain, verdicts_tell_chains};
use round_trip::documents_have_valid_models;
use sig_base::{NoMemory, Text, put_bytes, put_counted};
use std::alloc::Global;

/// The line that rejects a certificate at this line of it.
fn rejection_line(alloc: Global, line: usize) -> Result<Text, NoMemory>
    ensures { IfOk result
        (λ out. Gives End.Rejected out ≡ answer_of_verdict (verdict_of (Verdict.Rejected line))) }
{
    let mut out = Vec::new(alloc);
    put_counted(&mut out, b"rejected ", line as u64)?;
    put_bytes(&mut out, b"\n")?;
    Ok(Text::from_vec(out))
}

/// The answer with the verdict.
fn verdict_answer(alloc: Global, verdict: Verdict) -> Result<Answer, NoMemory>
    ensures { IfOk result (λ a. a ≡ answer_of_verdict (verdict_of verdict)) }
{
    match verdict {
        Verdict::Sound => {
            let out = Vec::from_slice(alloc, b"sound\n")?;
            Ok(Answer::Given(End::Done, Text::from_vec(out)))
        }
        Verdict::Rejected { line } => {
            let out = rejection_line(alloc, line)?;
            Ok(Answer::Given(End::Rejected, out))
        }
        Verdict::Differs => {
            let out = Vec::from_slice(alloc, b"differs\n")?;
            Ok(Answer::Given(End::Rejected, Text::from_vec(out)))
        }
    }
}

/// Whether the certificate of the document holds.
pub fn certify(alloc: Global, document: &Document) -> Result<Answer, NoMemory>
    ensures { IfOk result
        (λ a. a ≡ answer_of_verdict (verdict (graph_of document.now.original)
        (map application_of document.now.applications) (graph_of document.now.reduced))) }
{
    let verdict = check_chain(
        alloc,
        &document.original,
        &document.applications,
        &document.reduced,
    )?;
    verdict_answer(alloc, verdict)
}

/// The two models of a document whose certificate is found sound mean the same. The function does nothing: what it ensures
/// holds of all documents.
pub fn sound_documents_mean_the_same()
    ensures { (text bytes : List ℕ) → Answers (OfDocument Certify) text (Gives IsDone bytes)
        → Certifies text }
{
    verdicts_tell_chains();
    documents_have_valid_models();
}
