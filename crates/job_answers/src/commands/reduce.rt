//! `reduce`: the reduced model with its certificate, and the law that it means the same.

ghost use Rattle.std.specs.Prelude.{◌≡◌, ◌++◌, ℕ, List, map, IfOk};
ghost use Rattle.command_words.specs.declared.reading.ModelJob.TheVariants.{Reduce};
ghost use Rattle.command_words.specs.declared.reading.Reading.TheVariants.{Model as OfModel};
ghost use Rattle.model_core.specs.Static.Reading.{IsValid};
ghost use Rattle.model_core.specs.Text.Canonical.{canonical};
ghost use Rattle.model_core.specs.Rules.Certificate.{certificate};
ghost use Rattle.model_core.specs.Code.Views.{graph_of, application_of};
ghost use Rattle.answer_delivery.specs.AnswerForms.{IsDone};
ghost use Rattle.answer_delivery.specs.declared.answer.Answer.TheVariants.{Given};
ghost use Rattle.job_answers.specs.Answers.{Answers};
ghost use Rattle.job_answers.specs.ReduceAnswer.{Reduces, KeepsMeaning};

use answer_delivery::{Answer, End};
use model_core::Model;
use model_print::print;
use reducer::{Reduced, strategies_keep_the_meaning};
use reduction_cert::put_certificate;
use round_trip::validity_is_by_parts;
use sig_base::{NoMemory, Text};
use std::alloc::Global;
use std::mem::forget;

/// The canonical text of the reduced model, and then the certificate.
fn text_with_certificate(alloc: Global, reduced: &Reduced) -> Result<Text, NoMemory>
    ensures { IfOk result (λ out. out ≡ canonical (graph_of reduced.now.model)
        ++ certificate (map application_of reduced.now.applications)) }
{
    let mut out = print(alloc, &reduced.model)?;
    put_certificate(out.as_mut_vec(), reduced.applications.as_slice())?;
    Ok(out)
}

/// The reduced model and the certificate. The program ends after it, so the reduced model isn't taken apart.
pub fn reduce(alloc: Global, model: Model) -> Result<Answer, NoMemory>
    requires { IsValid (graph_of model) }
    ensures { IfOk result (IsDone (Reduces (graph_of model))) }
{
    let reduced = reducer::reduce(alloc, model)?;
    let out = text_with_certificate(alloc, &reduced)?;
    forget(reduced);
    Ok(Answer::Given(End::Done, out))
}

/// What `reduce` writes for a text reads back as the reduced model, which means the same as the model of the text. The
/// function does nothing: what it ensures holds of all texts.
pub fn written_models_mean_the_same()
    ensures { (text out : List ℕ) (end : End) → Answers (OfModel Reduce) text (Given end out)
        → KeepsMeaning text out }
{
    validity_is_by_parts();
    strategies_keep_the_meaning();
}
