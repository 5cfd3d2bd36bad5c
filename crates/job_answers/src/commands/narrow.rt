//! `narrow`: a model with the ranges declared that it needs, and the law that it means the same.

ghost use Rattle.std.specs.Prelude.{ℕ, List, IfOk};
ghost use Rattle.command_words.specs.declared.reading.ModelJob.TheVariants.{Narrow};
ghost use Rattle.command_words.specs.declared.reading.Reading.TheVariants.{Model as OfModel};
ghost use Rattle.model_core.specs.Static.Reading.{IsValid};
ghost use Rattle.model_core.specs.Ranges.Narrowed.{IsNarrowed};
ghost use Rattle.model_core.specs.Code.Views.{graph_of};
ghost use Rattle.answer_delivery.specs.AnswerForms.{IsDone};
ghost use Rattle.answer_delivery.specs.declared.answer.Answer.TheVariants.{Given};
ghost use Rattle.job_answers.specs.Answers.{Answers};
ghost use Rattle.job_answers.specs.RewrittenAnswer.{Rewrites, RewritesTheSame};

use crate::last_text::last_text;
use answer_delivery::{Answer, End};
use model_core::Model;
use range_infer::{narrow_to_needed, narrowed_models_mean_the_same};
use round_trip::validity_is_by_parts;
use sig_base::NoMemory;
use std::alloc::Global;

/// The model with the ranges declared that it needs.
pub fn narrow(alloc: Global, model: Model) -> Result<Answer, NoMemory>
    requires { IsValid (graph_of model) }
    ensures { IfOk result (IsDone (Rewrites IsNarrowed (graph_of model))) }
{
    let mut model = model;
    narrow_to_needed(alloc, &mut model)?;
    let out = last_text(alloc, model)?;
    Ok(Answer::Given(End::Done, out))
}

/// What `narrow` writes for a text reads back as the model of the text with the ranges that it needs, and means the same.
/// The function does nothing: what it ensures holds of all texts.
pub fn narrower_models_mean_the_same()
    ensures { (text out : List ℕ) (end : End) → Answers (OfModel Narrow) text (Given end out)
        → RewritesTheSame IsNarrowed text out }
{
    validity_is_by_parts();
    narrowed_models_mean_the_same();
}
