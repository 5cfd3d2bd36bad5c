//! `fuse`: a model in which duplicated vertices are merged, and the law that it means the same.

ghost use Rattle.std.specs.Prelude.{ℕ, List, IfOk};
ghost use Rattle.command_words.specs.declared.reading.ModelJob.TheVariants.{Fuse};
ghost use Rattle.command_words.specs.declared.reading.Reading.TheVariants.{Model as OfModel};
ghost use Rattle.model_core.specs.Rules.Fuse.{Fused};
ghost use Rattle.model_core.specs.Code.Views.{graph_of};
ghost use Rattle.answer_delivery.specs.AnswerForms.{IsDone};
ghost use Rattle.answer_delivery.specs.declared.answer.Answer.TheVariants.{Given};
ghost use Rattle.job_answers.specs.Answers.{Answers};
ghost use Rattle.job_answers.specs.RewrittenAnswer.{Rewrites, RewritesTheSame};

use crate::last_text::last_text;
use answer_delivery::{Answer, End};
use model_core::Model;
use round_trip::validity_is_by_parts;
use sig_base::NoMemory;
use std::alloc::Global;
use twin_rules::{fuse_all, fusing_ends};

/// The model in which of vertices that do the same one is left.
pub fn fuse(alloc: Global, model: Model) -> Result<Answer, NoMemory>
    ensures { IfOk result (IsDone (Rewrites Fused (graph_of model))) }
{
    let out = last_text(alloc, fuse_all(model))?;
    Ok(Answer::Given(End::Done, out))
}

/// What `fuse` writes for a text reads back as the model of the text with its duplicated vertices merged, and means the
/// same. The function does nothing: what it ensures holds of all texts.
pub fn fused_models_mean_the_same()
    ensures { (text out : List ℕ) (end : End) → Answers (OfModel Fuse) text (Given end out)
        → RewritesTheSame Fused text out }
{
    validity_is_by_parts();
    fusing_ends();
}
