//! `describe`: a model in English sentences.

ghost use Rattle.std.specs.Prelude.{◌≡◌, IfOk};
ghost use Rattle.model_core.specs.Code.Views.{graph_of};
ghost use Rattle.describe.specs.Description.{description};
ghost use Rattle.answer_delivery.specs.AnswerForms.{done};

use answer_delivery::{Answer, End};
use model_core::Model;
use sig_base::NoMemory;
use std::alloc::Global;

/// The sentences.
pub fn describe(alloc: Global, model: &Model) -> Result<Answer, NoMemory>
    ensures { IfOk result (λ a. a ≡ done (description (graph_of model.now))) }
{
    let out = describe::describe(alloc, model)?;
    Ok(Answer::Given(End::Done, out))
}
