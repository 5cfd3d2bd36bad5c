//! `print`: the canonical text of a model.

ghost use Rattle.std.specs.Prelude.{◌≡◌, IfOk};
ghost use Rattle.model_core.specs.Code.Views.{graph_of};
ghost use Rattle.model_core.specs.Text.Canonical.{canonical};
ghost use Rattle.answer_delivery.specs.AnswerForms.{done};

use answer_delivery::{Answer, End};
use model_core::Model;
use sig_base::NoMemory;
use std::alloc::Global;

/// The canonical text of the model.
pub fn print(alloc: Global, model: &Model) -> Result<Answer, NoMemory>
    ensures { IfOk result (λ a. a ≡ done (canonical (graph_of model.now))) }
{
    let out = model_print::print(alloc, model)?;
    Ok(Answer::Given(End::Done, out))
}
