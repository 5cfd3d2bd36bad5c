//! `uses`: who reads and who writes each variable of a model, and whether it is watched.

ghost use Rattle.std.specs.Prelude.{◌≡◌, IfOk};
ghost use Rattle.model_core.specs.Code.Views.{graph_of};
ghost use Rattle.use_analysis.specs.UsesText.{uses_text};
ghost use Rattle.answer_delivery.specs.AnswerForms.{done};

use answer_delivery::{Answer, End};
use model_core::Model;
use sig_base::{NoMemory, Text};
use std::alloc::Global;
use use_analysis::put_uses;

/// A line for each variable.
pub fn uses(alloc: Global, model: &Model) -> Result<Answer, NoMemory>
    ensures { IfOk result (λ a. a ≡ done (uses_text (graph_of model.now))) }
{
    let mut out = Vec::new(alloc);
    put_uses(alloc, &mut out, model)?;
    Ok(Answer::Given(End::Done, Text::from_vec(out)))
}
