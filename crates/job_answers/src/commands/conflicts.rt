//! `conflicts`: which pairs of a model's vertices are in conflict, and why.

ghost use Rattle.std.specs.Prelude.{◌≡◌, IfOk};
ghost use Rattle.model_core.specs.Code.Views.{graph_of};
ghost use Rattle.conflict_report.specs.ConflictText.{conflict_text};
ghost use Rattle.answer_delivery.specs.AnswerForms.{done};

use answer_delivery::{Answer, End};
use conflict_report::conflict_text;
use model_core::Model;
use sig_base::NoMemory;
use std::alloc::Global;

/// A line for each pair.
pub fn conflicts(alloc: Global, model: &Model) -> Result<Answer, NoMemory>
    ensures { IfOk result (λ a. a ≡ done (conflict_text (graph_of model.now))) }
{
    let out = conflict_text(alloc, model)?;
    Ok(Answer::Given(End::Done, out))
}
