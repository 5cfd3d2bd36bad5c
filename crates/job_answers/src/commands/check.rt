//! `check`: a line that says that the model is accepted.

ghost use Rattle.std.specs.Prelude.{◌≡◌, IfOk};
ghost use Rattle.model_core.specs.Code.Views.{graph_of};
ghost use Rattle.answer_delivery.specs.AnswerForms.{done};
ghost use Rattle.job_answers.specs.Answers.{accepted_line};

use answer_delivery::{Answer, End};
use model_core::Model;
use sig_base::{NoMemory, Text, put_texts};
use std::alloc::Global;

/// The line with the name of the accepted model.
pub fn check(alloc: Global, model: &Model) -> Result<Answer, NoMemory>
    ensures { IfOk result (λ a. a ≡ done (accepted_line (graph_of model.now))) }
{
    let mut out = Vec::new(alloc);
    put_texts(&mut out, &[b"accepted ", model.name.as_slice(), b"\n"])?;
    Ok(Answer::Given(End::Done, Text::from_vec(out)))
}
