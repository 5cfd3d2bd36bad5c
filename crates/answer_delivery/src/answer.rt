//! The answer to a text, and the answers that refuse one.

ghost use Rattle.std.specs.Prelude.{◌≡◌, IfOk};
ghost use Rattle.answer_delivery.specs.AnswerForms.{refused, too_long};
ghost use Rattle.answer_delivery.specs.Complaints.{message_of, byte_line};

use crate::complaint::Complaint;
use crate::status::{End, Refusal};
use sig_base::{NoMemory, Text};
use std::alloc::Global;

/// The answer of a job to a text.
#[derive(Drop)]
pub enum Answer {
    /// How it ends, and the bytes for the output.
    Given(End, Text),
    /// Why nothing is written, and the line for the error output.
    Refused(Refusal, Text),
}

/// The refusal of a text over the limit.
pub fn too_long_answer(alloc: Global) -> Result<Answer, NoMemory>
    ensures { IfOk result (λ a. a ≡ refused too_long) }
{
    let line = Vec::from_slice(alloc, b"sigma: text too long\n")?;
    Ok(Answer::Refused(Refusal::Refused, Text::from_vec(line)))
}

/// The refusal of a text of which there is something to complain, at a byte that counts from 0.
pub fn complaint_answer(alloc: Global, what: Complaint, at: usize) -> Result<Answer, NoMemory>
    ensures { IfOk result (λ a. a ≡ refused (byte_line at (message_of what))) }
{
    let line = what.line(alloc, at)?;
    Ok(Answer::Refused(Refusal::Refused, line))
}
