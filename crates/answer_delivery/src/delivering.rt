//! The answer's way to the output: its bytes are written, at once or as they come, and then finished.

ghost use Rattle.std.specs.Prelude.{◌≡◌, ◌≢◌, Err, MatchResult};
ghost use Rattle.answer_delivery.specs.Delivery.{Delivers};
ghost use Rattle.answer_delivery.specs.DeliverySteps.{Written, Closed};

use crate::answer::Answer;
use crate::status::{End, Failure, Refusal};
use sig_base::{NoMemory, Sink, Text, put};

/// What there is to report of an answer, once its bytes are on the output.
#[derive(Drop)]
pub enum DeliveryOutcome {
    /// How the job ended.
    Gave(End),
    /// Why nothing was written, and the line for the error output.
    Refused(Refusal, Text),
}

/// Writes all of the bytes, as one piece.
pub fn write_all<K: Sink>(output: &mut K, bytes: &[u8]) -> Result<(), Failure>
    ensures { Written bytes.now result (K.seen output.old) (K.seen output.new) }
{
    match put(output, bytes) {
        Ok(()) => Ok(()),
        Err(_) => Err(Failure::WriteFault),
    }
}

/// Finishes the output after the bytes of an answer.
pub fn close<K: Sink>(output: &mut K, end: End) -> Result<DeliveryOutcome, Failure>
    ensures { Closed end result (K.seen output.old) (K.seen output.new) }
{
    match output.finish() {
        Ok(()) => Ok(DeliveryOutcome::Gave(end)),
        Err(_) => Err(Failure::WriteFault),
    }
}

/// Writes the answer's bytes, and finishes the output; of a refusal nothing is written.
fn send<K: Sink>(output: &mut K, answer: Answer) -> Result<DeliveryOutcome, Failure>
    ensures delivers { Delivers K.seen answer result output.old output.new }
    ensures has_memory { result ≢ Err Failure.NoMemory }
{
    match answer {
        Answer::Given(end, bytes) => {
            write_all(output, bytes.as_slice())?;
            close(output, end)
        }
        Answer::Refused(why, line) => Ok(DeliveryOutcome::Refused(why, line)),
    }
}

/// Writes an answer that is whole, and finishes the output. Where memory was refused before there was an answer, nothing is
/// written.
pub fn deliver<K: Sink>(
    output: &mut K,
    answer: Result<Answer, NoMemory>,
) -> Result<DeliveryOutcome, Failure>
    ensures { MatchResult answer
        (λ a. Delivers K.seen a result output.old output.new × (result ≢ Err Failure.NoMemory))
        (λ e. (result ≡ Err Failure.NoMemory) × (output.new ≡ output.old)) }
{
    match answer {
        Ok(answer) => send(output, answer),
        Err(_) => Err(Failure::NoMemory),
    }
}
