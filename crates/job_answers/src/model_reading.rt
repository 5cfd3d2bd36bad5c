//! From the bytes of a text to the model that it reads as.

ghost use Rattle.std.specs.Prelude.{◌≡◌, ◌≤◌, ℕ, length, IfOk};
ghost use Rattle.model_core.specs.Static.Reading.{Reads};
ghost use Rattle.model_core.specs.Code.Views.{graph_of};
ghost use Rattle.answer_delivery.specs.Complaints.{IsComplaint};

use crate::reading_error::ReadingError;
use crate::written_reading::read_as_written;
use answer_delivery::Complaint;
use model_core::Model;
use model_lex::pieces;
use one_pass::{OnePassError, read_model};
use sig_base::TEXT_MAX;
use std::alloc::Global;

/// The model that the text reads as. It is read in one pass, which also finds what is wrong with it. Where that pass gives up,
/// the text is read again.
pub fn model_of(alloc: Global, text: &[u8]) -> Result<Model, ReadingError>
    requires { length text.now ≤ TEXT_MAX }
    ensures ok { IfOk result (λ model. Reads text.now (graph_of model)) }
    ensures complaint { (what : Complaint) (at : ℕ) → result ≡ Err (ReadingError.At what at)
        → IsComplaint text.now what at }
{
    let pieces = pieces(alloc, text)?;
    match read_model(alloc, &pieces) {
        Ok(model) => Ok(model),
        Err(OnePassError::Unexpected { at }) => Err(ReadingError::At {
            what: Complaint::Unexpected,
            at,
        }),
        Err(OnePassError::TooDeep { at }) => Err(ReadingError::At {
            what: Complaint::TooDeep,
            at,
        }),
        Err(OnePassError::Fault { kind, at }) => Err(ReadingError::At {
            what: Complaint::Static(kind),
            at,
        }),
        Err(OnePassError::Unsure) => read_as_written(alloc, &pieces),
        Err(OnePassError::NoMemory) => Err(ReadingError::NoMemory),
    }
}
