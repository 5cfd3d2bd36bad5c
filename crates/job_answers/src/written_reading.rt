//! From the tokens of a text to the model that it reads as, by way of the model as it is written. This way names the fault.

ghost use Rattle.std.specs.Prelude.{◌≡◌, ◌≤◌, ℕ, length, IfOk};
ghost use Rattle.model_core.specs.Static.Reading.{Reads};
ghost use Rattle.model_core.specs.Code.Views.{graph_of};
ghost use Rattle.answer_delivery.specs.declared.complaint.Complaint.{Complaint};
ghost use Rattle.answer_delivery.specs.Complaints.{IsComplaint};

use crate::reading_error::ReadingError;
use model_core::Model;
use model_lex::Pieces;
use model_read::parse_pieces;
use sig_base::TEXT_MAX;
use sig_types::check;
use std::alloc::Global;

/// The model that the tokens read as.
pub(crate) fn read_as_written(alloc: Global, pieces: &Pieces<'_>) -> Result<Model, ReadingError>
    requires { length pieces.now.text.now ≤ TEXT_MAX }
    ensures ok { IfOk result (λ model. Reads pieces.now.text.now (graph_of model)) }
    ensures complaint { (what : Complaint) (at : ℕ) → result ≡ Err (ReadingError.At what at)
        → IsComplaint pieces.now.text.now what at }
{
    let raw = parse_pieces(alloc, pieces)?;
    Ok(check(alloc, raw)?)
}
