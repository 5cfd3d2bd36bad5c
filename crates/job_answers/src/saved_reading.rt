//! From the bytes of a saved document to its model and its snapshot.

ghost use Rattle.std.specs.Prelude.{◌≡◌, ◌≤◌, ℕ, drop, length, IfOk, Err};
ghost use Rattle.model_core.specs.Code.Views.{graph_of};
ghost use Rattle.model_core.specs.Code.WrittenViews.{written_model};
ghost use Rattle.model_core.specs.Saved.SavedRun.{IsGood};
ghost use Rattle.model_core.specs.Text.DocumentText.{BeginsWithModel};
ghost use Rattle.model_core.specs.Text.SnapshotGrammar.{WrittenSnapshot, IsSnapshot};
ghost use Rattle.model_lex.specs.PiecesOfText.{pieces_lexemes};
ghost use Rattle.job_answers.specs.SavedComplaints.{IsSavedComplaint};
ghost use Rattle.job_answers.specs.SavedReading.{ReadsSaved};

use crate::reading_error::ReadingError;
use answer_delivery::Complaint;
use model_core::{Model, RawModel};
use model_lex::{Pieces, pieces};
use model_read::parse_front_pieces;
use run_snapshot::{Snapshot, SnapshotError, read_snapshot_pieces, snapshot_fault_pieces};
use sig_base::DOCUMENT_MAX;
use sig_types::check;
use std::alloc::Global;
use std::mem::forget;

/// A model, and a saved run of it.
#[derive(Drop)]
pub struct SavedDocument {
    pub model: Model,
    pub snapshot: Snapshot,
}

/// The model that the tokens begin with, as it is written, and the place after it, where the snapshot begins. A place is the
/// number of tokens before it. The program ends after tokens that aren't spelled so, so the model isn't taken apart then.
fn parts(alloc: Global, pieces: &Pieces<'_>) -> Result<(RawModel, usize), ReadingError>
    ensures begins { IfOk result
        (λ r. BeginsWithModel (pieces_lexemes pieces.now) (written_model r.0)
        (drop r.1 (pieces_lexemes pieces.now))) }
    ensures ends { IfOk result
        (λ r. (w : WrittenSnapshot) × IsSnapshot (drop r.1 (pieces_lexemes pieces.now)) w) }
    ensures complaint { (what : Complaint) (at : ℕ) → result ≡ Err (ReadingError.At what at)
        → IsSavedComplaint pieces.now.text.now what at }
{
    let (model, behind) = parse_front_pieces(alloc, pieces, 0)?;
    match snapshot_fault_pieces(pieces, behind) {
        None => Ok((model, behind)),
        Some(at) => {
            forget(model);
            Err(ReadingError::At {
                what: Complaint::Unexpected,
                at,
            })
        }
    }
}

/// The model and the snapshot that the tokens read as. The program ends after a snapshot that isn't good, so the model isn't
/// taken apart then.
fn saved_in(alloc: Global, pieces: &Pieces<'_>) -> Result<SavedDocument, ReadingError>
    requires { length pieces.now.text.now ≤ DOCUMENT_MAX }
    ensures ok { IfOk result (λ d. ReadsSaved pieces.now.text.now (graph_of d.model) d.snapshot) }
    ensures complaint { (what : Complaint) (at : ℕ) → result ≡ Err (ReadingError.At what at)
        → IsSavedComplaint pieces.now.text.now what at }
{
    let (raw, behind) = parts(alloc, pieces)?;
    let model = match check(alloc, raw) {
        Ok(model) => model,
        Err(error) => return Err(ReadingError::from(error)),
    };
    match read_snapshot_pieces(alloc, &model, pieces, behind) {
        Ok(snapshot) => Ok(SavedDocument { model, snapshot }),
        Err(SnapshotError::Bad { at }) => {
            forget(model);
            Err(ReadingError::At {
                what: Complaint::BadSnapshot,
                at,
            })
        }
        Err(SnapshotError::NoMemory) => {
            forget(model);
            Err(ReadingError::NoMemory)
        }
    }
}

/// The model and the snapshot that the document reads as. The snapshot is good for the model.
pub fn saved_document_of(alloc: Global, text: &[u8]) -> Result<SavedDocument, ReadingError>
    requires { length text.now ≤ DOCUMENT_MAX }
    ensures ok { IfOk result (λ d. ReadsSaved text.now (graph_of d.model) d.snapshot) }
    ensures good { IfOk result (λ d. IsGood (graph_of d.model) d.snapshot) }
    ensures complaint { (what : Complaint) (at : ℕ) → result ≡ Err (ReadingError.At what at)
        → IsSavedComplaint text.now what at }
{
    let pieces = pieces(alloc, text)?;
    saved_in(alloc, &pieces)
}
