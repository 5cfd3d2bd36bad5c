//! From the bytes of a document to its two models and the applications of its certificate.

ghost use Rattle.std.specs.Prelude.{◌≡◌, ◌≤◌, ℕ, length, map, IfOk, Err};
ghost use Rattle.model_core.specs.Text.DocumentText.{SpellsDocument};
ghost use Rattle.model_core.specs.Static.Reading.{ReadsDocument};
ghost use Rattle.model_core.specs.Code.Views.{graph_of, application_of};
ghost use Rattle.model_core.specs.Code.WrittenViews.{written_model};
ghost use Rattle.answer_delivery.specs.declared.complaint.Complaint.{Complaint};
ghost use Rattle.job_answers.specs.DocumentComplaints.{IsDocumentComplaint};

use crate::reading_error::ReadingError;
use model_core::{Application, Model, RawModel};
use model_lex::{Pieces, pieces};
use model_read::parse_front_pieces;
use reduction_cert::read_certificate_pieces;
use sig_base::{DOCUMENT_MAX, List};
use sig_types::check;
use std::alloc::Global;
use std::mem::forget;

/// Two models, and the applications that are to lead from the one to the other.
#[derive(Drop)]
pub struct Document {
    pub original: Model,
    pub applications: List<Application>,
    pub reduced: Model,
}

/// A document with its models as they are written.
#[derive(Drop)]
struct RawDocument {
    first: RawModel,
    applications: List<Application>,
    second: RawModel,
}

/// The parts that the tokens spell, one after the other. The program ends where a part isn't spelled, so the parts that are
/// read by then aren't taken apart.
fn parts(alloc: Global, pieces: &Pieces<'_>) -> Result<RawDocument, ReadingError>
    ensures ok { IfOk result
        (λ d. SpellsDocument pieces.now.text.now (written_model d.first)
        (map application_of d.applications) (written_model d.second)) }
    ensures complaint { (what : Complaint) (at : ℕ) → result ≡ Err (ReadingError.At what at)
        → IsDocumentComplaint pieces.now.text.now what at }
{
    let (first, behind_first) = parse_front_pieces(alloc, pieces, 0)?;
    let (second, behind_second) = match parse_front_pieces(alloc, pieces, behind_first) {
        Ok(read) => read,
        Err(error) => {
            forget(first);
            return Err(ReadingError::from(error));
        }
    };
    let applications = match read_certificate_pieces(alloc, pieces, behind_second) {
        Ok(read) => read,
        Err(error) => {
            forget(first);
            forget(second);
            return Err(ReadingError::from(error));
        }
    };
    Ok(RawDocument {
        first,
        applications,
        second,
    })
}

/// The parts that the document spells, as they are written.
fn written_parts(alloc: Global, text: &[u8]) -> Result<RawDocument, ReadingError>
    ensures ok { IfOk result
        (λ d. SpellsDocument text.now (written_model d.first) (map application_of d.applications)
        (written_model d.second)) }
    ensures complaint { (what : Complaint) (at : ℕ) → result ≡ Err (ReadingError.At what at)
        → IsDocumentComplaint text.now what at }
{
    let pieces = pieces(alloc, text)?;
    parts(alloc, &pieces)
}

/// The two models that the document reads as, and the applications of its certificate. The program ends after a model that
/// isn't accepted, so the other parts aren't taken apart then.
pub fn document_of(alloc: Global, text: &[u8]) -> Result<Document, ReadingError>
    requires { length text.now ≤ DOCUMENT_MAX }
    ensures ok { IfOk result
        (λ d. ReadsDocument text.now (graph_of d.original) (map application_of d.applications)
        (graph_of d.reduced)) }
    ensures complaint { (what : Complaint) (at : ℕ) → result ≡ Err (ReadingError.At what at)
        → IsDocumentComplaint text.now what at }
{
    let RawDocument {
        first,
        applications,
        second,
    } = written_parts(alloc, text)?;
    let original = match check(alloc, first) {
        Ok(original) => original,
        Err(error) => {
            forget(applications);
            forget(second);
            return Err(ReadingError::from(error));
        }
    };
    let reduced = match check(alloc, second) {
        Ok(reduced) => reduced,
        Err(error) => {
            forget(original);
            forget(applications);
            return Err(ReadingError::from(error));
        }
    };
    Ok(Document {
        original,
        applications,
        reduced,
    })
}
