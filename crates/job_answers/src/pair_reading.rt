//! From the bytes of a document to its two models.

ghost use Rattle.std.specs.Prelude.{◌≡◌, ◌≤◌, ℕ, length, IfOk, Err};
ghost use Rattle.model_core.specs.Code.Views.{graph_of};
ghost use Rattle.model_core.specs.Code.WrittenViews.{written_model};
ghost use Rattle.answer_delivery.specs.declared.complaint.Complaint.{Complaint};
ghost use Rattle.job_answers.specs.PairComplaints.{IsPairComplaint};
ghost use Rattle.job_answers.specs.PairReading.{SpellsPair, ReadsPair};

use crate::reading_error::ReadingError;
use answer_delivery::Complaint;
use model_core::{Model, RawModel};
use model_lex::{Pieces, pieces};
use model_read::parse_front_pieces;
use sig_base::DOCUMENT_MAX;
use sig_types::check;
use std::alloc::Global;
use std::mem::forget;

/// Two models that are to be compared.
#[derive(Drop)]
pub struct ModelPair {
    pub first: Model,
    pub second: Model,
}

/// Two models as they are written.
#[derive(Drop)]
struct RawPair {
    first: RawModel,
    second: RawModel,
}

/// The two models that the tokens spell, one after the other. The program ends where they aren't spelled so, so what is read
/// by then isn't taken apart.
fn parts(alloc: Global, pieces: &Pieces<'_>) -> Result<RawPair, ReadingError>
    ensures ok { IfOk result
        (λ d. SpellsPair pieces.now.text.now (written_model d.first) (written_model d.second)) }
    ensures complaint { (what : Complaint) (at : ℕ) → result ≡ Err (ReadingError.At what at)
        → IsPairComplaint pieces.now.text.now what at }
{
    let (first, behind_first) = parse_front_pieces(alloc, pieces, 0)?;
    let (second, behind_second) = match parse_front_pieces(alloc, pieces, behind_first) {
        Ok(read) => read,
        Err(error) => {
            forget(first);
            return Err(ReadingError::from(error));
        }
    };
    let list = pieces.list.as_slice();
    if behind_second < list.len() {
        let at = list[behind_second].from as usize;
        forget(first);
        forget(second);
        return Err(ReadingError::At {
            what: Complaint::Unexpected,
            at,
        });
    }
    Ok(RawPair { first, second })
}

/// The two models that the document spells, as they are written.
fn written_pair(alloc: Global, text: &[u8]) -> Result<RawPair, ReadingError>
    ensures ok { IfOk result
        (λ d. SpellsPair text.now (written_model d.first) (written_model d.second)) }
    ensures complaint { (what : Complaint) (at : ℕ) → result ≡ Err (ReadingError.At what at)
        → IsPairComplaint text.now what at }
{
    let pieces = pieces(alloc, text)?;
    parts(alloc, &pieces)
}

/// The two models that the document reads as. The program ends after a model that isn't accepted, so the other one isn't
/// taken apart then.
pub fn pair_of(alloc: Global, text: &[u8]) -> Result<ModelPair, ReadingError>
    requires { length text.now ≤ DOCUMENT_MAX }
    ensures ok { IfOk result (λ d. ReadsPair text.now (graph_of d.first) (graph_of d.second)) }
    ensures complaint { (what : Complaint) (at : ℕ) → result ≡ Err (ReadingError.At what at)
        → IsPairComplaint text.now what at }
{
    let RawPair { first, second } = written_pair(alloc, text)?;
    let original = match check(alloc, first) {
        Ok(original) => original,
        Err(error) => {
            forget(second);
            return Err(ReadingError::from(error));
        }
    };
    let other = match check(alloc, second) {
        Ok(other) => other,
        Err(error) => {
            forget(original);
            return Err(ReadingError::from(error));
        }
    };
    Ok(ModelPair {
        first: original,
        second: other,
    })
}
