//! Reads a whole model text, and the text that pieces begin with.

ghost use Rattle.std.specs.Prelude.{◌≡◌, ℕ, ◌≤◌, [], None, Some, length, drop, IfOk};
ghost use Rattle.sig_base.specs.declared.limits.TheConstants.{OPENINGS_MAX};
ghost use Rattle.std.specs.Option.{option_map};
ghost use Rattle.model_core.specs.Code.WrittenViews.{written_number, written_model};
ghost use Rattle.model_core.specs.Text.Format.{maybe};
ghost use Rattle.model_core.specs.Text.Language.{VersionLine, version_format, text_place, IsText, BeginsWithText};
ghost use Rattle.model_core.specs.Text.FirstWrong.{IsUnexpectedAt};
ghost use Rattle.model_core.specs.Text.Openings.{front_to_end, too_deep_at, HasFewOpenings};
ghost use Rattle.text_laws.specs.LanguageReader.{language_reader, text_and_rest, text_read};
ghost use Rattle.model_lex.specs.PiecesOfText.{pieces_lexemes};
ghost use Rattle.model_read.specs.Beginnings.{with_vertices, model_beginning};
ghost use Rattle.model_read.specs.ReadCalls.{Returned};
ghost use Rattle.model_read.specs.Inner.Versions.{written_version};

use crate::cursor::Cursor;
use crate::declarations::watch;
use crate::openings::{first_too_deep, front_length};
use crate::phrase::{at_least_one, many};
use crate::stop::{Stop, with_place};
use model_core::{RawModel, RawNumber, Symbol, Word};
use model_lex::{ParseError, Pieces, pieces_are_in_text};
use sig_base::{HeldValue, List, OPENINGS_MAX};
use std::alloc::Global;

/// The line of the version: the byte of its word `version`, and the number after it.
#[derive(Clone, Copy)]
struct RawVersion {
    at: usize,
    number: RawNumber,
}

/// Reads the line of the version, where there is one.
#[tactic(auto, unfolding(model_core::specs::Text::Language::version_format))]
fn version(cursor: &mut Cursor<'_>) -> Result<Option<RawVersion>, Stop>
    ensures { Returned (option_map written_version) result cursor.new
        (language_reader (maybe version_format) cursor.old) }
{
    let Some(at) = cursor.word_if_next(Word::Version) else {
        return Ok(None);
    };
    let number = cursor.number()?;
    cursor.symbol(Symbol::Semicolon)?;
    Ok(Some(RawVersion { at, number }))
}

/// The byte at which a text begins: that of its word `version`, or else that of its word `model`.
fn text_place(version: Option<RawVersion>, model: usize) -> usize
    ensures { result ≡ text_place (option_map written_version version) model }
{
    match version {
        Some(line) => line.at,
        None => model,
    }
}

/// The number of a text's version, where it says one.
fn version_number(version: Option<RawVersion>) -> Option<RawNumber>
    ensures { option_map written_number result
        ≡ option_map (λ (l : VersionLine). l.number) (option_map written_version version) }
{
    match version {
        Some(line) => Some(line.number),
        None => None,
    }
}

/// Reads what comes before the vertices of a model. The model that it gives has no vertices, and ends at byte 0.
#[tactic(auto, unfolding(crate::specs::Beginnings::model_beginning))]
pub fn read_model_beginning(alloc: Global, cursor: &mut Cursor<'_>) -> Result<RawModel, Stop>
    ensures reads { Returned (λ m. with_vertices (written_model m)) result cursor.new
        (language_reader model_beginning cursor.old) }
    ensures no_vertices { IfOk result (λ m. m.vertices ≡ []) }
{
    let version = version(cursor)?;
    let model = cursor.word(Word::Model)?;
    let name = cursor.name(alloc)?;
    cursor.symbol(Symbol::Semicolon)?;
    let vars = many(alloc, cursor)?;
    let tables = many(alloc, cursor)?;
    let watch = watch(alloc, cursor)?;
    Ok(RawModel {
        at: text_place(version, model),
        version: version_number(version),
        name,
        vars,
        tables,
        watch,
        vertices: List::new(alloc),
        end_at: 0,
    })
}

/// Reads a model text.
#[tactic(auto, unfolding(model_core::specs::Text::Language::text_format, crate::specs::Beginnings::model_beginning))]
fn model(alloc: Global, cursor: &mut Cursor<'_>) -> Result<RawModel, Stop>
    ensures { Returned written_model result cursor.new (text_and_rest cursor.old) }
{
    let begun = HeldValue::of(read_model_beginning(alloc, cursor)?);
    let vertices = at_least_one(alloc, cursor)?;
    let end_at = cursor.word(Word::End)?;
    Ok(RawModel {
        vertices,
        end_at,
        ..begun.free()
    })
}

/// Reads a model text after which no token is left.
fn whole(alloc: Global, cursor: &mut Cursor<'_>) -> Result<RawModel, Stop>
    ensures { Returned written_model result cursor.new (text_read cursor.old) }
{
    let model = HeldValue::of(model(alloc, cursor)?);
    cursor.end()?;
    Ok(model.free())
}

/// The model that all of the pieces spell, with its names, numbers and places as they are written.
///
/// `TooDeep` comes first: it names the first opening that is more than a part may have. `Unexpected` names the first byte
/// from which no continuation makes a model text: that of a token, or the text's length.
pub fn parse_pieces(alloc: Global, pieces: &Pieces<'_>) -> Result<RawModel, ParseError>
    // What is read is spelled, with few openings.
    ensures ok { IfOk result
        (λ m. IsText (pieces_lexemes pieces.now) (written_model m)
        × HasFewOpenings OPENINGS_MAX (pieces_lexemes pieces.now)) }
    // What is refused is spelled by no model, and this is where the pieces stop to begin one.
    ensures unexpected { (at : ℕ) → result ≡ Err (ParseError.Unexpected at)
        → (too_deep_at OPENINGS_MAX (pieces_lexemes pieces.now) ≡ None)
        × IsUnexpectedAt pieces.now.text.now (pieces_lexemes pieces.now) at }
    ensures too_deep { (at : ℕ) → result ≡ Err (ParseError.TooDeep at)
        → too_deep_at OPENINGS_MAX (pieces_lexemes pieces.now) ≡ Some at }
{
    pieces_are_in_text();
    let list = pieces.list.as_slice();
    if let Some(at) = first_too_deep(list, OPENINGS_MAX) {
        return Err(ParseError::TooDeep { at });
    }
    let mut cursor = Cursor::new(pieces.text, list);
    let read = whole(alloc, &mut cursor);
    with_place(read, &cursor, pieces.text.len())
}

/// The model that the pieces from the place on begin with, and the place after its word `end`. A place is here the number
/// of pieces before it.
///
/// The errors are those of `parse_pieces`, for the pieces from the place up to and with the first word `end` there, or for all
/// of them where there is none.
pub fn parse_front_pieces(
    alloc: Global,
    pieces: &Pieces<'_>,
    from: usize,
) -> Result<(RawModel, usize), ParseError>
    requires { from ≤ length pieces.now.list }
    // What is read is there, with few openings, and what is left are the pieces from the answer's place on.
    ensures ok { IfOk result
        (λ r. BeginsWithText (drop from (pieces_lexemes pieces.now)) (written_model r.0)
        (drop r.1 (pieces_lexemes pieces.now))
        × HasFewOpenings OPENINGS_MAX (front_to_end (drop from (pieces_lexemes pieces.now)))) }
    ensures inside { IfOk result (λ r. r.1 ≤ length pieces.now.list) }
    ensures unexpected { (at : ℕ) → result ≡ Err (ParseError.Unexpected at)
        → (too_deep_at OPENINGS_MAX (front_to_end (drop from (pieces_lexemes pieces.now))) ≡ None)
        × IsUnexpectedAt pieces.now.text.now
        (front_to_end (drop from (pieces_lexemes pieces.now))) at }
    ensures too_deep { (at : ℕ) → result ≡ Err (ParseError.TooDeep at)
        → too_deep_at OPENINGS_MAX (front_to_end (drop from (pieces_lexemes pieces.now)))
        ≡ Some at }
{
    pieces_are_in_text();
    let some = &pieces.list.as_slice()[from..];
    if let Some(at) = first_too_deep(&some[..front_length(some)], OPENINGS_MAX) {
        return Err(ParseError::TooDeep { at });
    }
    let mut cursor = Cursor::new(pieces.text, some);
    let read = model(alloc, &mut cursor);
    let left = cursor.len();
    let model = with_place(read, &cursor, pieces.text.len())?;
    Ok((model, pieces.list.len() - left))
}
