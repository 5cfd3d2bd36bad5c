//! Reads a certificate from the tokens of a text.

ghost use Rattle.std.specs.Prelude.{◌≡◌, ℕ, drop, map, IfOk, Err};
ghost use Rattle.model_core.specs.Code.Views.{application_of};
ghost use Rattle.model_core.specs.Text.Format.{Many, at_least_one};
ghost use Rattle.model_core.specs.Text.CertificateText.{edge_number, plain_name_format, edge_number_format, prune_format, settle_format, drop_format, merge_format, slice_format, application_format, certificate_format, IsCertificate, IsNoCertificateAt};
ghost use Rattle.text_laws.specs.FirstTokens.{first_sorts, begins_among};
ghost use Rattle.text_laws.specs.FormatReader.{and_next, with_front, whole_read};
ghost use Rattle.text_laws.specs.LanguageReader.{level_lookahead, language_reader};
ghost use Rattle.model_lex.specs.PiecesOfText.{pieces_lexemes};
ghost use Rattle.model_read.specs.ReadCalls.{Returned};

use model_core::{Application, Word};
use model_lex::{ParseError, Pieces};
use model_read::{Cursor, Stop, with_place};
use sig_base::{List, Name};
use std::alloc::Global;

/// The number of an edge, which counts from 1. A number above 2^63 - 1 is read as 0, which no edge has.
fn edge_number(value: Option<i64>) -> u64
    ensures { result ≡ edge_number value }
{
    match value {
        Some(number) if number >= 0 => number as u64,
        _ => 0,
    }
}

/// Reads the number of an edge.
#[tactic(auto, unfolding(model_core::specs::Text::CertificateText::edge_number_format))]
fn edge(cursor: &mut Cursor<'_>) -> Result<u64, Stop>
    ensures { Returned (λ n. n) result cursor.new (language_reader edge_number_format cursor.old) }
{
    let number = cursor.number()?;
    Ok(edge_number(number.value))
}

/// Reads a name.
#[tactic(auto, unfolding(model_core::specs::Text::CertificateText::plain_name_format))]
fn name(alloc: Global, cursor: &mut Cursor<'_>) -> Result<Name, Stop>
    ensures { Returned (λ n. n) result cursor.new (language_reader plain_name_format cursor.old) }
{
    let name = cursor.name(alloc)?;
    Ok(name.name)
}

/// Reads names as long as one comes, after those that were read.
fn and_more_names(
    alloc: Global,
    cursor: &mut Cursor<'_>,
    names: List<Name>,
) -> Result<List<Name>, Stop>
    ensures { Returned (λ n. n) result cursor.new
        (with_front names (language_reader (Many plain_name_format) cursor.old)) }
{
    let mut all = names;
    while cursor.begins_name() {
        all.push(name(alloc, cursor)?)?;
    }
    Ok(all)
}

/// Reads one or more names.
fn names(alloc: Global, cursor: &mut Cursor<'_>) -> Result<List<Name>, Stop>
    ensures { Returned (λ n. n) result cursor.new
        (language_reader (at_least_one plain_name_format) cursor.old) }
{
    let first = List::of_one(alloc, name(alloc, cursor)?)?;
    and_more_names(alloc, cursor, first)
}

/// Reads an edge that is pruned.
#[tactic(auto, unfolding(model_core::specs::Text::CertificateText::prune_format))]
fn prune(alloc: Global, cursor: &mut Cursor<'_>) -> Result<Application, Stop>
    ensures { Returned application_of result cursor.new (language_reader prune_format cursor.old) }
{
    cursor.word(Word::Prune)?;
    let vertex = name(alloc, cursor)?;
    let edge = edge(cursor)?;
    Ok(Application::Prune { vertex, edge })
}

/// Reads an edge that is settled.
#[tactic(auto, unfolding(model_core::specs::Text::CertificateText::settle_format))]
fn settle(alloc: Global, cursor: &mut Cursor<'_>) -> Result<Application, Stop>
    ensures { Returned application_of result cursor.new (language_reader settle_format cursor.old) }
{
    cursor.word(Word::Settle)?;
    let vertex = name(alloc, cursor)?;
    let edge = edge(cursor)?;
    Ok(Application::Settle { vertex, edge })
}

/// Reads vertices that are dropped.
#[tactic(auto, unfolding(model_core::specs::Text::CertificateText::drop_format))]
fn dropped(alloc: Global, cursor: &mut Cursor<'_>) -> Result<Application, Stop>
    ensures { Returned application_of result cursor.new (language_reader drop_format cursor.old) }
{
    cursor.word(Word::Drop)?;
    let vertices = names(alloc, cursor)?;
    Ok(Application::Drop { vertices })
}

/// Reads two vertices that are merged.
#[tactic(auto, unfolding(model_core::specs::Text::CertificateText::merge_format))]
fn merge(alloc: Global, cursor: &mut Cursor<'_>) -> Result<Application, Stop>
    ensures { Returned application_of result cursor.new (language_reader merge_format cursor.old) }
{
    cursor.word(Word::Merge)?;
    let vertex = name(alloc, cursor)?;
    let target = name(alloc, cursor)?;
    Ok(Application::Merge { vertex, target })
}

/// Reads variables that are sliced away.
#[tactic(auto, unfolding(model_core::specs::Text::CertificateText::slice_format))]
fn slice(alloc: Global, cursor: &mut Cursor<'_>) -> Result<Application, Stop>
    ensures { Returned application_of result cursor.new (language_reader slice_format cursor.old) }
{
    cursor.word(Word::Slice)?;
    let vars = names(alloc, cursor)?;
    Ok(Application::Slice { vars })
}

/// Reads an application.
#[tactic(auto, unfolding(model_core::specs::Text::CertificateText::application_format, model_core::specs::Text::CertificateText::prune_format, model_core::specs::Text::CertificateText::settle_format, model_core::specs::Text::CertificateText::drop_format, model_core::specs::Text::CertificateText::merge_format))]
fn application(alloc: Global, cursor: &mut Cursor<'_>) -> Result<Application, Stop>
    ensures { Returned application_of result cursor.new
        (language_reader application_format cursor.old) }
{
    if cursor.begins_word(Word::Prune) {
        prune(alloc, cursor)
    } else if cursor.begins_word(Word::Settle) {
        settle(alloc, cursor)
    } else if cursor.begins_word(Word::Drop) {
        dropped(alloc, cursor)
    } else if cursor.begins_word(Word::Merge) {
        merge(alloc, cursor)
    } else {
        slice(alloc, cursor)
    }
}

/// Whether an application comes.
#[tactic(auto, unfolding(model_core::specs::Text::CertificateText::application_format, model_core::specs::Text::CertificateText::prune_format, model_core::specs::Text::CertificateText::settle_format, model_core::specs::Text::CertificateText::drop_format, model_core::specs::Text::CertificateText::merge_format, model_core::specs::Text::CertificateText::slice_format))]
fn begins_application(cursor: &Cursor<'_>) -> bool
    ensures { result ≡ begins_among (first_sorts level_lookahead application_format) cursor.now }
{
    cursor.begins_word(Word::Prune)
        || cursor.begins_word(Word::Settle)
        || cursor.begins_word(Word::Drop)
        || cursor.begins_word(Word::Merge)
        || cursor.begins_word(Word::Slice)
}

/// Reads any number of applications.
fn applications(alloc: Global, cursor: &mut Cursor<'_>) -> Result<List<Application>, Stop>
    ensures { Returned (map application_of) result cursor.new
        (language_reader (Many application_format) cursor.old) }
{
    let mut all = List::new(alloc);
    while begins_application(cursor) {
        all.push(application(alloc, cursor)?)?;
    }
    Ok(all)
}

/// Reads a certificate.
#[tactic(auto, unfolding(model_core::specs::Text::CertificateText::certificate_format))]
fn certificate(alloc: Global, cursor: &mut Cursor<'_>) -> Result<List<Application>, Stop>
    ensures { Returned (map application_of) result cursor.new
        (language_reader certificate_format cursor.old) }
{
    cursor.word(Word::Certificate)?;
    let applications = applications(alloc, cursor)?;
    cursor.word(Word::End)?;
    Ok(applications)
}

/// Reads a certificate after which no token is left.
fn whole(alloc: Global, cursor: &mut Cursor<'_>) -> Result<List<Application>, Stop>
    ensures { Returned (map application_of) result cursor.new
        (and_next whole_read (language_reader certificate_format cursor.old)) }
{
    let applications = certificate(alloc, cursor)?;
    cursor.end()?;
    Ok(applications)
}

/// Reads the pieces from a place on, which all together must be one certificate, as its applications. A place is here the
/// number of pieces before it.
///
/// `Unexpected` has the first byte from which no continuation makes a certificate: that of a piece, or the text's length.
/// No openings are counted.
pub fn read_certificate_pieces(
    alloc: Global,
    pieces: &Pieces<'_>,
    from: usize,
) -> Result<List<Application>, ParseError>
    // What is read is a certificate of these applications.
    ensures ok { IfOk result
        (λ applications. IsCertificate (drop from (pieces_lexemes pieces.now))
        (map application_of applications)) }
    // What is refused is none, and this is where the pieces stop to begin one.
    ensures unexpected { (at : ℕ) → result ≡ Err (ParseError.Unexpected at)
        → IsNoCertificateAt pieces.now.text.now (drop from (pieces_lexemes pieces.now)) at }
    ensures never_too_deep { (at : ℕ) → result ≡ Err (ParseError.TooDeep at) → ⊥ }
{
    let mut cursor = Cursor::from_place(pieces, from);
    let read = whole(alloc, &mut cursor);
    with_place(read, &cursor, pieces.text.len())
}
