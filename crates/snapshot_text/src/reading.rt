//! Reads the parts of a snapshot from its tokens.

ghost use Rattle.std.specs.Prelude.{◌≡◌, drop, map, IfOk};
ghost use Rattle.std.specs.Option.{option_map};
ghost use Rattle.model_core.specs.Code.WrittenViews.{written_signed};
ghost use Rattle.model_core.specs.Text.Format.{maybe, separated};
ghost use Rattle.model_core.specs.Text.Language.{signed_format};
ghost use Rattle.model_core.specs.Text.SnapshotGrammar.{WrittenStream, WrittenValue, WrittenCarried, WrittenPending, stream_format, value_format, noted_format, carried_format, carries_format, pending_format, snapshot_format, IsSnapshot};
ghost use Rattle.text_laws.specs.FirstTokens.{first_sorts, begins_among};
ghost use Rattle.text_laws.specs.FormatReader.{and_next, whole_read};
ghost use Rattle.text_laws.specs.LanguageReader.{level_lookahead, language_reader};
ghost use Rattle.snapshot_text.specs.Inner.SomeParts.{stream-some, value-some, carried-some, pending-some};
ghost use Rattle.model_lex.specs.PiecesOfText.{pieces_lexemes};
ghost use Rattle.model_read.specs.ReadCalls.{Returned};
ghost use Rattle.snapshot_text.specs.Inner.SnapshotHead.{with_parts, head_format};
ghost use Rattle.snapshot_text.specs.Inner.RawParts.{written_stream, written_value, written_noted, written_carried, written_pending, written_snapshot};

use crate::parts::{RawCarried, RawHead, RawNoted, RawPending, RawSnapshot, RawStream, RawValue};
use model_core::{RawSigned, Symbol, Word};
use model_lex::Pieces;
use model_read::{Cursor, Phrase, Repeated, Stop, many, separated};
use sig_base::{List, NoMemory};
use std::alloc::Global;

impl<'t> Phrase<'t> for RawStream {
    ghost Plain = { WrittenStream };

    ghost plain = { written_stream };

    ghost format = { stream_format };

    #[tactic(auto, unfolding(model_core::specs::Text::SnapshotGrammar::stream_format))]
    fn read(_alloc: Global, cursor: &mut Cursor<'t>) -> Result<RawStream, Stop> {
        let at = cursor.this_name(b"stream")?;
        let stream = cursor.number()?;
        let words = cursor.number()?;
        Ok(RawStream { at, stream, words })
    }

    ghost some_tokens = { stream-some };
}

impl<'t> Repeated<'t> for RawStream {
    #[tactic(auto, unfolding(model_core::specs::Text::SnapshotGrammar::stream_format))]
    fn begins(cursor: &Cursor<'_>) -> bool {
        cursor.begins_spelled(b"stream")
    }
}

impl<'t> Phrase<'t> for RawValue<'t> {
    ghost Plain = { WrittenValue };

    ghost plain = { written_value };

    ghost format = { value_format };

    #[tactic(auto, unfolding(model_core::specs::Text::SnapshotGrammar::value_format))]
    fn read(alloc: Global, cursor: &mut Cursor<'t>) -> Result<RawValue<'t>, Stop> {
        let at = cursor.this_name(b"value")?;
        let variable = cursor.spelling()?;
        let values = separated(alloc, cursor)?;
        Ok(RawValue {
            at,
            variable,
            values,
        })
    }

    ghost some_tokens = { value-some };
}

impl<'t> Repeated<'t> for RawValue<'t> {
    #[tactic(auto, unfolding(model_core::specs::Text::SnapshotGrammar::value_format))]
    fn begins(cursor: &Cursor<'_>) -> bool
        ensures { result ≡ begins_among (first_sorts level_lookahead value_format) cursor.now }
    {
        cursor.begins_spelled(b"value")
    }
}

/// Reads signed numbers, where some come.
#[tactic(auto, unfolding(model_core::specs::Text::Language::signed_format))]
fn some_signed(alloc: Global, cursor: &mut Cursor<'_>) -> Result<Option<List<RawSigned>>, Stop>
    ensures { Returned (option_map (map written_signed)) result cursor.new
        (language_reader (maybe (separated signed_format)) cursor.old) }
{
    if !cursor.begins_symbol(Symbol::Minus) && !cursor.begins_number() {
        return Ok(None);
    }
    Ok(Some(separated(alloc, cursor)?))
}

/// Reads the values that were noted last.
#[tactic(auto, unfolding(model_core::specs::Text::SnapshotGrammar::noted_format))]
fn noted_values(alloc: Global, cursor: &mut Cursor<'_>) -> Result<RawNoted, Stop>
    ensures { Returned written_noted result cursor.new (language_reader noted_format cursor.old) }
{
    let at = cursor.this_name(b"noted")?;
    let values = some_signed(alloc, cursor)?;
    Ok(RawNoted { at, values })
}

/// Reads the values that were noted last, where they are written.
#[tactic(auto, unfolding(model_core::specs::Text::SnapshotGrammar::noted_format))]
fn noted_if_written(alloc: Global, cursor: &mut Cursor<'_>) -> Result<Option<RawNoted>, Stop>
    ensures { Returned (option_map written_noted) result cursor.new
        (language_reader (maybe noted_format) cursor.old) }
{
    if !cursor.begins_spelled(b"noted") {
        return Ok(None);
    }
    Ok(Some(noted_values(alloc, cursor)?))
}

impl<'t> Phrase<'t> for RawCarried<'t> {
    ghost Plain = { WrittenCarried };

    ghost plain = { written_carried };

    ghost format = { carried_format };

    #[tactic(auto, unfolding(model_core::specs::Text::SnapshotGrammar::carried_format))]
    fn read(_alloc: Global, cursor: &mut Cursor<'t>) -> Result<RawCarried<'t>, Stop> {
        if cursor.begins_symbol(Symbol::Minus) {
            cursor.symbol(Symbol::Minus)?;
            let digits = cursor.digits()?;
            return Ok(RawCarried {
                negative: true,
                digits,
            });
        }
        let digits = cursor.digits()?;
        Ok(RawCarried {
            negative: false,
            digits,
        })
    }

    ghost some_tokens = { carried-some };
}

/// Reads the values that an event carries, where it carries some.
#[tactic(auto, unfolding(model_core::specs::Text::SnapshotGrammar::carries_format))]
fn carries<'t>(alloc: Global, cursor: &mut Cursor<'t>) -> Result<Option<List<RawCarried<'t>>>, Stop>
    ensures { Returned (option_map (map written_carried)) result cursor.new
        (language_reader (maybe carries_format) cursor.old) }
{
    if !cursor.begins_symbol(Symbol::OpenParenthesis) {
        return Ok(None);
    }
    cursor.symbol(Symbol::OpenParenthesis)?;
    let values = separated(alloc, cursor)?;
    cursor.symbol(Symbol::CloseParenthesis)?;
    Ok(Some(values))
}

impl<'t> Phrase<'t> for RawPending<'t> {
    ghost Plain = { WrittenPending };

    ghost plain = { written_pending };

    ghost format = { pending_format };

    #[tactic(auto, unfolding(model_core::specs::Text::SnapshotGrammar::pending_format))]
    fn read(alloc: Global, cursor: &mut Cursor<'t>) -> Result<RawPending<'t>, Stop> {
        let at = cursor.this_name(b"pending")?;
        let ticks = cursor.number()?;
        let priority = cursor.number()?;
        let vertex = cursor.spelling()?;
        let values = carries(alloc, cursor)?;
        Ok(RawPending {
            at,
            ticks,
            priority,
            vertex,
            values,
        })
    }

    ghost some_tokens = { pending-some };
}

impl<'t> Repeated<'t> for RawPending<'t> {
    #[tactic(auto, unfolding(model_core::specs::Text::SnapshotGrammar::pending_format))]
    fn begins(cursor: &Cursor<'_>) -> bool
        ensures { result ≡ begins_among (first_sorts level_lookahead pending_format) cursor.now }
    {
        cursor.begins_spelled(b"pending")
    }
}

/// Reads what a snapshot says before its streams.
#[tactic(auto, unfolding(crate::specs::Inner::SnapshotHead::head_format))]
fn head(cursor: &mut Cursor<'_>) -> Result<RawHead, Stop>
    ensures { Returned with_parts result cursor.new (language_reader head_format cursor.old) }
{
    cursor.this_name(b"snapshot")?;
    let seed_at = cursor.this_name(b"seed")?;
    let seed = cursor.number()?;
    let seed_rest = cursor.number()?;
    let clock_at = cursor.word(Word::Clk)?;
    let clock = cursor.number()?;
    let events_at = cursor.this_name(b"events")?;
    let events = cursor.number()?;
    Ok(RawHead {
        seed_at,
        seed,
        seed_rest,
        clock_at,
        clock,
        events_at,
        events,
    })
}

/// Reads a snapshot.
#[tactic(auto, unfolding(model_core::specs::Text::SnapshotGrammar::snapshot_format, crate::specs::Inner::SnapshotHead::head_format))]
fn snapshot<'t>(alloc: Global, cursor: &mut Cursor<'t>) -> Result<RawSnapshot<'t>, Stop>
    ensures { Returned written_snapshot result cursor.new
        (language_reader snapshot_format cursor.old) }
{
    let head = head(cursor)?;
    let streams = many(alloc, cursor)?;
    let values = many(alloc, cursor)?;
    let noted = noted_if_written(alloc, cursor)?;
    let pending = many(alloc, cursor)?;
    let end_at = cursor.word(Word::End)?;
    Ok(RawSnapshot {
        head,
        streams,
        values,
        noted,
        pending,
        end_at,
    })
}

/// Reads a snapshot after which no token is left.
fn whole<'t>(alloc: Global, cursor: &mut Cursor<'t>) -> Result<RawSnapshot<'t>, Stop>
    ensures { Returned written_snapshot result cursor.new
        (and_next whole_read (language_reader snapshot_format cursor.old)) }
{
    let raw = snapshot(alloc, cursor)?;
    cursor.end()?;
    Ok(raw)
}

/// Reads the pieces from a place on, which all together are one snapshot.
pub(crate) fn raw_snapshot<'t>(
    alloc: Global,
    pieces: &'t Pieces<'_>,
    from: usize,
) -> Result<RawSnapshot<'t>, NoMemory>
    ensures { IfOk result
        (λ raw. IsSnapshot (drop from (pieces_lexemes pieces.now)) (written_snapshot raw)) }
{
    let mut cursor = Cursor::from_place(pieces, from);
    match whole(alloc, &mut cursor) {
        Ok(raw) => Ok(raw),
        // Not since the pieces aren't a snapshot, which is known of them.
        Err(_) => Err(NoMemory),
    }
}
