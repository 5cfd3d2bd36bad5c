//! Numbers with a sign, kinds of variables with their ranges, and initial values.

ghost use Rattle.model_core.specs.Code.WrittenViews.{written_signed, written_kind, written_literal};
ghost use Rattle.model_core.specs.Text.Written.{WrittenSigned};
ghost use Rattle.model_core.specs.Text.Language.{signed_format, kind_format, literal_format};
ghost use Rattle.text_laws.specs.LanguageReader.{language_reader};
ghost use Rattle.text_laws.specs.SomeTokens.{signed-some};
ghost use Rattle.model_read.specs.ReadCalls.{Returned};

use crate::cursor::Cursor;
use crate::phrase::Phrase;
use crate::stop::Stop;
use model_core::{RawKind, RawLiteral, RawSigned, Symbol, Word};
use std::alloc::Global;

/// Reads a number with an optional `-` before it.
#[tactic(auto, unfolding(model_core::specs::Text::Language::signed_format))]
pub(crate) fn signed(cursor: &mut Cursor<'_>) -> Result<RawSigned, Stop>
    ensures { Returned written_signed result cursor.new (language_reader signed_format cursor.old) }
{
    if let Some(at) = cursor.symbol_if_next(Symbol::Minus) {
        let number = cursor.number()?;
        return Ok(RawSigned {
            at,
            negative: true,
            number,
        });
    }
    let number = cursor.number()?;
    Ok(RawSigned {
        at: number.at,
        negative: false,
        number,
    })
}

/// Reads what a variable is declared to hold.
#[tactic(auto, unfolding(model_core::specs::Text::Language::kind_format))]
pub(crate) fn kind(cursor: &mut Cursor<'_>) -> Result<RawKind, Stop>
    ensures { Returned written_kind result cursor.new (language_reader kind_format cursor.old) }
{
    if let Some(_) = cursor.word_if_next(Word::Bool) {
        return Ok(RawKind::Truth);
    }
    let lo = signed(cursor)?;
    cursor.symbol(Symbol::To)?;
    let hi = signed(cursor)?;
    let clip = cursor.word_if_next(Word::Clip).is_some();
    Ok(RawKind::Range { lo, hi, clip })
}

/// Reads an initial value.
#[tactic(auto, unfolding(model_core::specs::Text::Language::literal_format))]
pub(crate) fn literal(cursor: &mut Cursor<'_>) -> Result<RawLiteral, Stop>
    ensures { Returned written_literal result cursor.new
        (language_reader literal_format cursor.old) }
{
    if let Some(at) = cursor.word_if_next(Word::True) {
        return Ok(RawLiteral::Truth { at, value: true });
    }
    if let Some(at) = cursor.word_if_next(Word::False) {
        return Ok(RawLiteral::Truth { at, value: false });
    }
    Ok(RawLiteral::Signed(signed(cursor)?))
}

impl<'t> Phrase<'t> for RawSigned {
    ghost Plain = { WrittenSigned };

    ghost plain = { written_signed };

    ghost format = { signed_format };

    fn read(_alloc: Global, cursor: &mut Cursor<'t>) -> Result<RawSigned, Stop> {
        signed(cursor)
    }

    ghost some_tokens = { signed-some };
}
