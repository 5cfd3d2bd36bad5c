//! The changes of a vertex.

ghost use Rattle.std.specs.Prelude.{refl};
ghost use Rattle.model_core.specs.Code.WrittenViews.{written_expression, written_target, written_choice, written_change};
ghost use Rattle.model_core.specs.Text.Written.{WrittenExpression, WrittenTarget, WrittenChange};
ghost use Rattle.model_core.specs.Text.Expressions.{expression_format};
ghost use Rattle.model_core.specs.Text.Language.{target_format, choice_format, source_format, change_format};
ghost use Rattle.text_laws.specs.LanguageReader.{language_reader};
ghost use Rattle.model_read.specs.ReadCalls.{Returned};
ghost use Rattle.model_read.specs.Inner.LineFormats.{set_format, draw_format};
ghost use Rattle.model_read.specs.Sources.{written_source};
ghost use Rattle.text_laws.specs.SomeTokens.{target-some, change-some};

use crate::cursor::Cursor;
use crate::expressions::{expression, index};
use crate::phrase::{Phrase, Repeated, separated};
use crate::signed::signed;
use crate::stop::Stop;
use model_core::{RawChange, RawChoice, RawExpr, RawNumber, RawTarget, Symbol, Word};
use std::alloc::Global;

/// Reads a change that computes values.
#[tactic(auto, unfolding(crate::specs::Inner::LineFormats::set_format))]
fn set(alloc: Global, cursor: &mut Cursor<'_>) -> Result<RawChange, Stop>
    ensures { Returned written_change result cursor.new (language_reader set_format cursor.old) }
{
    let at = cursor.word(Word::Set)?;
    let targets = separated(alloc, cursor)?;
    cursor.symbol(Symbol::Becomes)?;
    let values = separated(alloc, cursor)?;
    cursor.symbol(Symbol::Semicolon)?;
    Ok(RawChange::Set {
        at,
        targets,
        values,
    })
}

/// Reads what a draw takes its value from.
#[tactic(auto, unfolding(model_core::specs::Text::Language::choice_format))]
fn choice(alloc: Global, cursor: &mut Cursor<'_>) -> Result<RawChoice, Stop>
    ensures { Returned written_choice result cursor.new (language_reader choice_format cursor.old) }
{
    if let Some(_) = cursor.word_if_next(Word::In) {
        let lo = signed(cursor)?;
        cursor.symbol(Symbol::To)?;
        let hi = signed(cursor)?;
        return Ok(RawChoice::Uniform { lo, hi });
    }
    cursor.word(Word::By)?;
    let table = cursor.name(alloc)?;
    Ok(RawChoice::ByTable { table })
}

/// The source of a draw: a random stream, and what is drawn from it.
#[derive(Drop)]
pub struct RawSource {
    pub stream: RawNumber,
    pub choice: RawChoice,
}

/// Reads the source of a draw.
#[tactic(auto, unfolding(model_core::specs::Text::Language::source_format))]
pub fn source(alloc: Global, cursor: &mut Cursor<'_>) -> Result<RawSource, Stop>
    ensures { Returned written_source result cursor.new (language_reader source_format cursor.old) }
{
    cursor.word(Word::From)?;
    let stream = cursor.number()?;
    let choice = choice(alloc, cursor)?;
    Ok(RawSource { stream, choice })
}

/// Reads a change that draws a value.
#[tactic(auto, unfolding(crate::specs::Inner::LineFormats::draw_format))]
fn draw(alloc: Global, cursor: &mut Cursor<'_>) -> Result<RawChange, Stop>
    ensures { Returned written_change result cursor.new (language_reader draw_format cursor.old) }
{
    let at = cursor.word(Word::Draw)?;
    let target = RawTarget::read(alloc, cursor)?;
    let RawSource { stream, choice } = source(alloc, cursor)?;
    cursor.symbol(Symbol::Semicolon)?;
    Ok(RawChange::Draw {
        at,
        target,
        stream,
        choice,
    })
}

impl<'t> Phrase<'t> for RawExpr {
    ghost Plain = { WrittenExpression };

    ghost plain = { written_expression };

    ghost format = { expression_format };

    fn read(alloc: Global, cursor: &mut Cursor<'t>) -> Result<RawExpr, Stop> {
        expression(alloc, cursor)
    }

    ghost some_tokens = { refl };
}

impl<'t> Phrase<'t> for RawTarget {
    ghost Plain = { WrittenTarget };

    ghost plain = { written_target };

    ghost format = { target_format };

    #[tactic(auto, unfolding(model_core::specs::Text::Language::target_format))]
    fn read(alloc: Global, cursor: &mut Cursor<'t>) -> Result<RawTarget, Stop> {
        let name = cursor.name(alloc)?;
        let index = index(alloc, cursor)?;
        Ok(RawTarget {
            at: name.at,
            name,
            index,
        })
    }

    ghost some_tokens = { target-some };
}

impl<'t> Phrase<'t> for RawChange {
    ghost Plain = { WrittenChange };

    ghost plain = { written_change };

    ghost format = { change_format };

    #[tactic(auto, unfolding(model_core::specs::Text::Language::change_format, crate::specs::Inner::LineFormats::set_format, crate::specs::Inner::LineFormats::draw_format))]
    fn read(alloc: Global, cursor: &mut Cursor<'t>) -> Result<RawChange, Stop> {
        if cursor.begins_word(Word::Set) {
            set(alloc, cursor)
        } else {
            draw(alloc, cursor)
        }
    }

    ghost some_tokens = { change-some };
}

impl<'t> Repeated<'t> for RawChange {
    #[tactic(auto, unfolding(model_core::specs::Text::Language::change_format))]
    fn begins(cursor: &Cursor<'_>) -> bool {
        cursor.begins_word(Word::Set) || cursor.begins_word(Word::Draw)
    }
}
