//! The edges of a vertex.

ghost use Rattle.std.specs.Prelude.{map};
ghost use Rattle.std.specs.Option.{option_map};
ghost use Rattle.model_core.specs.declared.token.Word.TheVariants.{After, Priority};
ghost use Rattle.model_core.specs.Code.WrittenViews.{written_number, written_expression, written_delay, written_edge_kind, written_edge};
ghost use Rattle.model_core.specs.Text.Written.{WrittenEdge};
ghost use Rattle.model_core.specs.Text.Format.{reserved, any_number, ◌*>◌, maybe};
ghost use Rattle.model_core.specs.Text.Language.{values_format, when_format, delay_format, timing_format, schedule_format, urgent_format, cancelled_format, cancel_format, edge_format};
ghost use Rattle.text_laws.specs.LanguageReader.{language_reader};
ghost use Rattle.model_read.specs.ReadCalls.{Returned};
ghost use Rattle.model_read.specs.Inner.Cancels.{written_cancel};
ghost use Rattle.text_laws.specs.SomeTokens.{edge-some};

use crate::changes::{RawSource, source};
use crate::cursor::Cursor;
use crate::expressions::expression;
use crate::phrase::{Phrase, Repeated, separated};
use crate::stop::Stop;
use model_core::{RawDelay, RawEdge, RawEdgeForm, RawExpr, RawName, RawNumber, Symbol, Word};
use sig_base::{HeldValue, List};
use std::alloc::Global;

/// Reads the values that an edge carries, where they are written.
#[tactic(auto, unfolding(model_core::specs::Text::Language::values_format))]
fn values(alloc: Global, cursor: &mut Cursor<'_>) -> Result<Option<List<RawExpr>>, Stop>
    ensures { Returned (option_map (map written_expression)) result cursor.new
        (language_reader (maybe values_format) cursor.old) }
{
    let Some(_) = cursor.symbol_if_next(Symbol::OpenParenthesis) else {
        return Ok(None);
    };
    let values = separated(alloc, cursor)?;
    cursor.symbol(Symbol::CloseParenthesis)?;
    Ok(Some(values))
}

/// Reads the condition of an edge, where one is written.
#[tactic(auto, unfolding(model_core::specs::Text::Language::when_format))]
fn condition(alloc: Global, cursor: &mut Cursor<'_>) -> Result<Option<RawExpr>, Stop>
    ensures { Returned (option_map written_expression) result cursor.new
        (language_reader (maybe when_format) cursor.old) }
{
    let Some(_) = cursor.word_if_next(Word::When) else {
        return Ok(None);
    };
    Ok(Some(expression(alloc, cursor)?))
}

/// Reads a delay. The word `draw` decides its form.
#[tactic(auto, using(text_laws::proofs::DelayForms::drawn_form, text_laws::proofs::DelayForms::fixed_form))]
fn delay(alloc: Global, cursor: &mut Cursor<'_>) -> Result<RawDelay, Stop>
    ensures { Returned written_delay result cursor.new (language_reader delay_format cursor.old) }
{
    if let Some(at) = cursor.word_if_next(Word::Draw) {
        let RawSource { stream, choice } = source(alloc, cursor)?;
        return Ok(RawDelay::Drawn { at, stream, choice });
    }
    Ok(RawDelay::Fixed(expression(alloc, cursor)?))
}

/// Reads the delay of an edge, where one is written.
fn after(alloc: Global, cursor: &mut Cursor<'_>) -> Result<Option<RawDelay>, Stop>
    ensures { Returned (option_map written_delay) result cursor.new
        (language_reader (maybe (reserved After *> delay_format)) cursor.old) }
{
    let Some(_) = cursor.word_if_next(Word::After) else {
        return Ok(None);
    };
    Ok(Some(delay(alloc, cursor)?))
}

/// Reads the priority of an edge, where one is written.
fn priority(cursor: &mut Cursor<'_>) -> Result<Option<RawNumber>, Stop>
    ensures { Returned (option_map written_number) result cursor.new
        (language_reader (maybe (reserved Priority *> any_number)) cursor.old) }
{
    let Some(_) = cursor.word_if_next(Word::Priority) else {
        return Ok(None);
    };
    Ok(Some(cursor.number()?))
}

/// Reads the delay and the priority of an edge.
#[tactic(auto, unfolding(model_core::specs::Text::Language::timing_format))]
fn timing(alloc: Global, cursor: &mut Cursor<'_>) -> Result<RawEdgeForm, Stop>
    ensures { Returned written_edge_kind result cursor.new
        (language_reader timing_format cursor.old) }
{
    let delay = HeldValue::of(after(alloc, cursor)?);
    let priority = priority(cursor)?;
    Ok(RawEdgeForm::Schedule {
        delay: delay.free(),
        priority,
    })
}

/// Reads an edge that schedules.
#[tactic(auto, unfolding(model_core::specs::Text::Language::schedule_format))]
fn schedule(alloc: Global, cursor: &mut Cursor<'_>) -> Result<RawEdge, Stop>
    ensures { Returned written_edge result cursor.new (language_reader schedule_format cursor.old) }
{
    let at = cursor.word(Word::Schedule)?;
    let target = cursor.name(alloc)?;
    let values = HeldValue::of(values(alloc, cursor)?);
    let form = timing(alloc, cursor)?;
    let condition = HeldValue::of(condition(alloc, cursor)?);
    cursor.symbol(Symbol::Semicolon)?;
    Ok(RawEdge {
        at,
        target,
        values: values.free(),
        condition: condition.free(),
        form,
    })
}

/// Reads an urgent edge.
#[tactic(auto, unfolding(model_core::specs::Text::Language::urgent_format))]
fn urgent(alloc: Global, cursor: &mut Cursor<'_>) -> Result<RawEdge, Stop>
    ensures { Returned written_edge result cursor.new (language_reader urgent_format cursor.old) }
{
    let at = cursor.word(Word::Urgent)?;
    let target = cursor.name(alloc)?;
    let values = HeldValue::of(values(alloc, cursor)?);
    let condition = HeldValue::of(condition(alloc, cursor)?);
    cursor.symbol(Symbol::Semicolon)?;
    Ok(RawEdge {
        at,
        target,
        values: values.free(),
        condition: condition.free(),
        form: RawEdgeForm::Urgent,
    })
}

/// The part of an edge between `cancel` and the condition.
#[derive(Drop)]
struct Cancellation {
    target: RawName,
    values: Option<List<RawExpr>>,
    form: RawEdgeForm,
}

/// Reads the part between `cancel` and the condition.
#[tactic(auto, unfolding(model_core::specs::Text::Language::cancelled_format))]
fn cancelled(alloc: Global, cursor: &mut Cursor<'_>) -> Result<Cancellation, Stop>
    ensures { Returned written_cancel result cursor.new
        (language_reader cancelled_format cursor.old) }
{
    if let Some(_) = cursor.word_if_next(Word::All) {
        let target = cursor.name(alloc)?;
        return Ok(Cancellation {
            target,
            values: None,
            form: RawEdgeForm::CancelAll,
        });
    }
    let target = cursor.name(alloc)?;
    match values(alloc, cursor)? {
        None => Ok(Cancellation {
            target,
            values: None,
            form: RawEdgeForm::CancelNext,
        }),
        Some(values) => Ok(Cancellation {
            target,
            values: Some(values),
            form: RawEdgeForm::CancelEqual,
        }),
    }
}

/// Reads an edge that cancels.
#[tactic(auto, unfolding(model_core::specs::Text::Language::cancel_format))]
fn cancel(alloc: Global, cursor: &mut Cursor<'_>) -> Result<RawEdge, Stop>
    ensures { Returned written_edge result cursor.new (language_reader cancel_format cursor.old) }
{
    let at = cursor.word(Word::Cancel)?;
    let cancelled = HeldValue::of(cancelled(alloc, cursor)?);
    let condition = HeldValue::of(condition(alloc, cursor)?);
    cursor.symbol(Symbol::Semicolon)?;
    let Cancellation {
        target,
        values,
        form,
    } = cancelled.free();
    Ok(RawEdge {
        at,
        target,
        values,
        condition: condition.free(),
        form,
    })
}

impl<'t> Phrase<'t> for RawEdge {
    ghost Plain = { WrittenEdge };

    ghost plain = { written_edge };

    ghost format = { edge_format };

    #[tactic(auto, unfolding(model_core::specs::Text::Language::edge_format, model_core::specs::Text::Language::schedule_format, model_core::specs::Text::Language::urgent_format))]
    fn read(alloc: Global, cursor: &mut Cursor<'t>) -> Result<RawEdge, Stop> {
        if cursor.begins_word(Word::Schedule) {
            schedule(alloc, cursor)
        } else if cursor.begins_word(Word::Urgent) {
            urgent(alloc, cursor)
        } else {
            cancel(alloc, cursor)
        }
    }

    ghost some_tokens = { edge-some };
}

impl<'t> Repeated<'t> for RawEdge {
    #[tactic(auto, unfolding(model_core::specs::Text::Language::edge_format, model_core::specs::Text::Language::schedule_format, model_core::specs::Text::Language::urgent_format, model_core::specs::Text::Language::cancel_format))]
    fn begins(cursor: &Cursor<'_>) -> bool {
        cursor.begins_word(Word::Schedule)
            || cursor.begins_word(Word::Urgent)
            || cursor.begins_word(Word::Cancel)
    }
}
