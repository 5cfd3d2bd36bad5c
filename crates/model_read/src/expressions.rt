//! Expressions. They alone nest, so these functions alone are recursive.

ghost use Rattle.std.specs.Prelude.{◌≡◌, ◌+◌, ◌≤◌, Some, length, IfOk};
ghost use Rattle.std.specs.Option.{option_map};
ghost use Rattle.model_core.specs.Code.Views.{operator_of};
ghost use Rattle.model_core.specs.Code.WrittenViews.{written_name, written_expression};
ghost use Rattle.model_core.specs.Text.Format.{ByRule, maybe};
ghost use Rattle.model_core.specs.Text.Expressions.{Unary, Primary, joining, whole_format, unary_format, primary_format, index_format, of_name, in_parentheses_format, call_format, expression_format};
ghost use Rattle.text_laws.specs.FormatReader.{took, and_next};
ghost use Rattle.text_laws.specs.LanguageReader.{language_reader};
ghost use Rattle.model_read.specs.ReadCalls.{Returned};
ghost use Rattle.text_laws.specs.Ladder.{operand_level, climb, if_format, not_format, negative_format, named_format};

use crate::cursor::Cursor;
use crate::operators::{CONJUNCTIONS, LEVELS, next_level};
use crate::stop::Stop;
use model_core::{Op, RawExpr, RawForm, RawName, Symbol, Word};
use sig_base::HeldValue;
use std::alloc::Global;

/// Reads an expression.
#[cycle(expressions)]
pub(crate) fn expression(alloc: Global, cursor: &mut Cursor<'_>) -> Result<RawExpr, Stop>
    ensures reads { Returned written_expression result cursor.new
        (language_reader expression_format cursor.old) }
    ensures shorter { IfOk result (λ e. length cursor.new + 1 ≤ length cursor.old) }
{
    conditional(alloc, cursor)
}

/// Reads `if` with its parts, or else operands of `or`.
#[cycle(expressions)]
fn conditional(alloc: Global, cursor: &mut Cursor<'_>) -> Result<RawExpr, Stop>
    ensures reads { Returned written_expression result cursor.new
        (language_reader whole_format cursor.old) }
    ensures shorter { IfOk result (λ e. length cursor.new + 1 ≤ length cursor.old) }
{
    if cursor.begins_word(Word::If) {
        branches(alloc, cursor)
    } else {
        operand(alloc, cursor, LEVELS)
    }
}

/// Reads `if` with its parts.
// Not inlined, as others below: so the frame of the recursion that every expression goes through stays small.
#[inline(never)]
#[cycle(expressions)]
fn branches(alloc: Global, cursor: &mut Cursor<'_>) -> Result<RawExpr, Stop>
    ensures reads { Returned written_expression result cursor.new
        (language_reader if_format cursor.old) }
    ensures shorter { IfOk result (λ e. length cursor.new + 1 ≤ length cursor.old) }
{
    let at = cursor.word(Word::If)?;
    let test = Box::new(alloc, expression(alloc, cursor)?)?;
    cursor.word(Word::Then)?;
    let yes = Box::new(alloc, expression(alloc, cursor)?)?;
    cursor.word(Word::Else)?;
    let no = Box::new(alloc, expression(alloc, cursor)?)?;
    Ok(RawExpr {
        at,
        form: RawForm::If(test, yes, no),
    })
}

/// Reads an operand of operators of the level `under`: one of unary operators, and operators of lower levels with their
/// operands.
#[cycle(expressions)]
fn operand(alloc: Global, cursor: &mut Cursor<'_>, under: usize) -> Result<RawExpr, Stop>
    requires { under ≤ 5 }
    ensures reads { Returned written_expression result cursor.new
        (language_reader (ByRule (operand_level under)) cursor.old) }
    ensures shorter { IfOk result (λ e. length cursor.new + 1 ≤ length cursor.old) }
{
    if cursor.begins_negation(under) {
        return negation(alloc, cursor, under);
    }
    let first = unary(alloc, cursor);
    if !cursor.goes_on(under) {
        return first;
    }
    others(alloc, cursor, first?, 0, under)
}

/// Reads a negated operand, and what comes after it.
#[inline(never)]
#[cycle(expressions)]
fn negation(alloc: Global, cursor: &mut Cursor<'_>, under: usize) -> Result<RawExpr, Stop>
    requires { under ≤ 5 }
    ensures reads { Returned written_expression result cursor.new
        (and_next (climb under 3) (language_reader not_format cursor.old)) }
    ensures shorter { IfOk result (λ e. length cursor.new + 1 ≤ length cursor.old) }
{
    let first = negated(alloc, cursor)?;
    others(alloc, cursor, first, CONJUNCTIONS, under)
}

/// Reads what comes after the first operand: operators with their right operands, of the levels from `least` up to the
/// one below `under`.
#[inline(never)]
#[cycle(expressions)]
fn others(
    alloc: Global,
    cursor: &mut Cursor<'_>,
    first: RawExpr,
    least: usize,
    under: usize,
) -> Result<RawExpr, Stop>
    requires { under ≤ 5 }
    ensures reads { Returned written_expression result cursor.new
        (climb under least (written_expression first) cursor.old) }
    ensures shorter { IfOk result (λ e. length cursor.new ≤ length cursor.old) }
{
    let mut left = first;
    let mut least = least;
    while let Some(infix) = cursor.infix(least, under) {
        let held = HeldValue::of(left);
        let right = operand(alloc, cursor, infix.level)?;
        left = joined(alloc, held.free(), infix.op, right)?;
        least = next_level(infix.level);
    }
    Ok(left)
}

/// Two operands with an operator between them.
fn joined(alloc: Global, left: RawExpr, op: Op, right: RawExpr) -> Result<RawExpr, Stop>
    ensures ok { IfOk result
        (λ e. written_expression e
        ≡ joining (written_expression left) (operator_of op, written_expression right)) }
    ensures memory { (e : Stop) → result ≡ Err e → e ≡ Stop.NoMemory }
{
    let at = left.at;
    let right = HeldValue::of(right);
    let form = RawForm::Binary(op, Box::new(alloc, left)?, Box::new(alloc, right.free())?);
    Ok(RawExpr { at, form })
}

/// Reads `not` and its operand.
#[cycle(expressions)]
fn negated(alloc: Global, cursor: &mut Cursor<'_>) -> Result<RawExpr, Stop>
    ensures reads { Returned written_expression result cursor.new
        (language_reader not_format cursor.old) }
    ensures shorter { IfOk result (λ e. length cursor.new + 1 ≤ length cursor.old) }
{
    let at = cursor.word(Word::Not)?;
    let operand = operand(alloc, cursor, CONJUNCTIONS)?;
    Ok(RawExpr {
        at,
        form: RawForm::Not(Box::new(alloc, operand)?),
    })
}

/// Reads an operand of `*`.
#[cycle(expressions)]
fn unary(alloc: Global, cursor: &mut Cursor<'_>) -> Result<RawExpr, Stop>
    ensures reads { Returned written_expression result cursor.new
        (language_reader (ByRule Unary) cursor.old) }
    ensures shorter { IfOk result (λ e. length cursor.new + 1 ≤ length cursor.old) }
{
    signed(alloc, cursor)
}

/// Reads `-` and its operand, or else a part that no operator divides.
#[cycle(expressions)]
fn signed(alloc: Global, cursor: &mut Cursor<'_>) -> Result<RawExpr, Stop>
    ensures reads { Returned written_expression result cursor.new
        (language_reader unary_format cursor.old) }
    ensures shorter { IfOk result (λ e. length cursor.new + 1 ≤ length cursor.old) }
{
    if cursor.begins_symbol(Symbol::Minus) {
        negative(alloc, cursor)
    } else {
        primary(alloc, cursor)
    }
}

/// Reads `-` and its operand.
#[inline(never)]
#[cycle(expressions)]
fn negative(alloc: Global, cursor: &mut Cursor<'_>) -> Result<RawExpr, Stop>
    ensures reads { Returned written_expression result cursor.new
        (language_reader negative_format cursor.old) }
    ensures shorter { IfOk result (λ e. length cursor.new + 1 ≤ length cursor.old) }
{
    let at = cursor.symbol(Symbol::Minus)?;
    let operand = unary(alloc, cursor)?;
    Ok(RawExpr {
        at,
        form: RawForm::Neg(Box::new(alloc, operand)?),
    })
}

/// Reads an index in brackets.
#[cycle(expressions)]
fn bracketed(alloc: Global, cursor: &mut Cursor<'_>) -> Result<RawExpr, Stop>
    ensures reads { Returned written_expression result cursor.new
        (language_reader index_format cursor.old) }
    ensures shorter { IfOk result (λ e. length cursor.new + 1 ≤ length cursor.old) }
{
    cursor.symbol(Symbol::OpenBracket)?;
    let index = HeldValue::of(expression(alloc, cursor)?);
    cursor.symbol(Symbol::CloseBracket)?;
    Ok(index.free())
}

/// Reads the index of a cell, where one comes.
pub(crate) fn index(alloc: Global, cursor: &mut Cursor<'_>) -> Result<Option<RawExpr>, Stop>
    ensures reads { Returned (option_map written_expression) result cursor.new
        (language_reader (maybe index_format) cursor.old) }
    ensures shorter { IfOk result (λ e. length cursor.new ≤ length cursor.old) }
{
    if !cursor.begins_symbol(Symbol::OpenBracket) {
        return Ok(None);
    }
    Ok(Some(bracketed(alloc, cursor)?))
}

/// Reads `min` or `max` with two operands in parentheses.
#[inline(never)]
#[cycle(expressions)]
fn called(alloc: Global, cursor: &mut Cursor<'_>, word: Word, op: Op) -> Result<RawExpr, Stop>
    ensures reads { Returned written_expression result cursor.new
        (language_reader (call_format word (operator_of op)) cursor.old) }
    ensures shorter { IfOk result (λ e. length cursor.new + 1 ≤ length cursor.old) }
{
    let at = cursor.word(word)?;
    cursor.symbol(Symbol::OpenParenthesis)?;
    let first = Box::new(alloc, expression(alloc, cursor)?)?;
    cursor.symbol(Symbol::Comma)?;
    let second = Box::new(alloc, expression(alloc, cursor)?)?;
    cursor.symbol(Symbol::CloseParenthesis)?;
    Ok(RawExpr {
        at,
        form: RawForm::Binary(op, first, second),
    })
}

/// Reads a variable or a cell.
#[inline(never)]
#[cycle(expressions)]
fn variable(alloc: Global, cursor: &mut Cursor<'_>) -> Result<RawExpr, Stop>
    ensures reads { Returned written_expression result cursor.new
        (language_reader named_format cursor.old) }
    ensures shorter { IfOk result (λ e. length cursor.new + 1 ≤ length cursor.old) }
{
    let name = cursor.name(alloc)?;
    if cursor.begins_symbol(Symbol::OpenBracket) {
        return cell(alloc, cursor, name);
    }
    Ok(RawExpr {
        at: name.at,
        form: RawForm::Scalar(name),
    })
}

/// Reads the index of a cell of the array.
#[inline(never)]
#[cycle(expressions)]
fn cell(alloc: Global, cursor: &mut Cursor<'_>, array: RawName) -> Result<RawExpr, Stop>
    ensures reads { Returned written_expression result cursor.new
        (and_next (λ i. took (of_name (written_name array) (Some i)))
        (language_reader index_format cursor.old)) }
    ensures shorter { IfOk result (λ e. length cursor.new + 1 ≤ length cursor.old) }
{
    let index = bracketed(alloc, cursor)?;
    Ok(RawExpr {
        at: array.at,
        form: RawForm::Cell(array, Box::new(alloc, index)?),
    })
}

/// Reads an expression in parentheses, whose place is that of the first.
#[inline(never)]
#[cycle(expressions)]
fn enclosed(alloc: Global, cursor: &mut Cursor<'_>) -> Result<RawExpr, Stop>
    ensures reads { Returned written_expression result cursor.new
        (language_reader in_parentheses_format cursor.old) }
    ensures shorter { IfOk result (λ e. length cursor.new + 1 ≤ length cursor.old) }
{
    let at = cursor.symbol(Symbol::OpenParenthesis)?;
    let mut inner = expression(alloc, cursor)?;
    cursor.symbol(Symbol::CloseParenthesis)?;
    inner.at = at;
    Ok(inner)
}

/// Reads what no operator divides.
#[cycle(expressions)]
fn primary(alloc: Global, cursor: &mut Cursor<'_>) -> Result<RawExpr, Stop>
    ensures reads { Returned written_expression result cursor.new
        (language_reader (ByRule Primary) cursor.old) }
    ensures shorter { IfOk result (λ e. length cursor.new + 1 ≤ length cursor.old) }
{
    undivided(alloc, cursor)
}

/// Reads a number, a word, a variable, or what is in parentheses.
#[cycle(expressions)]
fn undivided(alloc: Global, cursor: &mut Cursor<'_>) -> Result<RawExpr, Stop>
    ensures reads { Returned written_expression result cursor.new
        (language_reader primary_format cursor.old) }
    ensures shorter { IfOk result (λ e. length cursor.new + 1 ≤ length cursor.old) }
{
    if cursor.begins_number() {
        let number = cursor.number()?;
        return Ok(RawExpr {
            at: number.at,
            form: RawForm::Int(number),
        });
    }
    if let Some(at) = cursor.word_if_next(Word::True) {
        return Ok(RawExpr {
            at,
            form: RawForm::Truth(true),
        });
    }
    if let Some(at) = cursor.word_if_next(Word::False) {
        return Ok(RawExpr {
            at,
            form: RawForm::Truth(false),
        });
    }
    if let Some(at) = cursor.word_if_next(Word::Clk) {
        return Ok(RawExpr {
            at,
            form: RawForm::Clk,
        });
    }
    if cursor.begins_name() {
        return variable(alloc, cursor);
    }
    if cursor.begins_symbol(Symbol::OpenParenthesis) {
        return enclosed(alloc, cursor);
    }
    if cursor.begins_word(Word::Min) {
        return called(alloc, cursor, Word::Min, Op::Min);
    }
    called(alloc, cursor, Word::Max, Op::Max)
}
