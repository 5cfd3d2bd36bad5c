//! Expressions, which are checked as they are read. They alone nest, so these functions alone call one
//! another again. Where an expression breaks a static rule they give up.

ghost use Rattle.std.specs.Prelude.{◌≡◌, ◌+◌, ◌≤◌, true, false, if◌then◌else◌, [], Some, length, IfOk, OnOk};
ghost use Rattle.model_core.specs.declared.model.Kind.TheVariants.{Range};
ghost use Rattle.model_core.specs.declared.token.Word.TheVariants.{Not};
ghost use Rattle.model_core.specs.EventGraph.{Binary};
ghost use Rattle.model_core.specs.Code.Views.{operator_of, expression_of};
ghost use Rattle.model_core.specs.Text.Format.{ByRule};
ghost use Rattle.model_core.specs.Text.Expressions.{Unary, Primary, expression_format, whole_format, unary_format, primary_format, in_parentheses_format, call_format, index_format};
ghost use Rattle.model_core.specs.Text.Numbering.{declared_place};
ghost use Rattle.model_core.specs.Static.Meanings.{meaning_of};
ghost use Rattle.model_core.specs.Static.Kinds.{kind_in_role};
ghost use Rattle.model_core.specs.Static.Kinds as kinds;
ghost use Rattle.model_core.specs.Static.PartFaults.{use_faults};
ghost use Rattle.text_laws.specs.LanguageReader.{language_reader};
ghost use Rattle.text_laws.specs.Ladder.{operand_level, if_format, not_format, negative_format, named_format};
ghost use Rattle.model_read.specs.Infixes.{infix_of};
ghost use Rattle.model_read.specs.Spelled.{spelled_name};
ghost use Rattle.static_laws.specs.Checked.{NumberedAs};
ghost use Rattle.static_laws.specs.Roles.{variable_role};
ghost use Rattle.one_pass.specs.Inner.ReadOperands.{first_operand, TakesOperand, ClimbsFrom, ClimbsOn};

use crate::not_read::NotRead;
use crate::refusing::refuse_fault;
use model_core::{Expr, Kind, Op, Symbol, Word};
use model_read::{CONJUNCTIONS, Cursor, Infix, LEVELS, Spelling, next_level};
use sig_types::{
    FirstFault, Names, Typed, kinds_differ, known_or, operand_kind, result_kind, right_kind,
    spelled_variable,
};
use std::alloc::Global;
use std::mem;

/// An expression, and its kind where that is known.
pub(crate) struct Operand {
    pub expr: Expr,
    pub kind: Option<Kind>,
}

// Written out, so that a function that lets an operand go does so by one call.
impl Drop for Operand {
    fn drop(self) {
        let Operand { expr, kind: _ } = self;
        match &expr {
            // The placeholder of an operand holds no memory: asking is cheaper than the call.
            Expr::Clk => mem::forget(expr),
            _ => drop(expr),
        }
    }
}

impl Operand {
    /// The placeholder of an operand until it is read.
    pub(crate) fn unread() -> Operand {
        Operand {
            expr: Expr::Clk,
            kind: None,
        }
    }

    /// Takes the expression away.
    fn take(&mut self) -> Expr
        ensures expr { result ≡ self.old.expr }
        ensures kind { self.new.kind ≡ self.old.kind }
    {
        mem::replace(&mut self.expr, Expr::Clk)
    }

    /// The expression alone.
    pub(crate) fn into_expr(self) -> Expr
        ensures { result ≡ self.expr }
    {
        let Operand { expr, kind: _ } = self;
        expr
    }
}

/// Refuses an expression of another kind, where both kinds are known.
pub(crate) fn expect(wanted: Option<Kind>, operand: &Operand) -> Result<(), NotRead>
    ensures { OnOk result (kinds.kinds_differ wanted operand.now.kind ≡ false) }
{
    if kinds_differ(wanted, operand.kind) {
        return Err(NotRead::Unsure);
    }
    Ok(())
}

/// The place and the kind of the scalar or the array of this name. Inlined with what it calls, since it is asked at each name:
/// so no fault is written down where there is none, and what the name means is looked at where it lies.
#[inline(always)]
pub(crate) fn known_variable(
    names: &Names,
    is_array: bool,
    name: Spelling<'_>,
) -> Result<Typed<usize>, NotRead>
    ensures unbroken { OnOk result
        (use_faults (meaning_of names.now) (variable_role is_array) (spelled_name name.entry)
        ≡ []) }
    ensures numbers { IfOk result
        (λ v. NumberedAs (meaning_of names.now)
        (λ d. declared_place name.entry.bytes.now d.variables) v.part) }
    ensures kind { IfOk result
        (λ v. v.kind
        ≡ kind_in_role (variable_role is_array) (meaning_of names.now name.entry.bytes.now)) }
{
    let mut fault = FirstFault::new();
    let var = spelled_variable(names, is_array, name.bytes, name.at, &mut fault);
    refuse_fault(&fault)?;
    Ok(var)
}

/// Reads an expression.
// What is read is written in place, here and below: so it isn't copied on its way out.
#[cycle(expressions)]
pub(crate) fn expression(
    alloc: Global,
    cursor: &mut Cursor<'_>,
    names: &Names,
    read: &mut Operand,
) -> Result<(), NotRead>
    ensures { IfOk result
        (λ u. TakesOperand (meaning_of names.now)
        (language_reader expression_format) cursor.old cursor.new read.new) }
{
    conditional(alloc, cursor, names, read)
}

/// Reads `if` with its parts, or else operands of `or`.
#[cycle(expressions)]
fn conditional(
    alloc: Global,
    cursor: &mut Cursor<'_>,
    names: &Names,
    read: &mut Operand,
) -> Result<(), NotRead>
    ensures { IfOk result
        (λ u. TakesOperand (meaning_of names.now)
        (language_reader whole_format) cursor.old cursor.new read.new) }
{
    if cursor.begins_word(Word::If) {
        branches(alloc, cursor, names, read)
    } else {
        operand_under(alloc, cursor, names, LEVELS, read)
    }
}

/// Reads `if` with its parts.
// Not inlined, as others below: so the frame of the recursion that every expression goes through stays small.
#[inline(never)]
#[cycle(expressions)]
fn branches(
    alloc: Global,
    cursor: &mut Cursor<'_>,
    names: &Names,
    read: &mut Operand,
) -> Result<(), NotRead>
    ensures { IfOk result
        (λ u. TakesOperand (meaning_of names.now)
        (language_reader if_format) cursor.old cursor.new read.new) }
{
    cursor.word(Word::If)?;
    let mut test = Operand::unread();
    expression(alloc, cursor, names, &mut test)?;
    expect(Some(Kind::Truth), &test)?;
    cursor.word(Word::Then)?;
    let mut yes = Operand::unread();
    expression(alloc, cursor, names, &mut yes)?;
    cursor.word(Word::Else)?;
    expression(alloc, cursor, names, read)?;
    expect(yes.kind, read)?;
    let kind = known_or(yes.kind, read.kind);
    let expr = Expr::conditional(alloc, test.into_expr(), yes.into_expr(), read.take())?;
    *read = Operand { expr, kind };
    Ok(())
}

/// Reads an operand of operators of the level `under`.
#[cycle(expressions)]
fn operand_under(
    alloc: Global,
    cursor: &mut Cursor<'_>,
    names: &Names,
    under: usize,
    read: &mut Operand,
) -> Result<(), NotRead>
    requires { under ≤ 5 }
    ensures { IfOk result
        (λ u. TakesOperand (meaning_of names.now)
        (language_reader (ByRule (operand_level under))) cursor.old cursor.new read.new) }
{
    let is_negated = cursor.begins_negation(under);
    first_operand(alloc, cursor, names, is_negated, read)?;
    let least = least_level_after(is_negated);
    others(alloc, cursor, names, least, under, read)
}

/// Reads `not` with its operand, or else an operand of `*`.
#[cycle(expressions)]
fn first_operand(
    alloc: Global,
    cursor: &mut Cursor<'_>,
    names: &Names,
    is_negated: bool,
    read: &mut Operand,
) -> Result<(), NotRead>
    ensures { IfOk result
        (λ u. TakesOperand (meaning_of names.now)
        (first_operand is_negated) cursor.old cursor.new read.new) }
{
    if is_negated {
        negated(alloc, cursor, names, read)
    } else {
        unary(alloc, cursor, names, read)
    }
}

/// Reads what comes after the first operand: operators with their right operands, of the levels from `least` up to the
/// one below `under`. After most operands comes none, so that is asked before the call.
#[inline(always)]
#[cycle(expressions)]
fn others(
    alloc: Global,
    cursor: &mut Cursor<'_>,
    names: &Names,
    least: usize,
    under: usize,
    read: &mut Operand,
) -> Result<(), NotRead>
    requires { under ≤ 5 }
    ensures reads { IfOk result
        (λ u. ClimbsFrom (meaning_of names.now) under least cursor.old cursor.new
        (expression_of read.old.expr) read.old.kind (expression_of read.new.expr) read.new.kind) }
    ensures shorter { IfOk result (λ u. length cursor.new ≤ length cursor.old) }
{
    match cursor.infix(least, under) {
        None => Ok(()),
        Some(first) => operators(alloc, cursor, names, first, under, read),
    }
}

/// Reads what comes after an operator that was taken: its right operand, and further operators with theirs.
#[inline(never)]
#[cycle(expressions)]
fn operators(
    alloc: Global,
    cursor: &mut Cursor<'_>,
    names: &Names,
    first: Infix,
    under: usize,
    read: &mut Operand,
) -> Result<(), NotRead>
    requires under { under ≤ 5 }
    requires below { first.level + 1 ≤ under }
    ensures reads { IfOk result
        (λ u. ClimbsOn (meaning_of names.now) under (infix_of first) cursor.old cursor.new
        (expression_of read.old.expr) read.old.kind (expression_of read.new.expr) read.new.kind) }
    ensures shorter { IfOk result (λ u. length cursor.new ≤ length cursor.old) }
{
    let mut taken = Some(first);
    while let Some(infix) = taken {
        expect(operand_kind(infix.op), read)?;
        let mut right = Operand::unread();
        operand_under(alloc, cursor, names, infix.level, &mut right)?;
        expect(right_kind(infix.op, read.kind), &right)?;
        join(alloc, read, infix.op, right)?;
        taken = cursor.infix(next_level(infix.level), under);
    }
    Ok(())
}

/// The least level of an operator that may come after the first operand.
fn least_level_after(is_negated: bool) -> usize
    ensures { result ≡ (if is_negated then 3 else 0) }
{
    if is_negated { CONJUNCTIONS } else { 0 }
}

/// Joins a right operand to a left one, with an operator between them.
#[inline(always)]
fn join(alloc: Global, left: &mut Operand, op: Op, right: Operand) -> Result<(), NotRead>
    ensures expr { IfOk result
        (λ u. expression_of left.new.expr
        ≡ Binary (operator_of op) (expression_of left.old.expr) (expression_of right.expr)) }
    ensures kind { IfOk result (λ u. left.new.kind ≡ Some (kinds.result_kind (operator_of op))) }
{
    let first = Box::new(alloc, left.take())?;
    let second = Box::new(alloc, right.into_expr())?;
    *left = Operand {
        expr: Expr::Binary(op, first, second),
        kind: Some(result_kind(op)),
    };
    Ok(())
}

/// Reads `not` and its operand.
#[inline(never)]
#[cycle(expressions)]
fn negated(
    alloc: Global,
    cursor: &mut Cursor<'_>,
    names: &Names,
    read: &mut Operand,
) -> Result<(), NotRead>
    ensures { IfOk result
        (λ u. TakesOperand (meaning_of names.now)
        (language_reader not_format) cursor.old cursor.new read.new) }
{
    cursor.word(Word::Not)?;
    operand_under(alloc, cursor, names, CONJUNCTIONS, read)?;
    expect(Some(Kind::Truth), read)?;
    let operand = Box::new(alloc, read.take())?;
    *read = Operand {
        expr: Expr::Not(operand),
        kind: Some(Kind::Truth),
    };
    Ok(())
}

/// Reads an operand of `*`.
#[cycle(expressions)]
fn unary(
    alloc: Global,
    cursor: &mut Cursor<'_>,
    names: &Names,
    read: &mut Operand,
) -> Result<(), NotRead>
    ensures { IfOk result
        (λ u. TakesOperand (meaning_of names.now)
        (language_reader (ByRule Unary)) cursor.old cursor.new read.new) }
{
    signed(alloc, cursor, names, read)
}

/// Reads `-` and its operand, or else a part that no operator divides.
#[cycle(expressions)]
fn signed(
    alloc: Global,
    cursor: &mut Cursor<'_>,
    names: &Names,
    read: &mut Operand,
) -> Result<(), NotRead>
    ensures { IfOk result
        (λ u. TakesOperand (meaning_of names.now)
        (language_reader unary_format) cursor.old cursor.new read.new) }
{
    if cursor.begins_symbol(Symbol::Minus) {
        negative(alloc, cursor, names, read)
    } else {
        primary(alloc, cursor, names, read)
    }
}

/// Reads `-` and its operand.
#[inline(never)]
#[cycle(expressions)]
fn negative(
    alloc: Global,
    cursor: &mut Cursor<'_>,
    names: &Names,
    read: &mut Operand,
) -> Result<(), NotRead>
    ensures { IfOk result
        (λ u. TakesOperand (meaning_of names.now)
        (language_reader negative_format) cursor.old cursor.new read.new) }
{
    cursor.symbol(Symbol::Minus)?;
    unary(alloc, cursor, names, read)?;
    expect(Some(Kind::Range), read)?;
    let operand = Box::new(alloc, read.take())?;
    *read = Operand {
        expr: Expr::Neg(operand),
        kind: Some(Kind::Range),
    };
    Ok(())
}

/// Reads an index in brackets.
#[cycle(expressions)]
pub(crate) fn bracketed(
    alloc: Global,
    cursor: &mut Cursor<'_>,
    names: &Names,
    read: &mut Operand,
) -> Result<(), NotRead>
    ensures taken { IfOk result
        (λ u. TakesOperand (meaning_of names.now)
        (language_reader index_format) cursor.old cursor.new read.new) }
    ensures ranged { IfOk result (λ u. kinds.kinds_differ (Some Range) read.new.kind ≡ false) }
{
    cursor.symbol(Symbol::OpenBracket)?;
    expression(alloc, cursor, names, read)?;
    expect(Some(Kind::Range), read)?;
    cursor.symbol(Symbol::CloseBracket)?;
    Ok(())
}

/// Reads `min` or `max` with two operands in parentheses.
#[inline(never)]
#[cycle(expressions)]
fn called(
    alloc: Global,
    cursor: &mut Cursor<'_>,
    names: &Names,
    word: Word,
    op: Op,
    read: &mut Operand,
) -> Result<(), NotRead>
    ensures { IfOk result
        (λ u. TakesOperand (meaning_of names.now)
        (language_reader (call_format word (operator_of op))) cursor.old cursor.new read.new) }
{
    cursor.word(word)?;
    cursor.symbol(Symbol::OpenParenthesis)?;
    expression(alloc, cursor, names, read)?;
    expect(operand_kind(op), read)?;
    cursor.symbol(Symbol::Comma)?;
    let mut second = Operand::unread();
    expression(alloc, cursor, names, &mut second)?;
    expect(right_kind(op, read.kind), &second)?;
    cursor.symbol(Symbol::CloseParenthesis)?;
    join(alloc, read, op, second)?;
    Ok(())
}

/// Reads a variable or a cell.
#[inline(never)]
#[cycle(expressions)]
fn named(
    alloc: Global,
    cursor: &mut Cursor<'_>,
    names: &Names,
    read: &mut Operand,
) -> Result<(), NotRead>
    ensures { IfOk result
        (λ u. TakesOperand (meaning_of names.now)
        (language_reader named_format) cursor.old cursor.new read.new) }
{
    let name = cursor.spelling()?;
    if !cursor.begins_symbol(Symbol::OpenBracket) {
        let var = known_variable(names, false, name)?;
        *read = Operand {
            expr: Expr::Scalar(var.part),
            kind: var.kind,
        };
        return Ok(());
    }
    let var = known_variable(names, true, name)?;
    bracketed(alloc, cursor, names, read)?;
    let index = Box::new(alloc, read.take())?;
    *read = Operand {
        expr: Expr::Cell(var.part, index),
        kind: var.kind,
    };
    Ok(())
}

/// Reads an expression in parentheses.
#[inline(never)]
#[cycle(expressions)]
fn enclosed(
    alloc: Global,
    cursor: &mut Cursor<'_>,
    names: &Names,
    read: &mut Operand,
) -> Result<(), NotRead>
    ensures { IfOk result
        (λ u. TakesOperand (meaning_of names.now)
        (language_reader in_parentheses_format) cursor.old cursor.new read.new) }
{
    cursor.symbol(Symbol::OpenParenthesis)?;
    expression(alloc, cursor, names, read)?;
    cursor.symbol(Symbol::CloseParenthesis)?;
    Ok(())
}

/// Reads what no operator divides.
#[cycle(expressions)]
fn primary(
    alloc: Global,
    cursor: &mut Cursor<'_>,
    names: &Names,
    read: &mut Operand,
) -> Result<(), NotRead>
    ensures { IfOk result
        (λ u. TakesOperand (meaning_of names.now)
        (language_reader (ByRule Primary)) cursor.old cursor.new read.new) }
{
    undivided(alloc, cursor, names, read)
}

/// Reads a number, a word, a variable, or what is in parentheses.
#[cycle(expressions)]
fn undivided(
    alloc: Global,
    cursor: &mut Cursor<'_>,
    names: &Names,
    read: &mut Operand,
) -> Result<(), NotRead>
    ensures { IfOk result
        (λ u. TakesOperand (meaning_of names.now)
        (language_reader primary_format) cursor.old cursor.new read.new) }
{
    if cursor.begins_name() {
        return named(alloc, cursor, names, read);
    }
    if cursor.begins_number() {
        let number = cursor.number()?;
        return match number.value {
            None => Err(NotRead::Unsure),
            Some(value) => {
                *read = Operand {
                    expr: Expr::Int(value),
                    kind: Some(Kind::Range),
                };
                Ok(())
            }
        };
    }
    if cursor.begins_symbol(Symbol::OpenParenthesis) {
        return enclosed(alloc, cursor, names, read);
    }
    if cursor.begins_word(Word::True) {
        cursor.word(Word::True)?;
        *read = Operand {
            expr: Expr::Truth(true),
            kind: Some(Kind::Truth),
        };
        return Ok(());
    }
    if cursor.begins_word(Word::False) {
        cursor.word(Word::False)?;
        *read = Operand {
            expr: Expr::Truth(false),
            kind: Some(Kind::Truth),
        };
        return Ok(());
    }
    if cursor.begins_word(Word::Clk) {
        cursor.word(Word::Clk)?;
        *read = Operand {
            expr: Expr::Clk,
            kind: Some(Kind::Range),
        };
        return Ok(());
    }
    if cursor.begins_word(Word::Min) {
        return called(alloc, cursor, names, Word::Min, Op::Min, read);
    }
    called(alloc, cursor, names, Word::Max, Op::Max, read)
}
