//! Values in postfix form: each operator comes after its operands, so that one walk over a list finds the bounds. If a part is
//! evaluated under other ranges, items before it say which.
#![tactic(auto, using(crate::proofs::PostfixBounds::same_op))]

ghost use Rattle.std.specs.Prelude.{◌≡◌, [], ◌∷◌, ◌++◌, not, None, OnOk, IfOk};
ghost use Rattle.std.specs.Option.{option_map};
ghost use Rattle.model_core.specs.Code.Views.{expression_of, operator_of};
ghost use Rattle.model_core.specs.Rules.Exclusive.{number_literal};
ghost use Rattle.range_infer.specs.Inner.Postfix.{number_items, literal_items, compared_items, left_items, refines_both_where, left_by, with_right, postfix_of, is_of_ranges};

use crate::refinement::{comparison_where, guard_of, refines_both};
use model_core::{Expr, Op};
use sig_base::{List, NoMemory};
use std::alloc::Global;

/// An operand, what is made of the operands that were found before, or the ranges under which the next ones are evaluated.
#[derive(Clone, Copy)]
pub(crate) enum PostfixItem {
    /// A number.
    Number(i64),
    /// A truth value.
    Truth(bool),
    /// The clock's time.
    Clock,
    /// What the variable at this place holds.
    Variable(usize),
    /// A cell of the array at this place. Its index is the last operand.
    CellOf(usize),
    /// The number with the other sign.
    Negated,
    /// The other truth value.
    Opposite,
    /// The result of an operator on the last operand and the value of the variable at this place.
    Beside(Op, usize),
    /// The result of an operator on the last two operands.
    Operator(Op),
    /// What a test decides: it is the last operand but two.
    Chosen,
    /// The ranges that are left are kept.
    Kept,
    /// The last ranges that were kept are left again.
    PutBack,
    /// Of the variable at this place is left that for which the comparison with a number holds, which is below 0 where it has
    /// a sign.
    Left(Op, usize, bool, i64),
}

/// Whether an item says under which ranges the next ones are evaluated.
pub(crate) fn is_of_ranges(item: &PostfixItem) -> bool
    ensures { result ≡ is_of_ranges item.now }
{
    match item {
        PostfixItem::Kept | PostfixItem::PutBack | PostfixItem::Left(..) => true,
        PostfixItem::Number(_) | PostfixItem::Truth(_) | PostfixItem::Clock => false,
        PostfixItem::Variable(_) | PostfixItem::CellOf(_) => false,
        PostfixItem::Negated | PostfixItem::Opposite | PostfixItem::Chosen => false,
        PostfixItem::Beside(_, _) | PostfixItem::Operator(_) => false,
    }
}

/// The number that an expression is.
fn number_in(expr: &Expr) -> Option<i64>
    ensures { result ≡ number_literal (expression_of expr.now) }
{
    if let Expr::Int(n) = expr {
        Some(*n)
    } else {
        None
    }
}

/// Adds what a comparison with a number, if there is one, leaves of a variable.
fn add_number(
    items: &mut Vec<PostfixItem>,
    op: Op,
    var: usize,
    negative: bool,
    number: Option<i64>,
) -> Result<(), NoMemory>
    ensures { OnOk result
        (items.new.items ≡ items.old.items ++ number_items op var negative number) }
{
    if let Some(n) = number {
        items.push(PostfixItem::Left(op, var, negative, n))?;
    }
    Ok(())
}

/// Adds what a comparison with an expression leaves of a variable, if the expression is a literal.
fn add_literal(
    items: &mut Vec<PostfixItem>,
    op: Op,
    var: usize,
    expr: &Expr,
) -> Result<(), NoMemory>
    ensures { OnOk result
        (items.new.items ≡ items.old.items ++ literal_items op var (expression_of expr.now)) }
{
    if let Expr::Neg(a) = expr {
        add_number(items, op, var, true, number_in(a))
    } else {
        add_number(items, op, var, false, number_in(expr))
    }
}

/// Adds what a comparison leaves of the variable on its left, if there is one, where it has this value.
fn add_compared(
    items: &mut Vec<PostfixItem>,
    op: Op,
    first: &Expr,
    second: &Expr,
    value: bool,
) -> Result<(), NoMemory>
    ensures { OnOk result
        (items.new.items
        ≡ items.old.items
        ++ compared_items (operator_of op) (expression_of first.now)
        (expression_of second.now) value) }
{
    if let Expr::Scalar(var) = first {
        add_literal(items, comparison_where(op, value), *var, second)?;
    }
    Ok(())
}

/// Adds what is left where an expression has this value.
fn add_left(items: &mut Vec<PostfixItem>, expr: &Expr, value: bool) -> Result<(), NoMemory>
    ensures { OnOk result
        (items.new.items ≡ items.old.items ++ left_items (expression_of expr.now) value) }
{
    match expr {
        Expr::Not(a) => add_left(items, a, !value),
        Expr::Binary(op, first, second) => {
            if refines_both(*op, value) {
                add_left(items, first, value)?;
                add_left(items, second, value)
            } else {
                add_compared(items, *op, first, second, value)
            }
        }
        Expr::Int(_) | Expr::Truth(_) | Expr::Clk | Expr::Scalar(_) => Ok(()),
        Expr::Cell(_, _) | Expr::Neg(_) | Expr::If(..) => Ok(()),
    }
}

/// Adds what a comparison leaves where it has this value, if it is known to have one.
fn add_left_by(
    items: &mut Vec<PostfixItem>,
    op: Op,
    first: &Expr,
    second: &Expr,
    value: Option<bool>,
) -> Result<(), NoMemory>
    ensures { OnOk result
        (items.new.items
        ≡ items.old.items
        ++ left_by (operator_of op) (expression_of first.now) (expression_of second.now) value) }
{
    match value {
        None => Ok(()),
        Some(value) => add_compared(items, op, first, second, value),
    }
}

/// Whether both operands are known by the value that an operator's result is known to have.
fn refines_both_where(op: Op, value: Option<bool>) -> bool
    ensures { result ≡ refines_both_where (operator_of op) value }
{
    match value {
        None => false,
        Some(value) => refines_both(op, value),
    }
}

fn opposite_value(value: Option<bool>) -> Option<bool>
    ensures { result ≡ option_map not value }
{
    match value {
        None => None,
        Some(value) => Some(!value),
    }
}

/// Adds an item.
fn add_item(items: &mut Vec<PostfixItem>, item: PostfixItem) -> Result<(), NoMemory>
    ensures { OnOk result (items.new.items ≡ items.old.items ++ item ∷ []) }
{
    items.push(item)?;
    Ok(())
}

fn add_two(
    items: &mut Vec<PostfixItem>,
    first: PostfixItem,
    second: PostfixItem,
) -> Result<(), NoMemory>
    ensures { OnOk result (items.new.items ≡ items.old.items ++ first ∷ second ∷ []) }
{
    items.push(first)?;
    add_item(items, second)
}

/// Adds the postfix form of an operand, and the item that is made of it.
#[cycle(add_postfix)]
fn add_operand(
    items: &mut Vec<PostfixItem>,
    expr: &Expr,
    value: Option<bool>,
    item: PostfixItem,
) -> Result<(), NoMemory>
    ensures { OnOk result
        (items.new.items
        ≡ items.old.items ++ (postfix_of (expression_of expr.now) value ++ item ∷ [])) }
{
    add_postfix(items, expr, value)?;
    add_item(items, item)
}

/// Adds the right operand of an operator, and the operator.
#[cycle(add_postfix)]
fn add_right(items: &mut Vec<PostfixItem>, op: Op, expr: &Expr) -> Result<(), NoMemory>
    ensures { OnOk result
        (items.new.items
        ≡ items.old.items
        ++ with_right (operator_of op) (expression_of expr.now)
        (postfix_of (expression_of expr.now) None)) }
{
    if let Expr::Scalar(var) = expr {
        add_item(items, PostfixItem::Beside(op, *var))
    } else {
        add_operand(items, expr, None, PostfixItem::Operator(op))
    }
}

/// Adds the postfix form of an expression. After it the ranges are those where the expression has this value, or those before
/// it.
#[cycle(add_postfix)]
fn add_postfix(
    items: &mut Vec<PostfixItem>,
    expr: &Expr,
    value: Option<bool>,
) -> Result<(), NoMemory>
    ensures { OnOk result
        (items.new.items ≡ items.old.items ++ postfix_of (expression_of expr.now) value) }
{
    match expr {
        Expr::Int(n) => add_item(items, PostfixItem::Number(*n)),
        Expr::Truth(b) => add_item(items, PostfixItem::Truth(*b)),
        Expr::Clk => add_item(items, PostfixItem::Clock),
        Expr::Scalar(var) => add_item(items, PostfixItem::Variable(*var)),
        Expr::Cell(var, index) => add_operand(items, index, None, PostfixItem::CellOf(*var)),
        Expr::Neg(a) => add_operand(items, a, None, PostfixItem::Negated),
        Expr::Not(a) => add_operand(items, a, opposite_value(value), PostfixItem::Opposite),
        Expr::Binary(op, first, second) => {
            if refines_both_where(*op, value) {
                add_postfix(items, first, value)?;
                return add_operand(items, second, value, PostfixItem::Operator(*op));
            }
            match guard_of(*op) {
                None => {
                    add_postfix(items, first, None)?;
                    add_right(items, *op, second)?;
                }
                Some(guard) => {
                    add_item(items, PostfixItem::Kept)?;
                    add_postfix(items, first, Some(guard))?;
                    add_postfix(items, second, None)?;
                    add_two(items, PostfixItem::PutBack, PostfixItem::Operator(*op))?;
                }
            }
            add_left_by(items, *op, first, second, value)
        }
        Expr::If(test, yes, no) => {
            add_item(items, PostfixItem::Kept)?;
            add_postfix(items, test, Some(true))?;
            add_postfix(items, yes, None)?;
            add_two(items, PostfixItem::PutBack, PostfixItem::Kept)?;
            add_left(items, test, false)?;
            add_postfix(items, no, None)?;
            add_two(items, PostfixItem::PutBack, PostfixItem::Chosen)
        }
    }
}

/// The postfix form of a value.
pub(crate) fn value_postfix(alloc: Global, expr: &Expr) -> Result<List<PostfixItem>, NoMemory>
    ensures { IfOk result (λ items. items ≡ postfix_of (expression_of expr.now) None) }
{
    let mut items = Vec::new(alloc);
    add_postfix(&mut items, expr, None)?;
    Ok(List::from_vec(items))
}
