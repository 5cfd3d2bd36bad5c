//! The bounds of a value by a walk over its postfix form.

ghost use Rattle.std.specs.Prelude.{◌≡◌, true, [], ◌∷◌, reverse, None, IfOk, OnOk};
ghost use Rattle.range_bounds.specs.Near.{IsNear};
ghost use Rattle.model_core.specs.EventGraph.{Expression};
ghost use Rattle.model_core.specs.Rules.BoundsOf.{bounds_under};
ghost use Rattle.model_core.specs.Ranges.Refined.{refined};
ghost use Rattle.model_core.specs.Code.Views.{expression_of};
ghost use Rattle.range_infer.specs.declared.ranges_left.RangesLeft.{RangesLeft};
ghost use Rattle.range_infer.specs.Inner.RangesLeft.{variables_left, StaysLeft, RestoresTo};
ghost use Rattle.range_infer.specs.Inner.KeptRanges.{LeftOnWalk};
ghost use Rattle.range_infer.specs.Inner.PartReads.{long_postfix};
ghost use Rattle.range_infer.specs.Inner.Postfix.{Walk, signed_number, postfix_of, operated, chosen, is_of_ranges, after_item, walked};

use crate::bounds_left::{bounds_left, quiet_index, variable_bounds};
use crate::postfix::{PostfixItem, is_of_ranges};
use crate::ranges_left::RangesLeft;
use crate::refinement::{refine_scalar, restore_ranges};
use model_core::{Bounds, Expr, Op};
use range_bounds::{
    chosen_bounds, negative_bounds, number_bounds, operator_bounds, opposite, truth_bounds,
};
use sig_base::NoMemory;

/// Keeps the bounds of the operand before this one. Gives those of this one.
#[inline(always)]
fn next_operand(before: &mut Vec<Bounds>, last: Bounds, next: Bounds) -> Result<Bounds, NoMemory>
    ensures { IfOk result
        (λ b. b ∷ reverse before.new.items ≡ next ∷ last ∷ reverse before.old.items) }
{
    before.push(last)?;
    Ok(next)
}

/// The bounds of an operator's result on the last two operands.
#[inline(always)]
fn bounds_of_result(before: &mut Vec<Bounds>, op: Op, last: Bounds) -> Bounds
    ensures { result ∷ reverse before.new.items ≡ operated op (last ∷ reverse before.old.items) }
{
    match before.pop() {
        Some(first) => operator_bounds(op, &first, &last),
        None => last,
    }
}

/// The bounds of what a test decides, of the last three operands.
fn bounds_of_choice(before: &mut Vec<Bounds>, last: Bounds) -> Bounds
    ensures { result ∷ reverse before.new.items ≡ chosen (last ∷ reverse before.old.items) }
{
    let Some(yes) = before.pop() else {
        return last;
    };
    match before.pop() {
        Some(test) => chosen_bounds(&test, &yes, &last),
        None => last,
    }
}

/// The bounds of the last operand after one more item that isn't of ranges. Those of the operands before it wait for what is made
/// of them.
#[inline(always)]
fn after_item(
    left: &RangesLeft,
    before: &mut Vec<Bounds>,
    last: Bounds,
    item: PostfixItem,
) -> Result<Bounds, NoMemory>
    ensures { IfOk result
        (λ b. b ∷ reverse before.new.items
        ≡ after_item (variables_left left.now) (last ∷ reverse before.old.items) item) }
{
    match item {
        PostfixItem::Beside(op, var) => {
            let second = variable_bounds(left, var, true);
            Ok(operator_bounds(op, &last, &second))
        }
        PostfixItem::Operator(op) => Ok(bounds_of_result(before, op, last)),
        PostfixItem::Variable(var) => next_operand(before, last, variable_bounds(left, var, true)),
        PostfixItem::Number(n) => next_operand(before, last, number_bounds(n, n, true)),
        PostfixItem::Truth(b) => next_operand(before, last, truth_bounds(!b, b, true)),
        PostfixItem::Clock => next_operand(before, last, number_bounds(0, 1 << 48, true)),
        PostfixItem::CellOf(var) => {
            let quiet = quiet_index(left.model, var, &last);
            Ok(variable_bounds(left, var, quiet))
        }
        PostfixItem::Negated => Ok(negative_bounds(&last)),
        PostfixItem::Opposite => Ok(opposite(&last)),
        PostfixItem::Chosen => Ok(bounds_of_choice(before, last)),
        PostfixItem::Kept | PostfixItem::PutBack | PostfixItem::Left(..) => Ok(last),
    }
}

/// A number with its sign.
fn signed_number(negative: bool, n: i64) -> i128
    ensures value { result ≡ signed_number negative n }
    ensures near { IsNear result }
{
    if negative { -(n as i128) } else { n as i128 }
}

/// Puts the ranges back that were kept last, if any were.
fn put_back(left: &mut RangesLeft, kept: &mut Vec<usize>)
    ensures { (first : RangesLeft) (w : Walk) → LeftOnWalk first left.old (reverse kept.old.items) w
        → LeftOnWalk first left.new (reverse kept.new.items) (walked w PostfixItem.PutBack) }
{
    if let Some(count) = kept.pop() {
        restore_ranges(left, count);
    }
}

/// The ranges that are left after one more item of ranges. For ranges that are kept, it notes how many were replaced before.
fn ranges_after(
    left: &mut RangesLeft,
    kept: &mut Vec<usize>,
    item: PostfixItem,
) -> Result<(), NoMemory>
    ensures { OnOk result
        ((first : RangesLeft) (w : Walk) → is_of_ranges item ≡ true
        → LeftOnWalk first left.old (reverse kept.old.items) w
        → LeftOnWalk first left.new (reverse kept.new.items) (walked w item)) }
{
    match item {
        PostfixItem::Kept => kept.push(left.replaced.len())?,
        PostfixItem::PutBack => put_back(left, kept),
        PostfixItem::Left(op, var, negative, n) => refine_scalar(
            left,
            op,
            var,
            signed_number(negative, n),
        )?,
        PostfixItem::Number(_) | PostfixItem::Truth(_) | PostfixItem::Clock => {}
        PostfixItem::Variable(_) | PostfixItem::CellOf(_) => {}
        PostfixItem::Negated | PostfixItem::Opposite | PostfixItem::Chosen => {}
        PostfixItem::Beside(_, _) | PostfixItem::Operator(_) => {}
    }
    Ok(())
}

/// Walks over items, from the ranges that are left. Gives the bounds that are found last.
fn walk_over(
    left: &mut RangesLeft,
    before: &mut Vec<Bounds>,
    kept: &mut Vec<usize>,
    items: &[PostfixItem],
) -> Result<Bounds, NoMemory>
    requires { kept.old.items ≡ [] }
    ensures found { IfOk result
        (λ b. (e : Expression) → items.now ≡ postfix_of e None
        → b ≡ bounds_under refined (variables_left left.old) e) }
    ensures back { OnOk result (RestoresTo left.old left.new) }
{
    let mut last = number_bounds(0, 0, true);
    for item in items {
        if is_of_ranges(item) {
            ranges_after(left, kept, *item)?;
        } else {
            last = after_item(left, before, last, *item)?;
        }
    }
    Ok(last)
}

/// The bounds of the value of which this is the postfix form, under the ranges that are left.
fn bounds_of_items(left: &mut RangesLeft, items: &[PostfixItem]) -> Result<Bounds, NoMemory>
    ensures bounds { IfOk result
        (λ b. (e : Expression) → items.now ≡ postfix_of e None
        → b ≡ bounds_under refined (variables_left left.old) e) }
    ensures left { OnOk result (StaysLeft left.old left.new) }
{
    let replaced = left.replaced.len();
    let mut before = Vec::new(*left.ranges.allocator());
    let mut kept = Vec::new(*left.ranges.allocator());
    let last = walk_over(left, &mut before, &mut kept, items)?;
    restore_ranges(left, replaced);
    Ok(last)
}

/// The bounds of a value under the ranges that are left: of a long one by its postfix form, and of another as a tree.
pub(crate) fn value_bounds(
    left: &mut RangesLeft,
    value: &Expr,
    items: &[PostfixItem],
) -> Result<Bounds, NoMemory>
    requires { items.now ≡ long_postfix (expression_of value.now) }
    ensures bounds { IfOk result
        (λ b. b ≡ bounds_under refined (variables_left left.old) (expression_of value.now)) }
    ensures left { OnOk result (StaysLeft left.old left.new) }
{
    if items.is_empty() {
        bounds_left(left, value)
    } else {
        bounds_of_items(left, items)
    }
}
