//! The canonical text of a model or of an expression, printed into memory.

ghost use Rattle.std.specs.Prelude.{◌≡◌, ◌≤◌, ◌<◌, ◌-◌, ◌^◌, ◌++◌, [], vec_capacity, IfOk, OnOk};
ghost use Rattle.model_core.specs.Text.Canonical.{canonical, expression_text};
ghost use Rattle.model_core.specs.Code.Views.{graph_of, expression_of};

use crate::expressions::put_expression;
use crate::lengths::expr_length;
use crate::model::put_model;
use crate::pen::{Growing, Page};
use model_core::{Expr, Model};
use sig_base::{NoMemory, Text};
use std::alloc::Global;
use std::mem::replace;

/// An empty page with room for a text of this length.
fn page_for(alloc: Global, length: u64) -> Result<Page, NoMemory>
    ensures empty { IfOk result (λ page. page.bytes.items ≡ []) }
    ensures room { IfOk result (λ page. length ≤ vec_capacity page.bytes) }
    ensures exact { IfOk result (λ page. length < 2 ^ 64 - 1) }
{
    if length == u64::MAX {
        return Err(NoMemory);
    }
    Page::with_room(alloc, length as usize)
}

/// The canonical text of a model: one line for each declaration, change and edge, in the model's order.
///
/// A place that no variable, table or vertex has prints as nothing. The text isn't measured before: its memory grows with it.
pub fn print(alloc: Global, model: &Model) -> Result<Text, NoMemory>
    ensures { IfOk result (λ t. t ≡ canonical (graph_of model.now)) }
{
    let mut text = Growing {
        bytes: Vec::new(alloc),
        lacks_memory: false,
    };
    put_model(&mut text, model);
    if text.lacks_memory {
        return Err(NoMemory);
    }
    Ok(Text::from_vec(text.bytes))
}

/// The canonical text of an expression of the model, with parentheses exactly where they are needed.
///
/// A place that no variable, table or vertex has prints as nothing. All memory is taken at once.
pub fn print_expr(alloc: Global, expr: &Expr, model: &Model) -> Result<Text, NoMemory>
    ensures { IfOk result (λ t. t ≡ expression_text (graph_of model.now) (expression_of expr.now)) }
{
    let mut page = page_for(alloc, expr_length(expr, model))?;
    put_expression(&mut page, model, expr);
    Ok(Text::from_vec(page.bytes))
}

/// Adds the canonical text of an expression of the model to other bytes, with parentheses exactly where they are needed.
///
/// A place that no variable, table or vertex has prints as nothing.
pub fn put_expr(
    alloc: Global,
    out: &mut Vec<u8>,
    expr: &Expr,
    model: &Model,
) -> Result<(), NoMemory>
    ensures { OnOk result
        (out.new.items
        ≡ out.old.items ++ expression_text (graph_of model.now) (expression_of expr.now)) }
{
    let mut text = Growing {
        bytes: replace(out, Vec::new(alloc)),
        lacks_memory: false,
    };
    put_expression(&mut text, model, expr);
    *out = text.bytes;
    if text.lacks_memory {
        return Err(NoMemory);
    }
    Ok(())
}
