//! Phrases that sentences of several kinds have in common: numbers, expressions, locations and draws.

ghost use Rattle.std.specs.Prelude.{◌≡◌, ◌++◌, map, option_map, OnOk};
ghost use Rattle.model_core.specs.Text.Canonical.{joined, after_commas, expression_text, expression_texts, index_text, location_text};
ghost use Rattle.model_core.specs.Code.Views.{graph_of, expression_of, location_of, choice_of};
ghost use Rattle.describe.specs.Description.{choice_phrase, drawn_phrase};

use model_core::{Choice, Expr, Model, Target};
use model_print::put_expr;
use sig_base::{NoMemory, put_bytes, put_counted, put_signed, put_texts};
use std::alloc::Global;

/// Adds an expression.
pub(crate) fn put_expression(
    alloc: Global,
    out: &mut Vec<u8>,
    model: &Model,
    expr: &Expr,
) -> Result<(), NoMemory>
    ensures { OnOk result
        (out.new.items
        ≡ out.old.items ++ expression_text (graph_of model.now) (expression_of expr.now)) }
{
    put_expr(alloc, out, expr, model)
}

/// Adds expressions, each after a comma and a space.
fn put_later_expressions(
    alloc: Global,
    out: &mut Vec<u8>,
    model: &Model,
    exprs: &[Expr],
) -> Result<(), NoMemory>
    ensures { OnOk result
        (out.new.items
        ≡ out.old.items
        ++ after_commas (expression_texts (graph_of model.now) (map expression_of exprs.now))) }
{
    for expr in exprs {
        put_bytes(out, b", ")?;
        put_expression(alloc, out, model, expr)?;
    }
    Ok(())
}

/// Adds expressions, with a comma and a space between two.
pub(crate) fn put_expressions(
    alloc: Global,
    out: &mut Vec<u8>,
    model: &Model,
    exprs: &[Expr],
) -> Result<(), NoMemory>
    ensures { OnOk result
        (out.new.items
        ≡ out.old.items
        ++ joined (expression_texts (graph_of model.now) (map expression_of exprs.now))) }
{
    let [first, rest @ ..] = exprs else {
        return Ok(());
    };
    put_expression(alloc, out, model, first)?;
    put_later_expressions(alloc, out, model, rest)
}

/// Adds an index in brackets, or nothing where there is none.
fn put_index(
    alloc: Global,
    out: &mut Vec<u8>,
    model: &Model,
    index: &Option<Expr>,
) -> Result<(), NoMemory>
    ensures { OnOk result
        (out.new.items
        ≡ out.old.items ++ index_text (graph_of model.now) (option_map expression_of index.now)) }
{
    let Some(index) = index else {
        return Ok(());
    };
    put_bytes(out, b"[")?;
    put_expression(alloc, out, model, index)?;
    put_bytes(out, b"]")
}

/// Adds a variable or a cell that takes a value.
pub(crate) fn put_target(
    alloc: Global,
    out: &mut Vec<u8>,
    model: &Model,
    target: &Target,
) -> Result<(), NoMemory>
    ensures { OnOk result
        (out.new.items
        ≡ out.old.items ++ location_text (graph_of model.now) (location_of target.now)) }
{
    put_bytes(out, model.variable_name(target.var))?;
    put_index(alloc, out, model, &target.index)
}

/// Adds what a draw takes its value from.
fn put_choice(out: &mut Vec<u8>, model: &Model, choice: Choice) -> Result<(), NoMemory>
    ensures { OnOk result
        (out.new.items ≡ out.old.items ++ choice_phrase (graph_of model.now) (choice_of choice)) }
{
    match choice {
        Choice::Uniform { lo, hi } => {
            put_bytes(out, b" between ")?;
            put_signed(out, lo)?;
            put_bytes(out, b" and ")?;
            put_signed(out, hi)
        }
        Choice::ByTable { table } => {
            put_texts(out, &[b" by the table ", model.table_name(table)])
        }
    }
}

/// Adds from which stream and by what a value is drawn.
pub(crate) fn put_drawn(
    out: &mut Vec<u8>,
    model: &Model,
    stream: u8,
    choice: Choice,
) -> Result<(), NoMemory>
    ensures { OnOk result
        (out.new.items
        ≡ out.old.items ++ drawn_phrase (graph_of model.now) stream (choice_of choice)) }
{
    put_counted(out, b"drawn from stream ", u64::from(stream))?;
    put_choice(out, model, choice)
}
