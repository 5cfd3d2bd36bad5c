//! The sentences of the edges that leave an event.

ghost use Rattle.std.specs.Prelude.{◌≡◌, ◌++◌, map, OnOk};
ghost use Rattle.std.specs.List.{flat_map};
ghost use Rattle.model_core.specs.EventGraph.{Schedule};
ghost use Rattle.model_core.specs.Text.Canonical.{vertex_name, expression_texts};
ghost use Rattle.model_core.specs.Code.Views.{graph_of, expression_of, edge_delay_of, edge_kind_of, edge_of};
ghost use Rattle.describe.specs.Description.{condition_phrase, delay_phrase, values_phrase, deed_phrase, edge_sentence};

use crate::phrases::{put_drawn, put_expression, put_expressions};
use model_core::{Delay, Edge, EdgeForm, Expr, Model};
use sig_base::{NoMemory, put_bytes, put_counted, put_texts};
use std::alloc::Global;

/// Adds a condition, or nothing where it is the word `true`.
fn put_condition(
    alloc: Global,
    out: &mut Vec<u8>,
    model: &Model,
    condition: &Expr,
) -> Result<(), NoMemory>
    ensures { OnOk result
        (out.new.items
        ≡ out.old.items ++ condition_phrase (graph_of model.now) (expression_of condition.now)) }
{
    if let Expr::Truth(true) = condition {
        return Ok(());
    }
    put_bytes(out, b"if ")?;
    put_expression(alloc, out, model, condition)?;
    put_bytes(out, b", ")
}

/// Adds a delay.
fn put_delay(alloc: Global, out: &mut Vec<u8>, model: &Model, delay: &Delay) -> Result<(), NoMemory>
    ensures { OnOk result
        (out.new.items
        ≡ out.old.items ++ delay_phrase (graph_of model.now) (edge_delay_of delay.now)) }
{
    match delay {
        Delay::Fixed(expr) => {
            put_expression(alloc, out, model, expr)?;
            put_bytes(out, b" ticks")
        }
        Delay::Drawn { stream, choice } => {
            put_bytes(out, b"a delay ")?;
            put_drawn(out, model, *stream, *choice)
        }
    }
}

/// Adds the values that an event carries after these words, or nothing where it carries none.
fn put_values(
    alloc: Global,
    out: &mut Vec<u8>,
    model: &Model,
    words: &[u8],
    values: &[Expr],
) -> Result<(), NoMemory>
    ensures { OnOk result
        (out.new.items
        ≡ out.old.items
        ++ values_phrase words.now
        (expression_texts (graph_of model.now) (map expression_of values.now))) }
{
    if values.is_empty() {
        return Ok(());
    }
    put_bytes(out, words)?;
    put_expressions(alloc, out, model, values)
}

/// Adds that an edge schedules its event after this delay and with this priority.
fn put_scheduling(
    alloc: Global,
    out: &mut Vec<u8>,
    model: &Model,
    edge: &Edge,
    delay: &Delay,
    priority: u8,
) -> Result<(), NoMemory>
    ensures { OnOk result
        (out.new.items
        ≡ out.old.items
        ++ deed_phrase (graph_of model.now) (Schedule (edge_delay_of delay.now) priority)
        (vertex_name (graph_of model.now) edge.now.target)
        (expression_texts (graph_of model.now) (map expression_of edge.now.values))) }
{
    let name = model.vertex_name(edge.target);
    put_texts(out, &[b"event ", name, b" is scheduled after "])?;
    put_delay(alloc, out, model, delay)?;
    put_counted(out, b" with priority ", u64::from(priority))?;
    put_values(alloc, out, model, b", carrying ", edge.values.as_slice())
}

/// Adds what an edge does to the event to which it leads.
fn put_deed(alloc: Global, out: &mut Vec<u8>, model: &Model, edge: &Edge) -> Result<(), NoMemory>
    ensures { OnOk result
        (out.new.items
        ≡ out.old.items
        ++ deed_phrase (graph_of model.now) (edge_kind_of edge.now.form)
        (vertex_name (graph_of model.now) edge.now.target)
        (expression_texts (graph_of model.now) (map expression_of edge.now.values))) }
{
    let name = model.vertex_name(edge.target);
    match &edge.form {
        EdgeForm::Schedule { delay, priority } => {
            put_scheduling(alloc, out, model, edge, delay, *priority)
        }
        EdgeForm::Urgent => {
            put_texts(out, &[b"event ", name, b" follows at once"])?;
            put_values(alloc, out, model, b", carrying ", edge.values.as_slice())
        }
        EdgeForm::CancelNext => put_texts(out, &[b"the next pending ", name, b" is cancelled"]),
        EdgeForm::CancelEqual => {
            put_texts(out, &[b"the next pending ", name])?;
            put_values(alloc, out, model, b" carrying ", edge.values.as_slice())?;
            put_bytes(out, b" is cancelled")
        }
        EdgeForm::CancelAll => put_texts(out, &[b"every pending ", name, b" is cancelled"]),
    }
}

/// Adds the sentence of an edge from the event of this name.
fn put_edge(
    alloc: Global,
    out: &mut Vec<u8>,
    model: &Model,
    name: &[u8],
    edge: &Edge,
) -> Result<(), NoMemory>
    ensures { OnOk result
        (out.new.items
        ≡ out.old.items ++ edge_sentence (graph_of model.now) name.now (edge_of edge.now)) }
{
    put_texts(out, &[b"After ", name, b", "])?;
    put_condition(alloc, out, model, &edge.condition)?;
    put_deed(alloc, out, model, edge)?;
    put_bytes(out, b".\n")
}

/// Adds the sentences of edges from the event of this name.
pub(crate) fn put_edges(
    alloc: Global,
    out: &mut Vec<u8>,
    model: &Model,
    name: &[u8],
    edges: &[Edge],
) -> Result<(), NoMemory>
    ensures { OnOk result
        (out.new.items
        ≡ out.old.items
        ++ flat_map (edge_sentence (graph_of model.now) name.now) (map edge_of edges.now)) }
{
    for edge in edges {
        put_edge(alloc, out, model, name, edge)?;
    }
    Ok(())
}
