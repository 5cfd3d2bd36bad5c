//! The lines of a vertex: its changes and its edges.

ghost use Rattle.std.specs.Prelude.{◌++◌, map, option_map};
ghost use Rattle.std.specs.List.{flat_map};
ghost use Rattle.model_core.specs.Text.Canonical.{index_text, location_text, choice_text, source_text, change_line, delay_text, priority_text, edge_word, timing_text, condition_text, edge_line, vertex_lines, variable_name, joined, in_parentheses};
ghost use Rattle.model_core.specs.Rules.Merge.{set_parameters};
ghost use Rattle.model_core.specs.Code.Views.{graph_of, expression_of, location_of, choice_of, change_of, edge_delay_of, edge_kind_of, edge_of, vertex_of};

use crate::expressions::{put_carried_values, put_expression, put_expressions};
use crate::names::{put_table_name, put_variable_name, put_vertex_name};
use crate::pen::{Pen, put_comma, put_number, put_signed};
use model_core::{Change, Choice, Delay, Edge, EdgeForm, Expr, Model, Target, Vertex};

/// The priority that an edge has where none is written.
const PLAIN_PRIORITY: u8 = 5;

/// Puts an index in brackets, or nothing where there is none.
fn put_index<P: Pen>(out: &mut P, model: &Model, index: &Option<Expr>)
    ensures { P.adds out.old out.new
        (index_text (graph_of model.now) (option_map expression_of index.now)) }
{
    let Some(index) = index else {
        return;
    };
    out.put_bytes(b"[");
    put_expression(out, model, index);
    out.put_bytes(b"]");
}

/// Puts a variable or a cell that takes a value.
fn put_target<P: Pen>(out: &mut P, model: &Model, target: &Target)
    ensures { P.adds out.old out.new (location_text (graph_of model.now) (location_of target.now)) }
{
    put_variable_name(out, model, target.var);
    put_index(out, model, &target.index);
}

/// Puts targets, with a comma and a space between two.
fn put_targets<P: Pen>(out: &mut P, model: &Model, targets: &[Target])
    ensures { P.adds out.old out.new
        (joined (map (location_text (graph_of model.now)) (map location_of targets.now))) }
{
    let [first, rest @ ..] = targets else {
        return;
    };
    put_target(out, model, first);
    for target in rest {
        put_comma(out);
        put_target(out, model, target);
    }
}

/// Puts what a draw takes its value from.
fn put_choice<P: Pen>(out: &mut P, model: &Model, choice: Choice)
    ensures { P.adds out.old out.new (choice_text (graph_of model.now) (choice_of choice)) }
{
    match choice {
        Choice::Uniform { lo, hi } => {
            out.put_bytes(b" in ");
            put_signed(out, lo);
            out.put_bytes(b"..");
            put_signed(out, hi);
        }
        Choice::ByTable { table } => {
            out.put_bytes(b" by ");
            put_table_name(out, model, table);
        }
    }
}

/// Puts the source of a draw: its stream, and what it takes its value from.
fn put_source<P: Pen>(out: &mut P, model: &Model, stream: u8, choice: Choice)
    ensures { P.adds out.old out.new (source_text (graph_of model.now) stream (choice_of choice)) }
{
    out.put_bytes(b" from ");
    put_number(out, u64::from(stream));
    put_choice(out, model, choice);
}

/// Puts the line of a change.
pub(crate) fn put_change<P: Pen>(out: &mut P, model: &Model, change: &Change)
    ensures { P.adds out.old out.new (change_line (graph_of model.now) (change_of change.now)) }
{
    match change {
        Change::Set { targets, values } => {
            out.put_bytes(b"  set ");
            put_targets(out, model, targets.as_slice());
            out.put_bytes(b" := ");
            put_expressions(out, model, values.as_slice());
            out.put_bytes(b";\n");
        }
        Change::Draw {
            target,
            stream,
            choice,
        } => {
            out.put_bytes(b"  draw ");
            put_target(out, model, target);
            put_source(out, model, *stream, *choice);
            out.put_bytes(b";\n");
        }
    }
}

/// Puts a delay, or nothing where it is the number 0.
fn put_delay<P: Pen>(out: &mut P, model: &Model, delay: &Delay)
    ensures { P.adds out.old out.new (delay_text (graph_of model.now) (edge_delay_of delay.now)) }
{
    match delay {
        Delay::Fixed(expr) => {
            if let Expr::Int(0) = expr {
                return;
            }
            out.put_bytes(b" after ");
            put_expression(out, model, expr);
        }
        Delay::Drawn { stream, choice } => {
            out.put_bytes(b" after draw");
            put_source(out, model, *stream, *choice);
        }
    }
}

/// Puts a priority, or nothing where it is the plain one.
fn put_priority<P: Pen>(out: &mut P, priority: u8)
    ensures { P.adds out.old out.new (priority_text priority) }
{
    if priority == PLAIN_PRIORITY {
        return;
    }
    out.put_bytes(b" priority ");
    put_number(out, u64::from(priority));
}

/// Puts a condition, or nothing where it is the word `true`.
fn put_condition<P: Pen>(out: &mut P, model: &Model, condition: &Expr)
    ensures { P.adds out.old out.new
        (condition_text (graph_of model.now) (expression_of condition.now)) }
{
    if let Expr::Truth(true) = condition {
        return;
    }
    out.put_bytes(b" when ");
    put_expression(out, model, condition);
}

/// Puts the word for what an edge does.
fn put_edge_word<P: Pen>(out: &mut P, form: &EdgeForm)
    ensures { P.adds out.old out.new (edge_word (edge_kind_of form.now)) }
{
    match form {
        EdgeForm::Schedule { .. } => out.put_bytes(b"  schedule "),
        EdgeForm::Urgent => out.put_bytes(b"  urgent "),
        EdgeForm::CancelNext | EdgeForm::CancelEqual => out.put_bytes(b"  cancel "),
        EdgeForm::CancelAll => out.put_bytes(b"  cancel all "),
    }
}

/// Puts the delay and the priority of an edge that schedules.
fn put_timing<P: Pen>(out: &mut P, model: &Model, form: &EdgeForm)
    ensures { P.adds out.old out.new (timing_text (graph_of model.now) (edge_kind_of form.now)) }
{
    match form {
        EdgeForm::Schedule { delay, priority } => {
            put_delay(out, model, delay);
            put_priority(out, *priority);
        }
        EdgeForm::Urgent | EdgeForm::CancelNext | EdgeForm::CancelEqual | EdgeForm::CancelAll => {},
    }
}

/// Puts the line of an edge that leads to this vertex in place of its own target.
pub(crate) fn put_edge_to<P: Pen>(out: &mut P, model: &Model, target: usize, edge: &Edge)
    ensures { P.adds out.old out.new
        (edge_line (graph_of model.now) (record (edge_of edge.now) { target = target })) }
{
    put_edge_word(out, &edge.form);
    put_vertex_name(out, model, target);
    put_carried_values(out, model, edge.values.as_slice());
    put_timing(out, model, &edge.form);
    put_condition(out, model, &edge.condition);
    out.put_bytes(b";\n");
}

/// Puts the line of an edge.
pub(crate) fn put_edge<P: Pen>(out: &mut P, model: &Model, edge: &Edge)
    ensures { P.adds out.old out.new (edge_line (graph_of model.now) (edge_of edge.now)) }
{
    put_edge_to(out, model, edge.target, edge);
}

/// Puts the names of variables, with a comma and a space between two.
fn put_variable_names<P: Pen>(out: &mut P, model: &Model, vars: &[usize])
    ensures { P.adds out.old out.new (joined (map (variable_name (graph_of model.now)) vars.now)) }
{
    let [first, rest @ ..] = vars else {
        return;
    };
    put_variable_name(out, model, *first);
    for var in rest {
        put_comma(out);
        put_variable_name(out, model, *var);
    }
}

/// Puts the parameters of a vertex in parentheses, or nothing where it has none.
pub(crate) fn put_parameters<P: Pen>(out: &mut P, model: &Model, params: &[usize])
    ensures { P.adds out.old out.new
        (in_parentheses (map (variable_name (graph_of model.now)) params.now)) }
{
    if params.is_empty() {
        return;
    }
    out.put_bytes(b"(");
    put_variable_names(out, model, params);
    out.put_bytes(b")");
}

/// Puts the lines of changes.
pub(crate) fn put_changes<P: Pen>(out: &mut P, model: &Model, changes: &[Change])
    ensures { P.adds out.old out.new
        (flat_map (change_line (graph_of model.now)) (map change_of changes.now)) }
{
    for change in changes {
        put_change(out, model, change);
    }
}

/// Puts the lines of edges.
fn put_edges<P: Pen>(out: &mut P, model: &Model, edges: &[Edge])
    ensures { P.adds out.old out.new
        (flat_map (edge_line (graph_of model.now)) (map edge_of edges.now)) }
{
    for edge in edges {
        put_edge(out, model, edge);
    }
}

/// Puts the line by which variables take values, or nothing where there are no variables.
pub(crate) fn put_set<P: Pen>(out: &mut P, model: &Model, vars: &[usize], values: &[Expr])
    ensures { P.adds out.old out.new
        (flat_map (change_line (graph_of model.now))
        (set_parameters vars.now (map expression_of values.now))) }
{
    if vars.is_empty() {
        return;
    }
    out.put_bytes(b"  set ");
    put_variable_names(out, model, vars);
    out.put_bytes(b" := ");
    put_expressions(out, model, values);
    out.put_bytes(b";\n");
}

/// Puts the lines of a vertex's changes and edges.
pub(crate) fn put_body<P: Pen>(out: &mut P, model: &Model, vertex: &Vertex)
    ensures { P.adds out.old out.new
        (flat_map (change_line (graph_of model.now)) (map change_of vertex.now.changes)
        ++ flat_map (edge_line (graph_of model.now)) (map edge_of vertex.now.edges)) }
{
    put_changes(out, model, vertex.changes.as_slice());
    put_edges(out, model, vertex.edges.as_slice());
}

/// Puts the lines of a vertex.
pub(crate) fn put_vertex<P: Pen>(out: &mut P, model: &Model, vertex: &Vertex)
    ensures { P.adds out.old out.new (vertex_lines (graph_of model.now) (vertex_of vertex.now)) }
{
    out.put_bytes(b"vertex ");
    out.put_bytes(vertex.name.as_slice());
    put_parameters(out, model, vertex.params.as_slice());
    out.put_bytes(b" {\n");
    put_changes(out, model, vertex.changes.as_slice());
    put_edges(out, model, vertex.edges.as_slice());
    out.put_bytes(b"}\n");
}

/// Puts the lines of vertices.
pub(crate) fn put_vertices<P: Pen>(out: &mut P, model: &Model, vertices: &[Vertex])
    ensures { P.adds out.old out.new
        (flat_map (vertex_lines (graph_of model.now)) (map vertex_of vertices.now)) }
{
    for vertex in vertices {
        put_vertex(out, model, vertex);
    }
}
