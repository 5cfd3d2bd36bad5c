//! Whether a variable is read by an edge, a change or a vertex. Nothing here takes memory.
#![tactic(auto, using(model_core::proofs::AmongUses::among_parts))]

ghost use Rattle.std.specs.Prelude.{◌≡◌, [], map};
ghost use Rattle.std.specs.List.{flat_map};
ghost use Rattle.std.specs.Option.{option_map_or};
ghost use Rattle.model_core.specs.EventGraph.{delay_given};
ghost use Rattle.model_core.specs.Rules.MarkedPlaces.{is_among};
ghost use Rattle.model_core.specs.Rules.Uses.{variables_in, location_reads, change_reads, delay_reads, edge_reads, vertex_reads};
ghost use Rattle.model_core.specs.Code.Views.{expression_of, location_of, change_of, edge_delay_of, edge_kind_of, edge_of, vertex_of};

use model_core::{Change, Delay, Edge, EdgeForm, Expr, Target, Vertex};

/// Whether a variable occurs in an expression.
fn occurs_in(expr: &Expr, var: usize) -> bool
    ensures { result ≡ is_among (variables_in (expression_of expr.now)) var }
{
    match expr {
        Expr::Int(_) | Expr::Truth(_) | Expr::Clk => false,
        Expr::Scalar(v) => *v == var,
        Expr::Cell(v, index) => *v == var || occurs_in(index, var),
        Expr::Neg(a) | Expr::Not(a) => occurs_in(a, var),
        Expr::Binary(_, left, right) => { occurs_in(left, var) || occurs_in(right, var) }
        Expr::If(test, yes, no) => {
            occurs_in(test, var) || occurs_in(yes, var) || occurs_in(no, var)
        }
    }
}

/// Whether a variable occurs in one of these expressions.
fn occurs_in_one(exprs: &[Expr], var: usize) -> bool
    ensures { result ≡ is_among (flat_map variables_in (map expression_of exprs.now)) var }
{
    for expr in exprs {
        if occurs_in(expr, var) {
            return true;
        }
    }
    false
}

/// Whether a variable occurs in the index of a target.
fn indexes(target: &Target, var: usize) -> bool
    ensures { result ≡ is_among (location_reads (location_of target.now)) var }
{
    match &target.index {
        None => false,
        Some(index) => occurs_in(index, var),
    }
}

/// Whether a variable occurs in the index of one of these targets.
fn indexes_one(targets: &[Target], var: usize) -> bool
    ensures { result ≡ is_among (flat_map location_reads (map location_of targets.now)) var }
{
    for target in targets {
        if indexes(target, var) {
            return true;
        }
    }
    false
}

/// Whether a change reads a variable: in one of its right sides, or in the index of one of its targets.
pub fn reads_of_change(change: &Change, var: usize) -> bool
    ensures { result ≡ is_among (change_reads (change_of change.now)) var }
{
    match change {
        Change::Set { targets, values } => {
            indexes_one(targets.as_slice(), var) || occurs_in_one(values.as_slice(), var)
        }
        Change::Draw {
            target,
            stream: _,
            choice: _,
        } => indexes(target, var),
    }
}

/// Whether a delay reads a variable.
fn reads_of_delay(delay: &Delay, var: usize) -> bool
    ensures { result ≡ is_among (delay_reads (edge_delay_of delay.now)) var }
{
    match delay {
        Delay::Fixed(expr) => occurs_in(expr, var),
        Delay::Drawn { .. } => false,
    }
}

/// Whether the delay of an edge of this form reads a variable.
fn reads_of_timing(form: &EdgeForm, var: usize) -> bool
    ensures { result
        ≡ is_among (option_map_or delay_reads (delay_given (edge_kind_of form.now)) []) var }
{
    match form {
        EdgeForm::Schedule { delay, priority: _ } => reads_of_delay(delay, var),
        EdgeForm::Urgent | EdgeForm::CancelNext | EdgeForm::CancelEqual | EdgeForm::CancelAll => {
            false
        }
    }
}

/// Whether an edge reads a variable: in its condition, its delay or one of its values.
pub fn reads_of_edge(edge: &Edge, var: usize) -> bool
    ensures { result ≡ is_among (edge_reads (edge_of edge.now)) var }
{
    occurs_in(&edge.condition, var)
        || reads_of_timing(&edge.form, var)
        || occurs_in_one(edge.values.as_slice(), var)
}

/// Whether one of these changes reads a variable.
fn reads_of_changes(changes: &[Change], var: usize) -> bool
    ensures { result ≡ is_among (flat_map change_reads (map change_of changes.now)) var }
{
    for change in changes {
        if reads_of_change(change, var) {
            return true;
        }
    }
    false
}

/// Whether one of these edges reads a variable.
fn reads_of_edges(edges: &[Edge], var: usize) -> bool
    ensures { result ≡ is_among (flat_map edge_reads (map edge_of edges.now)) var }
{
    for edge in edges {
        if reads_of_edge(edge, var) {
            return true;
        }
    }
    false
}

/// Whether a vertex reads a variable: in one of its changes or edges.
pub fn reads_of_vertex(vertex: &Vertex, var: usize) -> bool
    ensures { result ≡ is_among (vertex_reads (vertex_of vertex.now)) var }
{
    reads_of_changes(vertex.changes.as_slice(), var) || reads_of_edges(vertex.edges.as_slice(), var)
}
