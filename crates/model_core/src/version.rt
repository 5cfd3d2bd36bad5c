//! Whether a model needs a text of version 2.

ghost use Rattle.std.specs.Prelude.{◌≡◌, map};
ghost use Rattle.std.specs.List.{list_any};
ghost use Rattle.model_core.specs.Text.VersionNeeded.{is_large_array, has_many_targets, has_later_parts, needs_version_two};
ghost use Rattle.model_core.specs.EventGraph.{is_drawn, has_drawn_delay};
ghost use Rattle.model_core.specs.Code.Views.{graph_of, variable_of, change_of, edge_delay_of, edge_of, vertex_of};

use crate::model::{Model, Var};
use crate::vertex::{Change, Delay, Edge, EdgeForm, Vertex};
use sig_base::{ARRAY_CELLS_MAX_VERSION_1, PARAMETERS_MAX_VERSION_1, TARGETS_MAX_VERSION_1};

/// Whether one of these variables is an array with more cells than one of version 1 may have.
pub fn has_large_array(vars: &[Var]) -> bool
    ensures { result ≡ list_any is_large_array (map variable_of vars.now) }
{
    for var in vars {
        if var.size > ARRAY_CELLS_MAX_VERSION_1 {
            return true;
        }
    }
    false
}

/// Whether a change is a `set` with more targets than one of version 1 may have.
fn has_many_targets(change: &Change) -> bool
    ensures { result ≡ has_many_targets (change_of change.now) }
{
    match change {
        Change::Set { targets, values: _ } => targets.len() > TARGETS_MAX_VERSION_1,
        Change::Draw {
            target: _,
            stream: _,
            choice: _,
        } => false,
    }
}

/// Whether one of these changes is a `set` with more targets than one of version 1 may have.
pub fn one_has_many_targets(changes: &[Change]) -> bool
    ensures { result ≡ list_any has_many_targets (map change_of changes.now) }
{
    for change in changes {
        if has_many_targets(change) {
            return true;
        }
    }
    false
}

/// Whether a delay is drawn.
fn is_drawn(delay: &Delay) -> bool
    ensures { result ≡ is_drawn (edge_delay_of delay.now) }
{
    match delay {
        Delay::Fixed(_) => false,
        Delay::Drawn { .. } => true,
    }
}

/// Whether an edge has a delay, which is drawn.
pub fn has_drawn_delay(edge: &Edge) -> bool
    ensures { result ≡ has_drawn_delay (edge_of edge.now) }
{
    match &edge.form {
        EdgeForm::Schedule { delay, priority: _ } => is_drawn(delay),
        EdgeForm::Urgent => false,
        EdgeForm::CancelNext | EdgeForm::CancelEqual | EdgeForm::CancelAll => false,
    }
}

/// Whether one of these edges has a drawn delay.
pub fn one_has_drawn_delay(edges: &[Edge]) -> bool
    ensures { result ≡ list_any has_drawn_delay (map edge_of edges.now) }
{
    for edge in edges {
        if has_drawn_delay(edge) {
            return true;
        }
    }
    false
}

/// Whether a vertex has more parameters than one of version 1 may have, a `set` with more targets, or an edge whose delay is
/// drawn.
fn has_later_parts(vertex: &Vertex) -> bool
    ensures { result ≡ has_later_parts (vertex_of vertex.now) }
{
    vertex.params.len() > PARAMETERS_MAX_VERSION_1
        || one_has_many_targets(vertex.changes.as_slice())
        || one_has_drawn_delay(vertex.edges.as_slice())
}

/// Whether one of these vertices does.
pub fn one_has_later_parts(vertices: &[Vertex]) -> bool
    ensures { result ≡ list_any has_later_parts (map vertex_of vertices.now) }
{
    for vertex in vertices {
        if has_later_parts(vertex) {
            return true;
        }
    }
    false
}

/// Whether only a text of version 2 can write the model: it has an array of more than 4,096 cells, a vertex with more than 8
/// parameters, a `set` with more than 8 targets, or an edge whose delay is drawn.
pub fn needs_version_two(model: &Model) -> bool
    ensures { result ≡ needs_version_two (graph_of model.now) }
{
    has_large_array(model.vars.as_slice()) || one_has_later_parts(model.vertices.as_slice())
}
