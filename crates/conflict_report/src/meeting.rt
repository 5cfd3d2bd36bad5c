//! Whether events of two vertices may have equal priority. Nothing here takes memory.
#![tactic(auto, using(model_core::proofs::AmongUses::among_parts))]

ghost use Rattle.std.specs.Prelude.{◌≡◌, map};
ghost use Rattle.std.specs.List.{list_any, flat_map};
ghost use Rattle.model_core.specs.Rules.MarkedPlaces.{is_among};
ghost use Rattle.model_core.specs.Code.Views.{graph_of, vertex_of, edge_of, edge_kind_of};
ghost use Rattle.model_core.specs.Conflicts.Priorities.{kind_priorities, edge_priorities, vertex_priorities, begin_priorities, priorities_of};
ghost use Rattle.model_core.specs.Conflicts.Conflict.{in_common};

use crate::priorities::BEGIN_PRIORITY;
use model_core::{Edge, EdgeForm, Model, Vertex};
use use_analysis::{Is, NumberTest};

/// Whether an edge of this form schedules with a priority that passes.
fn form_passes<T: NumberTest>(test: &T, form: &EdgeForm) -> bool
    ensures { result ≡ list_any (T.test test.now) (kind_priorities (edge_kind_of form.now)) }
{
    match form {
        EdgeForm::Schedule { delay: _, priority } => test.passes(usize::from(*priority)),
        EdgeForm::Urgent => test.passes(0),
        EdgeForm::CancelNext | EdgeForm::CancelEqual | EdgeForm::CancelAll => false,
    }
}

/// Whether an edge schedules events of the vertex at this place so.
fn edge_passes<T: NumberTest>(test: &T, edge: &Edge, vertex: usize) -> bool
    ensures { result ≡ list_any (T.test test.now) (edge_priorities vertex (edge_of edge.now)) }
{
    edge.target == vertex && form_passes(test, &edge.form)
}

/// Whether one of the edges does so.
fn one_edge_passes<T: NumberTest>(test: &T, edges: &[Edge], vertex: usize) -> bool
    ensures { result
        ≡ list_any (T.test test.now) (flat_map (edge_priorities vertex) (map edge_of edges.now)) }
{
    for edge in edges {
        if edge_passes(test, edge, vertex) {
            return true;
        }
    }
    false
}

/// Whether an edge of one of the vertices does so.
fn one_vertex_passes<T: NumberTest>(test: &T, vertices: &[Vertex], vertex: usize) -> bool
    ensures { result
        ≡ list_any (T.test test.now)
        (flat_map (vertex_priorities vertex) (map vertex_of vertices.now)) }
{
    for from in vertices {
        if one_edge_passes(test, from.edges.as_slice(), vertex) {
            return true;
        }
    }
    false
}

/// Whether a run begins with an event of the vertex at this place, and the priority of that passes.
fn begin_passes<T: NumberTest>(test: &T, vertex: usize) -> bool
    ensures { result ≡ list_any (T.test test.now) (begin_priorities vertex) }
{
    vertex == 0 && test.passes(usize::from(BEGIN_PRIORITY))
}

/// Whether a priority of the vertex at this place passes.
fn one_priority_passes<T: NumberTest>(test: &T, model: &Model, vertex: usize) -> bool
    ensures { result ≡ list_any (T.test test.now) (priorities_of (graph_of model.now) vertex) }
{
    begin_passes(test, vertex) || one_vertex_passes(test, model.vertices.as_slice(), vertex)
}

/// The priorities of the vertex at this place.
#[derive(Drop)]
struct Priorities<'m> {
    model: &'m Model,
    vertex: usize,
}

impl NumberTest for Priorities<'_> {
    ghost test = { λ p n. is_among (priorities_of (graph_of p.model.now) p.vertex) n };

    fn passes(&self, number: usize) -> bool {
        one_priority_passes(&Is { number }, self.model, self.vertex)
    }
}

/// Whether two vertices, by their places, have a priority in common.
pub(crate) fn meet(model: &Model, a: usize, b: usize) -> bool
    ensures { result
        ≡ in_common (priorities_of (graph_of model.now) a) (priorities_of (graph_of model.now) b) }
{
    one_priority_passes(&Priorities { model, vertex: b }, model, a)
}
