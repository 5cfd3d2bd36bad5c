//! The canonical text of a model without one of its edges, printed from the model with it.

ghost use Rattle.std.specs.Prelude.{[], cond, map};
ghost use Rattle.std.specs.List.{flat_map, remove};
ghost use Rattle.model_core.specs.Text.Canonical.{canonical, edge_line, vertex_lines};
ghost use Rattle.model_core.specs.Rules.PlacedEdges.{with_place};
ghost use Rattle.model_core.specs.Rules.Prune.{without_edge, pruned};
ghost use Rattle.model_core.specs.Code.Views.{graph_of, edge_of, vertex_of};

use crate::model::put_declarations;
use crate::pen::Pen;
use crate::version_without::needs_version_two_without_edge;
use crate::vertices::{put_changes, put_edge, put_parameters, put_vertex};
use model_core::{Edge, Model, Vertex};

/// Puts the line of an edge, or nothing where it is left out.
fn put_edge_unless<P: Pen>(out: &mut P, model: &Model, left_out: bool, edge: &Edge)
    ensures { P.adds out.old out.new
        (cond left_out [] (edge_line (graph_of model.now) (edge_of edge.now))) }
{
    if !left_out {
        put_edge(out, model, edge);
    }
}

/// Puts the lines of edges but of the one at this place.
fn put_edges_but<P: Pen>(out: &mut P, model: &Model, edges: &[Edge], left_out: usize)
    ensures { P.adds out.old out.new
        (flat_map (edge_line (graph_of model.now)) (remove (map edge_of edges.now) left_out)) }
{
    for (place, edge) in edges.iter().enumerate() {
        put_edge_unless(out, model, place == left_out, edge);
    }
}

/// Puts the lines of a vertex without its edge at this place.
fn put_vertex_without<P: Pen>(out: &mut P, model: &Model, vertex: &Vertex, edge: usize)
    ensures { P.adds out.old out.new
        (vertex_lines (graph_of model.now) (without_edge edge (vertex_of vertex.now))) }
{
    out.put_bytes(b"vertex ");
    out.put_bytes(vertex.name.as_slice());
    put_parameters(out, model, vertex.params.as_slice());
    out.put_bytes(b" {\n");
    put_changes(out, model, vertex.changes.as_slice());
    put_edges_but(out, model, vertex.edges.as_slice(), edge);
    out.put_bytes(b"}\n");
}

/// Puts the lines of a vertex, or where it is the one that lacks an edge those without the edge at this place.
fn put_either<P: Pen>(out: &mut P, model: &Model, lacks: bool, vertex: &Vertex, edge: usize)
    ensures { P.adds out.old out.new
        (vertex_lines (graph_of model.now)
        (cond lacks (without_edge edge (vertex_of vertex.now)) (vertex_of vertex.now))) }
{
    if lacks {
        put_vertex_without(out, model, vertex, edge);
    } else {
        put_vertex(out, model, vertex);
    }
}

/// Puts the lines of vertices, of which the one at this place lacks an edge.
fn put_vertices_without<P: Pen>(
    out: &mut P,
    model: &Model,
    vertices: &[Vertex],
    lacking: usize,
    edge: usize,
)
    ensures { P.adds out.old out.new
        (flat_map (vertex_lines (graph_of model.now))
        (with_place (without_edge edge) lacking (map vertex_of vertices.now))) }
{
    for (place, vertex) in vertices.iter().enumerate() {
        put_either(out, model, place == lacking, vertex, edge);
    }
}

/// Puts the canonical text of a model without the edge at this place of the vertex at this place.
pub(crate) fn put_model_without<P: Pen>(out: &mut P, model: &Model, vertex: usize, edge: usize)
    ensures { P.adds out.old out.new (canonical (pruned (graph_of model.now) vertex edge)) }
{
    put_declarations(
        out,
        model,
        needs_version_two_without_edge(model, vertex, edge),
    );
    put_vertices_without(out, model, model.vertices.as_slice(), vertex, edge);
    out.put_bytes(b"end\n");
}
