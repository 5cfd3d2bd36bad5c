//! The canonical text of a model after a fuse, printed from the model before it: one vertex takes the place of another.

ghost use Rattle.std.specs.Prelude.{◌≡◌, ◌<◌, [], cond, map, false};
ghost use Rattle.std.specs.List.{flat_map, remove};
ghost use Rattle.model_core.specs.Text.Canonical.{canonical, edge_line, vertex_lines};
ghost use Rattle.model_core.specs.Rules.Drop.{edge_renumbered, vertex_renumbered};
ghost use Rattle.model_core.specs.Rules.Fuse.{standing_for, fused};
ghost use Rattle.model_core.specs.Rules.Merge.{is_watched_vertex};
ghost use Rattle.model_core.specs.Code.Views.{graph_of, edge_of, vertex_of};

use crate::model::put_declarations;
use crate::pen::Pen;
use crate::version_without::needs_version_two_without;
use crate::vertices::{put_changes, put_edge_to, put_parameters};
use model_core::{Edge, Model, Vertex};

/// The vertex that takes the place of this one: `keep` for `gone`, and any other one for itself.
pub fn standing_for(keep: usize, gone: usize, vertex: usize) -> usize
    ensures { result ≡ standing_for keep gone vertex }
{
    if vertex == gone { keep } else { vertex }
}

/// Puts the lines of edges, of which those that lead to `gone` lead to `keep`.
fn put_edges_for<P: Pen>(out: &mut P, model: &Model, keep: usize, gone: usize, edges: &[Edge])
    ensures { P.adds out.old out.new
        (flat_map (edge_line (graph_of model.now))
        (map (edge_renumbered (standing_for keep gone)) (map edge_of edges.now))) }
{
    for edge in edges {
        put_edge_to(out, model, standing_for(keep, gone, edge.target), edge);
    }
}

/// Puts the lines of a vertex, whose edges that lead to `gone` lead to `keep`.
fn put_vertex_for<P: Pen>(out: &mut P, model: &Model, keep: usize, gone: usize, vertex: &Vertex)
    ensures { P.adds out.old out.new
        (vertex_lines (graph_of model.now)
        (vertex_renumbered (standing_for keep gone) (vertex_of vertex.now))) }
{
    out.put_bytes(b"vertex ");
    out.put_bytes(vertex.name.as_slice());
    put_parameters(out, model, vertex.params.as_slice());
    out.put_bytes(b" {\n");
    put_changes(out, model, vertex.changes.as_slice());
    put_edges_for(out, model, keep, gone, vertex.edges.as_slice());
    out.put_bytes(b"}\n");
}

/// Puts the lines of a vertex, or nothing where it is the one that is left out.
fn put_vertex_unless<P: Pen>(
    out: &mut P,
    model: &Model,
    keep: usize,
    gone: usize,
    left_out: bool,
    vertex: &Vertex,
)
    ensures { P.adds out.old out.new
        (cond left_out []
        (vertex_lines (graph_of model.now)
        (vertex_renumbered (standing_for keep gone) (vertex_of vertex.now)))) }
{
    if !left_out {
        put_vertex_for(out, model, keep, gone, vertex);
    }
}

/// Puts the lines of vertices but of the one at `gone`.
fn put_vertices_for<P: Pen>(
    out: &mut P,
    model: &Model,
    keep: usize,
    gone: usize,
    vertices: &[Vertex],
)
    ensures { P.adds out.old out.new
        (flat_map (λ v.
        vertex_lines (graph_of model.now) (vertex_renumbered (standing_for keep gone) v))
        (remove (map vertex_of vertices.now) gone)) }
{
    for (place, vertex) in vertices.iter().enumerate() {
        put_vertex_unless(out, model, keep, gone, place == gone, vertex);
    }
}

/// Puts the canonical text of a model in which the vertex at `keep` takes the place of the one at `gone` after it, which isn't
/// watched.
pub(crate) fn put_model_fused<P: Pen>(out: &mut P, model: &Model, keep: usize, gone: usize)
    requires first { keep < gone }
    requires unwatched { is_watched_vertex (graph_of model.now) gone ≡ false }
    ensures { P.adds out.old out.new (canonical (fused (graph_of model.now) keep gone)) }
{
    put_declarations(out, model, needs_version_two_without(model, gone));
    put_vertices_for(out, model, keep, gone, model.vertices.as_slice());
    out.put_bytes(b"end\n");
}
