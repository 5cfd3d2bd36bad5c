//! Whether a model needs a text of version 2 when one of its vertices or of its edges is left out.

ghost use Rattle.std.specs.Prelude.{◌≡◌, ◌||◌, false, map, slice_get};
ghost use Rattle.std.specs.List.{list_any, remove};
ghost use Rattle.std.specs.Option.{option_map_or};
ghost use Rattle.model_core.specs.Text.VersionNeeded.{is_large_array, has_later_parts, needs_version_two};
ghost use Rattle.model_core.specs.Rules.Prune.{without_edge, pruned};
ghost use Rattle.model_core.specs.EventGraph.{has_drawn_delay};
ghost use Rattle.model_core.specs.Code.Views.{graph_of, variable_of, edge_of, vertex_of};

use model_core::{
    Edge, Model, Vertex, has_large_array, one_has_drawn_delay, one_has_later_parts,
    one_has_many_targets,
};
use sig_base::PARAMETERS_MAX_VERSION_1;

/// Whether one of these vertices but the one at `gone` has parts that only a text of version 2 can write.
fn another_has_later_parts(vertices: &[Vertex], gone: usize) -> bool
    ensures { result ≡ list_any has_later_parts (remove (map vertex_of vertices.now) gone) }
{
    if gone < vertices.len() {
        one_has_later_parts(&vertices[..gone]) || one_has_later_parts(&vertices[gone + 1..])
    } else {
        one_has_later_parts(vertices)
    }
}

/// Whether the model needs a text of version 2 when the vertex at `gone` is left out.
pub(crate) fn needs_version_two_without(model: &Model, gone: usize) -> bool
    ensures { result
        ≡ (list_any is_large_array (map variable_of model.now.vars)
        || list_any has_later_parts (remove (map vertex_of model.now.vertices) gone)) }
{
    has_large_array(model.vars.as_slice())
        || another_has_later_parts(model.vertices.as_slice(), gone)
}

/// Whether one of these edges but the one at this place has a drawn delay.
fn another_has_drawn_delay(edges: &[Edge], left_out: usize) -> bool
    ensures { result ≡ list_any has_drawn_delay (remove (map edge_of edges.now) left_out) }
{
    if left_out < edges.len() {
        one_has_drawn_delay(&edges[..left_out]) || one_has_drawn_delay(&edges[left_out + 1..])
    } else {
        one_has_drawn_delay(edges)
    }
}

/// Whether a vertex has parts that only a text of version 2 can write without its edge at this place.
fn has_later_parts_without(vertex: &Vertex, edge: usize) -> bool
    ensures { result ≡ has_later_parts (without_edge edge (vertex_of vertex.now)) }
{
    vertex.params.len() > PARAMETERS_MAX_VERSION_1
        || one_has_many_targets(vertex.changes.as_slice())
        || another_has_drawn_delay(vertex.edges.as_slice(), edge)
}

/// Whether the vertex at this place has, where there is one.
fn shortened_has_later_parts(vertices: &[Vertex], lacking: usize, edge: usize) -> bool
    ensures { result
        ≡ option_map_or (λ v. has_later_parts (without_edge edge v))
        (slice_get (map vertex_of vertices.now) lacking) false }
{
    match vertices.get(lacking) {
        Some(vertex) => has_later_parts_without(vertex, edge),
        None => false,
    }
}

/// Whether the model needs a text of version 2 without the edge at this place of the vertex at this place.
pub(crate) fn needs_version_two_without_edge(model: &Model, vertex: usize, edge: usize) -> bool
    ensures { result ≡ needs_version_two (pruned (graph_of model.now) vertex edge) }
{
    needs_version_two_without(model, vertex)
        || shortened_has_later_parts(model.vertices.as_slice(), vertex, edge)
}
