//! The edges of a vertex but its plain urgent one.

ghost use Rattle.std.specs.Prelude.{◌≡◌, ◌++◌, map};
ghost use Rattle.std.specs.List.{remove};
ghost use Rattle.model_core.specs.Rules.Merge.{other_edges};
ghost use Rattle.model_core.specs.Code.Views.{edge_of, vertex_of};

use model_core::{Edge, Vertex};
use range_bounds::plain_urgent;

/// The edges of a vertex but its plain urgent one: those before it, and those after it.
#[derive(Clone, Copy)]
pub(crate) struct OtherEdges<'e> {
    pub before: &'e [Edge],
    pub after: &'e [Edge],
}

/// The edges of the vertex but its plain urgent one: all, where it has none.
pub(crate) fn other_edges(vertex: &Vertex) -> OtherEdges<'_>
    ensures { map edge_of (result.before.now ++ result.after.now)
        ≡ other_edges (vertex_of vertex.now) }
{
    let edges = vertex.edges.as_slice();
    match plain_urgent(vertex) {
        Some(place) => all_but(edges, place),
        None => OtherEdges {
            before: edges,
            after: &[],
        },
    }
}

/// All of these edges but the one at this place.
fn all_but(edges: &[Edge], place: usize) -> OtherEdges<'_>
    ensures { map edge_of (result.before.now ++ result.after.now)
        ≡ remove (map edge_of edges.now) place }
{
    if place < edges.len() {
        OtherEdges {
            before: &edges[..place],
            after: &edges[place + 1..],
        }
    } else {
        OtherEdges {
            before: edges,
            after: &[],
        }
    }
}
