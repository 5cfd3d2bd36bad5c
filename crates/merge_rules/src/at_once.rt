//! The edge by which an event always schedules another at once.

ghost use Rattle.std.specs.Prelude.{◌≡◌};
ghost use Rattle.std.specs.Option.{option_map};
ghost use Rattle.model_core.specs.Rules.UrgentEdges.{plain_urgent_edge};
ghost use Rattle.model_core.specs.Code.Views.{edge_of, vertex_of};

use model_core::{Edge, Vertex};
use range_bounds::plain_urgent;

/// The plain urgent edge of the vertex, if it has one.
pub(crate) fn edge_at_once(vertex: &Vertex) -> Option<&Edge>
    ensures { option_map (λ e. edge_of e.now) result ≡ plain_urgent_edge (vertex_of vertex.now) }
{
    match plain_urgent(vertex) {
        Some(place) => vertex.edges.as_slice().get(place),
        None => None,
    }
}
