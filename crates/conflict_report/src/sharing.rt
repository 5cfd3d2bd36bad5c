//! Whether one of two vertices changes what the other uses. Nothing here takes memory.
#![tactic(auto, using(model_core::proofs::AmongUses::among_parts))]

ghost use Rattle.std.specs.Prelude.{◌≡◌, ◌++◌, ◌∷◌, map};
ghost use Rattle.std.specs.List.{flat_map};
ghost use Rattle.model_core.specs.EventGraph.{EventEdge};
ghost use Rattle.model_core.specs.Rules.MarkedPlaces.{is_among};
ghost use Rattle.model_core.specs.Rules.Uses.{vertex_reads, vertex_writes, vertex_streams};
ghost use Rattle.model_core.specs.Code.Views.{edge_of, vertex_of};
ghost use Rattle.model_core.specs.Conflicts.Conflict.{named_vertices, edge_cancelled, in_common, over_variables, over_streams, cancels_into};

use model_core::{Edge, Vertex};
use use_analysis::{
    Is, NumberTest, one_stream_passes, one_written_passes, reads_of_vertex, writes_of_vertex,
};

/// The variables that this vertex reads or writes.
#[derive(Drop)]
struct UsedBy<'v> {
    vertex: &'v Vertex,
}

impl NumberTest for UsedBy<'_> {
    ghost test = { λ u n. is_among (vertex_reads (vertex_of u.vertex.now) ++ vertex_writes (vertex_of u.vertex.now)) n };

    fn passes(&self, number: usize) -> bool {
        reads_of_vertex(self.vertex, number) || writes_of_vertex(self.vertex, number)
    }
}

/// Whether one of two vertices writes a variable that the other reads or writes.
pub(crate) fn over_variables(a: &Vertex, b: &Vertex) -> bool
    ensures { result ≡ over_variables (vertex_of a.now) (vertex_of b.now) }
{
    one_written_passes(&UsedBy { vertex: b }, a) || one_written_passes(&UsedBy { vertex: a }, b)
}

/// The streams from which this vertex draws.
#[derive(Drop)]
struct DrawnBy<'v> {
    vertex: &'v Vertex,
}

impl NumberTest for DrawnBy<'_> {
    ghost test = { λ d n. is_among (vertex_streams (vertex_of d.vertex.now)) n };

    fn passes(&self, number: usize) -> bool {
        one_stream_passes(&Is { number }, self.vertex)
    }
}

/// Whether two vertices draw from one stream.
pub(crate) fn over_streams(a: &Vertex, b: &Vertex) -> bool
    ensures { result ≡ over_streams (vertex_of a.now) (vertex_of b.now) }
{
    one_stream_passes(&DrawnBy { vertex: b }, a)
}

/// Whether one of these edges names the vertex at this place.
fn names(edges: &[Edge], place: usize) -> bool
    ensures { result ≡ is_among (map (λ (e : EventEdge). e.target) (map edge_of edges.now)) place }
{
    for edge in edges {
        if edge.target == place {
            return true;
        }
    }
    false
}

/// Whether the edge cancels events of the vertex at this place, or of one that an edge of it names.
fn cuts(edge: &Edge, other: &Vertex, place: usize) -> bool
    ensures { result
        ≡ in_common (edge_cancelled (edge_of edge.now))
        (place ∷ named_vertices (vertex_of other.now)) }
{
    edge.form.is_cancelling()
        && (place == edge.target || names(other.edges.as_slice(), edge.target))
}

/// Whether one of these edges does so.
fn one_cuts(edges: &[Edge], other: &Vertex, place: usize) -> bool
    ensures { result
        ≡ in_common (flat_map edge_cancelled (map edge_of edges.now))
        (place ∷ named_vertices (vertex_of other.now)) }
{
    for edge in edges {
        if cuts(edge, other, place) {
            return true;
        }
    }
    false
}

/// Whether an edge of the vertex does so.
pub(crate) fn cancels_into(vertex: &Vertex, other: &Vertex, place: usize) -> bool
    ensures { result ≡ cancels_into (vertex_of vertex.now) (vertex_of other.now) place }
{
    one_cuts(vertex.edges.as_slice(), other, place)
}
