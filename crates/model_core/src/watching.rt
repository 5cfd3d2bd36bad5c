//! Whether a vertex is watched, and whether edges cancel its events.

ghost use Rattle.std.specs.Prelude.{◌≡◌, map};
ghost use Rattle.std.specs.List.{list_any};
ghost use Rattle.model_core.specs.Run.History.{watches};
ghost use Rattle.model_core.specs.Rules.Merge.{cancels, is_watched_vertex};
ghost use Rattle.model_core.specs.Code.Views.{graph_of, edge_of, watched_of};

use crate::model::{Model, Watch};
use crate::vertex::Edge;

/// Whether this is the vertex at a place.
pub fn watches(vertex: usize, item: &Watch) -> bool
    ensures { result ≡ watches vertex (watched_of item.now) }
{
    match item {
        Watch::Variable { var: _ } => false,
        Watch::Event { vertex: watched } => *watched == vertex,
    }
}

/// Whether the vertex is watched.
pub fn is_watched(model: &Model, vertex: usize) -> bool
    ensures { result ≡ is_watched_vertex (graph_of model.now) vertex }
{
    for item in model.watch.as_slice() {
        if watches(vertex, item) {
            return true;
        }
    }
    false
}

/// Whether the edge cancels events of the vertex at this place.
pub fn cancels(target: usize, edge: &Edge) -> bool
    ensures { result ≡ cancels target (edge_of edge.now) }
{
    edge.form.is_cancelling() && edge.target == target
}

/// Whether one of the edges does so.
pub fn one_cancels(target: usize, edges: &[Edge]) -> bool
    ensures { result ≡ list_any (cancels target) (map edge_of edges.now) }
{
    for edge in edges {
        if cancels(target, edge) {
            return true;
        }
    }
    false
}
