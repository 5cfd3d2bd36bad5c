//! The conditions of fuse on the rest of the model: the two vertices are unwatched, and no edge cancels their events.

ghost use Rattle.std.specs.Prelude.{◌≡◌, ◌&&◌, not};
ghost use Rattle.model_core.specs.Rules.Merge.{is_watched_vertex};
ghost use Rattle.model_core.specs.Rules.Fuse.{can_be_cancelled};
ghost use Rattle.model_core.specs.Code.Views.{graph_of};

use model_core::{Model, is_watched, one_cancels};

/// Whether some edge of the model cancels events of the vertex.
pub(crate) fn can_be_cancelled(model: &Model, target: usize) -> bool
    ensures { result ≡ can_be_cancelled (graph_of model.now) target }
{
    for vertex in model.vertices.as_slice() {
        if one_cancels(target, vertex.edges.as_slice()) {
            return true;
        }
    }
    false
}

/// Whether neither of two vertices is watched.
pub(crate) fn are_unwatched(model: &Model, a: usize, b: usize) -> bool
    ensures { result
        ≡ (not (is_watched_vertex (graph_of model.now) a)
        && not (is_watched_vertex (graph_of model.now) b)) }
{
    !is_watched(model, a) && !is_watched(model, b)
}

/// Whether no edge of the model cancels events of either of two vertices.
pub(crate) fn are_uncancelled(model: &Model, a: usize, b: usize) -> bool
    ensures { result
        ≡ (not (can_be_cancelled (graph_of model.now) a)
        && not (can_be_cancelled (graph_of model.now) b)) }
{
    !can_be_cancelled(model, a) && !can_be_cancelled(model, b)
}
