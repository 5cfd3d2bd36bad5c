//! Whether two vertices of a model are in conflict, and why.

ghost use Rattle.std.specs.Prelude.{◌≡◌, ◌<◌, length};
ghost use Rattle.model_core.specs.Code.Views.{graph_of};
ghost use Rattle.model_core.specs.Conflicts.Conflict.{reasons_of};

use crate::meeting::meet;
use crate::sharing::{cancels_into, over_streams, over_variables};
use model_core::{Model, Reasons};

/// The reasons for which two vertices, by their places from 0, are in conflict, and whether they meet. They may be one and
/// the same.
pub fn conflict(model: &Model, a: usize, b: usize) -> Reasons
    requires exist { (a < length (graph_of model.now).vertices)
        × (b < length (graph_of model.now).vertices) }
    ensures { result ≡ reasons_of (graph_of model.now) a b }
{
    let first = &model.vertices.as_slice()[a];
    let second = &model.vertices.as_slice()[b];
    Reasons {
        meet: meet(model, a, b),
        variables: over_variables(first, second),
        streams: over_streams(first, second),
        cancels: cancels_into(first, second, b) || cancels_into(second, first, a),
    }
}
