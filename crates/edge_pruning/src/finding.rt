//! The first edge to which prune or settle applies.

ghost use Rattle.std.specs.Prelude.{◌≡◌, map};
ghost use Rattle.std.specs.List.{position_from};
ghost use Rattle.model_core.specs.Rules.Settle.{is_literal_true, first_settle};
ghost use Rattle.model_core.specs.Rules.Prune.{first_prune};
ghost use Rattle.model_core.specs.Rules.PlacedEdges.{first_edge};
ghost use Rattle.model_core.specs.Code.Views.{graph_of, vertex_of, edge_of, expression_of};
ghost use Rattle.edge_pruning.specs.EdgeRules.{edge_test};

use model_core::{Edge, Expr, Model, Vertex};
use range_bounds::{proved, refuted};

/// A rule that changes one edge.
#[derive(Clone, Copy, Debug, PartialEq, Eq)]
pub enum EdgeRule {
    /// An edge whose condition never holds goes.
    Prune,
    /// A condition that always holds becomes the literal `true`.
    Settle,
}

/// Whether a condition is the literal `true`.
pub(crate) fn is_literal_true(condition: &Expr) -> bool
    ensures { result ≡ is_literal_true (expression_of condition.now) }
{
    matches!(condition, Expr::Truth(true))
}

/// Whether the rule applies to an edge of the model.
pub fn can_apply(model: &Model, rule: EdgeRule, edge: &Edge) -> bool
    ensures { result ≡ edge_test rule (graph_of model.now) (edge_of edge.now) }
{
    match rule {
        EdgeRule::Prune => refuted(model, &edge.condition),
        EdgeRule::Settle => { !is_literal_true(&edge.condition) && proved(model, &edge.condition) }
    }
}

/// The place of the vertex's first edge to which the rule applies.
fn first_of_vertex(model: &Model, rule: EdgeRule, vertex: &Vertex) -> Option<usize>
    ensures { result
        ≡ position_from (edge_test rule (graph_of model.now)) 0 (vertex_of vertex.now).edges }
{
    for (place, edge) in vertex.edges.as_slice().iter().enumerate() {
        if can_apply(model, rule, edge) {
            return Some(place);
        }
    }
    None
}

/// The places of the vertex and of its edge, of the first edge to which the rule applies.
fn first_of_model(model: &Model, rule: EdgeRule) -> Option<(usize, usize)>
    ensures { result
        ≡ first_edge (edge_test rule (graph_of model.now)) 0 (map vertex_of model.now.vertices) }
{
    for (place, vertex) in model.vertices.as_slice().iter().enumerate() {
        if let Some(edge) = first_of_vertex(model, rule, vertex) {
            return Some((place, edge));
        }
    }
    None
}

/// The first edge that may be pruned: the place of its vertex, and its own among the vertex's edges, both from 0.
pub fn first_prune(model: &Model) -> Option<(usize, usize)>
    ensures { result ≡ first_prune (graph_of model.now) }
{
    first_of_model(model, EdgeRule::Prune)
}

/// The first edge that may be settled: the place of its vertex, and its own among the vertex's edges, both from 0.
pub fn first_settle(model: &Model) -> Option<(usize, usize)>
    ensures { result ≡ first_settle (graph_of model.now) }
{
    first_of_model(model, EdgeRule::Settle)
}
