//! Prune and settle, each of one edge.

ghost use Rattle.std.specs.Prelude.{◌≡◌, Some, None, OnOk, OnErr, IfErr};
ghost use Rattle.model_core.specs.Rules.Conditions.{first_failed};
ghost use Rattle.model_core.specs.Rules.Prune.{prune_conditions, without_edge, pruned};
ghost use Rattle.model_core.specs.Rules.Settle.{settle_conditions, with_settled, settled};
ghost use Rattle.model_core.specs.Rules.PlacedEdges.{with_vertex};
ghost use Rattle.model_core.specs.Code.Views.{graph_of, vertex_of};
ghost use Rattle.edge_pruning.specs.Inner.OneEdge.{changed_by};

use crate::finding::{EdgeRule, is_literal_true};
use model_core::{Expr, Model, RuleRefused, Vertex};
use range_bounds::{proved, refuted};

/// The first condition of prune that fails, by its number from 1.
fn failed_prune(model: &Model, vertex: usize, edge: usize) -> Option<u8>
    ensures { result ≡ first_failed (prune_conditions (graph_of model.now) vertex edge) }
{
    let Some(vertex) = model.vertices.as_slice().get(vertex) else {
        return Some(1);
    };
    let Some(edge) = vertex.edges.as_slice().get(edge) else {
        return Some(1);
    };
    if refuted(model, &edge.condition) {
        None
    } else {
        Some(2)
    }
}

/// The first condition of settle that fails, by its number from 1.
fn failed_settle(model: &Model, vertex: usize, edge: usize) -> Option<u8>
    ensures { result ≡ first_failed (settle_conditions (graph_of model.now) vertex edge) }
{
    let Some(vertex) = model.vertices.as_slice().get(vertex) else {
        return Some(1);
    };
    let Some(edge) = vertex.edges.as_slice().get(edge) else {
        return Some(1);
    };
    if is_literal_true(&edge.condition) {
        Some(2)
    } else if proved(model, &edge.condition) {
        None
    } else {
        Some(3)
    }
}

/// Takes the edge at this place away, if there is one.
fn take_away(vertex: &mut Vertex, edge: usize)
    ensures { vertex_of vertex.new ≡ without_edge edge (vertex_of vertex.old) }
{
    let edges = vertex.edges.as_mut_vec();
    if edge < edges.len() {
        edges.remove(edge);
    }
}

/// Makes the condition of the edge at this place `true`, if there is one.
fn make_unconditional(vertex: &mut Vertex, edge: usize)
    ensures { vertex_of vertex.new ≡ with_settled edge (vertex_of vertex.old) }
{
    let edges = vertex.edges.as_mut_vec();
    if let Some(edge) = edges.get_mut(edge) {
        edge.condition = Expr::Truth(true);
    }
}

/// Changes the edge at this place by the rule, if there is one.
fn change(rule: EdgeRule, vertex: &mut Vertex, edge: usize)
    ensures { vertex_of vertex.new ≡ changed_by rule edge (vertex_of vertex.old) }
{
    match rule {
        EdgeRule::Prune => take_away(vertex, edge),
        EdgeRule::Settle => make_unconditional(vertex, edge),
    }
}

/// Changes an edge of the model by the rule, if there is one at these places.
fn change_at(model: &mut Model, rule: EdgeRule, vertex: usize, edge: usize)
    ensures { graph_of model.new ≡ with_vertex (changed_by rule edge) vertex (graph_of model.old) }
{
    if let Some(vertex) = model.vertices.as_mut_vec().get_mut(vertex) {
        change(rule, vertex, edge);
    }
}

/// Takes an edge away whose condition never holds; later edges of its vertex move up. The vertex and the edge are given
/// by their places from 0.
pub fn prune(model: &mut Model, vertex: usize, edge: usize) -> Result<(), RuleRefused>
    ensures done { OnOk result
        ((first_failed (prune_conditions (graph_of model.old) vertex edge) ≡ None)
        × (graph_of model.new ≡ pruned (graph_of model.old) vertex edge)) }
    ensures refused { IfErr result
        (λ e. first_failed (prune_conditions (graph_of model.old) vertex edge) ≡ Some e.condition) }
    ensures unchanged { OnErr result (graph_of model.new ≡ graph_of model.old) }
{
    if let Some(condition) = failed_prune(model, vertex, edge) {
        return Err(RuleRefused { condition });
    }
    change_at(model, EdgeRule::Prune, vertex, edge);
    Ok(())
}

/// Makes the literal `true` of an edge's condition that always holds. The vertex and the edge are given by their places
/// from 0.
pub fn settle(model: &mut Model, vertex: usize, edge: usize) -> Result<(), RuleRefused>
    ensures done { OnOk result
        ((first_failed (settle_conditions (graph_of model.old) vertex edge) ≡ None)
        × (graph_of model.new ≡ settled (graph_of model.old) vertex edge)) }
    ensures refused { IfErr result
        (λ e. first_failed (settle_conditions (graph_of model.old) vertex edge)
        ≡ Some e.condition) }
    ensures unchanged { OnErr result (graph_of model.new ≡ graph_of model.old) }
{
    if let Some(condition) = failed_settle(model, vertex, edge) {
        return Err(RuleRefused { condition });
    }
    change_at(model, EdgeRule::Settle, vertex, edge);
    Ok(())
}
