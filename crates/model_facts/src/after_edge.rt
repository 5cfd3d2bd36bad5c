//! What is known of a model after a prune or a settle of one of its edges.

ghost use Rattle.std.specs.Prelude.{◌≡◌, ℕ, ◌+◌, ◌-◌, ◌<◌, ◌^◌, false, cond, Some, None, length};
ghost use Rattle.std.specs.Option.{option_map, IfSome};
ghost use Rattle.model_core.specs.EventGraph.{EventGraph, has_drawn_delay};
ghost use Rattle.model_core.specs.Text.Canonical.{condition_text};
ghost use Rattle.model_core.specs.Rules.Conditions.{first_failed};
ghost use Rattle.model_core.specs.Rules.PlacedEdges.{edge_at};
ghost use Rattle.model_core.specs.Rules.Prune.{prune_conditions, pruned};
ghost use Rattle.model_core.specs.Rules.Settle.{settle_conditions, settled};
ghost use Rattle.model_core.specs.Code.Views.{graph_of, edge_of, expression_of};
ghost use Rattle.model_facts.specs.KnownLengths.{capped, BodiesAreRight};
ghost use Rattle.model_facts.specs.FactsOfModel.{LinesAreRight, VersionIsRight, SingleIsRight, FactsAreRight};
ghost use Rattle.model_facts.specs.FactsAfterEdge.{bytes_left, facts_after_loss, facts_after_prune, single_settled, facts_after_settle};
ghost use Rattle.model_facts.specs.Inner.HasFewerBytes.{HasFewerBytes};

use crate::facts::FactsOfModel;
use model_core::{Edge, Expr, Model, has_drawn_delay};
use model_print::{edge_length, expr_length};
use range_bounds::may_take_any_condition;

/// The edge at a place of the vertex at a place, if there is one.
fn edge_at(model: &Model, vertex: usize, edge: usize) -> Option<&Edge>
    ensures { option_map (λ e. edge_of e.now) result ≡ edge_at (graph_of model.now) vertex edge }
{
    let vertex = model.vertices.as_slice().get(vertex)?;
    vertex.edges.as_slice().get(edge)
}

/// What is left of so many bytes without these, or None where one of the two isn't known to the last byte.
fn bytes_after_loss(bytes: Option<u64>, gone: u64) -> Option<u64>
    ensures is { result ≡ bytes_left bytes gone }
    ensures left { IfSome result
        (λ left. (bytes ≡ Some (left + gone)) × (left + gone < 2 ^ 64 - 1)) }
{
    let bytes = bytes?;
    if bytes == u64::MAX {
        return None;
    }
    bytes.checked_sub(gone)
}

/// How many bytes a condition has in its edge's line, with the word before it, or 2^64 - 1 where it has more.
fn condition_length(condition: &Expr, model: &Model) -> u64
    ensures { result
        ≡ capped (length (condition_text (graph_of model.now) (expression_of condition.now))) }
{
    if matches!(condition, Expr::Truth(true)) {
        return 0;
    }
    expr_length(condition, model).saturating_add(6)
}

/// Whether only a text of version 2 can write a model without this edge, or None where that isn't known: where it draws its delay.
fn version_without(version_two: Option<bool>, edge: &Edge) -> Option<bool>
    ensures is { result ≡ cond (has_drawn_delay (edge_of edge.now)) None version_two }
    ensures undrawn { IfSome result
        (λ two. (version_two ≡ Some two) × (has_drawn_delay (edge_of edge.now) ≡ false)) }
{
    if has_drawn_delay(edge) {
        None
    } else {
        version_two
    }
}

/// Turns what is known of a model into what is known of one whose vertex at this place has so many bytes less in its lines.
/// Whether that one needs version 2 of a text, and is single urgent, is known of it already, where it is.
fn lose_bytes(facts: &mut FactsOfModel, vertex: usize, gone: u64)
    ensures is { facts.new ≡ facts_after_loss facts.old vertex gone }
    ensures loses { (g h : EventGraph) (bytes : ℕ) → gone ≡ capped bytes
        → HasFewerBytes g h vertex bytes
        → LinesAreRight g facts.old.lines → BodiesAreRight g facts.old.bodies
        → VersionIsRight h facts.old.version_two → SingleIsRight h facts.old.single
        → FactsAreRight h facts.new }
{
    facts.lines = bytes_after_loss(facts.lines, gone);
    let body = bytes_after_loss(facts.bodies.get(vertex), gone);
    facts.bodies.put(vertex, body);
}

/// Turns what is known of a model into what is known after a prune of the edge at a place of the vertex at a place. It is called
/// before the prune.
pub fn keep_after_prune(model: &Model, facts: &mut FactsOfModel, vertex: usize, edge: usize)
    requires facts { FactsAreRight (graph_of model.now) facts.old }
    ensures is { facts.new ≡ facts_after_prune (graph_of model.now) vertex edge facts.old }
    ensures facts { first_failed (prune_conditions (graph_of model.now) vertex edge) ≡ None
        → FactsAreRight (pruned (graph_of model.now) vertex edge) facts.new }
{
    let Some(edge) = edge_at(model, vertex, edge) else {
        return;
    };
    facts.single = facts.single_without_parts();
    facts.version_two = version_without(facts.version_two, edge);
    lose_bytes(facts, vertex, edge_length(edge, model));
}

/// Whether it is known that the model is single urgent after a settle of the edge at a place of the vertex at a place: where it
/// was, and that edge may take any condition.
fn single_settled(model: &Model, single: Option<bool>, vertex: usize, edge: usize) -> Option<bool>
    requires { SingleIsRight (graph_of model.now) single }
    ensures is { result ≡ single_settled (graph_of model.now) vertex edge single }
    ensures right { SingleIsRight (settled (graph_of model.now) vertex edge) result }
{
    let edges = model.vertices.as_slice().get(vertex)?.edges.as_slice();
    if single? && may_take_any_condition(model, edges, edge) {
        Some(true)
    } else {
        None
    }
}

/// Turns what is known of a model into what is known after a settle of the edge at a place of the vertex at a place. It is called
/// before the settle.
pub fn keep_after_settle(model: &Model, facts: &mut FactsOfModel, vertex: usize, edge: usize)
    requires facts { FactsAreRight (graph_of model.now) facts.old }
    ensures is { facts.new ≡ facts_after_settle (graph_of model.now) vertex edge facts.old }
    ensures facts { first_failed (settle_conditions (graph_of model.now) vertex edge) ≡ None
        → FactsAreRight (settled (graph_of model.now) vertex edge) facts.new }
{
    let Some(settled) = edge_at(model, vertex, edge) else {
        return;
    };
    facts.single = single_settled(model, facts.single, vertex, edge);
    lose_bytes(facts, vertex, condition_length(&settled.condition, model));
}
