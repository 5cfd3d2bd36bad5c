//! The last condition of merge: the result is within the limits on changes, on edges and on the canonical text. All is
//! measured before anything is changed, and without memory.

ghost use Rattle.std.specs.Prelude.{◌≡◌, ℕ, ◌-◌, ◌^◌, ◌<◌, Some, None, IsSome, take, length, min, nat_le, List};
ghost use Rattle.sig_base.specs.declared.limits.TheConstants.{TEXT_MAX};
ghost use Rattle.model_core.specs.EventGraph.{Expression};
ghost use Rattle.model_core.specs.Run.Step.{vertex_at};
ghost use Rattle.model_core.specs.Text.Canonical.{canonical};
ghost use Rattle.model_core.specs.Rules.Conditions.{first_failed};
ghost use Rattle.model_core.specs.Rules.UrgentEdges.{plain_urgent};
ghost use Rattle.model_core.specs.Rules.Merge.{set_parameters, merged_with, merged, has_few_parts, is_within_limits, merge_conditions};
ghost use Rattle.model_core.specs.Code.Views.{graph_of, vertex_of};
ghost use Rattle.model_facts.specs.FactsOfModel.{TextLengthIsRight, FactsAreRight};
ghost use Rattle.merge_rules.specs.Growth.{bytes_gone, growth};
ghost use Rattle.model_facts.specs.KnownLengths.{capped};

use crate::growth::{Growth, grows_by};
use model_core::{Model, Vertex};
use model_facts::FactsOfModel;
use model_print::length_without_edge;
use range_bounds::plain_urgent;
use sig_base::{CHANGES_MAX, EDGES_MAX, TEXT_MAX};

/// How many changes give parameters their values.
fn set_count(params: &[usize]) -> usize
    ensures { (values : List Expression) → result ≡ length (set_parameters params.now values) }
{
    if params.is_empty() { 0 } else { 1 }
}

/// How many changes the first vertex has with those of the second, or 2^64 - 1 where they are more.
fn changes_together(first: &Vertex, second: &Vertex) -> usize
    ensures { (place : ℕ) → plain_urgent (vertex_of first.now) ≡ Some place
        → result ≡ min (length (merged_with (vertex_of second.now) (vertex_of first.now)).changes)
        (2 ^ 64 - 1) }
{
    first
        .changes
        .len()
        .saturating_add(set_count(second.params.as_slice()))
        .saturating_add(second.changes.len())
}

/// How many edges the first vertex has but its plain urgent one and with those of the second, or 2^64 - 1 where they are
/// more.
fn edges_together(first: &Vertex, second: &Vertex) -> usize
    ensures { (place : ℕ) → plain_urgent (vertex_of first.now) ≡ Some place
        → result ≡ min (length (merged_with (vertex_of second.now) (vertex_of first.now)).edges)
        (2 ^ 64 - 1) }
{
    first
        .edges
        .len()
        .saturating_sub(1)
        .saturating_add(second.edges.len())
}

/// Whether the first vertex, which has a plain urgent edge, keeps the limits on changes and edges with those of the second
/// beside its own.
fn has_few_parts(first: &Vertex, second: &Vertex) -> bool
    ensures { (place : ℕ) → plain_urgent (vertex_of first.now) ≡ Some place
        → result ≡ has_few_parts (merged_with (vertex_of second.now) (vertex_of first.now)) }
{
    changes_together(first, second) <= CHANGES_MAX && edges_together(first, second) <= EDGES_MAX
}

/// The place of the plain urgent edge.
pub(crate) fn urgent_place(first: &Vertex) -> usize
    requires { IsSome (plain_urgent (vertex_of first.now)) }
    ensures at { plain_urgent (vertex_of first.now) ≡ Some result }
    ensures within { result < length first.now.edges }
{
    plain_urgent(first).unwrap()
}

/// How many bytes the canonical text has without the plain urgent edge of the first vertex, whose line has so many, or
/// 2^64 - 1 where it has more.
fn length_without(model: &Model, bytes: Option<u64>, first: usize, second: usize, gone: u64) -> u64
    requires measured { TextLengthIsRight (graph_of model.now) bytes }
    requires holds { first_failed (take 7 (merge_conditions (graph_of model.now) first second))
        ≡ None }
    requires gone { gone ≡ capped (bytes_gone (graph_of model.now) first) }
    ensures { result
        ≡ capped (length (canonical (graph_of model.now)) - bytes_gone (graph_of model.now) first) }
{
    match bytes {
        Some(bytes) => bytes - gone,
        None => length_without_edge(
            model,
            first,
            urgent_place(&model.vertices.as_slice()[first]),
        ),
    }
}

/// How many bytes the canonical text of the result has, or 2^64 - 1 where it has more, where the merge makes it so much longer.
pub(crate) fn merged_length(
    model: &Model,
    bytes: Option<u64>,
    first: usize,
    second: usize,
    grows: Growth,
) -> u64
    requires measured { TextLengthIsRight (graph_of model.now) bytes }
    requires holds { first_failed (take 7 (merge_conditions (graph_of model.now) first second))
        ≡ None }
    requires grows { grows ≡ growth (graph_of model.now) first }
    ensures { result ≡ capped (length (canonical (merged (graph_of model.now) first second))) }
{
    length_without(model, bytes, first, second, grows.gone).saturating_add(grows.added)
}

/// Whether the result's vertex keeps the limits on changes and edges.
pub(crate) fn keeps_few_parts(model: &Model, first: usize, second: usize) -> bool
    requires { first_failed (take 7 (merge_conditions (graph_of model.now) first second)) ≡ None }
    ensures { result ≡ has_few_parts (vertex_at (merged (graph_of model.now) first second) first) }
{
    let vertices = model.vertices.as_slice();
    has_few_parts(&vertices[first], &vertices[second])
}

/// Whether the result's canonical text keeps its limit, where the merge makes it so much longer.
pub(crate) fn has_short_text(
    model: &Model,
    bytes: Option<u64>,
    first: usize,
    second: usize,
    grows: Growth,
) -> bool
    requires measured { TextLengthIsRight (graph_of model.now) bytes }
    requires holds { first_failed (take 7 (merge_conditions (graph_of model.now) first second))
        ≡ None }
    requires grows { grows ≡ growth (graph_of model.now) first }
    ensures { result
        ≡ nat_le (length (canonical (merged (graph_of model.now) first second))) TEXT_MAX }
{
    merged_length(model, bytes, first, second, grows) <= TEXT_MAX as u64
}

/// Whether the result is within the limits. What is found of the model on the way is known then.
pub(crate) fn is_within_limits(
    model: &Model,
    facts: &mut FactsOfModel,
    first: usize,
    second: usize,
) -> bool
    requires facts { FactsAreRight (graph_of model.now) facts.old }
    requires holds { first_failed (take 7 (merge_conditions (graph_of model.now) first second))
        ≡ None }
    ensures is { result ≡ is_within_limits (merged (graph_of model.now) first second) first }
    ensures facts { FactsAreRight (graph_of model.now) facts.new }
{
    if !keeps_few_parts(model, first, second) {
        return false;
    }
    let bytes = facts.find_bytes(model);
    let body = facts.find_body(model, second);
    let grows = grows_by(model, first, second, body);
    has_short_text(model, bytes, first, second, grows)
}
