//! By how much a merge makes the canonical text longer.

ghost use Rattle.std.specs.Prelude.{◌≡◌, ◌<◌, None, length, take};
ghost use Rattle.model_core.specs.Run.Step.{vertex_at};
ghost use Rattle.model_core.specs.Rules.Conditions.{first_failed};
ghost use Rattle.model_core.specs.Rules.Merge.{merge_conditions, merged};
ghost use Rattle.model_core.specs.Code.Views.{graph_of};
ghost use Rattle.vertex_laws.specs.BodyLines.{body_lines};
ghost use Rattle.model_facts.specs.KnownLengths.{capped, LengthIsRight};
ghost use Rattle.model_facts.specs.FactsOfModel.{FactsAreRight};
ghost use Rattle.merge_rules.specs.Growth.{growth};

use crate::within_limits::urgent_place;
use model_core::Model;
use model_facts::FactsOfModel;
use model_print::{edge_length, set_length};

/// How many bytes a merge adds to the canonical text, and how many it takes from it. Each is 2^64 - 1 where there are more.
#[derive(Clone, Copy)]
pub(crate) struct Growth {
    /// Of the lines by which the first vertex does what the second one does.
    pub(crate) added: u64,
    /// Of the line of its plain urgent edge.
    pub(crate) gone: u64,
}

/// How a merge of the two changes the length, where the lines of the second one's changes and edges have so many bytes.
pub(crate) fn grows_by(model: &Model, first: usize, second: usize, body: u64) -> Growth
    requires holds { first_failed (take 7 (merge_conditions (graph_of model.now) first second))
        ≡ None }
    requires body { body
        ≡ capped (length
        (body_lines (graph_of model.now) (vertex_at (graph_of model.now) second))) }
    ensures { result ≡ growth (graph_of model.now) first }
{
    let vertices = model.vertices.as_slice();
    let a = &vertices[first];
    let edge = &a.edges.as_slice()[urgent_place(a)];
    let params = vertices[second].params.as_slice();
    Growth {
        added: set_length(params, edge.values.as_slice(), model).saturating_add(body),
        gone: edge_length(edge, model),
    }
}

/// How many bytes the lines of what the first vertex does have after a merge of the two, found before it, or None where they are
/// too many to count.
pub(crate) fn merged_body(
    facts: &mut FactsOfModel,
    model: &Model,
    first: usize,
    second: usize,
    grows: Growth,
) -> Option<u64>
    requires facts { FactsAreRight (graph_of model.now) facts.old }
    requires holds { first_failed (merge_conditions (graph_of model.now) first second) ≡ None }
    requires grows { grows ≡ growth (graph_of model.now) first }
    ensures is { LengthIsRight result
        (body_lines (merged (graph_of model.now) first second)
        (vertex_at (merged (graph_of model.now) first second) first)) }
    ensures facts { FactsAreRight (graph_of model.now) facts.new }
{
    let body = facts.find_body(model, first);
    if body == u64::MAX {
        return None;
    }
    Some((body - grows.gone).saturating_add(grows.added))
}
