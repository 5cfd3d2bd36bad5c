//! The first two vertices that may be merged.

ghost use Rattle.std.specs.Prelude.{◌≡◌, length};
ghost use Rattle.std.specs.Option.{option_map};
ghost use Rattle.model_core.specs.EventGraph.{EventEdge};
ghost use Rattle.model_core.specs.Run.Step.{vertex_at};
ghost use Rattle.model_core.specs.Rules.UrgentEdges.{plain_urgent_edge};
ghost use Rattle.model_core.specs.Rules.Merge.{merge_at, first_merge};
ghost use Rattle.model_core.specs.Code.Views.{graph_of, vertex_of};
ghost use Rattle.model_facts.specs.FactsOfModel.{FactsAreRight};

use crate::at_once::edge_at_once;
use crate::merging::failed_merge;
use crate::reads_written::{ReadsWritten, Walk};
use model_core::{Model, Vertex};
use model_facts::FactsOfModel;

/// The place of the vertex to which the plain urgent edge leads, if there is one.
pub(crate) fn target_at_once(vertex: &Vertex) -> Option<usize>
    ensures { result
        ≡ option_map (λ (e : EventEdge). e.target) (plain_urgent_edge (vertex_of vertex.now)) }
{
    match edge_at_once(vertex) {
        Some(edge) => Some(edge.target),
        None => None,
    }
}

/// The vertex at this place with the one to which its plain urgent edge leads, where they may be merged.
fn merge_at<R: ReadsWritten>(
    model: &Model,
    facts: &mut FactsOfModel,
    readers: &mut R,
    first: usize,
    vertex: &Vertex,
) -> Option<(usize, usize)>
    requires facts { FactsAreRight (graph_of model.now) facts.old }
    requires ready { R.ready readers.old (length model.now.vars) }
    requires there { vertex_of vertex.now ≡ vertex_at (graph_of model.now) first }
    ensures found { result ≡ merge_at (graph_of model.now) first }
    ensures facts { FactsAreRight (graph_of model.now) facts.new }
    ensures same { readers.new ≡ readers.old }
{
    match target_at_once(vertex) {
        None => None,
        Some(second) => match failed_merge(model, facts, readers, first, second) {
            None => Some((first, second)),
            Some(_) => None,
        },
    }
}

/// The first two vertices that may be merged, with this way to find what edges read.
fn first_merge_by<R: ReadsWritten>(
    model: &Model,
    facts: &mut FactsOfModel,
    readers: &mut R,
) -> Option<(usize, usize)>
    requires facts { FactsAreRight (graph_of model.now) facts.old }
    requires ready { R.ready readers.old (length model.now.vars) }
    ensures found { result ≡ first_merge (graph_of model.now) }
    ensures facts { FactsAreRight (graph_of model.now) facts.new }
    ensures same { readers.new ≡ readers.old }
{
    for (first, vertex) in model.vertices.as_slice().iter().enumerate() {
        let found = merge_at(model, facts, readers, first, vertex);
        if found.is_some() {
            return found;
        }
    }
    None
}

/// The first vertex, in the order of the text, that may be merged with the one to which its plain urgent edge leads: the
/// places of both, from 0.
pub fn first_merge(model: &Model) -> Option<(usize, usize)>
    ensures { result ≡ first_merge (graph_of model.now) }
{
    first_merge_by(model, &mut FactsOfModel::nothing(), &mut Walk)
}
