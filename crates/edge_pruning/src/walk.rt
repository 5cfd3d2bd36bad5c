//! The walk over the vertices that can be reached: from the first one and the watched ones to the targets of edges.

ghost use Rattle.std.specs.Prelude.{◌≡◌, ◌∷◌, map, slice_get, IfOk};
ghost use Rattle.model_core.specs.Code.Views.{graph_of, edge_of, watched_of};
ghost use Rattle.model_core.specs.Rules.Reached.{reached_marks};
ghost use Rattle.edge_pruning.specs.Inner.Walk.{targets_of, watched_vertices};

use marked_walks::{PlaceSuccessors, entailed};
use model_core::{Edge, Model, Watch};
use sig_base::NoMemory;
use std::alloc::Global;

/// Where the edge at this place leads.
fn target_at(edges: &[Edge], place: usize) -> Option<usize>
    ensures { result ≡ slice_get (targets_of (map edge_of edges.now)) place }
{
    match edges.get(place) {
        Some(edge) => Some(edge.target),
        None => None,
    }
}

/// For each vertex the targets of its edges.
#[derive(Clone, Copy)]
struct Targets<'a> {
    model: &'a Model,
}

impl<'a> PlaceSuccessors for Targets<'a> {
    ghost use Rattle.model_core.specs.Code.Views.{graph_of};
    ghost use Rattle.edge_pruning.specs.Inner.Walk.{targets_by_vertex};

    ghost lists = { λ t. targets_by_vertex (graph_of t.model.now).vertices };

    fn place_count(&self) -> usize {
        self.model.vertices.len()
    }

    fn successor_count(&self, place: usize) -> usize {
        self.model.edges_at(place).len()
    }

    fn nth_successor(&self, place: usize, nth: usize) -> Option<usize> {
        target_at(self.model.edges_at(place), nth)
    }
}

/// The first vertex and the watched ones.
fn first_places(alloc: Global, watch: &[Watch]) -> Result<Vec<usize>, NoMemory>
    ensures { IfOk result (λ first. first.items ≡ 0 ∷ watched_vertices (map watched_of watch.now)) }
{
    let mut first = Vec::new(alloc);
    first.push(0)?;
    for watched in watch {
        if let Watch::Event { vertex } = *watched {
            first.push(vertex)?;
        }
    }
    Ok(first)
}

/// For each vertex whether it can be reached over edges of any kind from the first vertex or from a watched one.
pub(crate) fn reached(alloc: Global, model: &Model) -> Result<Vec<bool>, NoMemory>
    ensures { IfOk result (λ marks. marks.items ≡ reached_marks (graph_of model.now)) }
{
    let first = first_places(alloc, model.watch.as_slice())?;
    let targets = Targets { model };
    entailed(alloc, first.as_slice(), &targets)
}
