//! Which vertices have which priority: all edges are looked at once.

ghost use Rattle.std.specs.Prelude.{◌≡◌, map, option_to_list, IfOk, OnOk};
ghost use Rattle.std.specs.List.{flat_map};
ghost use Rattle.model_core.specs.Code.Views.{graph_of, vertex_of, edge_of, edge_kind_of};
ghost use Rattle.model_core.specs.Conflicts.Priorities.{kind_priorities, edge_priorities, vertex_priorities, priorities_of};
ghost use Rattle.conflict_report.specs.Inner.NumberHolders.{HoldExactly, HoldMore};

use crate::holders::Holders;
use model_core::{Edge, EdgeForm, Model, Vertex};
use sig_base::NoMemory;
use std::alloc::Global;

/// The priority of the event with which a run begins.
pub(crate) const BEGIN_PRIORITY: u8 = 5;

/// The priority with which an edge of this form schedules, if it does.
fn own_priority(form: &EdgeForm) -> Option<u8>
    ensures { kind_priorities (edge_kind_of form.now) ≡ option_to_list result }
{
    match form {
        EdgeForm::Schedule { delay: _, priority } => Some(*priority),
        EdgeForm::Urgent => Some(0),
        EdgeForm::CancelNext | EdgeForm::CancelEqual | EdgeForm::CancelAll => None,
    }
}

/// Notes that the target of an edge has the priority with which the edge schedules, if it does.
fn note_edge(holders: &mut Holders, alloc: Global, edge: &Edge) -> Result<(), NoMemory>
    ensures { OnOk result
        (HoldMore (λ j. edge_priorities j (edge_of edge.now)) holders.old holders.new) }
{
    match own_priority(&edge.form) {
        Some(priority) => holders.put(alloc, usize::from(priority), edge.target),
        None => Ok(()),
    }
}

/// Notes so the priorities of these edges.
fn note_edges(holders: &mut Holders, alloc: Global, edges: &[Edge]) -> Result<(), NoMemory>
    ensures { OnOk result
        (HoldMore (λ j.
        flat_map (edge_priorities j) (map edge_of edges.now)) holders.old holders.new) }
{
    for edge in edges {
        note_edge(holders, alloc, edge)?;
    }
    Ok(())
}

/// Notes so those of the edges of these vertices.
fn note_vertices(holders: &mut Holders, alloc: Global, vertices: &[Vertex]) -> Result<(), NoMemory>
    ensures { OnOk result
        (HoldMore (λ j.
        flat_map (vertex_priorities j) (map vertex_of vertices.now)) holders.old holders.new) }
{
    for vertex in vertices {
        note_edges(holders, alloc, vertex.edges.as_slice())?;
    }
    Ok(())
}

/// For each priority the vertices that have it.
pub(crate) fn holders_of_priorities(alloc: Global, model: &Model) -> Result<Holders, NoMemory>
    ensures { IfOk result (λ holders. HoldExactly (priorities_of (graph_of model.now)) holders) }
{
    let mut holders = Holders::new(alloc);
    holders.put(alloc, usize::from(BEGIN_PRIORITY), 0)?;
    note_vertices(&mut holders, alloc, model.vertices.as_slice())?;
    Ok(holders)
}
