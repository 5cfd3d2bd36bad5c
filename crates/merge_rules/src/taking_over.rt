//! A vertex takes over what another one does: the changes and edges of the other take the place of its plain urgent edge. The
//! other one keeps what it does, or gives it away.

ghost use Rattle.std.specs.Prelude.{◌≡◌, ◌+◌, ◌++◌, ◌<◌, ◌≤◌, ◌==◌, Some, [], false, map, length, slice_get, slice_set, OnOk, OnErr, IfOk, IfErr};
ghost use Rattle.std.specs.Vec.{vec_len, vec_capacity};
ghost use Rattle.std.specs.List.{remove};
ghost use Rattle.std.specs.Option.{option_map_or};
ghost use Rattle.model_core.specs.EventGraph.{EventEdge, scalar_location};
ghost use Rattle.model_core.specs.Rules.UrgentEdges.{plain_urgent};
ghost use Rattle.model_core.specs.Rules.PlacedEdges.{with_vertex};
ghost use Rattle.model_core.specs.Rules.Merge.{set_parameters, merged_with};
ghost use Rattle.model_core.specs.Run.Step.{vertex_at};
ghost use Rattle.model_core.specs.Code.Views.{graph_of, expression_of, location_of, change_of, edge_of, vertex_of};
ghost use Rattle.merge_rules.specs.Hollowed.{hollow, second_after_merge, merged_leaving};

use model_core::{Change, Edge, Expr, Model, Target, Vertex, copy_name, copy_vertex};
use sig_base::{List, NoMemory};
use std::alloc::Global;
use std::mem;

/// What is left of the second vertex of a merge.
#[derive(Clone, Copy)]
pub enum SecondVertex {
    /// All of it.
    Stays,
    /// A vertex that does nothing: it gives its changes and edges away, so that they aren't copied. This serves where it is
    /// dropped next.
    GivesAway,
}

/// The scalars at these places, as what takes values.
fn scalar_targets(alloc: Global, vars: &[usize]) -> Result<List<Target>, NoMemory>
    ensures { IfOk result (λ targets. map location_of targets ≡ map scalar_location vars.now) }
{
    let mut targets = Vec::with_capacity(alloc, vars.len())?;
    for var in vars {
        targets.push(Target {
            var: *var,
            index: None,
        })?;
    }
    Ok(List::from_vec(targets))
}

/// Makes room after changes and edges for one change and for those of a vertex.
fn make_room(
    changes: &mut Vec<Change>,
    edges: &mut Vec<Edge>,
    other: &Vertex,
) -> Result<(), NoMemory>
    ensures changes { changes.new.items ≡ changes.old.items }
    ensures edges { edges.new.items ≡ edges.old.items }
    ensures room_for_changes { OnOk result
        (vec_len changes.new + 1 + length other.now.changes ≤ vec_capacity changes.new) }
    ensures room_for_edges { OnOk result
        (vec_len edges.new + length other.now.edges ≤ vec_capacity edges.new) }
{
    let Some(more) = other.changes.len().checked_add(1) else {
        return Err(NoMemory);
    };
    changes.reserve(more)?;
    edges.reserve(other.edges.len())?;
    Ok(())
}

/// Puts the `set` of these variables after changes that have room for it, or nothing where there are no variables.
fn add_set(changes: &mut Vec<Change>, vars: &[usize], targets: List<Target>, values: List<Expr>)
    requires targets { map location_of targets ≡ map scalar_location vars.now }
    requires room { vec_len changes.old < vec_capacity changes.old }
    ensures items { map change_of changes.new.items
        ≡ map change_of changes.old.items ++ set_parameters vars.now (map expression_of values) }
    ensures len { vec_len changes.new ≤ vec_len changes.old + 1 }
    ensures capacity { vec_capacity changes.old ≤ vec_capacity changes.new }
{
    if !vars.is_empty() {
        let _ = changes.push(Change::Set { targets, values });
    }
}

/// Puts items after others that have room for them.
fn add_all<T: Drop>(items: &mut Vec<T>, more: List<T>)
    requires room { vec_len items.old + length more ≤ vec_capacity items.old }
    ensures { items.new.items ≡ items.old.items ++ more }
{
    let mut more = more.into_vec();
    let appended = items.append(&mut more);
    let _ = appended;
}

/// Puts what a vertex does after changes and edges that have room for it, in place of the edge that gives it its values.
fn put_in_place(
    changes: &mut Vec<Change>,
    edges: &mut Vec<Edge>,
    place: usize,
    targets: List<Target>,
    other: Vertex,
)
    requires place { place < vec_len edges.old }
    requires targets { map location_of targets ≡ map scalar_location other.params }
    requires room_for_changes { vec_len changes.old + 1 + length other.changes
        ≤ vec_capacity changes.old }
    requires room_for_edges { vec_len edges.old + length other.edges ≤ vec_capacity edges.old }
    ensures changes { map change_of changes.new.items
        ≡ map change_of changes.old.items
        ++ set_parameters other.params
        (option_map_or (λ (e : EventEdge). e.values)
        (slice_get (map edge_of edges.old.items) place) []) ++ map change_of other.changes }
    ensures edges { map edge_of edges.new.items
        ≡ remove (map edge_of edges.old.items) place ++ map edge_of other.edges }
{
    let edge = edges.remove(place);
    let (_, params, more_changes, more_edges) = other.into_parts();
    add_set(changes, params.as_slice(), targets, edge.into_values());
    add_all(changes, more_changes);
    add_all(edges, more_edges);
}

/// Makes the vertex, whose plain urgent edge is at this place, do what the other one does in place of that edge. All memory
/// is taken before anything changes: where it is refused the other one is given back.
fn take_over(
    vertex: &mut Vertex,
    place: usize,
    targets: List<Target>,
    other: Vertex,
) -> Result<(), Vertex>
    requires at { plain_urgent (vertex_of vertex.old) ≡ Some place }
    requires targets { map location_of targets ≡ map scalar_location other.params }
    ensures done { OnOk result
        (vertex_of vertex.new ≡ merged_with (vertex_of other) (vertex_of vertex.old)) }
    ensures unchanged { OnErr result (vertex_of vertex.new ≡ vertex_of vertex.old) }
    ensures given_back { IfErr result (λ back. vertex_of back ≡ vertex_of other) }
{
    let changes = vertex.changes.as_mut_vec();
    let edges = vertex.edges.as_mut_vec();
    match make_room(changes, edges, &other) {
        Ok(()) => {
            put_in_place(changes, edges, place, targets, other);
            Ok(())
        }
        Err(NoMemory) => Err(other),
    }
}

/// Makes the vertex at the first place, whose plain urgent edge is at the second, do what the other one does, or gives that
/// back.
fn take_over_at(
    model: &mut Model,
    first: usize,
    place: usize,
    targets: List<Target>,
    other: Vertex,
) -> Result<(), Vertex>
    requires first { first < length model.old.vertices }
    requires at { plain_urgent (vertex_at (graph_of model.old) first) ≡ Some place }
    requires targets { map location_of targets ≡ map scalar_location other.params }
    ensures done { OnOk result
        (graph_of model.new
        ≡ with_vertex (merged_with (vertex_of other)) first (graph_of model.old)) }
    ensures unchanged { OnErr result (graph_of model.new ≡ graph_of model.old) }
    ensures given_back { IfErr result (λ back. vertex_of back ≡ vertex_of other) }
{
    take_over(
        &mut model.vertices.as_mut_vec()[first],
        place,
        targets,
        other,
    )
}

/// A vertex of the same name and parameters that does nothing.
fn hollow_copy(alloc: Global, vertex: &Vertex) -> Result<Vertex, NoMemory>
    ensures { IfOk result (λ copy. vertex_of copy ≡ hollow (vertex_of vertex.now)) }
{
    Ok(Vertex {
        name: copy_name(alloc, &vertex.name)?,
        params: List::from_vec(Vec::from_slice(alloc, vertex.params.as_slice())?),
        changes: List::new(alloc),
        edges: List::new(alloc),
    })
}

/// A copy of what is left of a vertex.
fn copy_second(alloc: Global, vertex: &Vertex, second: SecondVertex) -> Result<Vertex, NoMemory>
    ensures { IfOk result
        (λ copy. vertex_of copy ≡ second_after_merge second (vertex_of vertex.now)) }
{
    match second {
        SecondVertex::Stays => copy_vertex(alloc, vertex),
        SecondVertex::GivesAway => hollow_copy(alloc, vertex),
    }
}

/// Puts another vertex in the place of one, which is given.
fn replace_at(model: &mut Model, place: usize, vertex: Vertex) -> Vertex
    requires { place < length model.old.vertices }
    ensures given { vertex_of result ≡ vertex_at (graph_of model.old) place }
    ensures put { graph_of model.new
        ≡ record (graph_of model.old) {
          vertices = slice_set (graph_of model.old).vertices place
              (vertex_of vertex);
        } }
{
    mem::replace(&mut model.vertices.as_mut_vec()[place], vertex)
}

/// Makes the vertex at the first place, whose plain urgent edge is at the second, do what the one at the third does. Where
/// memory is refused the model stays as it was.
pub(crate) fn put_together(
    alloc: Global,
    model: &mut Model,
    first: usize,
    place: usize,
    target: usize,
    second: SecondVertex,
) -> Result<(), NoMemory>
    requires first { first < length model.old.vertices }
    requires target { target < length model.old.vertices }
    requires apart { (first == target) ≡ false }
    requires at { plain_urgent (vertex_at (graph_of model.old) first) ≡ Some place }
    ensures done { OnOk result
        (graph_of model.new ≡ merged_leaving second (graph_of model.old) first target) }
    ensures unchanged { OnErr result (graph_of model.new ≡ graph_of model.old) }
{
    let vertex = &model.vertices.as_slice()[target];
    let targets = scalar_targets(alloc, vertex.params.as_slice())?;
    let left = copy_second(alloc, vertex, second)?;
    let other = replace_at(model, target, left);
    match take_over_at(model, first, place, targets, other) {
        Ok(()) => Ok(()),
        Err(other) => {
            let _left = replace_at(model, target, other);
            Err(NoMemory)
        }
    }
}
