//! What is left of a model after some of its variables are dropped. The lists of the model are walked once, and all is done in
//! place: what is stored in a variable that goes is taken out, and the other variables get their new numbers.

ghost use Rattle.std.specs.Prelude.{◌≡◌, map, cond, slice_index_or, [], ◌∷◌};
ghost use Rattle.std.specs.List.{flat_map};
ghost use Rattle.model_core.specs.Rules.MarkedPlaces.{rank, is_marked};
ghost use Rattle.model_core.specs.Rules.Slice.{location_renumbered, sliced_values, sliced_parameters, sliced_targets, sliced_change, of_marked_variables};
ghost use Rattle.model_core.specs.Code.Views.{graph_of, vertex_of, edge_of, expression_of, location_of, change_of};
ghost use Rattle.var_slicing.specs.Inner.StepsOfLeaving.{edge_left_in, edges_left_in, own_parts_left};

use crate::new_numbers::{renumber_expr, renumber_form, renumber_target, renumber_watched_vars};
use crate::paired_lists::{HasVars, stays_beside};
use marked_walks::{Staying, keep, keep_staying};
use model_core::{Change, Edge, Expr, Model, Target, Vertex};
use sig_base::List;
use std::alloc::Global;
use std::mem;

/// Gives a parameter its new number, and says whether it stays.
fn renumber_param(staying: &Staying, param: &mut usize) -> bool
    ensures marked { result ≡ is_marked staying.now param.old }
    ensures renumbered { param.new ≡ rank staying.now param.old }
{
    let stays = staying.keeps(*param);
    *param = staying.number(*param);
    stays
}

/// Takes the parameters out that go.
fn slice_params(staying: &Staying, params: &mut Vec<usize>)
    ensures { params.new.items ≡ sliced_parameters staying.now params.old.items }
{
    let mut kept = 0;
    for place in 0..params.len() {
        let stays = renumber_param(staying, &mut params[place]);
        kept = keep(params, stays, kept, place);
    }
    params.truncate(kept);
}

/// Takes out the values beside variables that go.
fn slice_values<V: HasVars>(staying: &Staying, beside: &V, values: &mut Vec<Expr>)
    ensures { map expression_of values.new.items
        ≡ sliced_values staying.now (V.vars beside.now) (map expression_of values.old.items) }
{
    let mut kept = 0;
    for place in 0..values.len() {
        renumber_expr(staying, &mut values[place]);
        kept = keep(values, stays_beside(staying, beside, place), kept, place);
    }
    values.truncate(kept);
}

/// Gives a target its new numbers, and says whether its variable stays.
fn renumber_kept_target(staying: &Staying, target: &mut Target) -> bool
    ensures marked { result ≡ is_marked staying.now target.old.var }
    ensures renumbered { location_of target.new
        ≡ location_renumbered (rank staying.now) (location_of target.old) }
{
    let stays = staying.keeps(target.var);
    renumber_target(staying, target);
    stays
}

/// Takes the targets out whose variables go.
fn slice_targets(staying: &Staying, targets: &mut Vec<Target>)
    ensures { map location_of targets.new.items
        ≡ sliced_targets staying.now (map location_of targets.old.items) }
{
    let mut kept = 0;
    for place in 0..targets.len() {
        let stays = renumber_kept_target(staying, &mut targets[place]);
        kept = keep(targets, stays, kept, place);
    }
    targets.truncate(kept);
}

/// Takes out of a change what is stored in variables that go, and says whether anything is left.
fn slice_change(staying: &Staying, change: &mut Change) -> bool
    ensures { cond result (change_of change.new ∷ []) []
        ≡ sliced_change staying.now (change_of change.old) }
{
    match change {
        Change::Set { targets, values } => {
            slice_values(staying, targets, values.as_mut_vec());
            slice_targets(staying, targets.as_mut_vec());
            targets.len() > 0 || values.len() > 0
        }
        Change::Draw {
            target,
            stream: _,
            choice: _,
        } => renumber_kept_target(staying, target),
    }
}

/// Takes out of changes what is stored in variables that go.
fn slice_changes(staying: &Staying, changes: &mut Vec<Change>)
    ensures { map change_of changes.new.items
        ≡ flat_map (sliced_change staying.now) (map change_of changes.old.items) }
{
    let mut kept = 0;
    for place in 0..changes.len() {
        let stays = slice_change(staying, &mut changes[place]);
        kept = keep(changes, stays, kept, place);
    }
    changes.truncate(kept);
}

/// Takes the values out that are carried to the vertex at a place for parameters that go.
fn slice_carried_values(
    alloc: Global,
    staying: &Staying,
    vertices: &[Vertex],
    target: usize,
    values: &mut Vec<Expr>,
)
    ensures { map expression_of values.new.items
        ≡ sliced_values staying.now
        (slice_index_or (map (λ (v : Vertex). v.params) vertices.now) target [])
        (map expression_of values.old.items) }
{
    match vertices.get(target) {
        Some(vertex) => slice_values(staying, &vertex.params, values),
        None => slice_values(staying, &List::<usize>::new(alloc), values),
    }
}

/// Takes out of an edge to one of these vertices the values that it carries for parameters that go.
fn slice_edge(alloc: Global, staying: &Staying, vertices: &[Vertex], edge: &mut Edge)
    ensures { edge_of edge.new
        ≡ edge_left_in (map (λ (v : Vertex). v.params) vertices.now) staying.now
        (edge_of edge.old) }
{
    slice_carried_values(
        alloc,
        staying,
        vertices,
        edge.target,
        edge.values.as_mut_vec(),
    );
    renumber_expr(staying, &mut edge.condition);
    renumber_form(staying, &mut edge.form);
}

/// Takes out of edges to these vertices the values that they carry for parameters that go.
fn slice_edges(alloc: Global, staying: &Staying, vertices: &[Vertex], edges: &mut Vec<Edge>)
    ensures { map edge_of edges.new.items
        ≡ map (edge_left_in (map (λ (v : Vertex). v.params) vertices.now) staying.now)
        (map edge_of edges.old.items) }
{
    for edge in edges.iter_mut() {
        slice_edge(alloc, staying, vertices, edge);
    }
}

/// Takes out of all edges the values that they carry for parameters that go. The parameters stay as they are.
fn slice_all_edges(alloc: Global, staying: &Staying, vertices: &mut Vec<Vertex>)
    ensures { map vertex_of vertices.new.items
        ≡ map (edges_left_in (map (λ (v : Vertex). v.params) vertices.old.items) staying.now)
        (map vertex_of vertices.old.items) }
{
    for place in 0..vertices.len() {
        let mut edges = mem::replace(&mut vertices[place].edges, List::new(alloc)).into_vec();
        slice_edges(alloc, staying, vertices.as_slice(), &mut edges);
        vertices[place].edges = List::from_vec(edges);
    }
}

/// Takes out of vertices the parameters that go, and out of their changes what is stored in variables that go.
fn slice_all_stores(staying: &Staying, vertices: &mut Vec<Vertex>)
    ensures { map vertex_of vertices.new.items
        ≡ map (own_parts_left staying.now) (map vertex_of vertices.old.items) }
{
    for vertex in vertices.iter_mut() {
        slice_params(staying, vertex.params.as_mut_vec());
        slice_changes(staying, vertex.changes.as_mut_vec());
    }
}

/// Leaves the variables that stay alone, each with its new number. The edges come first, since what they carry goes by the
/// parameters that their targets have.
pub(crate) fn keep_and_renumber(alloc: Global, model: &mut Model, staying: &Staying)
    ensures { graph_of model.new ≡ of_marked_variables (graph_of model.old) staying.now }
{
    keep_staying(staying, model.vars.as_mut_vec());
    renumber_watched_vars(staying, model.watch.as_mut_vec());
    slice_all_edges(alloc, staying, model.vertices.as_mut_vec());
    slice_all_stores(staying, model.vertices.as_mut_vec());
}
