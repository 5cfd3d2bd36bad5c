//! One sweep of a rule of edges over all vertices and their edges.

ghost use Rattle.std.specs.Prelude.{◌≡◌, ◌++◌, ◌+◌, ◌<◌, ◌≤◌, ◌^◌, Bool, List, map, length, cond, not, slice_index_or, OnOk, IfOk};
ghost use Rattle.std.specs.List.{flat_map};
ghost use Rattle.std.proofs.lemmas.List.Filters.{FiltersInPlace};
ghost use Rattle.model_core.specs.declared.vertex.Edge.{Edge};
ghost use Rattle.model_core.specs.Rules.Settle.{with_true_condition};
ghost use Rattle.model_core.specs.Code.Views.{graph_of, vertex_of, edge_of, application_of};
ghost use Rattle.edge_pruning.specs.declared.finding.EdgeRule.TheVariants as rules;
ghost use Rattle.reduction_cert.specs.EdgeApplications.{application_by};
ghost use Rattle.reducer.specs.Inner.Sweep.{left_by_sweep, swept_vertex, applied_after, applied_to, applied_to_all, settled_if_proved, application_here};

use edge_pruning::{EdgeRule, can_apply};
use model_core::{Application, Edge, Expr, Model, Vertex, copy_name};
use sig_base::{List, Name, NoMemory};
use std::alloc::Global;
use std::mem;

/// Applies the rule wherever it applies, and notes each application with the place that its edge has by then.
pub(crate) fn sweep(
    alloc: Global,
    rule: EdgeRule,
    model: &mut Model,
    applications: &mut Vec<Application>,
) -> Result<(), NoMemory>
    ensures swept { OnOk result
        (graph_of model.new
        ≡ record (graph_of model.old) {
          vertices = map (swept_vertex rule (graph_of model.old))
              (graph_of model.old).vertices;
        }) }
    ensures applied { OnOk result (map application_of applications.new.items
        ≡ map application_of applications.old.items
        ++ applied_to_all rule (graph_of model.old) (graph_of model.old).vertices) }
{
    let mut vertices = mem::replace(&mut model.vertices, List::new(alloc)).into_vec();
    sweep_vertices(alloc, rule, model, &mut vertices, applications)?;
    model.vertices = List::from_vec(vertices);
    Ok(())
}

/// Applies the rule wherever it applies in these vertices, over the model's variables, and notes each application.
fn sweep_vertices(
    alloc: Global,
    rule: EdgeRule,
    model: &Model,
    vertices: &mut Vec<Vertex>,
    applications: &mut Vec<Application>,
) -> Result<(), NoMemory>
    ensures swept { OnOk result
        (map vertex_of vertices.new.items
        ≡ map (swept_vertex rule (graph_of model.now)) (map vertex_of vertices.old.items)) }
    ensures applied { OnOk result (map application_of applications.new.items
        ≡ map application_of applications.old.items
        ++ applied_to_all rule (graph_of model.now) (map vertex_of vertices.old.items)) }
{
    for vertex in vertices.iter_mut() {
        sweep_vertex(alloc, rule, model, vertex, applications)?;
    }
    Ok(())
}

/// Applies the rule wherever it applies in one vertex, and notes each application.
fn sweep_vertex(
    alloc: Global,
    rule: EdgeRule,
    model: &Model,
    vertex: &mut Vertex,
    applications: &mut Vec<Application>,
) -> Result<(), NoMemory>
    ensures swept { OnOk result
        (vertex_of vertex.new ≡ swept_vertex rule (graph_of model.now) (vertex_of vertex.old)) }
    ensures applied { OnOk result (map application_of applications.new.items
        ≡ map application_of applications.old.items
        ++ applied_to rule (graph_of model.now) (vertex_of vertex.old)) }
{
    let edges = vertex.edges.as_mut_vec();
    match rule {
        EdgeRule::Prune => prune_edges(alloc, model, &vertex.name, edges, applications),
        EdgeRule::Settle => settle_edges(alloc, model, &vertex.name, edges, applications),
    }
}

/// Takes away the edges of this vertex whose condition never holds, and notes each with the place that it has by then. Those
/// that stay move up in the same walk.
fn prune_edges(
    alloc: Global,
    model: &Model,
    vertex: &Name,
    edges: &mut Vec<Edge>,
    applications: &mut Vec<Application>,
) -> Result<(), NoMemory>
    ensures swept { OnOk result
        (map edge_of edges.new.items
        ≡ flat_map (left_by_sweep rules.Prune (graph_of model.now)) (map edge_of edges.old.items)) }
    ensures applied { OnOk result (map application_of applications.new.items
        ≡ map application_of applications.old.items
        ++ applied_after rules.Prune (graph_of model.now) vertex.now 0
        (map edge_of edges.old.items)) }
{
    let mut kept = 0;
    for place in 0..edges.len() {
        let refuted = can_apply(model, EdgeRule::Prune, &edges[place]);
        note_edge(alloc, EdgeRule::Prune, refuted, vertex, kept, applications)?;
        kept = keep(edges, refuted, kept, place);
    }
    edges.truncate(kept);
    Ok(())
}

/// Moves the edge at a place up to those that were kept, unless its condition never holds, and says how many are kept then.
fn keep(edges: &mut Vec<Edge>, refuted: bool, kept: usize, place: usize) -> usize
    requires before { kept ≤ place }
    requires there { place < length edges.old.items }
    ensures count { result ≡ kept + cond refuted 0 1 }
    ensures moved { (passes : Edge → Bool) (all : List Edge)
        → FiltersInPlace passes all edges.old.items kept place
        → ((e : Edge) → e ≡ slice_index_or edges.old.items place e → passes e ≡ not refuted)
        → FiltersInPlace passes all edges.new.items result (place + 1) }
{
    if refuted {
        return kept;
    }
    if kept == place {
        return kept + 1;
    }
    edges.swap(kept, place);
    kept + 1
}

/// Makes the conditions of this vertex's edges that always hold the literal `true`, and notes each.
fn settle_edges(
    alloc: Global,
    model: &Model,
    vertex: &Name,
    edges: &mut Vec<Edge>,
    applications: &mut Vec<Application>,
) -> Result<(), NoMemory>
    ensures swept { OnOk result
        (map edge_of edges.new.items
        ≡ map (settled_if_proved (graph_of model.now)) (map edge_of edges.old.items)) }
    ensures applied { OnOk result (map application_of applications.new.items
        ≡ map application_of applications.old.items
        ++ applied_after rules.Settle (graph_of model.now) vertex.now 0
        (map edge_of edges.old.items)) }
{
    let mut before = 0;
    for edge in edges.iter_mut() {
        let proved = can_apply(model, EdgeRule::Settle, edge);
        note_edge(
            alloc,
            EdgeRule::Settle,
            proved,
            vertex,
            before,
            applications,
        )?;
        settle_edge(edge, proved);
        before += 1;
    }
    Ok(())
}

/// Makes an edge's condition the literal `true` where it always holds.
fn settle_edge(edge: &mut Edge, proved: bool)
    ensures { edge_of edge.new
        ≡ cond proved (with_true_condition (edge_of edge.old)) (edge_of edge.old) }
{
    if proved {
        edge.condition = Expr::Truth(true);
    }
}

/// Notes the application to the edge after so many, where the rule applies to it.
fn note_edge(
    alloc: Global,
    rule: EdgeRule,
    applies: bool,
    vertex: &Name,
    before: usize,
    applications: &mut Vec<Application>,
) -> Result<(), NoMemory>
    requires { before < 2 ^ 63 }
    ensures { OnOk result (map application_of applications.new.items
        ≡ map application_of applications.old.items
        ++ application_here rule vertex.now before applies) }
{
    if applies {
        applications.push(application(alloc, rule, vertex, before as u64 + 1)?)?;
    }
    Ok(())
}

/// The application to a vertex's edge.
fn application(
    alloc: Global,
    rule: EdgeRule,
    vertex: &Name,
    edge: u64,
) -> Result<Application, NoMemory>
    ensures { IfOk result (λ a. application_of a ≡ application_by rule vertex.now edge) }
{
    let vertex = copy_name(alloc, vertex)?;
    Ok(match rule {
        EdgeRule::Prune => Application::Prune { vertex, edge },
        EdgeRule::Settle => Application::Settle { vertex, edge },
    })
}
