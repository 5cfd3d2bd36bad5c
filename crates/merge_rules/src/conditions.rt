//! The conditions of merge that depend on the two vertices.

ghost use Rattle.std.specs.Prelude.{◌≡◌, ◌<◌, ◌&&◌, ◌||◌, not, true, false, ◌∷◌, map, take, drop, length};
ghost use lib.Pointwise.{pointwise};
ghost use Rattle.std.specs.List.{list_all};
ghost use Rattle.std.specs.Option.{option_map_or};
ghost use Rattle.model_core.specs.EventGraph.{scalar_location, has_drawn_delay};
ghost use Rattle.model_core.specs.Run.Step.{vertex_at};
ghost use Rattle.model_core.specs.Rules.BoundsOfParts.{quiet_set, quiet_change, quiet_edge};
ghost use Rattle.model_core.specs.Rules.Conditions.{first_failed};
ghost use Rattle.model_core.specs.Rules.Uses.{vertex_writes};
ghost use Rattle.model_core.specs.Rules.UrgentEdges.{plain_urgent_edge, single_urgent};
ghost use Rattle.model_core.specs.Rules.Merge.{set_parameters, leads_to, is_watched_vertex, reads_none_of, is_unwatched, happens_unseen, values_at_once, other_edges, merge_conditions};
ghost use Rattle.model_core.specs.Code.Views.{graph_of, expression_of, change_of, edge_of, vertex_of, watched_of};
ghost use Rattle.merge_rules.specs.PairFits.{acts_unseen};
ghost use Rattle.merge_rules.specs.KeptPairs.{UnseenIsRight};
ghost use Rattle.merge_rules.specs.Inner.ReadingEdges.{is_calm};

use crate::at_once::edge_at_once;
use crate::other_edges::other_edges;
use crate::reads_written::ReadsWritten;
use model_core::{
    Change, Edge, Expr, Model, Vertex, Watch, has_drawn_delay, is_watched, one_cancels,
};
use range_bounds::{bounds, plain_urgent, quiet_change, quiet_edge, quiet_store};
use use_analysis::writes_of_vertex;

/// Whether the vertex has a plain urgent edge, and it leads to this vertex.
fn leads_at_once(vertex: &Vertex, target: usize) -> bool
    ensures { result
        ≡ option_map_or (leads_to target) (plain_urgent_edge (vertex_of vertex.now)) false }
{
    match edge_at_once(vertex) {
        Some(edge) => edge.target == target,
        None => false,
    }
}

/// Whether an edge never faults and draws no delay.
fn is_calm(model: &Model, edge: &Edge) -> bool
    ensures { result ≡ is_calm (graph_of model.now) (edge_of edge.now) }
{
    quiet_edge(model, edge) && !has_drawn_delay(edge)
}

fn all_calm(model: &Model, edges: &[Edge]) -> bool
    ensures { result ≡ list_all (is_calm (graph_of model.now)) (map edge_of edges.now) }
{
    for edge in edges {
        if !is_calm(model, edge) {
            return false;
        }
    }
    true
}

fn is_unwatched(second: &Vertex, item: &Watch) -> bool
    ensures { result ≡ is_unwatched (vertex_writes (vertex_of second.now)) (watched_of item.now) }
{
    match item {
        Watch::Variable { var } => !writes_of_vertex(second, *var),
        Watch::Event { vertex: _ } => true,
    }
}

fn all_unwatched(second: &Vertex, watch: &[Watch]) -> bool
    ensures { result
        ≡ list_all (is_unwatched (vertex_writes (vertex_of second.now)))
        (map watched_of watch.now) }
{
    for item in watch {
        if !is_unwatched(second, item) {
            return false;
        }
    }
    true
}

fn quiet_changes(model: &Model, changes: &[Change]) -> bool
    ensures { result ≡ list_all (quiet_change (graph_of model.now)) (map change_of changes.now) }
{
    for change in changes {
        if !quiet_change(model, change) {
            return false;
        }
    }
    true
}

fn quiet_edges(model: &Model, edges: &[Edge]) -> bool
    ensures { result ≡ list_all (quiet_edge (graph_of model.now)) (map edge_of edges.now) }
{
    for edge in edges {
        if !quiet_edge(model, edge) {
            return false;
        }
    }
    true
}

fn quiet_parameter(model: &Model, var: usize, value: &Expr) -> bool
    ensures { result
        ≡ quiet_set (graph_of model.now) (scalar_location var) (expression_of value.now) }
{
    let of = bounds(model, value);
    of.quiet && quiet_store(model, var, &of)
}

fn quiet_pairs(model: &Model, params: &[usize], values: &[Expr]) -> bool
    ensures { result
        ≡ pointwise (quiet_set (graph_of model.now)) (map scalar_location params.now)
        (map expression_of values.now) }
{
    if params.len() != values.len() {
        return false;
    }
    for place in 0..params.len() {
        if !quiet_parameter(model, params[place], &values[place]) {
            return false;
        }
    }
    true
}

fn quiet_parameters(model: &Model, params: &[usize], values: &[Expr]) -> bool
    ensures { result
        ≡ list_all (quiet_change (graph_of model.now))
        (set_parameters params.now (map expression_of values.now)) }
{
    params.is_empty() || quiet_pairs(model, params, values)
}

/// Whether a vertex acts unseen once it has its values: it writes no watched variable, and never faults.
fn acts_unseen(model: &Model, vertex: &Vertex) -> bool
    ensures { result ≡ acts_unseen (graph_of model.now) (vertex_of vertex.now) }
{
    all_unwatched(vertex, model.watch.as_slice())
        && quiet_changes(model, vertex.changes.as_slice())
        && quiet_edges(model, vertex.edges.as_slice())
}

/// Whether the vertex at this place acts unseen.
pub(crate) fn acts_unseen_at(model: &Model, vertex: usize) -> bool
    requires { vertex < length model.now.vertices }
    ensures { result ≡ acts_unseen (graph_of model.now) (vertex_at (graph_of model.now) vertex) }
{
    acts_unseen(model, &model.vertices.as_slice()[vertex])
}

/// Whether the second vertex acts unseen, which may be known.
fn second_acts_unseen(model: &Model, unseen: Option<bool>, second: &Vertex) -> bool
    requires { UnseenIsRight unseen (graph_of model.now) (vertex_of second.now) }
    ensures { result ≡ acts_unseen (graph_of model.now) (vertex_of second.now) }
{
    match unseen {
        Some(unseen) => unseen,
        None => acts_unseen(model, second),
    }
}

/// Whether the second vertex takes the values of the first one's plain urgent edge, and none can fault.
fn takes_quietly(model: &Model, first: &Vertex, second: &Vertex) -> bool
    ensures { result
        ≡ list_all (quiet_change (graph_of model.now))
        (set_parameters (vertex_of second.now).parameters (values_at_once (vertex_of first.now))) }
{
    let params = second.params.as_slice();
    match edge_at_once(first) {
        Some(edge) => quiet_parameters(model, params, edge.values.as_slice()),
        None => quiet_parameters(model, params, &[]),
    }
}

/// Whether the second event, to which the first one's plain urgent edge gives its values, happens unseen.
fn second_happens_unseen(
    model: &Model,
    unseen: Option<bool>,
    first: &Vertex,
    second: &Vertex,
) -> bool
    requires { UnseenIsRight unseen (graph_of model.now) (vertex_of second.now) }
    ensures { result
        ≡ happens_unseen (graph_of model.now) (vertex_of second.now)
        (values_at_once (vertex_of first.now)) }
{
    second_acts_unseen(model, unseen, second) && takes_quietly(model, first, second)
}

/// Whether the edges of the first vertex but its plain urgent one never fault, read nothing that the second writes, and draw
/// no delay.
fn other_edges_are_calm<R: ReadsWritten>(
    model: &Model,
    readers: &mut R,
    first: &Vertex,
    second: &Vertex,
) -> bool
    requires { R.ready readers.old (length model.now.vars) }
    ensures is { result
        ≡ list_all (λ e.
        quiet_edge (graph_of model.now) e && reads_none_of (vertex_writes (vertex_of second.now)) e
        && not (has_drawn_delay e)) (other_edges (vertex_of first.now)) }
    ensures same { readers.new ≡ readers.old }
{
    let others = other_edges(first);
    if !all_calm(model, others.before) {
        return false;
    }
    if !all_calm(model, others.after) {
        return false;
    }
    !readers.reads_written(model, others.before, others.after, second)
}

/// Whether the first vertex isn't watched, or the second event happens unseen.
fn notes_stay(model: &Model, unseen: Option<bool>, first: usize, a: &Vertex, b: &Vertex) -> bool
    requires { UnseenIsRight unseen (graph_of model.now) (vertex_of b.now) }
    ensures { result
        ≡ (not (is_watched_vertex (graph_of model.now) first)
        || happens_unseen (graph_of model.now) (vertex_of b.now)
        (values_at_once (vertex_of a.now))) }
{
    !is_watched(model, first) || second_happens_unseen(model, unseen, a, b)
}

/// The first condition but that on the limits that fails, by its number from 1, where the first three hold. The two
/// vertices are those at these places.
fn failed_later<R: ReadsWritten>(
    model: &Model,
    unseen: Option<bool>,
    readers: &mut R,
    first: usize,
    second: usize,
    a: &Vertex,
    b: &Vertex,
) -> Option<u8>
    requires unseen { UnseenIsRight unseen (graph_of model.now) (vertex_of b.now) }
    requires ready { R.ready readers.old (length model.now.vars) }
    requires first { vertex_of a.now ≡ vertex_at (graph_of model.now) first }
    requires second { vertex_of b.now ≡ vertex_at (graph_of model.now) second }
    ensures same { readers.new ≡ readers.old }
    ensures failed { result
        ≡ first_failed
        (true ∷ true ∷ true
        ∷ drop 3 (take 7 (merge_conditions (graph_of model.now) first second))) }
{
    if is_watched(model, second) {
        return Some(4);
    }
    if one_cancels(second, a.edges.as_slice()) {
        return Some(5);
    }
    if !other_edges_are_calm(model, readers, a, b) {
        return Some(6);
    }
    if !notes_stay(model, unseen, first, a, b) {
        return Some(7);
    }
    None
}

/// The first condition but that on the limits that fails, by its number from 1, in a model of which it is known whether
/// it is single urgent. The caller may know whether the second vertex acts unseen.
pub(crate) fn failed_before_limits<R: ReadsWritten>(
    model: &Model,
    single: bool,
    unseen: Option<bool>,
    readers: &mut R,
    first: usize,
    second: usize,
) -> Option<u8>
    requires single { single ≡ single_urgent (graph_of model.now) }
    requires unseen { UnseenIsRight unseen (graph_of model.now)
        (vertex_at (graph_of model.now) second) }
    requires ready { R.ready readers.old (length model.now.vars) }
    ensures same { readers.new ≡ readers.old }
    ensures failed { result
        ≡ first_failed (take 7 (merge_conditions (graph_of model.now) first second)) }
{
    let vertices = model.vertices.as_slice();
    let Some(a) = vertices.get(first) else {
        return Some(1);
    };
    let Some(b) = vertices.get(second) else {
        return Some(1);
    };
    if first == second || !leads_at_once(a, second) {
        return Some(1);
    }
    if plain_urgent(b).is_some() {
        return Some(2);
    }
    if !single {
        return Some(3);
    }
    failed_later(model, unseen, readers, first, second, a, b)
}
