//! What a model's variables take under given ranges, collected from those of its changes and edges that are looked at.
#![tactic(auto, using(crate::proofs::RestoredRanges::restores_through))]

ghost use Rattle.std.specs.Prelude.{◌≡◌, length, cond, true, [], ◌∷◌, ◌++◌, map, drop, OnOk, IfOk};
ghost use Rattle.std.specs.List.{flat_map};
ghost use Rattle.model_core.specs.EventGraph.{Location};
ghost use Rattle.model_core.specs.Run.Step.{vertex_at};
ghost use Rattle.model_core.specs.Rules.BoundsOf.{bounds_under};
ghost use Rattle.model_core.specs.Code.Views.{graph_of, expression_of, location_of, change_of, edge_of, vertex_of};
ghost use Rattle.model_core.specs.Ranges.OtherRanges.{with_ranges};
ghost use Rattle.model_core.specs.Ranges.Refined.{refined};
ghost use Rattle.model_core.specs.Ranges.Incoming.{incoming};
ghost use Rattle.range_infer.specs.Inner.RangesLeft.{variables_left, StaysLeft};
ghost use Rattle.range_infer.specs.Inner.PartReads.{each_reads, set_reads, carried_reads, parts_read};
ghost use Rattle.range_infer.specs.Inner.Readers.{one_at, readers_in};
ghost use Rattle.range_infer.specs.Inner.LookedAt.{assigned_seen, change_seen, edge_seen, vertex_seen, incoming_seen, vertex_part_seen, part_seen, TakesAgain};

use crate::bounds_left::bounds_where;
use crate::moved_ranges::moved_ranges;
use crate::part_reads::{EdgeReads, ValueReads, VertexReads, part_count};
use crate::parts_looked_at::{Look, looks_at, looks_at_one};
use crate::postfix_bounds::value_bounds;
use crate::ranges_left::RangesLeft;
use crate::readers::{PartPlace, are_few, readers_of_moved};
use crate::refinement::restore_ranges;
use crate::rounds::copied;
use model_core::{Change, Edge, Expr, Incoming, Model, Target, VarRange, Vertex};
use range_bounds::choice_bounds;
use sig_base::{List, NoMemory};
use std::alloc::Global;

/// Adds what the variable takes of the value at this place, if there is one that is looked at.
fn add_value(
    out: &mut Vec<Incoming>,
    left: &mut RangesLeft,
    look: &Look,
    variable: usize,
    values: &[Expr],
    reads: &[ValueReads],
    place: usize,
) -> Result<(), NoMemory>
    requires reads { reads.now ≡ each_reads (map expression_of values.now) }
    ensures out { OnOk result
        (out.new.items
        ≡ out.old.items
        ++ assigned_seen look.now.all look.now.moved.now (variables_left left.old) (variable ∷ [])
        (drop place (map expression_of values.now))) }
    ensures left { OnOk result (StaysLeft left.old left.new) }
{
    if place < values.len() {
        let value = &values[place];
        let read = &reads[place];
        if looks_at(look, read.vars.as_slice()) {
            let bounds = value_bounds(left, value, read.postfix.as_slice())?;
            out.push(Incoming { variable, bounds })?;
        }
    }
    Ok(())
}

/// Adds what targets take of the values beside them, if one of these is looked at.
// After the first round few are. So values that aren't are passed over together.
fn add_targets(
    out: &mut Vec<Incoming>,
    left: &mut RangesLeft,
    look: &Look,
    targets: &[Target],
    values: &[Expr],
    reads: &[ValueReads],
) -> Result<(), NoMemory>
    requires reads { reads.now ≡ each_reads (map expression_of values.now) }
    ensures out { OnOk result
        (out.new.items
        ≡ out.old.items
        ++ assigned_seen look.now.all look.now.moved.now (variables_left left.old)
        (map (λ (l : Location). l.variable) (map location_of targets.now))
        (map expression_of values.now)) }
    ensures left { OnOk result (StaysLeft left.old left.new) }
{
    if !looks_at_one(look, reads) {
        return Ok(());
    }
    for (place, target) in targets.iter().enumerate() {
        add_value(out, left, look, target.var, values, reads, place)?;
    }
    Ok(())
}

/// Adds what parameters take of the values beside them.
fn add_parameters(
    out: &mut Vec<Incoming>,
    left: &mut RangesLeft,
    look: &Look,
    params: &[usize],
    values: &[Expr],
    reads: &[ValueReads],
) -> Result<(), NoMemory>
    requires reads { reads.now ≡ each_reads (map expression_of values.now) }
    ensures out { OnOk result
        (out.new.items
        ≡ out.old.items
        ++ assigned_seen look.now.all look.now.moved.now (variables_left left.old) params.now
        (map expression_of values.now)) }
    ensures left { OnOk result (StaysLeft left.old left.new) }
{
    for (place, param) in params.iter().enumerate() {
        add_value(out, left, look, *param, values, reads, place)?;
    }
    Ok(())
}

/// Adds what a change sets or draws.
fn add_change(
    out: &mut Vec<Incoming>,
    left: &mut RangesLeft,
    look: &Look,
    change: &Change,
    reads: &[ValueReads],
) -> Result<(), NoMemory>
    requires reads { reads.now ≡ set_reads (change_of change.now) }
    ensures out { OnOk result
        (out.new.items
        ≡ out.old.items
        ++ change_seen (graph_of left.old.model.now) look.now.all look.now.moved.now
        (variables_left left.old) (change_of change.now)) }
    ensures left { OnOk result (StaysLeft left.old left.new) }
{
    match change {
        Change::Set { targets, values } => {
            let targets = targets.as_slice();
            add_targets(out, left, look, targets, values.as_slice(), reads)
        }
        Change::Draw {
            target,
            stream: _,
            choice,
        } => {
            if look.all {
                let bounds = choice_bounds(left.model, choice);
                let variable = target.var;
                out.push(Incoming { variable, bounds })?;
            }
            Ok(())
        }
    }
}

/// Adds what the parameters of the vertex take to which an edge leads, where its condition is true, if it can be.
fn add_carried(
    out: &mut Vec<Incoming>,
    left: &mut RangesLeft,
    look: &Look,
    edge: &Edge,
    reads: &[ValueReads],
) -> Result<(), NoMemory>
    requires reads { reads.now ≡ each_reads (map expression_of edge.now.values) }
    ensures out { OnOk result
        (out.new.items
        ≡ out.old.items
        ++ cond (bounds_under refined (variables_left left.old)
        (expression_of edge.now.condition)).can_true
        (assigned_seen look.now.all look.now.moved.now
        (refined (expression_of edge.now.condition) true (variables_left left.old))
        (vertex_at (graph_of left.old.model.now) edge.now.target).parameters
        (map expression_of edge.now.values)) []) }
    ensures left { OnOk result (StaysLeft left.old left.new) }
{
    let replaced = left.replaced.len();
    let condition = bounds_where(left, &edge.condition, true)?;
    if condition.can_true {
        let params = left.model.parameters_at(edge.target);
        add_parameters(out, left, look, params, edge.values.as_slice(), reads)?;
    }
    restore_ranges(left, replaced);
    Ok(())
}

/// Adds what an edge carries, if it schedules and carries something that is looked at: all of it where its condition is.
fn add_edge(
    out: &mut Vec<Incoming>,
    left: &mut RangesLeft,
    look: &Look,
    edge: &Edge,
    reads: &EdgeReads,
) -> Result<(), NoMemory>
    requires reads { reads.now ≡ carried_reads (edge_of edge.now) }
    ensures out { OnOk result
        (out.new.items
        ≡ out.old.items
        ++ edge_seen (graph_of left.old.model.now) look.now.all look.now.moved.now
        (variables_left left.old) (edge_of edge.now)) }
    ensures left { OnOk result (StaysLeft left.old left.new) }
{
    if edge.form.is_scheduling() {
        let whole = Look {
            all: looks_at(look, reads.condition.as_slice()),
            moved: look.moved,
        };
        let reads = reads.values.as_slice();
        if looks_at_one(&whole, reads) {
            add_carried(out, left, &whole, edge, reads)?;
        }
    }
    Ok(())
}

fn add_changes(
    out: &mut Vec<Incoming>,
    left: &mut RangesLeft,
    look: &Look,
    changes: &[Change],
    reads: &[List<ValueReads>],
) -> Result<(), NoMemory>
    requires reads { reads.now ≡ map set_reads (map change_of changes.now) }
    ensures out { OnOk result
        (out.new.items
        ≡ out.old.items
        ++ flat_map (change_seen (graph_of left.old.model.now) look.now.all look.now.moved.now
        (variables_left left.old)) (map change_of changes.now)) }
    ensures left { OnOk result (StaysLeft left.old left.new) }
{
    for place in 0..changes.len() {
        add_change(out, left, look, &changes[place], reads[place].as_slice())?;
    }
    Ok(())
}

fn add_edges(
    out: &mut Vec<Incoming>,
    left: &mut RangesLeft,
    look: &Look,
    edges: &[Edge],
    reads: &[EdgeReads],
) -> Result<(), NoMemory>
    requires reads { reads.now ≡ map carried_reads (map edge_of edges.now) }
    ensures out { OnOk result
        (out.new.items
        ≡ out.old.items
        ++ flat_map (edge_seen (graph_of left.old.model.now) look.now.all look.now.moved.now
        (variables_left left.old)) (map edge_of edges.now)) }
    ensures left { OnOk result (StaysLeft left.old left.new) }
{
    for place in 0..edges.len() {
        add_edge(out, left, look, &edges[place], &reads[place])?;
    }
    Ok(())
}

fn add_vertex(
    out: &mut Vec<Incoming>,
    left: &mut RangesLeft,
    look: &Look,
    vertex: &Vertex,
    reads: &VertexReads,
) -> Result<(), NoMemory>
    requires reads { reads.now ≡ parts_read (vertex_of vertex.now) }
    ensures out { OnOk result
        (out.new.items
        ≡ out.old.items
        ++ vertex_seen (graph_of left.old.model.now) look.now.all look.now.moved.now
        (variables_left left.old) (vertex_of vertex.now)) }
    ensures left { OnOk result (StaysLeft left.old left.new) }
{
    let changes = vertex.changes.as_slice();
    add_changes(out, left, look, changes, reads.sets.as_slice())?;
    let edges = vertex.edges.as_slice();
    add_edges(out, left, look, edges, reads.carried.as_slice())
}

fn add_vertices(
    out: &mut Vec<Incoming>,
    left: &mut RangesLeft,
    look: &Look,
    vertices: &[Vertex],
    reads: &[VertexReads],
) -> Result<(), NoMemory>
    requires reads { reads.now ≡ map parts_read (map vertex_of vertices.now) }
    ensures out { OnOk result
        (out.new.items
        ≡ out.old.items
        ++ flat_map (vertex_seen (graph_of left.old.model.now) look.now.all look.now.moved.now
        (variables_left left.old)) (map vertex_of vertices.now)) }
    ensures left { OnOk result (StaysLeft left.old left.new) }
{
    for place in 0..vertices.len() {
        add_vertex(out, left, look, &vertices[place], &reads[place])?;
    }
    Ok(())
}

/// Adds what the change at this place sets or draws, if there is one.
fn add_change_at(
    out: &mut Vec<Incoming>,
    left: &mut RangesLeft,
    look: &Look,
    changes: &[Change],
    reads: &[List<ValueReads>],
    place: usize,
) -> Result<(), NoMemory>
    requires reads { reads.now ≡ map set_reads (map change_of changes.now) }
    ensures out { OnOk result
        (out.new.items
        ≡ out.old.items
        ++ flat_map (change_seen (graph_of left.old.model.now) look.now.all look.now.moved.now
        (variables_left left.old)) (one_at place (map change_of changes.now))) }
    ensures left { OnOk result (StaysLeft left.old left.new) }
{
    if place < changes.len() {
        add_change(out, left, look, &changes[place], reads[place].as_slice())?;
    }
    Ok(())
}

/// Adds what the edge at this place carries, if there is one.
fn add_edge_at(
    out: &mut Vec<Incoming>,
    left: &mut RangesLeft,
    look: &Look,
    edges: &[Edge],
    reads: &[EdgeReads],
    place: usize,
) -> Result<(), NoMemory>
    requires reads { reads.now ≡ map carried_reads (map edge_of edges.now) }
    ensures out { OnOk result
        (out.new.items
        ≡ out.old.items
        ++ flat_map (edge_seen (graph_of left.old.model.now) look.now.all look.now.moved.now
        (variables_left left.old)) (one_at place (map edge_of edges.now))) }
    ensures left { OnOk result (StaysLeft left.old left.new) }
{
    if place < edges.len() {
        add_edge(out, left, look, &edges[place], &reads[place])?;
    }
    Ok(())
}

fn add_vertex_part(
    out: &mut Vec<Incoming>,
    left: &mut RangesLeft,
    look: &Look,
    vertex: &Vertex,
    reads: &VertexReads,
    part: PartPlace,
) -> Result<(), NoMemory>
    requires reads { reads.now ≡ parts_read (vertex_of vertex.now) }
    ensures out { OnOk result
        (out.new.items
        ≡ out.old.items
        ++ vertex_part_seen (graph_of left.old.model.now) look.now.all look.now.moved.now
        (variables_left left.old) part (vertex_of vertex.now)) }
    ensures left { OnOk result (StaysLeft left.old left.new) }
{
    if part.is_edge {
        let edges = vertex.edges.as_slice();
        add_edge_at(out, left, look, edges, reads.carried.as_slice(), part.place)
    } else {
        let changes = vertex.changes.as_slice();
        add_change_at(out, left, look, changes, reads.sets.as_slice(), part.place)
    }
}

/// Adds what is taken by the part at this place, if there is one.
fn add_part(
    out: &mut Vec<Incoming>,
    left: &mut RangesLeft,
    look: &Look,
    vertices: &[Vertex],
    reads: &[VertexReads],
    part: PartPlace,
) -> Result<(), NoMemory>
    requires reads { reads.now ≡ map parts_read (map vertex_of vertices.now) }
    ensures out { OnOk result
        (out.new.items
        ≡ out.old.items
        ++ part_seen (graph_of left.old.model.now) look.now.all look.now.moved.now
        (variables_left left.old) (map vertex_of vertices.now) part) }
    ensures left { OnOk result (StaysLeft left.old left.new) }
{
    let place = part.vertex;
    if place < vertices.len() {
        add_vertex_part(out, left, look, &vertices[place], &reads[place], part)?;
    }
    Ok(())
}

fn add_parts(
    out: &mut Vec<Incoming>,
    left: &mut RangesLeft,
    look: &Look,
    vertices: &[Vertex],
    reads: &[VertexReads],
    parts: &[PartPlace],
) -> Result<(), NoMemory>
    requires reads { reads.now ≡ map parts_read (map vertex_of vertices.now) }
    ensures out { OnOk result
        (out.new.items
        ≡ out.old.items
        ++ flat_map (part_seen (graph_of left.old.model.now) look.now.all look.now.moved.now
        (variables_left left.old) (map vertex_of vertices.now)) parts.now) }
    ensures left { OnOk result (StaysLeft left.old left.new) }
{
    for part in parts {
        add_part(out, left, look, vertices, reads, *part)?;
    }
    Ok(())
}

/// All of these ranges are left, and none is replaced.
fn all_left<'m>(
    alloc: Global,
    model: &'m Model,
    ranges: &[VarRange],
) -> Result<RangesLeft<'m>, NoMemory>
    requires many { length ranges.now ≡ length model.now.vars }
    ensures model { IfOk result (λ left. left.model.now ≡ model.now) }
    ensures variables { IfOk result
        (λ left. variables_left left ≡ with_ranges (graph_of model.now).variables ranges.now) }
{
    Ok(RangesLeft {
        model,
        ranges: copied(alloc, ranges)?,
        replaced: Vec::new(alloc),
    })
}

/// What a model's variables take under these ranges, one for each variable, by the parts that are looked at.
fn incoming_seen(
    alloc: Global,
    model: &Model,
    reads: &[VertexReads],
    ranges: &[VarRange],
    look: &Look,
) -> Result<Vec<Incoming>, NoMemory>
    requires many { length ranges.now ≡ length model.now.vars }
    requires reads { reads.now ≡ map parts_read (map vertex_of model.now.vertices) }
    ensures { IfOk result
        (λ takes. takes.items
        ≡ incoming_seen (graph_of model.now) look.now.all look.now.moved.now ranges.now) }
{
    let mut left = all_left(alloc, model, ranges)?;
    let mut out = Vec::new(alloc);
    let vertices = model.vertices.as_slice();
    add_vertices(&mut out, &mut left, look, vertices, reads)?;
    Ok(out)
}

/// What a model's variables take under these ranges, one for each variable, by those of these parts that are looked at.
fn taken_by(
    alloc: Global,
    model: &Model,
    reads: &[VertexReads],
    ranges: &[VarRange],
    look: &Look,
    parts: &[PartPlace],
) -> Result<Vec<Incoming>, NoMemory>
    requires many { length ranges.now ≡ length model.now.vars }
    requires reads { reads.now ≡ map parts_read (map vertex_of model.now.vertices) }
    ensures { IfOk result
        (λ takes. takes.items
        ≡ flat_map (part_seen (graph_of model.now) look.now.all look.now.moved.now
        (with_ranges (graph_of model.now).variables ranges.now)
        (graph_of model.now).vertices) parts.now) }
{
    let mut left = all_left(alloc, model, ranges)?;
    let mut out = Vec::new(alloc);
    let vertices = model.vertices.as_slice();
    add_parts(&mut out, &mut left, look, vertices, reads, parts)?;
    Ok(out)
}

/// All that a model's variables take under these ranges, one for each variable, where its parts read this.
pub(crate) fn incoming(
    alloc: Global,
    model: &Model,
    reads: &[VertexReads],
    ranges: &[VarRange],
) -> Result<Vec<Incoming>, NoMemory>
    requires many { length ranges.now ≡ length model.now.vars }
    requires reads { reads.now ≡ map parts_read (map vertex_of model.now.vertices) }
    ensures { IfOk result (λ all. all.items ≡ incoming (graph_of model.now) ranges.now) }
{
    let look = Look {
        all: true,
        moved: &[],
    };
    incoming_seen(alloc, model, reads, ranges, &look)
}

/// What a model's variables take, where their ranges were these and are those now, by the parts that read one that moved.
// Mostly these are few, and the lists of the variables that moved have them. Else all parts are gone through.
pub(crate) fn taken_by_moved_readers(
    alloc: Global,
    model: &Model,
    reads: &[VertexReads],
    readers: &[List<PartPlace>],
    old: &[VarRange],
    new: &[VarRange],
) -> Result<Vec<Incoming>, NoMemory>
    requires many_old { length old.now ≡ length model.now.vars }
    requires many { length new.now ≡ length model.now.vars }
    requires reads { reads.now ≡ map parts_read (map vertex_of model.now.vertices) }
    requires readers { readers.now ≡ readers_in (length model.now.vars) reads.now }
    ensures { IfOk result (λ takes. TakesAgain (graph_of model.now) old.now new.now takes.items) }
{
    let moved = moved_ranges(alloc, old, new)?;
    let look = Look {
        all: false,
        moved: moved.as_slice(),
    };
    if are_few(look.moved, readers, part_count(reads)) {
        let parts = readers_of_moved(alloc, look.moved, readers)?;
        taken_by(alloc, model, reads, new, &look, parts.as_slice())
    } else {
        incoming_seen(alloc, model, reads, new, &look)
    }
}
