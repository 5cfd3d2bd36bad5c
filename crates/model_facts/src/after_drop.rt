//! What is known of a model without vertices that are dropped: that it is single urgent, and how long its text is, where both were
//! known of it with them; and, where one vertex alone is dropped, how long the lines of what the others do are.

ghost use Rattle.std.specs.Prelude.{◌≡◌, None};
ghost use Rattle.std.specs.List.{list_any};
ghost use Rattle.model_core.specs.EventGraph.{EventGraph};
ghost use Rattle.model_core.specs.Run.Step.{vertex_at};
ghost use Rattle.model_core.specs.Text.VersionNeeded.{has_later_parts};
ghost use Rattle.model_core.specs.Rules.Conditions.{first_failed};
ghost use Rattle.model_core.specs.Rules.Drop.{drop_conditions, dropped};
ghost use Rattle.model_core.specs.Code.Views.{graph_of};
ghost use Rattle.model_facts.specs.FactsOfModel.{LinesAreRight, VersionIsRight, FactsAreRight};
ghost use Rattle.model_facts.specs.KnownLengths.{BodiesAreRight};
ghost use Rattle.model_facts.specs.FactsAfterEdge.{still_single};
ghost use Rattle.model_facts.specs.FactsAfterDrop.{bytes_with_vertex, bytes_with_vertices, lines_without, version_without, bodies_after_drop};

use crate::bodies::Bodies;
use crate::facts::FactsOfModel;
use edge_pruning::{dropping_one_leaves_lines, dropping_takes_lines};
use model_core::{Model, one_has_later_parts};
use model_print::vertex_length;
use std::slice::from_ref;

/// So many bytes with those of the lines of the vertex at this place, or None where it has no vertex or they are too many to
/// count.
fn bytes_with_vertex(model: &Model, bytes: u64, place: usize) -> Option<u64>
    ensures { result ≡ bytes_with_vertex (graph_of model.now) bytes place }
{
    let lines = vertex_length(model.vertices.as_slice().get(place)?, model);
    if lines == u64::MAX {
        return None;
    }
    bytes.checked_add(lines)
}

/// How many bytes the lines of the vertices at these places have, or None where a place has no vertex or they are too many to
/// count.
fn lines_length(model: &Model, vertices: &[usize]) -> Option<u64>
    ensures { result ≡ bytes_with_vertices (graph_of model.now) 0 vertices.now }
{
    let mut bytes: u64 = 0;
    for place in vertices {
        bytes = bytes_with_vertex(model, bytes, *place)?;
    }
    Some(bytes)
}

/// Whether the vertex at this place, where there is one, has parts that only a text of version 2 can write.
fn has_later_parts_at(model: &Model, vertex: usize) -> bool
    ensures { result ≡ has_later_parts (vertex_at (graph_of model.now) vertex) }
{
    match model.vertices.as_slice().get(vertex) {
        Some(vertex) => one_has_later_parts(from_ref(vertex)),
        None => false,
    }
}

/// Whether one of the vertices at these places has.
fn one_is_later(model: &Model, vertices: &[usize]) -> bool
    ensures { result
        ≡ list_any (λ k. has_later_parts (vertex_at (graph_of model.now) k)) vertices.now }
{
    for vertex in vertices {
        if has_later_parts_at(model, *vertex) {
            return true;
        }
    }
    false
}

/// How many bytes are left of so many without these vertices' lines, or None where that isn't known.
fn lines_without(model: &Model, lines: Option<u64>, vertices: &[usize]) -> Option<u64>
    requires { LinesAreRight (graph_of model.now) lines }
    ensures is { result ≡ lines_without (graph_of model.now) lines vertices.now }
    ensures right { first_failed (drop_conditions (graph_of model.now) vertices.now) ≡ None
        → LinesAreRight (dropped (graph_of model.now) vertices.now) result }
{
    dropping_takes_lines();
    lines?.checked_sub(lines_length(model, vertices)?)
}

/// Whether only a text of version 2 can write the model without these vertices, or None where that isn't known: where one of them
/// has parts that need one.
fn version_without(model: &Model, version_two: Option<bool>, vertices: &[usize]) -> Option<bool>
    requires { VersionIsRight (graph_of model.now) version_two }
    ensures is { result ≡ version_without (graph_of model.now) version_two vertices.now }
    ensures right { first_failed (drop_conditions (graph_of model.now) vertices.now) ≡ None
        → VersionIsRight (dropped (graph_of model.now) vertices.now) result }
{
    dropping_takes_lines();
    if one_is_later(model, vertices) {
        return None;
    }
    version_two
}

/// Turns what is known of the lengths of lines of each vertex into what is known after a drop of these.
fn keep_bodies_without(bodies: &mut Bodies, vertices: &[usize])
    ensures is { bodies.new ≡ bodies_after_drop bodies.old vertices.now }
    ensures are { (g : EventGraph) → BodiesAreRight g bodies.old
        → first_failed (drop_conditions g vertices.now) ≡ None
        → BodiesAreRight (dropped g vertices.now) bodies.new }
{
    dropping_one_leaves_lines();
    if vertices.len() == 1 {
        bodies.take_away(vertices[0]);
    } else {
        bodies.forget();
    }
}

/// Turns what is known of a model into what is known after a drop of these vertices. It is called before the drop.
pub fn keep_after_drop(model: &Model, facts: &mut FactsOfModel, vertices: &[usize])
    requires facts { FactsAreRight (graph_of model.now) facts.old }
    ensures lines { facts.new.lines
        ≡ lines_without (graph_of model.now) facts.old.lines vertices.now }
    ensures single { facts.new.single ≡ still_single facts.old.single }
    ensures version { facts.new.version_two
        ≡ version_without (graph_of model.now) facts.old.version_two vertices.now }
    ensures bodies { facts.new.bodies ≡ bodies_after_drop facts.old.bodies vertices.now }
    ensures facts { first_failed (drop_conditions (graph_of model.now) vertices.now) ≡ None
        → FactsAreRight (dropped (graph_of model.now) vertices.now) facts.new }
{
    facts.single = facts.single_without_parts();
    facts.lines = lines_without(model, facts.lines, vertices);
    facts.version_two = version_without(model, facts.version_two, vertices);
    keep_bodies_without(&mut facts.bodies, vertices);
}
