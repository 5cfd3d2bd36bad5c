//! Facts about a model while rules are applied to it: how long its canonical text is, whether that needs version 2, whether the
//! model is single urgent, and how long the lines of what each vertex does are.

ghost use Rattle.std.specs.Prelude.{◌≡◌, ℕ, List, ◌<◌, Some, None, length};
ghost use Rattle.model_core.specs.EventGraph.{EventGraph};
ghost use Rattle.model_core.specs.Run.Step.{vertex_at};
ghost use Rattle.model_core.specs.Text.Canonical.{version_line};
ghost use Rattle.model_core.specs.Text.VersionNeeded.{needs_version_two};
ghost use Rattle.model_core.specs.Rules.Drop.{dropped};
ghost use Rattle.model_core.specs.Rules.Prune.{pruned};
ghost use Rattle.model_core.specs.Rules.UrgentEdges.{single_urgent};
ghost use Rattle.model_core.specs.Code.Views.{graph_of};
ghost use Rattle.vertex_laws.specs.BodyLines.{body_lines};
ghost use Rattle.model_facts.specs.KnownLengths.{capped};
ghost use Rattle.model_facts.specs.FactsOfModel.{TextLengthIsRight, SingleIsRight, FactsAreRight, text_length};
ghost use Rattle.model_facts.specs.FactsAfterEdge.{in_64_bits, still_single};

use crate::bodies::Bodies;
use model_core::{Model, needs_version_two};
use model_print::{body_length, printed_length};
use range_bounds::single_urgent;
use std::alloc::Global;

/// How many bytes the line of its version has in a canonical text. Only a text of version 2 has that line.
pub fn version_length(version_two: bool) -> u64
    ensures { result ≡ length (version_line version_two) }
{
    if version_two { 11 } else { 0 }
}

/// How many bytes the lines of the changes and edges of the vertex at this place have, or 2^64 - 1 where they have more.
fn body_at(model: &Model, vertex: usize) -> u64
    requires { vertex < length model.now.vertices }
    ensures { result
        ≡ capped (length
        (body_lines (graph_of model.now) (vertex_at (graph_of model.now) vertex))) }
{
    body_length(&model.vertices.as_slice()[vertex], model)
}

/// What is known of a model beside itself. Nothing is known of where there is None.
#[derive(Drop)]
pub struct FactsOfModel {
    /// How many bytes its canonical text has after the line of its version.
    pub lines: Option<u64>,
    /// Whether only a text of version 2 can write it, so that its canonical text has that line.
    pub version_two: Option<bool>,
    /// Whether it is single urgent.
    pub single: Option<bool>,
    /// How many bytes the lines of the changes and edges of each vertex have.
    pub bodies: Bodies,
}

impl FactsOfModel {
    /// Nothing is known, which is so of each model, and of single vertices nothing will be kept.
    pub fn nothing() -> FactsOfModel
        ensures { (g : EventGraph) → FactsAreRight g result }
    {
        FactsOfModel {
            lines: None,
            version_two: None,
            single: None,
            bodies: Bodies::nothing(),
        }
    }

    /// Nothing is known yet. What is found of single vertices will be kept, for as many of them as there is memory.
    pub fn begin(alloc: Global) -> FactsOfModel
        ensures { (g : EventGraph) → FactsAreRight g result }
    {
        FactsOfModel {
            lines: None,
            version_two: None,
            single: None,
            bodies: Bodies::begin(alloc),
        }
    }

    /// Whether it is known that the model is single urgent without some of its vertices, or one of its edges, which it is where it
    /// was with them.
    pub fn single_without_parts(&self) -> Option<bool>
        ensures is { result ≡ still_single self.now.single }
        ensures dropped { (g : EventGraph) (vertices : List ℕ) → FactsAreRight g self.now
            → SingleIsRight (dropped g vertices) result }
        ensures pruned { (g : EventGraph) (vertex edge : ℕ) → FactsAreRight g self.now
            → SingleIsRight (pruned g vertex edge) result }
    {
        match self.single {
            Some(single) if single => Some(single),
            _ => None,
        }
    }

    /// What is known after a drop: that the model is single urgent, where it was.
    pub fn keep_single_after_drop(&mut self)
        ensures { (g : EventGraph) (vertices : List ℕ) → FactsAreRight g self.old
            → FactsAreRight (dropped g vertices) self.new }
    {
        self.single = self.single_without_parts();
        self.lines = None;
        self.version_two = None;
        self.bodies.forget();
    }

    /// Whether the model is single urgent, which is then known.
    pub fn find_single(&mut self, model: &Model) -> bool
        requires { FactsAreRight (graph_of model.now) self.old }
        ensures is { result ≡ single_urgent (graph_of model.now) }
        ensures facts { FactsAreRight (graph_of model.now) self.new }
    {
        if let Some(single) = self.single {
            return single;
        }
        let single = single_urgent(model);
        self.single = Some(single);
        single
    }

    /// Whether only a text of version 2 can write the model, which is then known.
    pub fn find_version(&mut self, model: &Model) -> bool
        requires { FactsAreRight (graph_of model.now) self.old }
        ensures is { result ≡ needs_version_two (graph_of model.now) }
        ensures kept { self.new.version_two ≡ Some result }
        ensures facts { FactsAreRight (graph_of model.now) self.new }
    {
        if let Some(version_two) = self.version_two {
            return version_two;
        }
        let version_two = needs_version_two(model);
        self.version_two = Some(version_two);
        version_two
    }

    /// How many bytes the canonical text of the model has, or None where that isn't known or they are 2^64 or more.
    pub fn text_length(&self) -> Option<u64>
        ensures is { result ≡ in_64_bits (text_length self.now) }
        ensures measured { (g : EventGraph) → FactsAreRight g self.now
            → TextLengthIsRight g result }
    {
        let version = version_length(self.version_two?);
        self.lines?.checked_add(version)
    }

    /// Finds how many bytes the canonical text of the model has, which is then known, unless they are 2^64 - 1 or more.
    fn measure(&mut self, model: &Model)
        requires { FactsAreRight (graph_of model.now) self.old }
        ensures { FactsAreRight (graph_of model.now) self.new }
    {
        let version = version_length(self.find_version(model));
        if self.lines.is_none() {
            let bytes = printed_length(model);
            if bytes < u64::MAX {
                self.lines = Some(bytes - version);
            }
        }
    }

    /// How many bytes the canonical text of the model has, which is then known, or None where they are 2^64 - 1 or more.
    pub fn find_bytes(&mut self, model: &Model) -> Option<u64>
        requires { FactsAreRight (graph_of model.now) self.old }
        ensures is { TextLengthIsRight (graph_of model.now) result }
        ensures facts { FactsAreRight (graph_of model.now) self.new }
    {
        self.measure(model);
        self.text_length()
    }

    /// How many bytes the lines of the changes and edges of the vertex at this place have, or 2^64 - 1 where they have more.
    /// That is then known, unless there is no memory to keep it.
    pub fn find_body(&mut self, model: &Model, vertex: usize) -> u64
        requires facts { FactsAreRight (graph_of model.now) self.old }
        requires there { vertex < length model.now.vertices }
        ensures is { result
            ≡ capped (length
            (body_lines (graph_of model.now) (vertex_at (graph_of model.now) vertex))) }
        ensures facts { FactsAreRight (graph_of model.now) self.new }
    {
        if let Some(bytes) = self.bodies.get(vertex) {
            return bytes;
        }
        let bytes = body_at(model, vertex);
        self.bodies.make_room(model.vertices.len());
        self.bodies.put(vertex, Some(bytes));
        bytes
    }
}
