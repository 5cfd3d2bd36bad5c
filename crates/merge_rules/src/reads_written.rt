//! Whether one of some edges reads what a vertex writes, found in two ways: by a walk over the edges for each variable that is
//! written, which takes no memory, or by counts of uses, for which each edge is walked twice however many variables are written.

ghost use Rattle.std.specs.Prelude.{◌≡◌, ◌+◌, ◌^◌, ◌<◌, ◌≤◌, ◌++◌, ℕ, map, length, slice_index, count_by};
ghost use Rattle.std.specs.List.{list_any};
ghost use Rattle.model_core.specs.Rules.Uses.{vertex_writes};
ghost use Rattle.model_core.specs.Code.Views.{edge_of, vertex_of};
ghost use Rattle.model_facts.specs.NothingCounted.{NothingCounted};
ghost use Rattle.merge_rules.specs.Inner.ReadingEdges.{reads_it, reads_one_of, counted, uncounted, is_read_by_counts};

use model_core::{Edge, Model, Vertex};
use sig_base::EDGES_MAX;
use use_analysis::{NumberTest, UseCounts, one_written_passes, reads_of_edge};

/// A way to find whether one of some edges reads what a vertex writes.
pub(crate) trait ReadsWritten {
    ghost use Rattle.std.specs.Prelude.{ℕ};

    // It serves a model with so many variables.
    ghost ready: { Self → ℕ → Type 0 };

    /// Whether one of these edges of the model, all before a place and all after it, reads a variable that the vertex writes.
    fn reads_written(
        &mut self,
        model: &Model,
        before: &[Edge],
        after: &[Edge],
        vertex: &Vertex,
    ) -> bool
        requires { ready self.old (length model.now.vars) }
        ensures is { result
            ≡ list_any (reads_one_of (vertex_writes (vertex_of vertex.now)))
            (map edge_of (before.now ++ after.now)) }
        ensures same { self.new ≡ self.old };
}

/// The way by walks.
#[derive(Drop)]
pub(crate) struct Walk;

impl ReadsWritten for Walk {
    ghost ready = { λ w variables. Unit {0} };

    fn reads_written(
        &mut self,
        _model: &Model,
        before: &[Edge],
        after: &[Edge],
        vertex: &Vertex,
    ) -> bool {
        walked(before, after, vertex)
    }
}

impl ReadsWritten for UseCounts {
    ghost ready = { λ counts variables. NothingCounted variables counts };

    fn reads_written(
        &mut self,
        model: &Model,
        before: &[Edge],
        after: &[Edge],
        vertex: &Vertex,
    ) -> bool {
        if before.is_empty() && after.is_empty() {
            return false;
        }
        if before.len() > EDGES_MAX || after.len() > EDGES_MAX {
            return walked(before, after, vertex);
        }
        add_edges(self, before);
        add_edges(self, after);
        let read = one_written_passes(
            &Counted {
                counts: self,
                variables: model.vars.len(),
                before,
                after,
            },
            vertex,
        );
        take_edges(self, before);
        take_edges(self, after);
        read
    }
}

// ---- by walks

/// Whether an edge reads a variable.
#[derive(Drop)]
struct ReadBy<'e> {
    edge: &'e Edge,
}

impl NumberTest for ReadBy<'_> {
    ghost test = { λ r v. reads_it v (edge_of r.edge.now) };

    fn passes(&self, number: usize) -> bool {
        reads_of_edge(self.edge, number)
    }
}

fn one_walked(edges: &[Edge], vertex: &Vertex) -> bool
    ensures { result
        ≡ list_any (reads_one_of (vertex_writes (vertex_of vertex.now))) (map edge_of edges.now) }
{
    for edge in edges {
        if one_written_passes(&ReadBy { edge }, vertex) {
            return true;
        }
    }
    false
}

fn walked(before: &[Edge], after: &[Edge], vertex: &Vertex) -> bool
    ensures { result
        ≡ list_any (reads_one_of (vertex_writes (vertex_of vertex.now)))
        (map edge_of (before.now ++ after.now)) }
{
    one_walked(before, vertex) || one_walked(after, vertex)
}

// ---- by counts

/// Whether one of these edges reads a variable, where they alone are counted, of so many variables at least.
#[derive(Drop)]
struct Counted<'e> {
    counts: &'e UseCounts,
    variables: usize,
    before: &'e [Edge],
    after: &'e [Edge],
}

impl NumberTest for Counted<'_> {
    ghost test = { λ c v. is_read_by_counts c.variables c.counts.now.readers (map edge_of c.before.now) (map edge_of c.after.now) v };

    fn passes(&self, number: usize) -> bool {
        if number < self.variables {
            self.counts.readers(number) > 0
        } else {
            one_reads(self.before, number) || one_reads(self.after, number)
        }
    }
}

fn one_reads(edges: &[Edge], var: usize) -> bool
    ensures { result ≡ list_any (reads_it var) (map edge_of edges.now) }
{
    for edge in edges {
        if reads_of_edge(edge, var) {
            return true;
        }
    }
    false
}

fn add_edges(counts: &mut UseCounts, edges: &[Edge])
    requires { (v : ℕ) → slice_index counts.old.readers v + length edges.now < 2 ^ 32 }
    ensures { counts.new
        ≡ record counts.old { readers = counted (map edge_of edges.now) counts.old.readers } }
{
    for edge in edges {
        counts.add_edge(edge);
    }
}

fn take_edges(counts: &mut UseCounts, edges: &[Edge])
    requires { (v : ℕ) → v < length counts.old.readers
        → count_by (reads_it v) (map edge_of edges.now) ≤ slice_index counts.old.readers v }
    ensures { counts.new
        ≡ record counts.old { readers = uncounted (map edge_of edges.now) counts.old.readers } }
{
    for edge in edges {
        counts.take_edge(edge);
    }
}
