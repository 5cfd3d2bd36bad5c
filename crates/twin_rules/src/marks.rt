//! Marks on vertices: on those that edges lead to, and on those that are watched or cancelled.

ghost use Rattle.std.specs.Prelude.{◌≡◌, ◌<◌, ◌==◌, ◌&&◌, ◌||◌, ℕ, false, map};
ghost use Rattle.std.specs.List.{list_any};
ghost use Rattle.sig_base.specs.declared.limits.TheConstants.{VERTICES_MAX as LIMIT};
ghost use Rattle.model_core.specs.Run.History.{watches};
ghost use Rattle.model_core.specs.Code.Views.{graph_of, edge_of, vertex_of, watched_of};
ghost use Rattle.twin_rules.specs.Inner.ComparedPairs.{place_before};
ghost use Rattle.twin_rules.specs.Inner.LedTo.{MarksTargets};
ghost use Rattle.twin_rules.specs.Inner.MarkedVertices.{has_mark, marks_at, one_marks, is_barred};

use crate::pair_search::place_before;
use model_core::{Edge, Model, Vertex, Watch};
use sig_base::VERTICES_MAX;

/// Marks on vertices. A vertex past the limit on vertices counts as marked.
#[derive(Drop)]
pub(crate) struct Marks {
    marks: [bool; VERTICES_MAX],
}

impl Marks {
    /// No vertex is marked.
    pub(crate) fn none() -> Marks
        ensures { (x : ℕ) → x < LIMIT → has_mark result x ≡ false }
    {
        Marks {
            marks: [false; VERTICES_MAX],
        }
    }

    /// Whether the vertex is marked.
    pub(crate) fn has(&self, vertex: usize) -> bool
        ensures { result ≡ has_mark self.now vertex }
    {
        match self.marks.get(vertex) {
            Some(marked) => *marked,
            None => true,
        }
    }

    /// Marks a vertex.
    fn mark(&mut self, vertex: usize)
        ensures { (x : ℕ) → has_mark self.new x ≡ (has_mark self.old x || (vertex == x)) }
    {
        if vertex < VERTICES_MAX {
            self.marks[vertex] = true;
        }
    }

    /// Marks the target of an edge, or only where the edge cancels its events.
    fn mark_target(&mut self, cancelled: bool, edge: &Edge)
        ensures { (x : ℕ)
            → has_mark self.new x
            ≡ (has_mark self.old x || marks_at cancelled x (edge_of edge.now)) }
    {
        if !cancelled || edge.form.is_cancelling() {
            self.mark(edge.target);
        }
    }

    /// Marks the targets of edges, or only of those that cancel their events.
    fn mark_targets(&mut self, cancelled: bool, edges: &[Edge])
        ensures { (x : ℕ)
            → has_mark self.new x
            ≡ (has_mark self.old x || list_any (marks_at cancelled x) (map edge_of edges.now)) }
    {
        for edge in edges {
            self.mark_target(cancelled, edge);
        }
    }

    /// Marks the targets of the edges of vertices, or only of those that cancel their events.
    fn mark_all(&mut self, cancelled: bool, vertices: &[Vertex])
        ensures { (x : ℕ)
            → has_mark self.new x
            ≡ (has_mark self.old x
            || list_any (one_marks cancelled x) (map vertex_of vertices.now)) }
    {
        for vertex in vertices {
            self.mark_targets(cancelled, vertex.edges.as_slice());
        }
    }

    /// Marks what is watched, where it is a vertex.
    fn mark_item(&mut self, item: &Watch)
        ensures { (x : ℕ)
            → has_mark self.new x ≡ (has_mark self.old x || watches x (watched_of item.now)) }
    {
        match item {
            Watch::Variable { var: _ } => {}
            Watch::Event { vertex } => self.mark(*vertex),
        }
    }

    /// Marks the vertices that are watched.
    fn mark_watched(&mut self, watch: &[Watch])
        ensures { (x : ℕ)
            → has_mark self.new x
            ≡ (has_mark self.old x || list_any (watches x) (map watched_of watch.now)) }
    {
        for item in watch {
            self.mark_item(item);
        }
    }

    /// The vertices that are watched or whose events are cancelled.
    pub(crate) fn barred(model: &Model) -> Marks
        ensures { (x : ℕ) → x < LIMIT → has_mark result x ≡ is_barred (graph_of model.now) x }
    {
        let mut marks = Marks::none();
        marks.mark_watched(model.watch.as_slice());
        marks.mark_all(true, model.vertices.as_slice());
        marks
    }

    /// The vertices to which one of the edges leads.
    pub(crate) fn target_marks(edges: &[Edge]) -> Marks
        ensures { (x : ℕ) → has_mark result x ≡ false
            → list_any (marks_at false x) (map edge_of edges.now) ≡ false }
    {
        let mut marks = Marks::none();
        marks.mark_targets(false, edges);
        marks
    }

    /// The vertices to which an edge leads.
    pub(crate) fn targets(model: &Model) -> Marks
        ensures { MarksTargets (graph_of model.now) result }
    {
        let mut marks = Marks::none();
        marks.mark_all(false, model.vertices.as_slice());
        marks
    }

    /// Gives each vertex but the one at `gone` its mark, where it is when that one is taken away.
    fn forget(&mut self, gone: usize)
        ensures { (x : ℕ) → has_mark self.new x ≡ has_mark self.old (place_before gone x) }
    {
        for place in 0..VERTICES_MAX {
            self.marks[place] = self.has(place_before(gone, place));
        }
    }

    /// Follows the marks when `gone` is taken away and `keep` takes its mark.
    pub(crate) fn fuse(&mut self, keep: usize, gone: usize)
        ensures { (x : ℕ)
            → has_mark self.new x
            ≡ (has_mark self.old (place_before gone x) || (has_mark self.old gone && (keep == x))) }
    {
        let marked = self.has(gone);
        self.forget(gone);
        if marked {
            self.mark(keep);
        }
    }
}
