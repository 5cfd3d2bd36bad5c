//! The search for the next twins: it remembers which pairs of vertices aren't alike. After a fuse it looks again only at pairs
//! of which a vertex has changed.

ghost use Rattle.std.specs.Prelude.{◌≡◌, ◌<◌, ◌≤◌, ◌||◌, ℕ, Some, map, true, false, cond, ◌==◌};
ghost use Rattle.std.specs.List.{list_any};
ghost use Rattle.model_core.specs.Rules.Merge.{leads_to};
ghost use Rattle.model_core.specs.EventGraph.{EventGraph};
ghost use Rattle.model_core.specs.Rules.MarkedPlaces.{place_without};
ghost use Rattle.model_core.specs.Rules.Fuse.{fused, first_twins};
ghost use Rattle.model_core.specs.Code.Views.{graph_of, edge_of};
ghost use Rattle.twin_rules.specs.Inner.LedTo.{NoneLeadsTo};
ghost use Rattle.twin_rules.specs.Inner.ComparedPairs.{is_before_pair, has_changed, was_compared, next_changed, SkipsUnchanged, NoneAlike, NoneAlikeBefore, place_before, some_leads};

use model_core::{Edge, Model};
use sig_base::VERTICES_MAX;

/// All pairs before this one were looked at, but for those of which a vertex has changed since then. Takes no memory: a
/// vertex past the limit on vertices counts as changed.
#[derive(Drop)]
pub(crate) struct PairSearch {
    keep: usize,
    gone: usize,
    changed: [bool; VERTICES_MAX],
    /// For each place one from it on that isn't after the next vertex that has changed.
    next: [u16; VERTICES_MAX],
}

/// Whether one of the edges leads to the vertex at this place.
fn one_leads(target: usize, edges: &[Edge]) -> bool
    ensures { result ≡ list_any (leads_to target) (map edge_of edges.now) }
{
    for edge in edges {
        if edge.target == target {
            return true;
        }
    }
    false
}

/// Whether an edge of the vertex at the first place leads to the one at the second.
fn some_leads(model: &Model, vertex: usize, target: usize) -> bool
    ensures { result ≡ some_leads (graph_of model.now) vertex target }
{
    match model.vertices.as_slice().get(vertex) {
        Some(vertex) => one_leads(target, vertex.edges.as_slice()),
        None => false,
    }
}

/// The place that a vertex had before the one at `gone` was taken away.
pub(crate) fn place_before(gone: usize, place: usize) -> usize
    requires { place < VERTICES_MAX }
    ensures { result ≡ place_before gone place }
{
    if place < gone { place } else { place + 1 }
}

impl PairSearch {
    /// No pair was looked at, and each vertex counts as changed.
    pub(crate) fn none() -> PairSearch
        ensures keep { result.keep ≡ 0 }
        ensures gone { result.gone ≡ 0 }
        ensures changed { (k : ℕ) → has_changed result.changed k ≡ true }
        ensures skips { SkipsUnchanged result }
    {
        PairSearch {
            keep: 0,
            gone: 0,
            changed: [true; VERTICES_MAX],
            next: [0; VERTICES_MAX],
        }
    }

    /// Whether the vertex has changed since the pairs were looked at.
    pub(crate) fn has_changed(&self, vertex: usize) -> bool
        ensures { result ≡ has_changed self.now.changed vertex }
    {
        match self.changed.get(vertex) {
            Some(changed) => *changed,
            None => true,
        }
    }

    fn is_before_pair(&self, x: usize, y: usize) -> bool
        ensures { result ≡ is_before_pair self.now.keep self.now.gone x y }
    {
        x < self.keep || (x == self.keep && y < self.gone)
    }

    /// A place from which on vertices are to be looked at beside this one: all from the given place up to there were.
    pub(crate) fn next(&self, keep: usize, from: usize) -> usize
        requires skips { SkipsUnchanged self.now }
        ensures at_least { from ≤ result }
        ensures asked { (y : ℕ) → from ≤ y → y < result → was_compared self.now keep y ≡ true }
    {
        if keep < self.keep && !self.has_changed(keep) {
            self.next_changed(from).max(from)
        } else {
            from
        }
    }

    /// A place that isn't after the next vertex, from this place on, that has changed.
    fn next_changed(&self, from: usize) -> usize
        ensures { result ≡ next_changed self.now from }
    {
        match self.next.get(from) {
            Some(next) => *next as usize,
            None => from,
        }
    }

    /// The next vertex that has changed, from this place on, where `next` is the next one after it.
    fn next_from(&self, place: usize, next: usize) -> usize
        ensures { result ≡ cond (has_changed self.now.changed place) place next }
    {
        if self.has_changed(place) { place } else { next }
    }

    /// Finds the next vertex that has changed, from each place on.
    fn find_next(&mut self)
        ensures keep { self.new.keep ≡ self.old.keep }
        ensures gone { self.new.gone ≡ self.old.gone }
        ensures changed { self.new.changed ≡ self.old.changed }
        ensures skips { SkipsUnchanged self.new }
    {
        let mut next = VERTICES_MAX;
        for step in 0..VERTICES_MAX {
            let place = VERTICES_MAX - 1 - step;
            next = self.next_from(place, next);
            self.next[place] = next as u16;
        }
    }

    /// All pairs before this one were looked at just now.
    fn up_to(&mut self, keep: usize, gone: usize)
        ensures keep { self.new.keep ≡ keep }
        ensures gone { self.new.gone ≡ gone }
    {
        self.keep = keep;
        self.gone = gone;
        self.changed = [false; VERTICES_MAX];
    }

    /// Whether the vertex has changed, or changes when `gone` is taken away. If `led` is false, no edge leads to `gone`.
    fn changes(&self, model: &Model, vertex: usize, gone: usize, led: bool) -> bool
        requires { led ≡ false → NoneLeadsTo (graph_of model.now) gone }
        ensures { result
            ≡ (has_changed self.now.changed vertex || some_leads (graph_of model.now) vertex gone) }
    {
        self.has_changed(vertex) || (led && some_leads(model, vertex, gone))
    }

    /// Marks the vertices from which an edge leads to `gone`, and gives the others the marks that they had, each at the
    /// place that it has when `gone` is taken away.
    fn mark(&mut self, model: &Model, gone: usize, led: bool)
        requires { led ≡ false → NoneLeadsTo (graph_of model.now) gone }
        ensures keep { self.new.keep ≡ self.old.keep }
        ensures gone { self.new.gone ≡ self.old.gone }
        ensures changed { (k : ℕ)
            → has_changed self.new.changed k
            ≡ (has_changed self.old.changed (place_before gone k)
            || some_leads (graph_of model.now) (place_before gone k) gone) }
    {
        for place in 0..VERTICES_MAX {
            self.changed[place] = self.changes(model, place_before(gone, place), gone, led);
        }
    }

    /// The place that the pair has when `gone` is taken away.
    fn move_up(&mut self, gone: usize)
        ensures keep { self.new.keep ≡ place_without gone self.old.keep }
        ensures gone { self.new.gone
            ≡ cond (self.old.keep == gone) 0 (place_without gone self.old.gone) }
        ensures changed { self.new.changed ≡ self.old.changed }
    {
        if self.keep == gone {
            self.gone = 0;
        } else if gone < self.gone {
            self.gone -= 1;
        }
        if gone < self.keep {
            self.keep -= 1;
        }
    }

    /// Counts all pairs before this one as looked at where it is known that they aren't alike, and else none.
    fn count_as_compared(&mut self, keep: usize, gone: usize, none_alike: bool)
        ensures { (g : EventGraph) → NoneAlike g self.old
            → (none_alike ≡ true → NoneAlikeBefore g (Some (keep, gone))) → NoneAlike g self.new }
    {
        if !none_alike {
            self.up_to(0, 0);
        } else if !self.is_before_pair(keep, gone) {
            self.up_to(keep, gone);
        }
    }

    /// Follows the model when its first twins, `keep` and `gone`, are fused. `none_alike` may say that no pair before them is alike;
    /// if `led` is false, no edge leads to `gone`.
    pub(crate) fn fuse(
        &mut self,
        model: &Model,
        keep: usize,
        gone: usize,
        led: bool,
        none_alike: bool,
    )
        requires asked { NoneAlike (graph_of model.now) self.old }
        requires found { first_twins (graph_of model.now) ≡ Some (keep, gone) }
        requires led { led ≡ false → NoneLeadsTo (graph_of model.now) gone }
        requires none_alike { none_alike ≡ true
            → NoneAlikeBefore (graph_of model.now) (Some (keep, gone)) }
        ensures asked { NoneAlike (fused (graph_of model.now) keep gone) self.new }
        ensures skips { SkipsUnchanged self.new }
        ensures changed { (x : ℕ) → has_changed self.new.changed x ≡ false
            → some_leads (graph_of model.now) (place_before gone x) gone ≡ false }
    {
        self.count_as_compared(keep, gone, none_alike);
        self.mark(model, gone, led);
        self.move_up(gone);
        self.find_next();
    }
}
