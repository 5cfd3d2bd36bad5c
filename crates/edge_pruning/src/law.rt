//! The laws of prune, settle and drop. The functions do nothing: what they ensure holds of all models.

ghost use Rattle.std.specs.Prelude.{◌≡◌, ◌↔◌, ℕ, ◌+◌, ◌<◌, true, false, None, List, [], ◌∷◌, ◌++◌, length, slice_index_or};
ghost use Rattle.std.specs.List.{flat_map, list_any, remove};
ghost use Rattle.model_core.specs.EventGraph.{EventGraph, EventVertex};
ghost use Rattle.model_core.specs.Run.Step.{no_vertex, vertex_at};
ghost use Rattle.model_core.specs.Run.Same.{Same};
ghost use Rattle.model_core.specs.Static.Reading.{IsValid};
ghost use Rattle.model_core.specs.Text.Canonical.{version_line, canonical, change_line, edge_line, vertex_lines};
ghost use Rattle.model_core.specs.Text.VersionNeeded.{has_later_parts, needs_version_two};
ghost use Rattle.model_core.specs.Rules.Conditions.{first_failed};
ghost use Rattle.model_core.specs.Rules.Prune.{prune_conditions, pruned, first_prune};
ghost use Rattle.model_core.specs.Rules.Settle.{settle_conditions, settled, first_settle};
ghost use Rattle.model_core.specs.Rules.MarkedPlaces.{is_marked};
ghost use Rattle.model_core.specs.Rules.Reached.{reached_marks, unreached};
ghost use Rattle.model_core.specs.Rules.LeastRelations.{Reachable};
ghost use Rattle.model_core.specs.Rules.Drop.{drop_conditions, dropped};
ghost use Rattle.model_core.specs.Rules.Merge.{leads_to, merged, merge_conditions};
ghost use Rattle.model_core.specs.Rules.PlacedEdges.{with_vertex};

use range_bounds::values_lie_in_bounds;
use round_trip::validity_is_by_parts;

/// Where no condition of prune fails on a valid model, the result is valid and means the same.
pub fn pruning_keeps_the_meaning()
    ensures valid { (g : EventGraph) (vertex edge : ℕ) → IsValid g
        → first_failed (prune_conditions g vertex edge) ≡ None
        → IsValid (pruned g vertex edge) }
    ensures same { (g : EventGraph) (vertex edge : ℕ) → IsValid g
        → first_failed (prune_conditions g vertex edge) ≡ None
        → Same g (pruned g vertex edge) }
{
    validity_is_by_parts();
    values_lie_in_bounds();
}

/// Where no condition of settle fails on a valid model, the result is valid and means the same.
pub fn settling_keeps_the_meaning()
    ensures valid { (g : EventGraph) (vertex edge : ℕ) → IsValid g
        → first_failed (settle_conditions g vertex edge) ≡ None
        → IsValid (settled g vertex edge) }
    ensures same { (g : EventGraph) (vertex edge : ℕ) → IsValid g
        → first_failed (settle_conditions g vertex edge) ≡ None
        → Same g (settled g vertex edge) }
{
    validity_is_by_parts();
    values_lie_in_bounds();
}

/// Where no condition of drop fails on a valid model, the result is valid and means the same, and all of its vertices can
/// be reached.
pub fn dropping_keeps_the_meaning()
    ensures valid { (g : EventGraph) (vertices : List ℕ) → IsValid g
        → first_failed (drop_conditions g vertices) ≡ None
        → IsValid (dropped g vertices) }
    ensures same { (g : EventGraph) (vertices : List ℕ) → IsValid g
        → first_failed (drop_conditions g vertices) ≡ None
        → Same g (dropped g vertices) }
    ensures all_reached { (g : EventGraph) (vertices : List ℕ) → IsValid g
        → first_failed (drop_conditions g vertices) ≡ None
        → unreached (dropped g vertices) ≡ [] }
{
    validity_is_by_parts();
}

/// A drop takes the lines of its vertices from the canonical text after the line of its version, and nothing else. Where none of
/// them has parts that only a text of version 2 can write, the result needs one where the model does.
pub fn dropping_takes_lines()
    ensures lines { (g : EventGraph) (vertices : List ℕ)
        → first_failed (drop_conditions g vertices) ≡ None
        → length (canonical (dropped g vertices)) + length (version_line (needs_version_two g))
        + length (flat_map (λ k. vertex_lines g (vertex_at g k)) vertices)
        ≡ length (canonical g) + length (version_line (needs_version_two (dropped g vertices))) }
    ensures version { (g : EventGraph) (vertices : List ℕ)
        → first_failed (drop_conditions g vertices) ≡ None
        → list_any (λ k. has_later_parts (vertex_at g k)) vertices ≡ false
        → needs_version_two (dropped g vertices) ≡ needs_version_two g }
{}

/// A drop of one vertex alone leaves the others the lines of their changes and edges. Those after it move up.
pub fn dropping_one_leaves_lines()
    ensures { (g : EventGraph) (gone k : ℕ) → first_failed (drop_conditions g (gone ∷ [])) ≡ None
        → let h = dropped g (gone ∷ []) in
        let was = slice_index_or (remove g.vertices gone) k no_vertex in
        flat_map (change_line h) (vertex_at h k).changes
        ++ flat_map (edge_line h) (vertex_at h k).edges
        ≡ flat_map (change_line g) was.changes ++ flat_map (edge_line g) was.edges }
{}

/// A drop of one vertex alone doesn't look into that vertex: whatever is put in its place, the conditions and the result are the
/// same, and it is the only one that can't be reached where it was.
pub fn dropping_takes_no_notice_of_the_vertex()
    ensures conditions { (g : EventGraph) (f : EventVertex → EventVertex) (gone : ℕ)
        → drop_conditions (with_vertex f gone g) (gone ∷ []) ≡ drop_conditions g (gone ∷ []) }
    ensures unreached { (g : EventGraph) (f : EventVertex → EventVertex) (gone : ℕ)
        → unreached g ≡ gone ∷ [] → unreached (with_vertex f gone g) ≡ gone ∷ [] }
    ensures left { (g : EventGraph) (f : EventVertex → EventVertex) (gone : ℕ)
        → dropped (with_vertex f gone g) (gone ∷ []) ≡ dropped g (gone ∷ []) }
{}

/// The vertices that passes over edges mark are exactly those that can be reached.
pub fn marks_are_of_reachable_vertices()
    ensures { (g : EventGraph) (vertex : ℕ) → vertex < length g.vertices
        → (is_marked (reached_marks g) vertex ≡ true) ↔ Reachable g vertex }
{}

/// Where no edge can be pruned none can be after a prune, and where none can be settled none can be after it: it leaves the
/// other edges and all ranges.
pub fn pruning_brings_no_rule_of_edges()
    ensures prune { (g : EventGraph) (vertex edge : ℕ) → first_prune g ≡ None
        → first_prune (pruned g vertex edge) ≡ None }
    ensures settle { (g : EventGraph) (vertex edge : ℕ) → first_settle g ≡ None
        → first_settle (pruned g vertex edge) ≡ None }
{}

/// Where no edge can be pruned none can be after a settle, and where none can be settled none can be after it: the literal
/// `true` is neither refuted nor settled again.
pub fn settling_brings_no_rule_of_edges()
    ensures prune { (g : EventGraph) (vertex edge : ℕ) → first_prune g ≡ None
        → first_prune (settled g vertex edge) ≡ None }
    ensures settle { (g : EventGraph) (vertex edge : ℕ) → first_settle g ≡ None
        → first_settle (settled g vertex edge) ≡ None }
{}

/// Where no edge can be pruned none can be after a drop, and where none can be settled none can be after it: it leaves the
/// conditions of edges that stay, and all ranges.
pub fn dropping_brings_no_rule_of_edges()
    ensures prune { (g : EventGraph) (vertices : List ℕ) → first_prune g ≡ None
        → first_prune (dropped g vertices) ≡ None }
    ensures settle { (g : EventGraph) (vertices : List ℕ) → first_settle g ≡ None
        → first_settle (dropped g vertices) ≡ None }
{}

/// Where all vertices can be reached, all can be after a merge if the second one is the first vertex or an edge leads to it;
/// else the second one is the only one that can't.
pub fn merging_leaves_vertices_reached()
    ensures first { (g : EventGraph) (first second : ℕ) → unreached g ≡ []
        → first_failed (merge_conditions g first second) ≡ None
        → second ≡ 0 → unreached (merged g first second) ≡ [] }
    ensures led { (g : EventGraph) (first second : ℕ) → unreached g ≡ []
        → first_failed (merge_conditions g first second) ≡ None
        → list_any (λ (v : EventVertex). list_any (leads_to second) v.edges)
        (merged g first second).vertices ≡ true
        → unreached (merged g first second) ≡ [] }
    ensures unled { (g : EventGraph) (first second : ℕ) → unreached g ≡ []
        → first_failed (merge_conditions g first second) ≡ None
        → (second ≡ 0 → ⊥)
        → list_any (λ (v : EventVertex). list_any (leads_to second) v.edges)
        (merged g first second).vertices ≡ false
        → unreached (merged g first second) ≡ second ∷ [] }
{}
