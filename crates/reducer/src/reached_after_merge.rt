//! Whether a merge leaves a vertex that can't be reached.

ghost use Rattle.std.specs.Prelude.{◌≡◌, ◌<◌, [], None, ℕ, length};
ghost use Rattle.model_core.specs.EventGraph.{EventGraph};
ghost use Rattle.model_core.specs.Rules.Conditions.{first_failed};
ghost use Rattle.model_core.specs.Rules.Reached.{unreached};
ghost use Rattle.model_core.specs.Rules.Merge.{merge_conditions, merged};
ghost use Rattle.merge_rules.specs.KeptPairs.{PairsAreRight};
ghost use Rattle.reducer.specs.Inner.Merging.{ReachedIsRight};

use edge_pruning::merging_leaves_vertices_reached;
use merge_rules::KeptPairs;

/// Whether a merge, for which what is kept of the vertices is ready, leaves its second vertex as the only one that can't be
/// reached, where all could be before.
pub(crate) fn leaves_second_unreached(pairs: &KeptPairs, second: usize) -> bool
    requires there { second < length pairs.now }
    ensures { (g : EventGraph) (first : ℕ) → unreached g ≡ []
        → first_failed (merge_conditions g first second) ≡ None
        → PairsAreRight (merged g first second) pairs.now
        → ReachedIsRight (merged g first second) second result }
{
    merging_leaves_vertices_reached();
    if second == 0 {
        return false;
    }
    !pairs.has_incoming_edge(second)
}
