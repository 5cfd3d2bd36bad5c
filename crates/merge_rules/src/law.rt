//! The laws of merge. The functions do nothing: what they ensure holds of all models.

ghost use Rattle.std.specs.Prelude.{◌≡◌, ℕ, suc, ◌+◌, ◌≤◌, ◌^◌, ℤ, true, List, length, take, Some, None, Ok};
ghost use Rattle.model_core.specs.EventGraph.{EventGraph};
ghost use Rattle.model_core.specs.Run.Pending.{EntryAndRest, next_entry};
ghost use Rattle.model_core.specs.Run.Step.{Configuration, step};
ghost use Rattle.model_core.specs.Run.History.{start};
ghost use Rattle.model_core.specs.Run.Same.{Same};
ghost use Rattle.model_core.specs.Static.Reading.{IsValid};
ghost use Rattle.model_core.specs.Text.Canonical.{canonical};
ghost use Rattle.model_core.specs.Rules.Conditions.{first_failed};
ghost use Rattle.model_core.specs.Rules.Prune.{first_prune};
ghost use Rattle.model_core.specs.Rules.Settle.{first_settle};
ghost use Rattle.model_core.specs.Rules.UrgentEdges.{single_urgent};
ghost use Rattle.model_core.specs.Rules.Merge.{merge_conditions, merged};
ghost use Rattle.model_core.specs.Rules.BetweenSteps.{IsSettled};
ghost use Rattle.merge_rules.specs.Growth.{bytes_added, bytes_gone};
ghost use Rattle.merge_rules.specs.UrgentVertices.{plain_count};

use range_bounds::{exclusive_conditions_are_never_both_true, quiet_parts_have_no_fault};
use round_trip::validity_is_by_parts;

/// Between two steps of a single urgent model no event is due before the clock, at most one has priority 0 and that one
/// is due at the clock, and the state is in range. A run begins so, and every step at a time up to 2^48 that doesn't fault
/// keeps it, from any configuration of which it holds.
pub fn at_most_one_event_is_urgent()
    ensures begins { (g : EventGraph) (starts : List ℤ) → IsValid g
        → IsSettled g (start g starts).now }
    ensures kept { (g : EventGraph) (seed : ℕ) (c d : Configuration) (n : EntryAndRest) → IsValid g
        → single_urgent g ≡ true
        → IsSettled g c → next_entry c.pending ≡ Some n → n.entry.time ≤ 2 ^ 48
        → step g seed c n ≡ Ok d
        → IsSettled g d }
{
    validity_is_by_parts();
    exclusive_conditions_are_never_both_true();
}

/// Where no condition of merge fails on a valid model, the result is valid and means the same.
pub fn merging_keeps_the_meaning()
    ensures valid { (g : EventGraph) (first second : ℕ) → IsValid g
        → first_failed (merge_conditions g first second) ≡ None
        → IsValid (merged g first second) }
    ensures same { (g : EventGraph) (first second : ℕ) → IsValid g
        → first_failed (merge_conditions g first second) ≡ None
        → Same g (merged g first second) }
{
    validity_is_by_parts();
    exclusive_conditions_are_never_both_true();
    quiet_parts_have_no_fault();
}

/// Where no edge can be pruned none can be after a merge, and where none can be settled none can be after it: it leaves the
/// conditions of the edges that it joins, and all ranges.
pub fn merging_brings_no_rule_of_edges()
    ensures prune { (g : EventGraph) (first second : ℕ) → first_prune g ≡ None
        → first_prune (merged g first second) ≡ None }
    ensures settle { (g : EventGraph) (first second : ℕ) → first_settle g ≡ None
        → first_settle (merged g first second) ≡ None }
{}

/// A merge leaves as many vertices, and one fewer that has a plain urgent edge: so merges end.
pub fn merging_takes_an_urgent_edge()
    ensures { (g : EventGraph) (first second : ℕ)
        → first_failed (merge_conditions g first second) ≡ None
        → (length (merged g first second).vertices ≡ length g.vertices)
        × (suc (plain_count (merged g first second).vertices) ≡ plain_count g.vertices) }
{}

/// A merge makes the canonical text longer by the lines that the first vertex gets, and shorter by the line of its plain urgent
/// edge, which goes: so the length is what it was and the pair's growth.
pub fn merging_adds_the_growth()
    ensures { (g : EventGraph) (first second : ℕ)
        → first_failed (take 7 (merge_conditions g first second)) ≡ None
        → length (canonical (merged g first second)) + bytes_gone g first
        ≡ length (canonical g) + bytes_added g first }
{}
