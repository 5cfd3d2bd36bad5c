//! Laws of chains of applications. The functions do nothing: what they ensure holds of all models.

ghost use Rattle.std.specs.Prelude.{◌≡◌, ◌≢◌, ◌≤◌, ◌↔◌, ℕ, List, length, Some, None};
ghost use Rattle.model_core.specs.EventGraph.{EventGraph};
ghost use Rattle.model_core.specs.Run.Same.{Same};
ghost use Rattle.model_core.specs.Static.Reading.{IsValid};
ghost use Rattle.model_core.specs.Rules.Reduction.{RuleApplication, failed_condition, result_of, applied, Chain, first_bad};
ghost use Rattle.model_core.specs.Rules.Verdict.{Sound, Rejected, Differs, verdict};

use edge_pruning::{
    dropping_keeps_the_meaning, pruning_keeps_the_meaning, settling_keeps_the_meaning,
};
use merge_rules::merging_keeps_the_meaning;
use var_slicing::slicing_keeps_the_meaning;

/// An application gives its result exactly where none of its conditions fails, and a list of applications is
/// a chain exactly where none of them is bad.
pub fn applications_have_results()
    ensures one { (g h : EventGraph) (a : RuleApplication)
        → (applied g a ≡ Some h) ↔ ((failed_condition g a ≡ None) × (result_of g a ≡ h)) }
    ensures all { (g : EventGraph) (applications : List RuleApplication)
        → (first_bad g applications ≡ None) ↔ ((h : EventGraph) × Chain g applications h) }
{}

/// An application leaves no more variables than there were.
pub fn applications_add_no_variables()
    ensures { (g h : EventGraph) (a : RuleApplication) → applied g a ≡ Some h
        → length h.variables ≤ length g.variables }
{}

/// The result of an application to a valid model is valid and means the same, and so is the model that a chain of them
/// reaches.
pub fn chains_keep_the_meaning()
    ensures one_valid { (g h : EventGraph) (a : RuleApplication) → IsValid g → applied g a ≡ Some h
        → IsValid h }
    ensures one_same { (g h : EventGraph) (a : RuleApplication) → IsValid g → applied g a ≡ Some h
        → Same g h }
    ensures valid { (g : EventGraph) (applications : List RuleApplication) (h : EventGraph)
        → IsValid g → Chain g applications h → IsValid h }
    ensures same { (g : EventGraph) (applications : List RuleApplication) (h : EventGraph)
        → IsValid g → Chain g applications h → Same g h }
{
    pruning_keeps_the_meaning();
    settling_keeps_the_meaning();
    dropping_keeps_the_meaning();
    merging_keeps_the_meaning();
    slicing_keeps_the_meaning();
}

/// A verdict is sound exactly where the applications are a chain from the one graph to the other, so that the two mean
/// the same where the first is valid. It rejects exactly the first bad application, and it says that the graphs differ
/// exactly where the applications are a chain to another one.
pub fn verdicts_tell_chains()
    ensures sound { (g : EventGraph) (applications : List RuleApplication) (h : EventGraph)
        → (verdict g applications h ≡ Sound) ↔ Chain g applications h }
    ensures rejected { (g : EventGraph) (applications : List RuleApplication) (h : EventGraph)
        (n : ℕ)
        → (verdict g applications h ≡ Rejected n) ↔ (first_bad g applications ≡ Some n) }
    ensures differs { (g : EventGraph) (applications : List RuleApplication) (h : EventGraph)
        → (verdict g applications h ≡ Differs)
        ↔ ((k : EventGraph) × Chain g applications k × (k ≢ h)) }
    ensures valid { (g : EventGraph) (applications : List RuleApplication) (h : EventGraph)
        → IsValid g → verdict g applications h ≡ Sound → IsValid h }
    ensures same { (g : EventGraph) (applications : List RuleApplication) (h : EventGraph)
        → IsValid g → verdict g applications h ≡ Sound → Same g h }
{
    chains_keep_the_meaning();
}
