//! The laws of the strategy. The functions do nothing: what they ensure holds of all models.

ghost use Rattle.std.specs.Prelude.{◌≡◌, List};
ghost use Rattle.model_core.specs.EventGraph.{EventGraph};
ghost use Rattle.model_core.specs.Run.Same.{Same};
ghost use Rattle.model_core.specs.Static.Reading.{IsValid};
ghost use Rattle.model_core.specs.Rules.Reduction.{RuleApplication, Chain, Strategy};
ghost use Rattle.reducer.specs.Inner.LaterRules.{LeavesEdges};

use edge_pruning::dropping_brings_no_rule_of_edges;
use merge_rules::{merging_brings_no_rule_of_edges, merging_takes_an_urgent_edge};
use reduction_cert::chains_keep_the_meaning;
use var_slicing::slicing_leaves_the_rules_of_edges;

/// The strategy's applications are a chain, and their result on a valid model is valid and means the same.
pub fn strategies_keep_the_meaning()
    ensures chain { (g : EventGraph) (applications : List RuleApplication) (h : EventGraph)
        → Strategy g applications h → Chain g applications h }
    ensures valid { (g : EventGraph) (applications : List RuleApplication) (h : EventGraph)
        → IsValid g → Strategy g applications h → IsValid h }
    ensures same { (g : EventGraph) (applications : List RuleApplication) (h : EventGraph)
        → IsValid g → Strategy g applications h → Same g h }
{
    chains_keep_the_meaning();
}

/// The strategy makes one list of applications of a model, and reaches one model.
pub fn strategies_are_determined()
    ensures applications { (g h k : EventGraph) (applications others : List RuleApplication)
        → Strategy g applications h → Strategy g others k → applications ≡ others }
    ensures reduced { (g h k : EventGraph) (applications others : List RuleApplication)
        → Strategy g applications h → Strategy g others k → h ≡ k }
{}

/// Where no edge can be pruned or settled, none can be after a drop, a merge or a slice.
pub(crate) fn later_rules_leave_edges()
    ensures { LeavesEdges }
{
    dropping_brings_no_rule_of_edges();
    merging_brings_no_rule_of_edges();
    slicing_leaves_the_rules_of_edges();
}

/// The strategy ends on every valid model.
pub fn strategies_end()
    ensures { (g : EventGraph) → IsValid g
        → (applications : List RuleApplication) × (h : EventGraph) × Strategy g applications h }
{
    chains_keep_the_meaning();
    later_rules_leave_edges();
    merging_takes_an_urgent_edge();
}
