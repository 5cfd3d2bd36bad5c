//! The strategy's result: one sweep of prune, one of settle, and then drops, merges and slices one at a time.

ghost use Rattle.std.specs.Prelude.{map, IfOk};
ghost use Rattle.model_core.specs.Static.Reading.{IsValid};
ghost use Rattle.model_core.specs.Code.Views.{graph_of, application_of};
ghost use Rattle.model_core.specs.Rules.Reduction.{Strategy};

use crate::later_rules::apply_later_rules;
use crate::sweeping::sweep;
use edge_pruning::EdgeRule;
use model_core::{Application, Model};
use reduction_cert::chains_keep_the_meaning;
use sig_base::{List, NoMemory};
use std::alloc::Global;

/// A reduced model, and the applications of rules that led to it, in order.
#[derive(Drop)]
pub struct Reduced {
    pub model: Model,
    pub applications: List<Application>,
}

/// The strategy's result. Neither prune nor settle applies anew to what was swept: the rules after them leave bounds and
/// conditions of edges as they were.
pub fn reduce(alloc: Global, model: Model) -> Result<Reduced, NoMemory>
    requires { IsValid (graph_of model) }
    ensures { IfOk result
        (λ r. Strategy (graph_of model) (map application_of r.applications) (graph_of r.model)) }
{
    chains_keep_the_meaning();
    let mut reduced = model;
    let mut applications = Vec::new(alloc);
    sweep(alloc, EdgeRule::Prune, &mut reduced, &mut applications)?;
    sweep(alloc, EdgeRule::Settle, &mut reduced, &mut applications)?;
    apply_later_rules(alloc, reduced, applications)
}
