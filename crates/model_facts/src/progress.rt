//! All that is known of a model between two applications of rules: its facts, and whether all vertices can be reached.

ghost use Rattle.std.specs.Prelude.{IfOk};
ghost use Rattle.model_core.specs.Code.Views.{graph_of};
ghost use Rattle.model_facts.specs.Progress.{IsProgress};

use crate::counts_law::new_counts_count_nothing;
use crate::facts::FactsOfModel;
use model_core::Model;
use sig_base::NoMemory;
use std::alloc::Global;
use use_analysis::UseCounts;

/// What is known of a model while rules are applied to it.
#[derive(Drop)]
pub struct Progress {
    pub facts: FactsOfModel,
    /// Nothing is counted here between two calls that use it.
    pub counts: UseCounts,
    /// Whether it is known that all vertices can be reached.
    pub all_reached: bool,
}

impl Progress {
    /// What is known of a new model: nothing.
    pub fn begin(alloc: Global, model: &Model) -> Result<Progress, NoMemory>
        ensures { IfOk result (λ progress. IsProgress (graph_of model.now) progress) }
    {
        new_counts_count_nothing();
        Ok(Progress {
            facts: FactsOfModel::begin(alloc),
            counts: UseCounts::begin(alloc, model)?,
            all_reached: false,
        })
    }
}
