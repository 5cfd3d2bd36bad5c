//! The totals of many runs of a model.

ghost use Rattle.std.specs.Prelude.{◌≡◌, ◌<◌, All, IfOk};
ghost use Rattle.sig_base.specs.declared.limits.TheConstants.{RUNS_MAX};
ghost use Rattle.model_core.specs.Code.Views.{graph_of};
ghost use Rattle.tally_report.specs.SmallAreas.{IsOfRuns};
ghost use Rattle.tally_report.specs.Totalling.{items_added, no_totals, with_run};

use crate::item::Item;
use crate::run_tally::RunTally;
use crate::sums::{first_sums, items_until};
use model_core::Model as Graph;
use sig_base::NoMemory;
use std::alloc::Global;
use std::marker::Model;

/// The totals of runs of a model: how many there were, the least of the least values, the greatest of the greatest
/// ones, and the sums of areas and counts.
#[derive(Drop)]
pub struct Totals {
    runs: u64,
    items: Vec<Item>,
}

impl Model for Totals {
    ghost use Rattle.std.specs.Prelude.{All};
    ghost use Rattle.tally_report.specs.SmallAreas.{IsOfRuns};
    ghost use Rattle.tally_report.specs.Totalling.{RunTotals};

    ghost Value = { RunTotals };

    ghost view = { λ t. record { runs = t.runs; items = t.items.items } };

    ghost invariant = { λ t. All (IsOfRuns t.runs) t.items.items };
}

/// Adds to items those of a further run.
fn add_items(totals: &mut Vec<Item>, others: &[Item])
    requires below_limit { All (IsOfRuns 65535) totals.old.items }
    requires one { All (IsOfRuns 1) others.now }
    ensures { totals.new.items ≡ items_added totals.old.items others.now }
{
    for i in 0..totals.len().min(others.len()) {
        totals[i] = totals[i].plus(others[i]);
    }
}

impl Totals {
    /// The totals of no run of a model.
    pub fn begin(alloc: Global, model: &Graph) -> Result<Totals, NoMemory>
        ensures { IfOk result (λ totals. totals ≡ no_totals (graph_of model.now)) }
    {
        let sums = first_sums(alloc, model)?;
        Ok(Totals {
            runs: 0,
            items: items_until(alloc, sums.as_slice(), 0, 0)?,
        })
    }

    /// Adds a run of the same model.
    pub fn add(&mut self, run: &RunTally)
        requires below_limit { self.old.runs < RUNS_MAX }
        requires small { All (IsOfRuns 1) run.now.items }
        ensures { self.new ≡ with_run self.old run.now }
    {
        add_items(&mut self.items, run.items.as_slice());
        self.runs += 1;
    }

    /// The items of all runs together.
    pub(crate) fn items(&self) -> &[Item]
        ensures { result.now ≡ self.now.items }
    {
        self.items.as_slice()
    }
}
