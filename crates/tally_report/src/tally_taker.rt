//! The notes of a run, of which no more is kept than running sums.

ghost use Rattle.std.specs.Prelude.{◌≡◌, max, All, map, IfOk};
ghost use Rattle.model_core.specs.Code.Views.{graph_of, watched_of};
ghost use Rattle.tally_report.specs.Inner.Sums.{IsSmall};
ghost use Rattle.tally_report.specs.Inner.Sums.{sums_from, tally_of_sums};

use crate::run_tally::{RunEnd, RunTally};
use crate::sums::{Sum, count_at, first_sums, items_until, take_values};
use model_core::Model as Graph;
use sig_base::{List, NoMemory};
use sig_expr::State;
use std::alloc::Global;
use std::marker::Model;
use watch_trace::NoteTaker;

/// The sums of a run, the time of the latest `at` note, and that of the last note of either kind.
#[derive(Drop)]
pub(crate) struct TallyTaker {
    sums: Vec<Sum>,
    since: u64,
    latest: u64,
}

impl Model for TallyTaker {
    ghost use Rattle.std.specs.Prelude.{All};
    ghost use Rattle.tally_report.specs.Inner.Sums.{IsSmall};
    ghost use Rattle.tally_report.specs.Inner.Sums.{Tallied};

    ghost Value = { Tallied };

    ghost view = { λ t. record { sums = t.sums.items; since = t.since; latest = t.latest } };

    ghost invariant = { λ t. All (λ s. IsSmall t.since s.item) t.sums.items };
}

impl TallyTaker {
    /// Nothing was noted. All memory but that of the tally is taken here.
    pub fn begin(alloc: Global, model: &Graph) -> Result<TallyTaker, NoMemory>
        ensures { IfOk result
            (λ taker. taker
            ≡ record {
              sums = sums_from (graph_of model.now) 0
                  (map watched_of model.now.watch);
              since = 0;
              latest = 0;
            }) }
    {
        Ok(TallyTaker {
            sums: first_sums(alloc, model)?,
            since: 0,
            latest: 0,
        })
    }

    /// The time of the last note.
    pub fn latest(&self) -> u64
        ensures { result ≡ self.now.latest }
    {
        self.latest
    }

    /// The tally of a run that came to this end at this time.
    pub fn tally(&self, alloc: Global, end: RunEnd, time: u64) -> Result<RunTally, NoMemory>
        ensures tally { IfOk result (λ run. run ≡ tally_of_sums end time self.now) }
        ensures small { IfOk result (λ run. All (IsSmall (max self.now.since time)) run.items) }
    {
        let upto = self.since.max(time);
        let items = items_until(alloc, self.sums.as_slice(), self.since, upto)?;
        Ok(RunTally {
            end,
            time,
            items: List::from_vec(items),
        })
    }
}

impl NoteTaker<()> for TallyTaker {
    ghost use Rattle.std.specs.Prelude.{◌≡◌, false, refl};
    ghost use Rattle.tally_report.specs.Inner.Sums.{after_notes};
    ghost use Rattle.tally_report.specs.Inner.NotesInTurn.{after_both};

    ghost takes = { λ g notes s u. u.0 ≡ after_notes g notes s.0 };

    ghost failed = { λ t. false };

    fn take_at(&mut self, _onto: &mut (), model: &Graph, state: &State, time: u64) {
        let upto = self.since.max(time);
        take_values(&mut self.sums, model, state, self.since, upto);
        self.since = upto;
        self.latest = time;
    }

    fn take_on(&mut self, _onto: &mut (), _model: &Graph, _state: &State, time: u64, place: usize) {
        count_at(&mut self.sums, place);
        self.latest = time;
    }

    fn has_failed(&self) -> bool {
        false
    }

    ghost nothing = { λ g s. refl };

    ghost both = { λ g s t u a b p q. after_both g a b s.0 t.0 u.0 p q };
}
