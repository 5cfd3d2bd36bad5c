//! Resuming: the run that goes on from a snapshot, and the tracer of its notes.

ghost use Rattle.std.specs.Prelude.{◌≡◌, ◌<◌, ◌^◌, length, [], IfOk};
ghost use Rattle.std.specs.List.{AllByRecursion};
ghost use Rattle.model_core.specs.Code.Views.{graph_of};
ghost use Rattle.model_core.specs.Static.OwnRules.{IsWatchable};
ghost use Rattle.run_control.specs.PossibleModel.{PossibleModel};
ghost use Rattle.model_core.specs.Saved.SavedRun.{IsGood};
ghost use Rattle.run_snapshot.specs.ResumedRun.{ResumedRun};
ghost use Rattle.run_snapshot.specs.Inner.NotedValues.{FitWatched, noted_as_cells};

use crate::parts_from_snapshot::{schedule_all, state_of, streams_after};
use event_list::Pending;
use model_core::Model;
use run_control::Run;
use sig_base::{List, NoMemory};
use snapshot_text::Snapshot;
use std::alloc::Global;
use std::marker::Brand;
use std::sync::ledger::Blank;
use watch_trace::Tracer;

/// A run that goes on, with its tracer.
#[derive(Drop)]
pub struct RunAndTracer<'m, P: Pending> {
    pub run: Run<'m, P>,
    pub tracer: Tracer<'m>,
}

/// A tracer that noted these values last, if there are any.
fn tracer_of<'m>(
    alloc: Global,
    model: &'m Model,
    noted: &Option<List<i64>>,
) -> Result<Tracer<'m>, NoMemory>
    requires { FitWatched (graph_of model.now) noted.now }
    ensures { IfOk result
        (λ tracer. tracer
        ≡ record { model = model.now; noted = noted_as_cells (graph_of model.now) noted.now }) }
{
    let mut tracer = Tracer::begin(alloc, model)?;
    if let Some(values) = noted {
        tracer.note_values(values.as_slice());
    }
    Ok(tracer)
}

/// The run that goes on from a snapshot, and its tracer. `pending` is given empty; room is made in it for `room` events,
/// and for those that are pending at least.
pub fn resume<'m, P: Pending>(
    alloc: Global,
    model: &'m Model,
    pending: P,
    snapshot: &Snapshot,
    room: usize,
) -> Result<RunAndTracer<'m, P>, NoMemory>
where
    P: Drop,
    requires possible { PossibleModel (graph_of model.now) }
    requires watch { AllByRecursion
        (IsWatchable (length (graph_of model.now).variables)
        (length (graph_of model.now).vertices)) (graph_of model.now).watch }
    requires good { IsGood (graph_of model.now) snapshot.now }
    requires pending_fits { length snapshot.now.pending < 2 ^ 61 }
    requires empty { P.entries pending ≡ [] }
    requires fresh { P.numbered pending ≡ 0 }
    requires made_for { P.vertices pending ≡ length model.now.vertices }
    ensures { IfOk result (λ r. ResumedRun model.now snapshot.now room r.run r.tracer) }
{
    let mut pending = pending;
    pending.reserve(room.max(snapshot.pending.len()))?;
    schedule_all::<P, Brand>(&mut pending, snapshot.pending.as_slice(), Blank::new(1));
    let state = state_of(alloc, model, snapshot.values.as_slice())?;
    let streams = streams_after(snapshot.seed, snapshot.taken.as_slice());
    let tracer = tracer_of(alloc, model, &snapshot.noted)?;
    let run = Run::from_parts(
        model,
        pending,
        state,
        streams,
        snapshot.clock,
        snapshot.events,
    );
    Ok(RunAndTracer { run, tracer })
}
