//! How a run of a model goes: what it comes to, how many steps it makes, and how many notes its history has.

ghost use Rattle.std.specs.Prelude.{◌≡◌, ◌≤◌, [], IfOk};
ghost use Rattle.sig_base.specs.declared.limits.TheConstants.{STOP_MAX, EVENTS_MAX};
ghost use Rattle.model_core.specs.Run.Step.{vertex_at};
ghost use Rattle.model_core.specs.Static.Reading.{IsValid};
ghost use Rattle.model_core.specs.Code.Views.{graph_of};
ghost use Rattle.run_control.specs.Beginning.{BegunRun};
ghost use Rattle.trial_report.specs.Inner.RunMeasures.{IsMeasureOf};

use crate::note_count::NoteCount;
use event_heap::HeapPending;
use model_core::Model;
use round_trip::validity_is_by_parts;
use run_control::{BeginError, ROOM, Run, kept_models_can_be_run};
use sig_base::{List, NoMemory};
use std::alloc::Global;
use watch_trace::{Outcome, Tracer, observe};

/// How a run went. Its events are the steps that it made: one that faults is among them.
#[derive(Clone, Copy)]
pub(crate) struct RunMeasure {
    pub outcome: Outcome,
    pub events: u64,
    pub notes: u64,
}

/// A run of a model whose first vertex has no parameters, as it begins.
fn begin<'m>(alloc: Global, model: &'m Model, seed: u64) -> Result<Run<'m, HeapPending>, NoMemory>
    requires valid { IsValid (graph_of model.now) }
    requires plain { (vertex_at (graph_of model.now) 0).parameters ≡ [] }
    ensures { IfOk result (BegunRun model.now seed [] 4096) }
{
    validity_is_by_parts();
    kept_models_can_be_run();
    let pending = HeapPending::begin(alloc, model.vertices.len())?;
    match Run::begin(alloc, model, pending, seed, &List::new(alloc), ROOM) {
        Ok(run) => Ok(run),
        Err(BeginError::NoMemory) => Err(NoMemory),
        Err(BeginError::StartCount { .. } | BeginError::StartOutside { .. }) => unreachable!(),
    }
}

/// Follows a run that has begun.
fn follow<'m>(
    alloc: Global,
    model: &'m Model,
    run: &mut Run<'m, HeapPending>,
    until: u64,
    events: u64,
) -> Result<RunMeasure, NoMemory>
    requires soon { until ≤ STOP_MAX }
    requires budget { events ≤ EVENTS_MAX }
    requires begun { BegunRun model.now run.old.seed [] 4096 run.old }
    ensures { IfOk result (IsMeasureOf (graph_of model.now) run.old.seed until events) }
{
    let mut tracer = Tracer::begin(alloc, model)?;
    let mut count = NoteCount { notes: 0 };
    let outcome = observe(&mut tracer, run, until, events, &mut count, &mut ());
    match outcome {
        Outcome::NoMemory => Err(NoMemory),
        Outcome::WriteFault => unreachable!(),
        outcome => Ok(RunMeasure {
            outcome,
            events: run.turns(),
            notes: count.notes,
        }),
    }
}

/// How a run goes of a model whose first vertex has no parameters, up to a stop time in ticks and for at most so many events.
pub(crate) fn measure(
    alloc: Global,
    model: &Model,
    seed: u64,
    until: u64,
    events: u64,
) -> Result<RunMeasure, NoMemory>
    requires valid { IsValid (graph_of model.now) }
    requires plain { (vertex_at (graph_of model.now) 0).parameters ≡ [] }
    requires soon { until ≤ STOP_MAX }
    requires budget { events ≤ EVENTS_MAX }
    ensures { IfOk result (IsMeasureOf (graph_of model.now) seed until events) }
{
    let mut run = begin(alloc, model, seed)?;
    follow(alloc, model, &mut run, until, events)
}
