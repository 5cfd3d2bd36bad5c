//! The tally of one run, kept as running sums while the run goes.

ghost use Rattle.std.specs.Prelude.{◌≡◌, ℕ, ℤ, List as Sequence, None, ◌≤◌, All, IfOk, IfErr, IsTrue};
ghost use Rattle.sig_base.specs.declared.limits.TheConstants.{STOP_MAX, EVENTS_MAX};
ghost use Rattle.model_core.specs.Run.History.{look, look_from, allowed};
ghost use Rattle.model_core.specs.Code.Views.{graph_of};
ghost use Rattle.run_control.specs.Beginning.{BegunRun};
ghost use Rattle.run_control.specs.PossibleModel.{PossibleModel};
ghost use Rattle.tally_report.specs.Tallying.{tally_of};
ghost use Rattle.tally_report.specs.SmallAreas.{IsOfRuns};
ghost use Rattle.tally_report.specs.TallyRefusals.{RefusesTally};
ghost use Rattle.tally_report.specs.Inner.RunEnds.{end_reached, time_reached};

use crate::run_tally::{RunEnd, RunTally};
use crate::tally_error::TallyError;
use crate::tally_taker::TallyTaker;
use event_heap::HeapPending;
use model_core::Model;
use run_control::{AllowedStarts, ROOM, Run, check_starts};
use sig_base::{List, NoMemory};
use std::alloc::Global;
use watch_trace::{Outcome, Tracer, observe};

/// The end of a run that came to this outcome.
fn end_reached(outcome: Outcome) -> RunEnd
    ensures { result ≡ end_reached outcome }
{
    match outcome {
        Outcome::Ended { .. } => RunEnd::Ended,
        Outcome::Stopped => RunEnd::Stopped,
        Outcome::Faulted { .. } => RunEnd::Fault,
        Outcome::Budget | Outcome::WriteFault | Outcome::NoMemory => RunEnd::Budget,
    }
}

/// The time at which a run with this stop time ends that came to this outcome, where its last note has the other time.
fn time_reached(outcome: Outcome, until: u64, latest: u64) -> u64
    ensures { result ≡ time_reached outcome until latest }
{
    match outcome {
        Outcome::Ended { time } => time,
        Outcome::Stopped => until,
        Outcome::Faulted { time, .. } => time,
        Outcome::Budget | Outcome::WriteFault | Outcome::NoMemory => latest,
    }
}

/// Follows a run that has begun.
fn follow<'m>(
    alloc: Global,
    model: &'m Model,
    run: &mut Run<'m, HeapPending>,
    until: u64,
    events: u64,
) -> Result<RunTally, NoMemory>
    requires soon { until ≤ STOP_MAX }
    requires budget { events ≤ EVENTS_MAX }
    requires begun { (starts : Sequence ℤ) × (room : ℕ)
        × BegunRun model.now run.old.seed starts room run.old }
    ensures tally { IfOk result
        (λ tally. tally
        ≡ tally_of (graph_of model.now) until
        (look_from (graph_of model.now) run.old.seed until events
        (record { now = run.old.now; noted = None }))) }
    ensures small { IfOk result (λ tally. All (IsOfRuns 1) tally.items) }
{
    let mut tracer = Tracer::begin(alloc, model)?;
    let mut taker = TallyTaker::begin(alloc, model)?;
    let outcome = observe(&mut tracer, run, until, events, &mut taker, &mut ());
    match outcome {
        Outcome::NoMemory => Err(NoMemory),
        Outcome::WriteFault => unreachable!(),
        outcome => taker.tally(
            alloc,
            end_reached(outcome),
            time_reached(outcome, until, taker.latest()),
        ),
    }
}

/// The tally of a run with a seed that begins with these starting values of a model, up to a stop time in ticks and for at most
/// so many events.
pub fn tally_run(
    alloc: Global,
    starts: &AllowedStarts<'_, '_>,
    seed: u64,
    until: u64,
    events: u64,
) -> Result<RunTally, NoMemory>
    requires possible { PossibleModel (graph_of starts.now.model) }
    requires soon { until ≤ STOP_MAX }
    requires budget { events ≤ EVENTS_MAX }
    ensures tally { IfOk result
        (λ tally. tally
        ≡ tally_of (graph_of starts.now.model) until
        (look (graph_of starts.now.model) seed starts.now.values until events)) }
    ensures small { IfOk result (λ tally. All (IsOfRuns 1) tally.items) }
{
    let model = starts.model();
    let pending = HeapPending::begin(alloc, model.vertices.len())?;
    let mut run = Run::begin_with(alloc, starts, pending, seed, ROOM)?;
    follow(alloc, model, &mut run, until, events)
}

/// The same for any starting values. An error says why the run can't begin.
pub fn tally_one(
    alloc: Global,
    model: &Model,
    seed: u64,
    until: u64,
    events: u64,
    starts: &List<i64>,
) -> Result<RunTally, TallyError>
    requires possible { PossibleModel (graph_of model.now) }
    requires soon { until ≤ STOP_MAX }
    requires budget { events ≤ EVENTS_MAX }
    ensures accepted { IfOk result (λ tally. IsTrue (allowed (graph_of model.now) starts.now)) }
    ensures tally { IfOk result
        (λ tally. tally
        ≡ tally_of (graph_of model.now) until
        (look (graph_of model.now) seed starts.now until events)) }
    ensures small { IfOk result (λ tally. All (IsOfRuns 1) tally.items) }
    ensures err { IfErr result (RefusesTally (graph_of model.now) starts.now) }
{
    let starts = check_starts(model, starts.as_slice())?;
    Ok(tally_run(alloc, &starts, seed, until, events)?)
}
