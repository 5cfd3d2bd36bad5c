//! Beginning a run of a model, or why it can't begin.

ghost use Rattle.std.specs.Prelude.{◌≡◌, IfOk, IfErr};
ghost use Rattle.model_core.specs.Static.Reading.{IsValid};
ghost use Rattle.model_core.specs.Code.Views.{graph_of};
ghost use Rattle.run_control.specs.Beginning.{BegunRun, RefusesStart};
ghost use Rattle.job_answers.specs.StartingValues.{count_line, outside_line};
ghost use Rattle.job_answers.specs.Inner.StartSteps.{IsRefusalLine, RefusesToBegin};

use answer_delivery::{DeliveryOutcome, Failure, Refusal};
use event_heap::HeapPending;
use model_core::Model;
use round_trip::validity_is_by_parts;
use run_control::{BeginError, Run, check_starts, kept_models_can_be_run};
use sig_base::{List, NoMemory, Text, put_bytes, put_counted, put_signed};
use std::alloc::Global;

/// The line for a wrong number of starting values.
fn count_line(alloc: Global, needed: usize, given: usize) -> Result<Text, NoMemory>
    ensures { IfOk result (λ line. line ≡ count_line needed given) }
{
    let mut line = Vec::new(alloc);
    put_counted(&mut line, b"sigma: starting values needed ", needed as u64)?;
    put_counted(&mut line, b" given ", given as u64)?;
    put_bytes(&mut line, b"\n")?;
    Ok(Text::from_vec(line))
}

/// The line for the first starting value outside its range. Places count from 1.
fn outside_line(alloc: Global, place: usize, value: i64) -> Result<Text, NoMemory>
    ensures { IfOk result (λ line. line ≡ outside_line place value) }
{
    let mut line = Vec::new(alloc);
    put_counted(&mut line, b"sigma: starting value ", place as u64)?;
    put_bytes(&mut line, b" outside: ")?;
    put_signed(&mut line, value)?;
    put_bytes(&mut line, b"\n")?;
    Ok(Text::from_vec(line))
}

/// The line that says why a run can't begin.
fn refusal_line(alloc: Global, error: BeginError) -> Result<Text, NoMemory>
    ensures { IfOk result (λ line. IsRefusalLine error line) }
{
    match error {
        BeginError::StartCount { needed, given } => count_line(alloc, needed, given),
        BeginError::StartOutside { place, value } => outside_line(alloc, place, value),
        BeginError::NoMemory => Err(NoMemory),
    }
}

/// The run of a valid model as it begins, over heaps, which are made once the starting values are judged.
pub fn begin<'m>(
    alloc: Global,
    model: &'m Model,
    seed: u64,
    starts: &List<i64>,
    room: usize,
) -> Result<Run<'m, HeapPending>, BeginError>
    requires { IsValid (graph_of model.now) }
    ensures ok { IfOk result (BegunRun model.now seed starts.now room) }
    ensures err { IfErr result (RefusesStart (graph_of model.now) starts.now) }
{
    validity_is_by_parts();
    kept_models_can_be_run();
    let starts = check_starts(model, starts.as_slice())?;
    let pending = HeapPending::begin(alloc, model.vertices.len())?;
    Ok(Run::begin_with(alloc, &starts, pending, seed, room)?)
}

/// The refusal of starting values that aren't allowed.
pub fn refuse_start(alloc: Global, error: BeginError) -> Result<DeliveryOutcome, Failure>
    ensures { RefusesToBegin error result }
{
    match refusal_line(alloc, error) {
        Ok(line) => Ok(DeliveryOutcome::Refused(Refusal::BadStart, line)),
        Err(_) => Err(Failure::NoMemory),
    }
}
