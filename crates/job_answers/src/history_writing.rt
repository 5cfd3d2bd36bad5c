//! The history of a run from any moment on, written as it happens: for `run` and `resume`.

ghost use Rattle.std.specs.Prelude.{◌≡◌, ◌+◌, ◌≤◌, ℕ, length, None};
ghost use Rattle.sig_base.specs.declared.limits.TheConstants.{STOP_MAX, EVENTS_MAX};
ghost use Rattle.model_core.specs.Code.Views.{graph_of};
ghost use Rattle.watch_trace.specs.Tracing.{moment_of};
ghost use Rattle.job_answers.specs.Inner.RunSteps.{ending, DeliversHistory};

use answer_delivery::{DeliveryOutcome, End, Failure, close};
use event_list::Pending;
use run_control::Run;
use sig_base::Sink;
use std::mem::forget;
use watch_trace::{Outcome, Tracer, write_history};

/// How a job ends whose run came to the outcome.
fn ending(outcome: Outcome) -> Result<End, Failure>
    ensures { result ≡ ending outcome }
{
    match outcome {
        Outcome::Ended { .. } | Outcome::Stopped => Ok(End::Done),
        Outcome::Faulted { .. } => Ok(End::ModelFault),
        Outcome::Budget => Ok(End::Budget),
        Outcome::WriteFault => Err(Failure::WriteFault),
        Outcome::NoMemory => Err(Failure::NoMemory),
    }
}

/// Writes the history of a run from its present moment on, and finishes the output. The program ends after it, so the run
/// isn't taken apart.
pub(crate) fn write_history_from<'m, P: Pending + Drop, K: Sink>(
    run: Run<'m, P>,
    tracer: Tracer<'m>,
    until: u64,
    events: u64,
    output: &mut K,
) -> Result<DeliveryOutcome, Failure>
    requires soon { until ≤ STOP_MAX }
    requires budget { run.turns + events ≤ EVENTS_MAX }
    requires one_model { tracer.model ≡ run.model }
    requires goes_on { run.faulted ≡ None }
    ensures { (room : ℕ) → room ≤ run.entry.spare + length run.entry.now.pending
        → DeliversHistory K.seen (graph_of run.entry.model) until run.entry.seed events
        (moment_of run.entry tracer.entry) room result output.old output.new }
{
    let mut run = run;
    let mut tracer = tracer;
    let outcome = write_history(&mut tracer, &mut run, until, events, output);
    forget(tracer);
    forget(run);
    match ending(outcome) {
        Ok(end) => close(output, end),
        Err(failure) => Err(failure),
    }
}
