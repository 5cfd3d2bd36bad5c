//! `run`: the history of a run of a model, written as it happens, or why the run can't begin.

ghost use Rattle.std.specs.Prelude.{◌≡◌, ◌≤◌};
ghost use Rattle.sig_base.specs.declared.limits.TheConstants.{STOP_MAX, EVENTS_MAX};
ghost use Rattle.model_core.specs.Static.Reading.{IsValid};
ghost use Rattle.model_core.specs.Code.Views.{graph_of};
ghost use Rattle.job_answers.specs.RunAnswer.{run_answer, ExceedsRoom};
ghost use Rattle.answer_delivery.specs.Delivery.{DeliversSome};

use crate::beginning::{begin, refuse_start};
use crate::history_writing::write_history_from;
use answer_delivery::{DeliveryOutcome, Failure};
use command_words::RunOptions;
use model_core::Model;
use sig_base::Sink;
use std::alloc::Global;
use std::mem::forget;
use watch_trace::Tracer;

/// Runs the model, and writes the history as it happens.
pub fn run<K: Sink>(
    alloc: Global,
    model: &Model,
    options: &RunOptions,
    output: &mut K,
) -> Result<DeliveryOutcome, Failure>
    requires valid { IsValid (graph_of model.now) }
    requires soon { options.now.until ≤ STOP_MAX }
    requires budget { options.now.events ≤ EVENTS_MAX }
    ensures { DeliversSome K.seen
        (λ a. a ≡ run_answer (graph_of model.now) options.now.until options.now.seed
        options.now.events options.now.starts)
        (ExceedsRoom (graph_of model.now) options.now.until options.now.seed
        options.now.events options.now.starts options.now.room)
        result output.old output.new }
{
    let run = match begin(alloc, model, options.seed, &options.starts, options.room) {
        Ok(run) => run,
        Err(error) => return refuse_start(alloc, error),
    };
    match Tracer::begin(alloc, model) {
        Ok(tracer) => write_history_from(run, tracer, options.until, options.events, output),
        Err(_) => {
            forget(run);
            Err(Failure::NoMemory)
        }
    }
}
