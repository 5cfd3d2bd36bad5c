//! `replicate`: the report of many runs of a model, written run by run, or why they can't begin.

ghost use Rattle.std.specs.Prelude.{◌≡◌, ◌≤◌, ◌<◌, All, IfOk};
ghost use Rattle.sig_base.specs.declared.limits.TheConstants.{STOP_MAX, EVENTS_MAX, RUNS_MAX};
ghost use Rattle.model_core.specs.Static.Reading.{IsValid};
ghost use Rattle.model_core.specs.Code.Views.{graph_of};
ghost use Rattle.tally_report.specs.SmallAreas.{IsOfRuns};
ghost use Rattle.tally_report.specs.Totalling.{with_run};
ghost use Rattle.tally_report.specs.ReportText.{run_rows};
ghost use Rattle.job_answers.specs.ReplicateAnswer.{seed_of_run, tally_numbered, report, replicate_answer};
ghost use Rattle.answer_delivery.specs.Delivery.{DeliversSome};
ghost use Rattle.job_answers.specs.Inner.ReportSteps.{rest_of_report};
ghost use Rattle.job_answers.specs.Inner.WritingSteps.{WritesPieces};

use crate::beginning::refuse_start;
use answer_delivery::{DeliveryOutcome, End, Failure, close, write_all};
use command_words::ReplicateOptions;
use model_core::Model;
use round_trip::validity_is_by_parts;
use run_control::{AllowedStarts, check_starts, kept_models_can_be_run};
use sig_base::{NoMemory, Sink};
use std::alloc::Global;
use tally_report::{RunTally, Totals, header_csv, run_csv, tally_run, totals_csv};

/// The seed of the run of a number, from 1.
pub(crate) fn seed_of_run(seed: u64, stride: u64, number: u64) -> u64
    requires { 0 < number }
    ensures { result ≡ seed_of_run seed stride number }
{
    seed.wrapping_add((number - 1).wrapping_mul(stride))
}

/// The tally of the run of a number, from 1.
fn tally_numbered(
    alloc: Global,
    starts: &AllowedStarts<'_, '_>,
    options: &ReplicateOptions,
    number: u64,
) -> Result<RunTally, NoMemory>
    requires valid { IsValid (graph_of starts.now.model) }
    requires given { starts.now.values ≡ options.now.starts }
    requires soon { options.now.until ≤ STOP_MAX }
    requires budget { options.now.events ≤ EVENTS_MAX }
    requires first { 0 < number }
    ensures of_run { IfOk result
        (λ tally. tally ≡ tally_numbered (graph_of starts.now.model) options.now number) }
    ensures small { IfOk result (λ tally. All (IsOfRuns 1) tally.items) }
{
    validity_is_by_parts();
    kept_models_can_be_run();
    tally_run(
        alloc,
        starts,
        seed_of_run(options.seed, options.stride, number),
        options.until,
        options.events,
    )
}

/// Writes the rows of a run, and adds it to the totals.
fn write_run_rows<K: Sink>(
    alloc: Global,
    model: &Model,
    number: u64,
    seed: u64,
    tally: &RunTally,
    totals: &mut Totals,
    output: &mut K,
) -> Result<(), Failure>
    requires below_maximum { totals.old.runs < RUNS_MAX }
    requires small { All (IsOfRuns 1) tally.now.items }
    ensures written { WritesPieces (run_rows (graph_of model.now) number seed tally.now) result
        (K.seen output.old) (K.seen output.new) }
    ensures added { IfOk result (λ done. totals.new ≡ with_run totals.old tally.now) }
{
    let rows = run_csv(alloc, model, number, seed, tally)?;
    write_all(output, rows.as_slice())?;
    totals.add(tally);
    Ok(())
}

/// Writes the rows of the runs, and those of the totals.
fn write_all_runs<K: Sink>(
    alloc: Global,
    model: &Model,
    starts: &AllowedStarts<'_, '_>,
    options: &ReplicateOptions,
    totals: Totals,
    output: &mut K,
) -> Result<(), Failure>
    requires valid { IsValid (graph_of model.now) }
    requires given { starts.now ≡ record { model = model.now; values = options.now.starts } }
    requires soon { options.now.until ≤ STOP_MAX }
    requires budget { options.now.events ≤ EVENTS_MAX }
    requires within_maximum { options.now.runs ≤ RUNS_MAX }
    requires without_runs { totals.runs ≡ 0 }
    ensures { WritesPieces
        (rest_of_report (graph_of model.now) options.now totals 1 options.now.runs) result
        (K.seen output.old) (K.seen output.new) }
{
    let mut totals = totals;
    for number in 1..options.runs + 1 {
        let tally = tally_numbered(alloc, starts, options, number)?;
        let seed = seed_of_run(options.seed, options.stride, number);
        write_run_rows(alloc, model, number, seed, &tally, &mut totals, output)?;
    }
    write_all(output, totals_csv(alloc, model, &totals)?.as_slice())
}

/// Writes the report of a model that takes the starting values.
fn write_report<K: Sink>(
    alloc: Global,
    model: &Model,
    starts: &AllowedStarts<'_, '_>,
    options: &ReplicateOptions,
    output: &mut K,
) -> Result<(), Failure>
    requires valid { IsValid (graph_of model.now) }
    requires given { starts.now ≡ record { model = model.now; values = options.now.starts } }
    requires soon { options.now.until ≤ STOP_MAX }
    requires budget { options.now.events ≤ EVENTS_MAX }
    requires within_maximum { options.now.runs ≤ RUNS_MAX }
    ensures { WritesPieces (report (graph_of model.now) options.now) result (K.seen output.old)
        (K.seen output.new) }
{
    let totals = Totals::begin(alloc, model)?;
    write_all(output, header_csv(alloc)?.as_slice())?;
    write_all_runs(alloc, model, starts, options, totals, output)
}

/// Writes the report of the runs, each run's rows as it is done.
pub fn replicate<K: Sink>(
    alloc: Global,
    model: &Model,
    options: &ReplicateOptions,
    output: &mut K,
) -> Result<DeliveryOutcome, Failure>
    requires valid { IsValid (graph_of model.now) }
    requires soon { options.now.until ≤ STOP_MAX }
    requires budget { options.now.events ≤ EVENTS_MAX }
    requires has_run { 0 < options.now.runs }
    requires within_maximum { options.now.runs ≤ RUNS_MAX }
    ensures { DeliversSome K.seen (λ a. a ≡ replicate_answer (graph_of model.now) options.now)
        (Unit {0}) result output.old output.new }
{
    validity_is_by_parts();
    kept_models_can_be_run();
    match check_starts(model, options.starts.as_slice()) {
        Ok(starts) => {
            write_report(alloc, model, &starts, options, output)?;
            close(output, End::Done)
        }
        Err(error) => refuse_start(alloc, error),
    }
}
