//! `compare`: whether two models mean the same, as far as their declarations, their normal forms and runs of them show it.

ghost use Rattle.std.specs.Prelude.{◌≡◌, ◌<◌, ◌≤◌, ◌^◌, ◌++◌, IfOk, OnOk, None};
ghost use Rattle.sig_base.specs.declared.limits.TheConstants.{STOP_MAX, EVENTS_MAX, RUNS_MAX};
ghost use Rattle.model_core.specs.Static.Reading.{IsValid};
ghost use Rattle.model_core.specs.Code.Views.{graph_of};
ghost use Rattle.model_pairs.specs.DeclaredApart.{declared_apart};
ghost use Rattle.answer_delivery.specs.Delivery.{DeliversSome};
ghost use Rattle.normal_form.specs.OneForm.{equal_but_names};
ghost use Rattle.job_answers.specs.CompareAnswer.{both_lines, declared_text, run_text, answer_of_runs, same_or, comparing_answer, OfForms, Compares};

use crate::beginning::refuse_start;
use crate::commands::replicate::seed_of_run;
use crate::pair_reading::ModelPair;
use answer_delivery::{Answer, DeliveryOutcome, End, Failure, deliver};
use command_words::CompareOptions;
use model_core::Model;
use model_pairs::{LinePair, LinesApart, declared_apart, declared_lines_decide, runs_apart};
use normal_form::{have_one_form, normal_forms_keep_the_meaning};
use round_trip::validity_is_by_parts;
use run_control::{AllowedStarts, check_starts, kept_models_can_be_run};
use sig_base::{NoMemory, Sink, Text, put_bytes, put_counted, put_texts};
use std::alloc::Global;

/// Adds a line of each model.
fn put_both_lines(out: &mut Vec<u8>, first: &[u8], second: &[u8]) -> Result<(), NoMemory>
    ensures { OnOk result
        (out.new.items ≡ out.old.items ++ both_lines first.now second.now) }
{
    put_texts(out, &[b"first ", first, b"second ", second])
}

/// The text that says that two models declare these lines apart.
fn declared_text(alloc: Global, lines: &LinePair) -> Result<Text, NoMemory>
    ensures { IfOk result (λ text. text ≡ declared_text lines.now) }
{
    let mut out = Vec::new(alloc);
    put_bytes(&mut out, b"differs\ndeclared\n")?;
    put_both_lines(&mut out, lines.first.as_slice(), lines.second.as_slice())?;
    Ok(Text::from_vec(out))
}

/// The text that says that the runs of a number, with this seed, differ in these lines.
fn run_text(alloc: Global, number: u64, seed: u64, lines: &LinesApart) -> Result<Text, NoMemory>
    ensures { IfOk result (λ text. text ≡ run_text number seed lines.now) }
{
    let mut out = Vec::new(alloc);
    put_counted(&mut out, b"differs\nrun ", number)?;
    put_counted(&mut out, b" seed ", seed)?;
    put_counted(&mut out, b" line ", lines.line)?;
    put_bytes(&mut out, b"\n")?;
    put_both_lines(&mut out, lines.first.as_slice(), lines.second.as_slice())?;
    Ok(Text::from_vec(out))
}

/// The first runs that differ, or that nothing is known.
fn compare_runs(
    alloc: Global,
    first: &AllowedStarts<'_, '_>,
    second: &AllowedStarts<'_, '_>,
    options: &CompareOptions,
) -> Result<Answer, NoMemory>
    requires first_valid { IsValid (graph_of first.now.model) }
    requires second_valid { IsValid (graph_of second.now.model) }
    requires given { first.now.values ≡ options.now.starts }
    requires one_start { second.now.values ≡ first.now.values }
    requires soon { options.now.until ≤ STOP_MAX }
    requires budget { options.now.events ≤ EVENTS_MAX }
    requires within_maximum { options.now.runs ≤ RUNS_MAX }
    ensures { IfOk result
        (λ a. a ≡ answer_of_runs (graph_of first.now.model) (graph_of second.now.model)
        options.now 1 options.now.runs) }
{
    for number in 1..options.runs + 1 {
        let seed = seed_of_run(options.seed, 1, number);
        if let Some(lines) = runs_apart(
            alloc,
            first,
            second,
            seed,
            options.until,
            options.events,
        )? {
            return Ok(Answer::Given(End::Differs, run_text(alloc, number, seed, &lines)?));
        }
    }
    let out = Vec::from_slice(alloc, b"unknown\n")?;
    Ok(Answer::Given(End::Unknown, Text::from_vec(out)))
}

/// That the models mean the same, where their normal forms are equal but for names, and else what their runs show.
fn same_or_compare_runs(
    alloc: Global,
    first: &AllowedStarts<'_, '_>,
    second: &AllowedStarts<'_, '_>,
    options: &CompareOptions,
) -> Result<Answer, NoMemory>
    requires first_valid { IsValid (graph_of first.now.model) }
    requires second_valid { IsValid (graph_of second.now.model) }
    requires given { first.now.values ≡ options.now.starts }
    requires one_start { second.now.values ≡ first.now.values }
    requires soon { options.now.until ≤ STOP_MAX }
    requires budget { options.now.events ≤ EVENTS_MAX }
    requires within_maximum { options.now.runs ≤ RUNS_MAX }
    ensures { IfOk result
        (OfForms (graph_of first.now.model) (graph_of second.now.model) (λ one other.
        same_or (equal_but_names one other) (answer_of_runs (graph_of first.now.model)
        (graph_of second.now.model) options.now 1 options.now.runs))) }
{
    let one_form = have_one_form(alloc, first.model(), second.model())?;
    if one_form {
        let out = Vec::from_slice(alloc, b"same\n")?;
        return Ok(Answer::Given(End::Done, Text::from_vec(out)));
    }
    compare_runs(alloc, first, second, options)
}

/// The starting values, for a model that declares the same as one that takes them.
fn taken_too<'m, 's>(
    first: &AllowedStarts<'_, 's>,
    second: &'m Model,
    starts: &'s [i64],
) -> AllowedStarts<'m, 's>
    requires valid { IsValid (graph_of second.now) }
    requires given { first.now.values ≡ starts.now }
    requires declared { declared_apart (graph_of first.now.model) (graph_of second.now) ≡ None }
    ensures { result ≡ record { model = second.now; values = starts.now } }
{
    validity_is_by_parts();
    kept_models_can_be_run();
    declared_lines_decide();
    let _first = first.model();
    match check_starts(second, starts) {
        Ok(starts) => starts,
        Err(_error) => unreachable!(),
    }
}

/// The answer for two models of which the first takes the starting values.
fn comparing(
    alloc: Global,
    first: &AllowedStarts<'_, '_>,
    second: &Model,
    options: &CompareOptions,
) -> Result<Answer, NoMemory>
    requires first_valid { IsValid (graph_of first.now.model) }
    requires second_valid { IsValid (graph_of second.now) }
    requires given { first.now.values ≡ options.now.starts }
    requires soon { options.now.until ≤ STOP_MAX }
    requires budget { options.now.events ≤ EVENTS_MAX }
    requires within_maximum { options.now.runs ≤ RUNS_MAX }
    ensures { IfOk result
        (OfForms (graph_of first.now.model) (graph_of second.now) (λ one other.
        comparing_answer (graph_of first.now.model) (graph_of second.now) one other options.now)) }
{
    normal_forms_keep_the_meaning();
    match declared_apart(alloc, first.model(), second)? {
        Some(lines) => Ok(Answer::Given(End::Differs, declared_text(alloc, &lines)?)),
        None => {
            let others = taken_too(first, second, options.starts.as_slice());
            same_or_compare_runs(alloc, first, &others, options)
        }
    }
}

/// Compares the models: what they declare, then their normal forms, and then run by run what is shown.
pub fn compare<K: Sink>(
    alloc: Global,
    pair: &ModelPair,
    options: &CompareOptions,
    output: &mut K,
) -> Result<DeliveryOutcome, Failure>
    requires first_valid { IsValid (graph_of pair.now.first) }
    requires second_valid { IsValid (graph_of pair.now.second) }
    requires soon { options.now.until ≤ STOP_MAX }
    requires budget { options.now.events ≤ EVENTS_MAX }
    requires within_maximum { options.now.runs ≤ RUNS_MAX }
    ensures { DeliversSome K.seen
        (λ a. Compares (graph_of pair.now.first) (graph_of pair.now.second) options.now a)
        ⊥ result output.old output.new }
{
    validity_is_by_parts();
    kept_models_can_be_run();
    normal_forms_keep_the_meaning();
    match check_starts(&pair.first, options.starts.as_slice()) {
        Ok(starts) => deliver(output, comparing(alloc, &starts, &pair.second, options)),
        Err(error) => refuse_start(alloc, error),
    }
}
