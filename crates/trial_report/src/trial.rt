//! A trial: a number makes a model, the model is reduced, and both are run.

ghost use Rattle.std.specs.Prelude.{◌≡◌, ◌≤◌, [], ◌++◌, length, OnOk, IfOk};
ghost use Rattle.sig_base.specs.declared.limits.TheConstants.{STOP_MAX, EVENTS_MAX};
ghost use Rattle.model_core.specs.EventGraph.{EventGraph};
ghost use Rattle.model_core.specs.Run.Step.{vertex_at};
ghost use Rattle.model_core.specs.Static.Reading.{IsValid};
ghost use Rattle.model_core.specs.Code.Views.{graph_of};
ghost use Rattle.trial_report.specs.Inner.RunMeasures.{IsMeasureOf};
ghost use Rattle.trial_report.specs.TrialText.{run_line, reduction_lines, Summarises};

use crate::run_measure::{RunMeasure, measure};
use crate::summary::{put_applications, put_run, put_size};
use model_core::Model;
use model_gen::generate;
use reducer::{Reduced, reduce, strategies_keep_the_meaning};
use sig_base::{NoMemory, Text};
use std::alloc::Global;

/// Runs a model whose first vertex has no parameters, and puts how it went.
fn put_run_of(
    alloc: Global,
    out: &mut Vec<u8>,
    name: &[u8],
    model: &Model,
    seed: u64,
    until: u64,
    events: u64,
) -> Result<(), NoMemory>
    requires valid { IsValid (graph_of model.now) }
    requires plain { (vertex_at (graph_of model.now) 0).parameters ≡ [] }
    requires soon { until ≤ STOP_MAX }
    requires budget { events ≤ EVENTS_MAX }
    ensures { OnOk result
        (out.new.items
        ≡ out.old.items ++ run_line name.now (graph_of model.now) seed until events) }
{
    let run = measure(alloc, model, seed, until, events)?;
    put_run(out, name, until, events, run)
}

/// Puts all lines but the first, where this is how a run of the model went that was reduced.
fn put_reduction(
    alloc: Global,
    out: &mut Vec<u8>,
    reduced: &Reduced,
    run: RunMeasure,
    seed: u64,
    until: u64,
    events: u64,
) -> Result<(), NoMemory>
    requires valid { IsValid (graph_of reduced.now.model) }
    requires plain { (vertex_at (graph_of reduced.now.model) 0).parameters ≡ [] }
    requires soon { until ≤ STOP_MAX }
    requires budget { events ≤ EVENTS_MAX }
    ensures { (g : EventGraph) → IsMeasureOf g seed until events run
        → OnOk result
        (out.new.items
        ≡ out.old.items
        ++ reduction_lines g (graph_of reduced.now.model)
        (length reduced.now.applications) seed until events) }
{
    put_size(out, b"reduced", &reduced.model)?;
    put_applications(out, reduced.applications.len())?;
    put_run(out, b"original", until, events, run)?;
    put_run_of(alloc, out, b"reduced", &reduced.model, seed, until, events)
}

/// The summary of a trial: how large the model is that a seed makes with so many vertices, how large what it is reduced
/// to, by how many applications of rules; and of a run of each with this seed, up to a stop time in ticks and for at
/// most so many events, its standing then, how many steps it made, and how many notes its history has.
pub fn trial_text(
    alloc: Global,
    seed: u64,
    vertices: usize,
    until: u64,
    events: u64,
) -> Result<Text, NoMemory>
    requires some { 1 ≤ vertices }
    requires few_vertices { vertices ≤ 500 }
    requires soon { until ≤ STOP_MAX }
    requires budget { events ≤ EVENTS_MAX }
    ensures { IfOk result (Summarises seed vertices until events) }
{
    strategies_keep_the_meaning();
    let model = generate(alloc, seed, vertices)?;
    let mut out = Vec::new(alloc);
    put_size(&mut out, b"original", &model)?;
    let run = measure(alloc, &model, seed, until, events)?;
    let reduced = reduce(alloc, model)?;
    put_reduction(alloc, &mut out, &reduced, run, seed, until, events)?;
    Ok(Text::from_vec(out))
}
