//! The text of what a run shows, in memory.

ghost use Rattle.std.specs.Prelude.{◌≡◌, ◌≤◌, ◌-◌, ◌++◌, IfOk, OnOk, codes, decimal, length, take};
ghost use Rattle.sig_base.specs.declared.limits.TheConstants.{STOP_MAX, EVENTS_MAX};
ghost use Rattle.model_core.specs.Static.Reading.{IsValid};
ghost use Rattle.model_core.specs.Run.History.{look};
ghost use Rattle.model_core.specs.Code.Views.{graph_of};
ghost use Rattle.run_control.specs.Beginning.{BegunRun};
ghost use Rattle.model_pairs.specs.RunsApart.{shown_text};
ghost use Rattle.model_pairs.specs.Inner.WrittenRuns.{IsShownOf};

use crate::growing_sink::GrowingSink;
use event_heap::HeapPending;
use round_trip::validity_is_by_parts;
use run_control::{AllowedStarts, ROOM, Run, kept_models_can_be_run};
use sig_base::{NoMemory, Text, put_bytes, put_counted};
use std::alloc::Global;
use watch_trace::{Outcome, Tracer, write_history};

/// A run as it begins.
fn begin<'m>(
    alloc: Global,
    starts: &AllowedStarts<'m, '_>,
    seed: u64,
) -> Result<Run<'m, HeapPending>, NoMemory>
    requires { IsValid (graph_of starts.now.model) }
    ensures { IfOk result (BegunRun starts.now.model seed starts.now.values 4096) }
{
    validity_is_by_parts();
    kept_models_can_be_run();
    let pending = HeapPending::begin(alloc, starts.model().vertices.as_slice().len())?;
    Run::begin_with(alloc, starts, pending, seed, ROOM)
}

/// Takes the line away that says that a budget of so many events is spent.
fn cut_budget_line(alloc: Global, text: &mut Vec<u8>, events: u64) -> Result<(), NoMemory>
    ensures { OnOk result
        (text.new.items
        ≡ take (length text.old.items - length (codes "budget " ++ decimal events ++ codes "\n"))
        text.old.items) }
{
    let mut line = Vec::new(alloc);
    put_counted(&mut line, b"budget ", events)?;
    put_bytes(&mut line, b"\n")?;
    text.truncate(text.len().saturating_sub(line.len()));
    Ok(())
}

/// What is shown of a run of this outcome, of which so much was written.
fn shown_of(
    alloc: Global,
    outcome: Outcome,
    events: u64,
    written: Vec<u8>,
) -> Result<Text, NoMemory>
    ensures { IfOk result (λ t. IsShownOf outcome events written.items t) }
{
    let mut written = written;
    match outcome {
        Outcome::Ended { time: _ } => Ok(Text::from_vec(written)),
        Outcome::Stopped => Ok(Text::from_vec(written)),
        Outcome::Faulted { time: _, kind: _ } => Ok(Text::from_vec(written)),
        Outcome::Budget => {
            cut_budget_line(alloc, &mut written, events)?;
            Ok(Text::from_vec(written))
        }
        Outcome::WriteFault => Err(NoMemory),
        Outcome::NoMemory => Err(NoMemory),
    }
}

/// The text of what a run shows that has begun.
fn follow<'m>(
    alloc: Global,
    starts: &AllowedStarts<'m, '_>,
    run: &mut Run<'m, HeapPending>,
    until: u64,
    events: u64,
) -> Result<Text, NoMemory>
    requires soon { until ≤ STOP_MAX }
    requires budget { events ≤ EVENTS_MAX }
    requires begun { BegunRun starts.now.model run.old.seed starts.now.values 4096 run.old }
    ensures { IfOk result
        (λ t. t ≡ shown_text (graph_of starts.now.model) until events
        (look (graph_of starts.now.model) run.old.seed starts.now.values until events)) }
{
    let mut tracer = Tracer::begin(alloc, starts.model())?;
    let mut sink = GrowingSink::begin(alloc);
    let outcome = write_history(&mut tracer, run, until, events, &mut sink);
    shown_of(alloc, outcome, events, sink.bytes)
}

/// The text of what a run shows.
pub(crate) fn shown(
    alloc: Global,
    starts: &AllowedStarts<'_, '_>,
    seed: u64,
    until: u64,
    events: u64,
) -> Result<Text, NoMemory>
    requires valid { IsValid (graph_of starts.now.model) }
    requires soon { until ≤ STOP_MAX }
    requires budget { events ≤ EVENTS_MAX }
    ensures { IfOk result
        (λ t. t ≡ shown_text (graph_of starts.now.model) until events
        (look (graph_of starts.now.model) seed starts.now.values until events)) }
{
    let mut run = begin(alloc, starts, seed)?;
    follow(alloc, starts, &mut run, until, events)
}
