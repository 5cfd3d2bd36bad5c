//! Histories of runs of small models, as they are written to a sink, and what a sink that fails has
//! taken.

ghost use Rattle.std.specs.Prelude.{◌≡◌, ◌<◌, ◌≤◌, ◌^◌, None, IfOk};
ghost use Rattle.model_core.specs.Code.Views.{graph_of};
ghost use Rattle.run_control.specs.PossibleModel.{PossibleModel};

use crate::small_models::{CLOCK, CUT, Refused, model_of};
use event_list::PlainPending;
use model_core::Model;
use run_control::{Run, kept_models_can_be_run};
use sig_base::{List, MemorySink, Sink, Steps};
use std::alloc::Global;
use std::marker::Brand;
use std::mem::forget;
use std::sync::ledger::{Blank, Ledger};
use std::test::*;
use watch_trace::{Outcome, Tracer, follow};

/// A run with the seed 42, no starting values and room for two events, as it begins.
fn begun<'m>(alloc: Global, model: &'m Model) -> Result<Run<'m, PlainPending>, Refused>
    requires { PossibleModel (graph_of model.now) }
    ensures model { IfOk result (λ run. run.model ≡ model.now) }
    ensures fresh { IfOk result (λ run. run.turns ≡ 0) }
    ensures goes_on { IfOk result (λ run. run.faulted ≡ None) }
{
    let pending = PlainPending::begin(alloc, model.vertices.len());
    Ok(Run::begin(alloc, model, pending, 42, &List::new(alloc), 2)?)
}

/// The outcome of following a run from its beginning, and then, where it has spent its budget, for
/// a hundred events more; and how many steps were made.
fn followed<K: Sink, L: Ledger>(
    alloc: Global,
    model: &Model,
    until: u64,
    events: u64,
    sink: &mut K,
    blank: Blank,
) -> Result<(Outcome, Outcome, u64), Refused>
    requires possible { PossibleModel (graph_of model.now) }
    requires soon { until ≤ 2 ^ 48 }
    requires few { events ≤ 1000 }
    requires name { blank.name ≡ L.name }
    requires parts { blank.parts ≡ L.parts }
    requires some { 0 < blank.parts }
{
    let mut steps: Steps<L> = Steps::begin(blank);
    let mut tracer = Tracer::begin(alloc, model)?;
    let mut run = begun(alloc, model)?;
    let first = follow(&mut tracer, &mut run, until, events, sink, &mut steps);
    let last = match first {
        Outcome::Budget => follow(&mut tracer, &mut run, until, 100, sink, &mut steps),
        other => other,
    };
    let turns = run.turns();
    forget(run);
    forget(tracer);
    Ok((first, last, turns))
}

/// The outcome of following a run of a model for so many events, and then on, with the steps made
/// and the sink after it.
fn history(
    alloc: Global,
    text: &[u8],
    until: u16,
    events: u64,
    sink: MemorySink,
) -> Result<((Outcome, Outcome, u64), MemorySink), Refused>
    requires { events ≤ 1000 }
{
    let mut sink = sink;
    let model = model_of(alloc, text)?;
    kept_models_can_be_run();
    let outcomes = followed::<MemorySink, Brand>(
        alloc,
        &model,
        u64::from(until),
        events,
        &mut sink,
        Blank::new(1),
    );
    forget(model);
    Ok((outcomes?, sink))
}

/// How many calls of a sink the history of a model's run makes.
fn calls(alloc: Global, text: &[u8], until: u16) -> Result<u64, Refused> {
    let sink = MemorySink::begin(alloc, 1000, 1000, List::new(alloc))?;
    let (_, sink) = history(alloc, text, until, 1000, sink)?;
    let calls = sink.calls();
    forget(sink);
    Ok(calls)
}

#[test]
fn each_line_is_one_call(rt: HostRuntime) -> Result<(), Fail> {
    assert!(rt; calls(rt.alloc(), CLOCK, 12)? == 4);
    assert!(rt; calls(rt.alloc(), CUT, 100)? == 6);
    Ok(())
}

/// Whether the history of the clock up to 12, a hundred events at most after so many, comes to
/// this, and is written so.
fn is_followed_on(
    alloc: Global,
    events: u64,
    outcomes: (Outcome, Outcome, u64),
    written: &[u8],
) -> Result<bool, Refused>
    requires { events ≤ 1000 }
{
    let sink = MemorySink::begin(alloc, 1000, 1000, List::new(alloc))?;
    let (found, sink) = history(alloc, CLOCK, 12, events, sink)?;
    let is_so = found == outcomes && sink.written() == written;
    forget(sink);
    Ok(is_so)
}

#[test]
fn a_run_is_followed_on_from_its_budget(rt: HostRuntime) -> Result<(), Fail> {
    let outcomes = (Outcome::Budget, Outcome::Stopped, 3);
    let written: &[u8] = b"at 0 N=1\nbudget 2\nat 5 N=2\nat 10 N=3\nstopped 12\n";
    assert!(rt; is_followed_on(rt.alloc(), 2, outcomes, written)?);
    Ok(())
}

/// Whether a run of the clock up to 12, of whose history this call fails, ends there, with so many
/// steps made and these bytes taken.
fn ends_at_call(alloc: Global, failing: u64, turns: u64, written: &[u8]) -> Result<bool, Refused> {
    let sink = MemorySink::begin(alloc, 1000, 1, List::of_one(alloc, failing)?)?;
    let (outcomes, sink) = history(alloc, CLOCK, 12, 1000, sink)?;
    let ended = outcomes.0 == Outcome::WriteFault && outcomes.2 == turns;
    let as_wanted = ended && sink.calls() == failing && sink.written() == written;
    forget(sink);
    Ok(as_wanted)
}

/// The history of the clock up to 12 takes 39 calls of one byte each. Where a call fails, what the
/// calls before it took is kept, and no call is made after it, nor any step but the one of its
/// move: the note of time 0, the first nine bytes, is written in the move of the second step.
#[test]
fn no_call_is_made_after_one_that_failed(rt: HostRuntime) -> Result<(), Fail> {
    let alloc = rt.alloc();
    let whole: &[u8] = b"at 0 N=1\nat 5 N=2\nat 10 N=3\nstopped 12\n";
    for failing in 1..40 {
        let turns = if failing < 10 { 2 } else { 3 };
        let written = &whole[..failing as usize - 1];
        assert!(rt;
            ends_at_call(alloc, failing, turns, written)?,
            "at call {failing}"
        );
    }
    Ok(())
}
