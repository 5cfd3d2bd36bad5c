//! Runs that are taken apart between their steps and put together again, over both lists: they go
//! on as runs that aren't, and an event can be scheduled in between.

ghost use Rattle.std.specs.Prelude.{◌≡◌, ◌++◌, ◌∷◌, ◌<◌, ◌≤◌, ◌^◌, [], length, None, IfOk};
ghost use Rattle.model_core.specs.Code.Views.{graph_of};
ghost use Rattle.run_control.specs.PossibleModel.{PossibleModel};

use crate::small_models::{CLOCK, CUT, DICE, Refused, model_of};
use event_heap::HeapPending;
use event_list::{Entry, Pending, PlainPending};
use model_core::Model;
use run_control::{Parts, Run, Turn, kept_models_can_be_run};
use sig_base::{Carried, List, NoMemory, Steps};
use std::alloc::Global;
use std::marker::Brand;
use std::mem::forget;
use std::sync::ledger::{Blank, Ledger};
use std::test::*;

/// The run built from a run's parts. It is that run, but for a fault, which is no part.
fn put_together<'m, P: Pending>(model: &'m Model, run: Run<'m, P>) -> Run<'m, P>
    requires possible { PossibleModel (graph_of model.now) }
    requires one_model { run.model ≡ model.now }
    ensures { result ≡ record run.entry { faulted = None } }
{
    let Parts {
        pending,
        state,
        streams,
        clock,
        turns,
    } = run.into_parts();
    Run::from_parts(model, pending, state, streams, clock, turns)
}

/// The same where that is asked for, and else the run.
fn put_together_if<'m, P: Pending>(apart: bool, model: &'m Model, run: Run<'m, P>) -> Run<'m, P>
    requires possible { PossibleModel (graph_of model.now) }
    requires one_model { run.model ≡ model.now }
    ensures model { result.model ≡ model.now }
    ensures turns { result.turns ≡ run.entry.turns }
{
    if apart { put_together(model, run) } else { run }
}

/// A run after six steps: the answer of each, the clock's time, how many steps were made, and how
/// many events are pending and were ever scheduled.
#[derive(Clone, Copy, Debug, PartialEq, Eq)]
struct AfterSixSteps {
    turns: [Turn; 6],
    clock: u64,
    made: u64,
    pending: usize,
    numbered: u64,
}

/// A run after six steps from its beginning, before each of which it is taken apart where that is
/// asked for.
fn after_six_steps<'m, P: Pending + Drop, L: Ledger>(
    model: &'m Model,
    run: Run<'m, P>,
    apart: bool,
    until: u64,
    blank: Blank,
) -> Result<AfterSixSteps, NoMemory>
    requires possible { PossibleModel (graph_of model.now) }
    requires one_model { run.model ≡ model.now }
    requires fresh { run.turns ≡ 0 }
    requires soon { until ≤ 2 ^ 48 }
    requires name { blank.name ≡ L.name }
    requires parts { blank.parts ≡ L.parts }
    requires some { 0 < blank.parts }
{
    let mut run = run;
    let mut steps: Steps<L> = Steps::begin(blank);
    let mut turns = [Turn::Stopped; 6];
    for i in 0..6 {
        run = put_together_if(apart, model, run);
        turns[i] = run.step(until, &mut steps)?;
    }
    let after = AfterSixSteps {
        turns,
        clock: run.clock(),
        made: run.turns(),
        pending: run.pending().count(),
        numbered: run.pending().numbered(),
    };
    forget(run);
    Ok(after)
}

/// A run with the seed 42 and no starting values after six steps up to 16 over an empty list.
fn after_six_steps_over<P: Pending + Drop, L: Ledger>(
    alloc: Global,
    model: &Model,
    pending: P,
    apart: bool,
    blank: Blank,
) -> Result<AfterSixSteps, Refused>
    requires possible { PossibleModel (graph_of model.now) }
    requires empty { P.entries pending ≡ [] }
    requires fresh { P.numbered pending ≡ 0 }
    requires made_for { P.vertices pending ≡ length model.now.vertices }
    requires name { blank.name ≡ L.name }
    requires parts { blank.parts ≡ L.parts }
    requires some { 0 < blank.parts }
{
    let run = Run::begin(alloc, model, pending, 42, &List::new(alloc), 1)?;
    Ok(after_six_steps::<P, L>(model, run, apart, 16, blank)?)
}

/// The runs that are left whole and those that are taken apart, each over the plain list and over
/// heaps.
fn four_ways(alloc: Global, model: &Model) -> Result<[AfterSixSteps; 4], Refused>
    requires { PossibleModel (graph_of model.now) }
{
    let vertices = model.vertices.len();
    let plain = PlainPending::begin(alloc, vertices);
    let whole = after_six_steps_over::<PlainPending, Brand>(
        alloc,
        model,
        plain,
        false,
        Blank::new(1),
    )?;
    let plain = PlainPending::begin(alloc, vertices);
    let apart = after_six_steps_over::<PlainPending, Brand>(
        alloc,
        model,
        plain,
        true,
        Blank::new(1),
    )?;
    let heaps = HeapPending::begin(alloc, vertices)?;
    let heaped = after_six_steps_over::<HeapPending, Brand>(
        alloc,
        model,
        heaps,
        false,
        Blank::new(1),
    )?;
    let heaps = HeapPending::begin(alloc, vertices)?;
    let both = after_six_steps_over::<HeapPending, Brand>(
        alloc,
        model,
        heaps,
        true,
        Blank::new(1),
    )?;
    Ok([whole, apart, heaped, both])
}

/// Whether all four runs of a text's model are so after six steps.
fn all_end_so(alloc: Global, text: &[u8], wanted: AfterSixSteps) -> Result<bool, Refused> {
    let model = model_of(alloc, text)?;
    kept_models_can_be_run();
    let all = four_ways(alloc, &model);
    forget(model);
    Ok(all? == [wanted; 4])
}

/// The turn of an event of a vertex at this time.
fn ran(vertex: usize, time: u64) -> Turn {
    Turn::Ran { vertex, time }
}

#[test]
fn a_run_of_parts_goes_on_as_the_whole_one(rt: HostRuntime) -> Result<(), Fail> {
    let alloc = rt.alloc();
    let clock = AfterSixSteps {
        turns: [
            ran(0, 0),
            ran(0, 5),
            ran(0, 10),
            ran(0, 15),
            Turn::Stopped,
            Turn::Stopped,
        ],
        clock: 15,
        made: 4,
        pending: 1,
        numbered: 5,
    };
    assert!(rt; all_end_so(alloc, CLOCK, clock)?);
    let cut = AfterSixSteps {
        turns: [
            ran(0, 0),
            ran(1, 5),
            ran(1, 6),
            Turn::Ended { time: 6 },
            Turn::Ended { time: 6 },
            Turn::Ended { time: 6 },
        ],
        clock: 6,
        made: 3,
        pending: 0,
        numbered: 4,
    };
    assert!(rt; all_end_so(alloc, CUT, cut)?);
    let dice = AfterSixSteps {
        turns: [
            ran(0, 0),
            ran(0, 4),
            ran(0, 7),
            ran(0, 12),
            ran(0, 16),
            Turn::Stopped,
        ],
        clock: 16,
        made: 5,
        pending: 1,
        numbered: 6,
    };
    assert!(rt; all_end_so(alloc, DICE, dice)?);
    Ok(())
}

/// The run with an event of the first vertex more, at this time, that carries nothing.
fn with_one_more<'m, P: Pending + Drop, L: Ledger>(
    model: &'m Model,
    run: Run<'m, P>,
    time: u64,
    steps: &mut Steps<L>,
) -> Result<Run<'m, P>, NoMemory>
    requires possible { PossibleModel (graph_of model.now) }
    requires one_model { run.model ≡ model.now }
    requires few { run.numbered < 2 ^ 61 }
    ensures model { IfOk result (λ later. later.model ≡ model.now) }
    ensures turns { IfOk result (λ later. later.turns ≡ run.entry.turns) }
    ensures pending { IfOk result
        (λ later. later.now.pending
        ≡ run.entry.now.pending
        ++ record { time = time; priority = 5; vertex = 0; values = [] } ∷ []) }
{
    let Parts {
        mut pending,
        state,
        streams,
        clock,
        turns,
    } = run.into_parts();
    pending.reserve(1)?;
    let entry = Entry {
        time,
        priority: 5,
        vertex: 0,
        values: Carried::new(),
    };
    pending.schedule(&entry, steps);
    Ok(Run::from_parts(model, pending, state, streams, clock, turns))
}

/// The answers of four steps of a run from its beginning, where after the first one an event of the
/// first vertex at 7 is scheduled besides.
fn turns_with_one_more<P: Pending + Drop, L: Ledger>(
    alloc: Global,
    model: &Model,
    pending: P,
    blank: Blank,
) -> Result<[Turn; 4], Refused>
    requires possible { PossibleModel (graph_of model.now) }
    requires empty { P.entries pending ≡ [] }
    requires fresh { P.numbered pending ≡ 0 }
    requires made_for { P.vertices pending ≡ length model.now.vertices }
    requires name { blank.name ≡ L.name }
    requires parts { blank.parts ≡ L.parts }
    requires some { 0 < blank.parts }
{
    let mut steps: Steps<L> = Steps::begin(blank);
    let mut run = Run::begin(alloc, model, pending, 42, &List::new(alloc), 1)?;
    let first = run.step(16, &mut steps)?;
    let mut more = with_one_more(model, run, 7, &mut steps)?;
    let mut turns = [first; 4];
    for i in 1..4 {
        turns[i] = more.step(16, &mut steps)?;
    }
    forget(more);
    Ok(turns)
}

/// The same for the clock, over the plain list and over heaps.
fn clock_with_one_more(alloc: Global) -> Result<[[Turn; 4]; 2], Refused> {
    let model = model_of(alloc, CLOCK)?;
    kept_models_can_be_run();
    let vertices = model.vertices.len();
    let plain = PlainPending::begin(alloc, vertices);
    let one = turns_with_one_more::<PlainPending, Brand>(alloc, &model, plain, Blank::new(1));
    let heaps = HeapPending::begin(alloc, vertices)?;
    let other = turns_with_one_more::<HeapPending, Brand>(alloc, &model, heaps, Blank::new(1));
    forget(model);
    Ok([one?, other?])
}

#[test]
fn an_event_is_scheduled_between_two_steps(rt: HostRuntime) -> Result<(), Fail> {
    let turns = [ran(0, 0), ran(0, 5), ran(0, 7), ran(0, 10)];
    assert!(rt; clock_with_one_more(rt.alloc())? == [turns; 2]);
    Ok(())
}
