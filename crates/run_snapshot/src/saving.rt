//! Saving: the snapshot of a run where it stands.

ghost use Rattle.std.specs.Prelude.{◌≡◌, ◌<◌, length, IfOk, None};
ghost use Rattle.std.specs.Option.{option_map};
ghost use Rattle.watch_trace.specs.Tracing.{moment_of};
ghost use Rattle.model_core.specs.Saved.Cells.{in_one_list};
ghost use Rattle.model_core.specs.Saved.DueOrder.{in_due_order};
ghost use Rattle.model_core.specs.Saved.SavedRun.{saved};

use event_list::{Entry, Pending};
use model_core::Model;
use random_streams::Streams;
use run_control::{Parts, Run};
use sig_base::{List, NoMemory, Steps};
use sig_expr::State;
use snapshot_text::Snapshot;
use std::alloc::Global;
use std::marker::Brand;
use std::sync::ledger::{Blank, Ledger};
use watch_trace::Tracer;

/// The values of all cells, in order.
fn all_cells(alloc: Global, model: &Model, state: &State) -> Result<List<i64>, NoMemory>
    requires { length state.now ≡ length model.now.vars }
    ensures { IfOk result (λ values. values ≡ in_one_list state.now) }
{
    let mut values = Vec::new(alloc);
    for var in 0..model.vars.len() {
        values.extend_from_slice(state.cells(var))?;
    }
    Ok(List::from_vec(values))
}

/// How many words each stream gave.
fn all_taken(alloc: Global, streams: &Streams) -> Result<List<u64>, NoMemory>
    ensures { IfOk result (λ taken. taken ≡ streams.now.taken) }
{
    let mut taken = Vec::with_capacity(alloc, 64)?;
    for stream in 0..64 {
        taken.push(streams.words_taken(stream))?;
    }
    Ok(List::from_vec(taken))
}

/// Values, if there are any, once more.
fn again(alloc: Global, values: Option<&[i64]>) -> Result<Option<List<i64>>, NoMemory>
    ensures { IfOk result (λ copy. copy ≡ option_map (λ v. v.now) values.entry) }
{
    let Some(values) = values else {
        return Ok(None);
    };
    let mut copy = Vec::with_capacity(alloc, values.len())?;
    copy.extend_from_slice(values)?;
    Ok(Some(List::from_vec(copy)))
}

/// Takes all events off a pending list, each time the next, without a count of key comparisons.
fn all_due<P: Pending, L: Ledger>(
    alloc: Global,
    pending: &mut P,
    blank: Blank,
) -> Result<List<Entry>, NoMemory>
    requires name { blank.name ≡ L.name }
    requires parts { blank.parts ≡ L.parts }
    requires some { 0 < blank.parts }
    ensures { IfOk result (λ entries. entries ≡ in_due_order (P.entries pending.old)) }
{
    let mut steps: Steps<L> = Steps::begin(blank);
    let mut entries = Vec::with_capacity(alloc, pending.count())?;
    while let Some(entry) = pending.take_first(&mut steps) {
        entries.push(entry)?;
    }
    Ok(List::from_vec(entries))
}

/// The snapshot of a run: its parts, with this seed, how many steps it made, and the values that its tracer noted last.
pub fn save<'m, P: Pending>(
    alloc: Global,
    model: &'m Model,
    run: Run<'m, P>,
    tracer: &Tracer<'m>,
    seed: u64,
) -> Result<Snapshot, NoMemory>
where
    P: Drop,
    requires one_model { run.model ≡ model.now }
    requires traced { tracer.now.model ≡ model.now }
    requires goes_on { run.faulted ≡ None }
    ensures { IfOk result
        (λ snapshot. snapshot ≡ saved seed run.entry.turns (moment_of run.entry tracer.now)) }
{
    let Parts {
        mut pending,
        state,
        streams,
        clock,
        turns,
    } = run.into_parts();
    Ok(Snapshot {
        seed,
        clock,
        events: turns,
        taken: all_taken(alloc, &streams)?,
        values: all_cells(alloc, model, &state)?,
        noted: again(alloc, tracer.noted_values())?,
        pending: all_due::<P, Brand>(alloc, &mut pending, Blank::new(1))?,
    })
}
