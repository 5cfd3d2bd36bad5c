//! The parts of a run made from its snapshot: its streams, its pending events and its state.

ghost use Rattle.std.specs.Prelude.{◌≡◌, ◌+◌, ◌<◌, ◌≤◌, ◌^◌, length, map, replicate, slice_set, [], IsTrue, IfOk};
ghost use Rattle.std.specs.List.{AllByRecursion};
ghost use Rattle.model_core.specs.Run.State.{variable_at, cell_count, cells_of, in_ranges};
ghost use Rattle.model_core.specs.Code.Views.{graph_of};
ghost use Rattle.model_core.specs.Saved.Cells.{cut_up, cell_variables};

use event_list::{Entry, Pending};
use model_core::Model;
use random_streams::Streams;
use sig_base::{NoMemory, Steps};
use sig_expr::{State, store};
use std::alloc::Global;
use std::sync::ledger::{Blank, Ledger};

/// The random streams of a run with this seed, after so many words of each.
pub(crate) fn streams_after(seed: u64, taken: &[u64]) -> Streams
    requires streams { length taken.now ≡ 64 }
    requires words_fit { AllByRecursion (λ n. n ≤ 2 ^ 52) taken.now }
    ensures { result ≡ record { seed = seed; taken = taken.now } }
{
    let mut streams = Streams::begin(seed);
    for stream in 0..64 {
        streams.advance(stream, taken[stream as usize]);
    }
    streams
}

/// Schedules events in a list that is empty, one after the other, without a count of key comparisons.
pub(crate) fn schedule_all<P: Pending, L: Ledger>(pending: &mut P, entries: &[Entry], blank: Blank)
    requires name { blank.name ≡ L.name }
    requires parts { blank.parts ≡ L.parts }
    requires some { 0 < blank.parts }
    requires empty { P.entries pending.old ≡ [] }
    requires fresh { P.numbered pending.old ≡ 0 }
    requires spare { length entries.now ≤ P.spare pending.old }
    requires entries_fit { length entries.now < 2 ^ 61 }
    requires vertices_exist { AllByRecursion (λ e. e.vertex < P.vertices pending.old) entries.now }
    ensures entries { P.entries pending.new ≡ entries.now }
    ensures room { P.spare pending.old ≤ P.spare pending.new + length entries.now }
    ensures numbered { P.numbered pending.new ≡ length entries.now }
    ensures vertices { P.vertices pending.new ≡ P.vertices pending.old }
{
    let mut steps: Steps<L> = Steps::begin(blank);
    for entry in entries {
        pending.schedule(entry, &mut steps);
    }
}

/// Puts values into the cells of a variable, which all lie in its range.
fn put_variable(model: &Model, var: usize, values: &[i64], state: &mut State)
    requires declared { var < length model.now.vars }
    requires exists { var < length state.old }
    requires matched { length values.now ≡ length (cells_of state.old var) }
    requires inside { IsTrue
        (in_ranges (replicate (length values.now)
        (variable_at (graph_of model.now) var)) values.now) }
    ensures { state.new ≡ slice_set state.old var values.now }
{
    for i in 0..values.len() {
        store(model, var, i, values[i], state).unwrap();
    }
}

/// The state of a model in which all cells hold these values, in order.
pub(crate) fn state_of(alloc: Global, model: &Model, values: &[i64]) -> Result<State, NoMemory>
    requires { IsTrue (in_ranges (cell_variables (graph_of model.now).variables) values.now) }
    ensures { IfOk result
        (λ state. state ≡ cut_up (map cell_count (graph_of model.now).variables) values.now) }
{
    let mut state = State::begin(alloc, model)?;
    let mut from = 0;
    for var in 0..model.vars.len() {
        let upto = from + state.cells(var).len();
        put_variable(model, var, &values[from..upto], &mut state);
        from = upto;
    }
    Ok(state)
}
