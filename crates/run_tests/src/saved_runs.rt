//! Saved runs that are read from the tokens of a document, and where tokens aren't one.

ghost use Rattle.std.specs.Prelude.{◌≤◌, length, IfOk};
ghost use Rattle.std.specs.List.{AllByRecursion};
ghost use Rattle.sig_base.specs.declared.limits.TheConstants.{PARAMETERS_MAX};
ghost use Rattle.model_core.specs.EventGraph.{EventVertex};
ghost use Rattle.model_core.specs.Code.Views.{graph_of};

use crate::small_models::{Refused, model_of};
use event_list::Entry;
use model_core::Model;
use model_lex::tokens;
use snapshot_text::{Snapshot, SnapshotError, read_snapshot, snapshot_fault};
use std::alloc::Global;
use std::test::*;

const MODEL: &[u8] = b"model SAVED; var Z : -9..9 = 0; watch Z;
    vertex RUN { schedule D(1) after 5; } vertex D(Z) { } end";

/// The last token of a model text, and a saved run after it.
const SAVED: &[u8] = b"end
snapshot
seed 2 3
clk 4
events 1
stream 9 7
value Z -5
noted -5
pending 6 100 D(8)
end";

/// The value isn't in its range.
const OUTSIDE: &[u8] = b"end snapshot seed 0 1 clk 4 events 1 value Z 10 pending 6 100 D(8) end";

/// The seed has one number.
const NO_SNAPSHOT: &[u8] = b"end snapshot seed 0 clk 4 events 1 value Z 0 end";

/// The model of the saved runs. None of its vertices has more parameters than a vertex may have.
fn saved_model(alloc: Global) -> Result<Model, Refused>
    ensures { IfOk result
        (λ model. AllByRecursion
        (λ (v : EventVertex). length v.parameters ≤ PARAMETERS_MAX)
        (graph_of model).vertices) }
{
    let model = model_of(alloc, MODEL)?;
    Ok(model)
}

/// Where the tokens after the first one stop to begin a saved run, if they aren't one.
fn fault_after_end(alloc: Global, text: &[u8]) -> Result<Option<usize>, SnapshotError> {
    let tokens = tokens(alloc, text).map_err(|_| SnapshotError::NoMemory)?;
    Ok(snapshot_fault(&tokens, 1))
}

#[test]
fn tokens_that_are_no_saved_run_are_refused_at_their_byte(rt: HostRuntime) {
    for (text, at) in [(SAVED, None), (OUTSIDE, None), (NO_SNAPSHOT, Some(20))] {
        assert_eq!(rt; fault_after_end(rt.alloc(), text), Ok(at));
    }
}

/// The saved run of a model that the tokens after the first one are.
fn read_of(alloc: Global, model: &Model, text: &[u8]) -> Result<Snapshot, SnapshotError>
    requires { AllByRecursion
        (λ (v : EventVertex). length v.parameters ≤ PARAMETERS_MAX)
        (graph_of model.now).vertices }
{
    let tokens = tokens(alloc, text).map_err(|_| SnapshotError::NoMemory)?;
    match snapshot_fault(&tokens, 1) {
        None => read_snapshot(alloc, model, &tokens, 1),
        Some(_) => Err(SnapshotError::NoMemory),
    }
}

/// The same of the model of the saved runs.
fn read_after_end(alloc: Global, text: &[u8]) -> Result<Snapshot, SnapshotError> {
    match saved_model(alloc) {
        Ok(model) => read_of(alloc, &model, text),
        Err(_) => Err(SnapshotError::NoMemory),
    }
}

/// Whether of the random streams stream 9 alone gave words, and seven.
fn are_taken_from_nine(taken: &[u64]) -> bool {
    for (stream, words) in taken.iter().enumerate() {
        let wanted = if stream == 9 { 7 } else { 0 };
        if *words != wanted {
            return false;
        }
    }
    taken.len() == 64
}

/// Whether the one event that is pending is due at 10, 6 ticks after the clock, with the value 8.
fn is_due_at_ten(pending: &[Entry]) -> bool {
    if pending.len() != 1 {
        return false;
    }
    let event = &pending[0];
    (event.time == 10 && event.priority == 100 && event.vertex == 1)
        && event.values.as_slice() == [8].as_slice()
}

/// Whether the two numbers of the seed are 2 and 3, and all else is as the text has it.
fn is_as_written(saved: &Snapshot) -> bool {
    let noted = match &saved.noted {
        Some(noted) => noted.as_slice() == [-5].as_slice(),
        None => false,
    };
    (saved.seed == (2 << 32) + 3 && saved.clock == 4 && saved.events == 1)
        && are_taken_from_nine(saved.taken.as_slice())
        && (saved.values.as_slice() == [-5].as_slice() && noted)
        && is_due_at_ten(saved.pending.as_slice())
}

#[test]
fn a_saved_run_is_read(rt: HostRuntime) -> Result<(), Fail> {
    let saved = read_after_end(rt.alloc(), SAVED)?;
    assert!(rt; is_as_written(&saved));
    Ok(())
}

/// Where a saved run breaks a rule of its model.
fn bad_at(alloc: Global, text: &[u8]) -> Option<usize> {
    match read_after_end(alloc, text) {
        Err(SnapshotError::Bad { at }) => Some(at),
        Err(SnapshotError::NoMemory) | Ok(_) => None,
    }
}

#[test]
fn a_saved_run_with_a_value_out_of_range_is_bad_there(rt: HostRuntime) {
    assert!(rt; bad_at(rt.alloc(), OUTSIDE) == Some(37));
}
