//! The pending events of a snapshot, where all that it says of them is good.

ghost use Rattle.std.specs.Prelude.{◌≡◌, ◌++◌, ◌+◌, ◌≤◌, true, length, map};
ghost use Rattle.std.specs.List.{AllByRecursion, list_all};
ghost use Rattle.sig_base.specs.declared.limits.TheConstants.{PARAMETERS_MAX, STOP_MAX};
ghost use Rattle.model_core.specs.EventGraph.{EventVertex};
ghost use Rattle.model_core.specs.Run.Step.{vertex_at};
ghost use Rattle.model_core.specs.Code.Views.{graph_of};
ghost use Rattle.model_core.specs.Saved.GoodSnapshots.{carried_of, is_wide, pending_part, saved_entry};
ghost use Rattle.model_read.specs.NamesPlaced.{HasPlaces, names_of_vertices};
ghost use Rattle.snapshot_text.specs.Inner.Judging.{if_good, Judged};
ghost use Rattle.snapshot_text.specs.Inner.RawParts.{written_carried, written_pending};

use crate::carried_value::carried_value;
use crate::numbers::at_most;
use crate::parts::{RawCarried, RawPending, written_values};
use crate::snapshot_error::SnapshotError;
use event_list::Entry;
use model_core::Model;
use model_read::Places;
use sig_base::{Carried, List};
use std::alloc::Global;

/// The most ticks from the clock on to a pending event.
const TICKS_MAX: u64 = 9_223_372_036_854_775_807;

/// The greatest priority.
const PRIORITY_MAX: u64 = 255;

/// Adds values, and gives whether all of them are numbers of 64 bits.
fn add_carried(values: &mut Carried, written: &[RawCarried<'_>]) -> bool
    requires { length values.old.items + length written.now ≤ PARAMETERS_MAX }
    ensures all { result ≡ list_all is_wide (map written_carried written.now) }
    ensures added { result ≡ true
        → values.new.items ≡ values.old.items ++ map carried_of (map written_carried written.now) }
{
    for carried in written {
        let Some(value) = carried_value(*carried) else {
            return false;
        };
        values.push(value);
    }
    true
}

/// How many parameters the vertex at a place has, where each vertex has few.
fn parameter_count(model: &Model, vertex: usize) -> usize
    requires { AllByRecursion (λ (v : EventVertex). length v.parameters ≤ PARAMETERS_MAX)
        (graph_of model.now).vertices }
    ensures is { result ≡ length (vertex_at (graph_of model.now) vertex).parameters }
    ensures within_limit { result ≤ PARAMETERS_MAX }
{
    model.parameters_at(vertex).len()
}

/// The event, if it is good for the model at this clock.
#[tactic(auto, using(crate::proofs::WrittenValues::map_written))]
fn entry_of(model: &Model, places: &Places, clock: u64, raw: &RawPending<'_>) -> Option<Entry>
    requires parameters_fit { AllByRecursion
        (λ (v : EventVertex). length v.parameters ≤ PARAMETERS_MAX)
        (graph_of model.now).vertices }
    requires placed { HasPlaces (names_of_vertices (graph_of model.now).vertices) places.now }
    requires early { clock ≤ STOP_MAX }
    ensures { result
        ≡ if_good (pending_part (graph_of model.now) (written_pending raw.now)).good
        (saved_entry (graph_of model.now) clock (written_pending raw.now)) }
{
    let ticks = at_most(raw.ticks, TICKS_MAX)?;
    let priority = at_most(raw.priority, PRIORITY_MAX)?;
    let vertex = places.find(raw.vertex.bytes)?;
    let values = written_values(&raw.values);
    if values.len() != parameter_count(model, vertex) {
        return None;
    }
    let mut carried = Carried::new();
    if !add_carried(&mut carried, values) {
        return None;
    }
    Some(Entry {
        time: clock + ticks,
        priority: priority as u8,
        vertex,
        values: carried,
    })
}

/// All pending events, at this clock.
pub(crate) fn pending_of(
    alloc: Global,
    model: &Model,
    clock: u64,
    raws: &[RawPending<'_>],
) -> Result<List<Entry>, SnapshotError>
    requires parameters_fit { AllByRecursion
        (λ (v : EventVertex). length v.parameters ≤ PARAMETERS_MAX)
        (graph_of model.now).vertices }
    requires early { clock ≤ STOP_MAX }
    ensures { Judged result
        (map (pending_part (graph_of model.now)) (map written_pending raws.now))
        (λ entries. entries
        ≡ map (saved_entry (graph_of model.now) clock) (map written_pending raws.now)) }
{
    let places = Places::of_vertices(alloc, model.vertices.as_slice())?;
    let mut entries = Vec::with_capacity(alloc, raws.len())?;
    for raw in raws {
        let Some(entry) = entry_of(model, &places, clock, raw) else {
            return Err(SnapshotError::Bad { at: raw.at });
        };
        entries.push(entry)?;
    }
    Ok(List::from_vec(entries))
}
