//! The saved run that a snapshot spells, if the snapshot is good.

ghost use Rattle.std.specs.Prelude.{◌≡◌, ◌≤◌, length};
ghost use Rattle.std.specs.List.{AllByRecursion};
ghost use Rattle.sig_base.specs.declared.limits.TheConstants.{PARAMETERS_MAX, STOP_MAX};
ghost use Rattle.model_core.specs.EventGraph.{EventVertex};
ghost use Rattle.model_core.specs.Code.Views.{graph_of};
ghost use Rattle.model_core.specs.Saved.GoodSnapshots.{snapshot_parts, saved_run};
ghost use Rattle.snapshot_text.specs.Inner.Judging.{Judged, later_parts, later_saved};
ghost use Rattle.snapshot_text.specs.Inner.RawParts.{written_snapshot};

use crate::events::pending_of;
use crate::last_noted_values::noted_of;
use crate::numbers::{at_most, seed_of};
use crate::parts::RawSnapshot;
use crate::snapshot::Snapshot;
use crate::snapshot_error::SnapshotError;
use crate::streams::taken_of;
use crate::values::values_of;
use model_core::Model;
use sig_base::{EVENTS_MAX, STOP_MAX};
use std::alloc::Global;

/// The saved run with this seed, clock and number of events, if the other parts are good.
#[tactic(auto, using(crate::proofs::JudgedParts::good_before, crate::proofs::JudgedParts::bad_before))]
fn later_judged(
    alloc: Global,
    model: &Model,
    raw: &RawSnapshot<'_>,
    seed: u64,
    clock: u64,
    events: u64,
) -> Result<Snapshot, SnapshotError>
    requires parameters_fit { AllByRecursion
        (λ (v : EventVertex). length v.parameters ≤ PARAMETERS_MAX)
        (graph_of model.now).vertices }
    requires early { clock ≤ STOP_MAX }
    ensures { Judged result (later_parts (graph_of model.now) (written_snapshot raw.now))
        (λ s. s ≡ later_saved (graph_of model.now) (written_snapshot raw.now) seed clock events) }
{
    let taken = taken_of(alloc, raw.streams.as_slice())?;
    let values = values_of(alloc, model, raw.values.as_slice())?;
    let noted = noted_of(alloc, model, &raw.noted)?;
    let pending = pending_of(alloc, model, clock, raw.pending.as_slice())?;
    if raw.values.len() < model.vars.len() {
        return Err(SnapshotError::Bad { at: raw.end_at });
    }
    Ok(Snapshot {
        seed,
        clock,
        events,
        taken,
        values,
        noted,
        pending,
    })
}

/// The saved run that a snapshot spells, if it is good for the model.
pub(crate) fn judged(
    alloc: Global,
    model: &Model,
    raw: &RawSnapshot<'_>,
) -> Result<Snapshot, SnapshotError>
    requires parameters_fit { AllByRecursion
        (λ (v : EventVertex). length v.parameters ≤ PARAMETERS_MAX)
        (graph_of model.now).vertices }
    ensures { Judged result (snapshot_parts (graph_of model.now) (written_snapshot raw.now))
        (λ s. s ≡ saved_run (graph_of model.now) (written_snapshot raw.now)) }
{
    let Some(seed) = seed_of(raw.head.seed, raw.head.seed_rest) else {
        return Err(SnapshotError::Bad {
            at: raw.head.seed_at,
        });
    };
    let Some(clock) = at_most(raw.head.clock, STOP_MAX) else {
        return Err(SnapshotError::Bad {
            at: raw.head.clock_at,
        });
    };
    let Some(events) = at_most(raw.head.events, EVENTS_MAX) else {
        return Err(SnapshotError::Bad {
            at: raw.head.events_at,
        });
    };
    later_judged(alloc, model, raw, seed, clock, events)
}
