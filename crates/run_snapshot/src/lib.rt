//! Snapshots of runs: what a saved run is, and that it goes on as the whole run does.
#![tactic(auto)]

mod laws;
mod parts_from_snapshot;
mod resumed_run;
mod saving;

pub use laws::{saved_runs_resume, stopped_runs_go_on};
pub use resumed_run::{RunAndTracer, resume};
pub use saving::save;
pub use snapshot_text::{
    Snapshot, SnapshotError, print_snapshot, read_snapshot, read_snapshot_pieces, snapshot_fault,
    snapshot_fault_pieces,
};
