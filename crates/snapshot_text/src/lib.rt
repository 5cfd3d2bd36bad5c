//! The text of saved runs: what is kept of a run that is stopped, printed and read.
#![tactic(auto)]

mod carried_value;
mod events;
mod judging;
mod last_noted_values;
mod laws;
mod numbers;
mod parts;
mod printing;
mod reading;
mod skimming;
mod snapshot;
mod snapshot_error;
mod streams;
mod token_calls;
mod values;
mod whole;

pub use laws::{saved_documents_read_back, saved_runs_read_back, snapshots_have_one_reading};
pub use printing::print_snapshot;
pub use skimming::snapshot_fault_pieces;
pub use snapshot::Snapshot;
pub use snapshot_error::SnapshotError;
pub use token_calls::{read_snapshot, snapshot_fault};
pub use whole::read_snapshot_pieces;
