//! Replications as a report: the tally of one run, the totals of many, and both as rows of a table.
#![tactic(auto)]

mod item;
mod report;
mod rows;
mod run_tally;
mod sums;
mod tally_error;
mod tally_taker;
mod tallying;
mod total_laws;
mod totals;
mod written_rows;

pub use item::{Item, Span};
pub use report::{header_csv, run_csv, totals_csv};
pub use run_tally::{RunEnd, RunTally};
pub use tally_error::TallyError;
pub use tallying::{tally_one, tally_run};
pub use total_laws::{areas_never_overflow, totals_are_added_up};
pub use totals::Totals;
