//! Tests of what no clause says of the program, through its top call; its table of statuses on
//! examples; and what its promises give.
#![tactic(auto)]

#[cfg(test)]
mod answers;
#[cfg(test)]
mod calls;
mod endings;
#[cfg(test)]
mod error_output;
#[cfg(test)]
mod failing_devices;
#[cfg(test)]
mod failing_once;
#[cfg(test)]
mod models;
#[cfg(test)]
mod places;
#[cfg(test)]
mod printed_and_reduced;
mod promises;
mod two_calls;

pub use endings::{calls_end_so, calls_never_end_so, no_status_ends_otherwise};
pub use promises::promises_are_of_what_is_written;
pub use two_calls::written_models_are_the_same;
