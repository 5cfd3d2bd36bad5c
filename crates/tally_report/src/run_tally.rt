//! The tally of one run.

use crate::item::Item;
use sig_base::List;

/// How a run ended.
#[derive(Clone, Copy, Debug, PartialEq, Eq)]
pub enum RunEnd {
    /// Nothing was pending.
    Ended,
    /// The next event was due after the stop time.
    Stopped,
    /// An event couldn't be completed.
    Fault,
    /// As many events as were asked for had occurred.
    Budget,
}

/// The tally of one run: its end with the time in ticks, and an item for each watched cell or vertex, in the order of
/// the watch list.
#[derive(Drop)]
pub struct RunTally {
    pub end: RunEnd,
    pub time: u64,
    pub items: List<Item>,
}
