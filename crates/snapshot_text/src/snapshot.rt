//! A snapshot: the parts of a run that is stopped.

use event_list::Entry;
use sig_base::List;
use std::marker::Model;

/// A run that was stopped, without its model. Contracts see it as the definition's saved run.
#[derive(Drop)]
pub struct Snapshot {
    /// The seed of its random streams.
    pub seed: u64,
    /// The clock, in ticks.
    pub clock: u64,
    /// How many events occurred.
    pub events: u64,
    /// How many words each of the 64 streams gave.
    pub taken: List<u64>,
    /// The value of each cell, variable by variable.
    pub values: List<i64>,
    /// The value of each watched cell at the last `at` note, if there was one.
    pub noted: Option<List<i64>>,
    /// The pending events, in the order in which they are next.
    pub pending: List<Entry>,
}

impl Model for Snapshot {
    ghost use Rattle.model_core.specs.Saved.SavedRun.{SavedRun};

    ghost Value = { SavedRun };

    ghost view = { λ s. record {
      seed = s.seed;
      clock = s.clock;
      events = s.events;
      taken = s.taken;
      values = s.values;
      noted = s.noted;
      pending = s.pending;
    } };
}
