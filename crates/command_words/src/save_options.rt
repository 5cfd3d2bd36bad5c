//! The options of `save`.

use sig_base::List;

/// The options of `save`.
#[derive(Drop)]
pub struct SaveOptions {
    /// The stop time, in ticks.
    pub until: u64,
    /// The seed of the random streams.
    pub seed: u64,
    /// How many events are made.
    pub events: u64,
    /// A value for each parameter of the vertex that begins the run, in order.
    pub starts: List<i64>,
}
