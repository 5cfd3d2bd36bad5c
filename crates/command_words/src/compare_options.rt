//! The options of `compare`.

use sig_base::List;

/// The options of `compare`.
#[derive(Drop)]
pub struct CompareOptions {
    /// The stop time of each run, in ticks.
    pub until: u64,
    /// The seed of the first run's random streams.
    pub seed: u64,
    /// The event budget of each run: the most steps that are made.
    pub events: u64,
    /// A value for each parameter of the vertex that begins the runs, in order.
    pub starts: List<i64>,
    /// How many runs of each model there are.
    pub runs: u64,
}
