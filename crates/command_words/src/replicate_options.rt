//! The options of `replicate`.

use sig_base::List;

/// The options of `replicate`.
#[derive(Drop)]
pub struct ReplicateOptions {
    /// The stop time of each run, in ticks.
    pub until: u64,
    /// The seed of the first run's random streams.
    pub seed: u64,
    /// The event budget of each run: the most steps that are made.
    pub events: u64,
    /// How many runs there are.
    pub runs: u64,
    /// A value for each parameter of the vertex that begins the run, in order.
    pub starts: List<i64>,
    /// How far the seed of each further run is from that of the run before. After 2^64 - 1 seeds begin again at 0.
    pub stride: u64,
}
