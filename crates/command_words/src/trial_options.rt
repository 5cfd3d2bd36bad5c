//! The options of `trial`.

/// The most vertices that a made model can have.
pub const VERTICES_MADE_MAX: usize = 500;

/// The options of `trial`.
#[derive(Clone, Copy, Debug)]
pub struct TrialOptions {
    /// The number that makes the model, and the seed of the random streams.
    pub seed: u64,
    /// How many vertices the model has.
    pub vertices: usize,
    /// The stop time, in ticks.
    pub until: u64,
    /// The event budget: the most steps that are made.
    pub events: u64,
}
